// The command that the words ask for.
ghost use Rattle.std.specs.Prelude.{◌≡◌, ◌+◌, ◌<◌, slice_get, MatchResult, IfSome, Some, None};
ghost use Rattle.std.specs.Option.{option_copied};
ghost use Rattle.app_words.specs.Words as spec;

use pg_base::{PageNo, Words};
use sql_script::number_within;

/// What the words ask for.
#[derive(Clone, Copy, Debug, PartialEq, Eq)]
pub enum Command {
    /// The report of a still file.
    Check,
    /// The header and the slots of a page.
    ShowPage(PageNo),
    /// Sessions in turns over a file and its log.
    Replay,
}

/// What the first word asks to be done.
#[derive(Clone, Copy)]
pub enum Verb {
    Check,
    Page,
    Replay,
}

/// The place of the first wrong or missing word, from 1.
#[derive(Clone, Copy)]
pub struct WordStop {
    pub at: u32,
}

/// Word i, from 0, where it is there.
pub fn word_at(words: &Words, i: usize) -> Option<&str>
    ensures { option_copied result ≡ slice_get words.now i }
{
    if i < words.count() {
        Some(words.word(i))
    } else {
        None
    }
}

/// What the first word asks to be done.
fn verb_of(word: Option<&str>) -> Option<Verb>
    ensures { result ≡ spec.verb_of (option_copied word.entry) }
{
    match word {
        Some(word) => {
            if word == "check" {
                return Some(Verb::Check);
            }
            if word == "page" {
                return Some(Verb::Page);
            }
            if word == "replay" {
                return Some(Verb::Replay);
            }
            None
        }
        None => None,
    }
}

fn names_file(word: &str) -> bool
    ensures { result ≡ spec.names_file word.now }
{
    match word.as_bytes() {
        [] => false,
        [first, ..] => *first != b'-',
    }
}

fn is_file(word: Option<&str>) -> bool
    ensures { result ≡ spec.is_file (option_copied word.entry) }
{
    match word {
        Some(word) => names_file(word),
        None => false,
    }
}

fn is_no_file(word: Option<&str>) -> bool
    ensures { result ≡ spec.is_no_file (option_copied word.entry) }
{
    match word {
        Some(word) => !names_file(word),
        None => false,
    }
}

/// The number of a page that the word is.
fn page_number(word: &str) -> Option<u32>
    ensures { result ≡ spec.page_of word.now }
{
    number_within(0, u32::MAX, word.as_bytes())
}

fn is_page(word: Option<&str>) -> bool
    ensures { result ≡ spec.is_page (option_copied word.entry) }
{
    match word {
        Some(word) => page_number(word).is_some(),
        None => false,
    }
}

/// Whether the word at a place behind the first is wrong or missing.
fn is_wrong_at(verb: Verb, words: &Words, i: usize) -> bool
    ensures { result ≡ spec.is_wrong_at verb words.now i }
{
    let word = word_at(words, i);
    match verb {
        Verb::Check => {
            if i < 2 {
                return !is_file(word);
            }
            word.is_some()
        }
        Verb::Page => {
            if i < 2 {
                return !is_file(word);
            }
            if i < 3 {
                return !is_page(word);
            }
            word.is_some()
        }
        Verb::Replay => {
            if i < 5 {
                return !is_file(word);
            }
            if i < 20 {
                return is_no_file(word);
            }
            word.is_some()
        }
    }
}

/// How many places are looked at behind the first.
fn places_of(verb: Verb) -> usize
    ensures { result ≡ spec.places_of verb }
{
    match verb {
        Verb::Check => 2,
        Verb::Page => 3,
        Verb::Replay => 20,
    }
}

/// The first place behind the first at which a word is wrong or missing.
fn wrong_place(verb: Verb, words: &Words) -> Option<usize>
    ensures least { result ≡ spec.least (spec.is_wrong_at verb words.now) (spec.places_of verb) 1 }
    ensures low { IfSome result (λ i. i < 21) }
{
    let end = places_of(verb) + 1;
    for i in 1..end {
        if is_wrong_at(verb, words, i) {
            return Some(i);
        }
    }
    None
}

/// The number of a page that the third word is; 0 where it is none.
fn page_asked(words: &Words) -> PageNo
    ensures { result.0 ≡ spec.page_asked words.now }
{
    match word_at(words, 2) {
        Some(word) => PageNo(page_number(word).unwrap_or(0)),
        None => PageNo(0),
    }
}

/// The command that right words ask for.
fn command_of(words: &Words, verb: Verb) -> Command
    ensures { result ≡ spec.command_of words.now verb }
{
    match verb {
        Verb::Check => Command::Check,
        Verb::Page => Command::ShowPage(page_asked(words)),
        Verb::Replay => Command::Replay,
    }
}

/// The command that the words ask for, exactly where they have its form.
pub fn read_words(words: &Words) -> Result<Command, WordStop>
    ensures { MatchResult result (λ command. spec.Asks command words.now) (λ stop. spec.first_wrong words.now ≡ Some stop.at) }
{
    let Some(verb) = verb_of(word_at(words, 0)) else {
        return Err(WordStop { at: 1 });
    };
    match wrong_place(verb, words) {
        Some(i) => Err(WordStop { at: i as u32 + 1 }),
        None => Ok(command_of(words, verb)),
    }
}
