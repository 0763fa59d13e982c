// The files that the words name.
ghost use Rattle.std.specs.Prelude.{◌≡◌, [], ◌≤◌, drop, length, map, string_bytes, IfOk, slice_index_or};
ghost use Rattle.app_words.specs.Words as spec;
ghost use Rattle.app_words.specs.declared.command.Command.TheVariants.{Replay};
ghost use Rattle.app_words.specs.Names.{AreNames};

use crate::command::{Command, read_words};
use pg_base::{NoMemory, Words};
use std::alloc::Global;

/// The files that a command names. Where it has none of a kind, or the words are wrong, that is empty.
#[derive(Drop)]
pub struct Names {
    pub volume: String,
    pub log: String,
    /// The schedule, and then the scripts.
    pub sources: Vec<String>,
}

fn copied(alloc: Global, words: &Words, i: usize) -> Result<String, NoMemory>
    ensures { IfOk result (λ name. string_bytes name ≡ slice_index_or words.now i []) }
{
    if i < words.count() {
        Ok(String::from_str(alloc, words.word(i))?)
    } else {
        Ok(String::new(alloc))
    }
}

/// The words from place 3 on.
fn sources_of(alloc: Global, words: &Words) -> Result<Vec<String>, NoMemory>
    ensures { IfOk result (λ names. map string_bytes names.items ≡ drop 3 words.now) }
{
    let mut names = Vec::new(alloc);
    for i in 3..words.count() {
        names.push(copied(alloc, words, i)?)?;
    }
    Ok(names)
}

/// The names of the files that the words name. A run names a schedule and one to sixteen scripts.
pub fn names_of(alloc: Global, words: &Words) -> Result<Names, NoMemory>
    ensures names { IfOk result (AreNames words.now) }
    ensures some { IfOk result (λ names. spec.Asks Replay words.now → 2 ≤ length names.sources.items) }
    ensures few { IfOk result (λ names. length names.sources.items ≤ 17) }
{
    match read_words(words) {
        Err(_) => Ok(Names {
            volume: String::new(alloc),
            log: String::new(alloc),
            sources: Vec::new(alloc),
        }),
        Ok(Command::Check | Command::ShowPage(_)) => Ok(Names {
            volume: copied(alloc, words, 1)?,
            log: String::new(alloc),
            sources: Vec::new(alloc),
        }),
        Ok(Command::Replay) => Ok(Names {
            volume: copied(alloc, words, 1)?,
            log: copied(alloc, words, 2)?,
            sources: sources_of(alloc, words)?,
        }),
    }
}
