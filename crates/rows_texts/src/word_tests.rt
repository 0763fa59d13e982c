// The words of the command line.
use crate::expect::expect_same;
use app_words::{Command, Names, names_of, read_words};
use pg_base::{PageNo, Words};
use std::alloc::Global;
use std::process::Abort;

fn words_of(rt: &impl Abort, alloc: Global, texts: &[&str]) -> Words {
    let mut words = Words::begin(alloc);
    for text in texts {
        words.push(text).expect(rt, "memory");
    }
    words
}

// `replay`, then so many names.
fn replay(rt: &impl Abort, alloc: Global, names: usize) -> Words {
    let mut words = words_of(rt, alloc, &["replay"]);
    for _ in 0..names {
        words.push("f").expect(rt, "memory");
    }
    words
}

// The words, and the command or the place of the first that is wrong.
static CASES: [(&[&str], Result<Command, u32>); 17] = [
    (&[], Err(1)),
    (&["repair", "d"], Err(1)),
    (&["check"], Err(2)),
    (&["check", "-d"], Err(2)),
    (&["check", "d"], Ok(Command::Check)),
    (&["check", "d", "e"], Err(3)),
    (&["page", "d", "9"], Ok(Command::ShowPage(PageNo(9)))),
    (&["page", "d", "0"], Ok(Command::ShowPage(PageNo(0)))),
    (
        &["page", "d", "4294967295"],
        Ok(Command::ShowPage(PageNo(4_294_967_295))),
    ),
    (&["page", "d", "4294967296"], Err(3)),
    (&["page", "d", "09"], Err(3)),
    (&["page", "d", "+9"], Err(3)),
    (&["page", "d"], Err(3)),
    (&["page", "d", "9", "9"], Err(4)),
    (&["replay", "d", "", "s", "t"], Err(3)),
    (&["replay", "d", "l", "s", "t"], Ok(Command::Replay)),
    (&["replay", "d", "l", "s", "t", "-u"], Err(6)),
];

fn expect_command(rt: &impl Abort, words: &Words, wanted: &Result<Command, u32>) {
    let found = read_words(words).map_err(|stop| stop.at);
    expect_same(rt, &found, wanted);
}

#[test]
fn the_first_wrong_or_missing_word_is_named(rt: HostRuntime) {
    for (texts, wanted) in &CASES {
        expect_command(&rt, &words_of(&rt, rt.alloc(), texts), wanted);
    }
}

// How many names stand behind `replay`.
static COUNT_CASES: [(usize, Result<Command, u32>); 4] = [
    (3, Err(5)),
    (19, Ok(Command::Replay)),
    (20, Err(21)),
    (30, Err(21)),
];

#[test]
fn replay_takes_so_many_names(rt: HostRuntime) {
    for (names, wanted) in &COUNT_CASES {
        expect_command(&rt, &replay(&rt, rt.alloc(), *names), wanted);
    }
}

fn is_named(names: &Names) -> bool {
    names.volume.as_str() == "d" && names.log.as_str() == "l"
}

static SOURCES: [&str; 2] = ["s", "t"];

fn has_sources(names: &Names) -> bool {
    names.sources.len() == SOURCES.len()
        && names
            .sources
            .iter()
            .zip(SOURCES.iter())
            .all(|(name, wanted)| name.as_str() == *wanted)
}

#[test]
fn the_files_are_named(rt: HostRuntime) {
    let words = words_of(&rt, rt.alloc(), &["replay", "d", "l", "s", "t"]);
    let names = names_of(rt.alloc(), &words).expect(&rt, "memory");
    let is_right = is_named(&names) && has_sources(&names);
    assert!(rt; is_right);
}
