ghost use Rattle.std.specs.Prelude.{◌≡◌, ◌<◌, ◌++◌, [], ◌∷◌, length, slice_get, OnOk, OnErr, Some};

use crate::NoMemory;
use std::alloc::Global;
use std::marker::Model;

/// The words of a command line. Contracts see the list of their texts.
#[derive(Drop)]
pub struct Words {
    alloc: Global,
    items: Vec<String>,
}

impl Model for Words {
    ghost use Rattle.std.specs.Prelude.{List, ℕ, map, string_bytes};

    ghost Value = { List (List ℕ) };

    ghost view = { λ w. map string_bytes w.items.items };
}

impl Words {
    /// No words.
    pub fn begin(alloc: Global) -> Words
        ensures { result ≡ [] }
    {
        Words {
            alloc,
            items: Vec::new(alloc),
        }
    }

    /// Adds a word at the end. Where memory runs out the words are as before.
    pub fn push(&mut self, word: &str) -> Result<(), NoMemory>
        ensures ok { OnOk result (self.new ≡ self.old ++ word.now ∷ []) }
        ensures err { OnErr result (self.new ≡ self.old) }
    {
        let word = String::from_str(self.alloc, word)?;
        self.items.push(word)?;
        Ok(())
    }

    /// How many words there are.
    pub fn count(&self) -> usize
        ensures { result ≡ length self.now }
    {
        self.items.len()
    }

    /// Word i, from 0.
    pub fn word(&self, i: usize) -> &str
        requires { i < length self.now }
        ensures { slice_get self.now i ≡ Some result.now }
    {
        self.items[i].as_str()
    }
}
