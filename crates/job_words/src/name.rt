// Words and names.
ghost use Rattle.std.specs.Prelude.{◌≡◌, ◌≤◌, ◌++◌, ◌∷◌, [], length, IfOk, OnOk, OnErr};

use std::alloc::{AllocError, Global};
use std::marker::Model;

/// A name of a file, as its word has it.
#[derive(Drop)]
pub struct Name {
    text: String,
}

impl Model for Name {
    ghost use Rattle.std.specs.Prelude.{List, ℕ, string_bytes};

    ghost Value = { List ℕ };

    ghost view = { λ a. string_bytes a.text };
}

impl Name {
    // A name with this text.
    pub(crate) fn copy(alloc: Global, text: &str) -> Result<Name, AllocError>
        ensures { IfOk result (λ name. name ≡ text.now) }
    {
        let text = String::from_str(alloc, text)?;
        Ok(Name { text })
    }

    /// The text of the name.
    pub fn as_text(&self) -> &str
        ensures { result.now ≡ self.now }
    {
        self.text.as_str()
    }
}

/// The names of the further samples, from 2 to at most 16, in the order of their numbers.
#[derive(Drop)]
pub struct Names16 {
    names: Vec<Name>,
}

impl Model for Names16 {
    ghost use Rattle.std.specs.Prelude.{◌≤◌, List, ℕ, length};

    ghost Value = { List (List ℕ) };

    ghost view = { λ a. a.names.items };

    ghost invariant = { λ a. length a.names.items ≤ 15 };
}

impl Names16 {
    // These names.
    pub(crate) fn from_vec(names: Vec<Name>) -> Names16
        requires { length names.items ≤ 15 }
        ensures { result ≡ names.items }
    {
        Names16 { names }
    }

    /// The names in the order of their numbers: the first is that of sample 2.
    pub fn as_slice(&self) -> &[Name]
        ensures names { result.now ≡ self.now }
        ensures few { length result.now ≤ 15 }
    {
        self.names.as_slice()
    }
}

/// The words of a run, the command first.
#[derive(Drop)]
pub struct Words {
    alloc: Global,
    words: Vec<Name>,
}

impl Model for Words {
    ghost use Rattle.std.specs.Prelude.{List, ℕ};

    ghost Value = { List (List ℕ) };

    ghost view = { λ a. a.words.items };
}

impl Words {
    /// No word.
    pub fn new(alloc: Global) -> Words
        ensures { result ≡ [] }
    {
        Words {
            alloc,
            words: Vec::new(alloc),
        }
    }

    /// Adds a word after the others.
    pub fn push(&mut self, word: &str) -> Result<(), AllocError>
        ensures ok { OnOk result (self.new ≡ self.old ++ word.now ∷ []) }
        ensures err { OnErr result (self.new ≡ self.old) }
    {
        let word = Name::copy(self.alloc, word)?;
        self.words.push(word)?;
        Ok(())
    }

    /// The words in their order.
    pub fn as_slice(&self) -> &[Name]
        ensures { result.now ≡ self.now }
    {
        self.words.as_slice()
    }
}
