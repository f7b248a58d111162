//! String interner.
ghost use Rattle.std.specs.Prelude.{◌≡◌, ◌↔◌, ℕ, [], ◌∷◌, ◌++◌, Some, Ok, IsTrue, slice_get, IfOk, IfErr, OnOk, OnErr, length};
ghost use Rattle.std.specs.Option.{option_copied};
ghost use Rattle.srcset.specs.NameTable.{with_text, shown_text, file_name_of, KeepsNumbers, NumbersOnce};
ghost use Rattle.srcset.specs.Fault.{IsMemoryFault};

use crate::fault::Fault;
use indexmap::IndexSet;
use std::alloc::Global;
use std::marker::Model;

/// A table that numbers texts: one number a text, one text a number, which never changes.
///
/// The numbers are 0, 1, 2 and so on, in the order in which the texts were added. A text is any bytes, also
/// none. Both look-ups take constant time, but for the bytes of the text.
#[derive(Drop)]
pub struct Names {
    alloc: Global,
    texts: IndexSet<Vec<u8>>,
}

impl Model for Names {
    ghost use Rattle.std.specs.Prelude.{map};
    ghost use Rattle.srcset.specs.NameTable.{Texts, NumbersOnce};

    ghost Value = { Texts };

    ghost view = { λ n. map (λ text. text.items) n.texts.keys };

    ghost invariant = { λ n. NumbersOnce (map (λ text. text.items) n.texts.keys) };
}

impl Names {
    /// The table with no text. It stores `alloc`, and allocates nothing yet.
    pub fn new(alloc: Global) -> Names
        ensures { result ≡ [] }
    {
        Names {
            alloc,
            texts: IndexSet::new(alloc),
        }
    }

    /// How many texts have a number.
    pub fn len(&self) -> usize
        ensures { result ≡ length self.now }
    {
        self.texts.len()
    }

    /// Whether no text has a number.
    pub fn is_empty(&self) -> bool
        ensures { IsTrue result ↔ (self.now ≡ []) }
    {
        self.texts.is_empty()
    }

    /// The text of a number, or `None` where no text has it. Allocates nothing.
    pub fn text(&self, n: usize) -> Option<&[u8]>
        ensures { option_copied result ≡ slice_get self.now n }
    {
        match self.texts.get_index(n) {
            Some(text) => Some(text.as_slice()),
            None => None,
        }
    }

    /// The text of a number as a fault shows it: empty where no text has the number, and where its
    /// text is not UTF-8. Allocates nothing.
    pub fn shown_text(&self, n: usize) -> &str
        ensures { result.now ≡ shown_text self.now n }
    {
        let Some(text) = self.text(n) else {
            return "";
        };
        match str::from_utf8(text) {
            Ok(name) => name,
            Err(_) => "",
        }
    }

    /// The text of a number as the name of a file, in the same way.
    pub fn file_name(&self, n: usize) -> &str
        ensures { result.now ≡ file_name_of self.now n }
    {
        self.shown_text(n)
    }

    /// The number of a text, or `None` where it has none. Allocates nothing.
    pub fn find(&self, text: &[u8]) -> Option<usize>
        ensures found { (n : ℕ) → (result ≡ Some n) ↔ (slice_get self.now n ≡ Some text.now) }
        ensures once { NumbersOnce self.now }
    {
        self.texts.get_index_of(text)
    }

    /// The number of a text. A text that has none gets the next number, the count of texts so far.
    ///
    /// Fails with 801 where memory runs out, which only a new text can cause. Then the table is as it was.
    pub fn intern(&mut self, text: &[u8]) -> Result<usize, Fault>
        ensures text { IfOk result (λ n. slice_get self.new n ≡ Some text.now) }
        ensures known { (n : ℕ) → slice_get self.old n ≡ Some text.now → result ≡ Ok n }
        ensures grows { OnOk result (self.new ≡ with_text self.old text.now) }
        ensures keeps { KeepsNumbers self.old self.new }
        ensures once { NumbersOnce self.new }
        ensures err { OnErr result (self.new ≡ self.old) }
        ensures fault { IfErr result IsMemoryFault }
    {
        if let Some(n) = self.find(text) {
            return Ok(n);
        }
        let Ok(copy) = Vec::from_slice(self.alloc, text) else {
            return Err(Fault::memory(self.alloc));
        };
        let Ok((n, _)) = self.texts.insert_full(copy) else {
            return Err(Fault::memory(self.alloc));
        };
        Ok(n)
    }
}
