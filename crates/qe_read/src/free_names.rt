//! The numbers of the free names.

ghost use Rattle.std.specs.Prelude.{◌≡◌, ◌<◌, ◌≤◌, ◌^◌, length, map, IfOk};
ghost use Rattle.qe_read.specs.Names.{names_before};
ghost use Rattle.qe_read.specs.FreeNames.{AreLettersOf};

use crate::OutOfMemory;
use crate::scope::letters;
use qe_poly::Var;
use qe_syntax::Name;
use std::alloc::Global;
use std::marker::Model;

/// The names that are free in a text, each once, in the order of their bytes. Contracts see the list of their letters.
#[derive(Drop)]
pub struct FreeNames<'a> {
    names: Vec<&'a [u8]>,
}

impl<'a> Model for FreeNames<'a> {
    ghost use Rattle.std.specs.Prelude.{List, ℕ, ◌<◌, ◌^◌, length, map};
    ghost use Rattle.std.specs.List.Sorted.{IsStrictlySortedBy};
    ghost use Rattle.qe_read.specs.Names.{letters_cmp};

    ghost Value = { List (List ℕ) };

    ghost view = { λ f. map (λ w. w.now) f.names.items };

    ghost invariant = { λ f. IsStrictlySortedBy letters_cmp (map (λ w. w.now) f.names.items)
        × (length f.names.items < 2 ^ 32) };
}

impl<'a> FreeNames<'a> {
    /// The letters of these names, each once, in the order of their bytes.
    pub fn new(alloc: Global, text: &'a [u8], names: &[Name]) -> Result<FreeNames<'a>, OutOfMemory>
        requires { length names.now < 2 ^ 32 }
        ensures letters { IfOk result (λ free. AreLettersOf text.now names.now free) }
        ensures few { IfOk result (λ free. length free ≤ length names.now) }
    {
        let mut spelled = Vec::with_capacity(alloc, names.len())?;
        for name in names {
            spelled.push(letters(text, *name))?;
        }
        spelled.sort_unstable();
        spelled.dedup();
        Ok(FreeNames { names: spelled })
    }

    /// How many there are, fewer than 2^32.
    pub fn len(&self) -> usize
        ensures len { result ≡ length self.now }
        ensures few { length self.now < 2 ^ 32 }
    {
        self.names.len()
    }

    /// Their letters, in order.
    pub fn names(&self) -> &[&'a [u8]]
        ensures { map (λ w. w.now) result.now ≡ self.now }
    {
        self.names.as_slice()
    }

    /// The variable of a free name: its number is how many free names come before it.
    pub fn variable(&self, letters: &[u8]) -> Var
        ensures { result.0 ≡ names_before self.now letters.now }
    {
        match self.names.binary_search(&letters) {
            Ok(place) | Err(place) => Var(place as u32),
        }
    }
}
