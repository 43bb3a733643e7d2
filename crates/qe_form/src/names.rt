//! The names of variables, and a formula with them.

ghost use Rattle.std.specs.Prelude.{◌≡◌, ◌<◌, ◌-◌, ◌^◌, ◌++◌, ◌∷◌, [], length, map, slice_get, option_copied, OnOk, OnErr};
ghost use Rattle.std.specs.String.{string_bytes};

use crate::{Form, OutOfMemory, Var};
use std::alloc::Global;
use std::marker::Model;

/// The names of the variables, fewer than 2^32: the place of a name, counted from 0, is its variable's number.
#[derive(Drop)]
pub struct Names {
    names: Vec<String>,
}

impl Model for Names {
    ghost use Rattle.std.specs.Prelude.{List, ℕ, ◌<◌, ◌^◌, length, map};
    ghost use Rattle.std.specs.String.{string_bytes};

    ghost Value = { List (List ℕ) };

    ghost view = { λ n. map string_bytes n.names.items };

    ghost invariant = { λ n. length n.names.items < 2 ^ 32 };
}

impl Names {
    /// No names. It takes no memory; `push` uses the allocator handed in here.
    pub fn new(alloc: Global) -> Names
        ensures { result ≡ [] }
    {
        Names {
            names: Vec::new(alloc),
        }
    }

    /// Names the next variable. Where memory runs out the names are as before and the new one is dropped.
    pub fn push(&mut self, name: String) -> Result<(), OutOfMemory>
        requires { length self.old < 2 ^ 32 - 1 }
        ensures ok { OnOk result (self.new ≡ self.old ++ string_bytes name ∷ []) }
        ensures err { OnErr result (self.new ≡ self.old) }
    {
        self.names.push(name)?;
        Ok(())
    }

    /// The names in order.
    pub fn items(&self) -> &[String]
        ensures { map string_bytes result.now ≡ self.now }
    {
        self.names.as_slice()
    }

    /// How many names there are. The variables named are those whose numbers are below it.
    pub fn len(&self) -> u32
        ensures { result ≡ length self.now }
    {
        self.names.len() as u32
    }

    /// The name of a variable; `None` where its number is not below `len`.
    pub fn get(&self, var: Var) -> Option<&str>
        ensures { option_copied result ≡ slice_get self.now var.0 }
    {
        self.names.get(var.0 as usize).map(String::as_str)
    }
}

/// A formula with the names of its variables.
#[derive(Drop)]
pub struct Input {
    pub form: Form,
    pub names: Names,
}
