//! Names get numbers in the order in which they first appear.
ghost use Rattle.std.specs.Prelude.{◌≡◌, ◌<◌, ◌≤◌, ◌+◌, ◌^◌, [], length, map, IfOk, OnOk, OnErr};
ghost use Rattle.script_text.specs.Names.{number_of_name, with_name};

use std::alloc::{AllocError, Global};
use std::collections::HashMap;
use std::marker::Model;

/// A list of names, in which a name is found by its bytes.
#[derive(Drop)]
pub(crate) struct Names<'s> {
    names: Vec<&'s [u8]>,
    numbers: HashMap<&'s [u8], u32>,
}

impl<'s> Model for Names<'s> {
    ghost use Rattle.std.specs.Prelude.{◌≡◌, ℕ, List, map, bytes_eq};
    ghost use Rattle.std.specs.HashMap.{get_by};
    ghost use Rattle.script_text.specs.Names.{position_of_name};

    ghost Value = { List (List ℕ) };

    ghost view = { λ list. map (λ name. name.now) list.names.items };

    ghost invariant = { λ list. (bytes : List ℕ) →
        get_by (λ name. bytes_eq bytes name.now) list.numbers
        ≡ position_of_name (map (λ name. name.now) list.names.items) bytes };
}

impl<'s> Names<'s> {
    pub(crate) fn new(alloc: Global) -> Self
        ensures { result ≡ [] }
    {
        Names {
            names: Vec::new(alloc),
            numbers: HashMap::new(alloc),
        }
    }

    /// The number of a name. One that is not there is added.
    pub(crate) fn enter(&mut self, name: &'s [u8]) -> Result<u32, AllocError>
        requires { length self.old < 2 ^ 31 }
        ensures entered { OnOk result (self.new ≡ with_name self.old name.now) }
        ensures number { IfOk result (λ number. number ≡ number_of_name self.new name.now) }
        ensures unchanged { OnErr result (self.new ≡ self.old) }
        ensures few { length self.new ≤ length self.old + 1 }
    {
        if let Some(number) = self.numbers.get(name) {
            return Ok(*number);
        }
        let number = self.names.len() as u32;
        // Room is made first: a name in the table alone would have a number and no place.
        self.names.reserve(1)?;
        self.numbers.insert(name, number)?;
        if self.names.push(name).is_err() {
            unreachable!();
        }
        Ok(number)
    }

    /// How many names there are.
    pub(crate) fn len(&self) -> usize
        ensures { result ≡ length self.now }
    {
        self.names.len()
    }

    pub(crate) fn into_names(self) -> Vec<&'s [u8]>
        ensures { map (λ name. name.now) result.items ≡ self.entry }
    {
        let Names { names, numbers: _ } = self;
        names
    }
}
