//! A stack of numbers.
//!
//! Model: the list of the numbers, the newest first.
ghost use Rattle.std.specs.Prelude.{◌≡◌, [], ◌∷◌, OnOk, length, slice_get, drop};

use std::alloc::{AllocError, Global};
use std::marker::Model;

/// Numbers of which the newest is on top.
#[derive(Drop)]
pub(crate) struct Stack {
    numbers: Vec<u32>,
}

impl Model for Stack {
    ghost use Rattle.std.specs.Prelude.{ℕ, List, reverse};

    ghost Value = { List ℕ };

    ghost view = { λ stack. reverse stack.numbers.items };
}

impl Stack {
    pub(crate) fn new(alloc: Global) -> Self
        ensures { result ≡ [] }
    {
        Stack {
            numbers: Vec::new(alloc),
        }
    }

    pub(crate) fn push(&mut self, number: u32) -> Result<(), AllocError>
        ensures { OnOk result (self.new ≡ number ∷ self.old) }
    {
        self.numbers.push(number)?;
        Ok(())
    }

    /// Takes the newest number, if there is one.
    pub(crate) fn pop(&mut self) -> Option<u32>
        ensures popped { result ≡ slice_get self.old 0 }
        ensures rest { self.new ≡ drop 1 self.old }
    {
        self.numbers.pop()
    }

    /// The newest number, if there is one.
    pub(crate) fn top(&self) -> Option<u32>
        ensures { result ≡ slice_get self.now 0 }
    {
        self.numbers.last().copied()
    }

    /// How many numbers there are.
    pub(crate) fn len(&self) -> usize
        ensures { result ≡ length self.now }
    {
        self.numbers.len()
    }
}
