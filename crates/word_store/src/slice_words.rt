//! Words that are borrowed to be read, as those of an image.
ghost use Rattle.std.specs.Prelude.{◌≡◌, ◌≤◌, length};

use crate::words::Reads;
use std::marker::Model;

/// Borrowed words. Nobody changes them while they are borrowed, so they are always steady.
#[derive(Drop)]
pub struct SliceWords<'w> {
    words: &'w [u64],
}

impl<'w> Model for SliceWords<'w> {
    ghost use Rattle.std.specs.Prelude.{ℕ, ◌<◌, ◌^◌, List, length};

    ghost Value = { List ℕ };

    ghost view = { λ place. place.words.now };

    ghost invariant = { λ place. length place.words.now < 2 ^ 32 };
}

impl<'w> SliceWords<'w> {
    /// These words. An address has 32 bits, so there may be `u32::MAX` of them at most: a caller
    /// that does not know it compares `words.len()`.
    pub fn new(words: &'w [u64]) -> SliceWords<'w>
        requires { length words.now ≤ u32.MAX }
        ensures { result ≡ words.now }
    {
        SliceWords { words }
    }
}

impl<'w> Reads for SliceWords<'w> {
    ghost words = { λ place. place };

    ghost IsSteady = { λ _. Unit {0} };

    ghost Rest = { λ _ _. Unit {0} };

    ghost rest_itself = { λ _. tt };

    ghost rest_again = { λ _ _ _ _ _. tt };

    ghost stays_steady = { λ _ _ _ _. tt };

    fn count(&self) -> u32 {
        self.words.len() as u32
    }

    fn load(&mut self, a: u32) -> u64 {
        self.words[a as usize]
    }
}
