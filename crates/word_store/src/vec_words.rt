//! Words of their owner's own, in memory.
ghost use Rattle.std.specs.Prelude.{◌≡◌, IfOk, replicate};

use crate::words::{Reads, Words};
use std::alloc::Global;
use std::marker::Model;
use tagged_word::NoMemory;

/// Words in memory. Nobody else changes them, so they are always steady.
#[derive(Drop)]
pub struct VecWords {
    words: Vec<u64>,
}

impl Model for VecWords {
    ghost use Rattle.std.specs.Prelude.{ℕ, ◌<◌, ◌^◌, List, length};

    ghost Value = { List ℕ };

    ghost view = { λ place. place.words.items };

    ghost invariant = { λ place. length place.words.items < 2 ^ 32 };
}

impl VecWords {
    /// So many words of 0. It takes all the memory that they need, and fails for want of memory
    /// alone: later calls need none.
    pub fn new(alloc: Global, count: u32) -> Result<VecWords, NoMemory>
        ensures made { IfOk result (λ words. words ≡ replicate count 0) }
    {
        let words = vec![in alloc; 0u64; count as usize]?;
        Ok(VecWords { words })
    }
}

impl Reads for VecWords {
    ghost words = { λ place. place };

    ghost IsSteady = { λ _. Unit {0} };

    ghost Rest = { λ _ _. Unit {0} };

    ghost rest_itself = { λ _. tt };

    ghost rest_again = { λ _ _ _ _ _. tt };

    ghost stays_steady = { λ _ _ _ _. tt };

    fn count(&self) -> u32 {
        self.words.len() as u32
    }

    fn load(&mut self, a: u32) -> u64 {
        self.words[a as usize]
    }
}

impl Words for VecWords {
    fn put(&mut self, a: u32, word: u64) {
        self.words[a as usize] = word;
    }
}
