//! Words that count how often they are loaded.

use word_store::{Reads, VecWords};

/// Words, and how many of them were loaded.
#[derive(Drop)]
pub(crate) struct Counted {
    pub(crate) words: VecWords,
    pub(crate) loads: u32,
}

impl Reads for Counted {
    ghost words = { λ place. place.words };

    ghost IsSteady = { λ _. Unit {0} };

    ghost Rest = { λ _ _. Unit {0} };

    ghost rest_itself = { λ _. tt };

    ghost rest_again = { λ _ _ _ _ _. tt };

    ghost stays_steady = { λ _ _ _ _. tt };

    fn count(&self) -> u32 {
        self.words.count()
    }

    fn load(&mut self, a: u32) -> u64 {
        self.loads = self.loads.saturating_add(1);
        self.words.load(a)
    }
}
