//! How far a scavenge has come.
ghost use Rattle.std.specs.Prelude.{◌≡◌, ◌+◌, ◌^◌, ◌<◌};
ghost use Rattle.scavenger.specs.Walking.{stays_young};

/// Where copies go, and how many words they have.
#[derive(Clone, Copy)]
pub(crate) struct Progress {
    /// Where the next copy that stays young goes.
    pub(crate) fill: u32,
    /// How many words all copies have.
    pub(crate) copied: u32,
    /// A number of words that no free run has: the fewest for which none was found, and more than those
    /// of a page before.
    pub(crate) refused: u32,
}

impl Progress {
    /// One more copy of so many words stays young. Returns where it goes.
    pub(crate) fn stays_young(&mut self, size: u32) -> u32
        requires { self.old.fill + size < 2 ^ 32 }
        ensures stays { self.new ≡ stays_young self.old size }
        ensures to { result ≡ self.old.fill }
    {
        let to = self.fill;
        self.fill += size;
        to
    }
}
