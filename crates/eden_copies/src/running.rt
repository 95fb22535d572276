//! A run of a worker.
ghost use Rattle.std.specs.Prelude.{◌≡◌, ◌<◌, ◌≤◌, [], length};
ghost use Rattle.page_space.specs.Extents.{eden_start};
ghost use Rattle.eden_copies.specs.Eden.{deal_of, MayCopy};
ghost use Rattle.eden_copies.specs.Sides.{idle};
ghost use Rattle.eden_copies.specs.Steps.{IsReady};
ghost use Rattle.eden_copies.specs.Copied.{HasCopied};

use crate::dealing::{follow_recorded, follow_roots};
use crate::scanning::scan;
use crate::worker::Worker;
use claims::{ClaimSeat, Claims};
use crew::Gate;
use remembered_set::Remembered;
use shared_table::OwnWords;

impl Worker {
    /// Copies what its slots lead to, to a room that stands for the words from an address on. Of the first root words
    /// and the recorded slots, in order, the first of its slots has this number, and so many lie from one to the next.
    /// Nothing is stored but in its room. Where another worker was first to claim a cell, its copy is the one that
    /// counts.
    pub fn run<G: Gate>(
        &mut self,
        words: &OwnWords,
        recorded: &Remembered,
        claims: &Claims,
        seat: &mut ClaimSeat,
        gate: &G,
        start: u32,
        first: u32,
        every: u32,
    )
        requires ready { IsReady words.now claims.now (idle self.old.most start) seat.old }
        requires some { 0 < every }
        requires bound { recorded.now.bound ≡ eden_start words.now.space }
        requires fresh { seat.old.made ≡ [] }
        requires may { MayCopy words.now (deal_of recorded.now.slots first every) }
        ensures copied { HasCopied words.now (deal_of recorded.now.slots first every) self.new seat.new }
        ensures fits { length self.new.room ≤ self.new.most }
        ensures place { (self.new.most ≡ self.old.most) × (self.new.start ≡ start) }
        ensures seat { (seat.new.table ≡ seat.old.table) × (seat.new.round ≡ seat.old.round) }
    {
        // There is a word for each address before the marks.
        let _count = words.count();
        self.empty(start);
        follow_roots(self, words, claims, seat, gate, first, every);
        follow_recorded(self, words, recorded, claims, seat, gate, first, every);
        scan(self, words, claims, seat, gate);
    }
}
