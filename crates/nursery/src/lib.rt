//! The nursery: where the next cell is made, how far eden is used, and how many words have survived.
//!
//! Model: a `Young` of `specs/Young.antt`: the space, the words of eden that are used, the words
//! of the survivors, the half that these are in, and the run of a page that is granted. It reads and
//! writes no word of the heap.
//! Invariant: survivors and used words together are no more than the words of the young
//! generation, so that a scavenge finds room for all of them in one half; the half is 0 or 1; and
//! the granted run ends where eden begins, or before.
#![tactic(auto)]

ghost use Rattle.std.specs.Prelude.{◌≡◌, ◌+◌, ◌≤◌, ◌↔◌, IsTrue, IsNone, OnSome, IfSome, IfNone};
ghost use Rattle.page_space.specs.Extents.{eden_start};
ghost use Rattle.nursery.specs.Young.{IsYoung, HasRoom, new_young, next_of, bumped, turned, with_granted};

use page_space::{Region, Regions, Run};
use std::marker::Model;

/// No word is granted: cells are made in eden.
const NO_RUN: Run = Run { at: 0, words: 0 };

/// Where the next cell is made, how far eden is used, and how many words have survived in which half.
#[derive(Drop)]
pub struct Nursery {
    regions: Regions,
    // The first address of eden. It is computed once, since each birth asks for it.
    eden: u32,
    used: u32,
    survivors: u32,
    half: u32,
    granted: Run,
}

impl Model for Nursery {
    ghost use Rattle.nursery.specs.Young.{Young};

    ghost Value = { Young };

    ghost use Rattle.nursery.specs.Model.{young_of, IsValid};

    ghost view = { young_of };

    ghost invariant = { IsValid };
}

impl Nursery {
    /// The nursery of an empty heap.
    pub fn new(regions: &Regions) -> Nursery
        ensures { result ≡ new_young regions.now }
    {
        // The sizes are within their limits.
        regions.sizes_fit();
        Nursery {
            regions: *regions,
            eden: regions.start(Region::Eden),
            used: 0,
            survivors: 0,
            half: 0,
            granted: NO_RUN,
        }
    }

    /// How many words of eden are used.
    pub fn used(&self) -> u32
        ensures used { result ≡ self.now.used }
        ensures within { IsYoung self.now }
    {
        self.used
    }

    /// How many words the survivors of the last scavenge have.
    pub fn survivors(&self) -> u32
        ensures { result ≡ self.now.survivors }
    {
        self.survivors
    }

    /// The half that the survivors are in: 0 or 1.
    pub fn half(&self) -> u32
        ensures { result ≡ self.now.half }
    {
        self.half
    }

    /// The words of a page that are granted and not yet used.
    pub fn granted(&self) -> Run
        ensures { result ≡ self.now.granted }
    {
        self.granted
    }

    /// Whether there is room for so many words more: in eden, or in the granted run while it has words.
    pub fn has_room(&self, n: u32) -> bool
        ensures { IsTrue result ↔ HasRoom self.now n }
    {
        if self.granted.words == 0 {
            n <= self.regions.sizes().young - self.survivors - self.used
        } else {
            n <= self.granted.words
        }
    }

    /// The address of so many words that were not used, and now are: of eden, or of the granted run
    /// while it has words. None where there is no room for them. Words of the heap are not looked at.
    pub fn bump(&mut self, n: u32) -> Option<u32>
        requires { 1 ≤ n }
        ensures at { IfSome result (λ at. at ≡ next_of self.old) }
        ensures bumped { OnSome result (self.new ≡ bumped self.old n) }
        ensures room { OnSome result (HasRoom self.old n) }
        ensures refused { IsNone result ↔ (¬ HasRoom self.old n) }
        ensures unchanged { IfNone result (self.new ≡ self.old) }
    {
        if !self.has_room(n) {
            return None;
        }
        if self.granted.words == 0 {
            let at = self.eden + self.used;
            self.used += n;
            return Some(at);
        }
        let Run { at, words } = self.granted;
        self.granted = Run {
            at: at + n,
            words: words - n,
        };
        Some(at)
    }

    /// The next cells are made in this run of a page, until it has no word more. What was granted
    /// before is dropped.
    pub fn grant(&mut self, run: Run)
        requires { run.at + run.words ≤ eden_start self.old.space }
        ensures { self.new ≡ with_granted self.old run }
    {
        self.granted = run;
    }

    /// After a scavenge: eden is empty, the survivors have so many words in the other half, and
    /// nothing is granted any more.
    pub fn turn(&mut self, survivors: u32)
        requires { survivors ≤ self.old.space.sizes.young }
        ensures { self.new ≡ turned self.old survivors }
    {
        self.used = 0;
        self.survivors = survivors;
        self.half = 1 - self.half;
        self.granted = NO_RUN;
    }
}
