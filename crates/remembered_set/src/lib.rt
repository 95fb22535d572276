//! The remembered set: which slots of pages may refer to young cells.
//!
//! Model: a `Recorded` of `specs/Recorded.antt`: the addresses of the recorded slots in ascending
//! order, and the bound that all addresses of pages are below. It reads no word of the heap.
//! Invariant: the slots ascend, and each is below the bound. Inside, there is a bit for each word of
//! the pages, and a count for each page of its recorded slots.
#![tactic(auto)]

ghost use Rattle.std.specs.Prelude.{◌≡◌, ◌+◌, ◌*◌, ◌<◌, ◌≤◌, ◌↔◌, ◌⊎◌, ℕ, min, max, [], Contains, IsTrue};
ghost use Rattle.std.specs.Prelude.{IfOk, IfSome, MatchOption};
ghost use Rattle.page_space.specs.Sizes.{page_words, pages_most};
ghost use Rattle.remembered_set.specs.Recorded.{IsRecorded, IsAscending, IsBetween, HasNoneFrom, IsNextRecorded};
ghost use Rattle.remembered_set.specs.Recorded.{HasNoneBetween, IsLeastBetween, noted, forgotten};

mod bits;

use crate::bits::{clear, first_set, is_set, note, unset};
use page_space::PAGE_WORDS;
use std::alloc::Global;
use std::marker::Model;
use tagged_word::NoMemory;

/// The words of 64 bits that have the flags of a page.
const PAGE_BITS: u32 = PAGE_WORDS / 64;

/// Which slots of pages may refer to young cells.
#[derive(Drop)]
pub struct Remembered {
    // A flag for each word of the pages, 64 in a word: the first that is set is found without a look at
    // each.
    bits: Vec<u64>,
    // For each page the number of its flags that are set: most pages have none, and are passed
    // over at once.
    counts: Vec<u32>,
    // The bound of the addresses of pages. It is kept, though the bits show it, since each store asks for it.
    bound: u32,
}

impl Model for Remembered {
    ghost use Rattle.remembered_set.specs.Recorded.{Recorded};

    ghost Value = { Recorded };

    ghost use Rattle.remembered_set.specs.Model.{recorded_of, IsValid};

    ghost view = { recorded_of };

    ghost invariant = { IsValid };
}

impl Remembered {
    /// Nothing of so many pages is recorded. It takes all the memory that it needs: later calls
    /// take none.
    pub fn new(alloc: Global, pages: u32) -> Result<Remembered, NoMemory>
        requires { pages ≤ pages_most }
        ensures { IfOk result (λ set. set ≡ record { bound = page_words * pages; slots = [] }) }
    {
        let bits = vec![in alloc; 0u64; (PAGE_BITS * pages) as usize]?;
        let counts = vec![in alloc; 0u32; pages as usize]?;
        Ok(Remembered {
            bits,
            counts,
            bound: PAGE_WORDS * pages,
        })
    }

    /// Whether an address is one of the pages'.
    #[inline(always)]
    pub fn covers(&self, slot: u32) -> bool
        ensures { IsTrue result ↔ (slot < self.now.bound) }
    {
        slot < self.bound
    }

    /// Records a slot, which may be recorded already.
    pub fn note(&mut self, slot: u32)
        requires { slot < self.old.bound }
        ensures recorded { (other : ℕ)
            → Contains self.new.slots other ↔ ((other ≡ slot) ⊎ Contains self.old.slots other) }
        ensures bound { self.new.bound ≡ self.old.bound }
        ensures value { self.new ≡ noted self.old slot }
    {
        if note(&mut self.bits, slot) {
            self.counts[(slot / PAGE_WORDS) as usize] += 1;
        }
    }

    /// Forgets one slot, which may be recorded or not.
    #[inline(always)]
    pub fn forget(&mut self, slot: u32)
        requires { slot < self.old.bound }
        ensures { self.new ≡ forgotten self.old slot (slot + 1) }
    {
        if is_set(&self.bits, slot) {
            unset(&mut self.bits, slot);
            self.counts[(slot / PAGE_WORDS) as usize] -= 1;
        }
    }

    /// Forgets the slots from `from` up to, not including, `to`.
    #[cold]
    #[inline(never)]
    pub fn forget_range(&mut self, from: u32, to: u32)
        ensures forgotten { (other : ℕ)
            → Contains self.new.slots other
            ↔ (Contains self.old.slots other × (¬ IsBetween from to other)) }
        ensures bound { self.new.bound ≡ self.old.bound }
        ensures value { self.new ≡ forgotten self.old from to }
    {
        let end = (to / PAGE_WORDS + 1).min(self.counts.len() as u32);
        for page in from / PAGE_WORDS..end {
            self.forget_in_page(page, from, to);
        }
    }

    /// The first recorded slot that is not below `from`: none where each is below it.
    pub fn next(&self, from: u32) -> Option<u32>
        ensures next { MatchOption result
            (HasNoneFrom self.now from) (λ slot. IsNextRecorded self.now from slot) }
        ensures ascending { IsAscending self.now.slots }
        ensures below { IfSome result (λ slot. slot < self.now.bound) }
    {
        for page in from / PAGE_WORDS..self.counts.len() as u32 {
            if let Some(slot) = self.next_in_page(page, from) {
                return Some(slot);
            }
        }
        None
    }

    /// Forgets the slots of a page from `from` up to, not including, `to`.
    fn forget_in_page(&mut self, page: u32, from: u32, to: u32)
        requires { page_words * page < self.old.bound }
        ensures forgotten { let start = page_words * page in (other : ℕ)
            → Contains self.new.slots other
            ↔ (Contains self.old.slots other
            × (¬ IsBetween (max from start) (min to (start + page_words)) other)) }
        ensures bound { self.new.bound ≡ self.old.bound }
        ensures own { IsRecorded self.new }
    {
        if self.counts[page as usize] == 0 {
            return;
        }
        let start = page * PAGE_WORDS;
        let count = clear(&mut self.bits, from.max(start), to.min(start + PAGE_WORDS));
        self.counts[page as usize] -= count;
    }

    /// The first recorded slot of a page that is not below `from`.
    fn next_in_page(&self, page: u32, from: u32) -> Option<u32>
        requires { page_words * page < self.now.bound }
        ensures { let start = page_words * page in MatchOption result
            (HasNoneBetween self.now (max from start) (start + page_words))
            (λ slot. IsLeastBetween self.now (max from start) (start + page_words) slot) }
    {
        if self.counts[page as usize] == 0 {
            return None;
        }
        let start = page * PAGE_WORDS;
        first_set(&self.bits, from.max(start), start + PAGE_WORDS)
    }
}
