//! Free runs of pages, the free cells that they are, and the recorded slots in their order.
ghost use Rattle.std.specs.Prelude.{◌≡◌, ◌+◌, ◌*◌, ◌<◌, ◌≤◌, ◌↔◌, [], ◌∷◌, ◌++◌, length, set};
ghost use Rattle.std.specs.Prelude.{IsNone, IfSome, IfNone, MatchOption};
ghost use Rattle.page_space.specs.Sizes.{page_words};
ghost use Rattle.page_space.specs.Extents.{marks_start};
ghost use Rattle.free_runs.specs.FreeRuns.{AreFree, FitsNowhere, IsBehind, LiesIn, TakesFront, longest_of, row_of};
ghost use Rattle.remembered_set.specs.Recorded.{HasNoneFrom, IsNextRecorded};
ghost use Rattle.write_barrier.specs.Seats.{RestStays, heap_words};
ghost use Rattle.heap_model.specs.Remembered.{Touch};
ghost use Rattle.write_barrier.specs.Marking.{MayPutFree};
ghost use Rattle.write_barrier.specs.FreeCells.{with_free_cell};
ghost use Rattle.write_barrier.specs.Recording.{Touches, touched};

use crate::main_side::Main;
use page_space::Run;
use tagged_word::cell::LENGTH;
use tagged_word::{Header, shape};

/// The header of a filler.
pub(crate) const FILLER: Header = Header {
    shape: shape::FILLER,
    object: 0,
};

/// The header of a gap.
const GAP: Header = Header {
    shape: shape::GAP,
    object: 0,
};

impl Main {
    /// The first words of a free run of a page, so many: they are in no free run any more, and what is
    /// left of it is one. The words of the heap are neither read nor written. None where no free run has
    /// so many.
    pub fn take_free(&mut self, n: u32) -> Option<Run>
        requires some { 1 ≤ n }
        requires few { n ≤ page_words }
        ensures taken { IfSome result (λ run. TakesFront self.old.free self.new.free n run) }
        ensures rest { self.new ≡ record self.old { free = self.new.free } }
        ensures none { IsNone result ↔ FitsNowhere self.old.free n }
        ensures unchanged { IfNone result (self.new ≡ self.old) }
    {
        self.free.take(n)
    }

    /// How many words the longest free run has; 0 where there is none.
    pub fn longest_free(&self) -> u32
        ensures longest { result ≡ longest_of self.now.free }
        ensures own { AreFree self.now.free }
    {
        self.free.longest()
    }

    /// Free runs are apart. The call says so, and does nothing else.
    #[inline(always)]
    pub fn free_runs_fit(&self)
        ensures { AreFree self.now.free }
    {
        let _longest = self.longest_free();
    }

    /// A page has no free run any more. The words of the heap are neither read nor written.
    pub fn clear_free(&mut self, page: u32)
        requires { page < length self.old.free }
        ensures { self.new ≡ record self.old { free = set self.old.free page [] } }
    {
        self.free.clear_page(page);
    }

    /// A page has one free run more, which begins behind the last of those that it has, and does not
    /// touch it. The words of the heap are neither read nor written.
    pub fn add_free(&mut self, page: u32, run: Run)
        requires there { page < length self.old.free }
        requires lies { LiesIn (page_words * page) (page_words * (page + 1)) run }
        requires behind { IsBehind (row_of self.old.free page) run }
        ensures { let runs = row_of self.old.free page ++ run ∷ [] in
            self.new ≡ record self.old { free = set self.old.free page runs } }
    {
        self.free.add(page, run);
    }

    /// The first recorded slot that is not below an address: none where each is below it.
    pub fn next_recorded(&self, from: u32) -> Option<u32>
        ensures next { MatchOption result (HasNoneFrom self.now.recorded from)
            (λ slot. IsNextRecorded self.now.recorded from slot) }
        ensures below { IfSome result (λ slot. slot < self.now.recorded.bound) }
    {
        self.remembered.next(from)
    }

    /// Makes so many words at an address a free cell: a filler where it is one, a gap where they are
    /// more. Nothing is recorded of them.
    #[inline]
    pub fn put_free_cell(&mut self, at: u32, count: u32)
        requires may_store { MayPutFree self.old at count }
        requires within { at + count ≤ marks_start self.old.seat.space }
        ensures beside { RestStays self.old.seat self.new.seat }
        ensures paths { self.new.paths ≡ self.old.paths }
        ensures cycle { self.new.cycle ≡ self.old.cycle }
        ensures young { self.new.young ≡ self.old.young }
        ensures heap { let words = heap_words self.old.seat in
            heap_words self.new.seat ≡ with_free_cell words at count }
        ensures touches { Touches self.old self.new (touched Touch.Wiped at (at + count)) }
    {
        if self.remembered.covers(at) {
            self.put_free_in_page(at, count);
        } else {
            self.put_free_young(at, count);
        }
    }

    /// The same of words behind all pages, of which nothing is recorded.
    #[inline(always)]
    fn put_free_young(&mut self, at: u32, count: u32)
        requires within { at + count ≤ marks_start self.old.seat.space }
        requires behind { self.old.recorded.bound ≤ at }
        ensures beside { RestStays self.old.seat self.new.seat }
        ensures paths { self.new.paths ≡ self.old.paths }
        ensures cycle { self.new.cycle ≡ self.old.cycle }
        ensures young { self.new.young ≡ self.old.young }
        ensures heap { let words = heap_words self.old.seat in
            heap_words self.new.seat ≡ with_free_cell words at count }
        ensures touches { Touches self.old self.new (touched Touch.Wiped at (at + count)) }
    {
        self.addresses_fit();
        match count {
            0 => {}
            1 => self.put_young(at, FILLER.word().0),
            _ => {
                self.put_young(at, GAP.word().0);
                self.put_own_slot(at, LENGTH, count as u64);
            }
        }
    }

    /// The same of words of a page.
    #[inline(never)]
    fn put_free_in_page(&mut self, at: u32, count: u32)
        requires may_store { MayPutFree self.old at count }
        requires within { at + count ≤ marks_start self.old.seat.space }
        ensures beside { RestStays self.old.seat self.new.seat }
        ensures paths { self.new.paths ≡ self.old.paths }
        ensures cycle { self.new.cycle ≡ self.old.cycle }
        ensures young { self.new.young ≡ self.old.young }
        ensures heap { let words = heap_words self.old.seat in
            heap_words self.new.seat ≡ with_free_cell words at count }
        ensures touches { Touches self.old self.new (touched Touch.Wiped at (at + count)) }
    {
        self.addresses_fit();
        self.forget(at, at + count);
        match count {
            0 => {}
            1 => self.set_header(at, FILLER),
            _ => {
                self.set_header(at, GAP);
                self.write_slot(at, LENGTH, count as u64);
            }
        }
    }
}
