//! Words that are put or copied many at a time: as slots, and as words that are none.
ghost use Rattle.std.specs.Prelude.{◌≡◌, ℕ, ◌+◌, ◌<◌, ◌≤◌, Contains, replicate};
ghost use Rattle.page_space.specs.Extents.{marks_start};
ghost use Rattle.word_store.specs.Copies.{AreDisjoint, copied};
ghost use Rattle.heap_table.specs.Phases.{Mark};
ghost use Rattle.write_barrier.specs.Seats.{RestStays, heap_words};
ghost use Rattle.heap_model.specs.Slots.{hole_word};
ghost use Rattle.heap_model.specs.Remembered.{Touch};
ghost use Rattle.write_barrier.specs.Marking.{MayFill};
ghost use Rattle.write_barrier.specs.MutatorState.{forgets, with_table};
ghost use Rattle.write_barrier.specs.Recording.{Touches, touched};
ghost use Rattle.write_barrier.specs.Values.{with_range};

use crate::main_side::Main;
use tagged_word::{Word, odd};

impl Main {
    /// Puts one word at so many addresses from one on. Of these nothing is recorded.
    #[inline(always)]
    pub(crate) fn fill(&mut self, at: u32, count: u32, word: u64)
        requires may_store { MayFill self.old at }
        requires within { at + count ≤ marks_start self.old.seat.space }
        ensures filled { let words = replicate count word in
            let table = with_range self.old.seat.table at words in
            self.new ≡ with_table (forgets self.old at (at + count)) table }
        ensures heap { let words = heap_words self.old.seat in
            heap_words self.new.seat ≡ with_range words at (replicate count word) }
        ensures beside { RestStays self.old.seat self.new.seat }
        ensures touches { Touches self.old self.new (touched Touch.Wiped at (at + count)) }
    {
        self.addresses_fit();
        if self.remembered.covers(at) {
            self.fill_in_page(at, count, word);
        } else {
            self.fill_behind(at, count, word);
        }
    }

    /// The same of words behind all pages, of which nothing is recorded.
    #[inline(always)]
    fn fill_behind(&mut self, at: u32, count: u32, word: u64)
        requires within { at + count ≤ marks_start self.old.seat.space }
        requires behind { self.old.recorded.bound ≤ at }
        ensures filled { let words = replicate count word in
            let table = with_range self.old.seat.table at words in
            self.new ≡ with_table (forgets self.old at (at + count)) table }
        ensures heap { let words = heap_words self.old.seat in
            heap_words self.new.seat ≡ with_range words at (replicate count word) }
    {
        self.seat.fill_own(at, count, word);
    }

    /// The same from a word of a page on.
    #[cold]
    #[inline(never)]
    fn fill_in_page(&mut self, at: u32, count: u32, word: u64)
        requires may_store { self.old.seat.phase ≡ Mark → ⊥ }
        requires within { at + count ≤ marks_start self.old.seat.space }
        requires of_page { at < self.old.recorded.bound }
        ensures filled { let words = replicate count word in
            let table = with_range self.old.seat.table at words in
            self.new ≡ with_table (forgets self.old at (at + count)) table }
        ensures heap { let words = heap_words self.old.seat in
            heap_words self.new.seat ≡ with_range words at (replicate count word) }
    {
        self.addresses_fit();
        self.remembered.forget_range(at, at + count);
        self.seat.fill(at, count, word);
    }

    /// Makes so many words at an address holes. Of these nothing is recorded, since a hole refers to
    /// nothing: so it is as if each was stored in a slot, too.
    #[inline(always)]
    pub fn fill_holes(&mut self, at: u32, count: u32)
        requires may_store { MayFill self.old at }
        requires within { at + count ≤ marks_start self.old.seat.space }
        ensures filled { let holes = replicate count hole_word in
            let table = with_range self.old.seat.table at holes in
            self.new ≡ with_table (forgets self.old at (at + count)) table }
        ensures heap { let words = heap_words self.old.seat in
            heap_words self.new.seat ≡ with_range words at (replicate count hole_word) }
        ensures touches { Touches self.old self.new (touched Touch.Stored at (at + count)) }
    {
        self.addresses_fit();
        self.fill(at, count, Word::odd(odd::HOLE).0);
    }

    /// Makes so many words at an address 0, where no cell stands any more. What is recorded stays, so this is
    /// for a heap that ends.
    pub fn blank(&mut self, at: u32, count: u32)
        requires may_store { self.old.seat.phase ≡ Mark → ⊥ }
        requires within { at + count ≤ marks_start self.old.seat.space }
        ensures blanked { let table = with_range self.old.seat.table at (replicate count 0) in
            self.new ≡ with_table self.old table }
        ensures heap { let words = heap_words self.old.seat in
            heap_words self.new.seat ≡ with_range words at (replicate count 0) }
    {
        self.seat.fill(at, count, 0);
    }

    /// Copies so many words to another address, as words that are no slots there. The two stretches have
    /// no word in common. Of the copies nothing is recorded.
    pub fn copy_words(&mut self, from: u32, to: u32, count: u32)
        requires quiet { MayFill self.old to }
        requires within { from + count ≤ marks_start self.old.seat.space }
        requires room { to + count ≤ marks_start self.old.seat.space }
        requires apart { AreDisjoint from to count }
        ensures copied { let table = copied self.old.seat.table from to count in
            self.new ≡ with_table (forgets self.old to (to + count)) table }
        ensures heap { let words = heap_words self.old.seat in
            heap_words self.new.seat ≡ copied words from to count }
        ensures beside { RestStays self.old.seat self.new.seat }
        ensures touches { Touches self.old self.new (touched Touch.Wiped to (to + count)) }
    {
        self.addresses_fit();
        if self.remembered.covers(to) {
            self.copy_to_page(from, to, count);
        } else {
            self.copy_behind(from, to, count);
        }
    }

    /// The same to words behind all pages, of which nothing is recorded.
    #[inline(always)]
    fn copy_behind(&mut self, from: u32, to: u32, count: u32)
        requires within { from + count ≤ marks_start self.old.seat.space }
        requires room { to + count ≤ marks_start self.old.seat.space }
        requires behind { self.old.recorded.bound ≤ to }
        ensures copied { let table = copied self.old.seat.table from to count in
            self.new ≡ with_table (forgets self.old to (to + count)) table }
        ensures heap { let words = heap_words self.old.seat in
            heap_words self.new.seat ≡ copied words from to count }
    {
        self.seat.copy_own(from, to, count);
    }

    /// The same to words from one of a page on.
    #[cold]
    #[inline(never)]
    fn copy_to_page(&mut self, from: u32, to: u32, count: u32)
        requires may_store { self.old.seat.phase ≡ Mark → ⊥ }
        requires within { from + count ≤ marks_start self.old.seat.space }
        requires room { to + count ≤ marks_start self.old.seat.space }
        requires of_page { to < self.old.recorded.bound }
        ensures copied { let table = copied self.old.seat.table from to count in
            self.new ≡ with_table (forgets self.old to (to + count)) table }
        ensures heap { let words = heap_words self.old.seat in
            heap_words self.new.seat ≡ copied words from to count }
    {
        self.addresses_fit();
        self.remembered.forget_range(to, to + count);
        self.seat.copy(from, to, count);
    }

    /// Judges the word that stands at an address of which nothing is recorded, as that of a slot.
    #[inline]
    fn judge_copy(&mut self, slot: u32)
        requires within { slot < marks_start self.old.seat.space }
        requires none { slot < self.old.recorded.bound → Contains self.old.recorded.slots slot → ⊥ }
        ensures rest { self.new ≡ record self.old { recorded = self.new.recorded } }
        ensures touches { Touches self.old self.new (touched Touch.Stored slot (slot + 1)) }
    {
        self.addresses_fit();
        let word = Word(self.word(slot));
        if self.remembered.covers(slot) {
            if self.is_young(word) {
                self.judge(slot, word);
            }
        }
    }

    /// Judges the words that stand at so many addresses from one on, as those of slots. Nothing is recorded
    /// of them yet.
    fn judge_copies(&mut self, at: u32, count: u32)
        requires within { at + count ≤ marks_start self.old.seat.space }
        requires none { (slot : ℕ) → at ≤ slot → slot < at + count → slot < self.old.recorded.bound
            → Contains self.old.recorded.slots slot → ⊥ }
        ensures rest { self.new ≡ record self.old { recorded = self.new.recorded } }
        ensures touches { Touches self.old self.new (touched Touch.Stored at (at + count)) }
    {
        self.addresses_fit();
        for slot in at..at + count {
            self.judge_copy(slot);
        }
    }

    /// Copies so many words to another address, as the slots of a store that goes to those of one
    /// that was just made. The two stretches have no word in common. Where the copies are in a page, each
    /// that refers to a young cell is recorded, and no other.
    pub fn copy_slots(&mut self, from: u32, to: u32, count: u32)
        requires may_store { MayFill self.old to }
        requires within { from + count ≤ marks_start self.old.seat.space }
        requires room { to + count ≤ marks_start self.old.seat.space }
        requires apart { AreDisjoint from to count }
        ensures heap { let words = heap_words self.old.seat in
            heap_words self.new.seat ≡ copied words from to count }
        ensures beside { RestStays self.old.seat self.new.seat }
        ensures paths { self.new.paths ≡ self.old.paths }
        ensures cycle { self.new.cycle ≡ self.old.cycle }
        ensures young { self.new.young ≡ self.old.young }
        ensures touches { Touches self.old self.new (touched Touch.Stored to (to + count)) }
    {
        self.addresses_fit();
        // The first store of an object takes the place of one with no slots.
        if count == 0 {
            return;
        }
        if self.remembered.covers(to) {
            self.copy_slots_to_page(from, to, count);
        } else {
            self.copy_behind(from, to, count);
        }
    }

    /// The same to words from one of a page on.
    #[cold]
    #[inline(never)]
    fn copy_slots_to_page(&mut self, from: u32, to: u32, count: u32)
        requires may_store { self.old.seat.phase ≡ Mark → ⊥ }
        requires within { from + count ≤ marks_start self.old.seat.space }
        requires room { to + count ≤ marks_start self.old.seat.space }
        requires apart { AreDisjoint from to count }
        ensures heap { let words = heap_words self.old.seat in
            heap_words self.new.seat ≡ copied words from to count }
        ensures beside { RestStays self.old.seat self.new.seat }
        ensures paths { self.new.paths ≡ self.old.paths }
        ensures cycle { self.new.cycle ≡ self.old.cycle }
        ensures young { self.new.young ≡ self.old.young }
        ensures touches { Touches self.old self.new (touched Touch.Stored to (to + count)) }
    {
        self.copy_words(from, to, count);
        self.judge_copies(to, count);
    }
}
