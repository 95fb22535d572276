//! Stores: the calls by which the words of the heap change. What is put in a page is recorded where it
//! is a slot's and refers to a young cell, and not else; so no record outlives its slot. It goes to the shared
//! table too, where there is one. A young store asks for nothing but whether it is one.
ghost use Rattle.std.specs.Prelude.{◌≡◌, ◌+◌, ◌<◌, ◌≤◌, slice_set};
ghost use Rattle.tagged_word.specs.Headers.{IsHeader, header_bits};
ghost use Rattle.tagged_word.specs.Readings.{reference_in};
ghost use Rattle.page_space.specs.Extents.{eden_start, marks_start};
ghost use Rattle.mark_world.specs.declared.event.Event.TheVariants as event;
ghost use Rattle.heap_table.specs.Phases.{Mark};
ghost use Rattle.write_barrier.specs.Seats.{heap_words};
ghost use Rattle.write_barrier.specs.Marking.{MayPut, MayPutHeader};
ghost use Rattle.write_barrier.specs.MutatorState.{put_word, forgets, is_young, judged};
ghost use Rattle.write_barrier.specs.MutatorState.{with_slot, with_weak, with_word};

use crate::main_side::Main;
use tagged_word::{Header, Word};

impl Main {
    /// Puts a word behind all pages, and before the marks: among the own ones alone.
    #[inline(always)]
    pub(crate) fn put_own(&mut self, a: u32, word: u64)
        requires within { a < marks_start self.old.seat.space }
        requires behind { eden_start self.old.seat.space ≤ a }
        ensures put { self.new ≡ put_word self.old a word }
        ensures heap { let words = heap_words self.old.seat in
            heap_words self.new.seat ≡ slice_set words a word }
    {
        self.seat.put_own(a, word);
    }

    /// The same at an offset of a cell.
    #[inline(always)]
    pub(crate) fn put_own_slot(&mut self, cell: u32, offset: u32, word: u64)
        requires within { cell + offset < marks_start self.old.seat.space }
        requires behind { eden_start self.old.seat.space ≤ cell + offset }
        ensures put { self.new ≡ put_word self.old (cell + offset) word }
        ensures heap { let words = heap_words self.old.seat in
            heap_words self.new.seat ≡ slice_set words (cell + offset) word }
    {
        self.seat.put_own_slot(cell, offset, word);
    }

    /// Forgets what is recorded of the words from an address up to, not including, another: no slot is
    /// there any more.
    #[inline(always)]
    pub fn forget(&mut self, from: u32, to: u32)
        ensures { self.new ≡ forgets self.old from to }
    {
        if self.remembered.covers(from) {
            self.remembered.forget_range(from, to);
        }
    }

    /// Puts a word behind all pages, where nothing is recorded: one that is no slot of a cell. No other
    /// word changes.
    #[inline(always)]
    pub(crate) fn put_young(&mut self, a: u32, word: u64)
        requires within { a < marks_start self.old.seat.space }
        requires behind { self.old.recorded.bound ≤ a }
        ensures written { self.new ≡ with_word self.old a word }
        ensures heap { let words = heap_words self.old.seat in
            heap_words self.new.seat ≡ slice_set words a word }
        ensures bound { self.new.recorded.bound ≡ self.old.recorded.bound }
    {
        self.seat.put_own(a, word);
    }

    /// Whether a word refers to a young cell.
    #[inline(always)]
    pub(crate) fn is_young(&self, word: Word) -> bool
        ensures { result ≡ is_young self.now.recorded.bound (reference_in word.0) }
    {
        match word.address() {
            Some(at) => !self.remembered.covers(at),
            None => false,
        }
    }

    /// Records the slot at an address of a page where the word refers to a young cell, and forgets it
    /// where it does not.
    #[inline(always)]
    pub(crate) fn judge(&mut self, slot: u32, word: Word)
        requires of_page { slot < self.old.recorded.bound }
        ensures { self.new ≡ record self.old { recorded = judged self.old.recorded slot word.0 } }
    {
        if self.is_young(word) {
            self.remembered.note(slot);
        } else {
            self.remembered.forget(slot);
        }
    }

    /// Puts a word at an address before the marks: one that is no slot of a cell. No other word
    /// changes.
    #[inline(always)]
    pub fn write(&mut self, a: u32, word: u64)
        requires may_store { MayPut self.old a (event.StoreOwned a word) }
        requires within { a < marks_start self.old.seat.space }
        ensures written { self.new ≡ with_word self.old a word }
        ensures heap { let words = heap_words self.old.seat in
            heap_words self.new.seat ≡ slice_set words a word }
    {
        if self.remembered.covers(a) {
            self.write_in_page(a, word);
        } else {
            self.put_young(a, word);
        }
    }

    /// Puts a word at an offset of a cell, before the marks: in no slot. No other word changes.
    #[inline(always)]
    pub fn write_slot(&mut self, cell: u32, offset: u32, word: u64)
        requires may_store { let a = cell + offset in MayPut self.old a (event.StoreOwned a word) }
        requires within { cell + offset < marks_start self.old.seat.space }
        ensures written { self.new ≡ with_word self.old (cell + offset) word }
        ensures heap { let words = heap_words self.old.seat in
            heap_words self.new.seat ≡ slice_set words (cell + offset) word }
    {
        self.addresses_fit();
        let a = cell + offset;
        if self.remembered.covers(a) {
            self.write_in_page(a, word);
        } else {
            self.seat.put_own_slot(cell, offset, word);
        }
    }

    /// Puts a value in the slot of a cell at an offset. No other word changes.
    #[inline(always)]
    pub fn store(&mut self, cell: u32, offset: u32, value: Word)
        requires may_store { let a = cell + offset in MayPut self.old a (event.StoreSlot a value.0) }
        requires within { cell + offset < marks_start self.old.seat.space }
        ensures stored { self.new ≡ with_slot self.old (cell + offset) value.0 }
        ensures heap { let words = heap_words self.old.seat in
            heap_words self.new.seat ≡ slice_set words (cell + offset) value.0 }
    {
        self.addresses_fit();
        let slot = cell + offset;
        if self.remembered.covers(slot) {
            self.store_in_page(slot, value);
        } else {
            self.seat.put_own(slot, value.0);
        }
    }

    /// Puts a value in the slot of a weak table at an offset. No other word changes. Marking never looks at
    /// what a pair of a table refers to; a scavenge takes it as a slot like others.
    #[inline]
    pub fn store_weak(&mut self, cell: u32, offset: u32, value: Word)
        requires may_store { let a = cell + offset in MayPut self.old a (event.StoreOwned a value.0) }
        requires within { cell + offset < marks_start self.old.seat.space }
        ensures weak { self.new ≡ with_weak self.old (cell + offset) value.0 }
        ensures stored { (self.old.seat.phase ≡ Mark → ⊥) → self.new ≡ with_slot self.old (cell + offset) value.0 }
        ensures heap { let words = heap_words self.old.seat in
            heap_words self.new.seat ≡ slice_set words (cell + offset) value.0 }
    {
        self.addresses_fit();
        let slot = cell + offset;
        if self.remembered.covers(slot) {
            self.store_weak_in_page(slot, value);
        } else {
            self.seat.put_own(slot, value.0);
        }
    }

    /// Puts the header of a cell at an address. No other word changes.
    #[inline(always)]
    pub fn set_header(&mut self, a: u32, header: Header)
        requires may_store { MayPutHeader self.old a (header_bits header) }
        requires within { a < marks_start self.old.seat.space }
        requires is { IsHeader header }
        ensures written { self.new ≡ with_word self.old a (header_bits header) }
        ensures heap { let words = heap_words self.old.seat in
            heap_words self.new.seat ≡ slice_set words a (header_bits header) }
    {
        let word = header.word().0;
        if self.remembered.covers(a) {
            self.set_header_in_page(a, word);
        } else {
            self.put_young(a, word);
        }
    }
}
