//! Stretches of words that are copied or filled: any while no cycle is open or while it waits, and in each phase those
//! behind the pages, which stand among the own words alone.
ghost use Rattle.std.specs.Prelude.{◌≡◌, ◌+◌, ◌≤◌, ◌++◌, take, drop, replicate};
ghost use Rattle.page_space.specs.Extents.{eden_start, marks_start};
ghost use Rattle.word_store.specs.Copies.{copied};
ghost use Rattle.shared_table.specs.declared.phase.Phase.TheVariants.{Mark};
ghost use Rattle.heap_table.specs.Seats.{heap_words, RestStays};

use crate::main_seat::MainSeat;
use crate::sharing::share_stretch;

impl MainSeat {
    /// Copies so many words to another address, all before the marks. No other word changes.
    #[inline]
    pub fn copy(&mut self, from: u32, to: u32, count: u32)
        requires idle { self.old.phase ≡ Mark → ⊥ }
        requires within { from + count ≤ marks_start self.old.space }
        requires room { to + count ≤ marks_start self.old.space }
        ensures copied { let table = copied self.old.table from to count in
            self.new ≡ record self.old { table = table } }
        ensures heap { heap_words self.new ≡ copied (heap_words self.old) from to count }
        ensures rest { RestStays self.old self.new }
    {
        // The sum fits, since there is a word for each address.
        self.own.words_fit();
        self.own.copy(from, to, count);
        if let Some(side) = &mut self.shared {
            share_stretch(side, &self.own, to, to + count);
        }
    }

    /// Puts one word at so many addresses from one on, before the marks. No other word changes.
    #[inline]
    pub fn fill(&mut self, at: u32, count: u32, word: u64)
        requires idle { self.old.phase ≡ Mark → ⊥ }
        requires within { at + count ≤ marks_start self.old.space }
        ensures filled { let words = self.old.table in
            let table = take at words ++ replicate count word ++ drop (at + count) words in
            self.new ≡ record self.old { table = table } }
        ensures heap { let words = heap_words self.old in
            heap_words self.new ≡ take at words ++ replicate count word ++ drop (at + count) words }
        ensures rest { RestStays self.old self.new }
    {
        self.own.words_fit();
        self.own.fill(at, count, word);
        if let Some(side) = &mut self.shared {
            share_stretch(side, &self.own, at, at + count);
        }
    }

    /// Copies so many words to another address, behind the pages and before the marks. No other word changes.
    #[inline]
    pub fn copy_own(&mut self, from: u32, to: u32, count: u32)
        requires within { from + count ≤ marks_start self.old.space }
        requires room { to + count ≤ marks_start self.old.space }
        requires own { eden_start self.old.space ≤ to }
        ensures copied { let table = copied self.old.table from to count in
            self.new ≡ record self.old { table = table } }
        ensures heap { heap_words self.new ≡ copied (heap_words self.old) from to count }
        ensures rest { RestStays self.old self.new }
    {
        // There is a word for each address before the marks.
        self.own.words_fit();
        self.own.copy(from, to, count);
    }

    /// Puts one word at so many addresses from one on, behind the pages and before the marks. No other word changes.
    #[inline]
    pub fn fill_own(&mut self, at: u32, count: u32, word: u64)
        requires within { at + count ≤ marks_start self.old.space }
        requires own { eden_start self.old.space ≤ at }
        ensures filled { let words = self.old.table in
            let table = take at words ++ replicate count word ++ drop (at + count) words in
            self.new ≡ record self.old { table = table } }
        ensures heap { let words = heap_words self.old in
            heap_words self.new ≡ take at words ++ replicate count word ++ drop (at + count) words }
        ensures rest { RestStays self.old self.new }
    {
        self.own.words_fit();
        self.own.fill(at, count, word);
    }
}
