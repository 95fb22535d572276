//! Words of pages: they go to the shared table too, where there is one. While a cycle of marking is open each is a step
//! of the cycle, and a reference that is stored in a slot is shaded.
ghost use Rattle.std.specs.Prelude.{◌≡◌, ◌<◌, slice_set};
ghost use Rattle.page_space.specs.Extents.{eden_start, marks_start};
ghost use Rattle.mark_world.specs.declared.event.Event.TheVariants as event;
ghost use Rattle.mark_barrier.specs.CycleSteps.{sure_of_target};
ghost use Rattle.write_barrier.specs.Seats.{heap_words};
ghost use Rattle.write_barrier.specs.Marking.{MayPut, MayPutHeader};
ghost use Rattle.write_barrier.specs.MutatorState.{put_word, while_open, with_slot, with_weak, with_word};

use crate::main_side::Main;
use heap_table::Phase;
use tagged_word::Word;

impl Main {
    /// Puts a word in a page where no helper reads one that it visits by. Nothing is recorded.
    #[inline(always)]
    pub(crate) fn put_owned(&mut self, a: u32, word: u64)
        requires may_store { MayPut self.old a (event.StoreOwned a word) }
        requires within { a < marks_start self.old.seat.space }
        requires of_page { a < self.old.recorded.bound }
        ensures { self.new ≡ put_word self.old a word }
    {
        // What helpers read of layouts is what the mutator reads.
        self.seat.layouts_fit();
        self.addresses_fit();
        self.seat.store_owned(a, word);
    }

    /// The same of a header.
    #[inline(always)]
    fn put_header(&mut self, a: u32, word: u64)
        requires may_store { MayPutHeader self.old a word }
        requires within { a < marks_start self.old.seat.space }
        requires of_page { a < self.old.recorded.bound }
        ensures { self.new ≡ put_word self.old a word }
    {
        self.seat.layouts_fit();
        self.addresses_fit();
        self.seat.store_header(a, word);
    }

    /// Puts a value in a slot of a page. In an open cycle its target is shaded, if it is one of a page.
    #[inline(always)]
    fn put_slot(&mut self, slot: u32, value: Word)
        requires may_store { MayPut self.old slot (event.StoreSlot slot value.0) }
        requires within { slot < marks_start self.old.seat.space }
        requires of_page { slot < self.old.recorded.bound }
        ensures { let cycle = sure_of_target (eden_start self.old.seat.space) self.old.cycle value.0 in
            let next = while_open self.old.seat.phase self.old.cycle cycle in
            self.new ≡ put_word (record self.old { cycle = next }) slot value.0 }
    {
        // No cycle is open where there is no shared table.
        self.seat.layouts_fit();
        if self.seat.is_shared() {
            self.share_slot(slot, value);
        } else {
            self.seat.put_own(slot, value.0);
        }
    }

    /// The same where there is a shared table.
    #[cold]
    #[inline(never)]
    fn share_slot(&mut self, slot: u32, value: Word)
        requires may_store { MayPut self.old slot (event.StoreSlot slot value.0) }
        requires within { slot < marks_start self.old.seat.space }
        requires of_page { slot < self.old.recorded.bound }
        ensures { let cycle = sure_of_target (eden_start self.old.seat.space) self.old.cycle value.0 in
            let next = while_open self.old.seat.phase self.old.cycle cycle in
            self.new ≡ put_word (record self.old { cycle = next }) slot value.0 }
    {
        self.seat.layouts_fit();
        self.addresses_fit();
        if self.seat.phase() == Phase::Mark {
            let Some(grey) = &mut self.grey else {
                unreachable!()
            };
            grey.store(&mut self.seat, slot, value);
        } else {
            self.seat.store_owned(slot, value.0);
        }
    }

    /// Puts a word in a page: one that is no slot of a cell. Nothing is recorded of it any more.
    #[inline(always)]
    pub(crate) fn write_in_page(&mut self, a: u32, word: u64)
        requires may_store { MayPut self.old a (event.StoreOwned a word) }
        requires within { a < marks_start self.old.seat.space }
        requires of_page { a < self.old.recorded.bound }
        ensures written { self.new ≡ with_word self.old a word }
        ensures heap { let words = heap_words self.old.seat in
            heap_words self.new.seat ≡ slice_set words a word }
    {
        self.remembered.forget(a);
        self.put_owned(a, word);
    }

    /// Puts a header in a page. Nothing is recorded of it any more.
    #[inline(always)]
    pub(crate) fn set_header_in_page(&mut self, at: u32, word: u64)
        requires may_store { MayPutHeader self.old at word }
        requires within { at < marks_start self.old.seat.space }
        requires of_page { at < self.old.recorded.bound }
        ensures written { self.new ≡ with_word self.old at word }
        ensures heap { let words = heap_words self.old.seat in
            heap_words self.new.seat ≡ slice_set words at word }
    {
        self.remembered.forget(at);
        self.put_header(at, word);
    }

    /// Puts a value in a slot of a page, and judges it.
    #[inline]
    pub(crate) fn store_in_page(&mut self, slot: u32, value: Word)
        requires may_store { MayPut self.old slot (event.StoreSlot slot value.0) }
        requires within { slot < marks_start self.old.seat.space }
        requires of_page { slot < self.old.recorded.bound }
        ensures stored { self.new ≡ with_slot self.old slot value.0 }
        ensures heap { let words = heap_words self.old.seat in
            heap_words self.new.seat ≡ slice_set words slot value.0 }
    {
        self.put_slot(slot, value);
        self.judge(slot, value);
    }

    /// Puts a value in a slot of a page that marking never visits, and judges it.
    #[inline]
    pub(crate) fn store_weak_in_page(&mut self, at: u32, value: Word)
        requires may_store { MayPut self.old at (event.StoreOwned at value.0) }
        requires within { at < marks_start self.old.seat.space }
        requires of_page { at < self.old.recorded.bound }
        ensures stored { self.new ≡ with_weak self.old at value.0 }
        ensures heap { let words = heap_words self.old.seat in
            heap_words self.new.seat ≡ slice_set words at value.0 }
    {
        self.put_owned(at, value.0);
        self.judge(at, value);
    }
}
