//! The steps of the main seat in an open cycle, each one event of marking on the shared table. A word that is stored
//! goes to the own words too. `store_header` and `store_owned` put words of pages in each phase.
ghost use Rattle.std.specs.Prelude.{◌≡◌, ◌+◌, ◌<◌, ◌⊎◌, true, Contains, IfSome, IsTrue, is_some, length, slice_index};
ghost use Rattle.std.specs.Prelude.{slice_set};
ghost use Rattle.tagged_word.specs.Readings.{reference_in};
ghost use Rattle.tagged_word.specs.Shapes.{shapes_most};
ghost use Rattle.page_space.specs.Extents.{eden_start, layouts_start};
ghost use Rattle.mark_laws.specs.PageWords.{MainSound};
ghost use Rattle.mark_laws.specs.Runs.{IsSoundAndBorn};
ghost use Rattle.mark_world.specs.declared.event.Event.TheVariants as event;
ghost use Rattle.mark_world.specs.Soundness.{AreIn};
ghost use Rattle.mark_world.specs.Steps.{black};
ghost use Rattle.shared_table.specs.declared.colour.Colour.TheVariants.{Black};
ghost use Rattle.shared_table.specs.declared.phase.Phase.TheVariants.{Mark};
ghost use Rattle.shared_table.specs.Colours.{number_of};
ghost use Rattle.shared_table.specs.Spots.{FindsInMark};
ghost use Rattle.shared_table.specs.Worlds.{world_at_home};
ghost use Rattle.heap_table.specs.Overviews.{MayStep, overview, stepped, stored};
ghost use Rattle.heap_table.specs.Seats.{with_layout};

use crate::main_seat::MainSeat;
use crate::sharing::share;
use shared_table::Colour;

impl MainSeat {
    /// Stores a word in a slot of a page. Its target is owed then.
    #[inline(always)]
    pub fn store_slot(&mut self, a: u32, word: u64)
        requires mark { self.old.phase ≡ Mark }
        requires within { a < eden_start self.old.space }
        requires may { MayStep self.old (event.StoreSlot a word) }
        ensures stored { self.new ≡ stored self.old (event.StoreSlot a word) a word }
    {
        self.own.put_in_page(a, word);
        let Some(side) = &mut self.shared else {
            unreachable!()
        };
        side.store_slot(a, word);
    }

    /// Puts a word of a page. In an open cycle no helper may visit by it, or it is a header that changes safely.
    #[inline(always)]
    pub fn store_header(&mut self, a: u32, word: u64)
        requires within { a < eden_start self.old.space }
        requires may { let seat = self.old in
            seat.phase ≡ Mark → MayStep seat (event.StoreHeader a word) ⊎ MayStep seat (event.StoreOwned a word) }
        ensures put { self.new ≡ record self.old { table = slice_set self.old.table a word } }
    {
        self.own.put_in_page(a, word);
        if let Some(side) = &mut self.shared {
            share(side, a, word);
        }
    }

    /// Puts a word of a page. In an open cycle no helper may visit by it.
    #[inline(always)]
    pub fn store_owned(&mut self, a: u32, word: u64)
        requires within { a < eden_start self.old.space }
        requires may { self.old.phase ≡ Mark → MayStep self.old (event.StoreOwned a word) }
        ensures put { self.new ≡ record self.old { table = slice_set self.old.table a word } }
    {
        self.store_header(a, word);
    }

    /// Puts a new layout word in its place.
    pub fn add_layout(&mut self, shape: u32, word: u64)
        requires mark { self.old.phase ≡ Mark }
        requires within { shape < shapes_most }
        requires may { MayStep self.old (event.AddLayout shape word) }
        ensures added { let at = layouts_start self.old.space + shape in
            self.new ≡ stored self.old (event.AddLayout shape word) at word }
        ensures put { self.new ≡ with_layout self.old shape word }
    {
        self.own.put_layout(shape, word);
        let Some(side) = &mut self.shared else {
            unreachable!()
        };
        side.add_layout(shape, word);
    }

    /// Makes a white cell grey, and returns the colour that it had.
    #[inline(always)]
    pub fn shade(&mut self, a: u32) -> Colour
        requires mark { self.old.phase ≡ Mark }
        requires within { a < eden_start self.old.space }
        requires may { MayStep self.old (event.ShadeMain a) }
        ensures shaded { self.new ≡ stepped self.old (event.ShadeMain a) (number_of result) }
        ensures home { (overview self.old).home ≡ true
            → number_of result ≡ slice_index (overview self.old).colours a }
        ensures mine { Contains (overview self.old).view.mine a → result ≡ Black }
    {
        let Some(side) = &mut self.shared else {
            unreachable!()
        };
        side.shade(a)
    }

    /// Makes a cell black, and returns the colour that it had. The targets of its tagged slots are owed then,
    /// unless it was black.
    pub fn blacken(&mut self, a: u32) -> Colour
        requires mark { self.old.phase ≡ Mark }
        requires within { a < eden_start self.old.space }
        requires may { MayStep self.old (event.Blacken a) }
        ensures blackened { self.new ≡ stepped self.old (event.Blacken a) (number_of result) }
        ensures home { (overview self.old).home ≡ true
            → number_of result ≡ slice_index (overview self.old).colours a }
        ensures mine { Contains (overview self.old).view.mine a → result ≡ Black }
    {
        let Some(side) = &mut self.shared else {
            unreachable!()
        };
        side.blacken(a)
    }

    /// Makes a cell black that was just made.
    #[inline(always)]
    pub fn new_black(&mut self, a: u32)
        requires mark { self.old.phase ≡ Mark }
        requires may { MayStep self.old (event.NewBlack a) }
        ensures made { self.new ≡ stepped self.old (event.NewBlack a) black }
    {
        let Some(side) = &mut self.shared else {
            unreachable!()
        };
        side.new_black(a);
    }

    /// Takes the cell at a place of the board, if one stands there.
    pub fn take_board(&mut self, place: u32) -> u64
        requires mark { self.old.phase ≡ Mark }
        requires may { MayStep self.old (event.TakeMain place) }
        ensures taken { self.new ≡ stepped self.old (event.TakeMain place) result }
        ensures home { (overview self.old).home ≡ true
            → result ≡ slice_index (overview self.old).board place }
        ensures born { IfSome (reference_in result) (λ at. Contains (overview self.old).view.born at) }
    {
        let Some(side) = &mut self.shared else {
            unreachable!()
        };
        side.take_board(place)
    }

    /// The colour of a cell of a page.
    pub fn colour(&mut self, a: u32) -> Colour
        requires shared { IsTrue (is_some self.old.shared) }
        requires within { a < eden_start self.old.space }
        ensures same { self.new ≡ self.old }
        ensures home { (overview self.old).home ≡ true
            → number_of result ≡ slice_index (overview self.old).colours a }
        ensures mark { self.old.phase ≡ Mark → FindsInMark (overview self.old) a (number_of result) }
    {
        let Some(side) = &mut self.shared else {
            unreachable!()
        };
        side.colour(a)
    }

    /// While a cycle is open there is a shared table. It has a layout word for each shape that there may be. The call
    /// says so, and does nothing else.
    #[inline(always)]
    pub fn layouts_fit(&self)
        ensures shared { self.now.phase ≡ Mark → IsTrue (is_some self.now.shared) }
        ensures counted { IfSome self.now.shared (λ beside. length beside.layouts ≡ shapes_most) }
    {
        if let Some(side) = &self.shared {
            let _counts = side.counts();
        }
    }

    /// In a cycle there is a shared table, with a colour for each word of a page. It reads nothing.
    #[inline(always)]
    pub fn colours_fit(&self)
        requires mark { self.now.phase ≡ Mark }
        ensures shared { IsTrue (is_some self.now.shared) }
        ensures counted { length (overview self.now).colours ≡ eden_start self.now.space }
    {
        let Some(side) = &self.shared else {
            unreachable!()
        };
        let _counts = side.counts();
    }

    /// The mutator's view is as it is in a sound world, and the cells that wait with it are born. The call says so, by
    /// one load, and does nothing else.
    pub fn sound(&mut self)
        requires mark { self.old.phase ≡ Mark }
        ensures same { self.new ≡ self.old }
        ensures sound { let main = overview self.old in MainSound main.old main.words main.layouts main.view }
        ensures grey { let view = (overview self.old).view in AreIn view.born view.grey }
    {
        let Some(side) = &mut self.shared else {
            unreachable!()
        };
        side.sound();
    }

    /// With no seat out the world is sound, and marking reaches born cells alone. The call says so, by one load, and
    /// does nothing else.
    pub fn whole(&mut self)
        requires mark { self.old.phase ≡ Mark }
        requires home { (overview self.old).home ≡ true }
        ensures same { self.new ≡ self.old }
        ensures whole { IsSoundAndBorn (world_at_home (overview self.old)) }
    {
        let Some(side) = &mut self.shared else {
            unreachable!()
        };
        side.whole();
    }
}
