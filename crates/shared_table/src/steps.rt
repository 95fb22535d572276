//! The main seat's steps in an open cycle, each one event of marking. Two of them put a word in each phase.
ghost use Rattle.std.specs.Prelude.{◌≡◌, ◌+◌, ◌<◌, ◌⊎◌, true, false, Contains, IfSome, IsNone, length, slice_index};
ghost use Rattle.tagged_word.specs.Readings.{reference_in};
ghost use Rattle.core_parts.specs.Boards.{IsBoardWord};
ghost use Rattle.mark_laws.specs.PageWords.{MainSound};
ghost use Rattle.mark_laws.specs.Runs.{IsSoundAndBorn};
ghost use Rattle.mark_laws.specs.Types.{Spot};
ghost use Rattle.mark_world.specs.declared.event.Event.TheVariants as event;
ghost use Rattle.mark_world.specs.Soundness.{AreIn};
ghost use Rattle.mark_world.specs.Steps.{black};
ghost use Rattle.shared_table.specs.declared.colour.Colour.TheVariants.{Black};
ghost use Rattle.shared_table.specs.declared.phase.Phase.TheVariants.{Mark};
ghost use Rattle.shared_table.specs.Changes.{MayDo, told};
ghost use Rattle.shared_table.specs.Colours.{number_of};
ghost use Rattle.shared_table.specs.Spots.{FindsInMark, with_spot};
ghost use Rattle.shared_table.specs.Worlds.{world_at_home};

use crate::colour::Colour;
use crate::main_side::MainSide;
use crate::plays::{
    AddsLayout, Blackens, IsSound, IsWhole, LeavesBlack, LeavesColour, MakesBlack, PutsWord,
    SeesColour, Shades, StoresSlot, TakesCell,
};

impl MainSide {
    /// Stores a word in a slot of a page. Its target is owed then.
    #[inline(always)]
    pub fn store_slot(&mut self, a: u32, word: u64)
        requires mark { self.old.main.phase ≡ Mark }
        requires within { a < self.old.main.old }
        requires may { MayDo self.old.main (event.StoreSlot a word) }
        ensures stored { self.new ≡ record self.old { main = told self.old.main (event.StoreSlot a word) word } }
    {
        self.shared
            .table
            .shared
            .store::<StoresSlot>(&mut self.seat, a as usize, word);
    }

    /// Puts a word of a page. In an open cycle no helper may visit by it, or it is a header that changes safely.
    #[inline(always)]
    pub fn store_header(&mut self, a: u32, word: u64)
        requires within { a < self.old.main.old }
        requires may { let main = self.old.main in
            main.phase ≡ Mark → MayDo main (event.StoreHeader a word) ⊎ MayDo main (event.StoreOwned a word) }
        ensures put { self.new ≡ record self.old { main = with_spot self.old.main (Spot.Heap a) word } }
    {
        // The seat knows the words of the pages in each phase, so the step is one store in each.
        self.shared
            .table
            .shared
            .store::<PutsWord>(&mut self.seat, a as usize, word);
    }

    /// Puts a word of a page. In an open cycle no helper may visit by it.
    #[inline(always)]
    pub fn store_owned(&mut self, a: u32, word: u64)
        requires within { a < self.old.main.old }
        requires may { self.old.main.phase ≡ Mark → MayDo self.old.main (event.StoreOwned a word) }
        ensures put { self.new ≡ record self.old { main = with_spot self.old.main (Spot.Heap a) word } }
    {
        self.store_header(a, word);
    }

    /// Puts a new layout word in its place.
    pub fn add_layout(&mut self, shape: u32, word: u64)
        requires mark { self.old.main.phase ≡ Mark }
        requires within { shape < length self.old.main.layouts }
        requires may { MayDo self.old.main (event.AddLayout shape word) }
        ensures added { self.new ≡ record self.old { main = told self.old.main (event.AddLayout shape word) word } }
    {
        let place = self.counts.old as usize + shape as usize;
        self.shared
            .table
            .shared
            .store::<AddsLayout>(&mut self.seat, place, word);
    }

    /// Makes a white cell grey, and returns the colour that it had.
    #[inline(always)]
    pub fn shade(&mut self, a: u32) -> Colour
        requires mark { self.old.main.phase ≡ Mark }
        requires within { a < self.old.main.old }
        requires may { MayDo self.old.main (event.ShadeMain a) }
        ensures shaded { let found = number_of result in
            self.new ≡ record self.old { main = told self.old.main (event.ShadeMain a) found } }
        ensures home { self.old.main.home ≡ true → number_of result ≡ slice_index self.old.main.colours a }
        ensures mine { Contains self.old.main.view.mine a → result ≡ Black }
    {
        match self.shade_seen(a) {
            Some(colour) => colour,
            None => self.shade_white(a),
        }
    }

    /// Shades a cell that is seen not to be white: the load of its colour is the whole step, since it stays.
    #[inline(always)]
    fn shade_seen(&mut self, a: u32) -> Option<Colour>
        requires mark { self.old.main.phase ≡ Mark }
        requires within { a < self.old.main.old }
        requires may { MayDo self.old.main (event.ShadeMain a) }
        ensures shaded { IfSome result (λ colour. let found = number_of colour in
            self.new ≡ record self.old { main = told self.old.main (event.ShadeMain a) found }) }
        ensures home { IfSome result (λ colour. self.old.main.home ≡ true →
            number_of colour ≡ slice_index self.old.main.colours a) }
        ensures mine { IfSome result (λ colour. Contains self.old.main.view.mine a → colour ≡ Black) }
        ensures white { IsNone result → self.new ≡ self.old }
    {
        let place = self.counts.colour_place(a);
        let found = self
            .shared
            .table
            .shared
            .load::<LeavesColour>(&mut self.seat, place);
        if found == 0 {
            None
        } else {
            Some(Colour::of(found))
        }
    }

    /// Shades a cell by an exchange.
    fn shade_white(&mut self, a: u32) -> Colour
        requires mark { self.old.main.phase ≡ Mark }
        requires within { a < self.old.main.old }
        requires may { MayDo self.old.main (event.ShadeMain a) }
        ensures shaded { let found = number_of result in
            self.new ≡ record self.old { main = told self.old.main (event.ShadeMain a) found } }
        ensures home { self.old.main.home ≡ true → number_of result ≡ slice_index self.old.main.colours a }
        ensures mine { Contains self.old.main.view.mine a → result ≡ Black }
    {
        let place = self.counts.colour_place(a);
        let found = self
            .shared
            .table
            .shared
            .compare_exchange::<Shades>(&mut self.seat, place, 0, 1);
        Colour::of(found)
    }

    /// Makes a cell black, and returns the colour that it had. The targets of its tagged slots are owed then,
    /// unless it was black.
    pub fn blacken(&mut self, a: u32) -> Colour
        requires mark { self.old.main.phase ≡ Mark }
        requires within { a < self.old.main.old }
        requires may { MayDo self.old.main (event.Blacken a) }
        ensures blackened { let found = number_of result in
            self.new ≡ record self.old { main = told self.old.main (event.Blacken a) found } }
        ensures home { self.old.main.home ≡ true → number_of result ≡ slice_index self.old.main.colours a }
        ensures mine { Contains self.old.main.view.mine a → result ≡ Black }
    {
        if self.blacken_seen(a) {
            Colour::Black
        } else {
            self.blacken_unseen(a)
        }
    }

    /// Whether a cell is seen to be black. If so, the load of its colour is the whole step, since it stays.
    #[inline(always)]
    fn blacken_seen(&mut self, a: u32) -> bool
        requires mark { self.old.main.phase ≡ Mark }
        requires within { a < self.old.main.old }
        requires may { MayDo self.old.main (event.Blacken a) }
        ensures blackened { result ≡ true →
            self.new ≡ record self.old { main = told self.old.main (event.Blacken a) black } }
        ensures home { result ≡ true → self.old.main.home ≡ true → black ≡ slice_index self.old.main.colours a }
        ensures other { result ≡ false → self.new ≡ self.old }
    {
        let place = self.counts.colour_place(a);
        let found = self
            .shared
            .table
            .shared
            .load::<LeavesBlack>(&mut self.seat, place);
        found == 2
    }

    /// Makes a cell black by an exchange.
    fn blacken_unseen(&mut self, a: u32) -> Colour
        requires mark { self.old.main.phase ≡ Mark }
        requires within { a < self.old.main.old }
        requires may { MayDo self.old.main (event.Blacken a) }
        ensures blackened { let found = number_of result in
            self.new ≡ record self.old { main = told self.old.main (event.Blacken a) found } }
        ensures home { self.old.main.home ≡ true → number_of result ≡ slice_index self.old.main.colours a }
        ensures mine { Contains self.old.main.view.mine a → result ≡ Black }
    {
        let place = self.counts.colour_place(a);
        let found = self
            .shared
            .table
            .shared
            .swap::<Blackens>(&mut self.seat, place, 2);
        Colour::of(found)
    }

    /// Makes a cell black that was just made.
    #[inline(always)]
    pub fn new_black(&mut self, a: u32)
        requires mark { self.old.main.phase ≡ Mark }
        requires may { MayDo self.old.main (event.NewBlack a) }
        ensures made { self.new ≡ record self.old { main = told self.old.main (event.NewBlack a) 2 } }
    {
        let place = self.counts.colour_place(a);
        self.shared
            .table
            .shared
            .store::<MakesBlack>(&mut self.seat, place, 2);
    }

    /// Takes the cell at a place of the board, if one stands there.
    pub fn take_board(&mut self, place: u32) -> u64
        requires mark { self.old.main.phase ≡ Mark }
        requires may { MayDo self.old.main (event.TakeMain place) }
        ensures taken { self.new ≡ record self.old { main = told self.old.main (event.TakeMain place) result } }
        ensures home { self.old.main.home ≡ true → result ≡ slice_index self.old.main.board place }
        ensures word { IsBoardWord result }
        ensures born { IfSome (reference_in result) (λ at. Contains self.old.main.view.born at) }
    {
        let place = self.counts.board_place(place);
        self.shared
            .table
            .shared
            .swap::<TakesCell>(&mut self.seat, place, 0)
    }

    /// The colour of a cell of a page.
    pub fn colour(&mut self, a: u32) -> Colour
        requires within { a < self.old.main.old }
        ensures same { self.new ≡ self.old }
        ensures home { self.old.main.home ≡ true → number_of result ≡ slice_index self.old.main.colours a }
        ensures mark { self.old.main.phase ≡ Mark → FindsInMark self.old.main a (number_of result) }
    {
        let place = self.counts.colour_place(a);
        let found = self
            .shared
            .table
            .shared
            .load::<SeesColour>(&mut self.seat, place);
        Colour::of(found)
    }

    /// The mutator's view is as it is in a sound world, and the cells that wait with it are born. The call says so, by
    /// one load, and does nothing else.
    pub fn sound(&mut self)
        requires mark { self.old.main.phase ≡ Mark }
        ensures same { self.new ≡ self.old }
        ensures sound { let main = self.old.main in MainSound main.old main.words main.layouts main.view }
        ensures grey { AreIn self.old.main.view.born self.old.main.view.grey }
    {
        self.shared.table.shared.load::<IsSound>(&mut self.seat, 0);
    }

    /// With no seat out the world is sound, and marking reaches born cells alone. The call says so, by one load, and
    /// does nothing else.
    pub fn whole(&mut self)
        requires mark { self.old.main.phase ≡ Mark }
        requires home { self.old.main.home ≡ true }
        ensures same { self.new ≡ self.old }
        ensures whole { IsSoundAndBorn (world_at_home self.old.main) }
    {
        self.shared.table.shared.load::<IsWhole>(&mut self.seat, 0);
    }
}
