//! A lent seat's steps, each one event of marking. Each takes the table that the seat is of.
ghost use Rattle.std.specs.Prelude.{◌≡◌, ◌≢◌, ◌<◌, ◌⊎◌, true, false, Contains, IfSome, IsNone};
ghost use Rattle.page_space.specs.Extents.{board_words};
ghost use Rattle.mark_laws.specs.OwnViews.{HasReadWhole};
ghost use Rattle.mark_world.specs.declared.event.Event.TheVariants as event;
ghost use Rattle.mark_world.specs.Conditions.{MayBegin, MayGive, MayHelper};
ghost use Rattle.shared_table.specs.declared.colour.Colour.TheVariants.{White, Grey};
ghost use Rattle.shared_table.specs.Colours.{number_of};
ghost use Rattle.shared_table.specs.HelperTold.{learned, own_number, shaded, HasPlace, HasReadShape, IsReading};
ghost use Rattle.shared_table.specs.HelperTold.{RefersToOld};

use crate::colour::Colour;
use crate::helper::HelperSeat;
use crate::helper_plays::{
    GivesCell, LoadsHeader, LoadsLayout, LoadsLength, LoadsSlot, Looks, SeesTarget, Settles,
    ShadesTarget, TakesNone, TakesOne,
};
use crate::rule::SharedTable;
use tagged_word::Word;

impl HelperSeat {
    /// Loads the header of a cell that waits with it: a snap of the cell begins, and the cell waits no more.
    #[inline(always)]
    pub fn load_header(&mut self, table: &SharedTable, cell: u32) -> u64
        requires own { self.old.table ≡ table.now.table.shared.table_id }
        requires may { MayBegin self.old.lent.view }
        requires waits { Contains self.old.lent.view.grey cell }
        ensures { self.new ≡ record self.old {
          lent = learned self.old.lent (event.LoadHeader own_number cell) result;
        } }
    {
        table
            .table
            .shared
            .load::<LoadsHeader>(&mut self.seat, cell as usize)
    }

    /// Loads the layout word of the shape that the header of its snap has.
    #[inline(always)]
    pub fn load_layout(&mut self, table: &SharedTable, shape: u32) -> u64
        requires own { self.old.table ≡ table.now.table.shared.table_id }
        requires may { MayHelper self.old.lent.view (event.LoadLayout own_number) }
        requires shape { HasReadShape self.old.lent.view shape }
        ensures { self.new ≡ record self.old { lent = learned self.old.lent (event.LoadLayout own_number) result } }
    {
        let place = self.counts.layout_place(shape);
        table
            .table
            .shared
            .load::<LoadsLayout>(&mut self.seat, place)
    }

    /// Loads the length of the cell of its snap.
    #[inline(always)]
    pub fn load_length(&mut self, table: &SharedTable, cell: u32) -> u64
        requires own { self.old.table ≡ table.now.table.shared.table_id }
        requires may { MayHelper self.old.lent.view (event.LoadLength own_number) }
        requires cell { IsReading self.old.lent.view cell }
        ensures { self.new ≡ record self.old { lent = learned self.old.lent (event.LoadLength own_number) result } }
    {
        table
            .table
            .shared
            .load::<LoadsLength>(&mut self.seat, cell as usize + 1)
    }

    /// Loads a slot of the cell of its snap.
    #[inline(always)]
    pub fn load_slot(&mut self, table: &SharedTable, cell: u32, offset: u32) -> u64
        requires own { self.old.table ≡ table.now.table.shared.table_id }
        requires may { MayHelper self.old.lent.view (event.LoadSlot own_number offset) }
        requires cell { IsReading self.old.lent.view cell }
        ensures { self.new ≡ record self.old {
          lent = learned self.old.lent (event.LoadSlot own_number offset) result;
        } }
    {
        table
            .table
            .shared
            .load::<LoadsSlot>(&mut self.seat, cell as usize + offset as usize)
    }

    /// Reads a word of the table, and learns nothing of it.
    #[inline(always)]
    pub fn look(&mut self, table: &SharedTable, place: usize) -> u64
        requires own { self.old.table ≡ table.now.table.shared.table_id }
        requires within { HasPlace self.old.lent.counts place }
        ensures { self.new ≡ self.old }
    {
        table.table.shared.load::<Looks>(&mut self.seat, place)
    }

    /// Ends its snap: the cell turns black if it is grey still, and only then it is to visit the targets that were
    /// read. Returns the colour that the cell had.
    #[inline(always)]
    pub fn settle(&mut self, table: &SharedTable, cell: u32) -> Colour
        requires own { self.old.table ≡ table.now.table.shared.table_id }
        requires may { MayHelper self.old.lent.view (event.Settle own_number) }
        requires cell { IsReading self.old.lent.view cell }
        ensures settled { let found = number_of result in
            self.new ≡ record self.old { lent = learned self.old.lent (event.Settle own_number) found } }
        ensures reached { result ≢ White }
        ensures whole { result ≡ Grey → IfSome self.old.lent.view.snap HasReadWhole }
    {
        let place = self.counts.colour_place(cell);
        let found = table
            .table
            .shared
            .compare_exchange::<Settles>(&mut self.seat, place, 1, 2);
        Colour::of(found)
    }

    /// Makes a white cell grey that it is to visit, and returns the colour that the cell had. A cell that it has seen
    /// not white is so still.
    #[inline(always)]
    pub fn shade(&mut self, table: &SharedTable, at: u32) -> Colour
        requires own { self.old.table ≡ table.now.table.shared.table_id }
        requires may { Contains self.old.lent.view.visit at ⊎ Contains self.old.lent.seen at }
        ensures shaded { self.new ≡ record self.old { lent = shaded self.old.lent at (number_of result) } }
        ensures seen { Contains self.old.lent.seen at → result ≢ White }
    {
        match self.shade_seen(table, at) {
            Some(colour) => colour,
            None => self.shade_white(table, at),
        }
    }

    /// Shades a cell that is seen not to be white: the load of its colour is the whole step, since it stays.
    #[inline(always)]
    fn shade_seen(&mut self, table: &SharedTable, at: u32) -> Option<Colour>
        requires own { self.old.table ≡ table.now.table.shared.table_id }
        requires may { Contains self.old.lent.view.visit at ⊎ Contains self.old.lent.seen at }
        ensures shaded { IfSome result (λ colour.
            self.new ≡ record self.old { lent = shaded self.old.lent at (number_of colour) }) }
        ensures seen { IfSome result (λ colour. Contains self.old.lent.seen at → colour ≢ White) }
        ensures white { IsNone result → self.new ≡ self.old }
        ensures unseen { IsNone result → Contains self.old.lent.seen at → ⊥ }
    {
        let place = self.counts.colour_place(at);
        let found = table.table.shared.load::<SeesTarget>(&mut self.seat, place);
        if found == 0 {
            None
        } else {
            Some(Colour::of(found))
        }
    }

    /// Shades a cell by an exchange.
    fn shade_white(&mut self, table: &SharedTable, at: u32) -> Colour
        requires own { self.old.table ≡ table.now.table.shared.table_id }
        requires may { Contains self.old.lent.view.visit at }
        ensures shaded { self.new ≡ record self.old { lent = shaded self.old.lent at (number_of result) } }
        ensures seen { Contains self.old.lent.seen at → result ≢ White }
    {
        let place = self.counts.colour_place(at);
        let found = table
            .table
            .shared
            .compare_exchange::<ShadesTarget>(&mut self.seat, place, 0, 1);
        Colour::of(found)
    }

    /// Gives a cell that waits with it to a place of the board where nothing is, and returns the word that was found
    /// there.
    pub fn give_board(&mut self, table: &SharedTable, place: u32, at: u32) -> u64
        requires own { self.old.table ≡ table.now.table.shared.table_id }
        requires may { MayGive self.old.lent.view.grey place at }
        ensures { self.new ≡ record self.old { lent = learned self.old.lent (event.Give own_number place at) result } }
    {
        let place = self.counts.board_place(place);
        table
            .table
            .shared
            .compare_exchange::<GivesCell>(&mut self.seat, place, 0, Word::reference(at).0)
    }

    /// Takes the cell at a place of the board, if one stands there: it waits with this seat then. Returns the word that
    /// was found there.
    #[inline(always)]
    pub fn take_board(&mut self, table: &SharedTable, place: u32) -> u64
        requires own { self.old.table ≡ table.now.table.shared.table_id }
        requires on_board { place < board_words }
        ensures taken { self.new ≡ record self.old {
          lent = learned self.old.lent (event.Take own_number place) result;
        } }
        ensures old { RefersToOld self.old.lent result }
    {
        if self.take_none(table, place) {
            0
        } else {
            self.take_one(table, place)
        }
    }

    /// Takes nothing from a place of the board where nothing is: the load of its word is the whole step. Returns
    /// whether that was so.
    #[inline(always)]
    fn take_none(&mut self, table: &SharedTable, place: u32) -> bool
        requires own { self.old.table ≡ table.now.table.shared.table_id }
        requires on_board { place < board_words }
        ensures taken { result ≡ true →
            self.new ≡ record self.old { lent = learned self.old.lent (event.Take own_number place) 0 } }
        ensures same { result ≡ false → self.new ≡ self.old }
    {
        let place = self.counts.board_place(place);
        table.table.shared.load::<TakesNone>(&mut self.seat, place) == 0
    }

    /// Takes what stands at a place of the board by an exchange.
    fn take_one(&mut self, table: &SharedTable, place: u32) -> u64
        requires own { self.old.table ≡ table.now.table.shared.table_id }
        requires on_board { place < board_words }
        ensures taken { self.new ≡ record self.old {
          lent = learned self.old.lent (event.Take own_number place) result;
        } }
        ensures old { RefersToOld self.old.lent result }
    {
        let place = self.counts.board_place(place);
        table
            .table
            .shared
            .swap::<TakesOne>(&mut self.seat, place, 0)
    }
}
