//! The sizes of the table, and what seats know of it. No value of an `Overview`, a `Lent` or a `View` is made: they are
//! the views of seats, which have no bytes.
ghost use Rattle.std.specs.Prelude.{◌≡◌, ◌+◌, ◌<◌};
ghost use Rattle.page_space.specs.Extents.{board_words};

use crate::phase::Phase;
use core_parts::Items;
use mark_world::{HelperView, MainView};

/// How many words the pages have, and how many layout words there are.
#[derive(Clone, Copy, Debug, PartialEq, Eq)]
pub struct Counts {
    pub old: u32,
    pub shapes: u32,
}

impl Counts {
    /// The place of a layout word in the table.
    #[inline(always)]
    pub(crate) fn layout_place(self, shape: u32) -> usize
        ensures { result ≡ self.old + shape }
    {
        self.old as usize + shape as usize
    }

    /// The place of the colour of a page's word.
    #[inline(always)]
    pub(crate) fn colour_place(self, a: u32) -> usize
        ensures { result ≡ self.old + (self.shapes + a) }
    {
        self.old as usize + (self.shapes as usize + a as usize)
    }

    /// The place of a word of the board.
    #[inline(always)]
    pub fn board_place(self, place: u32) -> usize
        ensures { result ≡ self.old + (self.shapes + (self.old + place)) }
    {
        self.old as usize + (self.shapes as usize + (self.old as usize + place as usize))
    }
}

/// What the main seat knows of the table.
pub struct Overview {
    /// Whether a cycle is open.
    pub phase: Phase,
    /// Whether the colours and the board are known: no seat is out that could change them.
    pub home: bool,
    /// How many words the pages have.
    pub old: u32,
    /// The words of the pages.
    pub words: Items<u64>,
    /// The layout word of each shape; 0 where it is not in use.
    pub layouts: Items<u64>,
    /// The colours of the pages' words; of no meaning while they are not at home.
    pub colours: Items<u8>,
    /// The board; of no meaning while it is not at home.
    pub board: Items<u64>,
    /// The mutator's view of the open cycle.
    pub view: MainView,
    /// The numbers of the objects that could be reached when the cycle was opened.
    pub reached: Items<u32>,
    /// How many objects there were then.
    pub made: u32,
    /// The words of pages that were dead then.
    pub dead: Items<u32>,
    /// How many seats are out.
    pub out: u64,
    /// How many seats were ever lent.
    pub lent: u64,
}

/// What a seat knows that was lent.
pub struct Lent {
    /// The sizes of the table.
    pub counts: Counts,
    /// The helper's view of the open cycle.
    pub view: HelperView,
    /// Cells that it has seen not white.
    pub seen: Items<u32>,
}

/// The view of a seat.
pub enum View {
    /// That of the main seat.
    Main(Overview),
    /// That of a seat that was lent.
    Helper(Lent),
    /// That of a seat that was taken back.
    Gone,
}
