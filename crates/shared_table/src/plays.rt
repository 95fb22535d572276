//! What each step on a word of the table tells its seat.
ghost use Rattle.std.specs.Prelude.{ℕ};
ghost use Rattle.mark_world.specs.Cycles.{Cycle};
ghost use Rattle.shared_table.specs.declared.overview.Overview.{Overview};
ghost use Rattle.shared_table.specs.Owned.{Own};

use crate::overview::View;
use crate::own_words::OwnWords;
use atomic_table::{Join, Play, Split};
use std::marker::PhantomData;

/// A word is stored in a slot.
pub(crate) struct StoresSlot;

impl Play<OwnWords, View> for StoresSlot {
    ghost use Rattle.shared_table.specs.Told.{tells_event, slot_event};

    ghost then = { tells_event slot_event };
}

/// A layout word comes to its place.
pub(crate) struct AddsLayout;

impl Play<OwnWords, View> for AddsLayout {
    ghost use Rattle.shared_table.specs.Told.{tells_event, layout_event};

    ghost then = { tells_event layout_event };
}

/// A white cell turns grey.
pub(crate) struct Shades;

impl Play<OwnWords, View> for Shades {
    ghost use Rattle.shared_table.specs.Told.{tells_found, shade_event};

    ghost then = { tells_found shade_event };
}

/// A cell that is not white is shaded: its colour stays.
pub(crate) struct LeavesColour;

impl Play<OwnWords, View> for LeavesColour {
    ghost use Rattle.shared_table.specs.Told.{tells_left, shade_event};

    ghost then = { tells_left shade_event };
}

/// A cell that is black is made black: its colour stays.
pub(crate) struct LeavesBlack;

impl Play<OwnWords, View> for LeavesBlack {
    ghost use Rattle.shared_table.specs.Told.{tells_left, blacken_event};

    ghost then = { tells_left blacken_event };
}

/// A cell turns black.
pub(crate) struct Blackens;

impl Play<OwnWords, View> for Blackens {
    ghost use Rattle.shared_table.specs.Told.{tells_found, blacken_event};

    ghost then = { tells_found blacken_event };
}

/// A new cell is black.
pub(crate) struct MakesBlack;

impl Play<OwnWords, View> for MakesBlack {
    ghost use Rattle.shared_table.specs.Told.{tells_event, new_event};

    ghost then = { tells_event new_event };
}

/// A cell is given to the board.
pub(crate) struct PutsCell;

impl Play<OwnWords, View> for PutsCell {
    ghost use Rattle.shared_table.specs.Told.{tells_found, give_event};

    ghost then = { tells_found give_event };
}

/// A cell is taken from the board.
pub(crate) struct TakesCell;

impl Play<OwnWords, View> for TakesCell {
    ghost use Rattle.shared_table.specs.Told.{tells_found, take_event};

    ghost then = { tells_found take_event };
}

/// A word of a page is put that is in no slot which helpers visit.
pub(crate) struct PutsWord;

impl Play<OwnWords, View> for PutsWord {
    ghost use Rattle.shared_table.specs.Told.{tells_put, heap_spot};

    ghost then = { tells_put heap_spot };
}

/// A layout word is put.
pub(crate) struct PutsLayout;

impl Play<OwnWords, View> for PutsLayout {
    ghost use Rattle.shared_table.specs.Told.{tells_put, shape_spot};

    ghost then = { tells_put shape_spot };
}

/// A colour is put.
pub(crate) struct PutsColour;

impl Play<OwnWords, View> for PutsColour {
    ghost use Rattle.shared_table.specs.Told.{tells_put, colour_spot};

    ghost then = { tells_put colour_spot };
}

/// A colour is read.
pub(crate) struct SeesColour;

impl Play<OwnWords, View> for SeesColour {
    ghost use Rattle.shared_table.specs.Told.{tells_colour};

    ghost then = { tells_colour };
}

/// The mutator's view is as it is in a sound world, and what waits with it is born.
pub(crate) struct IsSound;

impl Play<OwnWords, View> for IsSound {
    ghost use Rattle.shared_table.specs.Told.{tells_sound};

    ghost then = { tells_sound };
}

/// With no seat out the world is sound.
pub(crate) struct IsWhole;

impl Play<OwnWords, View> for IsWhole {
    ghost use Rattle.shared_table.specs.Told.{tells_whole};

    ghost then = { tells_whole };
}

/// A cycle waits.
pub(crate) struct Pauses;

impl Play<OwnWords, View> for Pauses {
    ghost use Rattle.shared_table.specs.Told.{tells_paused};

    ghost then = { tells_paused };
}

/// A cycle is closed.
pub(crate) struct Closes;

impl Play<OwnWords, View> for Closes {
    ghost use Rattle.shared_table.specs.Told.{tells_closed};

    ghost then = { tells_closed };
}

/// The colours and the board are known again.
pub(crate) struct ComesHome;

impl Play<OwnWords, View> for ComesHome {
    ghost use Rattle.shared_table.specs.Told.{tells_home};

    ghost then = { tells_home };
}

/// Which cycle a main seat may come to be in, by the own words with their regions, how many objects were made, and what
/// the seat knew before.
pub trait Choice {
    ghost fits: { Own → ℕ → Overview → Cycle → Type 0 };
}

/// A cycle is opened, one that may be.
pub(crate) struct Opens<M> {
    choice: PhantomData<M>,
}

impl<M: Choice> Play<OwnWords, View> for Opens<M> {
    ghost use Rattle.shared_table.specs.Told.{tells_opened};

    ghost then = { tells_opened M.fits };
}

/// A cycle that waited goes on, as one that may be.
pub(crate) struct Resumes<M> {
    choice: PhantomData<M>,
}

impl<M: Choice> Play<OwnWords, View> for Resumes<M> {
    ghost use Rattle.shared_table.specs.Told.{tells_resumed};

    ghost then = { tells_resumed M.fits };
}

/// A seat is lent.
pub(crate) struct Lends;

impl Split<View> for Lends {
    ghost use Rattle.shared_table.specs.Changes.{lending_view, lent_view};

    ghost left = { lending_view };

    ghost right = { lent_view };
}

/// A seat is taken back.
pub(crate) struct TakesBack;

impl Join<View> for TakesBack {
    ghost use Rattle.shared_table.specs.Changes.{taking_view};
    ghost use Rattle.shared_table.specs.declared.overview.View.TheVariants.{Gone};

    ghost both = { taking_view };

    ghost spent = { Gone };
}
