//! What each step of a lent seat on a word of the table tells it.

use crate::overview::View;
use crate::own_words::OwnWords;
use atomic_table::Play;

/// The header of a cell is read.
pub(crate) struct LoadsHeader;

impl Play<OwnWords, View> for LoadsHeader {
    ghost use Rattle.shared_table.specs.HelperTold.{tells_learned, header_load};

    ghost then = { tells_learned header_load };
}

/// A layout word is read.
pub(crate) struct LoadsLayout;

impl Play<OwnWords, View> for LoadsLayout {
    ghost use Rattle.shared_table.specs.HelperTold.{tells_learned, layout_load};

    ghost then = { tells_learned layout_load };
}

/// The length of a cell is read.
pub(crate) struct LoadsLength;

impl Play<OwnWords, View> for LoadsLength {
    ghost use Rattle.shared_table.specs.HelperTold.{tells_learned, length_load};

    ghost then = { tells_learned length_load };
}

/// A slot is read.
pub(crate) struct LoadsSlot;

impl Play<OwnWords, View> for LoadsSlot {
    ghost use Rattle.shared_table.specs.HelperTold.{tells_learned, slot_load};

    ghost then = { tells_learned slot_load };
}

/// A snap is settled.
pub(crate) struct Settles;

impl Play<OwnWords, View> for Settles {
    ghost use Rattle.shared_table.specs.HelperTold.{tells_settled};

    ghost then = { tells_settled };
}

/// A cell is shaded.
pub(crate) struct ShadesTarget;

impl Play<OwnWords, View> for ShadesTarget {
    ghost use Rattle.shared_table.specs.HelperTold.{tells_shaded};

    ghost then = { tells_shaded };
}

/// A cell that is not white is shaded: its colour stays.
pub(crate) struct SeesTarget;

impl Play<OwnWords, View> for SeesTarget {
    ghost use Rattle.shared_table.specs.HelperTold.{tells_seen};

    ghost then = { tells_seen };
}

/// A cell is given to the board.
pub(crate) struct GivesCell;

impl Play<OwnWords, View> for GivesCell {
    ghost use Rattle.shared_table.specs.HelperTold.{tells_learned, giving};

    ghost then = { tells_learned giving };
}

/// A cell is taken from the board.
pub(crate) struct TakesOne;

impl Play<OwnWords, View> for TakesOne {
    ghost use Rattle.shared_table.specs.HelperTold.{tells_taken};

    ghost then = { tells_taken };
}

/// Nothing is taken from a place of the board where nothing is.
pub(crate) struct TakesNone;

impl Play<OwnWords, View> for TakesNone {
    ghost use Rattle.shared_table.specs.HelperTold.{tells_none};

    ghost then = { tells_none };
}

/// A word is read, and nothing is learned of it.
pub(crate) struct Looks;

impl Play<OwnWords, View> for Looks {
    ghost use Rattle.shared_table.specs.HelperTold.{tells_nothing};

    ghost then = { tells_nothing };
}
