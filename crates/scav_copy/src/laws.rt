//! What copying keeps, and what it comes to.
ghost use Rattle.scav_copy.specs.CopyLaws.{StartIsCopying, RoomsMayBeFilled, CellsMayMove};
ghost use Rattle.scav_copy.specs.CopyLaws.{SlotsMayBeRenamed, LiveSlotsReferAsBefore};
ghost use Rattle.scav_copy.specs.CopyLaws.{LiveSlotsHaveOneOrigin, LiveSlotsStayLive};
ghost use Rattle.scav_copy.specs.CopyLaws.{CopiesEnd, CopiesReadAsCells, EndIsRenaming};
ghost use Rattle.scav_copy.specs.Going.{CopyingGoesOn, SlotsAreFollowed};
ghost use Rattle.scav_copy.specs.Worked.{StartIsLaidOut, EndIsWorked, OthersAreNot};

/// The words before are copying with no home. So are the words after each of three steps: a word of
/// a room that is in no home copy is stored; a cell that was reached and has no home gets one, where
/// its words stand; a live slot gets the home of the cell that it referred to before.
pub fn laws_of_copying()
    ensures start { StartIsCopying }
    ensures filled { RoomsMayBeFilled }
    ensures moved { CellsMayMove }
    ensures renamed { SlotsMayBeRenamed }
{}

/// A live slot stood at one place before, and stays live when a cell gets a home. Where it refers to
/// a cell that is to be copied, it holds the word of before, and the cell is reached.
pub fn laws_of_live_slots()
    ensures as_before { LiveSlotsReferAsBefore }
    ensures one_origin { LiveSlotsHaveOneOrigin }
    ensures stay_live { LiveSlotsStayLive }
{}

/// A home copy lies in the words, and what stands there reads as the cell that it is the copy of, by
/// any bound that it does not pass.
pub fn laws_of_home_copies()
    ensures ends { CopiesEnd }
    ensures read { CopiesReadAsCells }
{}

/// Where no live slot refers to a cell that is to be copied, the copies are a renaming of all that
/// was reached, each lies in one room and shares no word with another, and every word outside is as
/// before.
pub fn laws_of_renaming()
    ensures end { EndIsRenaming }
{}

/// A scavenge by one may go on from any words and homes that are copying, as from those that several
/// workers left: each list of the three steps leaves copying words and loses no home, and where no
/// live slot refers to a cell that is to be copied, all that was reached is renamed. A live slot that
/// refers to one may be followed: the header there is the reference to its home, or no reference, and
/// then the cell reads as before and may get a home.
pub fn laws_of_going_on()
    ensures goes_on { CopyingGoesOn }
    ensures followed { SlotsAreFollowed }
{}

/// A scavenge worked by hand is laid out and ends in a renaming, and wrong ends of it are none: a
/// slot that refers to the copy of a loser, a second home, no home, a torn copy; nor may a word
/// outside change.
pub fn laws_of_a_worked_scavenge()
    ensures laid { StartIsLaidOut }
    ensures end { EndIsWorked }
    ensures others { OthersAreNot }
{}
