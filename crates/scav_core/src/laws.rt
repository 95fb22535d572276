//! What every list of events leaves true.
ghost use Rattle.scav_core.specs.WorldLaws.{FreshIsUnderway, EventsKeepUnderway, ListsKeepUnderway};
ghost use Rattle.scav_core.specs.WorldLaws.{FixedStays, UnderwayHasFacts};
ghost use Rattle.scav_core.specs.WorkerGuarantees.{EventsStayFor, HeadersMayBeLoaded, BodiesMayBeLoaded};
ghost use Rattle.scav_core.specs.WorkerGuarantees.{SlotsMayBeRedirected, TodoMayBeLoaded};
ghost use Rattle.scav_core.specs.WorkerLaws.{HomesReadAsCells, TodoReadsAsCells};
ghost use Rattle.scav_core.specs.WorkerLaws.{LeftIsOnBoard, NothingLeftIsDone, MainGoesOn};
ghost use Rattle.scav_core.specs.OwnHomes.{OfferedMayBeLoaded, WordsMayBeStored};
ghost use Rattle.scav_core.specs.KnownHomes.{FreshHasMakers, EventsKeepMakers, LentKnowsNone};
ghost use Rattle.scav_core.specs.KnownHomes.{EventsKeepKnown, ExchangesAreKnown};
ghost use Rattle.scav_core.specs.OwnHomes.{CellsMayBeForwarded, OwnHomesStay, JobsGoOn};
ghost use Rattle.scav_core.specs.OwnHomes.{WholeHasSize};

/// A fresh world is underway, and stays so in each event that is possible, and so in each list of
/// them. What is fixed no event changes. A world that is underway has all that `replay` says of the
/// world after events from a fresh one.
pub fn laws_of_worlds()
    ensures fresh { FreshIsUnderway }
    ensures event { EventsKeepUnderway }
    ensures list { ListsKeepUnderway }
    ensures fixed { FixedStays }
    ensures facts { UnderwayHasFacts }
{}

/// What a worker may rely on, whatever event comes: homes, forwarding words and copies stay, live
/// slots change from a cell to its home alone, and a room's other words and a view by its worker
/// alone.
pub fn laws_of_what_stays()
    ensures { EventsStayFor }
{}

/// What a worker knows to be possible by its own view: to read the header and the next word of the
/// cell that it took on, to store a reference that it has for the header, and to read each slot of
/// the copies that it has to do.
pub fn laws_of_what_is_possible()
    ensures headers { HeadersMayBeLoaded }
    ensures bodies { BodiesMayBeLoaded }
    ensures redirects { SlotsMayBeRedirected }
    ensures todo { TodoMayBeLoaded }
{}

/// What a worker may conclude from its own view, the rooms, and the homes that it made. A home copy
/// reads as its cell, so what a worker with no job has to do reads as a cell, and it may read each
/// slot that this cell has. It may read each of `slots`, store in its rooms beside its own homes, and
/// exchange for a whole copy that stands there. It gets a home by its own exchange alone. What it has
/// read of a header is a reference, or names a size, of which no more was read; where all of it was
/// read, it is the size of the cell, and so of the copy.
pub fn laws_of_what_a_worker_knows()
    ensures homes { HomesReadAsCells }
    ensures todo { TodoReadsAsCells }
    ensures offered { OfferedMayBeLoaded }
    ensures words { WordsMayBeStored }
    ensures cells { CellsMayBeForwarded }
    ensures own { OwnHomesStay }
    ensures jobs { JobsGoOn }
    ensures sizes { WholeHasSize }
{}

/// How a worker knows the homes that it made, by a list beside its view: each home lies in a room of
/// a worker that has begun, so one that begins has none; its own exchange makes one more, of the cell
/// of its job; no other event makes one.
pub fn laws_of_known_homes()
    ensures fresh { FreshHasMakers }
    ensures makers { EventsKeepMakers }
    ensures lent { LentKnowsNone }
    ensures event { EventsKeepKnown }
    ensures exchange { ExchangesAreKnown }
{}

/// What is left when workers stop. Where none is at a slot, and all slots were read that were dealt
/// out or that they have to do, each live slot that still refers to one of the cells is one of a
/// copy on the board; with no copy on the board the scavenge is done. Whatever is left, a scavenge by
/// one goes on from it.
pub fn laws_of_what_is_left()
    ensures on_board { LeftIsOnBoard }
    ensures nothing { NothingLeftIsDone }
    ensures goes_on { MainGoesOn }
{}
