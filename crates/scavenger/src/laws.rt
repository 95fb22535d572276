//! What a scavenge begins with, what slots refer to throughout, and what becomes of the words where one
//! is followed.
ghost use Rattle.scavenger.specs.Following.{SlotsHaveTargets, CopyingGoesOn, RenamingGoesOn};
ghost use Rattle.scavenger.specs.Laws.{ShownHeapsMayBegin, EndsAreScavenges, ScavengesAreTight};
ghost use Rattle.scavenger.specs.Laws.{ScavengesFillPages, ScavengesTakeWords, ScavengesOfAllLeaveStuck};
ghost use Rattle.scavenger.specs.Granting.{GrantsMakeRoom, GrantsKeepGraphs, GrantsKeepStores, GrantsStayTight};

/// A heap that shows a graph may be scavenged. What is young behind a scavenge is reached, from variables
/// or from slots of pages; what came to pages is so too, or free. Words of free runs are taken for cells
/// that are promoted, and no others; what was to be promoted is, if a free run has its words. Where all
/// was to be, what is young is longer than each free run. Each cell of a page stays in its place.
pub fn laws_of_scavenges()
    ensures begin { ShownHeapsMayBegin }
    ensures tight { ScavengesAreTight }
    ensures pages { ScavengesFillPages }
    ensures words { ScavengesTakeWords }
    ensures stuck { ScavengesOfAllLeaveStuck }
{}

/// Each live slot that refers to words that are left refers to one of the cells there: to a header
/// that is the reference to a home, or to the cell as it was, for which the segment has words.
pub fn laws_of_slots()
    ensures targets { SlotsHaveTargets }
{}

/// Where a live slot refers to a cell that has no home, a copy of it may be made its home, in the
/// segment or in a free run. A slot that refers to a cell with a home may come to refer to that.
pub fn laws_of_following()
    ensures copying { CopyingGoesOn }
    ensures renaming { RenamingGoesOn }
{}

/// Where all is done and the words that are left were emptied, it is a scavenge: the heap that is left
/// shows the graph, its objects have the rooms that they had, and it may be scavenged again.
pub fn laws_of_ends()
    ensures { EndsAreScavenges }
{}

/// Where words of a free run were granted, there is room for so many; the heap shows what it showed, with
/// the same rooms, objects stand where they stood, and no more young cells are kept than are reached.
pub fn laws_of_grants()
    ensures room { GrantsMakeRoom }
    ensures graphs { GrantsKeepGraphs }
    ensures stores { GrantsKeepStores }
    ensures tight { GrantsStayTight }
{}
