//! Laws of a cycle of marking, in the order of their use.
ghost use Rattle.cycle_laws.specs.Changes.{ChangesKeepClosed, BindingsKeepClosed, NewObjectsKeepClosed};
ghost use Rattle.cycle_laws.specs.DeadWords.{OpensAvoidingDead, ChangesAvoidDead, BindingsAvoidDead};
ghost use Rattle.cycle_laws.specs.DeadWords.{NewObjectsAvoidDead, ScavengesAvoidDead, LiveHasNoDeadWord};
ghost use Rattle.cycle_laws.specs.Ends.{ColouredIsKept, BlackSlotsLeadOn, BlackSlotsLeadToStarts};
ghost use Rattle.cycle_laws.specs.Ends.{FreePagesAreWhite};
ghost use Rattle.cycle_laws.specs.LostWords.{LostWordsAreListed};
ghost use Rattle.cycle_laws.specs.Openings.{CyclesOpen, FirstWorldsAreFresh};
ghost use Rattle.cycle_laws.specs.OwnCells.{RunsHaveNoUsedWord, OpensWithNoOwnCell, ChangesAvoidOwnCells};
ghost use Rattle.cycle_laws.specs.OwnCells.{ScavengesAvoidOwnCells};
ghost use Rattle.cycle_laws.specs.Reached.{ReachedIsKept, LiveIsKept};
ghost use Rattle.cycle_laws.specs.RestsAgain.{CommandsRest, BindingsRest, NewObjectsRest};
ghost use Rattle.cycle_laws.specs.Scavenges.{ScavengesKeepClosed, ScavengesKeepCells, ScavengesRestart};
ghost use Rattle.cycle_laws.specs.Steps.{SlotsMayBeStored, QuietWordsMayBeStored, HeadersMayBeStored};
ghost use Rattle.cycle_laws.specs.Steps.{MineMayBeginCells, KeptMayBeBlackened, KeptTargetsAreBorn};

/// What can be reached is kept, and so is what is live from kept cells.
pub fn laws_of_reached_cells()
    ensures reached { ReachedIsKept }
    ensures live { LiveIsKept }
{}

/// A heap that shows a graph and has no young cell opens a cycle, and the world of its pages is fresh
/// then.
pub fn laws_of_openings()
    ensures open { CyclesOpen }
    ensures fresh { FirstWorldsAreFresh }
{}

/// What is kept stays closed: where a command changes cells, binds a variable anew, or makes an object
/// and binds it. So the heap rests again after each.
pub fn laws_of_changes()
    ensures cells { ChangesKeepClosed }
    ensures bindings { BindingsKeepClosed }
    ensures objects { NewObjectsKeepClosed }
    ensures rest { CommandsRest }
    ensures bound { BindingsRest }
    ensures made { NewObjectsRest }
{}

/// What a step of marking asks of the mutator holds of a cell of a page, by its offsets and the word;
/// and kept cells of pages are born.
pub fn laws_of_steps()
    ensures slots { SlotsMayBeStored }
    ensures quiet { QuietWordsMayBeStored }
    ensures headers { HeadersMayBeStored }
    ensures new { MineMayBeginCells }
    ensures black { KeptMayBeBlackened }
    ensures targets { KeptTargetsAreBorn }
{}

/// As a cycle ends, each cell that has a colour is a kept cell of a page. What a slot of a black one
/// refers to is young, or has a colour, and is neither free nor a weak table, but for slots of weak maps. In
/// a page that is one free run no cell has one.
pub fn laws_of_ends()
    ensures coloured { ColouredIsKept }
    ensures black { BlackSlotsLeadOn }
    ensures starts { BlackSlotsLeadToStarts }
    ensures pages { FreePagesAreWhite }
{}

/// After a scavenge in an open cycle, with the promoted cells joined, what is kept is closed, and free
/// starts and cells that the mutator made black stand in pages. The world of the pages is one from
/// which marking restarts.
pub fn laws_of_scavenges()
    ensures closed { ScavengesKeepClosed }
    ensures cells { ScavengesKeepCells }
    ensures restart { ScavengesRestart }
{}

/// No cell of a page that a cycle keeps, and that is not free, has a word that belonged to nothing that
/// could be reached when it opened, and no free run has one: neither then, nor after commands and
/// scavenges. These words of pages are a list. So the last marking marks no cell with such a word.
pub fn laws_of_dead_words()
    ensures lost { LostWordsAreListed }
    ensures open { OpensAvoidingDead }
    ensures changes { ChangesAvoidDead }
    ensures bindings { BindingsAvoidDead }
    ensures objects { NewObjectsAvoidDead }
    ensures scavenges { ScavengesAvoidDead }
    ensures live { LiveHasNoDeadWord }
{}

/// No free run has a word of a cell that is not free. So none has the address of a cell that the mutator
/// made black itself: neither as a cycle opens, nor after commands and scavenges.
pub fn laws_of_own_cells()
    ensures used { RunsHaveNoUsedWord }
    ensures open { OpensWithNoOwnCell }
    ensures changes { ChangesAvoidOwnCells }
    ensures scavenges { ScavengesAvoidOwnCells }
{}
