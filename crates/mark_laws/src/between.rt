//! What holds between the steps of a command, and what only grows.
ghost use Rattle.mark_laws.specs.Changes.{ApartIsSpared, ChangesKeep, ChangesSettle, StoredIsSure, WordsAreStored};
ghost use Rattle.mark_laws.specs.LayoutChanges.{LayoutChangesSettle};
ghost use Rattle.mark_laws.specs.Growing.{ListsGrow, ListsGrowAlong, MomentsGrow};
ghost use Rattle.mark_laws.specs.Growing.{LendCounts, ReturnCounts, OthersKeepCount, NoneIsZero};
ghost use Rattle.mark_laws.specs.Settling.{AllDoneLeave, DoneLeaves, MoreMayBeMade, NoneMadeIsSettled};
ghost use Rattle.mark_laws.specs.Settling.{NoneOwedIsSettled};
ghost use Rattle.mark_laws.specs.Settling.{PaidLeaves, SettlingAlong, SettlingStays, SettledStays, ShadesSettle};
ghost use Rattle.mark_laws.specs.Settling.{StepsSettle};

/// What is published, born, made black by the mutator or sure to it stays so, and how many seats are
/// out.
pub fn laws_of_growing()
    ensures grow { ListsGrow }
    ensures along { ListsGrowAlong }
    ensures moments { MomentsGrow }
    ensures lend { LendCounts }
    ensures take_back { ReturnCounts }
    ensures others { OthersKeepCount }
    ensures none { NoneIsZero }
{}

/// The mutator's part is done but for the cells that it is making or changing, from step to step.
pub fn laws_of_settling()
    ensures none_made { NoneMadeIsSettled }
    ensures none_owed { NoneOwedIsSettled }
    ensures more { MoreMayBeMade }
    ensures done { DoneLeaves }
    ensures all_done { AllDoneLeave }
    ensures paid { PaidLeaves }
    ensures under_way { SettlingStays }
    ensures stays { SettledStays }
    ensures shades { ShadesSettle }
    ensures settle { StepsSettle }
    ensures along { SettlingAlong }
{}

/// Changes of cells among a list of events, whatever helpers do in between: what they store, and that
/// the mutator's part is done behind them, for each change of a layout too.
pub fn laws_of_changes()
    ensures words { WordsAreStored }
    ensures spared { ApartIsSpared }
    ensures keep { ChangesKeep }
    ensures settle { ChangesSettle }
    ensures layouts { LayoutChangesSettle }
    ensures stored { StoredIsSure }
{}
