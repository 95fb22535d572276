//! What stays through every event, and what only rises.
ghost use Rattle.mark_laws.specs.Cells.{StoresKeepCells, FreeStartsKeepCells, HeadersKeepSizes, NoStartTurnsFree};
ghost use Rattle.mark_laws.specs.Steadiness.{ColoursRise, SizesStay, CellsHold, ListsStay, GreysWait};

/// What every event leaves, and where it goes one way.
pub fn laws_of_steadiness()
    ensures rise { ColoursRise }
    ensures sizes { SizesStay }
    ensures cells { CellsHold }
    ensures lists { ListsStay }
    ensures grey { GreysWait }
{}

/// Cells stay what they are when words of them change.
pub fn laws_of_cells()
    ensures store { StoresKeepCells }
    ensures stay { FreeStartsKeepCells }
    ensures headers { HeadersKeepSizes }
    ensures free { NoStartTurnsFree }
{}
