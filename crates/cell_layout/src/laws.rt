//! Laws of cells and of rows of cells.
ghost use Rattle.cell_layout.specs.CellLaws.{OneCell, CellsHaveWords, SlotsLieWithin};
ghost use Rattle.cell_layout.specs.CellLaws.{ScavengesVisitTagged, CellsStay, PutsReadAlike};
ghost use Rattle.cell_layout.specs.CellLaws.{CellsAreApart};
ghost use Rattle.cell_layout.specs.RowLaws.{OneRow, RowsAreFull, RowsJoin, RowsPart};
ghost use Rattle.cell_layout.specs.RowLaws.{RowsPartAround, RowsStay, StretchesChange};
ghost use Rattle.cell_layout.specs.RowLaws.{RowsStayAtPuts, SlotsChange};

/// At an address there is one cell at most. It has 1 to 2,048 words, none of them a layout word,
/// and each of its slots lies in it, behind its header and its length. It stays where its header,
/// its length and the layout word of its shape stay, as where another word is put.
pub fn laws_of_cells()
    ensures one { OneCell }
    ensures words { CellsHaveWords }
    ensures within { SlotsLieWithin }
    ensures visited { ScavengesVisitTagged }
    ensures stay { CellsStay }
    ensures puts { PutsReadAlike }
    ensures apart { CellsAreApart }
{}

/// From an address to another there is one row of cells at most, and their words fill it. Rows
/// join, and part between cells and around each. A row stays where what its cells are read by
/// stays, as where a word is put outside it or in a slot, and a stretch of it may change to
/// another row.
pub fn laws_of_rows()
    ensures one { OneRow }
    ensures full { RowsAreFull }
    ensures join { RowsJoin }
    ensures part { RowsPart }
    ensures part_around { RowsPartAround }
    ensures stay { RowsStay }
    ensures stretches_change { StretchesChange }
    ensures puts { RowsStayAtPuts }
    ensures slots_change { SlotsChange }
{}
