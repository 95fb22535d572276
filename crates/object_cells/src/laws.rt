//! What a change of an object's cells makes of the graph that a heap shows.
ghost use Rattle.object_cells.specs.Refills.{RefillsShow, WrittenFieldsAreNew};
ghost use Rattle.object_cells.specs.Refills.{RestOfFieldsAreNew};
ghost use Rattle.object_cells.specs.CellWrites.{WritesKeepCells};
ghost use Rattle.object_cells.specs.Capacities.{CapacitiesStay, CapacitiesGrow};
ghost use Rattle.object_cells.specs.SlotChanges.{SlotsRefill, WrittenFieldsShow};
ghost use Rattle.object_cells.specs.ElementChanges.{WrittenElementsShow};
ghost use Rattle.object_cells.specs.ElementChanges.{PushedElementsAreNew, PutElementsAreNew};

/// A heap that showed a graph shows it with other fields in one plain object, where their path was
/// added, the object's own cells alone changed, its cell shows them, and an open cycle is kept. Such
/// fields are those of an object that can be reached with one written, for which there is room, or
/// with one taken out.
pub fn laws_of_refills()
    ensures show { RefillsShow }
    ensures written { WrittenFieldsAreNew }
    ensures rest { RestOfFieldsAreNew }
{}

/// Where an object has the header that it had, or a plain one that of a shape with the same cap, and
/// else only words of its cell, of some stores or tables and boxes, of the run in which cells were
/// made and layout words of new shapes have changed, cells stand in rows again: the object's, or what
/// it became, the stores, tables and boxes as they were, those that were made, and all others as
/// before.
pub fn laws_of_writes()
    ensures cells { WritesKeepCells }
{}

/// Where words were so written, of cells that belong to the object, and stores or tables and boxes
/// made, only words of the object have changed, and those of the run in which these were made. It
/// keeps the capacity of its store or table where the word that refers to it stays, and has that of
/// one that was made where it refers to this one. Each other object keeps its capacity; each stands
/// where it stood, and none is made. Where each store or table that was written or made is the one to
/// which the object refers, no other cell with slots stands there that did not stand before.
pub fn laws_of_capacities()
    ensures stay { CapacitiesStay }
    ensures grow { CapacitiesGrow }
{}

/// Where words of a plain object's own cells were so written that its slots show other fields, and
/// each names nothing, what one slot named before, or what was made, the change of cells is the
/// object's own, and its cell shows the fields. So a heap that showed a graph shows it with these
/// fields in the object, where their path was added and the object's cells are kept in an open cycle.
pub fn laws_of_slots()
    ensures refill { SlotsRefill }
    ensures show { WrittenFieldsShow }
{}

/// Where words of a list's own cells were so written that its slots show other elements, and each
/// names nothing, what one slot named before, or what was made, and its cells are kept in an open
/// cycle, a heap that showed a graph shows it with these elements in the list. Elements that a list
/// may have are those of one that can be reached with one pushed, for which there is room, or with
/// one put in the place of another.
pub fn laws_of_elements()
    ensures show { WrittenElementsShow }
    ensures pushed { PushedElementsAreNew }
    ensures put { PutElementsAreNew }
{}
