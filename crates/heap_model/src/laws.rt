//! Laws of whole heaps: what a change leaves whole, and what it leaves shown.
ghost use Rattle.heap_model.specs.Laws.{OwnChangesKeepWhole, OwnChangesShow, MadeCellsAreOwn};
ghost use Rattle.heap_model.specs.Laws.{BindingsShow, NewBindingsShow, NewObjectsShow};
ghost use Rattle.heap_model.specs.Laws.{NewObjectsAreNoKeys};
ghost use Rattle.heap_model.specs.Rooms.{ShownObjectsHaveRooms};
ghost use Rattle.heap_model.specs.Collectable.{OwnChangesStayCollectable, OwnChangesKeepFree, OwnChangesKeepFillers};
ghost use Rattle.heap_model.specs.Remembered.{ChangesStayRemembered};
ghost use Rattle.heap_model.specs.Laws.{ChangesKeepCells, RewritesArePatches, RewritesKeepCells, SlotWritesKeepCells};

/// A heap whose objects change inside their own cells is whole again, and shows the graph in which
/// these objects are what their cells show; no cell comes to the half that is empty, and free runs
/// and fillers stay of which no cell is made. A cell that was made and refers to nothing is such a change. Where each
/// touch of a word of a page was recorded, the list of the slots of pages that refer to young cells
/// stays right.
pub fn laws_of_changes()
    ensures whole { OwnChangesKeepWhole }
    ensures show { OwnChangesShow }
    ensures made { MadeCellsAreOwn }
    ensures collectable { OwnChangesStayCollectable }
    ensures free { OwnChangesKeepFree }
    ensures fillers { OwnChangesKeepFillers }
    ensures remembered { ChangesStayRemembered }
{}

/// A heap in which the root words of a variable become those of a value shows the graph in which
/// the variable is bound to that: where nothing more can be reached than before, or one object that
/// is the key of nothing. So it is of an object that is made and bound in one command, and what was
/// just made is no key of what was there.
pub fn laws_of_bindings()
    ensures show { BindingsShow }
    ensures show_new { NewBindingsShow }
    ensures made { NewObjectsShow }
    ensures no_keys { NewObjectsAreNoKeys }
{}

/// Where only patches of a heap change, and words in which cells are made, cells stand in rows again, and all but
/// those of the patches are as before. Cells that are rewritten in place are such patches, and so
/// are cells of which only slots are written.
pub fn laws_of_words()
    ensures cells { ChangesKeepCells }
    ensures rewrites { RewritesArePatches }
    ensures rewritten { RewritesKeepCells }
    ensures slots { SlotWritesKeepCells }
{}

/// The objects of a graph that a heap shows have rooms there.
pub fn law_of_rooms()
    ensures { ShownObjectsHaveRooms }
{}
