//! Laws of moved heaps: they are whole, show what was shown, and keep the room of each object.
ghost use Rattle.heap_moves.specs.Laws.{MovesKeepWhole, MovesShow, ReachedStay, MovesKeepRoom};
ghost use Rattle.heap_moves.specs.Laws.{MovesKeepRooms, HeapsAreMoved};

/// A moved heap is whole, and shows the graph that was shown. Each object that can be reached
/// stays, and each that stays has a store of as many slots, or a table of as many pairs. A heap in
/// which each cell stays where it is is itself such a heap.
pub fn laws_of_moves()
    ensures whole { MovesKeepWhole }
    ensures show { MovesShow }
    ensures reached { ReachedStay }
    ensures room { MovesKeepRoom }
    ensures rooms { MovesKeepRooms }
    ensures itself { HeapsAreMoved }
{}
