//! What is known of eden in a heap that shows a graph, and of what workers hand over.
ghost use Rattle.lent_eden.specs.Lent.{BegunMayBeLent, ShownHeapsMayBeLent};
ghost use Rattle.lent_eden.specs.SeatsBack.{TakenBackHaveCopied};
ghost use Rattle.lent_eden.specs.Handed.{HandedAreFew, WorkersMayBeTakenIn, WorkersHandOver};

/// The words of a heap that shows a graph may be lent to workers: where a way of references leads into eden, from
/// variables or recorded slots, a cell stands, and no two of these cells share a word.
pub fn laws_of_lending()
    ensures begun { BegunMayBeLent }
    ensures shown { ShownHeapsMayBeLent }
{}

/// Workers whose seats were taken back in one round have copied all together. Where they have run on such a heap, each
/// in the segment of its number, they may be taken in; and where all were, the main side may go on from what they hand
/// over.
pub fn laws_of_handing()
    ensures back { TakenBackHaveCopied }
    ensures may { WorkersMayBeTakenIn }
    ensures handed { WorkersHandOver }
    ensures few { HandedAreFew }
{}
