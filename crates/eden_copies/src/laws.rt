//! What several workers come to together.
ghost use Rattle.eden_copies.specs.Together.{WorkersCopyOnce};
ghost use Rattle.eden_copies.specs.PutBack.{WorkersAreCopying};

/// Workers among which the slots outside eden were dealt out have copied each cell of eden once to which a way leads,
/// and no other; their slots refer to the copies that count. Where the main side has put rooms and headers back, a
/// scavenge may go on from there.
pub fn laws_of_workers()
    ensures once { WorkersCopyOnce }
    ensures copying { WorkersAreCopying }
{}
