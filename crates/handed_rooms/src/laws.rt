//! What the words are once all workers were taken in.
ghost use Rattle.handed_rooms.specs.Laws.{TakenInAreCopying, TakenInEndWith0};

/// Where each worker copied what it was dealt, and all were taken in, one behind another, a scavenge may go on from the
/// words. Behind the copies of each segment a 0 stands, where it goes on.
pub fn laws_of_rooms()
    ensures copying { TakenInAreCopying }
    ensures ends { TakenInEndWith0 }
{}
