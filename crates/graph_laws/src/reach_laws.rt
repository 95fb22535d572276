//! Laws of reach: what a program can get to from its variables, and nothing more.
ghost use Rattle.graph_laws.specs.ReachLaws.{ReachHasBound, ReachIsClosed, ReachIsLeast};
ghost use Rattle.graph_laws.specs.ReachAfter.{OnlyMadeIsNew, MadeIsReached, MadeIsUnshared};
ghost use Rattle.graph_laws.specs.ReachAfter.{LostStaysLost};

/// An object that a variable is bound to is reached. What a reached object links to is reached: by
/// its prototype, by a field, by an element, or by the value of an entry whose key is reached.
/// Nothing else is reached: any set of objects that has what variables are bound to, and what its
/// objects link to, has each reached object.
pub fn laws_of_reach()
    ensures has_bound { ReachHasBound }
    ensures is_closed { ReachIsClosed }
    ensures is_least { ReachIsLeast }
{}

/// After a command nothing can be reached that could not be reached before, but the object that the
/// command made. That object is reached, as the command's variable is bound to it, and nothing else
/// refers to it: no other variable, and no prototype, field, element, key or value of an object. So
/// an object that is there and cannot be reached is never reached again, whatever lines come.
///
/// That holds of graphs that scripts make, and for whole runs under the conditions of
/// `laws_of_graphs`.
pub fn laws_of_commands_and_reach()
    ensures only_made_is_new { OnlyMadeIsNew }
    ensures made_is_reached { MadeIsReached }
    ensures made_is_unshared { MadeIsUnshared }
    ensures lost_stays_lost { LostStaysLost }
{}
