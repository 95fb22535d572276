//! How a number is taken out of a table.
ghost use Rattle.linear_probing.specs.ShiftLaws.{ShiftBegins, ShiftPasses, ShiftMoves};
ghost use Rattle.linear_probing.specs.ShiftLaws.{ShiftEnds, MovesStayBelow};

/// A number that is taken out leaves a hole. Going up and round from it, each number that probing
/// finds without passing the hole stays, and each other moves there and leaves a hole itself. Where
/// the next place is free, or none is left, all are found once the hole is free.
pub fn laws_of_backward_shift()
    ensures begins { ShiftBegins }
    ensures passes { ShiftPasses }
    ensures moves { ShiftMoves }
    ensures ends { ShiftEnds }
    ensures below { MovesStayBelow }
{}
