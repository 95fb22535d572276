//! What holds at the end of a cycle.
ghost use Rattle.mark_laws.specs.Ends.{ReachedIsBlack};

/// Where nothing waits and the mutator's part is done, each old cell that is reached is black.
pub fn laws_of_ends()
    ensures { ReachedIsBlack }
{}
