//! What holds at each moment of a list of events.
ghost use Rattle.mark_laws.specs.Runs.{LayoutsAreOne, WholeAlong};

/// A sound world stays sound along each list of events that were possible, and each snap is read under
/// one layout.
pub fn laws_of_runs()
    ensures whole { WholeAlong }
    ensures layouts { LayoutsAreOne }
{}
