//! Laws of what a run comes to.
ghost use Rattle.heap_run.specs.AnswerLaws.{KeptIsOfScript, KeptWasRead, KeptGoesWithStatus, FullHasNoRoom};

/// A heap that is kept is of the script that the words ask to be run, and shows the graph after the executed lines.
/// What the source had was read to its end then, if the words ask for its run. A heap is kept at some statuses, and at
/// others none is. One that is full for the words of a command has no room for them in any part.
pub fn laws_of_answers()
    ensures kept { KeptIsOfScript }
    ensures whole { KeptWasRead }
    ensures opened { KeptGoesWithStatus }
    ensures full { FullHasNoRoom }
{}
