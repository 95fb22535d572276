//! Laws of free runs: what the longest run tells, and what a take leaves.
ghost use Rattle.free_runs.specs.Laws.{LongestTells, TakesMakeNoneLonger, TakesKeepWords, TakenAreApart};

/// The longest run has fewer than n words exactly where n words fit nowhere. A take makes no run
/// longer, and the words of all runs after it, with those taken, are those before, each once.
pub fn laws_of_runs()
    ensures fits { LongestTells }
    ensures shorter { TakesMakeNoneLonger }
    ensures words { TakesKeepWords }
    ensures apart { TakenAreApart }
{}
