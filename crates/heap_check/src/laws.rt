//! The law of first flaws.
ghost use Rattle.heap_check.specs.FirstFlaws.{WholeHasNoFlaw};

/// No whole heap, with 0 in each word that no cell uses, has a first flaw: so a check answers with counts exactly where
/// the heap is whole.
pub fn laws_of_flaws()
    ensures { WholeHasNoFlaw }
{}
