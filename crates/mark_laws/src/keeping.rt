//! What is covered stays covered, and so do the tagged slots of black cells, and what the mutator is sure of.
ghost use Rattle.mark_laws.specs.Keeping.{CoveredStays, SureStays, BlackStays};

/// No possible event uncovers a cell, a tagged slot of a black cell, or what the mutator is sure of.
pub fn laws_of_covering()
    ensures covered { CoveredStays }
    ensures sure { SureStays }
    ensures black { BlackStays }
{}
