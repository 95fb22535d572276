//! Marking reaches only cells that are born.
ghost use Rattle.mark_laws.specs.Births.{BornStays};

/// No possible event lets marking reach a cell that is not born.
pub fn laws_of_births()
    ensures { BornStays }
{}
