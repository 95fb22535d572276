//! Laws of what words ask for.
ghost use Rattle.command_line.specs.SizeLaws.{AskedSizesAreWithin, SoakedSizesAreWithin};
ghost use Rattle.command_line.specs.SizeLaws.{AskedFormsAreFew, SoakedFormsAreFew};

/// Where words ask for the run of a script, checked or not, or for that of a generated one, the sizes are
/// within their limits. Where they ask for a generated script or its run, it has no more forms than it
/// may have.
pub fn laws_of_sizes()
    ensures sizes { AskedSizesAreWithin }
    ensures soaked_sizes { SoakedSizesAreWithin }
    ensures forms { AskedFormsAreFew }
    ensures soaked_forms { SoakedFormsAreFew }
{}
