//! The most of what a script may have: limits that hold of every graph.
ghost use Rattle.std.specs.Prelude.{◌≡◌};
ghost use Rattle.object_graph.specs.Meaning.{list_most, weak_most};
ghost use Rattle.object_graph.specs.Invariants.{fields_most};
ghost use Rattle.object_graph.specs.Limits.{paths_most};
ghost use Rattle.object_graph.specs.Prototypes.{prototypes_most};

/// The most fields of an object.
pub const FIELDS_MOST: u32 = 64;

/// The most field paths.
pub const PATHS_MOST: u32 = 8_192;

/// The most elements of a list.
pub const ELEMENTS_MOST: u32 = 1_000;

/// The most entries of a weak map whose keys can be reached.
pub const ENTRIES_MOST: u32 = 256;

/// The most prototypes in which a field is looked for.
pub const PROTOTYPES_MOST: u32 = 64;

/// The numbers are those of the definitions.
pub fn limits_are_those_of_graphs()
    ensures fields { FIELDS_MOST ≡ fields_most }
    ensures paths { PATHS_MOST ≡ paths_most }
    ensures elements { ELEMENTS_MOST ≡ list_most }
    ensures entries { ENTRIES_MOST ≡ weak_most }
    ensures prototypes { PROTOTYPES_MOST ≡ prototypes_most }
{}
