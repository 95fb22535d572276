//! Numbers of the cells of objects, and of what stands beside them.
ghost use Rattle.std.specs.Prelude.{◌≡◌};
ghost use Rattle.heap_model.specs.Kinds.{count_offset};
ghost use Rattle.heap_model.specs.Needs.{box_words, first_capacity, pairs_most};

/// The offset of the length of a list, and of the count of a weak map.
pub const COUNT: u32 = 2;

/// The words of a box.
pub const BOX_WORDS: u32 = 2;

/// How many slots the first store of an object has, and how many pairs the first table.
pub const FIRST_CAPACITY: u32 = 4;

/// The most pairs of a weak table.
pub const PAIRS_MOST: u32 = 512;

/// The numbers are those of the definitions.
pub fn numbers_are_those_of_heaps()
    ensures count { COUNT ≡ count_offset }
    ensures boxes { BOX_WORDS ≡ box_words }
    ensures first { FIRST_CAPACITY ≡ first_capacity }
    ensures pairs { PAIRS_MOST ≡ pairs_most }
{}
