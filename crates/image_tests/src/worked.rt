//! Heaps that are written out by hand, as words and addresses.
use crate::images::{Stretch, Worked};
use page_space::Sizes;
use shape_tree::Rep;

/// The usual sizes: eden begins at 131,072.
const USUAL_SIZES: Sizes = Sizes {
    pages: 64,
    young: 8_192,
    helpers: 2,
};

/// The smallest sizes: eden begins at 2,048, the segments at 2,112 and 2,176, the roots at 2,240.
const SMALL_SIZES: Sizes = Sizes {
    pages: 1,
    young: 64,
    helpers: 0,
};

/// The usual heap after `new x 2` and `set x a 1`: eden from 131,072 on, the roots at 188,416.
pub(crate) const USUAL: Worked = Worked {
    sizes: USUAL_SIZES,
    variables: 1,
    words: 196_618,
    layouts: 188_418,
    used: 5,
    survivors: 0,
    steps: &[(10, 0, Rep::Small)],
    stretches: &[
        (131_072, &[70, 3, 3, 2, 7]),
        (188_416, &[524_289, 0]),
        (188_435, &[289]),
    ],
};

/// The smallest heap with one variable and one survivor, a box in the segment of half 1. Eden has a
/// list with a store for 4, 2 of them used, and beside it a second cell with the same number.
pub(crate) const SMALL: Worked = Worked {
    sizes: SMALL_SIZES,
    variables: 1,
    words: 10_442,
    layouts: 2_242,
    used: 12,
    survivors: 2,
    steps: &[(10, 0, Rep::Small)],
    stretches: &[
        (2_048, &[6, 8_205, 2, 14, 4, 2, 4, 7, 7, 6, 3, 0]),
        (2_176, &[22, 5]),
        (2_240, &[8_193, 0]),
        (2_259, &[289]),
    ],
};

/// A heap with no object, and a box that survived at 2,176, to which a word refers as 8,705. The
/// paths have one field each: small in 2 slots (17), wide in none (18), and wide in 1 slot (19).
const BOXED: Worked = Worked {
    sizes: SMALL_SIZES,
    variables: 1,
    words: 10_442,
    layouts: 2_242,
    used: 0,
    survivors: 2,
    steps: &[(10, 0, Rep::Small), (8, 0, Rep::Wide), (9, 0, Rep::Wide)],
    stretches: &[],
};

/// The words of the layouts 17 to 19 of `BOXED`, and of its root, which refers to 2,048.
const BOXED_LAYOUTS: Stretch = (2_259, &[289, 1, 4_369]);

const ROOT: Stretch = (2_240, &[8_193, 0]);

/// A box with 5.
const BOX_5: Stretch = (2_176, &[22, 5]);

/// An object without slots, and its wide field beside it, in the box.
pub(crate) const BESIDE: Worked = Worked {
    used: 6,
    stretches: &[
        (2_048, &[74, 8_205, 3, 14, 1, 8_705]),
        BOX_5,
        ROOT,
        BOXED_LAYOUTS,
    ],
    ..BOXED
};

/// An object with a raw word in its one slot.
pub(crate) const RAW: Worked = Worked {
    used: 4,
    stretches: &[
        (2_048, &[78, 3, 3, 9_223_372_036_854_775_809]),
        BOX_5,
        ROOT,
        BOXED_LAYOUTS,
    ],
    ..BOXED
};

/// A list with a store for 4, which has the box and 2, at 2,051; a list of no store at 2,057; and a
/// store that nothing names at 2,060.
pub(crate) const LISTS: Worked = Worked {
    used: 15,
    stretches: &[
        (2_048, &[6, 8_205, 2, 14, 4, 8_705, 4, 7, 7]),
        (2_057, &[4_294_967_302, 3, 0, 14, 1, 8]),
        (2_176, &[22, 2_147_483_648]),
        ROOT,
        BOXED_LAYOUTS,
    ],
    ..BOXED
};

/// A weak map with a table of 2 pairs, the second of which, at 2,055, has the list of number 3 at
/// 2,057 as its key.
pub(crate) const ENTRY: Worked = Worked {
    used: 12,
    stretches: &[
        (2_048, &[10, 8_205, 1, 18, 2, 7, 7, 8_229, 10]),
        (2_057, &[12_884_901_894, 3, 0]),
        BOX_5,
        ROOT,
        BOXED_LAYOUTS,
    ],
    ..BOXED
};

/// A weak map with a table of 4 pairs: the lists of numbers 3 and 7, at 2,061 and 2,064, have one
/// home, the last place.
pub(crate) const PROBED: Worked = Worked {
    used: 19,
    stretches: &[
        (
            2_048,
            &[10, 8_205, 2, 18, 4, 8_257, 10, 7, 7, 7, 7, 8_245, 12],
        ),
        (2_061, &[12_884_901_894, 3, 0, 30_064_771_078, 3, 0]),
        BOX_5,
        ROOT,
        BOXED_LAYOUTS,
    ],
    ..BOXED
};

/// A weak map with a free table of 4 pairs, the number of which is at 2,052.
pub(crate) const FREE: Worked = Worked {
    used: 13,
    stretches: &[
        (2_048, &[10, 8_205, 0, 18, 4, 7, 7, 7, 7, 7, 7, 7, 7]),
        BOX_5,
        ROOT,
        BOXED_LAYOUTS,
    ],
    ..BOXED
};

/// A heap in which each store, weak table and box has one owner. The paths are those of one tagged
/// field and of two in 2 slots, 17 and 18. In eden:
///
/// | At | What stands there |
/// |---|---|
/// | 2,048 | a plain object, number 0, with the boxes at 2,070 and 2,072 in its two fields |
/// | 2,053 | a plain object, number 1, with the box at 2,074 in its first field |
/// | 2,058 | a list, number 2, with the store at 2,078 |
/// | 2,061 | an empty list, number 3 |
/// | 2,064 | a weak map, number 4, with the table at 2,082 |
/// | 2,067 | an empty weak map, number 5 |
/// | 2,070 to 2,077 | four boxes |
/// | 2,078 | a store for 2, with the box at 2,076 and 1 |
/// | 2,082 | a weak table for 2, with number 0 as a key and the box at 2,088 as its value |
/// | 2,088 | a box |
///
/// The root refers to number 0, and the other objects are dead.
pub(crate) const APART: Worked = Worked {
    sizes: SMALL_SIZES,
    variables: 1,
    words: 10_442,
    layouts: 2_242,
    used: 42,
    survivors: 0,
    steps: &[(10, 0, Rep::Tagged), (17, 1, Rep::Tagged)],
    stretches: &[
        (2_048, &[74, 3, 3, 8_281, 8_289]),
        (2_053, &[4_294_967_370, 3, 3, 8_297, 2]),
        (2_058, &[8_589_934_598, 8_313, 2]),
        (2_061, &[12_884_901_894, 3, 0]),
        (2_064, &[17_179_869_194, 8_329, 1]),
        (2_067, &[21_474_836_490, 3, 0]),
        (2_070, &[22, 1_073_741_824, 22, 1_073_741_824]),
        (2_074, &[22, 1_073_741_824, 22, 1_073_741_824]),
        (2_078, &[14, 2, 8_305, 2]),
        (2_082, &[18, 2, 8_193, 8_353, 7, 7]),
        (2_088, &[22, 1_073_741_824]),
        ROOT,
        (2_259, &[289, 545]),
    ],
};

/// The heap after the script of `shown_graphs`: the roots at 2,240, the layout words at 2,248. The
/// path has one small field in 1 slot. In eden:
///
/// | At | What stands there |
/// |---|---|
/// | 2,048 | the list, number 0, with the store at 2,061 |
/// | 2,051 | the weak map, number 1, with the table at 2,067 |
/// | 2,054 | the plain object, number 2, with 7 in its slot |
/// | 2,058 | the dead object, number 3, without slots |
/// | 2,061 | a store for 4, with 1, the box, number 2 and a hole from 2,063 on |
/// | 2,067 | a weak table for 2: from 2,069 on number 2 and 9, number 3 and number 0 |
/// | 2,073 | the box |
pub(crate) const MIXED: Worked = Worked {
    sizes: SMALL_SIZES,
    variables: 4,
    words: 10_448,
    layouts: 2_248,
    used: 27,
    survivors: 0,
    steps: &[(9, 0, Rep::Small)],
    stretches: &[
        (2_048, &[6, 8_245, 3]),
        (2_051, &[4_294_967_306, 8_269, 2]),
        (2_054, &[8_589_934_662, 3, 3, 14]),
        (2_058, &[12_884_901_922, 3, 3]),
        (2_061, &[14, 4, 2, 8_293, 8_217, 7]),
        (2_067, &[18, 2, 8_217, 18, 8_233, 8_193]),
        (2_073, &[22, 5_000_000_000]),
        (2_240, &[8_193, 0, 8_205, 0, 8_217, 0, 11, 0]),
        (2_265, &[273]),
    ],
};

/// A heap with old cells in its one page, and two young ones. In the page:
///
/// | At | What stands there |
/// |---|---|
/// | 0 | the list, number 0, with the store at 3 |
/// | 3 | a store for 3, with number 3, which is young, 1 and a hole from 5 on |
/// | 8 | a filler, which is one free word |
/// | 9 | an empty list, number 1 |
/// | 12 | a gap of 4 words |
/// | 16 | a list, number 2, with the store at 2,051, which is young |
/// | 19 | a gap of 2,029 words |
///
/// In eden:
///
/// | At | What stands there |
/// |---|---|
/// | 2,048 | an empty list, number 3 |
/// | 2,051 | a store for 1, with number 1, which is old |
///
/// The root refers to number 0.
pub(crate) const OLD: Worked = Worked {
    sizes: SMALL_SIZES,
    variables: 1,
    words: 10_442,
    layouts: 2_242,
    used: 6,
    survivors: 0,
    steps: &[],
    stretches: &[
        (0, &[6, 13, 2, 14, 3, 8_193, 2, 7]),
        (8, &[26, 4_294_967_302, 3, 0]),
        (12, &[30, 4, 0, 0]),
        (16, &[8_589_934_598, 8_205, 1, 30, 2_029]),
        (2_048, &[12_884_901_894, 3, 0]),
        (2_051, &[14, 1, 37]),
        (2_240, &[1, 0]),
    ],
};

/// A weak map that outgrew its first table, which nothing names any more. In the one page:
///
/// | At | What stands there |
/// |---|---|
/// | 0 | the weak map, number 0, with the table at 9 |
/// | 3 | the outgrown table of 2 pairs: from 5 on number 4 and 5, number 5 and 6 |
/// | 9 | a table of 4 pairs: from 11 on the same, and two free pairs |
/// | 19 | an empty list, number 4 |
/// | 22 | an empty list, number 5 |
/// | 25 | a gap of 2,023 words |
///
/// The root refers to number 0.
pub(crate) const OUTGROWN: Worked = Worked {
    used: 0,
    stretches: &[
        (0, &[10, 37, 2, 18, 2, 77, 10, 89, 12]),
        (9, &[18, 4, 77, 10, 89, 12, 7, 7, 7, 7]),
        (19, &[17_179_869_190, 3, 0, 21_474_836_486, 3, 0, 30, 2_023]),
        (2_240, &[1, 0]),
    ],
    ..OLD
};
