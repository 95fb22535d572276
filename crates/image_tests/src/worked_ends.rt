//! Heaps that are written out by hand, with cells at the first and the last places of their regions.
use crate::images::Worked;
use page_space::Sizes;
use shape_tree::Rep;

/// A heap of no variable, and of no cell but the gap in its one page. Eden begins at 2,048, the
/// segments at 2,112 and 2,176, the layout words at 2,240.
pub(crate) const BARE: Worked = Worked {
    sizes: Sizes {
        pages: 1,
        young: 64,
        helpers: 0,
    },
    variables: 0,
    words: 10_440,
    layouts: 2_240,
    used: 0,
    survivors: 0,
    steps: &[],
    stretches: &[],
};

/// A list with as many elements as a list may have, which are 0, and a slot more in its store, from
/// 5 to 1,005.
pub(crate) const LONG: Worked = Worked {
    stretches: &[(0, &[6, 13, 1_000, 14, 1_001]), (1_005, &[7, 30, 1_042])],
    ..BARE
};

/// A heap with three pages, a helper and three variables. Eden begins at 6,144, the segments at 6,208,
/// 6,272, 6,336 and 6,400, the roots at 6,464, the layout words at 6,470; the marks would begin at
/// 14,670. The shapes 17 to 21 are those of objects of 2 slots, with 1 to 5 of a small field, a tagged
/// one, a tagged one, a wide one and a small one; shape 22 has a wide field in its one slot.
///
/// | At | What stands there |
/// |---|---|
/// | 0 | a plain object, number 0, shape 21, with 1 and the box at 2,046 in its slots, the store at 5 |
/// | 5 | a store for 5, with number 1, the box at 6,142, 2 and two holes |
/// | 12 | a gap of 2,034 words |
/// | 2,046 | a box |
/// | 2,048 | a gap, the whole page |
/// | 4,096 | a list, number 1, with 2 elements and the store at 4,099 |
/// | 4,099 | a store for 3, with number 5, 2 and a hole |
/// | 4,104 | a gap of 2,038 words |
/// | 6,142 | a box |
/// | 6,144 | a weak map, number 2, with 2 entries and the table at 6,147 |
/// | 6,147 | a weak table for 4: number 0 and 9, nothing, nothing, number 3 and the box at 6,208 |
/// | 6,157 | a plain object, number 3, without slots |
/// | 6,160 | a plain object, number 4, shape 22, whose raw word reads as a reference to 6,208 |
/// | 6,164 | a filler |
/// | 6,208 | a box |
/// | 6,400 | a weak map, number 5, with 1 entry and the table at 6,403 |
/// | 6,403 | a weak table for 1: number 1 and `undefined` |
/// | 6,407 | a list, number 6, with 1 element and the store at 6,410 |
/// | 6,410 | a store for 2, with the box at 6,414 and a hole |
/// | 6,414 | a box |
///
/// The variables hold number 0, 2 to the power of 40, and number 6.
pub(crate) const SPREAD: Worked = Worked {
    sizes: Sizes {
        pages: 3,
        young: 64,
        helpers: 1,
    },
    variables: 3,
    words: 14_670,
    layouts: 6_470,
    used: 21,
    survivors: 18,
    steps: &[
        (10, 0, Rep::Small),
        (17, 1, Rep::Tagged),
        (18, 2, Rep::Tagged),
        (19, 3, Rep::Wide),
        (20, 4, Rep::Small),
        (9, 0, Rep::Wide),
    ],
    stretches: &[
        (0, &[86, 21, 3, 2, 8_185]),
        (5, &[14, 5, 16_385, 24_569, 4, 7, 7, 30, 2_034]),
        (2_046, &[22, 1_073_741_824]),
        (4_096, &[4_294_967_302, 16_397, 2]),
        (4_099, &[14, 3, 25_601, 4, 7, 30, 2_038]),
        (6_142, &[22, 1_073_741_824]),
        (6_144, &[8_589_934_602, 24_589, 2]),
        (6_147, &[18, 4, 1, 18, 7, 7, 7, 7, 24_629, 24_833]),
        (6_157, &[12_884_901_922, 3, 3]),
        (6_160, &[17_179_869_274, 3, 3, 24_833, 26]),
        (6_208, &[22, 1_073_741_824]),
        (6_400, &[21_474_836_490, 25_613, 1]),
        (6_403, &[18, 1, 16_385, 3]),
        (6_407, &[25_769_803_782, 25_641, 1]),
        (6_410, &[14, 2, 25_657, 7, 22, 1_073_741_824]),
        (6_464, &[1, 0, 15, 1 << 40, 25_629, 0]),
        (6_487, &[289, 545, 545, 545, 545, 4_369]),
    ],
};
