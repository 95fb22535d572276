//! Images in which a store, a table or a box is named twice, or a table by nothing, or with flaws of several parts or
//! cells: the first one.
use crate::first_flaws::Group;
use crate::images::Change::{Survivors, Used, Word, Words};
use crate::worked::{APART, OUTGROWN, USUAL};
use crate::worked_ends::SPREAD;

/// Stores, tables and boxes that two slots name, and a table that none does.
pub(crate) const OWNERS: [Group; 3] = [
    (
        &APART,
        &[
            (&[], "objects 6 entries 1"),
            (&[Word(2_052, 8_281)], "2052 8281 3"),
            (&[Word(2_056, 8_281)], "2056 8281 3"),
            (&[Word(2_080, 8_281)], "2080 8281 3"),
            // The field of a lower address names the box first.
            (&[Word(2_057, 8_353)], "2085 8353 3"),
            (&[Word(2_085, 8_305)], "2085 8305 3"),
            (&[Word(2_062, 8_313), Word(2_063, 2)], "2062 8313 3"),
            (&[Word(2_068, 8_329), Word(2_069, 1)], "2068 8329 3"),
        ],
    ),
    (
        &SPREAD,
        &[
            (&[], "objects 7 entries 3"),
            // The last slot names what the first object does, and the first store what the last object does: a check
            // that takes a second name for a first tells the slot of the lower address.
            (&[Word(6_412, 8_185)], "6412 8185 3"),
            (&[Word(7, 25_657)], "6412 25657 3"),
            (&[Word(7, 8_185), Word(6_412, 8_185)], "7 8185 3"),
            (&[Word(4_102, 24_569), Word(6_412, 8_185)], "4102 24569 3"),
            (&[Word(6_406, 24_833)], "6406 24833 3"),
            // A list and another, a list and a plain object, two weak maps.
            (&[Word(6_408, 16_397), Word(6_409, 2)], "6408 16397 3"),
            (&[Word(6_408, 21), Word(6_409, 3)], "6408 21 3"),
            (&[Word(6_401, 24_589), Word(6_402, 2)], "6401 24589 3"),
            // Two lists have each other's store: the slot of the later list has the lower address.
            (
                &[
                    Word(4_097, 25_641),
                    Word(4_098, 1),
                    Word(6_408, 16_397),
                    Word(6_409, 2),
                    Word(4_102, 25_657),
                ],
                "6412 25657 3",
            ),
            // A slot of a store that nothing names is no object's.
            (
                &[Word(6_408, 3), Word(6_409, 0), Word(7, 25_657)],
                "objects 7 entries 3",
            ),
        ],
    ),
    (
        &OUTGROWN,
        &[
            (&[], "objects 3 entries 2"),
            // The pair of number 5 is cleared in the map's table alone, and then the list is made free.
            (
                &[
                    Word(2, 1),
                    Word(13, 7),
                    Word(14, 7),
                    Word(22, 30),
                    Word(23, 3),
                ],
                "7 89 3",
            ),
            // The outgrown table is made free with the list.
            (
                &[
                    Word(2, 1),
                    Word(13, 7),
                    Word(14, 7),
                    Word(22, 30),
                    Word(23, 3),
                    Word(3, 30),
                    Word(4, 6),
                ],
                "objects 2 entries 1",
            ),
        ],
    ),
];

/// Two flaws: the one of the earlier part, and in one part the one of the lower address.
pub(crate) const ORDER: [Group; 2] = [
    (
        &USUAL,
        &[
            (&[Word(131_076, 2), Word(188_416, 5)], "188416 5 11"),
            (&[Word(188_416, 5), Word(139_264, 1)], "139264 1 26"),
        ],
    ),
    (
        &SPREAD,
        &[
            (&[Used(65), Words(14_669)], "20878 65 64"),
            (&[Words(14_671), Word(6_470, 1)], "20878 14671 14670"),
            (&[Word(14_669, 1), Word(0, 0)], "14669 1 0"),
            (&[Word(6_463, 1), Survivors(0)], "6463 1 0"),
            (&[Survivors(0), Word(6_464, 5)], "20878 0 18"),
            (&[Word(6_469, 1), Word(3, 3)], "6469 1 0"),
            (&[Word(7, 8_185), Word(6_413, 2)], "6413 2 7"),
            // Within the cells: of the first and the last, and of a list whose store stands before the weak map.
            (&[Word(3, 3), Word(6_413, 2)], "3 3 7"),
            (
                &[
                    Word(4_097, 25_641),
                    Word(4_098, 1),
                    Word(6_408, 16_397),
                    Word(6_409, 2),
                    Word(4_103, 2),
                    Word(6_146, 1),
                ],
                "4103 2 7",
            ),
        ],
    ),
];
