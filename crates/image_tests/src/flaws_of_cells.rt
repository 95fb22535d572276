//! Images in which a cell is forged that is no plain object's, and the first flaw of each.
use crate::first_flaws::Group;
use crate::images::Change::{Used, Word};
use crate::worked::{ENTRY, FREE, LISTS, PROBED, USUAL};
use crate::worked_ends::{LONG, SPREAD};

/// Lists, with the slots of their stores.
pub(crate) const OF_LISTS: [Group; 3] = [
    (
        &LISTS,
        &[
            (&[], "objects 2 entries 0"),
            (&[Word(2_050, 3)], "2055 7 3"),
            (&[Word(2_050, 1)], "2054 4 7"),
            (&[Word(2_050, 5)], "2050 5 4"),
            (&[Word(2_055, 2)], "2055 2 7"),
            (&[Word(2_054, 8_205)], "2054 8205 3"),
            (&[Word(2_049, 3)], "2050 2 0"),
            (&[Word(2_058, 8_193)], "2058 8193 3"),
            (&[Word(2_177, 5)], "2053 8705 3"),
        ],
    ),
    (
        &SPREAD,
        &[
            (&[Word(4_097, 24_589)], "4097 24589 3"),
            (&[Word(4_098, 4_294_967_298)], "4098 4294967298 3"),
            // The first and the last slot of a store: no value though it is used, and no hole though it is not.
            (&[Word(4_101, 7)], "4101 7 3"),
            (&[Word(4_101, 58_681)], "4101 58681 3"),
            (&[Word(4_101, 17_179_894_785)], "4101 17179894785 3"),
            (&[Word(4_102, 2_147_483_648)], "4102 2147483648 3"),
            (&[Word(4_098, 0)], "4101 25601 7"),
            (&[Word(4_098, 3)], "4103 7 3"),
            (&[Word(4_103, 3)], "4103 3 7"),
            // Words in a gap that read as a list.
            (&[Word(14, 6), Word(15, 3), Word(4_101, 57)], "4101 57 3"),
            // A check that skips the last segment finds nothing here.
            (&[Word(6_409, 0)], "6412 25657 7"),
            (&[Word(6_413, 2)], "6413 2 7"),
            (&[Word(6_415, 5)], "6412 25657 3"),
        ],
    ),
    (
        &LONG,
        &[
            (&[], "objects 1 entries 0"),
            (&[Word(2, 1_001)], "2 1001 1000"),
            (&[Word(2, 1_001), Word(1_005, 0)], "2 1001 1000"),
            (&[Word(2, 999)], "1004 0 7"),
            (&[Word(1_005, 0)], "1005 0 7"),
            (&[Word(1_004, 7)], "1004 7 3"),
        ],
    ),
];

/// Weak maps, with their tables.
pub(crate) const WEAK: [Group; 4] = [
    (
        &ENTRY,
        &[
            (&[], "objects 2 entries 1"),
            // A check that takes a count for right finds nothing here.
            (&[Word(2_050, 0)], "2050 0 1"),
            (&[Word(2_050, 2)], "2050 2 1"),
            (&[Word(2_057, 8_589_934_598)], "2055 8229 7"),
            (&[Word(2_055, 7)], "2056 10 7"),
            (&[Word(2_056, 7)], "2056 7 3"),
            (&[Word(2_053, 3), Word(2_050, 2)], "2053 3 7"),
            (&[Word(2_055, 8_705)], "2055 8705 3"),
            (&[Word(2_055, 2)], "2055 2 3"),
            (&[Word(2_049, 3)], "2050 1 0"),
            (&[Word(2_049, 8_229)], "2049 8229 3"),
        ],
    ),
    (
        &PROBED,
        &[
            (&[], "objects 3 entries 2"),
            (&[Word(2_064, 25_769_803_782)], "2053 8257 7"),
        ],
    ),
    (
        &FREE,
        &[
            (
                &[Word(2_052, 0), Word(2_053, 14), Word(2_054, 6)],
                "2052 0 1",
            ),
            (
                &[Word(2_052, 3), Word(2_059, 14), Word(2_060, 0)],
                "2052 3 4",
            ),
        ],
    ),
    (
        &SPREAD,
        &[
            // A hole, and a store, in place of a table.
            (&[Word(6_145, 7)], "6145 7 3"),
            (&[Word(6_145, 21)], "6145 21 3"),
            (&[Word(6_146, 4_294_967_298)], "6146 4294967298 2"),
            (&[Word(6_402, 2)], "6402 2 1"),
            // The next greater power of two is not the next number.
            (&[Word(6_148, 5), Word(6_159, 26)], "6148 5 8"),
            // The first pair: its key, its value, both; a value without a key.
            (&[Word(6_149, 3)], "6149 3 7"),
            (&[Word(6_149, 24_589)], "6149 24589 3"),
            (&[Word(6_149, 17_179_869_185)], "6149 17179869185 3"),
            (&[Word(6_150, 7)], "6150 7 3"),
            (&[Word(6_149, 2), Word(6_150, 7)], "6149 2 3"),
            (&[Word(6_149, 7)], "6150 18 7"),
            // Half a pair is counted, and the count has the lower address.
            (&[Word(6_152, 2)], "6146 2 3"),
            (&[Word(6_146, 3), Word(6_152, 2)], "6152 2 7"),
            // The keys of a table may be one object.
            (
                &[Word(6_146, 3), Word(6_151, 1), Word(6_152, 2)],
                "objects 7 entries 4",
            ),
            // The last pair's value: the table itself, and a box of a small integer. The last table's only pair.
            (&[Word(6_156, 24_589)], "6156 24589 3"),
            (&[Word(6_209, 5)], "6156 24833 3"),
            (&[Word(6_405, 7)], "6406 3 7"),
            // Number 1 does not stand at the first place, and the greatest number does, from the last one on.
            (&[Word(0, 4_294_967_382), Word(6_150, 7)], "6149 1 7"),
            (
                &[Word(0, 18_446_744_069_414_584_406)],
                "objects 7 entries 3",
            ),
        ],
    ),
];

/// What is no object: numbers, and slots that no object has.
pub(crate) const OTHERS: [Group; 4] = [
    (&USUAL, &[(&[Word(0, 4_294_967_326)], "0 4294967326 30")]),
    (
        &LISTS,
        &[
            (&[Word(2_176, 4_294_967_318)], "2176 4294967318 22"),
            (&[Word(2_051, 4_294_967_310)], "2051 4294967310 14"),
            (&[Word(2_062, 8_197)], "2062 8197 3"),
        ],
    ),
    (
        &SPREAD,
        &[
            (&[Word(4_104, 4_294_967_326)], "4104 4294967326 30"),
            (&[Word(6_147, 4_294_967_314)], "6147 4294967314 18"),
            (&[Word(6_164, 4_294_967_322)], "6164 4294967322 26"),
            (
                &[Word(6_414, 18_446_744_069_414_584_342)],
                "6414 18446744069414584342 22",
            ),
            // The first and the last slot of a store that nothing names, and of such a table.
            (
                &[Word(6_408, 3), Word(6_409, 0), Word(6_412, 11)],
                "6412 11 3",
            ),
            (
                &[Word(6_408, 3), Word(6_409, 0), Word(6_413, 15)],
                "6413 15 3",
            ),
            (
                &[Word(6_145, 3), Word(6_146, 0), Word(6_149, 49)],
                "6149 49 3",
            ),
            (
                &[Word(6_145, 3), Word(6_146, 0), Word(6_156, 24_657)],
                "6156 24657 3",
            ),
            // Such a store may have the box of a small integer.
            (
                &[Word(6_408, 3), Word(6_409, 0), Word(6_415, 5)],
                "objects 7 entries 3",
            ),
            // The capacity of a table that nothing names need be no power of two.
            (
                &[
                    Word(6_145, 3),
                    Word(6_146, 0),
                    Word(6_148, 3),
                    Word(6_155, 26),
                    Word(6_156, 26),
                ],
                "objects 7 entries 1",
            ),
        ],
    ),
    // A weak map outgrew the table at 2,060 while a cycle was open. Were that kept, its second pair would keep a key at
    // 2,066 that was swept: pairs are cleared map by map.
    (
        &ENTRY,
        &[
            (
                &[
                    Used(21),
                    Word(2_060, 18),
                    Word(2_061, 2),
                    Word(2_062, 8_229),
                    Word(2_063, 10),
                    Word(2_064, 8_265),
                    Word(2_065, 10),
                    Word(2_066, 30),
                    Word(2_067, 3),
                ],
                "2064 8265 3",
            ),
            (
                &[
                    Used(21),
                    Word(2_060, 18),
                    Word(2_061, 2),
                    Word(2_062, 8_229),
                    Word(2_063, 10),
                    Word(2_064, 7),
                    Word(2_065, 7),
                    Word(2_066, 30),
                    Word(2_067, 3),
                ],
                "objects 2 entries 1",
            ),
        ],
    ),
];
