//! Images in which a plain object is forged, and the first flaw of each.
use crate::first_flaws::Group;
use crate::images::Change::Word;
use crate::worked::{BESIDE, USUAL};
use crate::worked_ends::SPREAD;

/// Plain objects, with the slots of their stores.
pub(crate) const PLAIN: [Group; 3] = [
    (
        &USUAL,
        &[
            (&[], "objects 1 entries 0"),
            (&[Word(131_076, 2)], "131076 2 7"),
            (&[Word(131_073, 524_289)], "131073 524289 3"),
            (&[Word(131_075, 3)], "131075 3 7"),
            (&[Word(131_075, 524_289)], "131075 524289 3"),
            (&[Word(131_072, 42)], "131075 2 7"),
            // The prototype slot: the object itself, an integer, a hole, a gap, words that no cell begins at, and a
            // variable's words. It comes after the slot of the store, and before those of the fields.
            (&[Word(131_074, 524_289)], "objects 1 entries 0"),
            (&[Word(131_074, 2)], "131074 2 3"),
            (&[Word(131_074, 7)], "131074 7 3"),
            (&[Word(131_074, 1)], "131074 1 3"),
            (&[Word(131_074, 524_297)], "131074 524297 3"),
            (&[Word(131_074, 753_665)], "131074 753665 3"),
            (&[Word(131_073, 2), Word(131_074, 2)], "131073 2 3"),
            (&[Word(131_074, 2), Word(131_075, 3)], "131074 2 3"),
        ],
    ),
    (
        &BESIDE,
        &[
            (&[], "objects 1 entries 0"),
            (&[Word(2_053, 2)], "2053 2 3"),
            (&[Word(2_053, 8_193)], "2053 8193 3"),
            (&[Word(2_053, 3)], "2053 3 7"),
            (&[Word(2_049, 3)], "2049 3 7"),
        ],
    ),
    (
        &SPREAD,
        &[
            // Slot 1 of the first object: an integer, a hole, a table, no cell, behind all words, an
            // address of more than 32 bits; and of the last.
            (&[Word(1, 2)], "1 2 3"),
            (&[Word(1, 7)], "1 7 3"),
            (&[Word(1, 24_589)], "1 24589 3"),
            (&[Word(1, 25)], "1 25 3"),
            (&[Word(1, 58_681)], "1 58681 3"),
            (&[Word(1, 17_179_869_205)], "1 17179869205 3"),
            (&[Word(6_161, 2)], "6161 2 3"),
            // A prototype: of the first object the last one, and of the last the first; a list, a weak map, a store, a
            // table, a box, a filler, no cell, behind all words, an address of more than 32 bits.
            (&[Word(2, 24_641), Word(6_162, 1)], "objects 7 entries 3"),
            (&[Word(2, 16_385)], "2 16385 3"),
            (&[Word(2, 24_577)], "2 24577 3"),
            (&[Word(2, 21)], "2 21 3"),
            (&[Word(2, 24_589)], "2 24589 3"),
            (&[Word(2, 8_185)], "2 8185 3"),
            (&[Word(2, 24_657)], "2 24657 3"),
            (&[Word(2, 25)], "2 25 3"),
            (&[Word(6_162, 58_681)], "6162 58681 3"),
            (&[Word(6_162, 17_179_869_185)], "6162 17179869185 3"),
            // Its slot and one of its store, which has the lower address.
            (&[Word(6_158, 21), Word(6_159, 2)], "7 16385 7"),
            // Words in a gap that read as a store.
            (&[Word(14, 14), Word(15, 3), Word(1, 57)], "1 57 3"),
            // A store that lacks a slot for the last field, and one that has no slot more.
            (
                &[Word(6, 2), Word(9, 26), Word(10, 26), Word(11, 26)],
                "1 21 3",
            ),
            (
                &[Word(6, 3), Word(10, 26), Word(11, 26)],
                "objects 7 entries 3",
            ),
            // The first and last slot in the object, the first in the store, and the last that is used.
            (&[Word(3, 2_147_483_648)], "3 2147483648 3"),
            (&[Word(4, 7)], "4 7 3"),
            (&[Word(4, 21)], "4 21 3"),
            (&[Word(7, 7)], "7 7 3"),
            (&[Word(8, 7)], "8 7 3"),
            (&[Word(9, 3)], "9 3 7"),
            // The first and the last slot behind the fields.
            (&[Word(10, 2)], "10 2 7"),
            (&[Word(11, 3)], "11 3 7"),
            // The box of a tagged field has no small integer, and that of a wide field may have one.
            (&[Word(2_047, 1_073_741_823)], "4 8185 3"),
            (&[Word(2_047, 18_446_744_072_635_809_792)], "4 8185 3"),
            (
                &[Word(2_047, 18_446_744_072_635_809_791)],
                "objects 7 entries 3",
            ),
            (&[Word(6_143, 5)], "objects 7 entries 3"),
            // An object without fields has the store of the first object, whose first slot has a lower address.
            (&[Word(6_158, 21)], "7 16385 7"),
        ],
    ),
];
