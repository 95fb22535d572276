//! Objects that scavenges copy, with what is forged of the second heap: the changes, the moves, what it
//! has with them, and whether it is the first heap moved so. Eden begins at 2,048, the segments at 2,112
//! and 2,176, the roots at 2,240.
use crate::moved_heaps::Change::{Survivors, Word};
use crate::moved_heaps::Pair;

/// The copy of the first cell of eden.
const COPY: &[(u32, u32)] = &[(2_048, 2_176)];

/// The first survivor, in the page.
const PROMOTED: &[(u32, u32)] = &[(2_176, 0)];

pub(crate) const OBJECTS: [Pair; 9] = [
    // The object at 2,048 is copied to 2,176.
    Pair {
        old: b"new x 0",
        new: b"new x 0\nscavenge",
        cases: &[
            (&[], COPY, "the copy of the object", true),
            (
                &[],
                &[(2_048, 2_176), (0, 0)],
                "the free page named too",
                true,
            ),
            (
                &[],
                &[(2_048, 2_176), (2_049, 9)],
                "a move of no cell",
                true,
            ),
            (
                &[],
                &[(2_048, 2_176), (2_048, 0)],
                "a second move from there",
                true,
            ),
            (
                &[],
                &[(2_048, 0), (2_048, 2_176)],
                "a wrong one before it",
                false,
            ),
            (&[], &[], "no move", false),
            (&[], &[(2_048, 2_177)], "a word further", false),
            (&[], &[(2_048, 2_048)], "where it stood", false),
            (&[], &[(2_048, 0)], "at the free page", false),
            (&[], &[(2_049, 2_176)], "from a word further", false),
            (
                &[],
                &[(2_048, 2_176), (0, 2_176)],
                "the free page there too",
                false,
            ),
            (
                &[Word(2_240, 8_193)],
                COPY,
                "a root that refers to where it stood",
                false,
            ),
            (&[Word(2_240, 3)], COPY, "a root that is undefined", false),
            (&[Word(2_241, 1)], COPY, "another second root word", false),
            (&[Word(2_176, 4_294_967_330)], COPY, "another number", false),
            (
                &[Word(2_176, 22), Word(2_178, 26)],
                COPY,
                "a box in its place",
                false,
            ),
            (
                &[Word(2_176, 38), Word(2_179, 7), Survivors(4)],
                COPY,
                "a copy that is a word longer",
                false,
            ),
            (
                &[Word(2_176, 26), Word(2_177, 26), Word(2_178, 26)],
                COPY,
                "three free words in its place",
                false,
            ),
            (&[Word(2_177, 7)], COPY, "a hole for its store", false),
            (&[Word(2_178, 8_705)], COPY, "a prototype", false),
            (
                &[Word(0, 26), Word(1, 30), Word(2, 2_047)],
                COPY,
                "a page of two free cells",
                true,
            ),
            (
                &[Word(0, 4_294_967_326)],
                COPY,
                "a free cell with a number",
                false,
            ),
            (
                &[
                    Word(0, 34),
                    Word(1, 3),
                    Word(2, 3),
                    Word(3, 30),
                    Word(4, 2_045),
                ],
                COPY,
                "an object that is from none",
                false,
            ),
            (
                &[Word(0, 22), Word(2, 30), Word(3, 2_046)],
                COPY,
                "a box that is from none",
                false,
            ),
            (&[Survivors(4)], COPY, "a survivor word more", false),
            (
                &[Word(2_251, 0)],
                COPY,
                "no layout word of another shape",
                false,
            ),
        ],
    },
    // The survivor at 2,176 is promoted, to the first words of the page.
    Pair {
        old: b"new x 0\nscavenge",
        new: b"new x 0\nscavenge\nscavenge",
        cases: &[
            (&[], PROMOTED, "the object in the page", true),
            (&[], &[(2_176, 3)], "the gap behind it", false),
            (
                &[Word(2_240, 8_705)],
                PROMOTED,
                "a root that refers to the survivor",
                false,
            ),
            (
                &[Word(4, 2_044), Word(2_047, 26)],
                PROMOTED,
                "a gap that is a word shorter, and a free word",
                true,
            ),
        ],
    },
    // Two scavenges move it there too.
    Pair {
        old: b"new x 0",
        new: b"new x 0\nscavenge\nscavenge",
        cases: &[
            (&[], &[(2_048, 0)], "the object in the page", true),
            (&[], COPY, "the first copy", false),
        ],
    },
    // The regions are those of one variable more, and all else is as it has to be.
    Pair {
        old: b"new x 0",
        new: b"new x 0\nscavenge\nlet y 1",
        cases: &[(&[], COPY, "a variable more", false)],
    },
    // The first variable holds an integer whose second root word reads as a reference.
    Pair {
        old: b"let w 5000000001\nnew x 0",
        new: b"let w 5000000001\nnew x 0\nscavenge",
        cases: &[
            (&[], COPY, "an integer in two words", true),
            (
                &[Word(2_241, 5_000_000_005)],
                COPY,
                "another integer",
                false,
            ),
            (
                &[Word(2_240, 2), Word(2_241, 0)],
                COPY,
                "a small integer",
                false,
            ),
        ],
    },
    // The field has the number 1, as it has in the second heap.
    Pair {
        old: b"repeat 0\nset x a 1\nend\nnew x 1\nset x b 1",
        new: b"repeat 0\nset x b 1\nend\nnew x 1\nset x a 1\nscavenge",
        cases: &[(&[], COPY, "the same path", true)],
    },
    // The field has another number, so the path is another one. Its layout word is the same.
    Pair {
        old: b"new x 1\nset x a 1",
        new: b"repeat 0\nset x b 1\nend\nnew x 1\nset x a 1\nscavenge",
        cases: &[(&[], COPY, "a path of another field", false)],
    },
    // The field has another representation.
    Pair {
        old: b"new x 1\nset x a 1",
        new: b"new x 1\nset x a undefined\nscavenge",
        cases: &[(
            &[Word(2_179, 2)],
            COPY,
            "a path of another representation",
            false,
        )],
    },
    // The second heap has a path more.
    Pair {
        old: b"new x 1\nset x a 1",
        new: b"new x 1\nset x a 1\nscavenge\nset x b 1\ndel x b",
        cases: &[(&[], COPY, "a path more", false)],
    },
];
