//! Cells that refer to one another, and dead ones, as in `copied_objects`.
use crate::moved_heaps::Change::{self, Word};
use crate::moved_heaps::Pair;

/// An object, its store and its box.
const FIELDS: &[(u32, u32)] = &[(2_048, 2_176), (2_053, 2_181), (2_059, 2_187)];

/// A list, its store and two boxes.
const LIST: &[(u32, u32)] = &[
    (2_048, 2_176),
    (2_051, 2_179),
    (2_057, 2_185),
    (2_059, 2_187),
];

/// The same, where the boxes change places.
const SWAPPED: &[(u32, u32)] = &[
    (2_048, 2_176),
    (2_051, 2_179),
    (2_057, 2_187),
    (2_059, 2_185),
];

/// A weak map, its table and a box.
const MAP: &[(u32, u32)] = &[(2_048, 2_176), (2_051, 2_179), (2_061, 2_189)];

/// The second object of a page in the place of the first one, a gap behind it, and the root of its
/// variable.
const COMPACTED: &[Change] = &[
    Word(0, 4_294_967_330),
    Word(1, 3),
    Word(2, 3),
    Word(3, 30),
    Word(4, 2_045),
    Word(2_242, 1),
];

pub(crate) const CELLS: [Pair; 5] = [
    // The object at 2,048 has a raw field, which reads as a reference to it, and a field that refers to
    // it. Its store at 2,053 has a field in the box at 2,059.
    Pair {
        old: b"new x 2\nset x a 5000000000\nset x a 8193\nset x b x\nset x c 5000000000",
        new: b"new x 2\nset x a 5000000000\nset x a 8193\nset x b x\nset x c 5000000000\nscavenge",
        cases: &[
            (&[], FIELDS, "the object, its store and its box", true),
            (
                &[],
                &[(2_048, 2_176), (2_053, 2_181)],
                "no move of the box",
                false,
            ),
            (
                &[],
                &[(2_048, 2_176), (2_059, 2_187)],
                "no move of the store",
                false,
            ),
            (&[Word(2_179, 8_197)], FIELDS, "another raw integer", false),
            (&[Word(2_178, 8_705)], FIELDS, "a prototype", false),
            (
                &[Word(2_179, 8_705)],
                FIELDS,
                "a raw integer moved as a reference",
                false,
            ),
            (
                &[Word(2_180, 8_193)],
                FIELDS,
                "a field that refers to where the object stood",
                false,
            ),
            (
                &[Word(2_180, 3)],
                FIELDS,
                "a field that is undefined",
                false,
            ),
            (
                &[Word(2_177, 8_213)],
                FIELDS,
                "a slot for the store that refers to where it stood",
                false,
            ),
            (
                &[Word(2_183, 8_705)],
                FIELDS,
                "the object in the place of the box",
                false,
            ),
            (
                &[Word(2_184, 8_749)],
                FIELDS,
                "the box in the place of a hole",
                false,
            ),
            (
                &[Word(2_182, 3), Word(2_186, 26)],
                FIELDS,
                "a store that is a slot shorter, and a free word",
                false,
            ),
            (
                &[Word(2_188, 5_000_000_001)],
                FIELDS,
                "another integer in the box",
                false,
            ),
            (
                &[Word(2_187, 26), Word(2_188, 26)],
                FIELDS,
                "free words in the place of the box",
                false,
            ),
        ],
    },
    // The list at 2,048 has a store at 2,051, and two elements in boxes at 2,057 and 2,059, which are
    // alike.
    Pair {
        old: b"list l\npush l 5000000000\npush l 5000000000",
        new: b"list l\npush l 5000000000\npush l 5000000000\nscavenge",
        cases: &[
            (&[], LIST, "each where its copy stands", true),
            (
                &[Word(2_181, 8_749), Word(2_182, 8_741)],
                LIST,
                "elements that changed places",
                false,
            ),
            (&[], SWAPPED, "boxes that changed places", false),
            (
                &[Word(2_181, 8_749), Word(2_182, 8_741)],
                SWAPPED,
                "boxes and elements that changed places",
                true,
            ),
            (
                &[Word(2_182, 8_741), Word(2_187, 30), Word(2_188, 2)],
                &[
                    (2_048, 2_176),
                    (2_051, 2_179),
                    (2_057, 2_185),
                    (2_059, 2_185),
                ],
                "two boxes at one address",
                false,
            ),
            (&[Word(2_178, 1)], LIST, "a shorter list", false),
        ],
    },
    // The weak map at 2,048 has a table at 2,051, with its one key in the first pair, and the box of that
    // key's value at 2,061.
    Pair {
        old: b"weak m\nwput m m 5000000000",
        new: b"weak m\nwput m m 5000000000\nscavenge",
        cases: &[
            (&[], MAP, "the map, its table and the box", true),
            (
                &[Word(2_181, 8_193)],
                MAP,
                "a key that refers to where the map stood",
                false,
            ),
            (
                &[Word(2_182, 8_245)],
                MAP,
                "a value that refers to where the box stood",
                false,
            ),
            (&[Word(2_178, 0)], MAP, "another count", false),
            (
                &[
                    Word(2_178, 0),
                    Word(2_181, 7),
                    Word(2_182, 7),
                    Word(2_189, 30),
                    Word(2_190, 2),
                ],
                &[(2_048, 2_176), (2_051, 2_179)],
                "an entry that was cleared",
                false,
            ),
        ],
    },
    // No variable refers to the object at 2,051, behind that at 2,048.
    Pair {
        old: b"new x 0\nnew y 0\ndrop y",
        new: b"new x 0\nnew y 0\ndrop y",
        cases: &[
            (
                &[],
                &[(2_048, 2_048), (2_051, 2_051)],
                "each where it was",
                true,
            ),
            (
                &[],
                &[(2_048, 2_048)],
                "an object that went and still stands",
                false,
            ),
            (
                &[Word(2_051, 30), Word(2_052, 3)],
                &[(2_048, 2_048)],
                "a gap in its place",
                true,
            ),
            (
                &[Word(2_051, 26), Word(2_052, 26), Word(2_053, 26)],
                &[(2_048, 2_048)],
                "three free words in its place",
                true,
            ),
            (
                &[Word(2_051, 30), Word(2_052, 3)],
                &[(2_048, 2_048), (2_051, 2_051)],
                "a gap, and the move of what went",
                false,
            ),
            (
                &[Word(2_051, 4_294_967_326), Word(2_052, 3)],
                &[(2_048, 2_048)],
                "a gap with its number",
                false,
            ),
            (
                &[Word(2_048, 30), Word(2_049, 3)],
                &[(2_051, 2_051)],
                "a root that refers to what went",
                false,
            ),
            (
                &[Word(2_048, 30), Word(2_049, 3), Word(2_240, 11)],
                &[(2_051, 2_051)],
                "a root that was unbound with what went",
                false,
            ),
        ],
    },
    // Of the objects at 0 and 3, in the page, the first one is dead.
    Pair {
        old: b"new x 0\nnew y 0\nscavenge\nscavenge\ndrop x",
        new: b"new x 0\nnew y 0\nscavenge\nscavenge\ndrop x",
        cases: &[
            (COMPACTED, &[(3, 0)], "the second one in its place", true),
            (
                &[
                    Word(0, 4_294_967_330),
                    Word(1, 3),
                    Word(2, 3),
                    Word(3, 30),
                    Word(4, 2_045),
                ],
                &[(3, 0)],
                "a root that refers to where it was",
                false,
            ),
            (COMPACTED, &[(0, 0)], "a move of the dead one", false),
            (
                &[Word(0, 4_294_967_330), Word(1, 3), Word(2_242, 1)],
                &[(3, 0)],
                "its old place kept",
                false,
            ),
            (
                &[Word(0, 30), Word(1, 3)],
                &[(3, 3), (6, 6)],
                "a gap where the first one was",
                true,
            ),
        ],
    },
];
