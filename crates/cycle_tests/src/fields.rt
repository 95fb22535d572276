//! Fields and prototypes of objects of a page, in an open cycle. Words and colours are worked out by hand.
//!
//! In each heap variable 5 holds an object whose fields refer to the others, so it stands first in the page and is grey
//! as the cycle opens, and the others stand behind it and are white.
use crate::cases::{Case, EDEN, ROOTS, Turn, go};
use crate::commands::Act::{self, *};
use heap_command::Operand::{Int, Undefined, Var};
use std::test::Fail;

/// An object of two fields at 6, which refers to one at 11, and an object at 14.
pub(crate) const TWO_FIELDS: [Act; 12] = [
    New(5, 3),
    New(0, 2),
    New(1, 0),
    New(2, 0),
    Set(0, 0, Var(1)),
    Set(0, 1, Int(7)),
    Set(5, 0, Var(0)),
    Set(5, 1, Var(1)),
    Set(5, 2, Var(2)),
    Unbind(0),
    Unbind(1),
    Unbind(2),
];

/// The words of these, as the cycle opens: the first has shape 21, and references to the others.
const TWO_WORDS: [(u32, u64); 7] = [
    (0, 0x56),
    (3, 25),
    (4, 45),
    (5, 57),
    (9, 45),
    (10, 14),
    (ROOTS + 10, 1),
];

/// Fields of the object at 6 are given values in place: what they come to refer to is grey.
const IN_PLACE: [Turn; 11] = [
    (Get(0, 5, 0), b"gwww", &[(ROOTS, 25)]),
    (Get(2, 5, 2), b"gwww", &[(ROOTS + 4, 57)]),
    (Set(0, 0, Var(2)), b"gwwg", &[(9, 57)]),
    (Set(0, 0, Int(5)), b"gwwg", &[(9, 10)]),
    (
        Let(3, Int(-1)),
        b"gwwg",
        &[(ROOTS + 6, 0xffff_ffff_ffff_fffe)],
    ),
    (Set(0, 1, Var(3)), b"gwwg", &[(10, 0xffff_ffff_ffff_fffe)]),
    (Get(1, 5, 1), b"gwwg", &[(ROOTS + 2, 45)]),
    (Let(3, Var(1)), b"gwwg", &[(ROOTS + 6, 45)]),
    // The field is tagged from here on: the shape is another one, and the object was made black for that.
    (Set(0, 1, Var(1)), b"gbgg", &[(10, 45), (6, 0x1_0000_005a)]),
    (Set(0, 1, Undefined), b"gbgg", &[(10, 3)]),
    (Unbind(1), b"gbgg", &[(ROOTS + 2, 0xb)]),
];

/// The object at 6 is given a prototype, and is one.
const PROTOTYPES: [Turn; 5] = [
    (Get(0, 5, 0), b"gwww", &[]),
    (Get(1, 5, 1), b"gwww", &[]),
    (Proto(0, Var(1)), b"gwgw", &[(8, 45)]),
    (Proto(0, Undefined), b"gwgw", &[(8, 3)]),
    (Proto(1, Var(0)), b"gggw", &[(13, 25)]),
];

/// An object of one field and one slot more at 11; one of four fields in a store at 37, which is full, at 16; one of
/// one field in a store at 31 at 19; and objects at 22, 25 and 28.
const ONE_MORE: [Act; 21] = [
    New(5, 8),
    New(0, 2),
    Set(0, 0, Int(1)),
    Set(5, 0, Var(0)),
    New(0, 0),
    Set(0, 0, Int(1)),
    Set(0, 1, Int(1)),
    Set(0, 2, Int(1)),
    Set(0, 3, Int(1)),
    Set(5, 1, Var(0)),
    New(0, 0),
    Set(0, 0, Int(1)),
    Set(5, 2, Var(0)),
    New(0, 0),
    Set(5, 3, Var(0)),
    New(0, 0),
    Set(5, 4, Var(0)),
    New(0, 0),
    Set(5, 5, Var(0)),
    Let(0, Undefined),
    Unbind(0),
];

/// A field more: in the object, in its store, and in a bigger store, which is young.
const FIELDS_MORE: [Turn; 10] = [
    (Get(0, 5, 0), b"gwwwwwwww", &[(ROOTS, 45)]),
    (Get(3, 5, 3), b"gwwwwwwww", &[(ROOTS + 6, 89)]),
    (Set(0, 1, Var(3)), b"gwwwgwwww", &[(14, 2), (15, 89)]),
    (Get(2, 5, 2), b"gwwwgwwww", &[(ROOTS + 4, 77)]),
    (Get(4, 5, 4), b"gwwwgwwww", &[(ROOTS + 8, 101)]),
    (Set(2, 1, Var(4)), b"gwwwggwww", &[(33, 2), (34, 101)]),
    (Get(1, 5, 1), b"gwwwggwww", &[(ROOTS + 2, 65)]),
    (Get(3, 5, 5), b"gwwwggwww", &[(ROOTS + 6, 113)]),
    (
        Set(1, 4, Var(3)),
        b"gwwwggwww",
        &[
            (17, 8_193),
            (EDEN, 14),
            (EDEN + 1, 8),
            (EDEN + 5, 2),
            (EDEN + 6, 113),
            (EDEN + 7, 7),
        ],
    ),
    (Set(1, 5, Var(3)), b"gwwwggwww", &[(EDEN + 7, 113)]),
];

#[test]
fn fields_that_are_set_shade_what_they_refer_to(rt: HostRuntime) -> Result<(), Fail> {
    let in_place = Case {
        before: &TWO_FIELDS,
        cells: &[0, 6, 11, 14],
        opened: (b"gwww", &TWO_WORDS),
        turns: &IN_PLACE,
        after: &[
            (Get(4, 0, 0), &[(ROOTS + 8, 10)]),
            (Get(4, 0, 1), &[(ROOTS + 8, 3)]),
            (Get(4, 5, 2), &[(ROOTS + 8, 57)]),
        ],
    };
    go(&rt, rt.alloc(), in_place)?;
    let prototypes = Case {
        turns: &PROTOTYPES,
        // A field of the prototype.
        after: &[(Get(4, 1, 0), &[(ROOTS + 8, 45)])],
        ..in_place
    };
    go(&rt, rt.alloc(), prototypes)
}

#[test]
fn fields_that_are_new_shade_what_they_refer_to_from_pages(rt: HostRuntime) -> Result<(), Fail> {
    let more = Case {
        before: &ONE_MORE,
        cells: &[0, 11, 16, 19, 22, 25, 28, 31, 37],
        opened: (
            b"gwwwwwwww",
            &[(15, 7), (17, 149), (20, 125), (33, 2), (34, 7)],
        ),
        turns: &FIELDS_MORE,
        after: &[
            (Get(4, 0, 1), &[(ROOTS + 8, 89)]),
            (Get(4, 2, 1), &[(ROOTS + 8, 101)]),
            (Get(4, 1, 4), &[(ROOTS + 8, 113)]),
            (Get(4, 1, 3), &[(ROOTS + 8, 2)]),
        ],
    };
    go(&rt, rt.alloc(), more)
}
