//! Objects of a page that turn black in an open cycle: by a field that comes to hold a raw integer, and by one that is
//! taken out. Words and colours are worked out by hand.
use crate::cases::{Case, EDEN, ROOTS, Turn, go};
use crate::commands::Act::{self, *};
use crate::fields::TWO_FIELDS;
use heap_command::Operand::{Int, Undefined, Var};
use std::test::Fail;

/// The second field of the object at 6 holds a wide integer, and the first then another object.
const WHITE_WIDENS: [Turn; 5] = [
    (Get(0, 5, 0), b"gwww", &[]),
    (
        Set(0, 1, Int(1 << 40)),
        b"gbgw",
        &[(9, 45), (10, 1 << 40), (6, 0x1_0000_005a)],
    ),
    (Set(0, 1, Int(3)), b"gbgw", &[(10, 3)]),
    (Get(2, 5, 2), b"gbgw", &[]),
    (Set(0, 0, Var(2)), b"gbgg", &[(9, 57)]),
];

/// The same object, which variable 0 holds: it stands first, at 0, and the one of variable 5 at 5.
const HELD: [Act; 11] = [
    New(5, 3),
    New(0, 2),
    New(1, 0),
    New(2, 0),
    Set(0, 0, Var(1)),
    Set(0, 1, Int(7)),
    Set(5, 0, Var(0)),
    Set(5, 1, Var(1)),
    Set(5, 2, Var(2)),
    Unbind(1),
    Unbind(2),
];

/// It is grey as its field widens. The field is tagged then, and refers to a young box.
const GREY_WIDENS: [Turn; 3] = [
    (Set(0, 1, Int(1 << 40)), b"gbgw", &[(4, 1 << 40)]),
    (Set(0, 1, Undefined), b"gbgw", &[(4, 3)]),
    (
        Set(0, 1, Int(1 << 40)),
        b"gbgw",
        &[(4, 8_193), (EDEN, 22), (EDEN + 1, 1 << 40)],
    ),
];

/// An object at 7, whose first field stands in it and refers to one at 11; the others stand in its store, at 20, and
/// refer to those at 14 and 17, and the last is an integer.
const FOUR_FIELDS: [Act; 17] = [
    New(5, 4),
    New(0, 1),
    New(1, 0),
    New(2, 0),
    New(3, 0),
    Set(0, 0, Var(1)),
    Set(0, 1, Var(2)),
    Set(0, 2, Var(3)),
    Set(0, 3, Int(9)),
    Set(5, 0, Var(0)),
    Set(5, 1, Var(1)),
    Set(5, 2, Var(2)),
    Set(5, 3, Var(3)),
    Unbind(0),
    Unbind(1),
    Unbind(2),
    Unbind(3),
];

/// Fields are taken out: the object turns black. A reference that moves shades its cell.
const TAKEN_OUT: [Turn; 3] = [
    (Get(0, 5, 0), b"gwwwww", &[]),
    (Del(0, 3), b"gbgwwg", &[(10, 45), (22, 57), (24, 7)]),
    (Del(0, 0), b"gbgggg", &[(10, 57), (22, 69), (23, 7)]),
];

/// An object of one field at 5, and one at 9.
const ALONE: [Act; 8] = [
    New(5, 2),
    New(0, 1),
    New(1, 0),
    Set(0, 0, Int(1)),
    Set(5, 0, Var(0)),
    Set(5, 1, Var(1)),
    Unbind(0),
    Unbind(1),
];

/// The object at 9 is referred to by a young store alone, until the field moves into the object at 5.
const MOVES_IN: [Turn; 6] = [
    (Get(0, 5, 0), b"gww", &[]),
    (Get(1, 5, 1), b"gww", &[(ROOTS + 2, 37)]),
    (Set(0, 1, Var(1)), b"gww", &[(6, 8_193), (EDEN + 2, 37)]),
    (Set(5, 1, Int(0)), b"gww", &[(4, 0)]),
    (Unbind(1), b"gww", &[]),
    (Del(0, 0), b"gbg", &[(8, 37), (EDEN + 2, 7)]),
];

#[test]
fn a_white_object_turns_black_as_a_field_widens_in_it(rt: HostRuntime) -> Result<(), Fail> {
    let white = Case {
        before: &TWO_FIELDS,
        cells: &[0, 6, 11, 14],
        opened: (b"gwww", &[]),
        turns: &WHITE_WIDENS,
        after: &[
            (Get(4, 0, 1), &[(ROOTS + 8, 6)]),
            (Get(4, 0, 0), &[(ROOTS + 8, 57)]),
        ],
    };
    go(&rt, rt.alloc(), white)
}

#[test]
fn a_grey_object_turns_black_as_a_field_widens_in_it(rt: HostRuntime) -> Result<(), Fail> {
    let grey = Case {
        before: &HELD,
        cells: &[5, 0, 11, 14],
        opened: (b"ggww", &[(8, 1), (3, 45), (4, 14)]),
        turns: &GREY_WIDENS,
        after: &[(Get(4, 0, 1), &[(ROOTS + 8, 0xf), (ROOTS + 9, 1 << 40)])],
    };
    go(&rt, rt.alloc(), grey)
}

#[test]
fn an_object_turns_black_as_a_field_is_taken_out(rt: HostRuntime) -> Result<(), Fail> {
    let four = Case {
        before: &FOUR_FIELDS,
        cells: &[0, 7, 11, 14, 17, 20],
        opened: (
            b"gwwwww",
            &[(8, 81), (10, 45), (22, 57), (23, 69), (24, 18)],
        ),
        turns: &TAKEN_OUT,
        after: &[
            (Get(4, 0, 1), &[(ROOTS + 8, 57)]),
            (Get(4, 0, 2), &[(ROOTS + 8, 69)]),
            (Get(4, 0, 0), &[(ROOTS + 8, 3)]),
        ],
    };
    go(&rt, rt.alloc(), four)
}

#[test]
fn a_reference_that_moves_from_a_young_store_into_a_page_is_shaded(
    rt: HostRuntime,
) -> Result<(), Fail> {
    let alone = Case {
        before: &ALONE,
        cells: &[0, 5, 9],
        opened: (b"gww", &[(3, 21), (4, 37), (8, 2)]),
        turns: &MOVES_IN,
        after: &[(Get(4, 0, 1), &[(ROOTS + 8, 37)])],
    };
    go(&rt, rt.alloc(), alone)
}
