//! Lists of a page in an open cycle. Words and colours are worked out by hand.
use crate::cases::{Case, EDEN, ROOTS, Turn, go};
use crate::commands::Act::{self, *};
use heap_command::Operand::{Int, Var};
use std::test::Fail;

/// A list at 7, of the object at 10 and two integers, in a store of four slots at 19; and objects at 13 and 16.
const THREE: [Act; 16] = [
    New(5, 4),
    List(0),
    New(1, 0),
    New(2, 0),
    New(3, 0),
    Push(0, Var(1)),
    Push(0, Int(2)),
    Push(0, Int(3)),
    Set(5, 0, Var(0)),
    Set(5, 1, Var(1)),
    Set(5, 2, Var(2)),
    Set(5, 3, Var(3)),
    Unbind(0),
    Unbind(1),
    Unbind(2),
    Unbind(3),
];

/// Elements are replaced, and come to the store, and to a bigger one, which is young.
const ELEMENTS: [Turn; 10] = [
    (Get(0, 5, 0), b"gwwwww", &[(ROOTS, 29)]),
    (Get(2, 5, 2), b"gwwwww", &[(ROOTS + 4, 53)]),
    (Put(0, Int(1), Var(2)), b"gwwgww", &[(22, 53)]),
    (Put(0, Int(1), Int(4)), b"gwwgww", &[(22, 8)]),
    (Get(3, 5, 3), b"gwwgww", &[(ROOTS + 6, 65)]),
    (Push(0, Var(3)), b"gwwggw", &[(24, 65), (9, 4)]),
    (
        Push(0, Int(7)),
        b"gwwggw",
        &[
            (8, 8_193),
            (9, 5),
            (EDEN, 14),
            (EDEN + 1, 8),
            (EDEN + 2, 41),
            (EDEN + 6, 14),
            (EDEN + 7, 7),
        ],
    ),
    (Get(1, 5, 1), b"gwwggw", &[(ROOTS + 2, 41)]),
    (Push(0, Var(1)), b"gwwggw", &[(EDEN + 7, 41), (9, 6)]),
    (Put(0, Int(0), Int(0)), b"gwwggw", &[(EDEN + 2, 0)]),
];

/// The same list, of the three objects and an integer.
const FOUR: [Act; 17] = [
    New(5, 4),
    List(0),
    New(1, 0),
    New(2, 0),
    New(3, 0),
    Push(0, Var(1)),
    Push(0, Var(2)),
    Push(0, Int(5)),
    Push(0, Var(3)),
    Set(5, 0, Var(0)),
    Set(5, 1, Var(1)),
    Set(5, 2, Var(2)),
    Set(5, 3, Var(3)),
    Unbind(0),
    Unbind(1),
    Unbind(2),
    Unbind(3),
];

/// Two trims at the front, with new starts at 20 and at 21, and two at the back. Each start is black.
const TRIMMED: [Turn; 5] = [
    (Get(0, 5, 0), b"gwwwwwww", &[]),
    (
        Shift(0, Int(1)),
        b"gwgggbbw",
        &[(8, 81), (9, 3), (19, 26), (20, 14), (21, 3), (22, 53)],
    ),
    (
        Shift(0, Int(1)),
        b"gwgggbbb",
        &[
            (8, 85),
            (9, 2),
            (19, 26),
            (20, 26),
            (21, 14),
            (22, 2),
            (23, 10),
        ],
    ),
    (
        Trunc(0, Int(1)),
        b"gwgggbbb",
        &[(8, 85), (9, 1), (22, 1), (23, 10), (24, 26)],
    ),
    (
        Trunc(0, Int(0)),
        b"gwgggbbb",
        &[(8, 85), (9, 0), (22, 0), (23, 26), (24, 26)],
    ),
];

/// A trim at the back, and an element then, in a young store.
const CUT: [Turn; 3] = [
    (Get(0, 5, 0), b"gwwwww", &[]),
    (
        Trunc(0, Int(1)),
        b"gwgggb",
        &[(8, 77), (9, 1), (20, 1), (21, 41), (22, 30), (23, 3)],
    ),
    (
        Push(0, Int(3)),
        b"gwgggb",
        &[
            (8, 8_193),
            (EDEN, 14),
            (EDEN + 1, 4),
            (EDEN + 2, 41),
            (EDEN + 3, 6),
        ],
    ),
];

#[test]
fn elements_that_come_to_a_store_of_a_page_are_shaded(rt: HostRuntime) -> Result<(), Fail> {
    let elements = Case {
        before: &THREE,
        cells: &[0, 7, 10, 13, 16, 19],
        opened: (b"gwwwww", &[(8, 77), (9, 3), (21, 41), (22, 4), (24, 7)]),
        turns: &ELEMENTS,
        after: &[
            (At(4, 0, Int(3)), &[(ROOTS + 8, 65)]),
            (At(4, 0, Int(5)), &[(ROOTS + 8, 41)]),
            (At(4, 0, Int(1)), &[(ROOTS + 8, 8)]),
        ],
    };
    go(&rt, rt.alloc(), elements)
}

#[test]
fn a_store_that_is_trimmed_turns_black(rt: HostRuntime) -> Result<(), Fail> {
    let trimmed = Case {
        before: &FOUR,
        cells: &[0, 7, 10, 13, 16, 19, 20, 21],
        opened: (
            b"gwwwwwww",
            &[(8, 77), (9, 4), (21, 41), (22, 53), (24, 65)],
        ),
        turns: &TRIMMED,
        after: &[(Push(0, Int(6)), &[(8, 8_193), (9, 1), (EDEN + 2, 12)])],
    };
    go(&rt, rt.alloc(), trimmed)?;
    let cut = Case {
        cells: &[0, 7, 10, 13, 16, 19],
        opened: (b"gwwwww", &[]),
        turns: &CUT,
        after: &[
            (At(4, 0, Int(0)), &[(ROOTS + 8, 41)]),
            (At(4, 0, Int(1)), &[(ROOTS + 8, 6)]),
        ],
        ..trimmed
    };
    go(&rt, rt.alloc(), cut)
}
