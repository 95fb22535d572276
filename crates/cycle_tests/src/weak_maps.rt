//! Weak maps of a page in an open cycle: a pair shades nothing. Words and colours are worked out by hand.
use crate::cases::{Case, EDEN, ROOTS, Turn, go};
use crate::commands::Act::{self, *};
use heap_command::Operand::{Int, Var};
use std::test::Fail;

/// A weak map at 7, with the object at 10, which has number 2, as the key of an integer, in a table of four pairs at
/// 19; and objects of numbers 3 and 4 at 13 and 16.
const ONE_ENTRY: [Act; 14] = [
    New(5, 4),
    Weak(0),
    New(1, 0),
    New(2, 0),
    New(3, 0),
    WPut(0, Var(1), Int(1)),
    Set(5, 0, Var(0)),
    Set(5, 1, Var(1)),
    Set(5, 2, Var(2)),
    Set(5, 3, Var(3)),
    Unbind(0),
    Unbind(1),
    Unbind(2),
    Unbind(3),
];

/// Entries are put, replaced and taken out, and the table then grows, and is young.
const ENTRIES: [Turn; 10] = [
    (Get(0, 5, 0), b"gwwwww", &[(ROOTS, 29)]),
    (Get(1, 5, 1), b"gwwwww", &[(ROOTS + 2, 41)]),
    (Get(2, 5, 2), b"gwwwww", &[(ROOTS + 4, 53)]),
    (Get(3, 5, 3), b"gwwwww", &[(ROOTS + 6, 65)]),
    (
        WPut(0, Var(3), Var(2)),
        b"gwwwww",
        &[(9, 2), (21, 65), (22, 53)],
    ),
    (WGet(4, 0, Var(3)), b"gwwwww", &[(ROOTS + 8, 53)]),
    (
        WPut(0, Var(3), Int(5)),
        b"gwwwww",
        &[(9, 2), (21, 65), (22, 10)],
    ),
    (WDel(0, Var(1)), b"gwwwww", &[(9, 1), (25, 7), (26, 7)]),
    (
        WPut(0, Var(1), Var(2)),
        b"gwwwww",
        &[(9, 2), (25, 41), (26, 53)],
    ),
    (
        WPut(0, Var(2), Int(9)),
        b"gwwwww",
        &[
            (8, 8_193),
            (9, 3),
            (EDEN, 18),
            (EDEN + 1, 8),
            (EDEN + 6, 41),
            (EDEN + 7, 53),
            (EDEN + 8, 53),
            (EDEN + 9, 18),
            (EDEN + 10, 65),
            (EDEN + 11, 10),
        ],
    ),
];

#[test]
fn a_pair_of_a_weak_map_shades_nothing(rt: HostRuntime) -> Result<(), Fail> {
    let entries = Case {
        before: &ONE_ENTRY,
        cells: &[0, 7, 10, 13, 16, 19],
        opened: (b"gwwwww", &[(8, 77), (9, 1), (21, 7), (25, 41), (26, 2)]),
        turns: &ENTRIES,
        after: &[
            (WGet(4, 0, Var(3)), &[(ROOTS + 8, 10)]),
            (WGet(4, 0, Var(1)), &[(ROOTS + 8, 53)]),
            (WGet(4, 0, Var(2)), &[(ROOTS + 8, 18)]),
        ],
    };
    go(&rt, rt.alloc(), entries)
}
