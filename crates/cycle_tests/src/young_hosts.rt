//! Young objects in an open cycle: what is stored in them shades nothing, and they have no colour. Words are worked out
//! by hand.
use crate::cases::{Case, EDEN, ROOTS, Turn, go};
use crate::commands::Act::{self, *};
use heap_command::Operand::{Int, Var};
use std::test::Fail;

/// Objects at 5 and 8.
const TWO: [Act; 7] = [
    New(5, 2),
    New(0, 0),
    New(1, 0),
    Set(5, 0, Var(0)),
    Set(5, 1, Var(1)),
    Unbind(0),
    Unbind(1),
];

/// Each command on objects that are new; at last one of them comes to be referred to by a page.
const YOUNG: [Turn; 15] = [
    (Get(1, 5, 0), b"gww", &[(ROOTS + 2, 21)]),
    (Get(2, 5, 1), b"gww", &[(ROOTS + 4, 33)]),
    (
        New(0, 1),
        b"gww",
        &[(EDEN, 0x3_0000_0026), (EDEN + 3, 7), (ROOTS, 8_193)],
    ),
    (Set(0, 0, Var(1)), b"gww", &[(EDEN + 3, 21)]),
    (Set(0, 0, Int(1)), b"gww", &[(EDEN + 3, 2)]),
    (
        Set(0, 0, Int(1 << 40)),
        b"gww",
        &[(EDEN + 3, 8_209), (EDEN + 4, 22), (EDEN + 5, 1 << 40)],
    ),
    (
        Set(0, 1, Var(2)),
        b"gww",
        &[(EDEN + 1, 8_217), (EDEN + 8, 33)],
    ),
    (Del(0, 0), b"gww", &[(EDEN + 3, 33), (EDEN + 8, 7)]),
    (Proto(0, Var(1)), b"gww", &[(EDEN + 2, 21)]),
    (
        List(3),
        b"gww",
        &[(EDEN + 12, 0x4_0000_0006), (ROOTS + 6, 8_241)],
    ),
    (
        Push(3, Var(1)),
        b"gww",
        &[(EDEN + 13, 8_253), (EDEN + 17, 21)],
    ),
    (
        Shift(3, Int(1)),
        b"gww",
        &[(EDEN + 13, 8_257), (EDEN + 14, 0)],
    ),
    (Weak(4), b"gww", &[(EDEN + 21, 0x5_0000_000a)]),
    (
        WPut(4, Var(1), Var(2)),
        b"gww",
        &[(EDEN + 22, 8_289), (EDEN + 28, 21), (EDEN + 29, 33)],
    ),
    (Set(5, 0, Var(0)), b"gww", &[(3, 8_193)]),
];

#[test]
fn what_is_stored_in_young_objects_shades_nothing(rt: HostRuntime) -> Result<(), Fail> {
    let young = Case {
        before: &TWO,
        cells: &[0, 5, 8],
        opened: (b"gww", &[(3, 21), (4, 33)]),
        turns: &YOUNG,
        after: &[
            (Get(1, 5, 0), &[(ROOTS + 2, 8_193)]),
            (Get(1, 0, 1), &[(ROOTS + 2, 33)]),
            (WGet(3, 4, Var(2)), &[(ROOTS + 6, 3)]),
        ],
    };
    go(&rt, rt.alloc(), young)
}
