//! Whether worked images keep exactly what can be reached, and how many words fit into them.
use crate::images::Change::{self, Survivors, Used, Word};
use crate::images::{Worked, image_of};
use crate::shown_graphs::{D, K, L, M, SCRIPT, empty, go_on, is_shown};
use crate::worked::{MIXED, OLD};
use heap_check::check;
use heap_command::Command::{self, DropVar, LetValue, Put, Trunc, WDel};
use heap_command::Operand::{Int, Var};
use heap_model::HeapImage;
use ideal_graph::Ideal;
use slow_check::{fits, is_exact};
use std::alloc::Global;
use std::test::Fail;

/// Changes of the mixed heap, commands behind its script but for the last, which lets number 3 go;
/// what it has with them; whether it shows the graph, and whether it keeps exactly what can be reached.
type Case = (
    &'static [Change],
    &'static [Command],
    &'static str,
    (bool, bool),
);

/// The variable of number 3 refers to it.
const BOUND: Change = Word(2_246, 8_233);

/// The second element is 1, and no box.
const UNBOXED: Change = Word(2_064, 2);

const PUT: Command = Put {
    x: L,
    i: Int(1),
    v: Int(1),
};

const CASES: [Case; 11] = [
    (&[BOUND], &[], "nothing", (true, true)),
    (&[], &[DropVar { x: D }], "a dead key", (true, false)),
    (&[BOUND, UNBOXED], &[PUT], "a dead box", (true, false)),
    (
        &[BOUND, UNBOXED, Used(25), Word(2_073, 0), Word(2_074, 0)],
        &[PUT],
        "no box",
        (true, true),
    ),
    (
        &[BOUND, UNBOXED, Word(2_073, 30), Word(2_074, 2)],
        &[PUT],
        "free words in eden",
        (true, false),
    ),
    (
        &[
            BOUND,
            UNBOXED,
            Used(25),
            Word(2_073, 0),
            Word(2_074, 0),
            Word(2_049, 3),
            Word(2_050, 0),
        ],
        &[Trunc { x: L, n: Int(0) }],
        "a dead store",
        (true, false),
    ),
    (
        &[BOUND, Word(2_052, 3), Word(2_053, 0)],
        &[WDel { m: M, k: Var(K) }, WDel { m: M, k: Var(D) }],
        "a dead table",
        (true, false),
    ),
    (
        &[BOUND, Word(0, 26), Word(1, 30), Word(2, 2_047)],
        &[],
        "two free cells in the page",
        (true, true),
    ),
    (
        &[BOUND, Survivors(1), Word(2_176, 26)],
        &[],
        "a free word in a segment",
        (true, false),
    ),
    (
        &[BOUND, Survivors(2), Word(2_176, 22), Word(2_177, 7)],
        &[],
        "a dead box in a segment",
        (true, false),
    ),
    (
        &[BOUND],
        &[LetValue { x: K, v: Int(1) }],
        "another binding",
        (false, false),
    ),
];

/// The heap with old cells, with stores of 1,000, 1,000 and 23 behind the last list, at 19, 1,021 and
/// 2,023: those of the lists of numbers 2, 1 and 3. A free cell fills the young generation.
const BUSY: Worked = Worked {
    survivors: 58,
    stretches: &[
        (0, &[6, 13, 2, 14, 3, 8_193, 2, 7]),
        (8, &[26, 4_294_967_302, 4_085, 1_000]),
        (12, &[30, 4, 0, 0]),
        (16, &[8_589_934_598, 77, 1_000, 14, 1_000]),
        (1_021, &[14, 1_000]),
        (2_023, &[14, 23]),
        (2_048, &[12_884_901_894, 8_093, 23]),
        (2_051, &[14, 1, 37]),
        (2_176, &[30, 58]),
        (2_240, &[1, 0]),
    ],
    ..OLD
};

/// Changes of a worked heap, what it has with them, and how many words fit.
type Room = (&'static Worked, &'static [Change], &'static str, u32);

const ROOMS: [Room; 7] = [
    (&OLD, &[], "a gap behind the last list", 2_029),
    (&BUSY, &[], "one free word, and four", 4),
    (
        &BUSY,
        &[Word(1, 3), Word(2, 0)],
        "a dead store before the free word",
        6,
    ),
    (
        &BUSY,
        &[Word(9, 14), Word(10, 1), Word(11, 2), Word(2_053, 2)],
        "a dead store in the place of a list, and that of the list",
        1_002,
    ),
    (
        &BUSY,
        &[
            Word(1, 4_085),
            Word(2, 1_000),
            Word(9, 14),
            Word(10, 1),
            Word(11, 2),
            Word(2_053, 2),
        ],
        "two dead stores and free words between them and behind",
        13,
    ),
    (
        &BUSY,
        &[Survivors(53), Word(2_177, 53)],
        "five young words",
        5,
    ),
    (
        &BUSY,
        &[Survivors(0), Word(2_176, 0), Word(2_177, 0)],
        "no survivor",
        58,
    ),
];

/// Whether an image that is a whole heap keeps exactly what can be reached.
fn is_kept(alloc: Global, image: &HeapImage, ideal: &Ideal) -> Result<bool, Fail> {
    let Ok(_counts) = check(alloc, image) else {
        return Err(Fail::from("a flaw, or memory was refused"));
    };
    match is_exact(image, ideal) {
        Ok(exact) => Ok(exact),
        Err(_) => Err(Fail::from("memory was refused")),
    }
}

/// Whether just so many words fit into an image that is a whole heap.
fn just_fit(alloc: Global, image: &HeapImage, most: u32) -> bool {
    let Some(more) = most.checked_add(1) else {
        return false;
    };
    match check(alloc, image) {
        Ok(_) => fits(image, most) && !fits(image, more),
        Err(_) => false,
    }
}

#[test]
fn a_heap_is_exact_where_each_cell_of_it_is_reached(rt: HostRuntime) -> Result<(), Fail> {
    for (changes, more, what, expected) in &CASES {
        let mut ideal = empty(rt.alloc())?;
        go_on(&rt, &mut ideal, &SCRIPT[..10]);
        go_on(&rt, &mut ideal, more);
        let image = image_of(&rt, rt.alloc(), &MIXED, changes)?;
        let shown = is_shown(rt.alloc(), &image, &ideal)?;
        let exact = is_kept(rt.alloc(), &image, &ideal)?;
        assert_eq!(rt; (shown, exact), *expected, "{what}");
    }
    Ok(())
}

#[test]
fn words_fit_where_dead_ones_stand_one_behind_another(rt: HostRuntime) -> Result<(), Fail> {
    for (worked, changes, what, most) in &ROOMS {
        let image = image_of(&rt, rt.alloc(), worked, changes)?;
        assert!(rt; just_fit(rt.alloc(), &image, *most), "{what}");
    }
    Ok(())
}
