//! Which graphs images show: worked images, and forged ones, which are whole heaps all the same.
use crate::images::Change::{self, Word};
use crate::images::{Worked, image_of};
use crate::worked::{MIXED, USUAL};
use heap_check::check;
use heap_command::Command::{self, Del, DropVar, LetValue, List, New, Push, Set, WPut, Weak};
use heap_command::Operand::{Int, Undefined, Var};
use heap_model::HeapImage;
use ideal_graph::Ideal;
use slow_check::shows;
use std::alloc::Global;
use std::process::Abort;
use std::test::Fail;

pub(crate) const L: u32 = 0;

pub(crate) const M: u32 = 1;

pub(crate) const K: u32 = 2;

pub(crate) const D: u32 = 3;

const A: u32 = 0;

const B: u32 = 1;

/// The script of the usual heap.
const FIELD: [Command; 2] = [
    New { x: 0, cap: 2 },
    Set {
        x: 0,
        f: A,
        v: Int(1),
    },
];

/// The script of the mixed heap. Number 3, the key of an entry, is dead at its end.
pub(crate) const SCRIPT: [Command; 11] = [
    List { x: L },
    Weak { x: M },
    New { x: K, cap: 1 },
    Set {
        x: K,
        f: A,
        v: Int(7),
    },
    Push { x: L, v: Int(1) },
    Push {
        x: L,
        v: Int(5_000_000_000),
    },
    Push { x: L, v: Var(K) },
    WPut {
        m: M,
        k: Var(K),
        v: Int(9),
    },
    New { x: D, cap: 0 },
    WPut {
        m: M,
        k: Var(D),
        v: Var(L),
    },
    DropVar { x: D },
];

/// Changes of a worked image, commands behind its script, what differs with them, and whether the
/// image shows the graph.
type Case = (&'static [Change], &'static [Command], &'static str, bool);

const CASES: [(&Worked, &[Command], &[Case]); 2] = [
    (
        &USUAL,
        &FIELD,
        &[
            (&[], &[], "nothing", true),
            (
                &[Word(131_075, 4)],
                &[],
                "another value of the field",
                false,
            ),
            (
                &[Word(131_072, 4_294_967_366)],
                &[],
                "the number of no object",
                false,
            ),
            (&[Word(188_416, 11)], &[], "no binding", false),
            (&[Word(131_074, 524_289)], &[], "a prototype", false),
        ],
    ),
    (
        &MIXED,
        &SCRIPT,
        &[
            (&[], &[], "nothing", true),
            // Words on which the graph does not depend.
            (
                &[Word(2_072, 2)],
                &[],
                "another value under the dead key",
                true,
            ),
            (
                &[Word(2_071, 7), Word(2_072, 7), Word(2_053, 1)],
                &[],
                "no dead key",
                true,
            ),
            // Words that show another graph.
            (&[Word(2_063, 4)], &[], "another element", false),
            (
                &[Word(2_074, 5_000_000_001)],
                &[],
                "another integer in the box",
                false,
            ),
            (
                &[Word(2_065, 8_205)],
                &[],
                "another object as an element",
                false,
            ),
            (
                &[Word(2_065, 7), Word(2_050, 2)],
                &[],
                "an element less",
                false,
            ),
            (&[Word(2_057, 16)], &[], "another value of the field", false),
            (&[Word(2_056, 8_233)], &[], "a prototype", false),
            (
                &[Word(2_060, 8_217)],
                &[],
                "a prototype of a dead object",
                true,
            ),
            (
                &[Word(2_244, 8_205)],
                &[],
                "a variable bound to another object",
                false,
            ),
            (
                &[Word(2_246, 2)],
                &[],
                "a variable that is not unbound",
                false,
            ),
            (
                &[Word(2_244, 3)],
                &[],
                "a variable bound to undefined",
                false,
            ),
            (&[Word(2_070, 20)], &[], "another value of an entry", false),
            (
                &[Word(2_069, 7), Word(2_070, 7), Word(2_053, 1)],
                &[],
                "an entry less",
                false,
            ),
            (&[Word(2_071, 8_217)], &[], "two pairs of one key", false),
            (
                &[Word(2_071, 8_205)],
                &[],
                "a pair whose key is no entry's",
                false,
            ),
            (&[Word(2_058, 34)], &[], "a second place of the list", false),
            (
                &[Word(2_058, 17_179_869_218)],
                &[],
                "the number of no object",
                false,
            ),
            (
                &[Word(2_054, 12_884_901_958)],
                &[],
                "no place of the plain object",
                false,
            ),
            // Other graphs.
            (
                &[],
                &[LetValue { x: D, v: Undefined }],
                "one binding more",
                false,
            ),
            (
                &[],
                &[LetValue { x: 4, v: Int(1) }],
                "a variable without a root",
                false,
            ),
            (
                &[],
                &[
                    Set {
                        x: K,
                        f: B,
                        v: Int(1),
                    },
                    Del { x: K, f: B },
                ],
                "a path more",
                false,
            ),
            (
                &[],
                &[New { x: D, cap: 0 }, DropVar { x: D }],
                "a dead object more",
                true,
            ),
            (&[], &[New { x: D, cap: 0 }], "an object more", false),
        ],
    ),
];

/// The graph without objects; there are two names of fields.
pub(crate) fn empty(alloc: Global) -> Result<Ideal, Fail> {
    let mut names = Vec::new(alloc);
    for name in [b"a", b"b"] {
        names.push(Vec::from_slice(alloc, name)?)?;
    }
    match Ideal::new(alloc, names) {
        Ok(ideal) => Ok(ideal),
        Err(_) => Err(Fail::from("memory was refused")),
    }
}

/// The graph goes on with these commands.
pub(crate) fn go_on(rt: &impl Abort, ideal: &mut Ideal, commands: &[Command]) {
    for command in commands {
        assert!(rt; ideal.step(command).is_ok());
    }
}

/// Whether an image that is a whole heap shows the graph.
pub(crate) fn is_shown(alloc: Global, image: &HeapImage, ideal: &Ideal) -> Result<bool, Fail> {
    let Ok(_counts) = check(alloc, image) else {
        return Err(Fail::from("a flaw, or memory was refused"));
    };
    match shows(image, ideal) {
        Ok(answer) => Ok(answer),
        Err(_) => Err(Fail::from("memory was refused")),
    }
}

#[test]
fn a_whole_heap_shows_one_graph_alone(rt: HostRuntime) -> Result<(), Fail> {
    for (worked, script, cases) in &CASES {
        for (changes, more, what, expected) in *cases {
            let mut ideal = empty(rt.alloc())?;
            go_on(&rt, &mut ideal, script);
            go_on(&rt, &mut ideal, more);
            let image = image_of(&rt, rt.alloc(), worked, changes)?;
            assert_eq!(rt; is_shown(rt.alloc(), &image, &ideal)?, *expected, "{what}");
        }
    }
    Ok(())
}
