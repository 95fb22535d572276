//! What the mutator's steps make of the colours of four cells, in two cycles one after the other. What is expected is
//! worked out by hand.
ghost use Rattle.std.specs.Prelude.{IfOk, IsSome};
ghost use Rattle.table_tests.specs.OpenMains.{IsBareMain, IsMarkingMain};

use crate::kinds::put;
use crate::open_mains::{Step, begin, colours, end, make, put_words};
use crate::opened_mutators::opened;
use crate::waiting_mains::end_waiting;
use std::alloc::Global;
use std::test::Fail;
use tagged_word::NoMemory;
use tagged_word::cell::PLAIN_HEAD;
use write_barrier::Main;

/// Steps, each with the colours of the four cells after it.
type Steps<'a> = &'a [(Step, [u64; 4])];

/// Makes steps, and returns the number of the first one that is not possible, or after which a cell has another colour
/// than is said; how many there are if there is none.
fn first_wrong(alloc: Global, main: &mut Main, steps: Steps<'_>) -> Result<usize, NoMemory>
    requires marking { IsMarkingMain main.old }
    ensures marking { IsMarkingMain main.new }
{
    for (number, (step, wanted)) in steps.iter().enumerate() {
        if !make(main, *step) {
            return Ok(number);
        }
        if colours(alloc, main)? != *wanted {
            return Ok(number);
        }
    }
    Ok(steps.len())
}

/// What a cycle came to: the colours when it began, how many steps were as they should be, the colours when it waited
/// before its end, and the first slot of the page that refers to a young cell.
#[derive(Clone, Copy, Debug, PartialEq, Eq)]
struct Came {
    began: [u64; 4],
    right: usize,
    told: [u64; 4],
    recorded: Option<u32>,
}

/// Opens a cycle, makes steps, lets it wait, and closes it. Returns nothing where the four cells are none.
fn run(alloc: Global, main: &mut Main, steps: Steps<'_>) -> Result<Option<Came>, NoMemory>
    requires bare { IsBareMain main.old }
    ensures bare { IfOk result (λ came. IsSome came → IsBareMain main.new) }
{
    if !begin(alloc, main)? {
        return Ok(None);
    }
    let began = colours(alloc, main)?;
    let right = first_wrong(alloc, main, steps)?;
    let told = end_waiting(main);
    Ok(Some(Came {
        began,
        right,
        told,
        recorded: main.next_recorded(0),
    }))
}

/// What two cycles come to, one after the other: one with steps, and one with none. Between them one is dropped.
fn run_both(alloc: Global, main: &mut Main, steps: Steps<'_>) -> Result<Option<[Came; 2]>, NoMemory>
    requires bare { IsBareMain main.old }
{
    let Some(first) = run(alloc, main, steps)? else {
        return Ok(None);
    };
    if !begin(alloc, main)? {
        return Ok(None);
    }
    make(main, Step::Shade { at: 0 });
    end(main);
    let Some(second) = run(alloc, main, &[])? else {
        return Ok(None);
    };
    Ok(Some([first, second]))
}

/// The words of the four cells of a page, the steps of the mutator with the colours after each, and the first slot of
/// the page that refers to a young cell then.
#[derive(Clone, Copy)]
struct Case<'a> {
    name: &'static str,
    cells: [&'a [u64]; 4],
    steps: Steps<'a>,
    recorded: Option<u32>,
}

/// What the two cycles of a case come to, in a new heap.
fn come(alloc: Global, case: &Case<'_>) -> Result<Option<[Came; 2]>, NoMemory> {
    let mut main = opened(alloc)?;
    put_words(&mut main, 0, case.cells[0]);
    put_words(&mut main, 1_024, case.cells[1]);
    put_words(&mut main, 1_032, case.cells[2]);
    put_words(&mut main, 1_040, case.cells[3]);
    run_both(alloc, &mut main, case.steps)
}

/// A plain object with two slots, which hold `undefined`.
const PLAIN: [u64; 5] = [42, 3, 3, 3, 3];

/// A list of one item, its store, which refers to the fourth cell, and a list with no store.
const LIST: [u64; 3] = [6, 4_129, 1];

const STORE: [u64; 3] = [14, 1, 4_161];

const EMPTY: [u64; 3] = [6, 3, 0];

/// A weak map with one pair, and its table, whose pair refers to the fourth cell.
const WEAK: [u64; 3] = [10, 4_129, 1];

const TABLE: [u64; 4] = [18, 1, 4_161, 4_161];

/// The object refers to the list, and to a young cell; it is white until the end.
const CHAIN: [(Step, [u64; 4]); 8] = [
    (
        Step::InFirst {
            offset: PLAIN_HEAD,
            to: 1_024,
        },
        [0, 1, 0, 0],
    ),
    (
        Step::InFirst {
            offset: PLAIN_HEAD + 1,
            to: 2_048,
        },
        [0, 1, 0, 0],
    ),
    (Step::InYoung { to: 1_040 }, [0, 1, 0, 0]),
    (Step::Blacken { at: 2_048 }, [0, 1, 0, 0]),
    (Step::Wait, [0, 1, 0, 0]),
    (Step::Scan, [0, 2, 2, 2]),
    (Step::Wait, [0, 2, 2, 2]),
    (Step::Blacken { at: 0 }, [2, 2, 2, 2]),
];

/// The list is made black, and the object refers to the fourth cell when it is black itself.
const BLACKENED: [(Step, [u64; 4]); 6] = [
    (Step::Blacken { at: 1_024 }, [0, 2, 1, 0]),
    (Step::Blacken { at: 0 }, [2, 2, 1, 0]),
    (
        Step::InFirst {
            offset: PLAIN_HEAD,
            to: 1_040,
        },
        [2, 2, 1, 1],
    ),
    (Step::Shade { at: 0 }, [2, 2, 1, 1]),
    (Step::Wait, [2, 2, 1, 1]),
    (Step::Scan, [2, 2, 2, 2]),
];

/// A cell waits when the cycle ends.
const UNFINISHED: [(Step, [u64; 4]); 2] = [
    (Step::Wait, [0, 0, 0, 0]),
    (Step::Shade { at: 1_024 }, [0, 1, 0, 0]),
];

/// Only the last slot of the store refers to a cell.
const LONG: [(Step, [u64; 4]); 2] = [
    (Step::Shade { at: 0 }, [1, 0, 0, 0]),
    (Step::Scan, [2, 0, 0, 2]),
];

/// The table is visited, and not what its pair refers to.
const PAST_WEAK: [(Step, [u64; 4]); 3] = [
    (
        Step::InFirst {
            offset: PLAIN_HEAD,
            to: 1_024,
        },
        [0, 1, 0, 0],
    ),
    (Step::Scan, [0, 2, 2, 0]),
    (Step::Blacken { at: 0 }, [2, 2, 2, 0]),
];

/// The colours after the last step; white where there is none.
fn last_colours(steps: Steps<'_>) -> [u64; 4] {
    match steps {
        [.., (_, colours)] => *colours,
        [] => [0; 4],
    }
}

/// A store of 1,000 slots, of which the last refers to the fourth cell.
fn long_store(alloc: Global) -> Result<Vec<u64>, NoMemory> {
    let mut words = vec![in alloc; 10u64; 1_002]?;
    put(&mut words, 0, 14);
    put(&mut words, 1, 1_000);
    put(&mut words, 1_001, 4_161);
    Ok(words)
}

#[test]
fn the_mutator_shades_what_it_stores_in_pages_and_visits_what_waits(
    rt: HostRuntime,
) -> Result<(), Fail> {
    let alloc = rt.alloc();
    let long = long_store(alloc)?;
    let cases = [
        Case {
            name: "a chain",
            cells: [&PLAIN, &LIST, &STORE, &EMPTY],
            steps: &CHAIN,
            recorded: Some(PLAIN_HEAD + 1),
        },
        Case {
            name: "cells made black",
            cells: [&PLAIN, &LIST, &STORE, &EMPTY],
            steps: &BLACKENED,
            recorded: None,
        },
        Case {
            name: "a cycle that ends before its marking",
            cells: [&PLAIN, &LIST, &STORE, &EMPTY],
            steps: &UNFINISHED,
            recorded: None,
        },
        Case {
            name: "a store of 1,000",
            cells: [long.as_slice(), &LIST, &STORE, &EMPTY],
            steps: &LONG,
            recorded: None,
        },
        Case {
            name: "a weak table",
            cells: [&PLAIN, &WEAK, &TABLE, &EMPTY],
            steps: &PAST_WEAK,
            recorded: None,
        },
    ];
    for case in cases {
        let recorded = case.recorded;
        let first = Came {
            began: [0; 4],
            right: case.steps.len(),
            told: last_colours(case.steps),
            recorded,
        };
        let second = Came {
            right: 0,
            told: [0; 4],
            ..first
        };
        assert_eq!(rt; come(alloc, &case)?, Some([first, second]), "{}", case.name);
    }
    Ok(())
}
