//! Full heaps, and others: whether they keep exactly what can be reached, and how many words fit.
use crate::runs::{meant, run_kept};
use heap_check::check;
use heap_model::HeapImage;
use ideal_graph::Ideal;
use slow_check::{fits, is_exact};
use std::alloc::Global;
use std::test::Fail;
use std::thread::Threads;

/// What is kept of a run of a script with 64 young words: the status, how many words were wanted,
/// whether exactly what can be reached is kept, and how many words fit.
struct Case {
    script: &'static [u8],
    what: &'static str,
    ended: (u8, u32),
    exact: bool,
    most: u32,
}

const CASES: [Case; 9] = [
    Case {
        script: b"list l\nlist m\nlist n\nlet p undefined\n\
            repeat 210\nnew x 7\nset x n p\nlet p x\nend",
        what: "full of lists and of objects of 10 words",
        ended: (3, 10),
        exact: true,
        most: 9,
    },
    Case {
        script: b"let p undefined\nrepeat 529\nnew x 1\nset x n p\nlet p x\nend",
        what: "full of objects of 4 words",
        ended: (3, 4),
        exact: true,
        most: 0,
    },
    Case {
        script: b"weak m\nnew k 0\nwput m k 5000000000\ndrop k\nlet p undefined\n\
            repeat 211\nnew x 7\nset x n p\nlet p x\nend",
        what: "full, with a map whose key can't be reached",
        ended: (3, 10),
        exact: true,
        most: 5,
    },
    Case {
        script: b"let p undefined\nrepeat 10\nnew x 1\nset x n p\nlet p x\nend\ngc",
        what: "objects behind a collection",
        ended: (0, 0),
        exact: true,
        most: 2_008,
    },
    Case {
        script: b"let p undefined\nrepeat 10\nnew x 1\nset x n p\nlet p x\nend\ngc\nnew y 1\ndrop y",
        what: "and one that is dead",
        ended: (0, 0),
        exact: false,
        most: 2_008,
    },
    Case {
        script: b"new x 0\nset x a 1\nset x b 2\nset x c 3\nset x d 4\ngc\nset x e 5",
        what: "a store that a larger one replaced",
        ended: (0, 0),
        exact: false,
        most: 2_045,
    },
    Case {
        script: b"list l\npush l 1\npush l 2\ntrunc l 1",
        what: "free words in eden",
        ended: (0, 0),
        exact: false,
        most: 2_048,
    },
    Case {
        script: b"list l\npush l 1\npush l 2\ntrunc l 1\ngc",
        what: "none behind a collection",
        ended: (0, 0),
        exact: true,
        most: 2_042,
    },
    Case {
        script: b"list l\npush l 1\npush l 2\ngc\ntrunc l 1",
        what: "free words in a page",
        ended: (0, 0),
        exact: true,
        most: 2_042,
    },
];

/// Whether just so many words fit into an image that is a whole heap.
fn just_fit(alloc: Global, image: &HeapImage, most: u32) -> bool {
    let Some(more) = most.checked_add(1) else {
        return false;
    };
    match check(alloc, image) {
        Ok(_) => fits(image, most) && !fits(image, more),
        Err(_) => false,
    }
}

/// Whether an image keeps exactly what can be reached, and a check of it counts as many objects and entries.
fn counts_census(alloc: Global, image: &HeapImage, ideal: &mut Ideal) -> Result<bool, Fail> {
    let Ok(counts) = check(alloc, image) else {
        return Err(Fail::from("a flaw, or memory was refused"));
    };
    match (is_exact(image, ideal), ideal.reach()) {
        (Ok(exact), Ok(census)) => Ok(
            exact && counts.objects == census.objects && counts.entries == census.entries,
        ),
        _ => Err(Fail::from("memory was refused")),
    }
}

/// Whether what is kept of a script's run is what the case says: the status and the words that were
/// wanted; whether it is exact, as its counts are then the census; and how many words fit.
fn judged<R: Threads + Sync + AllocGlobal>(
    rt: &R,
    case: &Case,
) -> Result<((u8, u32), bool, bool), Fail> {
    let (status, kept) = run_kept(rt, "64", case.script)?;
    let mut ideal = meant(rt.alloc(), case.script, kept.executed)?;
    Ok((
        (status, kept.need),
        counts_census(rt.alloc(), &kept.image, &mut ideal)?,
        just_fit(rt.alloc(), &kept.image, case.most),
    ))
}

#[test]
fn a_full_heap_keeps_exactly_what_can_be_reached(rt: HostRuntime) -> Result<(), Fail> {
    for case in &CASES {
        let what = case.what;
        assert_eq!(rt;
            judged(&rt, case)?,
            (case.ended, case.exact, true),
            "{what}"
        );
    }
    Ok(())
}
