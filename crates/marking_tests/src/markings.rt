//! What a marking marks that is given some cells before it begins.
use crate::cases::{Case, marks_each};
use crate::left_heaps::left_by;
use ephemeron_mark::Marking;
use std::process::Abort;
use std::test::Fail;
use std::thread::Threads;

/// A heap that a script leaves, and cases of it.
type Cases = (&'static str, &'static [Case]);

/// At 2,048, 2,052 and 2,056 three objects in a chain, to which no variable refers any more, and at 2,060 one that `w`
/// is bound to.
const CHAIN: Cases = (
    "new x 1\nnew y 1\nnew z 1\nnew w 0\nset x n y\nset y n z\nset z n 7\ndrop x\ndrop y\ndrop z",
    &[
        Case {
            what: "nothing is given",
            seen: &[],
            given: &[],
            marked: &[2_060],
            maps: &[],
        },
        Case {
            what: "the chain is given as seen",
            seen: &[2_048, 2_052, 2_056],
            given: &[],
            marked: &[2_048, 2_052, 2_056, 2_060],
            maps: &[],
        },
        Case {
            what: "the first of the chain is seen, and leads to a given one",
            seen: &[2_048],
            given: &[2_052],
            marked: &[2_048, 2_052, 2_056, 2_060],
            maps: &[],
        },
        Case {
            what: "the last one is given",
            seen: &[],
            given: &[2_056],
            marked: &[2_056, 2_060],
            maps: &[],
        },
    ],
);

/// In the page a map at 0, two keys at 3 and 6, the table of 4 pairs that the map outgrew at 9, and the boxes of the
/// two values at 19 and 21. In eden a third key at 2,048, the map's table at 2,051, and the box of the third value at
/// 2,069. The first two keys are bound to no variable.
const MAP: Cases = (
    "weak m\nnew g 0\nnew d 0\nwput m g 5000000000\nwput m d 5000000001\nmark\n\
        new y 0\nwput m y 5000000002\ndrop g\ndrop d",
    &[
        Case {
            what: "no start: one key is live",
            seen: &[],
            given: &[],
            marked: &[0, 2_048, 2_051, 2_069],
            maps: &[0],
        },
        Case {
            what: "all live cells are seen",
            seen: &[0, 2_048, 2_051, 2_069],
            given: &[],
            marked: &[0, 2_048, 2_051, 2_069],
            maps: &[0],
        },
        Case {
            what: "the map is seen: a given key, a young one, and a dead one",
            seen: &[0],
            given: &[3],
            marked: &[0, 3, 19, 2_048, 2_051, 2_069],
            maps: &[0],
        },
        Case {
            what: "the given key is seen too",
            seen: &[3, 0],
            given: &[],
            marked: &[0, 3, 19, 2_048, 2_051, 2_069],
            maps: &[0],
        },
    ],
);

/// An object at 2,048, a list at 2,051 with its store at 2,060, and at 2,054 the store that the list outgrew, which
/// alone refers to the object.
const STORE: Cases = (
    "new x 0\nlist l\npush l x\npush l 1\npush l 1\npush l 1\npush l 1\nput l 0 1\ndrop x",
    &[
        Case {
            what: "no start: the list and its store are live",
            seen: &[],
            given: &[],
            marked: &[2_051, 2_060],
            maps: &[],
        },
        Case {
            what: "all live cells are seen, in another order",
            seen: &[2_060, 2_051],
            given: &[],
            marked: &[2_051, 2_060],
            maps: &[],
        },
        Case {
            what: "a store is given that no object names",
            seen: &[],
            given: &[2_054],
            marked: &[2_048, 2_051, 2_054, 2_060],
            maps: &[],
        },
        Case {
            what: "it is seen, and leads to a given object",
            seen: &[2_054],
            given: &[2_048],
            marked: &[2_048, 2_051, 2_054, 2_060],
            maps: &[],
        },
    ],
);

/// Each case of the heap that a script leaves is marked as it says.
fn marks_heap<R: Threads + Sync + Abort + AllocGlobal>(
    rt: &R,
    script: &str,
    cases: &[Case],
) -> Result<(), Fail> {
    let heap = left_by(rt, script.as_bytes())?;
    let main = heap.main();
    let regions = main.regions();
    assert!(rt; regions.variables() > 0);
    let mut marking = Marking::new(rt.alloc(), regions.root_at(0))?;
    marks_each(rt, main, &mut marking, cases);
    Ok(())
}

#[test]
fn a_marking_marks_what_is_live_from_its_starts(rt: HostRuntime) -> Result<(), Fail> {
    for (script, cases) in &[CHAIN, MAP, STORE] {
        marks_heap(&rt, script, cases)?;
    }
    Ok(())
}
