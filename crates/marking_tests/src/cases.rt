//! A case of a marking: what it is given before it begins, and what it marks.
ghost use Rattle.std.specs.Prelude.{◌≡◌};
ghost use Rattle.page_space.specs.Extents.{roots_start};
ghost use Rattle.heap_model.specs.Wholeness.{Whole};
ghost use Rattle.write_barrier.specs.MutatorState.{heap_of};

use crate::starts::give_all;
use cell_list::CellList;
use ephemeron_mark::{Marking, mark_given};
use std::process::Abort;
use write_barrier::Main;

/// What is given of a heap, as seen and not, and which cells and which weak maps are marked then.
pub(crate) struct Case {
    pub(crate) what: &'static str,
    pub(crate) seen: &'static [u32],
    pub(crate) given: &'static [u32],
    pub(crate) marked: &'static [u32],
    pub(crate) maps: &'static [u32],
}

/// Whether an address is listed.
fn is_listed(cells: &CellList, at: u32) -> bool {
    for place in 0..cells.len() {
        if cells.get(place) == at {
            return true;
        }
    }
    false
}

/// The marked cells are these, in any order.
fn are_marked(rt: &impl Abort, cells: &CellList, marked: &[u32], what: &str) {
    assert_eq!(rt; cells.len(), marked.len(), "{what}");
    for at in marked {
        assert!(rt; is_listed(cells, *at), "{what}: {at}");
    }
}

/// Whether two lists are the same.
fn are_same(list: &[u32], other: &[u32]) -> bool {
    list == other
}

/// Whether the heap has what the case gives. Then what is marked is what the case says.
fn marks(rt: &impl Abort, main: &Main, marking: &mut Marking, case: &Case) -> bool
    requires whole { Whole (heap_of main.now) }
    requires bound { marking.old.bound ≡ roots_start main.now.seat.space }
    ensures { marking.new.bound ≡ marking.old.bound }
{
    if !give_all(main, marking, case.seen, case.given) {
        return false;
    }
    mark_given(main, marking);
    are_marked(rt, marking.cells(), case.marked, case.what);
    assert!(rt; are_same(marking.maps(), case.maps), "{}", case.what);
    true
}

/// Each case is marked as it says, by one marking.
pub(crate) fn marks_each(rt: &impl Abort, main: &Main, marking: &mut Marking, cases: &[Case])
    requires whole { Whole (heap_of main.now) }
    requires bound { marking.old.bound ≡ roots_start main.now.seat.space }
{
    for case in cases {
        assert!(rt; marks(rt, main, marking, case), "{}", case.what);
    }
}
