//! Black cells that lead to white ones: while a helper is out, and after a scavenge.

use crate::changes;
use crate::marking::{CELLS, WORDS, hold_all, world};
use core_parts::Items;
use mark_world::World;
use std::alloc::Global;
use std::test::Fail;

/// A helper is out that settled the cell at 0: the cell is black, and 3, to which it refers, is white and to be
/// visited. With no seat out that cannot be.
const OUT: &str = "\
lend; shade 0; header 0 0; layout 0; load 0 1; settle 0 -> visit [3]; out true; \
    colours [2, 0, 0, 0, 0, 0, 0, 0, 0, 0, 0, 0, 0, 0, 0, 0, 0, 0, 0, 0]
then visit 0 3; return 0 -> grey [0, 3]; owed []; out false; \
    colours [2, 0, 0, 1, 0, 0, 0, 0, 0, 0, 0, 0, 0, 0, 0, 0, 0, 0, 0, 0]";

/// A scavenge promoted the cell at 10, which refers to 14 and 7. The mutator's part is done once both are shaded.
const PROMOTED: &str = "\
look -> mine [10]; sure []; owed []; open [10]
then shade 14 -> sure [14]; grey [14]; open [10]
then shade 7 -> sure [14, 7]; grey [14, 7]; open []";

/// The world of changes after a scavenge that promoted the cell at 10: it is black, and counts as made black.
fn promoted(alloc: Global) -> Result<World, Fail> {
    let mut start = world(alloc, changes::WORDS, changes::CELLS)?;
    let mut colours = vec![in alloc; 0u8; 2048]?;
    if let Some(colour) = colours.get_mut(10) {
        *colour = 2;
    }
    start.colours = Items::from_vec(colours);
    start.main.mine = Items::from_vec([10u32].to_vec(alloc)?);
    Ok(start)
}

#[test]
fn a_black_cell_leads_to_a_white_one_while_a_helper_is_out(rt: HostRuntime) -> Result<(), Fail> {
    let start = world(rt.alloc(), WORDS, CELLS)?;
    let mut now = start.copied(rt.alloc())?;
    hold_all(&rt, rt.alloc(), &start, &mut now, &[OUT])
}

#[test]
fn a_promoted_cell_is_done_once_its_targets_are_sure(rt: HostRuntime) -> Result<(), Fail> {
    let start = promoted(rt.alloc())?;
    let mut now = start.copied(rt.alloc())?;
    hold_all(&rt, rt.alloc(), &start, &mut now, &[PROMOTED])
}
