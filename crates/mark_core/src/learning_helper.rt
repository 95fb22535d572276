//! What a helper knows after a step of its own, by the word that it found.
ghost use Rattle.std.specs.Prelude.{◌≡◌, ◌<◌, OnOk, Some, None};
ghost use Rattle.std.specs.Option.{option_map};
ghost use Rattle.core_parts.specs.Boards.{giver_left, taker_joined};
ghost use Rattle.core_parts.specs.Lists.{left};
ghost use Rattle.mark_world.specs.Steps.{noted, helper_spot, helper_learns, snap_settled, with_slot};
ghost use Rattle.mark_world.specs.Steps.{with_layout, with_length, snap_begun, joined_if_white};
ghost use Rattle.mark_core.specs.Locations.{FitsSpot};
ghost use Rattle.mark_world.specs.declared.step.Spot.TheVariants as Spot;

use crate::learning::{join_taken, leave_given, note_colour};
use crate::lists::{join_if_white, snap_targets};
use core_parts::{Items, Note, leave};
use mark_world::{Event, HelperView, Snap, SnapSlot};
use std::alloc::Global;
use tagged_word::NoMemory;

/// What a helper knows once it has read a header.
fn begin(alloc: Global, view: &mut HelperView, cell: u32, found: u64) -> Result<(), NoMemory>
    ensures { OnOk result (view.new ≡ record view.old {
      snap = Some (snap_begun cell found);
      grey = left view.old.grey cell;
      log = noted view.old.log (Note.Loaded cell);
    }) }
{
    view.snap = Some(Snap {
        cell,
        header: found,
        layout: None,
        length: None,
        slots: Items::new(alloc),
    });
    leave(&mut view.grey, cell);
    view.log.push(Note::Loaded { at: cell })
}

/// The snap with a layout word that was read.
fn add_layout(snap: &mut Option<Snap>, found: u64)
    ensures { snap.new ≡ option_map (with_layout found) snap.old }
{
    if let Some(snap) = snap {
        snap.layout = Some(found);
    }
}

/// The snap with a length that was read.
fn add_length(snap: &mut Option<Snap>, found: u64)
    ensures { snap.new ≡ option_map (with_length found) snap.old }
{
    if let Some(snap) = snap {
        snap.length = Some(found);
    }
}

/// The snap with a slot that was read.
fn add_slot(snap: &mut Option<Snap>, offset: u32, found: u64) -> Result<(), NoMemory>
    ensures { OnOk result (snap.new ≡ option_map (with_slot offset found) snap.old) }
{
    if let Some(snap) = snap {
        snap.slots.push(SnapSlot {
            offset,
            word: found,
        })?;
    }
    Ok(())
}

/// What a helper knows once its snap has ended.
fn settle(alloc: Global, old: u32, view: &mut HelperView, found: u64) -> Result<(), NoMemory>
    requires { FitsSpot (option_map (λ snap. Spot.Colour snap.cell) view.old.snap) found }
    ensures { OnOk result (view.new ≡ snap_settled old view.old found view.old.snap) }
{
    match view.snap.take() {
        Some(snap) => end_snap(alloc, old, view, found, snap),
        None => Ok(()),
    }
}

/// What a helper knows once this snap has ended.
fn end_snap(
    alloc: Global,
    old: u32,
    view: &mut HelperView,
    found: u64,
    snap: Snap,
) -> Result<(), NoMemory>
    requires found { found < 256 }
    requires taken { view.old.snap ≡ None }
    ensures { OnOk result (view.new ≡ snap_settled old view.old found (Some snap)) }
{
    if found == 1 {
        view.visit = snap_targets(alloc, old, &snap)?;
    }
    note_colour(&mut view.log, snap.cell, found)?;
    view.last = Some(snap);
    Ok(())
}

/// What a helper knows once it has shaded a cell.
fn shade_visited(view: &mut HelperView, at: u32, found: u64) -> Result<(), NoMemory>
    requires { found < 256 }
    ensures { OnOk result (view.new ≡ record view.old {
      visit = left view.old.visit at;
      grey = joined_if_white view.old.grey found at;
      log = noted view.old.log (Note.Coloured at found);
    }) }
{
    leave(&mut view.visit, at);
    join_if_white(&mut view.grey, found, at)?;
    note_colour(&mut view.log, at, found)
}

/// What a helper knows once it has given a cell to the board.
fn give_on(view: &mut HelperView, place: u32, at: u32, found: u64) -> Result<(), NoMemory>
    ensures { OnOk result (view.new ≡ record view.old {
      grey = giver_left view.old.grey found at;
      log = noted view.old.log (Note.Gave place found);
    }) }
{
    leave_given(&mut view.grey, found, at);
    view.log.push(Note::Gave { place, found })
}

/// What a helper knows once it has taken a cell from the board.
fn take_up(view: &mut HelperView, place: u32, found: u64) -> Result<(), NoMemory>
    ensures { OnOk result (view.new ≡ record view.old {
      grey = taker_joined view.old.grey found;
      log = noted view.old.log (Note.Took place found);
    }) }
{
    join_taken(&mut view.grey, found)?;
    view.log.push(Note::Took { place, found })
}

/// What a helper knows after a step of its own, by the word found.
pub(crate) fn learn_helper(
    alloc: Global,
    old: u32,
    view: &mut HelperView,
    event: Event,
    found: u64,
) -> Result<(), NoMemory>
    requires { FitsSpot (helper_spot view.old event) found }
    ensures { OnOk result (view.new ≡ helper_learns old view.old event found) }
{
    match event {
        Event::LoadHeader { helper: _, cell } => begin(alloc, view, cell, found),
        Event::LoadLayout { helper: _ } => {
            add_layout(&mut view.snap, found);
            Ok(())
        }
        Event::LoadLength { helper: _ } => {
            add_length(&mut view.snap, found);
            Ok(())
        }
        Event::LoadSlot { helper: _, offset } => add_slot(&mut view.snap, offset, found),
        Event::Settle { helper: _ } => settle(alloc, old, view, found),
        Event::ShadeHelper { helper: _, at } => shade_visited(view, at, found),
        Event::Give {
            helper: _,
            place,
            at,
        } => give_on(view, place, at, found),
        Event::Take { helper: _, place } => take_up(view, place, found),
        _ => Ok(()),
    }
}
