//! One event carried out.
ghost use Rattle.std.specs.Prelude.{◌≡◌, ◌<◌, OnOk, length, slice_get, slice_set, Some};
ghost use Rattle.mark_world.specs.declared.views.HelperView.{HelperView};
ghost use Rattle.mark_world.specs.Steps.{helper_learns, helper_spot};
ghost use Rattle.mark_core.specs.Locations.{FitsSpot};
ghost use Rattle.mark_world.specs.AfterEvents.{after, after_main, after_helper, after_return};

use crate::learning::{learn_main, take_back};
use crate::learning_helper::learn_helper;
use crate::spots::{actor, becomes, helper_spot, main_spot, put, word_of};
use mark_world::{Actor, Event, HelperView, Views, World};
use std::alloc::Global;
use tagged_word::NoMemory;

/// The world after an event, in its place. Nothing is asked of the event: one that is not possible
/// is carried out as defined. Without memory the world is left in part.
pub fn apply(alloc: Global, world: &mut World, event: Event) -> Result<(), NoMemory>
    ensures { OnOk result (world.exit.now ≡ after world.entry.now event) }
{
    match actor(event) {
        Actor::Mutator => step_main(alloc, world, event),
        Actor::Helper(helper) => step_helper(alloc, world, helper, event),
        Actor::Lends => world.helpers.push(HelperView::lent(alloc)),
        Actor::Returns(helper) => step_return(alloc, world, helper),
    }
}

/// The world after a step of the mutator.
fn step_main(alloc: Global, world: &mut World, event: Event) -> Result<(), NoMemory>
    ensures { OnOk result (world.exit.now ≡ after_main world.entry.now event) }
{
    let spot = main_spot(event);
    let found = word_of(world, spot);
    learn_main(alloc, world, event, found)?;
    put(world, spot, becomes(event, found));
    Ok(())
}

/// The views after a step of a helper, by the word found.
fn step_view(
    alloc: Global,
    old: u32,
    views: &mut Views,
    helper: u32,
    event: Event,
    found: u64,
) -> Result<(), NoMemory>
    requires there { helper < length views.old }
    requires fits { (view : HelperView) → slice_get views.old helper ≡ Some view →
        FitsSpot (helper_spot view event) found }
    ensures { OnOk result ((view : HelperView) → slice_get views.old helper ≡ Some view →
        views.new ≡ slice_set views.old helper (helper_learns old view event found)) }
{
    let mut view = views.replace(helper as usize, HelperView::returned(alloc));
    learn_helper(alloc, old, &mut view, event, found)?;
    views.set(helper as usize, view);
    Ok(())
}

/// The world after a step of a helper.
fn step_helper(alloc: Global, world: &mut World, helper: u32, event: Event) -> Result<(), NoMemory>
    ensures { let w = world.entry.now in OnOk result (world.exit.now
        ≡ after_helper w helper event (slice_get w.helpers helper)) }
{
    let Some(view) = world.helpers.as_slice().get(helper as usize) else {
        return Ok(());
    };
    let spot = helper_spot(view, event);
    let found = word_of(world, spot);
    step_view(alloc, world.old, &mut world.helpers, helper, event, found)?;
    put(world, spot, becomes(event, found));
    Ok(())
}

/// The world after a seat was taken back.
fn step_return(alloc: Global, world: &mut World, helper: u32) -> Result<(), NoMemory>
    ensures { let w = world.entry.now in OnOk result (world.exit.now
        ≡ after_return w helper (slice_get w.helpers helper)) }
{
    if helper as usize >= world.helpers.count() {
        return Ok(());
    }
    let view = world
        .helpers
        .replace(helper as usize, HelperView::returned(alloc));
    take_back(&mut world.main, &view)
}
