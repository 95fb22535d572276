//! Where an event is possible.
ghost use Rattle.std.specs.Prelude.{◌↔◌, ◌<◌, ◌≡◌, ◌≢◌, IsTrue, IsSomeAnd, slice_get, slice_index};
ghost use Rattle.mark_world.specs.Steps.{white};
ghost use Rattle.mark_world.specs.AfterEvents.{IsMarked, AsksWorld, MayStep, Possible, seats_out};

use crate::conditions::{may_helper, may_main};
use crate::lists::has;
use crate::spots::{actor, colour_at};
use mark_world::{Actor, Event, HelperView, World};

/// The most seats that may be out.
const SEATS_MOST: usize = 7;

/// Whether an event is possible in a world. Any world will do.
pub fn is_possible(world: &World, event: Event) -> bool
    ensures { IsTrue result ↔ Possible world.now event }
{
    match actor(event) {
        Actor::Mutator => may_main(world, event),
        Actor::Helper(helper) => may_step_of(world, helper, event),
        Actor::Lends => seats_out(world) < SEATS_MOST,
        Actor::Returns(helper) => is_out(world, helper),
    }
}

/// How many seats are out.
fn seats_out(world: &World) -> usize
    ensures { result ≡ seats_out world.now }
{
    world
        .helpers
        .as_slice()
        .iter()
        .filter(|view| view.out)
        .count()
}

/// Whether the seat of a helper is out.
fn is_out(world: &World, helper: u32) -> bool
    ensures { IsTrue result ↔ IsSomeAnd (slice_get world.now.helpers helper) (λ view. IsTrue view.out) }
{
    match world.helpers.as_slice().get(helper as usize) {
        Some(view) => view.out,
        None => false,
    }
}

/// Whether a cell is published and not white.
fn is_reached(world: &World, at: u32) -> bool
    ensures { IsTrue result ↔ IsMarked world.now at }
{
    has(world.main.starts.as_slice(), at) && is_coloured(world, at)
}

/// Whether a cell is not white.
fn is_coloured(world: &World, at: u32) -> bool
    ensures { IsTrue result ↔ (slice_index world.now.colours at ≢ white) }
{
    colour_at(world.colours.as_slice(), at) != 0
}

/// Whether the world has what an event asks of it beside the view of its seat.
fn asks_world(world: &World, event: Event) -> bool
    ensures { IsTrue result ↔ AsksWorld world.now event }
{
    match event {
        Event::LoadHeader { helper: _, cell } => is_reached(world, cell),
        _ => true,
    }
}

/// Whether a helper with this view may make a step.
fn may_step(world: &World, event: Event, view: &HelperView) -> bool
    ensures { IsTrue result ↔ MayStep world.now event view.now }
{
    view.out && may_helper(view, event) && asks_world(world, event)
}

/// Whether a helper may make a step.
fn may_step_of(world: &World, helper: u32, event: Event) -> bool
    ensures { IsTrue result
        ↔ IsSomeAnd (slice_get world.now.helpers helper) (MayStep world.now event) }
{
    match world.helpers.as_slice().get(helper as usize) {
        Some(view) => may_step(world, event, view),
        None => false,
    }
}
