//! Live slots, rooms, and words that are in no home copy.
ghost use Rattle.std.specs.Prelude.{◌≡◌, ◌+◌, ◌<◌, ◌^◌};
ghost use Rattle.std.specs.List.{list_any};
ghost use Rattle.scav_copy.specs.Places.{cell_before, size_of};
ghost use Rattle.scav_core.specs.Worlds.{fixed_of};
ghost use Rattle.scav_core.specs.Possible.{is_copied_slot, is_live, is_disjoint, is_free, is_in_room};
ghost use Rattle.scav_core.specs.Possible.{is_in_own_room};

use crate::world::World;
use core_parts::read_cell;
use scav_copy::{Home, Room};
use tagged_word::Reading;

/// Whether the slot is one of `slots`, or one of a home copy.
pub(crate) fn is_live(world: &World, slot: u32) -> bool
    ensures { result ≡ is_live (fixed_of world.now) world.now.homes slot }
{
    let is_outside = world.slots.as_slice().contains(&slot);
    let is_copied = is_slot_of_copies(world, slot);
    is_outside || is_copied
}

/// Whether the slot is one of a home copy.
fn is_slot_of_copies(world: &World, slot: u32) -> bool
    ensures { result ≡ list_any (λ home. is_copied_slot (fixed_of world.now) slot home) world.now.homes }
{
    world
        .homes
        .as_slice()
        .iter()
        .any(|home| is_copied_slot(world, slot, *home))
}

/// Whether the slot is one of the home copy.
fn is_copied_slot(world: &World, slot: u32, home: Home) -> bool
    ensures { result ≡ is_copied_slot (fixed_of world.now) slot home }
{
    if slot < home.to {
        return false;
    }
    match cell_before(world, home.from) {
        None => false,
        Some(cell) => cell.layout.is_scavenge_slot(cell.length, slot - home.to),
    }
}

/// The cell that stood at an address before.
#[tactic(auto, unfolding(scav_copy::specs::Places::cell_before))]
fn cell_before(world: &World, at: u32) -> Option<Reading>
    ensures { result ≡ cell_before (fixed_of world.now) at }
{
    read_cell(
        world.before.as_slice(),
        world.layouts.as_slice(),
        at,
        u32::MAX,
    )
}

/// How many words the cell has that stood at an address before.
fn size_of(world: &World, cell: u32) -> u32
    ensures { result ≡ size_of (fixed_of world.now) cell }
{
    match cell_before(world, cell) {
        None => 0,
        Some(cell) => cell.size,
    }
}

/// Whether so many words from an address on share none with the home copy.
fn is_disjoint(world: &World, first: u64, many: u64, home: Home) -> bool
    requires { first + many < 2 ^ 64 }
    ensures { result ≡ is_disjoint (fixed_of world.now) first many home }
{
    let size = size_of(world, home.from);
    let end = home.to as u64 + size as u64;
    let is_before = end <= first;
    let is_behind = first + many <= home.to as u64;
    size == 0 || is_before || is_behind
}

/// Whether they share none with any home copy.
pub(crate) fn is_free(world: &World, first: u64, many: u64) -> bool
    requires { first + many < 2 ^ 64 }
    ensures { result ≡ is_free (fixed_of world.now) world.now.homes first many }
{
    world
        .homes
        .as_slice()
        .iter()
        .all(|home| is_disjoint(world, first, many, *home))
}

/// Whether they lie in the room, and that is the worker's.
fn is_in_room(worker: u32, first: u64, many: u64, room: Room) -> bool
    requires { first + many < 2 ^ 64 }
    ensures { result ≡ is_in_room worker first many room }
{
    let is_own = room.worker == worker;
    let is_from = room.from as u64 <= first;
    let ends = first + many <= room.to as u64;
    is_own && is_from && ends
}

/// Whether they lie in one room of the worker's.
pub(crate) fn is_in_own_room(rooms: &[Room], worker: u32, first: u64, many: u64) -> bool
    requires { first + many < 2 ^ 64 }
    ensures { result ≡ is_in_own_room rooms.now worker first many }
{
    rooms
        .iter()
        .any(|room| is_in_room(worker, first, many, *room))
}
