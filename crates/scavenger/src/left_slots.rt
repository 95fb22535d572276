//! The slots that helpers left, where these copied cells of eden first.
ghost use Rattle.std.specs.Prelude.{◌≡◌, ◌<◌, ◌≤◌, Bool, List, Some, length, slice_get};
ghost use Rattle.std.specs.Vec.{vec_capacity};
ghost use Rattle.page_space.specs.Extents.{roots_start};
ghost use Rattle.write_barrier.specs.MutatorState.{Mutator};
ghost use Rattle.scavenger.specs.Starts.{SegmentCopies};
ghost use Rattle.scavenger.specs.Walking.{AreSpaces, Scavenging, at_root};
ghost use Rattle.scavenger.specs.Handing.{HasLeft};

use crate::slots::follow;
use crate::spaces::Spaces;
use crate::worker::Worker;
use write_barrier::Main;

/// A slot, by its number.
fn slot_at(slots: &[u32], number: usize) -> u32
    requires { number < length slots.now }
    ensures { slice_get slots.now number ≡ Some result }
{
    slots[number]
}

/// Follows the slots that helpers left.
pub(crate) fn scavenge_left(main: &mut Main, spaces: &Spaces, worker: &mut Worker, left: &[u32])
    requires scavenging { (start : Mutator) × (handed : List SegmentCopies) × (all : Bool) ×
        AreSpaces main.old.seat.space main.old.young.half all spaces.now ×
        HasLeft start handed main.old all worker.old.progress worker.old.list.items left.now left.now }
    requires room { main.old.seat.space.sizes.young ≤ vec_capacity worker.old.list }
    ensures scavenging { (start : Mutator) (handed : List SegmentCopies) (all : Bool) →
        AreSpaces main.old.seat.space main.old.young.half all spaces.now →
        HasLeft start handed main.old all worker.old.progress worker.old.list.items left.now left.now →
        let root = roots_start main.new.seat.space in
        Scavenging start handed main.new all worker.new.progress worker.new.list.items (at_root root) }
    ensures capacity { vec_capacity worker.new.list ≡ vec_capacity worker.old.list }
{
    for number in 0..left.len() {
        let slot = slot_at(left, number);
        follow(main, spaces, worker, slot);
    }
}
