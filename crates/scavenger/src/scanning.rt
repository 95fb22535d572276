//! The slots that a scavenge follows, in order: those of the variables, the recorded ones, and then those
//! of the copies on the list.
ghost use Rattle.std.specs.Prelude.{◌≡◌, ℕ, ◌+◌, ◌≤◌, ◌<◌, Bool, List, [], All, Contains};
ghost use Rattle.std.specs.Vec.{vec_capacity};
ghost use Rattle.tagged_word.specs.Cells.{scavenge_offsets};
ghost use Rattle.page_space.specs.Extents.{eden_start, layouts_start, roots_start};
ghost use Rattle.write_barrier.specs.MutatorState.{Mutator};
ghost use Rattle.scav_copy.specs.declared.places.Home.{Home};
ghost use Rattle.scavenger.specs.declared.progress.Progress.{Progress};
ghost use Rattle.scavenger.specs.Starts.{SegmentCopies};
ghost use Rattle.scavenger.specs.Filling.{ChangesWords, Front};
ghost use Rattle.scavenger.specs.Walking.{AreSpaces, HasGrown, IsCopyAt, IsCopyOf, IsScanned, MayScan, Scavenging};
ghost use Rattle.scavenger.specs.Walking.{at_copy, at_recorded, at_root};

use crate::slots::follow;
use crate::spaces::Spaces;
use crate::worker::Worker;
use cell_layout::Cell;
use heap_walk::known_cell;
use tagged_word::Kind;
use tagged_word::cell::{PLAIN_HEAD, STORE_HEAD, STORE_SLOT};
use write_barrier::Main;

/// Follows the first root word of each variable.
pub(crate) fn scavenge_roots(main: &mut Main, spaces: &Spaces, worker: &mut Worker)
    requires scavenging { (start : Mutator) × (handed : List SegmentCopies) × (all : Bool) ×
        AreSpaces main.old.seat.space main.old.young.half all spaces.now ×
        let root = roots_start main.old.seat.space in
        Scavenging start handed main.old all worker.old.progress worker.old.list.items (at_root root) }
    requires room { main.old.seat.space.sizes.young ≤ vec_capacity worker.old.list }
    ensures scavenging { (start : Mutator) (handed : List SegmentCopies) (all : Bool) →
        AreSpaces main.old.seat.space main.old.young.half all spaces.now →
        let root = roots_start main.old.seat.space in
        Scavenging start handed main.old all worker.old.progress worker.old.list.items (at_root root) →
        let end = layouts_start main.old.seat.space in
        Scavenging start handed main.new all worker.new.progress worker.new.list.items (at_root end) }
    ensures capacity { vec_capacity worker.new.list ≡ vec_capacity worker.old.list }
{
    let regions = main.regions();
    for variable in 0..regions.variables() {
        follow(main, spaces, worker, regions.root_at(variable));
    }
}

/// Follows the recorded slots in order.
pub(crate) fn scavenge_recorded(main: &mut Main, spaces: &Spaces, worker: &mut Worker)
    requires scavenging { (start : Mutator) × (handed : List SegmentCopies) × (all : Bool) × (end : ℕ) ×
        AreSpaces main.old.seat.space main.old.young.half all spaces.now ×
        Scavenging start handed main.old all worker.old.progress worker.old.list.items (at_recorded end 0) }
    requires room { main.old.seat.space.sizes.young ≤ vec_capacity worker.old.list }
    ensures scavenging { (start : Mutator) (handed : List SegmentCopies) (all : Bool) (end : ℕ) →
        AreSpaces main.old.seat.space main.old.young.half all spaces.now →
        Scavenging start handed main.old all worker.old.progress worker.old.list.items (at_recorded end 0) →
        let eden = eden_start main.old.seat.space in
        Scavenging start handed main.new all worker.new.progress worker.new.list.items (at_recorded end eden) }
    ensures capacity { vec_capacity worker.new.list ≡ vec_capacity worker.old.list }
{
    // No address is past 32 bits.
    main.addresses_fit();
    let mut from = 0;
    'recorded: while let Some(slot) = main.next_recorded(from) {
        follow(main, spaces, worker, slot);
        from = slot + 1;
    }
}

/// The cell that the copy at an address is.
fn copy_at(main: &Main, at: u32) -> Cell
    requires { IsCopyAt main.now at }
    ensures { (start : Mutator) (handed : List SegmentCopies) (all : Bool) (progress : Progress) (todo : List ℕ)
        (front : Front) (state : Scavenging start handed main.now all progress todo front) (home : Home) →
        Contains state.homes home → home.to ≡ at → IsCopyOf state.fixed home result }
{
    known_cell(main, at)
}

/// Follows each slot of a copy. They stand before an offset, up to which each offset is tried.
#[inline(always)]
fn follow_before(main: &mut Main, spaces: &Spaces, worker: &mut Worker, cell: &Cell, slots_end: u32)
    requires scanned { MayScan main.old spaces.now worker.old.progress worker.old.list.items cell.now }
    requires room { main.old.seat.space.sizes.young ≤ vec_capacity worker.old.list }
    requires ends { All (λ offset. offset < slots_end) (scavenge_offsets cell.now.layout cell.now.length) }
    ensures scavenging { (start : Mutator) (handed : List SegmentCopies) (all : Bool) (end : ℕ) →
        AreSpaces main.old.seat.space main.old.young.half all spaces.now →
        let eden = eden_start main.old.seat.space in
        let front = at_copy end eden cell.now.at (cell.now.at + cell.now.size) in
        IsScanned start handed main.old all worker.old.progress worker.old.list.items cell.now front →
        Scavenging start handed main.new all worker.new.progress worker.new.list.items (at_copy end eden 0 0) }
    ensures grows { HasGrown worker.old.progress worker.new.progress worker.old.list.items worker.new.list.items }
    ensures keeps { ChangesWords main.old main.new }
    ensures capacity { vec_capacity worker.new.list ≡ vec_capacity worker.old.list }
{
    // No address is past 32 bits.
    main.addresses_fit();
    for offset in STORE_SLOT..slots_end {
        if cell.layout.is_scavenge_slot(cell.length, offset) {
            follow(main, spaces, worker, cell.at + offset);
        }
    }
}

/// Follows each slot of a copy.
fn follow_slots(main: &mut Main, spaces: &Spaces, worker: &mut Worker, cell: &Cell)
    requires scanned { MayScan main.old spaces.now worker.old.progress worker.old.list.items cell.now }
    requires room { main.old.seat.space.sizes.young ≤ vec_capacity worker.old.list }
    ensures scavenging { (start : Mutator) (handed : List SegmentCopies) (all : Bool) (end : ℕ) →
        AreSpaces main.old.seat.space main.old.young.half all spaces.now →
        let eden = eden_start main.old.seat.space in
        let front = at_copy end eden cell.now.at (cell.now.at + cell.now.size) in
        IsScanned start handed main.old all worker.old.progress worker.old.list.items cell.now front →
        Scavenging start handed main.new all worker.new.progress worker.new.list.items (at_copy end eden 0 0) }
    ensures grows { HasGrown worker.old.progress worker.new.progress worker.old.list.items worker.new.list.items }
    ensures keeps { ChangesWords main.old main.new }
    ensures capacity { vec_capacity worker.new.list ≡ vec_capacity worker.old.list }
{
    // Plain cells and stores have most of the slots: their loops do not ask for the kind at each.
    match cell.layout.kind {
        Kind::Plain => {
            let slots_end = PLAIN_HEAD + cell.layout.used;
            follow_before(main, spaces, worker, cell, slots_end);
        }
        Kind::Store => {
            let slots_end = STORE_HEAD + cell.length as u32;
            follow_before(main, spaces, worker, cell, slots_end);
        }
        _ => follow_before(main, spaces, worker, cell, cell.size),
    }
}

/// Follows the slots of all copies on the list, also of those that are made on the way.
pub(crate) fn scavenge_copies(main: &mut Main, spaces: &Spaces, worker: &mut Worker)
    requires scavenging { (start : Mutator) × (handed : List SegmentCopies) × (all : Bool) × (end : ℕ) ×
        AreSpaces main.old.seat.space main.old.young.half all spaces.now ×
        let front = at_copy end (eden_start main.old.seat.space) 0 0 in
        Scavenging start handed main.old all worker.old.progress worker.old.list.items front }
    requires room { main.old.seat.space.sizes.young ≤ vec_capacity worker.old.list }
    ensures scavenging { (start : Mutator) (handed : List SegmentCopies) (all : Bool) (end : ℕ) →
        AreSpaces main.old.seat.space main.old.young.half all spaces.now →
        let front = at_copy end (eden_start main.old.seat.space) 0 0 in
        Scavenging start handed main.old all worker.old.progress worker.old.list.items front →
        Scavenging start handed main.new all worker.new.progress [] front }
    ensures empty { worker.new.list.items ≡ [] }
    ensures capacity { vec_capacity worker.new.list ≡ vec_capacity worker.old.list }
{
    'copies: while let Some(at) = worker.list.pop() {
        let cell = copy_at(main, at);
        follow_slots(main, spaces, worker, &cell);
    }
}
