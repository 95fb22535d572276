//! Visiting the cells that were given as seen: they lead to given cells, but for weak maps.
//!
//! They are looked at before any other cell, and no pair waits for them: a pair waits for a key that is not marked, and
//! they were marked before any pair was looked at.
ghost use Rattle.std.specs.Prelude.{◌≡◌, ℕ, ◌≤◌, ◌<◌, [], Contains, length, false};
ghost use Rattle.std.specs.Vec.{vec_capacity};
ghost use Rattle.tagged_word.specs.declared.layout.Kind.TheVariants.{Weak, Table};
ghost use Rattle.heap_model.specs.Types.{Cell};
ghost use Rattle.heap_model.specs.Slots.{IsWeakCellAt};
ghost use Rattle.live_cells.specs.Live.{HasSlotTo};
ghost use Rattle.write_barrier.specs.MutatorState.{heap_of};
ghost use Rattle.ephemeron_mark.specs.Pairs.{WaitsFor};
ghost use Rattle.ephemeron_mark.specs.Progress.{IsMarking, HasGrown, IsCellOf, AreWaiting, WaitsMore, IsVisited};
ghost use Rattle.ephemeron_mark.specs.Progress.{LeadOn, AreVisited, AreMapsAmong, noted};

use crate::ephemerons::mark_pairs;
use crate::targets::mark_slots;
use crate::visits::note_map;
use crate::waiting::Waiting;
use cell_layout::Cell;
use cell_list::CellList;
use heap_walk::{known_cell, known_kind};
use tagged_word::Kind;
use write_barrier::Main;

/// Marks the table of a seen cell that is a weak map. What the slots of any other refer to is marked.
fn mark_table(main: &Main, cells: &mut CellList, cell: &Cell)
    requires marking { IsMarking main.now cells.old }
    requires marked { Contains cells.old.addresses cell.now.at }
    requires stands { IsCellOf (heap_of main.now) cell.now }
    requires leads { (cell.now.layout.kind ≡ Weak → ⊥) → (to : ℕ) → HasSlotTo (heap_of main.now) cell.now.at to →
        Contains cells.old.addresses to }
    ensures grown { HasGrown main.now cells.old cells.new }
    ensures slots { (to : ℕ) → HasSlotTo (heap_of main.now) cell.now.at to → Contains cells.new.addresses to }
{
    if cell.layout.kind == Kind::Weak {
        mark_slots(main, cells, cell);
    }
}

/// Visits a seen cell that may be a weak map or a table.
fn visit_entries(main: &Main, cells: &mut CellList, waiting: &mut Waiting, cell: &Cell)
    requires marking { IsMarking main.now cells.old }
    requires waits { AreWaiting (heap_of main.now) cells.old waiting.old }
    requires marked { Contains cells.old.addresses cell.now.at }
    requires stands { IsCellOf (heap_of main.now) cell.now }
    requires leads { (cell.now.layout.kind ≡ Weak → ⊥) → (to : ℕ) → HasSlotTo (heap_of main.now) cell.now.at to →
        Contains cells.old.addresses to }
    requires awaited { (slot : ℕ) → WaitsFor waiting.old cell.now.at slot → ⊥ }
    ensures grown { HasGrown main.now cells.old cells.new }
    ensures waits { AreWaiting (heap_of main.now) cells.new waiting.new }
    ensures more { WaitsMore cells.old waiting.old waiting.new }
    ensures visited { IsVisited (heap_of main.now) cells.new waiting.new cell.now.at }
{
    mark_table(main, cells, cell);
    mark_pairs(main, cells, waiting, cell);
}

/// Whether a seen cell of the kind is to be looked at: a weak map leads to its table, and a table has pairs.
#[inline(always)]
fn has_entries(kind: Kind) -> bool
    ensures no_map { result ≡ false → kind ≡ Weak → ⊥ }
    ensures no_table { result ≡ false → kind ≡ Table → ⊥ }
{
    kind == Kind::Weak || kind == Kind::Table
}

/// Visits a cell that was given as seen. Of most cells nothing but the kind is read.
fn visit_one(main: &Main, cells: &mut CellList, maps: &mut Vec<u32>, waiting: &mut Waiting, at: u32)
    requires marking { IsMarking main.now cells.old }
    requires waits { AreWaiting (heap_of main.now) cells.old waiting.old }
    requires marked { Contains cells.old.addresses at }
    requires leads { (IsWeakCellAt (heap_of main.now) at → ⊥) → (to : ℕ) → HasSlotTo (heap_of main.now) at to →
        Contains cells.old.addresses to }
    requires awaited { (slot : ℕ) → WaitsFor waiting.old at slot → ⊥ }
    requires room { length maps.old.items < vec_capacity maps.old }
    ensures grown { HasGrown main.now cells.old cells.new }
    ensures waits { AreWaiting (heap_of main.now) cells.new waiting.new }
    ensures more { WaitsMore cells.old waiting.old waiting.new }
    ensures visited { IsVisited (heap_of main.now) cells.new waiting.new at }
    ensures noted { (cell : Cell) → IsCellOf (heap_of main.now) cell → cell.at ≡ at →
        maps.new.items ≡ noted cell.layout.kind maps.old.items at }
    ensures room { vec_capacity maps.old ≤ vec_capacity maps.new }
{
    if !has_entries(known_kind(main, at)) {
        return;
    }
    let cell = known_cell(main, at);
    note_map(maps, &cell);
    visit_entries(main, cells, waiting, &cell);
}

/// Visits the first so many cells, which were given as seen.
pub(crate) fn visit_seen(
    main: &Main,
    cells: &mut CellList,
    maps: &mut Vec<u32>,
    waiting: &mut Waiting,
    seen: usize,
)
    requires marking { IsMarking main.now cells.old }
    requires leads { LeadOn (heap_of main.now) cells.old seen }
    requires within { seen ≤ length cells.old.addresses }
    requires waits { AreWaiting (heap_of main.now) cells.old waiting.old }
    requires awaited { (key slot : ℕ) → WaitsFor waiting.old key slot → ⊥ }
    requires none { maps.old.items ≡ [] }
    requires room { cells.old.bound ≤ vec_capacity maps.old }
    ensures grown { HasGrown main.now cells.old cells.new }
    ensures waits { AreWaiting (heap_of main.now) cells.new waiting.new }
    ensures visited { AreVisited (heap_of main.now) cells.new waiting.new seen }
    ensures maps { AreMapsAmong (heap_of main.now) cells.new maps.new.items seen }
    ensures room { vec_capacity maps.old ≤ vec_capacity maps.new }
    ensures bound { waiting.new.bound ≡ waiting.old.bound }
{
    for next in 0..seen {
        // No cell is listed twice.
        let _count = cells.len();
        visit_one(main, cells, maps, waiting, cells.get(next));
    }
}
