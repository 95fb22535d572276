//! The pairs of weak maps as ephemerons: a value is marked where its table and its key are.
ghost use Rattle.std.specs.Prelude.{ℕ, ◌+◌, Contains};
ghost use Rattle.live_cells.specs.Live.{HasEntry};
ghost use Rattle.write_barrier.specs.MutatorState.{heap_of};
ghost use Rattle.ephemeron_mark.specs.Progress.{HoldsReference, IsMarking, HasGrown, IsCellOf, IsMarkedPair};
ghost use Rattle.ephemeron_mark.specs.Progress.{AreWaiting};
ghost use Rattle.ephemeron_mark.specs.Progress.{WaitsMore, WaitsWith, IsMarkedOrWaits};

use crate::targets::mark_target;
use crate::waiting::Waiting;
use cell_layout::Cell;
use cell_list::CellList;
use tagged_word::cell::STORE_HEAD;
use tagged_word::{Kind, Word};
use write_barrier::Main;

/// Marks the value of a pair whose key stands at an address, or lets the pair wait where the key is not
/// marked. A pair of which either is no reference is passed over.
fn mark_pair(main: &Main, cells: &mut CellList, waiting: &mut Waiting, at: u32)
    requires marking { IsMarking main.now cells.old }
    requires waits { AreWaiting (heap_of main.now) cells.old waiting.old }
    requires pair { IsMarkedPair (heap_of main.now) cells.old at (at + 1) }
    ensures grown { HasGrown main.now cells.old cells.new }
    ensures waits { AreWaiting (heap_of main.now) cells.new waiting.new }
    ensures more { WaitsMore cells.old waiting.old waiting.new }
    ensures done { (key value : ℕ) → HoldsReference (heap_of main.now) at key →
        HoldsReference (heap_of main.now) (at + 1) value →
        IsMarkedOrWaits (heap_of main.now) cells.new waiting.new key value }
{
    // No address is past 32 bits.
    main.addresses_fit();
    let Some(key) = Word(main.word(at)).address() else {
        return;
    };
    let Some(value) = Word(main.slot(at, 1)).address() else {
        return;
    };
    if cells.contains(key) {
        cells.push(value);
    } else {
        waiting.add(key, at + 1);
    }
}

/// Marks the values of the pairs of a marked cell, if it is a table: those whose keys are marked. The
/// others wait.
pub(crate) fn mark_pairs(main: &Main, cells: &mut CellList, waiting: &mut Waiting, cell: &Cell)
    requires marking { IsMarking main.now cells.old }
    requires waits { AreWaiting (heap_of main.now) cells.old waiting.old }
    requires marked { Contains cells.old.addresses cell.now.at }
    requires stands { IsCellOf (heap_of main.now) cell.now }
    ensures grown { HasGrown main.now cells.old cells.new }
    ensures waits { AreWaiting (heap_of main.now) cells.new waiting.new }
    ensures more { WaitsMore cells.old waiting.old waiting.new }
    ensures pairs { (key value : ℕ) → HasEntry (heap_of main.now) cell.now.at key value →
        IsMarkedOrWaits (heap_of main.now) cells.new waiting.new key value }
{
    if cell.layout.kind != Kind::Table {
        return;
    }
    // No address is past 32 bits.
    main.addresses_fit();
    for pair in 0..cell.length as u32 {
        mark_pair(main, cells, waiting, cell.at + STORE_HEAD + 2 * pair);
    }
}

/// Marks the values that waited for a cell, which is marked now.
pub(crate) fn wake(main: &Main, cells: &mut CellList, waiting: &Waiting, key: u32)
    requires marking { IsMarking main.now cells.old }
    requires waits { AreWaiting (heap_of main.now) cells.old waiting.now }
    requires marked { Contains cells.old.addresses key }
    ensures grown { HasGrown main.now cells.old cells.new }
    ensures woken { (value : ℕ) → WaitsWith (heap_of main.now) waiting.now key value →
        Contains cells.new.addresses value }
{
    let mut left = waiting.last(key);
    while left > 0 {
        let place = left - 1;
        mark_target(main, cells, waiting.slot(place));
        left = waiting.earlier(place);
    }
}
