//! How a pair is removed from a table.
ghost use Rattle.std.specs.Prelude.{◌≡◌, ◌+◌, ◌<◌};
ghost use Rattle.write_barrier.specs.Seats.{heap_words};
ghost use Rattle.linear_probing.specs.Tables.{steps_to};
ghost use Rattle.page_space.specs.Extents.{marks_start};
ghost use Rattle.heap_model.specs.Kinds.{count_offset};
ghost use Rattle.heap_model.specs.Needs.{count_at};
ghost use Rattle.write_barrier.specs.MutatorState.{heap_of};
ghost use Rattle.write_barrier.specs.Recording.{Touches};
ghost use Rattle.write_barrier.specs.Storing.{StoresOn};
ghost use Rattle.object_cells.specs.Made.{PutsWords};
ghost use Rattle.weak_pairs.specs.Tables.{TableIsWithin, key_in, value_in, KeysOutsidePairs, IsOutsidePairs, made_pair};
ghost use Rattle.weak_pairs.specs.Tables.{with_pair};
ghost use Rattle.ephemeron_table.specs.MapClaims.{MayPutMap, MayPutPairs};
ghost use Rattle.ephemeron_table.specs.Puttings.{pair_touch};
ghost use Rattle.ephemeron_table.specs.Removals.{ShiftsBack, RemovesAt};

use crate::probing::{key_of, place};
use crate::table::number_at;
use heap_model::cells::COUNT;
use tagged_word::cell::STORE_HEAD;
use tagged_word::{Word, odd};
use weak_pairs::Table;
use write_barrier::Main;

/// How many steps probing for a number takes to a place.
fn steps(capacity: u32, number: u32, at: u32) -> u32
    requires { 0 < capacity }
    ensures { result ≡ steps_to capacity number at }
{
    let capacity = capacity as u64;
    ((at as u64 + (capacity - number as u64 % capacity)) % capacity) as u32
}

/// Puts both words of a pair.
pub(crate) fn put_pair(main: &mut Main, table: Table, at: u32, key: Word, value: Word)
    requires may { MayPutPairs main.old table }
    requires within { TableIsWithin (heap_of main.old) table }
    requires place { at < table.capacity }
    ensures puts { let words = heap_words main.old.seat in
        PutsWords main.old main.new (with_pair words table.at at (made_pair key.0 value.0)) }
    ensures cycle { main.new.cycle ≡ main.old.cycle }
    ensures touches { Touches main.old main.new (pair_touch table.at at) }
    ensures stores { StoresOn main.old main.new }
{
    main.addresses_fit();
    main.store_weak(table.at, STORE_HEAD + 2 * at, key);
    main.store_weak(table.at, STORE_HEAD + (2 * at + 1), value);
}

/// Copies a pair to another place.
fn copy_pair(main: &mut Main, table: Table, from: u32, to: u32)
    requires may { MayPutPairs main.old table }
    requires within { TableIsWithin (heap_of main.old) table }
    requires from { from < table.capacity }
    requires to { to < table.capacity }
    ensures puts { let words = heap_words main.old.seat in
        let heap = heap_of main.old in
        let pair = made_pair (key_in heap table.at from) (value_in heap table.at from) in
        PutsWords main.old main.new (with_pair words table.at to pair) }
    ensures cycle { main.new.cycle ≡ main.old.cycle }
    ensures touches { Touches main.old main.new (pair_touch table.at to) }
    ensures stores { StoresOn main.old main.new }
{
    main.addresses_fit();
    let key = key_of(main, table, from);
    let value = Word(main.slot(table.at, STORE_HEAD + (2 * from + 1)));
    put_pair(main, table, to, key, value);
}

/// Moves back those pairs behind a place that probing would no longer find if it were free. What is
/// to be free then is the place that is told.
pub(crate) fn backward_shift(main: &mut Main, table: Table, at: u32) -> u32
    requires may { MayPutPairs main.old table }
    requires within { TableIsWithin (heap_of main.old) table }
    requires place { at < table.capacity }
    requires keys { KeysOutsidePairs (heap_of main.old) table }
    ensures { ShiftsBack main.old main.new table at result }
{
    main.addresses_fit();
    let mut hole = at;
    let mut passed = 0;
    while passed + 1 < table.capacity {
        let next = place(table.capacity, hole, passed + 1);
        let Some(key) = key_of(main, table, next).address() else {
            return hole;
        };
        let number = number_at(main, key);
        if steps(table.capacity, number, next) <= passed {
            passed += 1;
        } else {
            copy_pair(main, table, next, hole);
            hole = next;
            passed = 0;
        }
    }
    hole
}

/// Takes the pair at a place out of the table of a weak map.
pub(crate) fn remove_pair(main: &mut Main, map: u32, table: Table, at: u32)
    requires may { MayPutPairs main.old table }
    requires within { TableIsWithin (heap_of main.old) table }
    requires place { at < table.capacity }
    requires keys { KeysOutsidePairs (heap_of main.old) table }
    requires map { map + count_offset < marks_start main.old.seat.space }
    requires counts { MayPutMap main.old map }
    requires beside { IsOutsidePairs table (map + count_offset) }
    requires some { 0 < count_at (heap_of main.old) map }
    ensures { RemovesAt main.old main.new map table at }
{
    main.addresses_fit();
    let hole = backward_shift(main, table, at);
    let free = Word::odd(odd::HOLE);
    put_pair(main, table, hole, free, free);
    let count = main.slot(map, COUNT);
    main.write_slot(map, COUNT, count - 1);
}
