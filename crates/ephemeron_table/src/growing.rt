//! Tables that are made anew, and how pairs come to them.
ghost use Rattle.std.specs.Prelude.{◌≡◌, ◌+◌, ◌*◌, ◌<◌, ◌≤◌, OnOk, IfErr};
ghost use Rattle.tagged_word.specs.Cells.{store_head, cell_words_most};
ghost use Rattle.page_space.specs.Extents.{layouts_start, marks_start};
ghost use Rattle.write_barrier.specs.Seats.{heap_words};
ghost use Rattle.heap_model.specs.Needs as needs;
ghost use Rattle.write_barrier.specs.MutatorState.{heap_of};
ghost use Rattle.write_barrier.specs.Recording.{Touches};
ghost use Rattle.write_barrier.specs.Storing.{IsMadeYoung, StoresOn};
ghost use Rattle.object_cells.specs.Made.{PutsWords, RefusesRoom};
ghost use Rattle.weak_pairs.specs.Pairs.{HoldNothing};
ghost use Rattle.weak_pairs.specs.Tables.{TablesDisjoint, KeysMovable, TableIsWithin, pairs_of};
ghost use Rattle.ephemeron_table.specs.Rehashing.{RehashesPairs, CanGrow, PutsInNewTable, new_table_need};
ghost use Rattle.weak_pairs.specs.Probes.{FreeBy, HasFree};
ghost use Rattle.ephemeron_table.specs.MapClaims.{MayPutPairs};
ghost use Rattle.ephemeron_table.specs.Puttings.{InsertsRehashed, begun_table, table_touch};

use crate::probing::{key_of, place};
use crate::removing::put_pair;
use crate::table::number_at;
use handle_roots::Held;
use heap_model::cells::{COUNT, FIRST_CAPACITY, PAIRS_MOST};
use object_cells::{boxed_word, content_for, need_of, room_for};
use tagged_word::cell::{LENGTH, STORE_HEAD, STORE_SLOT};
use tagged_word::{Header, Word, odd, shape};
use weak_pairs::Table;
use write_barrier::{Main, NoRoom};

/// How many pairs the table has that takes the place of one of so many: twice as many, but at least
/// 4, and no more than there may be.
pub(crate) fn grown(capacity: u32) -> u32
    requires { store_head + 2 * capacity ≤ cell_words_most }
    ensures { result ≡ needs.grown_table capacity }
{
    PAIRS_MOST.min(FIRST_CAPACITY.max(2 * capacity))
}

/// Makes the words at an address a table of pairs that hold nothing, which is no map's.
pub(crate) fn begin_table(main: &mut Main, table: Table)
    requires young { IsMadeYoung main.old table.at }
    requires within { let to = table.at + (store_head + 2 * table.capacity) in
        to ≤ layouts_start main.old.seat.space }
    ensures puts { let words = heap_words main.old.seat in
        PutsWords main.old main.new (begun_table words table) }
    ensures touches { Touches main.old main.new (table_touch table) }
    ensures stores { StoresOn main.old main.new }
{
    main.addresses_fit();
    let header = Header {
        shape: shape::TABLE,
        object: 0,
    };
    main.set_header(table.at, header);
    main.write_slot(table.at, LENGTH, table.capacity as u64);
    main.fill_holes(table.at + STORE_HEAD, 2 * table.capacity);
}

/// The first place on the way of a number where a pair is free.
fn free_place(main: &Main, table: Table, number: u32) -> Option<u32>
    requires { TableIsWithin (heap_of main.now) table }
    ensures { FreeBy (heap_of main.now) table number result }
{
    for steps in 0..table.capacity {
        let at = place(table.capacity, number, steps);
        if key_of(main, table, at).0 == Word::odd(odd::HOLE).0 {
            return Some(at);
        }
    }
    None
}

/// Puts a pair at the first free place on the way of its key's number.
pub(crate) fn insert_rehashed(main: &mut Main, table: Table, key: u32, value: Word)
    requires may { MayPutPairs main.old table }
    requires within { TableIsWithin (heap_of main.old) table }
    requires key { key < marks_start main.old.seat.space }
    requires free { HasFree (heap_of main.old) table }
    ensures { InsertsRehashed main.old main.new table key value.0 }
{
    let number = number_at(main, key);
    match free_place(main, table, number) {
        Some(at) => put_pair(main, table, at, Word::reference(key), value),
        None => unreachable!(),
    }
}

/// Puts the pairs of a table into another one, which has more places.
fn rehash(main: &mut Main, from: Table, to: Table)
    requires may { MayPutPairs main.old to }
    requires from { TableIsWithin (heap_of main.old) from }
    requires to { TableIsWithin (heap_of main.old) to }
    requires more { from.capacity < to.capacity }
    requires apart { TablesDisjoint from to }
    requires keys { KeysMovable (heap_of main.old) from to }
    requires empty { HoldNothing (pairs_of (heap_words main.old.seat) to) }
    ensures { RehashesPairs main.old main.new from to from.capacity }
{
    main.addresses_fit();
    for at in 0..from.capacity {
        if let Some(key) = key_of(main, from, at).address() {
            let value = Word(main.slot(from.at, STORE_HEAD + (2 * at + 1)));
            insert_rehashed(main, to, key, value);
        }
    }
}

/// The pair of a key and a value comes to a table that is made in the place of a map's, with the
/// pairs of that. The map refers to it once all pairs are in it.
///
/// # Errors
/// There is no room for the table and a box; nothing has changed.
pub(crate) fn put_in_new_table(
    main: &mut Main,
    map: u32,
    count: u32,
    table: Table,
    key: u32,
    value: Held,
) -> Result<(), NoRoom>
    requires can { CanGrow main.old map table key count }
    ensures ok { OnOk result (PutsInNewTable main.old main.new map table key (count + 1) value) }
    ensures refused { IfErr result (RefusesRoom main.old main.new (new_table_need table value)) }
{
    main.addresses_fit();
    let content = content_for(value);
    let capacity = grown(table.capacity);
    let words = STORE_HEAD + 2 * capacity;
    let at = room_for(main, words + need_of(content))?;
    let new = Table { at, capacity };
    begin_table(main, new);
    rehash(main, table, new);
    let word = boxed_word(main, content, at + words);
    insert_rehashed(main, new, key, word);
    main.store(map, STORE_SLOT, Word::reference(at));
    main.write_slot(map, COUNT, (count + 1) as u64);
    Ok(())
}
