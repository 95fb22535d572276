//! How an entry comes to a table.
ghost use Rattle.std.specs.Prelude.{◌≡◌, ◌+◌, ◌*◌, ◌<◌, ◌≤◌, OnOk, IfErr};
ghost use Rattle.tagged_word.specs.Cells.{store_head};
ghost use Rattle.page_space.specs.Extents.{marks_start};
ghost use Rattle.object_graph.specs.Meaning.{weak_most};
ghost use Rattle.heap_model.specs.Kinds.{count_offset};
ghost use Rattle.write_barrier.specs.MutatorState.{heap_of, IsTied};
ghost use Rattle.write_barrier.specs.Storing.{IsMadeYoung, StoresOn};
ghost use Rattle.heap_model.specs.Wholeness.{Whole};
ghost use Rattle.object_cells.specs.Contents as contents;
ghost use Rattle.object_cells.specs.Contents.{HoldsSlotWord, IsBeforeLayouts, filling_at, next_at};
ghost use Rattle.object_cells.specs.Made.{RefusesRoom, content_need, store_content};
ghost use Rattle.weak_pairs.specs.Tables.{TableIsWithin, value_in, value_offset};
ghost use Rattle.ephemeron_table.specs.MapClaims.{MayPutBox, MayPutMap, MayPutPairs};
ghost use Rattle.ephemeron_table.specs.Puttings.{FillsValueOrRefuses, PutsInTable};

use crate::removing::put_pair;
use handle_roots::Held;
use heap_model::cells::COUNT;
use object_cells::{
    SlotContent, SlotWrite, boxed_word, content_for, filling_of, make_box, need_of, room_for,
};
use tagged_word::Word;
use tagged_word::cell::STORE_HEAD;
use weak_pairs::Table;
use write_barrier::{Main, NoRoom};

/// Fills a slot of a table, as `fill` of `object_cells` does one of a store.
fn fill_weak(main: &mut Main, table: Table, offset: u32, filling: SlotWrite)
    requires may { MayPutPairs main.old table }
    requires boxed { MayPutBox main.old filling }
    requires within { TableIsWithin (heap_of main.old) table }
    requires behind { store_head ≤ offset }
    requires inside { offset < store_head + 2 * table.capacity }
    requires room { IsBeforeLayouts main.old.seat.space filling }
    ensures filled { let filled = contents.filled main.old (table.at + offset) filling in
        main.new ≡ record filled { cycle = main.old.cycle } }
    ensures stores { StoresOn main.old main.new }
{
    main.addresses_fit();
    match filling {
        SlotWrite::Tagged(word) => main.store_weak(table.at, offset, word),
        SlotWrite::Raw(word) => main.write_slot(table.at, offset, word),
        SlotWrite::NewBox { at, v } => {
            make_box(main, at, v);
            main.store_weak(table.at, offset, Word::reference(at));
        }
        SlotWrite::OldBox { at, v } => main.write_slot(at, 1, v.cast_unsigned()),
    }
}

/// The value of a pair becomes another: a wide one in the box that stands there, or in one that is
/// made.
///
/// # Errors
/// There is no room for a box; nothing has changed.
pub(crate) fn put_value(main: &mut Main, table: Table, at: u32, value: Held) -> Result<(), NoRoom>
    requires may { MayPutPairs main.old table }
    requires boxed { let slot = table.at + value_offset at in
        MayPutBox main.old (filling_at main.old slot (store_content value)) }
    requires whole { Whole (heap_of main.old) }
    requires tied { IsTied main.old }
    requires within { TableIsWithin (heap_of main.old) table }
    requires place { at < table.capacity }
    requires held { let word = value_in (heap_of main.old) table.at at in
        HoldsSlotWord (heap_of main.old) word (store_content value) }
    ensures { let content = store_content value in
        FillsValueOrRefuses main.old main.new (table.at + value_offset at) content result }
{
    main.addresses_fit();
    let offset = STORE_HEAD + (2 * at + 1);
    let filling = filling_of(main, table.at + offset, content_for(value))?;
    fill_weak(main, table, offset, filling);
    Ok(())
}

/// The pair of a key and a value comes to a free place of a map's table.
///
/// # Errors
/// There is no room for a box; nothing has changed.
pub(crate) fn put_in_table(
    main: &mut Main,
    map: u32,
    count: u32,
    table: Table,
    at: u32,
    key: u32,
    value: Held,
) -> Result<(), NoRoom>
    requires may { MayPutPairs main.old table }
    requires counts { MayPutMap main.old map }
    requires young { IsMadeYoung main.old (next_at main.old) }
    requires tied { IsTied main.old }
    requires within { TableIsWithin (heap_of main.old) table }
    requires place { at < table.capacity }
    requires few { count < weak_most }
    requires map { map + count_offset < marks_start main.old.seat.space }
    ensures ok { OnOk result (PutsInTable main.old main.new map table at key (count + 1) value) }
    ensures refused { let need = content_need (store_content value) in
        IfErr result (RefusesRoom main.old main.new need) }
{
    let content = content_for(value);
    let box_at = room_for(main, need_of(content))?;
    let word = boxed_word(main, content, box_at);
    put_pair(main, table, at, Word::reference(key), word);
    main.write_slot(map, COUNT, (count + 1) as u64);
    Ok(())
}
