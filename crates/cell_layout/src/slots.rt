//! The slots of a cell, one after another.
ghost use Rattle.std.specs.Prelude.{◌∷◌, []};
ghost use Rattle.std.specs.List.{range_with_len};
ghost use Rattle.tagged_word.specs.Layouts.{HasInObjectSlots};
ghost use Rattle.tagged_word.specs.Cells.{store_slot, proto_slot, store_head, in_object_offsets};
ghost use Rattle.tagged_word.specs.Cells.{tagged_offsets, scavenge_offsets};
ghost use Rattle.cell_layout.specs.Cells.{IsSized};
ghost use Rattle.cell_layout.specs.Slots.{IsFirstFrom};

use crate::cell::Cell;
use tagged_word::cell::{PLAIN_HEAD, PROTO_SLOT, STORE_HEAD, STORE_SLOT};
use tagged_word::{Kind, LayoutWord};

/// The offset of the first slot, from an offset on, that marking visits; none where there is none.
/// It walks no slots.
#[inline]
pub fn next_tagged(cell: &Cell, from: u32) -> Option<u32>
    requires { IsSized cell.now }
    ensures { IsFirstFrom (tagged_offsets cell.now.layout cell.now.length) from result }
{
    match cell.layout.kind {
        Kind::Plain => next_of_plain(cell.layout, from),
        Kind::List => next_of_one(from),
        Kind::Weak => next_of_one(from),
        Kind::Store => next_of_run(cell.length, from),
        _ => None,
    }
}

/// The offset of the first slot, from an offset on, that a scavenge visits; none where there is
/// none. Beside what marking visits these are the pairs of a weak table.
#[inline]
pub fn next_scavenge_slot(cell: &Cell, from: u32) -> Option<u32>
    requires { IsSized cell.now }
    ensures { IsFirstFrom (scavenge_offsets cell.now.layout cell.now.length) from result }
{
    match cell.layout.kind {
        Kind::Table => next_of_run(2 * cell.length, from),
        _ => next_tagged(cell, from),
    }
}

/// Among the slots of a plain cell: its store's, its prototype's, and after them the in-object ones
/// that are used and not raw. The raw ones that stand next are counted at once.
#[inline]
fn next_of_plain(layout: LayoutWord, from: u32) -> Option<u32>
    requires has { HasInObjectSlots layout }
    ensures { IsFirstFrom (store_slot ∷ proto_slot ∷ in_object_offsets layout) from result }
{
    if from <= STORE_SLOT {
        return Some(STORE_SLOT);
    }
    if from <= PROTO_SLOT {
        return Some(PROTO_SLOT);
    }
    let slot = from - PLAIN_HEAD;
    if slot >= layout.used {
        return None;
    }
    let next = slot + (layout.raw >> slot).trailing_ones();
    if next < layout.used {
        Some(PLAIN_HEAD + next)
    } else {
        None
    }
}

/// Where the only slot is that for a store or table.
#[inline]
fn next_of_one(from: u32) -> Option<u32>
    ensures { IsFirstFrom (store_slot ∷ []) from result }
{
    if from <= STORE_SLOT {
        Some(STORE_SLOT)
    } else {
        None
    }
}

/// Among so many slots of a store or table.
#[inline]
fn next_of_run(slots: u64, from: u32) -> Option<u32>
    ensures { IsFirstFrom (range_with_len store_head slots) from result }
{
    let offset = from.max(STORE_HEAD);
    if ((offset - STORE_HEAD) as u64) < slots {
        Some(offset)
    } else {
        None
    }
}
