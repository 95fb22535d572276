//! Cells at addresses, the walk from cell to cell, and the slots of a cell, in heaps whose words
//! are written out (`cell_layout`).
ghost use Rattle.std.specs.Prelude.{◌≡◌, ◌≤◌, IfOk};
ghost use Rattle.cell_layout.specs.Cells.{IsRowOfSome};

use crate::heaps::{BOARD, EDEN, LAYOUTS, MARKS, ROOTS, heap, usual};
use cell_layout::{NotACell, cell_at, next_cell, next_scavenge_slot, next_tagged};
use page_space::Regions;
use std::alloc::Global;
use std::test::Fail;
use tagged_word::Kind;
use word_store::{Reads, SliceWords};

/// Row, address, the first words there, the cell's kind, length and size, and how many words are
/// loaded.
const CELLS: [(u32, u32, [u64; 2], Option<(Kind, u64, u32)>, u32); 34] = [
    (1, 0, [6, 13], Some((Kind::List, 0, 3)), 2),
    (2, 0, [10, 13], Some((Kind::Weak, 0, 3)), 2),
    (3, 0, [14, 5], Some((Kind::Store, 5, 7)), 3),
    (4, 0, [18, 5], Some((Kind::Table, 5, 12)), 3),
    (5, 0, [22, 5], Some((Kind::Boxed, 0, 2)), 2),
    (6, 0, [26, 5], Some((Kind::Filler, 0, 1)), 2),
    (7, 0, [30, 5], Some((Kind::Gap, 5, 5)), 3),
    (8, 0, [30, 1], None, 3),
    (9, 0, [13, 0], None, 1),
    // Shapes of field paths; 18 has no layout word, and 8,200 would have the first mark word.
    (10, 0, [34, 0], Some((Kind::Plain, 0, 11)), 2),
    (11, EDEN, [70, 3], Some((Kind::Plain, 0, 5)), 2),
    (12, EDEN, [74, 3], None, 2),
    (13, EDEN, [32_798, 0], Some((Kind::Filler, 0, 1)), 2),
    (14, EDEN, [32_802, 0], None, 1),
    // A cell ends with its page, eden or segment, or before.
    (15, 0, [14, 2_046], Some((Kind::Store, 2_046, 2_048)), 3),
    (16, 1, [14, 2_045], Some((Kind::Store, 2_045, 2_047)), 3),
    (17, 1, [14, 2_046], None, 3),
    (18, 0, [30, 2_048], Some((Kind::Gap, 2_048, 2_048)), 3),
    (19, 0, [30, 2_049], None, 3),
    (20, 2_043, [30, 5], Some((Kind::Gap, 5, 5)), 3),
    (21, 2_043, [30, 6], None, 3),
    (22, 2_047, [26, 0], Some((Kind::Filler, 0, 1)), 2),
    (23, 2_047, [22, 0], None, 2),
    (24, EDEN + 8_190, [22, 0], Some((Kind::Boxed, 0, 2)), 2),
    (25, EDEN + 8_191, [22, 0], None, 2),
    (26, ROOTS - 2, [22, 0], Some((Kind::Boxed, 0, 2)), 2),
    (27, ROOTS - 1, [22, 0], None, 2),
    // No cell stands behind the segments.
    (28, ROOTS, [26, 0], None, 1),
    (29, ROOTS + 1, [26, 0], None, 1),
    (30, LAYOUTS + 20, [26, 0], None, 1),
    (31, MARKS, [26, 0], None, 1),
    (32, BOARD - 1, [26, 0], None, 1),
    (33, BOARD, [26, 0], None, 1),
    (34, BOARD + 63, [26, 0], None, 1),
];

/// The kind, the length and the size of the cell at an address of a heap with these words there,
/// and how many words were loaded for it.
fn read_at(
    alloc: Global,
    at: u32,
    stretch: [u64; 2],
) -> Result<(Option<(Kind, u64, u32)>, u32), Fail> {
    let mut place = heap(alloc, at, &stretch)?;
    let cell = match cell_at(&mut place, &usual(), at) {
        Ok(cell) => Some((cell.layout.kind, cell.length, cell.size)),
        Err(_) => None,
    };
    Ok((cell, place.loads))
}

/// The address and the word that are told of an address where no cell stands.
fn told_at(words: &mut SliceWords, at: u32) -> Option<(u32, u64)> {
    match cell_at(words, &usual(), at) {
        Ok(_) => None,
        Err(none) => Some((none.at, none.word)),
    }
}

#[test]
fn a_cell_is_read_by_three_words_at_most_where_it_may_stand(rt: HostRuntime) -> Result<(), Fail> {
    for (row, at, stretch, cell, loads) in CELLS {
        let read = read_at(rt.alloc(), at, stretch)?;
        assert!(rt; read == (cell, loads), "row {row} at {at}");
    }
    // The layout words are behind the last of these: there is no cell, and the word is told.
    let mut words = SliceWords::new(&[6, 13, 0, u64::MAX, 0x8000_0000_0000_0002, 1, 30]);
    for (at, word) in [
        (0, 6),
        (1, 13),
        (2, 0),
        (3, u64::MAX),
        (4, 0x8000_0000_0000_0002),
        (5, 1),
        (6, 30),
        (7, 0),
        (EDEN, 0),
        (u32::MAX, 0),
    ] {
        assert!(rt; told_at(&mut words, at) == Some((at, word)), "at {at}");
    }
    Ok(())
}

/// How many cells there are in the row from an address to another.
fn cells_between<W: Reads>(
    words: &mut W,
    regions: &Regions,
    from: u32,
    end: u32,
) -> Result<u32, NotACell>
    requires before { from ≤ end }
    requires steady { W.IsSteady words.old }
    ensures row { IfOk result (λ count.
        IsRowOfSome regions.now (W.words words.old) from end count) }
    ensures kept { W.words words.new ≡ W.words words.old }
    ensures rest { W.Rest words.old words.new }
{
    let mut at = from;
    let mut count = 0;
    while let Some(cell) = next_cell(words, regions, at, end)? {
        if cell.size > end - at {
            return Err(NotACell { at, word: 0 });
        }
        at += cell.size;
        count += 1;
    }
    Ok(count)
}

#[test]
fn a_page_is_walked_from_cell_to_cell(rt: HostRuntime) -> Result<(), Fail> {
    let mut place = heap(rt.alloc(), 0, &[6, 13, 0, 14, 0, 30, 2_043])?;
    // From address to address: the cells between them, and how many words were loaded.
    for (from, end, cells, loads) in [
        (0, 2_048, 3, 8),
        (3, 2_048, 2, 14),
        (0, 5, 2, 19),
        (2_048, 2_048, 0, 19),
    ] {
        assert!(rt; from <= end);
        let Ok(count) = cells_between(&mut place, &usual(), from, end) else {
            return Err(Fail::from("no cell"));
        };
        assert!(rt; count == cells, "from {from}");
        assert!(rt; place.loads == loads, "loads from {from}");
    }
    Ok(())
}

/// Row, the cell's words, an offset, and the first slot from it on that marking visits, and that a
/// scavenge does.
const SLOTS: [(u32, [u64; 2], u32, Option<u32>, Option<u32>); 21] = [
    // A plain cell has a slot for its store, one for its prototype, and those that it uses.
    (1, [70, 3], 0, Some(1), Some(1)),
    (2, [70, 3], 1, Some(1), Some(1)),
    (3, [70, 3], 2, Some(2), Some(2)),
    (4, [70, 3], 3, Some(3), Some(3)),
    (5, [70, 3], 4, None, None),
    (6, [70, 3], 9, None, None),
    // Raw slots are passed by.
    (7, [34, 0], 0, Some(1), Some(1)),
    (8, [34, 0], 2, Some(2), Some(2)),
    (9, [34, 0], 3, Some(4), Some(4)),
    (10, [34, 0], 4, Some(4), Some(4)),
    (11, [34, 0], 5, Some(6), Some(6)),
    (12, [34, 0], 7, Some(8), Some(8)),
    (13, [34, 0], 9, Some(10), Some(10)),
    (14, [34, 0], 11, None, None),
    // Stores and tables have all their slots.
    (15, [14, 2], 0, Some(2), Some(2)),
    (16, [14, 2], 3, Some(3), Some(3)),
    (17, [14, 2], 4, None, None),
    (18, [18, 1], 0, None, Some(2)),
    (19, [18, 1], 3, None, Some(3)),
    (20, [18, 1], 4, None, None),
    (21, [26, 0], 0, None, None),
];

/// The first slot from an offset on that marking visits, and the first that a scavenge does, of the
/// cell that two words begin.
fn slots_from(
    alloc: Global,
    stretch: [u64; 2],
    from: u32,
) -> Result<(Option<u32>, Option<u32>), Fail> {
    let mut place = heap(alloc, 0, &stretch)?;
    match cell_at(&mut place, &usual(), 0) {
        Ok(cell) => Ok((next_tagged(&cell, from), next_scavenge_slot(&cell, from))),
        Err(_) => Err(Fail::from("no cell")),
    }
}

#[test]
fn a_cell_has_its_slots_one_after_another(rt: HostRuntime) -> Result<(), Fail> {
    for (row, stretch, from, tagged, visited) in SLOTS {
        let slots = slots_from(rt.alloc(), stretch, from)?;
        assert!(rt; slots == (tagged, visited), "row {row} from {from}");
    }
    Ok(())
}
