//! Lists, lists of addresses, the board, and the cell at an address of bare words.

use crate::text::{Step, step_of};
use core_parts::{Items, empty_board, give, join, leave, read_cell, take};
use std::alloc::Global;
use std::process::Abort;
use std::test::Fail;
use tagged_word::Kind;

/// Steps on one list and one board, in a row. Behind each stands what it answers and the list then;
/// a step at the board answers what it found, and the word then.
const ROWS: &str = "\
push 3 -> false [3]
push 5 -> false [3, 5]
insert 1 4 -> false [3, 4, 5]
insert 3 6 -> false [3, 4, 5, 6]
set 0 5 -> false [5, 4, 5, 6]
join 8 -> false [5, 4, 5, 6, 8]
join 4 -> true [5, 4, 5, 6, 8]
leave 7 -> false [5, 4, 5, 6, 8]
leave 5 -> false [4, 6, 8]
join 5 -> false [4, 6, 8, 5]
give 1 5 -> Gave { place: 1, found: 0 } Some(21) [4, 6, 8]
give 1 6 -> Gave { place: 1, found: 21 } Some(21) [4, 6, 8]
take 1 -> Took { place: 1, found: 21 } Some(0) [4, 6, 8, 5]
take 1 -> Took { place: 1, found: 0 } Some(0) [4, 6, 8, 5]
give 63 6 -> Gave { place: 63, found: 0 } Some(25) [4, 8, 5]
take 63 -> Took { place: 63, found: 25 } Some(0) [4, 8, 5, 6]";

/// A step on a list, and whether an address that joins stood there.
fn list_step(list: &mut Items<u32>, step: Step<'_>) -> Result<bool, Fail> {
    let at = step.first as usize;
    match step.name {
        "push" => list.push(step.first)?,
        "leave" => leave(list, step.first),
        "insert" => {
            if at <= list.count() {
                list.insert(at, step.second)?;
            }
        }
        "set" => {
            if at < list.count() {
                list.set(at, step.second);
            }
        }
        _ => return Ok(join(list, step.first)?),
    }
    Ok(false)
}

/// A step at the board, as text.
fn board_step(
    alloc: Global,
    board: &mut Items<u64>,
    list: &mut Items<u32>,
    step: Step<'_>,
) -> Result<String, Fail> {
    let place = step.first;
    if board.count() <= place as usize {
        return Err(Fail::from("no such word of the board"));
    }
    let note = if step.name == "give" {
        give(board, list, place, step.second)
    } else {
        take(board, list, place)?
    };
    Ok(format!(in alloc;
        "{note:?} {:?} {:?}",
        board.get(place as usize),
        list.as_slice()
    )?)
}

/// A step, as text.
fn answer(
    alloc: Global,
    board: &mut Items<u64>,
    list: &mut Items<u32>,
    text: &str,
) -> Result<String, Fail> {
    let step = step_of(text)?;
    if step.name == "give" || step.name == "take" {
        return board_step(alloc, board, list, step);
    }
    let stood = list_step(list, step)?;
    Ok(format!(in alloc; "{stood} {:?}", list.as_slice())?)
}

/// The row's step answers as it says.
fn hold(
    rt: &impl Abort,
    alloc: Global,
    board: &mut Items<u64>,
    list: &mut Items<u32>,
    row: &str,
) -> Result<(), Fail> {
    let (text, wanted) = row.split_once(" -> ").ok_or("a row says no answer")?;
    let came = answer(alloc, board, list, text)?;
    assert_eq!(rt; came.as_str(), wanted, "{row}");
    Ok(())
}

#[test]
fn lists_and_the_board_hold_what_was_put_there(rt: HostRuntime) -> Result<(), Fail> {
    let mut board = empty_board(rt.alloc())?;
    let mut list = Items::new(rt.alloc());
    assert_eq!(rt; board.count(), 64);
    for row in ROWS.lines() {
        hold(&rt, rt.alloc(), &mut board, &mut list, row)?;
    }
    Ok(())
}

#[test]
fn a_copy_has_memory_of_its_own(rt: HostRuntime) -> Result<(), Fail> {
    let list = Items::from_vec([3u64, 8].to_vec(rt.alloc())?);
    let copy = list.copied(rt.alloc())?;
    assert_eq!(rt; list.into_vec().len(), 2);
    assert_eq!(rt; copy.get(1), Some(8));
    assert_eq!(rt; copy.get(2), None);
    Ok(())
}

/// The layout words of shapes 0 to 3: none, a plain cell of 2 slots, a store, a gap.
const LAYOUTS: [u64; 4] = [0, 545, 4, 8];

/// A plain cell at 0, a store of 1 slot at 5, a gap of 2 words at 8, and a word of no header.
const WORDS: [u64; 11] = [38654705670, 0, 0, 0, 0, 10, 1, 0, 14, 2, 3];

#[test]
fn a_cell_is_read_where_one_stands(rt: HostRuntime) {
    // So many words and layouts, the address, the bound, and what is read.
    let rows = [
        (11, 4, 0, 5, Some((Kind::Plain, 0, 5))),
        (11, 4, 0, 4, None),
        (11, 4, 5, 8, Some((Kind::Store, 1, 3))),
        (11, 4, 5, 7, None),
        (11, 4, 8, 10, Some((Kind::Gap, 2, 2))),
        (11, 4, 8, 9, None),
        (11, 4, 10, 99, None),
        (11, 4, 11, 99, None),
        (11, 1, 0, 99, None),
        (4, 4, 0, 99, None),
        (6, 4, 5, 99, None),
        (0, 0, u32::MAX, u32::MAX, None),
    ];
    for (many, shapes, at, bound, wanted) in rows {
        let words = WORDS.get(..many).unwrap_or(&[]);
        let layouts = LAYOUTS.get(..shapes).unwrap_or(&[]);
        let came = read_cell(words, layouts, at, bound);
        let came = came.map(|cell| (cell.layout.kind, cell.length, cell.size));
        assert!(rt;
            came == wanted,
            "{many} words, {shapes} shapes, {at} to {bound}"
        );
    }
    assert_eq!(rt; read_cell(&WORDS, &[0, 0], 0, 99), None, "no layout");
}
