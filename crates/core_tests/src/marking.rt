//! Lists of marking events, each from a world that a cycle begins with, or from where the row before
//! it ended if it begins with `then`. A row is a line: events, and what of their end is compared.

use crate::changes::{self, SHAPES, TRIM};
use crate::conditions::{LENGTHS, LONG, NAMELESS, ODD, ODD_CELLS, OF_MARKING};
use crate::text::{Step, addresses, compare, padded, step_of};
use core_parts::{Items, StepStop, empty_board, read_cell};
use mark_core::replay;
use mark_world::{Event, HelperView, MainView, Views, World};
use std::alloc::Global;
use std::fmt::Write;
use std::process::Abort;
use std::test::Fail;
use tagged_word::Word;

/// A list at 0 with its store of no slots at 3; a list at 5 with its store of two slots at 8 and a
/// plain cell of none at 12; a plain cell with a raw slot at 15, one with a tagged slot at 19; a gap.
pub(crate) const WORDS: &str =
    "6 13 0 14 0 6 33 2 14 2 49 3 34 3 3 74 3 3 5000000000 70 3 3 13 30 2025";

pub(crate) const CELLS: &str = "0 3 5 8 12 15 19";

/// The fixed layouts, shape 8 for plain cells of no slots, 17 for a tagged slot and 18 for a raw one.
const LAYOUTS: &str = "0 2 3 4 5 6 7 8 1 0 0 0 0 0 0 0 0 273 4369";

/// A settling that lost visits nothing. One that won has its targets to visit; a seat taken back leaves them owed.
const SETTLING: &str = "\
lend; shade 0; header 0 0; layout 0; load 0 1; blacken 0; settle 0; shade 3; return 0 -> \
    colours [2, 0, 0, 1, 0, 0, 0, 0, 0, 0, 0, 0, 0, 0, 0, 0, 0, 0, 0, 0]; \
    mine [0]; sure [0, 3]; grey [3]; owed []; seats 1; out false
lend; shade 0; header 0 0; layout 0; load 0 1; settle 0; blacken 0; shade 3; return 0 -> \
    colours [2, 0, 0, 1, 0, 0, 0, 0, 0, 0, 0, 0, 0, 0, 0, 0, 0, 0, 0, 0]; \
    mine [0]; sure [0, 3]; grey [3]; owed [3]; seats 1; out false
lend; shade 0; header 0 0; layout 0; load 0 1; settle 0 -> visit [3]; out true; last 6 1; slot 1 13
lend; shade 0; header 0 0; layout 0; settle 0 -> stops at 4";

/// Cells go over the board, and one that waits nowhere is not given.
const BOARD: &str = "\
lend; shade 0; give_main 0 0; take 0 0; header 0 0; layout 0; load 0 1; settle 0; \
    visit 0 3; give 0 1 3; take 0 1; header 0 3; layout 0; length 0; settle 0; return 0 -> \
    colours [2, 0, 0, 2, 0, 0, 0, 0, 0, 0, 0, 0, 0, 0, 0, 0, 0, 0, 0, 0]; \
    grey []; mine []; owed []; board [0, 0, 0, 0, 0, 0, 0, 0]; seats 1; out false
shade 0; shade 3; give_main 5 0 -> grey [3]; board [0, 0, 0, 0, 0, 1, 0, 0]
shade 0; shade 3; give_main 5 0; take_main 5 -> grey [3, 0]; board [0, 0, 0, 0, 0, 0, 0, 0]
give_main 5 0 -> stops at 0";

/// An event of the mutator.
fn main_event(step: Step<'_>) -> Option<Event> {
    let (at, word) = (step.first, step.word);
    match step.name {
        "look" => Some(Event::Look {}),
        "slot" => Some(Event::StoreSlot { at, word }),
        "own" => Some(Event::StoreOwned { at, word }),
        "head" => Some(Event::StoreHeader { at, word }),
        "lay" => Some(Event::AddLayout { shape: at, word }),
        "shade" => Some(Event::ShadeMain { at }),
        "blacken" => Some(Event::Blacken { at }),
        "new" => Some(Event::NewBlack { at }),
        "lend" => Some(Event::Lend {}),
        "return" => Some(Event::Return { helper: at }),
        "give_main" => Some(Event::GiveMain {
            place: at,
            at: step.second,
        }),
        "take_main" => Some(Event::TakeMain { place: at }),
        _ => None,
    }
}

/// An event of a helper.
fn helper_event(step: Step<'_>) -> Option<Event> {
    let (helper, second, at) = (step.first, step.second, step.third);
    match step.name {
        "header" => Some(Event::LoadHeader {
            helper,
            cell: second,
        }),
        "layout" => Some(Event::LoadLayout { helper }),
        "length" => Some(Event::LoadLength { helper }),
        "load" => Some(Event::LoadSlot {
            helper,
            offset: second,
        }),
        "settle" => Some(Event::Settle { helper }),
        "visit" => Some(Event::ShadeHelper { helper, at: second }),
        "give" => Some(Event::Give {
            helper,
            place: second,
            at,
        }),
        "take" => Some(Event::Take {
            helper,
            place: second,
        }),
        _ => None,
    }
}

/// The events that a text says.
fn events_of(alloc: Global, text: &str) -> Result<Vec<Event>, Fail> {
    let mut events = Vec::new(alloc);
    for part in text.split("; ") {
        let step = step_of(part)?;
        let event = main_event(step).or(helper_event(step));
        events.push(event.ok_or("no event has this name")?)?;
    }
    Ok(events)
}

/// The world that a cycle begins with, of a page with these words and with these cells, each born.
pub(crate) fn world(alloc: Global, words: &str, cells: &str) -> Result<World, Fail> {
    Ok(World {
        old: 2048,
        words: Items::from_vec(padded(alloc, words, 2048)?),
        layouts: Items::from_vec(padded(alloc, LAYOUTS, 8200)?),
        colours: Items::from_vec(vec![in alloc; 0u8; 2048]?),
        board: empty_board(alloc)?,
        main: MainView {
            starts: Items::from_vec(addresses(alloc, cells)?),
            born: Items::from_vec(addresses(alloc, cells)?),
            mine: Items::new(alloc),
            sure: Items::new(alloc),
            owed: Items::new(alloc),
            grey: Items::new(alloc),
            log: Items::new(alloc),
        },
        helpers: Views::new(alloc),
    })
}

/// What is seen of the first helper.
fn show_helper(text: &mut String, view: &HelperView) -> Result<(), Fail> {
    let (visit, log) = (view.visit.as_slice(), view.log.as_slice());
    write!(text, "; out {}; visit {visit:?}; log {log:?}", view.out)?;
    if let Some(last) = &view.last {
        write!(text, "; last {} {}", last.header, last.slots.count())?;
        if let Some(slot) = last.slots.get(0) {
            write!(text, "; slot {} {}", slot.offset, slot.word)?;
        }
    }
    Ok(())
}

/// The word has no target, or one that the mutator is sure of.
fn has_sure_target(world: &World, word: u64) -> bool {
    match Word(word).address() {
        Some(to) => to >= world.old || world.main.sure.as_slice().contains(&to),
        None => true,
    }
}

/// A cell is read at the address, and the mutator is sure of the targets of its tagged slots.
fn is_done(world: &World, at: u32) -> bool {
    let words = world.words.as_slice();
    let Some(cell) = read_cell(words, world.layouts.as_slice(), at, world.old) else {
        return false;
    };
    for offset in 0..cell.size {
        let word = world.words.get(at as usize + offset as usize).unwrap_or(0);
        if cell.layout.is_tagged(cell.length, offset) && !has_sure_target(world, word) {
            return false;
        }
    }
    true
}

/// The first words of the page, and the cells that the mutator made black and is not done with.
fn show_open(text: &mut String, alloc: Global, world: &World) -> Result<(), Fail> {
    let page = world.words.as_slice().get(..28).unwrap_or(&[]);
    let mut open = Vec::new(alloc);
    for at in world.main.mine.as_slice().iter() {
        if !is_done(world, *at) {
            open.push(*at)?;
        }
    }
    Ok(write!(text, "; page {page:?}; open {open:?}")?)
}

/// What is seen of a world: of its colours, words and board the first.
fn show(text: &mut String, alloc: Global, world: &World) -> Result<(), Fail> {
    let main = &world.main;
    let colours = world.colours.as_slice().get(..20).unwrap_or(&[]);
    let words = world.words.as_slice().get(..20).unwrap_or(&[]);
    let board = world.board.as_slice().get(..8).unwrap_or(&[]);
    let (mine, sure) = (main.mine.as_slice(), main.sure.as_slice());
    let (owed, grey) = (main.owed.as_slice(), main.grey.as_slice());
    write!(
        text,
        "colours {colours:?}; words {words:?}; board {board:?}; mine {mine:?}; "
    )?;
    write!(
        text,
        "sure {sure:?}; owed {owed:?}; grey {grey:?}; seats {}",
        world.helpers.count()
    )?;
    show_open(text, alloc, world)?;
    if let Some(view) = world.helpers.as_slice().first() {
        show_helper(text, view)?;
    }
    Ok(())
}

/// The world after events. No clause says which, so that proofs of tests need not read it.
fn carried(alloc: Global, start: &World, events: &[Event]) -> Result<World, StepStop> {
    replay(alloc, start, events)
}

/// What is seen of the world after events, which goes on from there; it stays where they stop.
fn go_on(text: &mut String, alloc: Global, now: &mut World, events: &[Event]) -> Result<(), Fail> {
    match carried(alloc, now, events) {
        Ok(next) => {
            *now = next;
            show(text, alloc, now)
        }
        Err(StepStop::NotEnabled { at }) => Ok(write!(text, "stops at {at}")?),
        Err(StepStop::NoMemory(refusal)) => Err(Fail::from(refusal)),
    }
}

/// The world that a row begins in is the first again.
fn reset(alloc: Global, start: &World, now: &mut World) -> Result<(), Fail> {
    *now = start.copied(alloc)?;
    Ok(())
}

/// What is seen of the end of a row's events.
fn show_end(alloc: Global, now: &mut World, events: &str) -> Result<String, Fail> {
    let events = events_of(alloc, events)?;
    let mut end = String::new(alloc);
    go_on(&mut end, alloc, now, events.as_slice())?;
    Ok(end)
}

/// The row ends as it says.
fn hold(
    rt: &impl Abort,
    alloc: Global,
    start: &World,
    now: &mut World,
    row: &str,
) -> Result<(), Fail> {
    let (events, wanted) = row.split_once(" -> ").ok_or("a row says no end")?;
    let rest = events.strip_prefix("then ");
    if rest.is_none() {
        reset(alloc, start, now)?;
    }
    let end = show_end(alloc, now, rest.unwrap_or(events))?;
    compare(rt, row, end.as_str(), wanted);
    Ok(())
}

/// Each row of the tables ends as it says.
pub(crate) fn hold_all(
    rt: &impl Abort,
    alloc: Global,
    start: &World,
    now: &mut World,
    tables: &[&str],
) -> Result<(), Fail> {
    for rows in tables {
        for row in rows.lines() {
            hold(rt, alloc, start, now, row)?;
        }
    }
    Ok(())
}

/// Each row of the tables ends as it says, from a world of these words and cells.
fn walk(
    rt: &impl Abort,
    alloc: Global,
    words: &str,
    cells: &str,
    tables: &[&str],
) -> Result<(), Fail> {
    let start = world(alloc, words, cells)?;
    let mut now = start.copied(alloc)?;
    hold_all(rt, alloc, &start, &mut now, tables)
}

#[test]
fn lists_of_events_end_as_worked_out(rt: HostRuntime) -> Result<(), Fail> {
    walk(
        &rt,
        rt.alloc(),
        WORDS,
        CELLS,
        &[SETTLING, BOARD, SHAPES, TRIM],
    )?;
    walk(&rt, rt.alloc(), WORDS, CELLS, &OF_MARKING)?;
    walk(
        &rt,
        rt.alloc(),
        changes::WORDS,
        changes::CELLS,
        &changes::ROWS,
    )?;
    walk(&rt, rt.alloc(), ODD, ODD_CELLS, &[NAMELESS])?;
    walk(&rt, rt.alloc(), LONG, "0 3", &[LENGTHS])
}
