//! Lists of events of a scavenge by workers, each from a fresh world. A row is a line: events that
//! come behind others, and what of their end is compared.

use crate::conditions;
use crate::text::{Step, addresses, compare, padded, step_of};
use core_parts::{Items, StepStop, empty_board};
use scav_copy::Room;
use scav_core::{Event, Workers, World, replay};
use std::alloc::Global;
use std::fmt::Write;
use std::process::Abort;
use std::test::Fail;

/// What a scavenge begins with: its words and layouts, its only cell, the slots that may refer to it,
/// and rooms, each with its worker, its first word and the word behind its last.
#[derive(Clone, Copy)]
pub(crate) struct Start<'t> {
    pub(crate) words: &'t str,
    pub(crate) layouts: &'t str,
    pub(crate) cells: &'t str,
    pub(crate) slots: &'t str,
    pub(crate) rooms: &'t str,
}

/// A list with object number 5 and nothing in it, two slots that refer to it, and two rooms.
const WORKED: Start<'static> = Start {
    words: "21474836486 3 0 0 1 1 0 0 0 0 0 0 0 0 0 0 0 0 0 0 0 0 0 0",
    layouts: "0 2",
    cells: "0",
    slots: "4 5",
    rooms: "room 0 8 14; room 1 16 20",
};

/// A plain cell whose first in-object slot is raw has the bits of a reference there. Its prototype slot and the other
/// in-object slot refer to it.
const RAW: Start<'static> = Start {
    words: "9 0 6 3 9 9 9 0 0 0 0 0",
    layouts: "0 4641",
    cells: "2",
    slots: "0",
    rooms: "room 0 7 12",
};

/// Both workers read the slots and the cell, and copy it.
const COPIES: &str =
    "lend; lend; load 0 4; load 1 5; header 0; header 1; body 0; body 0; body 1; body 1; \
    copy 0 8 21474836486; copy 0 9 3; copy 0 10 0; copy 1 16 21474836486; copy 1 17 3; copy 1 18 0; ";

/// The copy of the first counts, and both slots refer to it: 20 events in all.
const BOTH: &str =
    "lend; lend; load 0 4; load 1 5; header 0; header 1; body 0; body 0; body 1; body 1; \
    copy 0 8 21474836486; copy 0 9 3; copy 0 10 0; copy 1 16 21474836486; copy 1 17 3; copy 1 18 0; \
    forward 0 8; forward 1 16; redirect 0; redirect 1; ";

/// The loser of two takes the copy of the winner. A copy goes over the board. What comes behind a
/// copy, which worker 0 has to do, is possible or stops.
const BEHIND: &str = "\
look -> \
    words [33, 3, 0, 0, 33, 33, 0, 0, 21474836486, 3, 0, 0, 0, 0, 0, 0, 21474836486, 3, 0, 0, 0, 0, 0, 0]; \
    home 0 8; homes 1; todo 0 [8]; todo 1 []; workers 2
give 0 3 8; take 1 3; load 1 9; return 0; return 1 -> \
    todo 0 []; todo 1 [8]; log 0 [Loaded { at: 4 }, Gave { place: 3, found: 0 }]; \
    log 1 [Loaded { at: 5 }, Took { place: 3, found: 33 }, Loaded { at: 9 }]; out 0
load 0 10 -> stops at 20
load 1 17 -> stops at 20
copy 0 8 1 -> stops at 20
copy 1 11 1 -> stops at 20
give 0 63 8 -> todo 0 []
give 0 64 8 -> stops at 20
take 1 63 -> todo 1 []
take 1 64 -> stops at 20
give 0 3 16 -> stops at 20
give 0 3 8; give 0 4 8 -> stops at 21
give 1 3 8 -> stops at 20
load 0 9 -> out 2
load 0 9; load 0 9 -> out 2
load 2 4 -> stops at 20
lend; load 2 4 -> out 3
return 0; load 0 9 -> stops at 21
return 0; load 1 9 -> out 1
return 0; return 0 -> stops at 21
return 2 -> stops at 20
return 0; lend; load 0 9 -> stops at 22";

/// Of no event that changes it, the start is left. A forwarding word is not forwarded. The eighth
/// worker at a time stops the run. A worker at a slot reads no other.
const EARLY: &str = "\
look -> words [21474836486, 3, 0, 0, 1, 1, 0, 0, 0, 0, 0, 0, 0, 0, 0, 0, 0, 0, 0, 0, 0, 0, 0, 0]; homes 0; workers 0
lend; load 0 4; header 0; body 0; body 0; copy 0 8 21474836486; copy 0 9 3; copy 0 10 0; forward 0 8; \
    copy 0 11 33; copy 0 12 3; copy 0 13 0; forward 0 11 -> stops at 12
lend; lend; lend; lend; lend; lend; lend -> out 7
lend; lend; lend; lend; lend; lend; lend; lend -> stops at 7
lend; lend; lend; lend; lend; lend; lend; return 3; lend -> out 7; workers 8
lend; lend; lend; lend; lend; lend; lend; return 3; lend; lend -> stops at 9
lend; lend; lend; lend; lend; lend; lend; return 3; return 3 -> stops at 8
lend; lend; load 0 4 -> out 2
lend; lend; load 0 4; load 1 4 -> out 2
lend; lend; load 0 4; load 0 5 -> stops at 3
lend; lend; load 0 4; load 0 4 -> stops at 3
lend; lend; header 0 -> stops at 2
lend; lend; load 0 4; body 0 -> stops at 3
lend; lend; load 0 4; header 0; body 0; body 0 -> out 2
lend; lend; load 0 4; header 0; header 0 -> stops at 4
lend; lend; load 0 4; header 0; body 0; body 0; body 0 -> stops at 6
lend; lend; load 0 4; header 0; redirect 0 -> stops at 4
lend; load 1 4 -> stops at 1";

/// A raw slot keeps its bits, and the slots beside it are renamed.
const KEPT: &str = "\
lend; load 0 0; header 0; body 0; body 0; body 0; body 0; \
    copy 0 7 6; copy 0 8 3; copy 0 9 9; copy 0 10 9; copy 0 11 9; forward 0 7; redirect 0; \
    load 0 8; load 0 9; header 0; redirect 0; load 0 11; header 0; redirect 0 -> \
    words [29, 0, 29, 3, 9, 9, 9, 6, 3, 29, 9, 29]";

/// The event that a step says.
fn event(step: Step<'_>) -> Option<Event> {
    let (worker, second, word) = (step.first, step.second, step.word);
    match step.name {
        "look" => Some(Event::Look {}),
        "lend" => Some(Event::Lend {}),
        "return" => Some(Event::Return { worker }),
        "load" => Some(Event::LoadSlot {
            worker,
            slot: second,
        }),
        "header" => Some(Event::LoadHeader { worker }),
        "body" => Some(Event::LoadBody { worker }),
        "copy" => Some(Event::CopyWord {
            worker,
            at: second,
            word,
        }),
        "forward" => Some(Event::Forward { worker, to: second }),
        "redirect" => Some(Event::Redirect { worker }),
        "give" => Some(Event::Give {
            worker,
            place: second,
            at: step.third,
        }),
        "take" => Some(Event::Take {
            worker,
            place: second,
        }),
        _ => None,
    }
}

/// The events that a text says.
fn events_of(alloc: Global, text: &str) -> Result<Vec<Event>, Fail> {
    let mut events = Vec::new(alloc);
    for part in text.split("; ") {
        let event = event(step_of(part)?);
        events.push(event.ok_or("no event has this name")?)?;
    }
    Ok(events)
}

/// The rooms of a text.
fn rooms_of(alloc: Global, text: &str) -> Result<Items<Room>, Fail> {
    let mut rooms = Items::new(alloc);
    for part in text.split("; ") {
        let room = step_of(part)?;
        rooms.push(Room {
            worker: room.first,
            from: room.second,
            to: room.third,
        })?;
    }
    Ok(rooms)
}

/// The fresh world of a start.
fn world(alloc: Global, start: Start<'_>) -> Result<World, Fail> {
    Ok(World {
        before: Items::from_vec(padded(alloc, start.words, 0)?),
        words: Items::from_vec(padded(alloc, start.words, 0)?),
        layouts: Items::from_vec(padded(alloc, start.layouts, 0)?),
        cells: Items::from_vec(addresses(alloc, start.cells)?),
        slots: Items::from_vec(addresses(alloc, start.slots)?),
        rooms: rooms_of(alloc, start.rooms)?,
        homes: Items::new(alloc),
        board: empty_board(alloc)?,
        workers: Workers::new(alloc),
    })
}

/// What is seen of a world.
fn show(text: &mut String, world: &World) -> Result<(), Fail> {
    if let Some(home) = world.homes.get(0) {
        write!(text, "home {} {}; ", home.from, home.to)?;
    }
    for (i, view) in world.workers.as_slice().iter().enumerate() {
        write!(
            text,
            "todo {i} {:?}; log {i} {:?}; ",
            view.todo.as_slice(),
            view.log.as_slice()
        )?;
    }
    write!(
        text,
        "words {:?}; homes {}; ",
        world.words.as_slice(),
        world.homes.count()
    )?;
    write!(
        text,
        "workers {}; out {}",
        world.workers.count(),
        world.workers.count_out()
    )?;
    Ok(())
}

/// The world after events. No clause says which, so that proofs of tests need not read it.
fn carried(alloc: Global, start: &World, events: &[Event]) -> Result<World, StepStop> {
    replay(alloc, start, events)
}

/// What is seen of a world. It is copied for it, with the views of its workers, by no events.
fn show_copy(text: &mut String, alloc: Global, world: &World) -> Result<(), Fail> {
    let copy = carried(alloc, world, &[])?;
    show(text, &copy)
}

/// What is seen of the end of events.
fn show_end(text: &mut String, alloc: Global, start: &World, events: &[Event]) -> Result<(), Fail> {
    match carried(alloc, start, events) {
        Ok(world) => show_copy(text, alloc, &world),
        Err(StepStop::NotEnabled { at }) => Ok(write!(text, "stops at {at}")?),
        Err(StepStop::NoMemory(refusal)) => Err(Fail::from(refusal)),
    }
}

/// The row ends as it says, behind these events.
fn hold(
    rt: &impl Abort,
    alloc: Global,
    start: &World,
    before: &str,
    row: &str,
) -> Result<(), Fail> {
    let (more, wanted) = row.split_once(" -> ").ok_or("a row says no end")?;
    let text = format!(in alloc; "{before}{more}")?;
    let events = events_of(alloc, text.as_str())?;
    let mut end = String::new(alloc);
    show_end(&mut end, alloc, start, events.as_slice())?;
    compare(rt, row, end.as_str(), wanted);
    Ok(())
}

/// Each row ends as it says, behind these events.
fn hold_all(
    rt: &impl Abort,
    alloc: Global,
    start: &World,
    before: &str,
    rows: &str,
) -> Result<(), Fail> {
    for row in rows.lines() {
        hold(rt, alloc, start, before, row)?;
    }
    Ok(())
}

/// Each row ends as it says, behind these events, from a world of this start.
fn walk(
    rt: &impl Abort,
    alloc: Global,
    start: Start<'_>,
    before: &str,
    rows: &str,
) -> Result<(), Fail> {
    let start = world(alloc, start)?;
    hold_all(rt, alloc, &start, before, rows)
}

#[test]
fn lists_of_events_end_as_worked_out(rt: HostRuntime) -> Result<(), Fail> {
    walk(&rt, rt.alloc(), WORKED, BOTH, BEHIND)?;
    walk(&rt, rt.alloc(), WORKED, COPIES, "redirect 0 -> stops at 16")?;
    walk(&rt, rt.alloc(), WORKED, "", EARLY)?;
    walk(&rt, rt.alloc(), RAW, "", KEPT)?;
    walk(
        &rt,
        rt.alloc(),
        conditions::BOXES,
        conditions::COPIED,
        conditions::ROOMS,
    )?;
    walk(&rt, rt.alloc(), conditions::PAST, "", conditions::NOWHERE)
}
