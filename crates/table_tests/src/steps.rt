//! The main seat and a lent one, step by step, on a page with a list and its store (`shared_table`, `slot_snapshot`,
//! `work_board`). What is expected is worked out by hand.
ghost use Rattle.std.specs.Prelude.{◌≡◌, ◌≢◌, ◌⊎◌, ◌<◌, ℕ, Contains, IsSome, IsErr, Some};
ghost use Rattle.page_space.specs.Extents.{board_words};
ghost use Rattle.table_tests.specs.OneCell.{IsBare};
ghost use Rattle.table_tests.specs.Steps.{IsIdle, IsOpenWithTwo};
ghost use Rattle.table_tests.specs.TwoCells.{HasBegun};

use crate::cycles::{bare, own_words};
use crate::visits::{begin, fill};
use crew::OpenGate;
use shared_table::{Colour, Counts, HelperSeat, MainSide, SharedTable};
use slot_snapshot::{Helper, Visit};
use std::test::Fail;
use work_board::{Occupied, give, main_take, take};

/// Shades a cell, and gives it to a place of the board if it was white. Returns the colour that it had, and the word
/// that was there.
fn shade_and_give(side: &mut MainSide, at: u32, place: u32) -> (Colour, Option<u64>)
    requires two { IsOpenWithTwo side.old.main }
    requires one { (at ≡ 0) ⊎ (at ≡ 3) }
    requires on_board { place < board_words }
    ensures two { IsOpenWithTwo side.new.main }
    ensures out { side.new.main.out ≡ side.old.main.out }
    ensures table { side.new.table ≡ side.old.table }
{
    let colour = side.shade(at);
    match colour {
        Colour::White => (colour, Some(side.give_board(place, at))),
        _ => (colour, None),
    }
}

/// Takes the cell at a place, which waits with the main seat then.
fn take_to_main(side: &mut MainSide, place: u32) -> Option<u32>
    requires two { IsOpenWithTwo side.old.main }
    requires on_board { place < board_words }
    ensures two { IsOpenWithTwo side.new.main }
    ensures out { side.new.main.out ≡ side.old.main.out }
    ensures table { side.new.table ≡ side.old.table }
    ensures has { (at : ℕ) → at < 4 → result ≡ Some at → Contains side.new.main.view.grey at }
{
    main_take(side, place)
}

/// Takes the cell at a place, which waits with the lent seat then.
pub(crate) fn take_cell(seat: &mut HelperSeat, table: &SharedTable, place: u32) -> Option<u32>
    requires own { seat.old.table ≡ table.now.table.shared.table_id }
    requires idle { IsIdle seat.old }
    requires on_board { place < board_words }
    ensures table { seat.new.table ≡ seat.old.table }
    ensures idle { IsIdle seat.new }
    ensures has { (at : ℕ) → at < 4 → result ≡ Some at → Contains seat.new.lent.view.grey at }
    ensures keeps { (one : ℕ) → Contains seat.old.lent.view.grey one → Contains seat.new.lent.view.grey one }
{
    take(seat, table, place)
}

/// Gives a cell that waits with the lent seat to a place.
fn give_cell(
    seat: &mut HelperSeat,
    table: &SharedTable,
    place: u32,
    at: u32,
) -> Result<(), Occupied>
    requires own { seat.old.table ≡ table.now.table.shared.table_id }
    requires idle { IsIdle seat.old }
    requires on_board { place < board_words }
    requires waits { Contains seat.old.lent.view.grey at }
    ensures table { seat.new.table ≡ seat.old.table }
    ensures idle { IsIdle seat.new }
    ensures kept { IsErr result → Contains seat.new.lent.view.grey at }
    ensures keeps { (one : ℕ) → one ≢ at → Contains seat.old.lent.view.grey one →
        Contains seat.new.lent.view.grey one }
{
    give(seat, table, place, at)
}

/// The lent seat takes the list from its place, and then nothing; it can't give it where the store is, takes that, and
/// gives it back. Returns the word that was in its way; nothing if one of the steps found something else.
fn hand_on(seat: &mut HelperSeat, table: &SharedTable) -> Option<u64>
    requires own { seat.old.table ≡ table.now.table.shared.table_id }
    requires idle { IsIdle seat.old }
    ensures table { seat.new.table ≡ seat.old.table }
    ensures idle { IsIdle seat.new }
    ensures has { IsSome result → Contains seat.new.lent.view.grey 0 }
{
    let Some(0) = take_cell(seat, table, 0) else {
        return None;
    };
    let None = take_cell(seat, table, 0) else {
        return None;
    };
    let Err(occupied) = give_cell(seat, table, 1, 0) else {
        return None;
    };
    let Some(3) = take_cell(seat, table, 1) else {
        return None;
    };
    let Ok(()) = give_cell(seat, table, 1, 3) else {
        return None;
    };
    Some(occupied.found)
}

/// Visits the list, and shades its store. Returns the header that was read, the offset of its slot, and the colour that
/// the store had; nothing if the visit was dropped, or read anything but one reference to the store.
fn visit_list(
    seat: &mut HelperSeat,
    table: &SharedTable,
    helper: &mut Helper,
) -> Option<(u64, u32, Colour)>
    requires own { seat.old.table ≡ table.now.table.shared.table_id }
    requires idle { IsIdle seat.old }
    requires waits { Contains seat.old.lent.view.grey 0 }
    ensures table { seat.new.table ≡ seat.old.table }
    ensures idle { IsSome result → IsIdle seat.new }
{
    let Visit::Kept(snapshot) = helper.visit(seat, table, 0, &OpenGate) else {
        return None;
    };
    if snapshot.slots.len() != 1 {
        return None;
    }
    let slot = snapshot.slots[0];
    if slot.word != 13 {
        return None;
    }
    Some((snapshot.header, slot.offset, seat.shade(table, 3)))
}

/// Visits the store. Returns the colour that was found if the visit was dropped.
fn visit_store(seat: &mut HelperSeat, table: &SharedTable, helper: &mut Helper) -> Option<Colour>
    requires own { seat.old.table ≡ table.now.table.shared.table_id }
    requires idle { IsIdle seat.old }
    requires waits { Contains seat.old.lent.view.grey 3 }
    ensures table { seat.new.table ≡ seat.old.table }
{
    match helper.visit(seat, table, 3, &OpenGate) {
        Visit::Dropped { found } => Some(found),
        Visit::Kept(_) => None,
    }
}

/// What the steps of two seats come to: what was read of the list, its header and the offset of its slot, and the
/// colour that its store had then; the word that was at the place; and the colours that the two seats found.
#[derive(Clone, Copy, Debug, PartialEq, Eq)]
struct Meeting {
    list: (u64, u32, Colour),
    word: u64,
    found: [Colour; 2],
}

/// The main seat takes the store; the lent one visits the list; the store goes to the lent seat over the board, and the
/// main seat blackens it before the visit. Returns nothing if one of the steps found something else, or nothing was
/// handed on before.
fn meet(
    side: &mut MainSide,
    seat: &mut HelperSeat,
    table: &SharedTable,
    helper: &mut Helper,
    handed: Option<u64>,
) -> Option<Meeting>
    requires two { IsOpenWithTwo side.old.main }
    requires own { seat.old.table ≡ table.now.table.shared.table_id }
    requires idle { IsIdle seat.old }
    requires waits { IsSome handed → Contains seat.old.lent.view.grey 0 }
    ensures two { IsOpenWithTwo side.new.main }
    ensures out { side.new.main.out ≡ side.old.main.out }
    ensures of_side { side.new.table ≡ side.old.table }
    ensures of_seat { seat.new.table ≡ seat.old.table }
{
    handed?;
    let Some(3) = take_to_main(side, 1) else {
        return None;
    };
    let list = visit_list(seat, table, helper)?;
    let word = side.give_board(1, 3);
    let Some(3) = take_cell(seat, table, 1) else {
        return None;
    };
    let by_main = side.blacken(3);
    let by_helper = visit_store(seat, table, helper)?;
    let found = [by_main, by_helper];
    Some(Meeting { list, word, found })
}

/// Lends a seat for these steps.
fn lend_for(
    side: &mut MainSide,
    table: &SharedTable,
    helper: &mut Helper,
) -> (Option<u64>, Option<Meeting>)
    requires two { IsOpenWithTwo side.old.main }
    requires out { side.old.main.out ≡ 0 }
    requires own { side.old.table ≡ table.now.table.shared.table_id }
{
    let mut seat = side.lend();
    let handed = hand_on(&mut seat, table);
    let met = meet(side, &mut seat, table, helper, handed);
    side.take_back(seat);
    (handed, met)
}

#[test]
fn two_seats_hand_cells_to_one_another_and_visit_each_once(rt: HostRuntime) -> Result<(), Fail> {
    let own = own_words(rt.alloc())?;
    let counts = Counts {
        old: 2_048,
        shapes: 8_200,
    };
    let mut side = bare(rt.alloc(), counts)?;
    if side.counts().old >= 2_048 {
        fill(&mut side);
        begin(&mut side, &own);
        let list = shade_and_give(&mut side, 0, 0);
        let store = shade_and_give(&mut side, 3, 1);
        assert_eq!(rt; list, (Colour::White, Some(0)));
        assert_eq!(rt; store, (Colour::White, Some(0)));
        let table = side.table()?;
        let mut helper = Helper::new(rt.alloc())?;
        let (handed, met) = lend_for(&mut side, &table, &mut helper);
        assert_eq!(rt; handed, Some(13));
        let expected = Meeting {
            list: (6, 1, Colour::Grey),
            word: 0,
            found: [Colour::Grey, Colour::Black],
        };
        assert_eq!(rt; met, Some(expected));
    }
    Ok(())
}
