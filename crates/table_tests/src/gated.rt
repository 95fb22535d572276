//! A visit of a cell that the mutator changes before it, or in the middle of it, in one thread: at a gate that the
//! helper passes the mutator makes its steps (`slot_snapshot`). What is expected is worked out by hand.
ghost use Rattle.std.specs.Prelude.{◌≡◌, ◌<◌, Contains};
ghost use Rattle.table_tests.specs.CellPages.{IsOpenWithThree};
ghost use Rattle.table_tests.specs.Steps.{IsIdle};

use crate::cycles::own_words;
use crate::kinds::{LAYOUTS, NO_PROTO, TO_FIRST, TO_SECOND, opened, padded, page};
use crate::steps::take_cell;
use crew::{Gate, Point};
use shared_table::{Colour, HelperSeat, MainSide, SharedTable};
use slot_snapshot::{Helper, Visit};
use std::alloc::Global;
use std::cell::RefCell;
use std::test::Fail;
use tagged_word::NoMemory;

/// What the mutator does to the first cell of the page.
#[derive(Clone, Copy)]
enum Change {
    /// Nothing.
    Nothing,
    /// It makes the cell black, and stores two words, each with its address.
    Own([(u32, u64); 2]),
    /// It stores a reference to the second box in the slot at 3, and shades the box.
    Refer,
}

/// Stores a word below the two boxes, where only the first cell is, which the mutator has made black.
fn store_own(side: &mut MainSide, at: u32, word: u64)
    requires open { IsOpenWithThree side.old.main }
    requires mine { Contains side.old.main.view.mine 0 }
    ensures open { IsOpenWithThree side.new.main }
    ensures mine { Contains side.new.main.view.mine 0 }
{
    let _counts = side.counts();
    if at < 1_024 {
        side.store_owned(at, word);
    }
}

/// Makes the first cell black, and stores words in it.
fn own_cell(side: &mut MainSide, words: [(u32, u64); 2])
    requires { IsOpenWithThree side.old.main }
    ensures { IsOpenWithThree side.new.main }
{
    side.blacken(0);
    store_own(side, words[0].0, words[0].1);
    store_own(side, words[1].0, words[1].1);
}

/// Stores a reference to the second box in the slot at 3, and shades the box.
fn refer(side: &mut MainSide)
    requires { IsOpenWithThree side.old.main }
    ensures { IsOpenWithThree side.new.main }
{
    let _counts = side.counts();
    side.store_slot(3, TO_SECOND);
    side.shade(1_027);
}

/// Makes the steps of a change.
fn change_cell(side: &mut MainSide, change: Change)
    requires { IsOpenWithThree side.old.main }
    ensures { IsOpenWithThree side.new.main }
{
    match change {
        Change::Nothing => {}
        Change::Own(words) => own_cell(side, words),
        Change::Refer => refer(side),
    }
}

/// The main seat of the page, and what the mutator does at the gate.
#[derive(Drop)]
struct Mutator {
    side: MainSide,
    change: Change,
    ghost open: { IsOpenWithThree side.main },
}

impl Mutator {
    /// Makes the steps of its change.
    fn act(&mut self) {
        change_cell(&mut self.side, self.change);
    }
}

/// A gate at which the mutator acts once a helper has loaded the slots of a cell.
#[derive(Drop)]
struct Between {
    mutator: RefCell<Mutator>,
}

impl Gate for Between {
    fn pass(&self, point: Point) {
        if point == Point::HelperLoaded {
            if let Ok(mut mutator) = self.mutator.try_borrow_mut() {
                mutator.act();
            }
        }
    }
}

/// What a visit came to: the header that it read, how many slots, and the word of the third; or the colour that it
/// found.
#[derive(Clone, Copy, Debug, PartialEq, Eq)]
enum Found {
    Kept {
        header: u64,
        count: usize,
        third: u64,
    },
    Dropped(Colour),
}

/// Visits the first cell.
fn visit(seat: &mut HelperSeat, table: &SharedTable, helper: &mut Helper, gate: &Between) -> Found
    requires own { seat.old.table ≡ table.now.table.shared.table_id }
    requires idle { IsIdle seat.old }
    requires waits { Contains seat.old.lent.view.grey 0 }
{
    match helper.visit(seat, table, 0, gate) {
        Visit::Kept(snapshot) => {
            let third = match snapshot.slots.get(2) {
                Some(slot) => slot.word,
                None => 0,
            };
            Found::Kept {
                header: snapshot.header,
                count: snapshot.slots.len(),
                third,
            }
        }
        Visit::Dropped { found } => Found::Dropped(found),
    }
}

/// Takes the first cell from the board and visits it. The mutator makes one change before the visit, and one at the
/// gate. Returns what the visit came to, and the colours of the three cells. Nothing if the board has no cell.
fn run(
    alloc: Global,
    side: MainSide,
    before: Change,
    between: Change,
) -> Result<Option<(Found, [Colour; 3])>, NoMemory>
    requires open { IsOpenWithThree side.main }
    requires out { side.main.out ≡ 0 }
{
    let mut side = side;
    let table = side.table()?;
    let mut helper = Helper::new(alloc)?;
    let mut seat = side.lend();
    let Some(0) = take_cell(&mut seat, &table, 0) else {
        return Ok(None);
    };
    change_cell(&mut side, before);
    let gate = Between {
        mutator: RefCell::new(Mutator {
            side,
            change: between,
        }),
    };
    let found = visit(&mut seat, &table, &mut helper, &gate);
    let mut side = gate.mutator.into_inner().side;
    let colours = [side.colour(0), side.colour(1_024), side.colour(1_027)];
    Ok(Some((found, colours)))
}

/// A change before a visit, one in its middle, and whether the visit is kept.
#[derive(Clone, Copy)]
struct Case {
    name: &'static str,
    before: Change,
    between: Change,
    is_kept: bool,
}

impl Case {
    /// A case in which the mutator makes the cell black before the visit, and stores two words in it.
    fn spoiled(name: &'static str, first: (u32, u64), second: (u32, u64)) -> Case {
        Case {
            name,
            before: Change::Own([first, second]),
            between: Change::Nothing,
            is_kept: false,
        }
    }

    /// A case in which it makes a change in the middle of the visit.
    fn passed(name: &'static str, between: Change, is_kept: bool) -> Case {
        Case {
            name,
            before: Change::Nothing,
            between,
            is_kept,
        }
    }
}

/// The cases.
fn cases() -> [Case; 8] {
    let other_header = Change::Own([(3, 10), (0, 34)]);
    let no_length = (1, u64::MAX);
    [
        Case::passed("no change", Change::Nothing, true),
        Case::passed("another reference", Change::Refer, true),
        Case::passed("an integer, another header", other_header, false),
        Case::spoiled("a header without a shape", (0, 32_802), no_length),
        Case::spoiled("no header", (0, TO_FIRST), no_length),
        Case::spoiled("a store of no length", (0, 14), no_length),
        Case::spoiled("a store past the page", (0, 14), (1, 2_047)),
        Case::spoiled("a store of a page", (0, 14), (1, 2_046)),
    ]
}

/// What a case comes to: what the visit does, and the colours of the three cells.
fn expected(case: &Case) -> (Found, [Colour; 3]) {
    let kept = Found::Kept {
        header: 38,
        count: 4,
        third: TO_FIRST,
    };
    let found = if case.is_kept {
        kept
    } else {
        Found::Dropped(Colour::Black)
    };
    let last = match case.between {
        Change::Refer => Colour::Grey,
        _ => Colour::White,
    };
    (found, [Colour::Black, Colour::White, last])
}

#[test]
fn a_visit_is_dropped_where_the_mutator_made_the_cell_black(rt: HostRuntime) -> Result<(), Fail> {
    let alloc = rt.alloc();
    let own = own_words(alloc)?;
    let layouts = padded(alloc, &LAYOUTS, 8_200)?;
    // A plain cell with two slots besides those of its property store and its prototype.
    let words = page(alloc, &[38, 0, NO_PROTO, TO_FIRST, TO_SECOND])?;
    for case in cases() {
        let wanted = expected(&case);
        let side = opened(alloc, &own, words.as_slice(), layouts.as_slice())?;
        assert!(rt; side.is_some(), "{}", case.name);
        let Some(side) = side else {
            return Ok(());
        };
        let came = run(alloc, side, case.before, case.between)?;
        assert_eq!(rt; came, Some(wanted), "{}", case.name);
    }
    Ok(())
}
