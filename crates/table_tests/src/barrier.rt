//! Whole steps of the mutator on a page with three cells (`mark_barrier`). What is expected is worked out by hand.
ghost use Rattle.std.specs.Prelude.{◌≡◌, ◌<◌, [], true, length, Contains};
ghost use Rattle.tagged_word.specs.Shapes.{shapes_most};
ghost use Rattle.page_space.specs.Extents.{eden_start};
ghost use Rattle.cell_layout.specs.Cells.{layouts_in};
ghost use Rattle.mark_world.specs.Pages.{OfTarget};
ghost use Rattle.mark_world.specs.Safety.{FitsTaggedSlot};
ghost use Rattle.heap_table.specs.Overviews.{overview};
ghost use Rattle.mark_barrier.specs.Waiting.{empty_to};
ghost use Rattle.table_tests.specs.BareSeats.{IsBareSeat};
ghost use Rattle.table_tests.specs.BegunSeats.{HasFirstBlack, IsMarking};
ghost use Rattle.table_tests.specs.CellPages.{three_starts};

use crate::cells::{Three, are_cells, word_at};
use crate::kinds::{LAYOUTS, NO_PROTO, TO_FIRST, TO_SECOND, TO_YOUNG, long_store, padded, put};
use crate::seats::bare;
use heap_table::{Colour, MainSeat};
use mark_barrier::GreyCells;
use std::alloc::Global;
use std::test::Fail;
use tagged_word::{NoMemory, Word, shape};

/// Puts words in the page, while no cycle is open.
fn fill_page(seat: &mut MainSeat, words: &[u64])
    requires bare { IsBareSeat seat.old }
    requires page { eden_start seat.old.space ≡ 2048 }
    ensures bare { IsBareSeat seat.new }
    ensures space { seat.new.space ≡ seat.old.space }
{
    let _regions = seat.regions();
    for a in 0..2_048 {
        seat.store_owned(a, word_at(words, a as u64));
    }
}

/// Puts the layout words of all shapes.
fn fill_shapes(seat: &mut MainSeat, layouts: &[u64])
    requires bare { IsBareSeat seat.old }
    requires count { length layouts.now ≡ shapes_most }
    ensures bare { IsBareSeat seat.new }
    ensures space { seat.new.space ≡ seat.old.space }
    ensures layouts { (overview seat.new).layouts ≡ layouts.now }
{
    for shape in 0..shape::COUNT {
        seat.put_layout(shape, word_at(layouts, shape as u64));
    }
}

/// Whether the own layout words are these.
fn are_layouts(seat: &MainSeat, layouts: &[u64]) -> bool
    ensures { result ≡ true → layouts_in seat.now.space seat.now.table ≡ layouts.now }
{
    let start = seat.regions().layout_at(0) as usize;
    match seat.own().as_slice().get(start..) {
        Some(rest) => match rest.get(..shape::COUNT as usize) {
            Some(own) => own == layouts,
            None => false,
        },
        None => false,
    }
}

/// Puts words and layout words, and opens a cycle with the three cells, if there are such cells. Returns whether there
/// are.
fn begin(
    seat: &mut MainSeat,
    grey: &mut GreyCells,
    words: &[u64],
    layouts: &[u64],
    starts: &[u64],
) -> bool
    requires bare { IsBareSeat seat.old }
    requires page { eden_start seat.old.space ≡ 2048 }
    requires count { length layouts.now ≡ shapes_most }
    requires three { starts.now ≡ three_starts }
    requires empty { grey.old ≡ empty_to 2048 }
    ensures { result ≡ true → IsMarking seat.new grey.new }
{
    fill_page(seat, words);
    fill_shapes(seat, layouts);
    let Some(page) = seat.own().as_slice().get(..2_048) else {
        return false;
    };
    if !are_layouts(seat, layouts) {
        return false;
    }
    if !are_cells(2_048, page, layouts, starts) {
        return false;
    }
    seat.open_cycle::<Three>(0);
    true
}

/// Makes the first cell black.
fn blacken_first(seat: &mut MainSeat, grey: &mut GreyCells)
    requires { IsMarking seat.old grey.old }
    ensures { HasFirstBlack seat.new grey.new }
{
    grey.blacken(seat, 0);
}

/// Stores a word in a slot of the first cell, which is black.
fn store_in_first(seat: &mut MainSeat, grey: &mut GreyCells, at: u32, word: u64)
    requires first { HasFirstBlack seat.old grey.old }
    requires before { at < 1024 }
    requires fits { FitsTaggedSlot word }
    requires born { OfTarget 2048 word (Contains three_starts) }
    ensures { HasFirstBlack seat.new grey.new }
{
    let _regions = seat.regions();
    grey.store(seat, at, Word(word));
}

/// Stores a reference to the third cell, and one to a young cell, in the first one.
fn store_both(seat: &mut MainSeat, grey: &mut GreyCells)
    requires { HasFirstBlack seat.old grey.old }
    ensures { HasFirstBlack seat.new grey.new }
{
    store_in_first(seat, grey, 3, TO_SECOND);
    store_in_first(seat, grey, 4, TO_YOUNG);
}

/// Stores the two references, if it is to.
fn change_first(seat: &mut MainSeat, grey: &mut GreyCells, stores: bool)
    requires { HasFirstBlack seat.old grey.old }
    ensures { HasFirstBlack seat.new grey.new }
{
    if stores {
        store_both(seat, grey);
    }
}

/// Visits all that waits.
fn scan(seat: &mut MainSeat, grey: &mut GreyCells)
    requires { IsMarking seat.old grey.old }
    ensures { IsMarking seat.new grey.new }
{
    grey.scan(seat);
}

/// The colours of the three cells.
fn colours(seat: &mut MainSeat, grey: &GreyCells) -> [Colour; 3]
    requires { IsMarking seat.old grey.now }
    ensures same { seat.new ≡ seat.old }
{
    seat.colours_fit();
    [seat.colour(0), seat.colour(1_024), seat.colour(1_027)]
}

/// The words of a page with a cell at its start, an object with no field at 1,024, whose store slot refers to the third
/// cell, and that at 1,027, a weak map's table with a pair that refers to the second one.
fn page(alloc: Global, cell: &[u64]) -> Result<Vec<u64>, NoMemory> {
    let mut words = padded(alloc, cell, 2_048)?;
    put(&mut words, 1_024, 42);
    put(&mut words, 1_025, TO_SECOND);
    put(&mut words, 1_026, NO_PROTO);
    put(&mut words, 1_027, 18);
    put(&mut words, 1_028, 1);
    put(&mut words, 1_029, TO_FIRST);
    Ok(words)
}

/// The layout words of all shapes: those of the other tests, and that of a plain object with no field.
fn layouts(alloc: Global) -> Result<Vec<u64>, NoMemory> {
    let mut words = padded(alloc, &LAYOUTS, 8_200)?;
    put(&mut words, 10, 1);
    Ok(words)
}

/// A page with a cell at its start, whether the mutator stores references in it once it is black, and the colours of
/// the three cells: after that, and once all that waits is visited.
#[derive(Clone, Copy)]
struct Case<'a> {
    name: &'static str,
    cell: &'a [u64],
    stores: bool,
    blackened: [Colour; 3],
    scanned: [Colour; 3],
}

/// The cases: the targets of the cell's slots, and what is stored later.
fn cases<'a>(long: &'a [u64]) -> [Case<'a>; 3] {
    [
        Case {
            name: "two slots",
            cell: &[38, 0, NO_PROTO, TO_FIRST, TO_YOUNG],
            stores: false,
            blackened: [Colour::Black, Colour::Grey, Colour::White],
            scanned: [Colour::Black; 3],
        },
        Case {
            name: "a store of 1,000",
            cell: long,
            stores: false,
            blackened: [Colour::Black, Colour::White, Colour::Grey],
            scanned: [Colour::Black, Colour::White, Colour::Black],
        },
        Case {
            name: "two slots with integers, and a stored reference",
            cell: &[38, 0, NO_PROTO, 10, 10],
            stores: true,
            blackened: [Colour::Black, Colour::White, Colour::Grey],
            scanned: [Colour::Black, Colour::White, Colour::Black],
        },
    ]
}

#[test]
fn what_a_black_cell_refers_to_is_shaded_and_visited(rt: HostRuntime) -> Result<(), Fail> {
    let alloc = rt.alloc();
    let long = long_store(alloc)?;
    let layouts = layouts(alloc)?;
    for case in cases(long.as_slice()) {
        let words = page(alloc, case.cell)?;
        let mut seat = bare(alloc)?;
        let mut grey = GreyCells::new(alloc, seat.regions())?;
        assert!(rt; layouts.len() == 8_200);
        let begins = begin(
            &mut seat,
            &mut grey,
            words.as_slice(),
            layouts.as_slice(),
            &[0, 1_024, 1_027],
        );
        assert!(rt; begins, "{}", case.name);
        assert!(rt;
            colours(&mut seat, &grey) == [Colour::White; 3],
            "{}",
            case.name
        );
        blacken_first(&mut seat, &mut grey);
        change_first(&mut seat, &mut grey, case.stores);
        assert!(rt;
            colours(&mut seat, &grey) == case.blackened,
            "{}",
            case.name
        );
        scan(&mut seat, &mut grey);
        assert!(rt; colours(&mut seat, &grey) == case.scanned, "{}", case.name);
    }
    Ok(())
}
