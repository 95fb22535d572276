//! The main seat of a heap of one page, with a shared table (`heap_table`): two cycles, in each of which a cell is
//! made. What is expected is worked out by hand.
ghost use Rattle.std.specs.Prelude.{◌≡◌, ◌+◌, ◌<◌, IfOk};
ghost use Rattle.page_space.specs.Extents.{eden_start};
ghost use Rattle.heap_table.specs.Overviews.{overview};
ghost use Rattle.table_tests.specs.BareSeats.{HasNoLayout, HasOneCellOpen, IsBareSeat};

use crate::cycles::Empty;
use heap_table::{Colour, HeapTable, MainSeat};
use page_space::{Regions, Sizes};
use std::alloc::Global;
use std::test::Fail;
use tagged_word::NoMemory;
use word_store::Reads;

/// A seat with a shared table, for a heap of one page.
pub(crate) fn bare(alloc: Global) -> Result<MainSeat, NoMemory>
    ensures bare { IfOk result (λ seat. IsBareSeat seat) }
    ensures layouts { IfOk result (λ seat. HasNoLayout seat 17) }
    ensures page { IfOk result (λ seat. eden_start seat.space ≡ 2048) }
{
    let sizes = Sizes {
        pages: 1,
        young: 64,
        helpers: 0,
    };
    HeapTable::open(alloc, Regions::new(sizes, 1), true)
}

/// Opens a cycle, and makes a black cell in it.
fn begin(seat: &mut MainSeat, at: u32)
    requires bare { IsBareSeat seat.old }
    requires within { at < eden_start seat.old.space }
    ensures cell { HasOneCellOpen seat.new at }
    ensures layouts { (overview seat.new).layouts ≡ (overview seat.old).layouts }
    ensures space { seat.new.space ≡ seat.old.space }
{
    seat.open_cycle::<Empty>(0);
    seat.new_black(at);
}

/// Stores a word next to the cell where no helper visits.
fn store_owned(seat: &mut MainSeat, at: u32)
    requires cell { HasOneCellOpen seat.old at }
    requires within { at + 1 < eden_start seat.old.space }
    ensures cell { HasOneCellOpen seat.new at }
    ensures space { seat.new.space ≡ seat.old.space }
{
    // No address of a heap is past 32 bits.
    seat.regions().sizes_fit();
    seat.store_owned(at + 1, 5);
}

/// Stores the small integer 5 behind that word, as in a slot.
fn store_slot(seat: &mut MainSeat, at: u32)
    requires cell { HasOneCellOpen seat.old at }
    requires within { at + 2 < eden_start seat.old.space }
    ensures cell { HasOneCellOpen seat.new at }
    ensures space { seat.new.space ≡ seat.old.space }
{
    // No address of a heap is past 32 bits.
    seat.regions().sizes_fit();
    seat.store_slot(at + 2, 10);
}

/// Fills four words of eden with 7 in the open cycle, and copies two of them.
fn put_behind(seat: &mut MainSeat, at: u32)
    requires cell { HasOneCellOpen seat.old at }
    requires page { eden_start seat.old.space ≡ 2048 }
    ensures cell { HasOneCellOpen seat.new at }
    ensures space { seat.new.space ≡ seat.old.space }
{
    let _regions = seat.regions();
    if seat.count() >= 2_102 {
        seat.fill_own(2_048, 4, 7);
        seat.copy_own(2_050, 2_100, 2);
    }
}

/// Puts the layout word of shape 5 while no cycle is open.
fn lay(seat: &mut MainSeat)
    requires { IsBareSeat seat.old }
{
    seat.put_layout(5, 0x12);
}

/// The colours of the cell before seven seats are lent, and after they are taken back.
fn lend_seven(seat: &mut MainSeat, at: u32) -> [Colour; 2]
    requires { HasOneCellOpen seat.old at }
{
    seat.regions().sizes_fit();
    let before = seat.colour(at);
    let first = seat.lend();
    let second = seat.lend();
    let third = seat.lend();
    let fourth = seat.lend();
    let fifth = seat.lend();
    let sixth = seat.lend();
    let seventh = seat.lend();
    seat.take_back(seventh);
    seat.take_back(first);
    seat.take_back(second);
    seat.take_back(third);
    seat.take_back(fourth);
    seat.take_back(fifth);
    seat.take_back(sixth);
    [before, seat.colour(at)]
}

/// Adds the layout word of a plain object with one field for shape 17.
fn add(seat: &mut MainSeat, at: u32)
    requires cell { HasOneCellOpen seat.old at }
    requires layout { HasNoLayout seat.old 17 }
    ensures cell { HasOneCellOpen seat.new at }
    ensures space { seat.new.space ≡ seat.old.space }
{
    seat.add_layout(17, 0x111);
}

/// Which colours the cell has had: when it was shaded, when it was blackened, and after the end of the cycle, before
/// all cells become white.
fn finish(seat: &mut MainSeat, at: u32) -> [Colour; 3]
    requires { HasOneCellOpen seat.old at }
    ensures bare { IsBareSeat seat.new }
    ensures space { seat.new.space ≡ seat.old.space }
{
    seat.regions().sizes_fit();
    let shaded = seat.shade(at);
    let blackened = seat.blacken(at);
    seat.close_cycle();
    let closed = seat.colour(at);
    seat.whiten();
    [shaded, blackened, closed]
}

/// The colour of a cell of a page, while no cycle is open.
fn colour_at(seat: &mut MainSeat, at: u32) -> Colour
    requires bare { IsBareSeat seat.old }
    requires within { at < eden_start seat.old.space }
    ensures same { seat.new ≡ seat.old }
{
    seat.colour(at)
}

/// The word at an address, as commands read it.
fn word_at(seat: &MainSeat, a: u32) -> Option<u64> {
    let _regions = seat.regions();
    if a < seat.count() {
        Some(seat.word(a))
    } else {
        None
    }
}

#[test]
fn a_cycle_follows_another_on_a_seat(rt: HostRuntime) -> Result<(), Fail> {
    let mut seat = bare(rt.alloc())?;
    begin(&mut seat, 0);
    add(&mut seat, 0);
    store_owned(&mut seat, 0);
    store_slot(&mut seat, 0);
    assert!(rt; word_at(&seat, 1) == Some(5) && word_at(&seat, 2) == Some(10));
    assert!(rt; word_at(&seat, seat.regions().layout_at(17)) == Some(0x111));
    assert!(rt; finish(&mut seat, 0) == [Colour::Black; 3]);
    assert!(rt; colour_at(&mut seat, 0) == Colour::White);
    begin(&mut seat, 1_000);
    store_owned(&mut seat, 1_000);
    store_slot(&mut seat, 1_000);
    assert!(rt; word_at(&seat, 1_001) == Some(5) && word_at(&seat, 1_002) == Some(10));
    put_behind(&mut seat, 1_000);
    assert!(rt; word_at(&seat, 2_051) == Some(7) && word_at(&seat, 2_052) == Some(0));
    assert!(rt; word_at(&seat, 2_101) == Some(7) && word_at(&seat, 2_102) == Some(0));
    assert!(rt; lend_seven(&mut seat, 1_000) == [Colour::Black; 2]);
    Ok(())
}

#[test]
fn a_layout_word_is_put_while_no_cycle_is_open(rt: HostRuntime) -> Result<(), Fail> {
    let mut seat = bare(rt.alloc())?;
    lay(&mut seat);
    assert!(rt; word_at(&seat, seat.regions().layout_at(5)) == Some(0x12));
    assert!(rt; word_at(&seat, seat.regions().layout_at(6)) == Some(0));
    Ok(())
}
