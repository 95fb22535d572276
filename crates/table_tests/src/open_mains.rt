//! The mutator in a cycle of marking that begins with four cells of a page (`write_barrier`), and the colours of these
//! as a helper reads them.
ghost use Rattle.std.specs.Prelude.{◌≡◌, ◌<◌, ◌≤◌, ◌+◌, [], true, Contains, drop, take, IfOk};
ghost use Rattle.page_space.specs.Extents.{eden_start, marks_start};
ghost use Rattle.write_barrier.specs.Seats.{heap_words};
ghost use Rattle.table_tests.specs.OpenMains.{four_starts, IsBareMain, IsMarkingMain, IsSeatOfPage};

use crate::cells::{are_cells, is_in};
use crate::waiting_mains::wait;
use cell_list::CellList;
use shared_table::{Choice, HelperSeat, SharedTable};
use std::alloc::Global;
use tagged_word::{NoMemory, Word, shape};
use word_store::Reads;
use write_barrier::Main;

/// The cycle that begins with the four cells of a page.
struct Four;

impl Choice for Four {
    ghost use Rattle.table_tests.specs.OpenMains.{IsOfFour};

    ghost fits = { IsOfFour };
}

/// Puts a word in the page, if it has the address, while no cycle is open.
fn put_word(main: &mut Main, at: usize, word: u64)
    requires bare { IsBareMain main.old }
    ensures bare { IsBareMain main.new }
{
    main.addresses_fit();
    if at < 2_048 {
        main.write(at as u32, word);
    }
}

/// Puts words in the page from an address on, while no cycle is open.
pub(crate) fn put_words(main: &mut Main, at: u32, words: &[u64])
    requires bare { IsBareMain main.old }
    ensures bare { IsBareMain main.new }
{
    for (k, word) in words.iter().enumerate() {
        put_word(main, (at as usize).saturating_add(k), *word);
    }
}

/// So many words from an address on.
fn words_from(alloc: Global, main: &Main, from: u32, count: u32) -> Result<Vec<u64>, NoMemory>
    requires { from + count ≤ marks_start main.now.seat.space }
    ensures { IfOk result (λ words. words.items ≡ take count (drop from (heap_words main.now.seat))) }
{
    main.addresses_fit();
    let mut words = Vec::new(alloc);
    for k in 0..count {
        words.push(main.word(from + k))?;
    }
    Ok(words)
}

/// Opens a cycle with the four cells, if there are such cells. Returns whether there are.
pub(crate) fn begin(alloc: Global, main: &mut Main) -> Result<bool, NoMemory>
    requires bare { IsBareMain main.old }
    ensures { IfOk result (λ begins. begins ≡ true → IsMarkingMain main.new) }
{
    let regions = main.regions();
    let words = words_from(alloc, main, 0, 2_048)?;
    let layouts = words_from(alloc, main, regions.layout_at(0), shape::COUNT)?;
    if !are_cells(
        2_048,
        words.as_slice(),
        layouts.as_slice(),
        &[0, 1_024, 1_032, 1_040],
    ) {
        return Ok(false);
    }
    main.open_cycle::<Four>(0);
    Ok(true)
}

/// Closes the cycle before its marking has ended.
pub(crate) fn end(main: &mut Main)
    requires marking { IsMarkingMain main.old }
    ensures bare { IsBareMain main.new }
{
    main.drop_cycle();
}

/// The colour of a word of the page, by its number, as a helper reads it.
fn colour_at(seat: &mut HelperSeat, table: &SharedTable, at: u32) -> u64
    requires seat { IsSeatOfPage seat.old table.now }
    requires within { at < 2048 }
    ensures same { seat.new ≡ seat.old }
{
    let counts = seat.counts();
    seat.look(
        table,
        counts.old as usize + counts.shapes as usize + at as usize,
    )
}

/// The colours of the four cells, by their numbers, as a helper reads them.
pub(crate) fn colours(alloc: Global, main: &mut Main) -> Result<[u64; 4], NoMemory>
    requires marking { IsMarkingMain main.old }
    ensures marking { IsMarkingMain main.new }
{
    let table = main.table()?;
    let mut waiting = CellList::new(alloc, 2_048)?;
    let mut seat = main.lend();
    let found = [
        colour_at(&mut seat, &table, 0),
        colour_at(&mut seat, &table, 1_024),
        colour_at(&mut seat, &table, 1_032),
        colour_at(&mut seat, &table, 1_040),
    ];
    main.take_back(seat, &mut waiting);
    Ok(found)
}

/// Stores a reference in a slot of the first cell.
fn store_in_first(main: &mut Main, offset: u32, to: u32)
    requires marking { IsMarkingMain main.old }
    requires no_head { 2 ≤ offset }
    requires before { offset < 1024 }
    requires born { to < 2048 → Contains four_starts to }
    ensures marking { IsMarkingMain main.new }
{
    main.addresses_fit();
    main.store(0, offset, Word::reference(to));
}

/// Stores a reference in the first slot of a young cell.
fn store_in_young(main: &mut Main, to: u32)
    requires marking { IsMarkingMain main.old }
    ensures marking { IsMarkingMain main.new }
{
    main.addresses_fit();
    main.store(2_048, 2, Word::reference(to));
}

/// Makes a cell black.
fn blacken(main: &mut Main, at: u32)
    requires marking { IsMarkingMain main.old }
    requires within { at ≤ 2048 }
    requires born { at < 2048 → Contains four_starts at }
    ensures marking { IsMarkingMain main.new }
{
    main.addresses_fit();
    main.blacken(at);
}

/// Shades a cell.
fn shade(main: &mut Main, at: u32)
    requires marking { IsMarkingMain main.old }
    requires born { Contains four_starts at }
    ensures marking { IsMarkingMain main.new }
{
    main.shade(at);
}

/// Visits all that waits.
fn scan(main: &mut Main)
    requires marking { IsMarkingMain main.old }
    ensures marking { IsMarkingMain main.new }
{
    main.scan();
}

/// A step of the mutator.
#[derive(Clone, Copy)]
pub(crate) enum Step {
    /// A reference is stored in a slot of the first cell.
    InFirst { offset: u32, to: u32 },
    /// A reference is stored in a young cell.
    InYoung { to: u32 },
    /// A cell is made black.
    Blacken { at: u32 },
    /// A cell is shaded.
    Shade { at: u32 },
    /// All that waits is visited.
    Scan,
    /// The cycle waits, and goes on.
    Wait,
}

/// Makes a step, if it is possible. Returns whether it is.
pub(crate) fn make(main: &mut Main, step: Step) -> bool
    requires marking { IsMarkingMain main.old }
    ensures marking { IsMarkingMain main.new }
{
    match step {
        Step::InFirst { offset, to } => {
            let may = offset >= 2 && offset < 1_024 && may_refer(to);
            if may {
                store_in_first(main, offset, to);
            }
            may
        }
        Step::InYoung { to } => {
            store_in_young(main, to);
            true
        }
        Step::Blacken { at } => {
            let may = at <= 2_048 && may_refer(at);
            if may {
                blacken(main, at);
            }
            may
        }
        Step::Shade { at } => {
            let may = is_cell(at);
            if may {
                shade(main, at);
            }
            may
        }
        Step::Scan => {
            scan(main);
            true
        }
        Step::Wait => {
            wait(main);
            true
        }
    }
}

/// Whether one of the four cells begins at an address.
fn is_cell(at: u32) -> bool
    ensures { result ≡ true → Contains four_starts at }
{
    is_in(&[0, 1_024, 1_032, 1_040], at as u64)
}

/// Whether an address is that of one of the four cells, or of no page.
fn may_refer(to: u32) -> bool
    ensures { result ≡ true → to < 2048 → Contains four_starts to }
{
    to >= 2_048 || is_cell(to)
}
