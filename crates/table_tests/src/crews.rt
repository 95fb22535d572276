//! Two markers in threads of their own next to a mutator, and what is left for the mutator to scan then (`marker`,
//! `crew`). What is expected is worked out by hand.
ghost use Rattle.std.specs.Prelude.{◌≡◌, ◌≤◌, ◌<◌, ◌+◌, ℕ, None, IfOk, length, slice_index_or};
ghost use Rattle.marker.specs.Markers.{Marking};
ghost use Rattle.page_space.specs.Sizes.{helpers_most};
ghost use Rattle.table_tests.specs.Grids.{AreCutPages, IsOpenGrid, IsSeatedAt, IsWholeGrid, StaysLent};

use crate::cycles::{bare, own_words};
use crate::grids::{NONE_RAW, ONE_RAW, Pages, are_cut_pages, begin};
use crate::kinds::{left_with, padded, put};
use crate::mutators::{Mutator, REACHED, cell_of};
use crate::scans::{Counted, Scan, count_cells, reach};
use crew::{OpenGate, beside};
use marker::Marker;
use shared_table::{Colour, Counts, MainSide, OwnWords};
use std::alloc::Global;
use std::test::Fail;
use std::thread::Threads;
use tagged_word::{NoMemory, Word};

/// How many cells the pages have.
const CELLS: u32 = 2_000;

/// The sizes of the table: four pages.
const COUNTS: Counts = Counts {
    old: 8_192,
    shapes: 8_200,
};

/// The layout words of the shapes from 0 on: of no cell, a list, a weak map, a store, a table, a box, and free words;
/// then of two plain objects with one field, a raw one and a tagged one.
const LAYOUTS: [u64; 10] = [0, 2, 3, 4, 5, 6, 7, 8, 4_369, 273];

/// The word of a node's slot: a reference to its child of this number, if it has one. In a tree each node has two. The
/// nodes of a chain have the next one and a leaf.
fn child(is_tree: bool, node: u32, number: u32) -> u64 {
    let half = REACHED as u64 / 2;
    let (to, end) = if is_tree {
        (2 * node as u64 + number as u64, REACHED as u64)
    } else if number == 2 {
        (node as u64 + half, REACHED as u64)
    } else {
        (node as u64 + 1, half)
    };
    if to < end {
        Word::reference(cell_of(to as u32) % CELLS * 4).0
    } else {
        0
    }
}

/// Puts the words of a cell.
fn put_cell(words: &mut Vec<u64>, cell: u32, with: [u64; 4]) {
    for (at, word) in with.iter().enumerate() {
        put(words, (cell as usize % 2_048 * 4).wrapping_add(at), *word);
    }
}

/// The words of pages with a chain or a tree, and with cells that nothing reached refers to.
fn words_of(alloc: Global, is_tree: bool) -> Result<Vec<u64>, NoMemory> {
    let mut words = padded(alloc, &[], 8_192)?;
    for node in 0..REACHED {
        // The raw slot looks like a reference to a cell that is not reached.
        let raw = Word::reference(REACHED * 4 + node % 100 * 4).0;
        let with = [
            ONE_RAW,
            child(is_tree, node, 1),
            child(is_tree, node, 2),
            raw,
        ];
        put_cell(&mut words, cell_of(node), with);
    }
    for cell in REACHED..CELLS {
        let to = Word::reference(cell % REACHED * 4).0;
        put_cell(
            &mut words,
            cell,
            [NONE_RAW, to, Word::reference(cell * 4).0, 0],
        );
    }
    Ok(words)
}

/// Shades the first cell, and gives it to the board. Returns whether it was white.
fn give_root(side: &mut MainSide, count: u32) -> bool
    requires whole { IsWholeGrid side.old.main count 0 }
    requires some { 0 < count }
    ensures whole { IsWholeGrid side.new.main count 0 }
    ensures stays { StaysLent side.old side.new }
{
    let _counts = side.counts();
    match side.shade(0) {
        Colour::White => {
            side.give_board(0, 0);
            true
        }
        _ => false,
    }
}

/// A marker with a seat, and room for the cells of the table.
fn seated(alloc: Global, side: &mut MainSide, count: u32) -> Result<Marker, NoMemory>
    requires whole { IsWholeGrid side.old.main count 0 }
    requires few { side.old.main.out < helpers_most }
    ensures whole { IsWholeGrid side.new.main count 0 }
    ensures table { side.new.table ≡ side.old.table }
    ensures old { side.new.main.old ≡ side.old.main.old }
    ensures out { IfOk result (λ marker. side.new.main.out ≡ side.old.main.out + 1) }
    ensures seated { IfOk result (IsSeatedAt side.old.table side.old.main.old) }
{
    let mut marker = Marker::new(alloc, side.table()?, side.counts().old)?;
    marker.attach(side.lend());
    Ok(marker)
}

/// The mutator makes its steps while the markers make their turns.
fn run_beside<R: Threads + Sync>(rt: &R, mutator: &mut Mutator, tasks: &mut [Marker])
    requires seated { (i : ℕ) (default : Marking) → i < length tasks.old →
        IsSeatedAt mutator.old.side.table mutator.old.side.main.old (slice_index_or tasks.old i default) }
    ensures stays { StaysLent mutator.old.side mutator.new.side }
    ensures count { length tasks.new ≡ length tasks.old }
    ensures seated { (i : ℕ) (default : Marking) → i < length tasks.old →
        IsSeatedAt mutator.old.side.table mutator.old.side.main.old (slice_index_or tasks.new i default) }
{
    beside(
        rt,
        &mut ||
            ensures stays { StaysLent mutator.entry.now.side mutator.exit.now.side }
        { mutator.make_steps() },
        tasks,
        &OpenGate,
    );
}

/// Takes a marker's seat back.
fn give_back(side: &mut MainSide, count: u32, marker: &mut Marker)
    requires grid { IsOpenGrid side.old.main count }
    requires seated { IsSeatedAt side.old.table side.old.main.old marker.old }
    requires some { 0 < side.old.main.out }
    ensures grid { IsOpenGrid side.new.main count }
    ensures table { side.new.table ≡ side.old.table }
    ensures old { side.new.main.old ≡ side.old.main.old }
    ensures out { side.old.main.out ≤ side.new.main.out + 1 }
    ensures free { marker.new.seat ≡ None }
    ensures room { marker.new.listing.bound ≡ side.old.main.old }
{
    if let Some(seat) = marker.detach() {
        side.take_back(seat);
    }
}

/// Takes a marker's seat back. Returns the cells that waited with it.
fn take_home(
    alloc: Global,
    side: &mut MainSide,
    count: u32,
    marker: &mut Marker,
) -> Result<Vec<u32>, NoMemory>
    requires grid { IsOpenGrid side.old.main count }
    requires seated { IsSeatedAt side.old.table side.old.main.old marker.old }
    requires some { 0 < side.old.main.out }
    ensures grid { IsOpenGrid side.new.main count }
    ensures table { side.new.table ≡ side.old.table }
    ensures old { side.new.main.old ≡ side.old.main.old }
    ensures out { side.old.main.out ≤ side.new.main.out + 1 }
{
    let bound = side.counts().old;
    give_back(side, count, marker);
    left_with(alloc, marker, bound)
}

/// What is left once the markers have made their turns: the seats come back, what waits is scanned, and the cells are
/// counted.
fn finish(
    alloc: Global,
    mutator: Mutator,
    tasks: &mut [Marker],
    words: &[u64],
) -> Result<Counted, NoMemory>
    requires two { length tasks.old ≡ 2 }
    requires seated { (i : ℕ) (default : Marking) → i < length tasks.old →
        IsSeatedAt mutator.side.table mutator.side.main.old (slice_index_or tasks.old i default) }
    requires out { mutator.side.main.out ≡ 2 }
{
    let before = reach(alloc, words, mutator.count)?;
    let after = reach(alloc, mutator.words.as_slice(), mutator.count)?;
    let Mutator {
        mut side,
        count,
        trimmed,
        words,
        grey,
        looks: _,
    } = mutator;
    let first = take_home(alloc, &mut side, count, &mut tasks[0])?;
    let second = take_home(alloc, &mut side, count, &mut tasks[1])?;
    let mut scan = Scan::new(alloc, side, count);
    scan.wait_for_all([first.as_slice(), second.as_slice()], grey.as_slice())?;
    scan.run(words.as_slice())?;
    Ok(count_cells(&mut scan, before.as_slice(), after.as_slice(), trimmed))
}

/// Marks pages that are cut into cells, and counts these. Nothing if the table has other sizes, or the first cell is
/// not white.
fn marked<R: Threads + Sync>(
    rt: &R,
    alloc: Global,
    own: &OwnWords,
    pages: Pages<'_>,
    count: u32,
) -> Result<Option<Counted>, NoMemory>
    requires some { 0 < count }
    requires cut { AreCutPages (record {
      words = pages.words.now;
      layouts = pages.layouts.now;
      starts = pages.starts.now;
    }) 8192 count }
{
    let mut side = bare(alloc, COUNTS)?;
    if side.counts().old != 8_192 {
        return Ok(None);
    }
    begin(&mut side, own, pages, count);
    if !give_root(&mut side, count) {
        return Ok(None);
    }
    let first = seated(alloc, &mut side, count)?;
    let second = seated(alloc, &mut side, count)?;
    let mut mutator = Mutator::new(alloc, side, count, pages.words)?;
    let mut tasks = [first, second];
    run_beside(rt, &mut mutator, &mut tasks);
    Ok(Some(finish(alloc, mutator, &mut tasks, pages.words)?))
}

#[test]
fn two_markers_next_to_a_mutator_blacken_what_is_reached(rt: HostRuntime) -> Result<(), Fail> {
    let alloc = rt.alloc();
    let own = own_words(alloc)?;
    let layouts = padded(alloc, &LAYOUTS, 8_200)?;
    let mut starts = Vec::new(alloc);
    for cell in 0..CELLS {
        starts.push(4 * cell as u64)?;
    }
    let expected = Counted {
        reached: 1_900,
        missed: 0,
        extra: 0,
        grey: 0,
    };
    for (name, is_tree) in [("chain", false), ("tree", true)] {
        let words = words_of(alloc, is_tree)?;
        let pages = Pages {
            words: words.as_slice(),
            layouts: layouts.as_slice(),
            starts: starts.as_slice(),
        };
        let is_cut = are_cut_pages(COUNTS, pages, CELLS);
        assert!(rt; is_cut, "{name}");
        for _time in 0..10 {
            let found = marked(&rt, alloc, &own, pages, CELLS)?;
            assert_eq!(rt; found, Some(expected), "{name}");
        }
    }
    Ok(())
}
