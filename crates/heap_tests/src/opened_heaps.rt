//! Opened heaps: their words, the room in eden, and what calls of the mutator's side write. The
//! words and addresses are written out by hand.
ghost use Rattle.std.specs.Prelude.{◌≡◌, ◌<◌, IfOk, IfErr, false, length};
ghost use Rattle.object_graph.specs.Invariants.{fields_most};
ghost use Rattle.object_graph.specs.Graphs.{start};
ghost use Rattle.cell_layout.specs.Cells.{IsCell};
ghost use Rattle.heap_table.specs.Phases.{Quiet};
ghost use Rattle.write_barrier.specs.Seats.{heap_words};
ghost use Rattle.shape_tree.specs.Shapes.{IsPathShape, has_name, shape_path};
ghost use Rattle.heap_model.specs.Wholeness.{HasSizes};
ghost use Rattle.write_barrier.specs.MutatorState.{IsOpened, heap_of};
ghost use Rattle.collector.specs.States.{HeapShows};

use crate::opened_words::{
    EDEN, RUNS, SLOTS, SMALL, SMALL_WORDS, TURNS, USUAL, USUAL_WORDS, VALUES,
};
use cell_layout::{Cell, NotACell, cell_at};
use collector::{Heap, image_room};
use handle_roots::Held;
use heap_table::HeapTable;
use object_cells::{SlotContent, content_of, fill_store, make_box, rep_of};
use page_space::{Regions, Run, Sizes};
use shape_tree::{PathField, Rep, ShapesFull};
use std::alloc::Global;
use std::process::Abort;
use std::test::Fail;
use tagged_word::{Header, Word};
use word_store::Reads;
use write_barrier::{Main, NoRoom};

/// A call of the mutator's side, by what it is given.
#[derive(Clone, Copy)]
pub(crate) enum Act {
    /// A word at an address.
    Write(u32, u64),
    /// A word at an offset of a cell.
    Store(u32, u32, u64),
    /// The header of a box.
    BoxHeader(u32),
    /// A box of an integer.
    MakeBox(u32, i64),
    /// A store of so many slots.
    FillStore(u32, u32),
    /// A copy of so many words, from an address to one before it.
    CopySlots(u32, u32, u32),
    /// A value of the variable.
    Hold(Held),
}

use Act::*;

/// An act, and the words that stand from an address on behind it.
pub(crate) type Turn = (Act, u32, &'static [u64]);

fn opened(rt: &impl Abort, alloc: Global, sizes: Sizes) -> Result<Heap, Fail>
    ensures { IfOk result (λ heap. HeapShows heap start × IsOpened heap.main) }
{
    assert!(rt; sizes.are_within(1));
    let regions = Regions::new(sizes, 1);
    let Ok(seat) = HeapTable::open(alloc, regions, false) else {
        return Err(Fail::from("memory was refused"));
    };
    match Heap::open_new(alloc, seat, regions) {
        Ok(heap) => Ok(heap),
        Err(_) => Err(Fail::from("memory was refused")),
    }
}

/// Adds a field to the path of a shape.
fn step(main: &mut Main, shape: u32, name: u32, rep: Rep) -> Result<u32, ShapesFull>
    requires quiet { main.old.seat.phase ≡ Quiet }
    requires sized { HasSizes (heap_of main.old) }
    requires path { IsPathShape main.old.paths shape }
    requires is_new { has_name (shape_path main.old.paths shape) name ≡ false }
    requires room { length (shape_path main.old.paths shape).fields < fields_most }
{
    let field = PathField { name, rep };
    let step = main.shapes().can_step(shape, field)?;
    Ok(main.step_path(shape, field, step))
}

/// The cell at an address: nothing changes.
fn cell_of(main: &mut Main, a: u32) -> Result<Cell, NotACell>
    requires { main.old.seat.phase ≡ Quiet }
    ensures cell { IfOk result (λ cell.
        IsCell main.old.seat.space (heap_words main.old.seat) cell) }
    ensures same { main.new ≡ main.old }
{
    let regions = main.regions();
    cell_at(main, &regions, a)
}

/// The words from an address before the marks on are these.
fn has_words(rt: &impl Abort, main: &Main, from: u32, words: &[u64]) {
    // There are as many words as addresses before the marks.
    let _regions = main.regions();
    let mut a = from;
    for word in words {
        assert!(rt; a < main.count());
        assert_eq!(rt; main.word(a), *word, "at {a}");
        a += 1;
    }
}

/// What a word stands for; nothing where it refers to no address before the marks.
fn value_of(main: &Main, word: Word) -> Option<(bool, Held)> {
    // There are as many words as addresses before the marks.
    let _regions = main.regions();
    match word.address() {
        Some(at) => {
            if main.count() > 1 && at < main.count() - 1 {
                Some((main.is_box(word), main.value_of_word(word)))
            } else {
                None
            }
        }
        None => Some((main.is_box(word), main.value_of_word(word))),
    }
}

/// The heap that is opened has these words, and so has its image.
fn opens(
    rt: &impl Abort,
    alloc: Global,
    sizes: Sizes,
    count: usize,
    words: &[(u32, u64)],
) -> Result<(), Fail> {
    let heap = opened(rt, alloc, sizes)?;
    for (at, word) in words {
        has_words(rt, heap.main(), *at, &[*word]);
    }
    let image = heap.into_image();
    let stored = image.words.as_slice();
    assert_eq!(rt; stored.len(), count);
    for (at, word) in words {
        assert_eq!(rt; stored.get(*at as usize), Some(word), "at {at}");
    }
    assert_eq!(rt;
        (image.used, image.survivors, image.shapes.paths()),
        (0, 0, 9)
    );
    Ok(())
}

#[test]
fn an_opened_heap_and_its_image_have_their_words(rt: HostRuntime) -> Result<(), Fail> {
    opens(&rt, rt.alloc(), USUAL, 196_618, &USUAL_WORDS)?;
    opens(&rt, rt.alloc(), SMALL, 10_442, &SMALL_WORDS)
}

/// Eden has room for so many words at this address, or for fewer.
fn reserves(rt: &impl Abort, heap: &mut Heap, need: u32, at: Option<u32>) {
    assert!(rt; need >= 1);
    assert!(rt; need <= 2_048);
    assert_eq!(rt; heap.main().can_reserve(need), at.is_some());
    match at {
        Some(at) => {
            assert!(rt; heap.main_mut().reserve(need) == Ok(Run { at, words: need }));
        }
        None => {
            assert!(rt; heap.main_mut().reserve(need) == Err(NoRoom { need }));
        }
    }
}

#[test]
fn eden_gives_its_words_one_behind_another_to_its_end(rt: HostRuntime) -> Result<(), Fail> {
    let mut heap = opened(&rt, rt.alloc(), SMALL)?;
    let Ok(mut image) = image_room(rt.alloc(), heap.main().regions()) else {
        return Err(Fail::from("memory was refused"));
    };
    heap.put_image(&mut image);
    assert_eq!(rt; image.words.as_slice().len(), 10_442);
    for (need, at) in &RUNS {
        reserves(&rt, &mut heap, *need, *at);
    }
    assert_eq!(rt; heap.main().used(), 64);
    Ok(())
}

/// Carries an act out, at addresses before the marks, or before the layout words where a cell is made.
fn carry_out(rt: &impl Abort, main: &mut Main, act: Act)
    requires { main.old.seat.phase ≡ Quiet }
    ensures { main.new.seat.phase ≡ Quiet }
{
    let regions = main.regions();
    let end = main.count();
    let layouts = regions.layout_at(0);
    match act {
        Write(a, word) => {
            assert!(rt; a < end);
            main.write(a, word);
        }
        Store(cell, offset, word) => {
            assert!(rt; cell < end);
            assert!(rt; offset < end - cell);
            main.store(cell, offset, Word(word));
        }
        BoxHeader(a) => {
            assert!(rt; a < end);
            main.set_header(
                a,
                Header {
                    shape: 5,
                    object: 0,
                },
            );
        }
        MakeBox(a, v) => {
            assert!(rt; a < layouts);
            assert!(rt; layouts - a > 1);
            make_box(main, a, v);
        }
        FillStore(a, capacity) => {
            assert!(rt; a < layouts);
            assert!(rt; layouts - a > 2);
            assert!(rt; capacity <= layouts - a - 2);
            fill_store(main, a, capacity);
        }
        CopySlots(from, to, count) => {
            assert!(rt; from < end);
            assert!(rt; count <= end - from);
            assert!(rt; to <= from);
            assert!(rt; count <= from - to);
            main.copy_slots(from, to, count);
        }
        Hold(value) => {
            assert!(rt; regions.variables() == 1);
            main.hold(0, value);
            assert_eq!(rt; main.held(0), value);
        }
    }
}

/// Carries each act out, and looks at the words behind it.
fn carry_out_each(rt: &impl Abort, main: &mut Main, turns: &[Turn])
    requires { main.old.seat.phase ≡ Quiet }
    ensures { main.new.seat.phase ≡ Quiet }
{
    for turn in turns {
        let (act, from, words) = *turn;
        carry_out(rt, main, act);
        has_words(rt, main, from, words);
    }
}

/// The words of the cell at an address; 0 where none stands.
fn size_of(main: &mut Main, a: u32) -> u32
    requires { main.old.seat.phase ≡ Quiet }
    ensures { main.new ≡ main.old }
{
    match cell_of(main, a) {
        Ok(cell) => cell.size,
        Err(_) => 0,
    }
}

/// Each word stands for its value.
fn has_values(rt: &impl Abort, main: &Main, values: &[(Word, Option<(bool, Held)>)]) {
    for (word, value) in values {
        assert_eq!(rt; value_of(main, *word), *value);
    }
}

/// A path of one field is added behind that of a root, and its layout word is put.
fn adds_a_path(rt: &impl Abort, main: &mut Main)
    requires quiet { main.old.seat.phase ≡ Quiet }
    requires sized { HasSizes (heap_of main.old) }
{
    let shape = main.shapes().root(2);
    assert!(rt; main.lookup(shape, 3).is_none());
    assert!(rt; main.shapes().fields(shape) < 64);
    assert_eq!(rt; step(main, shape, 3, Rep::Wide), Ok(17));
    assert_eq!(rt; main.shapes().paths(), 10);
}

#[test]
fn a_path_is_added_with_its_layout_word(rt: HostRuntime) -> Result<(), Fail> {
    let mut heap = opened(&rt, rt.alloc(), SMALL)?;
    let main = heap.main_mut();
    adds_a_path(&rt, main);
    has_words(&rt, main, 2_258, &[0x81, 0x1121, 0]);
    Ok(())
}

#[test]
fn calls_write_their_words_alone(rt: HostRuntime) -> Result<(), Fail> {
    let mut heap = opened(&rt, rt.alloc(), SMALL)?;
    let main = heap.main_mut();
    carry_out_each(&rt, main, &TURNS);
    has_values(&rt, main, &VALUES);
    let sizes = [
        size_of(main, 0),
        size_of(main, EDEN + 12),
        size_of(main, EDEN + 13),
    ];
    assert_eq!(rt; sizes, [2_048, 2, 0]);
    for (value, word) in &SLOTS {
        let held = match content_of(false, rep_of(*value), *value) {
            SlotContent::Tagged(held) => Some(held),
            SlotContent::Raw(_) | SlotContent::Boxed(_) => None,
        };
        assert_eq!(rt; held, *word);
    }
    Ok(())
}
