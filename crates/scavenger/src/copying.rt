//! Copying one cell: to a free run of a page, or behind the other copies of the segment.
ghost use Rattle.std.specs.Prelude.{◌≡◌, ℕ, ◌+◌, ◌^◌, ◌<◌, ◌≤◌, Bool, List, Some, None, IsNone, IfSome, slice_get};
ghost use Rattle.std.specs.Vec.{vec_capacity};
ghost use Rattle.page_space.specs.Sizes.{page_words};
ghost use Rattle.page_space.specs.Extents.{marks_start};
ghost use Rattle.word_store.specs.Copies.{AreDisjoint};
ghost use Rattle.tagged_word.specs.Readings.{reference_in};
ghost use Rattle.free_runs.specs.FreeRuns.{FitsNowhere, TakesFront};
ghost use Rattle.cell_layout.specs.Cells.{IsCell};
ghost use Rattle.heap_model.specs.Types.{Cell, Run};
ghost use Rattle.write_barrier.specs.Seats.{heap_words};
ghost use Rattle.write_barrier.specs.MutatorState.{Mutator, MayStore};
ghost use Rattle.scavenger.specs.Filling.{Front};
ghost use Rattle.scav_copy.specs.Places.{StoodAt};
ghost use Rattle.scav_copy.specs.Renamings.{RefersToAddress};
ghost use Rattle.scavenger.specs.Starts.{SegmentCopies};
ghost use Rattle.scavenger.specs.Following.{IsFreeAt, IsFromSpace};
ghost use Rattle.scavenger.specs.Walking.{AreSpaces, CopiesCell, MayMove, HasMoved, Places, Scavenging};
ghost use Rattle.scavenger.specs.Walking.{StandFree, CutsFreeCell};

use crate::progress::Progress;
use crate::spaces::Spaces;
use crate::worker::Worker;
use cell_layout::Cell;
use heap_walk::{known_cell, known_cell_by};
use tagged_word::Word;
use write_barrier::Main;

/// So many words of a page, if a free run has them. What is left of the run is made one free cell.
pub(crate) fn take_run(main: &mut Main, size: u32) -> Option<u32>
    requires quiet { MayStore main.old }
    requires some { 1 ≤ size }
    requires few { size ≤ page_words }
    requires free { StandFree main.old }
    ensures taken { IfSome result (λ at. (run : Run) × (free : Cell) × (run.at ≡ at)
        × TakesFront main.old.free main.new.free size run
        × IsFreeAt main.old.seat.space (heap_words main.old.seat) free at
        × CutsFreeCell main.old main.new size run free) }
    ensures none { IsNone result → FitsNowhere main.old.free size × (main.new ≡ main.old) }
{
    // There is a word for each address before the marks.
    main.addresses_fit();
    let run = main.take_free(size)?;
    let free = known_cell(main, run.at);
    main.put_free_cell(run.at + size, free.size - size);
    Some(run.at)
}

/// Where the copy of a cell of so many words goes.
fn place_for(main: &mut Main, spaces: &Spaces, progress: &mut Progress, at: u32, size: u32) -> u32
    requires quiet { MayStore main.old }
    requires some { 1 ≤ size }
    requires few { size ≤ page_words }
    requires free { StandFree main.old }
    requires within { progress.old.fill + size < 2 ^ 32 }
    ensures { (all : Bool) → AreSpaces main.old.seat.space main.old.young.half all spaces.now →
        Places main.old main.new all at size progress.old progress.new result }
{
    if !spaces.are_promoted(at) {
        return progress.stays_young(size);
    }
    if size < progress.refused {
        if let Some(to) = take_run(main, size) {
            return to;
        }
        progress.refused = size;
    }
    progress.stays_young(size)
}

/// Copies the words of a cell to an address, and makes its header the reference to the copy.
fn copy_cell(main: &mut Main, cell: &Cell, to: u32)
    requires quiet { MayStore main.old }
    requires is { IsCell main.old.seat.space (heap_words main.old.seat) cell.now }
    requires room { to + cell.now.size ≤ marks_start main.old.seat.space }
    requires apart { AreDisjoint cell.now.at to cell.now.size }
    ensures { CopiesCell main.old main.new cell.now to }
{
    // There is a word for each address before the marks.
    main.addresses_fit();
    main.copy_words(cell.at, to, cell.size);
    main.write(cell.at, Word::reference(to).0);
}

/// Copies the cell at an address, whose word has been read and is no reference. The copy is put on the
/// list. It answers where the copy is.
fn move_cell(main: &mut Main, spaces: &Spaces, worker: &mut Worker, at: u32, word: u64) -> u32
    requires quiet { MayStore main.old }
    requires spaces { (all : Bool) × AreSpaces main.old.seat.space main.old.young.half all spaces.now
        × MayMove main.old all worker.old.progress worker.old.list.items at }
    requires room { main.old.seat.space.sizes.young ≤ vec_capacity worker.old.list }
    requires read { slice_get (heap_words main.old.seat) at ≡ Some word }
    requires unmoved { reference_in word ≡ None }
    ensures moved { (start : Mutator) (handed : List SegmentCopies) (all : Bool) (front : Front)
        (state : Scavenging start handed main.old all worker.old.progress worker.old.list.items front)
        (slot place : ℕ) → AreSpaces main.old.seat.space main.old.young.half all spaces.now →
        StoodAt state.fixed state.homes slot place → RefersToAddress (heap_words main.old.seat) slot at →
        IsFromSpace main.old.seat.space main.old.young.half at →
        HasMoved start handed main.old main.new all worker.old.progress worker.new.progress worker.old.list.items
        worker.new.list.items front at result state }
    ensures capacity { vec_capacity worker.new.list ≡ vec_capacity worker.old.list }
{
    // No address is past 32 bits.
    main.addresses_fit();
    let cell = known_cell_by(main, at, word);
    let to = place_for(main, spaces, &mut worker.progress, at, cell.size);
    copy_cell(main, &cell, to);
    worker.progress.copied += cell.size;
    worker.list.push_reserved(to);
    to
}

/// Where the cell at an address that is left has its home. It is copied if it has none.
#[inline(never)]
pub(crate) fn home_of(main: &mut Main, spaces: &Spaces, worker: &mut Worker, at: u32) -> u32
    requires quiet { MayStore main.old }
    requires spaces { (all : Bool) × AreSpaces main.old.seat.space main.old.young.half all spaces.now
        × MayMove main.old all worker.old.progress worker.old.list.items at }
    requires room { main.old.seat.space.sizes.young ≤ vec_capacity worker.old.list }
    ensures moved { (start : Mutator) (handed : List SegmentCopies) (all : Bool) (front : Front)
        (state : Scavenging start handed main.old all worker.old.progress worker.old.list.items front)
        (slot place : ℕ) → AreSpaces main.old.seat.space main.old.young.half all spaces.now →
        StoodAt state.fixed state.homes slot place → RefersToAddress (heap_words main.old.seat) slot at →
        IsFromSpace main.old.seat.space main.old.young.half at →
        HasMoved start handed main.old main.new all worker.old.progress worker.new.progress worker.old.list.items
        worker.new.list.items front at result state }
    ensures capacity { vec_capacity worker.new.list ≡ vec_capacity worker.old.list }
{
    // There is a word for each address before the marks.
    main.addresses_fit();
    let word = main.word(at);
    match Word(word).address() {
        Some(home) => home,
        None => move_cell(main, spaces, worker, at, word),
    }
}
