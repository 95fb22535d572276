//! One worker's part: its room, the 0 behind it, and the headers of the cells that it copied.
ghost use Rattle.std.specs.Prelude.{◌≡◌, ◌+◌, ◌<◌, ◌≤◌, length, slice_get, Some};
ghost use Rattle.page_space.specs.Extents.{marks_start};
ghost use Rattle.write_barrier.specs.Seats.{heap_words};
ghost use Rattle.write_barrier.specs.MutatorState.{MayStore};
ghost use Rattle.eden_copies.specs.Copied.{AreOfOneEach};
ghost use Rattle.handed_rooms.specs.Taken.{CanTakeIn, EndsRoom, HasRefs, HasRoom, IsTakenIn, StandBetween};
ghost use Rattle.handed_rooms.specs.Taken.{StaysBeside};

use eden_copies::Worker;
use scav_copy::Home;
use tagged_word::Word;
use write_barrier::Main;

/// Puts the words of a room, behind all pages, from an address on.
fn put_room(main: &mut Main, room: &[u64], start: u32)
    requires quiet { MayStore main.old }
    requires behind { main.old.recorded.bound ≤ start }
    requires within { start + length room.now ≤ marks_start main.old.seat.space }
    ensures room { HasRoom start room.now (length room.now) (heap_words main.old.seat) (heap_words main.new.seat) }
    ensures beside { StaysBeside main.old main.new }
{
    // There is a word for each address before the marks.
    main.addresses_fit();
    let count = room.len() as u32;
    for offset in 0..count {
        main.write(start + offset, room[offset as usize]);
    }
}

/// Puts a 0 behind a room, if its segment goes on there.
fn end_room(main: &mut Main, at: u32, end: u32)
    requires quiet { MayStore main.old }
    requires behind { main.old.recorded.bound ≤ at }
    requires within { end ≤ marks_start main.old.seat.space }
    ensures ends { EndsRoom at end (heap_words main.old.seat) (heap_words main.new.seat) }
    ensures beside { StaysBeside main.old main.new }
{
    // There is a word for each address before the marks.
    main.addresses_fit();
    if at < end {
        main.write(at, 0);
    }
}

/// A copy, by its number.
fn copy_at(copies: &[Home], number: usize) -> Home
    requires { number < length copies.now }
    ensures { slice_get copies.now number ≡ Some result }
{
    copies[number]
}

/// Puts into the header of each cell that was copied the reference to its copy.
fn put_headers(main: &mut Main, copies: &[Home])
    requires quiet { MayStore main.old }
    requires cells { StandBetween main.old.recorded.bound (marks_start main.old.seat.space) copies.now }
    requires one_each { AreOfOneEach copies.now }
    ensures headers { HasRefs copies.now (length copies.now) (heap_words main.old.seat) (heap_words main.new.seat) }
    ensures beside { StaysBeside main.old main.new }
{
    // There is a word for each address before the marks.
    main.addresses_fit();
    for number in 0..copies.len() {
        let home = copy_at(copies, number);
        main.write(home.from, Word::reference(home.to).0);
    }
}

/// Takes in what a worker copied: the words of its room come to stand where they stand for, with a 0 behind them if the
/// segment goes on there; and the header of each cell that it copied becomes the reference to the copy.
pub fn take_in(main: &mut Main, worker: &Worker)
    requires quiet { MayStore main.old }
    requires can { CanTakeIn main.old worker.now }
    ensures taken { IsTakenIn worker.now (heap_words main.old.seat) (heap_words main.new.seat) }
    ensures beside { StaysBeside main.old main.new }
{
    // There is a word for each address before the marks.
    main.addresses_fit();
    let start = worker.start();
    let behind = worker.end();
    let segment_end = start + worker.most();
    put_room(main, worker.room(), start);
    end_room(main, behind, segment_end);
    put_headers(main, worker.copies());
}
