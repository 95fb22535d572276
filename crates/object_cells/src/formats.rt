//! The words of boxes and of stores.
ghost use Rattle.std.specs.Prelude.{◌≡◌, ◌+◌, ◌≤◌, ◌<◌, slice_set};
ghost use Rattle.tagged_word.specs.Headers.{header_bits};
ghost use Rattle.page_space.specs.Extents.{layouts_start};
ghost use Rattle.write_barrier.specs.Seats.{heap_words};
ghost use Rattle.heap_model.specs.Slots.{raw_word};
ghost use Rattle.write_barrier.specs.MutatorState.{with_word};
ghost use Rattle.write_barrier.specs.Recording.{Touches};
ghost use Rattle.write_barrier.specs.Storing.{IsMadeYoung, StoresOn};
ghost use Rattle.write_barrier.specs.Values.{with_range};
ghost use Rattle.object_cells.specs.Formats.{box_header, empty_store};
ghost use Rattle.object_cells.specs.Made.{PutsWords, store_touch};

use tagged_word::cell::{LENGTH, STORE_HEAD};
use tagged_word::{Header, shape};
use write_barrier::Main;

/// The header of a box.
const BOX: Header = Header {
    shape: shape::BOX,
    object: 0,
};

/// The header of a store.
pub const STORE: Header = Header {
    shape: shape::STORE,
    object: 0,
};

/// Makes two words at an address a box of an integer.
#[inline(never)]
pub fn make_box(main: &mut Main, at: u32, v: i64)
    requires young { IsMadeYoung main.old at }
    requires within { at + 1 < layouts_start main.old.seat.space }
    ensures made { let headed = with_word main.old at (header_bits box_header) in
        main.new ≡ with_word headed (at + 1) (raw_word v) }
    ensures heap { let words = heap_words main.old.seat in
        let headed = slice_set words at (header_bits box_header) in
        heap_words main.new.seat ≡ slice_set headed (at + 1) (raw_word v) }
{
    main.set_header(at, BOX);
    main.write_slot(at, 1, v.cast_unsigned());
}

/// Makes the words at an address a store of so many slots that hold nothing: its header, its
/// capacity and the slots, each word put once.
pub fn fill_store(main: &mut Main, at: u32, capacity: u32)
    requires young { IsMadeYoung main.old at }
    requires within { at + 2 + capacity ≤ layouts_start main.old.seat.space }
    ensures filled { let words = heap_words main.old.seat in
        PutsWords main.old main.new (with_range words at (empty_store capacity)) }
    ensures touches { Touches main.old main.new (store_touch capacity at) }
    ensures stores { StoresOn main.old main.new }
    ensures cycle { main.new.cycle ≡ main.old.cycle }
{
    main.addresses_fit();
    main.set_header(at, STORE);
    main.write_slot(at, LENGTH, capacity as u64);
    main.fill_holes(at + STORE_HEAD, capacity);
}
