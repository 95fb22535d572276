//! What is read of a weak map: its table, and the numbers of objects.
ghost use Rattle.std.specs.Prelude.{◌≡◌, ◌<◌};
ghost use Rattle.page_space.specs.Extents.{marks_start};
ghost use Rattle.write_barrier.specs.MutatorState.{heap_of};
ghost use Rattle.heap_model.specs.Wholeness.{Whole};
ghost use Rattle.weak_pairs.specs.Tables as tables;
ghost use Rattle.heap_model.specs.Slots.{IsWeakCellAt};
ghost use Rattle.ephemeron_table.specs.Probes.{IsTableAt};

use tagged_word::cell::{LENGTH, STORE_SLOT};
use tagged_word::{Header, Word};
use weak_pairs::Table;
use write_barrier::Main;

/// The table of the weak map at an address; one of no pairs where it has none.
pub fn table_of(main: &Main, map: u32) -> Table
    requires whole { Whole (heap_of main.now) }
    requires there { IsWeakCellAt (heap_of main.now) map }
    ensures { IsTableAt (heap_of main.now) map result }
{
    main.addresses_fit();
    match Word(main.slot(map, STORE_SLOT)).address() {
        Some(at) => Table {
            at,
            capacity: main.slot(at, LENGTH) as u32,
        },
        None => Table { at: 0, capacity: 0 },
    }
}

/// The number of the object at an address.
pub(crate) fn number_at(main: &Main, at: u32) -> u32
    requires { at < marks_start main.now.seat.space }
    ensures { result ≡ tables.number_at (heap_of main.now) at }
{
    match Header::parse(Word(main.word(at))) {
        Some(header) => header.object,
        None => 0,
    }
}
