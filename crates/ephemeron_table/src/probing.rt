//! How a key is looked up in a table.
ghost use Rattle.std.specs.Prelude.{◌≡◌, ◌+◌, ◌<◌};
ghost use Rattle.linear_probing.specs.Tables.{place_after};
ghost use Rattle.write_barrier.specs.MutatorState.{heap_of};
ghost use Rattle.ephemeron_table.specs.Probes.{ProbingEnds};
ghost use Rattle.weak_pairs.specs.Tables.{TableIsWithin, key_in};

use tagged_word::cell::STORE_HEAD;
use tagged_word::{Word, odd};
use weak_pairs::Table;
use write_barrier::Main;

/// Where probing for a key ends.
#[derive(Clone, Copy)]
pub enum End {
    /// At the pair of this place, which has the key.
    Key(u32),
    /// At the pair of this place, which holds nothing.
    Free(u32),
    /// Nowhere: each pair has another key.
    Nowhere,
}

/// The place that so many steps lead to from a number, or from a place.
pub(crate) fn place(capacity: u32, from: u32, steps: u32) -> u32
    requires { 0 < capacity }
    ensures { result ≡ place_after capacity from steps }
{
    ((from as u64 + steps as u64) % capacity as u64) as u32
}

/// The word of the key of a table's pair, by its place.
pub fn key_of(main: &Main, table: Table, place: u32) -> Word
    requires within { TableIsWithin (heap_of main.now) table }
    requires place { place < table.capacity }
    ensures { result.0 ≡ key_in (heap_of main.now) table.at place }
{
    main.addresses_fit();
    Word(main.slot(table.at, STORE_HEAD + 2 * place))
}

/// Looks a key up in a table, from the number of its object on.
pub(crate) fn probe(main: &Main, table: Table, number: u32, key: Word) -> End
    requires { TableIsWithin (heap_of main.now) table }
    ensures { ProbingEnds (heap_of main.now) table number key.0 result }
{
    for steps in 0..table.capacity {
        let at = place(table.capacity, number, steps);
        let word = key_of(main, table, at);
        if word.0 == key.0 {
            return End::Key(at);
        }
        if word.0 == Word::odd(odd::HOLE).0 {
            return End::Free(at);
        }
    }
    End::Nowhere
}
