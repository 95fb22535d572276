//! The calls `at` and `hold_at`.
ghost use Rattle.std.specs.Prelude.{◌<◌};
ghost use Rattle.object_graph.specs.Graphs.{Graph, ListObject};
ghost use Rattle.write_barrier.specs.MutatorState.{MainShows};
ghost use Rattle.object_cells.specs.ListObjects.{IsListAt, IsShownList};
ghost use Rattle.list_store.specs.ListChanges.{HoldsElement, TellsElement, TellsWord};

use handle_roots::Held;
use object_cells::{Range, checked_index, count_of, store_of};
use tagged_word::Word;
use tagged_word::cell::STORE_HEAD;
use write_barrier::{Main, laws_of_values};

/// The word of the slot of the list's store that has the element which an index names.
#[inline(always)]
fn word_of(main: &Main, list: u32, index: i64) -> Result<Word, Range>
    requires { IsShownList main.now list }
    ensures { (graph : Graph) (one : ListObject) → MainShows main.now graph
        → IsListAt main.now graph list one → TellsWord main.now one index result }
{
    main.addresses_fit();
    laws_of_values();
    let Some(place) = checked_index(count_of(main, list), index) else {
        return Err(Range);
    };
    let store = store_of(main, list);
    Ok(Word(main.slot(store.at, STORE_HEAD + place)))
}

/// The element of the list at an address that an index names.
///
/// # Errors
/// The index is below 0, or not below the length.
#[inline(always)]
pub fn at(main: &Main, list: u32, index: i64) -> Result<Held, Range>
    requires { IsShownList main.now list }
    ensures { (graph : Graph) (one : ListObject) → MainShows main.now graph
        → IsListAt main.now graph list one → TellsElement main.now one index result }
{
    let word = word_of(main, list, index)?;
    Ok(main.value_of_word(word))
}

/// Makes a variable hold the element of the list at an address that an index names.
///
/// # Errors
/// The index is below 0, or not below the length; nothing has changed.
#[inline(always)]
pub fn hold_at(main: &mut Main, variable: u32, list: u32, index: i64) -> Result<(), Range>
    requires shown { IsShownList main.old list }
    requires known { variable < main.old.seat.space.variables }
    ensures { (graph : Graph) (one : ListObject) → MainShows main.old graph
        → IsListAt main.old graph list one → HoldsElement main.old main.new variable one index result }
{
    let word = word_of(main, list, index)?;
    main.hold_word(variable, word);
    Ok(())
}
