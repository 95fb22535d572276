//! The call `truncate`.
ghost use Rattle.std.specs.Prelude.{◌<◌};
ghost use Rattle.object_graph.specs.Graphs.{Graph, ListObject};
ghost use Rattle.write_barrier.specs.MutatorState.{MainShows};
ghost use Rattle.object_cells.specs.ListObjects.{IsListAt, IsListReady, IsShownList};
ghost use Rattle.array_trim.specs.TrimSteps.{MayTrim};
ghost use Rattle.array_trim.specs.TrimWords.{PutsTruncated};
ghost use Rattle.array_trim.specs.Trims.{TruncatesElements};

use crate::laws::laws_of_trims;
use heap_model::cells::COUNT;
use object_cells::{Range, checked_index, count_of, store_of};
use tagged_word::cell::{LENGTH, STORE_HEAD};
use write_barrier::Main;

/// The store of the list has so many slots. The words behind them are free.
fn truncate_store(main: &mut Main, list: u32, count: u32, kept: u32)
    requires ready { IsListReady main.old list count }
    requires may { MayTrim main.old list }
    requires fewer { kept < count }
    ensures { PutsTruncated main.old main.new list kept }
{
    main.addresses_fit();
    let store = store_of(main, list);
    // The store may not be read by marking while it shrinks.
    main.blacken(store.at);
    main.write_slot(store.at, LENGTH, kept as u64);
    main.write_slot(list, COUNT, kept as u64);
    main.put_free_cell(store.at + STORE_HEAD + kept, store.capacity - kept);
}

/// Keeps the first `n` elements of the list at an address. Its store has `n` slots then, also where
/// it had more than elements; no word of an element that stays is written. To the present length
/// nothing changes.
///
/// # Errors
/// The number is below 0, or over the length; nothing has changed.
pub fn truncate(main: &mut Main, list: u32, n: i64) -> Result<(), Range>
    requires { IsShownList main.old list }
    ensures { (graph : Graph) (one : ListObject) → MainShows main.old graph
        → IsListAt main.old graph list one
        → TruncatesElements main.old main.new graph list one n result }
{
    main.addresses_fit();
    laws_of_trims();
    let count = count_of(main, list);
    let Some(kept) = checked_index(count + 1, n) else {
        return Err(Range);
    };
    if kept != count {
        truncate_store(main, list, count, kept);
    }
    Ok(())
}
