//! A compaction from its start to its end.
ghost use Rattle.std.specs.Prelude.{◌≡◌, length};
ghost use Rattle.page_space.specs.Extents.{eden_start};
ghost use Rattle.heap_model.specs.Wholeness.{Whole};
ghost use Rattle.write_barrier.specs.MutatorState.{MayStore, heap_of};
ghost use Rattle.compactor.specs.Compacted.{Compacted};

use crate::beside::{move_roots, move_young};
use crate::moves::Moves;
use crate::pages::pack_pages;
use crate::places::place_cells;
use write_barrier::Main;

/// Moves the cells of each page that are not free together to its front, in their order. What is left of a page
/// becomes one free cell and one free run. It answers how many cells came to another address. Only the mutator runs.
pub fn compact(main: &mut Main, moves: &mut Moves) -> u64
    requires quiet { MayStore main.old }
    requires whole { Whole (heap_of main.old) }
    requires rows { length main.old.free ≡ main.old.seat.space.sizes.pages }
    requires bound { moves.old.bound ≡ eden_start main.old.seat.space }
    ensures compacted { Compacted main.old main.new result }
    ensures bound { moves.new.bound ≡ moves.old.bound }
{
    // What is recorded is of pages.
    main.addresses_fit();
    let moving = place_cells(main, moves);
    pack_pages(main, moves);
    move_young(main, moves);
    move_roots(main, moves);
    // Free runs are apart.
    main.free_runs_fit();
    moving
}
