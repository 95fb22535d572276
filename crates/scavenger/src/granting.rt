//! How words of a free run of a page are granted.
ghost use Rattle.std.specs.Prelude.{◌≡◌, ◌≤◌, ◌↔◌, IsTrue, false};
ghost use Rattle.tagged_word.specs.Cells.{cell_words_most};
ghost use Rattle.object_graph.specs.Graphs.{Graph};
ghost use Rattle.free_runs.specs.FreeRuns.{FitsNowhere};
ghost use Rattle.write_barrier.specs.MutatorState.{MayStore, MainShows};
ghost use Rattle.scavenger.specs.Granting.{Grants};
ghost use Rattle.scavenger.specs.Laws.{KeepsGraphs};

use crate::copying::take_run;
use page_space::Run;
use write_barrier::Main;

/// Grants so many words of a page, 1 to 2,048: the first ones of a free run, in which the next cells are
/// made. Answers whether a free run has so many; where none has, nothing changes.
pub fn grant_run(main: &mut Main, n: u32) -> bool
    requires some { 1 ≤ n }
    requires few { n ≤ cell_words_most }
    requires quiet { MayStore main.old }
    requires shown { (graph : Graph) × MainShows main.old graph }
    ensures granted { IsTrue result → Grants main.old main.new n }
    ensures none { (result ≡ false) ↔ FitsNowhere main.old.free n }
    ensures unchanged { result ≡ false → main.new ≡ main.old }
    ensures keeps { KeepsGraphs main.old main.new }
{
    // Free runs are apart.
    main.free_runs_fit();
    match take_run(main, n) {
        Some(at) => {
            main.grant(Run { at, words: n });
            true
        }
        None => false,
    }
}
