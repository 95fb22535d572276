//! Room for new cells: where eden has none, a scavenge makes some, or a free run of a page has it. Behind a full
//! collection the words that a command needs are to be asked anew: clearing may have lessened them.
ghost use Rattle.std.specs.Prelude.{◌≡◌, ◌≤◌, IsTrue, false};
ghost use Rattle.tagged_word.specs.Cells.{cell_words_most};
ghost use Rattle.object_graph.specs.Graphs.{Graph};
ghost use Rattle.nursery.specs.Young.{HasRoom};
ghost use Rattle.free_runs.specs.FreeRuns.{FitsNowhere};
ghost use Rattle.scavenger.specs.Scavenged.{Scavenges};
ghost use Rattle.scavenger.specs.Laws.{KeepsGraphs};
ghost use Rattle.collector.specs.Making.{IsOutOfRoom, Serves, MakesRoom};
ghost use Rattle.collector.specs.States.{HeapShows};

use crate::script_heap::Heap;
use scavenger::grant_run;

impl Heap {
    /// Whether there is room for so many words, 1 to 2,048: in eden, or else in a free run of a page, of
    /// which so many are granted then. Where neither has them, nothing changes.
    pub fn serve(&mut self, n: u32) -> bool
        requires some { 1 ≤ n }
        requires few { n ≤ cell_words_most }
        requires shown { (graph : Graph) × HeapShows self.old graph }
        ensures served { IsTrue result → Serves self.old.main self.new.main n }
        ensures room { IsTrue result → HasRoom self.new.main.young n }
        ensures lacks { result ≡ false → HasRoom self.old.main.young n → ⊥ }
        ensures runs { result ≡ false → FitsNowhere self.old.main.free n }
        ensures same { result ≡ false → self.new ≡ self.old }
        ensures shows { (graph : Graph) → HeapShows self.old graph → HeapShows self.new graph }
        ensures rooms { KeepsGraphs self.old.main self.new.main }
        ensures rest { self.new.rest ≡ self.old.rest }
        ensures noted { self.new.collected ≡ self.old.collected }
    {
        self.main.can_reserve(n) || grant_run(&mut self.main, n)
    }

    /// Makes room for so many words, 1 to 2,048, by a scavenge, which promotes survivors: behind it eden has
    /// them, or so many are granted of a free run of a page. Answers whether there is room.
    pub fn make_room(&mut self, n: u32) -> bool
        requires some { 1 ≤ n }
        requires few { n ≤ cell_words_most }
        requires shown { (graph : Graph) × HeapShows self.old graph }
        ensures made { IsTrue result → MakesRoom self.old.main self.new.main false n }
        ensures room { IsTrue result → HasRoom self.new.main.young n }
        ensures scavenged { result ≡ false → Scavenges self.old.main self.new.main false }
        ensures out { result ≡ false → IsOutOfRoom self.new.main n }
        ensures shows { (graph : Graph) → HeapShows self.old graph → HeapShows self.new graph }
        ensures rooms { KeepsGraphs self.old.main self.new.main }
        ensures rest { self.new.rest ≡ self.old.rest }
        ensures noted { self.new.collected ≡ self.old.collected }
    {
        self.collect(false);
        self.serve(n)
    }
}
