//! Collections: a scavenge of the young generation, a full collection, and the census of what it keeps.
ghost use Rattle.std.specs.Prelude.{◌≡◌, true, false};
ghost use Rattle.object_graph.specs.Graphs.{Graph};
ghost use Rattle.object_graph.specs.Reach.{reached_objects, reached_entries};
ghost use Rattle.scavenger.specs.Scavenged.{Scavenges};
ghost use Rattle.scavenger.specs.Laws.{KeepsGraphs};
ghost use Rattle.collector.specs.Collected.{CollectsAll};
ghost use Rattle.collector.specs.States.{HeapShows, with_cycle, with_collected};

use crate::census::{Census, count_cells};
use crate::laws::laws_of_collections;
use crate::mark_sweeping::mark_sweep;
use crate::script_heap::Heap;
use live_cells::laws_of_counts;
use scavenger::scavenge;
use std::mem;

impl Heap {
    /// Copies the live cells of the young generation, so that eden is empty: a survivor to a page, if a
    /// free run has its words, or each where all are to be promoted, and else to the other half.
    pub(crate) fn collect(&mut self, promote_all: bool)
        requires shown { (graph : Graph) × HeapShows self.old graph }
        ensures scavenged { Scavenges self.old.main self.new.main promote_all }
        ensures shows { (graph : Graph) → HeapShows self.old graph → HeapShows self.new graph }
        ensures rooms { KeepsGraphs self.old.main self.new.main }
        ensures rest { self.new.rest ≡ self.old.rest }
        ensures noted { self.new.collected ≡ self.old.collected }
    {
        let none = Vec::new(self.alloc);
        let list = mem::replace(&mut self.list, none);
        self.list = scavenge(&mut self.main, list, promote_all);
    }

    /// Copies the live cells of the young generation, so that eden is empty. A survivor goes to a page, if
    /// a free run has its words, and all else to the other half.
    pub fn scavenge(&mut self)
        requires shown { (graph : Graph) × HeapShows self.old graph }
        ensures scavenged { Scavenges self.old.main self.new.main false }
        ensures shows { (graph : Graph) → HeapShows self.old graph → HeapShows self.new graph }
        ensures rooms { KeepsGraphs self.old.main self.new.main }
        ensures rest { self.new.rest ≡ self.old.rest }
        ensures noted { self.new.collected ≡ self.old.collected }
    {
        self.collect(false);
    }

    /// Keeps exactly what can be reached, and promotes it, as far as free runs of pages have its words.
    /// Pairs of weak maps whose keys cannot be reached are taken out, and all else is made free, in pages
    /// too. What was granted of a page is not any more. A cycle that is open stays so.
    pub fn collect_all(&mut self)
        requires shown { (graph : Graph) × HeapShows self.old graph }
        ensures collected { (graph : Graph) → HeapShows self.old graph →
            CollectsAll self.old.main self.new.main graph }
        ensures shows { (graph : Graph) → HeapShows self.old graph → HeapShows self.new graph }
        ensures rest { self.new.rest ≡ self.old.rest }
        ensures noted { self.new.collected ≡ true }
    {
        laws_of_collections();
        self.collected = true;
        mark_sweep(&mut self.main, &mut self.marking);
        self.collect(true);
    }

    /// Whether the heap was fully collected since this was asked last. From here on it was not.
    pub fn take_collected(&mut self) -> bool
        ensures noted { result ≡ self.old.collected }
        ensures taken { self.new ≡ with_collected self.old false }
    {
        mem::replace(&mut self.collected, false)
    }

    /// Collects fully, and counts what is kept: the objects that can be reached, and the entries of weak
    /// maps whose map and key can. A cycle that is open ends with that.
    pub fn census(&mut self) -> Census
        requires shown { (graph : Graph) × HeapShows self.old graph }
        ensures counted { (graph : Graph) → HeapShows self.old graph →
            (result.objects ≡ reached_objects graph) × (result.entries ≡ reached_entries graph) }
        ensures collected { (graph : Graph) → HeapShows self.old graph →
            CollectsAll self.old.main self.new.main graph }
        ensures shows { (graph : Graph) → HeapShows self.old graph → HeapShows self.new graph }
        ensures rest { self.new.rest ≡ with_cycle self.old.rest false }
        ensures noted { self.new.collected ≡ true }
    {
        self.end_cycle();
        laws_of_counts();
        count_cells(&self.main)
    }
}
