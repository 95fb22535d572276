//! Cycles of marking: whether one is open. Marking is one pause: nothing is marked before the full collection with
//! which a cycle ends.
ghost use Rattle.std.specs.Prelude.{◌≡◌, ◌||◌, true, false};
ghost use Rattle.object_graph.specs.Graphs.{Graph};
ghost use Rattle.collector.specs.Born.{BeginsCycle, begins_fully};
ghost use Rattle.collector.specs.Collected.{CollectsAll};
ghost use Rattle.collector.specs.States.{HeapShows, with_cycle};

use crate::script_heap::Heap;

impl Heap {
    /// Whether a cycle is open.
    pub fn in_cycle(&self) -> bool
        ensures { result ≡ self.now.rest.in_cycle }
    {
        self.in_cycle
    }

    /// Opens a cycle, if none is open: all that lives is promoted, so that nothing is young when marking begins.
    pub fn begin_cycle(&mut self)
        requires shown { (graph : Graph) × HeapShows self.old graph }
        ensures begun { self.old.rest.in_cycle ≡ false → (graph : Graph) → HeapShows self.old graph →
            (begins : BeginsCycle self.old.main self.new.main graph)
            × (self.new.collected ≡ (begins_fully begins || self.old.collected)) }
        ensures stays { self.old.rest.in_cycle ≡ true → self.new ≡ self.old }
        ensures shows { (graph : Graph) → HeapShows self.old graph → HeapShows self.new graph }
        ensures rest { self.new.rest ≡ with_cycle self.old.rest true }
    {
        if !self.in_cycle {
            self.promote_all();
            self.in_cycle = true;
        }
    }

    /// Promotes all that lives by a scavenge. Where free runs have no room for some of it, the heap is fully collected,
    /// which makes more words free.
    fn promote_all(&mut self)
        requires shown { (graph : Graph) × HeapShows self.old graph }
        ensures begun { (graph : Graph) → HeapShows self.old graph →
            (begins : BeginsCycle self.old.main self.new.main graph)
            × (self.new.collected ≡ (begins_fully begins || self.old.collected)) }
        ensures shows { (graph : Graph) → HeapShows self.old graph → HeapShows self.new graph }
        ensures rest { self.new.rest ≡ self.old.rest }
    {
        self.collect(true);
        if self.survivors() > 0 {
            self.collect_all();
        }
    }

    /// How many words the survivors have.
    fn survivors(&mut self) -> u32
        ensures words { result ≡ self.old.main.young.survivors }
        ensures same { self.new ≡ self.old }
    {
        self.main.nursery_mut().survivors()
    }

    /// Collects the heap fully, as `collect_all` does, and ends a cycle with that, if one is open.
    pub fn end_cycle(&mut self)
        requires shown { (graph : Graph) × HeapShows self.old graph }
        ensures collected { (graph : Graph) → HeapShows self.old graph →
            CollectsAll self.old.main self.new.main graph }
        ensures shows { (graph : Graph) → HeapShows self.old graph → HeapShows self.new graph }
        ensures rest { self.new.rest ≡ with_cycle self.old.rest false }
        ensures noted { self.new.collected ≡ true }
    {
        self.collect_all();
        self.in_cycle = false;
    }
}
