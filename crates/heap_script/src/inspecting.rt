//! Inspecting the heap of a run: after each line for which it was fully collected, and at its end. No flaw is ever
//! found where the program is built as it is proved; so these judgements are of the build, and of the machine. What
//! becomes of a flaw is proved of each judge, whether its answers are right or not.
ghost use Rattle.std.specs.Prelude.{◌≡◌, IfOk, false};
ghost use Rattle.object_graph.specs.Graphs.{Graph};
ghost use Rattle.write_barrier.specs.MutatorState.{heap_of};
ghost use Rattle.live_cells.specs.Exact.{Exact};
ghost use Rattle.collector.specs.States.{HeapShows, with_collected};
ghost use Rattle.heap_script.specs.Runs.{HasCounts};
ghost use Rattle.heap_script.specs.Inspecting.{counts_at_end, plan_of, IsFor, JudgesAfter};
ghost use Rattle.heap_script.specs.Inspecting.{EndsCounted, EndsJudged, InspectsEnd};

use crate::finished::How;
use collector::{Heap, image_room, laws_of_images};
use heap_check::{Checker, Counts, Flaw, laws_of_flaws};
use heap_model::HeapImage;
use live_cells::laws_of_counts;
use page_space::Regions;
use std::alloc::Global;
use std::marker::Model;
use tagged_word::NoMemory;

/// Judges heaps of some regions. Its counts are right, but it may find a flaw where there is none: who asks it has to
/// hand that on.
pub trait Judge {
    ghost use Rattle.std.specs.Prelude.{Result};
    ghost use Rattle.page_space.specs.Extents.{Space};
    ghost use Rattle.write_barrier.specs.MutatorState.{Mutator};
    ghost use Rattle.heap_check.specs.declared.counts.Counts.{Counts as Counted};
    ghost use Rattle.heap_check.specs.declared.flaw.Flaw.{Flaw as Found};

    // The regions of the heaps that it judges.
    ghost regions: { Self → Space };
    // In the first state it judged a heap, was in the second then, and answered this.
    ghost Judged: { Self → Self → Mutator → Result Counted Found → Type 0 };

    /// Judges a heap: how many objects and entries it has, or a flaw of it.
    fn judge(&mut self, heap: &mut Heap) -> Result<Counts, Flaw>
        requires shown { (graph : Graph) × HeapShows heap.old graph }
        requires for_heap { regions self.old ≡ heap.old.main.seat.space }
        ensures judged { Judged self.old self.new heap.old.main result }
        ensures counted { (graph : Graph) → HeapShows heap.old graph → Exact (heap_of heap.old.main) graph
            → IfOk result (HasCounts graph) }
        ensures heap { heap.new ≡ heap.old }
        ensures same { regions self.new ≡ regions self.old };
}

/// What is done about the heap of a run, beside running its script.
#[derive(Drop)]
pub enum Inspection<J> {
    /// Nothing.
    Nothing,
    /// At the end of the script the heap is fully collected, and what it keeps is counted.
    Counts,
    /// The same by a judge, which also judges the heap after each line for which it was fully collected.
    Checks(J),
}

/// A checker, and the image of a heap that it checks. Its value is the regions of the heap.
#[derive(Drop)]
pub struct Inspector {
    checker: Checker,
    image: HeapImage,
}

impl Model for Inspector {
    ghost use Rattle.page_space.specs.Extents.{Space};

    ghost Value = { Space };

    ghost use Rattle.heap_script.specs.Inspectors.{space_of, IsForImage};

    ghost view = { space_of };

    ghost invariant = { IsForImage };
}

/// To what a run came whose lines came to this: where that is the end of its script, the heap is collected and counted,
/// if the run is to do so. A flaw that a judge finds there is what the run comes to.
pub(crate) fn inspect_end<J: Judge>(
    how: How,
    heap: &mut Heap,
    inspection: &mut Inspection<J>,
) -> How
    requires shown { (graph : Graph) × HeapShows heap.old graph }
    requires for_heap { IsFor heap.old (plan_of J.regions inspection.old) }
    ensures { (graph : Graph) → HeapShows heap.old graph →
        InspectsEnd J.Judged inspection.old inspection.new heap.old heap.new graph how result }
{
    match how {
        How::End => end_inspected(heap, inspection),
        _ => how,
    }
}

/// To what a run comes at the end of its script.
fn end_inspected<J: Judge>(heap: &mut Heap, inspection: &mut Inspection<J>) -> How
    requires shown { (graph : Graph) × HeapShows heap.old graph }
    requires for_heap { IsFor heap.old (plan_of J.regions inspection.old) }
    ensures { (graph : Graph) → HeapShows heap.old graph →
        InspectsEnd J.Judged inspection.old inspection.new heap.old heap.new graph How.End result }
{
    match inspection {
        Inspection::Nothing => How::End,
        Inspection::Counts => count_end(heap),
        Inspection::Checks(judge) => check_end(heap, judge),
    }
}

/// Collects the heap fully, and counts what it keeps.
fn count_end(heap: &mut Heap) -> How
    requires shown { (graph : Graph) × HeapShows heap.old graph }
    ensures { (graph : Graph) → HeapShows heap.old graph → EndsCounted heap.old heap.new graph result }
{
    let census = heap.census();
    How::Counted(Counts {
        objects: census.objects as u64,
        entries: census.entries as u64,
    })
}

/// Collects the heap fully, and judges it.
fn check_end<J: Judge>(heap: &mut Heap, judge: &mut J) -> How
    requires shown { (graph : Graph) × HeapShows heap.old graph }
    requires for_heap { J.regions judge.old ≡ heap.old.main.seat.space }
    ensures { (graph : Graph) → HeapShows heap.old graph →
        EndsJudged J.Judged judge.old judge.new heap.old heap.new graph result }
{
    heap.collect_all();
    match judge.judge(heap) {
        Ok(counts) => How::Counted(counts),
        Err(flaw) => How::Flawed(flaw),
    }
}

/// Judges a heap that is to be checked, if it was fully collected since this was asked last, and returns the flaw that
/// the judge finds.
#[cold]
#[inline(never)]
pub(crate) fn flaw_behind<J: Judge>(heap: &mut Heap, inspection: &mut Inspection<J>) -> Option<Flaw>
    requires shown { (graph : Graph) × HeapShows heap.old graph }
    requires for_heap { IsFor heap.old (plan_of J.regions inspection.old) }
    ensures judged { JudgesAfter J.Judged heap.old.collected heap.old.main inspection.old inspection.new result }
    ensures taken { heap.new ≡ with_collected heap.old false }
    ensures shows { (graph : Graph) → HeapShows heap.old graph → HeapShows heap.new graph }
    ensures same { plan_of J.regions inspection.new ≡ plan_of J.regions inspection.old }
{
    if !heap.take_collected() {
        return None;
    }
    let Inspection::Checks(judge) = inspection else {
        return None;
    };
    judge.judge(heap).err()
}

impl Inspector {
    /// An inspector of heaps over these regions. It takes the memory for an image, and three bytes for each of its
    /// words; later calls take none.
    pub fn new(alloc: Global, regions: Regions) -> Result<Inspector, NoMemory>
        ensures { IfOk result (λ inspector. inspector ≡ regions) }
    {
        let checker = Checker::new(alloc, regions)?;
        let image = image_room(alloc, regions)?;
        Ok(Inspector { checker, image })
    }
}

impl Judge for Inspector {
    ghost use Rattle.heap_script.specs.Inspectors.{same_space, ChecksImage};

    ghost regions = { same_space };

    ghost Judged = { ChecksImage };

    /// Judges an image of the heap: how many objects and entries it has. No flaw is found.
    fn judge(&mut self, heap: &mut Heap) -> Result<Counts, Flaw> {
        laws_of_images();
        laws_of_flaws();
        laws_of_counts();
        heap.main().addresses_fit();
        heap.put_image(&mut self.image);
        self.checker.check(&self.image)
    }
}
