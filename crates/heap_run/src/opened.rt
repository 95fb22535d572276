//! What a run is given before its first command, for which all its memory is taken, and the run itself.
ghost use Rattle.std.specs.Prelude.{◌≡◌, Bool, false, length, IfOk, None};
ghost use Rattle.object_graph.specs.Graphs.{Graph, start};
ghost use Rattle.page_space.specs.Sizes.{AreWithin};
ghost use Rattle.write_barrier.specs.MutatorState.{IsOpened};
ghost use Rattle.collector.specs.States.{HeapShows};
ghost use Rattle.page_space.specs.Extents.{Space};
ghost use Rattle.heap_script.specs.declared.inspecting.Inspection.{Inspection as Inspected};
ghost use Rattle.heap_script.specs.Inspecting.{counts_at_end, HasInspected, JudgesEnd};
ghost use Rattle.heap_script.specs.Inspectors.{ChecksImage};
ghost use Rattle.heap_script.specs.Runs.{Finishes};
ghost use Rattle.heap_script.specs.Stages.{stage_of};
ghost use Rattle.heap_run.specs.Opening.{inspection_for, IsReady};

use byte_ends::Sink;
use collector::Heap;
use crew::Gate;
use heap_script::{Finished, Inspection, Inspector, Output, run_script};
use heap_table::HeapTable;
use page_space::{Regions, Sizes};
use script_text::Script;
use std::alloc::Global;
use std::thread::Threads;
use tagged_word::NoMemory;

/// How the heap of a run is inspected.
#[derive(Clone, Copy)]
pub(crate) enum Inspects {
    /// Not at all.
    Nothing,
    /// It is counted at the end of the script.
    Counts,
    /// The same by a checker, which also judges the heap after each line for which it was fully collected.
    Checks,
}

/// What a run is given: a heap that was just opened, how it is inspected, and an output in which nothing waits.
#[derive(Drop)]
pub(crate) struct Opened {
    heap: Heap,
    inspection: Inspection<Inspector>,
    out: Output,
}

/// How a run finished, and the heap to which it came.
#[derive(Drop)]
pub(crate) struct Ran {
    pub(crate) finished: Finished,
    pub(crate) heap: Heap,
}

impl Opened {
    /// Takes all the memory of a run on a heap of these sizes with so many variables.
    pub(crate) fn new(
        alloc: Global,
        inspects: Inspects,
        sizes: Sizes,
        variables: u32,
    ) -> Result<Opened, NoMemory>
        requires { AreWithin sizes variables }
        ensures { IfOk result (IsReady inspects sizes variables) }
    {
        let regions = Regions::new(sizes, variables);
        let out = Output::new(alloc)?;
        let inspection = open_inspection(alloc, inspects, regions)?;
        let heap = open_heap(alloc, regions)?;
        Ok(Opened {
            heap,
            inspection,
            out,
        })
    }

    /// Runs a script, whose variables were counted for the heap. Threads and gates are not used.
    pub(crate) fn run<K: Sink, G: Gate, R: Threads + Sync>(
        self,
        rt: &R,
        script: &Script<'_>,
        sink: &mut K,
        gate: &G,
    ) -> Ran
        requires { (inspects : Inspects) × (sizes : Sizes) × IsReady inspects sizes (length script.now.variables) self }
        ensures finishes { let main = result.heap.main in let executed = result.finished.executed in
            (later : Inspected Space) × (ended : Bool)
            × HasInspected ChecksImage script.now self.heap self.inspection ended executed result.heap later None
            × (finishes : Finishes (counts_at_end self.inspection) script.now (stage_of main) result.finished
            (K.HasTaken sink.old) (K.HasTaken sink.new) (K.faults sink.old) (K.faults sink.new))
            × JudgesEnd ChecksImage script.now self.heap self.inspection later executed main
            finishes.reached.so_far.graph finishes.collections }
        ensures shows { (graph : Graph) × HeapShows result.heap graph }
        ensures space { result.heap.main.seat.space ≡ self.heap.main.seat.space }
    {
        let Opened {
            mut heap,
            mut inspection,
            mut out,
        } = self;
        let finished = run_script(rt, &mut heap, script, &mut out, sink, &mut inspection, gate);
        Ran { finished, heap }
    }
}

/// A heap over these regions, in which there is no object and no variable is bound.
fn open_heap(alloc: Global, regions: Regions) -> Result<Heap, NoMemory>
    ensures opened { IfOk result (λ heap. HeapShows heap start × IsOpened heap.main) }
    ensures regions { IfOk result (λ heap. heap.main.seat.space ≡ regions) }
    ensures closed { IfOk result (λ heap. heap.rest.in_cycle ≡ false) }
{
    let seat = HeapTable::open(alloc, regions, false)?;
    Heap::open_new(alloc, seat, regions)
}

/// The inspection of a run on a heap over these regions.
fn open_inspection(
    alloc: Global,
    inspects: Inspects,
    regions: Regions,
) -> Result<Inspection<Inspector>, NoMemory>
    ensures { IfOk result (λ inspection. inspection ≡ inspection_for inspects regions) }
{
    match inspects {
        Inspects::Nothing => Ok(Inspection::Nothing),
        Inspects::Counts => Ok(Inspection::Counts),
        Inspects::Checks => Ok(Inspection::Checks(Inspector::new(alloc, regions)?)),
    }
}
