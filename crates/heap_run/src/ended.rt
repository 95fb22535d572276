//! What a run leaves.
ghost use Rattle.std.specs.Prelude.{◌≡◌};
ghost use Rattle.object_graph.specs.Graphs.{Graph};
ghost use Rattle.heap_model.specs.Images.{image_heap};
ghost use Rattle.write_barrier.specs.MutatorState.{heap_of};
ghost use Rattle.collector.specs.Images.{IsImageOf};
ghost use Rattle.collector.specs.States.{HeapShows};
ghost use Rattle.heap_script.specs.Runs.{need_at};

use collector::Heap;
use heap_model::HeapImage;
use heap_script::Finished;

/// The heap at the end of a run.
#[derive(Drop)]
pub struct Kept {
    /// It shows the graph after the executed lines.
    pub image: HeapImage,
    /// The words that were wanted at a full heap, or 0.
    pub need: u32,
    /// The line that stopped the script, or 0.
    pub line: u32,
    /// How many lines were executed.
    pub executed: u64,
}

/// How a run ended.
#[derive(Drop)]
pub struct Ended {
    /// The status that the process is to end with.
    pub status: u8,
    /// The heap, from its opening on.
    pub kept: Option<Kept>,
}

/// What a run that finished so leaves of its heap.
pub(crate) fn keep(heap: Heap, finished: &Finished) -> Kept
    requires { (graph : Graph) × HeapShows heap graph }
    ensures image { IsImageOf (heap_of heap.main) (image_heap result.image) }
    ensures need { result.need ≡ need_at finished.now.how }
    ensures line { result.line ≡ finished.now.line }
    ensures executed { result.executed ≡ finished.now.executed }
{
    Kept {
        image: heap.into_image(),
        need: finished.how.need(),
        line: finished.line,
        executed: finished.executed,
    }
}
