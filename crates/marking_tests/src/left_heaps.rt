//! The heap that the run of a script leaves.
ghost use Rattle.std.specs.Prelude.{IfOk};
ghost use Rattle.object_graph.specs.Graphs.{Graph};
ghost use Rattle.collector.specs.States.{HeapShows};

use byte_ends::MemSink;
use collector::Heap;
use crew::OpenGate;
use heap_script::{How, Inspection, Inspector, Output, run_script};
use heap_table::HeapTable;
use page_space::{Regions, Sizes};
use script_text::parse;
use std::process::Abort;
use std::test::Fail;
use std::thread::Threads;

/// The smallest sizes: eden begins at 2,048.
const SIZES: Sizes = Sizes {
    pages: 1,
    young: 64,
    helpers: 0,
};

/// The heap that the run of a script leaves, of the smallest sizes.
pub(crate) fn left_by<R: Threads + Sync + Abort + AllocGlobal>(
    rt: &R,
    source: &[u8],
) -> Result<Heap, Fail>
    ensures { IfOk result (λ heap. (graph : Graph) × HeapShows heap graph) }
{
    let alloc = rt.alloc();
    let Ok(script) = parse(alloc, source) else {
        return Err(Fail::from("the script is bad"));
    };
    assert!(rt; SIZES.are_within(script.variables()));
    let regions = Regions::new(SIZES, script.variables());
    let Ok(seat) = HeapTable::open(alloc, regions, false) else {
        return Err(Fail::from("memory was refused"));
    };
    let Ok(mut heap) = Heap::open_new(alloc, seat, regions) else {
        return Err(Fail::from("memory was refused"));
    };
    let Ok(mut out) = Output::new(alloc) else {
        return Err(Fail::from("memory was refused"));
    };
    let mut sink = MemSink::new(alloc, 1, 1, Vec::new(alloc))?;
    let mut inspection: Inspection<Inspector> = Inspection::Nothing;
    let finished = run_script(
        rt,
        &mut heap,
        &script,
        &mut out,
        &mut sink,
        &mut inspection,
        &OpenGate,
    );
    match finished.how {
        How::End => Ok(heap),
        _ => Err(Fail::from("the script did not come to its end")),
    }
}
