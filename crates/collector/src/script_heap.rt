//! The heap that a script runs on. Collections of it are in `collecting.rt`, cycles of marking in `cycles.rt`, room in
//! it in `room.rt`, images of it in `imaging.rt`.
ghost use Rattle.std.specs.Prelude.{◌≡◌, IfOk, false};
ghost use Rattle.std.specs.Borrow.{sem};
ghost use Rattle.object_graph.specs.Graphs.{start};
ghost use Rattle.page_space.specs.Extents.{roots_start};
ghost use Rattle.heap_table.specs.Seats.{IsFresh};
ghost use Rattle.write_barrier.specs.MutatorState.{IsOpened};

use ephemeron_mark::Marking;
use heap_table::MainSeat;
use page_space::Regions;
use std::alloc::Global;
use std::marker::Model;
use tagged_word::NoMemory;
use write_barrier::Main;

/// The heap that a script runs on: the mutator's side, and memory for the list of a scavenge and for the marks of a
/// full collection, which is taken when the heap is opened.
#[derive(Drop)]
pub struct Heap {
    pub(crate) main: Main,
    // The list of a scavenge: which copies are to be looked at.
    pub(crate) list: Vec<u32>,
    // What a full collection marks, and which pairs of weak maps wait for their keys.
    pub(crate) marking: Marking,
    // Whether a cycle of marking is open.
    pub(crate) in_cycle: bool,
    // Whether a full collection came since this was asked last.
    pub(crate) collected: bool,
    // What an empty list of words is made with. It gives no memory after the heap is opened.
    pub(crate) alloc: Global,
}

impl Model for Heap {
    ghost use Rattle.collector.specs.States.{HeapState};

    ghost Value = { HeapState };

    ghost use Rattle.collector.specs.Model.{state_of};

    ghost view = { state_of };
}

/// The words of a root.
const ROOT_WORDS: u32 = 2;

/// The first address behind all cells.
fn cells_end(regions: Regions) -> u32
    ensures { result ≡ roots_start regions }
{
    regions.layout_at(0) - ROOT_WORDS * regions.variables()
}

impl Heap {
    ghost use Rattle.collector.specs.States.{HeapShows};
    ghost use Rattle.collector.specs.Lending.{LendsMain};

    /// Opens a heap over words of 0: no object, each page one gap and one free run, each variable bound
    /// to nothing. No cycle is open. It takes the memory for the shapes, for the list of a scavenge and for
    /// marks; later calls need none.
    ///
    /// # Errors
    /// Memory was refused.
    pub fn open_new(alloc: Global, seat: MainSeat, regions: Regions) -> Result<Heap, NoMemory>
        requires { IsFresh regions false seat }
        ensures opened { IfOk result (λ heap. HeapShows heap start × IsOpened heap.main) }
        ensures regions { IfOk result (λ heap. heap.main.seat.space ≡ regions) }
        ensures closed { IfOk result (λ heap. heap.rest.in_cycle ≡ false) }
        ensures uncollected { IfOk result (λ heap. heap.collected ≡ false) }
    {
        let main = Main::open(alloc, seat, regions)?;
        let list = Vec::with_capacity(alloc, regions.sizes().young as usize)?;
        let marking = Marking::new(alloc, cells_end(regions))?;
        Ok(Heap {
            main,
            list,
            marking,
            in_cycle: false,
            collected: false,
            alloc,
        })
    }

    /// The mutator's side.
    pub fn main(&self) -> &Main
        ensures { result.now ≡ self.now.main }
    {
        &self.main
    }

    /// The mutator's side, to run commands.
    pub fn main_mut(&mut self) -> &mut Main
        ensures* lends { sem 𝓛 (LendsMain self.entry result) }
        ensures main { result.now ≡ self.old.main }
    {
        &mut self.main
    }
}
