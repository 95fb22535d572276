//! A scavenge from its start to its end, by the main side alone or after helpers copied.
ghost use Rattle.std.specs.Prelude.{◌≡◌, ℕ, ◌+◌, ◌≤◌, Bool, List, []};
ghost use Rattle.std.specs.Vec.{vec_capacity};
ghost use Rattle.object_graph.specs.Graphs.{Graph};
ghost use Rattle.page_space.specs.Sizes.{page_words};
ghost use Rattle.page_space.specs.Extents.{roots_start};
ghost use Rattle.page_space.specs.RegionLaws.{IsSpace};
ghost use Rattle.nursery.specs.Young.{IsYoung};
ghost use Rattle.free_runs.specs.FreeRuns.{AreFree};
ghost use Rattle.write_barrier.specs.MutatorState.{Mutator, MayStore, MainShows};
ghost use Rattle.scavenger.specs.Starts.{SegmentCopies};
ghost use Rattle.scavenger.specs.Filling.{words_of_segments};
ghost use Rattle.scavenger.specs.Laws.{KeepsGraphs};
ghost use Rattle.scavenger.specs.Walking.{AreSpaces, Scavenging, at_root};
ghost use Rattle.scavenger.specs.Handing.{HandsOver, HasEnded, ScavengesFrom};
ghost use Rattle.scavenger.specs.Scavenged.{Scavenges, StandsInOneSegment};

use crate::emptying::empty_left;
use crate::left_slots::scavenge_left;
use crate::progress::Progress;
use crate::scanning::{scavenge_copies, scavenge_recorded, scavenge_roots};
use crate::spaces::Spaces;
use crate::worker::Worker;
use page_space::PAGE_WORDS;
use write_barrier::Main;

/// The spaces of a scavenge, and its worker with an empty list, where so many words were copied.
fn begin(main: &mut Main, mut list: Vec<u32>, promote_all: bool, copied: u32) -> (Spaces, Worker)
    ensures same { main.new ≡ main.old }
    ensures limits { IsSpace main.new.seat.space }
    ensures young { IsYoung main.new.young }
    ensures free { AreFree main.new.free }
    ensures spaces { AreSpaces main.old.seat.space main.old.young.half promote_all result.0 }
    ensures progress { result.1.progress ≡ record { fill = result.0.room; copied = copied; refused = page_words + 1 } }
    ensures empty { result.1.list.items ≡ [] }
    ensures capacity { vec_capacity result.1.list ≡ vec_capacity list }
{
    list.clear();
    // There are two halves.
    main.used_fits();
    // Free runs are apart.
    main.free_runs_fit();
    let half = main.nursery_mut().half();
    let spaces = Spaces::new(&main.regions(), half, promote_all);
    let worker = Worker {
        progress: Progress {
            fill: spaces.room,
            copied,
            refused: PAGE_WORDS + 1,
        },
        list,
    };
    (spaces, worker)
}

/// Follows the roots, the recorded slots and the slots of the copies, and empties what is left then. Copies that
/// helpers handed over have so many words. The list is given back.
fn follow_all(main: &mut Main, spaces: &Spaces, mut worker: Worker, handed_words: u32) -> Vec<u32>
    requires limits { IsSpace main.old.seat.space }
    requires tied { main.old.young.space ≡ main.old.seat.space }
    requires scavenging { (start : Mutator) × (handed : List SegmentCopies) × (all : Bool) ×
        AreSpaces main.old.seat.space main.old.young.half all spaces.now ×
        let root = roots_start main.old.seat.space in
        (state : Scavenging start handed main.old all worker.progress worker.list.items (at_root root)) ×
        (handed_words ≡ words_of_segments state.fixed handed) }
    requires room { main.old.seat.space.sizes.young ≤ vec_capacity worker.list }
    ensures ended { (start : Mutator) (handed : List SegmentCopies) (all : Bool) →
        AreSpaces main.old.seat.space main.old.young.half all spaces.now →
        let root = roots_start main.old.seat.space in
        (state : Scavenging start handed main.old all worker.progress worker.list.items (at_root root)) →
        handed_words ≡ words_of_segments state.fixed handed →
        HasEnded start handed main.new all }
    ensures free { AreFree main.new.free }
    ensures capacity { vec_capacity result ≡ vec_capacity worker.list }
{
    scavenge_roots(main, spaces, &mut worker);
    scavenge_recorded(main, spaces, &mut worker);
    scavenge_copies(main, spaces, &mut worker);
    let Worker { progress, list } = worker;
    main.free_runs_fit();
    empty_left(main, spaces.half, progress.fill, spaces.room_end);
    main.nursery_mut()
        .turn(handed_words + (progress.fill - spaces.room));
    list
}

/// Copies what lives of eden and of the half that the survivors are in: a survivor, or any cell where
/// all are to be promoted, to a page, if a free run has its words, and else to the other half. What is to
/// do is kept on a list, which has a place for each word of the young generation, and is given back.
///
/// Generations by the number of survivals are Ungar's of 1984; that an object goes to the old space at
/// its second survival is V8's rule.
pub fn scavenge(main: &mut Main, list: Vec<u32>, promote_all: bool) -> Vec<u32>
    requires quiet { MayStore main.old }
    requires shown { (graph : Graph) × MainShows main.old graph }
    requires room { main.old.seat.space.sizes.young ≤ vec_capacity list }
    ensures scavenged { Scavenges main.old main.new promote_all }
    ensures alone { StandsInOneSegment main.old main.new }
    ensures keeps { KeepsGraphs main.old main.new }
    ensures capacity { vec_capacity result ≡ vec_capacity list }
{
    let (spaces, worker) = begin(main, list, promote_all, 0);
    follow_all(main, &spaces, worker, 0)
}

/// Ends a scavenge that helpers began: they copied cells of eden, so many words, and left these slots, which refer to
/// survivors. Of the cells that they did not copy, survivors are promoted where a free run has their words.
pub fn finish_scavenge(main: &mut Main, list: Vec<u32>, left: &[u32], copied: u32) -> Vec<u32>
    requires quiet { MayStore main.old }
    requires handed { (start : Mutator) × (handed : List SegmentCopies) × (graph : Graph) × MainShows start graph
        × HandsOver start handed main.old left.now copied }
    requires room { main.old.seat.space.sizes.young ≤ vec_capacity list }
    ensures scavenged { (start : Mutator) (handed : List SegmentCopies) (graph : Graph) → MainShows start graph →
        HandsOver start handed main.old left.now copied → ScavengesFrom start handed main.new }
    ensures keeps { (start : Mutator) (handed : List SegmentCopies) (graph : Graph) → MainShows start graph →
        HandsOver start handed main.old left.now copied → KeepsGraphs start main.new }
    ensures capacity { vec_capacity result ≡ vec_capacity list }
{
    let (spaces, mut worker) = begin(main, list, false, copied);
    scavenge_left(main, &spaces, &mut worker, left);
    follow_all(main, &spaces, worker, copied)
}
