//! The commands that neither write nor collect the heap, each with its one body. Those that write stand in `execute`,
//! and the collector's in `collecting`.
ghost use Rattle.std.specs.Prelude.{◌≡◌, ◌<◌, length, true, false, IfSome, IsNone, Result};
ghost use Rattle.object_graph.specs.Graphs.{Graph};
ghost use Rattle.object_graph.specs.Run.{lines_most};
ghost use Rattle.heap_command.specs.Commands.{IsWithin};
ghost use Rattle.mutator.specs.CarriesOut.{field_numbers};
ghost use Rattle.mutator.specs.declared.stop.Stop.{Stop as Why};
ghost use Rattle.collector.specs.States.{HeapShows};
ghost use Rattle.heap_script.specs.Executing.{Executes, counted_more, writes};
ghost use Rattle.heap_script.specs.Cycles.{asks_collector};

use collector::Heap;
use heap_command::Command;
use mutator::{Outcome, Stop};

/// Executes a command, unless it writes or is one of the collector's, if there is room for it. `objects` counts the
/// objects that were made.
#[inline(always)]
pub(crate) fn execute<O: Outcome>(
    heap: &mut Heap,
    objects: &mut u32,
    command: &Command,
) -> Option<O>
    requires shown { (graph : Graph) × HeapShows heap.old graph × (objects.old ≡ length graph.objects) }
    requires within { IsWithin heap.old.main.seat.space.variables field_numbers command.now }
    requires few { objects.old < lines_most }
    ensures executed { IfSome result (λ told. (came : Result Unit Why) × O.Says told came
        × Executes heap.old heap.new objects.old objects.new command.now came) }
    ensures left { IsNone result → asks_collector command.now ≡ false → writes command.now ≡ true }
    ensures untouched { IsNone result → heap.new ≡ heap.old }
    ensures uncounted { IsNone result → objects.new ≡ objects.old }
{
    let main = heap.main_mut();
    match command {
        Command::New { x, cap } => Some(counted(
            mutator::new_plain(main, *x, *objects, *cap),
            objects,
        )),
        Command::List { x } => Some(counted(mutator::new_list(main, *x, *objects), objects)),
        Command::Weak { x } => Some(counted(mutator::new_weak(main, *x, *objects), objects)),
        Command::LetValue { x, v } => Some(O::of(mutator::let_value(main, *x, *v))),
        Command::DropVar { x } => Some(O::of(mutator::drop_var(main, *x))),
        Command::Add { x, v } => Some(mutator::add(main, *x, v)),
        Command::Set { x, f, v } => Some(mutator::set(main, *x, *f, v)),
        Command::Get { y, x, f } => Some(mutator::get(main, *y, *x, *f)),
        Command::Del { x, f } => Some(O::of(mutator::del(main, *x, *f))),
        Command::Proto { x, v } => Some(O::of(mutator::proto(main, *x, *v))),
        Command::Push { x, v } => Some(O::of(mutator::push(main, *x, *v))),
        Command::Put { x, i, v } => Some(O::of(mutator::put(main, *x, *i, *v))),
        Command::At { y, x, i } => Some(O::of(mutator::at(main, *y, *x, *i))),
        Command::Shift { x, n } => Some(O::of(mutator::shift(main, *x, *n))),
        Command::Trunc { x, n } => Some(O::of(mutator::trunc(main, *x, *n))),
        Command::WPut { m, k, v } => Some(O::of(mutator::wput(main, *m, *k, *v))),
        Command::WGet { y, m, k } => Some(O::of(mutator::wget(main, *y, *m, *k))),
        Command::WDel { m, k } => Some(O::of(mutator::wdel(main, *m, *k))),
        _ => None,
    }
}

/// Counts an object more, if it was made.
#[inline(always)]
fn counted<O: Outcome>(made: Result<(), Stop>, objects: &mut u32) -> O
    requires few { objects.old < lines_most }
    ensures says { O.Says result made }
    ensures counted { objects.new ≡ counted_more objects.old made }
{
    if made.is_ok() {
        *objects += 1;
    }
    O::of(made)
}
