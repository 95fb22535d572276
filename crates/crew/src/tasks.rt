//! Work that runs in threads next to the caller's own. The points that threads pass are in `lib.rt`.
ghost use Rattle.std.specs.Prelude.{◌≡◌, ℕ, ◌<◌, length, slice_index_or};
ghost use Rattle.std.specs.Thread.{IsSync};

use std::thread;
use std::thread::{Threads, join_mut};

/// Work that owns what it changes, and is run with a context that all share.
pub trait Task<C>: Send {
    // What has to hold before it is run with a context.
    ghost ready: { Self → C → Type 0 };
    // What it does, from the first to the second, with a context.
    ghost done: { Self → C → Self → Type 0 };

    /// Does the work once.
    fn run(&mut self, context: &C)
        requires { ready self.old context.now }
        ensures { done self.old context.now self.new };
}

/// Calls `first` in this thread, and runs each task once with the context in a thread of its own while `first` runs. It
/// returns when all are done, and takes no memory. With no task it starts no thread. Where the system has no thread
/// left the tasks run one after another, so no task may wait for another one, or for `first`.
pub fn beside<R: Threads + Sync, C: Sync, F: FnMut(), T: Task<C>>(
    rt: &R,
    first: &mut F,
    tasks: &mut [T],
    context: &C,
)
    requires first { F.pre first.old }
    requires ready { (i : ℕ) (default : T) → i < length tasks.old →
        T.ready (slice_index_or tasks.old i default) context.now }
    ensures first { F.step first.old tt first.new }
    ensures count { length tasks.new ≡ length tasks.old }
    ensures done { (i : ℕ) (default : T) → i < length tasks.old →
        T.done (slice_index_or tasks.old i default) context.now (slice_index_or tasks.new i default) }
{
    if tasks.is_empty() {
        first();
        return;
    }
    // `join_mut` calls its second closure in this thread.
    join_mut(
        rt,
        &mut ||
            requires sync { IsSync R.row }
            requires ready { (i : ℕ) (default : T) → i < length tasks.now →
                T.ready (slice_index_or tasks.now i default) context.now }
            ensures count { length tasks.exit.now ≡ length tasks.entry.now }
            ensures done { (i : ℕ) (default : T) → i < length tasks.entry.now →
                T.done (slice_index_or tasks.entry.now i default) context.entry.now
                (slice_index_or tasks.exit.now i default) }
        { run_all(rt, tasks, context) },
        first,
    );
}

/// Runs each task once with the context, each in a thread of its own.
fn run_all<R: Threads + Sync, C: Sync, T: Task<C>>(rt: &R, tasks: &mut [T], context: &C)
    requires ready { (i : ℕ) (default : T) → i < length tasks.old →
        T.ready (slice_index_or tasks.old i default) context.now }
    ensures count { length tasks.new ≡ length tasks.old }
    ensures done { (i : ℕ) (default : T) → i < length tasks.old →
        T.done (slice_index_or tasks.old i default) context.now (slice_index_or tasks.new i default) }
{
    let count = tasks.len();
    if count == 0 {
        return;
    }
    thread::for_each_mut(rt, tasks, count, &|_, task| task.run(context));
}
