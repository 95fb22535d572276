//! Writing a generated script. No heap is opened for it, and nothing is read.
ghost use Rattle.std.specs.Prelude.{◌≤◌};
ghost use Rattle.heap_run.specs.Answers.{Generates};

use crate::ended::Ended;
use crate::last_line::{LastLine, SINK_FAULT};
use crate::program::give_up;
use byte_ends::{Failed, Sink, write_all};
use script_gen::{FORMS_MOST, generate};
use std::alloc::Global;

/// Writes the script that is generated of a seed, with so many forms.
pub(crate) fn write_generated<K: Sink>(alloc: Global, seed: u64, forms: u32, sink: &mut K) -> Ended
    requires { forms ≤ FORMS_MOST }
    ensures { Generates seed forms (K.HasTaken sink.old) (K.HasTaken sink.new)
        (K.faults sink.old) (K.faults sink.new) result }
{
    let Ok(script) = generate(alloc, seed, forms) else {
        return give_up(sink, LastLine::NoMemory);
    };
    match write_all(sink, &script) {
        Ok(()) => Ended {
            status: LastLine::Nothing.status(),
            kept: None,
        },
        Err(Failed) => Ended {
            status: SINK_FAULT,
            kept: None,
        },
    }
}
