//! Handing what waits in the output on to the sink.
ghost use Rattle.std.specs.Prelude.{◌≡◌, [], OnOk, OnErr};
ghost use Rattle.byte_ends.specs.Faults.{Rose};
ghost use Rattle.byte_ends.specs.Sink.{Appends};
ghost use Rattle.heap_script.specs.Runs.{CutsOff};

use byte_ends::{Failed, Sink, write_all};
use mutator::{OUTPUT_BYTES, Output};

/// Writes what waits, and then nothing waits.
#[cold]
#[inline(never)]
pub(crate) fn flush<K: Sink>(sink: &mut K, out: &mut Output) -> Result<(), Failed>
    ensures appended { OnOk result (Appends (K.HasTaken sink.old) (K.HasTaken sink.new) out.old) }
    ensures emptied { OnOk result (out.new ≡ []) }
    ensures stopped { OnErr result (CutsOff (K.HasTaken sink.old) (K.HasTaken sink.new) out.old) }
    ensures failed { OnErr result (Rose (K.faults sink.old) (K.faults sink.new)) }
    ensures steady { OnOk result (K.faults sink.new ≡ K.faults sink.old) }
{
    prove!(out.room() <= OUTPUT_BYTES);
    write_all(sink, out.bytes())?;
    out.clear();
    Ok(())
}
