//! Writing all of a piece.
ghost use Rattle.std.specs.Prelude.{◌≡◌, ◌≤◌, OnOk, OnErr};
ghost use Rattle.byte_ends.specs.Faults.{Rose};
ghost use Rattle.byte_ends.specs.Sink.{Appends, AppendsSome};

use crate::ends::{Failed, Sink};

/// Writes the whole piece, in as many calls as it takes. A call that fails ends it.
pub fn write_all<K: Sink>(sink: &mut K, piece: &[u8]) -> Result<(), Failed>
    ensures appended { OnOk result (Appends (K.HasTaken sink.old) (K.HasTaken sink.new) piece.now) }
    ensures stopped { OnErr result
        (AppendsSome (K.HasTaken sink.old) (K.HasTaken sink.new) piece.now) }
    ensures failed { OnErr result (Rose (K.faults sink.old) (K.faults sink.new)) }
    ensures steady { OnOk result (K.faults sink.new ≡ K.faults sink.old) }
    ensures counted { K.faults sink.old ≤ K.faults sink.new }
{
    let mut at = 0;
    while at < piece.len() {
        at += sink.write(&piece[at..])?;
    }
    Ok(())
}
