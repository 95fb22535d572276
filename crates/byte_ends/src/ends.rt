//! What a source and a sink promise. The ends themselves stand in `memory`, `sure` and `standard`.
ghost use Rattle.std.specs.Prelude.{◌≡◌, ◌≤◌, ℕ, List, Option, IfOk, OnOk, OnErr};
ghost use Rattle.byte_ends.specs.Faults.{Rose, one_more};
ghost use Rattle.byte_ends.specs.Sink.{TakesNothing, Takes};
ghost use Rattle.byte_ends.specs.Source.{ReadsInto};

/// The call could not be carried out.
#[derive(Clone, Copy, Debug, PartialEq, Eq)]
pub struct Failed;

/// Bytes that are read from the front.
pub trait Source {
    // What is left, where the source tells it.
    ghost left: { Self → Option (List ℕ) };
    // How many faults there were.
    ghost faults: { Self → ℕ };

    /// Gives bytes into the front of the buffer and answers how many. None, for a buffer that is
    /// not empty, is the end of the input. What is left after a failure is not said.
    fn read(&mut self, buffer: &mut [u8]) -> Result<usize, Failed>
        ensures given { IfOk result (ReadsInto (left self.old) (left self.new) buffer.old buffer.new) }
        ensures failed { OnErr result (Rose (faults self.old) (faults self.new)) }
        ensures steady { OnOk result (faults self.new ≡ faults self.old) }
        ensures counted { faults self.old ≤ faults self.new };
}

/// Where bytes are written.
pub trait Sink {
    // Which bytes it may have taken in all.
    ghost HasTaken: { Self → List ℕ → Type 0 };
    // How many faults there were.
    ghost faults: { Self → ℕ };

    /// Takes bytes from the front of the piece and answers how many: at least one of a piece that
    /// is not empty.
    fn write(&mut self, piece: &[u8]) -> Result<usize, Failed>
        ensures took { IfOk result (Takes (HasTaken self.old) (HasTaken self.new) piece.now) }
        ensures nothing { OnErr result (TakesNothing (HasTaken self.old) (HasTaken self.new)) }
        ensures failed { OnErr result (Rose (faults self.old) (faults self.new)) }
        ensures steady { OnOk result (faults self.new ≡ faults self.old) }
        ensures counted { faults self.old ≤ faults self.new };
}

/// Counts a fault. The count stands still at the end of 64 bits.
pub(crate) fn fault(faults: &mut u64) -> Failed
    ensures more { faults.new ≡ one_more faults.old }
    ensures counted { faults.old ≤ faults.new }
{
    *faults = faults.saturating_add(1);
    Failed
}
