//! Reading a source to its end. What the bytes say is judged by `script_text`.
ghost use Rattle.std.specs.Prelude.{◌≡◌, ◌+◌, ◌<◌, ◌≤◌, [], drop, length, IfOk, IfSome, IsErrOf, OnOk, Some};
ghost use Rattle.byte_ends.specs.Faults.{Rose};
ghost use Rattle.byte_ends.specs.Source.{IsInput};
ghost use Rattle.heap_run.specs.Answers.{source_most};

use byte_ends::Source;
use std::alloc::Global;

/// How many bytes a source may have.
pub(crate) const SOURCE_BYTES: usize = 1_048_576;

/// How many bytes are read at a time.
const PIECE_BYTES: usize = 4096;

/// Why a source was not read to its end.
#[derive(Clone, Copy)]
pub(crate) enum ReadStop {
    /// A read failed.
    Fault,
    /// The source has more bytes than it may have. One byte more than that was read.
    TooLong,
    /// Memory was refused, and nothing was read.
    NoMemory,
}

/// All bytes of a source. The memory for them is taken before the first read.
pub(crate) fn read_source<S: Source>(alloc: Global, source: &mut S) -> Result<Vec<u8>, ReadStop>
    ensures short { IfOk result (λ bytes. length bytes.items ≤ source_most) }
    ensures whole { IfOk result (λ bytes. IsInput (S.left source.old) bytes.items) }
    ensures empty { IfOk result (λ _. IfSome (S.left source.old) (λ _. S.left source.new ≡ Some [])) }
    ensures steady { OnOk result (S.faults source.new ≡ S.faults source.old) }
    ensures fault { IsErrOf result ReadStop.Fault → Rose (S.faults source.old) (S.faults source.new) }
    ensures too_long { IsErrOf result ReadStop.TooLong → IfSome (S.left source.old) (λ left.
        (source_most < length left) × (S.left source.new ≡ Some (drop (source_most + 1) left)))
        × (S.faults source.new ≡ S.faults source.old) }
    ensures no_memory { IsErrOf result ReadStop.NoMemory → (S.left source.new ≡ S.left source.old)
        × (S.faults source.new ≡ S.faults source.old) }
{
    let Ok(mut bytes) = Vec::with_capacity(alloc, SOURCE_BYTES + 1) else {
        return Err(ReadStop::NoMemory);
    };
    let mut piece = [0; PIECE_BYTES];
    // Each turn takes at least one byte, so that a source without an end is found out.
    for _turn in 0..SOURCE_BYTES + 1 {
        let room = PIECE_BYTES.min(SOURCE_BYTES + 1 - bytes.len());
        let Ok(count) = source.read(&mut piece[..room]) else {
            return Err(ReadStop::Fault);
        };
        if count == 0 {
            return Ok(bytes);
        }
        if bytes.extend_from_slice(&piece[..count]).is_err() {
            unreachable!()
        }
        if bytes.len() > SOURCE_BYTES {
            return Err(ReadStop::TooLong);
        }
    }
    unreachable!()
}
