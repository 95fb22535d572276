//! The bytes that commands have written and that were not handed on.
ghost use Rattle.std.specs.Prelude.{◌≡◌, ◌+◌, ◌++◌, ◌≤◌, [], IfOk, length};

use std::alloc::Global;
use std::marker::Model;
use tagged_word::NoMemory;

/// How many bytes an `Output` holds at most.
pub const OUTPUT_BYTES: u32 = 65_536;

/// The room in bytes that a command may need: none writes more.
pub const ROOM: u32 = 4096;

/// At most `OUTPUT_BYTES` bytes that wait to be handed on.
#[derive(Drop)]
pub struct Output {
    bytes: Vec<u8>,
}

impl Model for Output {
    ghost use Rattle.std.specs.Prelude.{List, ℕ, ◌≤◌, length, vec_capacity};
    ghost use Rattle.mutator.specs.declared.output.TheConstants.{OUTPUT_BYTES};

    ghost Value = { List ℕ };

    ghost view = { λ output. output.bytes.items };

    ghost invariant = { λ output. (length output.bytes.items ≤ OUTPUT_BYTES)
        × (OUTPUT_BYTES ≤ vec_capacity output.bytes) };
}

impl Output {
    /// An output that holds nothing. It takes all the memory that it needs, and fails for want of
    /// memory alone: later calls need none.
    pub fn new(alloc: Global) -> Result<Output, NoMemory>
        ensures { IfOk result (λ output. output ≡ []) }
    {
        let bytes = Vec::with_capacity(alloc, OUTPUT_BYTES as usize)?;
        Ok(Output { bytes })
    }

    /// How many bytes more there is room for.
    pub fn room(&self) -> u32
        ensures { result + length self.now ≡ OUTPUT_BYTES }
    {
        OUTPUT_BYTES - self.bytes.len() as u32
    }

    /// The bytes that wait to be handed on.
    pub fn bytes(&self) -> &[u8]
        ensures { result.now ≡ self.now }
    {
        self.bytes.as_slice()
    }

    /// Drops the bytes, which were handed on.
    pub fn clear(&mut self)
        ensures { self.new ≡ [] }
    {
        self.bytes.clear();
    }

    /// Puts a piece behind the bytes. Both together are at most `OUTPUT_BYTES` bytes.
    pub fn put(&mut self, piece: &[u8])
        requires { length self.old + length piece.now ≤ OUTPUT_BYTES }
        ensures { self.new ≡ self.old ++ piece.now }
    {
        // The memory was taken when the output was made.
        if self.bytes.extend_from_slice(piece).is_err() {
            unreachable!();
        }
    }
}
