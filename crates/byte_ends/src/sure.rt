//! A source and a sink that never fail. The sink keeps no bytes.
ghost use Rattle.std.specs.Prelude.{◌≡◌, ◌+◌, ◌≤◌, ℕ, List, drop, length, min, sum, Ok, Some, IfOk};
ghost use Rattle.byte_ends.specs.Sink.{Takes};
ghost use Rattle.byte_ends.specs.Source.{ReadsInto};
ghost use Rattle.byte_ends.specs.Sure.{HasSums, Sums, with_piece, wrapped};

use crate::copying::give_front;
use crate::ends::{Failed, Sink, Source};
use std::marker::Model;

/// Bytes in memory, of which a read gives as many as the buffer takes. No read fails.
#[derive(Drop)]
pub struct SureSource {
    bytes: Vec<u8>,
    at: usize,
}

impl Model for SureSource {
    ghost use Rattle.std.specs.Prelude.{ℕ, ◌≤◌, List, length, drop};

    ghost Value = { List ℕ };

    ghost view = { λ source. drop source.at source.bytes.items };

    ghost invariant = { λ source. source.at ≤ length source.bytes.items };
}

impl SureSource {
    /// Gives these bytes.
    pub fn new(bytes: Vec<u8>) -> SureSource
        ensures { result ≡ bytes.items }
    {
        SureSource { bytes, at: 0 }
    }
}

impl Source for SureSource {
    ghost use Rattle.std.specs.Prelude.{Some};

    ghost left = { λ source. Some source };

    ghost faults = { λ _. 0 };

    fn read(&mut self, buffer: &mut [u8]) -> Result<usize, Failed>
        ensures given { IfOk result (ReadsInto (Some self.old) (Some self.new) buffer.old buffer.new) }
        ensures sure { result ≡ Ok (min (length buffer.old) (length self.old)) }
    {
        let left = &self.bytes[self.at..];
        let count = give_front(left, left.len(), buffer);
        self.at += count;
        Ok(count)
    }
}

/// How many bytes were written, and the sum of their values, each modulo 2^64. No write fails.
#[derive(Drop)]
pub struct Tally {
    count: u64,
    total: u64,
}

impl Model for Tally {
    ghost use Rattle.byte_ends.specs.Sure.{Sums};

    ghost Value = { Sums };

    ghost view = { λ tally. record { bytes = tally.count; total = tally.total } };
}

impl Tally {
    /// Nothing was written.
    pub fn new() -> Tally
        ensures { result ≡ record { bytes = 0; total = 0 } }
    {
        Tally { count: 0, total: 0 }
    }

    /// How many bytes were written.
    pub fn bytes(&self) -> u64
        ensures { result ≡ self.now.bytes }
    {
        self.count
    }

    /// The sum of the bytes that were written.
    pub fn sum(&self) -> u64
        ensures { result ≡ self.now.total }
    {
        self.total
    }
}

impl Sink for Tally {
    ghost use Rattle.byte_ends.specs.Sure.{HasSums};

    ghost HasTaken = { HasSums };

    ghost faults = { λ _. 0 };

    fn write(&mut self, piece: &[u8]) -> Result<usize, Failed>
        ensures took { IfOk result (Takes (HasSums self.old) (HasSums self.new) piece.now) }
        ensures sure { result ≡ Ok (length piece.now) }
        ensures added { self.new ≡ with_piece self.old piece.now }
    {
        self.count = self.count.wrapping_add(piece.len() as u64);
        self.total = total_with(self.total, piece);
        Ok(piece.len())
    }
}

/// A sum, and the values of these bytes added to it, modulo 2^64.
fn total_with(mut total: u64, piece: &[u8]) -> u64
    ensures { result ≡ wrapped (total + sum piece.now) }
{
    for byte in piece {
        total = total.wrapping_add(u64::from(*byte));
    }
    total
}
