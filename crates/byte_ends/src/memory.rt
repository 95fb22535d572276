//! A source and a sink in memory, which give and take in pieces and fail where they are told to.
ghost use Rattle.std.specs.Prelude.{◌≡◌, ◌≤◌, [], length, Some, IfOk, OnOk, OnErr};
ghost use Rattle.byte_ends.specs.Faults.{Rose};
ghost use Rattle.byte_ends.specs.Memory.{HasBytes, ReadsMemory, WritesMemory};
ghost use Rattle.byte_ends.specs.Sink.{TakesNothing, Takes};
ghost use Rattle.byte_ends.specs.Source.{ReadsInto};

use crate::copying::give_front;
use crate::ends::{Failed, Sink, Source, fault};
use std::alloc::Global;
use std::marker::Model;
use tagged_word::NoMemory;

/// Bytes in memory that are read a few at a time.
#[derive(Drop)]
pub struct MemSource {
    bytes: Vec<u8>,
    at: usize,
    most: usize,
    failing: Vec<u64>,
    calls: u64,
    faults: u64,
}

impl Model for MemSource {
    ghost use Rattle.std.specs.Prelude.{◌≤◌, length, drop};
    ghost use Rattle.byte_ends.specs.Memory.{SourceBytes};

    ghost Value = { SourceBytes };

    ghost view = { λ source. record {
      left = drop source.at source.bytes.items;
      most = source.most;
      failing = source.failing.items;
      calls = source.calls;
      faults = source.faults;
    } };

    ghost invariant = { λ source. (source.at ≤ length source.bytes.items) × (1 ≤ source.most) };
}

impl MemSource {
    /// Gives at most `most` bytes a call. The calls with these numbers, counted from 1, fail.
    pub fn new(bytes: Vec<u8>, most: usize, failing: Vec<u64>) -> MemSource
        requires { 1 ≤ most }
        ensures { result ≡ record {
          left = bytes.items;
          most = most;
          failing = failing.items;
          calls = 0;
          faults = 0;
        } }
    {
        MemSource {
            bytes,
            at: 0,
            most,
            failing,
            calls: 0,
            faults: 0,
        }
    }

    /// The bytes that were not read.
    pub fn left(&self) -> &[u8]
        ensures { result.now ≡ self.now.left }
    {
        &self.bytes[self.at..]
    }
}

impl Source for MemSource {
    ghost use Rattle.std.specs.Prelude.{Some};

    ghost left = { λ source. Some source.left };

    ghost faults = { λ source. source.faults };

    fn read(&mut self, buffer: &mut [u8]) -> Result<usize, Failed>
        ensures given { IfOk result
            (ReadsInto (Some self.old.left) (Some self.new.left) buffer.old buffer.new) }
        ensures failed { OnErr result (Rose self.old.faults self.new.faults) }
        ensures steady { OnOk result (self.new.faults ≡ self.old.faults) }
        ensures counted { self.old.faults ≤ self.new.faults }
        ensures exactly { ReadsMemory self.old self.new (length buffer.old) result }
    {
        self.calls = self.calls.saturating_add(1);
        if self.failing.contains(&self.calls) {
            return Err(fault(&mut self.faults));
        }
        let count = give_front(&self.bytes[self.at..], self.most, buffer);
        self.at += count;
        Ok(count)
    }
}

/// Memory that is written a few bytes at a time.
#[derive(Drop)]
pub struct MemSink {
    bytes: Vec<u8>,
    capacity: usize,
    most: usize,
    failing: Vec<u64>,
    calls: u64,
    faults: u64,
}

impl Model for MemSink {
    ghost use Rattle.std.specs.Prelude.{◌≤◌, length, vec_capacity};
    ghost use Rattle.byte_ends.specs.Memory.{SinkBytes};

    ghost Value = { SinkBytes };

    ghost view = { λ sink. record {
      taken = sink.bytes.items;
      capacity = sink.capacity;
      most = sink.most;
      failing = sink.failing.items;
      calls = sink.calls;
      faults = sink.faults;
    } };

    ghost invariant = { λ sink.
        (length sink.bytes.items ≤ sink.capacity) × (sink.capacity ≤ vec_capacity sink.bytes)
        × (1 ≤ sink.most) };
}

impl MemSink {
    /// Takes its memory here. It takes at most `most` bytes a call and `capacity` in all; beyond
    /// that a call fails, and so do the calls with these numbers, counted from 1.
    pub fn new(
        alloc: Global,
        capacity: usize,
        most: usize,
        failing: Vec<u64>,
    ) -> Result<MemSink, NoMemory>
        requires { 1 ≤ most }
        ensures { IfOk result (λ sink. sink ≡ record {
          taken = [];
          capacity = capacity;
          most = most;
          failing = failing.items;
          calls = 0;
          faults = 0;
        }) }
    {
        Ok(MemSink {
            bytes: Vec::with_capacity(alloc, capacity)?,
            capacity,
            most,
            failing,
            calls: 0,
            faults: 0,
        })
    }

    /// The bytes that were taken.
    pub fn bytes(&self) -> &[u8]
        ensures { result.now ≡ self.now.taken }
    {
        &self.bytes
    }
}

impl Sink for MemSink {
    ghost use Rattle.byte_ends.specs.Memory.{HasBytes};

    ghost HasTaken = { HasBytes };

    ghost faults = { λ sink. sink.faults };

    fn write(&mut self, piece: &[u8]) -> Result<usize, Failed>
        ensures took { IfOk result (Takes (HasBytes self.old) (HasBytes self.new) piece.now) }
        ensures nothing { OnErr result (TakesNothing (HasBytes self.old) (HasBytes self.new)) }
        ensures failed { OnErr result (Rose self.old.faults self.new.faults) }
        ensures steady { OnOk result (self.new.faults ≡ self.old.faults) }
        ensures counted { self.old.faults ≤ self.new.faults }
        ensures exactly { WritesMemory self.old self.new piece.now result }
    {
        self.calls = self.calls.saturating_add(1);
        let count = self.most.min(piece.len());
        let room = self.capacity - self.bytes.len();
        if count > room || self.failing.contains(&self.calls) {
            return Err(fault(&mut self.faults));
        }
        if self.bytes.extend_from_slice(&piece[..count]).is_err() {
            unreachable!()
        }
        Ok(count)
    }
}
