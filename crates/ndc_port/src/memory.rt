//! A source and a sink over memory, which fail at the calls that they are told to fail at.
ghost use Rattle.std.specs.Prelude.{◌≡◌, ◌≤◌, [], length, take, drop, min, Some, IfOk, OnErr};
ghost use Rattle.ndc_port.specs.Memory.{read_answer, after_read, write_answer, after_write};

use crate::OutOfMemory;
use crate::fault::Failed;
use crate::reading::Source;
use crate::writing::Sink;
use std::alloc::Global;
use std::marker::Model;

/// A source that gives the bytes of a list, and fails at listed calls. Reading takes no memory.
#[derive(Drop)]
pub struct MemSource {
    bytes: Vec<u8>,
    at: usize,
    calls: u64,
    failing: Vec<u64>,
    faults: u64,
}

impl Model for MemSource {
    ghost use Rattle.std.specs.Prelude.{◌≤◌, drop, length};
    ghost use Rattle.ndc_port.specs.Memory.{SourceState};

    ghost Value = { SourceState };

    ghost view = { λ s. record {
      left = drop s.at s.bytes.items;
      calls = s.calls;
      failing = s.failing.items;
      faults = s.faults;
    } };

    ghost invariant = { λ s. s.at ≤ length s.bytes.items };
}

impl MemSource {
    /// A source with these bytes left, no call and no fault. The calls whose numbers are in `failing`,
    /// counted from 1, fail.
    pub fn new(bytes: Vec<u8>, failing: Vec<u64>) -> MemSource
        ensures { result ≡ record {
          left = bytes.items;
          calls = 0;
          failing = failing.items;
          faults = 0;
        } }
    {
        MemSource {
            bytes,
            at: 0,
            calls: 0,
            failing,
            faults: 0,
        }
    }
}

impl Source for MemSource {
    ghost left = { λ s. Some s.left };

    ghost faults = { λ s. s.faults };

    /// Gives as many bytes as fit. Fails exactly at the listed calls.
    fn read(&mut self, into: &mut [u8]) -> Result<usize, Failed>
        ensures answer { result ≡ read_answer self.old (length into.old) }
        ensures after { self.new ≡ after_read self.old (length into.old) }
        ensures beyond { IfOk result (λ n. drop n into.new ≡ drop n into.old) }
        ensures untouched { OnErr result (into.new ≡ into.old) }
        ensures given { IfOk result (λ n. take n into.new ≡ take n self.old.left) }
        ensures count { self.old.faults ≤ self.new.faults }
    {
        self.calls = self.calls.saturating_add(1);
        if self.failing.contains(&self.calls) {
            self.faults = self.faults.saturating_add(1);
            return Err(Failed);
        }
        let count = copy_front(&self.bytes[self.at..], into);
        self.at += count;
        Ok(count)
    }
}

/// Copies as many bytes as fit, and answers how many.
fn copy_front(from: &[u8], into: &mut [u8]) -> usize
    ensures count { result ≡ min (length into.old) (length from.now) }
    ensures copied { take result into.new ≡ take result from.now }
    ensures beyond { drop result into.new ≡ drop result into.old }
{
    let count = into.len().min(from.len());
    into[..count].copy_from_slice(&from[..count]);
    count
}

/// A sink with room for a number of bytes, which fails at listed calls. Writing takes no memory: the sink
/// has its room from the start.
#[derive(Drop)]
pub struct MemSink {
    bytes: Vec<u8>,
    room: usize,
    calls: u64,
    failing: Vec<u64>,
    faults: u64,
}

impl Model for MemSink {
    ghost use Rattle.std.specs.Prelude.{◌≤◌, vec_len, vec_capacity};
    ghost use Rattle.ndc_port.specs.Memory.{SinkState};

    ghost Value = { SinkState };

    ghost view = { λ s. record {
      written = s.bytes.items;
      room = s.room;
      calls = s.calls;
      failing = s.failing.items;
      faults = s.faults;
    } };

    ghost invariant = { λ s. (vec_len s.bytes ≤ s.room) × (s.room ≤ vec_capacity s.bytes) };
}

impl MemSink {
    /// A sink with room for `room` bytes, nothing written, no call and no fault. The calls whose numbers are
    /// in `failing`, counted from 1, fail.
    pub fn new(alloc: Global, room: usize, failing: Vec<u64>) -> Result<MemSink, OutOfMemory>
        ensures { IfOk result (λ sink. sink
            ≡ record {
              written = [];
              room = room;
              calls = 0;
              failing = failing.items;
              faults =
                  0;
            }) }
    {
        Ok(MemSink {
            bytes: Vec::with_capacity(alloc, room)?,
            room,
            calls: 0,
            failing,
            faults: 0,
        })
    }

    /// What was written. Takes no memory.
    pub fn bytes(&self) -> &[u8]
        ensures { result.now ≡ self.now.written }
    {
        &self.bytes
    }
}

impl Sink for MemSink {
    ghost written = { λ s. Some s.written };

    ghost faults = { λ s. s.faults };

    /// Takes as many bytes as there is room for. Fails exactly at the listed calls, and where there is no
    /// room for a piece that is not empty.
    fn write(&mut self, from: &[u8]) -> Result<usize, Failed>
        ensures answer { result ≡ write_answer self.old from.now }
        ensures after { self.new ≡ after_write self.old from.now }
        ensures count { self.old.faults ≤ self.new.faults }
    {
        self.calls = self.calls.saturating_add(1);
        let free = self.room - self.bytes.len();
        if self.failing.contains(&self.calls) || (free == 0 && !from.is_empty()) {
            self.faults = self.faults.saturating_add(1);
            return Err(Failed);
        }
        let count = from.len().min(free);
        self.bytes.extend_from_slice(&from[..count]).unwrap();
        Ok(count)
    }
}
