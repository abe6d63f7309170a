// Sources and sinks in memory, for tests: what they give, take and refuse is chosen when they are made.
ghost use Rattle.std.specs.Prelude.{◌≡◌, ◌≤◌, ◌<◌, ◌+◌, ◌-◌, ◌^◌, [], ◌++◌, length};
ghost use Rattle.std.specs.Prelude.{drop, take, min, Contains, Some, ◌⊎◌, IsErr, IfOk, ◌↔◌};
ghost use Rattle.std.specs.Io.{ReadsAtMost, WritesAtMost};
ghost use Rattle.std.specs.Io.KnownBytes.{ReadConsumes, WriteAppends};
ghost use Rattle.palm_script.specs.Causes.{HasCause};

use crate::traits::{Failed, Sink, Source};
use palm_base::NoMemory;
use std::alloc::Global;
use std::marker::Model;

// Copies `count` bytes from a place on to the front of a buffer.
fn give(bytes: &[u8], place: usize, count: usize, buf: &mut [u8])
    requires inside { place + count ≤ length bytes.now }
    requires room { count ≤ length buf.old }
    ensures given { drop place bytes.now ≡ take count buf.new ++ drop (place + count) bytes.now }
    ensures len { length buf.new ≡ length buf.old }
{
    buf[..count].copy_from_slice(&bytes[place..place + count]);
}

/// A source in memory that gives its bytes in pieces, and fails at chosen reads. Contracts see the bytes left, what was
/// chosen, and the counts of reads and faults.
#[derive(Debug, Drop)]
pub struct MemSource {
    bytes: Vec<u8>,
    place: usize,
    most: usize,
    fails: Vec<u64>,
    reads: u64,
    faults: u64,
}

impl Model for MemSource {
    ghost use Rattle.std.specs.Prelude.{◌≤◌, length, drop};
    ghost use Rattle.palm_script.specs.MemoryForms.{Feed};

    ghost Value = { Feed };

    ghost view = { λ a.
        record {
          left = drop a.place a.bytes.items;
          most = a.most;
          fails = a.fails.items;
          reads = a.reads;
          faults = a.faults;
        } };

    ghost invariant = { λ a. (a.place ≤ length a.bytes.items) × (1 ≤ a.most) };
}

impl MemSource {
    /// A source of these bytes. A read gives at most `most` bytes, and the reads with the numbers in `fails`, counted
    /// from 0, fail and take nothing.
    pub fn new(bytes: Vec<u8>, most: usize, fails: Vec<u64>) -> MemSource
        requires { 1 ≤ most }
        ensures { result ≡ record {
          left = bytes.items;
          most = most;
          fails = fails.items;
          reads = 0;
          faults = 0;
        } }
    {
        MemSource {
            bytes,
            place: 0,
            most,
            fails,
            reads: 0,
            faults: 0,
        }
    }
}

impl Source for MemSource {
    ghost left = { λ s. Some s.left };

    ghost faults = { λ s. s.faults };

    /// Fails exactly at the chosen reads, and else gives as much as it may. Its counts stand still at 2^64 - 1.
    fn read(&mut self, buf: &mut [u8]) -> Result<usize, Failed>
        ensures bound { ReadsAtMost result buf.new }
        ensures bytes { ReadConsumes (Some self.old.left) (Some self.new.left) result buf.new }
        ensures cause { HasCause self.old.faults self.new.faults result }

        ensures fails { IsErr result ↔ Contains self.old.fails self.old.reads }
        ensures count { IfOk result (λ n.
            n ≡ min (min self.old.most (length buf.old)) (length self.old.left)) }
        ensures reads { self.new.reads ≡ min (self.old.reads + 1) (2 ^ 64 - 1) }
        ensures kept { (self.new.fails ≡ self.old.fails) × (self.new.most ≡ self.old.most) }
    {
        let fails = self.fails.contains(&self.reads);
        self.reads = self.reads.saturating_add(1);
        if fails {
            self.faults = self.faults.saturating_add(1);
            return Err(Failed);
        }
        let count = self.most.min(buf.len()).min(self.bytes.len() - self.place);
        give(&self.bytes, self.place, count, buf);
        self.place += count;
        Ok(count)
    }
}

/// A source in memory that never fails. Contracts see the bytes left.
#[derive(Debug, Drop)]
pub struct SureSource {
    bytes: Vec<u8>,
    place: usize,
}

impl Model for SureSource {
    ghost use Rattle.std.specs.Prelude.{List, ℕ, ◌≤◌, length, drop};

    ghost Value = { List ℕ };

    ghost view = { λ a. drop a.place a.bytes.items };

    ghost invariant = { λ a. a.place ≤ length a.bytes.items };
}

impl SureSource {
    /// A source of these bytes.
    pub fn new(bytes: Vec<u8>) -> SureSource
        ensures { result ≡ bytes.items }
    {
        SureSource { bytes, place: 0 }
    }
}

impl Source for SureSource {
    ghost left = { λ s. Some s };

    ghost faults = { λ _. 0 };

    fn read(&mut self, buf: &mut [u8]) -> Result<usize, Failed> {
        let count = buf.len().min(self.bytes.len() - self.place);
        give(&self.bytes, self.place, count, buf);
        self.place += count;
        Ok(count)
    }
}

/// A sink in memory that takes what it is offered in pieces, up to its room, and fails at chosen writes. Contracts see
/// the bytes taken, what was chosen, and the counts of writes and faults.
#[derive(Debug, Drop)]
pub struct MemSink {
    taken: Vec<u8>,
    room: usize,
    most: usize,
    fails: Vec<u64>,
    writes: u64,
    faults: u64,
}

impl Model for MemSink {
    ghost use Rattle.std.specs.Prelude.{◌≤◌, length, vec_capacity};
    ghost use Rattle.palm_script.specs.MemoryForms.{Drain};

    ghost Value = { Drain };

    ghost view = { λ a.
        record {
          taken = a.taken.items;
          room = a.room;
          most = a.most;
          fails = a.fails.items;
          writes = a.writes;
          faults = a.faults;
        } };

    ghost invariant = { λ a.
        (length a.taken.items ≤ a.room) × (a.room ≤ vec_capacity a.taken) × (1 ≤ a.most) };
}

impl MemSink {
    /// An empty sink for at most `room` bytes, which it reserves. A write takes at most `most` bytes. It fails and
    /// takes nothing where its number, counted from 0, is in `fails`, or the room is full and there is a byte to take.
    /// `NoMemory` where the room was refused.
    pub fn new(
        alloc: Global,
        room: usize,
        most: usize,
        fails: Vec<u64>,
    ) -> Result<MemSink, NoMemory>
        requires { 1 ≤ most }
        ensures { IfOk result (λ s.
            s ≡ record {
              taken = [];
              room = room;
              most = most;
              fails = fails.items;
              writes = 0;
              faults = 0;
            }) }
    {
        Ok(MemSink {
            taken: Vec::with_capacity(alloc, room)?,
            room,
            most,
            fails,
            writes: 0,
            faults: 0,
        })
    }

    /// The bytes taken so far.
    pub fn taken(&self) -> &[u8]
        ensures { result.now ≡ self.now.taken }
    {
        self.taken.as_slice()
    }
}

impl Sink for MemSink {
    ghost taken = { λ s. Some s.taken };

    ghost faults = { λ s. s.faults };

    /// Fails exactly at the chosen writes and where the room is full, and else takes as much as it may. Its counts
    /// stand still at 2^64 - 1.
    fn write(&mut self, part: &[u8]) -> Result<usize, Failed>
        ensures bound { WritesAtMost result part.now }
        ensures bytes { WriteAppends (Some self.old.taken) (Some self.new.taken) result part.now }
        ensures some { 0 < length part.now → IfOk result (λ n. 0 < n) }
        ensures cause { HasCause self.old.faults self.new.faults result }

        ensures fails { IsErr result
            ↔ (Contains self.old.fails self.old.writes
            ⊎ ((0 < length part.now) × (length self.old.taken ≡ self.old.room))) }
        ensures count { IfOk result (λ n.
            n ≡ min (min self.old.most (length part.now)) (self.old.room - length self.old.taken)) }
        ensures writes { self.new.writes ≡ min (self.old.writes + 1) (2 ^ 64 - 1) }
        ensures kept { (self.new.fails ≡ self.old.fails) × (self.new.most ≡ self.old.most)
            × (self.new.room ≡ self.old.room) }
    {
        let fails = self.fails.contains(&self.writes);
        let full = !part.is_empty() && self.taken.len() == self.room;
        self.writes = self.writes.saturating_add(1);
        if fails || full {
            self.faults = self.faults.saturating_add(1);
            return Err(Failed);
        }
        let count = self.most.min(part.len()).min(self.room - self.taken.len());
        self.taken.extend_from_slice(&part[..count]).unwrap();
        Ok(count)
    }
}

/// A sink that takes all that it is offered and keeps nothing. It never fails, and tells no bytes.
#[derive(Clone, Copy, Debug, Default)]
pub struct NullSink;

impl Sink for NullSink {
    ghost use Rattle.std.specs.Prelude.{None, Ok};

    ghost taken = { λ _. None };

    ghost faults = { λ _. 0 };

    /// Takes the whole part.
    fn write(&mut self, part: &[u8]) -> Result<usize, Failed>
        ensures bound { WritesAtMost result part.now }
        ensures bytes { WriteAppends None None result part.now }
        ensures some { 0 < length part.now → IfOk result (λ n. 0 < n) }
        ensures cause { HasCause 0 0 result }

        ensures all { result ≡ Ok (length part.now) }
    {
        Ok(part.len())
    }
}
