//! Sources and sinks in memory: plain ones, and ones that fail at planned calls.
ghost use Rattle.std.specs.Prelude.{◌≡◌, ◌<◌, ◌↔◌, ◌||◌, [], false, length, IsTrue, OnOk, OnErr, IfOk, IsErr, is_err, Some, Ok};
ghost use Rattle.std.specs.Io.KnownBytes.{Keeps};
ghost use Rattle.nz_spec.specs.outside.Outside.{last_count, counted, GivesFront, finds_end, EndsAtZero, TakesFront, is_refusal, given_count, after_read, after_failed_read, read_buffer, taken_count, after_fault, after_write, after_flush, fails_next, after_call, after_faulty_read, after_faulty_write, after_faulty_flush};

use crate::errors::{Failed, Memory};
use crate::outside::{Sink, Source};
use crate::reads::Reads;
use std::alloc::Global;
use std::marker::Model;

/// A source over bytes in memory, which never fails.
#[derive(Debug, Drop)]
pub struct PlainSource {
    bytes: Vec<u8>,
    // How many of them were read.
    at: usize,
    piece: usize,
    reads: Reads,
}

impl Model for PlainSource {
    ghost use Rattle.std.specs.Prelude.{◌<◌, ◌≤◌, drop, vec_len};
    ghost use Rattle.nz_spec.specs.outside.Outside.{MemoryInput};

    ghost Value = { MemoryInput };

    ghost view = { λ s. record { left = drop s.at s.bytes.items; piece = s.piece; reads = s.reads } };

    ghost invariant = { λ s. (s.at ≤ vec_len s.bytes) × (0 < s.piece) };
}

impl PlainSource {
    /// A source of these bytes, of which each read gives at most `piece`.
    pub fn new(bytes: Vec<u8>, piece: usize) -> Self
        requires { 0 < piece }
        ensures made { result ≡ record { left = bytes.items; piece = piece; reads = record { has_ended = false; read_late = false } } }
    {
        PlainSource {
            bytes,
            at: 0,
            piece,
            reads: Reads::new(),
        }
    }

    // Takes in a read that failed.
    fn fail(&mut self)
        ensures failed { self.new ≡ after_failed_read self.old }
    {
        self.reads.add(false);
    }
}

impl Source for PlainSource {
    ghost use Rattle.std.specs.Prelude.{Some};
    ghost use Rattle.std.proofs.Common.{lit<};
    ghost use Rattle.nz_spec.specs.outside.Outside.{last_count};

    ghost left = { λ s. Some s.left };

    ghost faults = { λ _. 0 };

    ghost last = { last_count };

    ghost has_ended = { λ s. s.reads.has_ended };

    ghost read_late = { λ s. s.reads.read_late };

    ghost last_positive = { lit< tt };

    fn read(&mut self, buf: &mut [u8]) -> Result<usize, Failed>
        ensures given { result ≡ Ok (given_count self.old (length buf.old)) }
        ensures filled { buf.new ≡ read_buffer self.old buf.old }
        ensures rest { self.new ≡ after_read self.old (length buf.old) }
        ensures bytes { GivesFront (Some self.old.left) (Some self.new.left) result buf.new }
        ensures end { EndsAtZero (Some self.new.left) result buf.new }
    {
        let rest = &self.bytes[self.at..];
        let count = rest.len().min(self.piece).min(buf.len());
        buf[..count].copy_from_slice(&rest[..count]);
        self.at += count;
        self.reads.add(count == 0 && !buf.is_empty());
        Ok(count)
    }
}

/// A sink in memory, which takes what fits in its room and never answers `Failed`.
#[derive(Debug, Drop)]
pub struct PlainSink {
    bytes: Vec<u8>,
    // How many of them were handed on.
    handed: usize,
    room: usize,
    faults: u64,
}

impl Model for PlainSink {
    ghost use Rattle.std.specs.Prelude.{◌≤◌, take, vec_len, vec_capacity};
    ghost use Rattle.nz_spec.specs.outside.Outside.{MemoryOutput};

    ghost Value = { MemoryOutput };

    ghost view = { λ s. record { held = s.bytes.items; handed = take s.handed s.bytes.items; room = s.room; faults = s.faults } };

    ghost invariant = { λ s. (s.handed ≤ vec_len s.bytes) × (vec_len s.bytes ≤ s.room) × (s.room ≤ vec_capacity s.bytes) };
}

impl PlainSink {
    /// An empty sink with room for so many bytes, which is had here: no write takes memory.
    pub fn new(alloc: Global, room: usize) -> Result<Self, Memory>
        ensures made { IfOk result (λ s. s ≡ record { held = []; handed = []; room = room; faults = 0 }) }
    {
        Ok(PlainSink {
            bytes: Vec::with_capacity(alloc, room)?,
            handed: 0,
            room,
            faults: 0,
        })
    }

    /// The bytes that the sink holds.
    pub fn bytes(&self) -> &[u8]
        ensures held { result.now ≡ self.now.held }
    {
        self.bytes.as_slice()
    }

    /// The bytes that the sink has handed on.
    pub fn handed(&self) -> &[u8]
        ensures handed { result.now ≡ self.now.handed }
    {
        &self.bytes[..self.handed]
    }

    /// How many writes took nothing of a piece that wasn't empty.
    pub fn faults(&self) -> u64
        ensures counted { result ≡ self.now.faults }
    {
        self.faults
    }

    fn count_fault(&mut self)
        ensures counted { self.new ≡ after_fault self.old }
    {
        self.faults = self.faults.saturating_add(1);
    }
}

impl Sink for PlainSink {
    ghost use Rattle.std.specs.Prelude.{Some};
    ghost use Rattle.std.proofs.Common.{lit<};
    ghost use Rattle.nz_spec.specs.outside.Outside.{last_count};

    ghost held = { λ s. Some s.held };

    ghost handed = { λ s. Some s.handed };

    ghost faults = { λ s. s.faults };

    ghost last = { last_count };

    ghost last_positive = { lit< tt };

    fn write(&mut self, piece: &[u8]) -> Result<usize, Failed>
        ensures taken { result ≡ Ok (taken_count self.old piece.now) }
        ensures added { self.new ≡ after_write self.old piece.now }
    {
        let count = piece.len().min(self.room - self.bytes.len());
        self.bytes.extend_from_slice(&piece[..count]).unwrap();
        if count == 0 && !piece.is_empty() {
            self.count_fault();
        }
        Ok(count)
    }

    fn flush(&mut self) -> Result<(), Failed>
        ensures succeeds { result ≡ Ok tt }
        ensures after { self.new ≡ after_flush self.old }
    {
        self.handed = self.bytes.len();
        Ok(())
    }
}

// Which calls are to fail, and how many there were.
#[derive(Debug, Drop)]
struct Plan {
    fails: Vec<u64>,
    next: u64,
}

impl Model for Plan {
    ghost use Rattle.nz_spec.specs.outside.Outside.{PlannedFaults};

    ghost Value = { PlannedFaults };

    ghost view = { λ p. record { fails = p.fails.items; next = p.next } };
}

impl Plan {
    fn new(fails: Vec<u64>) -> Self
        ensures made { result ≡ record { fails = fails.items; next = 0 } }
    {
        Plan { fails, next: 0 }
    }

    // Counts a call, and answers whether it is to fail.
    fn call(&mut self) -> bool
        ensures answer { result ≡ fails_next self.old }
        ensures counted { self.new ≡ after_call self.old }
    {
        let fails = self.fails.contains(&self.next);
        self.next = self.next.saturating_add(1);
        fails
    }
}

/// A source over bytes in memory, whose reads fail where that is planned.
#[derive(Debug, Drop)]
pub struct MemSource {
    input: PlainSource,
    plan: Plan,
    faults: u64,
}

impl Model for MemSource {
    ghost use Rattle.nz_spec.specs.outside.Outside.{FaultyInput};

    ghost Value = { FaultyInput };

    ghost view = { λ s. record { input = s.input; plan = s.plan; faults = s.faults } };
}

impl MemSource {
    /// A source of these bytes, of which each read gives at most `piece`. The reads in `fails` fail: they are numbered
    /// from 0, those that fail too, up to 2^64 - 1, the number of each read from then on.
    pub fn new(bytes: Vec<u8>, piece: usize, fails: Vec<u64>) -> Self
        requires { 0 < piece }
        ensures input { result.input ≡ record { left = bytes.items; piece = piece; reads = record { has_ended = false; read_late = false } } }
        ensures plan { result.plan ≡ record { fails = fails.items; next = 0 } }
        ensures no_fault { result.faults ≡ 0 }
    {
        MemSource {
            input: PlainSource::new(bytes, piece),
            plan: Plan::new(fails),
            faults: 0,
        }
    }

    /// How many reads failed.
    pub fn faults(&self) -> u64
        ensures counted { result ≡ self.now.faults }
    {
        self.faults
    }
}

impl Source for MemSource {
    ghost use Rattle.std.specs.Prelude.{Some};
    ghost use Rattle.std.proofs.Common.{lit<};
    ghost use Rattle.nz_spec.specs.outside.Outside.{last_count};

    ghost left = { λ s. Some s.input.left };

    ghost faults = { λ s. s.faults };

    ghost last = { last_count };

    ghost has_ended = { λ s. s.input.reads.has_ended };

    ghost read_late = { λ s. s.input.reads.read_late };

    ghost last_positive = { lit< tt };

    fn read(&mut self, buf: &mut [u8]) -> Result<usize, Failed>
        ensures planned { IsErr result ↔ IsTrue (fails_next self.old.plan) }
        ensures given { IfOk result (λ n. n ≡ given_count self.old.input (length buf.old)) }
        ensures filled { OnOk result (buf.new ≡ read_buffer self.old.input buf.old) }
        ensures untouched { OnErr result (buf.new ≡ buf.old) }
        ensures rest { self.new ≡ after_faulty_read self.old (length buf.old) }
        ensures bytes { GivesFront (Some self.old.input.left) (Some self.new.input.left) result buf.new }
        ensures end { EndsAtZero (Some self.new.input.left) result buf.new }
        ensures counted { self.new.faults ≡ counted last_count (is_err result) self.old.faults }
        ensures ended { self.new.input.reads.has_ended ≡ (self.old.input.reads.has_ended || finds_end result buf.new) }
        ensures late { self.new.input.reads.read_late ≡ (self.old.input.reads.read_late || self.old.input.reads.has_ended) }
    {
        if self.plan.call() {
            self.faults = self.faults.saturating_add(1);
            self.input.fail();
            return Err(Failed);
        }
        self.input.read(buf)
    }
}

/// A sink in memory, which takes what fits in its room, and whose writes and flushes fail where that is planned.
#[derive(Debug, Drop)]
pub struct MemSink {
    output: PlainSink,
    plan: Plan,
}

impl Model for MemSink {
    ghost use Rattle.nz_spec.specs.outside.Outside.{FaultyOutput};

    ghost Value = { FaultyOutput };

    ghost view = { λ s. record { output = s.output; plan = s.plan } };
}

impl MemSink {
    /// An empty sink with room for so many bytes, which is had here: no write takes memory. The calls in `fails` fail:
    /// writes and flushes are numbered together from 0, those that fail too, up to 2^64 - 1, the number of each call
    /// from then on.
    pub fn new(alloc: Global, room: usize, fails: Vec<u64>) -> Result<Self, Memory>
        ensures output { IfOk result (λ s. s.output ≡ record { held = []; handed = []; room = room; faults = 0 }) }
        ensures plan { IfOk result (λ s. s.plan ≡ record { fails = fails.items; next = 0 }) }
    {
        Ok(MemSink {
            output: PlainSink::new(alloc, room)?,
            plan: Plan::new(fails),
        })
    }

    /// The bytes that the sink holds.
    pub fn bytes(&self) -> &[u8]
        ensures held { result.now ≡ self.now.output.held }
    {
        self.output.bytes()
    }

    /// The bytes that the sink has handed on.
    pub fn handed(&self) -> &[u8]
        ensures handed { result.now ≡ self.now.output.handed }
    {
        self.output.handed()
    }

    /// How many writes and flushes failed or took nothing of a piece that wasn't empty.
    pub fn faults(&self) -> u64
        ensures counted { result ≡ self.now.output.faults }
    {
        self.output.faults()
    }
}

impl Sink for MemSink {
    ghost use Rattle.std.specs.Prelude.{Some};
    ghost use Rattle.std.proofs.Common.{lit<};
    ghost use Rattle.nz_spec.specs.outside.Outside.{last_count};

    ghost held = { λ s. Some s.output.held };

    ghost handed = { λ s. Some s.output.handed };

    ghost faults = { λ s. s.output.faults };

    ghost last = { last_count };

    ghost last_positive = { lit< tt };

    fn write(&mut self, piece: &[u8]) -> Result<usize, Failed>
        ensures planned { IsErr result ↔ IsTrue (fails_next self.old.plan) }
        ensures taken { IfOk result (λ n. n ≡ taken_count self.old.output piece.now) }
        ensures added { self.new ≡ after_faulty_write self.old piece.now }
        ensures bytes { TakesFront (Some self.old.output.held) (Some self.new.output.held) result piece.now }
        ensures counted { self.new.output.faults ≡ counted last_count (is_err result || is_refusal result piece.now) self.old.output.faults }
    {
        if self.plan.call() {
            self.output.count_fault();
            return Err(Failed);
        }
        self.output.write(piece)
    }

    fn flush(&mut self) -> Result<(), Failed>
        ensures planned { IsErr result ↔ IsTrue (fails_next self.old.plan) }
        ensures after { self.new ≡ after_faulty_flush self.old }
        ensures bytes { Keeps (Some self.old.output.held) (Some self.new.output.held) }
        ensures counted { self.new.output.faults ≡ counted last_count (is_err result) self.old.output.faults }
        ensures handed { OnOk result (self.new.output.handed ≡ self.new.output.held) }
    {
        if self.plan.call() {
            self.output.count_fault();
            return Err(Failed);
        }
        self.output.flush()
    }
}
