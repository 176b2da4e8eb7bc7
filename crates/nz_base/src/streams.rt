//! Any reader and writer of std, the standard streams among them, as a source and a sink.
ghost use Rattle.std.specs.Prelude.{◌≡◌, ◌||◌, [], false, is_err, IfOk, OnOk};
ghost use Rattle.std.specs.Io.{ReadsAtMost, WritesAtMost};
ghost use Rattle.std.specs.Io.Buffered.{writer_buffer, writer_capacity, writer_contents, writer_inner};
ghost use Rattle.std.specs.Io.KnownBytes.{Keeps, ReadConsumes, WriteAppends};
ghost use Rattle.nz_spec.specs.outside.Outside.{finds_end, is_refusal, one_more};

use crate::errors::{Failed, Memory};
use crate::outside::{Sink, Source};
use crate::reads::Reads;
use std::alloc::Global;
use std::io::{BufWriter, Read, Write};
use std::marker::Model;

/// How many bytes an output gathers before it hands them on.
const BLOCK: usize = 8192;

/// A reader as a source, which as a source tells nothing of its bytes. Of its faults it keeps only whether there was
/// one, since the first ends a run.
#[derive(Drop)]
pub struct Input<R: Read + Drop> {
    reader: R,
    has_failed: bool,
    reads: Reads,
}

impl<R: Read + Drop> Model for Input<R> {
    ghost use Rattle.nz_spec.specs.outside.Outside.{InputStream};

    ghost Value = { InputStream R };

    ghost view = { λ s. record { inner = s.reader; has_failed = s.has_failed; reads = s.reads } };
}

impl<R: Read + Drop> Input<R> {
    /// A source that reads from this reader.
    pub fn new(reader: R) -> Self
        ensures made { result ≡ record { inner = reader; has_failed = false; reads = record { has_ended = false; read_late = false } } }
    {
        Input {
            reader,
            has_failed: false,
            reads: Reads::new(),
        }
    }
}

impl<R: Read + Drop> Source for Input<R> {
    ghost use Rattle.std.specs.Prelude.{None, if◌then◌else◌};
    ghost use Rattle.std.proofs.Common.{lit<};

    ghost left = { λ _. None };

    ghost faults = { λ s. if s.has_failed then 1 else 0 };

    ghost last = { 1 };

    ghost has_ended = { λ s. s.reads.has_ended };

    ghost read_late = { λ s. s.reads.read_late };

    ghost last_positive = { lit< tt };

    fn read(&mut self, buf: &mut [u8]) -> Result<usize, Failed>
        ensures bound { ReadsAtMost result buf.new }
        ensures passed { ReadConsumes (R.remaining self.old.inner) (R.remaining self.new.inner) result buf.new }
        ensures flag { self.new.has_failed ≡ (self.old.has_failed || is_err result) }
        ensures reads { self.new.reads ≡ one_more self.old.reads (finds_end result buf.new) }
    {
        match self.reader.read(buf) {
            Ok(count) => {
                self.reads.add(count == 0 && !buf.is_empty());
                Ok(count)
            }
            Err(_) => {
                self.reads.add(false);
                self.has_failed = true;
                Err(Failed)
            }
        }
    }
}

/// A writer as a sink, which as a sink tells nothing of its bytes. It gathers bytes in a block, which it hands on where
/// that is full and at each flush. It keeps only whether it has failed, since the first fault ends a run.
#[derive(Drop)]
pub struct Output<W: Write + Drop> {
    writer: BufWriter<W>,
    has_failed: bool,
}

impl<W: Write + Drop> Model for Output<W> {
    ghost use Rattle.nz_spec.specs.outside.Outside.{OutputStream};
    ghost use Rattle.std.specs.declared.alloc.Global.{Global};
    ghost use Rattle.std.specs.declared.io.buffered.BufWriter.{BufWriter};

    ghost Value = { OutputStream (BufWriter W Global) };

    ghost view = { λ s. record { inner = s.writer; has_failed = s.has_failed } };
}

impl<W: Write + Drop> Output<W> {
    /// A sink that writes to this writer. Its block is all the memory that it takes.
    ///
    /// # Errors
    ///
    /// `Memory` where there is none for the block. Then the writer is dropped.
    pub fn new(alloc: Global, writer: W) -> Result<Self, Memory>
        ensures writer { IfOk result (λ o. writer_inner o.inner ≡ writer) }
        ensures empty { IfOk result (λ o. writer_buffer o.inner ≡ []) }
        ensures block { IfOk result (λ o. writer_capacity o.inner ≡ BLOCK) }
        ensures sound { IfOk result (λ o. o.has_failed ≡ false) }
    {
        match BufWriter::with_capacity(alloc, BLOCK, writer) {
            Ok(writer) => Ok(Output {
                writer,
                has_failed: false,
            }),
            Err(_) => Err(Memory),
        }
    }
}

impl<W: Write + Drop> Sink for Output<W> {
    ghost use Rattle.std.specs.Prelude.{None, if◌then◌else◌};
    ghost use Rattle.std.proofs.Common.{lit<};

    ghost held = { λ _. None };

    ghost handed = { λ _. None };

    ghost faults = { λ s. if s.has_failed then 1 else 0 };

    ghost last = { 1 };

    ghost last_positive = { lit< tt };

    fn write(&mut self, piece: &[u8]) -> Result<usize, Failed>
        ensures bound { WritesAtMost result piece.now }
        ensures passed { WriteAppends (writer_contents W.contents self.old.inner) (writer_contents W.contents self.new.inner) result piece.now }
        ensures flag { self.new.has_failed ≡ (self.old.has_failed || is_err result || is_refusal result piece.now) }
    {
        match self.writer.write(piece) {
            Ok(count) => {
                if count == 0 && !piece.is_empty() {
                    self.has_failed = true;
                }
                Ok(count)
            }
            Err(_) => {
                self.has_failed = true;
                Err(Failed)
            }
        }
    }

    fn flush(&mut self) -> Result<(), Failed>
        ensures passed { Keeps (writer_contents W.contents self.old.inner) (writer_contents W.contents self.new.inner) }
        ensures none_left { OnOk result (writer_buffer self.new.inner ≡ []) }
        ensures flag { self.new.has_failed ≡ (self.old.has_failed || is_err result) }
    {
        match self.writer.flush() {
            Ok(()) => Ok(()),
            Err(_) => {
                self.has_failed = true;
                Err(Failed)
            }
        }
    }
}
