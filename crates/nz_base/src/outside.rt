//! The outside, as the solver sees it: bytes come from a source and go to a sink, and either may fail.
ghost use Rattle.std.specs.Prelude.{◌≡◌, ℕ, ◌<◌, ◌||◌, Bool, List, Option, is_err, OnOk, OnErr};
ghost use Rattle.std.specs.Io.{ReadsAtMost, WritesAtMost};
ghost use Rattle.std.specs.Io.KnownBytes.{Keeps, Appends};
ghost use Rattle.nz_spec.specs.outside.Outside.{counted, TellsAlike, GivesFront, finds_end, EndsAtZero, TakesFront, is_refusal, AddsFrontOf};

use crate::errors::Failed;

/// Where bytes are read from.
pub trait Source {
    /// The bytes that are left to read, where the source tells them.
    ghost left: { Self → Option (List ℕ) };

    /// How many of its reads failed: 0 where it is made.
    ghost faults: { Self → ℕ };

    /// The last value of that count, at which it stays.
    ghost last: { ℕ };

    /// Whether one of its reads found the end: false where it is made.
    ghost has_ended: { Self → Bool };

    /// Whether it was read after a read had found the end: false where it is made.
    ghost read_late: { Self → Bool };

    /// Reads into the front of `buf`, and answers how many bytes: 0 with room in `buf` is the end of input.
    ///
    /// What stands behind those bytes is left open.
    ///
    /// # Errors
    ///
    /// `Failed` where the source failed, which it counts once. Then no byte is lost.
    fn read(&mut self, buf: &mut [u8]) -> Result<usize, Failed>
        ensures bound { ReadsAtMost result buf.new }
        ensures bytes { GivesFront (left self.old) (left self.new) result buf.new }
        ensures end { EndsAtZero (left self.new) result buf.new }
        ensures told { TellsAlike (left self.old) (left self.new) }
        ensures counted { faults self.new ≡ counted last (is_err result) (faults self.old) }
        ensures ended { has_ended self.new ≡ (has_ended self.old || finds_end result buf.new) }
        ensures late { read_late self.new ≡ (read_late self.old || has_ended self.old) };

    /// The count can rise at least once.
    ghost last_positive: { 0 < last };
}

/// Where bytes are written.
pub trait Sink {
    /// The bytes that the sink holds, where it tells them.
    ghost held: { Self → Option (List ℕ) };

    /// The bytes that the sink has handed on, where it tells them.
    ghost handed: { Self → Option (List ℕ) };

    /// How many of its writes and flushes failed: 0 where it is made.
    ghost faults: { Self → ℕ };

    /// The last value of that count, at which it stays.
    ghost last: { ℕ };

    /// Writes a front of `piece`, and answers how many bytes it took. To take none of a piece that isn't empty is a
    /// fault.
    ///
    /// # Errors
    ///
    /// `Failed` where the sink failed, which it counts once. Then it took no byte.
    fn write(&mut self, piece: &[u8]) -> Result<usize, Failed>
        ensures bound { WritesAtMost result piece.now }
        ensures bytes { TakesFront (held self.old) (held self.new) result piece.now }
        ensures told { TellsAlike (held self.old) (held self.new) }
        ensures counted { faults self.new ≡ counted last (is_err result || is_refusal result piece.now) (faults self.old) };

    /// Hands on all that the sink holds.
    ///
    /// # Errors
    ///
    /// `Failed` where the sink failed, which it counts once.
    fn flush(&mut self) -> Result<(), Failed>
        ensures bytes { Keeps (held self.old) (held self.new) }
        ensures told { TellsAlike (held self.old) (held self.new) }
        ensures counted { faults self.new ≡ counted last (is_err result) (faults self.old) }
        ensures handed { OnOk result (handed self.new ≡ held self.new) };

    /// The count can rise at least once.
    ghost last_positive: { 0 < last };
}

/// Writes these bytes to the sink, piece by piece, until it has taken all.
///
/// # Errors
///
/// `Failed` where the sink failed or took nothing, which it counts once. Then it may have taken a front of the bytes.
pub fn write_all<K: Sink>(sink: &mut K, bytes: &[u8]) -> Result<(), Failed>
    ensures ok { OnOk result (Appends (K.held sink.old) (K.held sink.new) bytes.now) }
    ensures err { OnErr result (AddsFrontOf (K.held sink.old) (K.held sink.new) bytes.now) }
    ensures told { TellsAlike (K.held sink.old) (K.held sink.new) }
    ensures counted { K.faults sink.new ≡ counted K.last (is_err result) (K.faults sink.old) }
{
    let mut at = 0;
    'pieces: while at < bytes.len() {
        let count = sink.write(&bytes[at..])?;
        if count == 0 {
            return Err(Failed);
        }
        at += count;
    }
    Ok(())
}
