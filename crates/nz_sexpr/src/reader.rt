//! The reader: bytes are fed to it in pieces of any size.
ghost use Rattle.std.specs.Prelude.{◌≡◌, ◌≤◌, ◌<◌, ◌+◌, ◌^◌, ◌++◌, ℕ, List, [], length, take, false, true, None, IsSome, IsNone};
ghost use Rattle.nz_script.specs.text.Text.{Limits as Bounds, Heard as Thing};
ghost use Rattle.nz_script.specs.text.Told.{IsTold, IsToldFirst};

use crate::heard::{Heard, Limits};
use crate::scan::Scan;
use nz_script::text::{reading_is_heard, reading_tells_first};
use std::alloc::Global;

/// Reads a script in pieces of any size.
#[derive(Debug, Drop)]
pub struct Reader {
    scan: Scan,
    /// What is told at the next call: a byte that ends a token outside any command may be a thing by itself.
    owed: Option<Heard>,
}

impl Reader {
    ghost use Rattle.nz_sexpr.specs.Matches.{GoesOnBy, EndsWithin, told, limits_view};
    ghost use Rattle.nz_sexpr.specs.Fits.{Fits, owes, bytes_read};

    /// A reader at the beginning of a script.
    pub fn new(alloc: Global, limits: Limits) -> Self
        ensures start { Fits (limits_view limits) result [] [] }
        ensures settled { owes result ≡ false }
    {
        Reader {
            scan: Scan::new(alloc, limits),
            owed: None,
        }
    }

    /// Reads on: how many bytes of the piece were used, and the first thing that is heard.
    ///
    /// `None` comes only where all bytes were used and nothing is left to tell. So call it until then, each time with
    /// the bytes that are left, also where none are.
    pub fn feed(&mut self, piece: &[u8]) -> (usize, Option<Heard>)
        ensures used { result.0 ≤ length piece.now }
        // What was read and told so far goes on with the bytes used and the thing told.
        ensures heard { (limits : Bounds) (bytes : List ℕ) (things : List Thing) →
            Fits limits self.old bytes things → length bytes + length piece.now < 2 ^ 64 →
            Fits limits self.new (bytes ++ take result.0 piece.now) (things ++ told result.1) }
        ensures all_used { IsNone result.1 → result.0 ≡ length piece.now }
        ensures settled { IsNone result.1 → owes self.new ≡ false }
        // Then what was told is all that is complete in the bytes read, whatever comes after them.
        ensures complete { (limits : Bounds) (bytes : List ℕ) (things : List Thing) →
            Fits limits self.new bytes things → IsNone result.1 → IsToldFirst limits bytes things }
        // Each answer brings the caller on, by a byte or by a thing that was owed.
        ensures progress { IsSome result.1 → result.0 ≡ 0 → (owes self.old ≡ true) × (owes self.new ≡ false) }
        // Places stand at the last number of their type from there on.
        ensures counted { GoesOnBy (bytes_read self.old) result.0 (bytes_read self.new) }
        ensures places { owes self.old ≡ false → EndsWithin (bytes_read self.old) (bytes_read self.new) result.1 }
    {
        if let Some(heard) = self.owed.take() {
            return (0, Some(heard));
        }
        let mut used = 0;
        while used < piece.len() {
            let (count, heard) = self.step(&piece[used..]);
            used += count;
            if heard.is_some() {
                return (used, heard);
            }
        }
        reading_tells_first();
        (used, None)
    }

    /// Reads on by a run of bytes, or by one byte: how many, and the first thing that is heard.
    fn step(&mut self, rest: &[u8]) -> (usize, Option<Heard>)
        requires rest { 0 < length rest.now }
        requires settled { self.old.owed ≡ None }
        ensures progress { 0 < result.0 }
        ensures used { result.0 ≤ length rest.now }
        ensures heard { (limits : Bounds) (bytes : List ℕ) (things : List Thing) →
            Fits limits self.old bytes things → length bytes + length rest.now < 2 ^ 64 →
            Fits limits self.new (bytes ++ take result.0 rest.now) (things ++ told result.1) }
        ensures none { IsNone result.1 → self.new.owed ≡ None }
        ensures counted { GoesOnBy (bytes_read self.old) result.0 (bytes_read self.new) }
        ensures places { EndsWithin (bytes_read self.old) (bytes_read self.new) result.1 }
    {
        let run = self.scan.run(rest);
        if run > 0 {
            self.scan.read_run(&rest[..run]);
            return (run, None);
        }
        if self.scan.is_quiet(rest[0]) {
            self.scan.read_quietly(rest[0]);
            return (1, None);
        }
        let (heard, owed) = self.scan.read_byte(rest[0]);
        self.owed = owed;
        (1, heard)
    }

    /// The input ends: what that makes of what is open, a token outside any command, a string, a quoted symbol or a list.
    /// The reader then stands at the beginning of a script.
    pub fn finish(&mut self) -> Option<Heard>
        // Where nothing was owed, all things told are those of the whole text.
        ensures heard { (limits : Bounds) (bytes : List ℕ) (things : List Thing) →
            Fits limits self.old bytes things → owes self.old ≡ false → length bytes < 2 ^ 64 →
            IsTold limits bytes (things ++ told result) }
        ensures restarted { (limits : Bounds) (bytes : List ℕ) (things : List Thing) →
            Fits limits self.old bytes things → Fits limits self.new [] [] }
        ensures settled { owes self.new ≡ false }
    {
        reading_is_heard();
        self.owed = None;
        self.scan.finish()
    }
}
