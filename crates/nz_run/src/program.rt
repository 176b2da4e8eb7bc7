//! The top call: all that the program does, from the words of its command line and its input to its output.
ghost use Rattle.std.specs.Prelude.{◌≡◌, ◌==◌, ◌<◌, ◌+◌, ◌^◌, ◌⊎◌, ◌||◌, ℕ, Bool, true, false, List, [], map, IfSome, IfNone, Option, string_bytes};
ghost use Rattle.std.specs.List.{list_any};
ghost use Rattle.nz_spec.specs.outside.Outside.{counted};
ghost use Rattle.nz_spec.specs.terms.Table.{Node};
ghost use Rattle.nz_script.specs.run.Run.{HasNotBegun, IsBrokenOff, IsInterrupted, IsRun, TookMany, is_error, is_memory_error, status_of};
ghost use Rattle.nz_reply.specs.Journals.{journal_of};
ghost use Rattle.nz_reply.specs.Replies.{all_kept, kept_of};
ghost use Rattle.nz_session.specs.Serve.{kept_by};
ghost use Rattle.nz_run.specs.Ending.{Ends, EndsAs, ends_by_read, ends_by_write, is_cut, reads_fail, status_by, writes_fail};
ghost use Rattle.nz_run.specs.Reading.{IsInTime, IsReading};
ghost use Rattle.nz_run.specs.Words.{AreTaken, AreUnits};

use crate::words::{Refused, units_of};
use nz_base::{Error, Memory, Sink, Source};
use nz_engine::Engine;
use nz_reply::{Journal, Kept, Reply};
use nz_search::Decide;
use nz_session::{Fed, Session};
use nz_term::Terms;
use std::alloc::Global;

/// The status of a run without an error.
pub const DONE: u8 = 0;

/// The status of a run in which some command was answered with an error.
pub const ERROR: u8 = 1;

/// The status where the words are none that the program takes.
pub const USAGE: u8 = 2;

/// The status where the input failed.
pub const READ_FAULT: u8 = 3;

/// The status where the output failed.
pub const WRITE_FAULT: u8 = 4;

/// The status where there was no memory for something.
pub const MEMORY: u8 = 5;

/// The status where the last of the reads was made and the input didn't end.
pub const READS: u8 = 6;

/// The most reads of a run.
const MOST_READS: u64 = 1 << 32;

/// How many bytes a read may bring.
const BUFFER: usize = 4096;

/// What a run leaves.
#[derive(Drop)]
pub struct Ended {
    /// The exit status.
    pub status: u8,
    /// Each thing heard, with its reply and the reply's cause.
    pub journal: Journal,
    /// The terms that the journal names by their numbers.
    pub terms: Terms,
    /// There was no memory to keep a reply; the run ended there, after a line that says so.
    pub cut: bool,
}

/// How a run came to its end.
#[derive(Clone, Copy, Debug, PartialEq, Eq)]
enum End {
    /// The input's end was read, or an `exit` was accepted.
    Finished,
    Cut,
    ReadFault,
    WriteFault,
    Reads,
}

/// Reads once, and answers what is complete then; how the run ends, where it does.
fn read_once<E: Decide, S: Source, K: Sink>(
    session: &mut Session<E>,
    input: &mut S,
    out: &mut K,
    buffer: &mut [u8; BUFFER],
) -> Option<End>
    requires { (limit : ℕ) × (first : Option (List ℕ)) × (held : Option (List ℕ)) × (count : ℕ) × IsReading E.levels E.table E.begins limit session.old first (S.left input.old) held (K.held out.old) count × (count < 2 ^ 32) }
    ensures going { IfNone result ((limit : ℕ) (first : Option (List ℕ)) (held : Option (List ℕ)) (count : ℕ) → count < 2 ^ 32 → IsReading E.levels E.table E.begins limit session.old first (S.left input.old) held (K.held out.old) count → IsReading E.levels E.table E.begins limit session.new first (S.left input.new) held (K.held out.new) (count + 1)) }
    ensures ended { IfSome result (λ end. (limit : ℕ) (first : Option (List ℕ)) (held : Option (List ℕ)) (count : ℕ) → count < 2 ^ 32 → IsReading E.levels E.table E.begins limit session.old first (S.left input.old) held (K.held out.old) count → EndsAs end limit first (S.left input.new) held (K.held out.new) (kept_by session.new)) }
    ensures in_time { IfSome result (λ end. end ≡ End.Reads → ⊥) }
    ensures late { S.read_late input.new ≡ (S.read_late input.old || S.has_ended input.old) }
    ensures still { IfNone result ((first : Bool) → IsInTime (S.has_ended input.old) (S.read_late input.old) first → IsInTime (S.has_ended input.new) (S.read_late input.new) first) }
    ensures input_faults { S.faults input.new ≡ counted S.last (reads_fail result) (S.faults input.old) }
    ensures output_faults { K.faults out.new ≡ counted K.last (writes_fail result) (K.faults out.old) }
    ensures handed { writes_fail result ≡ false → K.handed out.old ≡ K.held out.old → K.handed out.new ≡ K.held out.new }
{
    let count = match input.read(buffer) {
        Ok(count) => count,
        Err(_) => return Some(End::ReadFault),
    };
    if count == 0 {
        return match session.finish(out) {
            Fed::Going => Some(End::Finished),
            Fed::Exited => Some(End::Finished),
            Fed::SinkFault => Some(End::WriteFault),
            Fed::Cut => Some(End::Cut),
        };
    }
    match session.feed(&buffer[..count], out) {
        Fed::Going => None,
        Fed::Exited => Some(End::Finished),
        Fed::SinkFault => Some(End::WriteFault),
        Fed::Cut => Some(End::Cut),
    }
}

/// Reads, and answers, to the end.
fn serve<E: Decide, S: Source, K: Sink>(session: &mut Session<E>, input: &mut S, out: &mut K) -> End
    requires start { (limit : ℕ) × IsReading E.levels E.table E.begins limit session.old (S.left input.old) (S.left input.old) (K.held out.old) (K.held out.old) 0 }
    ensures ended { (limit : ℕ) → IsReading E.levels E.table E.begins limit session.old (S.left input.old) (S.left input.old) (K.held out.old) (K.held out.old) 0 → EndsAs result limit (S.left input.old) (S.left input.new) (K.held out.old) (K.held out.new) (kept_by session.new) }
    ensures reads { result ≡ End.Reads → TookMany (S.left input.old) (S.left input.new) (2 ^ 32) }
    ensures not_late { S.has_ended input.old ≡ false → S.read_late input.new ≡ S.read_late input.old }
    ensures unended { result ≡ End.Reads → S.has_ended input.old ≡ false → S.has_ended input.new ≡ false }
    ensures input_faults { S.faults input.new ≡ counted S.last (ends_by_read result) (S.faults input.old) }
    ensures output_faults { K.faults out.new ≡ counted K.last (ends_by_write result) (K.faults out.old) }
    ensures handed { ends_by_write result ≡ false → K.handed out.old ≡ K.held out.old → K.handed out.new ≡ K.held out.new }
{
    let mut buffer = [0; BUFFER];
    for read in 0..MOST_READS {
        if let Some(end) = read_once(session, input, out, &mut buffer) {
            return end;
        }
    }
    End::Reads
}

/// Some reply is the error for want of memory.
fn wants_memory(kept: &[Kept]) -> bool
    ensures any { (ns : List Node) → result ≡ list_any is_memory_error (all_kept ns kept.now) }
{
    for kept in kept {
        if is_out_of_memory(kept) {
            return true;
        }
    }
    false
}

fn is_out_of_memory(kept: &Kept) -> bool
    ensures memory { (ns : List Node) → result ≡ is_memory_error (kept_of ns kept.now) }
{
    matches!(&kept.reply, Reply::Error(Error::OutOfMemory))
}

/// Some reply is an error.
fn has_error(kept: &[Kept]) -> bool
    ensures any { (ns : List Node) → result ≡ list_any is_error (all_kept ns kept.now) }
{
    for kept in kept {
        if is_an_error(kept) {
            return true;
        }
    }
    false
}

fn is_an_error(kept: &Kept) -> bool
    ensures error { (ns : List Node) → result ≡ is_error (kept_of ns kept.now) }
{
    matches!(&kept.reply, Reply::Error(_))
}

/// Want of memory cut the run short.
fn is_cut(end: End) -> bool
    ensures cut { result ≡ is_cut end }
{
    matches!(end, End::Cut)
}

/// The status of a run that ended so.
fn status_at(end: End, journal: &Journal) -> u8
    ensures status { (ns : List Node) → result ≡ status_by end (journal_of ns journal.now) }
{
    match end {
        End::Finished => status_of_replies(journal),
        End::Cut => MEMORY,
        End::ReadFault => READ_FAULT,
        End::WriteFault => WRITE_FAULT,
        End::Reads => READS,
    }
}

/// The status of a run that came to its end.
fn status_of_replies(journal: &Journal) -> u8
    ensures status { (ns : List Node) → result ≡ status_of false (journal_of ns journal.now) }
{
    if wants_memory(journal.as_slice()) {
        MEMORY
    } else if has_error(journal.as_slice()) {
        ERROR
    } else {
        DONE
    }
}

/// A run in which nothing was heard.
fn ended_at_once(alloc: Global, status: u8) -> Ended
    ensures status { result.status ≡ status }
    ensures nothing { journal_of result.terms result.journal ≡ [] }
    ensures whole { result.cut ≡ false }
{
    Ended {
        status,
        journal: Journal::from_vec(Vec::new(alloc)),
        terms: Terms::new(alloc).unwrap(),
        cut: false,
    }
}

/// Runs the program: `words` are those of the command line, the program's name first. What is read and written, and the
/// status, are as the clauses say.
///
/// A run that finds no memory to begin with ends at once, with status 5 and nothing read or written.
pub fn run<S: Source, K: Sink>(alloc: Global, words: &[String], input: &mut S, out: &mut K) -> Ended
    // The headline: where the run came to its end without a fault, each reply is right, in order.
    ensures answered { result.status ≡ status_of result.cut (journal_of result.terms result.journal) →
        (limit : ℕ) × AreUnits (map string_bytes words.now) limit × IsRun limit result.cut (S.left input.old) (S.left input.new) (K.held out.old) (K.held out.new) (journal_of result.terms result.journal) }

    // Where the input failed or had no end, or the output failed, what came before is right too.
    ensures interrupted { (result.status ≡ READ_FAULT) ⊎ (result.status ≡ READS) →
        (limit : ℕ) × AreUnits (map string_bytes words.now) limit × IsInterrupted limit (S.left input.old) (S.left input.new) (K.held out.old) (K.held out.new) (journal_of result.terms result.journal) }
    ensures broken_off { result.status ≡ WRITE_FAULT →
        (limit : ℕ) × AreUnits (map string_bytes words.now) limit × IsBrokenOff limit (S.left input.old) (S.left input.new) (K.held out.old) (K.held out.new) (journal_of result.terms result.journal) }

    // Each status has its cause.
    ensures status { Ends result.status ⊎ (result.status ≡ status_of result.cut (journal_of result.terms result.journal)) }
    ensures memory { result.status ≡ MEMORY → HasNotBegun (S.left input.old) (S.left input.new) (K.held out.old) (K.held out.new) result.cut (journal_of result.terms result.journal) ⊎ (result.status ≡ status_of result.cut (journal_of result.terms result.journal)) }
    ensures cut { result.cut ≡ true → result.status ≡ MEMORY }
    ensures usage { result.status ≡ USAGE → AreTaken (map string_bytes words.now) → ⊥ }
    ensures taken { (result.status ≡ MEMORY → ⊥) → (result.status ≡ USAGE → ⊥) → AreTaken (map string_bytes words.now) }
    ensures reads { result.status ≡ READS → TookMany (S.left input.old) (S.left input.new) (2 ^ 32) }

    // The input is never read after its end, which status 6 says that no read found.
    ensures not_late { S.has_ended input.old ≡ false → S.read_late input.new ≡ S.read_late input.old }
    ensures unended { result.status ≡ READS → S.has_ended input.old ≡ false → S.has_ended input.new ≡ false }

    // Words that aren't taken run nothing, whatever the status.
    ensures refused_words { (AreTaken (map string_bytes words.now) → ⊥) → HasNotBegun (S.left input.old) (S.left input.new) (K.held out.old) (K.held out.new) result.cut (journal_of result.terms result.journal) }

    // A fault is counted once, and just where the status tells it; where the output didn't fail, all was handed on.
    ensures input_faults { S.faults input.new ≡ counted S.last (result.status == READ_FAULT) (S.faults input.old) }
    ensures output_faults { K.faults out.new ≡ counted K.last (result.status == WRITE_FAULT) (K.faults out.old) }
    ensures handed { (result.status == WRITE_FAULT) ≡ false → K.handed out.old ≡ K.held out.old → K.handed out.new ≡ K.held out.new }
{
    let units = match units_of(alloc, words) {
        Ok(units) => units,
        Err(Refused::Usage) => return ended_at_once(alloc, USAGE),
        Err(Refused::Memory) => return ended_at_once(alloc, MEMORY),
    };
    let engine = match Engine::new(alloc) {
        Ok(engine) => engine,
        Err(Memory) => return ended_at_once(alloc, MEMORY),
    };
    let mut session = match Session::new(alloc, engine, units) {
        Ok(session) => session,
        Err(Memory) => return ended_at_once(alloc, MEMORY),
    };
    let end = serve(&mut session, input, out);
    let (journal, terms) = session.into_kept();
    let cut = is_cut(end);
    let status = status_at(end, &journal);
    Ended {
        status,
        journal,
        terms,
        cut,
    }
}
