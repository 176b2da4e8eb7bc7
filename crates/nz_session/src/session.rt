//! The session: pieces of a script in, replies out, and all of it kept.
ghost use Rattle.std.specs.Prelude.{◌≡◌, ◌≤◌, ◌+◌, ℕ, List, [], ◌++◌, length, take, drop, true, false, Some, None, IsSome, IfOk, IfSome, OnOk, OnErr, is_err, ◌⊎◌, vec_len, vec_capacity};
ghost use Rattle.std.specs.Io.KnownBytes.{Appends};
ghost use Rattle.nz_sexpr.specs.Packed.{packed_heard_view};
ghost use Rattle.nz_sexpr.specs.View.{heard_view, what_view};
ghost use Rattle.nz_spec.specs.outside.Outside.{AddsFrontOf, counted};
ghost use Rattle.nz_spec.specs.outside.Error.{out_of_memory};
ghost use Rattle.nz_script.specs.replies.Reply.{error, reply_text};
ghost use Rattle.nz_script.specs.live.Live.{start};
ghost use Rattle.nz_spec.specs.terms.Term.{Term};
ghost use Rattle.nz_script.specs.replies.Right.{beginning};
ghost use Rattle.nz_script.specs.run.Transcript.{AreRight, EndsByExit, GoesOn};
ghost use Rattle.nz_reply.specs.Replies.{reply_of};
ghost use Rattle.nz_session.specs.Serve.{Answers, AnswersInPart, IsGoing, is_sink_fault, kept_at};

use crate::desk::{Answer, Desk};
use nz_base::{Error, Memory, Sink};
use nz_reply::{Journal, Kept, Reply, WriteFault, kept_stay, write_reply};
use nz_script::text::{one_reading, reading_tells_first};
use nz_script::transcript::transcript_grows;
use nz_search::Decide;
use nz_sexpr::{Heard, Limits, PackedHeard, Reader, What};
use nz_term::Terms;
use std::alloc::Global;

/// How deep the lists of a script may nest.
const DEPTH_LIMIT: usize = 200;

/// How many bytes a command may have.
const BYTE_LIMIT: u64 = 1 << 20;

/// How a session stands after it was fed.
#[derive(Clone, Copy, Debug, PartialEq, Eq)]
pub enum Fed {
    /// It goes on.
    Going,
    /// An `exit` was accepted.
    Exited,
    /// The sink failed.
    SinkFault,
    /// There was no memory to keep a reply, and a last line says so.
    Cut,
}

/// A session over an engine.
#[derive(Drop)]
pub struct Session<E: Decide> {
    reader: Reader,
    desk: Desk<E>,
    kept: Vec<Kept>,
}

/// Writes the text of a reply to a thing heard, and flushes.
fn show<K: Sink>(sink: &mut K, what: &What, reply: &Reply) -> Result<(), WriteFault>
    ensures whole { OnOk result (Appends (K.held sink.old) (K.held sink.new) (reply_text (reply_of (what_view what.now) reply.now))) }
    ensures front { OnErr result (AddsFrontOf (K.held sink.old) (K.held sink.new) (reply_text (reply_of (what_view what.now) reply.now))) }
    ensures faults { K.faults sink.new ≡ counted K.last (is_err result) (K.faults sink.old) }
    ensures handed { OnOk result (K.handed sink.new ≡ K.held sink.new) }
{
    if let Err(fault) = write_reply(sink, what, reply) {
        return Err(fault);
    }
    match sink.flush() {
        Ok(()) => Ok(()),
        Err(failed) => Err(WriteFault::from(failed)),
    }
}

/// Says that there is no memory to keep a reply.
fn cut<K: Sink>(sink: &mut K) -> Fed
    ensures result { (result ≡ Fed.Cut) ⊎ (result ≡ Fed.SinkFault) }
    ensures written { result ≡ Fed.Cut → Appends (K.held sink.old) (K.held sink.new) (reply_text (error out_of_memory)) }
    ensures front { result ≡ Fed.SinkFault → AddsFrontOf (K.held sink.old) (K.held sink.new) (reply_text (error out_of_memory)) }
    ensures faults { K.faults sink.new ≡ counted K.last (is_sink_fault result) (K.faults sink.old) }
    ensures handed { result ≡ Fed.Cut → K.handed sink.new ≡ K.held sink.new }
{
    match show(sink, &What::Unread, &Reply::Error(Error::OutOfMemory)) {
        Ok(()) => Fed::Cut,
        Err(WriteFault) => Fed::SinkFault,
    }
}

/// Makes room for one thing more, and packs what was heard for it; `None` where there is no memory.
fn room_for(kept: &mut Vec<Kept>, heard: &Heard) -> Option<PackedHeard>
    ensures packed { IfSome result (λ p. packed_heard_view p ≡ heard_view heard.now) }
    ensures room { IfSome result (λ _. vec_len kept.new + 1 ≤ vec_capacity kept.new) }
    ensures same { kept.new.items ≡ kept.old.items }
{
    if kept.reserve(1).is_err() {
        return None;
    }
    match PackedHeard::new(*kept.allocator(), heard) {
        Ok(packed) => Some(packed),
        Err(Memory) => None,
    }
}

/// Answers one thing heard: the reply is written and kept.
fn serve<E: Decide, K: Sink>(
    desk: &mut Desk<E>,
    kept: &mut Vec<Kept>,
    heard: Heard,
    sink: &mut K,
) -> Fed
    requires { (limit : ℕ) × IsGoing E.levels E.table E.begins limit desk.old kept.old.items }
    ensures going { result ≡ Fed.Going → (limit : ℕ) → IsGoing E.levels E.table E.begins limit desk.old kept.old.items → IsGoing E.levels E.table E.begins limit desk.new kept.new.items }
    ensures exited { result ≡ Fed.Exited → (limit : ℕ) → IsGoing E.levels E.table E.begins limit desk.old kept.old.items → AreRight (beginning limit) (kept_at desk.new kept.new.items) × EndsByExit start (kept_at desk.new kept.new.items) }
    ensures answered { (result ≡ Fed.Going) ⊎ (result ≡ Fed.Exited) → Answers (heard_view heard) (kept_at desk.old kept.old.items) (kept_at desk.new kept.new.items) (K.held sink.old) (K.held sink.new) }
    ensures cut { result ≡ Fed.Cut → kept.new.items ≡ kept.old.items }
    ensures cut_desk { result ≡ Fed.Cut → desk.new ≡ desk.old }
    ensures cut_written { result ≡ Fed.Cut → Appends (K.held sink.old) (K.held sink.new) (reply_text (error out_of_memory)) }
    ensures broken_off { result ≡ Fed.SinkFault → (limit : ℕ) → IsGoing E.levels E.table E.begins limit desk.old kept.old.items → AreRight (beginning limit) (kept_at desk.new kept.new.items) }
    ensures broken_off_written { result ≡ Fed.SinkFault → AnswersInPart (heard_view heard) (kept_at desk.old kept.old.items) (kept_at desk.new kept.new.items) (K.held sink.old) (K.held sink.new) }
    ensures faults { K.faults sink.new ≡ counted K.last (is_sink_fault result) (K.faults sink.old) }
    ensures handed { (result ≡ Fed.SinkFault → ⊥) → K.handed sink.new ≡ K.held sink.new }
{
    // What is kept of it has its room before it is carried out.
    let packed = match room_for(kept, &heard) {
        Some(packed) => packed,
        None => return cut(sink),
    };
    let Answer {
        reply,
        cause,
        exits,
    } = desk.answer(&heard.what);
    let shown = show(sink, &heard.what, &reply);
    kept.push(Kept {
        heard: packed,
        reply,
        cause,
    })
    .unwrap();
    transcript_grows();
    kept_stay();
    match shown {
        Err(WriteFault) => Fed::SinkFault,
        Ok(()) if exits => Fed::Exited,
        Ok(()) => Fed::Going,
    }
}

impl<E: Decide> Session<E> {
    ghost use Rattle.nz_reply.specs.Journals.{journal_of};
    ghost use Rattle.nz_session.specs.Serve.{AnswersOne, BreaksOff, HasEnded, HasExited, IsCut, IsServing, Serves, Writes, WritesCut, fails_at, kept_by, owes_thing, table_by};

    /// A session at the beginning of a script, over an engine that was told nothing yet, with this limit of units for each check. Any search may
    /// begin with what the engine keeps.
    pub fn new(alloc: Global, engine: E, limit: u64) -> Result<Session<E>, Memory>
        requires levels { E.levels engine ≡ [] }
        requires table { E.table engine ≡ [] }
        requires begins { (ts : List Term) → E.begins engine ts }
        ensures serves { IfOk result (λ session. Serves E.levels E.table E.begins limit session []) }
        ensures nothing { IfOk result (λ session. kept_by session ≡ []) }
    {
        reading_tells_first();
        let limits = Limits {
            depth: DEPTH_LIMIT,
            bytes: BYTE_LIMIT,
        };
        Ok(Session {
            reader: Reader::new(alloc, limits),
            desk: Desk::new(alloc, engine, limit)?,
            kept: Vec::new(alloc),
        })
    }

    /// Feeds a piece of the script: every command that is complete by then is answered, and its reply written and flushed.
    pub fn feed<K: Sink>(&mut self, piece: &[u8], sink: &mut K) -> Fed
        requires { (limit : ℕ) × (bytes : List ℕ) × Serves E.levels E.table E.begins limit self.old bytes }
        ensures going { result ≡ Fed.Going → (limit : ℕ) (bytes : List ℕ) → Serves E.levels E.table E.begins limit self.old bytes → Serves E.levels E.table E.begins limit self.new (bytes ++ piece.now) }
        ensures exited { result ≡ Fed.Exited → (limit : ℕ) (bytes : List ℕ) → Serves E.levels E.table E.begins limit self.old bytes → HasExited limit (bytes ++ piece.now) (kept_by self.new) }
        ensures written { (result ≡ Fed.Going) ⊎ (result ≡ Fed.Exited) → (limit : ℕ) (bytes : List ℕ) → Serves E.levels E.table E.begins limit self.old bytes → Writes (kept_by self.old) (kept_by self.new) (K.held sink.old) (K.held sink.new) }
        ensures cut { result ≡ Fed.Cut → (limit : ℕ) (bytes : List ℕ) → Serves E.levels E.table E.begins limit self.old bytes → IsCut limit false (bytes ++ piece.now) (kept_by self.new) }
        ensures cut_written { result ≡ Fed.Cut → (limit : ℕ) (bytes : List ℕ) → Serves E.levels E.table E.begins limit self.old bytes → WritesCut (kept_by self.old) (kept_by self.new) (K.held sink.old) (K.held sink.new) }
        ensures broken_off { result ≡ Fed.SinkFault → (limit : ℕ) (bytes : List ℕ) → Serves E.levels E.table E.begins limit self.old bytes → BreaksOff limit false (bytes ++ piece.now) (kept_by self.old) (kept_by self.new) (K.held sink.old) (K.held sink.new) }
        ensures faults { K.faults sink.new ≡ counted K.last (is_sink_fault result) (K.faults sink.old) }
        ensures handed { (result ≡ Fed.SinkFault → ⊥) → K.handed sink.old ≡ K.held sink.old → K.handed sink.new ≡ K.held sink.new }
    {
        let mut rest = piece;
        'heard: loop {
            let (used, fed) = self.feed_one(rest, sink);
            rest = &rest[used..];
            let fed = match fed {
                None => return Fed::Going,
                Some(fed) => fed,
            };
            match fed {
                Fed::Going => {}
                Fed::Exited => return Fed::Exited,
                Fed::SinkFault => return Fed::SinkFault,
                Fed::Cut => return Fed::Cut,
            }
        }
    }

    /// Reads a piece up to the first thing that is complete, which is answered, and its reply written and flushed: how many bytes were used, and
    /// how the session stands then.
    ///
    /// `None` comes only where all bytes were used and nothing is left to answer. So call it until then, each time with the bytes that are left,
    /// also where none are.
    pub fn feed_one<K: Sink>(&mut self, piece: &[u8], sink: &mut K) -> (usize, Option<Fed>)
        requires { (limit : ℕ) × (bytes : List ℕ) × IsServing E.levels E.table E.begins limit self.old bytes piece.now }
        ensures used { result.0 ≤ length piece.now }
        ensures all_used { result.1 ≡ None → (limit : ℕ) (bytes : List ℕ) → IsServing E.levels E.table E.begins limit self.old bytes piece.now → Serves E.levels E.table E.begins limit self.new (bytes ++ piece.now) }
        ensures nothing_kept { result.1 ≡ None → kept_by self.new ≡ kept_by self.old }
        ensures nothing_written { result.1 ≡ None → sink.new ≡ sink.old }
        ensures going { result.1 ≡ Some Fed.Going → (limit : ℕ) (bytes : List ℕ) → IsServing E.levels E.table E.begins limit self.old bytes piece.now → IsServing E.levels E.table E.begins limit self.new (bytes ++ take result.0 piece.now) (drop result.0 piece.now) }
        ensures exited { result.1 ≡ Some Fed.Exited → (limit : ℕ) (bytes : List ℕ) → IsServing E.levels E.table E.begins limit self.old bytes piece.now → HasExited limit (bytes ++ piece.now) (kept_by self.new) }
        ensures answered { (result.1 ≡ Some Fed.Going) ⊎ (result.1 ≡ Some Fed.Exited) → AnswersOne (kept_by self.old) (kept_by self.new) (K.held sink.old) (K.held sink.new) }
        ensures cut { result.1 ≡ Some Fed.Cut → (limit : ℕ) (bytes : List ℕ) → IsServing E.levels E.table E.begins limit self.old bytes piece.now → IsCut limit false (bytes ++ piece.now) (kept_by self.new) }
        ensures cut_kept { result.1 ≡ Some Fed.Cut → kept_by self.new ≡ kept_by self.old }
        ensures cut_written { result.1 ≡ Some Fed.Cut → Appends (K.held sink.old) (K.held sink.new) (reply_text (error out_of_memory)) }
        ensures broken_off { result.1 ≡ Some Fed.SinkFault → (limit : ℕ) (bytes : List ℕ) → IsServing E.levels E.table E.begins limit self.old bytes piece.now → BreaksOff limit false (bytes ++ piece.now) (kept_by self.old) (kept_by self.new) (K.held sink.old) (K.held sink.new) }
        ensures faults { K.faults sink.new ≡ counted K.last (fails_at result.1) (K.faults sink.old) }
        // Nothing more is read before the reply was handed on.
        ensures handed { IsSome result.1 → (result.1 ≡ Some Fed.SinkFault → ⊥) → K.handed sink.new ≡ K.held sink.new }
        // Each answer brings the caller on, by a byte or by a thing that was owed.
        ensures progress { IsSome result.1 → result.0 ≡ 0 → (owes_thing self.old ≡ true) × (owes_thing self.new ≡ false) }
    {
        one_reading();
        reading_tells_first();
        let (used, heard) = self.reader.feed(piece);
        match heard {
            None => (used, None),
            Some(heard) => (
                used,
                Some(serve(&mut self.desk, &mut self.kept, heard, sink)),
            ),
        }
    }

    /// Ends the script: what was open is refused.
    pub fn finish<K: Sink>(&mut self, sink: &mut K) -> Fed
        requires { (limit : ℕ) × (bytes : List ℕ) × Serves E.levels E.table E.begins limit self.old bytes }
        ensures ended { (result ≡ Fed.Going) ⊎ (result ≡ Fed.Exited) → (limit : ℕ) (bytes : List ℕ) → Serves E.levels E.table E.begins limit self.old bytes → HasEnded limit bytes (kept_by self.new) }
        ensures goes_on { result ≡ Fed.Going → (limit : ℕ) (bytes : List ℕ) → Serves E.levels E.table E.begins limit self.old bytes → GoesOn start (kept_by self.new) }
        ensures exits { result ≡ Fed.Exited → (limit : ℕ) (bytes : List ℕ) → Serves E.levels E.table E.begins limit self.old bytes → EndsByExit start (kept_by self.new) }
        ensures written { (result ≡ Fed.Going) ⊎ (result ≡ Fed.Exited) → (limit : ℕ) (bytes : List ℕ) → Serves E.levels E.table E.begins limit self.old bytes → Writes (kept_by self.old) (kept_by self.new) (K.held sink.old) (K.held sink.new) }
        ensures cut { result ≡ Fed.Cut → (limit : ℕ) (bytes : List ℕ) → Serves E.levels E.table E.begins limit self.old bytes → IsCut limit true bytes (kept_by self.new) }
        ensures cut_written { result ≡ Fed.Cut → (limit : ℕ) (bytes : List ℕ) → Serves E.levels E.table E.begins limit self.old bytes → WritesCut (kept_by self.old) (kept_by self.new) (K.held sink.old) (K.held sink.new) }
        ensures broken_off { result ≡ Fed.SinkFault → (limit : ℕ) (bytes : List ℕ) → Serves E.levels E.table E.begins limit self.old bytes → BreaksOff limit true bytes (kept_by self.old) (kept_by self.new) (K.held sink.old) (K.held sink.new) }
        ensures faults { K.faults sink.new ≡ counted K.last (is_sink_fault result) (K.faults sink.old) }
        ensures handed { (result ≡ Fed.SinkFault → ⊥) → K.handed sink.old ≡ K.held sink.old → K.handed sink.new ≡ K.held sink.new }
    {
        match self.reader.finish() {
            None => Fed::Going,
            Some(heard) => serve(&mut self.desk, &mut self.kept, heard, sink),
        }
    }

    /// All that was kept, in order, and the table of its terms. Takes no memory.
    pub fn into_kept(self) -> (Journal, Terms)
        ensures kept { journal_of result.1 result.0 ≡ kept_by self }
        ensures terms { result.1 ≡ table_by self }
    {
        let Session { reader, desk, kept } = self;
        drop(reader);
        (Journal::from_vec(kept), desk.into_terms())
    }
}
