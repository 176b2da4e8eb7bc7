//! Of `nz_run`: the top call on whole scripts, read in pieces of any length, and with a fault in mid-stream.
use crate::checks::{is, is_bytes};
use nz_base::{MemSink, MemSource, Memory, PlainSink, PlainSource, Sink, Source};
use nz_run::{DONE, ERROR, Ended, READ_FAULT, USAGE, WRITE_FAULT, run};
use std::alloc::Global;
use std::process::Abort;
use std::test::Fail;

/// How many bytes the replies of a test may have.
pub(super) const ROOM: usize = 200;

const SCRIPT: &[u8] = b"(declare-const p Bool)(assert p)(check-sat)(get-model)(exit)";

const REPLIES: &[u8] = b"sat\n(\n(define-fun p () Bool true)\n)\n";

pub(super) fn sink_with(alloc: Global, room: usize) -> Result<PlainSink, Memory> {
    PlainSink::new(alloc, room)
}

pub(super) fn sink_is(rt: &impl Abort, sink: &PlainSink, want: &[u8]) {
    is_bytes(rt, sink.bytes(), want);
}

fn source_of(alloc: Global, script: &[u8], piece: usize) -> Result<PlainSource, Memory> {
    Ok(PlainSource::new(script.to_vec(alloc)?, piece.max(1)))
}

/// Runs the program by these words.
fn run_words<S: Source, K: Sink>(
    alloc: Global,
    words: &[&str],
    input: &mut S,
    out: &mut K,
) -> Result<Ended, Memory> {
    let mut owned = Vec::new(alloc);
    for word in words {
        owned.push(String::from_str(alloc, word)?)?;
    }
    Ok(run(alloc, owned.as_slice(), input, out))
}

/// The words of a run with no option.
const SOLVE: &[&str] = &["nuz", "solve"];

/// Runs a script that is read in pieces of at most this length.
pub(super) fn run_pieces(
    alloc: Global,
    script: &[u8],
    piece: usize,
    out: &mut PlainSink,
) -> Result<Ended, Memory> {
    let mut input = source_of(alloc, script, piece)?;
    run_words(alloc, SOLVE, &mut input, out)
}

/// A run has this status, and keeps so many replies.
fn has_ended(rt: &impl Abort, ended: &Ended, status: u8, kept: usize) {
    is(rt, ended.status, status);
    is(rt, ended.journal.as_slice().len(), kept);
    is(rt, ended.cut, false);
}

/// A script in pieces is answered so.
fn is_answered(
    rt: &impl Abort,
    alloc: Global,
    script: &[u8],
    piece: usize,
    status: u8,
    kept: usize,
    replies: &[u8],
) -> Result<(), Fail> {
    let mut out = sink_with(alloc, ROOM)?;
    let ended = run_pieces(alloc, script, piece, &mut out)?;
    has_ended(rt, &ended, status, kept);
    sink_is(rt, &out, replies);
    Ok(())
}

#[test]
fn test_pieces_of_any_length_are_answered_alike(rt: HostRuntime) -> Result<(), Fail> {
    is_answered(&rt, rt.alloc(), SCRIPT, 43, DONE, 5, REPLIES)?;
    is_answered(&rt, rt.alloc(), SCRIPT, 1, DONE, 5, REPLIES)
}

#[test]
fn test_no_bytes_have_no_reply(rt: HostRuntime) -> Result<(), Fail> {
    is_answered(&rt, rt.alloc(), b"", 43, DONE, 0, b"")
}

#[test]
fn test_an_open_command_is_an_error(rt: HostRuntime) -> Result<(), Fail> {
    let script = b"(check-sat) (check-sat";
    let wanted = b"sat\n(error \"10 incomplete command\")\n";
    is_answered(&rt, rt.alloc(), script, 43, ERROR, 2, wanted)
}

fn faulty_source(alloc: Global, script: &[u8], fails: &[u64]) -> Result<MemSource, Memory> {
    let bytes = script.to_vec(alloc)?;
    Ok(MemSource::new(bytes, 43, fails.to_vec(alloc)?))
}

fn faulty_sink(alloc: Global, fails: &[u64]) -> Result<MemSink, Memory> {
    MemSink::new(alloc, ROOM, fails.to_vec(alloc)?)
}

#[test]
fn test_a_read_that_fails_ends_the_run(rt: HostRuntime) -> Result<(), Fail> {
    let mut input = faulty_source(rt.alloc(), SCRIPT, &[1])?;
    let mut out = sink_with(rt.alloc(), ROOM)?;
    let ended = run_words(rt.alloc(), SOLVE, &mut input, &mut out)?;
    has_ended(&rt, &ended, READ_FAULT, 3);
    is(&rt, input.faults(), 1);
    sink_is(&rt, &out, b"sat\n");
    Ok(())
}

#[test]
fn test_a_write_that_fails_ends_the_run(rt: HostRuntime) -> Result<(), Fail> {
    let mut input = source_of(rt.alloc(), SCRIPT, 43)?;
    let mut out = faulty_sink(rt.alloc(), &[0])?;
    let ended = run_words(rt.alloc(), SOLVE, &mut input, &mut out)?;
    has_ended(&rt, &ended, WRITE_FAULT, 1);
    is(&rt, out.faults(), 1);
    is_bytes(&rt, out.bytes(), b"");
    Ok(())
}

/// A run by these words over an empty script has this status.
fn ends_with(rt: &impl Abort, alloc: Global, words: &[&str], status: u8) -> Result<(), Fail> {
    let mut input = source_of(alloc, b"", 43)?;
    let mut out = sink_with(alloc, ROOM)?;
    let ended = run_words(alloc, words, &mut input, &mut out)?;
    is(rt, ended.status, status);
    Ok(())
}

#[test]
fn test_other_words_are_not_taken(rt: HostRuntime) -> Result<(), Fail> {
    let alloc = rt.alloc();
    ends_with(&rt, alloc, &["nuz"], USAGE)?;
    ends_with(&rt, alloc, &["nuz", "solve", "--work", "x"], USAGE)?;
    ends_with(&rt, alloc, &["nuz", "solve", "--work", "1000001"], USAGE)?;
    ends_with(&rt, alloc, &["nuz", "solve", "--help"], USAGE)?;
    ends_with(&rt, alloc, &["nuz", "solve", "--work=1000000"], DONE)
}

const UNDECIDED: &[u8] = b"(declare-const p Bool)(declare-const q Bool)(assert (or p q))
        (check-sat)(get-info :reason-unknown)";

/// A run whose checks may use so many units answers so many things heard by these bytes.
fn writes_within(
    rt: &impl Abort,
    alloc: Global,
    units: &str,
    script: &[u8],
    count: usize,
    wanted: &[u8],
) -> Result<(), Fail> {
    let mut input = source_of(alloc, script, 43)?;
    let mut out = sink_with(alloc, ROOM)?;
    let words = &["nuz", "solve", "--work", units];
    let ended = run_words(alloc, words, &mut input, &mut out)?;
    has_ended(rt, &ended, DONE, count);
    sink_is(rt, &out, wanted);
    Ok(())
}

#[test]
fn test_a_check_uses_no_more_units_than_the_words_allow(rt: HostRuntime) -> Result<(), Fail> {
    let wanted = b"unknown\n(:reason-unknown (spent 0))\n";
    writes_within(&rt, rt.alloc(), "0", UNDECIDED, 5, wanted)
}

// Each of the bounds that are excluded is false by propagation alone, also where a level between two of them was popped.
const EXCLUDED: &[u8] = b"(declare-const x Real)(assert (or (< x 1.0) (< x 2.0)))
        (push)(assert (or (< x 2.5) (< x 1.0)))(assert (>= x 3.0))(check-sat)
        (pop)(assert (>= x 3.0))(check-sat)";

#[test]
fn test_a_bound_excludes_others_of_its_form_without_a_unit(rt: HostRuntime) -> Result<(), Fail> {
    writes_within(&rt, rt.alloc(), "0", EXCLUDED, 9, b"unsat\nunsat\n")
}

// Both sums stand at their bounds from the start, so no exchange is left; nothing is decided by the search.
const CHAIN: &[u8] = b"(declare-const x Real)(declare-const y Real)(declare-const z Real)
        (assert (<= (+ x 1.0) y))(assert (<= (+ y 1.0) z))(check-sat)";

#[test]
fn test_a_conjunction_takes_no_unit(rt: HostRuntime) -> Result<(), Fail> {
    writes_within(&rt, rt.alloc(), "0", CHAIN, 6, b"sat\n")
}

// The second sum joins behind the first check, and is broken there.
const GROWING_CHAIN: &[u8] = b"(declare-const x Real)(declare-const y Real)(declare-const z Real)
        (assert (<= (+ x 1.0) y))(check-sat)(assert (<= (+ y 1.0) z))(check-sat)";

#[test]
fn test_an_exchange_takes_a_unit(rt: HostRuntime) -> Result<(), Fail> {
    writes_within(&rt, rt.alloc(), "0", GROWING_CHAIN, 7, b"sat\nunknown\n")?;
    writes_within(&rt, rt.alloc(), "1", GROWING_CHAIN, 7, b"sat\nsat\n")
}
