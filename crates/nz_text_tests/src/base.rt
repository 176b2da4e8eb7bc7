//! Of `nz_base`: each public call once on its happy path, and faults in mid-stream.
use crate::checks::{holds, is, is_bytes};
use nz_base::{
    Entry, Failed, Input, Lines, Literals, MemSink, MemSource, Memory, Noted, Output, PlainSink,
    PlainSource, Sink, Source, Spent, Text, Work, write_all,
};
use std::alloc::{AllocError, Global};
use std::hash::{DefaultHasher, Hash, Hasher};
use std::io;
use std::io::{ErrorKind, Read, Write};
use std::process::Abort;
use std::test::Fail;

// A reader and writer that always fails.
#[derive(Drop)]
struct Broken;

impl Read for Broken {
    fn read(&mut self, _buf: &mut [u8]) -> io::Result<usize> {
        Err(io::Error::from(ErrorKind::Other))
    }
}

impl Write for Broken {
    fn write(&mut self, _buf: &[u8]) -> io::Result<usize> {
        Err(io::Error::from(ErrorKind::Other))
    }

    fn flush(&mut self) -> io::Result<()> {
        Err(io::Error::from(ErrorKind::Other))
    }
}

// A read into the buffer answers so, and then these are the bytes in it.
fn reads<S: Source>(
    rt: &impl Abort,
    source: &mut S,
    buf: &mut [u8],
    want: Result<usize, Failed>,
    bytes: &[u8],
) {
    is(rt, source.read(buf), want);
    is_bytes(rt, buf, bytes);
}

fn writes<K: Sink>(rt: &impl Abort, sink: &mut K, piece: &[u8], want: Result<usize, Failed>) {
    is(rt, sink.write(piece), want);
}

fn flushes<K: Sink>(rt: &impl Abort, sink: &mut K, want: Result<(), Failed>) {
    is(rt, sink.flush(), want);
}

// A write answers so, and a flush after it succeeds.
fn hands_on<K: Sink>(rt: &impl Abort, sink: &mut K, piece: &[u8], want: usize) {
    writes(rt, sink, piece, Ok(want));
    flushes(rt, sink, Ok(()));
}

fn writes_all<K: Sink>(rt: &impl Abort, sink: &mut K, bytes: &[u8], want: Result<(), Failed>) {
    is(rt, write_all(sink, bytes), want);
}

// What a plain sink holds, what it has handed on, and how often it has failed.
fn plain_has(rt: &impl Abort, sink: &PlainSink, held: &[u8], handed: &[u8], faults: u64) {
    is_bytes(rt, sink.bytes(), held);
    is_bytes(rt, sink.handed(), handed);
    is(rt, sink.faults(), faults);
}

// The same of a sink whose faults are planned.
fn planned_has(rt: &impl Abort, sink: &MemSink, held: &[u8], handed: &[u8], faults: u64) {
    is_bytes(rt, sink.bytes(), held);
    is_bytes(rt, sink.handed(), handed);
    is(rt, sink.faults(), faults);
}

fn plain_source(alloc: Global, bytes: &[u8]) -> Result<PlainSource, AllocError> {
    Ok(PlainSource::new(bytes.to_vec(alloc)?, 4))
}

fn planned_source(alloc: Global, bytes: &[u8], fails: &[u64]) -> Result<MemSource, AllocError> {
    Ok(MemSource::new(bytes.to_vec(alloc)?, 3, fails.to_vec(alloc)?))
}

fn plain_sink(alloc: Global, room: usize) -> Result<PlainSink, Memory> {
    PlainSink::new(alloc, room)
}

fn planned_sink(alloc: Global, fails: &[u64]) -> Result<MemSink, Memory> {
    MemSink::new(alloc, 5, fails.to_vec(alloc)?)
}

#[test]
fn test_plain_source_gives_pieces_and_the_end(rt: HostRuntime) -> Result<(), Fail> {
    let mut source = plain_source(rt.alloc(), b"check-sat")?;
    let mut buf = [b'.'; 6];
    reads(&rt, &mut source, &mut buf, Ok(4), b"chec..");
    reads(&rt, &mut source, &mut buf, Ok(4), b"k-sa..");
    reads(&rt, &mut source, &mut buf, Ok(1), b"t-sa..");
    reads(&rt, &mut source, &mut buf, Ok(0), b"t-sa..");
    Ok(())
}

#[test]
fn test_mem_source_fails_in_mid_stream(rt: HostRuntime) -> Result<(), Fail> {
    let mut source = planned_source(rt.alloc(), b"exit", &[1, 3])?;
    let mut buf = [b'.'; 3];
    reads(&rt, &mut source, &mut buf, Ok(3), b"exi");
    reads(&rt, &mut source, &mut buf, Err(Failed), b"exi");
    reads(&rt, &mut source, &mut buf, Ok(1), b"txi");
    reads(&rt, &mut source, &mut buf, Err(Failed), b"txi");
    reads(&rt, &mut source, &mut buf, Ok(0), b"txi");
    is(&rt, source.faults(), 2);
    Ok(())
}

#[test]
fn test_plain_sink_takes_what_fits(rt: HostRuntime) -> Result<(), Fail> {
    let mut sink = plain_sink(rt.alloc(), 5)?;
    hands_on(&rt, &mut sink, b"sat", 3);
    hands_on(&rt, &mut sink, b"unsat", 2);
    hands_on(&rt, &mut sink, b"", 0);
    plain_has(&rt, &sink, b"satun", b"satun", 0);
    hands_on(&rt, &mut sink, b"sat", 0);
    plain_has(&rt, &sink, b"satun", b"satun", 1);
    Ok(())
}

#[test]
fn test_mem_sink_fails_where_planned(rt: HostRuntime) -> Result<(), Fail> {
    let mut sink = planned_sink(rt.alloc(), &[1, 2])?;
    writes(&rt, &mut sink, b"sat", Ok(3));
    flushes(&rt, &mut sink, Err(Failed));
    writes(&rt, &mut sink, b"sat", Err(Failed));
    planned_has(&rt, &sink, b"sat", b"", 2);
    hands_on(&rt, &mut sink, b"unsat", 2);
    hands_on(&rt, &mut sink, b"unsat", 0);
    planned_has(&rt, &sink, b"satun", b"satun", 3);
    Ok(())
}

#[test]
fn test_a_failed_flush_hands_on_nothing(rt: HostRuntime) -> Result<(), Fail> {
    let mut sink = planned_sink(rt.alloc(), &[1])?;
    writes(&rt, &mut sink, b"sat", Ok(3));
    flushes(&rt, &mut sink, Err(Failed));
    planned_has(&rt, &sink, b"sat", b"", 1);
    flushes(&rt, &mut sink, Ok(()));
    planned_has(&rt, &sink, b"sat", b"sat", 1);
    Ok(())
}

#[test]
fn test_write_all_writes_every_byte_or_fails(rt: HostRuntime) -> Result<(), Fail> {
    let mut sink = plain_sink(rt.alloc(), 8)?;
    writes_all(&rt, &mut sink, b"sat\n", Ok(()));
    writes_all(&rt, &mut sink, b"unsat\n", Err(Failed));
    plain_has(&rt, &sink, b"sat\nunsa", b"", 1);
    Ok(())
}

#[test]
fn test_streams_pass_bytes_and_faults_on(rt: HostRuntime) -> Result<(), Fail> {
    let mut input = Input::new(b"sat".as_slice());
    let mut buf = [b'.'; 8];
    reads(&rt, &mut input, &mut buf, Ok(3), b"sat.....");
    reads(&rt, &mut input, &mut buf, Ok(0), b"sat.....");
    reads(
        &rt,
        &mut Input::new(Broken),
        &mut buf,
        Err(Failed),
        b"sat.....",
    );
    an_output_passes_bytes_on(&rt, rt.alloc())
}

fn an_output_passes_bytes_on(rt: &impl Abort, alloc: Global) -> Result<(), Fail> {
    let mut written = Vec::new(alloc);
    hands_on(rt, &mut Output::new(alloc, &mut written)?, b"unsat", 5);
    is_bytes(rt, written.as_slice(), b"unsat");
    Ok(())
}

#[test]
fn test_an_output_fails_where_its_block_is_handed_on(rt: HostRuntime) -> Result<(), Fail> {
    let mut broken = Output::new(rt.alloc(), Broken)?;
    writes(&rt, &mut broken, b"sat", Ok(3));
    flushes(&rt, &mut broken, Err(Failed));
    writes_all(&rt, &mut broken, &[b'.'; 8190], Err(Failed));
    Ok(())
}

const PAIRS: &[(usize, bool)] = &[(3, true), (0, false)];

#[test]
fn test_literals_give_their_list_back(rt: HostRuntime) -> Result<(), Fail> {
    let literals = Literals::new(PAIRS.to_vec(rt.alloc())?)?;
    is(&rt, literals.as_slice(), PAIRS);
    is(&rt, literals.into_vec().len(), 2);
    Ok(())
}

// What a line is: the atom of a decision, the kept decisions of a clause, the form that an exchange makes nonbasic, or the note itself.
fn summary(line: Noted<'_, u8>) -> (char, usize) {
    match line {
        Noted::Unit(Entry::Decision { atom, .. }) => ('D', *atom),
        Noted::Unit(Entry::Learned { keep, .. }) => ('C', *keep),
        Noted::Unit(Entry::Pivot { leaves, .. }) => ('P', *leaves),
        Noted::Note(note) => ('A', *note as usize),
    }
}

// A line of the list, where it has so many.
fn line_at(work: &Work<u8>, i: u64) -> Option<(char, usize)> {
    if i < work.len() {
        Some(summary(work.get(i)))
    } else {
        None
    }
}

// The same of lines that were taken out.
fn line_of(lines: &Lines<u8>, i: u64) -> Option<(char, usize)> {
    if i < lines.len() {
        Some(summary(lines.get(i)))
    } else {
        None
    }
}

fn decide(work: &mut Work<u8>, atom: usize) -> Result<(), Spent> {
    work.unit(Entry::Decision { atom, sign: true })
}

fn learn(alloc: Global, work: &mut Work<u8>) -> Result<(), Fail> {
    let lits = Literals::new([(5, true)].to_vec(alloc)?)?;
    work.unit(Entry::Learned { keep: 0, lits })?;
    Ok(())
}

fn exchange(work: &mut Work<u8>, leaves: usize) -> Result<(), Spent> {
    work.unit(Entry::Pivot { leaves, enters: 0 })
}

fn note(work: &mut Work<u8>, note: u8) -> Result<(), Memory> {
    work.note(note)
}

fn reserve(work: &mut Work<u8>, units: u64) -> Result<(), Memory> {
    work.reserve(units)
}

fn new_work(alloc: Global) -> Result<Work<u8>, Memory> {
    Work::new(alloc)
}

// How many lines the list has, and how many units it may still have.
fn work_has(rt: &impl Abort, work: &Work<u8>, lines: u64, left: u64) {
    is(rt, work.len(), lines);
    is(rt, work.is_empty(), lines == 0);
    is(rt, work.left(), left);
}

fn lines_are(rt: &impl Abort, lines: &Lines<u8>, want: &[(char, usize)]) {
    is(rt, lines.len(), want.len() as u64);
    is(rt, lines.is_empty(), want.is_empty());
    let mut at = 0;
    for line in want {
        is(rt, line_of(lines, at), Some(*line));
        at = at.saturating_add(1);
    }
}

// A list of three units, which are all used.
fn used_work(rt: &impl Abort, alloc: Global) -> Result<Work<u8>, Fail> {
    let mut work = new_work(alloc)?;
    is(rt, decide(&mut work, 0), Err(Spent));
    reserve(&mut work, 3)?;
    note(&mut work, 7)?;
    decide(&mut work, 5)?;
    work_has(rt, &work, 2, 2);
    note(&mut work, 8)?;
    learn(alloc, &mut work)?;
    exchange(&mut work, 4)?;
    is(rt, decide(&mut work, 6), Err(Spent));
    note(&mut work, 9)?;
    Ok(work)
}

#[test]
fn test_work_counts_units_and_keeps_lines(rt: HostRuntime) -> Result<(), Fail> {
    let mut work = used_work(&rt, rt.alloc())?;
    work_has(&rt, &work, 6, 0);
    is(&rt, line_at(&work, 1), Some(('D', 5)));
    let lines = work.take();
    work_has(&rt, &work, 0, 0);
    lines_are(
        &rt,
        &lines,
        &[('A', 7), ('D', 5), ('A', 8), ('C', 0), ('P', 4), ('A', 9)],
    );
    Ok(())
}

#[test]
fn test_reserve_empties_the_list(rt: HostRuntime) -> Result<(), Fail> {
    let mut work = new_work(rt.alloc())?;
    reserve(&mut work, 1)?;
    note(&mut work, 7)?;
    decide(&mut work, 5)?;
    reserve(&mut work, 3)?;
    work_has(&rt, &work, 0, 3);
    lines_are(&rt, &work.take(), &[]);
    Ok(())
}

#[test]
fn test_want_of_memory_has_one_name(rt: HostRuntime) {
    is(&rt, Memory::from(AllocError), Memory);
}

fn hash_of<T: Hash>(value: &T) -> u64 {
    let mut state = DefaultHasher::new();
    value.hash(&mut state);
    state.finish()
}

fn text_of(alloc: Global, bytes: &[u8]) -> Result<Text, Memory> {
    Text::from_slice(alloc, bytes)
}

fn text_is(rt: &impl Abort, text: &Text, want: &[u8]) {
    is_bytes(rt, text.as_bytes(), want);
    is(rt, text.len(), want.len());
    is(rt, text.is_empty(), want.is_empty());
}

// Texts are told apart by their bytes, and what is the same has one hash.
fn texts_compare(rt: &impl Abort, a: &Text, b: &Text, same: bool) {
    is(rt, a == b, same);
    is(rt, a != b, !same);
    holds(rt, !same || hash_of(a) == hash_of(b), "one hash");
}

#[test]
fn test_grows_and_gives_its_bytes(rt: HostRuntime) -> Result<(), Fail> {
    let mut text = text_of(rt.alloc(), b"check")?;
    text.push_slice(b"-sat")?;
    text_is(&rt, &text, b"check-sat");
    let copy = text.clone()?;
    texts_compare(&rt, &copy, &text, true);
    text.clear();
    text_is(&rt, &text, b"");
    texts_compare(&rt, &text, &Text::new(rt.alloc()), true);
    text_is(&rt, &copy, b"check-sat");
    Ok(())
}

#[test]
fn test_holds_what_is_longer_than_a_short_text(rt: HostRuntime) -> Result<(), Fail> {
    let mut text = text_of(rt.alloc(), b"sixteen bytes is")?;
    text_is(&rt, &text, b"sixteen bytes is");
    text.push_slice(b", and more")?;
    text_is(&rt, &text, b"sixteen bytes is, and more");
    text_is(&rt, &text.clone()?, b"sixteen bytes is, and more");
    Ok(())
}

#[test]
fn test_is_told_apart_by_its_bytes(rt: HostRuntime) -> Result<(), Fail> {
    let text = text_of(rt.alloc(), b"p")?;
    texts_compare(&rt, &text, &text_of(rt.alloc(), b"q")?, false);
    text_is(&rt, &text, b"p");
    Ok(())
}
