//! Of `nz_reply`: the text of each reply, each public call on its happy path, and a sink without room.
use crate::checks::{holds, is, is_bytes};
use crate::sexpr::first_heard;
use nz_base::{Error, Memory, PlainSink, Sink, Text};
use nz_frac::{Frac, Op, Wide};
use nz_reply::{
    Binding, Bindings, Info, Journal, Reason, Reply, Shown, Shows, WriteFault, write_reply,
    write_text,
};
use nz_sexpr::{Heard, What};
use nz_term::{Constant, Sort, Value};
use std::alloc::Global;
use std::process::Abort;
use std::rc::Rc;
use std::test::Fail;

/// How many bytes the replies of a test may have.
const ROOM: usize = 200;

/// What is heard first in a script.
fn heard_in(alloc: Global, script: &[u8]) -> What {
    match first_heard(alloc, script) {
        Some(Heard { what, .. }) => what,
        None => What::Unread,
    }
}

fn sink_with(alloc: Global, room: usize) -> Result<PlainSink, Memory> {
    PlainSink::new(alloc, room)
}

fn sink_is(rt: &impl Abort, sink: &PlainSink, want: &[u8]) {
    is_bytes(rt, sink.bytes(), want);
}

fn write<K: Sink>(sink: &mut K, what: &What, reply: &Reply) -> Result<(), WriteFault> {
    write_reply(sink, what, reply)
}

fn write_bytes<K: Sink>(sink: &mut K, text: &[u8]) -> Result<(), WriteFault> {
    write_text(sink, text)
}

/// The reply to this command is written so.
fn tells(
    rt: &impl Abort,
    alloc: Global,
    command: &[u8],
    reply: &Reply,
    want: &[u8],
) -> Result<(), Fail> {
    let what = heard_in(alloc, command);
    let mut sink = sink_with(alloc, ROOM)?;
    is(rt, write(&mut sink, &what, reply), Ok(()));
    sink_is(rt, &sink, want);
    Ok(())
}

fn number(numerator: i64, denominator: i64) -> Frac {
    match Frac::whole(numerator).div(Frac::whole(if denominator == 0 { 1 } else { denominator })) {
        Ok(quotient) => quotient,
        Err(_) => Frac::whole(0),
    }
}

fn show(shows: &mut Shows, shown: Shown) -> Result<(), Memory> {
    shows.push(shown)
}

/// Tells numbers of these sorts, each by its numerator and its denominator.
fn show_numbers(shows: &mut Shows, numbers: &[(Sort, i64, i64)]) -> Result<(), Memory> {
    for (sort, numerator, denominator) in numbers {
        let value = Value::Number(number(*numerator, *denominator));
        show(shows, Shown::Value(*sort, value))?;
    }
    Ok(())
}

#[test]
fn test_values_are_told_behind_their_terms(rt: HostRuntime) -> Result<(), Fail> {
    let mut shows = Shows::new(rt.alloc());
    show(&mut shows, Shown::Value(Sort::Bool, Value::Truth(true)))?;
    show_numbers(&mut shows, &[(Sort::Int, -7, 1), (Sort::Real, 3, 2)])?;
    tells(
        &rt,
        rt.alloc(),
        b"(get-value (p (+ |a b| x 1.50) (f \"\"\"\" :k #xF)))",
        &Reply::Values(shows),
        b"((p true) ((+ |a b| x 1.50) (- 7)) ((f \"\"\"\" :k #xF) (/ 3.0 2.0)))\n",
    )
}

/// Numbers with a sign and without, whole and not.
const NUMBERS: &[(Sort, i64, i64)] = &[
    (Sort::Int, 7, 1),
    (Sort::Real, 2, 1),
    (Sort::Real, -2, 1),
    (Sort::Real, -3, 2),
];

#[test]
fn test_numbers_are_spelled_by_their_sort(rt: HostRuntime) -> Result<(), Fail> {
    let mut shows = Shows::new(rt.alloc());
    show_numbers(&mut shows, NUMBERS)?;
    tells(
        &rt,
        rt.alloc(),
        b"(get-value (a b c d))",
        &Reply::Values(shows),
        b"((a 7) (b 2.0) (c (- 2.0)) (d (- (/ 3.0 2.0))))\n",
    )
}

#[test]
fn test_operations_that_leave_the_numbers_are_told(rt: HostRuntime) -> Result<(), Fail> {
    let mut shows = Shows::new(rt.alloc());
    let wide = Wide {
        op: Op::Add,
        a: number(3, 1),
        b: number(-1, 2),
    };
    show(&mut shows, Shown::Wide(wide))?;
    tells(
        &rt,
        rt.alloc(),
        b"(get-value (()))",
        &Reply::Values(shows),
        b"((() (wide add 3 (- (/ 1 2)))))\n",
    )
}

/// Puts a constant and what it stands for at the end.
fn bind(
    alloc: Global,
    bindings: &mut Bindings,
    name: &[u8],
    sort: Sort,
    value: Value,
) -> Result<(), Memory> {
    let name = Text::from_slice(alloc, name)?;
    bindings.push(Binding {
        constant: Constant { name, sort },
        value,
    })
}

fn model(alloc: Global, bindings: Bindings) -> Result<Reply, Memory> {
    Ok(Reply::Model(Rc::new(alloc, bindings)?))
}

#[test]
fn test_a_model_is_told(rt: HostRuntime) -> Result<(), Fail> {
    let mut bindings = Bindings::new(rt.alloc());
    let truth = Value::Truth(false);
    bind(rt.alloc(), &mut bindings, b"p q", Sort::Bool, truth)?;
    let third = Value::Number(number(-1, 3));
    bind(rt.alloc(), &mut bindings, b"x", Sort::Real, third)?;
    tells(
        &rt,
        rt.alloc(),
        b"",
        &model(rt.alloc(), bindings)?,
        b"(\n(define-fun |p q| () Bool false)\n(define-fun x () Real (- (/ 1.0 3.0)))\n)\n",
    )
}

/// The texts of the replies of one line, one after another.
fn write_lines(sink: &mut PlainSink, what: &What) -> Result<(), WriteFault> {
    write(sink, what, &Reply::Quiet)?;
    write(sink, what, &Reply::Success)?;
    write(sink, what, &Reply::Info(Info::Name))?;
    write(sink, what, &Reply::Info(Info::ErrorBehavior))?;
    write(sink, what, &Reply::Levels(2))?;
    write(sink, what, &Reply::Reason(Reason::UnitsSpent(9)))?;
    write(sink, what, &Reply::Echo)?;
    write(sink, what, &Reply::Error(Error::NotLinear))
}

/// What they are.
const LINES: &[u8] = b"success\n(:name \"nuz\")\n(:error-behavior continued-execution)\n\
    (:assertion-stack-levels 2)\n(:reason-unknown (spent 9))\n\"say \"\"a\"\"\"\n(error \"4 not linear\")\n";

#[test]
fn test_replies_of_one_line_are_told(rt: HostRuntime) -> Result<(), Fail> {
    let mut sink = sink_with(rt.alloc(), ROOM)?;
    let what = heard_in(rt.alloc(), b"(echo \"say \"\"a\"\"\")");
    is(&rt, write_lines(&mut sink, &what), Ok(()));
    sink_is(&rt, &sink, LINES);
    Ok(())
}

#[test]
fn test_a_reason_names_the_operation_that_left_the_numbers(rt: HostRuntime) -> Result<(), Fail> {
    let wide = Wide {
        op: Op::Mul,
        a: number(-1, 2),
        b: number(3, 1),
    };
    tells(
        &rt,
        rt.alloc(),
        b"",
        &Reply::Reason(Reason::Wide(Rc::new(rt.alloc(), wide)?)),
        b"(:reason-unknown (wide mul (- (/ 1 2)) 3))\n",
    )
}

#[test]
fn test_a_command_without_a_text_repeats_none(rt: HostRuntime) -> Result<(), Fail> {
    tells(&rt, rt.alloc(), b"(echo a)", &Reply::Echo, b"\"\"\n")
}

fn count_of(bindings: &Bindings) -> usize {
    bindings.len()
}

fn value_at(bindings: &Bindings, index: usize) -> Option<Value> {
    bindings.value(index)
}

/// Each constant has this name and stands for this.
fn each_is(rt: &impl Abort, bindings: &Bindings, name: &[u8], wanted: &Value) {
    let entries = bindings.as_slice();
    is(rt, entries.len(), 1);
    for Binding { constant, value } in entries {
        is_bytes(rt, constant.name.as_bytes(), name);
        is(rt, value, wanted);
    }
}

#[test]
fn test_bindings_have_their_values(rt: HostRuntime) -> Result<(), Fail> {
    let mut bindings = Bindings::new(rt.alloc());
    is(&rt, count_of(&bindings), 0);
    bind(
        rt.alloc(),
        &mut bindings,
        b"p",
        Sort::Bool,
        Value::Truth(true),
    )?;
    is(&rt, count_of(&bindings), 1);
    is(&rt, value_at(&bindings, 0), Some(Value::Truth(true)));
    is(&rt, value_at(&bindings, 1), None);
    each_is(&rt, &bindings, b"p", &Value::Truth(true));
    Ok(())
}

/// Each thing that is told is that something is true.
fn each_is_true(rt: &impl Abort, shows: &Shows) {
    let told = shows.as_slice();
    is(rt, told.len(), 1);
    for shown in told {
        let is_true = matches!(shown, Shown::Value(Sort::Bool, Value::Truth(true)));
        holds(rt, is_true, "true");
    }
}

#[test]
fn test_shows_have_what_is_told(rt: HostRuntime) -> Result<(), Fail> {
    let mut shows = Shows::new(rt.alloc());
    show(&mut shows, Shown::Value(Sort::Bool, Value::Truth(true)))?;
    each_is_true(&rt, &shows);
    Ok(())
}

#[test]
fn test_a_sink_without_room_is_told(rt: HostRuntime) -> Result<(), Fail> {
    let mut sink = sink_with(rt.alloc(), 5)?;
    let written = write(&mut sink, &What::Unread, &Reply::Unsupported);
    is(&rt, written, Err(WriteFault));
    sink_is(&rt, &sink, b"unsup");
    is(&rt, write_bytes(&mut sink, b""), Ok(()));
    Ok(())
}

#[test]
fn test_a_journal_has_what_it_was_given(rt: HostRuntime) -> Result<(), Fail> {
    let journal = Journal::from_vec(Vec::new(rt.alloc()));
    holds(&rt, journal.as_slice().is_empty(), "nothing");
    Ok(())
}
