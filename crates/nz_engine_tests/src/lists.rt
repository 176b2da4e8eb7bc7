//! Checks that go on with one list of work, and how long its lines may be.

use crate::bench::Counted;
use crate::formula::Part::{self, AtMost, Atom, Choose, Less, Not, Or, Real, Sum, Tenths, Xor};
use crate::trial::{Trial, Tried, what_came};
use nz_base::Entry;
use nz_search::Note;
use std::alloc::Global;
use std::test::Fail;

/// What is added, what three checks of one list are asked, and what comes of them.
struct Case {
    added: &'static [&'static [Part]],
    first: &'static [&'static [Part]],
    second: &'static [&'static [Part]],
    third: &'static [&'static [Part]],
    answers: [Tried; 3],
    lines: Counted,
}

/// Other answers, or another list, than were wanted.
#[derive(Clone, Copy, Debug)]
struct Wrong {
    answers: [Tried; 3],
    lines: Counted,
}

/// Asks so over five constants, and fails where another list comes than is wanted.
fn run(alloc: Global, case: &Case) -> Result<(), Fail> {
    let mut trial = Trial::new(alloc, 5)?;
    for formula in case.added {
        trial.add(formula)?;
    }
    let chain = trial.ask_each(case.first, case.second, case.third)?;
    let [first, second, third] = chain.answers;
    let answers = [what_came(first)?, what_came(second)?, what_came(third)?];
    if answers != case.answers || chain.lines != case.lines {
        return Err(Fail::from(Wrong {
            answers,
            lines: chain.lines,
        }));
    }
    Ok(())
}

// Under the third constant nothing is left for the last two; a decision of one of them shows it. What the second check assumes is named for it.
const TRUTHS: Case = Case {
    added: &[
        &[Atom(0), Atom(1), Or(2)],
        &[Atom(2), Not, Atom(3), Atom(4), Or(3)],
        &[Atom(2), Not, Atom(3), Not, Atom(4), Or(3)],
        &[Atom(2), Not, Atom(3), Atom(4), Not, Or(3)],
        &[Atom(2), Not, Atom(3), Not, Atom(4), Not, Or(3)],
    ],
    first: &[&[Atom(0)]],
    second: &[&[Atom(0), Not], &[Atom(0), Atom(3), Xor]],
    third: &[&[Atom(2)]],
    answers: [Tried::Sat, Tried::Sat, Tried::Unsat],
    lines: Counted {
        starts: 1,
        searches: 3,
        atoms: 14,
        twice: 0,
        learned: 2,
        forms: 0,
    },
};

#[test]
fn test_a_list_goes_on_from_check_to_check(rt: HostRuntime) -> Result<(), Fail> {
    run(rt.alloc(), &TRUTHS)
}

// The bounds that a later check assumes are named for it, and their sums join.
const BOUNDS: Case = Case {
    added: &[&[Real(0), Real(1), Less], &[Real(1), Tenths(30), AtMost]],
    first: &[&[Tenths(10), Real(0), AtMost]],
    second: &[&[Real(0), Real(2), Sum(2), Tenths(5), AtMost]],
    third: &[&[Tenths(35), Real(0), AtMost]],
    answers: [Tried::Sat, Tried::Sat, Tried::Unsat],
    lines: Counted {
        starts: 1,
        searches: 3,
        atoms: 5,
        twice: 0,
        learned: 0,
        forms: 1,
    },
};

#[test]
fn test_sums_join_a_list_that_goes_on(rt: HostRuntime) -> Result<(), Fail> {
    run(rt.alloc(), &BOUNDS)
}

// What a number is made of is named and has its clauses, though nothing is asserted: its condition is an atom, and a sum joins.
const NUMBERS: Case = Case {
    added: &[&[Atom(0), Real(0), Real(0), Tenths(10), Sum(2), Choose]],
    first: &[],
    second: &[&[Atom(0)]],
    third: &[&[Atom(0), Not]],
    answers: [Tried::Sat, Tried::Sat, Tried::Sat],
    lines: Counted {
        starts: 1,
        searches: 3,
        atoms: 1,
        twice: 0,
        learned: 0,
        forms: 1,
    },
};

#[test]
fn test_what_a_number_is_made_of_is_named(rt: HostRuntime) -> Result<(), Fail> {
    run(rt.alloc(), &NUMBERS)
}

/// How many bytes a line may have: each unit that is free has the room of one.
const LINE: usize = 32;

// A line is an entry or a note, as this is.
#[test]
fn test_a_line_is_short(rt: HostRuntime) -> Result<(), Fail> {
    if size_of::<Result<Entry, Note>>() > LINE {
        return Err(Fail::from("a long line"));
    }
    Ok(())
}
