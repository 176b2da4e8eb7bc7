//! Checks one after another: what is asserted comes and goes, and so does what is assumed.

use crate::formula::Part::{
    self, AtMost, Atom, Choose, Equal, Ite, Less, Not, Or, Real, Sum, Tenths, Xor,
};
use crate::trial::{Trial, Tried};
use std::alloc::Global;
use std::test::Fail;

/// What an engine is told or asked.
enum Act {
    Push,
    Pop,
    /// A formula, which is asserted, or a number.
    Add(&'static [Part]),
    /// With enough units: what is assumed, and the answer that is wanted.
    Ask(&'static [&'static [Part]], Tried),
    /// With no unit at all.
    AskAtOnce(&'static [&'static [Part]], Tried),
}

const NOT_P: &[Part] = &[Atom(0), Not];

const NOT_Q: &[Part] = &[Atom(1), Not];

/// Does one of these, at its place.
fn perform(trial: &mut Trial, place: usize, act: &Act) -> Result<(), Fail> {
    match act {
        Act::Push => trial.push()?,
        Act::Pop => trial.pop(),
        Act::Add(formula) => trial.add(formula)?,
        Act::Ask(assumed, wanted) => trial.expect(place, assumed, 100, *wanted)?,
        Act::AskAtOnce(assumed, wanted) => trial.expect(place, assumed, 0, *wanted)?,
    }
    Ok(())
}

/// Does these one after another.
fn perform_all(trial: &mut Trial, acts: &'static [Act]) -> Result<(), Fail> {
    for (place, act) in acts.iter().enumerate() {
        perform(trial, place, act)?;
    }
    Ok(())
}

/// Does these one after another, over three constants.
fn run(alloc: Global, acts: &'static [Act]) -> Result<(), Fail> {
    let mut trial = Trial::new(alloc, 3)?;
    perform_all(&mut trial, acts)
}

const LEVELS: &[Act] = &[
    Act::Ask(&[], Tried::Sat),
    Act::Add(&[Atom(0), Atom(1), Or(2)]),
    Act::Push,
    Act::Add(&[Atom(0), Not]),
    Act::Ask(&[], Tried::Sat),
    Act::Push,
    Act::Add(&[Atom(1), Not]),
    Act::Ask(&[], Tried::Unsat),
    Act::Pop,
    Act::Ask(&[], Tried::Sat),
    Act::Ask(&[NOT_Q], Tried::Unsat),
    Act::Pop,
    Act::Ask(&[NOT_Q], Tried::Sat),
    Act::Ask(&[NOT_P, NOT_Q], Tried::Unsat),
    Act::Ask(&[], Tried::Sat),
];

#[test]
fn test_what_is_popped_is_no_longer_asserted(rt: HostRuntime) -> Result<(), Fail> {
    run(rt.alloc(), LEVELS)
}

// No constant follows, so that a decision is wanted; under an assumed one all others follow.
const SPENT: &[Act] = &[
    Act::Add(&[Atom(0), Atom(1), Xor]),
    Act::Add(&[Atom(1), Atom(2), Xor]),
    Act::AskAtOnce(&[], Tried::Spent),
    Act::Ask(&[], Tried::Sat),
    Act::AskAtOnce(&[], Tried::Spent),
    Act::Add(&[Atom(0), Atom(2), Xor]),
    Act::AskAtOnce(&[], Tried::Spent),
    Act::Ask(&[], Tried::Unsat),
    Act::AskAtOnce(&[NOT_P], Tried::Unsat),
];

#[test]
fn test_a_spent_check_leaves_the_engine_as_it_was(rt: HostRuntime) -> Result<(), Fail> {
    run(rt.alloc(), SPENT)
}

// A bound that a popped level alone had comes again; what was learned of it is no longer known.
const BOUNDS: &[Act] = &[
    Act::Add(&[Real(0), Real(1), Less]),
    Act::Ask(&[], Tried::Sat),
    Act::Push,
    Act::Add(&[Real(1), Real(2), Less]),
    Act::Ask(&[&[Real(2), Real(0), Less]], Tried::Unsat),
    Act::Ask(&[&[Real(0), Real(2), Less]], Tried::Sat),
    Act::Pop,
    Act::Ask(&[&[Real(2), Real(0), Less]], Tried::Sat),
    Act::Push,
    Act::Add(&[Real(0), Real(1), Sum(2), Tenths(10), AtMost]),
    Act::Ask(&[&[Tenths(5), Real(0), AtMost]], Tried::Unsat),
    Act::Ask(&[&[Tenths(4), Real(0), AtMost]], Tried::Sat),
    Act::Pop,
    Act::Ask(&[&[Tenths(5), Real(0), AtMost]], Tried::Sat),
];

#[test]
fn test_what_is_popped_bounds_no_longer(rt: HostRuntime) -> Result<(), Fail> {
    run(rt.alloc(), BOUNDS)
}

// Over six constants: what is asserted, and literals of which one of each list may be assumed together.
const FORMULAS: &[&[Part]] = &[
    &[Atom(0), Atom(1), Or(2)],
    &[Atom(0), Not, Atom(2), Or(2)],
    &[Atom(1), Not, Atom(3), Not, Or(2)],
    &[Atom(2), Atom(3), Xor],
    &[Atom(3), Atom(4), Atom(5), Or(3)],
    &[Atom(0), Atom(1), Equal, Atom(4), Or(2)],
    &[Atom(4), Not, Atom(5), Not, Or(2)],
    &[Atom(5), Atom(0), Atom(2), Ite],
    &[Atom(2), Not, Atom(4), Xor, Atom(1), Or(2)],
    &[Atom(5), Not],
    &[Atom(3), Atom(1), Atom(0), Or(2), Equal],
    &[Atom(4), Atom(0), Xor],
];

const FIRST: &[&[Part]] = &[
    &[Atom(0)],
    &[Atom(1), Not],
    &[Atom(2)],
    &[Atom(0), Atom(1), Xor],
];

const SECOND: &[&[Part]] = &[
    &[Atom(3), Not],
    &[Atom(4)],
    &[Atom(5), Not],
    &[Atom(3), Atom(5), Equal],
];

/// The formula that a number picks.
fn picked(formulas: &'static [&'static [Part]], number: u32) -> &'static [Part] {
    formulas
        .get(number as usize)
        .copied()
        .unwrap_or(&[Atom(0), Atom(3), Or(2)])
}

/// Does what a number says: begins a level or ends one, asserts a formula, or asks.
fn do_by(trial: &mut Trial, place: usize, number: u32) -> Result<(), Fail> {
    let formula = picked(FORMULAS, (number >> 8) % 16);
    let first = picked(FIRST, (number >> 12) % 4);
    let second = picked(SECOND, (number >> 14) % 4);
    match number >> 29 {
        0 => trial.push()?,
        1 => trial.pop(),
        2 | 3 => trial.add(formula)?,
        4 => trial.compare(place, &[first])?,
        5 => trial.compare(place, &[first, second])?,
        _ => trial.compare(place, &[])?,
    }
    Ok(())
}

/// Does so many things, as numbers that look random say.
fn do_seeded(trial: &mut Trial, count: usize) -> Result<(), Fail> {
    let mut number: u32 = 1;
    for place in 0..count {
        number = number.wrapping_mul(1_664_525).wrapping_add(1_013_904_223);
        do_by(trial, place, number)?;
    }
    Ok(())
}

#[test]
fn test_an_engine_answers_as_one_that_is_new(rt: HostRuntime) -> Result<(), Fail> {
    let mut trial = Trial::new(rt.alloc(), 6)?;
    do_seeded(&mut trial, 150)
}

// The number adds clauses on the constant of its condition, which none of them decides, and asserts nothing, whatever comes and goes.
const NUMBER: &[Part] = &[Atom(0), Real(0), Real(0), Tenths(10), Sum(2), Choose];

const NUMBERS: &[Act] = &[
    Act::Add(NUMBER),
    Act::Ask(&[], Tried::Sat),
    Act::Ask(&[&[Atom(0)]], Tried::Sat),
    Act::Ask(&[NOT_P], Tried::Sat),
    Act::Push,
    Act::Add(&[Real(0), Tenths(5), AtMost]),
    Act::Add(&[
        Tenths(10),
        Atom(0),
        Real(0),
        Real(0),
        Tenths(10),
        Sum(2),
        Choose,
        AtMost,
    ]),
    Act::Ask(&[&[Atom(0)]], Tried::Unsat),
    Act::Ask(&[NOT_P], Tried::Sat),
    Act::Pop,
    Act::Ask(&[&[Atom(0)]], Tried::Sat),
    Act::Ask(&[NOT_P], Tried::Sat),
];

#[test]
fn test_an_added_number_asserts_nothing(rt: HostRuntime) -> Result<(), Fail> {
    run(rt.alloc(), NUMBERS)
}
