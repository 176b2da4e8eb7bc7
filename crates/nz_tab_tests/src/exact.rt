//! Rows that are known beforehand: what is done to a table is told by steps, and what must come of each.
use crate::tables::{added, exchanged, has, times, units};
use nz_tab::{Tab, Var};
use nz_term::{TermId, Terms};
use std::alloc::Global;
use std::test::Fail;

/// A unit with its coefficient.
type UnitMultiple = (usize, u128);

/// What is done to a table, and what comes of it.
#[derive(Clone, Copy, Debug)]
enum Step {
    /// A unit alone has this number.
    Unit(usize, Var),
    /// A sum of two multiples gets this number.
    Sum(UnitMultiple, UnitMultiple, Var),
    /// Two forms are exchanged.
    Exchange(Var, Var),
    /// Two forms can't be exchanged: an operation on numbers with these numerators leaves the numbers.
    Wide(Var, Var, i128, i128),
    /// A row has a coefficient with this numerator and this denominator.
    Row(Var, Var, i128, i128),
}

/// Whether all comes of these steps that they say.
fn comes(alloc: Global, steps: &[Step]) -> Option<bool> {
    let mut terms = Terms::new(alloc).ok()?;
    let mut tab = Tab::new(alloc);
    let units = units(&mut terms, alloc).ok()?;
    Some(all_come(alloc, &mut terms, &mut tab, units, steps))
}

fn all_come(
    alloc: Global,
    terms: &mut Terms,
    tab: &mut Tab,
    units: [TermId; 3],
    steps: &[Step],
) -> bool {
    for step in steps {
        if !one_comes(alloc, terms, tab, units, *step) {
            return false;
        }
    }
    true
}

fn one_comes(
    alloc: Global,
    terms: &mut Terms,
    tab: &mut Tab,
    units: [TermId; 3],
    step: Step,
) -> bool {
    match step {
        Step::Unit(unit, var) => add_unit(alloc, terms, tab, units, unit) == Some(var),
        Step::Sum(left, right, var) => add_sum(alloc, terms, tab, units, left, right) == Some(var),
        Step::Exchange(i, j) => matches!(exchanged(tab, i, j), Some(Ok(()))),
        Step::Wide(i, j, left, right) => is_wide(tab, i, j, left, right),
        Step::Row(i, j, num, den) => has(tab, i, j, num, den),
    }
}

fn add_unit(
    alloc: Global,
    terms: &mut Terms,
    tab: &mut Tab,
    units: [TermId; 3],
    unit: usize,
) -> Option<Var> {
    let id = *units.get(unit)?;
    added(alloc, terms, tab, &[id])
}

fn add_sum(
    alloc: Global,
    terms: &mut Terms,
    tab: &mut Tab,
    units: [TermId; 3],
    left: UnitMultiple,
    right: UnitMultiple,
) -> Option<Var> {
    let left = times(terms, left.1, *units.get(left.0)?).ok()?;
    let right = times(terms, right.1, *units.get(right.0)?).ok()?;
    added(alloc, terms, tab, &[left, right])
}

fn is_wide(tab: &mut Tab, i: Var, j: Var, left: i128, right: i128) -> bool {
    match exchanged(tab, i, j) {
        Some(Err(wide)) => wide.a.num() == left && wide.b.num() == right,
        _ => false,
    }
}

#[test]
fn test_two_forms_and_an_exchange(rt: HostRuntime) -> Result<(), Fail> {
    let steps = [
        Step::Sum((0, 2), (1, 3), 2),
        Step::Sum((0, 1), (1, 1), 3),
        Step::Unit(1, 1),
        Step::Row(2, 0, 2, 1),
        Step::Row(2, 1, 3, 1),
        Step::Row(3, 0, 1, 1),
        Step::Row(3, 2, 0, 1),
        Step::Exchange(2, 0),
        Step::Row(0, 1, -3, 2),
        Step::Row(0, 2, 1, 2),
        Step::Row(0, 0, 0, 1),
        Step::Row(3, 1, -1, 2),
        Step::Row(3, 2, 1, 2),
    ];
    assert!(rt; comes(rt.alloc(), &steps) == Some(true));
    Ok(())
}

#[test]
fn test_a_form_joins_over_basic_units(rt: HostRuntime) -> Result<(), Fail> {
    let steps = [
        Step::Sum((0, 2), (1, 1), 2),
        Step::Exchange(2, 0),
        Step::Sum((0, 1), (2, 3), 4),
        Step::Row(0, 1, -1, 2),
        Step::Row(0, 2, 1, 2),
        Step::Row(0, 3, 0, 1),
        Step::Row(4, 1, -1, 2),
        Step::Row(4, 2, 1, 2),
        Step::Row(4, 3, 3, 1),
        Step::Exchange(4, 3),
        Step::Row(3, 1, 1, 6),
        Step::Row(3, 2, -1, 6),
        Step::Row(3, 4, 1, 3),
        Step::Row(0, 4, 0, 1),
    ];
    assert!(rt; comes(rt.alloc(), &steps) == Some(true));
    Ok(())
}

#[test]
fn test_a_wide_pivot_leaves_the_rows(rt: HostRuntime) -> Result<(), Fail> {
    let most = 170141183460469231731687303715884105727;
    let steps = [
        Step::Sum((0, 1), (1, most), 2),
        Step::Sum((0, 2), (1, 1), 3),
        Step::Wide(2, 0, 2, -170141183460469231731687303715884105727),
        Step::Row(2, 0, 1, 1),
        Step::Row(3, 0, 2, 1),
        Step::Row(3, 1, 1, 1),
    ];
    assert!(rt; comes(rt.alloc(), &steps) == Some(true));
    Ok(())
}
