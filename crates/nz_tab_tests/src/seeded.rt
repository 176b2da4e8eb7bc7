//! Rows of seeded systems against the units: a row is right where, unit by unit, the nonbasic forms with its coefficients sum to
//! the form. Over a basis only one row is.
use crate::tables::{added, exchanged, units};
use nz_base::Memory;
use nz_frac::{Frac, Wide};
use nz_lin::Part;
use nz_tab::{Tab, Var};
use nz_term::{NumberSort, TermId, Terms};
use nz_term_samples::multiple;
use std::alloc::Global;
use std::test::Fail;

/// The next of numbers that look random.
fn next(seed: &mut u64) -> u64 {
    *seed = seed
        .wrapping_mul(6364136223846793005)
        .wrapping_add(1442695040888963407);
    *seed >> 33
}

/// A unit with a coefficient from -9 to 9.
fn random(terms: &mut Terms, unit: TermId, number: u64) -> Result<TermId, Memory> {
    let size = (number % 10) as i64;
    let coefficient = if number % 20 < 10 { size } else { -size };
    multiple(terms, NumberSort::Real, coefficient, unit)
}

/// Adds a form over three units.
fn add_random(
    alloc: Global,
    terms: &mut Terms,
    tab: &mut Tab,
    units: [TermId; 3],
    seed: &mut u64,
) -> Option<Var> {
    let [x, y, z] = units;
    let x = random(terms, x, next(seed)).ok()?;
    let y = random(terms, y, next(seed)).ok()?;
    let z = random(terms, z, next(seed)).ok()?;
    added(alloc, terms, tab, &[x, y, z])
}

/// The coefficient of a unit in a form.
fn coefficient_of(parts: &[Part], unit: TermId) -> Frac {
    for place in 0..parts.len() {
        if parts[place].unit == unit {
            return parts[place].coefficient;
        }
    }
    Frac::whole(0)
}

/// The coefficient of a unit in the sum of nonbasic forms that is the row of a form.
fn summed(tab: &Tab, i: Var, unit: TermId) -> Result<Frac, Wide> {
    let mut sum = Frac::whole(0);
    for j in 0..tab.len() {
        if i < tab.len() && tab.is_basic(i) && !tab.is_basic(j) {
            let factor = coefficient_of(tab.form(j), unit);
            sum = sum.add(tab.row(i).at(j).mul(factor)?)?;
        }
    }
    Ok(sum)
}

/// Whether each row sums to its form at a unit.
fn fits(tab: &Tab, unit: TermId) -> bool {
    for i in 0..tab.len() {
        if tab.is_basic(i) {
            let Ok(sum) = summed(tab, i, unit) else {
                return false;
            };
            if sum != coefficient_of(tab.form(i), unit) {
                return false;
            }
        }
    }
    true
}

/// Exchanges forms that look random, and tells how many exchanges were made; None where a row doesn't fit.
fn exchange_many(tab: &mut Tab, units: [TermId; 3], seed: &mut u64, times: u64) -> Option<u64> {
    let mut made: u64 = 0;
    for _ in 0..times {
        let count = tab.len() as u64;
        if count == 0 {
            return None;
        }
        let i = (next(seed) % count) as usize;
        let j = (next(seed) % count) as usize;
        if let Some(Ok(())) = exchanged(tab, i, j) {
            made = made.saturating_add(1);
        }
        let [x, y, z] = units;
        if !fits(tab, x) || !fits(tab, y) || !fits(tab, z) {
            return None;
        }
    }
    Some(made)
}

/// How many exchanges were made in a system that looks random, after its last form joined; None where a row doesn't fit.
fn exchanges(alloc: Global, seed: &mut u64) -> Option<u64> {
    let mut terms = Terms::new(alloc).ok()?;
    let mut tab = Tab::new(alloc);
    let units = units(&mut terms, alloc).ok()?;
    for _ in 0..3 {
        add_random(alloc, &mut terms, &mut tab, units, seed);
    }
    exchange_many(&mut tab, units, seed, 20)?;
    add_random(alloc, &mut terms, &mut tab, units, seed);
    exchange_many(&mut tab, units, seed, 20)
}

/// Whether the rows of some systems fit, and each of them has exchanges.
fn all_fit(alloc: Global, systems: u64) -> bool {
    let mut seed: u64 = 2006;
    for _ in 0..systems {
        let made = exchanges(alloc, &mut seed);
        if made.is_none() || made == Some(0) {
            return false;
        }
    }
    true
}

#[test]
fn test_rows_fit_their_forms(rt: HostRuntime) -> Result<(), Fail> {
    assert!(rt; all_fit(rt.alloc(), 12));
    Ok(())
}
