//! Forms in a table, for tests: what a call asks is tested here, so that tests have nothing to prove of it.
use nz_base::Memory;
use nz_frac::Wide;
use nz_lin::lin;
use nz_tab::{Tab, Var};
use nz_term::{NumberSort, Operator, Sort, TermId, Terms};
use nz_term_samples::{constant, operation};
use std::alloc::Global;

/// The units of these tests.
pub fn units(terms: &mut Terms, alloc: Global) -> Result<[TermId; 3], Memory> {
    let x = constant(alloc, terms, b"x", Sort::Real)?;
    let y = constant(alloc, terms, b"y", Sort::Real)?;
    let z = constant(alloc, terms, b"z", Sort::Real)?;
    Ok([x, y, z])
}

/// A natural number times a term.
pub fn times(terms: &mut Terms, number: u128, id: TermId) -> Result<TermId, Memory> {
    nz_term_samples::times(terms, NumberSort::Real, number, id)
}

/// The number of the form of a sum in the table.
pub fn added(alloc: Global, terms: &mut Terms, tab: &mut Tab, kids: &[TermId]) -> Option<Var> {
    let sum = operation(terms, Operator::Sum(NumberSort::Real), kids).ok()?;
    add_linear(alloc, terms, tab, sum)
}

/// The number of the form of a linear term in the table.
fn add_linear(alloc: Global, terms: &Terms, tab: &mut Tab, id: TermId) -> Option<Var> {
    if terms.len() <= id || !terms.is_linear(id) {
        return None;
    }
    let form = lin(alloc, terms, id).ok()?;
    tab.add_form(&form).ok()
}

/// Whether a row has a coefficient with this numerator and this denominator.
pub fn has(tab: &Tab, i: Var, j: Var, num: i128, den: i128) -> bool {
    if i >= tab.len() || !tab.is_basic(i) {
        return false;
    }
    let coefficient = tab.row(i).at(j);
    coefficient.num() == num && coefficient.den() == den
}

/// Exchanges two forms, where that may be.
pub fn exchanged(tab: &mut Tab, i: Var, j: Var) -> Option<Result<(), Wide>> {
    if i >= tab.len() || j >= tab.len() || !tab.is_basic(i) || tab.is_basic(j) {
        return None;
    }
    if tab.row(i).at(j).is_zero() {
        return None;
    }
    Some(tab.pivot(i, j))
}
