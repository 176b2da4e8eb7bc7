//! The clauses of a term by the link table or the unit table.
ghost use Rattle.std.specs.Prelude.{◌<◌, IsTrue, length};
ghost use Rattle.nz_spec.specs.terms.Linear.{is_linear};
ghost use Rattle.nz_spec.specs.terms.Order.{HasCompanions};
ghost use Rattle.nz_spec.specs.terms.Table.{term_in};

use crate::rows::{link_row, unit_row};
use crate::terms::complete;
use crate::values::is_wide;
use nz_base::Memory;
use nz_frac::Op;
use nz_log::{Lit, Log};
use nz_rows::{link_rows, unit_rows};
use nz_term::{ArithmeticStop, TermId, Terms};
use nz_term_samples::{MOST, Term, make_all};
use std::alloc::Global;

/// A table with rows on linear terms.
#[derive(Clone, Copy, Debug)]
pub(crate) enum Table {
    Links,
    Units,
}

/// What the clause of a row says.
fn clause(
    alloc: Global,
    log: &mut Log,
    terms: &Terms,
    table: Table,
    term: TermId,
    j: usize,
) -> Result<Vec<Lit>, ArithmeticStop>
    requires within { term < length terms.now }
    requires linear { IsTrue (is_linear (term_in terms.now term)) }
    requires companions { HasCompanions terms.now }
{
    match table {
        Table::Links => {
            let row = link_row(alloc, terms, term, j)?;
            let id = log.link(terms, term, j, row)?;
            Ok(Vec::from_slice(alloc, log.clause(id))?)
        }
        Table::Units => {
            let row = unit_row(alloc, terms, term, j)?;
            let id = log.unit_axiom(terms, term, j, row)?;
            Ok(Vec::from_slice(alloc, log.clause(id))?)
        }
    }
}

/// What the clauses of a term of a list say, where it is linear. The companions that they name join the terms.
fn clauses(
    alloc: Global,
    log: &mut Log,
    terms: &mut Terms,
    table: Table,
    list: &[Term],
    term: TermId,
) -> Result<Vec<Vec<Lit>>, ArithmeticStop> {
    make_all(alloc, terms, list)?;
    complete(alloc, terms)?;
    if terms.len() <= term || !terms.is_linear(term) {
        return Err(ArithmeticStop::Memory);
    }
    let count = match table {
        Table::Links => link_rows(alloc, terms, term)?.len(),
        Table::Units => unit_rows(alloc, terms, term)?.len(),
    };
    let mut clauses = Vec::new(alloc);
    for j in 0..count {
        clauses.push(clause(alloc, log, terms, table, term, j)?)?;
    }
    Ok(clauses)
}

/// The same over terms of its own.
pub(crate) fn clauses_of(
    alloc: Global,
    log: &mut Log,
    table: Table,
    list: &[Term],
    term: TermId,
) -> Result<Vec<Vec<Lit>>, ArithmeticStop> {
    let mut terms = Terms::new(alloc)?;
    clauses(alloc, log, &mut terms, table, list, term)
}

/// Whether making them stops at the operation of this kind over the largest number and this one.
pub(crate) fn stops_at(
    alloc: Global,
    table: Table,
    list: &[Term],
    term: TermId,
    op: Op,
    other: i128,
) -> Result<bool, Memory> {
    let mut log = Log::new(alloc)?;
    let made = clauses_of(alloc, &mut log, table, list, term);
    Ok(is_wide(&made, op, MOST as i128, other))
}
