//! Whether clauses are true, where terms have these values.
use nz_frac::{Frac, Op, Wide};
use nz_lin::Bound;
use nz_log::{Lit, Literal, Log};
use nz_term::{ArithmeticStop, TermId};

/// The values of numbers and the truths of Boolean terms.
#[derive(Clone, Copy, Debug)]
pub(crate) struct Values<'a> {
    pub(crate) numbers: &'a [(TermId, Frac)],
    pub(crate) truths: &'a [(TermId, bool)],
}

impl Values<'_> {
    /// The value of a number, 0 where none is told.
    fn number(&self, term: TermId) -> Frac {
        for i in 0..self.numbers.len() {
            if self.numbers[i].0 == term {
                return self.numbers[i].1;
            }
        }
        Frac::whole(0)
    }

    /// Whether a Boolean term is true.
    fn is_true(&self, term: TermId) -> bool {
        for i in 0..self.truths.len() {
            if self.truths[i].0 == term {
                return self.truths[i].1;
            }
        }
        false
    }
}

/// Whether a sum is at most its limit, or below it.
fn is_met(values: &Values<'_>, bound: &Bound) -> Result<bool, Wide> {
    let mut sum = Frac::whole(0);
    for part in bound.parts() {
        sum = sum.add(part.coefficient.mul(values.number(part.unit))?)?;
    }
    if bound.is_strict() {
        Ok(sum < bound.limit())
    } else {
        Ok(sum <= bound.limit())
    }
}

/// Whether a literal is true.
fn is_literal_true(values: &Values<'_>, literal: &Literal<'_>) -> Result<bool, Wide> {
    match literal {
        Literal::Term(lit) => Ok(values.is_true(lit.term) == lit.sign),
        Literal::AtMost(bound, sign) => Ok(is_met(values, bound)? == *sign),
    }
}

/// Whether a clause is true.
fn is_clause_true(values: &Values<'_>, log: &Log, clause: &[Lit]) -> Result<bool, Wide> {
    for i in 0..clause.len() {
        if is_literal_true(values, &log.literal(clause[i]))? {
            return Ok(true);
        }
    }
    Ok(false)
}

/// Whether all these clauses are true.
pub(crate) fn are_true(values: &Values<'_>, log: &Log, clauses: &[Vec<Lit>]) -> Result<bool, Wide> {
    for i in 0..clauses.len() {
        if !is_clause_true(values, log, &clauses[i])? {
            return Ok(false);
        }
    }
    Ok(true)
}

/// So many halves.
pub(crate) fn halves(count: i64) -> Frac {
    match Frac::of(count as i128, 2) {
        Some(number) => number,
        None => Frac::whole(0),
    }
}

/// Whether something stopped at the operation of this kind over these integers.
pub(crate) fn is_wide<T>(made: &Result<T, ArithmeticStop>, op: Op, a: i128, b: i128) -> bool {
    match made {
        Err(ArithmeticStop::Wide(wide)) => is_of(*wide, op, a, b),
        _ => false,
    }
}

/// Whether the operation is of this kind, over these integers.
fn is_of(wide: Wide, op: Op, a: i128, b: i128) -> bool {
    wide.op == op && wide.a.num() == a && wide.b.num() == b
}
