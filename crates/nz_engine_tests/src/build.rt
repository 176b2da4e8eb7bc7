//! The terms of formulas.

use crate::bench::Bench;
use crate::formula::Part;
use nz_base::Memory;
use nz_term::{NumberSort, Operator, Sort, TermId, TermLit};
use std::alloc::Global;

/// How many arguments a part has.
fn arity(part: Part) -> usize {
    match part {
        Part::Atom(_) | Part::Real(_) | Part::Tenths(_) | Part::True | Part::False => 0,
        Part::Not => 1,
        Part::And(count) | Part::Or(count) | Part::Sum(count) => count,
        Part::Xor | Part::Equal | Part::Less | Part::AtMost => 2,
        Part::Ite | Part::Choose => 3,
    }
}

/// The term of a part over these arguments, if it has as many.
fn term_over(bench: &mut Bench, part: Part, kids: &[TermId]) -> Result<Option<TermId>, Memory> {
    let operator = match part {
        Part::Atom(number) => return bench.constant(number, Sort::Bool),
        Part::Real(number) => return bench.constant(number, Sort::Real),
        Part::Tenths(tenths) => return bench.tenths(tenths),
        Part::True => Operator::True,
        Part::False => Operator::False,
        Part::Not => Operator::Not,
        Part::And(_) => Operator::And,
        Part::Or(_) => Operator::Or,
        Part::Xor => Operator::Xor,
        Part::Equal => Operator::Equal,
        Part::Ite => Operator::Ite(Sort::Bool),
        Part::Choose => Operator::Ite(Sort::Real),
        Part::Sum(_) => Operator::Sum(NumberSort::Real),
        Part::Less => Operator::Less,
        Part::AtMost => Operator::AtMost,
    };
    bench.make(operator, kids)
}

/// Puts the term of a part in the place of the last terms of the stack, which are its arguments. Answers whether there were as many.
fn step(bench: &mut Bench, part: Part, stack: &mut Vec<TermId>) -> Result<bool, Memory> {
    let Some(first) = stack.len().checked_sub(arity(part)) else {
        return Ok(false);
    };
    let term = term_over(bench, part, &stack[first..])?;
    stack.truncate(first);
    match term {
        Some(term) => {
            stack.push(term)?;
            Ok(true)
        }
        None => Ok(false),
    }
}

/// The term of a formula. A list that is no formula has none.
pub fn term_of(
    alloc: Global,
    bench: &mut Bench,
    formula: &[Part],
) -> Result<Option<TermId>, Memory> {
    let mut stack = Vec::new(alloc);
    for part in formula {
        if !step(bench, *part, &mut stack)? {
            return Ok(None);
        }
    }
    let last = stack.pop();
    Ok(if stack.is_empty() { last } else { None })
}

/// The literal that a formula is true: of one that ends with `Not`, that the rest is false.
fn literal_of(
    alloc: Global,
    bench: &mut Bench,
    formula: &[Part],
) -> Result<Option<TermLit>, Memory> {
    let (formula, sign) = match formula.split_last() {
        Some((Part::Not, front)) => (front, false),
        _ => (formula, true),
    };
    let term = term_of(alloc, bench, formula)?;
    Ok(term.map(|term| TermLit { term, sign }))
}

/// The literals that these formulas are true.
pub fn literals_of(
    alloc: Global,
    bench: &mut Bench,
    formulas: &[&'static [Part]],
) -> Result<Option<Vec<TermLit>>, Memory> {
    let mut literals = Vec::new(alloc);
    for formula in formulas {
        match literal_of(alloc, bench, formula)? {
            Some(literal) => literals.push(literal)?,
            None => return Ok(None),
        }
    }
    Ok(Some(literals))
}
