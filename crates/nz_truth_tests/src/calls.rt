//! Calls that ask something of numbers: it is tested here, and where it doesn't hold the answer fails the test.
use nz_base::Memory;
use nz_frac::{Op, Wide};
use nz_term::{ArithmeticStop, Assign, TermId, Terms, Value};
use nz_term_samples::{MOST, are_below};
use nz_truth::{Outcome, Values, eval, outcomes};
use std::alloc::Global;

/// Puts these pairs in an assignment.
fn assign_all(assign: &mut Assign, pairs: &[(TermId, bool)]) -> Result<(), Memory> {
    for (id, truth) in pairs {
        assign.push(*id, Value::Truth(*truth))?;
    }
    Ok(())
}

/// The values of these roots, or the operation that is the first of them to leave the numbers.
fn evaluated(
    alloc: Global,
    terms: &Terms,
    roots: &[TermId],
    assign: &Assign,
) -> Result<Result<Values, Wide>, Memory> {
    if !are_below(roots, terms.len()) {
        return Err(Memory);
    }
    match eval(alloc, terms, roots, assign) {
        Ok(values) => Ok(Ok(values)),
        Err(ArithmeticStop::Wide(wide)) => Ok(Err(wide)),
        Err(ArithmeticStop::Memory) => Err(Memory),
    }
}

/// Whether these are truth values, and the ones that are expected.
fn are_truths(values: &[Value], expected: &[bool]) -> bool {
    values.len() == expected.len()
        && values
            .iter()
            .zip(expected)
            .all(|(value, truth)| *value == Value::Truth(*truth))
}

/// Whether these roots have the truth values that are expected, by this assignment.
fn have_values_by(
    alloc: Global,
    terms: &Terms,
    roots: &[TermId],
    assign: &Assign,
    expected: &[bool],
) -> Result<bool, Memory> {
    match evaluated(alloc, terms, roots, assign)? {
        Ok(values) => Ok(are_truths(values.as_slice(), expected)),
        Err(_) => Ok(false),
    }
}

/// Whether these roots have the truth values that are expected, where these pairs are assigned.
pub(crate) fn have_values(
    alloc: Global,
    terms: &Terms,
    roots: &[TermId],
    pairs: &[(TermId, bool)],
    expected: &[bool],
) -> Result<bool, Memory> {
    let mut assign = Assign::new(alloc)?;
    assign_all(&mut assign, pairs)?;
    have_values_by(alloc, terms, roots, &assign, expected)
}

/// Whether this is an operation on M and this number.
fn is_wide(wide: &Wide, op: Op, right: i128) -> bool {
    wide.op == op && wide.a.num() == MOST as i128 && wide.b.num() == right
}

/// Whether the first operation of these roots to leave the numbers is one on M and this number, where nothing is assigned.
pub(crate) fn leaves_numbers(
    alloc: Global,
    terms: &Terms,
    roots: &[TermId],
    op: Op,
    right: i128,
) -> Result<bool, Memory> {
    let assign = Assign::new(alloc)?;
    match evaluated(alloc, terms, roots, &assign)? {
        Ok(_) => Ok(false),
        Err(wide) => Ok(is_wide(&wide, op, right)),
    }
}

/// Whether this is an integer, and the one that is expected.
fn is(outcome: &Outcome, expected: i128) -> bool {
    match outcome {
        Outcome::Value(Value::Number(number)) => number.num() == expected && number.den() == 1,
        _ => false,
    }
}

/// Whether a term comes to the integer that is expected, where nothing is assigned.
pub(crate) fn comes_to(
    alloc: Global,
    terms: &Terms,
    root: TermId,
    expected: i128,
) -> Result<bool, Memory> {
    if terms.len() <= root {
        return Err(Memory);
    }
    let assign = Assign::new(alloc)?;
    let found = outcomes(alloc, terms, &[root], &assign)?;
    Ok(found.first().is_some_and(|outcome| is(outcome, expected)))
}
