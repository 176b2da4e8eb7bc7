//! Terms to test with: what `Terms::make` asks of a head and of numbers is tested here, so that tests have nothing to prove of it. Where it
//! doesn't hold, the answer is `Memory`, which fails the test. Nothing is said of what is made: tests look at it.
#![tactic(auto)]

ghost use Rattle.std.specs.Prelude.{◌<◌, All};
ghost use Rattle.std.specs.Bool.{OnTrue};

use nz_base::{Memory, Text};
use nz_term::{Constant, Head, NumberSort, Operator, Sort, TermId, Terms, operators_are_no_leaves};
use std::alloc::Global;

/// The largest number.
pub const MOST: u128 = 170141183460469231731687303715884105727;

/// A term of a list, in which each has its place as its number: no term stands in it twice.
pub enum Term {
    /// The constant of this letter and sort.
    Constant(u8, Sort),
    Number(u128),
    /// The decimal of so many tenths.
    Tenths(u128),
    /// An operator over terms before it.
    Over(Operator, &'static [TermId]),
}

/// Makes a term.
fn make(alloc: Global, terms: &mut Terms, term: &Term) -> Result<TermId, Memory> {
    match term {
        Term::Constant(letter, sort) => constant(alloc, terms, &[*letter], *sort),
        Term::Number(number) => numeral(terms, *number),
        Term::Tenths(tenths) => leaf(terms, Head::Decimal(*tenths, 1)),
        Term::Over(operator, arguments) => operation(terms, *operator, arguments),
    }
}

/// Makes the terms of a list. Fails where some term isn't new.
pub fn make_all(alloc: Global, terms: &mut Terms, list: &[Term]) -> Result<(), Memory> {
    for (place, term) in list.iter().enumerate() {
        if make(alloc, terms, term)? != place {
            return Err(Memory);
        }
    }
    Ok(())
}

/// The term of a head without arguments.
pub fn leaf(terms: &mut Terms, head: Head<'_>) -> Result<TermId, Memory> {
    if !head.fits() {
        return Err(Memory);
    }
    terms.make(head, &[])
}

/// The term of the constant of this name and sort.
pub fn constant(
    alloc: Global,
    terms: &mut Terms,
    name: &[u8],
    sort: Sort,
) -> Result<TermId, Memory> {
    let name = Text::from_slice(alloc, name)?;
    leaf(terms, Head::Constant(&Constant { name, sort }))
}

/// The term of an operator over these.
pub fn operation(
    terms: &mut Terms,
    operator: Operator,
    arguments: &[TermId],
) -> Result<TermId, Memory> {
    operators_are_no_leaves();
    if !are_below(arguments, terms.len()) {
        return Err(Memory);
    }
    terms.make(Head::Operator(operator), arguments)
}

/// A numeral, of at most the largest number.
pub fn numeral(terms: &mut Terms, number: u128) -> Result<TermId, Memory> {
    leaf(terms, Head::Integer(number))
}

/// An integer: a numeral, or the negation of one.
pub fn integer(terms: &mut Terms, n: i64) -> Result<TermId, Memory> {
    let size = numeral(terms, n.unsigned_abs() as u128)?;
    if n < 0 {
        operation(terms, Operator::Difference(NumberSort::Int), &[size])
    } else {
        Ok(size)
    }
}

/// The negation of the negation .. of `p`.
pub fn negations(alloc: Global, terms: &mut Terms, count: usize) -> Result<TermId, Memory> {
    let mut last = constant(alloc, terms, b"p", Sort::Bool)?;
    for _ in 0..count {
        last = operation(terms, Operator::Not, &[last])?;
    }
    Ok(last)
}

/// A natural number times a term of this sort of numbers.
pub fn times(
    terms: &mut Terms,
    sort: NumberSort,
    number: u128,
    id: TermId,
) -> Result<TermId, Memory> {
    let factor = numeral(terms, number)?;
    operation(terms, Operator::Product(sort), &[factor, id])
}

/// An integer times a term of this sort of numbers.
pub fn multiple(
    terms: &mut Terms,
    sort: NumberSort,
    number: i64,
    id: TermId,
) -> Result<TermId, Memory> {
    let size = times(terms, sort, number.unsigned_abs() as u128, id)?;
    if number < 0 {
        operation(terms, Operator::Difference(sort), &[size])
    } else {
        Ok(size)
    }
}

/// Whether each of these is below this number.
pub fn are_below(ids: &[TermId], count: usize) -> bool
    ensures below { OnTrue result (All (λ k. k < count) ids.now) }
{
    for i in 0..ids.len() {
        if count <= ids[i] {
            return false;
        }
    }
    true
}
