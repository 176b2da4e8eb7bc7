//! What forms are made of.
use crate::terms::{Wrong, form, form_among};
use nz_base::Memory;
use nz_frac::Frac;
use nz_lin::{Form, Part, lin_difference};
use nz_term::{ArithmeticStop, NumberSort, Operator, Sort, TermId, Terms};
use nz_term_samples::Term::{self, Constant, Number, Over};
use nz_term_samples::{constant, make_all, operation};
use std::alloc::Global;
use std::test::Fail;

/// A unit by its number, with its sort, and its coefficient's numerator and denominator.
struct Wanted(TermId, Sort, i128, i128);

/// Terms, and the form of one of them: its parts, and the number that it adds.
struct Row {
    terms: &'static [Term],
    of: TermId,
    parts: &'static [Wanted],
    offset: (i128, i128),
}

fn is_number(number: Frac, num: i128, den: i128) -> bool {
    number.num() == num && number.den() == den
}

fn is_part(part: &Part, wanted: &Wanted) -> bool {
    part.unit == wanted.0
        && part.sort == wanted.1
        && is_number(part.coefficient, wanted.2, wanted.3)
}

/// Fails at the first part that is another. Where their count is another, that is the place of what is missing or too much.
fn has_parts(parts: &[Part], wanted: &[Wanted]) -> Result<(), Wrong> {
    for (place, (part, wanted)) in parts.iter().zip(wanted).enumerate() {
        if !is_part(part, wanted) {
            return Err(Wrong { place });
        }
    }
    if parts.len() == wanted.len() {
        Ok(())
    } else {
        Err(Wrong {
            place: parts.len().min(wanted.len()),
        })
    }
}

/// Fails where a form has another part or adds another number.
fn is_made(form: &Form, parts: &[Wanted], offset: (i128, i128)) -> Result<(), Fail> {
    has_parts(form.parts(), parts)?;
    if is_number(form.offset(), offset.0, offset.1) {
        Ok(())
    } else {
        Err(Fail::new("another offset"))
    }
}

/// Fails where the form of the row's term is another.
fn makes(alloc: Global, row: &Row) -> Result<(), Fail> {
    let mut terms = Terms::new(alloc)?;
    let form = form_among(alloc, &mut terms, row.terms, row.of)?;
    is_made(&form, row.parts, row.offset)
}

const REAL_SUM: Operator = Operator::Sum(NumberSort::Real);

const REAL_PRODUCT: Operator = Operator::Product(NumberSort::Real);

const REAL_DIFFERENCE: Operator = Operator::Difference(NumberSort::Real);

/// `(+ (* y 2) (/ x 2) 3 x)` (6), and that less y twice (7).
const SUMS: &[Term] = &[
    Constant(b'x', Sort::Real),
    Constant(b'y', Sort::Real),
    Number(2),
    Number(3),
    Over(REAL_PRODUCT, &[1, 2]),
    Over(Operator::Quotient, &[0, 2]),
    Over(REAL_SUM, &[4, 5, 3, 0]),
    Over(REAL_DIFFERENCE, &[6, 1, 1]),
];

const SUM: Row = Row {
    terms: SUMS,
    of: 6,
    parts: &[Wanted(0, Sort::Real, 3, 2), Wanted(1, Sort::Real, 2, 1)],
    offset: (3, 1),
};

#[test]
fn test_a_sum_has_each_unit_once(rt: HostRuntime) -> Result<(), Fail> {
    makes(rt.alloc(), &SUM)
}

const DIFFERENCE: Row = Row {
    terms: SUMS,
    of: 7,
    parts: &[Wanted(0, Sort::Real, 3, 2)],
    offset: (3, 1),
};

#[test]
fn test_a_unit_goes_with_the_coefficient_0(rt: HostRuntime) -> Result<(), Fail> {
    makes(rt.alloc(), &DIFFERENCE)
}

/// `(- (/ (* 2 u 3) (- 4)))`, where the unit is the choice in `(to_real (ite b i j))`.
const CHOICE: Row = Row {
    terms: &[
        Constant(b'b', Sort::Bool),
        Constant(b'i', Sort::Int),
        Constant(b'j', Sort::Int),
        Over(Operator::Ite(Sort::Int), &[0, 1, 2]),
        Over(Operator::ToReal, &[3]),
        Number(2),
        Number(3),
        Number(4),
        Over(REAL_DIFFERENCE, &[7]),
        Over(REAL_PRODUCT, &[5, 4, 6]),
        Over(Operator::Quotient, &[9, 8]),
        Over(REAL_DIFFERENCE, &[10]),
    ],
    of: 11,
    parts: &[Wanted(3, Sort::Int, 3, 2)],
    offset: (0, 1),
};

#[test]
fn test_a_choice_is_a_unit(rt: HostRuntime) -> Result<(), Fail> {
    makes(rt.alloc(), &CHOICE)
}

const NEGATED: Row = Row {
    terms: &[Number(7), Over(Operator::Difference(NumberSort::Int), &[0])],
    of: 1,
    parts: &[],
    offset: (-7, 1),
};

#[test]
fn test_a_constant_term_is_a_number(rt: HostRuntime) -> Result<(), Fail> {
    makes(rt.alloc(), &NEGATED)
}

/// A chain of sums over a constant, each of the one before with itself.
fn chain(alloc: Global, terms: &mut Terms, depth: usize) -> Result<TermId, Memory> {
    let mut sum = constant(alloc, terms, b"x", Sort::Real)?;
    for _ in 0..depth {
        sum = operation(terms, REAL_SUM, &[sum, sum])?;
    }
    Ok(sum)
}

/// The form of such a chain.
fn form_of_chain(alloc: Global, terms: &mut Terms, depth: usize) -> Result<Form, ArithmeticStop> {
    let last = chain(alloc, terms, depth)?;
    form(alloc, terms, last)
}

#[test]
fn test_a_shared_term_is_opened_once(rt: HostRuntime) -> Result<(), Fail> {
    let mut terms = Terms::new(rt.alloc())?;
    let form = form_of_chain(rt.alloc(), &mut terms, 100)?;
    is_made(&form, &[Wanted(0, Sort::Real, 1 << 100, 1)], (0, 1))
}

/// `x` and `2 * x`.
const TWICE: &[Term] = &[
    Constant(b'x', Sort::Int),
    Number(2),
    Over(Operator::Product(NumberSort::Int), &[1, 0]),
];

/// The form of `x` less `2 * x`.
fn difference(alloc: Global, terms: &mut Terms) -> Result<Form, ArithmeticStop> {
    make_all(alloc, terms, TWICE)?;
    if terms.len() <= 2 || !terms.is_linear(0) || !terms.is_linear(2) {
        return Err(ArithmeticStop::Memory);
    }
    lin_difference(alloc, terms, 0, 2)
}

#[test]
fn test_a_term_less_another_has_their_units(rt: HostRuntime) -> Result<(), Fail> {
    let mut terms = Terms::new(rt.alloc())?;
    let form = difference(rt.alloc(), &mut terms)?;
    is_made(&form, &[Wanted(0, Sort::Int, -1, 1)], (0, 1))
}
