//! The rows of the unit table: what a unit with arguments stands for.
ghost use Rattle.std.specs.Prelude.{◌≡◌, ◌<◌, ◌∷◌, [], All, IsTrue, length};
ghost use Rattle.nz_spec.specs.terms.FormOf.{number_in};
ghost use Rattle.nz_spec.specs.terms.Linear.{constant_value, is_linear};
ghost use Rattle.nz_spec.specs.terms.Order.{HasCompanions};
ghost use Rattle.nz_spec.specs.terms.Table.{term_in, terms_at};
ghost use Rattle.nz_spec.specs.terms.Term.{apply, to_int};
ghost use Rattle.nz_spec.specs.clauses.Units.{greatest_remainder, magnitude_rows, quotient_rows, remainder_rows, units_over};
ghost use Rattle.nz_term.specs.Heads.{head_of};
ghost use Rattle.nz_rows.specs.Meanings.{IsMeaning, choice_rows, equal_rows};
ghost use Rattle.nz_rows.specs.Rows.{ComeOfRows, IsLinearIn, unit_rows};
ghost use Rattle.nz_term.specs.TermLits.{literal_of};

use crate::bounds::{
    Opposites, at_most_number, at_most_zero, below_number, copied, differences, form_of, minus,
    opposite, plus, term_differences, times, unit_alone, units_at_most,
};
use crate::rows::{RowLiteral, Rows, alone, both, joined, no_rows, pair, then_row, two_rows};
use crate::terms::listed;
use nz_frac::Frac;
use nz_term::{ArithmeticStop, Head, Operator, Sort, TermId, TermLit, Terms, known_table};
use std::alloc::Global;

/// What a unit with arguments stands for, by the numbers of these.
#[derive(Clone, Copy, Debug)]
pub(crate) enum Meaning {
    /// By a condition, one of two numbers.
    Choice(TermId, TermId, TermId),
    /// Of a number by a constant.
    Quotient(TermId, TermId),
    /// Of a number by a constant.
    Remainder(TermId, TermId),
    Size(TermId),
    /// The greatest integer within a number.
    Rounded(TermId),
}

/// The rows of the unit table of a term, in their order.
///
/// # Errors
///
/// `Wide` with the first operation of the rows' forms that leaves the numbers; `Memory`.
#[tactic(auto, using(crate::proofs::LinearArguments::first_linear, crate::proofs::LinearArguments::left_linear, crate::proofs::LinearArguments::right_linear))]
pub fn unit_rows(
    alloc: Global,
    terms: &Terms,
    term: TermId,
) -> Result<Vec<Vec<RowLiteral>>, ArithmeticStop>
    requires within { term < length terms.now }
    requires linear { IsTrue (is_linear (term_in terms.now term)) }
    requires companions { HasCompanions terms.now }
    ensures rows { ComeOfRows terms.now (unit_rows terms.now (term_in terms.now term)) result }
{
    match meaning_of(terms, term) {
        Some(Meaning::Choice(condition, left, right)) => {
            choice_rows(alloc, terms, term, condition, left, right)
        }
        Some(Meaning::Quotient(dividend, divisor)) => {
            quotient_rows(alloc, terms, term, dividend, divisor)
        }
        Some(Meaning::Remainder(dividend, divisor)) => {
            let quotient = listed(terms, Operator::Div, &[dividend, divisor])?;
            remainder_rows(alloc, terms, term, quotient, dividend, divisor)
        }
        Some(Meaning::Size(argument)) => magnitude_rows(alloc, terms, term, argument),
        Some(Meaning::Rounded(argument)) => rounded_rows(alloc, terms, term, argument),
        None => no_rows(alloc),
    }
}

/// What a term stands for, if it is a unit with arguments.
fn meaning_of(terms: &Terms, term: TermId) -> Option<Meaning>
    requires within { term < length terms.now }
    ensures meaning { IsMeaning terms.now (term_in terms.now term) result }
{
    let node = terms.node(term);
    meaning_over(terms, node.head, node.kids)
}

/// The same of the term of this head over these arguments.
fn meaning_over(terms: &Terms, head: Head<'_>, kids: &[TermId]) -> Option<Meaning>
    requires within { All (λ k. k < length terms.now) kids.now }
    ensures meaning { IsMeaning terms.now (apply (head_of head.entry) (terms_at (term_in terms.now) kids.now)) result }
{
    let Head::Operator(operator) = head else {
        return None;
    };
    match operator {
        Operator::Ite(Sort::Bool) => None,
        Operator::Ite(_) => match kids {
            [condition, left, right] => Some(Meaning::Choice(*condition, *left, *right)),
            _ => None,
        },
        Operator::Div => match kids {
            [dividend, divisor] => match terms.constant(*divisor) {
                Some(_) => Some(Meaning::Quotient(*dividend, *divisor)),
                None => None,
            },
            _ => None,
        },
        Operator::Mod => match kids {
            [dividend, divisor] => match terms.constant(*divisor) {
                Some(_) => Some(Meaning::Remainder(*dividend, *divisor)),
                None => None,
            },
            _ => None,
        },
        Operator::Abs => match kids {
            [argument] => Some(Meaning::Size(*argument)),
            _ => None,
        },
        Operator::ToInt => match kids {
            [argument] => Some(Meaning::Rounded(*argument)),
            _ => None,
        },
        _ => None,
    }
}

/// The rows of a choice between numbers: the unit is the left one, or the right one.
fn choice_rows(
    alloc: Global,
    terms: &Terms,
    unit: TermId,
    condition: TermId,
    left: TermId,
    right: TermId,
) -> Rows
    requires condition { condition < length terms.now }
    requires unit { IsLinearIn terms.now unit }
    requires left { IsLinearIn terms.now left }
    requires right { IsLinearIn terms.now right }
    ensures rows { ComeOfRows terms.now (choice_rows (number_in terms.now) (term_in terms.now unit) (term_in terms.now condition) (term_in terms.now left) (term_in terms.now right)) result }
{
    let chosen = equal_rows(alloc, terms, TermLit::fails(condition), unit, left);
    joined(
        chosen,
        equal_rows(alloc, terms, TermLit::holds(condition), unit, right),
    )
}

/// The rows by which a literal is true, or two numbers are one.
#[tactic(auto, using(crate::proofs::Operations::stop_before))]
fn equal_rows(alloc: Global, terms: &Terms, literal: TermLit, left: TermId, right: TermId) -> Rows
    requires literal { literal.term < length terms.now }
    requires left { IsLinearIn terms.now left }
    requires right { IsLinearIn terms.now right }
    ensures rows { ComeOfRows terms.now (equal_rows (number_in terms.now) (literal_of terms.now literal) (term_in terms.now left) (term_in terms.now right)) result }
{
    let Opposites { forward, backward } = term_differences(alloc, terms, left, right)?;
    let below = pair(alloc, literal, at_most_zero(Ok(forward)));
    let above = pair(alloc, literal, at_most_zero(Ok(backward)));
    two_rows(alloc, below, above)
}

/// The rows of a quotient by a constant: the unit times the divisor is at most the dividend, and less by at most the greatest remainder.
fn quotient_rows(
    alloc: Global,
    terms: &Terms,
    unit: TermId,
    dividend: TermId,
    divisor: TermId,
) -> Rows
    requires unit { unit < length terms.now }
    requires dividend { IsLinearIn terms.now dividend }
    requires divisor { divisor < length terms.now }
    ensures rows { ComeOfRows terms.now (quotient_rows (number_in terms.now) (term_in terms.now unit) (term_in terms.now dividend) (constant_value (term_in terms.now divisor))) result }
{
    known_table(terms);
    let Some(factor) = terms.constant(divisor) else {
        return no_rows(alloc);
    };
    let multiple = times(alloc, terms, factor, unit);
    let Opposites { forward, backward } = differences(
        alloc,
        multiple,
        form_of(alloc, terms, dividend),
    )?;
    let rest = at_most_number(Ok(backward), greatest_remainder(factor));
    let within = at_most_zero(Ok(forward));
    two_rows(alloc, alone(alloc, within), alone(alloc, rest))
}

/// The rows of a remainder by a constant, beside the quotient: it is the dividend less the quotient times the divisor, and from 0 to the
/// greatest remainder.
fn remainder_rows(
    alloc: Global,
    terms: &Terms,
    unit: TermId,
    quotient: TermId,
    dividend: TermId,
    divisor: TermId,
) -> Rows
    requires unit { unit < length terms.now }
    requires quotient { quotient < length terms.now }
    requires dividend { IsLinearIn terms.now dividend }
    requires divisor { divisor < length terms.now }
    ensures rows { ComeOfRows terms.now (remainder_rows (number_in terms.now) (term_in terms.now unit) (term_in terms.now quotient) (term_in terms.now dividend) (constant_value (term_in terms.now divisor))) result }
{
    known_table(terms);
    let Some(factor) = terms.constant(divisor) else {
        return no_rows(alloc);
    };
    let form = form_of(alloc, terms, dividend);
    let multiple = times(alloc, terms, factor, quotient);
    let own = unit_alone(alloc, terms, unit);
    let rest = minus(copied(alloc, &form), copied(alloc, &multiple));
    let least = at_most_zero(minus(rest, copied(alloc, &own)));
    let sum = plus(copied(alloc, &own), multiple);
    let most = at_most_zero(minus(sum, form));
    let signed = at_most_zero(opposite(alloc, copied(alloc, &own)));
    let limited = units_at_most(own, greatest_remainder(factor));
    let equal = two_rows(alloc, alone(alloc, least), alone(alloc, most));
    joined(
        equal,
        two_rows(alloc, alone(alloc, signed), alone(alloc, limited)),
    )
}

/// The rows of a size: it is at least the number and its opposite, and at most one of them.
fn magnitude_rows(alloc: Global, terms: &Terms, unit: TermId, argument: TermId) -> Rows
    requires unit { IsLinearIn terms.now unit }
    requires argument { IsLinearIn terms.now argument }
    ensures rows { ComeOfRows terms.now (magnitude_rows (number_in terms.now) (term_in terms.now unit) (term_in terms.now argument)) result }
{
    known_table(terms);
    let form = form_of(alloc, terms, argument);
    let own = unit_alone(alloc, terms, unit);
    let Opposites { forward, backward } = differences(
        alloc,
        copied(alloc, &form),
        form_of(alloc, terms, unit),
    )?;
    let negated = minus(opposite(alloc, copied(alloc, &form)), copied(alloc, &own));
    let first = alone(alloc, at_most_zero(Ok(forward)));
    let second = alone(alloc, at_most_zero(negated));
    let within = at_most_zero(Ok(backward));
    let third = both(alloc, within, at_most_zero(plus(own, form)));
    then_row(two_rows(alloc, first, second), third)
}

/// The rows of a number rounded down: it is at most the number, which is above it by less than 1.
fn rounded_rows(alloc: Global, terms: &Terms, unit: TermId, argument: TermId) -> Rows
    requires unit { IsLinearIn terms.now unit }
    requires argument { IsLinearIn terms.now argument }
    ensures rows { ComeOfRows terms.now (units_over (number_in terms.now) (term_in terms.now unit) to_int (term_in terms.now argument ∷ [])) result }
{
    known_table(terms);
    let form = form_of(alloc, terms, argument);
    let within = minus(form_of(alloc, terms, unit), copied(alloc, &form));
    let rest = minus(form, unit_alone(alloc, terms, unit));
    let first = alone(alloc, at_most_zero(within));
    let second = alone(alloc, below_number(rest, Frac::whole(1)));
    two_rows(alloc, first, second)
}

/// The greatest remainder of a division by a number.
fn greatest_remainder(divisor: Frac) -> Frac
    ensures remainder { result ≡ greatest_remainder divisor }
{
    let size = divisor.floor().num().unsigned_abs();
    Frac::integer(size as i128 - 1)
}
