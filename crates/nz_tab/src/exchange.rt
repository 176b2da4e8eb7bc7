//! What an exchange makes of rows, coefficient by coefficient by rising numbers of the nonbasic forms.
ghost use Rattle.std.specs.Prelude.{◌≡◌, ◌<◌, ◌≤◌, ◌+◌, ◌≢◌, OnOk, pos, false, length, map, vec_len, vec_capacity};
ghost use Rattle.nz_spec.specs.simplex.Basis.{Coefficients};
ghost use Rattle.nz_spec.specs.numbers.Computation.{and_then, operated};
ghost use Rattle.nz_fractions.specs.Fraction.{Product, Quotient, Sum, whole};
ghost use Rattle.nz_spec.specs.terms.Term.{is_zero};
ghost use Rattle.nz_tab.specs.Comes.{Comes, IsOperated};
ghost use Rattle.nz_tab.specs.Each.{behind};
ghost use Rattle.nz_tab.specs.Exchanges.{solved_part, solved_parts, solved_row, sum_row};
ghost use Rattle.nz_tab.specs.Rows.{coefficient};

use crate::row::{Row, Var, is_none};
use nz_frac::{Frac, Wide};
use nz_fractions::zeros_are_never_wide;
use std::alloc::Global;

/// A row solved for the form that enters, at which its coefficient isn't 0: the coefficients at these forms, of which
/// one is the form that leaves.
pub(crate) fn solve(
    solved: &mut Vec<Frac>,
    row: &Row<'_>,
    columns: &[Var],
    leaves: Var,
    enters: Var,
) -> Result<(), Wide>
    requires room { length columns.now ≤ vec_capacity solved.old }
    requires nonzero { is_zero (coefficient row.now enters) ≡ false }
    ensures solved { Comes (solved_row columns.now leaves enters (coefficient row.now)) solved.new.items result }
    ensures capacity { vec_capacity solved.new ≡ vec_capacity solved.old }
{
    solved.clear();
    let divisor = row.at(enters);
    prove!(!divisor.is_zero());
    let inverse = reciprocal(divisor)?;
    put_solved(solved, row, columns, leaves, divisor, inverse)
}

/// 1 by a number.
#[tactic(auto, unfolding(nz_fractions::specs::Fraction::first_wide))]
fn reciprocal(number: Frac) -> Result<Frac, Wide>
    requires nonzero { number.numerator ≢ pos 0 }
    ensures quotient { IsOperated (operated Quotient (whole (pos 1)) number) result }
{
    Frac::whole(1).div(number)
}

/// Puts the coefficients of the form that enters behind others.
fn put_solved(
    solved: &mut Vec<Frac>,
    row: &Row<'_>,
    columns: &[Var],
    leaves: Var,
    divisor: Frac,
    inverse: Frac,
) -> Result<(), Wide>
    requires room { vec_len solved.old + length columns.now ≤ vec_capacity solved.old }
    requires nonzero { divisor.numerator ≢ pos 0 }
    ensures put { Comes (behind solved.old.items (solved_parts columns.now leaves divisor inverse (coefficient row.now))) solved.new.items result }
    ensures capacity { vec_capacity solved.new ≡ vec_capacity solved.old }
{
    for column in columns {
        solved.push_reserved(solved_part(row, leaves, divisor, inverse, *column)?);
    }
    Ok(())
}

/// The coefficient of the form that enters at one column.
#[tactic(auto, unfolding(nz_fractions::specs::Fraction::first_wide))]
fn solved_part(
    row: &Row<'_>,
    leaves: Var,
    divisor: Frac,
    inverse: Frac,
    column: Var,
) -> Result<Frac, Wide>
    requires nonzero { divisor.numerator ≢ pos 0 }
    ensures part { IsOperated (solved_part leaves divisor inverse (coefficient row.now) column) result }
{
    if column == leaves {
        return Ok(inverse);
    }
    Ok(row.at(column).div(divisor)?.neg())
}

/// Puts the sum of a row and a multiple of another one behind others.
pub(crate) fn put_sum(
    rows: &mut Vec<Frac>,
    row: &Row<'_>,
    columns: &[Var],
    factor: Frac,
    other: &[Frac],
) -> Result<(), Wide>
    requires width { length other.now ≡ length columns.now }
    requires room { vec_len rows.old + length columns.now ≤ vec_capacity rows.old }
    ensures put { (d : Coefficients) → other.now ≡ map d columns.now → Comes (behind rows.old.items (sum_row columns.now factor d (coefficient row.now))) rows.new.items result }
    ensures long { OnOk result (vec_len rows.new ≡ vec_len rows.old + length columns.now) }
    ensures capacity { vec_capacity rows.new ≡ vec_capacity rows.old }
{
    for place in 0..columns.len() {
        rows.push_reserved(with_multiple(row.at(columns[place]), factor, other[place])?);
    }
    Ok(())
}

/// A number and a multiple of another one. Nothing is computed of 0, which most coefficients of a row are.
#[tactic(auto, unfolding(nz_fractions::specs::Fraction::first_wide))]
pub(crate) fn with_multiple(number: Frac, factor: Frac, other: Frac) -> Result<Frac, Wide>
    ensures sum { IsOperated (and_then (operated Product factor other) (λ p. operated Sum number p)) result }
{
    if is_none(other) {
        zeros_are_never_wide();
        // Its numerator is read, so that it is known to be in lowest terms.
        let _ = number.num();
        return Ok(number);
    }
    let product = factor.mul(other)?;
    number.add(product)
}
