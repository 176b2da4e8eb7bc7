//! Values of forms: how they follow a nonbasic form that moves, and how one is computed from its row.
ghost use Rattle.std.specs.Prelude.{◌≡◌, ◌≢◌, ◌<◌, ℕ, All, IfOk, IfSome, IsSome, Some, None, true, false, length, slice_index_or};
ghost use Rattle.nz_delta.specs.Refused.{refused};
ghost use Rattle.nz_simplex.specs.Choices.{IsAfter, IsFollowed, is_moving, multiple_onto, numbers_in};
ghost use Rattle.nz_simplex.specs.Tabled.{coefficients_in, marks_in, rows_in};
ghost use Rattle.nz_spec.specs.simplex.Bland.{value_onto, zero_infinitesimal};
ghost use Rattle.nz_fractions.specs.Fraction.{first_wide};
ghost use Rattle.nz_spec.specs.terms.Term.{is_zero};
ghost use Rattle.nz_spec.specs.numbers.Infinitesimal.{◌=δ◌, ◌+δ◌, ◌-δ◌, scaled};

use crate::choice::is_outside;
use crate::coordinate::Coordinate;
use nz_frac::{Frac, Wide};
use nz_spec::computation::infinitesimals_move;
use nz_tab::{Row, Tab};
use nz_trail::{Side, Var};

/// Moves a nonbasic form to a value, and the values of the basic forms follow it. A value that would leave the numbers isn't known
/// then.
pub(crate) fn move_to<S: Coordinate>(tab: &Tab, values: &mut [Option<S>], var: Var, target: S)
    requires marked { length (marks_in tab.now) ≡ length tab.now.forms }
    requires valued { length values.old ≡ length tab.now.forms }
    requires known { var < length tab.now.forms }
    requires nonbasic { slice_index_or (marks_in tab.now) var false ≡ true }
    requires some { IsSome (slice_index_or values.old var None) }
    ensures moved { slice_index_or values.new var None ≡ Some target }
    ensures stays { (k : ℕ) → k ≢ var → slice_index_or (marks_in tab.now) k false ≡ true → slice_index_or values.new k None ≡ slice_index_or values.old k None }
    ensures follows { (k : ℕ) → k < length tab.now.forms → slice_index_or (marks_in tab.now) k false ≡ false
        → IsFollowed S.stands_for (slice_index_or values.old var None) target (rows_in tab.now k var) (slice_index_or values.old k None) (slice_index_or values.new k None) }
{
    infinitesimals_move();
    let distance = distance(values[var], target);
    for form in 0..tab.len() {
        values[form] = value_after(tab, form, var, values[form], distance);
    }
    values[var] = Some(target);
}

/// Moves a nonbasic form that is outside of a bound to it, and the values of the basic forms follow.
pub(crate) fn move_within<S: Coordinate>(
    tab: &Tab,
    values: &mut [Option<S>],
    var: Var,
    side: Side,
    bound: S,
)
    requires marked { length (marks_in tab.now) ≡ length tab.now.forms }
    requires valued { length values.old ≡ length tab.now.forms }
    requires known { var < length tab.now.forms }
    requires some { slice_index_or (marks_in tab.now) var false ≡ true → IsSome (slice_index_or values.old var None) }
    ensures still { is_moving S.stands_for (marks_in tab.now) values.old var side bound ≡ false → values.new ≡ values.old }
    ensures moved { is_moving S.stands_for (marks_in tab.now) values.old var side bound ≡ true → slice_index_or values.new var None ≡ Some bound }
    ensures stays { is_moving S.stands_for (marks_in tab.now) values.old var side bound ≡ true
        → (k : ℕ) → k ≢ var → slice_index_or (marks_in tab.now) k false ≡ true → slice_index_or values.new k None ≡ slice_index_or values.old k None }
    ensures follows { is_moving S.stands_for (marks_in tab.now) values.old var side bound ≡ true
        → (k : ℕ) → k < length tab.now.forms → slice_index_or (marks_in tab.now) k false ≡ false
        → IsFollowed S.stands_for (slice_index_or values.old var None) bound (rows_in tab.now k var) (slice_index_or values.old k None) (slice_index_or values.new k None) }
{
    if !is_to_move(tab, values, var, side, bound) {
        return;
    }
    move_to(tab, values, var, bound);
}

/// Whether a form is nonbasic, and outside of a bound.
fn is_to_move<S: Coordinate>(
    tab: &Tab,
    values: &[Option<S>],
    var: Var,
    side: Side,
    bound: S,
) -> bool
    requires known { var < length tab.now.forms }
    requires valued { length values.now ≡ length tab.now.forms }
    ensures moves { result ≡ is_moving S.stands_for (marks_in tab.now) values.now var side bound }
{
    !tab.is_basic(var) && values[var].is_some_and(|value| is_outside(side, bound, value))
}

/// The value of a form when a nonbasic one moves by a distance: a nonbasic form stays.
fn value_after<S: Coordinate>(
    tab: &Tab,
    form: Var,
    var: Var,
    value: Option<S>,
    distance: Option<S>,
) -> Option<S>
    requires known { form < length tab.now.forms }
    ensures after { IsAfter S.stands_for (slice_index_or (marks_in tab.now) form false) distance (rows_in tab.now form var) value result }
{
    if tab.is_basic(form) {
        followed(value, distance, tab.row(form).at(var))
    } else {
        value
    }
}

/// The value of a form when one of its row, in which it has this coefficient, moves by a distance: None where that isn't known.
fn followed<S: Coordinate>(value: Option<S>, distance: Option<S>, coefficient: Frac) -> Option<S>
    ensures still { is_zero coefficient ≡ true → result ≡ value }
    ensures followed { is_zero coefficient ≡ false → IfSome result (λ y. (x d : S) × (value ≡ Some x) × (distance ≡ Some d)
        × (S.stands_for y =δ (S.stands_for x +δ scaled (S.stands_for d) coefficient))) }
{
    if coefficient.is_zero() {
        return value;
    }
    let step = distance?.scale(coefficient).ok()?;
    value?.add(step).ok()
}

/// How far it is from a value to another one, where the first is known and the difference is a number.
fn distance<S: Coordinate>(from: Option<S>, to: S) -> Option<S>
    ensures distance { IfSome result (λ d. (x : S) × (from ≡ Some x) × (S.stands_for d =δ (S.stands_for to -δ S.stands_for x))) }
{
    to.sub(from?).ok()
}

/// The value of the form with this row, by the values of the nonbasic forms in their order.
pub(crate) fn row_value<S: Coordinate>(
    row: &Row<'_>,
    nonbasic: &[Var],
    values: &[Option<S>],
) -> Result<S, Wide>
    requires listed { All (λ k. k < length values.now) nonbasic.now }
    requires known { All (λ k. IsSome (slice_index_or values.now k None)) nonbasic.now }
    ensures value { IfOk result (λ y. S.stands_for y
        ≡ (value_onto (coefficients_in row.now) (numbers_in S.stands_for values.now) zero_infinitesimal nonbasic.now).result) }
    ensures stops { refused result
        ≡ first_wide (value_onto (coefficients_in row.now) (numbers_in S.stands_for values.now) zero_infinitesimal nonbasic.now).operations }
{
    let mut sum = S::zero();
    for var in nonbasic {
        sum = with_multiple(sum, values[*var].unwrap(), row.at(*var))?;
    }
    Ok(sum)
}

/// A sum with a multiple of a value.
fn with_multiple<S: Coordinate>(sum: S, value: S, coefficient: Frac) -> Result<S, Wide>
    ensures value { IfOk result (λ y. S.stands_for y ≡ (multiple_onto (S.stands_for sum) (S.stands_for value) coefficient).result) }
    ensures stops { refused result ≡ first_wide (multiple_onto (S.stands_for sum) (S.stands_for value) coefficient).operations }
{
    let product = value.scale(coefficient)?;
    sum.add(product)
}
