//! What is listed of forms: their first values, and which of them are basic.
ghost use Rattle.std.specs.Prelude.{◌≡◌, ◌<◌, ◌≤◌, ℕ, None, Some, false, if◌then◌else◌, length, not, slice_index_or, take, vec_capacity, vec_len};
ghost use Rattle.nz_simplex.specs.Tabled.{marks_in};
ghost use Rattle.nz_spec.specs.simplex.BasisMoves.{numbers};

use crate::coordinate::Coordinate;
use nz_tab::Tab;
use nz_trail::Var;

/// Values for the forms that have joined: a nonbasic one stands at 0, and that of a basic one isn't known yet.
pub(crate) fn extend_values<S: Coordinate>(tab: &Tab, values: &mut Vec<Option<S>>)
    requires marked { length (marks_in tab.now) ≡ length tab.now.forms }
    requires fewer { vec_len values.old ≤ length tab.now.forms }
    requires room { length tab.now.forms ≤ vec_capacity values.old }
    ensures long { length values.new.items ≡ length tab.now.forms }
    ensures stays { take (vec_len values.old) values.new.items ≡ values.old.items }
    ensures capacity { vec_capacity values.new ≡ vec_capacity values.old }
    ensures joined { (k : ℕ) → vec_len values.old ≤ k → k < length tab.now.forms
        → slice_index_or values.new.items k None ≡ (if slice_index_or (marks_in tab.now) k false then Some S.origin else None) }
{
    for var in values.len()..tab.len() {
        values.push_reserved(first_value(tab.is_basic(var)));
    }
}

/// The value of a form that joins.
fn first_value<S: Coordinate>(is_basic: bool) -> Option<S>
    ensures value { result ≡ (if is_basic then None else Some S.origin) }
{
    if is_basic { None } else { Some(S::zero()) }
}

/// Lists the basic forms and the nonbasic ones.
pub(crate) fn list_forms(tab: &Tab, basic: &mut Vec<Var>, nonbasic: &mut Vec<Var>)
    requires basic_room { length tab.now.forms ≤ vec_capacity basic.old }
    requires nonbasic_room { length tab.now.forms ≤ vec_capacity nonbasic.old }
    ensures basic { basic.new.items ≡ numbers (length tab.now.forms) (λ k. not (slice_index_or (marks_in tab.now) k false)) }
    ensures nonbasic { nonbasic.new.items ≡ numbers (length tab.now.forms) (λ k. slice_index_or (marks_in tab.now) k false) }
    ensures basic_capacity { vec_capacity basic.new ≡ vec_capacity basic.old }
    ensures nonbasic_capacity { vec_capacity nonbasic.new ≡ vec_capacity nonbasic.old }
{
    basic.clear();
    nonbasic.clear();
    for var in 0..tab.len() {
        if tab.is_basic(var) {
            basic.push_reserved(var);
        } else {
            nonbasic.push_reserved(var);
        }
    }
}
