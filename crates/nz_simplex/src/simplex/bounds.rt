//! Bounds of forms, asserted and taken back.
ghost use Rattle.std.specs.Prelude.{◌≡◌, ◌≢◌, ◌↔◌, ◌<◌, ◌≤◌, ℕ, IfOk, Ok, OnErr, length, take};
ghost use Rattle.nz_simplex.specs.Moves.{IsBounded};
ghost use Rattle.nz_spec.specs.numbers.Infinitesimal.{infinitesimal_cmp};
ghost use Rattle.nz_trail.specs.Bounds.{ClashesWith, IsExcluded, IsImplied, asserted};

use super::Simplex;
use crate::coordinate::Coordinate;
use crate::values::move_within;
use nz_base::Memory;
use nz_spec::basis::{moves_keep_ready, nonbasic_form_is_itself, positions_have_values, sum_moves};
use nz_spec::computation::infinitesimals_move;
use nz_tab::known_tableau;
use nz_trail::{AssertOutcome, Reason, Side, Var};

impl<S: Coordinate> Simplex<S> {
    /// How many bounds stand or stood: the place to which `undo` takes them back.
    pub fn mark(&self) -> usize
        ensures count { result ≡ length self.now.asserted }
    {
        self.trail.mark()
    }

    /// Takes the newest bounds back, so that as many are left as there were at the mark. The point stays. Takes no memory.
    pub fn undo(&mut self, mark: usize)
        requires reached { mark ≤ length self.old.asserted }
        ensures front { self.new ≡ record self.old { asserted = take mark self.old.asserted } }
    {
        moves_keep_ready();
        infinitesimals_move();
        self.trail.undo(mark);
    }

    /// Asserts a bound of a form. A nonbasic form that is outside of it moves to it, and the values of the basic forms follow.
    ///
    /// # Errors
    ///
    /// `Memory` where there is no room for it. Then all is as before.
    pub fn assert_bound(
        &mut self,
        var: Var,
        side: Side,
        value: S,
        reason: Reason,
    ) -> Result<AssertOutcome, Memory>
        requires known { var < length self.old.forms }
        ensures kept { let b = asserted var side (S.stands_for value) reason in
            IfOk result (λ o. (o ≡ AssertOutcome.Kept) ↔ IsImplied infinitesimal_cmp self.old.asserted b) }
        ensures clash { let b = asserted var side (S.stands_for value) reason in
            IfOk result (λ o. (r : ℕ) → (s : ℕ) → (o ≡ AssertOutcome.Clash r s) ↔ ((r ≡ reason) × ClashesWith infinitesimal_cmp self.old.asserted b s)) }
        ensures tighter { let b = asserted var side (S.stands_for value) reason in
            IfOk result (λ o. (o ≡ AssertOutcome.Tighter) ↔ ((¬ IsImplied infinitesimal_cmp self.old.asserted b) × (¬ IsExcluded infinitesimal_cmp self.old.asserted b))) }
        ensures bounded { result ≡ Ok AssertOutcome.Tighter → IsBounded self.old self.new (asserted var side (S.stands_for value) reason) }
        ensures unchanged { result ≢ Ok AssertOutcome.Tighter → self.new ≡ self.old }

        // Only a bound that is to stand takes memory.
        ensures memory { let b = asserted var side (S.stands_for value) reason in
            OnErr result ((¬ IsImplied infinitesimal_cmp self.old.asserted b) × (¬ IsExcluded infinitesimal_cmp self.old.asserted b)) }
    {
        moves_keep_ready();
        sum_moves();
        positions_have_values();
        infinitesimals_move();
        nonbasic_form_is_itself();
        known_tableau(&self.tab);
        match self.trail.assert_bound(var, side, value, reason)? {
            AssertOutcome::Tighter => {
                move_within(&self.tab, self.values.as_mut_slice(), var, side, value);
                Ok(AssertOutcome::Tighter)
            }
            outcome => Ok(outcome),
        }
    }
}
