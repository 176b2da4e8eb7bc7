//! Values of forms: nonbasic ones that move to 0, and those of basic ones, computed from their rows.
ghost use Rattle.std.specs.Prelude.{◌≡◌, ◌<◌, ℕ, [], ◌∷◌, List, All, IfOk, OnOk, IfErr, IsSome, None, false, true, length};
ghost use Rattle.nz_simplex.specs.Checks.{IsRenewed, Renews, StopsAt};
ghost use Rattle.nz_simplex.specs.Moves.{IsSettled};
ghost use Rattle.nz_simplex.specs.Standing.{standing};
ghost use Rattle.nz_simplex.specs.State.{IsOver, nonbasic_in, position_over, value_in};
ghost use Rattle.nz_spec.specs.simplex.Bland.{HasValue};
ghost use Rattle.nz_spec.specs.terms.Table.{Node};
ghost use Rattle.nz_trail.specs.declared.limits.Side.TheVariants.{Lower, Upper};

use super::{Simplex, known_state};
use crate::answer::SimplexStop;
use crate::coordinate::Coordinate;
use crate::values::{move_to, row_value};
use nz_place::{Place, Site};
use nz_spec::basis::{
    nonbasic_form_is_itself, positions_have_values, sum_moves, value_is_computed,
};
use nz_spec::computation::infinitesimals_move;
use nz_tab::known_tableau;
use nz_trail::Var;

impl<S: Coordinate> Simplex<S> {
    /// Moves these nonbasic forms, which have no bounds, to 0.
    ///
    /// # Errors
    ///
    /// `Wide` where the value of a basic form leaves the numbers then. They have moved all the same.
    pub fn settle(&mut self, vars: &[Var]) -> Result<(), SimplexStop>
        requires nonbasic { All (λ k. nonbasic_in self.old k ≡ true) vars.now }
        requires lower { All (λ k. standing self.old.asserted k Lower ≡ None) vars.now }
        requires upper { All (λ k. standing self.old.asserted k Upper ≡ None) vars.now }
        ensures settled { IsSettled self.old self.new vars.now }
        ensures answer { (ns : List Node) → IsOver ns self.new → Renews ns self.new result }
    {
        for var in vars {
            self.settle_one(*var);
        }
        self.renew()
    }

    /// Moves a nonbasic form without bounds to 0.
    fn settle_one(&mut self, var: Var)
        requires nonbasic { nonbasic_in self.old var ≡ true }
        requires lower { standing self.old.asserted var Lower ≡ None }
        requires upper { standing self.old.asserted var Upper ≡ None }
        ensures settled { IsSettled self.old self.new (var ∷ []) }
    {
        sum_moves();
        positions_have_values();
        infinitesimals_move();
        nonbasic_form_is_itself();
        known_tableau(&self.tab);
        move_to(&self.tab, self.values.as_mut_slice(), var, S::zero());
    }

    /// Computes the values that aren't known from their rows.
    #[tactic(auto, using(crate::proofs::RenewedValues::renewed_itself))]
    pub(super) fn renew(&mut self) -> Result<(), SimplexStop>
        ensures renewed { IsRenewed self.old self.new }
        ensures valued { OnOk result ((k : ℕ) → k < length self.new.forms → IsSome (value_in self.new k)) }
        ensures answer { (ns : List Node) → IsOver ns self.new → IfErr result (λ e. StopsAt ns self.new e) }
    {
        for var in 0..self.values.len() {
            self.renew_one(var)?;
        }
        Ok(())
    }

    /// Computes the value of a form from its row, where it isn't known.
    #[tactic(auto, using(crate::proofs::RenewedValues::renewed_itself))]
    fn renew_one(&mut self, var: Var) -> Result<(), SimplexStop>
        requires known { var < length self.old.forms }
        ensures renewed { IsRenewed self.old self.new }
        ensures valued { OnOk result (IsSome (value_in self.new var)) }
        ensures answer { (ns : List Node) → IsOver ns self.new → IfErr result (λ e. StopsAt ns self.new e) }
    {
        known_state(self);
        if self.has_value(var) {
            return Ok(());
        }
        let value = self.computed(var)?;
        self.values[var] = Some(value);
        Ok(())
    }

    /// The value of a basic form, which isn't known yet, from its row.
    fn computed(&self, var: Var) -> Result<S, SimplexStop>
        requires known { var < length self.now.forms }
        requires basic { nonbasic_in self.now var ≡ false }
        requires unknown { value_in self.now var ≡ None }
        ensures value { IfOk result (λ x. (ns : List Node) → IsOver ns self.now → HasValue (position_over ns self.now) var (S.stands_for x)) }
        ensures stops { (ns : List Node) → IsOver ns self.now → IfErr result (λ e. StopsAt ns self.now e) }
    {
        value_is_computed();
        known_tableau(&self.tab);
        match row_value(
            &self.tab.row(var),
            self.nonbasic.as_slice(),
            self.values.as_slice(),
        ) {
            Ok(value) => Ok(value),
            Err(wide) => Err(SimplexStop::Wide(Place::new(wide, Site::Value { form: var }))),
        }
    }
}
