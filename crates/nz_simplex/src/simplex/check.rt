//! The check: steps by Bland's rule, until each form is within its bounds or some bounds contradict.
ghost use Rattle.std.specs.Prelude.{◌≡◌, ◌≢◌, ◌<◌, ℕ, List, All, IfErr, IfSome, IfNone, IsSome, is_some, None, Some, Ok, Err, false, true, length};
ghost use Rattle.nz_fractions.specs.Fraction.{IsNumber};
ghost use Rattle.nz_simplex.specs.Checks.{Answers, IsFeasible, IsFirstBroken, IsStepped};
ghost use Rattle.nz_simplex.specs.Stored.{IsPastBound, first_passing, is_breaking};
ghost use Rattle.nz_simplex.specs.Standing.{half, standing, told_on};
ghost use Rattle.nz_simplex.specs.State.{IsOver, nonbasic_in, position_over, value_in};
ghost use Rattle.nz_spec.specs.simplex.Bland as bland;
ghost use Rattle.nz_spec.specs.simplex.Bland.{CanHelp, IsCheckStep};
ghost use Rattle.nz_spec.specs.terms.Table.{Node};

use super::{Simplex, known_state};
use crate::answer::{Check, SimplexStop};
use crate::choice::{Broken, broken_bound};
use crate::coordinate::Coordinate;
use crate::helper::first_helper;
use crate::lists::list_forms;
use crate::steps::Steps;
use crate::values::move_to;
use nz_frac::Wide;
use nz_place::{Place, Site};
use nz_spec::basis::{
    check_steps_keep_basis, moves_keep_ready, nonbasic_form_is_itself, positions_have_values,
    rows_tell,
};
use nz_spec::computation::infinitesimals_move;
use nz_spec::pivots::pivots_are_runs;
use nz_tab::known_tableau;
use nz_trail::Var;

impl<S: Coordinate> Simplex<S> {
    /// Moves the point until each form is within its bounds, or some bounds contradict. Each step exchanges the least-numbered
    /// basic form that breaks a bound with the least-numbered nonbasic form that can help, which is noted, and takes one unit.
    /// Takes no memory.
    ///
    /// # Errors
    ///
    /// `Spent` where a step more is wanted and no unit is left; `Wide` with the first operation of an exchange, or of the value
    /// of a form, that leaves the numbers. The steps that were noted are taken.
    pub fn check<W: Steps>(&mut self, work: &mut W) -> Result<Check, SimplexStop>
        ensures steps { IsStepped W.with_step work.old work.new self.old self.new }
        ensures answer { (ns : List Node) → IsOver ns self.new → Answers ns self.new (W.units_left work.new) result }
        ensures why { result ≢ Ok Check.Clash → self.new.why ≡ self.old.why }
    {
        pivots_are_runs();
        self.renew()?;
        while let Some(broken) = self.first_broken() {
            if !self.step(&broken, work)? {
                self.explain(&broken);
                return Ok(Check::Clash);
            }
            self.renew()?;
        }
        Ok(Check::Feasible)
    }

    /// The least-numbered basic form that breaks a bound.
    fn first_broken(&self) -> Option<Broken<S>>
        requires valued { (k : ℕ) → k < length self.now.forms → IsSome (value_in self.now k) }
        ensures known { IfSome result (λ b. b.var < length self.now.forms) }
        ensures basic { IfSome result (λ b. nonbasic_in self.now b.var ≡ false) }
        ensures stands { IfSome result (λ b. standing self.now.asserted b.var b.side ≡ Some (told_on S.stands_for b.var b.side b.limit)) }
        ensures broken { IfSome result (λ b. (ns : List Node) → IsOver ns self.now → IsFirstBroken (position_over ns self.now) (half b.side) (S.stands_for b.limit.value) b.var) }
        ensures none { IfNone result ((ns : List Node) → IsOver ns self.now → IsFeasible ns self.now) }
    {
        positions_have_values();
        infinitesimals_move();
        known_state(self);
        self.first_breaking(self.basis())
    }

    /// The first of these forms that breaks a bound.
    fn first_breaking(&self, forms: &[Var]) -> Option<Broken<S>>
        requires listed { All (λ k. k < length self.now.forms) forms.now }
        requires valued { (k : ℕ) → k < length self.now.forms → IsSome (value_in self.now k) }
        ensures found { IfSome result (λ b. (first_passing (is_breaking self.now) forms.now ≡ Some b.var) × IsPastBound S.stands_for self.now b.var b.side b.limit) }
        ensures none { IfNone result (first_passing (is_breaking self.now) forms.now ≡ None) }
    {
        for var in forms {
            if let Some(broken) = self.broken_at(*var) {
                return Some(broken);
            }
        }
        None
    }

    /// A form with the bound that its value is past, where there is one.
    fn broken_at(&self, var: Var) -> Option<Broken<S>>
        requires known { var < length self.now.forms }
        requires valued { IsSome (value_in self.now var) }
        ensures past { IfSome result (λ b. (b.var ≡ var) × IsPastBound S.stands_for self.now b.var b.side b.limit) }
        ensures breaks { is_some result ≡ is_breaking self.now var }
    {
        let (lower, upper) = self.bounds(var);
        match broken_bound(self.value(var), lower, upper) {
            Some((side, limit)) => Some(Broken { var, side, limit }),
            None => None,
        }
    }

    /// Exchanges a form that breaks a bound with the least-numbered nonbasic form that can help, moves it to the bound, and notes
    /// the step. Answers false where no form can help.
    fn step<W: Steps>(&mut self, broken: &Broken<S>, work: &mut W) -> Result<bool, SimplexStop>
        requires known { broken.now.var < length self.old.forms }
        requires basic { nonbasic_in self.old broken.now.var ≡ false }
        requires valued { IsSome (value_in self.old broken.now.var) }
        requires broken { (ns : List Node) → IsOver ns self.old → IsFirstBroken (position_over ns self.old) (half broken.now.side) (S.stands_for broken.now.limit.value) broken.now.var }
        ensures taken { result ≡ Ok true → (j : ℕ) × (work.new ≡ W.with_step work.old broken.now.var j)
            × ((ns : List Node) → IsOver ns self.old → IsCheckStep (position_over ns self.old) (position_over ns self.new) broken.now.var j) }
        ensures helpless { result ≡ Ok false → (ns : List Node) → IsOver ns self.old → (j : ℕ) → CanHelp (position_over ns self.old) broken.now.var (bland.other_side (half broken.now.side)) j → ⊥ }
        ensures paid { result ≡ Ok true → W.units_left work.new < W.units_left work.old }
        ensures forms { self.new.forms ≡ self.old.forms }
        ensures asserted { self.new.asserted ≡ self.old.asserted }
        ensures why { self.new.why ≡ self.old.why }
        ensures unchanged { result ≢ Ok true → self.new ≡ self.old }
        ensures unnoted { result ≢ Ok true → work.new ≡ work.old }
        ensures stops { (ns : List Node) → IsOver ns self.old → IfErr result (λ e. Answers ns self.old (W.units_left work.old) (Err e)) }
    {
        check_steps_keep_basis();
        moves_keep_ready();
        rows_tell();
        infinitesimals_move();
        nonbasic_form_is_itself();
        known_tableau(&self.tab);
        let Some(enters) = first_helper(
            &self.tab,
            &self.trail,
            self.nonbasic.as_slice(),
            self.values.as_slice(),
            broken,
        ) else {
            return Ok(false);
        };
        if work.left() == 0 {
            return Err(SimplexStop::Spent);
        }
        if let Err(wide) = self.tab.pivot(broken.var, enters) {
            return Err(exchange_stop(wide, broken.var, enters));
        }
        known_tableau(&self.tab);
        move_to(
            &self.tab,
            self.values.as_mut_slice(),
            broken.var,
            broken.limit.value,
        );
        list_forms(&self.tab, &mut self.basic, &mut self.nonbasic);
        work.note(broken.var, enters);
        Ok(true)
    }
}

/// An exchange that leaves the numbers, at its place.
fn exchange_stop(wide: Wide, leaves: Var, enters: Var) -> SimplexStop
    ensures stop { result ≡ SimplexStop.Wide (record { wide = wide; site = Site.Exchange leaves enters }) }
    ensures left { IsNumber wide.a }
    ensures right { IsNumber wide.b }
{
    SimplexStop::Wide(Place::new(wide, Site::Exchange { leaves, enters }))
}
