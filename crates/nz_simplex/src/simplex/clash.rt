//! What a clash rests on: bounds with their multipliers.
ghost use Rattle.std.specs.Prelude.{◌≡◌, ◌<◌, ℕ, List, Some, false, length};
ghost use Rattle.nz_simplex.specs.Checks.{IsRefuted};
ghost use Rattle.nz_simplex.specs.Standing.{half, standing, told_on};
ghost use Rattle.nz_simplex.specs.State.{IsOver, nonbasic_in, position_over};
ghost use Rattle.nz_spec.specs.simplex.Bland as bland;
ghost use Rattle.nz_spec.specs.simplex.Bland.{Breaks, CanHelp};
ghost use Rattle.nz_spec.specs.terms.Table.{Node};

use super::Simplex;
use crate::choice::Broken;
use crate::coordinate::Coordinate;
use crate::multipliers::put_multipliers;
use nz_frac::Frac;
use nz_spec::basis::{no_help_refutes, positions_have_values};
use nz_spec::computation::infinitesimals_move;
use nz_tab::known_tableau;
use nz_trail::Reason;

impl<S: Coordinate> Simplex<S> {
    /// The reasons of the bounds that the last clash rests on, each with its multiplier.
    pub fn why(&self) -> &[(Reason, Frac)]
        ensures why { result.now ≡ self.now.why }
    {
        self.why.as_slice()
    }

    /// Notes the bounds that keep a form from its bound, with their multipliers.
    pub(super) fn explain(&mut self, broken: &Broken<S>)
        requires known { broken.now.var < length self.old.forms }
        requires basic { nonbasic_in self.old broken.now.var ≡ false }
        requires stands { standing self.old.asserted broken.now.var broken.now.side ≡ Some (told_on S.stands_for broken.now.var broken.now.side broken.now.limit) }
        requires broken { (ns : List Node) → IsOver ns self.old → Breaks (position_over ns self.old) (half broken.now.side) (S.stands_for broken.now.limit.value) broken.now.var }
        requires helpless { (ns : List Node) → IsOver ns self.old → (j : ℕ) → CanHelp (position_over ns self.old) broken.now.var (bland.other_side (half broken.now.side)) j → ⊥ }
        ensures rest { self.new ≡ record self.old { why = self.new.why } }
        ensures refuted { (ns : List Node) → IsOver ns self.old → IsRefuted ns self.new }
    {
        positions_have_values();
        no_help_refutes();
        infinitesimals_move();
        known_tableau(&self.tab);
        put_multipliers(
            &self.tab,
            &self.trail,
            self.nonbasic.as_slice(),
            broken,
            &mut self.why,
        );
    }
}
