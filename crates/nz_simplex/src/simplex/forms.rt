//! Forms that join, and what is chosen before any bound is asserted: the basis, and where nonbasic forms stand.
ghost use Rattle.std.specs.Prelude.{◌≡◌, ◌≢◌, ◌<◌, [], List, IfOk, OnOk, OnErr, IfErr, Some, Ok, false, true, length, pos};
ghost use Rattle.nz_frac.specs.Operations.{operation_of};
ghost use Rattle.nz_fractions.specs.Fraction.{first_wide, whole};
ghost use Rattle.nz_lin.specs.Forms.{AreUnits};
ghost use Rattle.nz_simplex.specs.Moves.{IsExchanged, IsJoined, JoinStops, KnowsNonbasicAlone, StandsAt, joined_over};
ghost use Rattle.nz_simplex.specs.State.{IsOver, nonbasic_in, position_over};
ghost use Rattle.nz_spec.specs.simplex.Bland.{is_nonbasic};
ghost use Rattle.nz_spec.specs.simplex.Basis.{IsCoefficient};
ghost use Rattle.nz_spec.specs.simplex.BasisMoves.{AreRows, Rows, exchange};
ghost use Rattle.nz_spec.specs.terms.Table.{Node};
ghost use Rattle.nz_term.specs.declared.stops.ArithmeticStop.TheVariants as stops;
ghost use Rattle.nz_tab.specs.Units.{is_unit_form};

use super::Simplex;
use crate::coordinate::Coordinate;
use crate::lists::{extend_values, list_forms};
use crate::room::{count_with, reserve};
use nz_frac::Wide;
use nz_lin::Form;
use nz_spec::basis::{nonbasic_form_is_itself, positions_have_values};
use nz_spec::computation::infinitesimals_move;
use nz_tab::known_tableau;
use nz_term::ArithmeticStop;
use nz_trail::Var;

impl<S: Coordinate> Simplex<S> {
    /// Adds a form, without the number that is added in it, and answers its number. Its units that aren't here join first, as
    /// nonbasic forms at 0, and then the form itself as a basic one. A unit alone is its own form.
    ///
    /// # Errors
    ///
    /// `Wide` with the first operation on the new row that leaves the numbers; `Memory`. Then all is as before.
    pub fn add_form(&mut self, form: &Form) -> Result<Var, ArithmeticStop>
        ensures joined { IfOk result (λ v. IsJoined self.old self.new form.now.parts v) }
        ensures position { OnOk result ((ns : List Node) → IsOver ns self.old → AreUnits ns form.now.parts → position_over ns self.new ≡ joined_over ns self.old form.now.parts) }
        ensures stops { IfErr result (λ e. (ns : List Node) → IsOver ns self.old → AreUnits ns form.now.parts → JoinStops ns self.old form.now.parts e) }
        // No operation is computed for a unit alone.
        ensures alone { is_unit_form form.now.parts ≡ true → IfErr result (λ e. e ≡ stops.Memory) }
        ensures unchanged { OnErr result (self.new ≡ self.old) }
    {
        positions_have_values();
        infinitesimals_move();
        nonbasic_form_is_itself();
        known_tableau(&self.tab);
        let count = count_with(self.tab.len(), form.parts().len())?;
        reserve(
            &mut self.trail,
            &mut self.values,
            &mut self.basic,
            &mut self.nonbasic,
            &mut self.why,
            count,
        )?;
        let var = self.tab.add_form(form)?;
        known_tableau(&self.tab);
        extend_values(&self.tab, &mut self.values);
        list_forms(&self.tab, &mut self.basic, &mut self.nonbasic);
        Ok(var)
    }

    /// Exchanges a basic form, which stands at 0 then, with a nonbasic one, before any bound is asserted. Answers false, and changes
    /// nothing, where its row has no coefficient there. Takes no memory.
    ///
    /// # Errors
    ///
    /// `Wide` with the first operation of the exchange that leaves the numbers. Then all is as before.
    pub fn exchange(&mut self, leaves: Var, enters: Var) -> Result<bool, Wide>
        requires listed { leaves < length self.old.forms }
        requires basic { nonbasic_in self.old leaves ≡ false }
        requires nonbasic { nonbasic_in self.old enters ≡ true }
        requires unbounded { self.old.asserted ≡ [] }
        requires unknown { KnowsNonbasicAlone self.old }
        ensures exchanged { result ≡ Ok true → IsExchanged self.old self.new leaves enters }
        ensures none { result ≡ Ok false → (ns : List Node) → IsOver ns self.old
            → IsCoefficient (position_over ns self.old).forms (is_nonbasic (position_over ns self.old).point) leaves enters (whole (pos 0)) }
        ensures stops { (ns : List Node) → IsOver ns self.old → IfErr result (λ w. (rows : Rows)
            × AreRows (position_over ns self.old).forms (is_nonbasic (position_over ns self.old).point) rows
            × (first_wide (exchange (length self.old.forms) (is_nonbasic (position_over ns self.old).point) rows leaves enters).operations ≡ Some (operation_of w))) }
        ensures unchanged { result ≢ Ok true → self.new ≡ self.old }
    {
        nonbasic_form_is_itself();
        known_tableau(&self.tab);
        if self.tab.row(leaves).at(enters).is_zero() {
            return Ok(false);
        }
        self.tab.pivot(leaves, enters)?;
        known_tableau(&self.tab);
        self.values[leaves] = Some(S::zero());
        self.values[enters] = None;
        list_forms(&self.tab, &mut self.basic, &mut self.nonbasic);
        Ok(true)
    }

    /// Puts a nonbasic form at a value, before any bound is asserted. Takes no memory.
    pub fn stand(&mut self, var: Var, value: S)
        requires nonbasic { nonbasic_in self.old var ≡ true }
        requires unbounded { self.old.asserted ≡ [] }
        requires unknown { KnowsNonbasicAlone self.old }
        ensures stands { StandsAt self.old self.new var (S.stands_for value) }
    {
        nonbasic_form_is_itself();
        known_tableau(&self.tab);
        let slot = &mut self.values[var];
        *slot = Some(value);
    }
}
