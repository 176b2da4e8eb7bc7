//! Values of the units, once the simplex is feasible.
ghost use Rattle.std.specs.Prelude.{◌≡◌, ◌<◌, ℕ, List, ◌++◌, IfErr, IfOk, IfSome, None, OnOk, false, length, option_map, true, if◌then◌else◌};
ghost use Rattle.nz_fractions.specs.Fraction.{IsNumber, first_wide, fraction_lt, ◌=ℚ◌};
ghost use Rattle.nz_spec.specs.simplex.Bland.{Point};
ghost use Rattle.nz_spec.specs.terms.Form as spec;
ghost use Rattle.nz_spec.specs.numbers.Infinitesimal as infinitesimal;
ghost use Rattle.nz_spec.specs.numbers.Infinitesimal.{IsLeastLimit, Pair};
ghost use Rattle.nz_spec.specs.clauses.Literal.{Literal};
ghost use Rattle.nz_spec.specs.search.Places as places;
ghost use Rattle.nz_spec.specs.search.Places.{value_operations};
ghost use Rattle.nz_spec.specs.terms.Term.{Term};
ghost use Rattle.nz_spec.specs.laws.ToldBounds.{AreNumbers};
ghost use Rattle.nz_delta.specs.Refused.{refused};
ghost use Rattle.nz_delta.specs.DeltaSpace.{infinitesimal_of};
ghost use Rattle.nz_delta.specs.Pairs.{pair_of};
ghost use Rattle.nz_lin.specs.Forms.{AreUnits};
ghost use Rattle.nz_search.specs.declared.stop.Stop.TheVariants as stop;
ghost use Rattle.nz_search.specs.Places.{OnWide};
ghost use Rattle.nz_simplex.specs.Standing.{bound_in, half};
ghost use Rattle.nz_simplex.specs.State.{position_over};
ghost use Rattle.nz_reals.specs.Chosen.{AddsValues, HasWorths, Puts};
ghost use Rattle.nz_reals.specs.Constants.{AreMarkedAmong, IsAlone, IsRealConstant, is_marked};
ghost use Rattle.nz_reals.specs.Limits.{HasValues, IsLimitPlace, IsModelPlace, IsPlaceOfValues, listed, pair_on, pairs_below, pairs_of, value_of};
ghost use Rattle.nz_reals.specs.Stands.{IsAt, IsFeasible, IsOver};

use crate::forms::is_one;
use crate::reals::{Reals, stored};
use crate::refute::stopped;
use nz_delta::{Delta, choose_delta};
use nz_frac::{Frac, Wide};
use nz_lin::Part;
use nz_place::{Place, Site};
use nz_search::Stop;
use nz_spec::basis::positions_have_values;
use nz_spec::deciding::{chosen_fractions_keep_bounds, told_bounds_are_met};
use nz_spec::derivation::tells_literals;
use nz_spec::form::term_has_its_number;
use nz_spec::infinitesimal::infinitesimals_are_ordered;
use nz_spec::table::{one_number, term_of_node};
use nz_tab::laws::units_are_forms;
use nz_term::{Assign, Head, Sort, TermId, Terms, Value};
use nz_trail::{Limit, Side, Var};

impl Reals {
    /// Puts a value for each listed constant of sort `Real` among the units behind those of an assignment: the value at the point, where a fraction stands for
    /// the infinitesimal that keeps all values within their bounds. Under these values each bound that was told holds. What is listed is told by the
    /// numbers of terms; a term past the end isn't.
    ///
    /// # Errors
    ///
    /// `Wide` where an operation leaves the numbers; `Memory`.
    pub fn add_values(
        &self,
        terms: &Terms,
        is_listed: &[bool],
        values: &mut Assign,
    ) -> Result<(), Stop>
        requires over { IsOver self.now terms.now }
        requires feasible { IsFeasible self.now }
        ensures values { OnOk result (AddsValues self.now terms.now is_listed.now (position_over terms.now self.now.simplex) values.old values.new) }
        ensures worths { OnOk result (HasWorths self.now terms.now is_listed.now values.old values.new) }
        // It is the limit of a value and its bound, or the value of a constant among these terms.
        ensures place { (ts : List Term) → AreMarkedAmong terms.now is_listed.now ts → IfErr result (λ e. OnWide e (λ p. (fs : List (List spec.Part)) (ls : List Literal) (x : Point) → IsAt self.now terms.now fs ls x → IsPlaceOfValues terms.now ts fs ls x p)) }
        ensures unspent { IfErr result (λ e. e ≡ stop.Spent → ⊥) }
    {
        positions_have_values();
        infinitesimals_are_ordered();
        one_number();
        term_has_its_number();
        tells_literals();
        told_bounds_are_met();
        chosen_fractions_keep_bounds();
        units_are_forms();
        term_of_node();
        stored(self);
        let delta = match self.delta() {
            Ok(delta) => delta,
            Err(place) => return Err(Stop::Wide(place)),
        };
        for var in 0..self.simplex.len() {
            self.add_value(var, delta, terms, is_listed, values)?;
        }
        Ok(())
    }

    /// Puts the value of a form behind others, if the form is a listed constant of sort `Real` alone.
    fn add_value(
        &self,
        var: Var,
        delta: Frac,
        terms: &Terms,
        is_listed: &[bool],
        values: &mut Assign,
    ) -> Result<(), Stop>
        requires inside { var < length self.now.simplex.forms }
        requires over { IsOver self.now terms.now }
        requires values { HasValues self.now }
        ensures puts { OnOk result (Puts self.now terms.now is_listed.now delta var values.old values.new) }
        ensures place { IfErr result (λ e. OnWide e (IsModelPlace self.now terms.now is_listed.now delta)) }
        ensures unspent { IfErr result (λ e. e ≡ stop.Spent → ⊥) }
    {
        let Some(unit) = constant_alone(terms, is_listed, self.simplex.form(var)) else {
            return Ok(());
        };
        match self.value_at(var, delta) {
            Ok(value) => {
                values.push(unit, Value::Number(value))?;
                Ok(())
            }
            Err(wide) => Err(stopped(wide, Site::Model { form: var })),
        }
    }

    /// A fraction for the infinitesimal: the least of 1 and what the values with their bounds allow.
    fn delta(&self) -> Result<Frac, Place>
        requires values { HasValues self.now }
        ensures least { IfOk result (IsLeastLimit (pairs_below self.now (length self.now.simplex.forms))) }
        ensures numbers { OnOk result (AreNumbers (length self.now.simplex.forms) (value_of self.now)) }
        ensures place { IfErr result (IsLimitPlace self.now) }
    {
        let mut least = Frac::whole(1);
        for var in 0..self.simplex.len() {
            least = self.limited(var, least)?;
        }
        Ok(least)
    }

    /// The lesser of a fraction and what the bounds of a form allow.
    fn limited(&self, var: Var, least: Frac) -> Result<Frac, Place>
        requires inside { var < length self.now.simplex.forms }
        requires values { HasValues self.now }
        ensures least { IfOk result (λ e. (ps : List Pair) → IsLeastLimit ps least → IsLeastLimit (ps ++ pairs_of self.now var) e) }
        ensures numbers { OnOk result (IsNumber (value_of self.now var).standard × IsNumber (value_of self.now var).coefficient) }
        ensures place { IfErr result (IsLimitPlace self.now) }
    {
        let above = self.limited_on(var, Side::Lower, least)?;
        self.limited_on(var, Side::Upper, above)
    }

    /// The lesser of a fraction and what the bound of a form on a side allows.
    fn limited_on(&self, var: Var, side: Side, least: Frac) -> Result<Frac, Place>
        requires inside { var < length self.now.simplex.forms }
        requires values { HasValues self.now }
        ensures least { IfOk result (λ e. (ps : List Pair) → IsLeastLimit ps least → IsLeastLimit (ps ++ listed (pair_on self.now var side)) e) }
        ensures numbers { IsNumber (value_of self.now var).standard × IsNumber (value_of self.now var).coefficient }
        ensures place { IfErr result (IsLimitPlace self.now) }
    {
        let value = self.value(var);
        let Some(bound) = self.bound(var, side) else {
            return Ok(least);
        };
        match choose_delta(&[in_order(side, bound, value)]) {
            Ok(limit) => Ok(lesser(limit, least)),
            Err(wide) => Err(Place::new(wide, Site::Limit { form: var, side })),
        }
    }

    /// The value of a form where a fraction stands for the infinitesimal.
    fn value_at(&self, var: Var, delta: Frac) -> Result<Frac, Wide>
        requires inside { var < length self.now.simplex.forms }
        requires values { HasValues self.now }
        ensures value { IfOk result (λ q. q =ℚ infinitesimal.at (value_of self.now var) delta) }
        ensures number { IfOk result IsNumber }
        ensures stops { refused result ≡ first_wide (value_operations (value_of self.now var) delta) }
    {
        match at(self.value(var), delta) {
            Ok(number) => {
                number.num();
                Ok(number)
            }
            Err(wide) => Err(wide),
        }
    }

    /// The value of a form.
    fn value(&self, var: Var) -> Delta
        requires inside { var < length self.now.simplex.forms }
        requires values { HasValues self.now }
        ensures value { infinitesimal_of result ≡ value_of self.now var }
        ensures standard { IsNumber (value_of self.now var).standard }
        ensures coefficient { IsNumber (value_of self.now var).coefficient }
    {
        let value = self.simplex.value(var);
        value.c.num();
        value.k.num();
        value
    }

    /// The bound of a form on a side.
    fn bound(&self, var: Var, side: Side) -> Option<Delta>
        requires inside { var < length self.now.simplex.forms }
        ensures bound { option_map infinitesimal_of result ≡ bound_in self.now.simplex.asserted side var }
    {
        let (lower, upper) = self.simplex.bounds(var);
        match side {
            Side::Lower => value_of(lower),
            Side::Upper => value_of(upper),
        }
    }
}

/// The number of a bound.
fn value_of(limit: Option<Limit<Delta>>) -> Option<Delta>
    ensures value { result ≡ option_map (λ l. l.value) limit }
{
    match limit {
        Some(limit) => Some(limit.value),
        None => None,
    }
}

/// A bound of a side and a value, in their order.
fn in_order(side: Side, bound: Delta, value: Delta) -> (Delta, Delta)
    ensures pair { pair_of result ≡ places.in_order (half side) (infinitesimal_of bound) (infinitesimal_of value) }
{
    match side {
        Side::Lower => (bound, value),
        Side::Upper => (value, bound),
    }
}

/// The lesser of two, the second where they are equal.
fn lesser(a: Frac, b: Frac) -> Frac
    ensures lesser { result ≡ (if fraction_lt a b then a else b) }
{
    if a < b { a } else { b }
}

/// A number with a fraction for the infinitesimal.
fn at(value: Delta, delta: Frac) -> Result<Frac, Wide>
    ensures value { IfOk result (λ q. q =ℚ infinitesimal.at (infinitesimal_of value) delta) }
    ensures stops { refused result ≡ first_wide (value_operations (infinitesimal_of value) delta) }
{
    let product = value.k.mul(delta)?;
    value.c.add(product)
}

/// The constant of sort `Real` that a form is, if it is one alone, which is listed.
fn constant_alone(terms: &Terms, is_listed: &[bool], parts: &[Part]) -> Option<TermId>
    requires units { AreUnits terms.now parts.now }
    ensures alone { IfSome result (IsAlone terms.now is_listed.now parts.now) }
    ensures none { result ≡ None → (u : ℕ) → IsAlone terms.now is_listed.now parts.now u → ⊥ }
{
    let [part] = parts else {
        return None;
    };
    if is_one(part.coefficient)
        && is_marked(is_listed, part.unit)
        && is_real_constant(terms, part.unit)
    {
        return Some(part.unit);
    }
    None
}

/// Whether a term is marked, by its number.
fn is_marked(marks: &[bool], term: TermId) -> bool
    ensures marked { result ≡ is_marked marks.now term }
{
    match marks.get(term) {
        Some(mark) => *mark,
        None => false,
    }
}

/// Whether a term is a constant of sort `Real`.
fn is_real_constant(terms: &Terms, id: TermId) -> bool
    requires inside { id < length terms.now }
    ensures constant { result ≡ true → IsRealConstant terms.now id }
    ensures none { result ≡ false → IsRealConstant terms.now id → ⊥ }
{
    match terms.head(id) {
        Head::Constant(constant) => matches!(constant.sort, Sort::Real),
        _ => false,
    }
}
