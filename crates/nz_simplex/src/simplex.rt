//! The simplex: forms over a basis, their bounds, and the point.
ghost use Rattle.std.specs.Prelude.{◌≡◌, ◌↔◌, ◌<◌, [], List, IsSome, IsTrue, Some, false, not, length, option_map, slice_index_or};
ghost use Rattle.nz_simplex.specs.Standing.{standing, told_on};
ghost use Rattle.nz_simplex.specs.State.{IsOver, IsSound, empty_state, nonbasic_in, position_over, value_in};
ghost use Rattle.nz_simplex.specs.Stored.{basic_numbers};
ghost use Rattle.nz_simplex.specs.Tabled.{coefficients_in};
ghost use Rattle.nz_spec.specs.simplex.Bland.{is_nonbasic};
ghost use Rattle.nz_spec.specs.simplex.Basis.{IsRow};
ghost use Rattle.nz_spec.specs.terms.Table.{Node};
ghost use Rattle.nz_trail.specs.declared.limits.Side.TheVariants.{Lower, Upper};

mod bounds;
mod check;
mod clash;
mod forms;
mod point;

use crate::coordinate::Coordinate;
use nz_frac::Frac;
use nz_lin::Part;
use nz_spec::basis::moves_keep_ready;
use nz_tab::{Row, Tab, known_tableau};
use nz_trail::{Limit, Reason, Trail, Var};
use std::alloc::Global;
use std::marker::Model;

/// Linear forms over a basis, with bounds and a point. A contract sees the forms, which of them are nonbasic, the values that are
/// known, the bounds that were asserted and not undone, and the multipliers of the last clash; rows aren't shown.
#[derive(Debug, Drop)]
pub struct Simplex<S: Coordinate> {
    tab: Tab,
    // It has a variable for each form, and maybe more.
    trail: Trail<S>,
    // The value of each form: that of a nonbasic one is known.
    values: Vec<Option<S>>,
    // The numbers of the basic forms and of the nonbasic ones, in order.
    basic: Vec<Var>,
    nonbasic: Vec<Var>,
    // The bounds that the last clash rests on, with their multipliers. It has room for one a form.
    why: Vec<(Reason, Frac)>,
}

impl<S: Coordinate> Model for Simplex<S> {
    ghost use Rattle.std.specs.Prelude.{vec_capacity};
    ghost use Rattle.nz_simplex.specs.State.{State};

    ghost Value = { State };

    ghost use Rattle.nz_simplex.specs.Stored.{IsStored, state_of};

    ghost view = { λ x. state_of S.stands_for x.tab x.trail x.values.items x.why.items };

    ghost invariant = { λ x. IsStored (state_of S.stands_for x.tab x.trail x.values.items x.why.items) x.trail.vars x.basic.items x.nonbasic.items (vec_capacity x.basic) (vec_capacity x.nonbasic) (vec_capacity x.why) };
}

impl<S: Coordinate> Simplex<S> {
    /// No form. Takes no memory.
    pub fn new(alloc: Global) -> Simplex<S>
        ensures empty { result ≡ empty_state }
    {
        moves_keep_ready();
        Simplex {
            tab: Tab::new(alloc),
            trail: Trail::new(alloc),
            values: Vec::new(alloc),
            basic: Vec::new(alloc),
            nonbasic: Vec::new(alloc),
            why: Vec::new(alloc),
        }
    }

    /// How many forms there are.
    pub fn len(&self) -> usize
        ensures count { result ≡ length self.now.forms }
    {
        self.tab.len()
    }

    /// The parts of a form.
    pub fn form(&self, var: Var) -> &[Part]
        requires known { var < length self.now.forms }
        ensures form { result.now ≡ slice_index_or self.now.forms var [] }
    {
        self.tab.form(var)
    }

    /// Whether a form is basic.
    pub fn is_basic(&self, var: Var) -> bool
        requires known { var < length self.now.forms }
        ensures basic { result ≡ not (nonbasic_in self.now var) }
    {
        self.tab.is_basic(var)
    }

    /// The numbers of the basic forms, in order.
    pub fn basis(&self) -> &[Var]
        ensures basis { result.now ≡ basic_numbers self.now }
    {
        self.basic.as_slice()
    }

    /// The row of a basic form.
    pub fn row(&self, i: Var) -> Row<'_>
        requires known { i < length self.now.forms }
        requires basic { nonbasic_in self.now i ≡ false }
        ensures row { (ns : List Node) → IsOver ns self.now → IsRow (position_over ns self.now).forms (is_nonbasic (position_over ns self.now).point) i (coefficients_in result) }
    {
        known_tableau(&self.tab);
        self.tab.row(i)
    }

    /// The lower bound and the upper bound that stand of a form.
    pub fn bounds(&self, var: Var) -> (Option<Limit<S>>, Option<Limit<S>>)
        requires known { var < length self.now.forms }
        ensures lower { option_map (told_on S.stands_for var Lower) result.0 ≡ standing self.now.asserted var Lower }
        ensures upper { option_map (told_on S.stands_for var Upper) result.1 ≡ standing self.now.asserted var Upper }
    {
        self.trail.bounds(var)
    }

    /// Whether the value of a form is known. That of a nonbasic one is, and after a check each is that didn't stop.
    pub fn has_value(&self, var: Var) -> bool
        requires known { var < length self.now.forms }
        ensures known { IsTrue result ↔ IsSome (value_in self.now var) }
    {
        self.values[var].is_some()
    }

    /// The value of a form at the point.
    pub fn value(&self, var: Var) -> S
        requires known { var < length self.now.forms }
        requires valued { IsSome (value_in self.now var) }
        ensures value { value_in self.now var ≡ Some (S.stands_for result) }
    {
        self.values[var].unwrap()
    }
}

/// Says what holds of each simplex: its nonbasic forms have values, what is known is the value at the position, and the position is
/// ready for a check.
pub fn known_state<S: Coordinate>(simplex: &Simplex<S>)
    ensures sound { IsSound simplex.now }
{
    let _ = &simplex.tab;
}
