//! Where an operation left the numbers.
ghost use Rattle.std.specs.Prelude.{◌≡◌};
ghost use Rattle.nz_fractions.specs.Fraction.{IsNumber};

use nz_frac::Wide;
use nz_lin::{Bound, BoundMultiple, Family};
use nz_term::{Assign, TermId};
use nz_trail::{Side, Var};

/// A computation of a check. Forms are named by their numbers in the simplex.
#[derive(Debug, Drop)]
pub enum Site {
    /// The form of a term, or a bound of its rows in the link table or in the unit table.
    Term(TermId),
    /// The sum of a goal, by its number, compared with a number.
    Goal(usize),
    /// The row of the form that joined last.
    Joining,
    /// The rows after an exchange of two forms.
    Exchange { leaves: Var, enters: Var },
    /// The value of a form.
    Value { form: Var },
    /// The sum of multiples of bounds, which is a contradiction.
    Sum(Vec<BoundMultiple>),
    /// The sum of multiples of bounds, and its limit rounded.
    Cut(Vec<BoundMultiple>),
    /// The tight form of a bound.
    Tight(Bound),
    /// The integers beside the value of a unit.
    Split(TermId),
    /// How far a form may move until another one comes to its bound of a side.
    Move { form: Var, moves: Var, side: Side },
    /// How far an infinitesimal may grow, for a form and its bound of a side.
    Limit { form: Var, side: Side },
    /// The value of a form where a fraction stands for the infinitesimal.
    Model { form: Var },
    /// The value of a term at a model.
    Worth { term: TermId, model: Assign },
    /// The line of a term along a steady family.
    Line { term: TermId, family: Family },
    /// The line of a goal's form along such a family.
    GoalLine { goal: usize, family: Family },
    /// The coefficients of some forms at one that moves, scaled to integers.
    Scaling { forms: Vec<Var>, moves: Var },
}

/// An operation that left the numbers, and where.
#[derive(Debug, Drop)]
pub struct Place {
    pub wide: Wide,
    pub site: Site,
}

impl Place {
    /// The place of an operation that left the numbers. Both operands are numbers, as every fraction is.
    pub fn new(wide: Wide, site: Site) -> Place
        ensures place { result ≡ record { wide = wide; site = site } }
        ensures left { IsNumber wide.a }
        ensures right { IsNumber wide.b }
    {
        wide.a.num();
        wide.b.num();
        Place { wide, site }
    }
}
