//! Forms and bounds of the tables' rows. Each operation takes forms that may have stopped, and hands on the first stop.
ghost use Rattle.std.specs.Prelude.{◌<◌, List, length};
ghost use Rattle.nz_spec.specs.numbers.Computation.{Computation, at_once, turned_into};
ghost use Rattle.nz_spec.specs.terms.Form as spec;
ghost use Rattle.nz_spec.specs.terms.Form.{negated_form, unit_form};
ghost use Rattle.nz_spec.specs.terms.FormOf.{form_of, number_in};
ghost use Rattle.nz_spec.specs.clauses.LinearLiteral.{is_at_most_zero, is_below_zero};
ghost use Rattle.nz_spec.specs.clauses.Links.{minus, plus};
ghost use Rattle.nz_spec.specs.clauses.Literal.{is_at_most};
ghost use Rattle.nz_spec.specs.terms.Table.{IsTable, Node, term_in};
ghost use Rattle.nz_spec.specs.clauses.Units.{at_most_number, below_number, times_unit};
ghost use Rattle.nz_lin.specs.Bounds.{IsLiteral};
ghost use Rattle.nz_lin.specs.Comes.{IsFormed};
ghost use Rattle.nz_rows.specs.Comparisons.{limit_of};
ghost use Rattle.nz_rows.specs.Opposites.{AreOpposites};
ghost use Rattle.nz_rows.specs.Rows.{IsLinearIn};

use nz_frac::Frac;
use nz_lin::laws::differences_are_opposite;
use nz_lin::{Bound, Form, lin};
use nz_term::{ArithmeticStop, TermId, Terms, known_table};
use std::alloc::Global;

/// A form, or the first operation that leaves the numbers on the way to it.
pub(crate) type Formed = Result<Form, ArithmeticStop>;

/// A bound, or the first operation that leaves the numbers on the way to it.
pub(crate) type Bounded = Result<Bound, ArithmeticStop>;

// ---- Forms

/// The form of a linear term.
pub(crate) fn form_of(alloc: Global, terms: &Terms, term: TermId) -> Formed
    requires linear { IsLinearIn terms.now term }
    ensures formed { IsFormed terms.now (form_of (number_in terms.now) (term_in terms.now term)) result }
{
    lin(alloc, terms, term)
}

/// A number times a unit of the table.
pub(crate) fn times(alloc: Global, terms: &Terms, factor: Frac, unit: TermId) -> Formed
    requires within { unit < length terms.now }
    ensures formed { IsFormed terms.now (at_once (times_unit factor (term_in terms.now unit))) result }
{
    let sort = terms.node(unit).head.sort();
    Ok(Form::times_unit(alloc, factor, unit, sort)?)
}

/// A unit of the table alone.
pub(crate) fn unit_alone(alloc: Global, terms: &Terms, unit: TermId) -> Formed
    requires within { unit < length terms.now }
    ensures formed { IsFormed terms.now (at_once (unit_form (term_in terms.now unit))) result }
{
    times(alloc, terms, Frac::whole(1), unit)
}

/// The form with the other sign.
pub(crate) fn opposite(alloc: Global, form: Formed) -> Formed
    ensures formed { (ns : List Node) (c : Computation spec.Form) → IsFormed ns c form → IsFormed ns (turned_into negated_form c) result }
{
    Ok(form?.negated(alloc)?)
}

/// The sum of two forms.
#[tactic(auto, using(crate::proofs::Formed::both_first, crate::proofs::Formed::both_second, crate::proofs::Formed::both_formed))]
pub(crate) fn plus(left: Formed, right: Formed) -> Formed
    ensures formed { (ns : List Node) (c d : Computation spec.Form) → IsTable ns → IsFormed ns c left → IsFormed ns d right → IsFormed ns (plus (number_in ns) c d) result }
{
    let left = left?;
    let right = right?;
    left.plus(&right)
}

/// The first form less the second.
#[tactic(auto, using(crate::proofs::Formed::both_first, crate::proofs::Formed::both_second, crate::proofs::Formed::both_formed))]
pub(crate) fn minus(left: Formed, right: Formed) -> Formed
    ensures formed { (ns : List Node) (c d : Computation spec.Form) → IsTable ns → IsFormed ns c left → IsFormed ns d right → IsFormed ns (minus (number_in ns) c d) result }
{
    let left = left?;
    let right = right?;
    left.minus(&right)
}

/// The form once more.
pub(crate) fn copied(alloc: Global, form: &Formed) -> Formed
    ensures formed { (ns : List Node) (c : Computation spec.Form) → IsFormed ns c form.now → IsFormed ns c result }
{
    match form {
        Ok(form) => Ok(form.copied(alloc)?),
        Err(stop) => Err(*stop),
    }
}

/// What two forms differ by, from either side.
pub(crate) struct Opposites {
    /// The first less the second.
    pub(crate) forward: Form,
    /// The second less the first.
    pub(crate) backward: Form,
}

/// What two forms differ by. It is made once: the one difference is the negation of the other.
#[tactic(auto, using(crate::proofs::Formed::both_first, crate::proofs::Formed::both_second, crate::proofs::Formed::both_stop))]
pub(crate) fn differences(
    alloc: Global,
    left: Formed,
    right: Formed,
) -> Result<Opposites, ArithmeticStop>
    ensures differ { (ns : List Node) (c d : Computation spec.Form) → IsTable ns → IsFormed ns c left → IsFormed ns d right → AreOpposites ns c d result }
{
    differences_are_opposite();
    let left = left?;
    let right = right?;
    let forward = left.minus(&right)?;
    let backward = forward.negated(alloc)?;
    Ok(Opposites { forward, backward })
}

/// What two linear terms differ by.
pub(crate) fn term_differences(
    alloc: Global,
    terms: &Terms,
    left: TermId,
    right: TermId,
) -> Result<Opposites, ArithmeticStop>
    requires left { IsLinearIn terms.now left }
    requires right { IsLinearIn terms.now right }
    ensures differ { AreOpposites terms.now (form_of (number_in terms.now) (term_in terms.now left)) (form_of (number_in terms.now) (term_in terms.now right)) result }
{
    known_table(terms);
    differences(
        alloc,
        form_of(alloc, terms, left),
        form_of(alloc, terms, right),
    )
}

// ---- Bounds

/// The form is at most 0.
pub(crate) fn at_most_zero(form: Formed) -> Bounded
    ensures literal { (ns : List Node) (c : Computation spec.Form) → IsFormed ns c form → IsLiteral ns (turned_into is_at_most_zero c) result }
{
    Ok(Bound::at_most_zero(form?))
}

/// The form is below 0.
pub(crate) fn below_zero(form: Formed) -> Bounded
    ensures literal { (ns : List Node) (c : Computation spec.Form) → IsFormed ns c form → IsLiteral ns (turned_into is_below_zero c) result }
{
    Ok(Bound::below_zero(form?))
}

/// The form is below 0, where the bound is strict, and else at most 0.
pub(crate) fn limited(form: Formed, strict: bool) -> Bounded
    ensures literal { (ns : List Node) (c : Computation spec.Form) → IsFormed ns c form → IsLiteral ns (turned_into (limit_of strict) c) result }
{
    if strict {
        below_zero(form)
    } else {
        at_most_zero(form)
    }
}

/// The form is at most a number.
#[tactic(auto, using(crate::proofs::Operations::stop_before))]
pub(crate) fn at_most_number(form: Formed, number: Frac) -> Bounded
    ensures literal { (ns : List Node) (c : Computation spec.Form) → IsFormed ns c form → IsLiteral ns (at_most_number number c) result }
{
    Bound::at_most(form?, number)
}

/// The form is below a number.
#[tactic(auto, using(crate::proofs::Operations::stop_before))]
pub(crate) fn below_number(form: Formed, number: Frac) -> Bounded
    ensures literal { (ns : List Node) (c : Computation spec.Form) → IsFormed ns c form → IsLiteral ns (below_number number c) result }
{
    Bound::below(form?, number)
}

/// The units of the form, without what it adds, are at most a number.
pub(crate) fn units_at_most(form: Formed, number: Frac) -> Bounded
    ensures literal { (ns : List Node) (c : Computation spec.Form) → IsFormed ns c form → IsLiteral ns (turned_into (λ f. is_at_most f.parts number) c) result }
{
    Ok(Bound::at_most_zero(form?).with_limit(number))
}
