//! A simplex with the terms of its forms and the bounds that were asserted. What a call asks is tested here, so that tests have nothing to prove of it.
use nz_base::{Entry, Memory, Noted, Work};
use nz_lin::lin;
use nz_simplex::{Check, Coordinate, Simplex, SimplexStop};
use nz_term::{NumberSort, Operator, Sort, TermId, Terms};
use nz_term_samples::{constant, operation, times};
use nz_trail::{AssertOutcome, Limit, Side, Var};
use std::alloc::Global;

/// The units x, y and z.
pub(crate) const UNITS: [TermId; 3] = [0, 1, 2];

/// A bound that was asserted: a form, a side, and the value. Its reason is its place in a list.
pub(crate) type Given<S> = (Var, Side, S);

/// How many bounds the simplex had, and how many the list.
type Mark = (usize, usize);

/// A simplex over the three units, with the bounds that were asserted in it.
#[derive(Drop)]
pub(crate) struct System<S: Coordinate> {
    alloc: Global,
    terms: Terms,
    simplex: Simplex<S>,
    // But for those that clashed at once, and those that were taken back.
    given: Vec<Given<S>>,
    marks: Vec<Mark>,
    // The exchanges of the last check.
    work: Work<()>,
}

impl<S: Coordinate> System<S> {
    /// No form, and no bound.
    pub(crate) fn new(alloc: Global) -> Result<System<S>, Memory> {
        let work = Work::new(alloc)?;
        let terms = units(alloc)?;
        Ok(System {
            alloc,
            terms,
            simplex: Simplex::new(alloc),
            given: Vec::new(alloc),
            marks: Vec::new(alloc),
            work,
        })
    }

    /// The simplex.
    pub(crate) fn simplex(&self) -> &Simplex<S> {
        &self.simplex
    }

    /// The bounds that were asserted.
    pub(crate) fn given(&self) -> &[Given<S>] {
        self.given.as_slice()
    }

    /// Adds the form of a sum of multiples of units. Answers its number.
    pub(crate) fn add(&mut self, multiples: &[(i128, TermId)]) -> Result<Var, Memory> {
        let sum = sum_of(self.alloc, &mut self.terms, multiples)?;
        add_term(self.alloc, &self.terms, &mut self.simplex, sum).ok_or(Memory)
    }

    /// Asserts a bound, and puts it on the list where it doesn't clash.
    pub(crate) fn give(&mut self, var: Var, side: Side, value: S) -> Result<AssertOutcome, Memory> {
        let reason = self.given.len();
        let bound = put(&mut self.simplex, var, side, value, reason)?;
        if !matches!(bound, AssertOutcome::Clash(_, _)) {
            self.given.push((var, side, value))?;
        }
        Ok(bound)
    }

    /// Notes how many bounds there are.
    pub(crate) fn mark(&mut self) -> Result<(), Memory> {
        let mark = (self.simplex.mark(), self.given.len());
        self.marks.push(mark)?;
        Ok(())
    }

    /// Takes the bounds back to the last mark, and that mark too.
    pub(crate) fn back(&mut self) {
        if let Some((mark, given)) = self.marks.pop() {
            undo_to(&mut self.simplex, mark);
            self.given.truncate(given);
        }
    }

    /// What a check comes to that may take so many exchanges.
    pub(crate) fn check(&mut self, limit: u64) -> Result<Result<Check, SimplexStop>, Memory> {
        self.work.reserve(limit)?;
        Ok(self.simplex.check(&mut self.work))
    }

    /// Whether the last check took just these exchanges: which form left the basis, and which entered it.
    pub(crate) fn took(&self, exchanges: &[(Var, Var)]) -> bool {
        are_exchanges(&self.work, exchanges)
    }

    /// Settles a form. Answers whether it could be: it was nonbasic and without bounds, and no number left the numbers.
    pub(crate) fn settle(&mut self, var: Var) -> bool {
        is_settled(&mut self.simplex, var)
    }
}

/// The terms of the units.
fn units(alloc: Global) -> Result<Terms, Memory> {
    let mut terms = Terms::new(alloc)?;
    make_units(alloc, &mut terms)?;
    Ok(terms)
}

/// Makes the units.
fn make_units(alloc: Global, terms: &mut Terms) -> Result<(), Memory> {
    constant(alloc, terms, b"x", Sort::Real)?;
    constant(alloc, terms, b"y", Sort::Real)?;
    constant(alloc, terms, b"z", Sort::Real)?;
    Ok(())
}

/// An integer times a unit.
fn multiple(terms: &mut Terms, coefficient: i128, unit: TermId) -> Result<TermId, Memory> {
    let size = times(terms, NumberSort::Real, coefficient.unsigned_abs(), unit)?;
    if coefficient < 0 {
        operation(terms, Operator::Difference(NumberSort::Real), &[size])
    } else {
        Ok(size)
    }
}

/// A sum of multiples of units.
fn sum_of(
    alloc: Global,
    terms: &mut Terms,
    multiples: &[(i128, TermId)],
) -> Result<TermId, Memory> {
    let mut parts = Vec::new(alloc);
    for (coefficient, unit) in multiples {
        parts.push(multiple(terms, *coefficient, *unit)?)?;
    }
    operation(terms, Operator::Sum(NumberSort::Real), &parts)
}

/// Adds the form of a term. Answers its number.
fn add_term<S: Coordinate>(
    alloc: Global,
    terms: &Terms,
    simplex: &mut Simplex<S>,
    id: TermId,
) -> Option<Var> {
    if terms.len() <= id || !terms.is_linear(id) {
        return None;
    }
    let form = lin(alloc, terms, id).ok()?;
    simplex.add_form(&form).ok()
}

/// Asserts a bound of a form that is known.
fn put<S: Coordinate>(
    simplex: &mut Simplex<S>,
    var: Var,
    side: Side,
    value: S,
    reason: usize,
) -> Result<AssertOutcome, Memory> {
    if var >= simplex.len() {
        return Err(Memory);
    }
    simplex.assert_bound(var, side, value, reason)
}

/// Takes the bounds back to a mark, where it was reached.
fn undo_to<S: Coordinate>(simplex: &mut Simplex<S>, mark: usize) {
    if mark <= simplex.mark() {
        simplex.undo(mark);
    }
}

/// Settles a form, where it is nonbasic and without bounds. Answers whether that could be done.
fn is_settled<S: Coordinate>(simplex: &mut Simplex<S>, var: Var) -> bool {
    if var >= simplex.len() || simplex.is_basic(var) {
        return false;
    }
    match simplex.bounds(var) {
        (None, None) => simplex.settle(&[var]).is_ok(),
        _ => false,
    }
}

/// The exchange of a line of work.
fn exchange(line: Noted<'_, ()>) -> Option<(Var, Var)> {
    match line {
        Noted::Unit(Entry::Pivot { leaves, enters }) => Some((*leaves, *enters)),
        _ => None,
    }
}

/// Whether these lines are just these exchanges.
fn are_exchanges(work: &Work<()>, exchanges: &[(Var, Var)]) -> bool {
    if work.len() != exchanges.len() as u64 {
        return false;
    }
    for place in 0..work.len() {
        if exchange(work.get(place)) != exchanges.get(place as usize).copied() {
            return false;
        }
    }
    true
}

/// The bounds of a form, where it is known.
pub(crate) fn bounds<S: Coordinate>(
    simplex: &Simplex<S>,
    var: Var,
) -> (Option<Limit<S>>, Option<Limit<S>>) {
    if var < simplex.len() {
        simplex.bounds(var)
    } else {
        (None, None)
    }
}

/// The value of a form, where it is known.
pub(crate) fn value<S: Coordinate>(simplex: &Simplex<S>, var: Var) -> Option<S> {
    if var < simplex.len() && simplex.has_value(var) {
        Some(simplex.value(var))
    } else {
        None
    }
}
