//! The values of terms, where the constants of their table have given values.
ghost use Rattle.std.specs.Prelude.{◌≡◌, ◌<◌, length, map, flat_map, All, IfOk, IfErr};
ghost use Rattle.nz_fractions.specs.Fraction.{first_wide};
ghost use Rattle.nz_spec.specs.terms.Operations.{operations_of};
ghost use Rattle.nz_spec.specs.terms.Term.{value_of};
ghost use Rattle.nz_spec.specs.terms.Table.{term_in, assignment_by};
ghost use Rattle.nz_term.specs.Values as own;
ghost use Rattle.nz_term.specs.Stops.{IsStopAt};

use crate::walk::{evaluated, gather};
use nz_term::{ArithmeticStop, Assign, TermId, Terms, Value};
use std::alloc::Global;
use std::marker::Model;

/// Values of terms, in order. A contract sees them as a list.
#[derive(Debug, Drop)]
pub struct Values {
    values: Vec<Value>,
}

impl Model for Values {
    ghost use Rattle.std.specs.Prelude.{List, map};
    ghost use Rattle.nz_spec.specs.terms.Term as spec;

    ghost Value = { List spec.Value };

    ghost use Rattle.nz_term.specs.Values.{value_of};

    ghost view = { λ v. map value_of v.values.items };
}

impl Values {
    /// The values in their order.
    pub fn as_slice(&self) -> &[Value]
        ensures values { map own.value_of result.now ≡ self.now }
    {
        self.values.as_slice()
    }
}

/// The values of these roots, where the constants have the values that `assign` gives their numbers, and the defaults of
/// their sorts where it gives none. Each shared term is evaluated once.
///
/// # Errors
///
/// `Wide` with the first operation that leaves the numbers, in post-order of the roots from the left; `Memory`.
pub fn eval(
    alloc: Global,
    terms: &Terms,
    roots: &[TermId],
    assign: &Assign,
) -> Result<Values, ArithmeticStop>
    requires within { All (λ r. r < length terms.now) roots.now }
    ensures values { IfOk result (λ vs. vs ≡ map (λ r. value_of (assignment_by terms.now assign.now) (term_in terms.now r)) roots.now) }
    ensures fits { IfOk result (λ vs. first_wide (flat_map (λ r. operations_of (assignment_by terms.now assign.now) (term_in terms.now r)) roots.now) ≡ None) }
    ensures wide { IfErr result (λ s. IsStopAt (first_wide (flat_map (λ r. operations_of (assignment_by terms.now assign.now) (term_in terms.now r)) roots.now)) s) }
{
    let outcomes = evaluated(alloc, terms, roots, assign)?;
    let mut values = Vec::new(alloc);
    match gather(roots, &outcomes, &mut values)? {
        Some(wide) => Err(ArithmeticStop::Wide(wide)),
        None => Ok(Values { values }),
    }
}
