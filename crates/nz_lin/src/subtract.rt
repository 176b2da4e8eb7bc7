//! The form of one term less that of another.
ghost use Rattle.std.specs.Prelude.{◌<◌, IsTrue, length};
ghost use Rattle.nz_spec.specs.terms.FormOf.{form_of, number_in};
ghost use Rattle.nz_spec.specs.terms.Linear.{is_linear};
ghost use Rattle.nz_spec.specs.clauses.Links.{minus};
ghost use Rattle.nz_spec.specs.terms.Table.{term_in};
ghost use Rattle.nz_lin.specs.Comes.{IsFormed};

use crate::form::{Form, Sign};
use crate::linear::lin;
use nz_term::{ArithmeticStop, TermId, Terms, known_table};
use std::alloc::Global;

/// The form of a linear term less that of another.
///
/// # Errors
///
/// `Wide` with the first operation that leaves the numbers: those of the first form, those of the second, and then those of
/// the difference; `Memory`.
pub fn lin_difference(
    alloc: Global,
    terms: &Terms,
    left: TermId,
    right: TermId,
) -> Result<Form, ArithmeticStop>
    requires left { left < length terms.now }
    requires right { right < length terms.now }
    requires left_linear { IsTrue (is_linear (term_in terms.now left)) }
    requires right_linear { IsTrue (is_linear (term_in terms.now right)) }
    ensures formed { IsFormed terms.now (minus (number_in terms.now) (form_of (number_in terms.now) (term_in terms.now left)) (form_of (number_in terms.now) (term_in terms.now right))) result }
{
    known_table(terms);
    let mut form = lin(alloc, terms, left)?;
    let other = lin(alloc, terms, right)?;
    form.join(Sign::Minus, &other)?;
    Ok(form)
}
