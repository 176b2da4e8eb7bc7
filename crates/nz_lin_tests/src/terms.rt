//! The forms of terms that tables tell.
use nz_lin::{Form, lin};
use nz_term::{ArithmeticStop, TermId, Terms};
use nz_term_samples::{Term, make_all};
use std::alloc::Global;

/// Another outcome than was wanted, and at which place of a table.
#[derive(Clone, Copy, Debug)]
pub(crate) struct Wrong {
    pub(crate) place: usize,
}

/// The form of a linear term. One that isn't linear fails the test.
pub(crate) fn form(alloc: Global, terms: &Terms, id: TermId) -> Result<Form, ArithmeticStop> {
    if terms.len() <= id || !terms.is_linear(id) {
        return Err(ArithmeticStop::Memory);
    }
    lin(alloc, terms, id)
}

/// The form of a term of a list.
pub(crate) fn form_among(
    alloc: Global,
    terms: &mut Terms,
    list: &[Term],
    id: TermId,
) -> Result<Form, ArithmeticStop> {
    make_all(alloc, terms, list)?;
    form(alloc, terms, id)
}
