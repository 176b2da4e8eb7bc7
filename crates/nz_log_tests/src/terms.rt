//! What terms to try have: forms, and the companions of all.
ghost use Rattle.std.specs.Prelude.{OnOk};
ghost use Rattle.nz_spec.specs.terms.Order.{HasCompanions};

use nz_base::Memory;
use nz_lin::{Form, lin};
use nz_term::{ArithmeticStop, TermId, Terms, add_companions};
use std::alloc::Global;
use std::test::Fail;

/// Fails with what isn't so, where it isn't.
pub(crate) fn expect(holds: bool, what: &'static str) -> Result<(), Fail> {
    if holds { Ok(()) } else { Err(Fail::new(what)) }
}

/// The form of a linear term. One that isn't linear fails the test.
pub(crate) fn form(alloc: Global, terms: &Terms, id: TermId) -> Result<Form, ArithmeticStop> {
    if terms.len() <= id || !terms.is_linear(id) {
        return Err(ArithmeticStop::Memory);
    }
    lin(alloc, terms, id)
}

/// The companions of all terms join the table.
pub(crate) fn complete(alloc: Global, terms: &mut Terms) -> Result<(), Memory>
    ensures companions { OnOk result (HasCompanions terms.new) }
{
    add_companions(alloc, terms, 0)
}
