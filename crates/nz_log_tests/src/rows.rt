//! The row of one number of each table, as a reader of derivations wants it.
ghost use Rattle.std.specs.Prelude.{◌≡◌, ◌<◌, IfOk, IsTrue, Some, length, slice_get};
ghost use Rattle.nz_spec.specs.terms.Linear.{is_linear};
ghost use Rattle.nz_spec.specs.terms.Order.{HasCompanions};
ghost use Rattle.nz_spec.specs.terms.Table.{term_in};
ghost use Rattle.nz_rows.specs.GateRows.{gates_at};
ghost use Rattle.nz_rows.specs.Rows as table;
ghost use Rattle.nz_rows.specs.Rows.{IsRowAt};

use nz_base::Memory;
use nz_rows::{RowLiteral, gate_rows, link_rows, unit_rows};
use nz_term::{ArithmeticStop, TermId, TermLit, Terms};
use std::alloc::Global;

/// The row of this number of a term of the gate table.
pub fn gate_row(
    alloc: Global,
    terms: &Terms,
    term: TermId,
    j: usize,
) -> Result<Vec<TermLit>, Memory>
    requires within { term < length terms.now }
    ensures row { IfOk result (λ v. slice_get (gates_at terms.now term) j ≡ Some v.items) }
{
    let mut rows = gate_rows(alloc, terms, term)?;
    if rows.len() <= j {
        return Err(Memory);
    }
    Ok(rows.remove(j))
}

/// That of the link table.
pub fn link_row(
    alloc: Global,
    terms: &Terms,
    term: TermId,
    j: usize,
) -> Result<Vec<RowLiteral>, ArithmeticStop>
    requires within { term < length terms.now }
    requires linear { IsTrue (is_linear (term_in terms.now term)) }
    requires companions { HasCompanions terms.now }
    ensures row { IfOk result (λ v. IsRowAt terms.now (table.link_rows terms.now (term_in terms.now term)) j v.items) }
{
    let mut rows = link_rows(alloc, terms, term)?;
    if rows.len() <= j {
        return Err(ArithmeticStop::Memory);
    }
    Ok(rows.remove(j))
}

/// That of the unit table.
pub fn unit_row(
    alloc: Global,
    terms: &Terms,
    term: TermId,
    j: usize,
) -> Result<Vec<RowLiteral>, ArithmeticStop>
    requires within { term < length terms.now }
    requires linear { IsTrue (is_linear (term_in terms.now term)) }
    requires companions { HasCompanions terms.now }
    ensures row { IfOk result (λ v. IsRowAt terms.now (table.unit_rows terms.now (term_in terms.now term)) j v.items) }
{
    let mut rows = unit_rows(alloc, terms, term)?;
    if rows.len() <= j {
        return Err(ArithmeticStop::Memory);
    }
    Ok(rows.remove(j))
}
