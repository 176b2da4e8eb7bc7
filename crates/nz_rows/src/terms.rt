//! What the tables ask of terms.
ghost use Rattle.std.specs.Prelude.{◌≡◌, ◌<◌, All, IfOk, length};
ghost use Rattle.nz_spec.specs.terms.Order.{IsInTable};
ghost use Rattle.nz_spec.specs.terms.Table.{term_in, terms_at};
ghost use Rattle.nz_spec.specs.terms.Term.{apply};
ghost use Rattle.nz_term.specs.Heads.{operator_of};
ghost use Rattle.nz_rows.specs.GateRows.{is_boolean_at};
ghost use Rattle.nz_rows.specs.Rows.{IsTermOf};

use nz_base::Memory;
use nz_term::{Head, Operator, Sort, TermId, Terms};

/// Whether a term is of sort Bool.
pub(crate) fn is_boolean(terms: &Terms, term: TermId) -> bool
    requires within { term < length terms.now }
    ensures boolean { result ≡ is_boolean_at terms.now term }
{
    match terms.node(term).head.sort() {
        Sort::Bool => true,
        Sort::Int => false,
        Sort::Real => false,
    }
}

/// The number of the term of an operator over arguments, which is in the table.
pub(crate) fn listed(terms: &Terms, operator: Operator, kids: &[TermId]) -> Result<TermId, Memory>
    requires within { All (λ k. k < length terms.now) kids.now }
    requires listed { IsInTable terms.now (apply (operator_of operator) (terms_at (term_in terms.now) kids.now)) }
    ensures term { IfOk result (IsTermOf terms.now (apply (operator_of operator) (terms_at (term_in terms.now) kids.now))) }
{
    match terms.find(Head::Operator(operator), kids)? {
        Some(term) => Ok(term),
        None => unreachable!(),
    }
}
