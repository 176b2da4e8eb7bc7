//! What a term list has besides what its terms are made of: a remainder's quotient, and the rounded number of a test of an integer.
//! These are made where terms are made, so that a table whose terms are only listed stays as it is.
ghost use Rattle.std.specs.Prelude.{◌≡◌, ℕ, ◌<◌, ◌≤◌, [], length, take, OnOk, option_map};
ghost use Rattle.std.specs.List.{AllByRecursion};
ghost use Rattle.nz_spec.specs.terms.Order.{companions_of, HasCompanions, IsInTable};
ghost use Rattle.nz_spec.specs.terms.Table.{term_in};
ghost use Rattle.nz_term.specs.Growth.{Grows};
ghost use Rattle.nz_term.specs.Heads.{head_of};
ghost use Rattle.nz_term.specs.Listings.{companion_head};

use crate::heads::{Head, Operator};
use crate::nodes::TermId;
use crate::terms::Terms;
use nz_base::Memory;
use nz_spec::table::term_stays;
use std::alloc::Global;

/// Makes the companions of the terms from this number on, each where the table hasn't it.
pub fn add_companions(alloc: Global, terms: &mut Terms, from: usize) -> Result<(), Memory>
    ensures grows { Grows terms.old terms.new }
    ensures companions { OnOk result (HasCompanions (take from terms.old) → HasCompanions terms.new) }
{
    term_stays();
    for id in from..terms.len() {
        make_companion(alloc, terms, id)?;
    }
    Ok(())
}

/// Makes the companion of a term, where it has one and the table hasn't it. What is made has none itself.
fn make_companion(alloc: Global, terms: &mut Terms, id: TermId) -> Result<(), Memory>
    requires within { id < length terms.old }
    ensures grows { Grows terms.old terms.new }
    ensures made { OnOk result (AllByRecursion (IsInTable terms.new) (companions_of (term_in terms.old id))) }
    ensures alone { (i : ℕ) → length terms.old ≤ i → i < length terms.new → companions_of (term_in terms.new i) ≡ [] }
{
    let node = terms.node(id);
    let head = match companion_head(node.head) {
        Some(head) => head,
        None => return Ok(()),
    };
    let kids = Vec::from_slice(alloc, node.kids)?;
    terms.make(head, kids.as_slice())?;
    Ok(())
}

/// The head of what a term list has just before a term of this head.
pub(crate) fn companion_head(head: Head<'_>) -> Option<Head<'static>>
    ensures companion { option_map head_of result ≡ companion_head (head_of head.entry) }
{
    match head {
        Head::Operator(Operator::Mod) => Some(Head::Operator(Operator::Div)),
        Head::Operator(Operator::IsInt) => Some(Head::Operator(Operator::ToInt)),
        _ => None,
    }
}
