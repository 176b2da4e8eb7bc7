//! What is covered with a term: its arguments, and what a term list has just before it.
ghost use Rattle.std.specs.Prelude.{◌<◌, OnOk, length};
ghost use Rattle.nz_spec.specs.terms.Order.{HasCompanions};
ghost use Rattle.nz_cform.specs.Covering.{PutsParts};

use nz_base::Memory;
use nz_term::{TermId, Terms, companion};

/// Puts what is covered with a term at the end of a list: its arguments, and then its companion, where it has one.
pub fn put_parts(terms: &Terms, term: TermId, waiting: &mut Vec<TermId>) -> Result<(), Memory>
    requires within { term < length terms.now }
    requires companions { HasCompanions terms.now }
    ensures puts { OnOk result (PutsParts terms.now term waiting.old.items waiting.new.items) }
{
    let node = terms.node(term);
    waiting.extend_from_slice(node.kids)?;
    match companion(terms, term)? {
        Some(companion) => {
            waiting.push(companion)?;
            Ok(())
        }
        None => Ok(()),
    }
}
