//! The order in which a term list has shared terms: that of their parts, with what it has besides these.
ghost use Rattle.std.specs.Prelude.{◌≡◌, ◌<◌, ◌++◌, [], ◌∷◌, List, length, map, flat_map, All, IfOk, OnOk};
ghost use Rattle.nz_spec.specs.terms.Order.{listing_order, AreFirst, HasCompanions};
ghost use Rattle.nz_spec.specs.terms.Table.{term_in, HasOneNumberEach};
ghost use Rattle.nz_spec.specs.terms.Table as table;
ghost use Rattle.nz_spec.specs.terms.Term as spec;
ghost use Rattle.nz_term.specs.Listings.{with_companions, AreCompanions, IsListing};

use crate::companions::companion_head;
use crate::nodes::TermId;
use crate::order::post_order;
use crate::terms::Terms;
use nz_base::Memory;
use nz_spec::table::one_number;
use std::alloc::Global;

/// The terms of these roots with all that they are made of, each once, as a term list has them: in post-order, and just
/// before a remainder its quotient, before a test of an integer the rounded number.
pub fn listing_order(alloc: Global, terms: &Terms, roots: &[TermId]) -> Result<Vec<TermId>, Memory>
    requires within { All (λ r. r < length terms.now) roots.now }
    requires companions { HasCompanions terms.now }
    ensures order { IfOk result (λ ids. AreFirst [] (flat_map listing_order (map (term_in terms.now) roots.now)) (map (term_in terms.now) ids.items)) }
    ensures within { IfOk result (λ ids. All (λ i. i < length terms.now) ids.items) }
{
    one_number();
    let order = post_order(alloc, terms, roots)?;
    let mut listing = Listing::new(alloc, terms.len())?;
    for id in &order {
        list_term(terms, &mut listing, *id)?;
    }
    Ok(listing.ids)
}

// Numbers of terms, each once.
#[derive(Debug, Drop)]
struct Listing {
    ids: Vec<TermId>,
    // Of each number of the table, whether it is listed.
    is_listed: Vec<bool>,
}

impl Listing {
    /// Nothing of a table of so many terms.
    fn new(alloc: Global, count: usize) -> Result<Listing, Memory>
        ensures room { IfOk result (λ s. length s.is_listed.items ≡ count) }
        ensures empty { IfOk result (λ s. (ns : List table.Node) → length ns ≡ count → IsListing ns [] s) }
    {
        Ok(Listing {
            ids: Vec::new(alloc),
            is_listed: vec![in alloc; false; count]?,
        })
    }

    /// Puts a number at the end, where it isn't listed.
    fn list(&mut self, id: TermId) -> Result<(), Memory>
        requires room { id < length self.old.is_listed.items }
        ensures room { OnOk result (length self.new.is_listed.items ≡ length self.old.is_listed.items) }
        ensures listed { OnOk result ((ns : List table.Node) (all : List spec.Term) → HasOneNumberEach ns → IsListing ns all self.old → IsListing ns (all ++ term_in ns id ∷ []) self.new) }
    {
        if self.is_listed[id] {
            return Ok(());
        }
        self.ids.push(id)?;
        self.is_listed[id] = true;
        Ok(())
    }
}

/// Lists a term behind its companion, where it has one, each if it isn't listed.
fn list_term(terms: &Terms, listing: &mut Listing, id: TermId) -> Result<(), Memory>
    requires within { id < length terms.now }
    requires companions { HasCompanions terms.now }
    requires room { length listing.old.is_listed.items ≡ length terms.now }
    ensures room { OnOk result (length listing.new.is_listed.items ≡ length terms.now) }
    ensures listed { OnOk result ((all : List spec.Term) → HasOneNumberEach terms.now → IsListing terms.now all listing.old → IsListing terms.now (all ++ with_companions (term_in terms.now id)) listing.new) }
{
    match companion(terms, id)? {
        Some(companion) => {
            listing.list(companion)?;
            listing.list(id)
        }
        None => listing.list(id),
    }
}

/// The number of what a term list has just before this term, where it has something: its companion.
///
/// # Errors
///
/// `Memory`.
pub fn companion(terms: &Terms, id: TermId) -> Result<Option<TermId>, Memory>
    requires within { id < length terms.now }
    requires companions { HasCompanions terms.now }
    ensures companion { IfOk result (AreCompanions terms.now (term_in terms.now id)) }
{
    let node = terms.node(id);
    match companion_head(node.head) {
        Some(head) => terms.find(head, node.kids),
        None => Ok(None),
    }
}
