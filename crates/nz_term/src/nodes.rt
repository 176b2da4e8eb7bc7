//! Nodes as a table keeps them: each once, and what they are of beside them.
ghost use Rattle.std.specs.Prelude.{◌≡◌, ◌<◌, [], length, take, slice_get, All, IsTrue, Some, IfOk, OnErr, bytes_eq};
ghost use Rattle.std.proofs.Common.{rules};
ghost use Rattle.std.specs.Cmp.{on_equiv, on_per, partial_equiv_from_equiv};
ghost use Rattle.std.specs.Cmp.Lexicographic.{nat_list_eq_equiv};
ghost use Rattle.std.specs.Cmp.Rules.{hashing};
ghost use Rattle.std.specs.Hash as fed;
ghost use Rattle.nz_spec.specs.terms.Term.{apply, head_fits};
ghost use Rattle.nz_spec.specs.terms.Table.{HasItsArguments, IsTable, term_in, terms_at};
ghost use Rattle.nz_term.specs.Found.{IsFound};
ghost use Rattle.nz_term.specs.Growth.{GoesOn};
ghost use Rattle.nz_term.specs.Heads.{head_of};
ghost use Rattle.nz_term.specs.Nodes.{node_of, node_with};
ghost use Rattle.nz_term.specs.Symbols.{HasLeaf, head_in};

use crate::heads::Head;
use crate::leaves::{Key, Leaf};
use crate::symbols::{Symbol, found_symbol, put_symbol};
use indexmap::IndexSet;
use nz_base::Memory;
use nz_spec::table::{one_number, term_of_node};
use nz_spec::term::tells_heads;
use smallvec::SmallVec;
use std::alloc::Global;
use std::hash::{Hash, Hasher};
use std::marker::Model;

/// The number of a term in its table.
pub type TermId = usize;

/// How many arguments a node holds without memory of its own: most operators have no more.
const FEW: usize = 2;

/// Numbers of terms, in order. A contract sees them as a list.
#[derive(Debug, Drop)]
struct Ids {
    ids: SmallVec<TermId, FEW>,
}

impl Model for Ids {
    ghost use Rattle.std.specs.Prelude.{List, ℕ};

    ghost Value = { List ℕ };

    ghost view = { λ s. s.ids.items };
}

impl Ids {
    /// A list of its own of these numbers.
    fn from_slice(alloc: Global, ids: &[TermId]) -> Result<Ids, Memory>
        ensures ids { IfOk result (λ s. s ≡ ids.now) }
    {
        let ids = SmallVec::from_slice(alloc, ids)?;
        Ok(Ids { ids })
    }

    /// The numbers in their order.
    fn as_slice(&self) -> &[TermId]
        ensures ids { result.now ≡ self.now }
    {
        self.ids.as_slice()
    }
}

impl PartialEq for Ids {
    ghost eq = { λ a b. bytes_eq a b };

    ghost laws = { on_per (λ a. a) (partial_equiv_from_equiv nat_list_eq_equiv) };

    fn eq(&self, other: &Ids) -> bool {
        self.as_slice() == other.as_slice()
    }
}

impl Eq for Ids {
    ghost laws = { on_equiv (λ a. a) nat_list_eq_equiv };
}

impl Hash for Ids {
    ghost hash_input = { λ s. fed.slice fed.usize s };

    ghost respects_eq = { Prim.search (hashing, rules) };

    fn hash<H: Hasher>(&self, state: &mut H) {
        self.as_slice().hash(state);
    }
}

/// A node as it is kept. It takes 40 bytes.
#[derive(Debug, Drop, PartialEq, Eq, Hash)]
struct Stored {
    symbol: Symbol,
    kids: Ids,
}

/// A node of a table, lent: a head and the numbers of its arguments.
#[derive(Clone, Copy, Debug)]
pub struct Node<'a> {
    pub head: Head<'a>,
    pub kids: &'a [TermId],
}

/// The nodes of a table. A contract sees them as a list, the oldest first.
#[derive(Debug, Drop)]
pub(crate) struct Nodes {
    nodes: IndexSet<Stored>,
    // What nodes are of that isn't an operator. Those that no node is of any more stay.
    leaves: IndexSet<Leaf>,
}

impl Model for Nodes {
    ghost use Rattle.std.specs.Prelude.{List};
    ghost use Rattle.nz_spec.specs.terms.Table.{Node};

    ghost Value = { List Node };

    ghost use Rattle.nz_term.specs.Stored.{AreStored, nodes_in};

    ghost view = { λ s. nodes_in s.leaves.keys s.nodes.keys };

    ghost invariant = { λ s. AreStored s.leaves.keys s.nodes.keys };
}

impl Nodes {
    /// No nodes yet. Takes no memory.
    pub(crate) fn new(alloc: Global) -> Nodes
        ensures empty { result ≡ [] }
    {
        Nodes {
            nodes: IndexSet::new(alloc),
            leaves: IndexSet::new(alloc),
        }
    }

    /// How many nodes there are.
    pub(crate) fn len(&self) -> usize
        ensures len { result ≡ length self.now }
    {
        self.nodes.len()
    }

    /// The number of a node, which is put last where it isn't there.
    pub(crate) fn put(&mut self, head: Head<'_>, kids: &[TermId]) -> Result<TermId, Memory>
        requires table { IsTable self.old }
        requires within { All (λ k. k < length self.old) kids.now }
        requires fits { IsTrue (head_fits (head_of head)) }
        requires leaves { HasItsArguments (head_of head) kids.now }
        ensures goes_on { GoesOn self.old (node_with head.entry kids.now) self.new }
        ensures table { IsTable self.new }
        ensures node { IfOk result (λ id. slice_get self.new id ≡ Some (node_with head.entry kids.now)) }
        ensures unchanged { OnErr result (self.new ≡ self.old) }
    {
        tells_heads();
        let kids = Ids::from_slice(*self.nodes.allocator(), kids)?;
        let key = Key::of(head)?;
        let symbol = put_symbol(&mut self.leaves, key)?;
        let (id, _) = self.nodes.insert_full(Stored { symbol, kids })?;
        Ok(id)
    }

    /// The number of a node, where it is there. The memory is for the key that it is looked up by.
    pub(crate) fn find(&self, head: Head<'_>, kids: &[TermId]) -> Result<Option<TermId>, Memory>
        requires table { IsTable self.now }
        requires within { All (λ k. k < length self.now) kids.now }
        ensures found { IfOk result (IsFound self.now (apply (head_of head.entry) (terms_at (term_in self.now) kids.now))) }
    {
        tells_heads();
        one_number();
        term_of_node();
        let key = Key::of(head)?;
        match found_symbol(&self.leaves, &key)? {
            Some(symbol) => {
                let kids = Ids::from_slice(*self.nodes.allocator(), kids)?;
                Ok(self.nodes.get_index_of(&Stored { symbol, kids }))
            }
            None => Ok(None),
        }
    }

    /// The node of a number.
    pub(crate) fn get(&self, id: TermId) -> Node<'_>
        requires within { id < length self.now }
        ensures node { slice_get self.now id ≡ Some (node_of result) }
    {
        let node = &self.nodes.as_slice()[id];
        Node {
            head: head_at(&self.leaves, node.symbol),
            kids: node.kids.as_slice(),
        }
    }

    /// Leaves the first nodes, so many. Takes no memory.
    pub(crate) fn truncate(&mut self, len: usize)
        ensures front { self.new ≡ take len self.old }
    {
        self.nodes.truncate(len);
    }
}

/// The head of a symbol.
fn head_at(leaves: &IndexSet<Leaf>, symbol: Symbol) -> Head<'_>
    requires within { HasLeaf leaves.now.keys symbol }
    ensures head { head_of result ≡ head_in leaves.now.keys symbol }
{
    match symbol {
        Symbol::Leaf(place) => leaves.as_slice()[place as usize].head(),
        Symbol::Operator(operator) => Head::Operator(operator),
    }
}
