//! The table of shared terms.
ghost use Rattle.std.specs.Prelude.{◌≡◌, ℕ, ◌<◌, ◌==◌, ◌⊎◌, [], ◌∷◌, ◌++◌, length, take, All, Some, IsTrue, IfOk, OnOk, OnErr, IsOkAnd, option_map, slice_get};
ghost use Rattle.nz_spec.specs.terms.Linear.{constant_value, is_linear};
ghost use Rattle.nz_spec.specs.terms.Term.{apply, head_fits, holds_integer};
ghost use Rattle.nz_spec.specs.terms.Table.{HasItsArguments, HasOneNumberEach, IsTable, term_in, terms_at};
ghost use Rattle.nz_term.specs.Facts.{fact_of};
ghost use Rattle.nz_term.specs.Found.{IsFound};
ghost use Rattle.nz_term.specs.Growth.{GrowsTwice, KeepsTerms};
ghost use Rattle.nz_term.specs.Heads.{head_of};
ghost use Rattle.nz_term.specs.Nodes.{node_of, node_with};

use crate::fact_table::Facts;
use crate::facts::{Fact, fact_over};
use crate::heads::Head;
use crate::nodes::{Node, Nodes, TermId};
use nz_base::Memory;
use nz_frac::Frac;
use nz_spec::table::{one_number, term_of_node, term_stays, terms_stay};
use std::alloc::Global;
use std::marker::Model;

/// A table of shared terms. A contract sees it as the list of its nodes, the oldest first.
#[derive(Debug, Drop)]
pub struct Terms {
    nodes: Nodes,
    // What is known of each term, in order.
    facts: Facts,
}

impl Model for Terms {
    ghost use Rattle.std.specs.Prelude.{List};
    ghost use Rattle.nz_spec.specs.terms.Table.{Node};

    ghost Value = { List Node };

    ghost use Rattle.nz_term.specs.Facts.{IsKnown};

    ghost view = { λ t. t.nodes };

    ghost invariant = { λ t. IsKnown t.nodes t.facts };
}

impl Terms {
    /// An empty table. Takes no memory.
    pub fn new(alloc: Global) -> Result<Terms, Memory>
        ensures empty { IsOkAnd result (λ t. t ≡ []) }
    {
        Ok(Terms {
            nodes: Nodes::new(alloc),
            facts: Facts::new(alloc),
        })
    }

    /// The number of the term of this head over the terms of these numbers. A term that is there already has the number
    /// that it had. A numeral or decimal must be a number, and a constant has no arguments.
    pub fn make(&mut self, head: Head<'_>, kids: &[TermId]) -> Result<TermId, Memory>
        requires within { All (λ k. k < length self.old) kids.now }
        requires fits { IsTrue (head_fits (head_of head)) }
        requires leaves { HasItsArguments (head_of head) kids.now }
        ensures node { IfOk result (λ id. slice_get self.new id ≡ Some (node_with head.entry kids.now)) }
        ensures term { IfOk result (λ id. term_in self.new id ≡ apply (head_of head.entry) (terms_at (term_in self.old) kids.now)) }
        ensures grown { OnOk result ((self.new ≡ self.old) ⊎ (self.new ≡ self.old ++ node_with head.entry kids.now ∷ [])) }
        ensures stays { KeepsTerms self.old self.new }

        // Equal terms have equal numbers, here and before.
        ensures one_number { HasOneNumberEach self.new }
        ensures table { IsTable self.new }
        ensures unchanged { OnErr result (self.new ≡ self.old) }
    {
        one_number();
        term_of_node();
        term_stays();
        terms_stay();
        let fact = self.known(head, kids);
        self.facts.push(fact)?;
        let made = self.nodes.put(head, kids);

        // Where no node was put last, nor does the fact stay.
        self.facts.truncate(self.nodes.len());
        made
    }

    /// What is known of the term of this head over the terms of these numbers.
    fn known(&self, head: Head<'_>, kids: &[TermId]) -> Fact
        requires within { All (λ k. k < length self.now) kids.now }
        requires fits { IsTrue (head_fits (head_of head)) }
        ensures known { result ≡ fact_of (apply (head_of head.entry) (terms_at (term_in self.now) kids.now)) }
    {
        fact_over(&self.facts, head, kids)
    }

    /// The number of the term of this head over the terms of these numbers, where the table has it. The memory is for the
    /// key that it is looked up by.
    pub fn find(&self, head: Head<'_>, kids: &[TermId]) -> Result<Option<TermId>, Memory>
        requires within { All (λ k. k < length self.now) kids.now }
        ensures found { IfOk result (IsFound self.now (apply (head_of head.entry) (terms_at (term_in self.now) kids.now))) }
    {
        self.nodes.find(head, kids)
    }

    /// The node of a number.
    pub fn node(&self, id: TermId) -> Node<'_>
        requires { id < length self.now }
        ensures node { slice_get self.now id ≡ Some (node_of result) }
        ensures term { term_in self.now id ≡ apply (head_of result.head) (terms_at (term_in self.now) result.kids.now) }
        ensures before { All (λ k. k < id) result.kids.now }
        ensures fits { IsTrue (head_fits (head_of result.head)) }
        ensures leaves { HasItsArguments (head_of result.head) result.kids.now }
    {
        term_of_node();
        self.nodes.get(id)
    }

    /// The head of the term of a number.
    pub fn head(&self, id: TermId) -> Head<'_>
        requires { id < length self.now }
        ensures head { option_map (λ n. n.head) (slice_get self.now id) ≡ Some (head_of result) }
    {
        self.node(id).head
    }

    /// The numbers of the arguments of the term of a number. Each is below it.
    pub fn kids(&self, id: TermId) -> &[TermId]
        requires { id < length self.now }
        ensures kids { option_map (λ n. n.kids) (slice_get self.now id) ≡ Some result.now }
        ensures before { All (λ k. k < id) result.now }
    {
        self.node(id).kids
    }

    /// How many terms there are. Their numbers are those below it.
    pub fn len(&self) -> usize
        ensures len { result ≡ length self.now }
        ensures table { IsTable self.now }
    {
        self.nodes.len()
    }

    /// Whether there is no term.
    pub fn is_empty(&self) -> bool
        ensures empty { result ≡ (length self.now == 0) }
    {
        self.len() == 0
    }

    /// A mark, to which `cut` goes back.
    pub fn mark(&self) -> usize
        ensures mark { result ≡ length self.now }
    {
        self.len()
    }

    /// Leaves the terms that were there at the mark, and no other. Takes no memory.
    pub fn cut(&mut self, mark: usize)
        ensures front { self.new ≡ take mark self.old }
        ensures table { IsTable self.new }
    {
        self.nodes.truncate(mark);
        self.facts.truncate(mark);
    }

    /// The value of a constant term; none where an operation in it leaves the numbers, and for a term that isn't constant.
    pub fn constant(&self, id: TermId) -> Option<Frac>
        requires within { id < length self.now }
        ensures constant { result ≡ constant_value (term_in self.now id) }
    {
        self.facts.constant(id)
    }

    /// Whether the term is linear.
    pub fn is_linear(&self, id: TermId) -> bool
        requires within { id < length self.now }
        ensures linear { result ≡ is_linear (term_in self.now id) }
    {
        self.facts.is_linear(id)
    }

    /// Whether the term, or one that it is made of, is a unit of sort `Int`.
    pub fn holds_integer(&self, id: TermId) -> bool
        requires within { id < length self.now }
        ensures holds { result ≡ holds_integer (term_in self.now id) }
    {
        self.facts.holds_integer(id)
    }
}

/// Says that the nodes of a table are one.
pub fn known_table(terms: &Terms)
    ensures table { IsTable terms.now }
{
    terms.len();
}

/// A table that has grown twice has grown.
pub fn grows_twice()
    ensures twice { GrowsTwice }
{}
