//! The table of atoms: what literals say is so, or isn't, each once.
ghost use Rattle.std.specs.Prelude.{◌≡◌, ◌^◌, ◌<◌, ◌≤◌, [], flat_map, fold, length, option_copied, slice_get, Some, IfOk, IfSome, OnErr};
ghost use Rattle.std.specs.Cmp.{decided, partial_equiv_from_equiv};
ghost use Rattle.std.specs.Hash.{same_Alike};
ghost use Rattle.nz_spec.specs.clauses.Literal.{are_same_sign};
ghost use Rattle.nz_spec.specs.terms.Same.{are_same_fraction};
ghost use Rattle.nz_spec.specs.terms.Term.{are_same_sort};
ghost use Rattle.nz_term.specs.Constants.{sort_of};
ghost use Rattle.nz_log.specs.declared.atoms.Atom.TheVariants.{Term, AtMost};
ghost use Rattle.nz_log.specs.Atoms.{AreAtoms, IsFoundTerm, IsNormal, JoinOnly, Stay};
ghost use Rattle.nz_log.specs.Keys.{are_same_atom, are_same_bound, are_same_part, are_same_units, fed_atom, fed_bound, fed_part};
ghost use Rattle.nz_log.specs.Same.{atom_decides};

use crate::lits::{AtomId, MOST_ATOMS};
use indexmap::IndexSet;
use nz_base::Memory;
use nz_frac::Frac;
use nz_lin::{Bound, Part};
use nz_term::{Sort, TermId};
use std::alloc::Global;
use std::hash::{Hash, Hasher};
use std::marker::Model;

/// What a literal says is so, or isn't.
#[derive(Debug, Drop)]
pub enum Atom {
    /// The Boolean term of this number is true.
    Term(TermId),
    /// A sum of units is at most a limit. In a log the bound isn't strict: a strict one is the negation of another.
    AtMost(Bound),
}

impl PartialEq for Atom {
    ghost eq = { are_same_atom };

    ghost laws = { partial_equiv_from_equiv (decided are_same_atom atom_decides) };

    fn eq(&self, other: &Atom) -> bool {
        match self {
            Atom::Term(term) => is_of_term(other, *term),
            Atom::AtMost(bound) => is_of_bound(other, bound),
        }
    }
}

impl Eq for Atom {
    ghost laws = { decided are_same_atom atom_decides };
}

impl Hash for Atom {
    ghost hash_input = { fed_atom };

    ghost respects_eq = { (same_Alike fed_atom atom_decides).fed };

    fn hash<H: Hasher>(&self, state: &mut H) {
        match self {
            Atom::Term(term) => {
                state.write_u8(0);
                state.write_usize(*term);
            }
            Atom::AtMost(bound) => {
                state.write_u8(1);
                hash_bound(bound, state);
            }
        }
    }
}

/// Whether the atom is that this term is true.
fn is_of_term(atom: &Atom, term: TermId) -> bool
    ensures same { result ≡ are_same_atom (Term term) atom.now }
{
    match atom {
        Atom::Term(other) => term == *other,
        Atom::AtMost(_) => false,
    }
}

/// Whether the atom is this bound.
fn is_of_bound(atom: &Atom, bound: &Bound) -> bool
    ensures same { result ≡ are_same_atom (AtMost bound.now) atom.now }
{
    match atom {
        Atom::Term(_) => false,
        Atom::AtMost(other) => is_same_bound(bound, other),
    }
}

/// Whether the bounds are the same as they are written.
fn is_same_bound(bound: &Bound, other: &Bound) -> bool
    ensures same { result ≡ are_same_bound bound.now other.now }
{
    is_same_sign(bound.is_strict(), other.is_strict())
        && is_same_number(bound.limit(), other.limit())
        && are_same_units(bound.parts(), other.parts())
}

fn is_same_sign(sign: bool, other: bool) -> bool
    ensures same { result ≡ are_same_sign sign other }
{
    sign == other
}

/// Whether the numerators are the same, and the denominators.
fn is_same_number(number: Frac, other: Frac) -> bool
    ensures same { result ≡ are_same_fraction number other }
{
    number.num() == other.num() && number.den() == other.den()
}

fn is_same_sort(sort: Sort, other: Sort) -> bool
    ensures same { result ≡ are_same_sort (sort_of sort) (sort_of other) }
{
    sort == other
}

fn is_same_part(part: &Part, other: &Part) -> bool
    ensures same { result ≡ are_same_part part.now other.now }
{
    part.unit == other.unit
        && (is_same_sort(part.sort, other.sort)
            && is_same_number(part.coefficient, other.coefficient))
}

/// Whether the units are the same, with the same coefficients, in the same order.
fn are_same_units(parts: &[Part], others: &[Part]) -> bool
    ensures same { result ≡ are_same_units parts.now others.now }
{
    if parts.len() != others.len() {
        return false;
    }
    for i in 0..parts.len() {
        if !is_same_part(&parts[i], &others[i]) {
            return false;
        }
    }
    true
}

/// Feeds a hash with the limit, and with the units and their coefficients.
fn hash_bound<H: Hasher>(bound: &Bound, state: &mut H)
    ensures fed { state.new ≡ fold H.write state.old (fed_bound bound.now) }
{
    bound.limit().hash(state);
    hash_parts(bound.parts(), state);
}

fn hash_parts<H: Hasher>(parts: &[Part], state: &mut H)
    ensures fed { state.new ≡ fold H.write state.old (flat_map fed_part parts.now) }
{
    for part in parts {
        part.unit.hash(state);
        part.coefficient.hash(state);
    }
}

/// Atoms by number. A contract sees them as a list.
#[derive(Debug, Drop)]
pub(crate) struct Atoms {
    atoms: IndexSet<Atom>,
}

impl Model for Atoms {
    ghost use Rattle.std.specs.Prelude.{List};
    ghost use Rattle.nz_log.specs.declared.atoms.Atom.{Atom};

    ghost Value = { List Atom };

    ghost use Rattle.nz_log.specs.Atoms.{AreAtoms};

    ghost view = { λ a. a.atoms.keys };

    ghost invariant = { λ a. AreAtoms a.atoms.keys };
}

impl Atoms {
    /// None yet. Takes no memory.
    pub(crate) fn new(alloc: Global) -> Atoms
        ensures empty { result ≡ [] }
    {
        Atoms {
            atoms: IndexSet::new(alloc),
        }
    }

    /// The number of an atom, which is put last where it isn't there. A table that is full takes none.
    pub(crate) fn put(&mut self, atom: Atom) -> Result<AtomId, Memory>
        requires normal { IsNormal atom }
        ensures there { IfOk result (λ id. slice_get self.new id ≡ Some atom) }
        ensures small { IfOk result (λ id. id < 2 ^ 31) }
        ensures stay { Stay self.old self.new }
        ensures only { IfOk result (λ id. JoinOnly self.old self.new (λ i. i ≡ id)) }
        ensures atoms { AreAtoms self.new }
        ensures unchanged { OnErr result (self.new ≡ self.old) }
    {
        if self.atoms.len() >= MOST_ATOMS {
            return Err(Memory);
        }
        let (id, _) = self.atoms.insert_full(atom)?;
        Ok(id)
    }

    /// The number of the atom that a term is true, where it is there.
    pub(crate) fn find_term(&self, term: TermId) -> Option<AtomId>
        ensures found { IsFoundTerm self.now term result }
        ensures small { IfSome result (λ id. id < 2 ^ 31) }
    {
        self.atoms.get_index_of(&Atom::Term(term))
    }

    /// How many atoms there are. Their numbers are those below it.
    pub(crate) fn len(&self) -> usize
        ensures len { result ≡ length self.now }
        ensures small { result ≤ 2 ^ 31 }
        ensures atoms { AreAtoms self.now }
    {
        self.atoms.len()
    }

    /// The atom of a number, if it is there.
    pub(crate) fn get(&self, id: AtomId) -> Option<&Atom>
        ensures atom { option_copied result ≡ slice_get self.now id }
    {
        self.atoms.get_index(id)
    }

    /// The atom of a number.
    pub(crate) fn at(&self, id: AtomId) -> &Atom
        requires within { id < length self.now }
        ensures atom { slice_get self.now id ≡ Some result.now }
    {
        &self.atoms.as_slice()[id]
    }
}
