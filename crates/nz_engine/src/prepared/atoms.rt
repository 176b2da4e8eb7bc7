//! The atoms of a search: which covered terms are Boolean, and the notes of atoms.
ghost use Rattle.std.specs.Prelude.{◌≡◌, ◌<◌, ◌++◌, [], ◌∷◌, All, length, IfOk, OnOk};
ghost use Rattle.nz_spec.specs.clauses.Gates.{is_boolean_term};
ghost use Rattle.nz_spec.specs.terms.Table.{term_in};
ghost use Rattle.nz_engine.specs.Checking.{AreMarksOf, NotesFirst, atom_lines, note_of};
ghost use Rattle.nz_engine.specs.Preparing.{Names, boolean_term, boolean_terms};

use super::values::marks_of;
use nz_base::{Memory, Work};
use nz_log::{Atom, AtomId, Log};
use nz_search::{Boxed, Note};
use nz_term::{Sort, TermId, Terms};
use std::alloc::Global;

/// Those of these terms that are Boolean.
pub(super) fn booleans_of(
    alloc: Global,
    terms: &Terms,
    covered: &[TermId],
) -> Result<Vec<TermId>, Memory>
    requires within { All (λ t. t < length terms.now) covered.now }
    ensures booleans { IfOk result (λ ts. ts.items ≡ boolean_terms terms.now covered.now) }
{
    let mut booleans = Vec::new(alloc);
    for term in covered {
        add_boolean(terms, *term, &mut booleans)?;
    }
    Ok(booleans)
}

/// Adds a term, where it is Boolean.
fn add_boolean(terms: &Terms, term: TermId, booleans: &mut Vec<TermId>) -> Result<(), Memory>
    requires within { term < length terms.now }
    ensures added { OnOk result (booleans.new.items ≡ booleans.old.items ++ boolean_term terms.now term) }
{
    if is_boolean(terms, term) {
        booleans.push(term)?;
    }
    Ok(())
}

/// Whether a term is Boolean.
pub fn is_boolean(terms: &Terms, term: TermId) -> bool
    requires within { term < length terms.now }
    ensures boolean { result ≡ is_boolean_term (term_in terms.now term) }
{
    match terms.node(term).head.sort() {
        Sort::Bool => true,
        Sort::Int => false,
        Sort::Real => false,
    }
}

/// The note of an atom.
fn noted(alloc: Global, atom: &Atom) -> Result<Note, Memory>
    ensures note { IfOk result (λ n. n ≡ note_of atom.now) }
{
    match atom {
        Atom::Term(term) => Ok(Note::Atom(*term)),
        Atom::AtMost(bound) => Ok(Note::Bound(Boxed::new(alloc, bound.copied(alloc)?)?)),
    }
}

/// Notes each of these atoms.
pub(super) fn note_atoms(
    alloc: Global,
    log: &Log,
    atoms: &[AtomId],
    work: &mut Work<Note>,
) -> Result<(), Memory>
    requires within { All (λ i. i < length log.now.atoms) atoms.now }
    ensures all { OnOk result (work.new ≡ record work.old { lines = work.old.lines ++ atom_lines log.now.atoms atoms.now }) }
    ensures first { NotesFirst log.now.atoms atoms.now work.old work.new }
{
    for id in atoms {
        let line = noted(alloc, log.atom(*id))?;
        work.note(line)?;
    }
    Ok(())
}

/// Names an atom, unless it is named. What is named is marked, by the numbers of atoms.
fn name_atom(atoms: &mut Vec<AtomId>, is_named: &mut [bool], atom: AtomId) -> Result<(), Memory>
    requires within { atom < length is_named.old }
    requires marked { AreMarksOf atoms.old.items is_named.old }
    ensures marked { OnOk result (AreMarksOf atoms.new.items is_named.new) }
    ensures names { OnOk result (Names atoms.old.items (atom ∷ []) atoms.new.items) }
    ensures long { length is_named.new ≡ length is_named.old }
{
    if !is_named[atom] {
        is_named[atom] = true;
        atoms.push(atom)?;
    }
    Ok(())
}

/// Names these atoms too.
fn name_more(atoms: &mut Vec<AtomId>, is_named: &mut [bool], more: &[AtomId]) -> Result<(), Memory>
    requires within { All (λ i. i < length is_named.old) more.now }
    requires marked { AreMarksOf atoms.old.items is_named.old }
    ensures marked { OnOk result (AreMarksOf atoms.new.items is_named.new) }
    ensures names { OnOk result (Names atoms.old.items more.now atoms.new.items) }
    ensures long { length is_named.new ≡ length is_named.old }
{
    for atom in more {
        name_atom(atoms, is_named, *atom)?;
    }
    Ok(())
}

/// Names these atoms too, and then the others: each that isn't among those that are named comes behind them. There are so many atoms.
pub(super) fn name_atoms(
    alloc: Global,
    atoms: &mut Vec<AtomId>,
    count: usize,
    more: &[AtomId],
    others: &[AtomId],
) -> Result<(), Memory>
    requires old_within { All (λ i. i < count) atoms.old.items }
    requires within { All (λ i. i < count) more.now }
    requires others_within { All (λ i. i < count) others.now }
    ensures names { OnOk result (Names atoms.old.items (more.now ++ others.now) atoms.new.items) }
{
    let mut is_named = marks_of(alloc, count, atoms)?;
    name_more(atoms, &mut is_named, more)?;
    name_more(atoms, &mut is_named, others)
}
