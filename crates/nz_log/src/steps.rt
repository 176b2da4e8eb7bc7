//! The derivation of a clause, spelled out step by step.
ghost use Rattle.std.specs.Prelude.{◌≡◌, ℕ, ◌<◌, ◌++◌, Bool, List, true, length, All, IfOk, OnOk};
ghost use Rattle.nz_spec.specs.terms.Table.{Node};
ghost use Rattle.nz_log.specs.Atoms.{atom_in, with_sign};
ghost use Rattle.nz_log.specs.Axioms.{axiom_step, multiples_in};
ghost use Rattle.nz_log.specs.Logs.{IsLive};
ghost use Rattle.nz_log.specs.Spelling.{AreMarked, AreStepsOf, IsMoreMarked, IsNeeded, IsWithin, Pass, PassMarked, chain_place, chain_steps, is_marked, literal_read, multiples_read, origin_place, origin_steps, step_of, steps_of};
ghost use Rattle.nz_log.specs.Stored.{axiom_in, origin_of};

use crate::atoms::Atom;
use crate::log::Log;
use crate::multiples::LitMultiple;
use crate::origins::{Axiom, ClauseId, Link, Origin};
use nz_base::Memory;
use nz_frac::Frac;
use nz_lin::Bound;
use nz_spec::derivation::{derivations_grow, tells_literals};
use nz_spec::table::one_number;
use nz_term::{TermId, TermLit};
use std::alloc::Global;

/// A literal as a step names it: what it says can be read without the log's atoms.
#[derive(Clone, Copy, Debug)]
pub enum Literal<'a> {
    /// A Boolean term is true, or it is false.
    Term(TermLit),
    /// A sum of units is at most a limit, or with the sign `false` it isn't.
    AtMost(&'a Bound, bool),
}

impl Literal<'_> {
    /// The literal on an atom with this sign.
    pub(crate) fn of(atom: &Atom, sign: bool) -> Literal<'_>
        ensures reads { (ns : List Node) → literal_read ns result ≡ with_sign sign (atom_in ns atom.now) }
    {
        match atom {
            Atom::Term(term) => Literal::Term(TermLit { term: *term, sign }),
            Atom::AtMost(bound) => Literal::AtMost(bound, sign),
        }
    }
}

/// A literal, and by what it is multiplied.
#[derive(Clone, Copy, Debug)]
pub struct LiteralMultiple<'a> {
    pub literal: Literal<'a>,
    pub multiplier: &'a Frac,
}

/// A step of a derivation. Steps are numbered from 0.
#[derive(Debug, Drop)]
pub enum Step<'a> {
    /// The live assertion of this place.
    Given(usize),
    /// The clause of this number of a term of the gate table.
    Gate(TermId, usize),
    /// The clause of this number of a term of the link table.
    Link(TermId, usize),
    /// The clause of this number of a term of the unit table.
    Unit(TermId, usize),
    /// One of these literals is false, since the sum of their multiples is a contradiction.
    Farkas(Vec<LiteralMultiple<'a>>),
    /// The literal says that a sum of integers is at most an integer; or it is at least the next one.
    Branch(Literal<'a>),
    /// One of these literals is false, or the sum of their multiples, which is one of integers, is within its rounded limit.
    Cut(Vec<LiteralMultiple<'a>>),
    /// The resolvent of the clauses of two earlier steps: that of the first without the literal, and that of the second without
    /// its negation.
    Resolve(usize, usize, Literal<'a>),
}

/// Marks the clauses that this one rests on, and itself.
fn needed(alloc: Global, log: &Log, id: ClauseId) -> Result<Vec<bool>, Memory>
    requires live { IsLive log.now id }
    ensures needed { IfOk result (λ v. IsNeeded log.now id v.items) }
{
    let _ = log.stored(id);
    let mut marks = vec![in alloc; false; log.places()]?;
    marks[id] = true;
    for i in (0..id + 1).rev() {
        if marks[i] {
            mark_origin(&mut marks, &log.stored(i).origin);
        }
    }
    Ok(marks)
}

/// Marks what a clause was made of.
fn mark_origin(marks: &mut Vec<bool>, origin: &Origin)
    requires within { IsWithin (length marks.old.items) (origin_of origin.now) }
    ensures long { length marks.new.items ≡ length marks.old.items }
    ensures kept { IsMoreMarked marks.old.items marks.new.items }
    ensures marked { AreMarked marks.new.items (origin_of origin.now) }
    // A test that all these pass, and what was marked, is passed by all that is marked.
    ensures only { (test : ℕ → Bool) → PassMarked test marks.old.items → Pass test (origin_of origin.now) → PassMarked test marks.new.items }
{
    match origin {
        Origin::Assertion(_) => {}
        Origin::Gate(_, _) => {}
        Origin::Axiom(_) => {}
        Origin::Chain(first, links) => {
            marks[*first] = true;
            mark_links(marks, links);
        }
    }
}

/// Marks the clauses of these links.
fn mark_links(marks: &mut Vec<bool>, links: &[Link])
    requires within { All (λ k. k.clause < length marks.old.items) links.now }
    ensures long { length marks.new.items ≡ length marks.old.items }
    ensures kept { IsMoreMarked marks.old.items marks.new.items }
    ensures marked { All (λ k. is_marked marks.new.items k.clause ≡ true) links.now }
    ensures only { (test : ℕ → Bool) → PassMarked test marks.old.items → All (λ k. test k.clause ≡ true) links.now → PassMarked test marks.new.items }
{
    for link in links {
        marks[link.clause] = true;
    }
}

/// The steps of the derivation of a clause.
pub fn spelled(alloc: Global, log: &Log, id: ClauseId) -> Result<Vec<Step<'_>>, Memory>
    requires live { IsLive log.now id }
    ensures derives { IfOk result (λ steps. AreStepsOf log.now id steps.items) }
{
    derivations_grow();
    tells_literals();
    one_number();
    let marks = needed(alloc, log, id)?;
    let mut places = vec![in alloc; 0; log.places()]?;
    let mut steps = Vec::new(alloc);
    for i in 0..id {
        if marks[i] {
            let place = spell(&mut steps, log, &places, &log.stored(i).origin)?;
            places[i] = place;
        }
    }
    spell(&mut steps, log, &places, &log.stored(id).origin)?;
    Ok(steps)
}

/// Puts the steps of a clause behind those of the clauses that it is made of, which have their places. Answers its own place.
#[tactic(auto, using(crate::proofs::StepLists::one_pushed))]
fn spell<'a>(
    steps: &mut Vec<Step<'a>>,
    log: &'a Log,
    places: &[usize],
    origin: &'a Origin,
) -> Result<usize, Memory>
    requires within { IsWithin (length places.now) (origin_of origin.now) }
    ensures spelled { OnOk result ((ns : List Node) → steps_of ns steps.new.items ≡ steps_of ns steps.old.items ++ origin_steps ns log.now.atoms places.now (length steps.old.items) (origin_of origin.now)) }
    ensures place { IfOk result (λ n. n ≡ origin_place places.now (length steps.old.items) (origin_of origin.now)) }
{
    let place = steps.len();
    match origin {
        Origin::Assertion(k) => {
            steps.push(Step::Given(*k))?;
            Ok(place)
        }
        Origin::Gate(term, j) => {
            steps.push(Step::Gate(*term, *j))?;
            Ok(place)
        }
        Origin::Axiom(made) => {
            steps.push(axiom_step(log, made)?)?;
            Ok(place)
        }
        Origin::Chain(first, links) => spell_chain(steps, log, places, places[*first], links),
    }
}

/// The step of a clause that holds by arithmetic alone.
fn axiom_step<'a>(log: &'a Log, made: &'a Axiom) -> Result<Step<'a>, Memory>
    ensures step { IfOk result (λ s. (ns : List Node) → step_of ns s ≡ axiom_step ns log.now.atoms (axiom_in made.now)) }
{
    match made {
        Axiom::Link(term, j) => Ok(Step::Link(*term, *j)),
        Axiom::Unit(term, j) => Ok(Step::Unit(*term, *j)),
        Axiom::Farkas(multiples) => {
            let mut read = Vec::new(log.alloc());
            read_multiples(&mut read, log, multiples)?;
            Ok(Step::Farkas(read))
        }
        Axiom::Branch(literal) => Ok(Step::Branch(log.literal(*literal))),
        Axiom::Cut(multiples) => {
            let mut read = Vec::new(log.alloc());
            read_multiples(&mut read, log, multiples)?;
            Ok(Step::Cut(read))
        }
    }
}

/// Puts these multiples, as a step names them, behind others.
fn read_multiples<'a>(
    read: &mut Vec<LiteralMultiple<'a>>,
    log: &'a Log,
    multiples: &'a [LitMultiple],
) -> Result<(), Memory>
    ensures multiples { OnOk result ((ns : List Node) → multiples_read ns read.new.items ≡ multiples_read ns read.old.items ++ multiples_in ns log.now.atoms multiples.now) }
{
    for multiple in multiples {
        read.push(LiteralMultiple {
            literal: log.literal(multiple.literal),
            multiplier: &multiple.multiplier,
        })?;
    }
    Ok(())
}

/// Puts the resolvents of a chain behind the steps of its clauses, of which the first has this place. Answers that of the last.
fn spell_chain<'a>(
    steps: &mut Vec<Step<'a>>,
    log: &'a Log,
    places: &[usize],
    first: usize,
    links: &[Link],
) -> Result<usize, Memory>
    requires within { All (λ k. k.clause < length places.now) links.now }
    ensures spelled { OnOk result ((ns : List Node) → steps_of ns steps.new.items ≡ steps_of ns steps.old.items ++ chain_steps ns log.now.atoms places.now (length steps.old.items) first links.now) }
    ensures place { IfOk result (λ n. n ≡ chain_place (length steps.old.items) first links.now) }
{
    let mut current = first;
    for link in links {
        let next = steps.len();
        steps.push(Step::Resolve(current, places[link.clause], log.literal(link.literal)))?;
        current = next;
    }
    Ok(current)
}
