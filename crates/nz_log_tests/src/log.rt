//! Atoms and clauses on terms: each public call once on its happy path.
ghost use Rattle.nz_log.specs.Logs.{IsLive};

use crate::rows::gate_row;
use crate::terms::expect;
use nz_base::Memory;
use nz_log::{Atom, AtomId, ClauseId, Link, Lit, Literal, Log, Step};
use nz_term::{Operator, Sort, TermId, TermLit, Terms};
use nz_term_samples::Term::{self, Constant, Over};
use nz_term_samples::make_all;
use std::alloc::Global;
use std::test::Fail;

/// A step over literals on terms, so that it can be told from others.
#[derive(Clone, Copy, Debug, PartialEq, Eq)]
enum TermStep {
    Given(usize),
    Gate(TermId, usize),
    Resolve(usize, usize, TermLit),
}

/// What a log tells of a clause.
#[derive(Debug, Drop)]
struct LoggedClause {
    literals: Vec<TermLit>,
    level: usize,
    steps: Vec<TermStep>,
}

/// The literal, if it is on a term.
fn on_term(literal: &Literal<'_>) -> Result<TermLit, Memory> {
    match literal {
        Literal::Term(literal) => Ok(*literal),
        Literal::AtMost(_, _) => Err(Memory),
    }
}

/// The step, if it is over literals on terms.
fn made(step: &Step<'_>) -> Result<TermStep, Memory> {
    match step {
        Step::Given(k) => Ok(TermStep::Given(*k)),
        Step::Gate(term, j) => Ok(TermStep::Gate(*term, *j)),
        Step::Resolve(i, j, literal) => Ok(TermStep::Resolve(*i, *j, on_term(literal)?)),
        _ => Err(Memory),
    }
}

/// What the literals of a clause say.
fn said(alloc: Global, log: &Log, literals: &[Lit]) -> Result<Vec<TermLit>, Memory> {
    let mut said = Vec::new(alloc);
    for literal in literals {
        said.push(on_term(&log.literal(*literal))?)?;
    }
    Ok(said)
}

/// The steps of a derivation.
fn spelled(alloc: Global, steps: &[Step<'_>]) -> Result<Vec<TermStep>, Memory> {
    let mut spelled = Vec::new(alloc);
    for step in steps {
        spelled.push(made(step)?)?;
    }
    Ok(spelled)
}

fn tell(alloc: Global, log: &Log, id: ClauseId) -> Result<LoggedClause, Memory>
    requires live { IsLive log.now id }
{
    let steps = log.steps(id)?;
    Ok(LoggedClause {
        literals: said(alloc, log, log.clause(id))?,
        level: log.level(id),
        steps: spelled(alloc, &steps)?,
    })
}

/// The literal on a term whose atom is there.
fn literal(log: &Log, literal: TermLit) -> Result<Lit, Memory> {
    match log.find_term(literal.term) {
        Some(atom) => Ok(Lit::new(atom, literal.sign)),
        None => Err(Memory),
    }
}

/// The empty clause from two assertions, a term and its negation, and the clause of the gate table that ties them.
fn refuted(
    alloc: Global,
    log: &mut Log,
    terms: &Terms,
    term: TermId,
    negation: TermId,
) -> Result<LoggedClause, Memory> {
    // The refutation doesn't rest on this clause, so that its steps don't have it.
    log.given(9, term, 0)?;
    let holds = log.given(0, term, 0)?;
    let negated = log.given(1, negation, 1)?;
    if negation >= terms.len() {
        return Err(Memory);
    }
    let row = gate_row(alloc, terms, negation, 0)?;
    let gate = log.gate(terms, negation, 0, row)?;
    let negation_holds = literal(log, TermLit::holds(negation))?;
    let fails = log.resolve(negated, gate, negation_holds)?;
    let term_holds = literal(log, TermLit::holds(term))?;
    let empty = log.resolve(holds, fails, term_holds)?;
    tell(alloc, log, empty)
}

/// A constant, and its negation.
const OPPOSITES: &[Term] = &[Constant(b'p', Sort::Bool), Over(Operator::Not, &[0])];

/// Their refutation in a log of its own.
fn refutation_over(alloc: Global, terms: &Terms) -> Result<LoggedClause, Memory> {
    let mut log = Log::new(alloc)?;
    refuted(alloc, &mut log, terms, 0, 1)
}

/// The same over terms of its own.
fn refutation(alloc: Global) -> Result<LoggedClause, Memory> {
    let mut terms = Terms::new(alloc)?;
    make_all(alloc, &mut terms, OPPOSITES)?;
    refutation_over(alloc, &terms)
}

/// Fails unless it is the empty clause by the steps that are wanted.
fn is_empty_clause(told: &LoggedClause) -> Result<(), Fail> {
    expect(told.literals.is_empty(), "the literals")?;
    expect(told.level == 1, "the level")?;
    let wanted = [
        TermStep::Given(0),
        TermStep::Given(1),
        TermStep::Gate(1, 0),
        TermStep::Resolve(1, 2, TermLit::holds(1)),
        TermStep::Resolve(0, 3, TermLit::holds(0)),
    ];
    expect(told.steps.as_slice() == wanted.as_slice(), "the steps")
}

#[test]
fn test_opposites_are_refuted(rt: HostRuntime) -> Result<(), Fail> {
    let empty = refutation(rt.alloc())?;
    is_empty_clause(&empty)
}

/// Three constants, their disjunction (3), and that the first two are equal (4).
const CHAINED: &[Term] = &[
    Constant(b'p', Sort::Bool),
    Constant(b'q', Sort::Bool),
    Constant(b'r', Sort::Bool),
    Over(Operator::Or, &[0, 1, 2]),
    Over(Operator::Equal, &[0, 1]),
];

/// A chain of two links, and that of the same two and a third.
fn chains(
    alloc: Global,
    log: &mut Log,
    terms: &Terms,
) -> Result<(LoggedClause, LoggedClause), Memory> {
    if terms.len() <= 4 {
        return Err(Memory);
    }
    let row = gate_row(alloc, terms, 3, 3)?;
    let some = log.gate(terms, 3, 3, row)?;
    let holds = log.given(0, 3, 1)?;
    let row = gate_row(alloc, terms, 4, 0)?;
    let equal = log.gate(terms, 4, 0, row)?;
    let are_equal = log.given(1, 4, 2)?;
    let first = Link {
        clause: holds,
        literal: literal(log, TermLit::fails(3))?,
    };
    let second = Link {
        clause: equal,
        literal: literal(log, TermLit::holds(0))?,
    };
    let third = Link {
        clause: are_equal,
        literal: literal(log, TermLit::fails(4))?,
    };
    let short = log.chain(some, &[first, second])?;
    let long = log.chain(some, &[first, second, third])?;
    Ok((tell(alloc, log, short)?, tell(alloc, log, long)?))
}

/// Both chains in a log of its own.
fn chains_over(alloc: Global, terms: &Terms) -> Result<(LoggedClause, LoggedClause), Memory> {
    let mut log = Log::new(alloc)?;
    chains(alloc, &mut log, terms)
}

/// The same over terms of its own.
fn chains_of_terms(alloc: Global) -> Result<(LoggedClause, LoggedClause), Memory> {
    let mut terms = Terms::new(alloc)?;
    make_all(alloc, &mut terms, CHAINED)?;
    chains_over(alloc, &terms)
}

/// Fails unless both are the wanted ones of the clauses `not 3, p, q, r`, `3`, `not 4, not p, q` and `4`. What two of them have stands where it
/// was, and once.
fn are_chains(short: &LoggedClause, long: &LoggedClause) -> Result<(), Fail> {
    let wanted = [TermLit::holds(1), TermLit::holds(2), TermLit::fails(4)];
    expect(
        short.literals.as_slice() == wanted.as_slice(),
        "the short one",
    )?;
    expect(short.level == 1, "the level of the short one")?;
    expect(long.literals.as_slice() == &wanted[..2], "the long one")?;
    expect(long.level == 2, "the level of the long one")
}

#[test]
fn test_a_chain_is_resolved_link_by_link(rt: HostRuntime) -> Result<(), Fail> {
    let (short, long) = chains_of_terms(rt.alloc())?;
    are_chains(&short, &long)
}

/// Whether the atom of this number is that the term is true.
fn is_of_term(log: &Log, id: AtomId, term: TermId) -> bool {
    id < log.atom_count() && matches!(log.atom(id), Atom::Term(own) if *own == term)
}

/// Fails where an atom has two numbers, or isn't found just where there is one.
fn have_one_number(log: &mut Log) -> Result<(), Fail> {
    let seven = log.term_atom(7)?;
    let five = log.term_atom(5)?;
    let again = log.term_atom(7)?;
    expect(again == seven && log.atom_count() == 2, "the number")?;
    expect(log.find_term(5) == Some(five), "an atom that is there")?;
    expect(log.find_term(6) == None, "no atom")?;
    expect(is_of_term(log, seven, 7), "the term")
}

#[test]
fn test_an_atom_has_one_number(rt: HostRuntime) -> Result<(), Fail> {
    let mut log = Log::new(rt.alloc())?;
    have_one_number(&mut log)
}

/// An assertion's clause, and its level.
fn given(log: &mut Log, k: usize, term: TermId, level: usize) -> Result<(ClauseId, usize), Memory> {
    let id = log.given(k, term, level)?;
    Ok((id, log.level(id)))
}

/// Fails unless what is above a level goes, so that its number comes again.
fn drops(log: &mut Log) -> Result<(), Fail> {
    log.place(3, 2)?;
    let (_, low) = given(log, 0, 5, 1)?;
    log.given(1, 3, 1)?;
    log.drop_above(1);
    let (next, level) = given(log, 1, 3, 1)?;
    expect(
        low == 1 && next == 1 && level == 1,
        "the number or the level",
    )
}

#[test]
fn test_what_is_above_a_level_goes(rt: HostRuntime) -> Result<(), Fail> {
    let mut log = Log::new(rt.alloc())?;
    drops(&mut log)
}
