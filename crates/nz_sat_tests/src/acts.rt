//! Problems told by tables: what each is told and asked, and the answers that are wanted. A table is walked by one loop, so that a test is one
//! call, and cheap to prove.

use crate::problem::Problem;
use nz_base::Memory;
use nz_search::Stop;
use nz_term::{Operator, TermId, TermLit};
use std::alloc::Global;
use std::test::Fail;

/// A literal: that the term of this number, counted from 1, is true; of a negative number, that it is false. The first terms are the atoms.
pub type Number = i32;

/// What a problem is told or asked.
pub enum Act {
    /// Makes a term of this operator over the terms of these numbers, which are counted from 0 in the order in which they were made.
    Make(Operator, &'static [TermId]),
    /// Asserts that one of these literals is true.
    Clause(&'static [Number]),
    /// Asserts the term of this literal.
    Assert(Number),
    /// What is asserted and these literals can all be true.
    Holds(&'static [Number]),
    /// What is asserted and the first literals can't all be true: just the second ones are in the clause that says so.
    Refuted(&'static [Number], &'static [Number]),
    /// A literal has this truth after the last search.
    Truth(Number, Option<bool>),
    /// So many units were left by the last search.
    Left(u64),
}

/// A problem over so many atoms, each of whose searches may take so many units.
pub struct Case {
    pub atoms: usize,
    pub limit: u64,
    pub acts: &'static [Act],
}

/// Another answer than was wanted, and at which act.
#[derive(Clone, Copy, Debug)]
struct Wrong {
    place: usize,
}

/// The literal of a number.
fn literal(number: Number) -> TermLit {
    TermLit {
        term: (number.unsigned_abs() as usize).saturating_sub(1),
        sign: number > 0,
    }
}

/// The literals of these numbers.
fn literals(alloc: Global, numbers: &[Number]) -> Result<Vec<TermLit>, Memory> {
    let mut literals = Vec::new(alloc);
    for number in numbers {
        literals.push(literal(*number))?;
    }
    Ok(literals)
}

/// The term that a literal is.
fn term(problem: &mut Problem, literal: TermLit) -> Result<TermId, Memory> {
    if literal.sign {
        return Ok(literal.term);
    }
    problem.gates(Operator::Not, &[literal.term])
}

/// Asserts that one of these literals is true.
pub fn assert_one(alloc: Global, problem: &mut Problem, numbers: &[Number]) -> Result<(), Memory> {
    let mut kids = Vec::new(alloc);
    for number in numbers {
        kids.push(term(problem, literal(*number))?)?;
    }
    let clause = problem.gates(Operator::Or, &kids)?;
    problem.assert(clause)
}

/// Whether what is asserted and these literals can all be true.
pub fn holds(alloc: Global, problem: &mut Problem, assumed: &[Number]) -> Result<bool, Stop> {
    let assumed = literals(alloc, assumed)?;
    Ok(problem.solve(&assumed)?.is_none())
}

/// Whether a clause has just these literals.
fn is_of(clause: &[TermLit], literals: &[TermLit]) -> bool {
    clause.len() == literals.len() && literals.iter().all(|one| clause.contains(one))
}

/// Whether the clause of just the second literals refutes the first ones.
fn refutes(
    alloc: Global,
    problem: &mut Problem,
    assumed: &[Number],
    refuting: &[Number],
) -> Result<bool, Stop> {
    let assumed = literals(alloc, assumed)?;
    let refuting = literals(alloc, refuting)?;
    Ok(match problem.solve(&assumed)? {
        Some(clause) => is_of(&clause, &refuting),
        None => false,
    })
}

/// Asserts the term of this literal.
fn assert_term(problem: &mut Problem, number: Number) -> Result<(), Memory> {
    let term = term(problem, literal(number))?;
    problem.assert(term)
}

/// Does what an act says. Answers whether that comes to what is wanted.
fn is_done(alloc: Global, problem: &mut Problem, act: &Act) -> Result<bool, Stop> {
    match act {
        Act::Make(operator, kids) => {
            problem.gates(*operator, kids)?;
            Ok(true)
        }
        Act::Clause(numbers) => {
            assert_one(alloc, problem, numbers)?;
            Ok(true)
        }
        Act::Assert(number) => {
            assert_term(problem, *number)?;
            Ok(true)
        }
        Act::Holds(assumed) => holds(alloc, problem, assumed),
        Act::Refuted(assumed, clause) => refutes(alloc, problem, assumed, clause),
        Act::Truth(number, truth) => Ok(problem.truth(literal(*number)) == *truth),
        Act::Left(units) => Ok(problem.left() == *units),
    }
}

/// A problem over so many atoms, which are its first terms.
pub fn over(alloc: Global, atoms: usize, limit: u64) -> Result<Problem, Memory> {
    let mut problem = Problem::new(alloc, limit)?;
    for number in 0..atoms {
        problem.atom(number)?;
    }
    Ok(problem)
}

/// Does these acts one after another. Fails at the first that comes to something else than is wanted.
pub fn follow(alloc: Global, problem: &mut Problem, acts: &[Act]) -> Result<(), Fail> {
    for (place, act) in acts.iter().enumerate() {
        if !is_done(alloc, problem, act)? {
            return Err(Fail::from(Wrong { place }));
        }
    }
    Ok(())
}

/// Does the acts of a case.
pub fn run(alloc: Global, case: &Case) -> Result<(), Fail> {
    let mut problem = over(alloc, case.atoms, case.limit)?;
    follow(alloc, &mut problem, case.acts)
}
