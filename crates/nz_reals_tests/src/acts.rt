//! Cases told by tables: bounds, what a theory is told and asked of them, and the answers that are wanted. A table is walked by one loop, so that a test is
//! one call, and cheap to prove.

use crate::system::{Row, System};
use crate::values::holds;
use nz_base::Memory;
use nz_log::Lit;
use nz_term::Assign;
use std::alloc::Global;
use std::test::Fail;

/// A literal: that the bound of this place, counted from 1, holds; of a negative number, that it doesn't.
pub type Number = i32;

/// What a theory is told or asked.
pub enum Act {
    /// It is told a literal, and doesn't refute it.
    Tell(Number),
    /// It refuses a literal, since just these aren't true together.
    Refuse(Number, &'static [Number]),
    /// Values meet what it was told, and then they meet these.
    Feasible(&'static [Number]),
    /// No values meet what it was told, since just these aren't true together.
    Clash(&'static [Number]),
    /// It was told so many literals.
    Told(usize),
    /// It takes back all but so many literals.
    Undo(usize),
    /// It begins anew over its forms, and learns of the same bounds.
    Restart,
    /// It begins anew over forms that are arranged where these are true from the start, and learns of the same bounds.
    Arrange(&'static [Number]),
    /// Where the first so many clauses for neighbouring bounds are held, those are added by which just these aren't true together.
    Excludes(usize, &'static [&'static [Number]]),
}

/// Another answer than was wanted, and at which act.
#[derive(Clone, Copy, Debug)]
struct Wrong {
    place: usize,
}

/// The literals of these numbers.
fn literals(alloc: Global, system: &System, numbers: &[Number]) -> Result<Vec<Lit>, Memory> {
    let mut literals = Vec::new(alloc);
    for number in numbers {
        literals.push(system.literal(*number).ok_or(Memory)?)?;
    }
    Ok(literals)
}

/// Whether a clause has just the negations of the literals of these numbers.
fn refutes(
    alloc: Global,
    system: &System,
    clause: &[Lit],
    numbers: &[Number],
) -> Result<bool, Memory> {
    let literals = literals(alloc, system, numbers)?;
    Ok(clause.len() == literals.len() && literals.iter().all(|one| clause.contains(&one.not())))
}

/// Whether there is a clause, which has just the negations of the literals of these numbers.
fn is_refuted(
    alloc: Global,
    system: &System,
    clause: Option<Vec<Lit>>,
    numbers: &[Number],
) -> Result<bool, Memory> {
    match clause {
        None => Ok(false),
        Some(clause) => refutes(alloc, system, &clause, numbers),
    }
}

/// Tells a theory the literal of a number. Answers the clause that refutes it, if there is one.
fn tell(system: &mut System, number: Number) -> Result<Option<Vec<Lit>>, Fail> {
    let literal = system.literal(number).ok_or(Memory)?;
    system.tell(literal)
}

/// Whether the literals of these numbers are true at these values.
fn are_met(
    alloc: Global,
    system: &System,
    values: &Assign,
    numbers: &[Number],
) -> Result<bool, Memory> {
    let literals = literals(alloc, system, numbers)?;
    Ok(literals.iter().all(|one| holds(system.says(*one), values)))
}

/// Whether values meet what a theory was told, and these literals too.
fn is_feasible(alloc: Global, system: &mut System, numbers: &[Number]) -> Result<bool, Fail> {
    let mut values = Assign::new(alloc)?;
    if system.settle(&mut values)?.is_some() {
        return Ok(false);
    }
    Ok(are_met(alloc, system, &values, numbers)?)
}

/// Whether no values meet what a theory was told, since just these literals aren't true together.
fn clashes(alloc: Global, system: &mut System, numbers: &[Number]) -> Result<bool, Fail> {
    let mut values = Assign::new(alloc)?;
    let clause = system.settle(&mut values)?;
    Ok(is_refuted(alloc, system, clause, numbers)?)
}

/// Lets a theory begin anew over forms that are arranged where the literals of these numbers are true from the start.
fn arrange(alloc: Global, system: &mut System, numbers: &[Number]) -> Result<bool, Fail> {
    let truths = truths_of(alloc, &literals(alloc, system, numbers)?)?;
    system.arrange(&truths)?;
    Ok(true)
}

/// By the numbers of atoms, the truths under which these literals are true.
fn truths_of(alloc: Global, literals: &[Lit]) -> Result<Vec<Option<bool>>, Memory> {
    let mut truths = Vec::new(alloc);
    for literal in literals {
        let atom = literal.atom();
        let count = atom.saturating_add(1).max(truths.len());
        truths.resize(count, None)?;
        if let Some(truth) = truths.get_mut(atom) {
            *truth = Some(literal.sign());
        }
    }
    Ok(truths)
}

/// Whether the clauses for neighbouring bounds that are added, where the first so many are held, are just that these aren't true together, in this order.
fn excludes(
    alloc: Global,
    system: &mut System,
    held: usize,
    pairs: &[&'static [Number]],
) -> Result<bool, Fail> {
    let clauses = system.exclusions(held)?;
    if clauses.len() != pairs.len() {
        return Ok(false);
    }
    for (clause, numbers) in clauses.iter().zip(pairs) {
        if !refutes(alloc, system, clause, numbers)? {
            return Ok(false);
        }
    }
    Ok(true)
}

/// Does what an act says. Answers whether that comes to what is wanted.
fn is_done(alloc: Global, system: &mut System, act: &Act) -> Result<bool, Fail> {
    match act {
        Act::Tell(number) => Ok(tell(system, *number)?.is_none()),
        Act::Refuse(number, numbers) => {
            let clause = tell(system, *number)?;
            Ok(is_refuted(alloc, system, clause, numbers)?)
        }
        Act::Feasible(numbers) => is_feasible(alloc, system, numbers),
        Act::Clash(numbers) => clashes(alloc, system, numbers),
        Act::Told(count) => Ok(system.mark() == *count),
        Act::Undo(mark) => {
            system.undo(*mark);
            Ok(true)
        }
        Act::Restart => {
            system.restart()?;
            Ok(true)
        }
        Act::Arrange(numbers) => arrange(alloc, system, numbers),
        Act::Excludes(held, pairs) => excludes(alloc, system, *held, pairs),
    }
}

/// Does these acts one after another. Fails at the first that comes to something else than is wanted.
fn follow(alloc: Global, system: &mut System, acts: &[Act]) -> Result<(), Fail> {
    for (place, act) in acts.iter().enumerate() {
        if !is_done(alloc, system, act)? {
            return Err(Fail::from(Wrong { place }));
        }
    }
    Ok(())
}

/// Does these acts over these bounds.
pub fn run(alloc: Global, rows: &[Row], acts: &[Act]) -> Result<(), Fail> {
    let mut system = System::over(alloc, rows)?;
    follow(alloc, &mut system, acts)
}
