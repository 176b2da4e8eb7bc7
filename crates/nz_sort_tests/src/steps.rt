//! What is done with a live state, and what is asked of it, told by tables. One loop walks them, so that a test is one call, and cheap to prove.

use crate::cases::{faults, read};
use crate::trial::Trial;
use nz_base::{Error, Memory};
use nz_sort::{Accepted, Act, Live};
use nz_term::TermId;
use std::alloc::Global;
use std::test::Fail;

/// What is done or asked, and what is to come of it.
pub(crate) enum Step {
    /// The command is carried out, and this comes of it: a word for what it asks, or the error's text.
    Command(&'static str, &'static [u8]),
    /// Whether a number of the command is too wide, and whether one is too long behind the point.
    Numbers(&'static str, bool, bool),
    /// These are the constants of the newest level.
    Constants(&'static [Accepted]),
    /// These are the assertions of the newest level.
    Assertions(&'static [Accepted]),
    /// So many goals and wishes are in the newest level, and so many levels were pushed.
    Counts(usize, usize, usize),
    /// The table has so many terms.
    Terms(usize),
    /// The live terms are listed in this order.
    Listed(&'static [TermId]),
}

/// The word for what a command asks.
fn act_word(act: &Act) -> &'static [u8] {
    match act {
        Act::Changed => b"changed",
        Act::Popped => b"popped",
        Act::Cleared => b"cleared",
        Act::Reset => b"reset",
        Act::Check(_) => b"check",
        Act::ShowModel => b"model",
        Act::ShowValues(_) => b"values",
        Act::ShowReason => b"reason",
        Act::ShowInfo(_) => b"info",
        Act::ShowLevels => b"levels",
        Act::PrintSuccess(true) => b"talk",
        Act::PrintSuccess(false) => b"hush",
        Act::Nothing => b"nothing",
        Act::Echo => b"echo",
        Act::Leave => b"leave",
        Act::Unsupported => b"unsupported",
    }
}

/// The same, or the text of the error.
fn outcome_word(outcome: &Result<Act, Error>) -> &'static [u8] {
    match outcome {
        Ok(act) => act_word(act),
        Err(error) => error.text(),
    }
}

/// What comes of a command, told by its word.
fn carried_out(alloc: Global, trial: &mut Trial, command: &str) -> Result<&'static [u8], Error> {
    let tree = read(alloc, command)?;
    let outcome = trial.carry_out(&tree);
    Ok(outcome_word(&outcome))
}

/// Whether these are the constants of the newest level.
fn has_constants(live: &Live, wanted: &[Accepted]) -> bool {
    live.top().constants() == wanted
}

/// Whether these are the assertions of the newest level.
fn has_assertions(live: &Live, wanted: &[Accepted]) -> bool {
    live.top().assertions() == wanted
}

/// Whether so many goals and wishes are in the newest level, and so many levels were pushed.
fn has_counts(live: &Live, goals: usize, wishes: usize, levels: usize) -> bool {
    let top = live.top();
    top.goals().len() == goals && top.wishes().len() == wishes && live.levels() == levels
}

/// Whether the live terms are listed in this order.
fn is_listed(alloc: Global, trial: &Trial, wanted: &[TermId]) -> Result<bool, Memory> {
    let order = trial.listed(alloc)?;
    Ok(order.as_slice() == wanted)
}

/// Takes a step. Answers whether that comes to what is wanted.
fn is_met(alloc: Global, trial: &mut Trial, step: &Step) -> Result<bool, Error> {
    Ok(match step {
        Step::Command(command, wanted) => carried_out(alloc, trial, command)? == *wanted,
        Step::Numbers(command, wide, long) => faults(alloc, command)? == (*wide, *long),
        Step::Constants(wanted) => has_constants(trial.live(), wanted),
        Step::Assertions(wanted) => has_assertions(trial.live(), wanted),
        Step::Counts(goals, wishes, levels) => {
            has_counts(trial.live(), *goals, *wishes, *levels)
        }
        Step::Terms(count) => trial.term_count() == *count,
        Step::Listed(wanted) => is_listed(alloc, trial, wanted)?,
    })
}

/// Takes these steps. Fails at the first that comes to something else than is wanted, with its place.
fn follow(alloc: Global, trial: &mut Trial, steps: &[Step]) -> Result<(), Fail> {
    for (place, step) in steps.iter().enumerate() {
        if !is_met(alloc, trial, step)? {
            return Err(Fail::from(place));
        }
    }
    Ok(())
}

/// Takes these steps from the live state of the start.
pub(crate) fn run(alloc: Global, steps: &[Step]) -> Result<(), Fail> {
    let mut trial = Trial::new(alloc)?;
    follow(alloc, &mut trial, steps)
}
