//! Cases told by tables: what is done to a system, and what is to come of it. One loop walks them, so that a test is one call, and cheap to prove.
use crate::numbers::{FromNumber, Number};
use crate::sums::{contradicts, is_point};
use crate::system::{System, value};
use nz_base::Memory;
use nz_frac::{Frac, Op, Wide};
use nz_place::Site;
use nz_simplex::{Check, Simplex, SimplexStop};
use nz_term::TermId;
use nz_trail::{AssertOutcome, Side, Var};
use std::alloc::Global;
use std::cmp::Ordering;
use std::test::Fail;

/// What is done or asked, and what is to come of it.
pub(crate) enum Act {
    /// The form of a sum of multiples of units joins, and has this number.
    Form(&'static [(i128, TermId)], Var),
    /// A bound is asserted, which is tighter than what stands.
    Tighten(Var, Side, Number),
    /// How many bounds there are is noted.
    Mark,
    /// The bounds are taken back to the last mark.
    Back,
    /// A form is settled.
    Settle(Var),
    /// A check that may take so many exchanges comes to this.
    Check(u64, Answer),
    /// The last check took just these exchanges: which form left the basis, and which entered it.
    Took(&'static [(Var, Var)]),
    /// Just these forms are basic.
    Basis(&'static [Var]),
    /// A form has this value.
    Value(Var, Number),
}

/// Which computation leaves the numbers.
#[derive(Clone, Copy)]
pub(crate) enum At {
    /// The exchange of a basic form with a nonbasic one.
    Exchange { leaves: Var, enters: Var },
    /// The value of a form.
    Value(Var),
}

/// What a check comes to.
pub(crate) enum Answer {
    /// A point within the bounds.
    Feasible,
    /// So many bounds that contradict.
    Clash(usize),
    /// Another exchange was wanted.
    Spent,
    /// At this place the operation on these integers left the numbers.
    Wide(At, Op, i128, i128),
}

/// Something else than was wanted, and at which act, step or system.
#[derive(Clone, Copy, Debug)]
pub(crate) struct Wrong {
    pub(crate) place: usize,
}

/// Whether these are that operation on these integers.
fn is_wide(wide: &Wide, op: Op, left: i128, right: i128) -> bool {
    wide.op == op && Frac::of(left, 1) == Some(wide.a) && Frac::of(right, 1) == Some(wide.b)
}

/// Whether that is the place of the computation.
fn is_site(site: &Site, at: At) -> bool {
    match (site, at) {
        (
            Site::Exchange { leaves, enters },
            At::Exchange {
                leaves: out,
                enters: entry,
            },
        ) => { *leaves == out && *enters == entry }
        (Site::Value { form }, At::Value(var)) => *form == var,
        _ => false,
    }
}

/// Whether a check stopped at that place, by the operation on these integers.
fn is_at(checked: &Result<Check, SimplexStop>, at: At, op: Op, left: i128, right: i128) -> bool {
    match checked {
        Err(SimplexStop::Wide(place)) => {
            is_site(&place.site, at) && is_wide(&place.wide, op, left, right)
        }
        _ => false,
    }
}

/// Whether a check came to what is wanted. A point and a clash are judged by plain sums.
fn is_answer<S: FromNumber>(
    system: &System<S>,
    checked: &Result<Check, SimplexStop>,
    wanted: &Answer,
) -> bool {
    match wanted {
        Answer::Feasible => matches!(checked, Ok(Check::Feasible)) && is_point(system.simplex()),
        Answer::Clash(count) => {
            matches!(checked, Ok(Check::Clash))
                && system.simplex().why().len() == *count
                && contradicts(system.simplex(), system.given())
        }
        Answer::Spent => matches!(checked, Err(SimplexStop::Spent)),
        Answer::Wide(at, op, left, right) => is_at(checked, *at, *op, *left, *right),
    }
}

/// Whether a check comes to what is wanted.
fn comes_to<S: FromNumber>(
    system: &mut System<S>,
    limit: u64,
    wanted: &Answer,
) -> Result<bool, Memory> {
    let checked = system.check(limit)?;
    Ok(is_answer(system, &checked, wanted))
}

/// Whether a bound is tighter than what stood.
fn tightens<S: FromNumber>(
    system: &mut System<S>,
    var: Var,
    side: Side,
    number: &Number,
) -> Result<bool, Memory> {
    match S::told(number) {
        Some(bound) => Ok(system.give(var, side, bound)? == AssertOutcome::Tighter),
        None => Ok(false),
    }
}

/// Whether a form has this value.
fn has_value<S: FromNumber>(simplex: &Simplex<S>, var: Var, number: &Number) -> bool {
    match (value(simplex, var), S::told(number)) {
        (Some(value), Some(wanted)) => value.cmp(&wanted) == Ordering::Equal,
        _ => false,
    }
}

/// Does what an act says. Answers whether that comes to what is wanted.
fn is_done<S: FromNumber>(system: &mut System<S>, act: &Act) -> Result<bool, Memory> {
    match act {
        Act::Form(multiples, var) => Ok(system.add(multiples)? == *var),
        Act::Tighten(var, side, number) => tightens(system, *var, *side, number),
        Act::Mark => {
            system.mark()?;
            Ok(true)
        }
        Act::Back => {
            system.back();
            Ok(true)
        }
        Act::Settle(var) => Ok(system.settle(*var)),
        Act::Check(limit, wanted) => comes_to(system, *limit, wanted),
        Act::Took(exchanges) => Ok(system.took(exchanges)),
        Act::Basis(wanted) => Ok(system.simplex().basis() == *wanted),
        Act::Value(var, number) => Ok(has_value(system.simplex(), *var, number)),
    }
}

/// Does these acts one after another. Fails at the first that comes to something else than is wanted.
fn follow<S: FromNumber>(system: &mut System<S>, acts: &[Act]) -> Result<(), Fail> {
    for (place, act) in acts.iter().enumerate() {
        if !is_done(system, act)? {
            return Err(Fail::from(Wrong { place }));
        }
    }
    Ok(())
}

/// Does these acts with a system that has no form.
pub(crate) fn run<S: FromNumber>(alloc: Global, acts: &[Act]) -> Result<(), Fail> {
    let mut system: System<S> = System::new(alloc)?;
    follow(&mut system, acts)
}
