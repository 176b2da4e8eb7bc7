//! Room for forms that join.
ghost use Rattle.std.specs.Prelude.{◌≡◌, ◌+◌, ◌≤◌, IfOk, OnOk, vec_capacity};
ghost use Rattle.nz_simplex.specs.Stored.{HasRoomFor};

use crate::coordinate::Coordinate;
use nz_base::Memory;
use nz_frac::Frac;
use nz_trail::{Reason, Trail, Var};

/// How many forms there are at most when one of so many parts has joined, with a unit for each part.
pub(crate) fn count_with(count: usize, parts: usize) -> Result<usize, Memory>
    ensures count { IfOk result (λ n. n ≡ count + (parts + 1)) }
{
    let more = parts.checked_add(1).ok_or(Memory)?;
    count.checked_add(more).ok_or(Memory)
}

/// Makes room for so many forms in all. What is listed stays.
pub(crate) fn reserve<S: Coordinate>(
    trail: &mut Trail<S>,
    values: &mut Vec<Option<S>>,
    basic: &mut Vec<Var>,
    nonbasic: &mut Vec<Var>,
    why: &mut Vec<(Reason, Frac)>,
    count: usize,
) -> Result<(), Memory>
    ensures asserted { trail.new.asserted ≡ trail.old.asserted }
    ensures values { values.new.items ≡ values.old.items }
    ensures basic { basic.new.items ≡ basic.old.items }
    ensures nonbasic { nonbasic.new.items ≡ nonbasic.old.items }
    ensures why { why.new.items ≡ why.old.items }
    ensures vars { trail.old.vars ≤ trail.new.vars }
    ensures basic_room { vec_capacity basic.old ≤ vec_capacity basic.new }
    ensures nonbasic_room { vec_capacity nonbasic.old ≤ vec_capacity nonbasic.new }
    ensures why_room { vec_capacity why.old ≤ vec_capacity why.new }
    ensures room { OnOk result (HasRoomFor count trail.new.vars (vec_capacity values.new) (vec_capacity basic.new) (vec_capacity nonbasic.new) (vec_capacity why.new)) }
{
    reserve_all(values, count)?;
    reserve_all(basic, count)?;
    reserve_all(nonbasic, count)?;
    reserve_all(why, count)?;
    add_vars(trail, count)
}

/// Makes room for so many elements in all.
fn reserve_all<T>(list: &mut Vec<T>, count: usize) -> Result<(), Memory>
    ensures items { list.new.items ≡ list.old.items }
    ensures kept { vec_capacity list.old ≤ vec_capacity list.new }
    ensures room { OnOk result (count ≤ vec_capacity list.new) }
{
    list.reserve(count.saturating_sub(list.len()))?;
    Ok(())
}

/// Adds variables until there are so many.
fn add_vars<S: Coordinate>(trail: &mut Trail<S>, count: usize) -> Result<(), Memory>
    ensures asserted { trail.new.asserted ≡ trail.old.asserted }
    ensures vars { trail.old.vars ≤ trail.new.vars }
    ensures room { OnOk result (count ≤ trail.new.vars) }
{
    while trail.len() < count {
        trail.add_var()?;
    }
    Ok(())
}
