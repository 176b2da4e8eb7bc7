//! The multipliers of the bounds that a clash rests on.
ghost use Rattle.std.specs.Prelude.{◌≡◌, ◌<◌, ◌≤◌, ◌+◌, ◌++◌, ◌∷◌, All, false, flat_map, length, map, pos, slice_index_or, vec_capacity, vec_len};
ghost use Rattle.nz_fractions.specs.Fraction.{whole};
ghost use Rattle.nz_simplex.specs.Standing.{told};
ghost use Rattle.nz_simplex.specs.Stored.{held_back, held_by, one_or_none};
ghost use Rattle.nz_simplex.specs.Tabled.{marks_in, rows_in};

use crate::choice::{Broken, opposite, size, way};
use crate::coordinate::Coordinate;
use crate::helper::bound_of;
use nz_frac::Frac;
use nz_tab::Tab;
use nz_trail::{Reason, Side, Trail, Var};

/// The bounds that keep a form from its bound, with their multipliers, in place of what was there.
pub(crate) fn put_multipliers<S: Coordinate>(
    tab: &Tab,
    trail: &Trail<S>,
    nonbasic: &[Var],
    broken: &Broken<S>,
    why: &mut Vec<(Reason, Frac)>,
)
    requires known { broken.now.var < length tab.now.forms }
    requires basic { slice_index_or (marks_in tab.now) broken.now.var false ≡ false }
    requires listed { All (λ k. k < trail.now.vars) nonbasic.now }
    requires room { length nonbasic.now < vec_capacity why.old }
    ensures capacity { vec_capacity why.new ≡ vec_capacity why.old }
    ensures put { why.new.items ≡ (broken.now.limit.reason, whole (pos 1)) ∷ flat_map (held_back (map (told S.stands_for) trail.now.asserted) broken.now.side (rows_in tab.now broken.now.var)) nonbasic.now }
{
    why.clear();
    why.push_reserved((broken.limit.reason, Frac::whole(1)));
    let row = tab.row(broken.var);
    for var in nonbasic {
        put_multiplier(why, multiplier_of(trail, *var, broken.side, row.at(*var)));
    }
}

/// Puts a multiplier behind others, where there is one.
fn put_multiplier(why: &mut Vec<(Reason, Frac)>, multiplier: Option<(Reason, Frac)>)
    requires room { vec_len why.old < vec_capacity why.old }
    ensures put { why.new.items ≡ why.old.items ++ one_or_none multiplier }
    ensures len { vec_len why.new ≤ vec_len why.old + 1 }
    ensures capacity { vec_capacity why.new ≡ vec_capacity why.old }
{
    if let Some(multiplier) = multiplier {
        why.push_reserved(multiplier);
    }
}

/// The reason and the multiplier of the bound that keeps a nonbasic form from helping, where the form of the row, in which it
/// has this coefficient, breaks its bound of a side. None where the coefficient is 0.
fn multiplier_of<S: Coordinate>(
    trail: &Trail<S>,
    var: Var,
    side: Side,
    coefficient: Frac,
) -> Option<(Reason, Frac)>
    requires known { var < trail.now.vars }
    ensures held { result ≡ held_by (map (told S.stands_for) trail.now.asserted) side var coefficient }
{
    let towards = way(opposite(side), coefficient)?;
    let limit = bound_of(trail, towards, var)?;
    Some((limit.reason, size(coefficient)))
}
