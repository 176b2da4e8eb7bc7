//! Which nonbasic form can take a form back to its bound.
ghost use Rattle.std.specs.Prelude.{◌≡◌, ◌<◌, All, IsSome, None, false, length, map, option_map, slice_index_or};
ghost use Rattle.nz_simplex.specs.Standing.{standing, told, told_on};
ghost use Rattle.nz_simplex.specs.Stored.{first_passing, is_helping};
ghost use Rattle.nz_simplex.specs.Tabled.{marks_in, rows_in};
ghost use Rattle.nz_trail.specs.Bounds.{other_side};

use crate::choice::{Broken, has_room, opposite, way};
use crate::coordinate::Coordinate;
use nz_frac::Frac;
use nz_tab::Tab;
use nz_trail::{Limit, Side, Trail, Var};

/// The least-numbered of these nonbasic forms that can take a form back to its bound.
pub(crate) fn first_helper<S: Coordinate>(
    tab: &Tab,
    trail: &Trail<S>,
    nonbasic: &[Var],
    values: &[Option<S>],
    broken: &Broken<S>,
) -> Option<Var>
    requires known { broken.now.var < length tab.now.forms }
    requires basic { slice_index_or (marks_in tab.now) broken.now.var false ≡ false }
    requires listed { All (λ k. k < trail.now.vars) nonbasic.now }
    requires held { All (λ k. k < length values.now) nonbasic.now }
    requires valued { All (λ k. IsSome (slice_index_or values.now k None)) nonbasic.now }
    ensures first { result ≡ first_passing (λ k. is_helping S.stands_for trail.now.asserted values.now (other_side broken.now.side) k (rows_in tab.now broken.now.var k)) nonbasic.now }
{
    let row = tab.row(broken.var);
    for var in nonbasic {
        if can_help(trail, values, *var, opposite(broken.side), row.at(*var)) {
            return Some(*var);
        }
    }
    None
}

/// Whether a nonbasic form can take the form of a row, in which it has this coefficient, towards a side.
fn can_help<S: Coordinate>(
    trail: &Trail<S>,
    values: &[Option<S>],
    var: Var,
    side: Side,
    coefficient: Frac,
) -> bool
    requires known { var < trail.now.vars }
    requires held { var < length values.now }
    requires valued { IsSome (slice_index_or values.now var None) }
    ensures helps { result ≡ is_helping S.stands_for trail.now.asserted values.now side var coefficient }
{
    match way(side, coefficient) {
        Some(side) => has_room(side, bound_of(trail, side, var), values[var].unwrap()),
        None => false,
    }
}

/// The bound that stands of a variable on a side.
pub(crate) fn bound_of<S: Coordinate>(trail: &Trail<S>, side: Side, var: Var) -> Option<Limit<S>>
    requires known { var < trail.now.vars }
    ensures bound { option_map (told_on S.stands_for var side) result ≡ standing (map (told S.stands_for) trail.now.asserted) var side }
{
    let (lower, upper) = trail.bounds(var);
    match side {
        Side::Lower => lower,
        Side::Upper => upper,
    }
}
