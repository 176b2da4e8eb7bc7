//! Laws of climbs.
ghost use Rattle.nz_spec.specs.simplex.Climb.{RaysPassAll, VerticesBoundGoal};
ghost use Rattle.nz_spec.specs.simplex.Families.{LinesTell};
ghost use Rattle.nz_spec.specs.worked.WorkedFamilies.{HasSteadyFamily};

/// No assignment that makes the kept literals true is better for the goal than every member of a vertex.
pub fn vertices_bound_goal()
    ensures bound { VerticesBoundGoal }
{}

/// Along a ray the goal passes every number.
pub fn rays_pass_all()
    ensures passes { RaysPassAll }
{}

/// What lines tell of terms along a family, and of operations on lines.
pub fn lines_tell()
    ensures tell { LinesTell }
{}

/// A family that is steady, and one that isn't.
pub fn worked_families()
    ensures steady { HasSteadyFamily }
{}
