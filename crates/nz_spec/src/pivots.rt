//! Laws of pivots in a work list.
ghost use Rattle.nz_spec.specs.simplex.Pivots.{PivotsAreRuns};

/// Pivots that lead from a position to another one are a run of check steps.
pub fn pivots_are_runs()
    ensures runs { PivotsAreRuns }
{}
