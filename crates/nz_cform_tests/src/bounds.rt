//! Bounds told by tables, and whether atoms are those.
use nz_frac::Frac;
use nz_lin::{Bound, Part};
use nz_log::{Atom, AtomId, Log};
use nz_term::TermId;

/// That a sum is at most a limit: the coefficients of its units, and the limit.
pub(crate) struct Row(pub(crate) &'static [(i64, TermId)], pub(crate) i64);

/// Whether a part is this multiple of a unit.
fn is_part(part: &Part, coefficient: i64, unit: TermId) -> bool {
    part.unit == unit && part.coefficient == Frac::whole(coefficient)
}

/// Whether these are the parts of a sum.
fn are_parts(parts: &[Part], wanted: &[(i64, TermId)]) -> bool {
    parts.len() == wanted.len()
        && parts.iter().zip(wanted).all(|(part, (coefficient, unit))| is_part(
            part,
            *coefficient,
            *unit,
        ))
}

/// Whether a bound is the row's.
fn is_row(bound: &Bound, row: &Row) -> bool {
    are_parts(bound.parts(), row.0) && bound.limit() == Frac::whole(row.1)
}

/// Whether an atom is the row's bound.
fn is_on(log: &Log, atom: AtomId, row: &Row) -> bool {
    if log.atom_count() <= atom {
        return false;
    }
    match log.atom(atom) {
        Atom::AtMost(bound) => is_row(bound, row),
        Atom::Term(_) => false,
    }
}

/// Whether these atoms are the bounds of these rows, in this order.
pub(crate) fn are_bounds(log: &Log, atoms: &[AtomId], rows: &[Row]) -> bool {
    atoms.len() == rows.len()
        && atoms
            .iter()
            .zip(rows)
            .all(|(atom, row)| is_on(log, *atom, row))
}
