//! The row of a basic form.
ghost use Rattle.std.specs.Prelude.{◌≡◌, length, pos, slice_index_or, true};
ghost use Rattle.nz_spec.specs.terms.Term.{is_zero};
ghost use Rattle.nz_fractions.specs.Fraction.{whole};
ghost use Rattle.nz_tab.specs.Rows.{coefficient, is_marked};

use nz_frac::Frac;
use std::marker::Model;

/// The number of a form.
pub type Var = usize;

/// The row of a basic form: the coefficients with which it is the sum of nonbasic ones. A contract sees which forms are
/// nonbasic, and the coefficient in the column of each of these.
#[derive(Debug, Drop)]
pub struct Row<'a> {
    // For each form whether it is nonbasic, and the column of its coefficient then.
    nonbasic: &'a [bool],
    places: &'a [usize],
    coefficients: &'a [Frac],
}

impl<'a> Model for Row<'a> {
    ghost use Rattle.std.specs.Prelude.{◌≡◌, length};
    ghost use Rattle.nz_tab.specs.Rows.{DenseRow};

    ghost Value = { DenseRow };

    ghost view = { λ r. record { marks = r.nonbasic.now; places = r.places.now; coefficients = r.coefficients.now } };

    ghost invariant = { λ r. length r.places.now ≡ length r.nonbasic.now };
}

impl<'a> Row<'a> {
    /// A row by the places of its coefficients.
    pub(crate) fn over(
        nonbasic: &'a [bool],
        places: &'a [usize],
        coefficients: &'a [Frac],
    ) -> Row<'a>
        requires places { length places.now ≡ length nonbasic.now }
        ensures row { result ≡ record { marks = nonbasic.now; places = places.now; coefficients = coefficients.now } }
    {
        Row {
            nonbasic,
            places,
            coefficients,
        }
    }

    /// The coefficient at a form: 0 where it is basic.
    pub fn at(&self, j: Var) -> Frac
        ensures coefficient { result ≡ coefficient self.now j }
    {
        if !is_marked(self.nonbasic, j) {
            return Frac::whole(0);
        }
        coefficient_at(self.coefficients, self.places[j])
    }
}

/// The coefficient of a place.
fn coefficient_at(coefficients: &[Frac], place: usize) -> Frac
    ensures coefficient { result ≡ slice_index_or coefficients.now place (whole (pos 0)) }
{
    coefficients.get(place).copied().unwrap_or(Frac::whole(0))
}

/// Whether a number is marked.
pub(crate) fn is_marked(marks: &[bool], number: usize) -> bool
    ensures marked { result ≡ is_marked marks.now number }
{
    marks.get(number).copied().unwrap_or(false)
}

/// Whether a number is 0.
pub(crate) fn is_none(number: Frac) -> bool
    ensures zero { result ≡ is_zero number }
    ensures none { result ≡ true → number ≡ whole (pos 0) }
{
    let none = Frac::whole(0);
    // The numerators are read, so that both are known to be in lowest terms.
    let _ = (number.num(), none.num());
    number.is_zero()
}
