//! Laws of forms.
ghost use Rattle.nz_lin.specs.Differences.{DifferencesAreOpposite};

use nz_spec::derivation::tells_literals;
use nz_spec::form::{joins_at_its_place, term_has_its_number};

/// The difference of two forms is the negation of that of the second and the first.
pub fn differences_are_opposite()
    ensures opposite { DifferencesAreOpposite }
{
    joins_at_its_place();
    tells_literals();
    term_has_its_number();
}
