//! Laws of units among forms.
ghost use Rattle.nz_tab.specs.Laws.{UnitsAreForms, UnitsJoin};

use nz_spec::basis::joins_keep_basis;
use nz_spec::form::term_has_its_number;

/// Which forms are those of units, and which numbers of forms are those of units.
pub fn units_are_forms()
    ensures forms { UnitsAreForms }
{
    term_has_its_number();
}

/// What holds when the units of a form have joined a basis.
pub fn units_join()
    ensures join { UnitsJoin }
{
    joins_keep_basis();
    term_has_its_number();
}
