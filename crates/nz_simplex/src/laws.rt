//! What clashes are worth.
ghost use Rattle.nz_simplex.specs.Contradictions.{ClashesContradict};
ghost use Rattle.nz_simplex.specs.Joins.{JoinsStopAtRows};
ghost use Rattle.nz_simplex.specs.OtherUnits.{ContradictionsStay};
ghost use Rattle.nz_simplex.specs.SaidBounds.{LiteralsSayBounds, SumsStay};

use nz_spec::basis::worth_is_by_units;
use nz_spec::form::forms_are_sums;
use nz_spec::infinitesimal::infinitesimals_are_ordered;
use nz_spec::term::tells_terms;
use nz_tab::laws::units_join;

/// Where each bound that was asserted has a literal that says the same, the literals of clashing bounds, with their multipliers, sum to a
/// contradiction: those that a check tells, and two bounds that leave a form no value.
#[tactic(auto, using(crate::proofs::ContradictionSums::clashes_contradict))]
pub fn clashes_contradict()
    ensures contradict { ClashesContradict }
{
    tells_terms();
    worth_is_by_units();
    infinitesimals_are_ordered();
}

/// Whether a sum of multiples is a contradiction doesn't depend on which terms the units are.
pub fn contradictions_stay()
    ensures stay { ContradictionsStay }
{
    tells_terms();
    worth_is_by_units();
}

/// Where a form that joins leaves the numbers, the operation is one of its row, over the position to which its units have joined.
#[tactic(auto, using(crate::proofs::WideJoinRows::joins_stop_at_rows))]
pub fn joins_stop_at_rows()
    ensures stop { JoinsStopAtRows }
{
    units_join();
}

/// Which literals say which bounds of a form.
#[tactic(auto, using(crate::proofs::BoundLiterals::literals_say_bounds))]
pub fn literals_say_bounds()
    ensures say { LiteralsSayBounds }
{}

/// The parts of a term's form are a sum, and stay one when they are multiplied or negated.
#[tactic(auto, using(crate::proofs::BoundLiterals::sums_stay))]
pub fn sums_stay()
    ensures stay { SumsStay }
{
    forms_are_sums();
}
