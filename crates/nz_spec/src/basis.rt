//! Laws of bases of linear forms.
ghost use Rattle.nz_spec.specs.simplex.Basis.{CoefficientsAreUnique, NonbasicFormIsItself, ValueIsWorth, WorthIsByUnits};
ghost use Rattle.nz_spec.specs.simplex.BasisMoves.{ExchangeKeepsBasis, JoinsKeepBasis, SolutionsAreWorth, SolutionsStay};
ghost use Rattle.nz_spec.specs.simplex.Bland.{BoundsSayWhatTheyMean, CheckStepsKeepBasis, ClimbStepsKeepBasis, NoHelpRefutes, PositionsHaveValues, RowsTell, SumMoves, ValueIsComputed};
ghost use Rattle.nz_spec.specs.laws.BlandRuns.{NoPostureReturns, RunsAreShort};
ghost use Rattle.nz_spec.specs.simplex.PositionMoves.{MovesKeepReady};
ghost use Rattle.nz_spec.specs.worked.WorkedBasis.{HasExchange, HasJoiningRow};

/// Coefficients over a basis are unique.
pub fn coefficients_are_unique()
    ensures unique { CoefficientsAreUnique }
{}

/// The sum of a nonbasic form is the form itself.
pub fn nonbasic_form_is_itself()
    ensures itself { NonbasicFormIsItself }
{}

/// A form is worth under an assignment what its units are.
pub fn value_is_worth()
    ensures worth { ValueIsWorth }
{}

/// Forms are worth the same just where each unit has the same coefficient in both.
pub fn worth_is_by_units()
    ensures units { WorthIsByUnits }
{}

/// An exchange of a basic and a nonbasic form leaves a basis, with the rows that are computed.
pub fn exchange_keeps_basis()
    ensures kept { ExchangeKeepsBasis }
{}

/// The values of forms under an assignment fit every basis, and an exchange leaves the same solutions.
pub fn solutions_stay()
    ensures stay { SolutionsStay }
{}

/// New units join a basis as nonbasic, and forms over its units as basic; what stood there stays.
pub fn joins_keep_basis()
    ensures kept { JoinsKeepBasis }
{}

/// The value of a form that is computed from its row is the sum over the point.
pub fn value_is_computed()
    ensures computed { ValueIsComputed }
{}

/// Where one value moves, a sum moves by its coefficient there.
pub fn sum_moves()
    ensures moves { SumMoves }
{}

/// A check step leads from basis to basis.
pub fn check_steps_keep_basis()
    ensures kept { CheckStepsKeepBasis }
{}

/// A climb step leads from basis to basis.
pub fn climb_steps_keep_basis()
    ensures kept { ClimbStepsKeepBasis }
{}

/// Where a form breaks a bound and no nonbasic form can help, its row refutes the bounds.
pub fn no_help_refutes()
    ensures refutes { NoHelpRefutes }
{}

/// A run of check steps has fewer steps than there are postures.
pub fn runs_are_short()
    ensures short { RunsAreShort }
{}

/// Each form has one value at a position, and the values of all forms fit the basis.
pub fn positions_have_values()
    ensures values { PositionsHaveValues }
{}

/// Values that fit a basis are those of its forms, where the units are worth their own.
pub fn solutions_are_worth()
    ensures worth { SolutionsAreWorth }
{}

/// What bounds say of fractions.
pub fn bounds_say_what_they_mean()
    ensures mean { BoundsSayWhatTheyMean }
{}

/// What a check takes for granted stays when units, forms and bounds join, and when bounds are taken back.
pub fn moves_keep_ready()
    ensures ready { MovesKeepReady }
{}

/// Rows tell what breaks a bound, and what can help.
pub fn rows_tell()
    ensures tell { RowsTell }
{}

/// Forms that join two units, and an exchange, by the definitions alone.
pub fn worked_basis()
    ensures joining { HasJoiningRow }
    ensures exchange { HasExchange }
{}

/// In a run of check steps no posture returns.
pub fn no_posture_returns()
    ensures returns { NoPostureReturns }
{}
