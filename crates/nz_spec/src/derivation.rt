//! Laws of literals, clauses, gates and derivations.
ghost use Rattle.nz_spec.specs.clauses.Literal.{ClauseIsTrueTogether, NegationIsOther, ResolventIsTrue, TellsLiterals};
ghost use Rattle.nz_spec.specs.clauses.Gates.{GatedTermsArePlain, GatesAreTrue, GatesDecide, NumberedGatesDecide, PlainTermsAreBoolean};
ghost use Rattle.nz_spec.specs.clauses.Steps.{DerivationsGrow, DerivedClausesAreTrue, EmptyClauseRefutes};
ghost use Rattle.nz_spec.specs.laws.Renumbering.{DerivationsRenumber};
ghost use Rattle.nz_spec.specs.worked.WorkedSteps.{HasGateTable, HasRefutation, HasResolvents};

/// Two literals are one where the test says so.
pub fn tells_literals()
    ensures tells { TellsLiterals }
{}

/// Of a literal and its negation just one is true.
pub fn negation_is_other()
    ensures other { NegationIsOther }
{}

/// Literals are true together as a list and as a clause, and a resolvent is true where both clauses are.
pub fn resolvent_is_true()
    ensures together { ClauseIsTrueTogether }
    ensures resolvent { ResolventIsTrue }
{}

/// The clauses of a term over Boolean arguments are true. A term that holds no number has such arguments.
pub fn gates_are_true()
    ensures gates { GatesAreTrue }
    ensures plain { PlainTermsAreBoolean }
{}

/// Truths that meet the clauses of a term of the gate table are those of its value. Such a term holds no number.
pub fn gates_decide()
    ensures decide { GatesDecide }
    ensures numbers { NumberedGatesDecide }
    ensures plain { GatedTermsArePlain }
{}

/// What is derived is true wherever the live assertions are; so the empty clause refutes them.
pub fn derived_clauses_are_true()
    ensures clauses { DerivedClausesAreTrue }
    ensures refutes { EmptyClauseRefutes }
{}

/// A derivation goes on by a step in order, and when more is asserted.
pub fn derivations_grow()
    ensures grow { DerivationsGrow }
{}

/// Where units are numbered anew, a derivation stays one, and fits where it fitted.
pub fn derivations_renumber()
    ensures renumber { DerivationsRenumber }
{}

/// Gates, resolvents and a refutation, by the definitions alone.
pub fn worked_derivations()
    ensures gates { HasGateTable }
    ensures resolvents { HasResolvents }
    ensures refutation { HasRefutation }
{}
