//! Laws of terms.
ghost use Rattle.nz_spec.specs.terms.Definitions.{UseHasBodyValue, InstanceKeepsNormal};
ghost use Rattle.nz_spec.specs.terms.Term.{DecimalsAreNumbers, Divides, DividesOnce};
ghost use Rattle.nz_spec.specs.terms.Same.{TellsHeads, TellsTerms};
ghost use Rattle.nz_spec.specs.laws.Numerals.{NumeralsAreWhole};
ghost use Rattle.nz_spec.specs.terms.Normal.{NormalKeepsValue};
ghost use Rattle.nz_spec.specs.terms.OverConstants.{ConstantsTellValues};
ghost use Rattle.nz_spec.specs.terms.WellSorted.{NormalStaysSorted, NormalTermsAreGated, OperandsAreSorted, SortsTell};
ghost use Rattle.nz_spec.specs.worked.TruthTables.{HasPairs, HasTriples};

/// The value of a use of a definition is that of its body under the values of the arguments.
pub fn use_has_body_value()
    ensures value { UseHasBodyValue }
{}

/// A term and its normal term have one value.
pub fn normal_keeps_value()
    ensures keeps { NormalKeepsValue }
{}

/// Assignments that give the constants of a term the same values give it one value.
pub fn constants_tell_values()
    ensures tell { ConstantsTellValues }
{}

/// Terms may be put for the parameters of a body before or after both are made normal.
pub fn instance_keeps_normal()
    ensures keeps { InstanceKeepsNormal }
{}

/// A normal term that holds no number is one of the gate table.
pub fn normal_terms_are_gated()
    ensures gated { NormalTermsAreGated }
{}

/// Of sorts and of well sorted terms: two sorts are one where the test says so, operands go by their sorts, and a term has a value of its sort.
pub fn sorts_tell()
    ensures tell { SortsTell }
{}

/// The normal term of a well sorted term is well sorted, and of its sort.
pub fn normal_stays_sorted()
    ensures stays { NormalStaysSorted }
{}

/// The arguments of a well sorted term are of sort Bool where its head takes such, and of no such sort where it takes numbers.
pub fn operands_are_sorted()
    ensures sorted { OperandsAreSorted }
{}

/// `div` and `mod` compute the quotient and the remainder of integers, and no other two numbers are so.
pub fn divides()
    ensures divides { Divides }
    ensures once { DividesOnce }
{}

/// Two heads are one where the test says so.
pub fn tells_heads()
    ensures tells { TellsHeads }
{}

/// Two terms are one where the test says so.
pub fn tells_terms()
    ensures tells { TellsTerms }
{}

/// A decimal that fits is a number.
pub fn decimals_are_numbers()
    ensures numbers { DecimalsAreNumbers }
{}

/// A number of no decimal places is the integer that its digits spell.
pub fn numerals_are_whole()
    ensures whole { NumeralsAreWhole }
{}

/// The truth tables of the operators, by the definitions alone.
pub fn worked_values()
    ensures pairs { HasPairs }
    ensures triples { HasTriples }
{}
