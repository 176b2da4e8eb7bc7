//! Laws of the steps of linear arithmetic.
ghost use Rattle.nz_spec.specs.clauses.LinearLiteral.{TightSaysAsMuch};
ghost use Rattle.nz_spec.specs.terms.WellSorted.{SortedTermsAreArithmetic};
ghost use Rattle.nz_spec.specs.clauses.Links.{LinksAreTrue};
ghost use Rattle.nz_spec.specs.clauses.Units.{UnitsAreTrue};
ghost use Rattle.nz_spec.specs.clauses.Farkas.{FarkasClausesAreTrue};
ghost use Rattle.nz_spec.specs.clauses.Cuts.{BranchClausesAreTrue, CutClausesAreTrue};
ghost use Rattle.nz_spec.specs.worked.WorkedArithmetic.{HasCuts, HasGap, HasLinkTable, HasSums, HasUnitTable, HasWideSteps};

/// Where a sum of multiples of literals is a false bound on 0, one of the literals is false.
pub fn farkas_clauses_are_true()
    ensures clauses { FarkasClausesAreTrue }
{}

/// A comparison is true where the literals of its links say so.
pub fn links_are_true()
    ensures clauses { LinksAreTrue }
{}

/// A unit has the value that its clauses say.
pub fn units_are_true()
    ensures clauses { UnitsAreTrue }
{}

/// Well sorted linear terms are what the tables of links and units ask for, and so are the units of forms.
pub fn sorted_terms_are_arithmetic()
    ensures arithmetic { SortedTermsAreArithmetic }
{}

/// A sum of integers is at most an integer, or at least the next one.
pub fn branches_are_true()
    ensures clauses { BranchClausesAreTrue }
{}

/// A bound on a sum of integers may be rounded.
pub fn cuts_are_true()
    ensures clauses { CutClausesAreTrue }
{}

/// A tight literal says as much as the one that it is made of.
pub fn tight_says_as_much()
    ensures same { TightSaysAsMuch }
{}

/// Links, units, sums, cuts and a refutation, by the definitions alone.
pub fn worked_arithmetic()
    ensures links { HasLinkTable }
    ensures units { HasUnitTable }
    ensures sums { HasSums }
    ensures cuts { HasCuts }
    ensures wide { HasWideSteps }
    ensures refutation { HasGap }
{}
