//! Laws of linear forms.
ghost use Rattle.nz_spec.specs.terms.FormOf.{FormHasValue, FormsAreSums, PlacesTellApart, TermHasItsNumber, UnitsAreParts};
ghost use Rattle.nz_spec.specs.clauses.Wishes.{GroupsHaveValues};
ghost use Rattle.nz_spec.specs.laws.FormPlace.{JoinsAtItsPlace};
ghost use Rattle.nz_spec.specs.laws.Renumbering.{GroupsRenumber, ListingsMayRenumber, SumsRenumber, TermsRenumber};

/// The form of a linear term has the value of the term.
pub fn form_has_value()
    ensures value { FormHasValue }
{}

/// The goal of a group of wishes has the sum of the weights of those that are false.
#[tactic(auto, using(crate::proofs::WishValues::groups_have_values))]
pub fn groups_have_values()
    ensures values { GroupsHaveValues }
{}

/// In the form of a term each unit stands once, in order, with a coefficient other than 0.
pub fn forms_are_sums()
    ensures sums { FormsAreSums }
{}

/// The units of a term's form are among what the term is made of.
pub fn units_are_parts()
    ensures parts { UnitsAreParts }
{}

/// The number of a term in a table is the one by which it is found there.
pub fn term_has_its_number()
    ensures number { TermHasItsNumber }
{}

/// No two terms of a list have one place there.
pub fn places_tell_apart()
    ensures apart { PlacesTellApart }
{}

/// A part joins a sum at the place of its unit.
pub fn joins_at_its_place()
    ensures place { JoinsAtItsPlace }
{}

/// Sums whose units are numbered anew have sums, multiples and negations that are the same in the other order.
pub fn sums_renumber()
    ensures renumber { SumsRenumber }
{}

/// So have the forms of terms, and their rows in the tables of links and units.
pub fn terms_renumber()
    ensures renumber { TermsRenumber }
{}

/// So have the forms of groups of wishes.
#[tactic(auto, using(crate::proofs::RenumberedWishes::groups_renumber))]
pub fn groups_renumber()
    ensures renumber { GroupsRenumber }
{}

/// What is listed of terms may be numbered anew.
pub fn listings_may_renumber()
    ensures may { ListingsMayRenumber }
{}
