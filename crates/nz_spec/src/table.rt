//! Laws of tables of shared terms.
ghost use Rattle.nz_spec.specs.terms.Table.{AssignsByNumber, OneNumber, TermOfNode, TermStays, TermStaysInFront, TermsStay};

/// Equal terms have equal numbers.
pub fn one_number()
    ensures one { OneNumber }
{}

/// The term of a number is the head of its node over the terms of the arguments.
pub fn term_of_node()
    ensures node { TermOfNode }
{}

/// The term of a number stays when a table grows.
pub fn term_stays()
    ensures stays { TermStays }
{}

/// The term of a number stays where a table is cut behind it.
pub fn term_stays_in_front()
    ensures stays { TermStaysInFront }
{}

/// The terms of a list of numbers stay when a table grows.
pub fn terms_stay()
    ensures stays { TermsStay }
{}

/// An assignment by numbers gives a name the value that is listed with its constant's number.
pub fn assigns_by_number()
    ensures listed { AssignsByNumber }
{}
