//! Literals on Boolean terms, by the numbers of the terms.
ghost use Rattle.std.specs.Prelude.{◌≡◌};
ghost use Rattle.nz_term.specs.TermLits.{no, turned, yes};

use crate::nodes::TermId;

/// A Boolean term is true, or it is false.
#[derive(Clone, Copy, Debug, PartialEq, Eq)]
pub struct TermLit {
    /// The number of the term in its table.
    pub term: TermId,
    /// Whether the term is to be true.
    pub sign: bool,
}

impl TermLit {
    /// The term is true.
    pub fn holds(term: TermId) -> TermLit
        ensures literal { result ≡ yes term }
    {
        TermLit { term, sign: true }
    }

    /// The term is false.
    pub fn fails(term: TermId) -> TermLit
        ensures literal { result ≡ no term }
    {
        TermLit { term, sign: false }
    }

    /// The negation.
    pub fn not(self) -> TermLit
        ensures negation { result ≡ turned self }
    {
        TermLit {
            term: self.term,
            sign: !self.sign,
        }
    }
}
