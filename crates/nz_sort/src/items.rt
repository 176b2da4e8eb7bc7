//! The live items, as the crates above see them.
use nz_base::Text;
use nz_command::Direction;
use nz_frac::Frac;
use nz_sexpr::Tree;
use nz_term::TermId;

/// A live item: a constant, or what is asserted, sought or wished.
#[derive(Clone, Copy, Debug, PartialEq, Eq)]
pub struct Accepted {
    /// Its number in the order of acceptance, which all kinds of items share. No other item has or had it.
    pub number: usize,
    /// The number of its term in the table of terms.
    pub term: TermId,
}

/// A live goal.
#[derive(Debug, Drop)]
pub struct Goal {
    pub accepted: Accepted,
    pub direction: Direction,
    /// The tree by which it is shown.
    pub shown: Tree,
}

/// A live wish: a term that is to be true. Where it isn't, that costs its weight in its group.
#[derive(Debug, Drop)]
pub struct Wish {
    /// Its term is what it costs before its weight: 0 where it is true, else 1.
    pub accepted: Accepted,
    pub weight: Frac,
    /// The weight was written as a numeral.
    pub is_numeral: bool,
    pub group: Text,
}
