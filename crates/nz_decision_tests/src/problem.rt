//! Problems over two truths and three numbers: clauses over comparisons of sums.
use std::cmp::Ordering;

/// How many truths, numbers and comparisons a problem has.
pub const TRUTHS: usize = 2;

pub const NUMBERS: usize = 3;

pub const COMPARISONS: usize = 4;

/// By a truth, one of two numbers.
#[derive(Clone, Copy, Debug)]
pub struct Choice {
    pub truth: usize,
    pub yes: usize,
    pub no: usize,
}

#[derive(Clone, Copy, Debug)]
pub enum Relation {
    AtMost,
    Below,
    AtLeast,
    Above,
    Equal,
}

impl Relation {
    /// Whether it holds where the left side stands so to the right one.
    pub fn holds(self, outcome: Ordering) -> bool {
        match self {
            Relation::AtMost => outcome != Ordering::Greater,
            Relation::Below => outcome == Ordering::Less,
            Relation::AtLeast => outcome != Ordering::Less,
            Relation::Above => outcome == Ordering::Greater,
            Relation::Equal => outcome == Ordering::Equal,
        }
    }
}

/// A sum of multiples of the numbers, and of a choice where there is one, compared with so many halves.
#[derive(Clone, Copy, Debug)]
pub struct Comparison {
    pub factors: [i64; NUMBERS],
    pub choice: Option<Choice>,
    pub relation: Relation,
    pub halves: i64,
}

#[derive(Clone, Copy, Debug)]
pub enum Atom {
    Truth(usize),
    Compares(usize),
}

/// An atom, or its negation.
#[derive(Clone, Copy, Debug)]
pub struct Literal {
    pub atom: Atom,
    pub sign: bool,
}

/// How two literals are joined to one assertion.
#[derive(Clone, Copy, Debug)]
pub enum Joint {
    Either,
    JustOne,
    Implies,
    Alike,
}

#[derive(Clone, Copy, Debug)]
pub struct Assertion {
    pub joint: Joint,
    pub left: Literal,
    pub right: Literal,
}

#[derive(Debug, Drop)]
pub struct Problem {
    pub comparisons: Vec<Comparison>,
    pub assertions: Vec<Assertion>,
}

/// The truths, and how the left side of each comparison stands to the right one.
#[derive(Clone, Copy, Debug)]
pub struct Pattern {
    pub truths: [bool; TRUTHS],
    pub outcomes: [Ordering; COMPARISONS],
}

impl Literal {
    fn is_true(&self, comparisons: &[Comparison], pattern: &Pattern) -> bool {
        let truth = match self.atom {
            Atom::Truth(number) => pattern.truths.get(number).copied() == Some(true),
            Atom::Compares(number) => match (
                comparisons.get(number),
                pattern.outcomes.get(number),
            ) {
                (Some(comparison), Some(outcome)) => comparison.relation.holds(*outcome),
                _ => false,
            },
        };
        truth == self.sign
    }
}

impl Assertion {
    fn is_true(&self, comparisons: &[Comparison], pattern: &Pattern) -> bool {
        let left = self.left.is_true(comparisons, pattern);
        let right = self.right.is_true(comparisons, pattern);
        match self.joint {
            Joint::Either => left || right,
            Joint::JustOne => left != right,
            Joint::Implies => !left || right,
            Joint::Alike => left == right,
        }
    }
}

impl Problem {
    /// Whether each assertion is true under a pattern.
    pub fn holds(&self, pattern: &Pattern) -> bool {
        for assertion in &self.assertions {
            if !assertion.is_true(self.comparisons.as_slice(), pattern) {
                return false;
            }
        }
        true
    }
}
