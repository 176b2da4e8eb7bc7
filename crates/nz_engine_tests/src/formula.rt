//! Formulas over numbered constants.

/// A part of a formula, which is a list of parts: each operator stands behind its arguments.
#[derive(Clone, Copy, Debug, PartialEq, Eq)]
pub enum Part {
    /// The constant of this number, of sort Bool.
    Atom(usize),
    /// The constant of this number, of sort Real.
    Real(usize),
    /// A number, by its tenths.
    Tenths(u128),
    True,
    False,
    Not,
    /// Of so many arguments.
    And(usize),
    /// Of so many arguments.
    Or(usize),
    Xor,
    Equal,
    /// Of a condition, and a formula for each answer.
    Ite,
    /// Of a condition, and a number for each answer.
    Choose,
    /// Of so many numbers.
    Sum(usize),
    Less,
    AtMost,
}
