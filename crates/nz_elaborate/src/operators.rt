//! The operators of the theories Core and Reals_Ints (SMT-LIB 2.6): their names, and the arguments that they take.
ghost use Rattle.std.specs.Prelude.{◌≡◌};
ghost use Rattle.nz_spec.specs.terms.Operators.{takes as may_take, operands_of as spec_operands};
ghost use Rattle.nz_elaborate.specs.Operators.{operator_meaning, operands_meaning};

/// An operator of the theories.
#[derive(Clone, Copy, Debug, PartialEq, Eq)]
pub enum Operator {
    True,
    False,
    Not,
    And,
    Or,
    Implies,
    Xor,
    Equals,
    Distinct,
    Ite,
    AtMost,
    Less,
    AtLeast,
    Greater,
    Plus,
    Times,
    Minus,
    Over,
    Div,
    Mod,
    Abs,
    ToReal,
    ToInt,
    IsInt,
}

/// Which arguments an operator takes.
#[derive(Clone, Copy, Debug, PartialEq, Eq)]
pub(crate) enum Operands {
    Bools,
    Ints,
    /// Numbers, read as Real.
    Reals,
    /// Numbers, all Int or read as Real.
    Numbers,
    /// All Bool, or numbers as before.
    Alike,
    /// One Bool, and then as before.
    Branches,
}

/// The operators by their names. They are declared from the start.
pub(crate) const OPERATORS: [(&[u8], Operator); 24] = [
    (b"true", Operator::True),
    (b"false", Operator::False),
    (b"not", Operator::Not),
    (b"and", Operator::And),
    (b"or", Operator::Or),
    (b"=>", Operator::Implies),
    (b"xor", Operator::Xor),
    (b"=", Operator::Equals),
    (b"distinct", Operator::Distinct),
    (b"ite", Operator::Ite),
    (b"<=", Operator::AtMost),
    (b"<", Operator::Less),
    (b">=", Operator::AtLeast),
    (b">", Operator::Greater),
    (b"+", Operator::Plus),
    (b"*", Operator::Times),
    (b"-", Operator::Minus),
    (b"/", Operator::Over),
    (b"div", Operator::Div),
    (b"mod", Operator::Mod),
    (b"abs", Operator::Abs),
    (b"to_real", Operator::ToReal),
    (b"to_int", Operator::ToInt),
    (b"is_int", Operator::IsInt),
];

/// Whether the operator takes so many arguments.
pub(crate) fn takes(operator: Operator, count: usize) -> bool
    ensures answer { result ≡ may_take (operator_meaning operator) count }
{
    match operator {
        Operator::True | Operator::False => count == 0,
        Operator::Not | Operator::Abs | Operator::ToReal | Operator::ToInt | Operator::IsInt =>
            count == 1,
        Operator::Mod => count == 2,
        Operator::Ite => count == 3,
        Operator::And | Operator::Or | Operator::Plus | Operator::Times | Operator::Minus => {
            count > 0
        }
        Operator::Implies
        | Operator::Xor
        | Operator::Equals
        | Operator::Distinct
        | Operator::AtMost
        | Operator::Less
        | Operator::AtLeast
        | Operator::Greater
        | Operator::Over
        | Operator::Div => count > 1,
    }
}

/// Which arguments the operator takes.
pub(crate) fn operands_of(operator: Operator) -> Operands
    ensures operands { operands_meaning result ≡ spec_operands (operator_meaning operator) }
{
    match operator {
        Operator::True
        | Operator::False
        | Operator::Not
        | Operator::And
        | Operator::Or
        | Operator::Implies
        | Operator::Xor => Operands::Bools,
        Operator::Equals | Operator::Distinct => Operands::Alike,
        Operator::Ite => Operands::Branches,
        Operator::AtMost
        | Operator::Less
        | Operator::AtLeast
        | Operator::Greater
        | Operator::Plus
        | Operator::Times
        | Operator::Minus => Operands::Numbers,
        Operator::Over | Operator::ToInt | Operator::IsInt => Operands::Reals,
        Operator::Div | Operator::Mod | Operator::Abs | Operator::ToReal => Operands::Ints,
    }
}
