//! What a term is of: an operator of the theories Core and Reals_Ints (SMT-LIB 2.6), a declared constant, or a number.
ghost use Rattle.std.specs.Prelude.{◌≡◌, ℕ, List, IsTrue, IfSome, IfNone};
ghost use Rattle.nz_spec.specs.terms.Operators.{numbers_at};
ghost use Rattle.nz_spec.specs.clauses.Literal.{are_same_head, head_digits, head_kind, head_name, head_place, sort_number};
ghost use Rattle.nz_spec.specs.terms.Table.{HasItsArguments};
ghost use Rattle.nz_spec.specs.terms.Term.{head_fits, head_sort, is_integral, sort_over};
ghost use Rattle.nz_term.specs.Constants.{number_sort_of, sort_of};
ghost use Rattle.nz_term.specs.Growth.{IsOperator};
ghost use Rattle.nz_term.specs.Heads.{head_of, operator_of};

use nz_base::Text;
use std::alloc::AllocError;

/// The greatest number that a numeral, or the digits of a decimal, may spell.
const LARGEST: u128 = 0x7fff_ffff_ffff_ffff_ffff_ffff_ffff_ffff;

/// How many digits of a decimal may stand after its point.
const PLACE_LIMIT: usize = 38;

/// A sort.
#[derive(Clone, Copy, Debug, PartialEq, Eq, Hash)]
pub enum Sort {
    Bool,
    Int,
    Real,
}

impl Sort {
    /// A number that tells sorts apart.
    pub(crate) fn number(self) -> u8
        ensures number { result ≡ sort_number (sort_of self) }
    {
        match self {
            Sort::Bool => 0,
            Sort::Int => 1,
            Sort::Real => 2,
        }
    }
}

/// A sort of numbers, over which an operator may be.
#[derive(Clone, Copy, Debug, PartialEq, Eq, Hash)]
pub enum NumberSort {
    Int,
    Real,
}

impl NumberSort {
    /// The sort of numbers that are read at a sort.
    pub fn of(sort: Sort) -> NumberSort
        ensures of { number_sort_of result ≡ numbers_at (sort_of sort) }
    {
        match sort {
            Sort::Int => NumberSort::Int,
            Sort::Bool | Sort::Real => NumberSort::Real,
        }
    }

    /// The sort that it is.
    pub fn sort(self) -> Sort
        ensures sort { sort_of result ≡ sort_over (number_sort_of self) }
    {
        match self {
            NumberSort::Int => Sort::Int,
            NumberSort::Real => Sort::Real,
        }
    }
}

/// A declared constant. Two of one name and one sort are the same constant.
#[derive(Debug, Drop, PartialEq, Eq, Hash)]
pub struct Constant {
    pub name: Text,
    pub sort: Sort,
}

impl Clone for Constant {
    ghost is_clone = { λ constant copy. copy ≡ constant };

    fn clone(&self) -> Result<Constant, AllocError> {
        Ok(Constant {
            name: self.name.clone()?,
            sort: self.sort,
        })
    }
}

/// An operator of the theories. Where it is over numbers of either sort, or over branches of any, it says which.
#[derive(Clone, Copy, Debug)]
pub enum Operator {
    True,
    False,
    Not,
    And,
    Or,
    /// Of two arguments.
    Xor,
    /// Of two arguments.
    Equal,
    /// Of three arguments: a condition, and a term of this sort for each answer.
    Ite(Sort),
    /// `<`, of two arguments.
    Less,
    /// `<=`, of two arguments.
    AtMost,
    Sum(NumberSort),
    /// Of one argument, its negation.
    Difference(NumberSort),
    Product(NumberSort),
    /// `/`, of two arguments.
    Quotient,
    /// `div`, of two arguments.
    Div,
    /// `mod`, of two arguments.
    Mod,
    /// `abs`.
    Abs,
    ToReal,
    ToInt,
    IsInt,
}

impl Operator {
    /// The sort of a term of this operator.
    pub fn sort(self) -> Sort
        ensures sort { sort_of result ≡ head_sort (operator_of self) }
    {
        match self {
            Operator::Ite(sort) => sort,
            Operator::Sum(sort) | Operator::Difference(sort) | Operator::Product(sort) => {
                sort.sort()
            }
            Operator::Div | Operator::Mod | Operator::Abs | Operator::ToInt => Sort::Int,
            Operator::Quotient | Operator::ToReal => Sort::Real,
            _ => Sort::Bool,
        }
    }

    /// Whether a term of this operator is a unit of sort `Int`, or asks something of one.
    fn is_integral(self) -> bool
        ensures integral { result ≡ is_integral (operator_of self) }
    {
        match self {
            Operator::Ite(sort) => sort == Sort::Int,
            Operator::Div | Operator::Mod | Operator::Abs | Operator::ToInt | Operator::IsInt =>
                true,
            _ => false,
        }
    }

    /// A number that tells operators apart, whatever they are over, and from the leaves.
    pub(crate) fn kind(self) -> u8
        ensures kind { result ≡ head_kind (operator_of self) }
    {
        match self {
            Operator::True => 4,
            Operator::False => 5,
            Operator::Not => 6,
            Operator::And => 7,
            Operator::Or => 8,
            Operator::Xor => 9,
            Operator::Equal => 10,
            Operator::Ite(_) => 11,
            Operator::Less => 12,
            Operator::AtMost => 13,
            Operator::Sum(_) => 14,
            Operator::Difference(_) => 15,
            Operator::Product(_) => 16,
            Operator::Quotient => 17,
            Operator::Div => 18,
            Operator::Mod => 19,
            Operator::Abs => 20,
            Operator::ToReal => 21,
            Operator::ToInt => 22,
            Operator::IsInt => 23,
        }
    }
}

/// An operator is no constant and no number.
pub fn operators_are_no_leaves()
    ensures fits { (o : Operator) → IsTrue (head_fits (operator_of o)) }
    ensures operators { (o : Operator) → IsOperator (operator_of o) }
    ensures takes { (o : Operator) (kids : List ℕ) → HasItsArguments (operator_of o) kids }
{}

/// The head of a normal term: a leaf, which has no arguments, or an operator. It borrows a constant, and is copied.
#[derive(Clone, Copy, Debug)]
pub enum Head<'a> {
    /// A constant.
    Constant(&'a Constant),
    /// A parameter of a definition, by its place. It stands in the definition's body alone.
    Parameter(usize, Sort),
    /// A numeral.
    Integer(u128),
    /// A decimal: its digits as one number, and how many of them stand after the point.
    Decimal(u128, usize),
    Operator(Operator),
}

impl<'a> Head<'a> {
    /// The sort of a term of this head.
    pub fn sort(self) -> Sort
        ensures sort { sort_of result ≡ head_sort (head_of self.entry) }
    {
        match self {
            Head::Constant(constant) => constant.sort,
            Head::Parameter(_, sort) => sort,
            Head::Integer(_) => Sort::Int,
            Head::Decimal(_, _) => Sort::Real,
            Head::Operator(operator) => operator.sort(),
        }
    }

    /// Whether what is spelled as a number is one: a numeral is at most 2^127 - 1, and so are the digits of a decimal, of which at
    /// most 38 stand after the point. Every other head fits.
    pub fn fits(self) -> bool
        ensures fits { result ≡ head_fits (head_of self.entry) }
    {
        match self {
            Head::Integer(number) => number <= LARGEST,
            Head::Decimal(digits, places) => digits <= LARGEST && places <= PLACE_LIMIT,
            Head::Constant(_) | Head::Parameter(_, _) | Head::Operator(_) => true,
        }
    }

    /// Whether the two are the same head.
    pub fn is(self, other: Head<'_>) -> bool
        ensures same { result ≡ are_same_head (head_of self.entry) (head_of other.entry) }
    {
        self.kind() == other.kind()
            && self.sort().number() == other.sort().number()
            && self.digits() == other.digits()
            && self.place() == other.place()
            && self.name() == other.name()
    }

    /// Whether a term of this head is a unit of sort `Int`, or asks something of one.
    pub(crate) fn is_integral(self) -> bool
        ensures integral { result ≡ is_integral (head_of self.entry) }
    {
        match self {
            Head::Constant(constant) => constant.sort == Sort::Int,
            Head::Operator(operator) => operator.is_integral(),
            _ => false,
        }
    }

    /// The same head, which borrows nothing; none of a constant.
    pub(crate) fn detached(self) -> Option<Head<'static>>
        ensures same { IfSome result (λ head. head_of head ≡ head_of self.entry) }
        ensures constant { IfNone result (IsOperator (head_of self.entry) → ⊥) }
    {
        match self {
            Head::Constant(_) => None,
            Head::Parameter(place, sort) => Some(Head::Parameter(place, sort)),
            Head::Integer(digits) => Some(Head::Integer(digits)),
            Head::Decimal(digits, places) => Some(Head::Decimal(digits, places)),
            Head::Operator(operator) => Some(Head::Operator(operator)),
        }
    }

    /// A number that tells heads apart, whatever they hold.
    pub(crate) fn kind(self) -> u8
        ensures kind { result ≡ head_kind (head_of self.entry) }
    {
        match self {
            Head::Constant(_) => 0,
            Head::Parameter(_, _) => 1,
            Head::Integer(_) => 2,
            Head::Decimal(_, _) => 3,
            Head::Operator(operator) => operator.kind(),
        }
    }

    /// The digits of a number; 0 for another head.
    pub(crate) fn digits(self) -> u128
        ensures digits { result ≡ head_digits (head_of self.entry) }
    {
        match self {
            Head::Integer(digits) | Head::Decimal(digits, _) => digits,
            _ => 0,
        }
    }

    /// The place of a parameter, or how many digits of a decimal stand after the point; 0 for another head.
    pub(crate) fn place(self) -> usize
        ensures place { result ≡ head_place (head_of self.entry) }
    {
        match self {
            Head::Parameter(place, _) | Head::Decimal(_, place) => place,
            _ => 0,
        }
    }

    /// The name of a constant; nothing for another head.
    pub(crate) fn name(self) -> &'a [u8]
        ensures name { result.now ≡ head_name (head_of self.entry) }
    {
        match self {
            Head::Constant(constant) => constant.name.as_bytes(),
            _ => &[],
        }
    }
}
