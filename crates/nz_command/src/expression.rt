//! Terms as they are written (SMT-LIB 2.6, section 3.6): their shape alone, whatever their names stand for.
use nz_base::Text;
use std::boxed::Box;

/// The number of a numeral or of a decimal.
#[derive(Clone, Copy, Debug, PartialEq, Eq)]
pub enum Number {
    Integer(u128),
    /// Its digits as one number, and how many of them stand after the point.
    Decimal(u128, usize),
    /// Above the greatest number, or of too many places.
    OutOfBounds,
}

/// A term as it is written.
#[cycle(expression)]
#[derive(Drop)]
pub enum Expression<'a> {
    Number(Number),
    Name(&'a Text),
    /// A name over one term or more.
    Use(&'a Text, Vec<Expression<'a>>),
    /// One name or more, and the term in which they are bound.
    Let(Vec<Local<'a>>, Box<Expression<'a>>),
}

/// A name, and the term that it is bound to.
#[cycle(expression)]
#[derive(Drop)]
pub struct Local<'a> {
    pub name: &'a Text,
    pub term: Expression<'a>,
}
