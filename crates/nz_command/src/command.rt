//! Commands as they are written (SMT-LIB 2.6, section 3.9; νZ 2015 for goals and wishes): each with its parts, whatever their
//! names stand for.
use crate::expression::{Expression, Number};
use nz_base::Text;
use nz_sexpr::Tree;

/// Which value of its term a goal seeks.
#[derive(Clone, Copy, Debug, PartialEq, Eq)]
pub enum Direction {
    /// The least.
    Minimize,
    /// The greatest.
    Maximize,
}

/// A sort as it is written.
#[derive(Clone, Copy)]
pub enum WrittenSort<'a> {
    Named(&'a Text),
    /// A list, whatever stands in it.
    Listed,
}

/// A parameter of a definition.
#[derive(Clone, Copy)]
pub struct Parameter<'a> {
    pub name: &'a Text,
    pub sort: WrittenSort<'a>,
}

/// A name that is assumed to be true, or to be false.
#[derive(Clone, Copy)]
pub struct Assumption<'a> {
    pub name: &'a Text,
    pub is_true: bool,
}

/// What a wish tells beside its term, where it tells it.
#[derive(Clone, Copy)]
pub struct Attributes<'a> {
    pub weight: Option<Number>,
    pub group: Option<&'a Text>,
}

/// A term that is asked for, with the tree that it was read from.
#[derive(Drop)]
pub struct Question<'a> {
    pub tree: &'a Tree,
    pub expression: Expression<'a>,
}

/// How many levels are pushed or popped.
#[derive(Clone, Copy, Debug, PartialEq, Eq)]
pub enum LevelCount {
    Within(u128),
    /// Above the greatest number.
    OutOfBounds,
}

/// In which order goals come.
#[derive(Clone, Copy, Debug, PartialEq, Eq)]
pub enum Priority {
    Lex,
    Box,
    Pareto,
}

/// An option with its value.
#[derive(Clone, Copy, Debug, PartialEq, Eq)]
pub enum Setting {
    PrintSuccess(bool),
    ProduceModels(bool),
    Priority(Priority),
    /// An option that the program doesn't know.
    Other,
}

/// What a `get-info` asks for.
#[derive(Clone, Copy, Debug, PartialEq, Eq)]
pub enum InfoKey {
    Name,
    Version,
    Authors,
    ErrorBehavior,
    AssertionStackLevels,
    ReasonUnknown,
    /// An info that the program doesn't know.
    Other,
}

/// A command as it is written.
#[derive(Drop)]
pub enum Command<'a> {
    /// A name, the sorts of its arguments and its own: `declare-const`, `declare-fun`.
    Declare(&'a Text, Vec<WrittenSort<'a>>, WrittenSort<'a>),
    Define(&'a Text, Vec<Parameter<'a>>, WrittenSort<'a>, Expression<'a>),
    Assert(Expression<'a>),
    AssertSoft(Expression<'a>, Attributes<'a>),
    /// `minimize`, `maximize`.
    Optimize(Direction, Expression<'a>),
    CheckSat,
    CheckSatAssuming(Vec<Assumption<'a>>),
    Push(LevelCount),
    Pop(LevelCount),
    Reset,
    ResetAssertions,
    GetModel,
    GetValue(Vec<Question<'a>>),
    GetObjectives,
    GetInfo(InfoKey),
    SetOption(Setting),
    /// What is heeded nowhere: `set-logic`, `set-info`.
    SetNothing,
    Echo(&'a Text),
    Exit,
    /// A command that the program doesn't know.
    Other,
}
