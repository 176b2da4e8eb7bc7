//! The texts of replies (SMT-LIB 2.6, section 4.2).
ghost use Rattle.std.specs.Prelude.{◌≡◌, map, None, Some, IfNone, IfSome};
ghost use Rattle.nz_sexpr.specs.View.{token_view, view, what_view, seen};
ghost use Rattle.nz_script.specs.replies.Reply.{binding_text, info as info_reply, operator_text, reason_text, reply_text, shown_pair_text, shown_text, sort_text, spaced, value_text, wide_text};
ghost use Rattle.nz_spec.specs.outside.Error.{error_line};
ghost use Rattle.nz_base.specs.Errors.{error_of};
ghost use Rattle.nz_reply.specs.Bindings.{binding_of};
ghost use Rattle.nz_reply.specs.Infos.{info_of};
ghost use Rattle.nz_reply.specs.Reasons.{reason_of};
ghost use Rattle.nz_reply.specs.Replies.{reply_of};
ghost use Rattle.nz_script.specs.commands.Argument.{argument_in as tree_argument_in, argument_of, literal_bytes, text_within, trees_within};
ghost use Rattle.nz_reply.specs.Values.{asked_by as trees_asked_by, asked_trees, echoed_by, echoed_in, shown_of, with_shown};
ghost use Rattle.nz_frac.specs.Operations.{operation_of, operator_of};
ghost use Rattle.nz_term.specs.Constants.{sort_of};
ghost use Rattle.nz_term.specs.Values.{value_of};
ghost use Rattle.nz_reply.specs.Writes.{Writes};

use crate::number::{Decimal, Number, Operand};
use crate::reply::{Binding, Info, Reason, Reply, Shown};
use crate::symbol::{Literal, Symbol};
use crate::tree::SpaceBefore;
use crate::write::{All, Spell, WriteFault};
use nz_base::{Error, Sink};
use nz_frac::{Op, Wide};
use nz_sexpr::{Token, Tree, What};
use nz_term::{Sort, Value};

/// Writes the text of a reply to the thing heard, which holds the terms whose values a reply tells, and the text that one
/// repeats. Takes no memory.
///
/// # Errors
///
/// `WriteFault` where the sink failed, which it counts once. Then a front of the text was written.
pub fn write_reply<K: Sink>(sink: &mut K, what: &What, reply: &Reply) -> Result<(), WriteFault>
    ensures written { Writes K.held K.faults K.last sink.old sink.new (reply_text (reply_of (what_view what.now) reply.now)) result }
{
    match reply {
        Reply::Quiet => "".write(sink),
        Reply::Success => "success\n".write(sink),
        Reply::Sat(_) => "sat\n".write(sink),
        Reply::Unsat => "unsat\n".write(sink),
        Reply::Unknown(_) => "unknown\n".write(sink),
        Reply::Model(bindings) => ("(\n", All(bindings.as_slice()), ")\n").write(sink),
        Reply::Values(shows) => ("(", Pairs(asked(what), shows.as_slice()), ")\n").write(sink),
        Reply::Info(info) => info.write(sink),
        Reply::Levels(count) => {
            ("(:assertion-stack-levels ", Decimal(*count), ")\n").write(sink)
        }
        Reply::Reason(reason) => ("(:reason-unknown ", reason, ")\n").write(sink),
        Reply::Echo => (Literal(repeated(what)), "\n").write(sink),
        Reply::Unsupported => "unsupported\n".write(sink),
        Reply::Error(error) => (error, "\n").write(sink),
    }
}

// ---- Models

impl Spell for Binding {
    ghost text = { λ b. binding_text (binding_of b) };

    fn write<K: Sink>(&self, sink: &mut K) -> Result<(), WriteFault> {
        let name = self.constant.name.as_bytes();
        let sort = self.constant.sort;
        let value = Valued(sort, &self.value);
        (
            (("(define-fun ", Symbol(name), " () "), &sort, " "),
            value,
            ")\n",
        )
            .write(sink)
    }
}

impl Spell for Sort {
    ghost text = { λ s. sort_text (sort_of s) };

    fn write<K: Sink>(&self, sink: &mut K) -> Result<(), WriteFault> {
        match self {
            Sort::Bool => "Bool".write(sink),
            Sort::Int => "Int".write(sink),
            Sort::Real => "Real".write(sink),
        }
    }
}

/// A value of this sort.
#[derive(Drop)]
struct Valued<'a>(Sort, &'a Value);

impl<'a> Spell for Valued<'a> {
    ghost text = { λ v. value_text (sort_of v.0) (value_of v.1.now) };

    fn write<K: Sink>(&self, sink: &mut K) -> Result<(), WriteFault> {
        match self.1 {
            Value::Truth(true) => "true".write(sink),
            Value::Truth(false) => "false".write(sink),
            Value::Number(number) => Number {
                sort: self.0,
                number: *number,
            }
            .write(sink),
        }
    }
}

// ---- Values

/// The trees of the terms that a command asks for.
fn asked(what: &What) -> &[Tree]
    ensures asked { seen result.now ≡ asked_trees (what_view what.now) }
{
    match what {
        What::Tree(tree) => asked_by(tree),
        _ => &[],
    }
}

fn asked_by(tree: &Tree) -> &[Tree]
    ensures asked { seen result.now ≡ trees_asked_by (view tree.now) }
{
    match argument(tree) {
        Some(argument) => trees_of(argument),
        None => &[],
    }
}

fn trees_of(tree: &Tree) -> &[Tree]
    ensures trees { seen result.now ≡ trees_within (Some (view tree.now)) }
{
    match tree {
        Tree::Word(_) => &[],
        Tree::List(list) => list.as_slice(),
    }
}

/// Trees, each with what is told of its term, with a space between neighbours.
#[derive(Drop)]
struct Pairs<'a>(&'a [Tree], &'a [Shown]);

impl<'a> Spell for Pairs<'a> {
    ghost text = { λ p. spaced (map shown_pair_text (with_shown (seen p.0.now) (map shown_of p.1.now))) };

    fn write<K: Sink>(&self, sink: &mut K) -> Result<(), WriteFault> {
        let Pairs(trees, shows) = *self;
        for index in 0..trees.len().min(shows.len()) {
            let tree = &trees[index];
            let shown = &shows[index];
            (SpaceBefore(index), (("(", tree, " "), shown, ")")).write(sink)?;
        }
        Ok(())
    }
}

impl Spell for Shown {
    ghost text = { λ s. shown_text (shown_of s) };

    fn write<K: Sink>(&self, sink: &mut K) -> Result<(), WriteFault> {
        match self {
            Shown::Value(sort, value) => Valued(*sort, value).write(sink),
            Shown::Wide(wide) => wide.write(sink),
        }
    }
}

/// An operation whose result left the numbers.
impl Spell for Wide {
    ghost text = { λ w. wide_text (operation_of w) };

    fn write<K: Sink>(&self, sink: &mut K) -> Result<(), WriteFault> {
        let name = ("(wide ", &self.op, " ");
        ((name, Operand(self.a), " "), Operand(self.b), ")").write(sink)
    }
}

impl Spell for Op {
    ghost text = { λ op. operator_text (operator_of op) };

    fn write<K: Sink>(&self, sink: &mut K) -> Result<(), WriteFault> {
        match self {
            Op::Add => "add".write(sink),
            Op::Sub => "sub".write(sink),
            Op::Mul => "mul".write(sink),
            Op::Div => "div".write(sink),
        }
    }
}

// ---- Other replies

impl Spell for Info {
    ghost text = { λ i. reply_text (info_reply (info_of i)) };

    fn write<K: Sink>(&self, sink: &mut K) -> Result<(), WriteFault> {
        match self {
            Info::Name => "(:name \"nuz\")\n".write(sink),
            Info::Version => "(:version \"1\")\n".write(sink),
            Info::Authors => "(:authors \"nuz\")\n".write(sink),
            Info::ErrorBehavior => "(:error-behavior continued-execution)\n".write(sink),
        }
    }
}

impl Spell for Reason {
    ghost text = { λ r. reason_text (reason_of r) };

    fn write<K: Sink>(&self, sink: &mut K) -> Result<(), WriteFault> {
        match self {
            Reason::UnitsSpent(units) => ("(spent ", Decimal(*units), ")").write(sink),
            Reason::Wide(wide) => wide.write(sink),
        }
    }
}

impl Spell for Error {
    ghost text = { λ e. error_line (error_of e) };

    fn write<K: Sink>(&self, sink: &mut K) -> Result<(), WriteFault> {
        let number = Decimal(self.number());
        (("(error \"", number, " "), self.text(), "\")").write(sink)
    }
}

/// The text that a command repeats.
fn repeated(what: &What) -> &[u8]
    ensures text { result.now ≡ echoed_in (what_view what.now) }
{
    match what {
        What::Tree(tree) => repeated_by(tree),
        _ => b"",
    }
}

fn repeated_by(tree: &Tree) -> &[u8]
    ensures text { result.now ≡ echoed_by (view tree.now) }
{
    match argument(tree) {
        Some(argument) => text_of(argument),
        None => b"",
    }
}

fn text_of(tree: &Tree) -> &[u8]
    ensures text { result.now ≡ text_within (Some (view tree.now)) }
{
    match tree {
        Tree::Word(token) => literal_of(token),
        Tree::List(_) => b"",
    }
}

fn literal_of(token: &Token) -> &[u8]
    ensures bytes { result.now ≡ literal_bytes (token_view token.now) }
{
    match token {
        Token::Literal(text) => text.as_bytes(),
        _ => b"",
    }
}

// ---- The argument of a command

/// The tree that stands alone behind the name of a command.
fn argument(tree: &Tree) -> Option<&Tree>
    ensures some { IfSome result (λ argument. argument_of (view tree.now) ≡ Some (view argument.now)) }
    ensures none { IfNone result (argument_of (view tree.now) ≡ None) }
{
    match tree {
        Tree::Word(_) => None,
        Tree::List(list) => argument_in(list.as_slice()),
    }
}

fn argument_in(list: &[Tree]) -> Option<&Tree>
    ensures some { IfSome result (λ argument. tree_argument_in (seen list.now) ≡ Some (view argument.now)) }
    ensures none { IfNone result (tree_argument_in (seen list.now) ≡ None) }
{
    match list {
        [_, argument] => Some(argument),
        _ => None,
    }
}
