//! What a tree is as a term.
ghost use Rattle.std.specs.Prelude.{◌≡◌, IfOk, option_map};
ghost use Rattle.nz_sexpr.specs.View.{token_view, view, seen};
ghost use Rattle.nz_script.specs.text.Tree.{node};
ghost use Rattle.nz_script.specs.commands.Parse as parse;
ghost use Rattle.nz_command.specs.View as views;
ghost use Rattle.nz_command.specs.Heads.{head_view};

use crate::expression::{Expression, Local};
use crate::lists::{headed, pair};
use crate::names::{free_name, name_of};
use crate::numbers::token_number;
use nz_base::{Memory, Text};
use nz_sexpr::{Token, Tree};
use std::alloc::Global;
use std::boxed::Box;

/// The term that a tree is, if it is one: a numeral, a decimal, a name, a name over one term or more, or a `let` of one name or
/// more.
#[cycle(terms)]
pub(crate) fn expression<'a>(
    alloc: Global,
    tree: &'a Tree,
) -> Result<Option<Expression<'a>>, Memory>
    ensures parsed { IfOk result (λ e. option_map views.view e ≡ parse.expression_of (view tree.now)) }
{
    match tree {
        Tree::Word(token) => Ok(token_expression(token)),
        Tree::List(list) => list_expression(alloc, list.as_slice()),
    }
}

/// The term that a token is.
fn token_expression(token: &Token) -> Option<Expression<'_>>
    ensures parsed { option_map views.view result ≡ parse.token_expression (token_view token.now) }
{
    match token {
        Token::Symbol(name) => Some(Expression::Name(free_name(name)?)),
        _ => Some(Expression::Number(token_number(token)?)),
    }
}

/// What a list that is a term begins with.
#[derive(Clone, Copy)]
enum TermHead<'a> {
    Let,
    Name(&'a Text),
    /// What no term begins with.
    Other,
}

fn term_head(token: &Token) -> TermHead<'_>
    ensures head { head_view result ≡ parse.term_head (token_view token.now) }
{
    match token {
        Token::Symbol(name) => named_head(name),
        _ => TermHead::Other,
    }
}

fn named_head(name: &Text) -> TermHead<'_>
    ensures head { head_view result ≡ parse.named_head name.now }
{
    if name.as_bytes() == b"let".as_slice() {
        return TermHead::Let;
    }
    match free_name(name) {
        Some(name) => TermHead::Name(name),
        None => TermHead::Other,
    }
}

/// The term that a list of these trees is.
#[cycle(terms)]
fn list_expression<'a>(alloc: Global, list: &'a [Tree]) -> Result<Option<Expression<'a>>, Memory>
    ensures parsed { IfOk result (λ e. option_map views.view e ≡ parse.expression_of (node (seen list.now))) }
{
    let Some((head, arguments)) = headed(list) else {
        return Ok(None);
    };
    match term_head(head) {
        TermHead::Let => let_expression(alloc, arguments),
        TermHead::Name(name) => use_of(alloc, name, arguments),
        TermHead::Other => Ok(None),
    }
}

/// A name over one term or more.
#[cycle(terms)]
fn use_of<'a>(
    alloc: Global,
    name: &'a Text,
    arguments: &'a [Tree],
) -> Result<Option<Expression<'a>>, Memory>
    ensures parsed { IfOk result (λ e. option_map views.view e ≡ parse.used name.now (parse.expressions_of (seen arguments.now))) }
{
    if arguments.is_empty() {
        return Ok(None);
    }
    match expressions(alloc, arguments)? {
        Some(arguments) => Ok(Some(Expression::Use(name, arguments))),
        None => Ok(None),
    }
}

/// The terms that these trees are.
#[cycle(terms)]
fn expressions<'a>(alloc: Global, list: &'a [Tree]) -> Result<Option<Vec<Expression<'a>>>, Memory>
    ensures parsed { IfOk result (λ es. option_map (λ v. views.seen v.items) es ≡ parse.expressions_of (seen list.now)) }
{
    let mut items = Vec::with_capacity(alloc, list.len())?;
    for tree in list {
        match expression(alloc, tree)? {
            Some(item) => items.push(item)?,
            None => return Ok(None),
        }
    }
    Ok(Some(items))
}

/// One binding or more, and the term in which they hold.
#[cycle(terms)]
fn let_expression<'a>(alloc: Global, list: &'a [Tree]) -> Result<Option<Expression<'a>>, Memory>
    ensures parsed { IfOk result (λ e. option_map views.view e ≡ parse.let_in (seen list.now)) }
{
    let Some((bindings, body)) = pair(list) else {
        return Ok(None);
    };
    let Some(locals) = listed_locals(alloc, bindings)? else {
        return Ok(None);
    };
    let Some(body) = expression(alloc, body)? else {
        return Ok(None);
    };
    if locals.is_empty() {
        return Ok(None);
    }
    Ok(Some(Expression::Let(locals, Box::new(alloc, body)?)))
}

/// What a list of bindings binds.
#[cycle(terms)]
fn listed_locals<'a>(alloc: Global, tree: &'a Tree) -> Result<Option<Vec<Local<'a>>>, Memory>
    ensures parsed { IfOk result (λ ls. option_map (λ v. views.seen_locals v.items) ls ≡ parse.locals_in (view tree.now)) }
{
    match tree {
        Tree::Word(_) => Ok(None),
        Tree::List(list) => locals(alloc, list.as_slice()),
    }
}

/// What these bindings bind.
#[cycle(terms)]
fn locals<'a>(alloc: Global, bindings: &'a [Tree]) -> Result<Option<Vec<Local<'a>>>, Memory>
    ensures parsed { IfOk result (λ ls. option_map (λ v. views.seen_locals v.items) ls ≡ parse.locals_of (seen bindings.now)) }
{
    let mut items = Vec::with_capacity(alloc, bindings.len())?;
    for binding in bindings {
        match local(alloc, binding)? {
            Some(item) => items.push(item)?,
            None => return Ok(None),
        }
    }
    Ok(Some(items))
}

/// What a binding binds.
#[cycle(terms)]
fn local<'a>(alloc: Global, binding: &'a Tree) -> Result<Option<Local<'a>>, Memory>
    ensures parsed { IfOk result (λ l. option_map views.local_view l ≡ parse.local_of (view binding.now)) }
{
    match binding {
        Tree::Word(_) => Ok(None),
        Tree::List(list) => named_term(alloc, list.as_slice()),
    }
}

/// A name, and the term that it stands for.
#[cycle(terms)]
fn named_term<'a>(alloc: Global, list: &'a [Tree]) -> Result<Option<Local<'a>>, Memory>
    ensures parsed { IfOk result (λ l. option_map views.local_view l ≡ parse.local_in (seen list.now)) }
{
    let Some((name, term)) = pair(list) else {
        return Ok(None);
    };
    let Some(name) = name_of(name) else {
        return Ok(None);
    };
    match expression(alloc, term)? {
        Some(term) => Ok(Some(Local { name, term })),
        None => Ok(None),
    }
}
