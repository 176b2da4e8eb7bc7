//! What a tree is as a command.
ghost use Rattle.std.specs.Prelude.{◌≡◌, ℕ, true, List, [], Option, None, IfOk, IfSome, IfNone, IsErr, option_map};
ghost use Rattle.nz_sexpr.specs.View.{view, seen};
ghost use Rattle.nz_script.specs.text.Tree.{node, Trees, trees, no_trees};
ghost use Rattle.nz_script.specs.commands.Request as spec;
ghost use Rattle.nz_script.specs.commands.Parse as parse;
ghost use Rattle.nz_command.specs.View as views;
ghost use Rattle.nz_command.specs.Requests.{request, direction_view, may_take_memory};
ghost use Rattle.nz_command.specs.Names.{arguments_of};
ghost use Rattle.nz_command.specs.Lists.{IsWord, IsNotOneList};

use crate::command::{Attributes, Command, Direction, Parameter, WrittenSort};
use crate::expression::Expression;
use crate::lists::{only, pair, triple};
use crate::names::{keyword_of, listed_with, name_of};
use crate::parts::{
    all_parts, attributes_onto, info_key, is_attribute_value, level_count, literal_of, setting_of,
    written_sort,
};
use crate::terms::expression;
use nz_base::{Memory, Text};
use nz_sexpr::Tree;
use std::alloc::Global;

/// The commands that the program knows.
#[derive(Clone, Copy)]
enum CommandName {
    Assert,
    AssertSoft,
    CheckSat,
    CheckSatAssuming,
    DeclareConst,
    DeclareFun,
    DefineFun,
    Echo,
    Exit,
    GetInfo,
    GetModel,
    GetObjectives,
    GetValue,
    Maximize,
    Minimize,
    Pop,
    Push,
    Reset,
    ResetAssertions,
    SetInfo,
    SetLogic,
    SetOption,
}

const COMMANDS: [(&[u8], CommandName); 22] = [
    (b"assert", CommandName::Assert),
    (b"assert-soft", CommandName::AssertSoft),
    (b"check-sat", CommandName::CheckSat),
    (b"check-sat-assuming", CommandName::CheckSatAssuming),
    (b"declare-const", CommandName::DeclareConst),
    (b"declare-fun", CommandName::DeclareFun),
    (b"define-fun", CommandName::DefineFun),
    (b"echo", CommandName::Echo),
    (b"exit", CommandName::Exit),
    (b"get-info", CommandName::GetInfo),
    (b"get-model", CommandName::GetModel),
    (b"get-objectives", CommandName::GetObjectives),
    (b"get-value", CommandName::GetValue),
    (b"maximize", CommandName::Maximize),
    (b"minimize", CommandName::Minimize),
    (b"pop", CommandName::Pop),
    (b"push", CommandName::Push),
    (b"reset", CommandName::Reset),
    (b"reset-assertions", CommandName::ResetAssertions),
    (b"set-info", CommandName::SetInfo),
    (b"set-logic", CommandName::SetLogic),
    (b"set-option", CommandName::SetOption),
];

/// The command that a tree is, if it is one: a list that begins with a name, whose arguments are of the form of the command of
/// that name. A command that the program doesn't know has any form.
///
/// # Errors
///
/// `Memory`, but not where the tree is a `pop`, an `echo` or an `exit`.
pub fn parse<'a>(alloc: Global, tree: &'a Tree) -> Result<Option<Command<'a>>, Memory>
    ensures parsed { IfOk result (λ c. option_map request c ≡ parse.request_of (view tree.now)) }
    ensures memory { IsErr result → may_take_memory (parse.request_of (view tree.now)) ≡ true }
{
    match tree {
        Tree::Word(_) => Ok(None),
        Tree::List(list) => listed_command(alloc, list.as_slice()),
    }
}

fn listed_command<'a>(alloc: Global, list: &'a [Tree]) -> Result<Option<Command<'a>>, Memory>
    ensures parsed { IfOk result (λ c. option_map request c ≡ parse.first parse.name_of parse.request_named (seen list.now)) }
    ensures memory { IsErr result → may_take_memory (parse.first parse.name_of parse.request_named (seen list.now)) ≡ true }
{
    let Some((head, arguments)) = list.split_first() else {
        return Ok(None);
    };
    match name_of(head) {
        Some(name) => named_command(alloc, name, arguments),
        None => Ok(None),
    }
}

fn named_command<'a>(
    alloc: Global,
    name: &'a Text,
    arguments: &'a [Tree],
) -> Result<Option<Command<'a>>, Memory>
    ensures parsed { IfOk result (λ c. option_map request c ≡ parse.request_named name.now (seen arguments.now)) }
    ensures memory { IsErr result → may_take_memory (parse.request_named name.now (seen arguments.now)) ≡ true }
{
    match command_name(name) {
        Some(name) => command(alloc, name, arguments),
        None => Ok(Some(Command::Other)),
    }
}

/// The command of a name.
fn command_name(name: &Text) -> Option<CommandName>
    ensures named { option_map arguments_of result ≡ parse.listed_with parse.commands name.now }
{
    listed_with(&COMMANDS, name.as_bytes())
}

/// A command over these arguments.
#[tactic(auto, using(crate::proofs::Memory::assertion_takes, crate::proofs::Memory::goal_takes, crate::proofs::Memory::wish_takes, crate::proofs::Memory::assuming_takes, crate::proofs::Memory::values_take, crate::proofs::Memory::function_takes, crate::proofs::Memory::definition_takes))]
fn command<'a>(
    alloc: Global,
    name: CommandName,
    arguments: &'a [Tree],
) -> Result<Option<Command<'a>>, Memory>
    ensures parsed { IfOk result (λ c. option_map request c ≡ arguments_of name (seen arguments.now)) }
    ensures memory { IsErr result → may_take_memory (arguments_of name (seen arguments.now)) ≡ true }
{
    match name {
        CommandName::Assert => assertion(alloc, arguments),
        CommandName::AssertSoft => wish(alloc, arguments),
        CommandName::CheckSat => Ok(alone(arguments, Command::CheckSat)),
        CommandName::CheckSatAssuming => assuming(alloc, arguments),
        CommandName::DeclareConst => Ok(constant(alloc, arguments)),
        CommandName::DeclareFun => function(alloc, arguments),
        CommandName::DefineFun => definition(alloc, arguments),
        CommandName::Echo => Ok(echo(arguments)),
        CommandName::Exit => Ok(alone(arguments, Command::Exit)),
        CommandName::GetInfo => Ok(info(arguments)),
        CommandName::GetModel => Ok(alone(arguments, Command::GetModel)),
        CommandName::GetObjectives => Ok(alone(arguments, Command::GetObjectives)),
        CommandName::GetValue => values(alloc, arguments),
        CommandName::Maximize => goal(alloc, Direction::Maximize, arguments),
        CommandName::Minimize => goal(alloc, Direction::Minimize, arguments),
        CommandName::Pop => Ok(pop(arguments)),
        CommandName::Push => Ok(push(arguments)),
        CommandName::Reset => Ok(alone(arguments, Command::Reset)),
        CommandName::ResetAssertions => Ok(alone(arguments, Command::ResetAssertions)),
        CommandName::SetInfo => Ok(set_info(arguments)),
        CommandName::SetLogic => Ok(set_logic(arguments)),
        CommandName::SetOption => Ok(set_option(arguments)),
    }
}

/// A command without arguments.
fn alone<'a>(arguments: &[Tree], command: Command<'a>) -> Option<Command<'a>>
    ensures parsed { option_map request result ≡ parse.none (request command.entry) (seen arguments.now) }
{
    if arguments.is_empty() {
        Some(command)
    } else {
        None
    }
}

// ---- Terms

/// The one term.
fn only_expression<'a>(
    alloc: Global,
    arguments: &'a [Tree],
) -> Result<Option<Expression<'a>>, Memory>
    ensures parsed { IfOk result (λ e. option_map views.view e ≡ parse.one parse.expression_of (λ e. e) (seen arguments.now)) }
{
    match only(arguments) {
        Some(tree) => expression(alloc, tree),
        None => Ok(None),
    }
}

fn assertion<'a>(alloc: Global, arguments: &'a [Tree]) -> Result<Option<Command<'a>>, Memory>
    ensures parsed { IfOk result (λ c. option_map request c ≡ parse.one parse.expression_of spec.asserts (seen arguments.now)) }
{
    Ok(only_expression(alloc, arguments)?.map(Command::Assert))
}

fn goal<'a>(
    alloc: Global,
    direction: Direction,
    arguments: &'a [Tree],
) -> Result<Option<Command<'a>>, Memory>
    ensures parsed { IfOk result (λ c. option_map request c ≡ parse.one parse.expression_of (spec.seeks (direction_view direction)) (seen arguments.now)) }
{
    match only_expression(alloc, arguments)? {
        Some(term) => Ok(Some(Command::Optimize(direction, term))),
        None => Ok(None),
    }
}

fn wish<'a>(alloc: Global, arguments: &'a [Tree]) -> Result<Option<Command<'a>>, Memory>
    ensures parsed { IfOk result (λ c. option_map request c ≡ parse.first parse.expression_of parse.wish_of (seen arguments.now)) }
{
    let Some((term, attributes)) = arguments.split_first() else {
        return Ok(None);
    };
    let Some(term) = expression(alloc, term)? else {
        return Ok(None);
    };
    match attributes_onto(Attributes::NONE, attributes) {
        Some(attributes) => Ok(Some(Command::AssertSoft(term, attributes))),
        None => Ok(None),
    }
}

// ---- Lists of parts

/// The trees of the one list.
fn only_list(arguments: &[Tree]) -> Option<&[Tree]>
    ensures list { IfSome result (λ l. seen arguments.now ≡ trees (node (seen l.now)) no_trees) }
    ensures none { IfNone result (IsNotOneList (seen arguments.now)) }
{
    list_of(only(arguments)?)
}

/// The trees of a list.
fn list_of(tree: &Tree) -> Option<&[Tree]>
    ensures list { IfSome result (λ l. view tree.now ≡ node (seen l.now)) }
    ensures none { IfNone result (IsWord (view tree.now)) }
{
    match tree {
        Tree::Word(_) => None,
        Tree::List(list) => Some(list.as_slice()),
    }
}

fn assuming<'a>(alloc: Global, arguments: &'a [Tree]) -> Result<Option<Command<'a>>, Memory>
    ensures parsed { IfOk result (λ c. option_map request c ≡ parse.one (parse.within (parse.each parse.assumption_of)) spec.checks_assuming (seen arguments.now)) }
{
    let Some(list) = only_list(arguments) else {
        return Ok(None);
    };
    Ok(all_parts(alloc, list)?.map(Command::CheckSatAssuming))
}

fn values<'a>(alloc: Global, arguments: &'a [Tree]) -> Result<Option<Command<'a>>, Memory>
    ensures parsed { IfOk result (λ c. option_map request c ≡ parse.one (parse.within parse.some_questions) spec.shows_values (seen arguments.now)) }
{
    let Some(list) = only_list(arguments) else {
        return Ok(None);
    };
    if list.is_empty() {
        return Ok(None);
    }
    Ok(all_parts(alloc, list)?.map(Command::GetValue))
}

// ---- Declarations and definitions

/// The name that a list begins with, and the trees after it.
fn named(list: &[Tree]) -> Option<(&Text, &[Tree])>
    ensures name { IfSome result (λ p. (others : List ℕ → Trees → Option spec.Request) → parse.first parse.name_of others (seen list.now) ≡ others p.0.now (seen p.1.now)) }
    ensures none { IfNone result ((others : List ℕ → Trees → Option spec.Request) → parse.first parse.name_of others (seen list.now) ≡ None) }
{
    let (first, others) = list.split_first()?;
    Some((name_of(first)?, others))
}

fn constant<'a>(alloc: Global, arguments: &'a [Tree]) -> Option<Command<'a>>
    ensures parsed { option_map request result ≡ parse.first parse.name_of (λ name. parse.one parse.written_sort (spec.declares name [])) (seen arguments.now) }
{
    let (name, others) = named(arguments)?;
    let sort = written_sort(only(others)?)?;
    Some(Command::Declare(name, Vec::new(alloc), sort))
}

fn function<'a>(alloc: Global, arguments: &'a [Tree]) -> Result<Option<Command<'a>>, Memory>
    ensures parsed { IfOk result (λ c. option_map request c ≡ parse.first parse.name_of parse.function_of (seen arguments.now)) }
{
    match named(arguments) {
        Some((name, others)) => function_of(alloc, name, others),
        None => Ok(None),
    }
}

fn function_of<'a>(
    alloc: Global,
    name: &'a Text,
    arguments: &'a [Tree],
) -> Result<Option<Command<'a>>, Memory>
    ensures parsed { IfOk result (λ c. option_map request c ≡ parse.function_of name.now (seen arguments.now)) }
{
    let Some((list, sort)) = pair(arguments) else {
        return Ok(None);
    };
    let Some(list) = list_of(list) else {
        return Ok(None);
    };
    let Some(sorts) = all_parts::<WrittenSort>(alloc, list)? else {
        return Ok(None);
    };
    Ok(written_sort(sort).map(|sort| Command::Declare(name, sorts, sort)))
}

fn definition<'a>(alloc: Global, arguments: &'a [Tree]) -> Result<Option<Command<'a>>, Memory>
    ensures parsed { IfOk result (λ c. option_map request c ≡ parse.first parse.name_of parse.written_definition (seen arguments.now)) }
{
    match named(arguments) {
        Some((name, others)) => written_definition(alloc, name, others),
        None => Ok(None),
    }
}

fn written_definition<'a>(
    alloc: Global,
    name: &'a Text,
    arguments: &'a [Tree],
) -> Result<Option<Command<'a>>, Memory>
    ensures parsed { IfOk result (λ c. option_map request c ≡ parse.written_definition name.now (seen arguments.now)) }
{
    let Some((list, sort, body)) = triple(arguments) else {
        return Ok(None);
    };
    let Some(list) = list_of(list) else {
        return Ok(None);
    };
    let Some(parameters) = all_parts::<Parameter>(alloc, list)? else {
        return Ok(None);
    };
    let Some(sort) = written_sort(sort) else {
        return Ok(None);
    };
    match expression(alloc, body)? {
        Some(body) => Ok(Some(Command::Define(name, parameters, sort, body))),
        None => Ok(None),
    }
}

// ---- Levels, texts, options and infos

fn push<'a>(arguments: &'a [Tree]) -> Option<Command<'a>>
    ensures parsed { option_map request result ≡ option_map spec.pushes (parse.level_count (seen arguments.now)) }
{
    Some(Command::Push(level_count(arguments)?))
}

fn pop<'a>(arguments: &'a [Tree]) -> Option<Command<'a>>
    ensures parsed { option_map request result ≡ option_map spec.pops (parse.level_count (seen arguments.now)) }
{
    Some(Command::Pop(level_count(arguments)?))
}

fn echo<'a>(arguments: &'a [Tree]) -> Option<Command<'a>>
    ensures parsed { option_map request result ≡ parse.one parse.literal_of spec.echoes (seen arguments.now) }
{
    Some(Command::Echo(literal_of(only(arguments)?)?))
}

fn info<'a>(arguments: &'a [Tree]) -> Option<Command<'a>>
    ensures parsed { option_map request result ≡ parse.one parse.keyword_of (λ name. spec.shows_info (parse.info_key name)) (seen arguments.now) }
{
    let key = keyword_of(only(arguments)?)?;
    Some(Command::GetInfo(info_key(key)))
}

fn set_logic<'a>(arguments: &'a [Tree]) -> Option<Command<'a>>
    ensures parsed { option_map request result ≡ parse.one parse.name_of (λ name. spec.sets_nothing) (seen arguments.now) }
{
    let _logic = name_of(only(arguments)?)?;
    Some(Command::SetNothing)
}

/// The keyword that a list begins with, and the trees after it.
fn keyed(list: &[Tree]) -> Option<(&Text, &[Tree])>
    ensures key { IfSome result (λ p. (others : List ℕ → Trees → Option spec.Request) → parse.first parse.keyword_of others (seen list.now) ≡ others p.0.now (seen p.1.now)) }
    ensures none { IfNone result ((others : List ℕ → Trees → Option spec.Request) → parse.first parse.keyword_of others (seen list.now) ≡ None) }
{
    let (first, others) = list.split_first()?;
    Some((keyword_of(first)?, others))
}

fn set_info<'a>(arguments: &'a [Tree]) -> Option<Command<'a>>
    ensures parsed { option_map request result ≡ parse.first parse.keyword_of parse.info_of (seen arguments.now) }
{
    let (_key, values) = keyed(arguments)?;
    info_value(values)
}

fn info_value<'a>(values: &[Tree]) -> Option<Command<'a>>
    ensures parsed { (key : List ℕ) → option_map request result ≡ parse.info_of key (seen values.now) }
{
    if values.is_empty() {
        return Some(Command::SetNothing);
    }
    let value = only(values)?;
    if is_attribute_value(value) {
        Some(Command::SetNothing)
    } else {
        None
    }
}

fn set_option<'a>(arguments: &'a [Tree]) -> Option<Command<'a>>
    ensures parsed { option_map request result ≡ parse.first parse.keyword_of (λ name. parse.one (parse.setting_of name) spec.sets_option) (seen arguments.now) }
{
    let (key, values) = keyed(arguments)?;
    let setting = setting_of(key, only(values)?)?;
    Some(Command::SetOption(setting))
}
