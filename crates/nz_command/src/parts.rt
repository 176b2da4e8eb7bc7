//! The parts of commands: sorts, parameters, assumptions, questions, attributes, options and infos.
ghost use Rattle.std.specs.Prelude.{◌≡◌, IfOk, map, Option, option_map, option_and_then};
ghost use Rattle.nz_sexpr.specs.View.{view, seen};
ghost use Rattle.nz_script.specs.text.Tree.{Tree};
ghost use Rattle.nz_script.specs.commands.Request as requests;
ghost use Rattle.nz_script.specs.commands.Parse as parse;
ghost use Rattle.nz_command.specs.Lists.{IsShort};
ghost use Rattle.nz_command.specs.View as views;
ghost use Rattle.nz_command.specs.Requests.{entry, sort_view, parameter_view, assumption_view, attributes_view, question_view, count_view, priority_view, setting_view, key_view};

use crate::command::{
    Assumption, Attributes, InfoKey, LevelCount, Parameter, Priority, Question, Setting,
    WrittenSort,
};
use crate::expression::Number;
use crate::lists::{first_two, only, pair};
use crate::names::{free_name, keyword_of, listed_with, name_of, token_name};
use crate::numbers::{numeral_value, token_number};
use crate::terms::expression;
use nz_base::{Memory, Text};
use nz_sexpr::{Token, Tree};
use std::alloc::Global;

// ---- Lists of parts

/// What stands in a list of a command, as often as it may.
pub(crate) trait Part<'a>: Sized + Drop {
    ghost Meaning: { Type 0 };

    ghost meaning: { Self → Meaning };

    ghost meant_by: { Tree → Option Meaning };

    /// The part that a tree is, if it is one.
    fn part_of(alloc: Global, tree: &'a Tree) -> Result<Option<Self>, Memory>
        ensures parsed { IfOk result (λ part. option_map meaning part ≡ meant_by (view tree.now)) };
}

/// The parts that these trees are, if each of them is one.
pub(crate) fn all_parts<'a, P: Part<'a>>(
    alloc: Global,
    list: &'a [Tree],
) -> Result<Option<Vec<P>>, Memory>
    ensures parsed { IfOk result (λ r. option_map (λ v. map P.meaning v.items) r ≡ parse.each P.meant_by (seen list.now)) }
{
    let mut parts = Vec::with_capacity(alloc, list.len())?;
    for tree in list {
        match P::part_of(alloc, tree)? {
            Some(part) => parts.push(part)?,
            None => return Ok(None),
        }
    }
    Ok(Some(parts))
}

// ---- Sorts and parameters

/// A sort: its name, or a list, whatever stands in it.
pub(crate) fn written_sort(tree: &Tree) -> Option<WrittenSort<'_>>
    ensures parsed { option_map sort_view result ≡ parse.written_sort (view tree.now) }
{
    match tree {
        Tree::Word(token) => Some(WrittenSort::Named(token_name(token)?)),
        Tree::List(_) => Some(WrittenSort::Listed),
    }
}

impl<'a> Part<'a> for WrittenSort<'a> {
    ghost Meaning = { requests.WrittenSort };

    ghost meaning = { sort_view };

    ghost meant_by = { parse.written_sort };

    fn part_of(_alloc: Global, tree: &'a Tree) -> Result<Option<WrittenSort<'a>>, Memory> {
        Ok(written_sort(tree))
    }
}

impl<'a> Part<'a> for Parameter<'a> {
    ghost Meaning = { requests.Parameter };

    ghost meaning = { parameter_view };

    ghost meant_by = { parse.parameter_of };

    fn part_of(_alloc: Global, tree: &'a Tree) -> Result<Option<Parameter<'a>>, Memory> {
        Ok(parameter_of(tree))
    }
}

/// A parameter of a definition: its name and its sort.
fn parameter_of(tree: &Tree) -> Option<Parameter<'_>>
    ensures parsed { option_map parameter_view result ≡ parse.parameter_of (view tree.now) }
{
    match tree {
        Tree::Word(_) => None,
        Tree::List(list) => parameter_in(list.as_slice()),
    }
}

fn parameter_in(list: &[Tree]) -> Option<Parameter<'_>>
    ensures parsed { option_map parameter_view result ≡ parse.parameter_in (seen list.now) }
{
    let (name, sort) = pair(list)?;
    let name = name_of(name)?;
    let sort = written_sort(sort)?;
    Some(Parameter { name, sort })
}

// ---- Assumptions and questions

impl<'a> Part<'a> for Assumption<'a> {
    ghost Meaning = { requests.Assumption };

    ghost meaning = { assumption_view };

    ghost meant_by = { parse.assumption_of };

    fn part_of(_alloc: Global, tree: &'a Tree) -> Result<Option<Assumption<'a>>, Memory> {
        Ok(assumption_of(tree))
    }
}

/// A name, or `not` of one.
fn assumption_of(tree: &Tree) -> Option<Assumption<'_>>
    ensures parsed { option_map assumption_view result ≡ parse.assumption_of (view tree.now) }
{
    match tree {
        Tree::Word(token) => Some(Assumption {
            name: token_name(token)?,
            is_true: true,
        }),
        Tree::List(list) => negated_name(list.as_slice()),
    }
}

fn negated_name(list: &[Tree]) -> Option<Assumption<'_>>
    ensures parsed { option_map assumption_view result ≡ parse.negated_name (seen list.now) }
{
    let (operator, name) = pair(list)?;
    if !is_negation(operator) {
        return None;
    }
    Some(Assumption {
        name: name_of(name)?,
        is_true: false,
    })
}

fn is_negation(tree: &Tree) -> bool
    ensures negation { result ≡ parse.is_negation (view tree.now) }
{
    match tree {
        Tree::Word(Token::Symbol(name)) => name.as_bytes() == b"not".as_slice(),
        _ => false,
    }
}

impl<'a> Part<'a> for Question<'a> {
    ghost Meaning = { requests.Question };

    ghost meaning = { question_view };

    ghost meant_by = { parse.question_of };

    fn part_of(alloc: Global, tree: &'a Tree) -> Result<Option<Question<'a>>, Memory> {
        match expression(alloc, tree)? {
            Some(expression) => Ok(Some(Question { tree, expression })),
            None => Ok(None),
        }
    }
}

/// The text of a tree that is a string literal.
pub(crate) fn literal_of(tree: &Tree) -> Option<&Text>
    ensures literal { option_map (λ x. x.now) result ≡ parse.literal_of (view tree.now) }
{
    match tree {
        Tree::Word(Token::Literal(text)) => Some(text),
        _ => None,
    }
}

// ---- Levels

/// How many levels: one if nothing stands there.
pub(crate) fn level_count(arguments: &[Tree]) -> Option<LevelCount>
    ensures parsed { option_map count_view result ≡ parse.level_count (seen arguments.now) }
{
    if arguments.is_empty() {
        return Some(LevelCount::Within(1));
    }
    level_number(only(arguments)?)
}

fn level_number(tree: &Tree) -> Option<LevelCount>
    ensures parsed { option_map count_view result ≡ parse.level_number (view tree.now) }
{
    match tree {
        Tree::Word(Token::Numeral(digits)) => Some(counted(digits.as_bytes())),
        _ => None,
    }
}

fn counted(digits: &[u8]) -> LevelCount
    ensures counted { count_view result ≡ parse.number_within digits.now }
{
    match numeral_value(digits) {
        Some(count) => LevelCount::Within(count),
        None => LevelCount::OutOfBounds,
    }
}

// ---- Wishes

impl Attributes<'_> {
    /// What a wish tells that tells nothing.
    pub(crate) const NONE: Attributes<'static> = Attributes {
        weight: None,
        group: None,
    };
}

/// The weight and the group of a wish, in any order, each at most once, with what was told before.
pub(crate) fn attributes_onto<'a>(found: Attributes<'a>, list: &'a [Tree]) -> Option<Attributes<'a>>
    ensures parsed { option_map attributes_view result ≡ parse.attributes_onto (attributes_view found.entry) (seen list.now) }
{
    match first_two(list) {
        Some((key, value, others)) => {
            let found = with_attribute(found, key, value)?;
            attributes_onto(found, others)
        }
        None => found_before(found, list),
    }
}

/// What was told before, where no tree is left.
fn found_before<'a>(found: Attributes<'a>, list: &[Tree]) -> Option<Attributes<'a>>
    requires short { IsShort (seen list.now) }
    ensures parsed { option_map attributes_view result ≡ parse.attributes_onto (attributes_view found.entry) (seen list.now) }
{
    if list.is_empty() { Some(found) } else { None }
}

/// One attribute more, which was not there before.
fn with_attribute<'a>(
    found: Attributes<'a>,
    key: &'a Tree,
    value: &'a Tree,
) -> Option<Attributes<'a>>
    ensures parsed { option_map attributes_view result ≡ option_and_then (λ name. parse.attribute_onto (attributes_view found.entry) name (view value.now)) (parse.keyword_of (view key.now)) }
{
    let key = keyword_of(key)?;
    if key.as_bytes() == b":weight".as_slice() && found.weight.is_none() {
        return Some(Attributes {
            weight: Some(weight_of(value)?),
            group: found.group,
        });
    }
    if key.as_bytes() == b":id".as_slice() && found.group.is_none() {
        return Some(Attributes {
            weight: found.weight,
            group: Some(name_of(value)?),
        });
    }
    None
}

/// The number of a numeral or a decimal.
fn weight_of(tree: &Tree) -> Option<Number>
    ensures number { option_map views.number_view result ≡ parse.weight_of (view tree.now) }
{
    match tree {
        Tree::Word(token) => token_number(token),
        Tree::List(_) => None,
    }
}

// ---- Options and infos

/// The value of an attribute: a constant, a symbol or a list.
pub(crate) fn is_attribute_value(tree: &Tree) -> bool
    ensures value { result ≡ parse.is_attribute_value (view tree.now) }
{
    match tree {
        Tree::Word(Token::Keyword(_)) => false,
        Tree::Word(Token::Symbol(name)) => free_name(name).is_some(),
        _ => true,
    }
}

/// What stands in a table with a tree that is a symbol.
fn word_among<T: Copy>(table: &[(&[u8], T)], tree: &Tree) -> Option<T>
    ensures listed { result ≡ parse.word_among (map entry table.now) (view tree.now) }
{
    match tree {
        Tree::Word(Token::Symbol(name)) => listed_with(table, name.as_bytes()),
        _ => None,
    }
}

const TRUTH_WORDS: [(&[u8], bool); 2] = [(b"true", true), (b"false", false)];

const PRIORITY_WORDS: [(&[u8], Priority); 3] = [
    (b"lex", Priority::Lex),
    (b"box", Priority::Box),
    (b"pareto", Priority::Pareto),
];

fn truth_of(tree: &Tree) -> Option<bool>
    ensures truth { result ≡ parse.word_among parse.truth_words (view tree.now) }
{
    word_among(&TRUTH_WORDS, tree)
}

fn priority_of(tree: &Tree) -> Option<Priority>
    ensures priority { option_map priority_view result ≡ parse.word_among parse.priority_words (view tree.now) }
{
    word_among(&PRIORITY_WORDS, tree)
}

/// An option with its value: of one that is known a value of its own, of another any attribute value.
pub(crate) fn setting_of(key: &Text, value: &Tree) -> Option<Setting>
    ensures setting { option_map setting_view result ≡ parse.setting_of key.now (view value.now) }
{
    let key = key.as_bytes();
    if key == b":print-success".as_slice() {
        return Some(Setting::PrintSuccess(truth_of(value)?));
    }
    if key == b":produce-models".as_slice() {
        return Some(Setting::ProduceModels(truth_of(value)?));
    }
    if key == b":opt.priority".as_slice() {
        return Some(Setting::Priority(priority_of(value)?));
    }
    other_setting(value)
}

fn other_setting(value: &Tree) -> Option<Setting>
    ensures setting { option_map setting_view result ≡ parse.unknown_setting (view value.now) }
{
    if is_attribute_value(value) {
        Some(Setting::Other)
    } else {
        None
    }
}

const INFO_WORDS: [(&[u8], InfoKey); 6] = [
    (b":name", InfoKey::Name),
    (b":version", InfoKey::Version),
    (b":authors", InfoKey::Authors),
    (b":error-behavior", InfoKey::ErrorBehavior),
    (b":assertion-stack-levels", InfoKey::AssertionStackLevels),
    (b":reason-unknown", InfoKey::ReasonUnknown),
];

/// What a `get-info` of this key asks for.
pub(crate) fn info_key(key: &Text) -> InfoKey
    ensures key { key_view result ≡ parse.info_key key.now }
{
    match listed_with(&INFO_WORDS, key.as_bytes()) {
        Some(key) => key,
        None => InfoKey::Other,
    }
}
