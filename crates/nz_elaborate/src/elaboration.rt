//! Elaboration: the normal term of a term that is written, made in the table in one pass.
//!
//! The pass goes on behind a fault, since a name further on may break an earlier rule. A name whose own term has a fault is bound all the
//! same, so that its uses are told from names that aren't in scope.
ghost use Rattle.std.specs.Prelude.{◌≡◌, ℕ, ◌||◌, ◌<◌, All, Bool, true, false, List, [], length, Option, None, Some, IfOk, OnOk, IfSome, IsErrOf, option_map, is_some, if◌then◌else◌};
ghost use Rattle.nz_command.specs.View.{number_view, view, seen, seen_locals};
ghost use Rattle.nz_script.specs.commands.Expression.{numeric_head, written_let, local_names};
ghost use Rattle.nz_spec.specs.terms.Term as spec;
ghost use Rattle.nz_spec.specs.terms.Term.{head_fits};
ghost use Rattle.nz_script.specs.commands.Parse.{is_one_of};
ghost use Rattle.nz_script.specs.commands.Scoping.{is_unknown, has_unknown, have_unknown, locals_have_unknown, clash, has_clash, have_clash, locals_have_clash};
ghost use Rattle.nz_script.specs.commands.Elaboration.{Scope, term_of, terms_of, number_term as spec_number_term, bindings_of};
ghost use Rattle.nz_term.specs.Heads.{head_of};
ghost use Rattle.nz_elaborate.specs.Names.{IsScope, AreWithin, AreNames, IsBoundWithin, bound_in};
ghost use Rattle.nz_elaborate.specs.Typed.{Grows, IsOperator};
ghost use Rattle.nz_elaborate.specs.Elaborate.{StandsAs, StandAs, Binds, ClashesFirst, IsWellNamed, is_unknown_in, are_unknown_in, asked, application_of, IsNormalLeaf};
ghost use Rattle.nz_elaborate.specs.Faults.{fault_in, TellsNames, IsFoundWithin, IsFound, Settles};

use crate::faults::{ElaborateError, Fault, Found, FoundAll};
use crate::frames::{Binding, Frame};
use crate::meanings::{apply_name, name_term};
use crate::names::Names;
use crate::normal::make_leaf;
use crate::typed::Typed;
use nz_base::{Memory, Text};
use nz_command::{Expression, Local, Number, Question};
use nz_term::{Head, Terms, grows_twice};
use std::alloc::Global;

/// The normal term of a term that is written, where these names are live.
///
/// # Errors
///
/// `Unknown`, `Clash` or `Sort` by the first rule that the term breaks, and `Memory`. After an error the table may have grown: cut it back.
pub fn elaborate(
    alloc: Global,
    names: &Names,
    terms: &mut Terms,
    expression: &Expression<'_>,
) -> Result<Typed, ElaborateError>
    requires scope { (sc : Scope) × IsScope terms.old names.now [] sc }
    ensures grows { Grows terms.old terms.new }
    ensures unknown { IsErrOf result ElaborateError.Unknown → (sc : Scope) → IsScope terms.old names.now [] sc → is_unknown_in sc (view expression.now) ≡ true }
    ensures clash { IsErrOf result ElaborateError.Clash → (sc : Scope) → IsScope terms.old names.now [] sc → ClashesFirst (is_unknown_in sc (view expression.now)) (has_clash (view expression.now)) }
    ensures found { IfOk result (λ x. (sc : Scope) → IsScope terms.old names.now [] sc → IsWellNamed (is_unknown_in sc (view expression.now)) (has_clash (view expression.now)) (StandsAs (term_of sc (view expression.now)) terms.new x)) }
    ensures refused { IsErrOf result ElaborateError.Sort → (sc : Scope) → IsScope terms.old names.now [] sc → IsWellNamed (is_unknown_in sc (view expression.now)) (has_clash (view expression.now)) (term_of sc (view expression.now) ≡ None) }
{
    let mut frames = Vec::new(alloc);
    let found = expression_term(alloc, names, &mut frames, terms, expression)?;
    found.settled()
}

/// The normal terms of what is asked for, in order, where these names are live.
///
/// # Errors
///
/// `Unknown`, `Clash` or `Sort` by the first rule that one of them breaks, and `Memory`. After an error the table may have grown: cut it
/// back.
pub fn elaborate_all(
    alloc: Global,
    names: &Names,
    terms: &mut Terms,
    questions: &[Question<'_>],
) -> Result<Vec<Typed>, ElaborateError>
    requires scope { (sc : Scope) × IsScope terms.old names.now [] sc }
    ensures grows { Grows terms.old terms.new }
    ensures unknown { IsErrOf result ElaborateError.Unknown → (sc : Scope) → IsScope terms.old names.now [] sc → are_unknown_in sc (asked questions.now) ≡ true }
    ensures clash { IsErrOf result ElaborateError.Clash → (sc : Scope) → IsScope terms.old names.now [] sc → ClashesFirst (are_unknown_in sc (asked questions.now)) (have_clash (asked questions.now)) }
    ensures found { IfOk result (λ xs. (sc : Scope) → IsScope terms.old names.now [] sc → IsWellNamed (are_unknown_in sc (asked questions.now)) (have_clash (asked questions.now)) (StandAs (terms_of sc (asked questions.now)) terms.new xs.items)) }
    ensures refused { IsErrOf result ElaborateError.Sort → (sc : Scope) → IsScope terms.old names.now [] sc → IsWellNamed (are_unknown_in sc (asked questions.now)) (have_clash (asked questions.now)) (terms_of sc (asked questions.now) ≡ None) }
{
    grows_twice();
    let mut frames = Vec::new(alloc);
    let mut all = FoundAll::with_capacity(alloc, questions.len())?;
    for question in questions {
        let found = expression_term(alloc, names, &mut frames, terms, &question.expression)?;
        all.add(found)?;
    }
    all.settled()
}

/// What is found of a term, where the names of the frames are bound around it.
///
/// # Errors
///
/// `Memory`. The frames are then of no use.
#[cycle(elaborate)]
pub(crate) fn expression_term<'a>(
    alloc: Global,
    names: &Names,
    frames: &mut Vec<Frame<'a>>,
    terms: &mut Terms,
    expression: &Expression<'a>,
) -> Result<Found, Memory>
    requires within { AreWithin terms.old names.now frames.old.items }
    ensures grows { Grows terms.old terms.new }
    ensures frames { OnOk result (frames.new.items ≡ frames.old.items) }
    ensures within { IfOk result (IsFoundWithin terms.new) }
    ensures names { IfOk result (λ f. (is_live : List ℕ → Bool) (bound : List (List ℕ)) → AreNames names.now frames.old.items is_live bound → TellsNames (fault_in f) (has_unknown is_live bound (view expression.now)) (has_clash (view expression.now))) }
    ensures found { IfOk result (λ f. (sc : Scope) → IsScope terms.old names.now frames.old.items sc → IsFound f (term_of sc (view expression.now)) terms.new) }
{
    match expression {
        Expression::Number(number) => number_term(terms, *number),
        Expression::Name(name) => name_term(alloc, names, frames, terms, name),
        Expression::Use(name, arguments) => {
            use_term(alloc, names, frames, terms, name, arguments.as_slice())
        }
        Expression::Let(locals, body) => {
            let_term(alloc, names, frames, terms, locals.as_slice(), body)
        }
    }
}

/// What is found of terms in order.
#[cycle(elaborate)]
fn expression_terms<'a>(
    alloc: Global,
    names: &Names,
    frames: &mut Vec<Frame<'a>>,
    terms: &mut Terms,
    expressions: &[Expression<'a>],
) -> Result<FoundAll, Memory>
    requires within { AreWithin terms.old names.now frames.old.items }
    ensures grows { Grows terms.old terms.new }
    ensures frames { OnOk result (frames.new.items ≡ frames.old.items) }
    ensures within { IfOk result (λ all. All (λ x. x.id < length terms.new) all.terms.items) }
    ensures names { IfOk result (λ all. (is_live : List ℕ → Bool) (bound : List (List ℕ)) → AreNames names.now frames.old.items is_live bound → TellsNames all.fault (have_unknown is_live bound (seen expressions.now)) (have_clash (seen expressions.now))) }
    ensures found { IfOk result (λ all. (sc : Scope) → IsScope terms.old names.now frames.old.items sc → Settles all.fault (StandAs (terms_of sc (seen expressions.now)) terms.new all.terms.items) (terms_of sc (seen expressions.now) ≡ None)) }
{
    grows_twice();
    let mut all = FoundAll::with_capacity(alloc, expressions.len())?;
    for expression in expressions {
        let found = expression_term(alloc, names, frames, terms, expression)?;
        all.add(found)?;
    }
    Ok(all)
}

/// A name over arguments. Where one of them has a fault, what the name makes of the others tells of the name alone.
#[cycle(elaborate)]
fn use_term<'a>(
    alloc: Global,
    names: &Names,
    frames: &mut Vec<Frame<'a>>,
    terms: &mut Terms,
    name: &'a Text,
    arguments: &[Expression<'a>],
) -> Result<Found, Memory>
    requires within { AreWithin terms.old names.now frames.old.items }
    ensures grows { Grows terms.old terms.new }
    ensures frames { OnOk result (frames.new.items ≡ frames.old.items) }
    ensures within { IfOk result (IsFoundWithin terms.new) }
    ensures names { IfOk result (λ f. (is_live : List ℕ → Bool) (bound : List (List ℕ)) → AreNames names.now frames.old.items is_live bound → TellsNames (fault_in f) (is_unknown is_live bound name.now || have_unknown is_live bound (seen arguments.now)) (have_clash (seen arguments.now))) }
    ensures found { IfOk result (λ f. (sc : Scope) → IsScope terms.old names.now frames.old.items sc → IsFound f (application_of sc name.now (seen arguments.now)) terms.new) }
{
    let all = expression_terms(alloc, names, frames, terms, arguments)?;
    let found = apply_name(alloc, names, frames, terms, name, all.terms.as_slice())?;
    Ok(found.after(all.fault))
}

/// The body of a `let`, under its bindings.
#[cycle(elaborate)]
fn let_term<'a>(
    alloc: Global,
    names: &Names,
    frames: &mut Vec<Frame<'a>>,
    terms: &mut Terms,
    locals: &[Local<'a>],
    body: &Expression<'a>,
) -> Result<Found, Memory>
    requires within { AreWithin terms.old names.now frames.old.items }
    ensures grows { Grows terms.old terms.new }
    ensures frames { OnOk result (frames.new.items ≡ frames.old.items) }
    ensures within { IfOk result (IsFoundWithin terms.new) }
    ensures names { IfOk result (λ f. (is_live : List ℕ → Bool) (bound : List (List ℕ)) → AreNames names.now frames.old.items is_live bound → TellsNames (fault_in f) (has_unknown is_live bound (written_let (seen_locals locals.now) (view body.now))) (has_clash (written_let (seen_locals locals.now) (view body.now)))) }
    ensures found { IfOk result (λ f. (sc : Scope) → IsScope terms.old names.now frames.old.items sc → IsFound f (term_of sc (written_let (seen_locals locals.now) (view body.now))) terms.new) }
{
    grows_twice();
    let Binding { frame, fault } = bind_all(alloc, names, frames, terms, locals)?;
    frames.push(frame)?;
    let found = expression_term(alloc, names, frames, terms, body)?;
    frames.pop();
    Ok(found.after(fault))
}

/// The bindings of a `let`, all read in the scope outside it.
#[cycle(elaborate)]
fn bind_all<'a>(
    alloc: Global,
    names: &Names,
    frames: &mut Vec<Frame<'a>>,
    terms: &mut Terms,
    locals: &[Local<'a>],
) -> Result<Binding<'a>, Memory>
    requires within { AreWithin terms.old names.now frames.old.items }
    ensures grows { Grows terms.old terms.new }
    ensures frames { OnOk result (frames.new.items ≡ frames.old.items) }
    ensures within { IfOk result (λ b. (name : List ℕ) → IfSome (bound_in b.frame name) (IsBoundWithin terms.new)) }
    ensures binds { IfOk result (λ b. (name : List ℕ) → is_some (bound_in b.frame name) ≡ is_one_of (local_names (seen_locals locals.now)) name) }
    ensures names { IfOk result (λ b. (is_live : List ℕ → Bool) (bound : List (List ℕ)) → AreNames names.now frames.old.items is_live bound → TellsNames b.fault (locals_have_unknown is_live bound (seen_locals locals.now)) (clash (local_names (seen_locals locals.now)) || locals_have_clash (seen_locals locals.now))) }
    ensures found { IfOk result (λ b. (sc : Scope) → IsScope terms.old names.now frames.old.items sc → Settles b.fault (Binds sc (seen_locals locals.now) terms.new b.frame) (bindings_of sc (seen_locals locals.now) ≡ None)) }
{
    grows_twice();
    let mut bound = Binding::new(alloc);
    for local in locals {
        let found = expression_term(alloc, names, frames, terms, &local.term)?;
        bound.bind(names, local.name, found)?;
    }
    Ok(bound)
}

/// The term of a number that is within the bounds on numbers.
fn number_term(terms: &mut Terms, number: Number) -> Result<Found, Memory>
    ensures grows { Grows terms.old terms.new }
    ensures within { IfOk result (IsFoundWithin terms.new) }
    ensures names { IfOk result (λ f. TellsNames (fault_in f) false false) }
    ensures found { IfOk result (λ f. IsFound f (spec_number_term (number_view number)) terms.new) }
{
    match number_head(number) {
        Some(head) => fitting_term(terms, head),
        None => Ok(Found::Fault(Fault::Sort)),
    }
}

/// The head of the term of a number.
fn number_head(number: Number) -> Option<Head<'static>>
    ensures head { option_map head_of result ≡ option_map numeric_head (number_view number) }
    ensures operator { IfSome result (λ head. IsOperator (head_of head)) }
    ensures normal { IfSome result (λ head. IsNormalLeaf (head_of head)) }
{
    match number {
        Number::Integer(value) => Some(Head::Integer(value)),
        Number::Decimal(digits, places) => Some(Head::Decimal(digits, places)),
        Number::OutOfBounds => None,
    }
}

/// The term of this head, which takes no arguments, where it is one.
fn fitting_term(terms: &mut Terms, head: Head<'_>) -> Result<Found, Memory>
    requires operator { IsOperator (head_of head) }
    requires normal { IsNormalLeaf (head_of head) }
    ensures grows { Grows terms.old terms.new }
    ensures within { IfOk result (IsFoundWithin terms.new) }
    ensures names { IfOk result (λ f. TellsNames (fault_in f) false false) }
    ensures found { IfOk result (λ f. IsFound f (if head_fits (head_of head.entry) then Some (spec.apply (head_of head.entry) spec.no_terms) else None) terms.new) }
{
    if !head.fits() {
        return Ok(Found::Fault(Fault::Sort));
    }
    let sort = head.sort();
    let id = make_leaf(terms, head)?;
    Ok(Found::Term(Typed { id, sort }))
}
