//! What names stand for, alone and over arguments.
ghost use Rattle.std.specs.Prelude.{◌≡◌, ℕ, ◌<◌, All, Bool, false, List, length, map, None, Ok, Err, IfOk, IsErrOf};
ghost use Rattle.nz_spec.specs.terms.Term as spec;
ghost use Rattle.nz_spec.specs.terms.Table.{Node};
ghost use Rattle.nz_script.specs.commands.Scoping.{is_unknown};
ghost use Rattle.nz_spec.specs.terms.Definitions.{Definition as SpecDefinition, RootFits, expansion, all_placed};
ghost use Rattle.nz_script.specs.commands.Elaboration.{Scope, name_term as spec_name_term, application as spec_application};
ghost use Rattle.nz_spec.specs.terms.Operators.{placed};
ghost use Rattle.nz_term.specs.Constants.{sort_of};
ghost use Rattle.nz_elaborate.specs.Names.{IsScope, IsDefined, AreWithin, AreNames};
ghost use Rattle.nz_elaborate.specs.Typed.{Grows, IsTyped, AreTyped};
ghost use Rattle.nz_elaborate.specs.Elaborate.{StandsAs, Places};
ghost use Rattle.nz_elaborate.specs.Faults.{fault_in, bound_found, TellsNames, IsAppliedAs, IsFoundWithin, IsFound};

use crate::apply::{apply, as_real};
use crate::faults::{Fault, Found};
use crate::frames::{Frame, bound_term};
use crate::names::{Definition, Named, Names};
use crate::typed::{ApplyError, Typed};
use nz_base::{Memory, Text};
use nz_script::elaboration::expansions_keep_sort;
use nz_spec::table::term_stays;
use nz_spec::term::instance_keeps_normal;
use nz_term::{Sort, TermId, Terms, grows_twice, instance};
use std::alloc::Global;

/// What a name alone stands for: a bound term, a truth value, a constant, or a definition without parameters.
pub(crate) fn name_term<'a>(
    alloc: Global,
    names: &Names,
    frames: &Vec<Frame<'a>>,
    terms: &mut Terms,
    name: &'a Text,
) -> Result<Found, Memory>
    requires within { AreWithin terms.old names.now frames.now.items }
    ensures grows { Grows terms.old terms.new }
    ensures within { IfOk result (IsFoundWithin terms.new) }
    ensures names { IfOk result (λ f. (is_live : List ℕ → Bool) (bound : List (List ℕ)) → AreNames names.now frames.now.items is_live bound → TellsNames (fault_in f) (is_unknown is_live bound name.now) false) }
    ensures found { IfOk result (λ f. (sc : Scope) → IsScope terms.old names.now frames.now.items sc → IsFound f (spec_name_term sc name.now) terms.new) }
{
    if let Some(term) = bound_term(frames, name) {
        return Ok(found_bound(term));
    }
    match names.get(name) {
        Some(Named::Operator(operator)) => found_by(apply(alloc, terms, *operator, &[])),
        Some(Named::Constant(term)) => Ok(Found::Term(*term)),
        Some(Named::Definition(definition)) => found_by(expand(alloc, terms, definition, &[])),
        None => Ok(Found::Fault(Fault::Unknown)),
    }
}

/// What a name over arguments stands for: an operator over them, or a use of a definition.
pub(crate) fn apply_name<'a>(
    alloc: Global,
    names: &Names,
    frames: &Vec<Frame<'a>>,
    terms: &mut Terms,
    name: &'a Text,
    arguments: &[Typed],
) -> Result<Found, Memory>
    requires within { AreWithin terms.old names.now frames.now.items }
    requires arguments { All (λ x. x.id < length terms.old) arguments.now }
    ensures grows { Grows terms.old terms.new }
    ensures within { IfOk result (IsFoundWithin terms.new) }
    ensures names { IfOk result (λ f. (is_live : List ℕ → Bool) (bound : List (List ℕ)) → AreNames names.now frames.now.items is_live bound → TellsNames (fault_in f) (is_unknown is_live bound name.now) false) }
    ensures found { IfOk result (λ f. (sc : Scope) → IsScope terms.old names.now frames.now.items sc → (ts : spec.Terms) → AreTyped terms.old arguments.now ts → IsFound f (spec_application sc name.now ts) terms.new) }
{
    if bound_term(frames, name).is_some() {
        return Ok(Found::Fault(Fault::Sort));
    }
    match names.get(name) {
        Some(Named::Operator(operator)) => found_by(apply(alloc, terms, *operator, arguments)),
        Some(Named::Definition(definition)) => found_by(expand(
            alloc, terms, definition, arguments,
        )),
        Some(Named::Constant(_)) => Ok(Found::Fault(Fault::Sort)),
        None => Ok(Found::Fault(Fault::Unknown)),
    }
}

/// What a bound name stands for. The fault of one without a term is told where it is bound.
fn found_bound(term: Option<Typed>) -> Found
    ensures bound { result ≡ bound_found term }
{
    match term {
        Some(term) => Found::Term(term),
        None => Found::Fault(Fault::Sort),
    }
}

/// What is found where arguments are taken, or aren't.
fn found_by(applied: Result<Typed, ApplyError>) -> Result<Found, Memory>
    ensures found { IfOk result (IsAppliedAs applied) }
{
    match applied {
        Ok(term) => Ok(Found::Term(term)),
        Err(ApplyError::Sort) => Ok(Found::Fault(Fault::Sort)),
        Err(ApplyError::Memory) => Err(Memory),
    }
}

/// The body of a definition, with the arguments for its parameters.
fn expand(
    alloc: Global,
    terms: &mut Terms,
    definition: &Definition,
    arguments: &[Typed],
) -> Result<Typed, ApplyError>
    requires body { definition.now.body.id < length terms.old }
    requires within { All (λ x. x.id < length terms.old) arguments.now }
    ensures grows { Grows terms.old terms.new }
    ensures within { IfOk result (λ x. x.id < length terms.new) }
    ensures found { IfOk result (λ x. (d : SpecDefinition) → IsDefined terms.old definition.now d → RootFits d.parameters d.body → (ts : spec.Terms) → AreTyped terms.old arguments.now ts → StandsAs (expansion d ts) terms.new x) }
    ensures refused { IsErrOf result ApplyError.Sort → (d : SpecDefinition) → IsDefined terms.old definition.now d → (ts : spec.Terms) → AreTyped terms.old arguments.now ts → expansion d ts ≡ None }
{
    term_stays();
    instance_keeps_normal();
    expansions_keep_sort();
    let kids = place_all(alloc, terms, definition.parameters.as_slice(), arguments)?;
    let id = instance(alloc, terms, definition.body.id, kids.as_slice())?;
    Ok(Typed {
        id,
        sort: definition.body.sort,
    })
}

/// The arguments where these sorts are wanted, as many of them.
fn place_all(
    alloc: Global,
    terms: &mut Terms,
    sorts: &[Sort],
    arguments: &[Typed],
) -> Result<Vec<TermId>, ApplyError>
    requires within { All (λ x. x.id < length terms.old) arguments.now }
    ensures grows { Grows terms.old terms.new }
    ensures within { IfOk result (λ ids. All (λ i. i < length terms.new) ids.items) }
    ensures placed { IfOk result (λ ids. (ts : spec.Terms) → AreTyped terms.old arguments.now ts → Places (map sort_of sorts.now) ts terms.new ids.items) }
    ensures refused { IsErrOf result ApplyError.Sort → (ts : spec.Terms) → AreTyped terms.old arguments.now ts → all_placed (map sort_of sorts.now) ts ≡ None }
{
    grows_twice();
    if sorts.len() != arguments.len() {
        return Err(ApplyError::Sort);
    }
    let mut ids = Vec::with_capacity(alloc, sorts.len())?;
    for i in 0..sorts.len() {
        let id = place(terms, sorts[i], arguments[i])?;
        ids.push(id)?;
    }
    Ok(ids)
}

/// A term where one of this sort is wanted.
pub(crate) fn place(terms: &mut Terms, sort: Sort, term: Typed) -> Result<TermId, ApplyError>
    requires within { term.id < length terms.old }
    ensures grows { Grows terms.old terms.new }
    ensures within { IfOk result (λ id. id < length terms.new) }
    ensures placed { IfOk result (λ id. (t : spec.Term) → IsTyped terms.old term t → StandsAs (placed (sort_of sort) t) terms.new (record { id = id; sort = sort })) }
    ensures refused { IsErrOf result ApplyError.Sort → (ns : List Node) (t : spec.Term) → IsTyped ns term t → placed (sort_of sort) t ≡ None }
{
    if term.sort == sort {
        return Ok(term.id);
    }
    if sort == Sort::Real && term.sort == Sort::Int {
        return Ok(as_real(terms, term)?);
    }
    Err(ApplyError::Sort)
}
