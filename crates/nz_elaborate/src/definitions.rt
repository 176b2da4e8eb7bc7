//! Definitions: their parameters, and their bodies under these.
ghost use Rattle.std.specs.Prelude.{◌≡◌, ℕ, ◌<◌, ◌||◌, Bool, true, false, List, [], ◌∷◌, length, map, Option, None, Some, IfOk, IfErr, IfSome, IsErrOf, OnOk, is_some, option_and_then};
ghost use Rattle.std.specs.List.{list_any};
ghost use Rattle.nz_command.specs.View.{view};
ghost use Rattle.nz_command.specs.Requests.{sort_view};
ghost use Rattle.nz_spec.specs.terms.Term as spec;
ghost use Rattle.nz_script.specs.commands.Parse.{is_one_of};
ghost use Rattle.nz_script.specs.commands.Script.{is_unknown_sort as is_unknown, parameter_names, parameter_sorts, sort_written, sorts_written};
ghost use Rattle.nz_script.specs.commands.Scoping.{clash};
ghost use Rattle.nz_script.specs.commands.Elaboration.{Scope};
ghost use Rattle.nz_spec.specs.terms.Operators.{placed};
ghost use Rattle.nz_term.specs.Constants.{sort_of};
ghost use Rattle.nz_elaborate.specs.Names.{IsScope, IsBoundWithin, HasOperators, bound_in, first_of, named_by, is_operator_entry};
ghost use Rattle.nz_elaborate.specs.Typed.{Grows};
ghost use Rattle.nz_elaborate.specs.Elaborate.{ClashesFirst, IsWellNamed, StandsAs};
ghost use Rattle.nz_elaborate.specs.Faults.{Answers, Settles, TellsNames, IsFound, IsFoundWithin, clash_fault, fault_in, joined as joined_by, term_in_found};
ghost use Rattle.nz_elaborate.specs.Definitions.{definition_unknown, definition_clash, definition_term, parameters_of, parameter_at, placed_at, sorts_with, HasBody, BindsParameters};

use crate::elaboration::expression_term;
use crate::faults::{ElaborateError, Fault, Found};
use crate::frames::Binding;
use crate::meanings::place;
use crate::names::{Definition, Names};
use crate::normal::make_leaf;
use crate::sorts::{is_unknown_sort, written_sort};
use crate::typed::{ApplyError, Typed};
use nz_base::{Memory, Text};
use nz_command::{Expression, Parameter, WrittenSort};
use nz_term::{Head, Sort, Terms, grows_twice};
use std::alloc::Global;

/// The sorts of a definition's parameters and its body, which is placed at this sort, where these names are live.
///
/// # Errors
///
/// `Unknown`, `Clash` or `Sort` by the first rule that the definition breaks, and `Memory`: a sort by a name that no sort has is unknown as a
/// name is, and a list is no sort. Whether the definition's own name is live already isn't looked at. After an error the table may have
/// grown: cut it back.
pub fn elaborate_body<'a>(
    alloc: Global,
    names: &Names,
    terms: &mut Terms,
    parameters: &[Parameter<'a>],
    sort: &WrittenSort<'_>,
    body: &Expression<'a>,
) -> Result<Definition, ElaborateError>
    requires scope { (sc : Scope) × IsScope terms.old names.now [] sc }
    ensures grows { Grows terms.old terms.new }
    ensures unknown { IsErrOf result ElaborateError.Unknown → (sc : Scope) → IsScope terms.old names.now [] sc → definition_unknown sc (parameters_of parameters.now) (sort_view sort.now) (view body.now) ≡ true }
    ensures clash { IsErrOf result ElaborateError.Clash → (sc : Scope) → IsScope terms.old names.now [] sc → ClashesFirst (definition_unknown sc (parameters_of parameters.now) (sort_view sort.now) (view body.now)) (definition_clash (parameters_of parameters.now) (view body.now)) }
    ensures found { IfOk result (λ d. (sc : Scope) → IsScope terms.old names.now [] sc → IsWellNamed (definition_unknown sc (parameters_of parameters.now) (sort_view sort.now) (view body.now)) (definition_clash (parameters_of parameters.now) (view body.now)) (HasBody sc (parameters_of parameters.now) (sort_view sort.now) (view body.now) terms.new d)) }
    ensures refused { IsErrOf result ElaborateError.Sort → (sc : Scope) → IsScope terms.old names.now [] sc → IsWellNamed (definition_unknown sc (parameters_of parameters.now) (sort_view sort.now) (view body.now)) (definition_clash (parameters_of parameters.now) (view body.now)) (definition_term sc (parameters_of parameters.now) (sort_view sort.now) (view body.now) ≡ None) }
{
    grows_twice();
    let Parameters { bound, sorts } = bind_parameters(alloc, names, terms, parameters)?;
    let Binding { frame, fault } = bound;
    let mut frames = Vec::new(alloc);
    frames.push(frame)?;
    let found = expression_term(alloc, names, &mut frames, terms, body)?;
    let found = placed_found(terms, sort, found.after(fault))?;
    settled(sorts, found)
}

/// The definition of these parameters and this body, or the error of the body's fault.
fn settled(parameters: Vec<Sort>, body: Found) -> Result<Definition, ElaborateError>
    ensures answer { Answers (fault_in body) result }
    ensures parameters { IfOk result (λ d. d.parameters.items ≡ parameters.items) }
    ensures body { IfOk result (λ d. term_in_found body ≡ Some d.body) }
{
    match body {
        Found::Term(body) => Ok(Definition { parameters, body }),
        Found::Fault(fault) => Err(fault.error()),
    }
}

/// What is found of a term where one of this sort is wanted.
fn placed_found(terms: &mut Terms, sort: &WrittenSort<'_>, found: Found) -> Result<Found, Memory>
    requires within { IsFoundWithin terms.old found }
    ensures grows { Grows terms.old terms.new }
    ensures names { IfOk result (λ f. (unknown clashing : Bool) → TellsNames (fault_in found) unknown clashing → TellsNames (fault_in f) (is_unknown (sort_view sort.now) || unknown) clashing) }
    ensures found { IfOk result (λ f. (o : Option spec.Term) → IsFound found o terms.old → IsFound f (placed_at (sort_written (sort_view sort.now)) o) terms.new) }
{
    match sort_found(sort) {
        Ok(sort) => match found {
            Found::Term(term) => placed_term(terms, sort, term),
            Found::Fault(_) => Ok(found),
        },
        Err(fault) => Ok(found.after(Some(fault))),
    }
}

/// A term where one of this sort is wanted.
fn placed_term(terms: &mut Terms, sort: Sort, term: Typed) -> Result<Found, Memory>
    requires within { term.id < length terms.old }
    ensures grows { Grows terms.old terms.new }
    ensures names { IfOk result (λ f. TellsNames (fault_in f) false false) }
    ensures found { IfOk result (λ f. (o : Option spec.Term) → StandsAs o terms.old term → IsFound f (option_and_then (placed (sort_of sort)) o) terms.new) }
{
    match place(terms, sort, term) {
        Ok(id) => Ok(Found::Term(Typed { id, sort })),
        Err(ApplyError::Sort) => Ok(Found::Fault(Fault::Sort)),
        Err(ApplyError::Memory) => Err(Memory),
    }
}

/// The parameters of a definition, in the making: their names with their terms, and their sorts.
#[derive(Drop)]
struct Parameters<'a> {
    bound: Binding<'a>,
    sorts: Vec<Sort>,
}

impl<'a> Parameters<'a> {
    /// One parameter more.
    fn add(&mut self, names: &Names, name: &'a Text, found: Found) -> Result<(), Memory>
        ensures fault { OnOk result (self.new.bound.fault ≡ joined_by (joined_by self.old.bound.fault (clash_fault (is_operator_entry (named_by names.now name.now) || is_some (bound_in self.old.bound.frame name.now)))) (fault_in found)) }
        ensures bound { OnOk result ((other : List ℕ) → bound_in self.new.bound.frame other ≡ first_of (bound_in self.old.bound.frame other) (bound_in ((name.now, term_in_found found) ∷ []) other)) }
        ensures sorts { OnOk result (self.new.sorts.items ≡ sorts_with self.old.sorts.items found) }
    {
        self.bound.bind(names, name, found)?;
        if let Found::Term(term) = found {
            self.sorts.push(term.sort)?;
        }
        Ok(())
    }
}

/// The parameters, bound by their places.
fn bind_parameters<'a>(
    alloc: Global,
    names: &Names,
    terms: &mut Terms,
    parameters: &[Parameter<'a>],
) -> Result<Parameters<'a>, Memory>
    requires operators { HasOperators names.now }
    ensures grows { Grows terms.old terms.new }
    ensures within { IfOk result (λ ps. (name : List ℕ) → IfSome (bound_in ps.bound.frame name) (IsBoundWithin terms.new)) }
    ensures binds { IfOk result (λ ps. (name : List ℕ) → is_some (bound_in ps.bound.frame name) ≡ is_one_of (parameter_names (parameters_of parameters.now)) name) }
    ensures names { IfOk result (λ ps. TellsNames ps.bound.fault (list_any is_unknown (parameter_sorts (parameters_of parameters.now))) (clash (parameter_names (parameters_of parameters.now)))) }
    ensures found { IfOk result (λ ps. Settles ps.bound.fault (BindsParameters (parameters_of parameters.now) (map sort_of ps.sorts.items) terms.new ps.bound.frame) (sorts_written (parameter_sorts (parameters_of parameters.now)) ≡ None)) }
{
    grows_twice();
    let mut listed = Parameters {
        bound: Binding::new(alloc),
        sorts: Vec::with_capacity(alloc, parameters.len())?,
    };
    for (place, parameter) in parameters.iter().enumerate() {
        let found = parameter_term(terms, place, &parameter.sort)?;
        listed.add(names, parameter.name, found)?;
    }
    Ok(listed)
}

/// The parameter of this place and this sort.
fn parameter_term(terms: &mut Terms, place: usize, sort: &WrittenSort<'_>) -> Result<Found, Memory>
    ensures grows { Grows terms.old terms.new }
    ensures within { IfOk result (IsFoundWithin terms.new) }
    ensures names { IfOk result (λ f. TellsNames (fault_in f) (is_unknown (sort_view sort.now)) false) }
    ensures found { IfOk result (λ f. IsFound f (parameter_at place (sort_written (sort_view sort.now))) terms.new) }
    ensures sort { IfOk result (λ f. IfSome (term_in_found f) (λ x. sort_written (sort_view sort.now) ≡ Some (sort_of x.sort))) }
{
    match sort_found(sort) {
        Ok(sort) => {
            let id = make_leaf(terms, Head::Parameter(place, sort))?;
            Ok(Found::Term(Typed { id, sort }))
        }
        Err(fault) => Ok(Found::Fault(fault)),
    }
}

/// The sort that is written so, or the rule that it breaks.
fn sort_found(sort: &WrittenSort<'_>) -> Result<Sort, Fault>
    ensures sort { IfOk result (λ s. sort_written (sort_view sort.now) ≡ Some (sort_of s)) }
    ensures known { IfOk result (λ s. is_unknown (sort_view sort.now) ≡ false) }
    ensures none { IfErr result (λ f. sort_written (sort_view sort.now) ≡ None) }
    ensures fault { IfErr result (λ f. TellsNames (Some f) (is_unknown (sort_view sort.now)) false) }
{
    match written_sort(sort) {
        Some(sort) => Ok(sort),
        None => Err(if is_unknown_sort(sort) {
            Fault::Unknown
        } else {
            Fault::Sort
        }),
    }
}
