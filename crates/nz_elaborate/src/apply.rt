//! Operators over arguments of the table: which they take, at which sort they are read, and what they make.
ghost use Rattle.std.specs.Prelude.{◌≡◌, ◌<◌, List, length, All, IfOk, IsErrOf, None, option_map};
ghost use Rattle.nz_spec.specs.terms.Term as spec;
ghost use Rattle.nz_spec.specs.terms.Operators.{applied, all_terms, has_sort, is_number_term, operand_sort as spec_operand_sort, number_sort as spec_number_sort, alike_sort as spec_alike_sort, branches, operator_head, as_real as spec_as_real};
ghost use Rattle.nz_spec.specs.terms.Term.{head_sort};
ghost use Rattle.nz_spec.specs.terms.Normal.{normal_of};
ghost use Rattle.nz_spec.specs.terms.Table.{Node};
ghost use Rattle.nz_term.specs.Constants.{sort_of};
ghost use Rattle.nz_elaborate.specs.Operators.{operator_meaning, operands_meaning};
ghost use Rattle.nz_elaborate.specs.Typed.{Grows, StandsFor, IsTyped, AreTyped, HasApplied, HasRead, read_term};

use crate::normal::{make, normal_term};
use crate::operators::{Operands, Operator, operands_of, takes};
use crate::typed::{ApplyError, Typed};
use nz_base::Memory;
use nz_term::{NumberSort, Operator as NormalOperator, Sort, TermId, Terms, grows_twice};
use std::alloc::Global;

/// The operator over its arguments, where it takes them.
///
/// # Errors
///
/// `Sort` exactly where it doesn't. After an error the table may have grown.
pub(crate) fn apply(
    alloc: Global,
    terms: &mut Terms,
    operator: Operator,
    arguments: &[Typed],
) -> Result<Typed, ApplyError>
    requires within { All (λ x. x.id < length terms.old) arguments.now }
    ensures grows { Grows terms.old terms.new }
    ensures within { IfOk result (λ x. x.id < length terms.new) }
    ensures applied { IfOk result (λ x. (ts : spec.Terms) → AreTyped terms.old arguments.now ts → HasApplied (operator_meaning operator) ts terms.new x) }
    ensures refused { IsErrOf result ApplyError.Sort → (ts : spec.Terms) → AreTyped terms.old arguments.now ts → applied (operator_meaning operator) ts ≡ None }
{
    grows_twice();
    if !takes(operator, arguments.len()) {
        return Err(ApplyError::Sort);
    }
    let Some(sort) = operand_sort(operands_of(operator), arguments) else {
        return Err(ApplyError::Sort);
    };
    let kids = read_at(alloc, terms, sort, arguments)?;
    let id = normal_term(alloc, terms, operator, sort, kids.as_slice())?;
    Ok(Typed {
        id,
        sort: sort_over(operator, sort),
    })
}

/// The sort that the arguments are read at, where they are such operands.
fn operand_sort(operands: Operands, arguments: &[Typed]) -> Option<Sort>
    ensures sort { (ns : List Node) (ts : spec.Terms) → AreTyped ns arguments.now ts → option_map sort_of result ≡ spec_operand_sort (operands_meaning operands) ts }
{
    match operands {
        Operands::Bools => have_sort(Sort::Bool, arguments).then_some(Sort::Bool),
        Operands::Ints => have_sort(Sort::Int, arguments).then_some(Sort::Int),
        Operands::Reals => are_numbers(arguments).then_some(Sort::Real),
        Operands::Numbers => number_sort(arguments),
        Operands::Alike => alike_sort(arguments),
        Operands::Branches => branch_sort(arguments),
    }
}

fn have_sort(sort: Sort, arguments: &[Typed]) -> bool
    ensures sort { (ns : List Node) (ts : spec.Terms) → AreTyped ns arguments.now ts → result ≡ all_terms (has_sort (sort_of sort)) ts }
{
    arguments.iter().all(|argument| argument.sort == sort)
}

fn are_numbers(arguments: &[Typed]) -> bool
    ensures numbers { (ns : List Node) (ts : spec.Terms) → AreTyped ns arguments.now ts → result ≡ all_terms is_number_term ts }
{
    arguments.iter().all(|argument| argument.sort != Sort::Bool)
}

/// Int where all are Int, else Real where all are numbers.
fn number_sort(arguments: &[Typed]) -> Option<Sort>
    ensures sort { (ns : List Node) (ts : spec.Terms) → AreTyped ns arguments.now ts → option_map sort_of result ≡ spec_number_sort ts }
{
    if have_sort(Sort::Int, arguments) {
        Some(Sort::Int)
    } else if are_numbers(arguments) {
        Some(Sort::Real)
    } else {
        None
    }
}

/// Bool where all are Bool, else that of numbers.
fn alike_sort(arguments: &[Typed]) -> Option<Sort>
    ensures sort { (ns : List Node) (ts : spec.Terms) → AreTyped ns arguments.now ts → option_map sort_of result ≡ spec_alike_sort ts }
{
    if have_sort(Sort::Bool, arguments) {
        Some(Sort::Bool)
    } else {
        number_sort(arguments)
    }
}

/// That of the branches, behind a condition.
fn branch_sort(arguments: &[Typed]) -> Option<Sort>
    ensures sort { (ns : List Node) (ts : spec.Terms) → AreTyped ns arguments.now ts → option_map sort_of result ≡ spec_operand_sort branches ts }
{
    match arguments.split_first() {
        Some((condition, others)) if condition.sort == Sort::Bool => alike_sort(others),
        _ => None,
    }
}

/// The numbers of the arguments, read at this sort: where it is Real, one of sort Int by its `to_real`.
fn read_at(
    alloc: Global,
    terms: &mut Terms,
    sort: Sort,
    arguments: &[Typed],
) -> Result<Vec<TermId>, Memory>
    requires within { All (λ x. x.id < length terms.old) arguments.now }
    ensures grows { Grows terms.old terms.new }
    ensures within { IfOk result (λ ids. All (λ i. i < length terms.new) ids.items) }
    ensures read { IfOk result (λ ids. (ts : spec.Terms) → AreTyped terms.old arguments.now ts → HasRead (sort_of sort) ts terms.new ids.items) }
{
    grows_twice();
    let mut ids = Vec::with_capacity(alloc, arguments.len())?;
    for argument in arguments {
        let id = read_one(terms, sort, *argument)?;
        ids.push(id)?;
    }
    Ok(ids)
}

fn read_one(terms: &mut Terms, sort: Sort, argument: Typed) -> Result<TermId, Memory>
    requires within { argument.id < length terms.old }
    ensures grows { Grows terms.old terms.new }
    ensures within { IfOk result (λ id. id < length terms.new) }
    ensures read { IfOk result (λ id. (t : spec.Term) → IsTyped terms.old argument t → StandsFor terms.new id (normal_of (read_term (sort_of sort) t))) }
{
    if sort == Sort::Real {
        as_real(terms, argument)
    } else {
        Ok(argument.id)
    }
}

/// A term where a Real is wanted: one of sort Int is read as its `to_real`.
pub(crate) fn as_real(terms: &mut Terms, argument: Typed) -> Result<TermId, Memory>
    requires within { argument.id < length terms.old }
    ensures grows { Grows terms.old terms.new }
    ensures within { IfOk result (λ id. id < length terms.new) }
    ensures real { IfOk result (λ id. (t : spec.Term) → IsTyped terms.old argument t → StandsFor terms.new id (normal_of (spec_as_real t))) }
{
    if argument.sort == Sort::Int {
        make(terms, NormalOperator::ToReal, &[argument.id])
    } else {
        Ok(argument.id)
    }
}

/// The sort of an operator's term over arguments that are read at this sort.
fn sort_over(operator: Operator, sort: Sort) -> Sort
    ensures sort { sort_of result ≡ head_sort (operator_head (operator_meaning operator) (sort_of sort)) }
{
    match operator {
        Operator::Ite => sort,
        Operator::Plus | Operator::Times | Operator::Minus => NumberSort::of(sort).sort(),
        Operator::Over | Operator::ToReal => Sort::Real,
        Operator::Div | Operator::Mod | Operator::Abs | Operator::ToInt => Sort::Int,
        _ => Sort::Bool,
    }
}
