//! The rows of the gate table, by the numbers of terms.
ghost use Rattle.std.specs.Prelude.{◌≡◌, ◌<◌, ◌∷◌, [], All, IfOk, List, length};
ghost use Rattle.nz_spec.specs.terms.Table.{Node};
ghost use Rattle.nz_spec.specs.terms.Term.{bool_sort, choice, equality, exclusion, negation};
ghost use Rattle.nz_term.specs.Constants.{sort_of};
ghost use Rattle.nz_term.specs.Heads.{head_of};
ghost use Rattle.nz_rows.specs.GateRows.{connected, excluded, gates_at, gates_over, lists_of, only, paired, signed};

use crate::terms::is_boolean;
use nz_base::Memory;
use nz_term::{Head, Operator, Sort, TermId, TermLit, Terms};
use std::alloc::Global;

/// The literals of clauses.
type Gates = Result<Vec<Vec<TermLit>>, Memory>;

/// The rows of the gate table of a term, in their order.
///
/// # Errors
///
/// `Memory`.
pub fn gate_rows(alloc: Global, terms: &Terms, term: TermId) -> Result<Vec<Vec<TermLit>>, Memory>
    requires within { term < length terms.now }
    ensures rows { IfOk result (λ v. lists_of v.items ≡ gates_at terms.now term) }
{
    let node = terms.node(term);
    rows_over(alloc, terms, term, node.head, node.kids)
}

/// Those of the term of this head over these arguments.
fn rows_over(alloc: Global, terms: &Terms, term: TermId, head: Head<'_>, kids: &[TermId]) -> Gates
    requires within { All (λ k. k < length terms.now) kids.now }
    ensures rows { IfOk result (λ v. lists_of v.items ≡ gates_over terms.now term (head_of head.entry) kids.now) }
{
    let Head::Operator(operator) = head else {
        return Ok(Vec::new(alloc));
    };
    match operator {
        Operator::True => constant_rows(alloc, TermLit::holds(term), kids),
        Operator::False => constant_rows(alloc, TermLit::fails(term), kids),
        Operator::Not => negation_rows(alloc, term, kids),
        Operator::And => connected_rows(alloc, TermLit::fails(term), kids, true),
        Operator::Or => connected_rows(alloc, TermLit::holds(term), kids, false),
        Operator::Xor => exclusion_rows(alloc, term, kids),
        Operator::Equal => equality_rows(alloc, terms, term, kids),
        Operator::Ite(sort) => choice_rows(alloc, sort, term, kids),
        _ => Ok(Vec::new(alloc)),
    }
}

/// These rows.
fn rows_of<const N: usize>(alloc: Global, rows: &[[TermLit; N]]) -> Gates
    ensures rows { IfOk result (λ v. lists_of v.items ≡ rows.now) }
{
    let mut lists = Vec::new(alloc);
    for row in rows {
        let list = Vec::from_slice(alloc, row)?;
        lists.push(list)?;
    }
    Ok(lists)
}

/// The one row, of one literal, of a term without arguments.
fn constant_rows(alloc: Global, literal: TermLit, kids: &[TermId]) -> Gates
    ensures rows { IfOk result (λ v. lists_of v.items ≡ only (literal ∷ []) kids.now) }
{
    match kids {
        [] => rows_of(alloc, &[[literal]]),
        _ => Ok(Vec::new(alloc)),
    }
}

fn negation_rows(alloc: Global, term: TermId, kids: &[TermId]) -> Gates
    ensures rows { (ns : List Node) → IfOk result (λ v. lists_of v.items ≡ gates_over ns term negation kids.now) }
{
    let yes = TermLit::holds(term);
    let no = TermLit::fails(term);
    match kids {
        [kid] => rows_of(
            alloc,
            &[[no, TermLit::fails(*kid)], [yes, TermLit::holds(*kid)]],
        ),
        _ => Ok(Vec::new(alloc)),
    }
}

/// The rows of a term that is true where one of two literals is true and the other isn't.
fn excluded_rows(alloc: Global, term: TermId, a: TermLit, b: TermLit) -> Gates
    ensures rows { IfOk result (λ v. lists_of v.items ≡ excluded term a b) }
{
    let yes = TermLit::holds(term);
    let no = TermLit::fails(term);
    let rows = [
        [no, a, b],
        [no, a.not(), b.not()],
        [yes, a.not(), b],
        [yes, a, b.not()],
    ];
    rows_of(alloc, &rows)
}

fn exclusion_rows(alloc: Global, term: TermId, kids: &[TermId]) -> Gates
    ensures rows { (ns : List Node) → IfOk result (λ v. lists_of v.items ≡ gates_over ns term exclusion kids.now) }
{
    match kids {
        [left, right] => {
            excluded_rows(alloc, term, TermLit::holds(*left), TermLit::holds(*right))
        }
        _ => Ok(Vec::new(alloc)),
    }
}

/// An equation of Boolean terms is an exclusion whose first argument is negated.
fn equality_rows(alloc: Global, terms: &Terms, term: TermId, kids: &[TermId]) -> Gates
    requires within { All (λ k. k < length terms.now) kids.now }
    ensures rows { IfOk result (λ v. lists_of v.items ≡ gates_over terms.now term equality kids.now) }
{
    match kids {
        [left, right] => {
            if is_boolean(terms, *left) {
                excluded_rows(alloc, term, TermLit::fails(*left), TermLit::holds(*right))
            } else {
                Ok(Vec::new(alloc))
            }
        }
        _ => Ok(Vec::new(alloc)),
    }
}

fn choice_rows(alloc: Global, sort: Sort, term: TermId, kids: &[TermId]) -> Gates
    ensures rows { (ns : List Node) → IfOk result (λ v. lists_of v.items ≡ gates_over ns term (choice (sort_of sort)) kids.now) }
{
    match sort {
        Sort::Bool => boolean_choice_rows(alloc, term, kids),
        Sort::Int | Sort::Real => Ok(Vec::new(alloc)),
    }
}

fn boolean_choice_rows(alloc: Global, term: TermId, kids: &[TermId]) -> Gates
    ensures rows { (ns : List Node) → IfOk result (λ v. lists_of v.items ≡ gates_over ns term (choice bool_sort) kids.now) }
{
    let yes = TermLit::holds(term);
    let no = TermLit::fails(term);
    match kids {
        [condition, left, right] => {
            let c = TermLit::holds(*condition);
            let a = TermLit::holds(*left);
            let b = TermLit::holds(*right);
            let rows = [
                [no, c.not(), a],
                [no, c, b],
                [yes, c.not(), a.not()],
                [yes, c, b.not()],
            ];
            rows_of(alloc, &rows)
        }
        _ => Ok(Vec::new(alloc)),
    }
}

/// The rows of a conjunction, or of a disjunction: the literal with each argument of this sign, and its negation with all of the other sign.
fn connected_rows(alloc: Global, literal: TermLit, kids: &[TermId], sign: bool) -> Gates
    ensures rows { IfOk result (λ v. lists_of v.items ≡ connected literal sign kids.now) }
{
    let mut rows = paired_rows(alloc, literal, kids, sign)?;
    let last = signed(alloc, literal.not(), kids, !sign)?;
    rows.push(last)?;
    Ok(rows)
}

/// A literal with each of those of these terms.
fn paired_rows(alloc: Global, literal: TermLit, kids: &[TermId], sign: bool) -> Gates
    ensures rows { IfOk result (λ v. lists_of v.items ≡ paired literal sign kids.now) }
{
    let mut rows = Vec::new(alloc);
    for kid in kids {
        let pair = [literal, TermLit { term: *kid, sign }];
        let row = Vec::from_slice(alloc, &pair)?;
        rows.push(row)?;
    }
    Ok(rows)
}

/// A literal, and then those of these terms with a sign.
fn signed(
    alloc: Global,
    first: TermLit,
    kids: &[TermId],
    sign: bool,
) -> Result<Vec<TermLit>, Memory>
    ensures literals { IfOk result (λ v. v.items ≡ first ∷ signed sign kids.now) }
{
    let mut literals = Vec::new(alloc);
    literals.push(first)?;
    for kid in kids {
        literals.push(TermLit { term: *kid, sign })?;
    }
    Ok(literals)
}
