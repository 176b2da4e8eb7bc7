//! Normal terms, made in the table from the numbers of their arguments: what is chained, pairwise or grouped is written out.
ghost use Rattle.std.specs.Prelude.{◌≡◌, ◌<◌, length, All, IfOk, IsTrue, OnOk};
ghost use Rattle.nz_spec.specs.terms.Term.{Terms as Arguments, apply, conjunction, head_fits, no_terms};
ghost use Rattle.nz_spec.specs.terms.Normal.{joined_by, disequations_onto, disequations_of, normal_node, grouped_by, chained_by, implication_of};
ghost use Rattle.nz_spec.specs.terms.Operators.{operator_head};
ghost use Rattle.nz_spec.specs.terms.Table.{term_in, terms_at};
ghost use Rattle.nz_term.specs.Constants.{sort_of};
ghost use Rattle.nz_term.specs.Heads.{head_of, operator_of};
ghost use Rattle.nz_elaborate.specs.Typed.{Grows, IsOperator, StandsFor, terms_before};
ghost use Rattle.nz_elaborate.specs.Operators.{operator_meaning};
ghost use Rattle.nz_elaborate.specs.Links.{link_pair};

use crate::operators::Operator;
use nz_base::Memory;
use nz_term::{
    Head, NumberSort, Operator as NormalOperator, Sort, TermId, Terms, grows_twice,
    operators_are_no_leaves,
};
use std::alloc::Global;

/// The number of the normal term of an operator over these arguments, whose terms are normal and are read at this sort.
pub(crate) fn normal_term(
    alloc: Global,
    terms: &mut Terms,
    operator: Operator,
    sort: Sort,
    kids: &[TermId],
) -> Result<TermId, Memory>
    requires within { All (λ k. k < length terms.old) kids.now }
    ensures grows { Grows terms.old terms.new }
    ensures made { IfOk result (λ id. StandsFor terms.new id (normal_node (operator_head (operator_meaning operator) (sort_of sort)) (terms_at (term_in terms.old) kids.now))) }
{
    match operator {
        Operator::True => make(terms, NormalOperator::True, kids),
        Operator::False => make(terms, NormalOperator::False, kids),
        Operator::Not => make(terms, NormalOperator::Not, kids),
        Operator::And => joined(terms, NormalOperator::And, kids),
        Operator::Or => joined(terms, NormalOperator::Or, kids),
        Operator::Implies => implication(terms, kids),
        Operator::Xor => grouped(terms, NormalOperator::Xor, kids),
        Operator::Equals => chained(alloc, terms, Link::Equal, kids),
        Operator::Distinct => distinct(alloc, terms, kids),
        Operator::Ite => make(terms, NormalOperator::Ite(sort), kids),
        Operator::Less => chained(alloc, terms, Link::Less, kids),
        Operator::AtMost => chained(alloc, terms, Link::AtMost, kids),
        Operator::Greater => chained(alloc, terms, Link::Greater, kids),
        Operator::AtLeast => chained(alloc, terms, Link::AtLeast, kids),
        Operator::Plus => joined(terms, NormalOperator::Sum(NumberSort::of(sort)), kids),
        Operator::Times => joined(terms, NormalOperator::Product(NumberSort::of(sort)), kids),
        Operator::Minus => make(
            terms,
            NormalOperator::Difference(NumberSort::of(sort)),
            kids,
        ),
        Operator::Over => grouped(terms, NormalOperator::Quotient, kids),
        Operator::Div => grouped(terms, NormalOperator::Div, kids),
        Operator::Mod => make(terms, NormalOperator::Mod, kids),
        Operator::Abs => make(terms, NormalOperator::Abs, kids),
        Operator::ToReal => make(terms, NormalOperator::ToReal, kids),
        Operator::ToInt => make(terms, NormalOperator::ToInt, kids),
        Operator::IsInt => make(terms, NormalOperator::IsInt, kids),
    }
}

/// The number of the term of this operator over these arguments.
pub(crate) fn make(
    terms: &mut Terms,
    operator: NormalOperator,
    kids: &[TermId],
) -> Result<TermId, Memory>
    requires within { All (λ k. k < length terms.old) kids.now }
    ensures grows { Grows terms.old terms.new }
    ensures made { IfOk result (λ id. StandsFor terms.new id (apply (operator_of operator) (terms_at (term_in terms.old) kids.now))) }
{
    operators_are_no_leaves();
    terms.make(Head::Operator(operator), kids)
}

/// The number of the term of this leaf, which is no constant.
pub(crate) fn make_leaf(terms: &mut Terms, head: Head<'_>) -> Result<TermId, Memory>
    requires operator { IsOperator (head_of head) }
    requires fits { IsTrue (head_fits (head_of head)) }
    ensures grows { Grows terms.old terms.new }
    ensures made { IfOk result (λ id. StandsFor terms.new id (apply (head_of head.entry) no_terms)) }
{
    terms.make(head, &[])
}

// An operator over one term stands for that term.
fn joined(terms: &mut Terms, operator: NormalOperator, kids: &[TermId]) -> Result<TermId, Memory>
    requires within { All (λ k. k < length terms.old) kids.now }
    ensures grows { Grows terms.old terms.new }
    ensures made { IfOk result (λ id. StandsFor terms.new id (joined_by (operator_of operator) (terms_at (term_in terms.old) kids.now))) }
{
    match kids {
        [only] => Ok(*only),
        _ => make(terms, operator, kids),
    }
}

// The last term, where those before it hold: made from the right.
fn implication(terms: &mut Terms, kids: &[TermId]) -> Result<TermId, Memory>
    requires within { All (λ k. k < length terms.old) kids.now }
    ensures grows { Grows terms.old terms.new }
    ensures made { IfOk result (λ id. StandsFor terms.new id (implication_of (terms_at (term_in terms.old) kids.now))) }
{
    grows_twice();
    let Some(last) = kids.last() else {
        return make(terms, NormalOperator::True, &[]);
    };
    let mut conclusion = *last;
    for i in (0..kids.len() - 1).rev() {
        let denied = make(terms, NormalOperator::Not, &[kids[i]])?;
        conclusion = make(terms, NormalOperator::Or, &[denied, conclusion])?;
    }
    Ok(conclusion)
}

// An operator that is written in pairs, from the left.
fn grouped(terms: &mut Terms, operator: NormalOperator, kids: &[TermId]) -> Result<TermId, Memory>
    requires within { All (λ k. k < length terms.old) kids.now }
    ensures grows { Grows terms.old terms.new }
    ensures made { IfOk result (λ id. StandsFor terms.new id (grouped_by (operator_of operator) (terms_at (term_in terms.old) kids.now))) }
{
    grows_twice();
    let Some(first) = kids.first() else {
        return make(terms, operator, &[]);
    };
    let mut left = *first;
    for i in 1..kids.len() {
        left = make(terms, operator, &[left, kids[i]])?;
    }
    Ok(left)
}

// What a chain says of each term and the next.
#[derive(Clone, Copy)]
enum Link {
    Equal,
    Less,
    AtMost,
    Greater,
    AtLeast,
}

fn linked(terms: &mut Terms, link: Link, left: TermId, right: TermId) -> Result<TermId, Memory>
    requires left { left < length terms.old }
    requires right { right < length terms.old }
    ensures grows { Grows terms.old terms.new }
    ensures made { IfOk result (λ id. StandsFor terms.new id (link_pair link (term_in terms.old left) (term_in terms.old right))) }
{
    match link {
        Link::Equal => make(terms, NormalOperator::Equal, &[left, right]),
        Link::Less => make(terms, NormalOperator::Less, &[left, right]),
        Link::AtMost => make(terms, NormalOperator::AtMost, &[left, right]),
        Link::Greater => make(terms, NormalOperator::Less, &[right, left]),
        Link::AtLeast => make(terms, NormalOperator::AtMost, &[right, left]),
    }
}

// A conjunction of what is said of each term and the next.
fn chained(alloc: Global, terms: &mut Terms, link: Link, kids: &[TermId]) -> Result<TermId, Memory>
    requires within { All (λ k. k < length terms.old) kids.now }
    ensures grows { Grows terms.old terms.new }
    ensures made { IfOk result (λ id. StandsFor terms.new id (chained_by (link_pair link) (terms_at (term_in terms.old) kids.now))) }
{
    grows_twice();
    let mut links = Vec::with_capacity(alloc, kids.len())?;
    for i in 0..kids.len().saturating_sub(1) {
        let made = linked(terms, link, kids[i], kids[i + 1])?;
        links.push(made)?;
    }
    joined(terms, NormalOperator::And, links.as_slice())
}

// No two terms are equal.
fn distinct(alloc: Global, terms: &mut Terms, kids: &[TermId]) -> Result<TermId, Memory>
    requires within { All (λ k. k < length terms.old) kids.now }
    ensures grows { Grows terms.old terms.new }
    ensures made { IfOk result (λ id. StandsFor terms.new id (joined_by conjunction (disequations_of (terms_at (term_in terms.old) kids.now)))) }
{
    grows_twice();
    let mut disequations = Vec::with_capacity(alloc, pair_count(kids.len()))?;
    for i in 0..kids.len() {
        add_disequations(terms, kids[i], &kids[i + 1..], &mut disequations)?;
    }
    joined(terms, NormalOperator::And, disequations.as_slice())
}

// How many pairs there are of so many things; no list has room for the answer where it doesn't fit.
fn pair_count(count: usize) -> usize {
    count.saturating_mul(count.saturating_sub(1)) / 2
}

// Puts the denied equation of a term with each of the others behind these numbers.
fn add_disequations(
    terms: &mut Terms,
    kid: TermId,
    others: &[TermId],
    disequations: &mut Vec<TermId>,
) -> Result<(), Memory>
    requires kid { kid < length terms.old }
    requires within { All (λ k. k < length terms.old) others.now }
    requires before { All (λ k. k < length terms.old) disequations.old.items }
    ensures grows { Grows terms.old terms.new }
    ensures within { OnOk result (All (λ k. k < length terms.new) disequations.new.items) }
    ensures added { OnOk result ((more : Arguments) → terms_before (term_in terms.new) disequations.new.items more ≡ terms_before (term_in terms.old) disequations.old.items (disequations_onto (term_in terms.old kid) (terms_at (term_in terms.old) others.now) more)) }
{
    grows_twice();
    for other in others {
        let equation = make(terms, NormalOperator::Equal, &[kid, *other])?;
        let denied = make(terms, NormalOperator::Not, &[equation])?;
        disequations.push(denied)?;
    }
    Ok(())
}
