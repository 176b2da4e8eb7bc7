//! What checks ask of terms. It is tested here, so that tests have nothing to prove of it: where it doesn't hold, the answer is `Memory`, which
//! fails the test.
ghost use Rattle.std.specs.Prelude.{◌≡◌, ◌<◌, ◌≤◌, true, All, OnOk, length};
ghost use Rattle.nz_spec.specs.terms.Operators.{has_sort};
ghost use Rattle.nz_spec.specs.terms.Table.{HasItsArguments, term_in, terms_at};
ghost use Rattle.nz_spec.specs.terms.Taken.{IsTaken};
ghost use Rattle.nz_term.specs.Constants.{sort_of};
ghost use Rattle.nz_term.specs.Heads.{head_of};
ghost use Rattle.nz_taken_samples.specs.Sorted.{AreAlike, AreBranches, AreTaken, AreTakenBy, ArePair, IsRowOf};

use nz_base::Memory;
use nz_term::{Head, NumberSort, Operator, Sort, TermId, Terms};

/// Checks take each term of the table. It is to have no other heads than tests make.
pub fn need_taken(terms: &Terms) -> Result<(), Memory>
    ensures taken { OnOk result (AreTaken terms.now (length terms.now)) }
{
    for id in 0..terms.len() {
        need_next(terms, id)?;
    }
    Ok(())
}

/// They take the term of a number where they take those before it.
fn need_next(terms: &Terms, id: TermId) -> Result<(), Memory>
    requires within { id < length terms.now }
    ensures next { OnOk result (AreTaken terms.now id → IsTaken (term_in terms.now id)) }
{
    let node = terms.node(id);
    need_row(terms, node.head, node.kids)?;
    if !terms.is_linear(id) {
        return Err(Memory);
    }
    Ok(())
}

/// They take a head over these arguments.
fn need_row(terms: &Terms, head: Head<'_>, kids: &[TermId]) -> Result<(), Memory>
    requires within { All (λ k. k < length terms.now) kids.now }
    requires leaves { HasItsArguments (head_of head) kids.now }
    ensures row { OnOk result (IsRowOf (head_of head.entry) (terms_at (term_in terms.now) kids.now)) }
{
    match head {
        Head::Constant(constant) => match constant.sort {
            Sort::Bool => Ok(()),
            Sort::Real => Ok(()),
            Sort::Int => Err(Memory),
        },
        Head::Decimal(_, _) => match kids {
            [] => Ok(()),
            _ => Err(Memory),
        },
        Head::Operator(operator) => need_operator(terms, operator, kids),
        Head::Parameter(_, _) => Err(Memory),
        Head::Integer(_) => Err(Memory),
    }
}

/// They take an operator over these.
fn need_operator(terms: &Terms, operator: Operator, kids: &[TermId]) -> Result<(), Memory>
    requires within { All (λ k. k < length terms.now) kids.now }
    ensures taken { OnOk result (AreTakenBy operator (terms_at (term_in terms.now) kids.now)) }
{
    match operator {
        Operator::True => need_alike(terms, kids, 0, 0, Sort::Bool),
        Operator::False => need_alike(terms, kids, 0, 0, Sort::Bool),
        Operator::Not => need_alike(terms, kids, 1, 1, Sort::Bool),
        Operator::And => need_alike(terms, kids, 1, usize::MAX, Sort::Bool),
        Operator::Or => need_alike(terms, kids, 1, usize::MAX, Sort::Bool),
        Operator::Xor => need_alike(terms, kids, 2, 2, Sort::Bool),
        Operator::Equal => need_pair(terms, kids),
        Operator::Less => need_alike(terms, kids, 2, 2, Sort::Real),
        Operator::AtMost => need_alike(terms, kids, 2, 2, Sort::Real),
        Operator::Sum(NumberSort::Real) => need_alike(terms, kids, 1, usize::MAX, Sort::Real),
        Operator::Ite(Sort::Bool) => need_choice(terms, kids, Sort::Bool),
        Operator::Ite(Sort::Real) => need_choice(terms, kids, Sort::Real),
        _ => Err(Memory),
    }
}

/// There are two, of one sort.
fn need_pair(terms: &Terms, kids: &[TermId]) -> Result<(), Memory>
    requires within { All (λ k. k < length terms.now) kids.now }
    ensures pair { OnOk result (ArePair (terms_at (term_in terms.now) kids.now)) }
{
    let [left, right] = kids else {
        return Err(Memory);
    };
    need_sort(terms, *right, terms.node(*left).head.sort())
}

/// There are a condition, and two of this sort.
fn need_choice(terms: &Terms, kids: &[TermId], sort: Sort) -> Result<(), Memory>
    requires within { All (λ k. k < length terms.now) kids.now }
    ensures choice { OnOk result (AreBranches (sort_of sort) (terms_at (term_in terms.now) kids.now)) }
{
    let [condition, left, right] = kids else {
        return Err(Memory);
    };
    need_sort(terms, *condition, Sort::Bool)?;
    need_sort(terms, *left, sort)?;
    need_sort(terms, *right, sort)?;
    Ok(())
}

/// There are so many, each of this sort.
fn need_alike(
    terms: &Terms,
    kids: &[TermId],
    least: usize,
    most: usize,
    sort: Sort,
) -> Result<(), Memory>
    requires within { All (λ k. k < length terms.now) kids.now }
    ensures alike { OnOk result (AreAlike (sort_of sort) least most (terms_at (term_in terms.now) kids.now)) }
{
    if kids.len() < least || most < kids.len() {
        return Err(Memory);
    }
    for i in 0..kids.len() {
        need_sort(terms, kids[i], sort)?;
    }
    Ok(())
}

/// The term of a number is of this sort.
fn need_sort(terms: &Terms, id: TermId, sort: Sort) -> Result<(), Memory>
    requires within { id < length terms.now }
    ensures sort { OnOk result (has_sort (sort_of sort) (term_in terms.now id) ≡ true) }
{
    if terms.node(id).head.sort() == sort {
        Ok(())
    } else {
        Err(Memory)
    }
}
