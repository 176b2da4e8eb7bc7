//! The forms of terms.
ghost use Rattle.std.specs.Prelude.{◌≡◌, ◌<◌, ◌++◌, All, IfOk, IfErr, IsTrue, List, OnOk, Some, false, length, nat_eq, pos};
ghost use Rattle.std.specs.HashMap.{get};
ghost use Rattle.nz_spec.specs.numbers.Computation.{at_once, operated};
ghost use Rattle.nz_spec.specs.terms.Form.{all_joined, unit_form};
ghost use Rattle.nz_spec.specs.terms.FormOf as forms_of;
ghost use Rattle.nz_spec.specs.terms.FormOf.{first_wide_in_form, number_in};
ghost use Rattle.nz_fractions.specs.Fraction.{Quotient, whole};
ghost use Rattle.nz_spec.specs.terms.Linear.{are_divisors, divides_by_constants, is_linear};
ghost use Rattle.nz_spec.specs.terms.Table.{IsTable, Node, term_in};
ghost use Rattle.nz_spec.specs.terms.Term.{is_zero};
ghost use Rattle.nz_term.specs.Heads.{head_of};
ghost use Rattle.nz_lin.specs.Comes.{IsFormed, IsNumbered, IsOperated, arithmetic_of};
ghost use Rattle.nz_lin.specs.Forms.{AreUnits, IsFormOf, form_over};
ghost use Rattle.nz_lin.specs.Making.{AreMade, HaveForms, HaveUnits, constants_at, difference_of, factor_onto, joined_forms, made_forms, opened_by, opened_kids, opening_in, opening_of, product_of, quotient_of, steps_of};
ghost use Rattle.nz_term.specs.Stops.{IsStopAt};

use crate::form::{Form, Side, Sign};
use nz_base::Memory;
use nz_frac::{Frac, Wide};
use nz_spec::table::term_of_node;
use nz_term::{ArithmeticStop, Head, Operator, TermId, Terms, known_table};
use std::alloc::Global;
use std::collections::HashMap;

/// What is left to do of a term.
#[derive(Clone, Copy, Debug)]
enum Step {
    /// The term and all that it is made of, as far as arithmetic opens it.
    Enter(TermId),
    /// The term alone, since the forms of its arguments are made.
    Leave(TermId),
}

/// How arithmetic opens a term.
#[derive(Clone, Copy, Debug)]
enum Opening {
    Sum,
    Difference,
    Product,
    Quotient,
    ToReal,
}

/// The form of a linear term. The form of each shared term is made once, down to constants and units and no further: it
/// takes time and memory in proportion to the arguments of these terms and to the parts of their forms together.
///
/// # Errors
///
/// `Wide` with the first operation that leaves the numbers: those of the arguments, from the left, and then the term's own;
/// `Memory`.
pub fn lin(alloc: Global, terms: &Terms, id: TermId) -> Result<Form, ArithmeticStop>
    requires within { id < length terms.now }
    requires linear { IsTrue (is_linear (term_in terms.now id)) }
    ensures form { IfOk result (λ f. IsFormOf terms.now id f) }
    ensures stop { IfErr result (λ s. IsStopAt (first_wide_in_form (number_in terms.now) (term_in terms.now id)) s) }
{
    term_of_node();
    known_table(terms);
    let mut forms = HashMap::new(alloc);
    let mut steps = Vec::new(alloc);
    steps.push(Step::Enter(id))?;
    while let Some(step) = steps.pop() {
        match step {
            Step::Enter(term) => {
                if !forms.contains_key(&term) {
                    enter(terms, term, &mut steps)?;
                }
            }
            Step::Leave(term) => {
                let form = form_over(alloc, terms, term, &forms)?;
                forms.insert(term, form)?;
            }
        }
    }
    Ok(forms.remove(&id).unwrap())
}

/// Puts a term on the stack, and above it the arguments whose forms it wants, the first one on top.
fn enter(terms: &Terms, id: TermId, steps: &mut Vec<Step>) -> Result<(), Memory>
    requires within { id < length terms.now }
    ensures steps { OnOk result (steps.new.items ≡ steps.old.items ++ steps_of terms.now id) }
{
    steps.push(Step::Leave(id))?;
    if opening_in(terms, id).is_some() {
        for kid in terms.kids(id).iter().rev() {
            steps.push(Step::Enter(*kid))?;
        }
    }
    Ok(())
}

/// How arithmetic opens the term, where it is neither a constant term nor a unit.
fn opening_in(terms: &Terms, id: TermId) -> Option<Opening>
    requires within { id < length terms.now }
    ensures opening { result ≡ opening_in (term_in terms.now id) }
{
    term_of_node();
    known_table(terms);
    if terms.constant(id).is_some() {
        return None;
    }
    opening_of(terms.head(id))
}

/// How arithmetic opens terms of this head, where they aren't constant.
fn opening_of(head: Head) -> Option<Opening>
    ensures opening { result ≡ opening_of (head_of head.entry) }
{
    match head {
        Head::Operator(operator) => match operator {
            Operator::Sum(_) => Some(Opening::Sum),
            Operator::Difference(_) => Some(Opening::Difference),
            Operator::Product(_) => Some(Opening::Product),
            Operator::Quotient => Some(Opening::Quotient),
            Operator::ToReal => Some(Opening::ToReal),
            _ => None,
        },
        _ => None,
    }
}

/// The form of a term over those of its arguments, as far as arithmetic opens it.
fn form_over(
    alloc: Global,
    terms: &Terms,
    id: TermId,
    forms: &HashMap<TermId, Form>,
) -> Result<Form, ArithmeticStop>
    requires within { id < length terms.now }
    requires linear { IsTrue (is_linear (term_in terms.now id)) }
    requires made { AreMade terms.now (get nat_eq forms.now) }
    requires forms { HaveForms (get nat_eq forms.now) (opened_kids terms.now id) }
    ensures formed { IsFormed terms.now (forms_of.form_of (number_in terms.now) (term_in terms.now id)) result }
{
    term_of_node();
    known_table(terms);
    if let Some(number) = terms.constant(id) {
        return Ok(Form::number(alloc, number));
    }
    match opening_in(terms, id) {
        Some(opening) => opened(alloc, terms, id, opening, terms.kids(id), forms),
        None => unit(alloc, terms, id),
    }
}

/// The form of a unit.
fn unit(alloc: Global, terms: &Terms, id: TermId) -> Result<Form, ArithmeticStop>
    requires within { id < length terms.now }
    ensures formed { IsFormed terms.now (at_once (unit_form (term_in terms.now id))) result }
{
    term_of_node();
    known_table(terms);
    Ok(Form::unit(alloc, id, terms.head(id).sort())?)
}

/// The form of a term that arithmetic opens so, over those of its arguments.
fn opened(
    alloc: Global,
    terms: &Terms,
    id: TermId,
    opening: Opening,
    kids: &[TermId],
    forms: &HashMap<TermId, Form>,
) -> Result<Form, ArithmeticStop>
    requires term { id < length terms.now }
    requires within { All (λ k. k < length terms.now) kids.now }
    requires forms { HaveForms (get nat_eq forms.now) kids.now }
    requires units { HaveUnits terms.now (get nat_eq forms.now) kids.now }
    requires divisors { opening ≡ Opening.Quotient → IsTrue (divides_by_constants (constants_at terms.now kids.now)) }
    ensures formed { IsFormed terms.now (opened_by (number_in terms.now) opening (constants_at terms.now kids.now) (made_forms terms.now (get nat_eq forms.now) kids.now) (unit_form (term_in terms.now id))) result }
{
    known_table(terms);
    match opening {
        Opening::Sum => joined(alloc, Sign::Plus, kids, forms),
        Opening::Difference => difference(alloc, kids, forms),
        Opening::Product => product(alloc, terms, kids, forms),
        Opening::Quotient => quotient(alloc, terms, kids, forms),
        Opening::ToReal => match kids {
            [kid] => Ok(forms[kid].copied(alloc)?),
            _ => unit(alloc, terms, id),
        },
    }
}

/// The sum or the difference of these terms, from the left; of none it is 0.
fn joined(
    alloc: Global,
    sign: Sign,
    kids: &[TermId],
    forms: &HashMap<TermId, Form>,
) -> Result<Form, ArithmeticStop>
    requires forms { HaveForms (get nat_eq forms.now) kids.now }
    ensures formed { (ns : List Node) → IsTable ns → HaveUnits ns (get nat_eq forms.now) kids.now → IsFormed ns (joined_forms (number_in ns) (arithmetic_of sign) (made_forms ns (get nat_eq forms.now) kids.now)) result }
{
    let Some((first, others)) = kids.split_first() else {
        return Ok(Form::number(alloc, Frac::whole(0)));
    };
    let first = forms[first].copied(alloc)?;
    all_joined(sign, first, others, forms)
}

/// A form, and then those of these terms added or subtracted.
fn all_joined(
    sign: Sign,
    mut sum: Form,
    kids: &[TermId],
    forms: &HashMap<TermId, Form>,
) -> Result<Form, ArithmeticStop>
    requires forms { HaveForms (get nat_eq forms.now) kids.now }
    ensures formed { (ns : List Node) → IsTable ns → AreUnits ns sum.parts → HaveUnits ns (get nat_eq forms.now) kids.now → IsFormed ns (all_joined (number_in ns) (arithmetic_of sign) (form_over ns sum) (made_forms ns (get nat_eq forms.now) kids.now)) result }
{
    for kid in kids {
        sum.join(sign, &forms[kid])?;
    }
    Ok(sum)
}

/// The negation of one term, or the difference of several.
fn difference(
    alloc: Global,
    kids: &[TermId],
    forms: &HashMap<TermId, Form>,
) -> Result<Form, ArithmeticStop>
    requires forms { HaveForms (get nat_eq forms.now) kids.now }
    ensures formed { (ns : List Node) → IsTable ns → HaveUnits ns (get nat_eq forms.now) kids.now → IsFormed ns (difference_of (number_in ns) (made_forms ns (get nat_eq forms.now) kids.now)) result }
{
    match kids {
        [kid] => Ok(forms[kid].negated(alloc)?),
        _ => joined(alloc, Sign::Minus, kids, forms),
    }
}

/// The product of the constants among these terms, from the left, times the form of the first other one, or 1.
fn product(
    alloc: Global,
    terms: &Terms,
    kids: &[TermId],
    forms: &HashMap<TermId, Form>,
) -> Result<Form, ArithmeticStop>
    requires within { All (λ k. k < length terms.now) kids.now }
    requires forms { HaveForms (get nat_eq forms.now) kids.now }
    ensures formed { HaveUnits terms.now (get nat_eq forms.now) kids.now → IsFormed terms.now (product_of (constants_at terms.now kids.now) (made_forms terms.now (get nat_eq forms.now) kids.now)) result }
{
    let factor = constants_product(terms, kids)?;
    for kid in kids {
        if terms.constant(*kid).is_none() {
            return forms[kid].multiplied(alloc, Side::Left, factor);
        }
    }
    Form::number(alloc, Frac::whole(1)).multiplied(alloc, Side::Left, factor)
}

/// The product of the constants among these terms, from the left; of none it is 1.
fn constants_product(terms: &Terms, kids: &[TermId]) -> Result<Frac, ArithmeticStop>
    requires within { All (λ k. k < length terms.now) kids.now }
    ensures product { IsNumbered (forms_of.constants_product (constants_at terms.now kids.now)) result }
{
    let mut product: Option<Frac> = None;
    for kid in kids {
        if let Some(constant) = terms.constant(*kid) {
            product = Some(with_factor(product, constant)?);
        }
    }
    Ok(product.unwrap_or(Frac::whole(1)))
}

/// The product so far with one factor more.
#[tactic(auto, unfolding(nz_fractions::specs::Fraction::first_wide))]
fn with_factor(product: Option<Frac>, factor: Frac) -> Result<Frac, Wide>
    ensures product { IsOperated (factor_onto product factor) result }
{
    match product {
        Some(product) => product.mul(factor),
        None => Ok(factor),
    }
}

/// The form of the first term, times 1/k for each of the others, which are constants k other than 0; of none it is 1.
fn quotient(
    alloc: Global,
    terms: &Terms,
    kids: &[TermId],
    forms: &HashMap<TermId, Form>,
) -> Result<Form, ArithmeticStop>
    requires within { All (λ k. k < length terms.now) kids.now }
    requires forms { HaveForms (get nat_eq forms.now) kids.now }
    requires divisors { IsTrue (divides_by_constants (constants_at terms.now kids.now)) }
    ensures formed { HaveUnits terms.now (get nat_eq forms.now) kids.now → IsFormed terms.now (quotient_of (constants_at terms.now kids.now) (made_forms terms.now (get nat_eq forms.now) kids.now)) result }
{
    let Some((first, divisors)) = kids.split_first() else {
        return Ok(Form::number(alloc, Frac::whole(1)));
    };
    let first = forms[first].copied(alloc)?;
    all_divided(alloc, terms, first, divisors)
}

/// A form times 1/k for each of these constants k, which are other than 0.
fn all_divided(
    alloc: Global,
    terms: &Terms,
    mut form: Form,
    divisors: &[TermId],
) -> Result<Form, ArithmeticStop>
    requires within { All (λ k. k < length terms.now) divisors.now }
    requires divisors { IsTrue (are_divisors (constants_at terms.now divisors.now)) }
    ensures formed { AreUnits terms.now form.parts → IsFormed terms.now (forms_of.divided_by_each (form_over terms.now form) (constants_at terms.now divisors.now)) result }
{
    for divisor in divisors {
        let constant = terms.constant(*divisor).unwrap();
        form = divided(alloc, &form, constant)?;
    }
    Ok(form)
}

/// A form times 1/k.
fn divided(alloc: Global, form: &Form, k: Frac) -> Result<Form, ArithmeticStop>
    requires nonzero { is_zero k ≡ false }
    ensures formed { (ns : List Node) → AreUnits ns form.now.parts → IsFormed ns (forms_of.divided_by k (form_over ns form.now)) result }
{
    let factor = inverse(k)?;
    form.multiplied(alloc, Side::Right, factor)
}

/// 1/k.
#[tactic(auto, unfolding(nz_fractions::specs::Fraction::first_wide))]
fn inverse(k: Frac) -> Result<Frac, Wide>
    requires nonzero { is_zero k ≡ false }
    ensures inverse { IsOperated (operated Quotient (whole (pos 1)) k) result }
{
    prove!(!k.is_zero());
    Frac::whole(1).div(k)
}
