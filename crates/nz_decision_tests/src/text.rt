//! Problems as scripts.
use crate::problem::{
    Assertion, Atom, Choice, Comparison, Joint, Literal, NUMBERS, Problem, Relation,
};
use std::alloc::{AllocError, Global};

/// The names of the truths and of the numbers.
const TRUTH_NAMES: [&str; 2] = ["p", "q"];

const NUMBER_NAMES: [&str; NUMBERS] = ["x", "y", "z"];

fn truth_name(number: usize) -> &'static str {
    TRUTH_NAMES.get(number).copied().unwrap_or("p")
}

fn number_name(number: usize) -> &'static str {
    NUMBER_NAMES.get(number).copied().unwrap_or("x")
}

/// Puts an integer as a decimal.
fn put_decimal(text: &mut String, alloc: Global, number: i64) -> Result<(), AllocError> {
    let size = number.unsigned_abs();
    let shown = if number < 0 {
        format!(in alloc; "(- {size}.0)")?
    } else {
        format!(in alloc; "{size}.0")?
    };
    text.push_str(shown.as_str())
}

fn put_choice(text: &mut String, alloc: Global, choice: &Choice) -> Result<(), AllocError> {
    let truth = truth_name(choice.truth);
    let (yes, no) = (number_name(choice.yes), number_name(choice.no));
    text.push_str(format!(in alloc; " (ite {truth} {yes} {no})")?.as_str())
}

fn put_comparison(
    text: &mut String,
    alloc: Global,
    comparison: &Comparison,
) -> Result<(), AllocError> {
    text.push_str(match comparison.relation {
        Relation::AtMost => "(<= (+ 0.0",
        Relation::Below => "(< (+ 0.0",
        Relation::AtLeast => "(>= (+ 0.0",
        Relation::Above => "(> (+ 0.0",
        Relation::Equal => "(= (+ 0.0",
    })?;
    for number in 0..NUMBERS {
        text.push_str(" (* ")?;
        put_decimal(text, alloc, comparison.factors[number])?;
        text.push_str(" ")?;
        text.push_str(number_name(number))?;
        text.push_str(")")?;
    }
    if let Some(choice) = &comparison.choice {
        put_choice(text, alloc, choice)?;
    }
    text.push_str(") (/ ")?;
    put_decimal(text, alloc, comparison.halves)?;
    text.push_str(" 2.0))")
}

fn put_literal(
    text: &mut String,
    alloc: Global,
    problem: &Problem,
    literal: &Literal,
) -> Result<(), AllocError> {
    text.push_str(if literal.sign { " " } else { " (not " })?;
    match literal.atom {
        Atom::Truth(number) => text.push_str(truth_name(number))?,
        Atom::Compares(number) => {
            if let Some(comparison) = problem.comparisons.get(number) {
                put_comparison(text, alloc, comparison)?;
            }
        }
    }
    text.push_str(if literal.sign { "" } else { ")" })
}

fn put_assertion(
    text: &mut String,
    alloc: Global,
    problem: &Problem,
    place: usize,
    assertion: &Assertion,
) -> Result<(), AllocError> {
    text.push_str(format!(in alloc; "(define-fun f{place} () Bool (")?.as_str())?;
    text.push_str(match assertion.joint {
        Joint::Either => "or",
        Joint::JustOne => "xor",
        Joint::Implies => "=>",
        Joint::Alike => "=",
    })?;
    put_literal(text, alloc, problem, &assertion.left)?;
    put_literal(text, alloc, problem, &assertion.right)?;
    text.push_str(format!(in alloc; "))(assert f{place})\n")?.as_str())
}

/// The script that declares and asserts a problem, checks it, and asks for the value of each assertion.
pub fn script(alloc: Global, problem: &Problem) -> Result<String, AllocError> {
    let mut text = String::new(alloc);
    for name in TRUTH_NAMES {
        text.push_str(format!(in alloc; "(declare-const {name} Bool)")?.as_str())?;
    }
    for name in NUMBER_NAMES {
        text.push_str(format!(in alloc; "(declare-const {name} Real)")?.as_str())?;
    }
    for place in 0..problem.assertions.len() {
        put_assertion(&mut text, alloc, problem, place, &problem.assertions[place])?;
    }
    text.push_str("(check-sat)(get-value (")?;
    for place in 0..problem.assertions.len() {
        text.push_str(format!(in alloc; "f{place} ")?.as_str())?;
    }
    text.push_str("))\n")?;
    Ok(text)
}

/// What is to be answered: that it is satisfiable, by a model that makes each assertion true, or that it isn't.
pub fn replies(alloc: Global, problem: &Problem, satisfiable: bool) -> Result<String, AllocError> {
    if !satisfiable {
        return String::from_str(alloc, "unsat\n(error \"7 no answer to show\")\n");
    }
    let mut text = String::from_str(alloc, "sat\n(")?;
    for place in 0..problem.assertions.len() {
        let space = if place == 0 { "" } else { " " };
        text.push_str(format!(in alloc; "{space}(f{place} true)")?.as_str())?;
    }
    text.push_str(")\n")?;
    Ok(text)
}
