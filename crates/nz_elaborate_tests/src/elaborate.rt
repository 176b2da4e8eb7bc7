//! Of `nz_elaborate`: the names that are live from the start, the sorts of terms, and which rule is told first.
//!
//! Cases are commands as they are written, in tables that one loop walks, and what a call promises ends in a small function around the call: that is
//! what makes a test quick to prove.
use nz_base::{Memory, Text};
use nz_command::{Command, Expression, Parameter, Question, WrittenSort, parse};
use nz_elaborate::{
    Definition, ElaborateError, Named, Names, Operator, Typed, elaborate, elaborate_all,
    elaborate_body,
};
use nz_sexpr::{Heard, Limits, Reader, Tree, What};
use nz_term::{Sort, Terms};
use std::alloc::Global;
use std::test::Fail;

const LIMITS: Limits = Limits {
    depth: 200,
    bytes: 1 << 20,
};

/// A command, and what comes of it where the operators alone are live: the sorts of its parameters and terms, in order, or the first rule that it breaks.
struct Case(&'static [u8], Result<&'static [Sort], ElaborateError>);

/// Something else than was wanted, and of which case.
#[derive(Clone, Copy, Debug)]
struct Wrong {
    place: usize,
}

/// The term of an expression.
fn term_of(alloc: Global, expression: &Expression<'_>) -> Result<Typed, ElaborateError> {
    let names = Names::new(alloc)?;
    let mut terms = Terms::new(alloc)?;
    elaborate(alloc, &names, &mut terms, expression)
}

/// The terms of questions.
fn terms_of(alloc: Global, questions: &[Question<'_>]) -> Result<Vec<Typed>, ElaborateError> {
    let names = Names::new(alloc)?;
    let mut terms = Terms::new(alloc)?;
    elaborate_all(alloc, &names, &mut terms, questions)
}

/// The definition of a body.
fn definition_of<'a>(
    alloc: Global,
    parameters: &[Parameter<'a>],
    sort: &WrittenSort<'_>,
    body: &Expression<'a>,
) -> Result<Definition, ElaborateError> {
    let names = Names::new(alloc)?;
    let mut terms = Terms::new(alloc)?;
    elaborate_body(alloc, &names, &mut terms, parameters, sort, body)
}

fn sorts_of(alloc: Global, terms: &[Typed]) -> Result<Vec<Sort>, ElaborateError> {
    let mut sorts = Vec::new(alloc);
    for term in terms {
        sorts.push(term.sort)?;
    }
    Ok(sorts)
}

/// The sorts of the parameters, and then that of the body.
fn definition_sorts(definition: Definition) -> Result<Vec<Sort>, ElaborateError> {
    let Definition { parameters, body } = definition;
    let mut sorts = parameters;
    sorts.push(body.sort)?;
    Ok(sorts)
}

/// The sorts of a command's parameters and terms. Any other command is taken for one without terms.
fn command_sorts(alloc: Global, command: &Command<'_>) -> Result<Vec<Sort>, ElaborateError> {
    match command {
        Command::Assert(expression) => sorts_of(alloc, &[term_of(alloc, expression)?]),
        Command::GetValue(questions) => {
            sorts_of(alloc, terms_of(alloc, questions.as_slice())?.as_slice())
        }
        Command::Define(_, parameters, sort, body) => {
            definition_sorts(definition_of(alloc, parameters.as_slice(), sort, body)?)
        }
        _ => Ok(Vec::new(alloc)),
    }
}

/// Whether what was found is what is wanted.
fn is_same(
    found: &Result<Vec<Sort>, ElaborateError>,
    wanted: &Result<&[Sort], ElaborateError>,
) -> bool {
    match (found, wanted) {
        (Ok(found), Ok(wanted)) => found.as_slice() == *wanted,
        (Err(found), Err(wanted)) => *found == *wanted,
        _ => false,
    }
}

/// Whether that comes of the command that a tree is.
fn is_met_by(
    alloc: Global,
    tree: &Tree,
    wanted: &Result<&[Sort], ElaborateError>,
) -> Result<bool, Memory> {
    match parse(alloc, tree)? {
        Some(command) => Ok(is_same(&command_sorts(alloc, &command), wanted)),
        None => Ok(false),
    }
}

/// What is heard first in a script.
fn first_heard(alloc: Global, script: &[u8]) -> Option<Heard> {
    let mut reader = Reader::new(alloc, LIMITS);
    let (_, heard) = reader.feed(script);
    heard
}

/// Whether what is wanted of a case comes of its command.
fn is_met(alloc: Global, case: &Case) -> Result<bool, Memory> {
    let Case(command, wanted) = case;
    match first_heard(alloc, command) {
        Some(
            Heard {
                what: What::Tree(tree),
                ..
            },
        ) => is_met_by(alloc, &tree, wanted),
        _ => Ok(false),
    }
}

/// Fails at the first of these that comes to something else than is wanted.
fn run(alloc: Global, cases: &[Case]) -> Result<(), Fail> {
    for (place, case) in cases.iter().enumerate() {
        if !is_met(alloc, case)? {
            return Err(Fail::from(Wrong { place }));
        }
    }
    Ok(())
}

/// Whether a name is this operator's, or isn't live where none is given.
fn stands_for(names: &Names, name: &Text, operator: Option<Operator>) -> bool {
    match (names.get(name), operator) {
        (Some(Named::Operator(found)), Some(wanted)) => *found == wanted,
        (None, None) => true,
        _ => false,
    }
}

/// The same of the names that are live from the start.
fn starts_as(alloc: Global, name: &[u8], operator: Option<Operator>) -> Result<bool, Memory> {
    let names = Names::new(alloc)?;
    let name = Text::from_slice(alloc, name)?;
    Ok(stands_for(&names, &name, operator))
}

#[test]
fn test_operators_are_live(rt: HostRuntime) -> Result<(), Fail> {
    const NAMES: &[(&[u8], Option<Operator>)] = &[(b"not", Some(Operator::Not)), (b"x", None)];
    for (place, (name, operator)) in NAMES.iter().enumerate() {
        if !starts_as(rt.alloc(), name, *operator)? {
            return Err(Fail::from(Wrong { place }));
        }
    }
    Ok(())
}

#[test]
fn test_terms_have_their_sorts(rt: HostRuntime) -> Result<(), Fail> {
    const CASES: &[Case] = &[
        Case(b"(assert (not true))", Ok(&[Sort::Bool])),
        Case(b"(assert 2.5)", Ok(&[Sort::Real])),
        // Above the greatest number.
        Case(
            b"(assert 170141183460469231731687303715884105728)",
            Err(ElaborateError::Sort),
        ),
    ];
    run(rt.alloc(), CASES)
}

// `x` isn't in scope, `y` is bound twice, and a number is denied.
#[test]
fn test_an_unknown_name_comes_first(rt: HostRuntime) -> Result<(), Fail> {
    const TERM: Case = Case(
        b"(assert (let ((y true) (y x)) (not 1)))",
        Err(ElaborateError::Unknown),
    );
    run(rt.alloc(), &[TERM])
}

// `y` is bound twice, and a number is denied.
#[test]
fn test_a_clash_comes_before_a_sort(rt: HostRuntime) -> Result<(), Fail> {
    const TERM: Case = Case(
        b"(assert (let ((y true) (y true)) (not 1)))",
        Err(ElaborateError::Clash),
    );
    run(rt.alloc(), &[TERM])
}

// A name whose term has a fault isn't used.
#[test]
fn test_a_bindings_fault_counts(rt: HostRuntime) -> Result<(), Fail> {
    const TERM: Case = Case(
        b"(assert (let ((y (not 1)) (x true)) x))",
        Err(ElaborateError::Sort),
    );
    run(rt.alloc(), &[TERM])
}

// A binding's term has the name of the one before.
#[test]
fn test_bindings_are_read_outside(rt: HostRuntime) -> Result<(), Fail> {
    const TERM: Case = Case(
        b"(assert (let ((x true) (y x)) y))",
        Err(ElaborateError::Unknown),
    );
    run(rt.alloc(), &[TERM])
}

#[test]
fn test_a_body_is_read_at_its_sort(rt: HostRuntime) -> Result<(), Fail> {
    const DEFINITION: Case = Case(
        b"(define-fun f ((x Int)) Real x)",
        Ok(&[Sort::Int, Sort::Real]),
    );
    run(rt.alloc(), &[DEFINITION])
}

#[test]
fn test_questions_have_their_terms(rt: HostRuntime) -> Result<(), Fail> {
    const QUESTIONS: Case = Case(b"(get-value (true 7))", Ok(&[Sort::Bool, Sort::Int]));
    run(rt.alloc(), &[QUESTIONS])
}
