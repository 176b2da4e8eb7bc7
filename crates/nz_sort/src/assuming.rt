//! What a check assumes: names of sort Bool, to be true or to be false.
ghost use Rattle.std.specs.Prelude.{◌≡◌, false, [], map, cond, Some, None, IfOk, OnOk};
ghost use Rattle.nz_spec.specs.terms.Term.{bool_sort, are_same_sort};
ghost use Rattle.nz_term.specs.Constants.{sort_of};
ghost use Rattle.nz_command.specs.Requests.{assumption_view};
ghost use Rattle.nz_script.specs.live.Live.{State};
ghost use Rattle.nz_script.specs.commands.Script.{scope_of};
ghost use Rattle.nz_elaborate.specs.Names.{IsScope};
ghost use Rattle.nz_elaborate.specs.Typed.{Grows};
ghost use Rattle.nz_sort.specs.Found.{HasFound, IsFoundAs, IsWithOne};

use nz_base::Memory;
use nz_command::{Assumption, Expression};
use nz_elaborate::{ElaborateError, Names, Typed, elaborate};
use nz_spec::table::term_stays;
use nz_term::{Sort, TermLit, Terms, grows_twice};
use std::alloc::Global;

/// What is found of assumptions.
#[derive(Drop)]
pub(crate) struct FoundAssumptions {
    /// What they assume, one for one, where none is missorted.
    pub literals: Vec<TermLit>,
    /// A name isn't in scope.
    pub is_unknown: bool,
    /// A name isn't in scope, or stands for no term of sort Bool.
    pub is_missorted: bool,
    /// A name stands for a term that holds a unit of sort `Int`.
    pub holds_integer: bool,
}

impl FoundAssumptions {
    /// What is found of one more.
    fn add(&mut self, one: FoundAssumption) -> Result<(), Memory>
        ensures added { OnOk result (IsWithOne self.old one self.new) }
    {
        self.is_unknown = self.is_unknown || one.is_unknown;
        self.holds_integer = self.holds_integer || one.holds_integer;
        let Some(literal) = one.literal else {
            self.is_missorted = true;
            return Ok(());
        };
        self.literals.push(literal)?;
        Ok(())
    }
}

/// What is found of one assumption.
#[derive(Clone, Copy)]
pub(crate) struct FoundAssumption {
    /// What it assumes, where its name stands for a term of sort Bool.
    pub literal: Option<TermLit>,
    /// The name isn't in scope.
    pub is_unknown: bool,
    /// The name stands for a term that holds a unit of sort `Int`.
    pub holds_integer: bool,
}

impl FoundAssumption {
    /// What is found of a name that stands for no term, and is unknown or isn't.
    fn without_term(is_unknown: bool) -> FoundAssumption
        ensures found { result ≡ record { literal = None; is_unknown = is_unknown; holds_integer = false } }
    {
        FoundAssumption {
            literal: None,
            is_unknown,
            holds_integer: false,
        }
    }
}

/// What is found of these assumptions, where these names are live. After an error the table may have grown.
pub(crate) fn assumed(
    alloc: Global,
    names: &Names,
    terms: &mut Terms,
    assumptions: &[Assumption],
) -> Result<FoundAssumptions, Memory>
    requires scope { (s : State) × IsScope terms.old names.now [] (scope_of s) }
    ensures grows { Grows terms.old terms.new }
    ensures found { IfOk result (λ f. (s : State) → IsScope terms.old names.now [] (scope_of s) → HasFound s (map assumption_view assumptions.now) terms.new f) }
{
    grows_twice();
    term_stays();
    let mut found = FoundAssumptions {
        literals: Vec::with_capacity(alloc, assumptions.len())?,
        is_unknown: false,
        is_missorted: false,
        holds_integer: false,
    };
    for assumption in assumptions {
        let one = assumed_term(alloc, names, terms, assumption)?;
        found.add(one)?;
    }
    Ok(found)
}

/// What is found of an assumption, where these names are live. After an error the table may have grown.
fn assumed_term(
    alloc: Global,
    names: &Names,
    terms: &mut Terms,
    assumption: &Assumption,
) -> Result<FoundAssumption, Memory>
    requires scope { (s : State) × IsScope terms.old names.now [] (scope_of s) }
    ensures grows { Grows terms.old terms.new }
    ensures found { IfOk result (λ f. (s : State) → IsScope terms.old names.now [] (scope_of s) → IsFoundAs s (assumption_view assumption.now) terms.new f) }
{
    match elaborate(alloc, names, terms, &Expression::Name(assumption.name)) {
        Err(ElaborateError::Memory) => Err(Memory),
        Err(ElaborateError::Unknown) => Ok(FoundAssumption::without_term(true)),
        Err(ElaborateError::Clash) => Ok(FoundAssumption::without_term(false)),
        Err(ElaborateError::Sort) => Ok(FoundAssumption::without_term(false)),
        Ok(made) => Ok(FoundAssumption {
            literal: literal_of(made, assumption.is_true),
            is_unknown: false,
            holds_integer: terms.holds_integer(made.id),
        }),
    }
}

/// What a term is assumed by, to be true or to be false, where it is of sort Bool.
fn literal_of(made: Typed, is_true: bool) -> Option<TermLit>
    ensures literal { result ≡ cond (are_same_sort bool_sort (sort_of made.sort)) (Some (record { term = made.id; sign = is_true })) None }
{
    if made.sort == Sort::Bool {
        Some(TermLit {
            term: made.id,
            sign: is_true,
        })
    } else {
        None
    }
}
