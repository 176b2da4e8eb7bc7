//! What comes of a check: its answer, and what is kept of it for later commands.
ghost use Rattle.std.specs.Prelude.{◌≡◌, List, [], IfOk, IfSome};
ghost use Rattle.nz_script.specs.text.Text.{intact};
ghost use Rattle.nz_spec.specs.clauses.Literal.{Literal, AreTrueLiterals};
ghost use Rattle.nz_spec.specs.search.Decide.{AreModelValues};
ghost use Rattle.nz_spec.specs.terms.Model.{IsUnsatisfiable};
ghost use Rattle.nz_script.specs.live.Live.{assertions_of};
ghost use Rattle.nz_script.specs.replies.Right.{Context};
ghost use Rattle.nz_spec.specs.terms.Table.{Node, assignment_by};
ghost use Rattle.nz_term.specs.declared.term_lits.TermLit.{TermLit};
ghost use Rattle.nz_search.specs.Notes.{AreNotedWithin};
ghost use Rattle.nz_place.specs.Places.{IsSiteWithin};
ghost use Rattle.nz_reply.specs.Reasons.{reason_of};
ghost use Rattle.nz_reply.specs.Replies.{IsCauseWithin, cause_of as meant};
ghost use Rattle.nz_sort.specs.Live.{asserted_by};
ghost use Rattle.nz_sort.specs.Assuming.{AreAssumed};
ghost use Rattle.nz_session.specs.Undecided.{IsUndecided, cause_by, reason_by};

use super::{Answer, Desk, LastAnswer, said};
use crate::models::found_model;
use nz_base::{Error, Memory};
use nz_place::Place;
use nz_reply::{Cause, Reason, Reply, Stopped, WorkDone};
use nz_script::transcript::{assertions_are_over, assumptions_are_taken};
use nz_search::Decide;
use nz_spec::form::{listings_may_renumber, places_tell_apart, term_has_its_number};
use nz_spec::table::term_of_node;
use nz_spec::term::{
    constants_tell_values, decimals_are_numbers, normal_keeps_value, numerals_are_whole,
};
use nz_spec::work::{more_terms_end_legally, negations_have_no_rows, renumbered_work_is_legal};
use nz_term::{Assign, known_table};
use std::alloc::{AllocError, Global};
use std::rc::Rc;

impl<E: Decide> Desk<E> {
    ghost use Rattle.nz_script.specs.text.Tree as script;
    ghost use Rattle.nz_script.specs.commands.Command.{accepted, check_sat};
    ghost use Rattle.nz_script.specs.commands.Script.{outcome_of};
    ghost use Rattle.nz_session.specs.Desk.{Holds, IsAnswer, asked_in, asserted_in, table_of};

    /// The answer where there is no model.
    pub(super) fn refuted(&mut self) -> Answer
        ensures right { (c : Context) (tree : script.Tree) (ls : List Literal) → Holds E.levels E.table E.begins self.old (asked_in c tree) → outcome_of c.state tree ≡ accepted (check_sat ls) → IsUnsatisfiable (assertions_of c.state) ls → IsAnswer E.levels E.table E.begins c (intact tree) result self.new }
        ensures terms { table_of self.new ≡ table_of self.old }
    {
        self.last = Some(LastAnswer::Refutation);
        said(Reply::Unsat)
    }

    /// The answer where a check wasn't decided, which is kept for `get-info`.
    pub(super) fn undecided(&mut self, place: Option<Place>) -> Answer
        ensures right { (c : Context) (tree : script.Tree) (assumed : List TermLit) (ls : List Literal) → Holds E.levels E.table E.begins self.old (asked_in c tree) → outcome_of c.state tree ≡ accepted (check_sat ls) → AreAssumed self.old.terms assumed ls → IsUndecided self.old.terms (asserted_by self.old.live) assumed c.earlier self.old.limit self.old.work place → IsAnswer E.levels E.table E.begins c (intact tree) result self.new }
        ensures terms { table_of self.new ≡ table_of self.old }
    {
        more_terms_end_legally();
        renumbered_work_is_legal();
        negations_have_no_rows();
        places_tell_apart();
        listings_may_renumber();
        known_table(&self.terms);
        term_of_node();
        term_has_its_number();
        let Ok((reason, shown)) = reasons_at(self.alloc, self.limit, &place) else {
            return said(Reply::Error(Error::OutOfMemory));
        };
        let done = WorkDone {
            limit: self.limit,
            work: self.work.take(),
        };
        let Ok(cause) = cause_of(self.alloc, place, done) else {
            return said(Reply::Error(Error::OutOfMemory));
        };
        self.last = Some(LastAnswer::Undecided(reason));
        Answer {
            reply: Reply::Unknown(shown),
            cause,
            exits: false,
        }
    }

    /// The answer where a model was found, which is kept for `get-model`.
    pub(super) fn found(&mut self, assign: Assign) -> Answer
        ensures right { (c : Context) (tree : script.Tree) (ls : List Literal) → Holds E.levels E.table E.begins self.old (asked_in c tree) → outcome_of c.state tree ≡ accepted (check_sat ls) → AreModelValues self.old.terms (asserted_in self.old) [] assign → AreTrueLiterals (assignment_by self.old.terms assign) ls → IsAnswer E.levels E.table E.begins c (intact tree) result self.new }
        ensures terms { table_of self.new ≡ table_of self.old }
    {
        assertions_are_over();
        assumptions_are_taken();
        constants_tell_values();
        known_table(&self.terms);
        term_of_node();
        normal_keeps_value();
        decimals_are_numbers();
        numerals_are_whole();
        match found_model(self.alloc, &self.terms, &self.live, &assign) {
            Ok((model, shown)) => {
                self.last = Some(LastAnswer::Model(model));
                said(Reply::Sat(shown))
            }
            Err(Memory) => said(Reply::Error(Error::OutOfMemory)),
        }
    }
}

/// Why a check wasn't decided that ended at this place, or had each unit of this limit used: once to be kept, and once to be shown.
fn reasons_at(
    alloc: Global,
    limit: u64,
    place: &Option<Place>,
) -> Result<(Reason, Reason), AllocError>
    ensures kept { IfOk result (λ p. reason_of p.0 ≡ reason_by limit place.now) }
    ensures shown { IfOk result (λ p. reason_of p.1 ≡ reason_by limit place.now) }
{
    let reason = match place {
        Some(place) => Reason::Wide(Rc::new(alloc, place.wide)?),
        None => Reason::UnitsSpent(limit),
    };
    let shown = reason.share()?;
    Ok((reason, shown))
}

/// Why a check wasn't decided: its work, and the place where it ended, if each unit wasn't used.
fn cause_of(alloc: Global, place: Option<Place>, done: WorkDone) -> Result<Cause, AllocError>
    ensures cause { IfOk result (λ cause. (ns : List Node) → meant ns cause ≡ cause_by ns done place) }
    ensures within { IfOk result (λ cause. (ns : List Node) → AreNotedWithin ns done.work → IfSome place (λ p. IsSiteWithin ns p.site) → IsCauseWithin ns cause) }
{
    match place {
        Some(place) => Ok(Cause::Stopped(Box::new(alloc, Stopped { place, done })?)),
        None => Ok(Cause::Spent(Box::new(alloc, done)?)),
    }
}
