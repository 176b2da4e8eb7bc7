//! Checks: what the engine is told and asked, under which literals.
ghost use Rattle.std.specs.Prelude.{◌≡◌, List, [], map, All, IfOk, IfErr, false};
ghost use Rattle.nz_script.specs.text.Text.{intact};
ghost use Rattle.nz_spec.specs.terms.Term as term;
ghost use Rattle.nz_spec.specs.clauses.Literal.{Literal, AreTrueLiterals};
ghost use Rattle.nz_spec.specs.search.Decide.{IsFrontOfTable, AreModelValues, asserted_numbers, asserted_terms};
ghost use Rattle.nz_spec.specs.search.Search.{terms_known};
ghost use Rattle.nz_spec.specs.terms.Model.{IsUnsatisfiable};
ghost use Rattle.nz_script.specs.live.Live.{items_of, items_hold_integers};
ghost use Rattle.nz_script.specs.replies.Right.{Context};
ghost use Rattle.nz_spec.specs.terms.Order.{HasCompanions};
ghost use Rattle.nz_spec.specs.terms.Table.{assignment_by};
ghost use Rattle.nz_term.specs.TermLits.{AreConsistent, literal_of};
ghost use Rattle.nz_search.specs.Verdicts.{IfSat, OnUnsat, task_in};
ghost use Rattle.nz_sort.specs.Assuming.{AreAssumed};
ghost use Rattle.nz_sort.specs.Live.{asserted_by};
ghost use Rattle.nz_session.specs.Assumed.{IsTakenAt};
ghost use Rattle.nz_session.specs.Desk.{BeginsOver};
ghost use Rattle.nz_session.specs.Told.{IsTold, only_asserted};
ghost use Rattle.nz_session.specs.Undecided.{IfUndecided, IsUndecided};

use super::{Answer, Desk, said};
use crate::assumed::are_consistent;
use crate::told::{ToldExtent, tell};
use nz_base::{Error, Memory, Work};
use nz_reply::Reply;
use nz_search::laws::checks_may_start;
use nz_search::{Decide, Note, Stop, Verdict};
use nz_sort::Live;
use nz_spec::deciding::normal_terms_are_taken;
use nz_spec::term::{normal_keeps_value, normal_stays_sorted};
use nz_term::{TermLit, Terms};

impl<E: Decide> Desk<E> {
    ghost use Rattle.nz_script.specs.text.Tree as script;
    ghost use Rattle.nz_script.specs.commands.Command.{accepted, check_sat};
    ghost use Rattle.nz_script.specs.commands.Script.{outcome_of};
    ghost use Rattle.nz_session.specs.Desk.{Holds, IsAnswer, table_of};

    /// The answer to a check under what is assumed. Where one assumption denies another nothing is searched.
    pub(super) fn check_under(&mut self, assumed: &[TermLit]) -> Answer
        requires holds { (c : Context) × Holds E.levels E.table E.begins self.old c × (items_hold_integers (items_of c.state.levels) ≡ false) }
        requires taken { All (λ x. IsTakenAt self.old.terms x.term) assumed.now }
        ensures right { (c : Context) (tree : script.Tree) (ls : List Literal) → Holds E.levels E.table E.begins self.old c → outcome_of c.state tree ≡ accepted (check_sat ls) → AreAssumed self.old.terms assumed.now ls → IsAnswer E.levels E.table E.begins c (intact tree) result self.new }
        ensures terms { table_of self.new ≡ table_of self.old }
    {
        normal_keeps_value();
        match are_consistent(self.alloc, assumed) {
            Ok(true) => self.check(assumed),
            Ok(false) => self.refuted(),
            Err(Memory) => said(Reply::Error(Error::OutOfMemory)),
        }
    }

    /// The answer to a check under literals, none of which is the negation of another.
    fn check(&mut self, assumed: &[TermLit]) -> Answer
        requires holds { (c : Context) × Holds E.levels E.table E.begins self.old c × (items_hold_integers (items_of c.state.levels) ≡ false) }
        requires taken { All (λ l. IsTakenAt self.old.terms l.term) assumed.now }
        requires consistent { AreConsistent assumed.now }
        ensures right { (c : Context) (tree : script.Tree) (ls : List Literal) → Holds E.levels E.table E.begins self.old c → outcome_of c.state tree ≡ accepted (check_sat ls) → AreAssumed self.old.terms assumed.now ls → IsAnswer E.levels E.table E.begins c (intact tree) result self.new }
        ensures terms { table_of self.new ≡ table_of self.old }
    {
        normal_keeps_value();
        normal_stays_sorted();
        normal_terms_are_taken();
        let decided = decide(
            &mut self.engine,
            &mut self.told,
            &self.live,
            &self.terms,
            assumed,
            &mut self.work,
            self.limit,
        );
        match decided {
            Ok(Verdict::Sat(assign)) => self.found(assign),
            Ok(Verdict::Unsat(_)) => self.refuted(),
            Err(Stop::Spent) => self.undecided(None),
            Err(Stop::Wide(place)) => self.undecided(Some(place)),
            Err(Stop::Memory) => said(Reply::Error(Error::OutOfMemory)),
        }
    }
}

/// Decides whether the live assertions have a model under the assumed literals, with a fresh work list of so many units.
fn decide<E: Decide>(
    engine: &mut E,
    told: &mut ToldExtent,
    live: &Live,
    terms: &Terms,
    assumed: &[TermLit],
    work: &mut Work<Note>,
    limit: u64,
) -> Result<Verdict, Stop>
    requires told { IsTold (E.levels engine.old) told.old (asserted_by live.now) }
    requires front { IsFrontOfTable (E.table engine.old) terms.now }
    requires companions { HasCompanions terms.now }
    requires taken { All (IsTakenAt terms.now) (asserted_numbers (asserted_by live.now)) }
    requires assumed_taken { All (λ l. IsTakenAt terms.now l.term) assumed.now }
    requires consistent { AreConsistent assumed.now }
    ensures told { IsTold (E.levels engine.new) told.new (asserted_by live.now) }
    ensures sat { IfOk result (λ v. IfSat v (AreModelValues terms.now (asserted_terms terms.now (asserted_by live.now)) [])) }
    ensures sat_assumed { IfOk result (λ v. IfSat v (λ ps. AreTrueLiterals (assignment_by terms.now ps) (map (literal_of terms.now) assumed.now))) }
    ensures unsat { IfOk result (λ v. OnUnsat v (IsUnsatisfiable (asserted_terms terms.now (asserted_by live.now)) (map (literal_of terms.now) assumed.now))) }
    ensures undecided { (ts : List term.Term) → E.begins engine.old ts → IfErr result (λ s. IfUndecided s (IsUndecided terms.now (asserted_by live.now) assumed.now ts limit work.new)) }
    ensures front { IsFrontOfTable (E.table engine.new) terms.now }
    ensures begins { (ts : List term.Term) → BeginsOver E.begins engine.old ts → BeginsOver E.begins engine.new (terms_known (task_in terms.now (map only_asserted (asserted_by live.now)) assumed.now ts)) }
{
    checks_may_start();
    tell(engine, told, live, terms)?;
    work.reserve(limit)?;
    engine.check(terms, assumed, work)
}
