//! The engine as its callers see it.
ghost use Rattle.std.specs.Prelude.{◌≡◌, IfOk, List};
ghost use Rattle.nz_spec.specs.terms.Term as spec;
ghost use Rattle.nz_engine.specs.Engines.{Begins, empty_engine};

use crate::check::{CheckOutcome, Retained, cut_kept, decide, lowered, take_kept};
use crate::levels::Levels;
use nz_base::{Memory, Work};
use nz_log::laws::logs_stay;
use nz_log::{ClauseId, Step};
use nz_reals::Reals;
use nz_reals::laws::theories_restart;
use nz_search::laws::checks_may_start;
use nz_search::{Decide, Note, Stop, Verdict};
use nz_spec::derivation::derivations_grow;
use nz_spec::table::term_stays;
use nz_term::{TermId, TermLit, Terms, known_table};
use std::alloc::Global;
use std::marker::Model;
use std::snapshot::Snapshot;

/// A search that decides checks. What it made for one check it keeps for the next, as far as what is asserted still is; a check that ends with no
/// answer drops it. Where clauses have to be made anew, the forms of the theory stay, without bounds, and its point.
#[derive(Drop)]
pub struct Engine {
    alloc: Global,
    levels: Levels,
    // The table of the last check.
    seen: Option<Snapshot<Terms>>,
    kept: Retained,
}

impl Model for Engine {
    ghost use Rattle.nz_engine.specs.Engines.{EngineState, IsKept, prepared_of, table_of};

    ghost Value = { EngineState };

    ghost view = { λ e. record { levels = e.levels; table = table_of e.seen; prepared = prepared_of e.kept } };

    ghost invariant = { λ e. IsKept (table_of e.seen) e.levels e.kept };
}

impl Engine {
    /// An engine with no level. Takes no memory.
    pub fn new(alloc: Global) -> Result<Engine, Memory>
        ensures none { IfOk result (λ engine. engine ≡ empty_engine) }
        ensures begins { IfOk result (λ engine. (ts : List spec.Term) → Begins engine ts) }
    {
        theories_restart();
        Ok(Engine {
            alloc,
            levels: Levels::new(alloc),
            seen: None,
            kept: Retained::Theory(Reals::new(alloc)),
        })
    }
}

impl Decide for Engine {
    ghost use Rattle.nz_engine.specs.Engines.{Begins, clause_at};
    ghost use Rattle.nz_engine.specs.Lists.{StandsAt, starts_at};

    ghost levels = { λ e. e.levels };

    ghost table = { λ e. e.table };

    ghost clause = { clause_at };

    ghost begins = { Begins };

    ghost stands = { StandsAt };

    ghost starts = { starts_at };

    fn push(&mut self) -> Result<(), Memory> {
        logs_stay();
        let kept = take_kept(self.alloc, &mut self.kept);
        self.kept = lowered(kept, &self.levels);
        self.levels.push()
    }

    fn pop(&mut self, count: usize) {
        self.levels.pop(count);
        let kept = take_kept(self.alloc, &mut self.kept);
        self.kept = cut_kept(kept, &self.levels);
    }

    fn add(&mut self, terms: &Terms, term: TermId) -> Result<(), Memory> {
        logs_stay();
        let kept = take_kept(self.alloc, &mut self.kept);
        self.kept = lowered(kept, &self.levels);
        self.levels.add(terms, term)
    }

    fn check(
        &mut self,
        terms: &Terms,
        assumed: &[TermLit],
        work: &mut Work<Note>,
    ) -> Result<Verdict, Stop> {
        known_table(terms);
        term_stays();
        theories_restart();
        checks_may_start();
        let kept = take_kept(self.alloc, &mut self.kept);
        self.seen = Some(Snapshot::of(terms));
        let CheckOutcome { verdict, prepared } = decide(
            self.alloc,
            kept,
            &self.levels,
            terms,
            assumed,
            work,
        )?;
        self.kept = Retained::Prepared(prepared);
        Ok(verdict)
    }

    fn steps(&self, id: ClauseId) -> Result<Vec<Step<'_>>, Memory> {
        derivations_grow();
        // A clause that can be asked for is of a log.
        let Retained::Prepared(prepared) = &self.kept else {
            unreachable!()
        };
        prepared.steps(id)
    }
}
