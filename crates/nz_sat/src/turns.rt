//! The search from its start to its end.
ghost use Rattle.std.specs.Prelude.{◌≡◌, ◌<◌, ◌≤◌, [], All, Contains, List, None, length, IfOk, IfSome, OnOk};
ghost use Rattle.nz_log.specs.declared.lits.Lit.{Lit};
ghost use Rattle.nz_log.specs.Logs.{IsLive, literals_at};
ghost use Rattle.nz_sat.specs.Clauses.{IsAssumed};
ghost use Rattle.nz_sat.specs.Conflicts.{HasLast, Refutes};
ghost use Rattle.nz_sat.specs.Sats.{AreConsistent};
ghost use Rattle.nz_sat.specs.Searching.{AreFirst, IsConflict, IsNoted, IsReady, IsSearch, Runs, Satisfies, Settles, SettlesOn, Steps, TurnsOn, WasNoted, assumed_entries};
ghost use Rattle.nz_sat.specs.Theories.{state_of, told_lits};
ghost use Rattle.nz_sat.specs.Trails.{assigned, depth};
ghost use Rattle.nz_sat.specs.Watched.{HoldsWatched};

use crate::clauses::Held;
use crate::search::Search;
use nz_base::Work;
use nz_log::{AtomId, ClauseId, Lit, Log};
use nz_search::{Note, Stop, Theory};
use nz_spec::work::legal_work_goes_on;

impl Search {
    /// Learns from a clause in which each literal is false, one of them of the last level, makes true what the clauses make true with that, and
    /// has the theory check it. Answers a clause in which each literal is false.
    fn learn_on<T: Theory>(
        &mut self,
        log: &mut Log,
        held: &mut Vec<Held>,
        theory: &mut T,
        work: &mut Work<Note>,
        falsified: ClauseId,
    ) -> Result<Option<ClauseId>, Stop>
        requires search { IsSearch log.old held.old.items self.old }
        requires first { AreFirst log.old self.old }
        requires conflict { IsConflict log.old held.old.items self.old.trail.entries falsified }
        requires last { HasLast self.old.trail.entries (literals_at log.old falsified) }
        requires decided { 0 < depth self.old.trail.entries }
        requires noted { WasNoted log.old held.old.items self.old work.old }
        requires of { T.is_of theory.old log.old.atoms self.old.atoms }
        requires told { T.has_told theory.old (told_lits self.old.bounds self.old.trail.entries) }
        ensures steps { Steps (state_of T.is_over T.has_told T.is_feasible T.is_of T.is_at theory.old) (state_of T.is_over T.has_told T.is_feasible T.is_of T.is_at theory.new)
            self.old self.old.trail.entries self.new log.old log.new held.old.items held.new.items work.old work.new result }
        ensures told { OnOk result (T.has_told theory.new (told_lits self.new.bounds self.new.trail.entries)) }
        ensures turns { IfOk result (TurnsOn log.new held.new.items self.old self.new work.old work.new) }
    {
        self.learn(log, held, theory, work, falsified)?;
        self.conflict(log, theory, work)
    }

    /// Makes true what the clauses make true, has the theory check that, and learns from each conflict. Answers the clause that refutes the assumed literals, if one does.
    fn settle<T: Theory>(
        &mut self,
        log: &mut Log,
        held: &mut Vec<Held>,
        theory: &mut T,
        work: &mut Work<Note>,
    ) -> Result<Option<ClauseId>, Stop>
        requires search { IsSearch log.old held.old.items self.old }
        requires first { AreFirst log.old self.old }
        requires noted { IsNoted log.old held.old.items self.old work.old }
        requires of { T.is_of theory.old log.old.atoms self.old.atoms }
        requires told { T.has_told theory.old (told_lits self.old.bounds self.old.trail.entries) }
        ensures steps { Steps (state_of T.is_over T.has_told T.is_feasible T.is_of T.is_at theory.old) (state_of T.is_over T.has_told T.is_feasible T.is_of T.is_at theory.new)
            self.old self.old.trail.entries self.new log.old log.new held.old.items held.new.items work.old work.new result }
        ensures settled { IfOk result (λ r. r ≡ None → Settles log.new held.new.items self.old self.new work.old work.new) }
        ensures refuted { IfOk result (λ r. IfSome r (λ id. IsLive log.new id × ((assumed : List Lit) → All (IsAssumed assumed) self.old.trail.entries → Refutes assumed (literals_at log.new id)))) }
        ensures left { IfOk result (λ r. IfSome r (λ _. HoldsWatched log.new held.new.items self.new.propagation)) }
    {
        let mut conflict = self.conflict(log, theory, work)?;
        while let Some(falsified) = conflict {
            if self.back_to(log, theory, falsified) == 0 {
                return Ok(Some(self.refute(*held.allocator(), log, falsified)?));
            }
            conflict = self.learn_on(log, held, theory, work, falsified)?;
        }
        Ok(None)
    }

    /// Decides an atom, and learns from the conflicts of that. Answers the clause that refutes the assumed literals, if one does.
    fn turn<T: Theory>(
        &mut self,
        log: &mut Log,
        held: &mut Vec<Held>,
        theory: &mut T,
        work: &mut Work<Note>,
        atom: AtomId,
    ) -> Result<Option<ClauseId>, Stop>
        requires search { IsSearch log.old held.old.items self.old }
        requires ready { IsReady log.old self.old }
        requires noted { IsNoted log.old held.old.items self.old work.old }
        requires of { T.is_of theory.old log.old.atoms self.old.atoms }
        requires told { T.has_told theory.old (told_lits self.old.bounds self.old.trail.entries) }
        requires whole { self.old.bounds.told ≡ length self.old.trail.entries }
        requires free { assigned self.old.trail.entries atom ≡ None }
        requires named { Contains self.old.atoms atom }
        ensures steps { Steps (state_of T.is_over T.has_told T.is_feasible T.is_of T.is_at theory.old) (state_of T.is_over T.has_told T.is_feasible T.is_of T.is_at theory.new)
            self.old self.old.trail.entries self.new log.old log.new held.old.items held.new.items work.old work.new result }
        ensures settled { IfOk result (λ r. r ≡ None → SettlesOn log.new held.new.items self.old self.new work.old work.new) }
        ensures refuted { IfOk result (λ r. IfSome r (λ id. IsLive log.new id × ((assumed : List Lit) → All (IsAssumed assumed) self.old.trail.entries → Refutes assumed (literals_at log.new id)))) }
        ensures left { IfOk result (λ r. IfSome r (λ _. HoldsWatched log.new held.new.items self.new.propagation)) }
    {
        legal_work_goes_on();
        log.atom_count();
        self.decide(theory, work, atom)?;
        self.settle(log, held, theory, work)
    }

    /// Puts the assumed literals on the trail, and learns from the conflicts of that. Answers the clause that refutes them, if one does.
    fn begin<T: Theory>(
        &mut self,
        log: &mut Log,
        held: &mut Vec<Held>,
        theory: &mut T,
        assumed: &[Lit],
        work: &mut Work<Note>,
    ) -> Result<Option<ClauseId>, Stop>
        requires search { IsSearch log.old held.old.items self.old }
        requires none { self.old.trail.entries ≡ [] }
        requires named { All (λ l. Contains self.old.atoms l.atom) assumed.now }
        requires consistent { AreConsistent assumed.now }
        requires noted { IsNoted log.old held.old.items self.old work.old }
        requires of { T.is_of theory.old log.old.atoms self.old.atoms }
        requires told { T.has_told theory.old [] }
        ensures steps { Steps (state_of T.is_over T.has_told T.is_feasible T.is_of T.is_at theory.old) (state_of T.is_over T.has_told T.is_feasible T.is_of T.is_at theory.new)
            self.old (assumed_entries assumed.now) self.new log.old log.new held.old.items held.new.items work.old work.new result }
        ensures runs { IfOk result (λ r. r ≡ None → Runs log.new held.new.items assumed.now self.old self.new work.new) }
        ensures refuted { IfOk result (λ r. IfSome r (λ id. IsLive log.new id × Refutes assumed.now (literals_at log.new id))) }
        ensures left { IfOk result (λ r. IfSome r (λ _. HoldsWatched log.new held.new.items self.new.propagation)) }
    {
        if let Some(falsified) = self.assume_all(log, assumed)? {
            return Ok(Some(self.refute(*held.allocator(), log, falsified)?));
        }
        self.settle(log, held, theory, work)
    }

    /// Searches for truths of atoms under which each clause has a true literal that needs one, and each assumed one is true. Answers the clause
    /// that refutes the assumed literals, if one does.
    pub fn run<T: Theory>(
        &mut self,
        log: &mut Log,
        held: &mut Vec<Held>,
        theory: &mut T,
        assumed: &[Lit],
        work: &mut Work<Note>,
    ) -> Result<Option<ClauseId>, Stop>
        requires search { IsSearch log.old held.old.items self.old }
        requires none { self.old.trail.entries ≡ [] }
        requires named { All (λ l. Contains self.old.atoms l.atom) assumed.now }
        requires consistent { AreConsistent assumed.now }
        requires noted { IsNoted log.old held.old.items self.old work.old }
        requires of { T.is_of theory.old log.old.atoms self.old.atoms }
        requires told { T.has_told theory.old [] }
        ensures steps { Steps (state_of T.is_over T.has_told T.is_feasible T.is_of T.is_at theory.old) (state_of T.is_over T.has_told T.is_feasible T.is_of T.is_at theory.new)
            self.old (assumed_entries assumed.now) self.new log.old log.new held.old.items held.new.items work.old work.new result }
        ensures satisfied { IfOk result (λ r. r ≡ None → Satisfies log.new held.new.items assumed.now self.old.atoms self.new work.new) }
        ensures refuted { IfOk result (λ r. IfSome r (λ id. IsLive log.new id × Refutes assumed.now (literals_at log.new id))) }
        ensures left { IfOk result (λ r. IfSome r (λ _. HoldsWatched log.new held.new.items self.new.propagation)) }
    {
        if let Some(refuted) = self.begin(log, held, theory, assumed, work)? {
            return Ok(Some(refuted));
        }
        while let Some(atom) = self.next(log, held) {
            if let Some(found) = self.turn(log, held, theory, work, atom)? {
                return Ok(Some(found));
            }
        }
        Ok(None)
    }
}
