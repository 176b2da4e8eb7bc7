//! What a conflict teaches: the clause learned, its line in the list of work, and the level that the search goes back to.
ghost use Rattle.std.specs.Prelude.{◌≡◌, ℕ, ◌<◌, ◌++◌, ◌∷◌, [], All, Contains, List, length, map, min, take, vec_capacity, vec_len, IfErr, IfOk, OnErr, OnOk};
ghost use Rattle.nz_spec.specs.simplex.Bland.{Point};
ghost use Rattle.nz_spec.specs.terms.Form as form;
ghost use Rattle.nz_spec.specs.clauses.Literal as spec;
ghost use Rattle.nz_spec.specs.terms.Table.{Node};
ghost use Rattle.nz_spec.specs.search.Work.{IsSpent, unit_count, with_line};
ghost use Rattle.nz_search.specs.declared.stop.Stop.TheVariants as stop;
ghost use Rattle.nz_log.specs.Logs.{IsLive, literals_at};
ghost use Rattle.nz_search.specs.Places.{OnWide};
ghost use Rattle.nz_sat.specs.Conflicts.{HasLast};
ghost use Rattle.nz_sat.specs.Numbers.{numbered};
ghost use Rattle.nz_sat.specs.Sats.{AreHeld, AreOn, HoldsMore, learned_of};
ghost use Rattle.nz_sat.specs.Searching.{Advances, AreFirst, IsConflict, IsSearch, Learns, WasNoted, after_learned, learned_line};
ghost use Rattle.nz_sat.specs.Theories.{Keeps, state_of, told_lits};
ghost use Rattle.nz_sat.specs.Trails.{IsTrail, assigned, below, depth};

use super::{Search, note};
use crate::analyze::{Learned, learned_clause};
use crate::atoms::Atoms;
use crate::clauses::Held;
use nz_base::{Entry, Literals, Memory, Work};
use nz_log::laws::{clauses_are_true, tells_lits};
use nz_log::{ClauseId, Lit, Log};
use nz_search::{Note, Stop, Theory};
use nz_spec::derivation::negation_is_other;
use nz_spec::work::legal_work_goes_on;
use std::alloc::Global;

impl Search {
    /// Learns from a clause in which each literal is false, one of them of the last level: notes the clause learned, goes back to
    /// where it makes a literal true, or to no decision where the search begins anew, and holds it.
    pub(crate) fn learn<T: Theory>(
        &mut self,
        log: &mut Log,
        held: &mut Vec<Held>,
        theory: &mut T,
        work: &mut Work<Note>,
        falsified: ClauseId,
    ) -> Result<(), Stop>
        requires search { IsSearch log.old held.old.items self.old }
        requires first { AreFirst log.old self.old }
        requires conflict { IsConflict log.old held.old.items self.old.trail.entries falsified }
        requires last { HasLast self.old.trail.entries (literals_at log.old falsified) }
        requires decided { 0 < depth self.old.trail.entries }
        requires noted { WasNoted log.old held.old.items self.old work.old }
        requires told { T.has_told theory.old (told_lits self.old.bounds self.old.trail.entries) }
        ensures advances { Advances (state_of T.is_over T.has_told T.is_feasible T.is_of T.is_at theory.old) (state_of T.is_over T.has_told T.is_feasible T.is_of T.is_at theory.new) self.old self.old.trail.entries log.old log.new held.old.items held.new.items work.old work.new result }
        ensures learned { OnOk result (Learns log.new held.new.items self.old self.new work.old work.new) }
        ensures told { OnOk result (T.has_told theory.new (told_lits self.new.bounds self.new.trail.entries)) }
        ensures spent { IfErr result (λ e. e ≡ stop.Spent → IsSpent work.new) }
    {
        tells_lits();
        clauses_are_true();
        negation_is_other();
        legal_work_goes_on();
        let alloc = *held.allocator();
        let learned = learned_clause(
            alloc,
            log,
            &self.trail,
            &mut self.order,
            &mut self.seen,
            &mut self.redundancy,
            falsified,
        )?
        .kept(self.restarts.conflict());
        self.note_learned(log, held, work, learned)?;
        hold(log, held, learned.clause, learned.glue);
        self.go_back(theory, learned);
        let one = Held::learned(log, learned.clause, learned.glue);
        self.propagation.hold(log, one, learned.watched())?;
        Ok(())
    }

    /// Notes a learned clause, once there is room to hold it.
    fn note_learned(
        &self,
        log: &Log,
        held: &mut Vec<Held>,
        work: &mut Work<Note>,
        learned: Learned,
    ) -> Result<(), Stop>
        requires live { IsLive log.now learned.clause }
        requires named { All (λ l. Contains self.now.atoms l.atom) (literals_at log.now learned.clause) }
        ensures held { held.new.items ≡ held.old.items }
        ensures room { OnOk result (vec_len held.new < vec_capacity held.new) }
        ensures noted { OnOk result (work.new ≡ with_line work.old (learned_line self.now.atoms log.now learned)) }
        ensures free { OnOk result (unit_count work.old.lines < work.old.limit) }
        ensures err { OnErr result (work.new ≡ work.old) }
        ensures spent { IfErr result (λ e. e ≡ stop.Spent → IsSpent work.new) }
        ensures narrow { IfErr result (λ e. OnWide e (λ _. ⊥)) }
    {
        held.reserve(1)?;
        let alloc = *held.allocator();
        let lits = by_numbers(alloc, &self.atoms, log.clause(learned.clause))?;
        note(
            work,
            Entry::Learned {
                keep: learned.keep,
                lits,
            },
        )
    }

    /// Goes back to the level that is kept, and where a learned clause asserts its literal there, puts that on the trail.
    fn go_back<T: Theory>(&mut self, theory: &mut T, learned: Learned)
        requires free { assigned (below learned.keep self.old.trail.entries) learned.literal.atom ≡ None }
        requires within { learned.literal.atom < self.old.trail.size }
        requires told { T.has_told theory.old (told_lits self.old.bounds self.old.trail.entries) }
        ensures rest { self.new ≡ record self.old { trail = self.new.trail; propagation = self.new.propagation; order = self.new.order; bounds = self.new.bounds } }
        ensures size { self.new.trail.size ≡ self.old.trail.size }
        ensures order { IsTrail self.new.trail }
        ensures entries { self.new.trail.entries ≡ after_learned self.old.trail.entries learned }
        ensures looked { self.new.propagation ≡ record self.old.propagation { head = min self.old.propagation.head (length (below learned.keep self.old.trail.entries)) } }
        ensures bounds { self.new.bounds ≡ record self.old.bounds { told = min self.old.bounds.told (length (below learned.keep self.old.trail.entries)) } }
        ensures told { T.has_told theory.new (told_lits self.new.bounds self.new.trail.entries) }
        ensures keeps { Keeps (state_of T.is_over T.has_told T.is_feasible T.is_of T.is_at theory.old) (state_of T.is_over T.has_told T.is_feasible T.is_of T.is_at theory.new) }
        ensures at { (ns : List Node) (fs : List (List form.Part)) (ls : List spec.Literal) (x : Point) → T.is_at theory.old ns fs ls x → length ls ≡ length (told_lits self.old.bounds self.old.trail.entries)
            → T.is_at theory.new ns fs (take (length (told_lits self.new.bounds self.new.trail.entries)) ls) x }
    {
        self.cut(theory, learned.keep);
        self.trail.len();
        if learned.keep == learned.level {
            self.trail.imply(learned.literal, learned.clause);
        }
    }
}

/// Adds a learned clause of the log, with literals of so many levels, to those that are held, which have room for it.
fn hold(log: &Log, held: &mut Vec<Held>, id: ClauseId, glue: usize)
    requires live { IsLive log.now id }
    requires held { AreHeld log.now held.old.items }
    requires room { vec_len held.old < vec_capacity held.old }
    ensures more { HoldsMore log.now held.old.items held.new.items }
    ensures held { held.new.items ≡ held.old.items ++ learned_of log.now id glue ∷ [] }
    ensures named { (atoms : List ℕ) → All (λ l. Contains atoms l.atom) (literals_at log.now id) → AreOn log.now atoms held.old.items → AreOn log.now atoms held.new.items }
{
    held.push(Held::learned(log, id, glue)).unwrap();
}

/// These literals by the numbers of their atoms.
fn by_numbers(alloc: Global, atoms: &Atoms, literals: &[Lit]) -> Result<Literals, Memory>
    requires named { All (λ l. Contains atoms.now l.atom) literals.now }
    ensures numbers { IfOk result (λ ps. ps ≡ map (numbered atoms.now) literals.now) }
{
    let mut pairs = Vec::with_capacity(alloc, literals.len())?;
    for literal in literals {
        match atoms.number(literal.atom()) {
            Some(number) => pairs.push((number, literal.sign()))?,
            None => unreachable!(),
        }
    }
    Ok(Literals::new(pairs)?)
}
