//! The theory as a search asks it.
ghost use Rattle.std.specs.Prelude.{◌≡◌, List, IfErr, Ok, false, true};
ghost use Rattle.nz_search.specs.declared.stop.Stop.TheVariants as stop;
ghost use Rattle.nz_spec.specs.simplex.Bland.{Point};
ghost use Rattle.nz_spec.specs.terms.Form.{Part};
ghost use Rattle.nz_spec.specs.clauses.Literal.{Literal};
ghost use Rattle.nz_spec.specs.simplex.LiteralBounds.{position_under};
ghost use Rattle.nz_spec.specs.terms.Table.{Node};
ghost use Rattle.nz_spec.specs.search.Work.{IsSpent};
ghost use Rattle.nz_spec.specs.simplex.Pivots.{MayPivot, Pivot};
ghost use Rattle.nz_search.specs.Places.{OnWide};
ghost use Rattle.nz_search.specs.Theories.{IsPlaceOfStep};
ghost use Rattle.nz_simplex.specs.Checks.{IsRefuted};
ghost use Rattle.nz_simplex.specs.State.{position_over};
ghost use Rattle.nz_reals.specs.Stands.{IsFeasible, IsOver};
ghost use Rattle.nz_reals.specs.Tells.{IsMoved};

use crate::reals::{Reals, stored};
use crate::refute::{both_once, refute};
use nz_base::Work;
use nz_log::{ClauseId, Lit, Log};
use nz_search::{Note, Stop, Theory};
use nz_simplex::laws::{clashes_contradict, literals_say_bounds, sums_stay};
use nz_simplex::{Check, SimplexStop, known_state};
use nz_spec::deciding::telling_sets_bounds;
use nz_spec::derivation::tells_literals;
use nz_spec::form::term_has_its_number;
use nz_spec::infinitesimal::infinitesimals_are_ordered;
use nz_spec::table::one_number;

impl Theory for Reals {
    ghost use Rattle.nz_reals.specs.Stands.{HasTold, IsAt, IsFeasible, IsOf, IsOver};
    ghost use Rattle.nz_reals.specs.Knowing.{of_stays};

    ghost has_told = { HasTold };

    ghost is_over = { IsOver };

    ghost is_of = { IsOf };

    ghost stays = { of_stays };

    ghost is_feasible = { IsFeasible };

    ghost is_at = { IsAt };

    fn assert_lit(&mut self, log: &mut Log, literal: Lit) -> Result<Option<ClauseId>, Stop> {
        telling_sets_bounds();
        infinitesimals_are_ordered();
        one_number();
        tells_literals();
        stored(self);
        match self.tell(literal)? {
            None => Ok(None),
            Some(other) => {
                let clause = refute(self, log, &both_once(literal, other))?;
                Ok(Some(clause))
            }
        }
    }

    fn check(&mut self, log: &mut Log, work: &mut Work<Note>) -> Result<Option<ClauseId>, Stop> {
        clashes_contradict();
        literals_say_bounds();
        sums_stay();
        term_has_its_number();
        tells_literals();
        one_number();
        if self.seek(work)? {
            return Ok(None);
        }
        stored(self);
        let multiples = self.multiples()?;
        let clause = refute(self, log, &multiples)?;
        Ok(Some(clause))
    }

    fn mark(&self) -> usize {
        self.told.len()
    }

    fn undo(&mut self, mark: usize) {
        infinitesimals_are_ordered();
        if let Some(first) = self.told.get(mark) {
            let bounds = first.mark;
            self.simplex.undo(bounds);
            self.told.truncate(mark);
        }
    }

    fn holds(&self, literal: Lit) -> Option<bool> {
        let bounded = self.bounded.get(literal.atom())?;
        let var = bounded.var;
        if var >= self.simplex.len() || !self.simplex.has_value(var) {
            return None;
        }
        Some(
            bounded
                .said(literal.sign())
                .is_met_by(&self.simplex.value(var)),
        )
    }
}

impl Reals {
    /// Looks for a point within all bounds, where the point isn't known to be so. Answers false where bounds contradict.
    fn seek(&mut self, work: &mut Work<Note>) -> Result<bool, Stop>
        ensures moved { IsMoved self.old self.new work.old work.new }
        ensures feasible { result ≡ Ok true → IsFeasible self.new }
        ensures clash { result ≡ Ok false → (ns : List Node) → IsOver self.new ns → IsRefuted ns self.new.simplex }
        ensures place { (ns : List Node) → IsOver self.new ns → IfErr result (λ e. OnWide e (λ place. (fs : List (List Part)) (ls : List Literal) (x : Point) → position_under fs x ls ≡ position_over ns self.new.simplex → IsPlaceOfStep ns fs ls x place)) }
        ensures wanted { (ns : List Node) → IsOver self.new ns → IfErr result (λ e. e ≡ stop.Spent → (p : Pivot) × MayPivot (position_over ns self.new.simplex) p) }
        ensures spent { IfErr result (λ e. e ≡ stop.Spent → IsSpent work.new) }
    {
        stored(self);
        if self.is_known_feasible {
            return Ok(true);
        }
        match self.simplex.check(work) {
            Ok(Check::Feasible) => {
                self.is_known_feasible = true;
                Ok(true)
            }
            Ok(Check::Clash) => Ok(false),
            Err(SimplexStop::Spent) => {
                work.left();
                Err(Stop::Spent)
            }
            Err(SimplexStop::Wide(place)) => {
                known_state(&self.simplex);
                Err(Stop::Wide(place))
            }
        }
    }
}
