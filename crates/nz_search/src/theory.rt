//! Theories: what knows more of literals than clauses say.
ghost use Rattle.std.specs.Prelude.{◌≡◌};

use crate::note::Note;
use crate::stop::Stop;
use nz_base::Work;
use nz_log::{ClauseId, Lit, Log};

/// What knows more of bounds than clauses say. It is told literals that are bounds, and tells which of them aren't true together. After an error
/// nothing is known of what it was told.
pub trait Theory: Drop {
    ghost use Rattle.std.specs.Prelude.{◌≡◌, ℕ, ◌≤◌, List, [], ◌∷◌, ◌++◌, length, take, Contains, None, IfErr, IfOk, IfSome, OnOk};
    ghost use Rattle.nz_spec.specs.simplex.Bland.{Point};
    ghost use Rattle.nz_spec.specs.terms.Form.{Part};
    ghost use Rattle.nz_spec.specs.clauses.Literal as spec;
    ghost use Rattle.nz_spec.specs.simplex.LiteralBounds.{moved_by};
    ghost use Rattle.nz_spec.specs.terms.Table.{Node};
    ghost use Rattle.nz_spec.specs.search.Work.{IsSpent};
    ghost use Rattle.nz_log.specs.declared.lits.Lit.{Lit};
    ghost use Rattle.nz_search.specs.declared.stop.Stop.TheVariants as stop;
    ghost use Rattle.nz_log.specs.declared.atoms.Atom.{Atom};
    ghost use Rattle.nz_log.specs.Atoms.{AreWithin, Stay, literal_in};
    ghost use Rattle.nz_log.specs.Leveled.{AreTold};
    ghost use Rattle.nz_log.specs.Sound.{IsLog};
    ghost use Rattle.nz_search.specs.Places.{OnWide};
    ghost use Rattle.nz_search.specs.Theories.{AddsPivots, IsBoundIn, IsClash, IsPlaceOfStep, Leads, MovesOn, told_after};
    ghost use Rattle.nz_log.specs.Growth.{Grows};

    /// It was told just these literals, the oldest first, and none of them was taken back.
    ghost has_told: { Self → List Lit → Type 0 };

    /// What it knows of terms is so in this table.
    ghost is_over: { Self → List Node → Type 0 };

    /// Of these atoms of a log it knows those that are bounds.
    ghost is_of: { Self → List Atom → List ℕ → Type 0 };

    /// So it is where atoms join the log.
    ghost stays: { (t : Self) (old new : List Atom) (ids : List ℕ) → is_of t old ids → Stay old new → is_of t new ids };

    /// Some values meet all that it was told.
    ghost is_feasible: { Self → Type 0 };

    /// Over a table, these are its forms, the literals that it was told, and its point.
    ghost is_at: { Self → List Node → List (List Part) → List spec.Literal → Point → Type 0 };

    /// Tells it that a bound is true. Answers a clause of the log that says why it can't be, if it sees that; then it isn't told.
    ///
    /// # Errors
    ///
    /// `Wide` where the sum that refutes the literal leaves the numbers; `Memory`.
    fn assert_lit(&mut self, log: &mut Log, literal: Lit) -> Result<Option<ClauseId>, Stop>
        requires bound { IsBoundIn log.old literal }
        requires known { (ids : List ℕ) × is_of self.old log.old.atoms ids × Contains ids literal.atom }
        ensures told { (ls : List Lit) → has_told self.old ls → IfOk result (λ r. has_told self.new (told_after ls literal r)) }
        ensures clash { (ls : List Lit) → has_told self.old ls → IfOk result (λ r. IfSome r (IsClash log.new (ls ++ literal ∷ []))) }
        ensures over { (ns : List Node) → is_over self.old ns → is_over self.new ns }
        ensures of { (atoms : List Atom) (ids : List ℕ) → is_of self.old atoms ids → is_of self.new atoms ids }
        // Where it wasn't refuted, a form that it bounds moves to the bound.
        ensures at { (ns : List Node) (fs : List (List Part)) (ls : List spec.Literal) (x : Point) → is_at self.old ns fs ls x → IfOk result (λ r. MovesOn (is_at self.new ns fs) fs ls (literal_in ns log.old.atoms literal) x r) }
        ensures place { (ns : List Node) (fs : List (List Part)) (ls : List spec.Literal) (x : Point) → let l = literal_in ns log.old.atoms literal in
            is_at self.old ns fs ls x → IfErr result (λ e. OnWide e (IsPlaceOfStep ns fs (ls ++ l ∷ []) (moved_by fs l x))) }
        ensures grows { (ls : List Lit) → has_told self.old ls → AreTold log.old (ls ++ literal ∷ []) → Grows log.old log.new }
        // Over a table that has the terms of what it was told, the log stays in order.
        ensures sound { (ls : List Lit) (ns : List Node) (levels : List (List ℕ)) → has_told self.old ls → is_over self.old ns → AreWithin ns log.old.atoms (ls ++ literal ∷ []) → IsLog ns levels log.old → IsLog ns levels log.new }
        ensures unspent { IfErr result (λ e. e ≡ stop.Spent → ⊥) };

    /// Looks for values that meet all that it was told. Answers `None` where it found them, and otherwise a clause of the log that says why there
    /// are none.
    ///
    /// # Errors
    ///
    /// `Spent` where one more unit was wanted than the work list has, `Wide`, and `Memory`.
    fn check(&mut self, log: &mut Log, work: &mut Work<Note>) -> Result<Option<ClauseId>, Stop>
        requires known { (ids : List ℕ) × is_of self.old log.old.atoms ids }
        ensures told { (ls : List Lit) → has_told self.old ls → OnOk result (has_told self.new ls) }
        ensures feasible { IfOk result (λ r. r ≡ None → is_feasible self.new) }
        ensures clash { (ls : List Lit) → has_told self.old ls → IfOk result (λ r. IfSome r (IsClash log.new ls)) }
        ensures over { (ns : List Node) → is_over self.old ns → is_over self.new ns }
        ensures of { (atoms : List Atom) (ids : List ℕ) → is_of self.old atoms ids → is_of self.new atoms ids }
        // The units that are noted are check steps, from where it stood.
        ensures pivots { AddsPivots work.old work.new }
        ensures leads { (ns : List Node) (fs : List (List Part)) (ls : List spec.Literal) (x : Point) → is_at self.old ns fs ls x → Leads (is_at self.new ns fs ls) ns fs ls x work.old work.new result }
        ensures grows { (ls : List Lit) → has_told self.old ls → AreTold log.old ls → Grows log.old log.new }
        ensures sound { (ls : List Lit) (ns : List Node) (levels : List (List ℕ)) → has_told self.old ls → is_over self.old ns → AreWithin ns log.old.atoms ls → IsLog ns levels log.old → IsLog ns levels log.new }
        ensures spent { IfErr result (λ e. e ≡ stop.Spent → IsSpent work.new) };

    /// How many literals it was told. Takes no memory.
    fn mark(&self) -> usize
        ensures count { (ls : List Lit) → has_told self.now ls → result ≡ length ls };

    /// Takes back what it was told after the first literals, so many of them. The point stays. Takes no memory.
    fn undo(&mut self, mark: usize)
        ensures told { (ls : List Lit) → has_told self.old ls → mark ≤ length ls → has_told self.new (take mark ls) }
        ensures over { (ns : List Node) → is_over self.old ns → is_over self.new ns }
        ensures of { (atoms : List Atom) (ids : List ℕ) → is_of self.old atoms ids → is_of self.new atoms ids }
        ensures at { (ns : List Node) (fs : List (List Part)) (ls : List spec.Literal) (x : Point) → is_at self.old ns fs ls x → mark ≤ length ls → is_at self.new ns fs (take mark ls) x };

    /// Whether a bound holds where it stands, as far as it knows: advice on how to decide it, so that nothing has to move. Takes no memory.
    fn holds(&self, literal: Lit) -> Option<bool>;
}

/// The theory of no numbers: whatever it is told can be true, and it has no form. A contract sees how many literals it was told.
#[derive(Debug, Drop)]
pub struct NoNumbers {
    told: usize,
}

impl NoNumbers {
    /// The theory that was told nothing. Takes no memory.
    pub fn new() -> NoNumbers
        ensures none { result.told ≡ 0 }
    {
        NoNumbers { told: 0 }
    }
}

impl Theory for NoNumbers {
    ghost use Rattle.std.specs.Prelude.{◌≡◌, List, [], length, ⊤};
    ghost use Rattle.nz_spec.specs.terms.Table.{Node};
    ghost use Rattle.nz_log.specs.declared.lits.Lit.{Lit};
    ghost use Rattle.nz_search.specs.Theories.{IsWithoutForms};

    ghost has_told = { λ theory ls. theory.told ≡ length ls };

    ghost is_over = { λ theory ns. ⊤ };

    ghost is_of = { λ theory atoms ids. ⊤ };

    ghost stays = { λ theory old new ids of stay. of };

    ghost is_feasible = { λ theory. ⊤ };

    ghost is_at = { λ theory ns fs ls x. IsWithoutForms theory.told fs ls x };

    fn assert_lit(&mut self, _log: &mut Log, _literal: Lit) -> Result<Option<ClauseId>, Stop> {
        match self.told.checked_add(1) {
            Some(told) => {
                self.told = told;
                Ok(None)
            }
            None => Err(Stop::Memory),
        }
    }

    fn check(&mut self, _log: &mut Log, _work: &mut Work<Note>) -> Result<Option<ClauseId>, Stop> {
        Ok(None)
    }

    fn mark(&self) -> usize {
        self.told
    }

    fn undo(&mut self, mark: usize) {
        self.told = mark;
    }

    fn holds(&self, _literal: Lit) -> Option<bool> {
        None
    }
}
