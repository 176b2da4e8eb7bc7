//! The bounds that stand of each variable, with undo.
ghost use Rattle.std.specs.Prelude.{◌≡◌, ◌≢◌, ◌↔◌, ◌+◌, ◌-◌, ◌<◌, ◌≤◌, ℕ, length, take, IfOk, OnOk, OnErr};
ghost use Rattle.nz_trail.specs.Bounds.{ClashesWith, IsConsistent, IsExcluded, IsImplied, Stands, asserted, empty_trail, with_bound};
ghost use Rattle.nz_trail.specs.declared.limits.Side.TheVariants.{Lower, Upper};

use crate::limits::{AssertOutcome, Limit, Limits, Reason, Side, Var, excluding, is_implied};
use nz_base::Memory;
use nz_delta::Scalar;
use std::alloc::Global;
use std::marker::Model;

/// A bound that was tighter than the one that stood, and that one.
#[derive(Clone, Copy, Debug)]
struct Entry<S> {
    var: Var,
    side: Side,
    limit: Limit<S>,
    replaced: Option<Limit<S>>,
}

/// Variables and their bounds. A contract sees how many variables there are, and the bounds that were asserted, each tighter than
/// those of its variable and side before it, the oldest first.
#[derive(Debug, Drop)]
pub struct Trail<S: Scalar> {
    // By variable.
    limits: Vec<Limits<S>>,
    entries: Vec<Entry<S>>,
}

impl<S: Scalar> Model for Trail<S> {
    ghost use Rattle.nz_trail.specs.Bounds.{TrailState};

    ghost Value = { TrailState S };

    ghost use Rattle.nz_trail.specs.Stored.{IsTabled, state_of};

    ghost view = { λ t. state_of t.limits.items t.entries.items };

    ghost invariant = { λ t. IsTabled S.order t.limits.items t.entries.items };
}

impl<S: Scalar> Trail<S> {
    /// A trail without variables. Takes no memory.
    pub fn new(alloc: Global) -> Self
        ensures empty { result ≡ empty_trail }
    {
        Trail {
            limits: Vec::new(alloc),
            entries: Vec::new(alloc),
        }
    }

    /// How many variables there are.
    pub fn len(&self) -> usize
        ensures count { result ≡ self.now.vars }
    {
        self.limits.len()
    }

    /// One variable more, without bounds. They are numbered in order, from 0.
    ///
    /// # Errors
    ///
    /// `Memory` where there is no room for it. Then the trail is as before.
    pub fn add_var(&mut self) -> Result<Var, Memory>
        ensures number { IfOk result (λ v. v ≡ self.old.vars) }
        ensures added { OnOk result (self.new ≡ record self.old { vars = self.old.vars + 1 }) }
        ensures unchanged { OnErr result (self.new ≡ self.old) }
    {
        let var = self.limits.len();
        self.limits.push(Limits::none())?;
        Ok(var)
    }

    /// How many of the bounds that were asserted are not undone: the place to which `undo` takes them back.
    pub fn mark(&self) -> usize
        ensures count { result ≡ length self.now.asserted }
    {
        self.entries.len()
    }

    /// The lower bound and the upper bound that stand of a variable.
    ///
    /// They are the tightest of all that were asserted and not undone, also of those that were kept: one that is kept is no tighter
    /// than one that stood before it, and what is undone is always the newest.
    pub fn bounds(&self, var: Var) -> (Option<Limit<S>>, Option<Limit<S>>)
        requires known { var < self.now.vars }
        ensures lower { Stands S.order self.now.asserted var Lower result.0 }
        ensures upper { Stands S.order self.now.asserted var Upper result.1 }
        ensures consistent { IsConsistent S.order self.now.asserted }
    {
        let limits = self.limits[var];
        (limits.lower, limits.upper)
    }

    /// Asserts a bound of a variable.
    ///
    /// # Errors
    ///
    /// `Memory` where there is no room for it. Then the trail is as before.
    pub fn assert_bound(
        &mut self,
        var: Var,
        side: Side,
        value: S,
        reason: Reason,
    ) -> Result<AssertOutcome, Memory>
        requires known { var < self.old.vars }
        ensures kept { let b = asserted var side value reason in
            IfOk result (λ o. (o ≡ AssertOutcome.Kept) ↔ IsImplied S.order self.old.asserted b) }

        // A bound that clashes is never implied too, since the bounds of a trail are consistent.
        ensures clash { let b = asserted var side value reason in
            IfOk result (λ o. (r : ℕ) → (s : ℕ) → (o ≡ AssertOutcome.Clash r s) ↔ ((r ≡ reason) × ClashesWith S.order self.old.asserted b s)) }
        ensures tighter { let b = asserted var side value reason in
            IfOk result (λ o. (o ≡ AssertOutcome.Tighter) ↔ ((¬ IsImplied S.order self.old.asserted b) × (¬ IsExcluded S.order self.old.asserted b))) }

        ensures grown { result ≡ Ok AssertOutcome.Tighter → self.new ≡ with_bound self.old (asserted var side value reason) }
        ensures unchanged { result ≢ Ok AssertOutcome.Tighter → self.new ≡ self.old }

        // Only a bound that is to stand takes memory.
        ensures memory { let b = asserted var side value reason in
            OnErr result ((¬ IsImplied S.order self.old.asserted b) × (¬ IsExcluded S.order self.old.asserted b)) }
    {
        match self.judge(var, side, value, reason) {
            AssertOutcome::Tighter => {
                self.put(var, side, Limit { value, reason })?;
                Ok(AssertOutcome::Tighter)
            }
            outcome => Ok(outcome),
        }
    }

    /// What comes of a bound, by what stands.
    fn judge(&self, var: Var, side: Side, value: S, reason: Reason) -> AssertOutcome
        requires known { var < self.now.vars }
        ensures kept { (result ≡ AssertOutcome.Kept) ↔ IsImplied S.order self.now.asserted (asserted var side value reason) }
        ensures clash { let b = asserted var side value reason in
            (r : ℕ) → (s : ℕ) → (result ≡ AssertOutcome.Clash r s) ↔ ((r ≡ reason) × ClashesWith S.order self.now.asserted b s) }
        ensures tighter { let b = asserted var side value reason in
            (result ≡ AssertOutcome.Tighter) ↔ ((¬ IsImplied S.order self.now.asserted b) × (¬ IsExcluded S.order self.now.asserted b)) }
    {
        let limits = self.limits[var];
        if is_implied(side, value, limits.on(side)) {
            return AssertOutcome::Kept;
        }
        match excluding(side, value, limits.on(side.other())) {
            Some(other) => AssertOutcome::Clash(reason, other.reason),
            None => AssertOutcome::Tighter,
        }
    }

    /// Puts a bound on the trail that is tighter than what stands and agrees with it.
    fn put(&mut self, var: Var, side: Side, limit: Limit<S>) -> Result<(), Memory>
        requires known { var < self.old.vars }
        requires tighter { ¬ IsImplied S.order self.old.asserted (asserted var side limit.value limit.reason) }
        requires agreeing { ¬ IsExcluded S.order self.old.asserted (asserted var side limit.value limit.reason) }
        ensures grown { OnOk result (self.new ≡ with_bound self.old (asserted var side limit.value limit.reason)) }
        ensures unchanged { OnErr result (self.new ≡ self.old) }
    {
        let limits = self.limits[var];
        self.entries.push(Entry {
            var,
            side,
            limit,
            replaced: limits.on(side),
        })?;
        self.limits[var] = limits.with(side, Some(limit));
        Ok(())
    }

    /// Takes the newest bound back.
    fn pop(&mut self)
        requires some { 0 < length self.old.asserted }
        ensures front { self.new ≡ record self.old { asserted = take (length self.old.asserted - 1) self.old.asserted } }
    {
        let entry = self.entries.pop().unwrap();
        let limits = self.limits[entry.var];
        self.limits[entry.var] = limits.with(entry.side, entry.replaced);
    }

    /// Takes the newest bounds back, so that as many are left as there were at the mark. The variables stay. Takes no memory.
    pub fn undo(&mut self, mark: usize)
        requires reached { mark ≤ length self.old.asserted }
        ensures front { self.new ≡ record self.old { asserted = take mark self.old.asserted } }
    {
        while self.mark() > mark {
            self.pop();
        }
    }
}
