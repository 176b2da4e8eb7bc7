//! Which literals of a clause are redundant: those that its other ones make false by the reasons on the trail (Sörensson and Biere, "Minimizing
//! learned clauses", 2009).
ghost use Rattle.std.specs.Prelude.{◌≡◌, ◌<◌, All, IfSome, Some, length};
ghost use Rattle.nz_log.specs.Logs.{IsLive};
ghost use Rattle.nz_sat.specs.Clauses.{IsImplied};
ghost use Rattle.nz_sat.specs.declared.trail.Assigned.{Assigned};
ghost use Rattle.nz_sat.specs.Trails.{EachBehind, assigned};

use crate::glue::Glue;
use crate::trail::Trail;
use nz_base::Memory;
use nz_log::{AtomId, ClauseId, Link, Lit, Log};
use std::alloc::Global;

/// Reasons of reasons are followed so far.
const DEPTH: usize = 1000;

/// What is known of an atom.
#[derive(Clone, Copy, Debug, PartialEq, Eq)]
enum Finding {
    /// Nothing: it wasn't come to.
    Open,
    /// It is of the clause, and wasn't looked at.
    Listed,
    /// It is of the clause, and isn't redundant.
    Kept,
    /// It is false by the others.
    Redundant,
    /// It isn't false by the literals of the clause, and isn't of it.
    Apart,
}

/// The redundant atoms of a clause, and those behind them that are false by its literals.
#[derive(Debug, Drop)]
pub struct Redundancy {
    // By the numbers of atoms.
    findings: Vec<Finding>,
    // The atoms of the clause that are below the last level, and then those of which something else was found.
    known: Vec<AtomId>,
    // Each behind those that its reason has.
    redundant: Vec<AtomId>,
    // The levels of the clause, each by its last five bits.
    levels: u32,
    pub glue: Glue,
}

impl Redundancy {
    /// Nothing of atoms below a number.
    pub fn new(alloc: Global, size: usize) -> Result<Redundancy, Memory> {
        Ok(Redundancy {
            findings: vec![in alloc; Finding::Open; size]?,
            known: Vec::new(alloc),
            redundant: Vec::new(alloc),
            levels: 0,
            glue: Glue::new(alloc, size)?,
        })
    }

    /// Looks for the redundant ones of the marked atoms that clauses have, a falsified one and those of links.
    ///
    /// # Errors
    ///
    /// `Memory`. Then some weren't looked at.
    pub fn look(
        &mut self,
        log: &Log,
        trail: &Trail,
        seen: &[bool],
        falsified: ClauseId,
        links: &[Link],
    ) -> Result<(), Memory>
        requires live { IsLive log.now falsified }
        requires linked { All (λ k. IsLive log.now k.clause) links.now }
        requires implied { EachBehind (IsImplied log.now) trail.now.entries }
    {
        self.forget();
        self.list(trail, seen, log.clause(falsified))?;
        for link in links {
            self.list(trail, seen, log.clause(link.clause))?;
        }
        let count = self.known.len();
        for i in 0..count {
            if let Some(atom) = self.known.get(i).copied() {
                self.is_covered(log, trail, atom, DEPTH)?;
            }
        }
        Ok(())
    }

    /// The redundant atom that no reason of those that are left has.
    pub fn next(&mut self) -> Option<AtomId>
        ensures fewer { IfSome result (λ _. length self.new.redundant.items < length self.old.redundant.items) }
    {
        self.redundant.pop()
    }

    /// Forgets what was found.
    fn forget(&mut self) {
        while let Some(atom) = self.known.pop() {
            if let Some(finding) = self.findings.get_mut(atom) {
                *finding = Finding::Open;
            }
        }
        self.redundant.clear();
        self.levels = 0;
    }

    /// What is known of an atom.
    fn finding(&self, atom: AtomId) -> Finding {
        match self.findings.get(atom) {
            Some(finding) => *finding,
            None => Finding::Open,
        }
    }

    /// Keeps what was found of an atom.
    fn find(&mut self, atom: AtomId, found: Finding) -> Result<(), Memory> {
        if let Some(finding) = self.findings.get_mut(atom) {
            if *finding == Finding::Open {
                self.known.push(atom)?;
            }
            *finding = found;
        }
        Ok(())
    }

    /// Lists the marked ones of these literals that are below the last level.
    fn list(&mut self, trail: &Trail, seen: &[bool], literals: &[Lit]) -> Result<(), Memory> {
        let last = trail.level();
        for literal in literals {
            let atom = literal.atom();
            let level = trail.level_of(atom);
            if level < last && seen.get(atom) == Some(&true) {
                self.levels |= bit(level);
                self.find(atom, Finding::Listed)?;
            }
        }
        Ok(())
    }

    /// Whether an atom is of the clause, or false by its literals.
    fn is_covered(
        &mut self,
        log: &Log,
        trail: &Trail,
        atom: AtomId,
        depth: usize,
    ) -> Result<bool, Memory>
        requires implied { EachBehind (IsImplied log.now) trail.now.entries }
    {
        let finding = self.finding(atom);
        match finding {
            Finding::Kept | Finding::Redundant => return Ok(true),
            Finding::Apart => return Ok(false),
            Finding::Open | Finding::Listed => {}
        }
        let mut is_redundant = false;
        if let (Some(clause), true) = (self.reason(trail, atom), depth > 0) {
            is_redundant = true;
            for literal in log.clause(clause) {
                let other = literal.atom();
                if other != atom && !self.is_covered(log, trail, other, depth - 1)? {
                    is_redundant = false;
                    break;
                }
            }
        }
        self.conclude(atom, finding, is_redundant)
    }

    /// Keeps what was found of an atom that is of the clause, or was come to from there. Answers whether it is of it, or false by its literals.
    fn conclude(
        &mut self,
        atom: AtomId,
        before: Finding,
        is_redundant: bool,
    ) -> Result<bool, Memory> {
        let found = match before {
            _ if is_redundant => Finding::Redundant,
            Finding::Listed => Finding::Kept,
            _ => Finding::Apart,
        };
        self.find(atom, found)?;
        if is_redundant {
            self.redundant.push(atom)?;
        }
        Ok(found != Finding::Apart)
    }

    /// The reason of an atom, where its level is one of the clause: what another one has is under a decision that the clause knows nothing of.
    fn reason(&self, trail: &Trail, atom: AtomId) -> Option<ClauseId>
        ensures reason { IfSome result (λ c. (e : Assigned) × (assigned trail.now.entries atom ≡ Some e) × (e.reason ≡ Some c)) }
    {
        let entry = trail.assigned(atom)?;
        if self.levels & bit(entry.level) == 0 {
            return None;
        }
        entry.reason
    }
}

/// One bit for a level.
fn bit(level: usize) -> u32 {
    1 << (level % 32)
}
