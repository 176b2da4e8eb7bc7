//! Learned clauses that serve least, once they outnumber the others many times: they slow each search, and what they say follows from the others.
ghost use Rattle.std.specs.Prelude.{◌≡◌, ℕ, List};
ghost use Rattle.nz_spec.specs.terms.Table.{Node};
ghost use Rattle.nz_search.specs.Levels.{Level};
ghost use Rattle.nz_engine.specs.Keeping.{KeepsClauses};
ghost use Rattle.nz_engine.specs.Preparing.{IsPrepared};

use super::Prepared;
use nz_log::ClauseId;
use nz_sat::Held;

/// Where they are no more than this, each learned clause stays.
const FEW: usize = 2000;

/// Those stay too whose literals were of no more levels: they serve most (Audemard and Simon, "Predicting learnt clauses quality in modern SAT solvers",
/// 2009).
const LEVELS: usize = 2;

impl Prepared {
    /// Forgets the older half of the learned clauses, but for those that serve most, where they outnumber the others many times. Takes no memory.
    pub fn shed(&mut self)
        ensures stands { (ns : List Node) (levels : List Level) (roots : List (List ℕ)) → IsPrepared ns levels roots self.old → IsPrepared ns levels roots self.new }
        ensures keeps { KeepsClauses self.old self.new }
        ensures rest { self.new ≡ record self.old { sat = self.new.sat } }
        ensures theory { self.new.sat.theory ≡ self.old.sat.theory }
    {
        if let Some(middle) = middle_learned(self.sat.clauses()) {
            self.sat.shed(middle, LEVELS);
        }
    }
}

/// The learned clause in the middle of these, where the learned ones outnumber the others more than twice, and are many.
fn middle_learned(held: &[Held]) -> Option<ClauseId> {
    let learned = learned_count(held);
    let others = held.len().saturating_sub(learned);
    if learned <= FEW || learned / 2 <= others {
        return None;
    }
    let mut left = learned / 2;
    for one in held {
        if one.glue > 0 {
            if left == 0 {
                return Some(one.id);
            }
            left -= 1;
        }
    }
    None
}

/// How many of these clauses were learned.
fn learned_count(held: &[Held]) -> usize {
    let mut count: usize = 0;
    for one in held {
        if one.glue > 0 {
            count = count.saturating_add(1);
        }
    }
    count
}
