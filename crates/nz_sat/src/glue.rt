//! Of how many levels the literals of a clause are: the fewer, the more often it serves (Audemard and Simon, "Predicting learnt clauses quality in modern
//! SAT solvers", 2009).
use crate::trail::Trail;
use nz_base::Memory;
use nz_log::Lit;
use std::alloc::Global;

/// Counts levels.
#[derive(Debug, Drop)]
pub struct Glue {
    // By levels, the count in which each was met last.
    met: Vec<u64>,
    count: u64,
}

impl Glue {
    /// For a trail of atoms below a number.
    pub fn new(alloc: Global, size: usize) -> Result<Glue, Memory> {
        Ok(Glue {
            met: vec![in alloc; 0; size]?,
            count: 0,
        })
    }

    /// Of how many levels these literals are.
    pub fn of(&mut self, trail: &Trail, literals: &[Lit]) -> usize {
        self.count = self.count.saturating_add(1);
        let mut levels: usize = 0;
        for literal in literals {
            if self.meets(trail.level_of(literal.atom())) {
                levels = levels.saturating_add(1);
            }
        }
        levels
    }

    /// Whether a level is met for the first time in this count.
    fn meets(&mut self, level: usize) -> bool {
        match self.met.get_mut(level) {
            Some(last) if *last != self.count => {
                *last = self.count;
                true
            }
            _ => false,
        }
    }
}
