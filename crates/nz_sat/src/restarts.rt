//! When a search begins anew from no decision: after as many conflicts as the numbers of Luby, Sinclair and Zuckerman say ("Optimal speedup of Las
//! Vegas algorithms", 1993).

/// So many conflicts are one of these numbers. Each learned clause stays for the whole check, so a restart costs more here than where clauses are
/// forgotten.
const UNIT: u64 = 3000;

/// The conflicts up to the next restart.
#[derive(Clone, Copy, Debug, PartialEq, Eq)]
pub struct Restarts {
    left: u64,
    // The numbers come in runs of powers of 2, from 1 to the greatest one that divides the number of the run.
    run: u64,
    number: u64,
}

impl Restarts {
    /// Before the first conflict.
    pub fn new() -> Restarts {
        Restarts {
            left: UNIT,
            run: 1,
            number: 1,
        }
    }

    /// Counts a conflict. Answers whether the search begins anew.
    pub fn conflict(&mut self) -> bool {
        self.left = self.left.saturating_sub(1);
        if self.left > 0 {
            return false;
        }
        self.advance();
        self.left = self.number.saturating_mul(UNIT);
        true
    }

    /// Goes on to the next number: 1, 1, 2, 1, 1, 2, 4, ..
    fn advance(&mut self) {
        let power = self.run & self.run.wrapping_neg();
        if self.number == power {
            self.run = self.run.saturating_add(1);
            self.number = 1;
        } else {
            self.number = self.number.saturating_mul(2);
        }
    }
}
