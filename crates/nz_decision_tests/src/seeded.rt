//! Seeded problems, whose scripts are answered as the plain decision says.
ghost use Rattle.std.specs.Prelude.{◌<◌};

use crate::patterns::is_satisfiable;
use crate::problem::{
    Assertion, Atom, COMPARISONS, Choice, Comparison, Joint, Literal, NUMBERS, Problem, Relation,
    TRUTHS,
};
use crate::runs::replies_to;
use crate::text::{replies, script};
use std::alloc::Global;
use std::process::Abort;
use std::test::Fail;

/// How many scripts are tried, and how many assertions each has.
const SCRIPTS: u64 = 300;

const ASSERTIONS: usize = 7;

/// Numbers that look random.
#[derive(Debug, Drop)]
struct Seed {
    state: u64,
}

impl Seed {
    /// The next number below a bound, which is from 1 to 100.
    fn below(&mut self, bound: u64) -> u64
        ensures small { result < 100 }
    {
        self.state = self
            .state
            .wrapping_mul(6364136223846793005)
            .wrapping_add(1442695040888963407);
        (self.state >> 33) % bound.clamp(1, 100)
    }

    /// The next number from -n to n, n below 50.
    fn around(&mut self, n: u64) -> i64 {
        let n = n.min(49);
        self.below(2 * n + 1) as i64 - n as i64
    }

    /// The next place in a list of this length.
    fn place(&mut self, length: usize) -> usize {
        self.below(length as u64) as usize
    }

    fn choice(&mut self) -> Option<Choice> {
        if self.below(3) != 0 {
            return None;
        }
        Some(Choice {
            truth: self.place(TRUTHS),
            yes: self.place(NUMBERS),
            no: self.place(NUMBERS),
        })
    }

    fn relation(&mut self) -> Relation {
        match self.below(5) {
            0 => Relation::AtMost,
            1 => Relation::Below,
            2 => Relation::AtLeast,
            3 => Relation::Above,
            _ => Relation::Equal,
        }
    }

    fn comparison(&mut self) -> Comparison {
        let mut factors = [0; NUMBERS];
        for number in 0..NUMBERS {
            factors[number] = self.around(2);
        }
        Comparison {
            factors,
            choice: self.choice(),
            relation: self.relation(),
            halves: self.around(4),
        }
    }

    fn literal(&mut self) -> Literal {
        let atom = if self.below(4) == 0 {
            Atom::Truth(self.place(TRUTHS))
        } else {
            Atom::Compares(self.place(COMPARISONS))
        };
        Literal {
            atom,
            sign: self.below(2) == 0,
        }
    }

    fn assertion(&mut self) -> Assertion {
        let joint = match self.below(6) {
            0 => Joint::JustOne,
            1 => Joint::Implies,
            2 => Joint::Alike,
            _ => Joint::Either,
        };
        Assertion {
            joint,
            left: self.literal(),
            right: self.literal(),
        }
    }

    fn problem(&mut self, alloc: Global) -> Result<Problem, Fail> {
        let mut comparisons = Vec::new(alloc);
        for _ in 0..COMPARISONS {
            comparisons.push(self.comparison())?;
        }
        let mut assertions = Vec::new(alloc);
        for _ in 0..ASSERTIONS {
            assertions.push(self.assertion())?;
        }
        Ok(Problem {
            comparisons,
            assertions,
        })
    }
}

/// Whether the script of a problem is satisfiable. Its replies are those that the plain decision has.
fn is_decided(rt: &impl Abort, alloc: Global, problem: &Problem) -> Result<bool, Fail> {
    let satisfiable = is_satisfiable(alloc, problem)?;
    let script = script(alloc, problem)?;
    let out = replies_to(alloc, script.as_str())?;
    let wanted = replies(alloc, problem, satisfiable)?;
    assert!(rt; out.bytes() == wanted.as_bytes(), "{script}");
    Ok(satisfiable)
}

#[test]
fn test_seeded_scripts_are_decided(rt: HostRuntime) -> Result<(), Fail> {
    let mut seed = Seed { state: 14 };
    let mut found = 0u64;
    for _ in 0..SCRIPTS {
        let problem = seed.problem(rt.alloc())?;
        if is_decided(&rt, rt.alloc(), &problem)? {
            found = found.wrapping_add(1);
        }
    }
    // Both answers are tried.
    assert!(rt; 50 < found && found < 250, "{found} are satisfiable");
    Ok(())
}
