//! Starts, of which the cheapest is taken.
use crate::choice::{Harm, Rule, Severity, choose};
use crate::elimination::{Exchange, eliminate};
use crate::system::{Form, System};
use crate::tableau::Tableau;
use nz_base::Memory;
use nz_trail::Side;

/// By which rule a start is sought first.
const FIRST_RULE: Rule = Rule {
    severity: Severity::Distance,
    harm: Harm::Amount,
};

/// By which rules it is sought then.
const OTHER_RULES: [Rule; 3] = [
    Rule {
        severity: Severity::Distance,
        harm: Harm::Count,
    },
    Rule {
        severity: Severity::Amount,
        harm: Harm::Amount,
    },
    Rule {
        severity: Severity::Amount,
        harm: Harm::Count,
    },
];

/// How many exchanges are made for each sum at most.
const EXCHANGES: usize = 4;

/// How many rows are looked at at most: each exchange looks at all.
const LOOKS: usize = 40_000_000;

/// How much the search for a start may cost: beyond that it costs more than it saves.
const DEAREST: usize = 4_000_000;

/// No other start is sought where one costs no more than this.
const CHEAP: usize = 20_000;

/// A nonbasic form stands at its bound on a side.
#[derive(Clone, Copy, Debug)]
pub struct Stand {
    pub form: Form,
    pub side: Side,
}

/// The exchanges that lead to a basis on which each sum is basic and each unit nonbasic, and the forms that stand at a bound there.
#[derive(Debug, Drop)]
pub struct Start {
    exchanges: Vec<Exchange>,
    stands: Vec<Stand>,
}

/// How exchanges by a rule went.
#[derive(Debug, Drop)]
struct Attempt {
    tableau: Tableau,
    // Whether it came to its end: no bound is broken, or one can't be met.
    is_whole: bool,
}

impl Start {
    /// A start for the first check of a system, under its bounds.
    ///
    /// # Errors
    ///
    /// `Memory`.
    pub fn new(system: &System) -> Result<Start, Memory> {
        let mut best = Attempt::new(system, FIRST_RULE, DEAREST)?;
        for rule in OTHER_RULES {
            if best.is_cheap() {
                break;
            }
            let attempt = Attempt::new(system, rule, best.limit())?;
            if attempt.is_whole {
                best = attempt;
            }
        }
        Ok(Start {
            exchanges: eliminate(system, &best.tableau)?,
            stands: stands(system, &best.tableau)?,
        })
    }

    /// Which sum is exchanged with which unit, one after another; each stands once at most.
    pub fn exchanges(&self) -> &[Exchange] {
        self.exchanges.as_slice()
    }

    /// Which nonbasic forms stand at which bound then.
    pub fn stands(&self) -> &[Stand] {
        self.stands.as_slice()
    }
}

impl Attempt {
    /// Makes exchanges as long as a bound is broken and one serves, up to a cost.
    fn new(system: &System, rule: Rule, limit: usize) -> Result<Attempt, Memory> {
        let mut tableau = Tableau::new(system)?;
        for _ in 0..most_exchanges(system.sums.len()) {
            if tableau.changes > limit {
                break;
            }
            let Some(exchange) = choose(&tableau, rule) else {
                return Ok(Attempt {
                    tableau,
                    is_whole: true,
                });
            };
            tableau.exchange(&exchange)?;
        }
        Ok(Attempt {
            tableau,
            is_whole: false,
        })
    }

    fn is_cheap(&self) -> bool {
        self.is_whole && self.tableau.changes <= CHEAP
    }

    /// What another attempt may cost to be better.
    fn limit(&self) -> usize {
        if self.is_whole {
            self.tableau.changes
        } else {
            DEAREST
        }
    }
}

/// How many exchanges an attempt makes at most, of so many sums.
fn most_exchanges(sums: usize) -> usize {
    match LOOKS.checked_div(sums) {
        Some(affordable) => affordable.min(sums.saturating_mul(EXCHANGES)),
        None => 0,
    }
}

/// The nonbasic forms of a tableau that stand at a bound.
fn stands(system: &System, tableau: &Tableau) -> Result<Vec<Stand>, Memory> {
    let mut stands = Vec::new(system.alloc);
    let basic = tableau.are_basic()?;
    for (number, variable) in tableau.forms.iter().enumerate() {
        if !basic.get(number).copied().unwrap_or(true) {
            if let Some(side) = variable.limits.side_at(variable.value) {
                stands.push(Stand {
                    form: system.form(number),
                    side,
                })?;
            }
        }
    }
    Ok(stands)
}
