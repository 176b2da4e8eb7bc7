//! Which exchange comes next, by a rule.
use crate::system::{Cell, Limits};
use crate::tableau::{Move, Row, Tableau, Variable};

/// What is smaller isn't divided by.
pub(crate) const LEAST_PIVOT: f64 = 1e-7;

/// By what sums are compared that are broken: by how far a sum is from its bound, or its point from the points that meet it.
#[derive(Clone, Copy, Debug, PartialEq, Eq)]
pub(crate) enum Severity {
    Amount,
    Distance,
}

/// By what exchanges are compared: by how many forms are broken then, or by how far in all.
#[derive(Clone, Copy, Debug, PartialEq, Eq)]
pub(crate) enum Harm {
    Count,
    Amount,
}

/// What decides between exchanges.
#[derive(Clone, Copy, Debug)]
pub(crate) struct Rule {
    pub severity: Severity,
    pub harm: Harm,
}

/// A row whose form breaks a bound.
#[derive(Clone, Copy, Debug)]
struct Broken {
    row: usize,
    bound: f64,
    is_short: bool,
    is_fixed: bool,
    severity: f64,
}

/// What speaks against an exchange: the harm that it does, and then how many coefficients may join.
#[derive(Clone, Copy, Debug)]
struct Cost {
    harm: f64,
    fill: usize,
}

impl Broken {
    /// Whether it is to be mended first: a form that may have one value alone, and then the one that is broken most.
    fn is_before(&self, other: &Broken) -> bool {
        if self.is_fixed != other.is_fixed {
            return self.is_fixed;
        }
        other.severity < self.severity
    }
}

impl Cost {
    fn is_below(&self, other: &Cost) -> bool {
        self.harm < other.harm || self.harm == other.harm && self.fill < other.fill
    }
}

/// The exchange that comes next. `None` where no bound is broken, or no form can help.
pub(crate) fn choose(tableau: &Tableau, rule: Rule) -> Option<Move> {
    let broken = first_broken(tableau, rule)?;
    let row = tableau.rows.get(broken.row)?;
    let mut best: Option<(Cost, Move)> = None;
    for cell in &row.cells {
        if can_help(tableau, &broken, cell) {
            let exchange = Move {
                row: broken.row,
                bound: broken.bound,
                entering: *cell,
            };
            let cost = cost_of(tableau, row, &exchange, rule);
            if best.is_none_or(|(least, _)| cost.is_below(&least)) {
                best = Some((cost, exchange));
            }
        }
    }
    best.map(|(_, exchange)| exchange)
}

/// The row that is to be mended first.
fn first_broken(tableau: &Tableau, rule: Rule) -> Option<Broken> {
    let mut first: Option<Broken> = None;
    for row in 0..tableau.rows.len() {
        if let Some(broken) = broken_at(tableau, rule, row) {
            if first.is_none_or(|first| broken.is_before(&first)) {
                first = Some(broken);
            }
        }
    }
    first
}

/// How the form of a row breaks a bound, where it does.
fn broken_at(tableau: &Tableau, rule: Rule, number: usize) -> Option<Broken> {
    let row = tableau.rows.get(number)?;
    let form = tableau.forms.get(row.basic)?;
    let bound = form.limits.broken_by(form.value)?;
    let amount = (form.value - bound).abs();
    Some(Broken {
        row: number,
        bound,
        is_short: form.value < bound,
        is_fixed: form.limits.is_fixed(),
        severity: match rule.severity {
            Severity::Amount => amount,
            Severity::Distance => amount / row.length(),
        },
    })
}

/// Whether a nonbasic form has room to go where it takes a broken row to its bound.
fn can_help(tableau: &Tableau, broken: &Broken, cell: &Cell) -> bool {
    if cell.coefficient.abs() < LEAST_PIVOT {
        return false;
    }
    let up = broken.is_short == (0.0 < cell.coefficient);
    match tableau.forms.get(cell.column) {
        Some(form) => form.limits.has_room(form.value, up),
        None => false,
    }
}

/// What speaks against an exchange of the form of this row.
fn cost_of(tableau: &Tableau, row: &Row, exchange: &Move, rule: Rule) -> Cost {
    let entering = exchange.entering.column;
    let Some(form) = tableau.forms.get(entering) else {
        return Cost { harm: 0.0, fill: 0 };
    };
    let way = tableau.way(row, exchange);
    let mut harm = harm_to(form, way, rule.harm);
    for number in &form.rows {
        if let Some(other) = tableau.rows.get(*number) {
            harm += harm_to_row(tableau, other, entering, way, rule.harm);
        }
    }
    let others = form.rows.len().saturating_sub(1);
    Cost {
        harm,
        fill: others.saturating_mul(row.cells.len().saturating_sub(1)),
    }
}

/// How much more the form of a row is broken where a nonbasic one goes this way.
fn harm_to_row(tableau: &Tableau, row: &Row, entering: usize, way: f64, harm: Harm) -> f64 {
    match tableau.forms.get(row.basic) {
        Some(form) if !form.limits.is_free() => {
            let coefficient = row.at(entering).unwrap_or(0.0);
            harm_to(form, way * coefficient, harm)
        }
        _ => 0.0,
    }
}

/// How much more a form is broken where it goes this way.
fn harm_to(form: &Variable, way: f64, harm: Harm) -> f64 {
    harm_at(&form.limits, form.value + way, harm) - harm_at(&form.limits, form.value, harm)
}

fn harm_at(limits: &Limits, value: f64, harm: Harm) -> f64 {
    match harm {
        Harm::Amount => limits.excess(value),
        Harm::Count if limits.broken_by(value).is_some() => 1.0,
        Harm::Count => 0.0,
    }
}
