//! Units and sums of units with their bounds.
use nz_base::Memory;
use nz_trail::Side;
use std::alloc::Global;

/// What is below this is taken for a difference of rounding alone, at numbers of size 1.
pub(crate) const TOLERANCE: f64 = 1e-9;

/// A coefficient, and the number of what it stands at.
#[derive(Clone, Copy, Debug)]
pub struct Cell {
    pub column: usize,
    pub coefficient: f64,
}

/// The bounds of a unit or of a sum.
#[derive(Clone, Copy, Debug)]
pub(crate) struct Limits {
    lower: Option<f64>,
    upper: Option<f64>,
}

impl Limits {
    fn none() -> Limits {
        Limits {
            lower: None,
            upper: None,
        }
    }

    /// Takes a bound, where there is none as tight. Answers whether it was taken.
    fn tighten(&mut self, side: Side, bound: f64) -> bool {
        let is_tighter = match side {
            Side::Lower => self.lower.is_none_or(|other| other < bound),
            Side::Upper => self.upper.is_none_or(|other| bound < other),
        };
        if is_tighter {
            match side {
                Side::Lower => self.lower = Some(bound),
                Side::Upper => self.upper = Some(bound),
            }
        }
        is_tighter
    }

    /// Whether there is no bound.
    pub(crate) fn is_free(&self) -> bool {
        self.lower.is_none() && self.upper.is_none()
    }

    /// Whether one value alone is within the bounds.
    pub(crate) fn is_fixed(&self) -> bool {
        match (self.lower, self.upper) {
            (Some(lower), Some(upper)) => upper - lower < TOLERANCE,
            _ => false,
        }
    }

    /// The bound that a value breaks.
    pub(crate) fn broken_by(&self, value: f64) -> Option<f64> {
        let slack = slack_at(value);
        if self.lower.is_some_and(|lower| value < lower - slack) {
            return self.lower;
        }
        self.upper.filter(|upper| *upper + slack < value)
    }

    /// How far a value is outside of the bounds.
    pub(crate) fn excess(&self, value: f64) -> f64 {
        match self.broken_by(value) {
            Some(bound) => (value - bound).abs(),
            None => 0.0,
        }
    }

    /// The side of the bound at which a value is, where it is at one.
    pub(crate) fn side_at(&self, value: f64) -> Option<Side> {
        let slack = slack_at(value);
        if self
            .lower
            .is_some_and(|lower| (value - lower).abs() <= slack)
        {
            return Some(Side::Lower);
        }
        self.upper
            .filter(|upper| (value - *upper).abs() <= slack)
            .map(|_| Side::Upper)
    }

    /// Whether a value within the bounds may go up, or down.
    pub(crate) fn has_room(&self, value: f64, up: bool) -> bool {
        let slack = slack_at(value);
        if up {
            self.upper.is_none_or(|upper| value < upper - slack)
        } else {
            self.lower.is_none_or(|lower| lower + slack < value)
        }
    }
}

/// What is rounding alone at numbers of this size.
fn slack_at(value: f64) -> f64 {
    TOLERANCE * (1.0 + value.abs())
}

/// A unit or a sum, by its number.
#[derive(Clone, Copy, Debug, PartialEq, Eq)]
pub enum Form {
    Unit(usize),
    Sum(usize),
}

/// A sum of units, with its bounds.
#[derive(Debug, Drop)]
pub(crate) struct Sum {
    pub cells: Vec<Cell>,
    pub limits: Limits,
}

/// Units and sums of them, each numbered from 0, with their bounds.
#[derive(Debug, Drop)]
pub struct System {
    pub(crate) alloc: Global,
    pub(crate) units: Vec<Limits>,
    pub(crate) sums: Vec<Sum>,
}

impl System {
    /// No unit and no sum.
    pub fn new(alloc: Global) -> System {
        System {
            alloc,
            units: Vec::new(alloc),
            sums: Vec::new(alloc),
        }
    }

    /// Adds a unit without bounds, and answers its number.
    ///
    /// # Errors
    ///
    /// `Memory`.
    pub fn add_unit(&mut self) -> Result<usize, Memory> {
        let number = self.units.len();
        self.units.push(Limits::none())?;
        Ok(number)
    }

    /// Adds a sum without bounds, and answers its number. Its cells stand at units, at each once at most.
    ///
    /// # Errors
    ///
    /// `Memory`.
    pub fn add_sum(&mut self, mut cells: Vec<Cell>) -> Result<usize, Memory> {
        let number = self.sums.len();
        cells.sort_unstable_by_key(|cell| cell.column);
        self.sums.push(Sum {
            cells,
            limits: Limits::none(),
        })?;
        Ok(number)
    }

    /// Bounds a unit or a sum from a side, where it is there. Answers whether this bound is tighter than what there was.
    pub fn limit(&mut self, form: Form, side: Side, bound: f64) -> bool {
        match form {
            Form::Unit(unit) => match self.units.get_mut(unit) {
                Some(limits) => limits.tighten(side, bound),
                None => false,
            },
            Form::Sum(sum) => match self.sums.get_mut(sum) {
                Some(sum) => sum.limits.tighten(side, bound),
                None => false,
            },
        }
    }

    /// The form of a number among the units and, behind them, the sums.
    pub(crate) fn form(&self, number: usize) -> Form {
        match number.checked_sub(self.units.len()) {
            None => Form::Unit(number),
            Some(sum) => Form::Sum(sum),
        }
    }
}
