//! Where the steps of a check are noted.
ghost use Rattle.std.specs.Prelude.{◌≡◌, ◌<◌, ◌+◌};

use nz_base::{Entry, Work};
use nz_trail::Var;

/// A list that notes check steps, each of which counts as one unit of work.
pub trait Steps {
    ghost use Rattle.std.specs.Prelude.{ℕ};

    ghost units_left: { Self → ℕ };

    ghost with_step: { Self → ℕ → ℕ → Self };

    /// How many more units there may be.
    fn left(&self) -> u64
        ensures left { result ≡ units_left self.now };

    /// Notes the step that exchanges these forms.
    fn note(&mut self, leaves: Var, enters: Var)
        requires free { 0 < units_left self.old }
        ensures noted { self.new ≡ with_step self.old leaves enters };

    ghost takes_one: { (w : Self) → (i j : ℕ) → 0 < units_left w → units_left (with_step w i j) + 1 ≡ units_left w };
}

impl<T: Drop> Steps for Work<T> {
    ghost use Rattle.std.specs.Prelude.{◌-◌};
    ghost use Rattle.nz_spec.specs.search.Work.{PivotEntry, UnitLine, unit_count, with_line};
    ghost use Rattle.nz_simplex.specs.WorkSteps.{takes_one};

    ghost units_left = { λ w. w.limit - unit_count w.lines };

    ghost with_step = { λ w leaves enters. with_line w (UnitLine (PivotEntry leaves enters)) };

    ghost takes_one = { takes_one };

    fn left(&self) -> u64 {
        Work::left(self)
    }

    fn note(&mut self, leaves: Var, enters: Var) {
        self.unit(Entry::Pivot { leaves, enters }).unwrap();
    }
}
