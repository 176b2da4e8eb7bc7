//! The bounds that are true from the start, as a system in doubles for which a start of the first check is found.
ghost use Rattle.std.specs.Prelude.{◌<◌, All, IfSome, length};
ghost use Rattle.nz_reals.specs.Arranging.{IsBoundAmong, IsSaidAt};
ghost use Rattle.nz_reals.specs.Known.{said_of};

use crate::forms::{Bounded, SideBound, zeroed};
use indexmap::IndexMap;
use nz_base::Memory;
use nz_delta::Delta;
use nz_frac::Frac;
use nz_lin::{Bound, Part};
use nz_log::{Atom, AtomId, Log};
use nz_plan::{Cell, Form, Start, System};
use nz_term::TermId;
use nz_trail::Side;
use std::alloc::Global;
use std::collections::HashMap;
use std::num::nearest_isize_to_f64;

/// What stands for the infinitesimal: a power of 2, small beside the numbers of a script and large beside what is rounded.
const INFINITESIMAL: f64 = 0.0000152587890625;

/// The unit of a part of the sum that an atom bounds; the atom by its place in a list.
#[derive(Clone, Copy, Debug)]
pub(crate) struct UnitAt {
    pub place: usize,
    pub part: usize,
}

/// A sum, by the place of an atom that bounds it, and the unit that is basic in its stead.
#[derive(Clone, Copy, Debug)]
pub(crate) struct Exchanged {
    pub sum: usize,
    pub unit: UnitAt,
}

/// Which sums are exchanged with which units before a first check, one after another, and the places of the atoms at whose bounds forms stand then.
#[derive(Debug, Drop)]
pub(crate) struct Plan {
    pub exchanges: Vec<Exchanged>,
    pub stands: Vec<usize>,
}

/// Where a form is found, and the places of the atoms that bound it most tightly.
#[derive(Clone, Copy, Debug)]
struct FormLimits<T> {
    at: T,
    lower: Option<usize>,
    upper: Option<usize>,
}

/// A system, and where its units and sums are found; a sum by the place of an atom that bounds it.
#[derive(Debug, Drop)]
struct Planned {
    alloc: Global,
    system: System,
    unit_numbers: HashMap<TermId, usize>,
    // By the atoms that the sums are at most 0.
    sum_numbers: IndexMap<Atom, usize>,
    units: Vec<FormLimits<UnitAt>>,
    sums: Vec<FormLimits<usize>>,
}

/// A plan for the first check, under the bounds that these atoms say; truths are by the numbers of atoms.
pub(crate) fn plan_start(
    alloc: Global,
    log: &Log,
    atoms: &[AtomId],
    truths: &[Option<bool>],
) -> Result<Plan, Memory>
    requires within { All (λ i. i < length log.now.atoms) atoms.now }
{
    let mut planned = Planned::new(alloc);
    for place in 0..atoms.len() {
        if let Some((bound, said)) = said_at(log, atoms, truths, place) {
            planned.add(bound, &said, place)?;
        }
    }
    planned.plan()
}

impl<T> FormLimits<T> {
    fn new(at: T) -> FormLimits<T> {
        FormLimits {
            at,
            lower: None,
            upper: None,
        }
    }

    /// Notes the place of the atom that bounds it on a side.
    fn note(&mut self, side: Side, place: usize) {
        match side {
            Side::Lower => self.lower = Some(place),
            Side::Upper => self.upper = Some(place),
        }
    }

    fn on(&self, side: Side) -> Option<usize> {
        match side {
            Side::Lower => self.lower,
            Side::Upper => self.upper,
        }
    }
}

impl Planned {
    fn new(alloc: Global) -> Planned {
        Planned {
            alloc,
            system: System::new(alloc),
            unit_numbers: HashMap::new(alloc),
            sum_numbers: IndexMap::new(alloc),
            units: Vec::new(alloc),
            sums: Vec::new(alloc),
        }
    }

    /// The plan of the system, in places of atoms.
    fn plan(&self) -> Result<Plan, Memory> {
        let start = Start::new(&self.system)?;
        let mut plan = Plan {
            exchanges: Vec::new(self.alloc),
            stands: Vec::new(self.alloc),
        };
        for exchange in start.exchanges() {
            if let (Some(sum), Some(unit)) = (
                self.sums.get(exchange.sum),
                self.units.get(exchange.unit),
            ) {
                plan.exchanges.push(Exchanged {
                    sum: sum.at,
                    unit: unit.at,
                })?;
            }
        }
        for stand in start.stands() {
            if let Some(place) = self.place_of(stand.form, stand.side) {
                plan.stands.push(place)?;
            }
        }
        Ok(plan)
    }

    /// The place of the atom that bounds a form most tightly on a side.
    fn place_of(&self, form: Form, side: Side) -> Option<usize> {
        match form {
            Form::Unit(unit) => self.units.get(unit)?.on(side),
            Form::Sum(sum) => self.sums.get(sum)?.on(side),
        }
    }

    /// Adds what the atom of a place says.
    fn add(&mut self, bound: &Bound, said: &SideBound, place: usize) -> Result<(), Memory> {
        let form = match bound.parts() {
            [part] if is_alone(part) => {
                Form::Unit(self.unit_number(part.unit, UnitAt { place, part: 0 })?)
            }
            parts => {
                for (part, one) in parts.iter().enumerate() {
                    self.unit_number(one.unit, UnitAt { place, part })?;
                }
                Form::Sum(self.sum_number(zeroed(self.alloc, bound)?, place)?)
            }
        };
        let value = rounded_value(&said.value);
        if self.system.limit(form, said.side, value) {
            self.note(form, said.side, place);
        }
        Ok(())
    }

    /// Notes the place of the atom that bounds a form on a side.
    fn note(&mut self, form: Form, side: Side, place: usize) {
        match form {
            Form::Unit(unit) => {
                if let Some(unit) = self.units.get_mut(unit) {
                    unit.note(side, place);
                }
            }
            Form::Sum(sum) => {
                if let Some(sum) = self.sums.get_mut(sum) {
                    sum.note(side, place);
                }
            }
        }
    }

    /// The number of a unit, which is added where it isn't there yet.
    fn unit_number(&mut self, unit: TermId, at: UnitAt) -> Result<usize, Memory> {
        if let Some(there) = self.unit_numbers.get(&unit) {
            return Ok(*there);
        }
        let number = self.system.add_unit()?;
        self.unit_numbers.insert(unit, number)?;
        self.units.push(FormLimits::new(at))?;
        Ok(number)
    }

    /// The number of a sum, which is added where it isn't there yet; it is that of the atom of this place.
    fn sum_number(&mut self, sum: Bound, place: usize) -> Result<usize, Memory> {
        let key = Atom::AtMost(sum);
        if let Some(there) = self.sum_numbers.get(&key) {
            return Ok(*there);
        }
        let cells = self.cells(&key)?;
        let number = self.system.add_sum(cells)?;
        self.sum_numbers.insert(key, number)?;
        self.sums.push(FormLimits::new(place))?;
        Ok(number)
    }

    /// The coefficients of the sum that an atom bounds.
    fn cells(&self, atom: &Atom) -> Result<Vec<Cell>, Memory> {
        let parts = match atom {
            Atom::AtMost(bound) => bound.parts(),
            Atom::Term(_) => &[],
        };
        let mut cells = Vec::with_capacity(self.alloc, parts.len())?;
        for part in parts {
            if let Some(column) = self.unit_numbers.get(&part.unit).copied() {
                cells.push(Cell {
                    column,
                    coefficient: rounded(part.coefficient),
                })?;
            }
        }
        Ok(cells)
    }
}

/// The bound of the atom of a place, and what it says, where its truth is known.
pub(crate) fn said_at<'a>(
    log: &'a Log,
    atoms: &[AtomId],
    truths: &[Option<bool>],
    place: usize,
) -> Option<(&'a Bound, SideBound)>
    requires within { All (λ i. i < length log.now.atoms) atoms.now }
    ensures among { IfSome result (λ r. IsBoundAmong log.now.atoms atoms.now r.0.now) }
    ensures says { IfSome result (λ r. IsSaidAt r.0.now.sides.parts r.0.now.sides.offset (said_of r.1)) }
{
    let atom = atoms.get(place)?;
    let truth = truths.get(*atom).copied()??;
    match log.atom(*atom) {
        Atom::AtMost(bound) => Some((bound, Bounded::new(0, bound).said(truth))),
        Atom::Term(_) => None,
    }
}

/// Whether a part is its unit, up to the sign.
fn is_alone(part: &Part) -> bool {
    part.coefficient == Frac::whole(1) || part.coefficient == Frac::whole(-1)
}

/// The double that is near to a value.
fn rounded_value(value: &Delta) -> f64 {
    rounded(value.c) + rounded(value.k) * INFINITESIMAL
}

/// The double that is near to a number whose parts fit in 64 bits; of a larger part the largest that does is taken.
fn rounded(number: Frac) -> f64 {
    rounded_whole(number.num()) / rounded_whole(number.den())
}

fn rounded_whole(number: i128) -> f64 {
    let nearest = match isize::try_from(number) {
        Ok(number) => number,
        Err(_) if number < 0 => isize::MIN,
        Err(_) => isize::MAX,
    };
    nearest_isize_to_f64(nearest)
}
