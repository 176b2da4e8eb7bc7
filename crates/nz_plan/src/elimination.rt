//! The exchanges that lead from the first basis of a system to another one, sparse rows and columns first.
use crate::choice::LEAST_PIVOT;
use crate::system::{Cell, System};
use crate::tableau::{Move, Tableau};
use nz_base::Memory;

/// A sum becomes nonbasic, and a unit basic.
#[derive(Clone, Copy, Debug)]
pub struct Exchange {
    pub sum: usize,
    pub unit: usize,
}

/// The exchanges that lead to the basis of another tableau of the system, as far as they are found.
pub(crate) fn eliminate(system: &System, end: &Tableau) -> Result<Vec<Exchange>, Memory> {
    let mut exchanges = Vec::new(system.alloc);
    let mut tableau = Tableau::new(system)?;
    let basic = end.are_basic()?;
    // Of each sum whether it is to be exchanged still.
    let mut waits = Vec::with_capacity(system.alloc, system.sums.len())?;
    for sum in 0..system.sums.len() {
        let form = system.units.len().saturating_add(sum);
        waits.push(!is_set(&basic, form))?;
    }
    for _ in 0..system.sums.len() {
        let Some(sum) = shortest(&tableau, &waits) else {
            break;
        };
        if let Some(wait) = waits.get_mut(sum) {
            *wait = false;
        }
        if let Some(entering) = rarest(&tableau, &basic, sum, system.units.len()) {
            exchanges.push(Exchange {
                sum,
                unit: entering.column,
            })?;
            tableau.exchange(&Move {
                row: sum,
                bound: 0.0,
                entering,
            })?;
        }
    }
    Ok(exchanges)
}

fn is_set(list: &[bool], number: usize) -> bool {
    list.get(number).copied().unwrap_or(false)
}

/// The sum that waits whose row has the fewest coefficients.
fn shortest(tableau: &Tableau, waits: &[bool]) -> Option<usize> {
    let mut best: Option<(usize, usize)> = None;
    for (sum, row) in tableau.rows.iter().enumerate() {
        if is_set(waits, sum) && best.is_none_or(|(least, _)| row.cells.len() < least) {
            best = Some((row.cells.len(), sum));
        }
    }
    best.map(|(_, sum)| sum)
}

/// Of the units in the row of a sum that are to be basic, the one in the fewest rows; of several the one whose coefficient is nearest to 1 or -1.
fn rarest(tableau: &Tableau, basic: &[bool], sum: usize, units: usize) -> Option<Cell> {
    let row = tableau.rows.get(sum)?;
    let mut best: Option<(usize, f64, Cell)> = None;
    for cell in &row.cells {
        if cell.column < units
            && is_set(basic, cell.column)
            && LEAST_PIVOT < cell.coefficient.abs()
        {
            let count = tableau.rows_at(cell.column);
            let oddness = (cell.coefficient.abs() - 1.0).abs();
            if best.is_none_or(|(least, odd, _)| count < least || count == least && oddness < odd) {
                best = Some((count, oddness, *cell));
            }
        }
    }
    best.map(|(_, _, cell)| cell)
}
