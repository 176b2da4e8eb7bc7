//! A simplex in doubles, over sparse rows: where its forms stand, and how an exchange changes that.
use crate::system::{Cell, Limits, System, TOLERANCE};
use nz_base::Memory;
use std::alloc::Global;
use std::mem;

/// A basic form, and its coefficients by the rising numbers of nonbasic ones.
#[derive(Debug, Drop)]
pub(crate) struct Row {
    pub basic: usize,
    pub cells: Vec<Cell>,
}

/// An exchange of the basic form of a row, which goes to a bound, with a nonbasic one.
#[derive(Clone, Copy, Debug)]
pub(crate) struct Move {
    pub row: usize,
    pub bound: f64,
    pub entering: Cell,
}

/// A unit or a sum: its bounds, its value, and the numbers of the rows that have a coefficient at it.
#[derive(Debug, Drop)]
pub(crate) struct Variable {
    pub limits: Limits,
    pub value: f64,
    pub rows: Vec<usize>,
}

/// The forms of a system, its units and behind them its sums, and the rows of those that are basic.
#[derive(Debug, Drop)]
pub(crate) struct Tableau {
    alloc: Global,
    pub forms: Vec<Variable>,
    pub rows: Vec<Row>,
    // How many coefficients were computed.
    pub changes: usize,
}

impl Row {
    /// The coefficient at a nonbasic form, if it has one.
    pub(crate) fn at(&self, column: usize) -> Option<f64> {
        let place = self
            .cells
            .binary_search_by_key(&column, |cell| cell.column)
            .ok()?;
        Some(self.cells.get(place)?.coefficient)
    }

    /// The length of the row as a vector of coefficients.
    pub(crate) fn length(&self) -> f64 {
        let mut square = 0.0;
        for cell in &self.cells {
            square += cell.coefficient * cell.coefficient;
        }
        square.sqrt()
    }
}

impl Tableau {
    /// Each unit is nonbasic, within its bounds as near to 0 as it can be, and each sum basic.
    pub(crate) fn new(system: &System) -> Result<Tableau, Memory> {
        let mut tableau = Tableau {
            alloc: system.alloc,
            forms: Vec::new(system.alloc),
            rows: Vec::new(system.alloc),
            changes: 0,
        };
        for limits in &system.units {
            tableau.add_form(*limits, limits.broken_by(0.0).unwrap_or(0.0))?;
        }
        for sum in &system.sums {
            tableau.add_row(&sum.cells)?;
            tableau.add_form(sum.limits, tableau.value_of(&sum.cells))?;
        }
        Ok(tableau)
    }

    fn add_form(&mut self, limits: Limits, value: f64) -> Result<(), Memory> {
        self.forms.push(Variable {
            limits,
            value,
            rows: Vec::new(self.alloc),
        })?;
        Ok(())
    }

    /// Adds the row of the form that comes next.
    fn add_row(&mut self, cells: &[Cell]) -> Result<(), Memory> {
        let row = self.rows.len();
        let mut own = Vec::with_capacity(self.alloc, cells.len())?;
        for cell in cells {
            self.list(cell.column, row)?;
            own.push(*cell)?;
        }
        self.rows.push(Row {
            basic: self.forms.len(),
            cells: own,
        })?;
        Ok(())
    }

    /// The value of a sum of forms.
    fn value_of(&self, cells: &[Cell]) -> f64 {
        let mut sum = 0.0;
        for cell in cells {
            sum += cell.coefficient * self.value(cell.column);
        }
        sum
    }

    /// Lists that a row has a coefficient at a form.
    fn list(&mut self, form: usize, row: usize) -> Result<(), Memory> {
        if let Some(form) = self.forms.get_mut(form) {
            form.rows.push(row)?;
        }
        Ok(())
    }

    /// Lists no more that a row has a coefficient at a form.
    fn strike(&mut self, form: usize, row: usize) {
        if let Some(form) = self.forms.get_mut(form) {
            form.rows.retain(|other| *other != row);
        }
    }

    /// The value of a form.
    pub(crate) fn value(&self, form: usize) -> f64 {
        match self.forms.get(form) {
            Some(form) => form.value,
            None => 0.0,
        }
    }

    /// In how many rows a form has a coefficient.
    pub(crate) fn rows_at(&self, form: usize) -> usize {
        match self.forms.get(form) {
            Some(form) => form.rows.len(),
            None => 0,
        }
    }

    /// Of each form whether it is basic.
    pub(crate) fn are_basic(&self) -> Result<Vec<bool>, Memory> {
        let mut basic = Vec::with_capacity(self.alloc, self.forms.len())?;
        basic.resize(self.forms.len(), false)?;
        for row in &self.rows {
            if let Some(one) = basic.get_mut(row.basic) {
                *one = true;
            }
        }
        Ok(basic)
    }

    /// How far the nonbasic form goes in an exchange, after which the basic form of the row is at the bound.
    pub(crate) fn way(&self, row: &Row, exchange: &Move) -> f64 {
        (exchange.bound - self.value(row.basic)) / exchange.entering.coefficient
    }

    /// Carries an exchange out.
    pub(crate) fn exchange(&mut self, exchange: &Move) -> Result<(), Memory> {
        let Some(row) = self.rows.get(exchange.row) else {
            return Ok(());
        };
        let leaving = row.basic;
        let entering = exchange.entering.column;
        let way = self.way(row, exchange);
        let solved = solved_for(self.alloc, row, &exchange.entering)?;
        for number in self.take_rows(entering) {
            if number != exchange.row {
                self.substitute(number, &solved, way)?;
            }
        }
        self.go(entering, way);
        if let Some(form) = self.forms.get_mut(leaving) {
            form.value = exchange.bound;
        }
        self.list(leaving, exchange.row)?;
        if let Some(row) = self.rows.get_mut(exchange.row) {
            *row = solved;
        }
        Ok(())
    }

    /// Takes the list of the rows that have a coefficient at a form.
    fn take_rows(&mut self, form: usize) -> Vec<usize> {
        let none = Vec::new(self.alloc);
        match self.forms.get_mut(form) {
            Some(form) => mem::replace(&mut form.rows, none),
            None => none,
        }
    }

    /// Puts the row of a form that enters in its place in a row, whose form goes along.
    fn substitute(&mut self, number: usize, solved: &Row, way: f64) -> Result<(), Memory> {
        let none = Vec::new(self.alloc);
        let Some(row) = self.rows.get_mut(number) else {
            return Ok(());
        };
        let Some(factor) = row.at(solved.basic) else {
            return Ok(());
        };
        let basic = row.basic;
        let cells = mem::replace(&mut row.cells, none);
        let sum = self.merged(number, &cells, solved, factor)?;
        if let Some(row) = self.rows.get_mut(number) {
            row.cells = sum;
        }
        self.go(basic, way * factor);
        Ok(())
    }

    /// The cells of a row with so many times those of the form that enters, in the place of that form.
    fn merged(
        &mut self,
        number: usize,
        cells: &[Cell],
        solved: &Row,
        factor: f64,
    ) -> Result<Vec<Cell>, Memory> {
        let count = cells.len().saturating_add(solved.cells.len());
        let mut sum = Vec::with_capacity(self.alloc, count)?;
        let mut old = cells;
        for added in &solved.cells {
            old = self.pass(old, added.column, solved.basic, &mut sum)?;
            let more = added.coefficient * factor;
            self.changes = self.changes.saturating_add(1);
            match old.split_first() {
                Some((cell, rest)) if cell.column == added.column => {
                    old = rest;
                    let coefficient = cell.coefficient + more;
                    if coefficient.abs() < TOLERANCE {
                        self.strike(cell.column, number);
                    } else {
                        sum.push(Cell {
                            column: cell.column,
                            coefficient,
                        })?;
                    }
                }
                _ => {
                    self.list(added.column, number)?;
                    sum.push(Cell {
                        column: added.column,
                        coefficient: more,
                    })?;
                }
            }
        }
        self.pass(old, usize::MAX, solved.basic, &mut sum)?;
        Ok(sum)
    }

    /// Passes on the cells below a column, but that of the form that enters, and answers the others.
    fn pass<'b>(
        &self,
        cells: &'b [Cell],
        column: usize,
        entering: usize,
        sum: &mut Vec<Cell>,
    ) -> Result<&'b [Cell], Memory> {
        let place = cells.partition_point(|cell| cell.column < column);
        for cell in cells.get(..place).unwrap_or(&[]) {
            if cell.column != entering {
                sum.push(*cell)?;
            }
        }
        Ok(cells.get(place..).unwrap_or(&[]))
    }

    /// Moves a form.
    fn go(&mut self, form: usize, way: f64) {
        if let Some(form) = self.forms.get_mut(form) {
            form.value += way;
        }
    }
}

/// A row solved for a nonbasic form.
fn solved_for(alloc: Global, row: &Row, entering: &Cell) -> Result<Row, Memory> {
    let inverse = 1.0 / entering.coefficient;
    let mut cells = Vec::with_capacity(alloc, row.cells.len())?;
    let mut own = Some(Cell {
        column: row.basic,
        coefficient: inverse,
    });
    for cell in &row.cells {
        if let Some(first) = own.filter(|own| own.column < cell.column) {
            cells.push(first)?;
            own = None;
        }
        if cell.column != entering.column {
            cells.push(Cell {
                column: cell.column,
                coefficient: -(cell.coefficient * inverse),
            })?;
        }
    }
    if let Some(last) = own {
        cells.push(last)?;
    }
    Ok(Row {
        basic: entering.column,
        cells,
    })
}
