//! The rows of all basic forms. Each form has a slot: a nonbasic one a column, a basic one a row.
ghost use Rattle.std.specs.Prelude.{◌≡◌, ◌<◌, ◌≤◌, ◌+◌, ◌*◌, ◌++◌, ◌≢◌, All, OnOk, OnErr, ℕ, false, pos, true, length, map, vec_len, vec_capacity};
ghost use Rattle.nz_spec.specs.simplex.Basis.{Coefficients};
ghost use Rattle.nz_spec.specs.simplex.BasisMoves.{exchange, exchanged, numbers};
ghost use Rattle.nz_fractions.specs.Fraction.{whole};
ghost use Rattle.nz_spec.specs.terms.Term.{is_zero};
ghost use Rattle.nz_tab.specs.Comes.{Comes, Stops};
ghost use Rattle.nz_tab.specs.Exchanges.{IsExchanged, IsReplaced, IsRewritten, changed_rows, changes, places_exchanged, written_forms};
ghost use Rattle.nz_tab.specs.Rows.{AreSlotted, HasRoom, coefficients_at, empty_grid, is_nonbasic, row_in, row_of, rows_of};

use crate::exchange::{put_sum, solve};
use crate::row::{Row, Var, is_marked, is_none};
use nz_frac::{Frac, Wide};
use std::alloc::{AllocError, Global};
use std::marker::Model;

/// Which forms are nonbasic, and the rows of the others. A contract sees which forms are nonbasic, the slots, and the rows by
/// their slots.
#[derive(Debug, Drop)]
pub(crate) struct Rows {
    // For each form whether it is nonbasic, and its slot: a column where it is, else a row. A form that joins gets the next one.
    pub(crate) nonbasic: Vec<bool>,
    pub(crate) places: Vec<usize>,
    // How many columns there are, and the rows, each with a coefficient for each column.
    pub(crate) width: usize,
    pub(crate) rows: Vec<Vec<Frac>>,
}

impl Model for Rows {
    ghost use Rattle.std.specs.Prelude.{map};
    ghost use Rattle.nz_tab.specs.Rows.{Grid, IsGrid};

    ghost Value = { Grid };

    ghost view = { λ g. record { marks = g.nonbasic.items; places = g.places.items; rows = map (λ x. x.items) g.rows.items } };

    ghost invariant = { λ g. IsGrid g.nonbasic.items g.places.items g.width (map (λ x. x.items) g.rows.items) };
}

/// Room for an exchange: the numbers of the forms that are nonbasic after it, those of the forms whose rows it writes, the row of
/// the form that enters, and the rows that are written.
#[derive(Debug, Drop)]
pub(crate) struct Room {
    pub columns: Vec<Var>,
    pub written: Vec<Var>,
    pub solved: Vec<Frac>,
    pub spare: Vec<Frac>,
}

impl Room {
    /// No room. Takes no memory.
    pub(crate) fn new(alloc: Global) -> Room {
        Room {
            columns: Vec::new(alloc),
            written: Vec::new(alloc),
            solved: Vec::new(alloc),
            spare: Vec::new(alloc),
        }
    }
}

impl Rows {
    /// No form. Takes no memory.
    pub(crate) fn new(alloc: Global) -> Rows
        ensures empty { result ≡ empty_grid }
    {
        Rows {
            nonbasic: Vec::new(alloc),
            places: Vec::new(alloc),
            width: 0,
            rows: Vec::new(alloc),
        }
    }

    /// How many forms there are.
    pub(crate) fn count(&self) -> usize
        ensures count { result ≡ length self.now.marks }
    {
        self.nonbasic.len()
    }

    /// Whether a form is nonbasic.
    pub(crate) fn is_nonbasic(&self, var: Var) -> bool
        ensures nonbasic { result ≡ is_nonbasic self.now var }
    {
        is_marked(self.nonbasic.as_slice(), var)
    }

    /// The row of a basic form.
    pub(crate) fn row(&self, var: Var) -> Row<'_>
        requires listed { var < length self.now.marks }
        requires basic { is_nonbasic self.now var ≡ false }
        ensures row { result ≡ row_of self.now var }
    {
        let places = self.places.as_slice();
        Row::over(
            self.nonbasic.as_slice(),
            places,
            self.rows[places[var]].as_slice(),
        )
    }

    /// Exchanges a basic form with a nonbasic one at which its coefficient isn't 0. Takes no memory.
    pub(crate) fn exchange(&mut self, room: &mut Room, leaves: Var, enters: Var) -> Result<(), Wide>
        requires listed { leaves < length self.old.marks }
        requires basic { is_nonbasic self.old leaves ≡ false }
        requires nonbasic { is_nonbasic self.old enters ≡ true }
        requires nonzero { is_zero (rows_of self.old leaves enters) ≡ false }
        requires room { HasRoom self.old (vec_capacity room.old.columns) (vec_capacity room.old.written) (vec_capacity room.old.solved) (vec_capacity room.old.spare) }
        ensures exchanged { OnOk result (IsExchanged self.old self.new leaves enters) }
        ensures stops { Stops (exchange (length self.old.marks) (is_nonbasic self.old) (rows_of self.old) leaves enters) result }
        ensures unchanged { OnErr result (self.new ≡ self.old) }
        ensures room { HasRoom self.new (vec_capacity room.new.columns) (vec_capacity room.new.written) (vec_capacity room.new.solved) (vec_capacity room.new.spare) }
    {
        // Known to be in order, so that two slots can be exchanged.
        let _ = &self.nonbasic;
        self.list_columns(&mut room.columns, leaves, enters);
        let columns = room.columns.as_slice();
        solve(&mut room.solved, &self.row(leaves), columns, leaves, enters)?;
        let solved = room.solved.as_slice();
        self.list_changed(&mut room.written, leaves, enters);
        self.put_changed(
            &mut room.spare,
            room.written.as_slice(),
            columns,
            solved,
            enters,
        )?;
        room.written.push_reserved(enters);
        put_all(&mut room.spare, solved);
        self.replace(
            columns,
            room.written.as_slice(),
            room.spare.as_slice(),
            leaves,
            enters,
        );
        Ok(())
    }

    /// Whether a form is nonbasic after an exchange.
    fn is_nonbasic_after(&self, leaves: Var, enters: Var, var: Var) -> bool
        ensures nonbasic { result ≡ exchanged (is_nonbasic self.now) leaves enters var }
    {
        if var == leaves {
            true
        } else if var == enters {
            false
        } else {
            self.is_nonbasic(var)
        }
    }

    /// The numbers of the forms that are nonbasic after an exchange.
    fn list_columns(&self, columns: &mut Vec<Var>, leaves: Var, enters: Var)
        requires room { length self.now.marks ≤ vec_capacity columns.old }
        ensures listed { columns.new.items ≡ numbers (length self.now.marks) (exchanged (is_nonbasic self.now) leaves enters) }
        ensures capacity { vec_capacity columns.new ≡ vec_capacity columns.old }
    {
        columns.clear();
        for var in 0..self.count() {
            if self.is_nonbasic_after(leaves, enters, var) {
                columns.push_reserved(var);
            }
        }
    }

    /// The numbers of the forms whose rows change in an exchange.
    fn list_changed(&self, changed: &mut Vec<Var>, leaves: Var, enters: Var)
        requires room { length self.now.marks ≤ vec_capacity changed.old }
        ensures listed { changed.new.items ≡ numbers (length self.now.marks) (changes (is_nonbasic self.now) (rows_of self.now) leaves enters) }
        ensures none { (r : ℕ) → r < length self.now.marks → is_nonbasic self.now r ≡ false → r ≢ leaves → changes (is_nonbasic self.now) (rows_of self.now) leaves enters r ≡ false → rows_of self.now r enters ≡ whole (pos 0) }
        ensures capacity { vec_capacity changed.new ≡ vec_capacity changed.old }
    {
        changed.clear();
        for var in 0..self.count() {
            if self.changes(leaves, enters, var) {
                changed.push_reserved(var);
            }
        }
    }

    /// Whether the row of a form changes in an exchange.
    fn changes(&self, leaves: Var, enters: Var, var: Var) -> bool
        requires listed { var < length self.now.marks }
        ensures changes { result ≡ changes (is_nonbasic self.now) (rows_of self.now) leaves enters var }
        ensures none { result ≡ false → is_nonbasic self.now var ≡ false → var ≢ leaves → rows_of self.now var enters ≡ whole (pos 0) }
    {
        if self.is_nonbasic(var) || var == leaves {
            return false;
        }
        !is_none(self.row(var).at(enters))
    }

    /// What rows change into in an exchange, one behind another.
    fn put_changed(
        &self,
        block: &mut Vec<Frac>,
        changed: &[Var],
        columns: &[Var],
        solved: &[Frac],
        enters: Var,
    ) -> Result<(), Wide>
        requires listed { All (λ r. r < length self.now.marks) changed.now }
        requires basic { All (λ r. is_nonbasic self.now r ≡ false) changed.now }
        requires width { length solved.now ≡ length columns.now }
        requires room { length changed.now * length columns.now ≤ vec_capacity block.old }
        ensures put { (q : Coefficients) → solved.now ≡ map q columns.now → Comes (changed_rows (rows_of self.now) changed.now columns.now enters q) block.new.items result }
        ensures long { OnOk result (vec_len block.new ≡ length changed.now * length columns.now) }
        ensures capacity { vec_capacity block.new ≡ vec_capacity block.old }
    {
        block.clear();
        for var in changed {
            let row = self.row(*var);
            put_sum(block, &row, columns, row.at(enters), solved)?;
        }
        Ok(())
    }

    /// Two forms exchange their slots, and the rows of some forms are written.
    fn replace(
        &mut self,
        columns: &[Var],
        written: &[Var],
        block: &[Frac],
        leaves: Var,
        enters: Var,
    )
        requires listed { leaves < length self.old.marks }
        requires basic { is_nonbasic self.old leaves ≡ false }
        requires nonbasic { is_nonbasic self.old enters ≡ true }
        requires columns { columns.now ≡ numbers (length self.old.marks) (exchanged (is_nonbasic self.old) leaves enters) }
        requires written { written.now ≡ written_forms self.old leaves enters }
        requires block { length block.now ≡ length written.now * length columns.now }
        ensures replaced { IsReplaced self.old self.new leaves enters columns.now written.now block.now }
    {
        self.nonbasic[leaves] = true;
        self.nonbasic[enters] = false;
        exchange_places(&mut self.places, leaves, enters);
        write_rows(
            &mut self.rows,
            self.places.as_slice(),
            columns,
            written,
            block,
        );
    }
}

/// Exchanges the places of two forms.
fn exchange_places(places: &mut Vec<usize>, leaves: Var, enters: Var)
    requires leaves { leaves < vec_len places.old }
    requires enters { enters < vec_len places.old }
    ensures exchanged { places.new.items ≡ places_exchanged places.old.items leaves enters }
{
    let row = places[leaves];
    places[leaves] = places[enters];
    places[enters] = row;
}

/// Writes coefficients, those of one row behind those of another, into the rows of some forms, each at its column.
fn write_rows(
    rows: &mut Vec<Vec<Frac>>,
    places: &[usize],
    columns: &[Var],
    written: &[Var],
    block: &[Frac],
)
    requires columns { AreSlotted places.now columns.now (length columns.now) }
    requires rows { AreSlotted places.now written.now (vec_len rows.old) }
    requires full { All (λ row. length row ≡ length columns.now) (map (λ x. x.items) rows.old.items) }
    requires block { length block.now ≡ length written.now * length columns.now }
    ensures rows { IsRewritten places.now columns.now written.now block.now (length written.now) (map (λ x. x.items) rows.old.items) (map (λ x. x.items) rows.new.items) }
{
    for index in 0..written.len() {
        let row = row_at(block, columns.len(), index);
        write_row(&mut rows[places[written[index]]], places, columns, row);
    }
}

/// Writes coefficients into a row, each at its column.
fn write_row(row: &mut Vec<Frac>, places: &[usize], columns: &[Var], coefficients: &[Frac])
    requires columns { AreSlotted places.now columns.now (vec_len row.old) }
    requires width { length coefficients.now ≡ length columns.now }
    ensures written { coefficients_at places.now columns.now row.new.items ≡ coefficients.now }
    ensures width { vec_len row.new ≡ vec_len row.old }
{
    for index in 0..columns.len() {
        row[places[columns[index]]] = coefficients[index];
    }
}

/// The row of this place, in a block of rows of this width.
fn row_at(block: &[Frac], width: usize, place: usize) -> &[Frac]
    requires within { (place + 1) * width ≤ length block.now }
    ensures row { result.now ≡ row_in block.now width place }
{
    let start = place * width;
    &block[start..start + width]
}

/// Puts coefficients behind others.
fn put_all(rows: &mut Vec<Frac>, row: &[Frac])
    requires room { vec_len rows.old + length row.now ≤ vec_capacity rows.old }
    ensures put { rows.new.items ≡ rows.old.items ++ row.now }
    ensures long { vec_len rows.new ≡ vec_len rows.old + length row.now }
    ensures capacity { vec_capacity rows.old ≤ vec_capacity rows.new }
{
    let extended: Result<(), AllocError> = rows.extend_from_slice(row);
    extended.unwrap();
}
