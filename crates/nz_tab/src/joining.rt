//! Forms that join the rows: units as nonbasic forms, and sums of forms as basic ones.
ghost use Rattle.std.specs.Prelude.{◌≡◌, ◌<◌, ◌≤◌, ◌+◌, ◌*◌, ◌++◌, ◌^◌, replicate, set, slice_index_or, take, All, OnOk, OnErr, length, map, pos, true, vec_capacity, vec_len};
ghost use Rattle.nz_spec.specs.simplex.Basis.{Coefficients};
ghost use Rattle.nz_spec.specs.simplex.BasisMoves.{numbers, plus_multiple};
ghost use Rattle.nz_spec.specs.numbers.Computation.{operated, turned_into};
ghost use Rattle.nz_fractions.specs.Fraction.{Sum, whole};
ghost use Rattle.nz_tab.specs.Comes.{Comes, IsOperated};
ghost use Rattle.nz_tab.specs.Rows.{AreSlotted, Grid, HasRoom, coefficient, coefficients_at, columns_of, is_marked, is_nonbasic, rows_of};
ghost use Rattle.nz_tab.specs.Sums.{HasRoomForSum, IsStoredGrid, IsWidened, SumJoins, SumPushed, all_added, lengthened, next_columns, one_added, sum_over, widened, with_row};

use crate::exchange::with_multiple;
use crate::row::{Row, Var};
use crate::rows::{Room, Rows};
use nz_base::Memory;
use nz_frac::{Frac, Wide};
use nz_term::ArithmeticStop;
use std::alloc::AllocError;

impl Room {
    /// Makes room for an exchange when some units and one sum more have joined these rows.
    pub(crate) fn reserve(&mut self, rows: &Rows, units: usize) -> Result<(), Memory>
        ensures room { OnOk result (HasRoomForSum rows.now units (vec_capacity self.new.columns) (vec_capacity self.new.written) (vec_capacity self.new.solved) (vec_capacity self.new.spare)) }
        ensures columns { vec_capacity self.old.columns ≤ vec_capacity self.new.columns }
        ensures written { vec_capacity self.old.written ≤ vec_capacity self.new.written }
        ensures solved { vec_capacity self.old.solved ≤ vec_capacity self.new.solved }
        ensures spare { vec_capacity self.old.spare ≤ vec_capacity self.new.spare }
    {
        let more = units.checked_add(1).ok_or(Memory)?;
        let count = rows.count().checked_add(more).ok_or(Memory)?;
        let width = rows.width().checked_add(units).ok_or(Memory)?;
        let size = (count - width).checked_mul(width).ok_or(Memory)?;
        self.columns.clear();
        self.columns.reserve(count)?;
        self.written.clear();
        self.written.reserve(count)?;
        self.solved.clear();
        self.solved.reserve(count)?;
        self.spare.clear();
        self.spare.reserve(size)?;
        Ok(())
    }
}

impl Rows {
    /// How many forms are nonbasic.
    pub(crate) fn width(&self) -> usize
        ensures width { result ≡ length (columns_of self.now) }
    {
        self.width
    }

    /// Some units join as nonbasic forms, each with the next column. After an error the rows are as before.
    pub(crate) fn widen(&mut self, units: usize) -> Result<(), Memory>
        ensures widened { OnOk result (self.new ≡ widened self.old units) }
        ensures joined { OnOk result (IsWidened self.old self.new units) }
        ensures unchanged { OnErr result (self.new ≡ self.old) }
    {
        let width = self.width.checked_add(units).ok_or(Memory)?;
        self.nonbasic.reserve(units)?;
        self.places.reserve(units)?;
        reserve_columns(&mut self.rows, units)?;
        put_units(&mut self.nonbasic, &mut self.places, self.width, units);
        put_columns(&mut self.rows, units);
        self.width = width;
        Ok(())
    }

    /// Takes back units that have joined last.
    fn narrow(&mut self, units: usize)
        requires widened { (g : Grid) × IsStoredGrid g × (self.old ≡ widened g units) }
        ensures narrowed { (g : Grid) → IsStoredGrid g → self.old ≡ widened g units → self.new ≡ g }
    {
        let count = self.nonbasic.len() - units;
        let width = self.width - units;
        self.nonbasic.truncate(count);
        self.places.truncate(count);
        cut_columns(&mut self.rows, width);
        self.width = width;
    }

    /// Some units join, and then a sum of forms as basic. After an error the rows are as before.
    pub(crate) fn join(
        &mut self,
        room: &mut Room,
        units: usize,
        addends: &[(Var, Frac)],
    ) -> Result<(), ArithmeticStop>
        requires within { All (λ a. a.0 < length self.old.marks + units) addends.now }
        requires columns { length self.old.marks + units ≤ vec_capacity room.old.columns }
        requires solved { length self.old.marks + units ≤ vec_capacity room.old.solved }
        ensures joined { SumJoins self.old self.new units addends.now result }
        ensures unchanged { OnErr result (self.new ≡ self.old) }
        ensures columns { vec_capacity room.new.columns ≡ vec_capacity room.old.columns }
        ensures written { vec_capacity room.new.written ≡ vec_capacity room.old.written }
        ensures solved { vec_capacity room.old.solved ≤ vec_capacity room.new.solved }
        ensures spare { vec_capacity room.new.spare ≡ vec_capacity room.old.spare }
    {
        // Known to be in order, so that the rows fit again where the units are taken back.
        let _ = &self.rows;
        self.widen(units)?;
        if let Err(stop) = self.push_sum(room, addends) {
            self.narrow(units);
            return Err(stop);
        }
        Ok(())
    }

    /// A sum of forms joins as basic.
    fn push_sum(&mut self, room: &mut Room, addends: &[(Var, Frac)]) -> Result<(), ArithmeticStop>
        requires within { All (λ a. a.0 < length self.old.marks) addends.now }
        requires columns { length self.old.marks ≤ vec_capacity room.old.columns }
        requires solved { length self.old.marks ≤ vec_capacity room.old.solved }
        ensures pushed { SumPushed self.old self.new addends.now result }
        ensures unchanged { OnErr result (self.new ≡ self.old) }
        ensures columns { vec_capacity room.new.columns ≡ vec_capacity room.old.columns }
        ensures written { vec_capacity room.new.written ≡ vec_capacity room.old.written }
        ensures solved { vec_capacity room.old.solved ≤ vec_capacity room.new.solved }
        ensures spare { vec_capacity room.new.spare ≡ vec_capacity room.old.spare }
    {
        // Known to be in order, so that the rows fit beside the one that joins.
        let _ = &self.rows;
        self.sum(room, addends)?;
        self.push(room.solved.as_slice())?;
        Ok(())
    }

    /// Computes the row of a sum of forms, each with its coefficient, from the left.
    pub(crate) fn sum(&self, room: &mut Room, addends: &[(Var, Frac)]) -> Result<(), Wide>
        requires within { All (λ a. a.0 < length self.now.marks) addends.now }
        requires columns { length self.now.marks ≤ vec_capacity room.old.columns }
        requires solved { length self.now.marks ≤ vec_capacity room.old.solved }
        ensures sum { Comes (turned_into (λ c. map c (columns_of self.now)) (sum_over self.now addends.now)) (coefficients_at self.now.places (columns_of self.now) room.new.solved.items) result }
        ensures width { length room.new.solved.items ≡ length (columns_of self.now) }
        ensures columns { vec_capacity room.new.columns ≡ vec_capacity room.old.columns }
        ensures written { vec_capacity room.new.written ≡ vec_capacity room.old.written }
        ensures solved { vec_capacity room.old.solved ≤ vec_capacity room.new.solved }
        ensures spare { vec_capacity room.new.spare ≡ vec_capacity room.old.spare }
    {
        list_marked(&mut room.columns, self.nonbasic.as_slice());
        let columns = room.columns.as_slice();
        put_zeros(&mut room.solved, columns);
        self.add_all(&mut room.solved, columns, addends)
    }

    /// Adds forms with their coefficients to a row, one after another.
    fn add_all(
        &self,
        row: &mut Vec<Frac>,
        columns: &[Var],
        addends: &[(Var, Frac)],
    ) -> Result<(), Wide>
        requires within { All (λ a. a.0 < length self.now.marks) addends.now }
        requires columns { columns.now ≡ columns_of self.now }
        requires width { vec_len row.old ≡ length columns.now }
        ensures added { (c : Coefficients) → coefficients_at self.now.places columns.now row.old.items ≡ map c columns.now → Comes (turned_into (λ d. map d columns.now) (all_added columns.now (is_nonbasic self.now) (rows_of self.now) c addends.now)) (coefficients_at self.now.places columns.now row.new.items) result }
        ensures width { vec_len row.new ≡ vec_len row.old }
        ensures capacity { vec_capacity row.new ≡ vec_capacity row.old }
    {
        for addend in addends {
            self.add_one(row, columns, *addend)?;
        }
        Ok(())
    }

    /// Adds a form with its coefficient to a row: a nonbasic one in its column, a basic one by its row.
    fn add_one(&self, row: &mut Vec<Frac>, columns: &[Var], addend: (Var, Frac)) -> Result<(), Wide>
        requires within { addend.0 < length self.now.marks }
        requires columns { columns.now ≡ columns_of self.now }
        requires width { vec_len row.old ≡ length columns.now }
        ensures added { (c : Coefficients) → coefficients_at self.now.places columns.now row.old.items ≡ map c columns.now → Comes (turned_into (λ d. map d columns.now) (one_added columns.now (is_nonbasic self.now) (rows_of self.now) c addend)) (coefficients_at self.now.places columns.now row.new.items) result }
        ensures width { vec_len row.new ≡ vec_len row.old }
        ensures capacity { vec_capacity row.new ≡ vec_capacity row.old }
    {
        let (var, coefficient) = addend;
        let places = self.places.as_slice();
        if self.is_nonbasic(var) {
            return add_at(row, places[var], coefficient);
        }
        add_multiple(row, places, columns, coefficient, &self.row(var))
    }

    /// A basic form joins with its row.
    pub(crate) fn push(&mut self, row: &[Frac]) -> Result<(), Memory>
        requires width { length row.now ≡ length (columns_of self.old) }
        ensures pushed { OnOk result (self.new ≡ with_row self.old row.now) }
        ensures unchanged { OnErr result (self.new ≡ self.old) }
    {
        self.nonbasic.reserve(1)?;
        self.places.reserve(1)?;
        self.rows.reserve(1)?;
        let row = Vec::from_slice(*self.rows.allocator(), row)?;
        self.nonbasic.push_reserved(false);
        self.places.push_reserved(self.rows.len());
        self.rows.push_reserved(row);
        Ok(())
    }
}

/// Makes room for so many columns more in each row. The rows stay.
fn reserve_columns(rows: &mut Vec<Vec<Frac>>, units: usize) -> Result<(), AllocError>
    ensures rows { map (λ x. x.items) rows.new.items ≡ map (λ x. x.items) rows.old.items }
    ensures room { OnOk result (All (λ x. vec_len x + units ≤ vec_capacity x) rows.new.items) }
{
    for place in 0..rows.len() {
        rows[place].reserve(units)?;
    }
    Ok(())
}

/// So many units are nonbasic, with the columns that follow.
fn put_units(nonbasic: &mut Vec<bool>, places: &mut Vec<usize>, width: usize, units: usize)
    requires marks { vec_len nonbasic.old + units ≤ vec_capacity nonbasic.old }
    requires places { vec_len places.old + units ≤ vec_capacity places.old }
    requires fits { width + units < 2 ^ 64 }
    ensures marks { nonbasic.new.items ≡ nonbasic.old.items ++ replicate units true }
    ensures places { places.new.items ≡ places.old.items ++ next_columns width units }
{
    for unit in 0..units {
        nonbasic.push_reserved(true);
        places.push_reserved(width + unit);
    }
}

/// Each row has the coefficient 0 in so many columns more.
fn put_columns(rows: &mut Vec<Vec<Frac>>, units: usize)
    requires room { All (λ x. vec_len x + units ≤ vec_capacity x) rows.old.items }
    ensures rows { map (λ x. x.items) rows.new.items ≡ map (lengthened units) (map (λ x. x.items) rows.old.items) }
{
    for place in 0..rows.len() {
        lengthen(&mut rows[place], units);
    }
}

/// So many zeros join a row.
fn lengthen(row: &mut Vec<Frac>, units: usize)
    requires room { vec_len row.old + units ≤ vec_capacity row.old }
    ensures lengthened { row.new.items ≡ lengthened units row.old.items }
{
    let filled: Result<(), AllocError> = row.resize(row.len() + units, Frac::whole(0));
    filled.unwrap();
}

/// Cuts rows off behind so many columns.
fn cut_columns(rows: &mut Vec<Vec<Frac>>, width: usize)
    ensures rows { map (λ x. x.items) rows.new.items ≡ map (take width) (map (λ x. x.items) rows.old.items) }
{
    for place in 0..rows.len() {
        rows[place].truncate(width);
    }
}

/// Lists the numbers that are marked.
fn list_marked(columns: &mut Vec<Var>, marks: &[bool])
    requires room { length marks.now ≤ vec_capacity columns.old }
    ensures listed { columns.new.items ≡ numbers (length marks.now) (is_marked marks.now) }
    ensures capacity { vec_capacity columns.new ≡ vec_capacity columns.old }
{
    columns.clear();
    for var in 0..marks.len() {
        if marks[var] {
            columns.push_reserved(var);
        }
    }
}

/// Puts 0 for each column.
fn put_zeros(row: &mut Vec<Frac>, columns: &[Var])
    requires room { length columns.now ≤ vec_capacity row.old }
    ensures zeros { row.new.items ≡ replicate (length columns.now) (whole (pos 0)) }
    ensures width { vec_len row.new ≡ length columns.now }
    ensures capacity { vec_capacity row.old ≤ vec_capacity row.new }
{
    row.clear();
    let filled: Result<(), AllocError> = row.resize(columns.len(), Frac::whole(0));
    filled.unwrap();
}

/// Adds to the coefficient at a place.
fn add_at(row: &mut Vec<Frac>, place: usize, coefficient: Frac) -> Result<(), Wide>
    requires within { place < vec_len row.old }
    ensures added { Comes (turned_into (λ x. set row.old.items place x) (operated Sum (slice_index_or row.old.items place (whole (pos 0))) coefficient)) row.new.items result }
    ensures width { vec_len row.new ≡ vec_len row.old }
    ensures capacity { vec_capacity row.new ≡ vec_capacity row.old }
{
    row[place] = plus(row[place], coefficient)?;
    Ok(())
}

/// The sum of two numbers.
#[tactic(auto, unfolding(nz_fractions::specs::Fraction::first_wide))]
fn plus(left: Frac, right: Frac) -> Result<Frac, Wide>
    ensures sum { IsOperated (operated Sum left right) result }
{
    left.add(right)
}

/// Adds a multiple of a row to another one, column by column.
fn add_multiple(
    row: &mut Vec<Frac>,
    places: &[usize],
    columns: &[Var],
    factor: Frac,
    other: &Row<'_>,
) -> Result<(), Wide>
    requires columns { AreSlotted places.now columns.now (vec_len row.old) }
    ensures added { (c : Coefficients) → coefficients_at places.now columns.now row.old.items ≡ map c columns.now → Comes (turned_into (λ d. map d columns.now) (plus_multiple columns.now c factor (coefficient other.now))) (coefficients_at places.now columns.now row.new.items) result }
    ensures width { vec_len row.new ≡ vec_len row.old }
    ensures capacity { vec_capacity row.new ≡ vec_capacity row.old }
{
    for index in 0..columns.len() {
        let column = columns[index];
        let place = places[column];
        row[place] = with_multiple(row[place], factor, other.at(column))?;
    }
    Ok(())
}
