//! Rows of the tables of links and units: the literals of clauses, as they are made.
ghost use Rattle.std.specs.Prelude.{◌≡◌, ◌<◌, ◌∷◌, ◌++◌, [], IfOk, List, length};
ghost use Rattle.nz_spec.specs.numbers.Computation.{Computation, at_once};
ghost use Rattle.nz_spec.specs.clauses.Literal as spec;
ghost use Rattle.nz_spec.specs.terms.Table.{Node};
ghost use Rattle.nz_lin.specs.Bounds.{IsLiteral};
ghost use Rattle.nz_rows.specs.Rows as table;
ghost use Rattle.nz_rows.specs.Rows.{ComeOfRows, ComesOfRow};
ghost use Rattle.nz_term.specs.TermLits.{literal_of};

use crate::bounds::Bounded;
use nz_base::Memory;
use nz_lin::Bound;
use nz_term::{ArithmeticStop, TermLit};
use std::alloc::Global;

/// A literal of a row: on a term, or a bound.
#[derive(Debug, Drop)]
pub enum RowLiteral {
    /// A Boolean term is true, or it is false.
    Term(TermLit),
    /// A sum is within a limit.
    Bound(Bound),
}

/// The literals of a row, or the first operation that leaves the numbers on the way to them.
pub(crate) type Row = Result<Vec<RowLiteral>, ArithmeticStop>;

/// Those of rows, one row after another.
pub(crate) type Rows = Result<Vec<Vec<RowLiteral>>, ArithmeticStop>;

// ---- One row

/// The row of a bound.
#[tactic(auto, using(crate::proofs::RowLists::alone_made, crate::proofs::RowLists::front_stops))]
pub(crate) fn alone(alloc: Global, bound: Bounded) -> Row
    ensures row { (ns : List Node) (c : Computation spec.Literal) → IsLiteral ns c bound → ComesOfRow ns (c ∷ []) result }
{
    let bound = bound?;
    Ok(row_of(alloc, RowLiteral::Bound(bound))?)
}

/// The row of two bounds.
#[tactic(auto, using(crate::proofs::Operations::stop_before, crate::proofs::Operations::stop_behind, crate::proofs::RowLists::both_made))]
pub(crate) fn both(alloc: Global, first: Bounded, second: Bounded) -> Row
    ensures row { (ns : List Node) (c d : Computation spec.Literal) → IsLiteral ns c first → IsLiteral ns d second → ComesOfRow ns (c ∷ d ∷ []) result }
{
    let first = first?;
    let second = second?;
    let row = row_of(alloc, RowLiteral::Bound(first))?;
    Ok(with(row, RowLiteral::Bound(second))?)
}

/// The row of a literal on a term and a bound.
#[tactic(auto, using(crate::proofs::RowLists::pair_made, crate::proofs::RowLists::front_stops))]
pub(crate) fn pair(alloc: Global, literal: TermLit, bound: Bounded) -> Row
    ensures row { (ns : List Node) (c : Computation spec.Literal) → literal.term < length ns → IsLiteral ns c bound → ComesOfRow ns (at_once (literal_of ns literal) ∷ c ∷ []) result }
{
    let bound = bound?;
    let row = row_of(alloc, RowLiteral::Term(literal))?;
    Ok(with(row, RowLiteral::Bound(bound))?)
}

/// The row of a literal on a term and two bounds.
#[tactic(auto, using(crate::proofs::Operations::stop_before, crate::proofs::Operations::stop_behind))]
pub(crate) fn triple(alloc: Global, literal: TermLit, first: Bounded, second: Bounded) -> Row
    ensures row { (ns : List Node) (c d : Computation spec.Literal) → literal.term < length ns → IsLiteral ns c first → IsLiteral ns d second → ComesOfRow ns (at_once (literal_of ns literal) ∷ c ∷ d ∷ []) result }
{
    let first = first?;
    let second = second?;
    let row = row_of(alloc, RowLiteral::Term(literal))?;
    let row = with(row, RowLiteral::Bound(first))?;
    Ok(with(row, RowLiteral::Bound(second))?)
}

/// A row of one literal.
fn row_of(alloc: Global, literal: RowLiteral) -> Result<Vec<RowLiteral>, Memory>
    ensures row { IfOk result (λ v. v.items ≡ literal ∷ []) }
{
    with(Vec::new(alloc), literal)
}

/// A row with one literal more.
fn with(row: Vec<RowLiteral>, literal: RowLiteral) -> Result<Vec<RowLiteral>, Memory>
    ensures row { IfOk result (λ v. v.items ≡ row.items ++ literal ∷ []) }
{
    let mut longer = row;
    longer.push(literal)?;
    Ok(longer)
}

// ---- Rows

/// No row.
pub(crate) fn no_rows(alloc: Global) -> Rows
    ensures rows { (ns : List Node) → ComeOfRows ns [] result }
{
    Ok(Vec::new(alloc))
}

/// Rows, and then one more.
#[tactic(auto, using(crate::proofs::RowLists::rows_joined))]
pub(crate) fn then_row(rows: Rows, row: Row) -> Rows
    ensures rows { (ns : List Node) (given : List table.Row) (last : table.Row) → ComeOfRows ns given rows → ComesOfRow ns last row → ComeOfRows ns (given ++ last ∷ []) result }
{
    let mut longer = rows?;
    let row = row?;
    longer.push(row)?;
    Ok(longer)
}

/// Two rows.
pub(crate) fn two_rows(alloc: Global, first: Row, second: Row) -> Rows
    ensures rows { (ns : List Node) (c d : table.Row) → ComesOfRow ns c first → ComesOfRow ns d second → ComeOfRows ns (c ∷ d ∷ []) result }
{
    then_row(then_row(no_rows(alloc), first), second)
}

/// Rows, and then others.
#[tactic(auto, using(crate::proofs::RowLists::second_stops, crate::proofs::RowLists::rows_joined))]
pub(crate) fn joined(rows: Rows, others: Rows) -> Rows
    ensures rows { (ns : List Node) (given more : List table.Row) → ComeOfRows ns given rows → ComeOfRows ns more others → ComeOfRows ns (given ++ more) result }
{
    let mut all = rows?;
    let mut others = others?;
    all.append(&mut others)?;
    Ok(all)
}
