//! The tables of clauses of terms: the gate table, the link table and the unit table, each with all rows of a term in one call.
#![tactic(auto)]

mod bounds;
mod gates;
mod links;
mod rows;
mod terms;
mod units;

pub use gates::gate_rows;
pub use links::link_rows;
pub use rows::RowLiteral;
pub use units::unit_rows;
