//! Laws of terms that are covered.
ghost use Rattle.nz_cform.specs.Laws.{CoversStay, RowsMeetTables, RowsNameCovered};

use nz_log::laws::{atoms_of_terms, axioms_are_taken, gates_are_named, gates_name_arguments};
use nz_spec::form::units_are_parts;
use nz_spec::table::{one_number, term_of_node, term_stays};

/// What is covered stays so when the table grows, when another clause is put, when atoms join, when a search has learned, and when log and clause form drop the same levels.
pub fn covers_stay()
    ensures stay { CoversStay }
{
    term_stays();
    atoms_of_terms();
}

/// The clauses of the tables name covered terms alone.
pub fn rows_name_covered()
    ensures named { RowsNameCovered }
{
    units_are_parts();
    term_of_node();
    one_number();
    gates_are_named();
    gates_name_arguments();
    axioms_are_taken();
}

/// Truths and worths that meet the clauses in a log meet the tables.
pub fn rows_meet_tables()
    ensures met { RowsMeetTables }
{
    term_of_node();
    gates_are_named();
    axioms_are_taken();
}
