//! Shared terms: a table in which equal terms have one number, and assignments to its constants.
//!
//! A term is named by its number, and the numbers of its arguments are below it. `cut` takes back the terms that a
//! refused command made.
#![tactic(auto)]

mod assign;
mod companions;
mod fact_table;
mod facts;
mod heads;
mod instances;
mod leaves;
mod listings;
mod nodes;
mod order;
mod stops;
mod symbols;
mod term_lits;
mod terms;

pub use assign::{Assign, Value};
pub use companions::add_companions;
pub use heads::{Constant, Head, NumberSort, Operator, Sort, operators_are_no_leaves};
pub use instances::instance;
pub use listings::{companion, listing_order};
pub use nodes::{Node, TermId};
pub use order::post_order;
pub use stops::ArithmeticStop;
pub use term_lits::TermLit;
pub use terms::{Terms, grows_twice, known_table};
