//! Models of the live constants.
ghost use Rattle.std.specs.Prelude.{◌≡◌, ◌++◌, slice_get, unwrap_or, IfOk, OnOk};
ghost use Rattle.nz_spec.specs.terms.Table.{listed_value};
ghost use Rattle.nz_spec.specs.terms.Term.{default_value as default_at};
ghost use Rattle.nz_term.specs.Constants.{sort_of};
ghost use Rattle.nz_term.specs.Values.{value_of};
ghost use Rattle.nz_sort.specs.Items.{table_numbers};
ghost use Rattle.nz_sort.specs.Live.{constants_by};
ghost use Rattle.nz_session.specs.Completed.{bound_at, completed, completed_values, valued_at};

use nz_base::Memory;
use nz_reply::{Binding, Bindings};
use nz_sort::{Accepted, Live};
use nz_spec::table::assigns_by_number;
use nz_term::{Assign, Head, Sort, TermId, Terms, Value, known_table};
use nz_truth::default_value;
use std::alloc::Global;
use std::rc::Rc;

/// A model that was found.
#[derive(Debug, Drop)]
pub struct FoundModel {
    /// What it binds the live constants to, in their order; one list, shared with the replies that hold the model.
    pub bindings: Rc<Bindings>,
    /// The values of the live constants by their numbers, for the terms that are asked for.
    pub values: Assign,
}

/// The model that an assignment makes of the live constants, and its bindings to be shown: they are one list with those
/// of the model.
pub(crate) fn found_model(
    alloc: Global,
    terms: &Terms,
    live: &Live,
    assign: &Assign,
) -> Result<(FoundModel, Rc<Bindings>), Memory>
    ensures kept { IfOk result (λ p. p.0.bindings.value ≡ completed terms.now assign.now (constants_by live.now)) }
    ensures values { IfOk result (λ p. p.0.values ≡ completed_values terms.now assign.now (constants_by live.now)) }
    ensures shown { IfOk result (λ p. p.1.value ≡ completed terms.now assign.now (constants_by live.now)) }
{
    let (bindings, values) = bindings_of(alloc, terms, live, assign)?;
    let bindings = Rc::new(alloc, bindings)?;
    let shown = bindings.clone()?;
    Ok((FoundModel { bindings, values }, shown))
}

/// What the live constants are bound to by an assignment, with their names and by their numbers.
fn bindings_of(
    alloc: Global,
    terms: &Terms,
    live: &Live,
    assign: &Assign,
) -> Result<(Bindings, Assign), Memory>
    ensures bindings { IfOk result (λ p. p.0 ≡ completed terms.now assign.now (constants_by live.now)) }
    ensures values { IfOk result (λ p. p.1 ≡ completed_values terms.now assign.now (constants_by live.now)) }
{
    let mut bindings = Bindings::new(alloc);
    let mut values = Assign::new(alloc)?;
    for level in live.below() {
        bind_all(&mut bindings, &mut values, terms, level.constants(), assign)?;
    }
    bind_all(
        &mut bindings,
        &mut values,
        terms,
        live.top().constants(),
        assign,
    )?;
    Ok((bindings, values))
}

/// Adds what these constants are bound to: each has the value that the assignment gives it, or else the default of its sort.
fn bind_all(
    bindings: &mut Bindings,
    values: &mut Assign,
    terms: &Terms,
    constants: &[Accepted],
    assign: &Assign,
) -> Result<(), Memory>
    ensures bindings { OnOk result (bindings.new ≡ bindings.old ++ completed terms.now assign.now (table_numbers constants.now)) }
    ensures values { OnOk result (values.new ≡ values.old ++ completed_values terms.now assign.now (table_numbers constants.now)) }
{
    for accepted in constants {
        bind(bindings, values, terms, accepted.term, assign)?;
    }
    Ok(())
}

/// Adds what the constant of this number is bound to.
fn bind(
    bindings: &mut Bindings,
    values: &mut Assign,
    terms: &Terms,
    id: TermId,
    assign: &Assign,
) -> Result<(), Memory>
    ensures bindings { OnOk result (bindings.new ≡ bindings.old ++ bound_at terms.now assign.now (slice_get terms.now id)) }
    ensures values { OnOk result (values.new ≡ values.old ++ valued_at terms.now assign.now id (slice_get terms.now id)) }
{
    assigns_by_number();
    known_table(terms);
    if id >= terms.len() {
        return Ok(());
    }
    let Head::Constant(constant) = terms.head(id) else {
        return Ok(());
    };
    let constant = constant.clone()?;
    values.push(id, value_in(assign, id, constant.sort))?;
    let value = value_in(assign, id, constant.sort);
    bindings.push(Binding { constant, value })
}

/// The value that the assignment gives the constant of this number, or else the default of its sort.
fn value_in(assign: &Assign, id: TermId, sort: Sort) -> Value
    ensures value { value_of result ≡ unwrap_or (listed_value assign.now id) (default_at (sort_of sort)) }
{
    assign.value(id).unwrap_or(default_value(sort))
}
