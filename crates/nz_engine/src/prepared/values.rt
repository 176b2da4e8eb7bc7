//! Values of constants: truths that a search found, and numbers that its theory gives.
ghost use Rattle.std.specs.Prelude.{◌≡◌, ◌<◌, ◌++◌, ℕ, All, Bool, Contains, List, flat_map, length, IfErr, IfOk, OnOk};
ghost use Rattle.nz_spec.specs.terms.Table.{term_in};
ghost use Rattle.nz_spec.specs.terms.Term as spec;
ghost use Rattle.nz_search.specs.declared.stop.Stop.TheVariants as stop;
ghost use Rattle.nz_search.specs.Places.{OnWide};
ghost use Rattle.nz_cform.specs.Covering.{Covers};
ghost use Rattle.nz_reals.specs.Chosen.{HasWorths};
ghost use Rattle.nz_reals.specs.Stands.{IsFeasible, IsOver};
ghost use Rattle.nz_engine.specs.Checking.{AreCoveredAmong, AreMarksOf, HasCoveredWorths, IsStopOf, truth_in, value_at};

use super::Prepared;
use nz_base::Memory;
use nz_log::Lit;
use nz_log::laws::atoms_of_terms;
use nz_search::Stop;
use nz_term::{Assign, Head, Sort, TermId, Terms, Value};
use std::alloc::Global;

impl Prepared {
    /// The truths of the constants that the last search found, and the numbers of those in bounds.
    ///
    /// # Errors
    ///
    /// `Wide` where an operation leaves the numbers, and `Memory`.
    pub fn values(&self, alloc: Global, terms: &Terms) -> Result<Assign, Stop>
        requires covers { Covers terms.now self.now.log self.now.form }
        requires over { IsOver self.now.sat.theory terms.now }
        requires feasible { IsFeasible self.now.sat.theory }
        ensures worths { IfOk result (HasCoveredWorths terms.now self.now) }
        // The values are those of covered terms.
        ensures place { (ts : List spec.Term) → AreCoveredAmong terms.now self.now ts → IfErr result (λ e. OnWide e (IsStopOf terms.now ts self.now.sat.theory)) }
        ensures unspent { IfErr result (λ e. e ≡ stop.Spent → ⊥) }
    {
        values_of(alloc, self, terms, self.form.terms())
    }
}

/// The truth of a term, where it has one.
fn truth(prepared: &Prepared, term: TermId) -> Option<bool>
    ensures truth { result ≡ truth_in prepared.now term }
{
    atoms_of_terms();
    let atom = prepared.log.find_term(term)?;
    prepared.sat.truth(Lit::new(atom, true))
}

/// Adds the truth of a term, where it is a constant of sort `Bool` that has one.
fn add_value(
    prepared: &Prepared,
    terms: &Terms,
    term: TermId,
    values: &mut Assign,
) -> Result<(), Memory>
    requires within { term < length terms.now }
    ensures values { OnOk result (values.new ≡ values.old ++ value_at terms.now prepared.now term) }
{
    if let Head::Constant(constant) = terms.head(term) {
        if let Sort::Bool = constant.sort {
            if let Some(truth) = truth(prepared, term) {
                values.push(term, Value::Truth(truth))?;
            }
        }
    }
    Ok(())
}

/// The truths of the constants among these terms, and the numbers that the theory gives.
fn values_of(
    alloc: Global,
    prepared: &Prepared,
    terms: &Terms,
    covered: &[TermId],
) -> Result<Assign, Stop>
    requires within { All (λ t. t < length terms.now) covered.now }
    requires over { IsOver prepared.now.sat.theory terms.now }
    requires feasible { IsFeasible prepared.now.sat.theory }
    ensures worths { IfOk result (λ ps. (marks : List Bool) × AreMarksOf covered.now marks × HasWorths prepared.now.sat.theory terms.now marks (flat_map (value_at terms.now prepared.now) covered.now) ps) }
    ensures place { (ts : List spec.Term) → ((i : ℕ) → Contains covered.now i → Contains ts (term_in terms.now i)) → IfErr result (λ e. OnWide e (IsStopOf terms.now ts prepared.now.sat.theory)) }
    ensures unspent { IfErr result (λ e. e ≡ stop.Spent → ⊥) }
{
    let mut values = Assign::new(alloc)?;
    for term in covered {
        add_value(prepared, terms, *term, &mut values)?;
    }
    let is_covered = marks_of(alloc, terms.len(), covered)?;
    prepared
        .sat
        .theory
        .add_values(terms, &is_covered, &mut values)?;
    Ok(values)
}

/// By the numbers of terms, of which there are so many, whether each is among these.
pub(super) fn marks_of(alloc: Global, count: usize, listed: &[TermId]) -> Result<Vec<bool>, Memory>
    requires within { All (λ t. t < count) listed.now }
    ensures marks { IfOk result (λ ms. AreMarksOf listed.now ms.items) }
    ensures long { IfOk result (λ ms. length ms.items ≡ count) }
{
    let mut marks = vec![in alloc; false; count]?;
    for term in listed {
        marks[*term] = true;
    }
    Ok(marks)
}
