//! A check, over what is kept from the one before.
ghost use Rattle.std.specs.Prelude.{◌≡◌, ◌++◌, ℕ, [], All, List, length, map, take, IfErr, IfOk};
ghost use Rattle.nz_spec.specs.search.Decide.{AreInTable, AreModelValues, IsFrontOfTable, asserted_numbers, asserted_terms};
ghost use Rattle.nz_spec.specs.search.Legal.{AreLegal, IsSpentLegally};
ghost use Rattle.nz_spec.specs.search.Search.{Task};
ghost use Rattle.nz_spec.specs.clauses.Literal.{AreTrueLiterals};
ghost use Rattle.nz_spec.specs.terms.Order.{HasCompanions};
ghost use Rattle.nz_spec.specs.terms.Table.{Node, assignment_by, term_in};
ghost use Rattle.nz_spec.specs.terms.Taken.{IsTaken, IsTakenBoolean};
ghost use Rattle.nz_spec.specs.terms.Term as spec;
ghost use Rattle.nz_term.specs.declared.term_lits.TermLit.{TermLit};
ghost use Rattle.nz_search.specs.declared.stop.Stop.TheVariants as stop;
ghost use Rattle.nz_search.specs.Notes.{noted_list};
ghost use Rattle.nz_place.specs.Places.{IsSiteWithin};
ghost use Rattle.nz_search.specs.Places.{OnWide};
ghost use Rattle.nz_term.specs.TermLits.{AreConsistent, AreOfTerms, literal_of};
ghost use Rattle.nz_search.specs.Asked.{AreListedIn, IsOneMore, NamesParts};
ghost use Rattle.nz_search.specs.Levels.{Level, added_by_level, asserted_by_level, numbers_by_level};
ghost use Rattle.nz_search.specs.Standing.{search_after};
ghost use Rattle.nz_search.specs.Verdicts.{OnSpent};
ghost use Rattle.nz_cform.specs.Covering.{Covers};
ghost use Rattle.nz_engine.specs.Checking.{AreCoveredAmong, HasFound, IsAnswer, IsPosed, IsRootStop, IsStop, IsStopOf, IsUnderWay, MaySearch, Works, terms_named, without_goals};
ghost use Rattle.nz_engine.specs.Engines.{IsKept, IsLow, IsReadied, nothing_kept, prepared_of, theory_of};
ghost use Rattle.nz_engine.specs.Keeping.{IsCutTo, IsKeptTo, IsLowered, KeepsClauses, KeepsLowered, Retains};
ghost use Rattle.nz_engine.specs.Lists.{MayGoOnFrom};
ghost use Rattle.nz_engine.specs.Preparing.{Extends, IsAllAdded, IsPrepared, IsStanding};

use crate::levels::Levels;
use crate::prepared::Prepared;
use nz_base::{Memory, Work};
use nz_cform::laws::{covers_stay, rows_meet_tables};
use nz_log::laws::{atoms_of_terms, clauses_are_true, logs_stay, logs_stay_leveled};
use nz_reals::Reals;
use nz_reals::laws::theories_restart;
use nz_search::{Note, Stop, Verdict};
use nz_spec::deciding::tables_decide;
use nz_spec::form::term_has_its_number;
use nz_spec::table::{assigns_by_number, term_of_node, term_stays};
use nz_spec::work::pivots_are_legal;
use nz_term::{Assign, TermLit, Terms, known_table};
use std::alloc::Global;
use std::mem;

/// What is kept from check to check: all that was prepared, or the theory alone.
#[derive(Drop)]
pub enum Retained {
    Prepared(Prepared),
    Theory(Reals),
}

/// What a check comes to: its answer, and what is kept.
#[derive(Drop)]
pub struct CheckOutcome {
    pub verdict: Verdict,
    pub prepared: Prepared,
}

/// Takes out what is kept, and leaves a theory over no sum. Takes no memory.
pub fn take_kept(alloc: Global, kept: &mut Retained) -> Retained
    ensures taken { result ≡ kept.old }
    ensures left { kept.new ≡ nothing_kept }
{
    mem::replace(kept, Retained::Theory(Reals::new(alloc)))
}

/// What is prepared up to the last of these levels. Takes no memory.
fn cut_to(mut prepared: Prepared, levels: &Levels) -> Retained
    requires kept { (ns : List Node) × (old : List Level) × IsReadied ns old prepared }
    ensures low { (ns : List Node) (old : List Level) → take (length levels.now) old ≡ levels.now → IsReadied ns old prepared → IsLow ns levels.now result }
    ensures keeps { IsCutTo prepared levels.now result }
    ensures theory { theory_of result ≡ prepared.sat.theory }
{
    covers_stay();
    logs_stay_leveled();
    match levels.len().checked_sub(1) {
        Some(last) => {
            prepared.cut(last, levels);
            Retained::Prepared(prepared)
        }
        None => Retained::Theory(prepared.take_theory()),
    }
}

/// What is prepared, if anything is, up to the last of these levels. Takes no memory.
pub fn cut_kept(kept: Retained, levels: &Levels) -> Retained
    requires kept { (ns : List Node) × (old : List Level) × IsKept ns old kept }
    ensures low { (ns : List Node) (old : List Level) → take (length levels.now) old ≡ levels.now → IsKept ns old kept → IsLow ns levels.now result }
    ensures keeps { IsKeptTo kept levels.now result }
    ensures theory { theory_of result ≡ theory_of kept }
{
    match kept {
        Retained::Prepared(prepared) => cut_to(prepared, levels),
        Retained::Theory(theory) => Retained::Theory(theory),
    }
}

/// What is prepared, without what is covered for assumed literals alone. Takes no memory.
pub fn lowered(kept: Retained, levels: &Levels) -> Retained
    requires kept { (ns : List Node) × IsKept ns levels.now kept }
    ensures low { (ns : List Node) → IsKept ns levels.now kept → IsLow ns levels.now result }
    ensures keeps { IsLowered kept levels.now result }
    ensures theory { theory_of result ≡ theory_of kept }
{
    match kept {
        Retained::Prepared(prepared) => {
            if prepared.is_above() {
                cut_to(prepared, levels)
            } else {
                Retained::Prepared(prepared)
            }
        }
        Retained::Theory(theory) => Retained::Theory(theory),
    }
}

/// What is prepared for these levels, without learned clauses that serve least where they are many, or nothing yet.
fn begun(alloc: Global, kept: Retained, levels: &Levels) -> Result<Prepared, Memory>
    requires kept { (ns : List Node) × IsKept ns levels.now kept }
    ensures stands { IfOk result (λ p. (front ns : List Node) → IsFrontOfTable front ns → IsKept front levels.now kept → IsPrepared ns levels.now (added_by_level levels.now) p) }
    ensures keeps { IfOk result (KeepsLowered levels.now kept) }
    ensures theory { IfOk result (λ p. p.sat.theory ≡ theory_of kept) }
{
    logs_stay();
    covers_stay();
    logs_stay_leveled();
    term_stays();
    match lowered(kept, levels) {
        Retained::Prepared(mut prepared) => {
            prepared.shed();
            Ok(prepared)
        }
        Retained::Theory(theory) => Prepared::new(alloc, theory),
    }
}

/// What is prepared, with what is covered for literals that were assumed, or nothing yet.
fn resumed(alloc: Global, kept: Retained) -> Result<Prepared, Memory>
    ensures same { IfOk result (λ p. p ≡ prepared_of kept) }
    ensures stands { IfOk result (λ p. (ns : List Node) (levels : List Level) → IsKept ns levels kept → (more : List ℕ) × IsStanding ns levels more p) }
{
    logs_stay();
    covers_stay();
    logs_stay_leveled();
    match kept {
        Retained::Prepared(prepared) => Ok(prepared),
        Retained::Theory(theory) => Prepared::new(alloc, theory),
    }
}

/// The clauses of what was added and is assumed, for the first check of a list.
fn posed_anew(
    alloc: Global,
    kept: Retained,
    levels: &Levels,
    terms: &Terms,
    assumed: &[TermLit],
) -> Result<Prepared, Stop>
    requires known { AreInTable terms.now (added_by_level levels.now) }
    requires within { AreOfTerms terms.now assumed.now }
    requires taken { All (λ i. IsTakenBoolean (term_in terms.now i)) (asserted_numbers (asserted_by_level levels.now)) }
    requires numbers_taken { All (λ i. IsTaken (term_in terms.now i)) (asserted_numbers (numbers_by_level levels.now)) }
    requires assumed_taken { All (λ l. IsTakenBoolean (term_in terms.now l.term)) assumed.now }
    requires companions { HasCompanions terms.now }
    requires kept { (front : List Node) × IsFrontOfTable front terms.now × IsKept front levels.now kept }
    ensures posed { IfOk result (λ p. IsPosed terms.now levels.now assumed.now p) }
    ensures among { IfOk result (λ p. (ts : List spec.Term) → AreListedIn terms.now levels.now assumed.now ts → AreCoveredAmong terms.now p ts) }
    ensures keeps { IfOk result (KeepsLowered levels.now kept) }
    ensures theory { IfOk result (λ p. p.sat.theory ≡ theory_of kept) }
    ensures stop { IfErr result (IsRootStop terms.now (asserted_numbers (added_by_level levels.now) ++ terms_named assumed.now)) }
{
    known_table(terms);
    term_stays();
    theories_restart();
    let mut prepared = begun(alloc, kept, levels)?;
    prepared.add_terms(terms, levels)?;
    prepared.assume(terms, levels, assumed)?;
    Ok(prepared)
}

/// The same for a later one. All that was added has its clauses, and what was covered for literals that were assumed before stays so.
fn posed_on(
    alloc: Global,
    kept: Retained,
    levels: &Levels,
    terms: &Terms,
    assumed: &[TermLit],
) -> Result<Prepared, Stop>
    requires known { AreInTable terms.now (added_by_level levels.now) }
    requires within { AreOfTerms terms.now assumed.now }
    requires taken { All (λ i. IsTakenBoolean (term_in terms.now i)) (asserted_numbers (asserted_by_level levels.now)) }
    requires numbers_taken { All (λ i. IsTaken (term_in terms.now i)) (asserted_numbers (numbers_by_level levels.now)) }
    requires assumed_taken { All (λ l. IsTakenBoolean (term_in terms.now l.term)) assumed.now }
    requires companions { HasCompanions terms.now }
    requires kept { IsKept terms.now levels.now kept }
    requires all { IsAllAdded levels.now (prepared_of kept) }
    ensures posed { IfOk result (λ p. IsPosed terms.now levels.now assumed.now p) }
    ensures among { IfOk result (λ p. (ts : List spec.Term) → AreListedIn terms.now levels.now assumed.now ts → AreCoveredAmong terms.now (prepared_of kept) ts → AreCoveredAmong terms.now p ts) }
    ensures extends { IfOk result (Extends (prepared_of kept)) }
    ensures keeps { IfOk result (KeepsClauses (prepared_of kept)) }
    ensures stop { IfErr result (IsRootStop terms.now (asserted_numbers (added_by_level levels.now) ++ terms_named assumed.now)) }
{
    known_table(terms);
    let mut prepared = resumed(alloc, kept)?;
    prepared.assume(terms, levels, assumed)?;
    Ok(prepared)
}

/// The clauses of what was added and is assumed, for a check that goes on with a list.
fn posed(
    alloc: Global,
    kept: Retained,
    levels: &Levels,
    terms: &Terms,
    assumed: &[TermLit],
    work: &Work<Note>,
) -> Result<Prepared, Stop>
    requires known { AreInTable terms.now (added_by_level levels.now) }
    requires within { AreOfTerms terms.now assumed.now }
    requires taken { All (λ i. IsTakenBoolean (term_in terms.now i)) (asserted_numbers (asserted_by_level levels.now)) }
    requires numbers_taken { All (λ i. IsTaken (term_in terms.now i)) (asserted_numbers (numbers_by_level levels.now)) }
    requires assumed_taken { All (λ l. IsTakenBoolean (term_in terms.now l.term)) assumed.now }
    requires companions { HasCompanions terms.now }
    requires kept { (front : List Node) × IsFrontOfTable front terms.now × IsKept front levels.now kept }
    requires from { (q : Task) × MayGoOnFrom terms.now levels.now assumed.now q work.now kept }
    ensures may { IfOk result (λ p. (q : Task) → MayGoOnFrom terms.now levels.now assumed.now q work.now kept → MaySearch terms.now levels.now assumed.now q work.now p × MaySearch terms.now levels.now assumed.now (without_goals q) work.now p) }
    ensures keeps { IfOk result (Retains levels.now work.now kept) }
    ensures stop { IfErr result (IsRootStop terms.now (asserted_numbers (added_by_level levels.now) ++ terms_named assumed.now)) }
{
    if work.is_empty() {
        posed_anew(alloc, kept, levels, terms, assumed)
    } else {
        posed_on(alloc, kept, levels, terms, assumed)
    }
}

/// Values of constants under which what is asserted and the assumed literals are true: the truths and the numbers that the search found.
fn model(alloc: Global, terms: &Terms, prepared: &Prepared) -> Result<Assign, Stop>
    requires covers { Covers terms.now prepared.now.log prepared.now.form }
    requires found { (assumed : List TermLit) × HasFound terms.now assumed prepared.now }
    ensures model { IfOk result (λ ps. (levels : List Level) (assumed : List TermLit) → IsPosed terms.now levels assumed prepared.now → HasFound terms.now assumed prepared.now → AreModelValues terms.now (asserted_terms terms.now (asserted_by_level levels)) [] ps × AreTrueLiterals (assignment_by terms.now ps) (map (literal_of terms.now) assumed)) }
    ensures place { (ts : List spec.Term) → AreCoveredAmong terms.now prepared.now ts → IfErr result (λ e. OnWide e (IsStopOf terms.now ts prepared.now.sat.theory)) }
    ensures unspent { IfErr result (λ e. e ≡ stop.Spent → ⊥) }
{
    term_of_node();
    assigns_by_number();
    term_has_its_number();
    rows_meet_tables();
    tables_decide();
    atoms_of_terms();
    prepared.values(alloc, terms)
}

/// Decides whether what is asserted and the assumed literals can all be true.
///
/// # Errors
///
/// `Spent` where one more unit was wanted than the work list has, `Wide` where an operation leaves the numbers, and `Memory`. Then what was prepared is
/// dropped.
pub fn decide(
    alloc: Global,
    kept: Retained,
    levels: &Levels,
    terms: &Terms,
    assumed: &[TermLit],
    work: &mut Work<Note>,
) -> Result<CheckOutcome, Stop>
    requires known { AreInTable terms.now (added_by_level levels.now) }
    requires within { AreOfTerms terms.now assumed.now }
    requires taken { All (λ i. IsTakenBoolean (term_in terms.now i)) (asserted_numbers (asserted_by_level levels.now)) }
    requires numbers_taken { All (λ i. IsTaken (term_in terms.now i)) (asserted_numbers (numbers_by_level levels.now)) }
    requires assumed_taken { All (λ l. IsTakenBoolean (term_in terms.now l.term)) assumed.now }
    requires companions { HasCompanions terms.now }
    requires consistent { AreConsistent assumed.now }
    requires kept { (front : List Node) × IsFrontOfTable front terms.now × IsKept front levels.now kept }
    requires from { (q : Task) × MayGoOnFrom terms.now levels.now assumed.now q work.old kept }
    ensures answer { IfOk result (λ f. IsAnswer terms.now levels.now assumed.now f.prepared.log f.verdict) }
    ensures parts { IfOk result (λ f. NamesParts terms.now levels.now (search_after terms.now work.new)) }
    ensures readied { IfOk result (λ f. IsReadied terms.now levels.now f.prepared) }
    ensures keeps { IfOk result (λ f. Retains levels.now work.old kept f.prepared) }
    // Where this check may be made of the list, from where it leads.
    ensures legal { (q : Task) → MayGoOnFrom terms.now levels.now assumed.now q work.old kept → AreLegal q (noted_list terms.now work.new).lines }
    ensures under_way { IfOk result (λ f. (q : Task) → MayGoOnFrom terms.now levels.now assumed.now q work.old kept → IsUnderWay terms.now levels.now q work.new f.prepared × IsUnderWay terms.now levels.now (without_goals q) work.new f.prepared) }
    ensures works { Works terms.now work.old work.new }
    ensures more { IsOneMore (search_after terms.now work.old) (search_after terms.now work.new) }
    ensures spent { IfErr result (λ s. OnSpent s ((q : Task) → MayGoOnFrom terms.now levels.now assumed.now q work.old kept → IsSpentLegally q (noted_list terms.now work.new))) }
    ensures stopped { IfErr result (λ s. OnWide s (λ p. (q : Task) → MayGoOnFrom terms.now levels.now assumed.now q work.old kept → IsStop terms.now q work.new p)) }
    ensures place_within { IfErr result (λ s. OnWide s (λ p. IsSiteWithin terms.now p.site)) }
{
    clauses_are_true();
    theories_restart();
    pivots_are_legal();
    term_stays();
    term_has_its_number();
    rows_meet_tables();
    atoms_of_terms();
    known_table(terms);
    let mut prepared = posed(alloc, kept, levels, terms, assumed, work)?;
    let refuted = prepared.solve(terms, assumed, work)?;
    match refuted {
        Some(clause) => Ok(CheckOutcome {
            verdict: Verdict::Unsat(clause),
            prepared,
        }),
        None => match model(alloc, terms, &prepared) {
            Ok(values) => Ok(CheckOutcome {
                verdict: Verdict::Sat(values),
                prepared,
            }),
            Err(stop) => Err(stop),
        },
    }
}
