//! What climbs: the trait of a search that makes a goal better, from a model, and its answers.
use crate::decide::Decide;
use crate::note::Note;
use crate::stop::Stop;
use nz_base::Work;
use nz_lin::{Family, Form};
use nz_term::{Assign, TermLit, Terms};

/// Where a climb starts, where it goes, and what it keeps.
#[derive(Clone, Copy, Debug)]
pub struct Route<'a> {
    /// The model that it starts from.
    pub model: &'a Assign,
    /// Literals that are true in the model, and stay so.
    pub assumed: &'a [TermLit],
    /// What is to get better.
    pub goal: &'a Form,
    /// Whether greater is better; else smaller is.
    pub up: bool,
    /// Whether units of sort `Int` keep their values.
    pub hold_ints: bool,
}

/// What a climb found: assignments along lines on which each linear literal that is true in the model stays true.
#[derive(Debug, Drop)]
pub enum Peak {
    /// Nothing that keeps as much is better for the goal than all of these.
    Vertex(Family),
    /// Along these the goal passes every number.
    Ray(Family),
}

/// A search that also climbs.
pub trait Climb: Decide {
    ghost use Rattle.std.specs.Prelude.{◌≡◌, ◌⊎◌, [], length, map, take, IfOk, IfErr, OnOk};
    ghost use Rattle.std.specs.List.{AllByRecursion};
    ghost use Rattle.nz_spec.specs.simplex.Climb.{terms_on};
    ghost use Rattle.nz_spec.specs.search.Decide.{AreInTable, asserted_terms, AreModelValues};
    ghost use Rattle.nz_spec.specs.terms.Form.{IsSum};
    ghost use Rattle.nz_spec.specs.terms.FormOf.{number_in};
    ghost use Rattle.nz_spec.specs.clauses.Links.{IsArithmetic};
    ghost use Rattle.nz_spec.specs.clauses.Literal.{AreTrueLiterals};
    ghost use Rattle.nz_spec.specs.terms.Order.{HasCompanions};
    ghost use Rattle.nz_spec.specs.terms.Table.{assignment_by};
    ghost use Rattle.nz_spec.specs.search.Legal.{AreLegal, IsSpentLegally};
    ghost use Rattle.nz_spec.specs.search.Places.{IsStoppedLegally};
    ghost use Rattle.nz_spec.specs.search.Search.{Task};
    ghost use Rattle.nz_lin.specs.Forms.{AreUnits, form_over};
    ghost use Rattle.nz_term.specs.TermLits.{AreOfTerms, literal_of};
    ghost use Rattle.nz_place.specs.Places.{IsSiteWithin, place_of};
    ghost use Rattle.nz_search.specs.Asked.{IsOneMore, MayClimb};
    ghost use Rattle.nz_search.specs.Levels.{added_by_level, asserted_by_level};
    ghost use Rattle.nz_search.specs.Notes.{AreNotedWithin, noted_list};
    ghost use Rattle.nz_search.specs.Peaks.{IsPeak, route_in};
    ghost use Rattle.nz_search.specs.Places.{OnWide};
    ghost use Rattle.nz_search.specs.Standing.{search_after};
    ghost use Rattle.nz_search.specs.Verdicts.{OnSpent};

    /// Goes from a model to a vertex of the goal, or to a ray along which the goal passes every number. Each linear literal that is true in the
    /// model stays true. What was added isn't changed. The model may be any of what is asserted, not that of the last check alone.
    /// Source: Bjørner, Phan and Fleckenstein, νZ - An Optimizing SMT Solver, TACAS 2015.
    ///
    /// # Errors
    ///
    /// `Spent` where every unit of the work list is used and one more was wanted; `Wide` where an operation leaves the numbers; `Memory`. After each,
    /// what is asserted stands as before.
    fn climb(
        &mut self,
        terms: &Terms,
        route: &Route<'_>,
        work: &mut Work<Note>,
    ) -> Result<Peak, Stop>
        requires table { Self.table self.old ≡ terms.now }
        requires from { (work.old.lines ≡ []) ⊎ ((q : Task) × MayClimb terms.now (Self.levels self.old) route.now q work.old × Self.stands self.old terms.now q work.old) }
        requires known { AreInTable terms.now (added_by_level (Self.levels self.old)) }
        requires companions { HasCompanions terms.now }
        requires within { AreOfTerms terms.now route.now.assumed.now }
        requires sum { IsSum (number_in terms.now) (form_over terms.now route.now.goal.now) }
        requires units { AreUnits terms.now route.now.goal.now.parts }
        // What is asserted, what is assumed and the goal are linear, over arguments of their sorts.
        requires arithmetic { AllByRecursion IsArithmetic (terms_on (route_in terms.now (asserted_by_level (Self.levels self.old)) route.now)) }
        requires model { AreModelValues terms.now (asserted_terms terms.now (asserted_by_level (Self.levels self.old))) [] route.now.model.now }
        requires assumed { AreTrueLiterals (assignment_by terms.now route.now.model.now) (map (literal_of terms.now) route.now.assumed.now) }
        ensures peak { IfOk result (IsPeak terms.now (route_in terms.now (asserted_by_level (Self.levels self.old)) route.now)) }
        ensures lines { take (length work.old.lines) work.new.lines ≡ work.old.lines }
        ensures named { AreNotedWithin terms.now work.new.lines }
        ensures more { IsOneMore (search_after terms.now work.old) (search_after terms.now work.new) }
        // Where the list was legal and this climb may be made of it, each step is one that it may take there, whatever comes of it.
        ensures legal { (q : Task) → MayClimb terms.now (Self.levels self.old) route.now q work.old → Self.stands self.old terms.now q work.old → AreLegal q (noted_list terms.now work.new).lines }
        ensures stands { OnOk result ((q : Task) → MayClimb terms.now (Self.levels self.old) route.now q work.old → Self.stands self.old terms.now q work.old → Self.stands self.new terms.now q work.new) }
        ensures spent { IfErr result (λ s. OnSpent s ((q : Task) → MayClimb terms.now (Self.levels self.old) route.now q work.old → Self.stands self.old terms.now q work.old
            → IsSpentLegally q (noted_list terms.now work.new))) }
        ensures stopped { IfErr result (λ s. OnWide s (λ p. (q : Task) → MayClimb terms.now (Self.levels self.old) route.now q work.old → Self.stands self.old terms.now q work.old
            → IsStoppedLegally q (noted_list terms.now work.new) (place_of terms.now p))) }
        ensures place_within { IfErr result (λ s. OnWide s (λ p. IsSiteWithin terms.now p.site)) }
        ensures limit { work.new.limit ≡ work.old.limit }
        ensures levels { Self.levels self.new ≡ Self.levels self.old }
        ensures table { Self.table self.new ≡ Self.table self.old };
}
