//! Conflict analysis: the clause that is learned from a conflict, and the one that refutes the assumed literals.
ghost use Rattle.std.specs.Prelude.{◌≡◌, ◌≢◌, ℕ, ◌<◌, ◌≤◌, true, false, All, Contains, length, IfOk, IfSome, MatchOption, OnOk, option_map};
ghost use Rattle.nz_log.specs.declared.lits.Lit.{Lit};
ghost use Rattle.nz_log.specs.Logs.{IsLive, chained, literals_at};
ghost use Rattle.nz_sat.specs.Clauses.{IsFalsified, IsImplied};
ghost use Rattle.nz_log.specs.Growth.{Grows};
ghost use Rattle.nz_sat.specs.Conflicts.{AreLinks, AreUnmarked, HasLast, HasTwoLast, IsFalseBy, IsBeside, IsChain, IsDeepestBut, IsGreatest, IsLearnable, IsLearned, IsLoneLast, MarksCounted, RefutesFrom, StaysSound, is_marked};
ghost use Rattle.nz_sat.specs.Trails.{EachBehind, IsTrail, depth, level_on};

use crate::order::Order;
use crate::redundancy::Redundancy;
use crate::trail::Trail;
use nz_base::Memory;
use nz_log::laws::tells_lits;
use nz_log::{AtomId, ClauseId, Link, Lit, Log};
use std::alloc::Global;

/// A learned clause, in which each literal is false, with the literal that it asserts.
#[derive(Clone, Copy)]
pub struct Learned {
    pub clause: ClauseId,
    /// The only literal of the last level.
    pub literal: Lit,
    /// The greatest level of the others: where it asserts that literal.
    pub level: usize,
    /// The level to which the search goes back, at most that one.
    pub keep: usize,
    /// Another literal, of that level.
    pub beside: Option<Lit>,
    /// Of how many levels its literals are.
    pub glue: usize,
}

impl Learned {
    /// The two literals that are watched from now on, where there are two.
    pub fn watched(self) -> Option<(Lit, Lit)>
        ensures watched { result ≡ option_map (λ other. (self.literal, other)) self.beside }
    {
        let other = self.beside?;
        Some((self.literal, other))
    }

    /// The same, where the search maybe begins anew, from no decision.
    pub fn kept(self, anew: bool) -> Learned
        ensures same { result ≡ record self { keep = result.keep } }
        ensures kept { result.keep ≤ self.keep }
    {
        Learned {
            keep: if anew { 0 } else { self.keep },
            ..self
        }
    }
}

/// Links of a chain, and the literal of the last level that is left.
#[derive(Drop)]
struct Chain {
    links: Vec<Link>,
    literal: Lit,
}

/// Marks the atoms of the false ones of these literals. Answers how many of those that weren't marked are of the level.
fn mark(
    trail: &Trail,
    order: &mut Order,
    seen: &mut [bool],
    literals: &[Lit],
    level: usize,
) -> usize
    requires trail { IsTrail trail.now }
    requires size { length seen.old ≡ trail.now.size }
    ensures marks { MarksCounted trail.now.entries literals.now level seen.old seen.new result }
{
    let mut count = 0;
    for literal in literals {
        let atom = literal.atom();
        if trail.value(*literal) == Some(false) && !seen[atom] {
            seen[atom] = true;
            order.raise(atom);
            if trail.level_of(atom) == level {
                count += 1;
            }
        }
    }
    count
}

/// Takes the marks off.
fn unmark(seen: &mut [bool], literals: &[Lit])
    requires within { All (λ l. l.atom < length seen.old) literals.now }
    ensures only { (t : ℕ) → is_marked seen.new t ≡ true → is_marked seen.old t ≡ true }
    ensures unmarked { All (λ l. is_marked seen.new l.atom ≡ false) literals.now }
{
    for literal in literals {
        seen[literal.atom()] = false;
    }
}

/// Goes back over the trail and resolves a falsified clause with the reasons of its literals, up to the first literal that is the only
/// one of the last level.
fn chain_back(
    alloc: Global,
    log: &Log,
    trail: &Trail,
    order: &mut Order,
    seen: &mut [bool],
    falsified: ClauseId,
) -> Result<Chain, Memory>
    requires live { IsLive log.now falsified }
    requires falsified { IsFalsified trail.now.entries (literals_at log.now falsified) }
    requires two { HasTwoLast trail.now.entries (literals_at log.now falsified) }
    requires implied { EachBehind (IsImplied log.now) trail.now.entries }
    requires decided { 0 < depth trail.now.entries }
    requires size { length seen.old ≡ trail.now.size }
    requires unmarked { AreUnmarked seen.old }
    ensures chain { IfOk result (λ c. IsChain log.now trail.now.entries falsified seen.new c) }
{
    tells_lits();
    let level = trail.level();
    let count = trail.len();
    let mut links = Vec::new(alloc);
    let mut left = mark(trail, order, seen, log.clause(falsified), level);
    for i in (0..count).rev() {
        let entry = trail.entry(i);
        let atom = entry.literal.atom();
        if seen[atom] {
            let literal = entry.literal.not();
            match entry.reason {
                Some(clause) if left > 1 => {
                    seen[atom] = false;
                    left -= 1;
                    left += mark(trail, order, seen, log.clause(clause), level);
                    links.push(Link { clause, literal })?;
                }
                _ => return Ok(Chain { links, literal }),
            }
        }
    }
    unreachable!()
}

/// Resolves the clause of a chain with the reasons of its redundant literals.
fn shorten(
    log: &Log,
    trail: &Trail,
    order: &mut Order,
    seen: &mut [bool],
    redundancy: &mut Redundancy,
    falsified: ClauseId,
    chain: Chain,
) -> Result<Chain, Memory>
    requires live { IsLive log.now falsified }
    requires order { IsTrail trail.now }
    requires implied { EachBehind (IsImplied log.now) trail.now.entries }
    requires size { length seen.old ≡ trail.now.size }
    requires chain { IsChain log.now trail.now.entries falsified seen.old chain }
    ensures chain { IfOk result (λ c. IsChain log.now trail.now.entries falsified seen.new c) }
{
    tells_lits();
    let Chain { mut links, literal } = chain;
    redundancy.look(log, trail, seen, falsified, &links)?;
    while let Some(atom) = redundancy.next() {
        if let Some((clause, redundant)) = its_reason(trail, seen, literal, atom) {
            seen[atom] = false;
            mark(trail, order, seen, log.clause(clause), 0);
            links.push(Link {
                clause,
                literal: redundant,
            })?;
        }
    }
    Ok(Chain { links, literal })
}

/// The reason of a marked atom, and its false literal, where that isn't this one.
fn its_reason(trail: &Trail, seen: &[bool], but: Lit, atom: AtomId) -> Option<(ClauseId, Lit)>
    ensures reason { IfSome result (λ p. IsFalseBy trail.now.entries seen.now but atom p.0 p.1) }
{
    let entry = trail.assigned(atom)?;
    if atom == but.atom() || seen.get(atom) != Some(&true) {
        return None;
    }
    Some((entry.reason?, entry.literal.not()))
}

/// One of these literals that is of the greatest level of those beside this one.
fn deepest_but(trail: &Trail, literals: &[Lit], but: Lit) -> Option<Lit>
    ensures deepest { IsDeepestBut trail.now.entries but literals.now result }
{
    tells_lits();
    let mut deepest: Option<Lit> = None;
    let mut level = 0;
    for literal in literals {
        let own = trail.level_of(literal.atom());
        if !literal.is(but) && (deepest.is_none() || level < own) {
            deepest = Some(*literal);
            level = own;
        }
    }
    deepest
}

/// What a clause is where it is learned for this literal, with literals of so many levels.
fn asserting(
    trail: &Trail,
    literals: &[Lit],
    clause: ClauseId,
    literal: Lit,
    glue: usize,
) -> Learned
    ensures clause { result.clause ≡ clause }
    ensures literal { result.literal ≡ literal }
    ensures kept { result.keep ≡ result.level }
    ensures others { (m : Lit) → Contains literals.now m → m ≢ literal → level_on trail.now.entries m.atom ≤ result.level }
    ensures beside { IsBeside trail.now.entries literals.now literal result.level result.beside }
{
    let beside = deepest_but(trail, literals, literal);
    let level = match beside {
        Some(other) => trail.level_of(other.atom()),
        None => 0,
    };
    Learned {
        clause,
        literal,
        level,
        keep: level,
        beside,
        glue,
    }
}

/// The greatest level of these literals, 0 where there are none.
pub fn greatest_level(trail: &Trail, literals: &[Lit]) -> usize
    ensures greatest { IsGreatest trail.now.entries literals.now result }
{
    let mut level = 0;
    for literal in literals {
        level = level.max(trail.level_of(literal.atom()));
    }
    level
}

/// The literal of the last level, where just one of these is of it.
fn lone_last(trail: &Trail, literals: &[Lit]) -> Option<Lit>
    requires last { HasLast trail.now.entries literals.now }
    ensures lone { MatchOption result (HasTwoLast trail.now.entries literals.now) (IsLoneLast trail.now.entries literals.now) }
{
    tells_lits();
    let last = trail.level();
    let mut lone: Option<Lit> = None;
    for literal in literals {
        if trail.level_of(literal.atom()) == last {
            match lone {
                Some(other) => {
                    if !other.is(*literal) {
                        return None;
                    }
                }
                None => lone = Some(*literal),
            }
        }
    }
    lone
}

/// Learns from a clause in which each literal is false, two of them of the last level, and puts the clause learned into the log.
fn learn_from(
    alloc: Global,
    log: &mut Log,
    trail: &Trail,
    order: &mut Order,
    seen: &mut [bool],
    redundancy: &mut Redundancy,
    falsified: ClauseId,
) -> Result<Learned, Memory>
    requires live { IsLive log.old falsified }
    requires falsified { IsFalsified trail.now.entries (literals_at log.old falsified) }
    requires two { HasTwoLast trail.now.entries (literals_at log.old falsified) }
    requires order { IsTrail trail.now }
    requires implied { EachBehind (IsImplied log.old) trail.now.entries }
    requires decided { 0 < depth trail.now.entries }
    requires size { length seen.old ≡ trail.now.size }
    requires unmarked { AreUnmarked seen.old }
    ensures grows { Grows log.old log.new }
    ensures sound { StaysSound trail.now.entries log.old log.new }
    ensures learned { IfOk result (λ l. IsLearned log.new trail.now.entries l) }
    ensures unmarked { OnOk result (AreUnmarked seen.new) }
{
    tells_lits();
    let chain = chain_back(alloc, log, trail, order, seen, falsified)?;
    let Chain { links, literal } = shorten(log, trail, order, seen, redundancy, falsified, chain)?;
    order.decay();
    let clause = log.chain(falsified, &links)?;
    let literals = log.clause(clause);
    unmark(seen, literals);
    let glue = redundancy.glue.of(trail, literals);
    Ok(asserting(trail, literals, clause, literal, glue))
}

/// What is learned from a clause in which each literal is false, one of them of the last level: where just one is, the clause itself.
pub fn learned_clause(
    alloc: Global,
    log: &mut Log,
    trail: &Trail,
    order: &mut Order,
    seen: &mut [bool],
    redundancy: &mut Redundancy,
    falsified: ClauseId,
) -> Result<Learned, Memory>
    requires live { IsLive log.old falsified }
    requires falsified { IsFalsified trail.now.entries (literals_at log.old falsified) }
    requires once { IsLearnable trail.now.entries (literals_at log.old falsified) }
    requires last { HasLast trail.now.entries (literals_at log.old falsified) }
    requires order { IsTrail trail.now }
    requires implied { EachBehind (IsImplied log.old) trail.now.entries }
    requires decided { 0 < depth trail.now.entries }
    requires size { length seen.old ≡ trail.now.size }
    requires unmarked { AreUnmarked seen.old }
    ensures grows { Grows log.old log.new }
    ensures sound { StaysSound trail.now.entries log.old log.new }
    ensures learned { IfOk result (λ l. IsLearned log.new trail.now.entries l) }
    ensures unmarked { OnOk result (AreUnmarked seen.new) }
{
    let literals = log.clause(falsified);
    match lone_last(trail, literals) {
        Some(literal) => {
            let glue = redundancy.glue.of(trail, literals);
            Ok(asserting(trail, literals, falsified, literal, glue))
        }
        None => learn_from(alloc, log, trail, order, seen, redundancy, falsified),
    }
}

/// Goes back over the trail and resolves a clause with the reasons of its literals, until only negations of assumed ones are left.
fn chain_to_assumed(
    alloc: Global,
    log: &Log,
    trail: &Trail,
    order: &mut Order,
    seen: &mut [bool],
    falsified: ClauseId,
) -> Result<Vec<Link>, Memory>
    requires live { IsLive log.now falsified }
    requires implied { EachBehind (IsImplied log.now) trail.now.entries }
    requires undecided { depth trail.now.entries ≡ 0 }
    requires size { length seen.old ≡ trail.now.size }
    ensures links { IfOk result (λ v. AreLinks log.now trail.now.entries v.items) }
    ensures refutes { IfOk result (λ v. RefutesFrom trail.now.entries (literals_at log.now falsified) (chained log.now (literals_at log.now falsified) v.items)) }
{
    tells_lits();
    let count = trail.len();
    let mut links = Vec::new(alloc);
    mark(trail, order, seen, log.clause(falsified), 0);
    for i in (0..count).rev() {
        let entry = trail.entry(i);
        let atom = entry.literal.atom();
        if seen[atom] {
            if let Some(clause) = entry.reason {
                mark(trail, order, seen, log.clause(clause), 0);
                links.push(Link {
                    clause,
                    literal: entry.literal.not(),
                })?;
            }
        }
    }
    Ok(links)
}

/// The clause of the log that says that the assumed literals aren't true together, from one in which each literal is false or the
/// negation of an assumed one.
pub fn refutation(
    alloc: Global,
    log: &mut Log,
    trail: &Trail,
    order: &mut Order,
    seen: &mut [bool],
    falsified: ClauseId,
) -> Result<ClauseId, Memory>
    requires live { IsLive log.old falsified }
    requires implied { EachBehind (IsImplied log.old) trail.now.entries }
    requires undecided { depth trail.now.entries ≡ 0 }
    requires size { length seen.old ≡ trail.now.size }
    ensures grows { Grows log.old log.new }
    ensures sound { StaysSound trail.now.entries log.old log.new }
    ensures live { IfOk result (IsLive log.new) }
    ensures refutes { IfOk result (λ id. RefutesFrom trail.now.entries (literals_at log.old falsified) (literals_at log.new id)) }
{
    let links = chain_to_assumed(alloc, log, trail, order, seen, falsified)?;
    if links.is_empty() {
        return Ok(falsified);
    }
    log.chain(falsified, &links)
}
