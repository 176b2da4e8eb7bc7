//! Problems for the search: constants, and the clauses of terms over them in a log. What a call asks of its arguments is tested here, so
//! that the tests have nothing to prove: the problem's invariant is known to no other file.
ghost use Rattle.std.specs.Prelude.{◌≡◌, ◌<◌, [], All, Contains, IfOk, IfSome, IsTrue, OnOk, length};
ghost use Rattle.std.specs.Bool.{OnTrue};
ghost use Rattle.nz_spec.specs.clauses.Literal.{StandOnce};
ghost use Rattle.nz_spec.specs.terms.Table.{HasItsArguments};
ghost use Rattle.nz_spec.specs.terms.Term.{head_fits};
ghost use Rattle.nz_term.specs.Heads.{head_of};
ghost use Rattle.nz_log.specs.Logs.{IsLive};
ghost use Rattle.nz_sat.specs.Numbers.{AreNotedIn};
ghost use Rattle.nz_sat.specs.Sats.{AreConsistent};
ghost use Rattle.nz_sat_tests.specs.Problems.{NamesAlone};

use nz_base::{Memory, Text, Work};
use nz_log::{Atom, AtomId, ClauseId, Lit, Literal, Log};
use nz_rows::gate_rows;
use nz_sat::Sat;
use nz_search::{NoNumbers, Note, Stop};
use nz_term::{Constant, Head, Operator, Sort, TermId, TermLit, Terms, operators_are_no_leaves};
use nz_term_samples::are_below;
use std::alloc::Global;
use std::marker::Model;

/// A problem under way.
#[derive(Drop)]
pub struct Problem {
    alloc: Global,
    terms: Terms,
    asserted: usize,
    held: Held,
    limit: u64,
    left: u64,
}

/// Clauses of a log that a search holds, over these atoms of the log.
#[derive(Drop)]
struct Held {
    log: Log,
    sat: Sat<NoNumbers>,
    atoms: Vec<AtomId>,
}

impl Model for Held {
    ghost use Rattle.nz_sat_tests.specs.Problems.{HeldState, IsPosed};

    ghost Value = { HeldState };

    ghost view = { λ h. record { log = h.log; sat = h.sat; atoms = h.atoms.items } };

    ghost invariant = { λ h. IsPosed h.log h.sat h.atoms.items };
}

impl Problem {
    /// A problem without clauses, each of whose searches may take so many units.
    pub fn new(alloc: Global, limit: u64) -> Result<Problem, Memory> {
        Ok(Problem {
            alloc,
            terms: Terms::new(alloc)?,
            asserted: 0,
            held: Held {
                log: Log::new(alloc)?,
                sat: Sat::new(alloc, NoNumbers::new()),
                atoms: Vec::new(alloc),
            },
            limit,
            left: limit,
        })
    }

    /// The term of this head over these, which is an atom.
    fn make(&mut self, head: Head<'_>, kids: &[TermId]) -> Result<TermId, Memory>
        requires fits { IsTrue (head_fits (head_of head)) }
        requires leaves { HasItsArguments (head_of head) kids.now }
    {
        if !are_below(kids, self.terms.len()) {
            return Err(Memory);
        }
        let term = self.terms.make(head, kids)?;
        self.held.name(term)?;
        Ok(term)
    }

    /// The constant of this number.
    pub fn atom(&mut self, number: usize) -> Result<TermId, Memory> {
        let name = format!(in self.alloc; "p{number}")?;
        let constant = Constant {
            name: Text::from_slice(self.alloc, name.as_bytes())?,
            sort: Sort::Bool,
        };
        self.make(Head::Constant(&constant), &[])
    }

    /// The term of this operator over these, with its clauses of the gate table.
    pub fn gates(&mut self, operator: Operator, kids: &[TermId]) -> Result<TermId, Memory> {
        operators_are_no_leaves();
        let known = self.terms.len();
        let term = self.make(Head::Operator(operator), kids)?;
        if known <= term {
            add_gates(&mut self.held, &self.terms, term)?;
        }
        Ok(term)
    }

    /// Asserts a term.
    pub fn assert(&mut self, term: TermId) -> Result<(), Memory> {
        if self.terms.len() <= term {
            return Err(Memory);
        }
        let place = self.asserted;
        self.asserted = place.checked_add(1).ok_or(Memory)?;
        self.held.give(place, term)
    }

    /// Searches under these assumed literals, where each term is an atom. Answers the literals of the clause that refutes them, where there is one.
    pub fn solve(&mut self, assumed: &[TermLit]) -> Result<Option<Vec<TermLit>>, Stop> {
        let mut work = Work::new(self.alloc)?;
        work.reserve(self.limit)?;
        let refuted = self.held.solve(assumed, &mut work)?;
        self.left = work.left();
        Ok(refuted)
    }

    /// How many units the last search didn't use.
    pub fn left(&self) -> u64 {
        self.left
    }

    /// Whether a literal is true after the last search, where its term has a truth.
    pub fn truth(&self, literal: TermLit) -> Option<bool> {
        let atom = self.held.log.find_term(literal.term)?;
        self.held.sat.truth(Lit::new(atom, literal.sign))
    }
}

impl Held {
    /// A term is an atom, at the lowest level.
    fn name(&mut self, term: TermId) -> Result<(), Memory> {
        self.log.place(term, 0)?;
        let atom = self.log.term_atom(term)?;
        if !self.atoms.contains(&atom) {
            self.atoms.push(atom)?;
        }
        Ok(())
    }

    /// Holds a clause, whose literals are on the atoms.
    fn hold(&mut self, id: ClauseId) -> Result<(), Memory>
        requires live { IsLive self.old.log id }
    {
        if !are_on(self.log.clause(id), &self.atoms) {
            return Err(Memory);
        }
        self.sat.add(&self.log, id)
    }

    /// Adds that the term of a live assertion is true.
    fn give(&mut self, place: usize, term: TermId) -> Result<(), Memory> {
        let clause = self.log.given(place, term, 0)?;
        self.hold(clause)
    }

    /// Adds the clause of this number of a term of the gate table.
    fn gate(&mut self, terms: &Terms, term: TermId, j: usize) -> Result<(), Memory>
        requires within { term < length terms.now }
    {
        let mut rows = gate_rows(*self.atoms.allocator(), terms, term)?;
        if rows.len() <= j {
            return Err(Memory);
        }
        let row = rows.remove(j);
        let clause = self.log.gate(terms, term, j, row)?;
        self.hold(clause)
    }

    /// Searches under these assumed literals. Answers the literals of the clause that refutes them, where there is one.
    fn solve(
        &mut self,
        assumed: &[TermLit],
        work: &mut Work<Note>,
    ) -> Result<Option<Vec<TermLit>>, Stop>
        requires empty { work.old.lines ≡ [] }
    {
        let literals = self.log.lits_of(assumed)?;
        note_question(&self.log, &self.atoms, &literals, work)?;
        begin_anew(&mut self.sat);
        let refuted = self.sat.solve(&mut self.log, &self.atoms, &literals, work)?;
        Ok(on_terms(*self.atoms.allocator(), &self.log, refuted)?)
    }
}

/// Takes back what the theory of a search was told.
fn begin_anew(sat: &mut Sat<NoNumbers>)
    ensures clauses { sat.new.clauses ≡ sat.old.clauses }
    ensures seen { sat.new.seen ≡ sat.old.seen }
    ensures none { sat.new.theory.told ≡ 0 }
{
    sat.theory = NoNumbers::new();
}

/// Adds the clauses of a term of the gate table that holds no number.
fn add_gates(held: &mut Held, terms: &Terms, term: TermId) -> Result<(), Memory> {
    if terms.len() <= term || terms.holds_integer(term) {
        return Err(Memory);
    }
    let count = gate_rows(*held.atoms.allocator(), terms, term)?.len();
    for j in 0..count {
        held.gate(terms, term, j)?;
    }
    Ok(())
}

/// The literals of this clause, if it is one, on terms.
fn on_terms(
    alloc: Global,
    log: &Log,
    clause: Option<ClauseId>,
) -> Result<Option<Vec<TermLit>>, Memory>
    requires live { IfSome clause (IsLive log.now) }
{
    let Some(id) = clause else {
        return Ok(None);
    };
    let mut literals = Vec::new(alloc);
    for literal in log.clause(id) {
        if let Literal::Term(on_term) = log.literal(*literal) {
            literals.push(on_term)?;
        }
    }
    Ok(Some(literals))
}

/// Notes the terms of these atoms, where a search over them may assume these literals.
fn note_question(
    log: &Log,
    atoms: &[AtomId],
    assumed: &[Lit],
    work: &mut Work<Note>,
) -> Result<(), Memory>
    requires empty { work.old.lines ≡ [] }
    ensures noted { OnOk result (AreNotedIn log.now.atoms work.new.lines atoms.now) }
    ensures notes { OnOk result (NamesAlone work.new) }
    ensures once { OnOk result (StandOnce atoms.now) }
    ensures among { OnOk result (All (λ l. Contains atoms.now l.atom) assumed.now) }
    ensures consistent { OnOk result (AreConsistent assumed.now) }
{
    let noted = note_atoms(log, atoms, work)?;
    if noted && stand_once(atoms) && are_on(assumed, atoms) && are_consistent(assumed) {
        Ok(())
    } else {
        Err(Memory)
    }
}

/// Notes the terms of these atoms. Answers whether each of them is one.
fn note_atoms(log: &Log, atoms: &[AtomId], work: &mut Work<Note>) -> Result<bool, Memory>
    requires empty { work.old.lines ≡ [] }
    ensures noted { IfOk result (λ b. OnTrue b (AreNotedIn log.now.atoms work.new.lines atoms.now)) }
    ensures notes { IfOk result (λ b. OnTrue b (NamesAlone work.new)) }
{
    for atom in atoms {
        if log.atom_count() <= *atom {
            return Ok(false);
        }
        match log.atom(*atom) {
            Atom::Term(term) => work.note(Note::Atom(*term))?,
            Atom::AtMost(_) => return Ok(false),
        }
    }
    Ok(true)
}

/// Whether each of these literals is on one of these atoms.
fn are_on(literals: &[Lit], atoms: &[AtomId]) -> bool
    ensures among { OnTrue result (All (λ l. Contains atoms.now l.atom) literals.now) }
{
    for i in 0..literals.len() {
        if !atoms.contains(&literals[i].atom()) {
            return false;
        }
    }
    true
}

/// Whether none of these stands twice.
fn stand_once(atoms: &[AtomId]) -> bool
    ensures once { OnTrue result (StandOnce atoms.now) }
{
    for i in 0..atoms.len() {
        if atoms[..i].contains(&atoms[i]) {
            return false;
        }
    }
    true
}

/// Whether none of these literals is the negation of another.
fn are_consistent(literals: &[Lit]) -> bool
    ensures consistent { OnTrue result (AreConsistent literals.now) }
{
    for i in 0..literals.len() {
        if literals.contains(&literals[i].not()) {
            return false;
        }
    }
    true
}
