//! The theory of a search, which begins anew with the sums that its atoms bound.
ghost use Rattle.std.specs.Prelude.{◌≡◌, ℕ, ◌≤◌, [], All, List, length, take, IfErr, OnOk};
ghost use Rattle.nz_spec.specs.clauses.Literal.{Literal};
ghost use Rattle.nz_spec.specs.search.Search.{Task};
ghost use Rattle.nz_spec.specs.simplex.Bland.{Point};
ghost use Rattle.nz_spec.specs.terms.Form.{Part};
ghost use Rattle.nz_spec.specs.terms.Table.{Node};
ghost use Rattle.nz_log.specs.declared.atoms.Atom.{Atom};
ghost use Rattle.nz_search.specs.declared.stop.Stop.TheVariants as stop;
ghost use Rattle.nz_search.specs.Standing.{Stands};
ghost use Rattle.nz_reals.specs.Stands.{HasTold, IsAt, IsOf, IsOver};
ghost use Rattle.nz_sat.specs.Numbers.{IsAtomAt};
ghost use Rattle.nz_sat.specs.Sats.{AreHeld};
ghost use Rattle.nz_engine.specs.Checking.{AreLearnable, AreNumbered, BeginsAnew, EndsWith, LearnsMore, MayBegin, NotesForms};

use super::atoms::note_atoms;
use crate::joining::joining_order;
use crate::truths::truths_for;
use nz_base::{Memory, Work};
use nz_log::laws::tells_lits;
use nz_log::{AtomId, Log};
use nz_reals::Reals;
use nz_sat::Sat;
use nz_search::{Note, Stop, Theory};
use nz_spec::derivation::tells_literals;
use nz_spec::form::{sums_renumber, term_has_its_number};
use nz_spec::work::legal_work_goes_on;
use std::alloc::Global;

/// Lets the sums that these atoms bound, from a place on, join a theory, which are noted. Of those before it the theory has learned.
fn join_sums(
    alloc: Global,
    theory: &mut Reals,
    log: &Log,
    atoms: &[AtomId],
    from: usize,
    work: &mut Work<Note>,
) -> Result<(), Stop>
    requires learnable { AreLearnable theory.old log.now.atoms atoms.now }
    requires within { from ≤ length atoms.now }
    requires untold { HasTold theory.old [] }
    requires of { IsOf theory.old log.now.atoms (take from atoms.now) }
    ensures untold { HasTold theory.new [] }
    ensures of { OnOk result (IsOf theory.new log.now.atoms atoms.now) }
    ensures over { OnOk result ((ns : List Node) → IsOver theory.old ns → All (IsAtomAt ns log.now.atoms) atoms.now → IsOver theory.new ns) }
    ensures forms { NotesForms work.old work.new }
    // Where the list knows each of the atoms by its place, and the theory stands where it leads, so it does again.
    ensures stands { OnOk result ((ns : List Node) (q : Task) → All (IsAtomAt ns log.now.atoms) atoms.now → AreNumbered ns log.now.atoms atoms.now work.old → Stands (IsAt theory.old ns) ns q work.old → Stands (IsAt theory.new ns) ns q work.new) }
    ensures stopped { IfErr result (λ e. (ns : List Node) (q : Task) → All (IsAtomAt ns log.now.atoms) atoms.now → AreNumbered ns log.now.atoms atoms.now work.old → Stands (IsAt theory.old ns) ns q work.old → EndsWith ns q work.new e) }
    ensures unspent { IfErr result (λ e. e ≡ stop.Spent → ⊥) }
{
    let order = joining_order(alloc, log, &atoms[from..])?;
    for place in order.as_slice() {
        let Some(number) = from.checked_add(*place) else {
            return Err(Stop::Memory);
        };
        theory.add_atom(log, atoms[number], number, work)?;
    }
    Ok(())
}

/// Begins a theory anew, notes these atoms, and lets the sums that they bound join.
fn begin_theory(
    alloc: Global,
    theory: &mut Reals,
    log: &Log,
    atoms: &[AtomId],
    work: &mut Work<Note>,
) -> Result<(), Stop>
    requires learnable { AreLearnable theory.old log.now.atoms atoms.now }
    requires no_steps { work.old.lines ≡ [] }
    ensures begins { BeginsAnew log.now.atoms atoms.now theory.old theory.new work.old work.new result }
{
    tells_lits();
    tells_literals();
    sums_renumber();
    term_has_its_number();
    legal_work_goes_on();
    theory.restart(work)?;
    note_atoms(alloc, log, atoms, work)?;
    join_sums(alloc, theory, log, atoms, 0, work)
}

/// Notes these atoms, from a place on, in a list that goes on, and lets the sums that they bound join.
fn learn_more(
    alloc: Global,
    theory: &mut Reals,
    log: &Log,
    atoms: &[AtomId],
    from: usize,
    work: &mut Work<Note>,
) -> Result<(), Stop>
    requires learnable { AreLearnable theory.old log.now.atoms atoms.now }
    requires within { from ≤ length atoms.now }
    requires untold { HasTold theory.old [] }
    requires of { IsOf theory.old log.now.atoms (take from atoms.now) }
    ensures learns { LearnsMore log.now.atoms atoms.now from theory.old theory.new work.old work.new result }
{
    tells_lits();
    tells_literals();
    sums_renumber();
    term_has_its_number();
    legal_work_goes_on();
    note_atoms(alloc, log, &atoms[from..], work)?;
    join_sums(alloc, theory, log, atoms, from, work)
}

/// Lets sums join a theory that has none, in a planned order, before it begins anew.
fn arrange(
    theory: &mut Reals,
    log: &Log,
    atoms: &[AtomId],
    truths: &[Option<bool>],
) -> Result<(), Memory>
    requires learnable { AreLearnable theory.old log.now.atoms atoms.now }
    ensures over { (ns : List Node) → IsOver theory.old ns → All (IsAtomAt ns log.now.atoms) atoms.now → IsOver theory.new ns }
    ensures rest { (ns : List Node) (q : Task) → MayBegin theory.old ns q log.now.atoms atoms.now → MayBegin theory.new ns q log.now.atoms atoms.now }
{
    theory.arrange(log, atoms, truths)?;
    Ok(())
}

/// Begins the theory of a search anew, notes these atoms, and lets the sums that they bound join. Where it has none yet, those are arranged first: the
/// numbers of forms decide which exchanges are made.
pub(super) fn begin_anew(
    alloc: Global,
    sat: &mut Sat<Reals>,
    log: &Log,
    atoms: &[AtomId],
    work: &mut Work<Note>,
) -> Result<(), Stop>
    requires learnable { AreLearnable sat.old.theory log.now.atoms atoms.now }
    requires held { AreHeld log.now sat.old.clauses }
    requires no_steps { work.old.lines ≡ [] }
    ensures begins { BeginsAnew log.now.atoms atoms.now sat.old.theory sat.new.theory work.old work.new result }
    ensures clauses { sat.new.clauses ≡ sat.old.clauses }
    ensures seen { sat.new.seen ≡ sat.old.seen }
{
    let truths = truths_for(alloc, &sat.theory, log, atoms, sat.clauses())?;
    arrange(&mut sat.theory, log, atoms, &truths)?;
    begin_theory(alloc, &mut sat.theory, log, atoms, work)
}

/// Takes back all that the theory of a search was told, whose point stays. Takes no memory.
pub(super) fn untell(sat: &mut Sat<Reals>)
    ensures untold { HasTold sat.new.theory [] }
    ensures over { (ns : List Node) → IsOver sat.old.theory ns → IsOver sat.new.theory ns }
    ensures of { (atoms : List Atom) (ids : List ℕ) → IsOf sat.old.theory atoms ids → IsOf sat.new.theory atoms ids }
    ensures at { (ns : List Node) (fs : List (List Part)) (ls : List Literal) (x : Point) → IsAt sat.old.theory ns fs ls x → IsAt sat.new.theory ns fs [] x }
    ensures clauses { sat.new.clauses ≡ sat.old.clauses }
    ensures seen { sat.new.seen ≡ sat.old.seen }
{
    sat.theory.undo(0);
}

/// Notes these atoms, from a place on, in a list that goes on, and lets the sums that they bound join the theory of a search.
pub(super) fn learn_on(
    alloc: Global,
    sat: &mut Sat<Reals>,
    log: &Log,
    atoms: &[AtomId],
    from: usize,
    work: &mut Work<Note>,
) -> Result<(), Stop>
    requires learnable { AreLearnable sat.old.theory log.now.atoms atoms.now }
    requires within { from ≤ length atoms.now }
    requires untold { HasTold sat.old.theory [] }
    requires of { IsOf sat.old.theory log.now.atoms (take from atoms.now) }
    ensures learns { LearnsMore log.now.atoms atoms.now from sat.old.theory sat.new.theory work.old work.new result }
    ensures clauses { sat.new.clauses ≡ sat.old.clauses }
    ensures seen { sat.new.seen ≡ sat.old.seen }
{
    learn_more(alloc, &mut sat.theory, log, atoms, from, work)
}
