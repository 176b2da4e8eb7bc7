//! In which order the sums that atoms bound join a theory.
ghost use Rattle.std.specs.Prelude.{◌<◌, All, IfOk, IfSome, length};
ghost use Rattle.nz_engine.specs.Joining.{AreNumbersBelow};

use nz_base::Memory;
use nz_lin::Part;
use nz_log::{Atom, AtomId, Log};
use nz_term::TermId;
use std::alloc::Global;
use std::cmp::Reverse;
use std::collections::{BinaryHeap, HashMap};

/// A sum that may come next, with a weight that it has or had.
#[derive(Clone, Copy, Debug, PartialEq, Eq, PartialOrd, Ord)]
struct Candidate {
    weight: usize,
    place: usize,
}

/// The sums that wait for their turn, by the places of their atoms.
#[derive(Debug, Drop)]
struct Waiting {
    // Of each unit that hasn't joined, the sums that it stands in.
    sums: HashMap<TermId, Vec<usize>>,
    // In how many sums the units of each sum stand that haven't joined.
    weights: Vec<usize>,
    // Each sum that waits with its weight, among what else was listed: weights only fall, so that the newest of a sum comes first.
    candidates: BinaryHeap<Reverse<Candidate>, Global>,
}

/// The places of these atoms, in the order in which their sums are to join. Any order is right. Here a sum comes next whose units that haven't joined
/// stand in the fewest sums, and of several the first one: where sums share few units, exchanges by least numbers then leave rows short and numbers small.
pub(crate) fn joining_order(
    alloc: Global,
    log: &Log,
    atoms: &[AtomId],
) -> Result<Vec<usize>, Memory>
    requires within { All (λ i. i < length log.now.atoms) atoms.now }
    ensures order { IfOk result (λ o. AreNumbersBelow (length atoms.now) o.items) }
{
    let turns = turns_of(alloc, log, atoms)?;
    let mut order = Vec::new(alloc);
    for place in 0..atoms.len() {
        order.push(place)?;
    }
    order.sort_by_key(|place| turns.get(*place).copied())?;
    Ok(order)
}

/// The turns of the sums of these atoms. An atom that bounds none has no turn.
fn turns_of(alloc: Global, log: &Log, atoms: &[AtomId]) -> Result<Vec<Option<usize>>, Memory>
    requires within { All (λ i. i < length log.now.atoms) atoms.now }
{
    let mut waiting = Waiting::new(alloc, log, atoms)?;
    let mut turns = Vec::new(alloc);
    turns.resize(atoms.len(), None)?;
    for turn in 0..atoms.len() {
        if let Some(place) = waiting.next(&turns) {
            put_turn(&mut turns, place, turn);
            waiting.join(parts_at(log, atoms, place))?;
        }
    }
    Ok(turns)
}

/// Puts a turn at a place, where there is one.
fn put_turn(turns: &mut [Option<usize>], place: usize, turn: usize) {
    if let Some(there) = turns.get_mut(place) {
        *there = Some(turn);
    }
}

/// The units of the sum that the atom of a place bounds, with their coefficients; none where it bounds no sum.
fn parts_at<'a>(log: &'a Log, atoms: &[AtomId], place: usize) -> &'a [Part]
    requires within { All (λ i. i < length log.now.atoms) atoms.now }
{
    match atoms.get(place) {
        Some(atom) => parts_of(log.atom(*atom)),
        None => &[],
    }
}

/// The units of the sum that an atom bounds.
fn parts_of(atom: &Atom) -> &[Part] {
    match atom {
        Atom::AtMost(bound) => bound.parts(),
        Atom::Term(_) => &[],
    }
}

impl Waiting {
    /// All sums wait, and no unit has joined.
    fn new(alloc: Global, log: &Log, atoms: &[AtomId]) -> Result<Waiting, Memory>
        requires within { All (λ i. i < length log.now.atoms) atoms.now }
    {
        let mut waiting = Waiting {
            sums: HashMap::new(alloc),
            weights: Vec::new(alloc),
            candidates: BinaryHeap::new(alloc),
        };
        for place in 0..atoms.len() {
            waiting.list(alloc, parts_at(log, atoms, place), place)?;
        }
        for place in 0..atoms.len() {
            waiting.weigh(parts_at(log, atoms, place), place)?;
        }
        Ok(waiting)
    }

    /// Lists a sum at each of its units.
    fn list(&mut self, alloc: Global, parts: &[Part], place: usize) -> Result<(), Memory> {
        for part in parts {
            let sums = self.sums.entry(part.unit)?.or_insert(Vec::new(alloc));
            sums.push(place)?;
        }
        Ok(())
    }

    /// Weighs the next sum, whose units have not joined, and makes it a candidate.
    fn weigh(&mut self, parts: &[Part], place: usize) -> Result<(), Memory> {
        let weight = self.weight(parts);
        self.weights.push(weight)?;
        if !parts.is_empty() {
            self.candidates.push(Reverse(Candidate { weight, place }))?;
        }
        Ok(())
    }

    /// In how many sums these units stand, those that have joined left out.
    fn weight(&self, parts: &[Part]) -> usize {
        let mut weight = 0usize;
        for part in parts {
            if let Some(sums) = self.sums.get(&part.unit) {
                weight = weight.saturating_add(sums.len());
            }
        }
        weight
    }

    /// The lightest sum that has no turn yet.
    fn next(&mut self, turns: &[Option<usize>]) -> Option<usize> {
        while let Some(Reverse(candidate)) = self.candidates.pop() {
            if let Some(None) = turns.get(candidate.place) {
                return Some(candidate.place);
            }
        }
        None
    }

    /// Lets these units join.
    fn join(&mut self, parts: &[Part]) -> Result<(), Memory> {
        for part in parts {
            if let Some(sums) = self.sums.remove(&part.unit) {
                self.lighten(&sums)?;
            }
        }
        Ok(())
    }

    /// Takes a unit that joins from the weights of the sums that it stands in.
    fn lighten(&mut self, sums: &[usize]) -> Result<(), Memory> {
        for place in sums {
            if let Some(weight) = self.weights.get_mut(*place) {
                *weight = weight.saturating_sub(sums.len());
                let candidate = Candidate {
                    weight: *weight,
                    place: *place,
                };
                self.candidates.push(Reverse(candidate))?;
            }
        }
        Ok(())
    }
}
