//! Bounds on sums of units over a simplex: which the theory knows, and which it was told.
ghost use Rattle.std.specs.Prelude.{◌≡◌, ◌<◌, ℕ, List, [], All, Contains, IfOk, IfSome, IsSome, Ok, None, length, map, nat_lt, Some, true};
ghost use Rattle.nz_log.specs.declared.atoms.Atom.{Atom};
ghost use Rattle.nz_simplex.specs.State.{IsSound};
ghost use Rattle.nz_reals.specs.Known.{known_of, said_by, said_of};
ghost use Rattle.nz_reals.specs.Stands.{IsOf};
ghost use Rattle.nz_reals.specs.State.{empty_theory, known_at, told_lits};
ghost use Rattle.nz_reals.specs.Stored.{AreForms, AreTolds};
ghost use Rattle.nz_reals.specs.Tells.{AreKnown, AreOnTwoSides, Clashes, IsTold, Refutes, both, multiple_at};

use crate::atoms::BoundedAtoms;
use crate::forms::{Bounded, SideBound};
use indexmap::IndexMap;
use nz_base::Memory;
use nz_delta::Delta;
use nz_log::{Atom, AtomId, Lit, LitMultiple};
use nz_simplex::laws::{clashes_contradict, literals_say_bounds, sums_stay};
use nz_simplex::{Simplex, known_state};
use nz_spec::derivation::tells_literals;
use nz_spec::form::term_has_its_number;
use nz_trail::{AssertOutcome, Var};
use std::alloc::Global;
use std::marker::Model;

/// A literal that was told, and how many bounds stood before.
#[derive(Clone, Copy, Debug)]
pub(crate) struct MarkedLiteral {
    pub literal: Lit,
    pub mark: usize,
}

/// A simplex over sums that atoms bound, and the bounds that it was told. The reason of a bound is the place of its literal among those told.
/// A contract sees the simplex, what atoms say of its forms, and the literals that were told.
#[derive(Debug, Drop)]
pub struct Reals {
    pub(crate) alloc: Global,
    pub(crate) simplex: Simplex<Delta>,
    // The forms, by the atoms that they are at most 0. A unit alone may be missing.
    pub(crate) forms: IndexMap<Atom, Var>,
    pub(crate) bounded: BoundedAtoms,
    pub(crate) told: Vec<MarkedLiteral>,
    // Whether the point is known to be within all bounds. A tighter bound or a change of the forms ends that; taking bounds back doesn't.
    pub(crate) is_known_feasible: bool,
}

impl Model for Reals {
    ghost use Rattle.nz_reals.specs.State.{Theory};

    ghost Value = { Theory };

    ghost use Rattle.indexmap.specs.IndexMap.{get};
    ghost use Rattle.nz_log.specs.Keys.{are_same_atom};
    ghost use Rattle.nz_reals.specs.Stored.{IsStored, KnowsFeasible};

    ghost view = { λ r. record { simplex = r.simplex; known = r.bounded; told = r.told.items } };

    ghost invariant = { λ r. let t : Theory = record { simplex = r.simplex; known = r.bounded; told = r.told.items } in IsStored (get are_same_atom r.forms) t × KnowsFeasible r.is_known_feasible t };
}

impl Reals {
    /// The theory over no sum. Takes no memory.
    pub fn new(alloc: Global) -> Reals
        ensures empty { result ≡ empty_theory }
        ensures of { (atoms : List Atom) → IsOf result atoms [] }
    {
        Reals {
            alloc,
            simplex: Simplex::new(alloc),
            forms: IndexMap::new(alloc),
            bounded: BoundedAtoms::new(alloc),
            told: Vec::new(alloc),
            is_known_feasible: false,
        }
    }

    /// Whether nothing is known of any atom.
    pub fn knows_none(&self) -> bool
        ensures none { result ≡ true → (i : ℕ) → known_at self.now i ≡ None }
    {
        self.bounded.is_empty()
    }

    /// Whether a sum has joined.
    pub fn has_forms(&self) -> bool
        ensures forms { result ≡ nat_lt 0 (length self.now.simplex.forms) }
    {
        self.simplex.len() > 0
    }

    /// What is known of an atom.
    pub(crate) fn known(&self, atom: AtomId) -> Bounded
        requires known { IsSome (known_at self.now atom) }
        ensures known { known_at self.now atom ≡ Some (known_of result) }
    {
        self.bounded.get(atom).unwrap()
    }

    /// Tells the simplex a literal. Answers a literal that it was told and that isn't true together with this one, if it sees that; then it isn't told.
    pub(crate) fn tell(&mut self, literal: Lit) -> Result<Option<Lit>, Memory>
        requires known { IsSome (known_at self.old literal.atom) }
        ensures told { result ≡ Ok None → IsTold self.old self.new literal }
        ensures among { IfOk result (λ r. IfSome r (λ other. Contains (told_lits self.old) other)) }
        ensures sides { IfOk result (λ r. IfSome r (AreOnTwoSides self.old literal)) }
        ensures refutes { (atoms : List Atom) (ids : List ℕ) → IsOf self.old atoms ids → IfOk result (λ r. IfSome r (λ other. AreKnown self.old (both literal other) × Refutes self.old (both literal other))) }
        ensures unchanged { (result ≡ Ok None → ⊥) → self.new ≡ self.old }
    {
        clashes_contradict();
        literals_say_bounds();
        sums_stay();
        term_has_its_number();
        tells_literals();
        stored(self);
        let bounded = self.known(literal.atom());
        self.assert_said(literal, &bounded, &bounded.said(literal.sign()))
    }

    /// Tells the simplex what is known of the atom of a literal.
    fn assert_said(
        &mut self,
        literal: Lit,
        bounded: &Bounded,
        said: &SideBound,
    ) -> Result<Option<Lit>, Memory>
        requires known { known_at self.old literal.atom ≡ Some (known_of bounded.now) }
        requires said { said_of said.now ≡ said_by (known_of bounded.now) literal.sign }
        ensures told { result ≡ Ok None → IsTold self.old self.new literal }
        ensures clash { IfOk result (λ r. IfSome r (λ other. Clashes self.old literal (known_of bounded.now) other)) }
        ensures unchanged { (result ≡ Ok None → ⊥) → self.new ≡ self.old }
    {
        stored(self);
        self.told.reserve(1)?;
        let reason = self.told.len();
        let mark = self.simplex.mark();
        match self
            .simplex
            .assert_bound(bounded.var, said.side, said.value, reason)?
        {
            AssertOutcome::Clash(_, other) => Ok(Some(self.told[other].literal)),
            AssertOutcome::Kept => {
                self.told.push(MarkedLiteral { literal, mark }).unwrap();
                Ok(None)
            }
            AssertOutcome::Tighter => {
                self.is_known_feasible = false;
                self.told.push(MarkedLiteral { literal, mark }).unwrap();
                Ok(None)
            }
        }
    }

    /// The multiples of literals that the last clash of the simplex rests on.
    pub(crate) fn multiples(&self) -> Result<Vec<LitMultiple>, Memory>
        requires told { All (λ w. w.0 < length self.now.told) self.now.simplex.why }
        ensures multiples { IfOk result (λ ms. ms.items ≡ map (multiple_at self.now) self.now.simplex.why) }
    {
        let mut multiples = Vec::new(self.alloc);
        for (reason, multiplier) in self.simplex.why() {
            multiples.push(LitMultiple {
                literal: self.told[*reason].literal,
                multiplier: *multiplier,
            })?;
        }
        Ok(multiples)
    }
}

/// Says what holds of each theory: of its forms, and of what it was told.
pub fn stored(theory: &Reals)
    ensures forms { AreForms theory.now.simplex }
    ensures tolds { AreTolds theory.now }
    ensures sound { IsSound theory.now.simplex }
{
    known_state(&theory.simplex);
}
