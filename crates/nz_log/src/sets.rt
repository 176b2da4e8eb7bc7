//! Clauses as sets: lists that have each literal once.
ghost use Rattle.std.specs.Prelude.{◌≡◌, IfOk, OnOk};
ghost use Rattle.std.specs.List.{list_any};
ghost use Rattle.nz_spec.specs.clauses.Literal.{once, with_one};
ghost use Rattle.nz_log.specs.Lits.{are_same_lit};

use crate::lits::Lit;
use nz_base::Memory;
use smallvec::SmallVec;
use std::alloc::Global;

/// The literals of a clause. Most clauses have no more than three.
pub type Literals = SmallVec<Lit, 3>;

/// Whether the literal is one of these.
fn has(literals: &[Lit], literal: Lit) -> bool
    ensures has { result ≡ list_any (are_same_lit literal) literals.now }
{
    literals.iter().any(|other| literal.is(*other))
}

/// Puts a literal at the end, if it isn't there.
fn add(set: &mut Literals, literal: Lit) -> Result<(), Memory>
    ensures added { OnOk result (set.new.items ≡ with_one are_same_lit set.old.items literal) }
{
    if has(set.as_slice(), literal) {
        return Ok(());
    }
    set.push(literal)?;
    Ok(())
}

/// The clause of these literals.
pub fn set_of(alloc: Global, literals: &[Lit]) -> Result<Literals, Memory>
    ensures set { IfOk result (λ s. s.items ≡ once are_same_lit literals.now) }
{
    let mut set = SmallVec::new(alloc);
    for literal in literals {
        add(&mut set, *literal)?;
    }
    Ok(set)
}
