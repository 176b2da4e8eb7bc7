//! Leaves as a table keeps them, each once.
ghost use Rattle.std.specs.Prelude.{◌≡◌, IfOk};
ghost use Rattle.std.specs.Cmp.{on_equiv, on_per, partial_equiv_from_equiv};
ghost use Rattle.std.specs.Cmp.Lexicographic.{bytes_decides, nat_list_eq_equiv};
ghost use Rattle.std.specs.Hash.{on_Alike, same_Alike};
ghost use Rattle.nz_term.specs.Heads.{head_of};
ghost use Rattle.nz_term.specs.Leaves.{are_same_leaf, key_head, leaf_head};
ghost use Rattle.nz_term.specs.Numbers.{fed_of, numbers_of};

use crate::heads::{Constant, Head, Operator, Sort};
use nz_base::Memory;
use std::hash::{Hash, Hasher};

/// A leaf of its own.
#[derive(Debug, Drop)]
pub(crate) enum Leaf {
    Constant(Constant),
    Parameter(usize, Sort),
    Integer(u128),
    Decimal(u128, usize),
}

impl Leaf {
    /// The head of the term that the leaf is.
    pub(crate) fn head(&self) -> Head<'_>
        ensures head { head_of result ≡ leaf_head self.now }
    {
        match self {
            Leaf::Constant(constant) => Head::Constant(constant),
            Leaf::Parameter(place, sort) => Head::Parameter(*place, *sort),
            Leaf::Integer(digits) => Head::Integer(*digits),
            Leaf::Decimal(digits, places) => Head::Decimal(*digits, *places),
        }
    }
}

// By its head, whose test is that of the definitions: a derived one is a case for each two kinds in a proof.
impl PartialEq for Leaf {
    ghost eq = { are_same_leaf };

    ghost laws = { on_per numbers_of (partial_equiv_from_equiv nat_list_eq_equiv) };

    fn eq(&self, other: &Leaf) -> bool {
        self.head().is(other.head())
    }
}

impl Eq for Leaf {
    ghost laws = { on_equiv numbers_of nat_list_eq_equiv };
}

impl Hash for Leaf {
    ghost hash_input = { λ leaf. fed_of (numbers_of leaf) };

    ghost respects_eq = { (on_Alike numbers_of (same_Alike fed_of bytes_decides)).fed };

    fn hash<H: Hasher>(&self, state: &mut H) {
        let head = self.head();
        state.write_u8(head.kind());
        head.digits().hash(state);
        head.place().hash(state);
        head.name().hash(state);
    }
}

/// A head of its own, by which one is looked up.
#[derive(Debug, Drop)]
pub(crate) enum Key {
    Leaf(Leaf),
    Operator(Operator),
}

impl Key {
    /// The same head.
    pub(crate) fn of(head: Head<'_>) -> Result<Key, Memory>
        ensures head { IfOk result (λ key. key_head key ≡ head_of head.entry) }
    {
        Ok(match head {
            Head::Constant(constant) => Key::Leaf(Leaf::Constant(constant.clone()?)),
            Head::Parameter(place, sort) => Key::Leaf(Leaf::Parameter(place, sort)),
            Head::Integer(digits) => Key::Leaf(Leaf::Integer(digits)),
            Head::Decimal(digits, places) => Key::Leaf(Leaf::Decimal(digits, places)),
            Head::Operator(operator) => Key::Operator(operator),
        })
    }
}
