//! Literals by the numbers of their atoms.
ghost use Rattle.std.specs.Prelude.{◌≡◌, ◌<◌, ◌^◌};
ghost use Rattle.nz_log.specs.Codes.{code_of};
ghost use Rattle.nz_log.specs.Lits.{are_same_lit, negated_lit};

use std::marker::Model;

/// The number of an atom in its log.
pub type AtomId = usize;

/// How many atoms a log has at most: a literal on each of them has a number of 32 bits.
pub(crate) const MOST_ATOMS: usize = 1 << 31;

/// A literal: an atom, or its negation. A contract sees the number of the atom and the sign. The default one fills what a small vector
/// doesn't use.
#[derive(Clone, Copy, Debug, Default, PartialEq, Eq)]
pub struct Lit {
    // Twice the number of the atom, and 1 more for the atom itself.
    code: u32,
}

impl Model for Lit {
    ghost use Rattle.nz_log.specs.Codes.{SignedAtom, code_of, of_code};

    ghost Value = { SignedAtom };

    ghost view = { λ l. of_code l.code };

    ghost inverse = { λ l. record { code = code_of l } };
}

impl Lit {
    /// The literal on an atom.
    pub fn new(atom: AtomId, sign: bool) -> Lit
        requires small { atom < 2 ^ 31 }
        ensures literal { result ≡ record { atom = atom; sign = sign } }
    {
        Lit {
            code: (atom as u32) * 2 + if sign { 1 } else { 0 },
        }
    }

    /// The number of the atom in its log.
    pub fn atom(self) -> AtomId
        ensures atom { result ≡ self.atom }
        ensures small { result < 2 ^ 31 }
    {
        (self.code / 2) as usize
    }

    /// Whether it is the atom itself.
    pub fn sign(self) -> bool
        ensures sign { result ≡ self.sign }
    {
        self.code % 2 == 1
    }

    /// The number of the literal, for tables by literals: those of an atom and of its negation are neighbours.
    pub fn code(self) -> usize
        ensures code { result ≡ code_of self }
        ensures small { result < 2 ^ 32 }
    {
        self.code as usize
    }

    /// The negation.
    pub fn not(self) -> Lit
        ensures negation { result ≡ negated_lit self }
    {
        Lit {
            code: self.code ^ 1,
        }
    }

    /// Whether the two are the same literal.
    pub fn is(self, other: Lit) -> bool
        ensures same { result ≡ are_same_lit self other }
    {
        self == other
    }
}
