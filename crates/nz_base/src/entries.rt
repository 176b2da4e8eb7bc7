//! The entries of a work list, and a list of them that is read alone.
ghost use Rattle.std.specs.Prelude.{◌≡◌, ◌<◌, ◌↔◌, [], length, slice_get, Some, IfOk, IsTrue};

use crate::errors::Memory;
use std::marker::Model;

/// Literals of a clause, each the number of an atom and a sign. A contract sees them as a list.
#[derive(Debug, Drop)]
pub struct Literals {
    // In a box, since a line of a list has the room of the longest one.
    pairs: Box<Vec<(usize, bool)>>,
}

impl Model for Literals {
    ghost use Rattle.std.specs.Prelude.{List, ℕ, Bool};

    ghost Value = { List (ℕ × Bool) };

    ghost view = { λ s. s.pairs.value.items };
}

impl Literals {
    /// These literals.
    ///
    /// # Errors
    ///
    /// `Memory` where there is no room for a box.
    pub fn new(pairs: Vec<(usize, bool)>) -> Result<Literals, Memory>
        ensures made { IfOk result (λ literals. literals ≡ pairs.items) }
    {
        let alloc = *pairs.allocator();
        Ok(Literals {
            pairs: Box::new(alloc, pairs)?,
        })
    }

    /// The literals in their order.
    pub fn as_slice(&self) -> &[(usize, bool)]
        ensures pairs { result.now ≡ self.now }
    {
        self.pairs.as_slice()
    }

    /// The list that they were made from. Takes no memory.
    pub fn into_vec(self) -> Vec<(usize, bool)>
        ensures pairs { result.items ≡ self }
    {
        let Literals { pairs } = self;
        Box::into_inner(pairs)
    }
}

/// A step of a check that counts as one unit of work. Atoms and forms are named by their numbers in the list.
#[derive(Debug, Drop)]
pub enum Entry {
    /// An undecided atom is decided with this sign.
    Decision { atom: usize, sign: bool },
    /// A new clause is learned, and the stack of decisions is cut to `keep` of them.
    Learned { keep: usize, lits: Literals },
    /// A basic form leaves the basis, and a nonbasic one enters it.
    Pivot { leaves: usize, enters: usize },
}

/// A line of a work list, lent.
#[derive(Drop)]
pub enum Noted<'a, T> {
    /// A step that counts.
    Unit(&'a Entry),
    /// A note that doesn't.
    Note(&'a T),
}

// A line of a work list.
#[derive(Debug, Drop)]
pub(crate) enum Line<T> {
    Unit(Entry),
    Note(T),
}

impl<T> Line<T> {
    ghost use Rattle.nz_base.specs.Entries.{line_of, lent_line};

    pub(crate) fn lend(&self) -> Noted<'_, T>
        ensures same { lent_line result ≡ line_of self.now }
    {
        match self {
            Line::Unit(entry) => Noted::Unit(entry),
            Line::Note(note) => Noted::Note(note),
        }
    }
}

/// The lines of a work list that was taken out, the first one first. A contract sees them as a list.
#[derive(Debug, Drop)]
pub struct Lines<T> {
    lines: Vec<Line<T>>,
}

impl<T> Model for Lines<T> {
    ghost use Rattle.std.specs.Prelude.{List, map};
    ghost use Rattle.nz_spec.specs.search.Work.{WorkLine};

    ghost Value = { List (WorkLine T) };

    ghost use Rattle.nz_base.specs.Entries.{line_of};

    ghost view = { λ s. map line_of s.lines.items };
}

impl<T> Lines<T> {
    ghost use Rattle.std.specs.Prelude.{map};
    ghost use Rattle.nz_base.specs.Entries.{line_of, lent_line};

    pub(crate) fn new(lines: Vec<Line<T>>) -> Self
        ensures lines { result ≡ map line_of lines.items }
    {
        Lines { lines }
    }

    /// How many lines there are.
    pub fn len(&self) -> u64
        ensures count { result ≡ length self.now }
    {
        self.lines.len() as u64
    }

    /// Whether there is no line.
    pub fn is_empty(&self) -> bool
        ensures none { IsTrue result ↔ (self.now ≡ []) }
    {
        self.lines.is_empty()
    }

    /// The line of this number, counted from 0.
    pub fn get(&self, i: u64) -> Noted<'_, T>
        requires { i < length self.now }
        ensures line { slice_get self.now i ≡ Some (lent_line result) }
    {
        self.lines[i as usize].lend()
    }
}
