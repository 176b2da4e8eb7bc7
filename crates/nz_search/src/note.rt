//! Notes: the lines of a work list that are no units.
ghost use Rattle.std.specs.Prelude.{◌≡◌, IfOk};

use nz_base::Memory;
use nz_delta::Delta;
use nz_lin::{Bound, Part};
use nz_term::{TermId, TermLit};
use std::alloc::Global;
use std::marker::Model;

/// What a note holds. A contract sees the value alone.
#[derive(Debug, Drop)]
pub struct Boxed<T: Drop> {
    // In a box, since a line of a list has the room of the longest one.
    value: Box<T>,
}

impl<T: Drop> Model for Boxed<T> {
    ghost Value = { T };

    ghost view = { λ s. s.value.value };
}

impl<T: Drop> Boxed<T> {
    /// This value.
    ///
    /// # Errors
    ///
    /// `Memory` where there is no room for a box.
    pub fn new(alloc: Global, value: T) -> Result<Self, Memory>
        ensures value { IfOk result (λ boxed. boxed ≡ value) }
    {
        Ok(Boxed {
            value: Box::new(alloc, value)?,
        })
    }
}

/// The forms with which a search begins, and where the nonbasic ones stand; a basic one has no place.
#[derive(Debug, Drop)]
pub struct StartNote {
    pub forms: Vec<Vec<Part>>,
    pub places: Vec<Option<Delta>>,
}

/// A line of a work list that is no unit. Atoms are named by their numbers in the list.
#[derive(Debug, Drop)]
pub enum Note {
    /// The simplex begins with these forms, and stands at these places.
    Start(Boxed<StartNote>),
    /// The next atom is that the Boolean term of this number is true.
    Atom(TermId),
    /// The next atom is this bound, which isn't strict.
    Bound(Boxed<Bound>),
    /// The sum that an atom bounds joins the forms of the simplex.
    Form { atom: usize },
    /// A search begins, which goes under these literals.
    Under(Boxed<Vec<TermLit>>),
    /// The simplex is told that an atom has this sign.
    Told { atom: usize, sign: bool },
}
