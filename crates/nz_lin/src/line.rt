//! Lines, and families of assignments along them.
ghost use Rattle.std.specs.Prelude.{◌≡◌, [], ◌∷◌, ◌++◌, map, OnErr, OnOk};
ghost use Rattle.nz_lin.specs.Lines.{numbered_course, range_of};

use nz_base::Memory;
use nz_frac::Frac;
use nz_term::TermId;
use std::alloc::Global;
use std::marker::Model;

/// The number `start + slope * s` for each s.
#[derive(Clone, Copy, Debug)]
pub struct Line {
    /// The number where s is 0.
    pub start: Frac,
    /// What is added for each 1 of s.
    pub slope: Frac,
}

/// What a constant stands for in a family.
#[derive(Clone, Copy, Debug)]
pub enum Course {
    /// Of sort `Bool`: the same truth for each s.
    Truth(bool),
    /// Of sort `Int` or `Real`.
    Number(Line),
}

/// What s runs over.
#[derive(Clone, Copy, Debug)]
pub enum Range {
    /// All fractions above 0 up to this one.
    UpTo(Frac),
    /// The natural numbers.
    Naturals,
}

/// A family of assignments, one for each s of a range: numbers of constants, each with its course, in order. A contract sees them
/// as a list of pairs; by a table they give each constant of the list its value for s, and any other the default of its sort.
#[derive(Debug, Drop)]
pub struct Family {
    courses: Vec<(TermId, Course)>,
    range: Range,
}

impl Model for Family {
    ghost use Rattle.std.specs.Prelude.{map};
    ghost use Rattle.nz_lin.specs.Lines.{NumberedFamily, numbered_course, range_of};

    ghost Value = { NumberedFamily };

    ghost view = { λ f. record { courses = map numbered_course f.courses.items; range = range_of f.range } };
}

impl Family {
    /// No constants yet. Takes no memory.
    pub fn new(alloc: Global, range: Range) -> Family
        ensures empty { result ≡ record { courses = []; range = range_of range } }
    {
        Family {
            courses: Vec::new(alloc),
            range,
        }
    }

    /// Puts a constant with its course at the end.
    pub fn push(&mut self, id: TermId, course: Course) -> Result<(), Memory>
        ensures grown { OnOk result (self.new ≡ record self.old { courses = self.old.courses ++ numbered_course (id, course) ∷ [] }) }
        ensures unchanged { OnErr result (self.new ≡ self.old) }
    {
        self.courses.push((id, course))?;
        Ok(())
    }

    /// The constants with their courses.
    pub fn courses(&self) -> &[(TermId, Course)]
        ensures courses { map numbered_course result.now ≡ self.now.courses }
    {
        self.courses.as_slice()
    }

    /// What s runs over.
    pub fn range(&self) -> Range
        ensures range { range_of result ≡ self.now.range }
    {
        self.range
    }
}
