//! The work list of one check: its steps in their order, of which at most a limit count as units.
ghost use Rattle.std.specs.Prelude.{◌≡◌, ◌+◌, ◌<◌, ◌↔◌, [], length, slice_get, Some, IsErr, OnOk, OnErr, IsOkAnd, IsTrue};
ghost use Rattle.nz_spec.specs.search.Work.{WorkLine, UnitLine, NoteLine, unit_count, IsSpent, empty_work, with_line};

use crate::entries::{Entry, Line, Lines, Noted};
use crate::errors::{Memory, Spent};
use std::alloc::Global;
use std::marker::Model;
use std::mem;

/// The work list of one check. A contract sees its lines, each a unit or a note, and the most units that it may have.
#[derive(Debug, Drop)]
pub struct Work<T: Drop> {
    // Has room for every unit that is still free.
    lines: Vec<Line<T>>,
    units: u64,
    limit: u64,
}

impl<T: Drop> Model for Work<T> {
    ghost use Rattle.std.specs.Prelude.{map};
    ghost use Rattle.nz_spec.specs.search.Work.{WorkList};

    ghost Value = { WorkList T };

    ghost use Rattle.nz_base.specs.Entries.{line_of, IsRoomy};

    ghost view = { λ s. record { lines = map line_of s.lines.items; limit = s.limit } };

    ghost invariant = { λ s. IsRoomy s.lines s.units s.limit };
}

impl<T: Drop> Work<T> {
    ghost use Rattle.nz_base.specs.Entries.{entry_of, lent_line};

    /// A list with no line and limit 0. Takes no memory.
    ///
    /// # Errors
    ///
    /// None: it answers as each `new` that is handed an allocator.
    pub fn new(alloc: Global) -> Result<Self, Memory>
        ensures made { IsOkAnd result (λ w. w ≡ empty_work 0) }
    {
        Ok(Work {
            lines: Vec::new(alloc),
            units: 0,
            limit: 0,
        })
    }

    /// Empties the list and sets its limit to `n` units, for which it has the room from then on.
    ///
    /// # Errors
    ///
    /// `Memory` where that room can't be had. Then the list is as before.
    pub fn reserve(&mut self, n: u64) -> Result<(), Memory>
        ensures ok { OnOk result (self.new ≡ empty_work n) }
        ensures err { OnErr result (self.new ≡ self.old) }
    {
        let more = (n as usize).saturating_sub(self.lines.len());
        self.lines.reserve_exact(more)?;
        self.lines.clear();
        self.units = 0;
        self.limit = n;
        Ok(())
    }

    /// Adds a step that counts. Takes no memory.
    ///
    /// # Errors
    ///
    /// `Spent` exactly where as many units are in as the limit allows. Then the list is as before.
    pub fn unit(&mut self, entry: Entry) -> Result<(), Spent>
        ensures spent { IsErr result ↔ IsSpent self.old }
        ensures ok { OnOk result (self.new ≡ with_line self.old (UnitLine (entry_of entry))) }
        ensures err { OnErr result (self.new ≡ self.old) }
    {
        if self.units == self.limit {
            return Err(Spent);
        }
        self.lines.push(Line::Unit(entry)).unwrap();
        self.units += 1;
        Ok(())
    }

    /// Adds a note, which doesn't count.
    ///
    /// # Errors
    ///
    /// `Memory` where there is no room for it. Then the list is as before.
    pub fn note(&mut self, note: T) -> Result<(), Memory>
        ensures ok { OnOk result (self.new ≡ with_line self.old (NoteLine note)) }
        ensures err { OnErr result (self.new ≡ self.old) }
    {
        let free = (self.limit - self.units) as usize;
        let wanted = free.checked_add(1).ok_or(Memory)?;
        self.lines.reserve(wanted)?;
        self.lines.push(Line::Note(note)).unwrap();
        Ok(())
    }

    /// How many lines the list has, notes too.
    pub fn len(&self) -> u64
        ensures count { result ≡ length self.now.lines }
    {
        self.lines.len() as u64
    }

    /// Whether the list has no line.
    pub fn is_empty(&self) -> bool
        ensures none { IsTrue result ↔ (self.now.lines ≡ []) }
    {
        self.lines.is_empty()
    }

    /// How many more units the list may have.
    pub fn left(&self) -> u64
        ensures rest { result + unit_count self.now.lines ≡ self.now.limit }
    {
        self.limit - self.units
    }

    /// The line of this number, counted from 0.
    pub fn get(&self, i: u64) -> Noted<'_, T>
        requires { i < length self.now.lines }
        ensures line { slice_get self.now.lines i ≡ Some (lent_line result) }
    {
        self.lines[i as usize].lend()
    }

    /// Takes the lines out, which leaves an empty list with limit 0. They keep no room beside their own, where a block of
    /// that size can be had.
    pub fn take(&mut self) -> Lines<T>
        ensures lines { result ≡ self.old.lines }
        ensures left { self.new ≡ empty_work 0 }
    {
        let none = Vec::new(*self.lines.allocator());
        self.units = 0;
        self.limit = 0;
        let mut lines = mem::replace(&mut self.lines, none);
        lines.shrink_to_fit();
        Lines::new(lines)
    }
}
