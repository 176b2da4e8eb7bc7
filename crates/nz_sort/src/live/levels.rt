//! Levels, pushed, popped and cleared.
ghost use Rattle.std.specs.Prelude.{◌≡◌, ◌<◌, ◌≤◌, ◌+◌, vec_len, vec_capacity, ℕ, List, length, take, IsErrOf, OnOk, OnErr, false};
ghost use Rattle.nz_spec.specs.terms.Table.{Node};
ghost use Rattle.nz_script.specs.commands.Request as requests;
ghost use Rattle.nz_script.specs.commands.Script.{push_of, pop_of};
ghost use Rattle.nz_command.specs.Requests.{count_view};
ghost use Rattle.nz_sort.specs.Layers.{empty_layer};
ghost use Rattle.nz_sort.specs.Live.{standing_of};
ghost use Rattle.nz_elaborate.specs.declared.names.Named.{Named};
ghost use Rattle.nz_sort.specs.Changes.{Comes, IsCleared, Drops, DropsMany, with_levels};

use super::Live;
use crate::acts::Act;
use crate::levels::Level;
use nz_base::{Error, Memory};
use nz_command::LevelCount;
use std::alloc::Global;
use std::mem;

impl Live {
    /// Pushes levels, so many.
    pub(super) fn push_counted(&mut self, count: LevelCount) -> Result<Act, Error>
        ensures comes { (ns : List Node) → Comes ns ns self.old self.new (requests.pushes (count_view count)) (λ s. push_of (count_view count)) result }
    {
        let LevelCount::Within(count) = count else {
            return Err(Error::Limit);
        };
        let Ok(count) = usize::try_from(count) else {
            return Err(Error::OutOfMemory);
        };
        self.push(count)?;
        Ok(Act::Changed)
    }

    /// Pushes so many levels, in which nothing is accepted yet.
    fn push(&mut self, count: usize) -> Result<(), Memory>
        ensures pushed { OnOk result (self.new ≡ with_levels count self.old) }
        ensures unchanged { OnErr result (self.new ≡ self.old) }
    {
        self.below.reserve(count)?;
        let names_before = self.names.count();
        begin_levels(
            self.alloc,
            names_before,
            &mut self.top,
            &mut self.below,
            count,
        );
        Ok(())
    }

    /// Takes levels off, where so many were pushed. Takes no memory.
    pub(super) fn pop_counted(&mut self, count: LevelCount) -> Result<Act, Error>
        ensures comes { (ns : List Node) → Comes ns ns self.old self.new (requests.pops (count_view count)) (λ s. pop_of s (count_view count)) result }
        ensures memory { IsErrOf result Error.OutOfMemory → ⊥ }
    {
        let LevelCount::Within(count) = count else {
            return Err(Error::TooWide);
        };
        if count > self.below.len() as u128 {
            return Err(Error::BelowZero);
        }
        self.pop(count as usize);
        Ok(Act::Popped)
    }

    /// Takes the newest levels off, so many. Takes no memory.
    fn pop(&mut self, count: usize)
        requires some { count ≤ length self.old.below }
        ensures dropped { DropsMany count self.old self.new }
    {
        for _ in 0..count {
            self.pop_newest();
        }
    }

    /// Takes the newest level off, with its names, where another is below it.
    fn pop_newest(&mut self)
        requires some { 0 < length self.old.below }
        ensures dropped { Drops self.old self.new }
    {
        let Some(older) = self.below.pop() else {
            return;
        };
        self.names.truncate(self.top.names_before);
        self.top = older;
    }

    /// Back to the live state of the start. Takes no memory.
    pub(super) fn clear(&mut self)
        ensures cleared { IsCleared self.old self.new }
    {
        let count = self.below.len();
        self.pop(count);
        self.begin_anew();
    }

    /// Takes all that was accepted off the newest level, with its names, and numbers items anew.
    fn begin_anew(&mut self)
        ensures names { self.new.names ≡ take self.old.top.names_before self.old.names }
        ensures top { self.new.top ≡ empty_layer (length self.new.names) 0 false }
        ensures below { self.new.below ≡ self.old.below }
        ensures next { self.new.next ≡ 0 }
    {
        self.names.truncate(self.top.names_before);
        self.top = Level::new(self.alloc, self.names.count(), 0, false);
        self.next = 0;
    }
}

/// Puts so many levels above these, for which there is room, each without items and above the names of all of them.
fn begin_levels(
    alloc: Global,
    names_before: usize,
    top: &mut Level,
    below: &mut Vec<Level>,
    count: usize,
)
    requires room { vec_len below.old + count ≤ vec_capacity below.old }
    ensures begun { (names : List (List ℕ × Named)) (next : ℕ) → length names ≡ names_before → standing_of names top.new below.new.items next ≡ with_levels count (standing_of names top.old below.old.items next) }
{
    for _ in 0..count {
        let level = Level::new(alloc, names_before, top.constant_count, top.holds_integers);
        let older = mem::replace(top, level);
        below.push_reserved(older);
    }
}
