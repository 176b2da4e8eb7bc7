//! For each literal the clauses in which it is watched.
ghost use Rattle.std.specs.Prelude.{◌≡◌, ◌≢◌, ℕ, ◌<◌, ◌≤◌, [], ◌∷◌, ◌++◌, length, OnOk, slice_get, Some};
ghost use Rattle.nz_log.specs.Codes.{code_of};
ghost use Rattle.nz_sat.specs.Lists.{Blocks, HasKey, HasRoom, LeavesKey, TakesOut, list_at, list_of};
ghost use Rattle.nz_sat.specs.declared.watches.Watch.{Watch};

use nz_base::Memory;
use nz_log::Lit;
use std::alloc::Global;

/// A clause in which a literal is watched.
#[derive(Clone, Copy, Debug, PartialEq, Eq)]
pub struct Watch {
    /// The key of the clause, in 32 bits, since watches are what propagation reads most.
    pub key: u32,
    /// Another literal of the clause: where it is true, nothing is to do.
    pub blocker: Lit,
    /// Whether these two are all its literals.
    pub is_short: bool,
}

/// The watches by the numbers of literals.
#[derive(Debug, Drop)]
pub struct Watches {
    lists: Vec<Vec<Watch>>,
}

impl Watches {
    /// None, for no literals. Takes no memory.
    pub fn new(alloc: Global) -> Watches
        ensures none { result.lists.items ≡ [] }
    {
        Watches {
            lists: Vec::new(alloc),
        }
    }

    /// Makes room for the literals below a number.
    ///
    /// # Errors
    ///
    /// `Memory`. Then there may be room for some more.
    pub fn fit(&mut self, literals: usize) -> Result<(), Memory>
        ensures fits { OnOk result (literals ≤ length self.new.lists.items) }
        ensures more { length self.old.lists.items ≤ length self.new.lists.items }
        ensures same { (t : ℕ) → list_at self.new.lists.items t ≡ list_at self.old.lists.items t }
    {
        let alloc = *self.lists.allocator();
        while self.lists.len() < literals {
            self.lists.push(Vec::new(alloc))?;
        }
        Ok(())
    }

    /// How many clauses watch a literal.
    pub fn count(&self, literal: Lit) -> usize
        requires within { code_of literal < length self.now.lists.items }
        ensures count { result ≡ length (list_of self.now literal) }
    {
        self.lists[literal.code()].len()
    }

    /// The clauses that watch a literal.
    pub fn of(&self, literal: Lit) -> &[Watch] {
        match self.lists.get(literal.code()) {
            Some(list) => list,
            None => &[],
        }
    }

    /// The watch of a place in the list of a literal.
    pub fn at(&self, literal: Lit, i: usize) -> Watch
        requires within { code_of literal < length self.now.lists.items }
        requires inside { i < length (list_of self.now literal) }
        ensures watch { slice_get (list_of self.now literal) i ≡ Some result }
    {
        self.lists[literal.code()][i]
    }

    /// Makes room for one more in the list of a literal.
    ///
    /// # Errors
    ///
    /// `Memory`.
    pub fn reserve(&mut self, literal: Lit) -> Result<(), Memory>
        requires within { code_of literal < length self.old.lists.items }
        ensures size { length self.new.lists.items ≡ length self.old.lists.items }
        ensures same { (t : ℕ) → list_at self.new.lists.items t ≡ list_at self.old.lists.items t }
        ensures room { OnOk result (HasRoom self.new.lists.items (code_of literal)) }
        ensures others { (t : ℕ) → HasRoom self.old.lists.items t → HasRoom self.new.lists.items t }
    {
        self.lists[literal.code()].reserve(1)?;
        Ok(())
    }

    /// Puts a watch into the list of a literal, which has room.
    pub fn put(&mut self, literal: Lit, watch: Watch)
        requires within { code_of literal < length self.old.lists.items }
        requires room { HasRoom self.old.lists.items (code_of literal) }
        ensures size { length self.new.lists.items ≡ length self.old.lists.items }
        ensures put { list_of self.new literal ≡ list_of self.old literal ++ watch ∷ [] }
        ensures others { (t : ℕ) → t ≢ code_of literal → list_at self.new.lists.items t ≡ list_at self.old.lists.items t }
        ensures others_room { (t : ℕ) → t ≢ code_of literal → HasRoom self.old.lists.items t → HasRoom self.new.lists.items t }
    {
        self.lists[literal.code()].push(watch).unwrap();
    }

    /// Takes the watch of a place out of the list of a literal. The last one takes its place.
    pub fn remove(&mut self, literal: Lit, i: usize)
        requires within { code_of literal < length self.old.lists.items }
        requires inside { i < length (list_of self.old literal) }
        ensures size { length self.new.lists.items ≡ length self.old.lists.items }
        ensures removed { TakesOut i (list_of self.old literal) (list_of self.new literal) }
        ensures others { (t : ℕ) → t ≢ code_of literal → list_at self.new.lists.items t ≡ list_at self.old.lists.items t }
    {
        self.lists[literal.code()].swap_remove(i);
    }

    /// Takes the watch of a clause out of the list of a literal.
    pub fn leave(&mut self, literal: Lit, key: usize)
        requires within { code_of literal < length self.old.lists.items }
        requires there { HasKey key (list_of self.old literal) }
        ensures size { length self.new.lists.items ≡ length self.old.lists.items }
        ensures left { LeavesKey key (list_of self.old literal) (list_of self.new literal) }
        ensures others { (t : ℕ) → t ≢ code_of literal → list_at self.new.lists.items t ≡ list_at self.old.lists.items t }
    {
        let i = self.place(literal, key);
        self.remove(literal, i);
    }

    /// The place of a clause in the list of a literal. It looks from behind, since what came last goes first.
    fn place(&self, literal: Lit, key: usize) -> usize
        requires within { code_of literal < length self.now.lists.items }
        requires there { HasKey key (list_of self.now literal) }
        ensures at { (w : Watch) × (slice_get (list_of self.now literal) result ≡ Some w) × (w.key ≡ key) }
    {
        let mut i = self.count(literal) - 1;
        while self.at(literal, i).key as usize != key {
            i -= 1;
        }
        i
    }

    /// Puts another blocking literal beside the clause of a place in the list of a literal.
    pub fn block(&mut self, literal: Lit, i: usize, blocker: Lit)
        requires within { code_of literal < length self.old.lists.items }
        requires inside { i < length (list_of self.old literal) }
        ensures size { length self.new.lists.items ≡ length self.old.lists.items }
        ensures blocked { Blocks i blocker (list_of self.old literal) (list_of self.new literal) }
        ensures others { (t : ℕ) → t ≢ code_of literal → list_at self.new.lists.items t ≡ list_at self.old.lists.items t }
    {
        self.lists[literal.code()][i].blocker = blocker;
    }
}
