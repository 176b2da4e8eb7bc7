//! Chains of resolvents, of which the last one is kept.
ghost use Rattle.std.specs.Prelude.{◌≡◌, ℕ, ◌<◌, [], List, length, All, OnOk, OnErr, IfOk};
ghost use Rattle.nz_spec.specs.terms.Table.{Node};
ghost use Rattle.nz_log.specs.Atoms.{IsLitIn};
ghost use Rattle.nz_log.specs.Logs.{IsLive, Puts, chain_entry, chained, level_of_links, literals_at, resolvent_entry};
ghost use Rattle.nz_log.specs.Sound.{IsLog};
ghost use Rattle.nz_log.specs.Growth.{Grows};

use super::Log;
use crate::lits::Lit;
use crate::origins::{ClauseId, Link, Origin, Stored};
use crate::resolvent::Resolvent;
use crate::sets::Literals;
use nz_base::Memory;
use std::mem::replace;

impl Log {
    /// The last of a chain of resolvents: that of the first clause with the clause of the first link on its literal, then that of
    /// this resolvent with the clause of the next link, and so on. The clauses between aren't kept.
    ///
    /// # Errors
    ///
    /// `Memory`. Then the log is as before.
    pub fn chain(&mut self, first: ClauseId, links: &[Link]) -> Result<ClauseId, Memory>
        requires first { IsLive self.old first }
        requires live { All (λ k. IsLive self.old k.clause) links.now }
        requires some { 0 < length links.now }
        ensures made { IfOk result (λ id. Puts self.old id (chain_entry self.old first links.now) self.new) }
        ensures unchanged { OnErr result (self.new ≡ self.old) }
        ensures atoms { self.new.atoms ≡ self.old.atoms }
        ensures grows { Grows self.old self.new }
        // Where each literal is of the table, the log stays in order.
        ensures sound { (ns : List Node) (levels : List (List ℕ)) → All (λ k. IsLitIn ns self.old.atoms k.literal) links.now → IsLog ns levels self.old → IsLog ns levels self.new }
    {
        let literals = self.last_of_chain(first, links)?;
        let level = self.level_of_links(self.level(first), links);
        let level = self.level_with(level, literals.as_slice());
        let links = Vec::from_slice(self.alloc(), links)?;
        self.put(Stored {
            literals,
            level,
            origin: Origin::Chain(first, links),
        })
    }

    /// The resolvent of two clauses: the first without the literal, and the second without its negation.
    ///
    /// # Errors
    ///
    /// `Memory`. Then the log is as before.
    pub fn resolve(
        &mut self,
        first: ClauseId,
        second: ClauseId,
        literal: Lit,
    ) -> Result<ClauseId, Memory>
        requires first { IsLive self.old first }
        requires second { IsLive self.old second }
        ensures made { IfOk result (λ id. Puts self.old id (resolvent_entry self.old first second literal) self.new) }
        ensures unchanged { OnErr result (self.new ≡ self.old) }
        ensures atoms { self.new.atoms ≡ self.old.atoms }
        ensures sound { (ns : List Node) (levels : List (List ℕ)) → IsLitIn ns self.old.atoms literal → IsLog ns levels self.old → IsLog ns levels self.new }
    {
        let link = Link {
            clause: second,
            literal,
        };
        self.chain(first, &[link])
    }

    /// The literals of the last clause of a chain, in the resolvent of the log. Where there is no memory it has a new one.
    fn last_of_chain(&mut self, first: ClauseId, links: &[Link]) -> Result<Literals, Memory>
        requires first { IsLive self.old first }
        requires live { All (λ k. IsLive self.old k.clause) links.now }
        requires some { 0 < length links.now }
        ensures literals { IfOk result (λ c. c.items ≡ chained self.old (literals_at self.old first) links.now) }
        ensures unchanged { self.new ≡ self.old }
    {
        let none = Resolvent::new(self.alloc());
        let mut resolvent = replace(&mut self.resolvent, none);
        let literals = self.chained(&mut resolvent, first, links)?;
        self.resolvent = resolvent;
        Ok(literals)
    }

    /// The literals of the last clause of a chain, in a resolvent that has none before, nor after where there is memory.
    fn chained(
        &self,
        resolvent: &mut Resolvent,
        first: ClauseId,
        links: &[Link],
    ) -> Result<Literals, Memory>
        requires empty { resolvent.old ≡ [] }
        requires first { IsLive self.now first }
        requires live { All (λ k. IsLive self.now k.clause) links.now }
        requires some { 0 < length links.now }
        ensures literals { IfOk result (λ c. c.items ≡ chained self.now (literals_at self.now first) links.now) }
        ensures empty { OnOk result (resolvent.new ≡ []) }
    {
        resolvent.add_all(self.clause(first))?;
        for link in links {
            resolvent.resolve_with(link.literal, self.clause(link.clause))?;
        }
        resolvent.take()
    }

    /// The greatest of a level and those of the clauses of a chain.
    fn level_of_links(&self, level: usize, links: &[Link]) -> usize
        requires live { All (λ k. IsLive self.now k.clause) links.now }
        ensures level { result ≡ level_of_links self.now level links.now }
    {
        let mut greatest = level;
        for link in links {
            greatest = greatest.max(self.level(link.clause));
        }
        greatest
    }
}
