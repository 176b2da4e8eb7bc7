//! Declarations of constants.
ghost use Rattle.std.specs.Prelude.{◌≡◌, List, length, map, take, OnOk, OnErr, IfOk, IfErr, IfSome, None};
ghost use Rattle.std.specs.List.{list_any};
ghost use Rattle.nz_spec.specs.terms.Table.{Node};
ghost use Rattle.nz_script.specs.commands.Request as requests;
ghost use Rattle.nz_script.specs.live.Live.{State};
ghost use Rattle.nz_script.specs.commands.Command.{accepted, refused, declare_const};
ghost use Rattle.nz_script.specs.commands.Script.{declaration_of, is_unknown_sort as is_unknown};
ghost use Rattle.nz_term.specs.Constants.{sort_of};
ghost use Rattle.nz_command.specs.Requests.{sort_view};
ghost use Rattle.nz_elaborate.specs.Names.{named_by};
ghost use Rattle.nz_sort.specs.Live.{IsLive};
ghost use Rattle.nz_sort.specs.Acts.{rule_of};
ghost use Rattle.nz_sort.specs.Changes.{Comes, HasAdded, constant_of, with_constant};

use super::{Live, number_after};
use crate::acts::Act;
use crate::items::Accepted;
use nz_base::{Error, Memory, Text};
use nz_command::WrittenSort;
use nz_elaborate::{Named, Typed, is_unknown_sort, written_sort};
use nz_spec::table::term_stays;
use nz_term::{Constant, Head, Sort, Terms};

impl Live {
    /// Declares a constant of this name and sort, where it is no function: it has no arguments.
    pub(super) fn declare(
        &mut self,
        terms: &mut Terms,
        name: &Text,
        sorts: &[WrittenSort],
        sort: &WrittenSort,
    ) -> Result<Act, Error>
        ensures comes { Comes terms.old terms.new self.old self.new (requests.declares name.now (map sort_view sorts.now) (sort_view sort.now)) (λ s. declaration_of s name.now (map sort_view sorts.now) (sort_view sort.now)) result }
    {
        term_stays();
        let sort = self.declared_sort(name, sorts, sort)?;
        self.add_constant(terms, name, sort)?;
        Ok(Act::Changed)
    }

    /// The sort of a constant of this name, where it is declared.
    fn declared_sort(
        &self,
        name: &Text,
        sorts: &[WrittenSort],
        sort: &WrittenSort,
    ) -> Result<Sort, Error>
        ensures fresh { OnOk result (named_by self.now.names name.now ≡ None) }
        ensures accepted { IfOk result (λ found. (ns : List Node) (s : State) → IsLive ns self.now s → declaration_of s name.now (map sort_view sorts.now) (sort_view sort.now) ≡ accepted (declare_const (constant_of name.now (sort_of found)))) }
        ensures refused { IfErr result (λ refusal. IfSome (rule_of refusal) (λ e. (ns : List Node) (s : State) → IsLive ns self.now s → declaration_of s name.now (map sort_view sorts.now) (sort_view sort.now) ≡ refused e)) }
    {
        if has_unknown_sort(sorts) || is_unknown_sort(sort) {
            return Err(Error::UnknownSymbol);
        }
        if self.names.get(name).is_some() {
            return Err(Error::AlreadyDeclared);
        }
        if !sorts.is_empty() {
            return Err(Error::Sort);
        }
        match written_sort(sort) {
            Some(found) => Ok(found),
            None => Err(Error::Sort),
        }
    }

    /// Adds a constant of a name that isn't there yet to the table and to what stands.
    #[tactic(auto, using(crate::proofs::LiveStates::kept_where_same, crate::proofs::LiveStates::kept_with_one))]
    fn add_constant(&mut self, terms: &mut Terms, name: &Text, sort: Sort) -> Result<(), Memory>
        requires fresh { named_by self.old.names name.now ≡ None }
        ensures added { OnOk result (HasAdded name.now (sort_of sort) terms.old terms.new self.old self.new) }
        ensures kept { take (length terms.old) terms.new ≡ terms.old }
        ensures unchanged { OnErr result (self.new ≡ self.old) }
    {
        let constant = Constant {
            name: Text::from_slice(self.alloc, name.as_bytes())?,
            sort,
        };
        let key = Text::from_slice(self.alloc, name.as_bytes())?;
        let id = terms.make(Head::Constant(&constant), &[])?;
        self.keep_constant(key, Typed { id, sort })
    }

    /// Keeps a constant of a name that isn't there yet.
    fn keep_constant(&mut self, name: Text, term: Typed) -> Result<(), Memory>
        requires fresh { named_by self.old.names name ≡ None }
        ensures kept { OnOk result (self.new ≡ with_constant self.old name term) }
        ensures unchanged { OnErr result (self.new ≡ self.old) }
    {
        let number = self.next;
        let next = number_after(number)?;
        let constant_count = number_after(self.top.constant_count)?;
        self.top.constants.reserve(1)?;
        self.top.accepted.reserve(1)?;
        self.names.insert(name, Named::Constant(term))?;
        self.top.constants.push_reserved(Accepted {
            number,
            term: term.id,
        });
        self.top.accepted.push_reserved(term.id);
        self.top.constant_count = constant_count;
        self.top.holds_integers = self.top.holds_integers || term.sort == Sort::Int;
        self.next = next;
        Ok(())
    }
}

/// One of the sorts is by a name that no sort has.
fn has_unknown_sort(sorts: &[WrittenSort]) -> bool
    ensures unknown { result ≡ list_any (λ w. is_unknown (sort_view w)) sorts.now }
{
    sorts.iter().any(|sort| is_unknown_sort(sort))
}
