//! Assertions of terms.
ghost use Rattle.std.specs.Prelude.{◌≡◌, ◌<◌, length, OnOk, OnErr, IfOk, IfErr, IfSome};
ghost use Rattle.nz_spec.specs.terms.Order.{HasCompanions};
ghost use Rattle.nz_script.specs.commands.Request as requests;
ghost use Rattle.nz_script.specs.live.Live.{State};
ghost use Rattle.nz_script.specs.commands.Command.{refused};
ghost use Rattle.nz_script.specs.commands.Script.{assertion_of};
ghost use Rattle.nz_command.specs.View.{view as written};
ghost use Rattle.nz_elaborate.specs.Typed.{Grows};
ghost use Rattle.nz_sort.specs.Live.{IsLive};
ghost use Rattle.nz_sort.specs.Acts.{rule_of};
ghost use Rattle.nz_sort.specs.Changes.{Comes, Asserts, with_assertion};

use super::{Live, number_after};
use crate::acts::Act;
use crate::items::Accepted;
use nz_base::{Error, Memory};
use nz_command::Expression;
use nz_elaborate::elaborate;
use nz_spec::table::term_stays;
use nz_term::{Sort, TermId, Terms, add_companions, grows_twice};

impl Live {
    /// Asserts a term.
    pub(super) fn assert_term(&mut self, terms: &mut Terms, term: &Expression) -> Result<Act, Error>
        requires live { (s : State) × IsLive terms.old self.old s }
        ensures comes { Comes terms.old terms.new self.old self.new (requests.asserts (written term.now)) (λ s. assertion_of s (written term.now)) result }
    {
        term_stays();
        let id = self.assertion(terms, term)?;
        self.keep_assertion(id, terms.holds_integer(id))?;
        Ok(Act::Changed)
    }

    /// The normal term of what may be asserted, and the rules on it, with the companions of what is made.
    fn assertion(&self, terms: &mut Terms, term: &Expression) -> Result<TermId, Error>
        requires live { (s : State) × IsLive terms.old self.now s }
        ensures grows { Grows terms.old terms.new }
        ensures companions { OnOk result (HasCompanions terms.new) }
        ensures within { IfOk result (λ id. id < length terms.new) }
        ensures accepted { IfOk result (λ id. (s : State) → IsLive terms.old self.now s → Asserts (assertion_of s (written term.now)) terms.new id) }
        ensures refused { IfErr result (λ refusal. IfSome (rule_of refusal) (λ e. (s : State) → IsLive terms.old self.now s → assertion_of s (written term.now) ≡ refused e)) }
    {
        grows_twice();
        let mark = terms.mark();
        let made = elaborate(self.alloc, &self.names, terms, term)?;
        if made.sort != Sort::Bool {
            return Err(Error::Sort);
        }
        if !terms.is_linear(made.id) {
            return Err(Error::NotLinear);
        }
        add_companions(self.alloc, terms, mark)?;
        Ok(made.id)
    }

    /// Keeps the assertion of a term, which holds a unit of sort `Int` or doesn't.
    fn keep_assertion(&mut self, term: TermId, holds: bool) -> Result<(), Memory>
        ensures kept { OnOk result (self.new ≡ with_assertion self.old term holds) }
        ensures unchanged { OnErr result (self.new ≡ self.old) }
    {
        let number = self.next;
        let next = number_after(number)?;
        self.top.assertions.reserve(1)?;
        self.top.accepted.push(term)?;
        self.top.assertions.push_reserved(Accepted { number, term });
        self.top.holds_integers = self.top.holds_integers || holds;
        self.next = next;
        Ok(())
    }
}
