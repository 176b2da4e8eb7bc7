//! Questions: terms whose values are asked for.
ghost use Rattle.std.specs.Prelude.{◌≡◌, All, ◌<◌, length, map, OnOk, IfOk, IfErr, IfSome};
ghost use Rattle.nz_spec.specs.terms.Order.{HasCompanions};
ghost use Rattle.nz_spec.specs.terms.Term as spec;
ghost use Rattle.nz_script.specs.commands.Request as requests;
ghost use Rattle.nz_script.specs.live.Live.{State};
ghost use Rattle.nz_script.specs.commands.Command.{refused};
ghost use Rattle.nz_script.specs.commands.Script.{values_asked, all_linear};
ghost use Rattle.nz_command.specs.Requests.{question_view};
ghost use Rattle.nz_elaborate.specs.Typed.{Grows, AreTyped};
ghost use Rattle.nz_sort.specs.Live.{IsLive};
ghost use Rattle.nz_sort.specs.Acts.{rule_of};
ghost use Rattle.nz_sort.specs.Changes.{Comes, Shows};

use super::Live;
use crate::acts::Act;
use nz_base::Error;
use nz_command::Question;
use nz_elaborate::{Typed, elaborate_all};
use nz_spec::table::term_stays;
use nz_term::{Terms, add_companions, grows_twice};

impl Live {
    /// The terms whose values are asked for.
    pub(super) fn show_values(
        &self,
        terms: &mut Terms,
        questions: &[Question],
    ) -> Result<Act, Error>
        requires live { (s : State) × IsLive terms.old self.now s }
        ensures comes { Comes terms.old terms.new self.now self.now (requests.shows_values (map question_view questions.now)) (λ s. values_asked s (map question_view questions.now)) result }
    {
        term_stays();
        let values = self.values(terms, questions)?;
        Ok(Act::ShowValues(values))
    }

    /// The normal terms of what may be asked for, and the rules on them, with the companions of what is made.
    fn values(&self, terms: &mut Terms, questions: &[Question]) -> Result<Vec<Typed>, Error>
        requires live { (s : State) × IsLive terms.old self.now s }
        ensures grows { Grows terms.old terms.new }
        ensures companions { OnOk result (HasCompanions terms.new) }
        ensures accepted { IfOk result (λ xs. (s : State) → IsLive terms.old self.now s → Shows (map question_view questions.now) (values_asked s (map question_view questions.now)) terms.new xs.items) }
        ensures refused { IfErr result (λ refusal. IfSome (rule_of refusal) (λ e. (s : State) → IsLive terms.old self.now s → values_asked s (map question_view questions.now) ≡ refused e)) }
    {
        grows_twice();
        let mark = terms.mark();
        let values = elaborate_all(self.alloc, &self.names, terms, questions)?;
        if !are_linear(terms, values.as_slice()) {
            return Err(Error::NotLinear);
        }
        add_companions(self.alloc, terms, mark)?;
        Ok(values)
    }
}

/// Whether all of these terms are linear.
fn are_linear(terms: &Terms, values: &[Typed]) -> bool
    requires within { All (λ x. x.id < length terms.now) values.now }
    ensures linear { (ts : spec.Terms) → AreTyped terms.now values.now ts → result ≡ all_linear ts }
{
    for value in values {
        if !terms.is_linear(value.id) {
            return false;
        }
    }
    true
}
