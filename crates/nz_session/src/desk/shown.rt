//! What is shown of the last answer: its model, values under it, or the reason why it was none.
ghost use Rattle.std.specs.Prelude.{◌≡◌, Some};
ghost use Rattle.nz_script.specs.text.Text.{intact};
ghost use Rattle.nz_spec.specs.terms.Term as term;
ghost use Rattle.nz_script.specs.commands.Request.{Request};
ghost use Rattle.nz_script.specs.commands.Parse.{request_of};
ghost use Rattle.nz_script.specs.commands.Command.{Command};
ghost use Rattle.nz_script.specs.replies.Right.{Context};
ghost use Rattle.nz_sort.specs.Live.{AsksValues};
ghost use Rattle.nz_elaborate.specs.Typed.{AreTyped};

use super::{Answer, Desk, LastAnswer, said};
use crate::values::values_shown;
use nz_base::{Error, Memory};
use nz_elaborate::Typed;
use nz_reply::Reply;
use nz_script::script::argument_tells;
use nz_search::Decide;
use std::alloc::AllocError;

impl<E: Decide> Desk<E> {
    ghost use Rattle.nz_script.specs.text.Tree as script;
    ghost use Rattle.nz_script.specs.commands.Command.{accepted, get_model, get_reason};
    ghost use Rattle.nz_script.specs.commands.Script.{outcome_of};
    ghost use Rattle.nz_session.specs.Desk.{Holds, IsAnswer, asked_in};

    /// The answer to `get-model`.
    pub(super) fn show_model(&self) -> Answer
        ensures right { (c : Context) (tree : script.Tree) → Holds E.levels E.table E.begins self.now (asked_in c tree) → outcome_of c.state tree ≡ accepted get_model → IsAnswer E.levels E.table E.begins c (intact tree) result self.now }
    {
        match &self.last {
            Some(LastAnswer::Model(model)) => match model.bindings.clone() {
                Ok(shown) => said(Reply::Model(shown)),
                Err(AllocError) => said(Reply::Error(Error::OutOfMemory)),
            },
            _ => said(Reply::Error(Error::NothingToShow)),
        }
    }

    /// The answer to `get-value` of these terms.
    pub(super) fn show_values(&self, asked: &[Typed]) -> Answer
        requires typed { (terms : term.Terms) × AreTyped self.now.terms asked.now terms }
        ensures right { (c : Context) (tree : script.Tree) (r : Request) (k : Command) → Holds E.levels E.table E.begins self.now (asked_in c tree) → request_of tree ≡ Some r → outcome_of c.state tree ≡ accepted k → AsksValues self.now.terms asked.now r k → IsAnswer E.levels E.table E.begins c (intact tree) result self.now }
    {
        argument_tells();
        match &self.last {
            Some(LastAnswer::Model(model)) => {
                match values_shown(self.alloc, &self.terms, &model.values, asked) {
                    Ok(shows) => said(Reply::Values(shows)),
                    Err(Memory) => said(Reply::Error(Error::OutOfMemory)),
                }
            }
            _ => said(Reply::Error(Error::NothingToShow)),
        }
    }

    /// The answer to `get-info` of the reason of the last answer.
    pub(super) fn show_reason(&self) -> Answer
        ensures right { (c : Context) (tree : script.Tree) → Holds E.levels E.table E.begins self.now (asked_in c tree) → outcome_of c.state tree ≡ accepted get_reason → IsAnswer E.levels E.table E.begins c (intact tree) result self.now }
    {
        match &self.last {
            Some(LastAnswer::Undecided(reason)) => match reason.share() {
                Ok(shown) => said(Reply::Reason(shown)),
                Err(AllocError) => said(Reply::Error(Error::OutOfMemory)),
            },
            _ => said(Reply::Error(Error::NothingToShow)),
        }
    }
}
