//! Commands, answered by what the live state asks for.
ghost use Rattle.std.specs.Prelude.{◌≡◌, List, length};
ghost use Rattle.nz_sexpr.specs.View.{view};
ghost use Rattle.nz_script.specs.text.Text as text;
ghost use Rattle.nz_script.specs.text.Text.{intact};
ghost use Rattle.nz_spec.specs.terms.Term as term;
ghost use Rattle.nz_spec.specs.search.Decide.{IsFrontOfTable};
ghost use Rattle.nz_script.specs.replies.Right.{Context, done as done_by};
ghost use Rattle.nz_reply.specs.Infos.{info_of};
ghost use Rattle.nz_reply.specs.Replies.{reply_of};
ghost use Rattle.nz_sort.specs.Acts.{info_meaning};

use super::{Answer, Desk, said};
use crate::told::{ToldExtent, pop_told};
use nz_reply::{Cause, Info, Reply};
use nz_script::script::argument_tells;
use nz_script::transcript::{assumptions_are_taken, states_stay_sorted};
use nz_search::Decide;
use nz_sexpr::Tree;
use nz_sort::{Act, Info as InfoAsked};

impl<E: Decide> Desk<E> {
    ghost use Rattle.nz_session.specs.Desk.{Holds, IsAnswer, Succeeds, table_of};
    ghost use Rattle.nz_session.specs.Told.{IsToldNothing};

    /// The answer to a command.
    pub(super) fn command(&mut self, tree: &Tree) -> Answer
        requires { (c : Context) × Holds E.levels E.table E.begins self.old c }
        ensures right { (c : Context) → Holds E.levels E.table E.begins self.old c → IsAnswer E.levels E.table E.begins c (intact (view tree.now)) result self.new }
        ensures front { IsFrontOfTable (table_of self.old) (table_of self.new) }
    {
        argument_tells();
        assumptions_are_taken();
        states_stay_sorted();
        match self.live.command(&mut self.terms, tree) {
            Err(refusal) => said(Reply::Error(refusal)),
            Ok(Act::Changed) => self.changed(),
            Ok(Act::Popped) => {
                pop_told(&mut self.engine, &mut self.told, &self.live);
                self.changed()
            }
            Ok(Act::Cleared) => {
                self.forget();
                self.succeeded()
            }
            Ok(Act::Reset) => {
                self.forget();
                self.prints_success = false;
                self.succeeded()
            }
            Ok(Act::Check(assumed)) => self.check_under(&assumed),
            Ok(Act::ShowModel) => self.show_model(),
            Ok(Act::ShowValues(asked)) => self.show_values(&asked),
            Ok(Act::ShowReason) => self.show_reason(),
            Ok(Act::ShowInfo(info)) => said(Reply::Info(info_told(info))),
            Ok(Act::ShowLevels) => said(Reply::Levels(self.live.levels())),
            Ok(Act::PrintSuccess(prints)) => {
                self.prints_success = prints;
                self.succeeded()
            }
            Ok(Act::Nothing) => self.succeeded(),
            Ok(Act::Echo) => said(Reply::Echo),
            Ok(Act::Leave) => Answer {
                reply: done(self.prints_success),
                cause: Cause::Plain,
                exits: true,
            },
            Ok(Act::Unsupported) => said(Reply::Unsupported),
        }
    }

    /// The answer to what has nothing to tell.
    fn succeeded(&self) -> Answer
        ensures succeeds { Succeeds self.now.prints_success result }
    {
        said(done(self.prints_success))
    }

    /// The answer to what changed what is live: the last answer has ended.
    fn changed(&mut self) -> Answer
        ensures rest { self.new ≡ record self.old { last = None } }
        ensures succeeds { Succeeds self.old.prints_success result }
    {
        self.last = None;
        self.succeeded()
    }

    /// Forgets the last answer, and all that the engine was told. Takes no memory.
    fn forget(&mut self)
        requires told { self.old.told.levels ≡ length (E.levels self.old.engine) }
        ensures told { IsToldNothing (E.levels self.new.engine) self.new.told }
        ensures table { E.table self.new.engine ≡ E.table self.old.engine }
        ensures begins { (ts : List term.Term) → E.begins self.old.engine ts → E.begins self.new.engine ts }
        ensures rest { self.new ≡ record self.old { engine = self.new.engine; told = self.new.told; last = None } }
    {
        self.engine.pop(self.told.levels);
        self.told = ToldExtent::NOTHING;
        self.last = None;
    }
}

/// The reply to a command that has nothing to tell, where success is told or isn't.
fn done(prints_success: bool) -> Reply
    ensures done { (what : text.What) → reply_of what result ≡ done_by (record { prints_success = prints_success }) }
{
    if prints_success {
        Reply::Success
    } else {
        Reply::Quiet
    }
}

/// The info of a reply that tells the info which a command asks for.
fn info_told(info: InfoAsked) -> Info
    ensures info { info_of result ≡ info_meaning info }
{
    match info {
        InfoAsked::Name => Info::Name,
        InfoAsked::Version => Info::Version,
        InfoAsked::Authors => Info::Authors,
        InfoAsked::ErrorBehavior => Info::ErrorBehavior,
    }
}
