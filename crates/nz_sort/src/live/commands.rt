//! Commands, carried out by their kinds: the rules in their order, and what is kept where one is broken.
ghost use Rattle.std.specs.Prelude.{◌≡◌, true, length, take, Some, IsErrOf, OnErr, IfOk, IfErr, IfSome};
ghost use Rattle.nz_sexpr.specs.View.{view};
ghost use Rattle.nz_script.specs.commands.Parse.{request_of};
ghost use Rattle.nz_script.specs.live.Live.{State};
ghost use Rattle.nz_script.specs.commands.Command.{refused};
ghost use Rattle.nz_script.specs.commands.Script.{outcome_of, outcome_requested, outcome_by};
ghost use Rattle.nz_script.specs.replies.Right.{may_want_memory};
ghost use Rattle.nz_command.specs.Requests.{may_take_memory, request};
ghost use Rattle.nz_sort.specs.Live.{IsLive, IsCarriedOut, IfSkipped, Moves, asserted_by};
ghost use Rattle.nz_sort.specs.Acts.{asked, rule_of};
ghost use Rattle.nz_sort.specs.Changes.{Comes, ComesBy};

use super::Live;
use crate::acts::{Act, info_act, setting_act};
use crate::limits::passes_limit;
use nz_base::Error;
use nz_command::{Command, number_faults, parse};
use nz_sexpr::Tree;
use nz_term::Terms;

impl Live {
    /// Carries out what a command changes in the live state, and answers what it asks. Whether the last answer has a model or a
    /// reason to show is the session's to say.
    ///
    /// # Errors
    ///
    /// That of the first rule that the command breaks, and `OutOfMemory`, but for an accepted `pop`, `echo` or `exit`. Then the live state and
    /// the table are as before, and so they are after `Unsupported`.
    #[tactic(auto, using(crate::proofs::LiveStates::cut_back, crate::proofs::LiveStates::kept_where_same))]
    pub fn command(&mut self, terms: &mut Terms, tree: &Tree) -> Result<Act, Error>
        requires live { (s : State) × IsLive terms.old self.old s }
        ensures accepted { IfOk result (λ act. (s : State) → IsLive terms.old self.old s → IsCarriedOut s (view tree.now) (asked act) terms.new self.new) }
        ensures refused { IfErr result (λ refusal. IfSome (rule_of refusal) (λ e. (s : State) → IsLive terms.old self.old s → outcome_of s (view tree.now) ≡ refused e)) }
        ensures memory { IsErrOf result Error.OutOfMemory → (s : State) → may_want_memory (outcome_of s (view tree.now)) ≡ true }
        ensures kept { take (length terms.old) terms.new ≡ terms.old }
        ensures unchanged_terms { OnErr result (terms.new ≡ terms.old) }
        ensures unchanged { OnErr result (self.new ≡ self.old) }
        ensures skipped_terms { IfOk result (λ act. IfSkipped (asked act) (terms.new ≡ terms.old)) }
        ensures skipped { IfOk result (λ act. IfSkipped (asked act) (self.new ≡ self.old)) }
        ensures moves { IfOk result (λ act. Moves (asked act) (asserted_by self.old) (asserted_by self.new)) }
    {
        let mark = terms.mark();
        match self.carried_out(terms, tree) {
            Ok(act) => Ok(act),
            Err(refusal) => {
                terms.cut(mark);
                Err(refusal)
            }
        }
    }

    /// The rules in their order: first of all the command is of its form. After an error the table may have grown, and so after those
    /// below.
    fn carried_out(&mut self, terms: &mut Terms, tree: &Tree) -> Result<Act, Error>
        requires live { (s : State) × IsLive terms.old self.old s }
        ensures comes { ComesBy terms.old terms.new self.old self.new (view tree.now) (request_of (view tree.now)) result }
        ensures memory { IsErrOf result Error.OutOfMemory → may_take_memory (request_of (view tree.now)) ≡ true }
    {
        match parse(self.alloc, tree)? {
            Some(command) => self.ruled(terms, tree, &command),
            None => Err(Error::Syntax),
        }
    }

    /// The limits, the width of numbers anywhere in the command, and then the rules on what it asks.
    fn ruled(&mut self, terms: &mut Terms, tree: &Tree, command: &Command) -> Result<Act, Error>
        requires live { (s : State) × IsLive terms.old self.old s }
        ensures comes { Comes terms.old terms.new self.old self.new (request command.now) (λ s. outcome_requested s (view tree.now) (request command.now)) result }
        ensures memory { IsErrOf result Error.OutOfMemory → may_take_memory (Some (request command.now)) ≡ true }
    {
        let faults = number_faults(tree);
        if faults.long || passes_limit(self.top.constant_count, self.below.len(), command) {
            return Err(Error::Limit);
        }
        if faults.wide {
            return Err(Error::TooWide);
        }
        self.requested(terms, command)
    }

    /// Carries out a command that is within the limits, where the program takes it.
    fn requested(&mut self, terms: &mut Terms, command: &Command) -> Result<Act, Error>
        requires live { (s : State) × IsLive terms.old self.old s }
        ensures comes { Comes terms.old terms.new self.old self.new (request command.now) (λ s. outcome_by s (request command.now)) result }
        ensures memory { IsErrOf result Error.OutOfMemory → may_take_memory (Some (request command.now)) ≡ true }
    {
        match command {
            Command::Declare(name, sorts, sort) => {
                self.declare(terms, name, sorts.as_slice(), sort)
            }
            Command::Define(name, parameters, sort, body) => {
                self.define(terms, name, parameters.as_slice(), sort, body)
            }
            Command::Assert(term) => self.assert_term(terms, term),
            Command::CheckSat => Ok(self.check_act()),
            Command::CheckSatAssuming(assumptions) => {
                self.check_under(terms, assumptions.as_slice())
            }
            Command::Push(count) => self.push_counted(*count),
            Command::Pop(count) => self.pop_counted(*count),
            Command::Reset => {
                self.clear();
                Ok(Act::Reset)
            }
            Command::ResetAssertions => {
                self.clear();
                Ok(Act::Cleared)
            }
            Command::GetModel => Ok(Act::ShowModel),
            Command::GetValue(questions) => self.show_values(terms, questions.as_slice()),
            Command::GetInfo(key) => Ok(info_act(*key)),
            Command::SetOption(setting) => Ok(setting_act(*setting)),
            Command::SetNothing => Ok(Act::Nothing),
            Command::Echo(_) => Ok(Act::Echo),
            Command::Exit => Ok(Act::Leave),
            _ => Ok(Act::Unsupported),
        }
    }
}
