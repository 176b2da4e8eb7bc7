//! The desk: what a command acts on, and the answer to it.
ghost use Rattle.std.specs.Prelude.{◌≡◌, List, [], IfOk, false};
ghost use Rattle.nz_sexpr.specs.View.{what_view};
ghost use Rattle.nz_spec.specs.terms.Term as term;
ghost use Rattle.nz_spec.specs.search.Decide.{IsFrontOfTable};
ghost use Rattle.nz_script.specs.replies.Right.{Context};

mod checks;
mod commands;
mod outcomes;
mod shown;

use crate::models::FoundModel;
use crate::told::ToldExtent;
use nz_base::{Error, Memory, Work};
use nz_reply::{Cause, Reason, Reply};
use nz_search::{Decide, Note};
use nz_sexpr::What;
use nz_sort::Live;
use nz_term::Terms;
use std::alloc::Global;

/// What is said to a thing heard.
#[derive(Debug, Drop)]
pub struct Answer {
    pub reply: Reply,
    pub cause: Cause,
    /// It was an accepted `exit`.
    pub exits: bool,
}

/// What commands act on: the live state with its table of terms, the engine, and what the last answer shows.
#[derive(Drop)]
pub struct Desk<E: Decide> {
    alloc: Global,
    terms: Terms,
    live: Live,
    engine: E,
    told: ToldExtent,
    work: Work<Note>,
    limit: u64,
    prints_success: bool,
    last: Option<LastAnswer>,
}

/// What the last answer was, while it stands.
#[derive(Debug, Drop)]
pub enum LastAnswer {
    Model(FoundModel),
    Refutation,
    Undecided(Reason),
}

impl<E: Decide> Desk<E> {
    ghost use Rattle.nz_script.specs.replies.Right.{beginning};
    ghost use Rattle.nz_session.specs.Desk.{Holds, IsAnswer, table_of};

    /// The desk of the start, over an engine that was told nothing yet, with this limit of units for each check. Any search may begin with what the
    /// engine keeps.
    pub fn new(alloc: Global, engine: E, limit: u64) -> Result<Desk<E>, Memory>
        requires levels { E.levels engine ≡ [] }
        requires table { E.table engine ≡ [] }
        requires begins { (ts : List term.Term) → E.begins engine ts }
        ensures start { IfOk result (λ desk. Holds E.levels E.table E.begins desk (beginning limit)) }
    {
        Ok(Desk {
            alloc,
            terms: Terms::new(alloc)?,
            live: Live::new(alloc)?,
            engine,
            told: ToldExtent::NOTHING,
            work: Work::new(alloc)?,
            limit,
            prints_success: false,
            last: None,
        })
    }

    /// The answer to a thing heard.
    pub fn answer(&mut self, what: &What) -> Answer
        requires { (c : Context) × Holds E.levels E.table E.begins self.old c }
        ensures right { (c : Context) → Holds E.levels E.table E.begins self.old c → IsAnswer E.levels E.table E.begins c (what_view what.now) result self.new }
        ensures front { IsFrontOfTable (table_of self.old) (table_of self.new) }
    {
        match what {
            What::Tree(tree) => self.command(tree),
            What::Bad(error) => said(Reply::Error(*error)),
            What::Unclosed => said(Reply::Error(Error::Incomplete)),
            What::Unread => said(Reply::Error(Error::OutOfMemory)),
        }
    }

    /// The table of terms. Takes no memory.
    pub fn into_terms(self) -> Terms
        ensures terms { result ≡ table_of self }
    {
        let Desk {
            alloc: _,
            terms,
            live,
            engine,
            told: _,
            work,
            limit: _,
            prints_success: _,
            last,
        } = self;
        drop(live);
        drop(engine);
        drop(work);
        drop(last);
        terms
    }
}

/// An answer by its reply alone.
fn said(reply: Reply) -> Answer
    ensures said { result ≡ record { reply = reply; cause = Cause.Plain; exits = false } }
{
    Answer {
        reply,
        cause: Cause::Plain,
        exits: false,
    }
}
