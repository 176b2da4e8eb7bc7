//! Replies: what they hold, why they are what they are, and the journal of what was kept.
ghost use Rattle.std.specs.Prelude.{◌≡◌, [], ◌∷◌, ◌++◌, length, map, option_map, slice_get, None, Some, IfNone, IfOk, IfSome, OnOk, OnErr};
ghost use Rattle.nz_reply.specs.Bindings.{binding_of};
ghost use Rattle.nz_reply.specs.Reasons.{reason_of};
ghost use Rattle.nz_reply.specs.Replies.{KeptStay};
ghost use Rattle.nz_reply.specs.Values.{shown_of};
ghost use Rattle.nz_term.specs.Values.{value_of};

use nz_base::{Error, Lines, Memory};
use nz_frac::Wide;
use nz_place::Place;
use nz_search::Note;
use nz_sexpr::PackedHeard;
use nz_spec::table::term_stays;
use nz_term::{Constant, Sort, Value};
use std::alloc::{AllocError, Global};
use std::marker::Model;
use std::rc::Rc;

/// What a constant stands for in a model.
#[derive(Debug, Drop)]
pub struct Binding {
    pub constant: Constant,
    pub value: Value,
}

/// Bindings of constants, in the order of declaration. A contract sees them as a list.
#[derive(Debug, Drop)]
pub struct Bindings {
    bindings: Vec<Binding>,
}

impl Model for Bindings {
    ghost use Rattle.std.specs.Prelude.{List, map};
    ghost use Rattle.nz_spec.specs.terms.Model.{Binding};

    ghost Value = { List Binding };

    ghost use Rattle.nz_reply.specs.Bindings.{binding_of};

    ghost view = { λ b. map binding_of b.bindings.items };
}

impl Bindings {
    /// No bindings yet. Takes no memory.
    pub fn new(alloc: Global) -> Bindings
        ensures empty { result ≡ [] }
    {
        Bindings {
            bindings: Vec::new(alloc),
        }
    }

    /// Puts a binding at the end.
    pub fn push(&mut self, binding: Binding) -> Result<(), Memory>
        ensures grown { OnOk result (self.new ≡ self.old ++ binding_of binding ∷ []) }
        ensures unchanged { OnErr result (self.new ≡ self.old) }
    {
        self.bindings.push(binding)?;
        Ok(())
    }

    /// How many bindings there are.
    pub fn len(&self) -> usize
        ensures len { result ≡ length self.now }
    {
        self.bindings.len()
    }

    /// What the constant at this place stands for; nothing behind the end.
    pub fn value(&self, index: usize) -> Option<Value>
        ensures some { IfSome result (λ v. option_map (λ b. b.value) (slice_get self.now index) ≡ Some (value_of v)) }
        ensures none { IfNone result (slice_get self.now index ≡ None) }
    {
        match self.bindings.get(index) {
            Some(binding) => Some(binding.value),
            None => None,
        }
    }

    /// The bindings, in the order of declaration.
    pub fn as_slice(&self) -> &[Binding]
        ensures entries { map binding_of result.now ≡ self.now }
    {
        self.bindings.as_slice()
    }
}

/// What is told of a term's value.
#[derive(Debug, Drop)]
pub enum Shown {
    /// The value, and the term's sort.
    Value(Sort, Value),
    /// The first operation that left the numbers.
    Wide(Wide),
}

/// What is told of the terms that were asked for, in the order in which they were. A contract sees it as a list.
#[derive(Debug, Drop)]
pub struct Shows {
    shows: Vec<Shown>,
}

impl Model for Shows {
    ghost use Rattle.std.specs.Prelude.{List, map};
    ghost use Rattle.nz_script.specs.replies.Reply as spec;

    ghost Value = { List spec.Shown };

    ghost use Rattle.nz_reply.specs.Values.{shown_of};

    ghost view = { λ s. map shown_of s.shows.items };
}

impl Shows {
    /// Nothing is told yet. Takes no memory.
    pub fn new(alloc: Global) -> Shows
        ensures empty { result ≡ [] }
    {
        Shows {
            shows: Vec::new(alloc),
        }
    }

    /// Puts what is told of one term at the end.
    ///
    /// # Errors
    ///
    /// `Memory` where there is none; the list is as before.
    pub fn push(&mut self, shown: Shown) -> Result<(), Memory>
        ensures grown { OnOk result (self.new ≡ self.old ++ shown_of shown ∷ []) }
        ensures unchanged { OnErr result (self.new ≡ self.old) }
    {
        // Made anew of its parts: the proof of the call below needs their types here.
        let entry = match shown {
            Shown::Value(sort, value) => Shown::Value(sort, value),
            Shown::Wide(wide) => Shown::Wide(wide),
        };
        self.shows.push(entry)?;
        Ok(())
    }

    /// What is told of each term, in the order in which they were asked for.
    pub fn as_slice(&self) -> &[Shown]
        ensures entries { map shown_of result.now ≡ self.now }
    {
        self.shows.as_slice()
    }
}

/// What `get-info` tells whatever was said before.
#[derive(Clone, Copy, Debug, PartialEq, Eq)]
pub enum Info {
    Name,
    Version,
    Authors,
    ErrorBehavior,
}

/// Why a check wasn't decided.
#[derive(Debug, Drop)]
pub enum Reason {
    /// Each of so many units of work was used.
    UnitsSpent(u64),
    /// An operation left the numbers. It is shared, as the bindings of a model are, so that an entry of the journal stays small.
    Wide(Rc<Wide>),
}

impl Reason {
    /// The same reason, with the same operation.
    ///
    /// # Errors
    ///
    /// `AllocError` where it can't be shared once more.
    pub fn share(&self) -> Result<Reason, AllocError>
        ensures same { IfOk result (λ shared. reason_of shared ≡ reason_of self.now) }
    {
        match self {
            Reason::UnitsSpent(units) => Ok(Reason::UnitsSpent(*units)),
            Reason::Wide(wide) => Ok(Reason::Wide(wide.clone()?)),
        }
    }
}

/// A reply.
#[derive(Debug, Drop)]
pub enum Reply {
    /// Nothing is written.
    Quiet,
    /// The command was carried out, and has nothing else to tell.
    Success,
    /// With the model that was found. Its list is shared with the last answer, and with each reply that shows it.
    Sat(Rc<Bindings>),
    Unsat,
    /// And why.
    Unknown(Reason),
    /// The model of the last answer.
    Model(Rc<Bindings>),
    /// The values of the terms that the command asks for. The terms themselves stand in the command, which is kept
    /// beside the reply.
    Values(Shows),
    Info(Info),
    /// How many levels were pushed.
    Levels(usize),
    /// The reason of the last answer.
    Reason(Reason),
    /// The text that the command repeats. It stands in the command, as the terms of `Values` do.
    Echo,
    /// The program doesn't take the command.
    Unsupported,
    Error(Error),
}

/// The work of a check that wasn't decided.
#[derive(Debug, Drop)]
pub struct WorkDone {
    /// How many units the check had.
    pub limit: u64,
    pub work: Lines<Note>,
}

/// Why a reply is what it is, where the reply alone doesn't tell.
#[derive(Debug, Drop)]
pub enum Cause {
    Plain,
    /// Each unit of the work was used. In a box, since few entries have one, and each would be as large as it.
    Spent(Box<WorkDone>),
    /// An operation left the numbers at a place, where the work ended.
    Stopped(Box<Stopped>),
}

/// Where a check ended that couldn't go on, and its work.
#[derive(Debug, Drop)]
pub struct Stopped {
    pub place: Place,
    pub done: WorkDone,
}

/// A thing heard, packed, its reply, and the reply's cause.
#[derive(Debug, Drop)]
pub struct Kept {
    pub heard: PackedHeard,
    pub reply: Reply,
    pub cause: Cause,
}

/// What was kept, in order.
#[derive(Debug, Drop)]
pub struct Journal {
    kept: Vec<Kept>,
}

impl Journal {
    ghost use Rattle.nz_reply.specs.Journals.{journal_of};
    ghost use Rattle.nz_reply.specs.Replies.{all_kept};
    ghost use Rattle.nz_spec.specs.terms.Table.{Node};
    ghost use Rattle.std.specs.Prelude.{List};

    /// The journal of these entries. Takes no memory.
    pub fn from_vec(kept: Vec<Kept>) -> Journal
        ensures entries { (ns : List Node) → journal_of ns result ≡ all_kept ns kept.items }
    {
        Journal { kept }
    }

    /// The entries in their order.
    pub fn as_slice(&self) -> &[Kept]
        ensures entries { (ns : List Node) → all_kept ns result.now ≡ journal_of ns self.now }
    {
        self.kept.as_slice()
    }
}

/// What was kept means the same where the table of its terms has grown.
pub fn kept_stay()
    ensures stay { KeptStay }
{
    term_stays();
}
