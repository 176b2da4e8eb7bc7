//! What the solver stands on: the sources that it reads and the sinks that it writes, want of memory and faults as
//! errors, the errors that replies tell, and the work list of a check.
#![tactic(auto)]

mod entries;
mod errors;
mod in_memory;
mod outside;
mod reads;
mod reply_errors;
mod streams;
mod text;
mod work_list;

pub use entries::{Entry, Lines, Literals, Noted};
pub use errors::{Failed, Memory, Spent};
pub use in_memory::{MemSink, MemSource, PlainSink, PlainSource};
pub use outside::{Sink, Source, write_all};
pub use reply_errors::Error;
pub use streams::{Input, Output};
pub use text::Text;
pub use work_list::Work;
