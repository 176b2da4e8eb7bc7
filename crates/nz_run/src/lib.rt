//! A whole run of `nuz`: from the words of the command line and the bytes of the input to the bytes of the output.
#![tactic(auto)]

mod command_line;
mod program;
mod words;

pub use command_line::words_of;
pub use program::{DONE, ERROR, Ended, MEMORY, READ_FAULT, READS, USAGE, WRITE_FAULT, run};
pub use words::{USAGE_LINE, worked_words};
