//! What is heard in a script.
use crate::tree::Tree;
use nz_base::Error;

/// How far a command may go.
#[derive(Clone, Copy, Debug, PartialEq, Eq)]
pub struct Limits {
    /// How deep lists may nest, the command's own list counted.
    pub depth: usize,
    /// How many bytes a command may have from `(` to `)`.
    pub bytes: u64,
}

/// What a thing heard is.
#[derive(Debug, Drop)]
pub enum What {
    /// A command without fault.
    Tree(Tree),
    /// Refused in reading: it has a bad token, or goes beyond a limit.
    Bad(Error),
    /// A command that is still open at the end of the input.
    Unclosed,
    /// A command without fault for which there was no memory while it was read.
    Unread,
}

/// A thing heard, from its first byte to one past its last.
///
/// Past the last number of their type places stand at that number.
#[derive(Debug, Drop)]
pub struct Heard {
    pub from: u64,
    pub to: u64,
    pub what: What,
}
