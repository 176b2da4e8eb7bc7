//! The tree of a command's text, and what is wrong with its numbers.

use nz_base::Error;
use nz_command::number_faults;
use nz_sexpr::{Limits, Reader, Tree, What};
use std::alloc::Global;

const LIMITS: Limits = Limits {
    depth: 200,
    bytes: 1 << 20,
};

/// The tree of what was heard.
fn heard_tree(what: What) -> Result<Tree, Error> {
    match what {
        What::Tree(tree) => Ok(tree),
        What::Bad(error) => Err(error),
        What::Unclosed => Err(Error::Incomplete),
        What::Unread => Err(Error::OutOfMemory),
    }
}

/// The tree of a command's text.
///
/// # Errors
///
/// That by which the reader refuses it, `Incomplete` where it ends inside the command, and `OutOfMemory`.
pub(crate) fn read(alloc: Global, command: &str) -> Result<Tree, Error> {
    let mut reader = Reader::new(alloc, LIMITS);
    let (_, heard) = reader.feed(command.as_bytes());
    match heard {
        Some(heard) => heard_tree(heard.what),
        None => Err(Error::Incomplete),
    }
}

/// Whether a number of a command's text is too wide, and whether one is too long behind the point.
pub(crate) fn faults(alloc: Global, command: &str) -> Result<(bool, bool), Error> {
    let tree = read(alloc, command)?;
    let found = number_faults(&tree);
    Ok((found.wide, found.long))
}
