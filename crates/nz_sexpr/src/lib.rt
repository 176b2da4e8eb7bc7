//! The reader of scripts: bytes in, in pieces of any size, and the things heard in them out, with their places.
#![tactic(auto)]

mod bytes;
mod heard;
mod packed;
mod part;
mod reader;
mod scan;
mod store;
mod tree;
mod words;

pub use heard::{Heard, Limits, What};
pub use packed::{Packed, PackedHeard, PackedWhat};
pub use reader::Reader;
pub use tree::{Token, Tree, TreeList};
pub use words::is_simple_symbol;
