//! Replies: what they hold and why, their texts, and the journal of what was kept.
#![tactic(auto)]

mod number;
mod reply;
mod symbol;
mod text;
mod tree;
mod write;

pub use reply::{
    Binding, Bindings, Cause, Info, Journal, Kept, Reason, Reply, Shown, Shows, Stopped, WorkDone,
    kept_stay,
};
pub use text::write_reply;
pub use write::{WriteFault, write_parts, write_text};
