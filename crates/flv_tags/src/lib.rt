//! The tags of an FLV text.
#![tactic(auto)]

mod front;
mod head;
pub mod laws;
pub mod reader;
pub mod tag;
pub mod write;

pub use reader::TagReader;
pub use tag::{Tag, TagFault, TagStep};
pub use write::{file_head, tag_head};

#[cfg(test)]
mod tests;
