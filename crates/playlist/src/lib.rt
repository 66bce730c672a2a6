//! Numbered file names, and the lists that name them.
#![tactic(auto)]

mod line;
mod list;
mod seg_options;
mod template;

pub use list::{ListEntry, ListKind, write_list};
pub use seg_options::SegOptions;
pub use template::Template;

#[cfg(test)]
mod tests;
