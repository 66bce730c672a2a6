//! Numbered files that are cut at key packets, and the list that names them in the end.
#![tactic(auto)]

mod cutter;
mod file_mux;
pub mod laws;
mod mux;
mod streams;
mod timeline;

pub use cutter::Cutter;
pub use file_mux::FileMux;
pub use mux::SegMux;

#[cfg(test)]
mod tests;
