//! The outside as traits, with objects in memory and real ones.
#![tactic(auto)]

pub mod claim;
pub mod counted;
pub mod dir_shelf;
mod fail_at;
pub mod faults;
pub mod file_inputs;
mod files;
pub mod gate;
mod gathered;
pub mod inputs;
pub mod laws;
pub mod mem_inputs;
pub mod mem_shelf;
pub mod mem_sink;
mod mem_take;
pub mod pieces;
pub mod shelf;
pub mod sink;
pub mod std_sink;

pub use claim::{Claim, claims};
pub use counted::Counted;
pub use dir_shelf::DirShelf;
pub use fail_at::FailAt;
pub use file_inputs::FileInputs;
pub use gate::{Gate, OpenGate, Point};
pub use inputs::{Failed, Inputs};
pub use mem_inputs::MemInputs;
pub use mem_shelf::MemShelf;
pub use mem_sink::MemSink;
pub use pieces::{write_piece, write_three, write_two};
pub use shelf::{Shelf, ShelfFault};
pub use sink::Sink;
pub use std_sink::StdSink;

#[cfg(test)]
mod tests;
