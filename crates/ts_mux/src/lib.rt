//! MPEG transport streams (ISO/IEC 13818-1): coded packets as PES packets, these in cells of 188 bytes, and files of them.
#![tactic(auto)]

mod cadence;
mod cell_front;
mod cells;
mod fronts;
mod joined;
pub mod laws;
mod mux;
mod pes;
mod pieces;
mod program;
mod tables;
mod timed;
mod times;
mod track;

pub use mux::TsMux;

#[cfg(test)]
mod tests;
