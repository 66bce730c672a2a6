//! Files of FLV (Adobe Flash Video File Format Specification 10.1, annex E).
#![tactic(auto)]

mod head;
mod kinds;
pub mod laws;
pub mod mux;
mod packet;
mod tags;
mod timed;
mod track;

pub use mux::FlvMux;

#[cfg(test)]
mod tests;
