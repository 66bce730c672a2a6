//! ADTS (ISO/IEC 14496-3, 1.A.2): heads of AAC frames, and files of them.
#![tactic(auto)]

mod head;
pub mod laws;
pub mod mux;

pub use head::adts_head;
pub use mux::AdtsMux;

#[cfg(test)]
mod tests;
