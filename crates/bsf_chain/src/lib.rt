//! Chains of bitstream filters, which act on packets before they are written.
#![tactic(auto)]

pub mod apply;
pub mod chain;
pub mod filter;
pub mod parse;
#[cfg(test)]
mod tests;
pub mod text;

pub use chain::Chain;
pub use filter::{BsfFault, Filter};
