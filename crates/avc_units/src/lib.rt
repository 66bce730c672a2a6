//! AVC units: behind length fields, behind start codes, and in lists.
#![tactic(auto)]

pub mod filled;
pub mod front;
pub mod iter;
pub mod list;
pub mod native;
pub mod pieces;
pub mod placed;
pub mod print;
#[cfg(test)]
mod tests;

pub use iter::Units;
pub use list::UnitList;
pub use native::{read_again, unit_type, units, valid_units};
pub use pieces::{Pieces, annexb_len, annexb_pieces};
