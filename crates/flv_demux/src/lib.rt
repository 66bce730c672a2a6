//! Packets of an FLV text: what its tags mean, which streams it has, and what comes of each tag.
#![tactic(auto)]

mod deal;
pub mod demuxer;
mod desk;
mod meaning;
mod probe;
mod steps;

pub use deal::Discards;
pub use demuxer::{DemuxFault, DemuxStep, Demuxer};

#[cfg(test)]
mod tests;
