//! The lane machine: what a bounded queue between a giver and a taker answers to each event, in one order of all events.
#![tactic(auto)]

mod event;
mod run;
mod state;
#[cfg(test)]
mod tests;

pub use event::{Held, LaneEvent, LaneReply};
pub use run::run_events;
pub use state::LaneState;
