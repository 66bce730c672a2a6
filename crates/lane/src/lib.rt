//! A bounded queue of packets: one thread gives messages, and another takes them in the same order.
#![tactic(auto)]

mod backoff;
mod counts;
mod ends;
mod lane;
mod msg;
mod plays;
mod receipt;
mod sizes;
#[cfg(test)]
mod tests;
mod view;

pub use counts::LaneCounts;
pub use ends::{Giver, Taker};
pub use lane::Lane;
pub use msg::{Msg, Purpose};
pub use receipt::{Offer, Receipt, Taken};
