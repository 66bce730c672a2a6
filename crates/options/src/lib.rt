//! The words of a command line, and the plan that they say.
#![tactic(auto)]

mod block;
mod draft;
mod escape;
mod fault;
mod fifo;
mod fifos;
mod filters;
mod key;
mod keyword;
mod name;
mod number;
mod options;
mod segment;
mod select;
mod slave;
mod tee;
mod text;
mod time;
mod words;

pub use fault::{WordFault, WordKind};
pub use fifo::FifoKey;
pub use filters::{joined_chain, selects};
pub use key::{Key, Row};
pub use select::Spec;
pub use slave::SlavePlan;
pub use words::{Plan, Source, WordOption, read_words};

#[cfg(test)]
mod grammar;
#[cfg(test)]
mod tests;
