//! All outputs of a run, fed as one.
#![tactic(auto)]

mod berth;
mod choice;
mod draft;
mod ending;
mod fault;
mod fed;
mod feeding;
mod filter;
mod lanes;
mod laws;
mod leaving;
mod making;
mod outlet;
mod output;
mod run;
mod run_ending;
mod run_feeding;
mod run_making;
mod sender;
mod sending;
mod starting;
mod tee;

pub use fault::{TeeFault, TeeRefused};
pub use fed::Fed;
pub use laws::schedule_plays_no_part;
pub use run::TeeRun;
pub use tee::{Tee, TeeEnd};
