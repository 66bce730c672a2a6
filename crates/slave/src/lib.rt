//! One output: its sessions, the fates of its packets, and the notes of its faults.
#![tactic(auto)]

mod errand;
mod job;
mod kit;
mod laws;
mod mux;
mod name;
mod places;
mod records;
mod refusals;
mod run;
mod runs;
mod spawner;
mod task;
mod watched;
mod work_laws;

pub use job::{SlaveEnd, SlaveJob};
pub use kit::SlaveKit;
pub use laws::{
    ends_meet_accounts, ends_meet_all_accounts, failures_are_noted, faults_decide,
    given_up_stays_so, lanes_deal, lanes_hand_over, loss_is_bounded, no_fault_no_loss,
    sound_never_fails, unrefused_follow, workers_pass_on,
};
pub use mux::Mux;
pub use name::session_name;
pub use places::Places;
pub use records::{FaultAt, FaultNote, LaneNote, Run, SessionNote};
pub use run::{WorkEnd, work};
pub use runs::{add_fate, joins};
pub use spawner::{RefusingSpawner, Spawner, ThreadSpawner, start};
pub use task::Running;
pub use work_laws::turns_are_exact;

#[cfg(test)]
mod refusal_tests;
#[cfg(test)]
mod tests;
#[cfg(test)]
mod worker_tests;
