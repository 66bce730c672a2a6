// How a run ends.
ghost use Rattle.std.specs.Prelude.{◌≡◌, ◌≤◌, length};
ghost use Rattle.tee.specs.Fails.{failed_slave, is_failed, is_want};
ghost use Rattle.remux.specs.Ending.{status_by, status_of_read};
ghost use Rattle.remux.specs.States.{aborts_of, each_failed, first_failed as first_failed_in, some_want, states};

use crate::read::ReadEnd;
use crate::status::{Ending, Status};
use fifo_core::EndState;
use options::SlavePlan;
use slave::SlaveEnd;

fn is_failed(state: EndState) -> bool
    ensures { result ≡ is_failed state }
{
    match state {
        EndState::Failed => true,
        EndState::Closed | EndState::NoMemory => false,
    }
}

fn is_want(state: EndState) -> bool
    ensures { result ≡ is_want state }
{
    match state {
        EndState::NoMemory => true,
        EndState::Closed | EndState::Failed => false,
    }
}

/// Whether an output wanted memory.
pub fn any_want<S>(ends: &[SlaveEnd<S>]) -> bool
    ensures { result ≡ some_want ends.now }
{
    ends.iter().any(|end| is_want(end.state))
}

fn all_failed<S>(ends: &[SlaveEnd<S>]) -> bool
    ensures { result ≡ each_failed ends.now }
{
    ends.iter().all(|end| is_failed(end.state))
}

// The first output that aborts and failed.
fn first_failed<S>(slaves: &[SlavePlan], ends: &[SlaveEnd<S>]) -> Option<u32>
    requires same { length slaves.now ≡ length ends.now }
    requires few { length ends.now ≤ 16 }
    ensures { result ≡ first_failed_in 0 slaves.now ends.now }
{
    for k in 0..ends.len() {
        if slaves[k].abort && is_failed(ends[k].state) {
            return Some(k as u32);
        }
    }
    None
}

/// The output whose failure ends a run: the first that aborts, or the first of all where every one failed.
#[tactic(auto, using(crate::proofs::Endings::failed_by))]
pub fn failed_slave<S>(slaves: &[SlavePlan], ends: &[SlaveEnd<S>]) -> Option<u32>
    requires same { length slaves.now ≡ length ends.now }
    requires few { length ends.now ≤ 16 }
    ensures { result ≡ failed_slave (aborts_of slaves.now) (states ends.now) }
{
    match first_failed(slaves, ends) {
        Some(k) => Some(k),
        None if all_failed(ends) => Some(0),
        None => None,
    }
}

// How a reading ends.
fn status_of_read(end: ReadEnd) -> Status
    ensures { result ≡ status_of_read end }
{
    match end {
        ReadEnd::Whole | ReadEnd::Stop => Status::Done,
        ReadEnd::Cut => Status::InputEnded(Ending::Cut),
        ReadEnd::Limit => Status::InputEnded(Ending::Limit),
        ReadEnd::InputFault => Status::InputFault,
        ReadEnd::NoMemory => Status::NoMemory,
    }
}

/// How a run ends whose reading ended so, of which this output failed, and of which an output wanted memory or not.
pub fn status_of(end: ReadEnd, failed: Option<u32>, wanted: bool) -> Status
    ensures { result ≡ status_by end failed wanted }
{
    match (end, failed) {
        _ if wanted => Status::NoMemory,
        (ReadEnd::NoMemory, _) => Status::NoMemory,
        (_, Some(k)) => Status::SlaveFailed(k),
        (end, None) => status_of_read(end),
    }
}
