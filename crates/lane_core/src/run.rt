//! A whole list of events.
ghost use Rattle.std.specs.Prelude.{◌≡◌, ◌<◌, ◌≤◌, map, IfOk};
ghost use Rattle.lane_core.specs.Size.{size_of};
ghost use Rattle.lane_core.specs.Machine.{start};
ghost use Rattle.lane_core.specs.Laws.{IsLawful};
ghost use Rattle.lane_core.specs.Shown.{event_of, replies_of};

use crate::event::{LaneEvent, LaneReply};
use crate::state::LaneState;
use rmx_media::NoMemory;
use std::alloc::Global;

/// The replies of a new lane to all these events, in order.
pub fn run_events(
    alloc: Global,
    cap: u32,
    limit: u64,
    events: &[LaneEvent],
) -> Result<Vec<LaneReply>, NoMemory>
    requires { (0 < cap) × (cap ≤ 256) }
    ensures replies { IfOk result (λ r. r.items ≡ replies_of record { cap = cap; limit = limit } start events.now) }
    ensures lawful { IsLawful size_of record { cap = cap; limit = limit } (map event_of events.now) }
{
    let mut state = LaneState::new(alloc, cap, limit)?;
    let mut replies = Vec::new(alloc);
    for event in events {
        let reply = state.step(*event);
        match replies.push(reply) {
            Ok(()) => {}
            Err(_) => return Err(NoMemory),
        }
    }
    Ok(replies)
}
