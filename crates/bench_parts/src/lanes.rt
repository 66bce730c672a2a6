// Messages from one thread to another through a lane.
ghost use Rattle.std.specs.Prelude.{◌≡◌, ◌+◌, ◌<◌, ◌≤◌, [], length, true, false, Some};
ghost use Rattle.rmx_media.specs.Streams.{kind_in};
ghost use Rattle.rmx_media.specs.declared.packet.Format.TheVariants.{Adts};
ghost use Rattle.rmx_media.specs.declared.streams.Kind.TheVariants.{Audio};

use crate::packets::{msg, streams};
use lane::{Giver, Lane, Taken, Taker};
use rmx_media::{Format, NoMemory};
use std::alloc::Global;
use std::sync::Wait;
use std::thread;
use std::thread::Threads;
use std::time::{Clock, Duration};

// Puts so many messages, and closes.
fn put_all<R: Wait>(rt: &R, lane: &Lane, giver: Giver, count: u32) -> Giver
    requires ring { giver.ring ≡ lane.now.ring }
    requires about { (giver.about.drops ≡ false) × (giver.about.format ≡ Adts) × (kind_in giver.about.streams.value.streams.items 0 ≡ Some Audio) }
    requires none { (giver.given ≡ []) × (giver.past ≡ []) × (giver.closed ≡ false) }
    ensures { (result.ring ≡ giver.ring) × (length result.given ≡ count) × (result.closed ≡ true) }
{
    let mut giver = giver;
    for i in 0..count {
        lane.put(rt, &mut giver, msg(u64::from(i)));
    }
    lane.close(&mut giver);
    giver
}

// Takes all messages, and counts them.
fn take_all<R: Wait>(rt: &R, lane: &Lane, taker: Taker) -> u32
    requires { taker.ring ≡ lane.now.ring }
{
    let mut taker = taker;
    let mut taken = 0u32;
    for _ in rt.forever() {
        match lane.take_wait(rt, &mut taker) {
            Taken::Got(_) => taken = taken.wrapping_add(1),
            Taken::Empty => unreachable!(),
            Taken::Ended => return taken,
        }
    }
    unreachable!()
}

/// Passes so many messages through a lane of so many places, and answers how many came.
pub fn pass<R: Threads + Wait + Sync>(
    rt: &R,
    alloc: Global,
    cap: u32,
    count: u32,
) -> Result<u32, NoMemory>
    requires { (0 < cap) × (cap ≤ 256) }
{
    let streams = streams(alloc)?;
    let (lane, giver, taker) = Lane::new(alloc, cap, 0, false, Format::Adts, &streams)?;
    let (_, taken) = thread::join(
        rt,
        || put_all(rt, &lane, giver, count),
        || take_all(rt, &lane, taker),
    );
    Ok(taken)
}

// Closes the lane after so many milliseconds.
fn close_late<R: Clock>(rt: &R, lane: &Lane, giver: Giver, millis: u32)
    requires ring { giver.ring ≡ lane.now.ring }
    requires open { giver.closed ≡ false }
{
    let mut giver = giver;
    thread::sleep(rt, Duration::from_millis(u64::from(millis)));
    lane.close(&mut giver);
}

/// Waits so many milliseconds on a lane that stays empty, and answers how many messages came.
pub fn wait<R: Threads + Wait + Clock + Sync>(
    rt: &R,
    alloc: Global,
    millis: u32,
) -> Result<u32, NoMemory> {
    let streams = streams(alloc)?;
    let (lane, giver, taker) = Lane::new(alloc, 1, 0, false, Format::Adts, &streams)?;
    let (_, taken) = thread::join(
        rt,
        || close_late(rt, &lane, giver, millis),
        || take_all(rt, &lane, taker),
    );
    Ok(taken)
}
