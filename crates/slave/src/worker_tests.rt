// Workers in threads of their own, over small shelves. The packets are one byte of AAC each, so a frame has 8 bytes.
ghost use Rattle.std.specs.Prelude.{◌≡◌, ◌+◌, ◌≤◌, ◌<◌, ◌^◌, [], length, true, false, Some, IfOk};
ghost use Rattle.lane.specs.Follows.{next_index};
ghost use Rattle.rmx_media.specs.Config.{IsReadAac};
ghost use Rattle.rmx_media.specs.Fits.{Fits};
ghost use Rattle.rmx_media.specs.Streams.{CanMux, kind_in};
ghost use Rattle.rmx_media.specs.declared.packet.Format.TheVariants.{Adts};
ghost use Rattle.rmx_media.specs.declared.streams.Kind.TheVariants.{Audio};
ghost use Rattle.rmx_media.specs.declared.streams.MuxStreams.{MuxStreams as Streams};

use crate::{RefusingSpawner, SlaveEnd, SlaveJob, Spawner, ThreadSpawner, start};
use bytes::Bytes;
use fifo_core::{EndState, Fate, FifoOptions};
use lane::{Giver, Lane, LaneCounts, Msg, Offer};
use rmx_edge::{MemShelf, OpenGate};
use rmx_media::{
    AacConfig, Config, Form, Format, Items, Kind, MuxStream, MuxStreams, Packet, StreamInfo,
};
use std::alloc::Global;
use std::sync::{Arc, Wait};
use std::test::Fail;
use std::thread::Threads;

const OPTIONS: FifoOptions = FifoOptions {
    use_fifo: true,
    queue_size: 3,
    queue_bytes: 0,
    dropping: false,
    attempt_recovery: false,
    max_attempts: 0,
    wait_ms: 0,
    restart: false,
};

// AAC of type 2 (LC), 44100 Hz, two channels.
fn config() -> AacConfig
    ensures { IsReadAac result }
{
    AacConfig {
        raw: Bytes::from_static(b"\x12\x10"),
        object_type: 2,
        index: 4,
        channels: 2,
    }
}

// The stream 0.
fn streams(alloc: Global) -> Result<MuxStreams, Fail>
    ensures { IfOk result (λ s. CanMux s × (kind_in s.streams.items 0 ≡ Some Audio)) }
{
    let stream = MuxStream {
        stream: 0,
        info: StreamInfo {
            kind: Kind::Audio,
            config: Config::Aac(config()),
        },
    };
    Ok(MuxStreams {
        streams: Items::from_vec(vec![in alloc; stream]?),
        script: None,
    })
}

fn msg(index: u64) -> Msg
    ensures index { result.index ≡ index }
    ensures fits { (s : Streams) → kind_in s.streams.items 0 ≡ Some Audio → Fits Adts s result.packet }
{
    Msg {
        index,
        packet: Packet {
            stream: 0,
            dts: 0,
            pts: 0,
            key: true,
            form: Form::Native,
            payload: Bytes::from_static(b"x"),
            config: Config::Aac(config()),
            version: 0,
        },
    }
}

// Gives so many messages, and closes.
fn give_all<R: Wait>(rt: &R, lane: &Lane, giver: Giver, count: u64) -> Giver
    requires ring { giver.ring ≡ lane.now.ring }
    requires about { (giver.about.drops ≡ false) × (giver.about.format ≡ Adts) × (kind_in giver.about.streams.value.streams.items 0 ≡ Some Audio) }
    requires none { (giver.given ≡ []) × (giver.past ≡ []) × (giver.closed ≡ false) }
    requires few { count < 2 ^ 60 }
    ensures { result.ring ≡ giver.ring }
{
    let mut giver = giver;
    for i in 0..count {
        lane.put(rt, &mut giver, msg(i));
    }
    lane.close(&mut giver);
    giver
}

// Offers so many messages, and closes.
fn offer_all(lane: &Lane, giver: Giver, count: u64) -> Giver
    requires ring { giver.ring ≡ lane.now.ring }
    requires about { (giver.about.drops ≡ true) × (giver.about.format ≡ Adts) × (kind_in giver.about.streams.value.streams.items 0 ≡ Some Audio) }
    requires none { (giver.given ≡ []) × (giver.refusals ≡ []) × (giver.past ≡ []) × (giver.closed ≡ false) }
    requires few { count < 2 ^ 60 }
    ensures { result.ring ≡ giver.ring }
{
    let mut giver = giver;
    for i in 0..count {
        offer(lane, &mut giver, i);
    }
    lane.close(&mut giver);
    giver
}

fn offer(lane: &Lane, giver: &mut Giver, index: u64)
    requires ring { giver.old.ring ≡ lane.now.ring }
    requires about { (giver.old.about.drops ≡ true) × (giver.old.about.format ≡ Adts) × (kind_in giver.old.about.streams.value.streams.items 0 ≡ Some Audio) }
    requires open { giver.old.closed ≡ false }
    requires few { (length giver.old.given < 2 ^ 60) × (length giver.old.refusals < 2 ^ 60) }
    requires above { next_index giver.old.past ≤ index }
    requires low { index < 2 ^ 61 }
    ensures same { (giver.new.ring ≡ giver.old.ring) × (giver.new.about ≡ giver.old.about) × (giver.new.closed ≡ giver.old.closed) }
    ensures few { (length giver.new.given ≤ length giver.old.given + 1) × (length giver.new.refusals ≤ length giver.old.refusals + 1) }
    ensures next { next_index giver.new.past ≡ index + 1 }
{
    match lane.offer(giver, msg(index)) {
        Offer::Accepted => {}
        Offer::Refused(_msg, _receipt) => {}
    }
}

// Gives or offers so many messages, and closes.
fn feed<R: Wait>(rt: &R, lane: &Lane, giver: Giver, drops: bool, count: u64) -> Giver
    requires ring { giver.ring ≡ lane.now.ring }
    requires about { (giver.about.drops ≡ drops) × (giver.about.format ≡ Adts) × (kind_in giver.about.streams.value.streams.items 0 ≡ Some Audio) }
    requires none { (giver.given ≡ []) × (giver.refusals ≡ []) × (giver.past ≡ []) × (giver.closed ≡ false) }
    requires few { count < 2 ^ 60 }
    ensures { result.ring ≡ giver.ring }
{
    if drops {
        offer_all(lane, giver, count)
    } else {
        give_all(rt, lane, giver, count)
    }
}

// An output of so many packets, in a thread of its own or, where the start is refused, of none.
fn ended<P: Spawner, R: Threads + Wait + AllocGlobal + Clone + Drop + Send + 'static>(
    rt: &R,
    spawner: &mut P,
    drops: bool,
    count: u64,
) -> Result<(Option<LaneCounts>, SlaveEnd<MemShelf>), Fail>
    requires few { count < 2 ^ 60 }
{
    let alloc = rt.alloc();
    let streams = streams(alloc)?;
    let Ok((lane, giver, taker)) = Lane::new(alloc, 3, 0, drops, Format::Adts, &streams) else {
        return Err(Fail::new("no memory"));
    };
    let lane = Arc::new(alloc, lane)?;
    let theirs = Arc::try_clone(&lane)?;
    let gate = Arc::new(alloc, OpenGate)?;
    let name = String::from_str(alloc, "a")?;
    let shelf = MemShelf::new(alloc);
    let job = match SlaveJob::new(alloc, name, Format::Adts, None, OPTIONS, streams, shelf) {
        Ok(job) => job,
        Err((_, refused)) => return Err(Fail::from(refused)),
    };
    match start(rt, spawner, job, theirs, taker, gate, 0) {
        Ok(running) => {
            let giver = feed(rt, &lane, giver, drops, count);
            let end = running.join(rt);
            Ok((Some(lane.settle(giver, end.taker)), end.end))
        }
        Err((mut job, _)) => {
            job.start();
            Ok((None, job.finish_direct()))
        }
    }
}

// The packets of these fates: written, flushed, and others.
fn tally(end: &SlaveEnd<MemShelf>) -> (u64, u64, u64) {
    let mut written = 0u64;
    let mut flushed = 0u64;
    let mut others = 0u64;
    for run in end.fates.as_slice() {
        match run.fate {
            Fate::Written(_) => written = written.wrapping_add(run.count),
            Fate::Flushed(_) => flushed = flushed.wrapping_add(run.count),
            _ => others = others.wrapping_add(run.count),
        }
    }
    (written, flushed, others)
}

// Each packet is written.
#[test]
fn a_thread_writes_all(rt: HostRuntime) -> Result<(), Fail> {
    let (counts, end) = ended(&rt, &mut ThreadSpawner::new(), false, 1000)?;
    let Some(counts) = counts else {
        panic!(rt; "no thread")
    };
    assert_eq!(rt;
        (counts.given(), counts.got(), counts.overs()),
        (1000, 1000, 0)
    );
    assert_eq!(rt; (counts.closed(), counts.failed()), (true, false));
    assert_eq!(rt; end.state, EndState::Closed);
    assert_eq!(rt; (tally(&end), end.bytes), ((1000, 0, 0), 8000));
    Ok(())
}

// Start 1 is refused, and its job comes back as it was.
#[test]
fn a_listed_start_is_refused(rt: HostRuntime) -> Result<(), Fail> {
    let mut spawner = RefusingSpawner::new(vec![in rt.alloc(); 1]?);
    for (start, threads) in [(0u64, true), (1, false), (2, true)] {
        let (counts, end) = ended(&rt, &mut spawner, false, 100)?;
        assert_eq!(rt; counts.is_some(), threads);
        assert_eq!(rt; end.state, EndState::Closed);
        assert_eq!(rt; tally(&end).0, if threads { 100 } else { 0 });
        assert_eq!(rt; spawner.refused_count(), u64::from(start > 0));
    }
    Ok(())
}

// Each packet is refused, flushed or written.
#[test]
fn a_lane_may_drop(rt: HostRuntime) -> Result<(), Fail> {
    let (counts, end) = ended(&rt, &mut ThreadSpawner::new(), true, 10_000)?;
    let Some(counts) = counts else {
        panic!(rt; "no thread")
    };
    let (written, flushed, others) = tally(&end);
    assert_eq!(rt; counts.given().wrapping_add(counts.overs()), 10_000);
    assert_eq!(rt; (counts.got(), others), (counts.given(), 0));
    assert_eq!(rt; written.wrapping_add(flushed), counts.got());
    assert_eq!(rt; end.state, EndState::Closed);
    assert_eq!(rt; written.wrapping_mul(8), end.bytes);
    Ok(())
}
