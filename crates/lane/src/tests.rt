// Lanes on one thread and on two.
ghost use Rattle.std.specs.Prelude.{◌≡◌, ◌+◌, ◌^◌, ◌<◌, ◌≤◌, [], length, true, false, Some, None, IfOk};
ghost use Rattle.rmx_media.specs.Config.{IsReadAac};
ghost use Rattle.rmx_media.specs.Fits.{Fits};
ghost use Rattle.rmx_media.specs.Streams.{kind_in};
ghost use Rattle.rmx_media.specs.declared.packet.Format.TheVariants.{Adts};
ghost use Rattle.rmx_media.specs.declared.streams.Kind.TheVariants.{Audio};
ghost use Rattle.rmx_media.specs.declared.streams.MuxStreams.{MuxStreams as Streams};
ghost use Rattle.lane.specs.Follows.{next_index};

use crate::{Giver, Lane, Msg, Offer, Taken, Taker};
use bytes::Bytes;
use rmx_media::{
    AacConfig, Config, Form, Format, Items, Kind, MuxStream, MuxStreams, Packet, StreamInfo,
};
use std::alloc::Global;
use std::hint::spin_loop;
use std::sync::Wait;
use std::test::Fail;
use std::thread;

// AAC of type 2 (LC), 44100 Hz, two channels.
fn config() -> AacConfig
    ensures { IsReadAac result }
{
    AacConfig {
        raw: Bytes::from_static(b"\x12\x10"),
        object_type: 2,
        index: 4,
        channels: 2,
    }
}

fn streams(alloc: Global) -> Result<MuxStreams, Fail>
    ensures { IfOk result (λ s. kind_in s.streams.items 0 ≡ Some Audio) }
{
    let stream = MuxStream {
        stream: 0,
        info: StreamInfo {
            kind: Kind::Audio,
            config: Config::Aac(config()),
        },
    };
    let streams = vec![in alloc; stream]?;
    Ok(MuxStreams {
        streams: Items::from_vec(streams),
        script: None,
    })
}

// A message with this payload.
fn msg(index: u64, payload: &'static [u8]) -> Msg
    requires { length payload.now ≤ 32 }
    ensures index { result.index ≡ index }
    ensures fits { (s : Streams) → kind_in s.streams.items 0 ≡ Some Audio → Fits Adts s result.packet }
{
    Msg {
        index,
        packet: Packet {
            stream: 0,
            dts: 0,
            pts: 0,
            key: true,
            form: Form::Native,
            payload: Bytes::from_static(payload),
            config: Config::Aac(config()),
            version: 0,
        },
    }
}

// Number, index, accepted, head and bytes.
type Told = (u64, u64, u64, u64, u64);

// Offers a message, and reads the receipt if it is refused.
fn offer(lane: &Lane, giver: &mut Giver, index: u64, payload: &'static [u8]) -> Option<Told>
    requires ring { giver.old.ring ≡ lane.now.ring }
    requires about { (giver.old.about.drops ≡ true) × (giver.old.about.format ≡ Adts) × (kind_in giver.old.about.streams.value.streams.items 0 ≡ Some Audio) }
    requires open { giver.old.closed ≡ false }
    requires few { (length giver.old.given < 2 ^ 60) × (length giver.old.refusals < 2 ^ 60) }
    requires above { next_index giver.old.past ≤ index }
    requires low { index < 2 ^ 61 }
    requires size { length payload.now ≤ 32 }
    ensures same { (giver.new.ring ≡ giver.old.ring) × (giver.new.about ≡ giver.old.about) × (giver.new.closed ≡ giver.old.closed) }
    ensures few { (length giver.new.given ≤ length giver.old.given + 1) × (length giver.new.refusals ≤ length giver.old.refusals + 1) }
    ensures next { next_index giver.new.past ≡ index + 1 }
{
    match lane.offer(giver, msg(index, payload)) {
        Offer::Accepted => None,
        Offer::Refused(_back, r) => Some((
            r.number(),
            r.index(),
            r.accepted(),
            r.head(),
            r.bytes(),
        )),
    }
}

// The index of the message that is taken, or whether none will come.
fn take(lane: &Lane, taker: &mut Taker) -> Result<u64, bool>
    requires { taker.old.ring ≡ lane.now.ring }
    ensures { taker.new.ring ≡ taker.old.ring }
{
    match lane.take(taker) {
        Taken::Got(msg) => Ok(msg.index),
        Taken::Empty => Err(false),
        Taken::Ended => Err(true),
    }
}

#[test]
fn gives_receipts(rt: HostRuntime) -> Result<(), Fail> {
    let streams = streams(rt.alloc())?;
    let Ok((lane, mut giver, mut taker)) = Lane::new(rt.alloc(), 1, 0, true, Format::Adts, &streams)
    else {
        panic!(rt; "no memory")
    };
    assert_eq!(rt; offer(&lane, &mut giver, 0, b"x"), None);
    assert_eq!(rt; offer(&lane, &mut giver, 1, b"x"), Some((1, 1, 1, 0, 1)));
    assert_eq!(rt; lane.overflows(&mut taker), 1);
    assert_eq!(rt; take(&lane, &mut taker), Ok(0));
    assert_eq!(rt; take(&lane, &mut taker), Err(false));
    lane.close(&mut giver);
    assert_eq!(rt; take(&lane, &mut taker), Err(true));
    let counts = lane.settle(giver, taker);
    assert_eq!(rt; (counts.given(), counts.got(), counts.overs()), (1, 1, 1));
    assert_eq!(rt;
        (counts.closed(), counts.failed(), counts.drops()),
        (true, false, true)
    );
    assert_eq!(rt;
        (counts.limit(), counts.asked(), counts.told()),
        (0, 0, None)
    );
    Ok(())
}

#[test]
fn bounds_messages(rt: HostRuntime) -> Result<(), Fail> {
    let streams = streams(rt.alloc())?;
    let Ok((lane, mut giver, mut taker)) = Lane::new(rt.alloc(), 2, 0, true, Format::Adts, &streams)
    else {
        panic!(rt; "no memory")
    };
    assert_eq!(rt; offer(&lane, &mut giver, 0, b"x"), None);
    assert_eq!(rt; offer(&lane, &mut giver, 1, b"x"), None);
    assert_eq!(rt; offer(&lane, &mut giver, 2, b"x"), Some((1, 2, 2, 0, 2)));
    assert_eq!(rt; offer(&lane, &mut giver, 3, b"x"), Some((2, 3, 2, 0, 2)));
    assert_eq!(rt; take(&lane, &mut taker), Ok(0));
    assert_eq!(rt; offer(&lane, &mut giver, 4, b"x"), None);
    assert_eq!(rt; take(&lane, &mut taker), Ok(1));
    assert_eq!(rt; take(&lane, &mut taker), Ok(4));
    assert_eq!(rt; take(&lane, &mut taker), Err(false));
    let counts = lane.settle(giver, taker);
    assert_eq!(rt;
        (counts.given(), counts.got(), counts.closed()),
        (3, 3, false)
    );
    Ok(())
}

#[test]
fn bounds_bytes(rt: HostRuntime) -> Result<(), Fail> {
    let streams = streams(rt.alloc())?;
    let Ok((lane, mut giver, mut taker)) = Lane::new(
        rt.alloc(),
        4,
        10,
        true,
        Format::Adts,
        &streams,
    ) else {
        panic!(rt; "no memory")
    };
    assert_eq!(rt; offer(&lane, &mut giver, 0, b"twenty bytes of them"), None);
    assert_eq!(rt; offer(&lane, &mut giver, 1, b"1"), Some((1, 1, 1, 0, 20)));
    assert_eq!(rt; take(&lane, &mut taker), Ok(0));
    assert_eq!(rt; offer(&lane, &mut giver, 2, b"eleven byte"), None);
    assert_eq!(rt; offer(&lane, &mut giver, 3, b""), Some((2, 3, 2, 1, 11)));
    let counts = lane.settle(giver, taker);
    assert_eq!(rt; (counts.overs(), counts.limit()), (2, 10));
    Ok(())
}

#[test]
fn tells_failure(rt: HostRuntime) -> Result<(), Fail> {
    let streams = streams(rt.alloc())?;
    let Ok((lane, mut giver, mut taker)) = Lane::new(
        rt.alloc(),
        1,
        0,
        false,
        Format::Adts,
        &streams,
    ) else {
        panic!(rt; "no memory")
    };
    assert!(rt; !lane.failed(&mut giver));
    lane.fail(&mut taker);
    assert!(rt; lane.failed(&mut giver));
    assert!(rt; lane.failed(&mut giver));
    let counts = lane.settle(giver, taker);
    assert_eq!(rt;
        (counts.failed(), counts.asked(), counts.told()),
        (true, 3, Some(2))
    );
    Ok(())
}

// Puts so many messages, and closes.
fn put_all<R: Wait>(rt: &R, lane: &Lane, giver: Giver, count: u64) -> Giver
    requires ring { giver.ring ≡ lane.now.ring }
    requires about { (giver.about.drops ≡ false) × (giver.about.format ≡ Adts) × (kind_in giver.about.streams.value.streams.items 0 ≡ Some Audio) }
    requires none { (giver.given ≡ []) × (giver.past ≡ []) × (giver.closed ≡ false) }
    requires few { count < 2 ^ 60 }
    ensures { (result.ring ≡ giver.ring) × (length result.given ≡ count) × (result.closed ≡ true) }
{
    let mut giver = giver;
    for i in 0..count {
        lane.put(rt, &mut giver, msg(i, b"x"));
    }
    lane.close(&mut giver);
    giver
}

// Takes all messages, and counts those that come in order from 0.
fn take_all<R: Wait>(rt: &R, lane: &Lane, taker: Taker) -> (Taker, u64)
    requires { taker.ring ≡ lane.now.ring }
    ensures { (result.0.ring ≡ taker.ring) × (result.0.ended ≡ true) }
{
    let mut taker = taker;
    let mut in_order = 0u64;
    for _ in rt.forever() {
        match lane.take_wait(rt, &mut taker) {
            Taken::Got(msg) => {
                if msg.index == in_order {
                    in_order = in_order.wrapping_add(1);
                }
            }
            Taken::Empty => unreachable!(),
            Taken::Ended => return (taker, in_order),
        }
    }
    unreachable!()
}

// A number of messages that a lane may hold.
fn places(cap: u32) -> u32
    ensures { (0 < result) × (result ≤ 256) }
{
    if cap == 0 || cap > 256 { 1 } else { cap }
}

#[test]
fn passes_all_in_order(rt: HostRuntime) -> Result<(), Fail> {
    for cap in [1u32, 3, 256] {
        let streams = streams(rt.alloc())?;
        let Ok((lane, giver, taker)) = Lane::new(
            rt.alloc(),
            places(cap),
            0,
            false,
            Format::Adts,
            &streams,
        ) else {
            panic!(rt; "no memory")
        };
        let (giver, (taker, in_order)) = thread::join(
            &rt,
            || put_all(&rt, &lane, giver, 100_000),
            || take_all(&rt, &lane, taker),
        );
        let counts = lane.settle(giver, taker);
        assert_eq!(rt;
            (counts.given(), counts.got(), in_order),
            (100_000, 100_000, 100_000)
        );
    }
    Ok(())
}

// Offers so many messages, and closes. Also answers how many were refused, and the sum of their indices.
fn offer_all(lane: &Lane, giver: Giver, count: u64) -> (Giver, u64, u64)
    requires ring { giver.ring ≡ lane.now.ring }
    requires about { (giver.about.drops ≡ true) × (giver.about.format ≡ Adts) × (kind_in giver.about.streams.value.streams.items 0 ≡ Some Audio) }
    requires none { (giver.given ≡ []) × (giver.refusals ≡ []) × (giver.past ≡ []) × (giver.closed ≡ false) }
    requires few { count < 2 ^ 60 }
    ensures { (result.0.ring ≡ giver.ring) × (result.0.closed ≡ true) }
{
    let mut giver = giver;
    let mut refused = 0u64;
    let mut indices = 0u64;
    for i in 0..count {
        if let Some(receipt) = offer(lane, &mut giver, i, b"x") {
            refused = refused.wrapping_add(1);
            indices = indices.wrapping_add(receipt.1);
        }
    }
    lane.close(&mut giver);
    (giver, refused, indices)
}

// Takes all messages slowly. Also answers how many came above the one before, and the sum of their indices.
fn take_slowly<R: Wait>(rt: &R, lane: &Lane, taker: Taker) -> (Taker, u64, u64)
    requires { taker.ring ≡ lane.now.ring }
    ensures { (result.0.ring ≡ taker.ring) × (result.0.ended ≡ true) }
{
    let mut taker = taker;
    let mut rising = 0u64;
    let mut indices = 0u64;
    let mut next = 0u64;
    for _ in rt.forever() {
        for _ in 0..40 {
            spin_loop();
        }
        match lane.take_wait(rt, &mut taker) {
            Taken::Got(msg) => {
                if msg.index >= next {
                    rising = rising.wrapping_add(1);
                }
                next = msg.index.wrapping_add(1);
                indices = indices.wrapping_add(msg.index);
            }
            Taken::Empty => unreachable!(),
            Taken::Ended => return (taker, rising, indices),
        }
    }
    unreachable!()
}

#[test]
fn accounts_for_all(rt: HostRuntime) -> Result<(), Fail> {
    for cap in [1u32, 3, 256] {
        let streams = streams(rt.alloc())?;
        let Ok((lane, giver, taker)) = Lane::new(
            rt.alloc(),
            places(cap),
            0,
            true,
            Format::Adts,
            &streams,
        ) else {
            panic!(rt; "no memory")
        };
        let ((giver, refused, lost), (taker, rising, found)) = thread::join(
            &rt,
            || offer_all(&lane, giver, 100_000),
            || take_slowly(&rt, &lane, taker),
        );
        let counts = lane.settle(giver, taker);
        assert_eq!(rt;
            (counts.given(), counts.got(), counts.overs()),
            (rising, rising, refused)
        );
        assert_eq!(rt; rising.wrapping_add(refused), 100_000);
        assert_eq!(rt; found.wrapping_add(lost), 4_999_950_000);
    }
    Ok(())
}
