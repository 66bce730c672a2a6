// Refused packets among the fates of an output, by worked examples.
ghost use Rattle.std.specs.Prelude.{◌≡◌, ◌+◌, ◌^◌, ◌<◌, ◌≤◌, true, false, Some, IfOk, length};
ghost use Rattle.rmx_media.specs.Config.{IsReadAac};
ghost use Rattle.rmx_media.specs.Fits.{Fits};
ghost use Rattle.rmx_media.specs.Streams.{kind_in};
ghost use Rattle.rmx_media.specs.declared.packet.Format.TheVariants.{Adts};
ghost use Rattle.rmx_media.specs.declared.streams.Kind.TheVariants.{Audio};
ghost use Rattle.rmx_media.specs.declared.streams.MuxStreams.{MuxStreams as Streams};
ghost use Rattle.lane.specs.Follows.{next_index};

use crate::{Run, SlaveEnd};
use bytes::Bytes;
use fifo_core::{EndState, Fate};
use lane::{Giver, Lane, LaneCounts, Msg, Offer, Receipt};
use rmx_edge::MemShelf;
use rmx_media::{
    AacConfig, Config, Form, Format, Items, Kind, MuxStream, MuxStreams, Packet, StreamInfo,
};
use std::alloc::Global;
use std::test::Fail;

// AAC of type 2 (LC), 44100 Hz, two channels.
fn config() -> AacConfig
    ensures { IsReadAac result }
{
    AacConfig {
        raw: Bytes::from_static(b"\x12\x10"),
        object_type: 2,
        index: 4,
        channels: 2,
    }
}

fn streams(alloc: Global) -> Result<MuxStreams, Fail>
    ensures { IfOk result (λ s. kind_in s.streams.items 0 ≡ Some Audio) }
{
    let stream = MuxStream {
        stream: 0,
        info: StreamInfo {
            kind: Kind::Audio,
            config: Config::Aac(config()),
        },
    };
    let streams = vec![in alloc; stream]?;
    Ok(MuxStreams {
        streams: Items::from_vec(streams),
        script: None,
    })
}

fn msg(index: u64) -> Msg
    ensures index { result.index ≡ index }
    ensures fits { (s : Streams) → kind_in s.streams.items 0 ≡ Some Audio → Fits Adts s result.packet }
{
    Msg {
        index,
        packet: Packet {
            stream: 0,
            dts: 0,
            pts: 0,
            key: true,
            form: Form::Native,
            payload: Bytes::from_static(b"x"),
            config: Config::Aac(config()),
            version: 0,
        },
    }
}

// Offers a message, and keeps the receipt if it is refused.
fn offer(lane: &Lane, giver: &mut Giver, index: u64, receipts: &mut Items<Receipt>)
    requires ring { giver.old.ring ≡ lane.now.ring }
    requires about { (giver.old.about.drops ≡ true) × (giver.old.about.format ≡ Adts) × (kind_in giver.old.about.streams.value.streams.items 0 ≡ Some Audio) }
    requires open { giver.old.closed ≡ false }
    requires few { (length giver.old.given < 2 ^ 60) × (length giver.old.refusals < 2 ^ 60) }
    requires above { next_index giver.old.past ≤ index }
    requires low { index < 2 ^ 61 }
    requires place { 0 < receipts.old.spare }
    ensures same { (giver.new.ring ≡ giver.old.ring) × (giver.new.about ≡ giver.old.about) × (giver.new.closed ≡ giver.old.closed) }
    ensures few { (length giver.new.given ≤ length giver.old.given + 1) × (length giver.new.refusals ≤ length giver.old.refusals + 1) }
    ensures next { next_index giver.new.past ≡ index + 1 }
    ensures places { receipts.old.spare ≤ receipts.new.spare + 1 }
{
    match lane.offer(giver, msg(index)) {
        Offer::Accepted => {}
        Offer::Refused(_back, receipt) => receipts.push(receipt),
    }
}

// What is left of a lane of one place in which 0 and 3 found room, and 1, 2 and 4 did not.
fn dealt(alloc: Global) -> Result<(LaneCounts, Items<Receipt>), Fail> {
    let streams = streams(alloc)?;
    let Ok((lane, mut giver, mut taker)) = Lane::new(alloc, 1, 0, true, Format::Adts, &streams)
    else {
        return Err(Fail::new("no memory"));
    };
    let mut receipts = Items::new(alloc);
    let Ok(()) = receipts.reserve(5) else {
        return Err(Fail::new("no memory"));
    };
    offer(&lane, &mut giver, 0, &mut receipts);
    offer(&lane, &mut giver, 1, &mut receipts);
    offer(&lane, &mut giver, 2, &mut receipts);
    let _first = lane.take(&mut taker);
    offer(&lane, &mut giver, 3, &mut receipts);
    offer(&lane, &mut giver, 4, &mut receipts);
    Ok((lane.settle(giver, taker), receipts))
}

fn run(fate: Fate, first: u64, count: u64) -> Run {
    Run { fate, first, count }
}

// The end of an output of these fates, with the refused packets.
fn entered(alloc: Global, fates: &[Run]) -> Result<(SlaveEnd<MemShelf>, bool), Fail> {
    let (counts, receipts) = dealt(alloc)?;
    let mut runs = vec![in alloc;]?;
    for fate in fates.iter() {
        runs.push(*fate)?;
    }
    let end = SlaveEnd {
        shelf: MemShelf::new(alloc),
        fates: Items::from_vec(runs),
        sessions: Items::new(alloc),
        faults: Items::new(alloc),
        state: EndState::Failed,
        inline: false,
        lane: None,
        bytes: 0,
    };
    Ok(end.with_refusals(alloc, 1, counts, receipts))
}

#[test]
fn refusals_stand_in_order(rt: HostRuntime) -> Result<(), Fail> {
    let written = Fate::Written(0);
    let (end, short) = entered(rt.alloc(), &[run(written, 0, 1), run(written, 3, 1)])?;
    assert!(rt; !short);
    let SlaveEnd {
        shelf: _,
        fates,
        sessions: _,
        faults: _,
        state: _,
        inline: _,
        lane,
        bytes: _,
    } = end;
    assert_eq!(rt;
        fates.as_slice(),
        [
            run(written, 0, 1),
            run(Fate::Refused(1), 1, 1),
            run(Fate::Refused(2), 2, 1),
            run(written, 3, 1),
            run(Fate::Refused(3), 4, 1),
        ]
        .as_slice()
    );
    let Some(note) = lane else {
        panic!(rt; "no note")
    };
    assert_eq!(rt;
        (
            note.cap,
            note.counts.overs(),
            note.receipts.as_slice().len()
        ),
        (1, 3, 3)
    );
    Ok(())
}

#[test]
fn a_run_covers_refusals(rt: HostRuntime) -> Result<(), Fail> {
    let (end, short) = entered(rt.alloc(), &[run(Fate::NoMemory, 0, 4)])?;
    assert!(rt; !short);
    assert_eq!(rt;
        end.fates.as_slice(),
        [run(Fate::NoMemory, 0, 4), run(Fate::Refused(3), 4, 1)].as_slice()
    );
    Ok(())
}

#[test]
fn refusals_stand_alone(rt: HostRuntime) -> Result<(), Fail> {
    let (end, short) = entered(rt.alloc(), &[])?;
    assert!(rt; !short);
    assert_eq!(rt;
        end.fates.as_slice(),
        [
            run(Fate::Refused(1), 1, 1),
            run(Fate::Refused(2), 2, 1),
            run(Fate::Refused(3), 4, 1),
        ]
        .as_slice()
    );
    assert_eq!(rt; end.state, EndState::Failed);
    Ok(())
}
