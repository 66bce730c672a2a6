// Orders worked out by hand.
ghost use Rattle.std.specs.Prelude.{◌≡◌, ◌<◌, ◌≤ℤ◌, ◌==◌, false, if◌then◌else◌, IfOk};
ghost use Rattle.interleaver.specs.Queues.{goes};

use crate::Interleaver;
use bytes::Bytes;
use rmx_media::{AacConfig, Config, Form, Packet};
use std::alloc::Global;
use std::test::Fail;

// A packet whose version tells which arrival it is.
fn packet(stream: u32, dts: i64, arrival: u64) -> Packet
    ensures { (result.stream ≡ stream) × (result.dts ≡ dts) }
{
    Packet {
        stream,
        dts,
        pts: dts,
        key: true,
        form: Form::Native,
        payload: Bytes::from_static(b"x"),
        config: Config::Aac(AacConfig {
            raw: Bytes::from_static(b"\x12\x10"),
            object_type: 2,
            index: 4,
            channels: 2,
        }),
        version: arrival,
    }
}

// Takes all that may go.
fn take_all(line: &mut Interleaver, went: &mut Vec<u64>) -> Result<(), Fail>
    ensures stuck { IfOk result (λ _. goes line.new ≡ false) }
    ensures rest { IfOk result (λ _. line.new ≡ record line.old { pending = line.new.pending }) }
{
    while let Some(packet) = line.pop() {
        went.push(packet.version)?;
    }
    Ok(())
}

// A packet comes, and all goes that may.
fn arrive(line: &mut Interleaver, p: Packet, went: &mut Vec<u64>) -> Result<(), Fail>
    requires stream { (p.stream < line.old.streams) × (p.stream < 2) }
    requires order { (if p.stream == 0 then line.old.first_last else line.old.second_last) ≤ℤ p.dts }
    requires unfinished { line.old.finished ≡ false }
    requires stuck { goes line.old ≡ false }
    ensures stuck { IfOk result (λ _. goes line.new ≡ false) }
    ensures same { IfOk result (λ _. (line.new.streams ≡ line.old.streams) × (line.new.finished ≡ false)) }
    ensures first { IfOk result (λ _. line.new.first_last ≡ (if p.stream == 0 then p.dts else line.old.first_last)) }
    ensures second { IfOk result (λ _. line.new.second_last ≡ (if p.stream == 0 then line.old.second_last else p.dts)) }
{
    if line.push(p).is_err() {
        return Err(Fail::from("no memory"));
    }
    take_all(line, went)
}

fn by_stream(stream: u32, first: i64, second: i64) -> i64
    ensures { result ≡ (if stream == 0 then first else second) }
{
    if stream == 0 { first } else { second }
}

// The arrivals, named by their places, in the order in which they go, and how many of them go before the end. An arrival is
// a stream and a dts.
fn order(
    alloc: Global,
    streams: u32,
    delta_us: u64,
    arrivals: &[(u32, i64)],
) -> Result<(Vec<u64>, usize), Fail> {
    if streams == 0 || streams > 2 {
        return Err(Fail::from("one stream or two"));
    }
    let mut line = Interleaver::new(alloc, streams, delta_us)?;
    let mut went = Vec::new(alloc);
    let mut first_last = i64::MIN;
    let mut second_last = i64::MIN;
    let mut arrival = 0u64;
    for (stream, dts) in arrivals {
        let last = by_stream(*stream, first_last, second_last);
        if *stream >= streams || *dts < last {
            return Err(Fail::from("no arrival"));
        }
        arrive(&mut line, packet(*stream, *dts, arrival), &mut went)?;
        first_last = by_stream(*stream, *dts, first_last);
        second_last = by_stream(*stream, second_last, *dts);
        arrival = arrival.wrapping_add(1);
    }
    let early = went.len();
    line.finish();
    take_all(&mut line, &mut went)?;
    Ok((went, early))
}

#[test]
fn goes_by_decoding_time(rt: HostRuntime) -> Result<(), Fail> {
    for (streams, delta_us, arrivals, expected, expected_early) in [
        // One stream: each at once, whatever the width.
        (
            1u32,
            0u64,
            [(0u32, 0i64), (0, 40), (0, 80)].as_slice(),
            [0u64, 1, 2].as_slice(),
            3usize,
        ),
        (
            1,
            50_000,
            [(0, 0), (0, 0), (0, 80)].as_slice(),
            [0, 1, 2].as_slice(),
            3,
        ),
        // Late audio, where a tie goes to the first stream.
        (
            2,
            0,
            [(0, 0), (0, 40), (0, 80), (1, 0), (1, 23), (1, 46)].as_slice(),
            [0, 3, 4, 1, 5, 2].as_slice(),
            5,
        ),
        (
            2,
            0,
            [(1, 7), (1, 7), (0, 7), (0, 7)].as_slice(),
            [2, 3, 0, 1].as_slice(),
            2,
        ),
        // A silent stream: wider than the delta, as wide, and with no delta at all.
        (
            2,
            50_000,
            [(0, 0), (0, 40), (0, 100)].as_slice(),
            [0, 1, 2].as_slice(),
            2,
        ),
        (
            2,
            50_000,
            [(0, 0), (0, 50)].as_slice(),
            [0, 1].as_slice(),
            0,
        ),
        (
            2,
            50_000,
            [(0, 9), (1, 10), (1, 60), (1, 61)].as_slice(),
            [0, 1, 2, 3].as_slice(),
            2,
        ),
        (
            2,
            0,
            [(1, 0), (1, 40), (1, 100_000)].as_slice(),
            [0, 1, 2].as_slice(),
            0,
        ),
        // A stream that comes back behind what went.
        (
            2,
            50_000,
            [(0, 0), (0, 100), (0, 200), (1, 10)].as_slice(),
            [0, 1, 3, 2].as_slice(),
            3,
        ),
        // The least and the largest delta.
        (
            2,
            1,
            [(1, 5), (1, 5), (1, 6)].as_slice(),
            [0, 1, 2].as_slice(),
            2,
        ),
        (
            2,
            u64::MAX,
            [
                (0, 0),
                (0, 18_446_744_073_709_551),
                (0, 18_446_744_073_709_552),
            ]
            .as_slice(),
            [0, 1, 2].as_slice(),
            1,
        ),
        // Times at both ends of their range.
        (
            2,
            u64::MAX,
            [(0, i64::MIN), (0, i64::MAX)].as_slice(),
            [0, 1].as_slice(),
            1,
        ),
        (
            2,
            0,
            [(0, i64::MAX), (1, i64::MIN), (1, i64::MAX)].as_slice(),
            [1, 0, 2].as_slice(),
            2,
        ),
        (2, 0, [].as_slice(), [].as_slice(), 0),
    ] {
        let (went, early) = order(rt.alloc(), streams, delta_us, arrivals)?;
        assert_eq!(rt; went.as_slice(), expected);
        assert_eq!(rt; early, expected_early);
    }
    Ok(())
}
