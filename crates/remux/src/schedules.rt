// Runs whose outputs have threads of their own, over memory. What their gates hold up makes each run end in one way.
ghost use Rattle.std.specs.Prelude.{◌≡◌, false};

use super::gates::{Coming, Hold, HoldingGate};
use super::recovered::{
    BY_KEY, ONE_FAULT, ONE_FAULT_BYTES, failing, key_pictures, one_picture, three_frames,
    three_pictures,
};
use super::told::{bytes_of, has_bytes, is_told, lane_of, tells, told};
use super::worked::{
    KEY, PICTURE, Ran, SEQUENCE_END, SETS, TWO_FRAMES, Tag, VIDEO, add_tag, input, run_tee,
    sample_text, shelves, strings, text_of,
};
use crate::status::Status;
use crate::threaded::run;
use rmx_edge::{Gate, MemShelf, MemSink, OpenGate, Point, Shelf};
use slave::{RefusingSpawner, Spawner, ThreadSpawner};
use std::alloc::Global;
use std::sync::{Arc, Wait};
use std::test::Fail;
use std::thread::Threads;

// Runs the outputs of a tee on this text, with this shelf for the first one.
fn run_threads<
    G: Gate + Drop + Send + Sync + 'static,
    P: Spawner,
    R: Threads + Wait + AllocGlobal + Clone + Drop + Send + 'static,
>(
    rt: &R,
    outputs: &str,
    text: &[u8],
    first: MemShelf,
    gate: Arc<G>,
    spawner: &mut P,
) -> Result<Ran, Fail>
    requires idle { (⟦<MemShelf as Shelf>⟧.state first).writing ≡ false }
{
    let alloc = rt.alloc();
    let words = strings(alloc, &["-i", "in.flv", "-f", "tee", outputs])?;
    let mut inputs = input(alloc, text, Vec::new(alloc), 65536)?;
    let mut out = MemSink::new(Vec::new(alloc));
    let shelves = shelves(alloc, first)?;
    let outcome = run(rt, &words, &mut inputs, shelves, &mut out, gate, spawner);
    Ok(Ran {
        outcome,
        report: Vec::from_slice(alloc, out.bytes())?,
        left: inputs.left(),
    })
}

// The same with a gate that is open.
fn run_open<R: Threads + Wait + AllocGlobal + Clone + Drop + Send + 'static>(
    rt: &R,
    outputs: &str,
    text: &[u8],
    first: MemShelf,
) -> Result<Ran, Fail>
    requires idle { (⟦<MemShelf as Shelf>⟧.state first).writing ≡ false }
{
    let gate = Arc::new(rt.alloc(), OpenGate)?;
    run_threads(rt, outputs, text, first, gate, &mut ThreadSpawner::new())
}

// What a run with holds came to, how many were held for too long, and how often the reader had come with a packet for the first
// output when the last hold ended.
fn run_held<R: Threads + Wait + AllocGlobal + Clone + Drop + Send + 'static>(
    rt: &R,
    outputs: &str,
    text: &[u8],
    first: MemShelf,
    holds: &[Hold],
) -> Result<(Ran, u64, u64), Fail>
    requires idle { (⟦<MemShelf as Shelf>⟧.state first).writing ≡ false }
{
    let gate = Arc::new(rt.alloc(), HoldingGate::new(rt.alloc(), holds)?)?;
    let theirs = Arc::try_clone(&gate)?;
    let ran = run_threads(rt, outputs, text, first, theirs, &mut ThreadSpawner::new())?;
    Ok((ran, gate.late(), gate.offers()))
}

// How a run ended: the status, the tags, and the packets that were handed over.
fn ended(ran: &Ran) -> (Status, u64, u64) {
    (ran.outcome.status, ran.outcome.tags, ran.outcome.upto)
}

const RECOVERS: &str = "use_fifo=1:fifo_options=queue_size=1\\\\:attempt_recovery=1";

const LANE_OF_ONE: &str = "\
inline=false
cap=1 limit=0 drops=false
given=3 got=3 overs=0
closed=true failed=false
asked=3 told=None
";

const LANE_OF_ONE_BYTE: &str = "\
inline=false
cap=1 limit=1 drops=false
given=3 got=3 overs=0
closed=true failed=false
asked=3 told=None
";

// Three packets of sound to a shelf that fails at its third write, behind a queue of one packet, or of one byte.
#[test]
fn sound_recovers(rt: HostRuntime) -> Result<(), Fail> {
    let alloc = rt.alloc();
    let text = three_frames(alloc)?;
    for (more, lane) in [("", LANE_OF_ONE), ("\\\\:queue_bytes=1", LANE_OF_ONE_BYTE)] {
        let outputs = format!(in alloc; "[f=adts:{RECOVERS}{more}]a.aac")?;
        let ran = run_open(&rt, &outputs, &text, failing(alloc, &[3], 2)?)?;
        assert_eq!(rt; ended(&ran), (Status::Done, 4, 3));
        assert!(rt; is_told(alloc, &ran, 0, ONE_FAULT, lane)?);
        assert!(rt; has_bytes(alloc, &ran, 0, &ONE_FAULT_BYTES)?);
    }
    Ok(())
}

// Three pictures to a shelf that fails at the second one: the next session begins at the key picture.
#[test]
fn pictures_recover(rt: HostRuntime) -> Result<(), Fail> {
    let alloc = rt.alloc();
    let text = three_pictures(alloc)?;
    let outputs = format!(in alloc; "[f=mpegts:{RECOVERS}\\\\:restart_with_keyframe=1]a.ts")?;
    let ran = run_open(&rt, &outputs, &text, failing(alloc, &[4], 0)?)?;
    assert_eq!(rt; ended(&ran), (Status::Done, 4, 3));
    assert!(rt; is_told(alloc, &ran, 0, BY_KEY, LANE_OF_ONE)?);
    assert!(rt; has_bytes(alloc, &ran, 0, &key_pictures(alloc)?)?);
    Ok(())
}

fn coming(slave: u32, point: Point, times: u64) -> Coming {
    Coming {
        slave,
        point,
        times,
    }
}

fn hold(at: Coming, until: Coming, rest: u64) -> Hold {
    Hold { at, until, rest }
}

const DROPPED: &str = "\
Closed bytes=564
file d.ts closed=true bytes=564
session 0 begun=true closed=true
Flushed(2) first=0 count=2
Refused(1) first=2 count=1
Refused(2) first=3 count=1
KeyWait first=4 count=1
Written(0) first=5 count=1
";

const DROPPING_LANE: &str = "\
inline=false
cap=2 limit=0 drops=true
given=4 got=4 overs=2
closed=true failed=false
asked=6 told=None
receipt 1 2 2 0 12
receipt 2 3 2 0 12
";

// Six pictures, of which the first and the last are key ones.
fn six_pictures(alloc: Global) -> Result<Vec<u8>, Fail> {
    let tags: [Tag; 7] = [
        (VIDEO, 0, &SETS),
        (VIDEO, 0, &KEY),
        (VIDEO, 40, &PICTURE),
        (VIDEO, 80, &PICTURE),
        (VIDEO, 120, &PICTURE),
        (VIDEO, 160, &PICTURE),
        (VIDEO, 200, &KEY),
    ];
    text_of(alloc, 1, &tags)
}

// Six pictures before a worker that is held until four were offered: two are refused, and the two that wait are flushed. The
// reader is held before the next one until the flush is over.
#[test]
fn a_full_queue_drops(rt: HostRuntime) -> Result<(), Fail> {
    let alloc = rt.alloc();
    let text = six_pictures(alloc)?;
    let fifth = coming(0, Point::BeforeOffer, 5);
    let holds = [
        hold(coming(0, Point::BeforeTake, 1), fifth, 0),
        hold(fifth, coming(0, Point::BeforeTake, 2), 0),
    ];
    let outputs =
        "[f=mpegts:use_fifo=1:fifo_options=queue_size=2\\\\:drop_pkts_on_overflow=1\\\\:restart_with_keyframe=1]d.ts";
    let (ran, late, _) = run_held(&rt, outputs, &text, MemShelf::new(alloc), &holds)?;
    assert_eq!(rt; late, 0, "held for too long");
    assert_eq!(rt; ended(&ran), (Status::Done, 7, 6));
    assert!(rt; is_told(alloc, &ran, 0, DROPPED, DROPPING_LANE)?);
    assert!(rt; has_bytes(alloc, &ran, 0, &one_picture(alloc, 200)?)?);
    Ok(())
}

// An output that is dead from the beginning, beside one of sound: the run ends behind some packet, and the sound of all packets
// up to it is in its file.
#[test]
fn a_dead_one(rt: HostRuntime) -> Result<(), Fail> {
    let alloc = rt.alloc();
    let text = sample_text(alloc)?;
    let outputs = "[f=flv:use_fifo=1]x.flv|[f=adts:use_fifo=1]y.aac";
    let ran = run_open(&rt, outputs, &text, MemShelf::dead(alloc))?;
    let (_, _, upto) = ended(&ran);
    let (dealt, sound) = dealt_at(upto);
    assert_eq!(rt; ended(&ran), (Status::SlaveFailed(0), dealt, upto.min(4)));
    assert!(rt; is_dead(alloc, &ran, upto)?);
    assert!(rt; has_sound(alloc, &ran, sound)?);
    Ok(())
}

// Whether the second output is closed and holds so many bytes of the sample's sound.
fn has_sound(alloc: Global, ran: &Ran, bytes: usize) -> Result<bool, Fail> {
    let frames = TWO_FRAMES.get(..bytes).ok_or("too many")?;
    Ok(has_bytes(alloc, ran, 1, frames)? && told(alloc, ran, 1)?.contains("closed=true"))
}

// How many tags of the sample are dealt with when so many of its packets were handed over, and how many bytes of frames of
// sound are among these.
fn dealt_at(upto: u64) -> (u64, usize) {
    match upto {
        1 => (5, 0),
        2 => (7, 8),
        3 => (7, 16),
        _ => (8, 16),
    }
}

// Whether the first output is told to have failed before all its packets, and its lane to have said so behind the last one,
// or never.
fn is_dead(alloc: Global, ran: &Ran, upto: u64) -> Result<bool, Fail> {
    let dead = format!(in alloc;
        "Failed bytes=0\nsession 0 begun=false closed=false\nfault session=0 Begin 0..1\nAfterFailure(0) first=0 count={upto}\n"
    )?;
    let soon = format!(in alloc; "asked={upto} told=Some({upto})\n")?;
    let lane = lane_of(alloc, ran, 0)?;
    let known = lane.ends_with(soon.as_str()) || lane.ends_with("asked=4 told=None\n");
    Ok(known && told(alloc, ran, 0)? == dead)
}

const DEAD: &str = "\
Failed bytes=0
session 0 begun=false closed=false
fault session=0 Begin 0..1
AfterFailure(0) first=0 count=4
";

const SOUND_OF_SAMPLE: &str = "\
Closed bytes=16
file y.aac closed=true bytes=16
session 0 begun=true closed=true
Written(0) first=0 count=2
";

// The same where it doesn't end the run.
#[test]
fn a_dead_one_is_ignored(rt: HostRuntime) -> Result<(), Fail> {
    let alloc = rt.alloc();
    let text = sample_text(alloc)?;
    let outputs = "[f=flv:use_fifo=1:onfail=ignore]x.flv|[f=adts:use_fifo=1]y.aac";
    let ran = run_open(&rt, outputs, &text, MemShelf::dead(alloc))?;
    assert_eq!(rt; ended(&ran), (Status::Done, 8, 4));
    assert!(rt; tells(alloc, &ran, 0, DEAD)?);
    assert!(rt; tells(alloc, &ran, 1, SOUND_OF_SAMPLE)? && has_bytes(alloc, &ran, 1, &TWO_FRAMES)?);
    Ok(())
}

const FAILED_AT_FIRST: &str = "\
Failed bytes=105
file x.flv closed=false bytes=105
session 0 begun=true closed=false
fault session=0 Put(0) 0..1
Lost(0) first=0 count=1
";

const ONE_GIVEN: &str = "\
Closed bytes=151
file z.flv closed=true bytes=151
session 0 begun=true closed=true
Written(0) first=0 count=1
";

const FAILED_LANE: &str = "\
inline=false
cap=60 limit=0 drops=false
given=1 got=1 overs=0
closed=true failed=true
asked=1 told=Some(1)
";

const LANE_BESIDE: &str = "\
inline=false
cap=60 limit=0 drops=false
given=1 got=1 overs=0
closed=true failed=false
asked=1 told=None
";

// An output that fails at its first packet, before which the reader is held in front of the next output: it asks behind the
// packet, and not before it.
#[test]
fn a_failure_ends_the_reading(rt: HostRuntime) -> Result<(), Fail> {
    let alloc = rt.alloc();
    let text = sample_text(alloc)?;
    let outputs = "[f=flv:use_fifo=1]x.flv|[f=flv:use_fifo=1]z.flv";
    let holds = [hold(
        coming(1, Point::BeforeOffer, 1),
        coming(0, Point::BeforeTake, 2),
        0,
    )];
    let (ran, late, _) = run_held(&rt, outputs, &text, failing(alloc, &[11], 0)?, &holds)?;
    assert_eq!(rt; late, 0, "held for too long");
    assert_eq!(rt; ended(&ran), (Status::SlaveFailed(0), 5, 1));
    assert!(rt; is_told(alloc, &ran, 0, FAILED_AT_FIRST, FAILED_LANE)?);
    assert!(rt; is_told(alloc, &ran, 1, ONE_GIVEN, LANE_BESIDE)?);
    assert!(rt; has_begun_and_one(alloc, &ran, &text)?);
    Ok(())
}

// Whether the first output's file was begun and no more, and the second one's has the sample's first picture.
fn has_begun_and_one(alloc: Global, ran: &Ran, text: &[u8]) -> Result<bool, Fail> {
    let begun = text.get(..105).ok_or("short")?;
    let one = file_of_one(alloc, text)?;
    Ok(has_bytes(alloc, ran, 0, begun)? && has_bytes(alloc, ran, 1, &one)?)
}

// The FLV file of the sample's first picture.
fn file_of_one(alloc: Global, text: &[u8]) -> Result<Vec<u8>, Fail> {
    let mut one = Vec::from_slice(alloc, text.get(..131).ok_or("short")?)?;
    add_tag(&mut one, (VIDEO, 0, &SEQUENCE_END))?;
    Ok(one)
}

const INLINE: &str = "inline=true\n";

const ALL_GIVEN: &str = "\
inline=false
cap=60 limit=0 drops=false
given=4 got=4 overs=0
closed=true failed=false
asked=4 told=None
";

const SOUND_GIVEN: &str = "\
inline=false
cap=60 limit=0 drops=false
given=2 got=2 overs=0
closed=true failed=false
asked=4 told=None
";

// Of four outputs, the first of which asks for no thread.
const OPEN_LANES: [&str; 4] = ["inline=false\n", ALL_GIVEN, ALL_GIVEN, SOUND_GIVEN];

// The numbers below three that a set has.
fn members_of(alloc: Global, set: u64) -> Result<Vec<u64>, Fail> {
    let mut members = Vec::new(alloc);
    for number in 0..3u64 {
        if set >> number & 1 == 1 {
            members.push(number)?;
        }
    }
    Ok(members)
}

// The sample's run whose spawner refuses these starts, and how many it refused.
fn run_refused<R: Threads + Wait + AllocGlobal + Clone + Drop + Send + 'static>(
    rt: &R,
    text: &[u8],
    refused: Vec<u64>,
) -> Result<(Ran, u64), Fail> {
    let outputs =
        "[f=adts]p.aac|[f=flv:use_fifo=1]o.flv|[f=mpegts:use_fifo=1]o.ts|[f=adts:use_fifo=1]o.aac";
    let mut spawner = RefusingSpawner::new(refused);
    let gate = Arc::new(rt.alloc(), OpenGate)?;
    let shelf = MemShelf::new(rt.alloc());
    let ran = run_threads(rt, outputs, text, shelf, gate, &mut spawner)?;
    Ok((ran, spawner.refused_count()))
}

// Each set of refused starts: the files are the same, and just these outputs are written by the reader, beside the first one,
// for which no start is asked.
#[test]
fn refused_starts(rt: HostRuntime) -> Result<(), Fail> {
    let alloc = rt.alloc();
    let text = sample_text(alloc)?;
    let outputs = "[f=adts]p.aac|[f=flv]o.flv|[f=mpegts]o.ts|[f=adts]o.aac";
    let plain = run_tee(alloc, outputs, &text, MemShelf::new(alloc))?;
    for set in 0..8u64 {
        let starts = members_of(alloc, set)?;
        let count = starts.len() as u64;
        let (ran, refused) = run_refused(&rt, &text, starts)?;
        assert_eq!(rt; ended(&ran), (Status::Done, 8, 4));
        assert_eq!(rt; refused, count);
        for output in 0..4usize {
            let inline = 2 * set >> output & 1 == 1;
            let lane = if inline { INLINE } else { OPEN_LANES[output] };
            assert!(rt; is_as(alloc, &ran, &plain, output, lane)?, "{set}");
        }
    }
    Ok(())
}

// Whether an output came to the same as that of a plain run, and whether this is told of its lane.
fn is_as(alloc: Global, ran: &Ran, plain: &Ran, output: usize, lane: &str) -> Result<bool, Fail> {
    let wanted = told(alloc, plain, output)?;
    let bytes = bytes_of(alloc, plain, output)?;
    Ok(is_told(alloc, ran, output, &wanted, lane)? && has_bytes(alloc, ran, output, &bytes)?)
}

// The first output is held at its first packet until the second has ended: each has a thread, and neither waits for the other.
#[test]
fn outputs_do_not_wait(rt: HostRuntime) -> Result<(), Fail> {
    let alloc = rt.alloc();
    let text = sample_text(alloc)?;
    let outputs = "[f=flv:use_fifo=1]x.flv|[f=adts:use_fifo=1]y.aac";
    let holds = [hold(
        coming(0, Point::BeforeWrite, 1),
        coming(1, Point::AfterEnd, 1),
        0,
    )];
    let (ran, late, _) = run_held(&rt, outputs, &text, MemShelf::new(alloc), &holds)?;
    assert_eq!(rt; late, 0, "held for too long");
    assert_eq!(rt; ended(&ran), (Status::Done, 8, 4));
    assert!(rt; has_bytes(alloc, &ran, 0, &text)? && tells(alloc, &ran, 1, SOUND_OF_SAMPLE)?);
    Ok(())
}

// The reader waits where a queue of one packet is full: while the first output is held at its first packet, one waits, and the
// reader has come with the third.
#[test]
fn the_reader_waits(rt: HostRuntime) -> Result<(), Fail> {
    let alloc = rt.alloc();
    let text = sample_text(alloc)?;
    let outputs =
        "[f=flv:use_fifo=1:fifo_options=queue_size=1]x.flv|[f=adts:use_fifo=1:fifo_options=queue_size=1]y.aac";
    let holds = [hold(
        coming(0, Point::BeforeWrite, 1),
        coming(0, Point::BeforeOffer, 3),
        100,
    )];
    let (ran, late, offers) = run_held(&rt, outputs, &text, MemShelf::new(alloc), &holds)?;
    assert_eq!(rt; (late, offers), (0, 3));
    assert_eq!(rt; ended(&ran), (Status::Done, 8, 4));
    assert!(rt; has_bytes(alloc, &ran, 0, &text)? && tells(alloc, &ran, 1, SOUND_OF_SAMPLE)?);
    Ok(())
}
