// Outputs over small shelves, by worked examples. An output of audio is ADTS, and its packets are one byte of AAC each: 21, 22,
// 23 and so on. One of video is MPEG-TS; its packets are one unit each, and every second one is a key packet, from the first on.
ghost use Rattle.std.specs.Prelude.{◌≡◌, ◌<◌, ◌^◌, ℕ, List, length, Some, None, IfOk, true, false};
ghost use Rattle.rmx_media.specs.declared.packet.Format.TheVariants as format;
ghost use Rattle.rmx_media.specs.declared.streams.Kind.TheVariants.{Audio, Video};
ghost use Rattle.rmx_media.specs.Config.{IsAsRead, kind_of};
ghost use Rattle.rmx_media.specs.Fits.{Fits};
ghost use Rattle.rmx_media.specs.Units.{is_valid};
ghost use Rattle.rmx_edge.specs.MemShelf.{state_of};
ghost use Rattle.rmx_media.specs.Streams.{CanMux, kind_in};
ghost use Rattle.rmx_media.specs.declared.streams.MuxStreams.{MuxStreams};
ghost use Rattle.slave.specs.Calls.{IsBuilt};
ghost use Rattle.slave.specs.Sample.{format_for};

use crate::{FaultAt, FaultNote, Run, SessionNote, SlaveEnd, SlaveJob};
use bytes::Bytes;
use fifo_core::{EndState, Fate, FifoOptions};
use playlist::{ListKind, SegOptions, Template};
use rmx_edge::{FailAt, MemShelf, Shelf, ShelfFault};
use rmx_media::{
    Config, Form, Format, Items, Kind, MuxStream, MuxStreams, Packet, StreamInfo, Text,
    read_aac_config, read_avc_config,
};
use std::alloc::Global;
use std::test::Fail;

const PLAIN: FifoOptions = FifoOptions {
    use_fifo: false,
    queue_size: 60,
    queue_bytes: 0,
    dropping: false,
    attempt_recovery: false,
    max_attempts: 0,
    wait_ms: 0,
    restart: false,
};

const RECOVERS: FifoOptions = FifoOptions {
    attempt_recovery: true,
    ..PLAIN
};

const RESTARTS: FifoOptions = FifoOptions {
    restart: true,
    ..RECOVERS
};

const AVC: [u8; 17] = [
    0x01, 0x42, 0x00, 0x1E, 0xFF, 0xE1, 0x00, 0x04, 0x67, 0x42, 0x00, 0x1E, 0x01, 0x00, 0x02, 0x68,
    0xCE,
];

const AAC: [u8; 2] = [0x12, 0x10];

fn format(kind: Kind) -> Format
    ensures format { result ≡ format_for kind }
    ensures built { (name : List ℕ) → IsBuilt result None name }
{
    match kind {
        Kind::Audio => Format::Adts,
        Kind::Video => Format::Mpegts,
    }
}

fn config(alloc: Global, kind: Kind) -> Result<Config, Fail>
    ensures { IfOk result (λ c. IsAsRead c × (kind_of c ≡ kind)) }
{
    match kind {
        Kind::Audio => match read_aac_config(Bytes::copy_from_slice(alloc, &AAC)?) {
            Ok(config) => Ok(Config::Aac(config)),
            Err(fault) => Err(Fail::from(fault)),
        },
        Kind::Video => match read_avc_config(Bytes::copy_from_slice(alloc, &AVC)?) {
            Ok(config) => Ok(Config::Avc(config)),
            Err(fault) => Err(Fail::from(fault)),
        },
    }
}

// The stream 1.
fn streams(alloc: Global, kind: Kind) -> Result<MuxStreams, Fail>
    ensures { IfOk result (λ m. CanMux m × (kind_in m.streams.items 1 ≡ Some kind)) }
{
    let info = StreamInfo {
        kind,
        config: config(alloc, kind)?,
    };
    let stream = MuxStream { stream: 1, info };
    Ok(MuxStreams {
        streams: Items::from_vec(vec![in alloc; stream]?),
        script: None,
    })
}

fn audio_packet(alloc: Global, time: u16, index: u64) -> Result<Packet, Fail>
    ensures { IfOk result (λ p. (m : MuxStreams) → kind_in m.streams.items 1 ≡ Some Audio → Fits format.Adts m p) }
{
    let byte = 0x21 + (index % 16) as u8;
    match config(alloc, Kind::Audio)? {
        Config::Aac(config) => Ok(Packet {
            stream: 1,
            dts: i64::from(time),
            pts: i64::from(time),
            key: true,
            form: Form::Native,
            payload: Bytes::copy_from_slice(alloc, &[byte])?,
            config: Config::Aac(config),
            version: 0,
        }),
        Config::Avc(_) => unreachable!(),
    }
}

// A unit behind its length field.
fn unit(alloc: Global, key: bool) -> Result<Bytes, Fail>
    ensures valid { IfOk result (λ b. is_valid 4 b ≡ true) }
    ensures size { IfOk result (λ b. length b ≡ 6) }
{
    let first = if key { 0x65 } else { 0x41 };
    Ok(Bytes::copy_from_slice(alloc, &[0, 0, 0, 2, first, 0x88])?)
}

fn video_packet(alloc: Global, time: u16, index: u64) -> Result<Packet, Fail>
    ensures { IfOk result (λ p. (m : MuxStreams) → kind_in m.streams.items 1 ≡ Some Video → Fits format.Mpegts m p) }
{
    let key = index % 2 == 0;
    let payload = unit(alloc, key)?;
    match config(alloc, Kind::Video)? {
        Config::Avc(config) if config.length_size == 4 => Ok(Packet {
            stream: 1,
            dts: i64::from(time),
            pts: i64::from(time),
            key,
            form: Form::Native,
            payload,
            config: Config::Avc(config),
            version: 0,
        }),
        _ => Err(Fail::new("other length fields")),
    }
}

fn packet(alloc: Global, kind: Kind, time: u16, index: u64) -> Result<Packet, Fail>
    ensures { IfOk result (λ p. (m : MuxStreams) → kind_in m.streams.items 1 ≡ Some kind → Fits (format_for kind) m p) }
{
    match kind {
        Kind::Audio => audio_packet(alloc, time, index),
        Kind::Video => video_packet(alloc, time, index),
    }
}

// An output of a packet at each of these times.
fn written<S: Shelf + Drop>(
    alloc: Global,
    options: FifoOptions,
    kind: Kind,
    times: &[u16],
    shelf: S,
) -> Result<SlaveEnd<S>, Fail>
    requires idle { (S.state shelf).writing ≡ false }
    requires few { length times.now < 2 ^ 61 }
{
    let name = String::from_str(alloc, "a")?;
    let streams = streams(alloc, kind)?;
    let mut job = match SlaveJob::new(alloc, name, format(kind), None, options, streams, shelf) {
        Ok(job) => job,
        Err((_, refused)) => return Err(Fail::from(refused)),
    };
    job.start();
    let mut index = 0;
    for time in times {
        let p = packet(alloc, kind, *time, index)?;
        job.write_direct(index, &p);
        index += 1;
    }
    Ok(job.finish_direct())
}

fn run(fate: Fate, first: u64, count: u64) -> Run {
    Run { fate, first, count }
}

fn session(number: u64, begun: bool, closed: bool) -> SessionNote {
    SessionNote {
        number,
        begun,
        closed,
    }
}

fn failing(alloc: Global, calls: &[u64], keep: u32) -> Result<MemShelf, Fail>
    ensures { IfOk result (λ s. (state_of s).writing ≡ false) }
{
    let mut fails = Vec::new(alloc);
    for call in calls {
        fails.push(FailAt { call: *call, keep })?;
    }
    Ok(MemShelf::failing(alloc, fails))
}

// Without a fault there is one file.
#[test]
fn one_file(rt: HostRuntime) -> Result<(), Fail> {
    let end = written(
        rt.alloc(),
        PLAIN,
        Kind::Audio,
        &[0, 23],
        MemShelf::new(rt.alloc()),
    )?;
    assert_eq!(rt; end.state, EndState::Closed);
    assert_eq!(rt;
        end.fates.as_slice(),
        [run(Fate::Written(0), 0, 2)].as_slice()
    );
    assert_eq!(rt;
        end.sessions.as_slice(),
        [session(0, true, true)].as_slice()
    );
    assert!(rt; end.faults.as_slice().is_empty());
    assert_eq!(rt; end.bytes, 16);
    assert!(rt; !end.inline);
    Ok(())
}

// The third write fails and keeps two bytes; its packet is written again in a second file, also where each file is to begin
// with a key packet: every packet of audio is one.
#[test]
fn a_packet_stands_in_the_next_file(rt: HostRuntime) -> Result<(), Fail> {
    for options in [RECOVERS, RESTARTS] {
        let shelf = failing(rt.alloc(), &[3], 2)?;
        let end = written(rt.alloc(), options, Kind::Audio, &[0, 23, 46], shelf)?;
        assert_eq!(rt; end.state, EndState::Closed);
        let fates = [run(Fate::Written(0), 0, 1), run(Fate::Written(1), 1, 2)];
        assert_eq!(rt; end.fates.as_slice(), fates.as_slice());
        let sessions = [session(0, true, false), session(1, true, true)];
        assert_eq!(rt; end.sessions.as_slice(), sessions.as_slice());
        let fault = FaultNote {
            session: 0,
            at: FaultAt::Put(1),
            before: 0,
            after: 1,
        };
        assert_eq!(rt; end.faults.as_slice(), [fault].as_slice());
        assert_eq!(rt; end.bytes, 24);
    }
    Ok(())
}

// What the shelf then holds.
#[test]
fn the_second_file_has_its_own_name(rt: HostRuntime) -> Result<(), Fail> {
    let shelf = failing(rt.alloc(), &[3], 2)?;
    let end = written(rt.alloc(), RECOVERS, Kind::Audio, &[0, 23, 46], shelf)?;
    let shelf = end.shelf;
    assert_eq!(rt; shelf.take_count(), 2);
    assert_eq!(rt; shelf.take_name(0), "a");
    assert_eq!(rt;
        shelf.take_bytes(0),
        [0xFF, 0xF1, 0x50, 0x80, 0x01, 0x1F, 0xFC, 0x21, 0xFF, 0xF1].as_slice()
    );
    assert!(rt; !shelf.take_closed(0));
    assert_eq!(rt; shelf.take_name(1), "a~1");
    let second = [
        0xFF, 0xF1, 0x50, 0x80, 0x01, 0x1F, 0xFC, 0x22, 0xFF, 0xF1, 0x50, 0x80, 0x01, 0x1F, 0xFC,
        0x23,
    ];
    assert_eq!(rt; shelf.take_bytes(1), second.as_slice());
    assert!(rt; shelf.take_closed(1));
    Ok(())
}

// The create of session 1 fails too: the packet is lost, and session 2 begins with the next one.
#[test]
fn a_begin_fails(rt: HostRuntime) -> Result<(), Fail> {
    let shelf = failing(rt.alloc(), &[3, 4], 0)?;
    let end = written(rt.alloc(), RECOVERS, Kind::Audio, &[0, 23, 46], shelf)?;
    let fates = [
        run(Fate::Written(0), 0, 1),
        run(Fate::Lost(1), 1, 1),
        run(Fate::Written(2), 2, 1),
    ];
    assert_eq!(rt; end.fates.as_slice(), fates.as_slice());
    let sessions = [
        session(0, true, false),
        session(1, false, false),
        session(2, true, true),
    ];
    assert_eq!(rt; end.sessions.as_slice(), sessions.as_slice());
    Ok(())
}

// On a dead shelf an output is given up after so many attempts; 0 is no limit.
#[test]
fn attempts_are_counted(rt: HostRuntime) -> Result<(), Fail> {
    let end = written(
        rt.alloc(),
        PLAIN,
        Kind::Audio,
        &[0],
        MemShelf::dead(rt.alloc()),
    )?;
    assert_eq!(rt; end.state, EndState::Failed);
    assert_eq!(rt;
        end.fates.as_slice(),
        [run(Fate::AfterFailure(0), 0, 1)].as_slice()
    );
    assert_eq!(rt;
        end.sessions.as_slice(),
        [session(0, false, false)].as_slice()
    );
    let times = [0, 23, 46];
    let end = written(
        rt.alloc(),
        RECOVERS,
        Kind::Audio,
        &times,
        MemShelf::dead(rt.alloc()),
    )?;
    let lost = [
        run(Fate::Lost(1), 0, 1),
        run(Fate::Lost(2), 1, 1),
        run(Fate::Lost(3), 2, 1),
    ];
    assert_eq!(rt; end.fates.as_slice(), lost.as_slice());
    let once = FifoOptions {
        max_attempts: 1,
        ..RECOVERS
    };
    let end = written(
        rt.alloc(),
        once,
        Kind::Audio,
        &times,
        MemShelf::dead(rt.alloc()),
    )?;
    let given_up = [run(Fate::Lost(1), 0, 1), run(Fate::AfterFailure(1), 1, 2)];
    assert_eq!(rt; end.fates.as_slice(), given_up.as_slice());
    let twice = FifoOptions {
        max_attempts: 2,
        ..RECOVERS
    };
    let end = written(
        rt.alloc(),
        twice,
        Kind::Audio,
        &times,
        MemShelf::dead(rt.alloc()),
    )?;
    let given_up = [
        run(Fate::Lost(1), 0, 1),
        run(Fate::Lost(2), 1, 1),
        run(Fate::AfterFailure(2), 2, 1),
    ];
    assert_eq!(rt; end.fates.as_slice(), given_up.as_slice());
    Ok(())
}

// A fault at 0 ms keeps the next attempt off until 100 ms.
#[test]
fn a_wait(rt: HostRuntime) -> Result<(), Fail> {
    let waits = FifoOptions {
        wait_ms: 100,
        ..RECOVERS
    };
    let shelf = failing(rt.alloc(), &[1], 0)?;
    let end = written(rt.alloc(), waits, Kind::Audio, &[0, 50, 100, 200], shelf)?;
    let fates = [run(Fate::Lost(0), 0, 2), run(Fate::Written(1), 2, 2)];
    assert_eq!(rt; end.fates.as_slice(), fates.as_slice());
    Ok(())
}

// Whichever call fails, its note says where.
#[test]
fn every_call_fails_once(rt: HostRuntime) -> Result<(), Fail> {
    for call in 0..6 {
        let shelf = failing(rt.alloc(), &[call], 1)?;
        let end = written(rt.alloc(), PLAIN, Kind::Audio, &[0, 23], shelf)?;
        let at = match call {
            0 => FaultAt::Begin,
            5 => FaultAt::End,
            _ => FaultAt::Put((call - 1) / 2),
        };
        let fault = FaultNote {
            session: 0,
            at,
            before: 0,
            after: 1,
        };
        assert_eq!(rt; end.faults.as_slice(), [fault].as_slice());
        assert_eq!(rt; end.state, EndState::Failed);
    }
    Ok(())
}

// Whether a dead shelf leaves these fates to packets at 0, 50, 100, 150 and 200 ms.
fn leaves(alloc: Global, kind: Kind, options: FifoOptions, fates: &[Run]) -> Result<bool, Fail> {
    let times = [0, 50, 100, 150, 200];
    let shelf = MemShelf::dead(alloc);
    let end = written(alloc, options, kind, &times, shelf)?;
    Ok(end.fates.as_slice() == fates && end.state == EndState::Failed)
}

fn lost(note: u64, first: u64, count: u64) -> Run {
    run(Fate::Lost(note), first, count)
}

fn after(note: u64, first: u64, count: u64) -> Run {
    run(Fate::AfterFailure(note), first, count)
}

fn waits(first: u64) -> Run {
    run(Fate::KeyWait, first, 1)
}

// With a wait of 100 ms attempts come at 0, 100 and 200 ms, as far as so many are allowed.
#[test]
fn attempts_wait(rt: HostRuntime) -> Result<(), Fail> {
    let all = [lost(1, 0, 2), lost(2, 2, 2), lost(3, 4, 1)];
    let one = [lost(1, 0, 1), after(1, 1, 4)];
    let two = [lost(1, 0, 2), lost(2, 2, 1), after(2, 3, 2)];
    for (max_attempts, fates) in [
        (0, all.as_slice()),
        (1, one.as_slice()),
        (2, two.as_slice()),
    ] {
        let options = FifoOptions {
            max_attempts,
            wait_ms: 100,
            ..RECOVERS
        };
        assert!(rt;
            leaves(rt.alloc(), Kind::Audio, options, fates)?,
            "{max_attempts}"
        );
    }
    Ok(())
}

// Where a file is to begin with a key packet, which each second one is, the others are not tried, and a wait comes before that.
#[test]
fn attempts_begin_with_key_packets(rt: HostRuntime) -> Result<(), Fail> {
    let all = [
        lost(1, 0, 1),
        waits(1),
        lost(2, 2, 1),
        waits(3),
        lost(3, 4, 1),
    ];
    let two = [lost(1, 0, 1), waits(1), lost(2, 2, 1), after(2, 3, 2)];
    let late = [lost(1, 0, 3), waits(3), lost(2, 4, 1)];
    for (max_attempts, wait_ms, fates) in [
        (0, 0, all.as_slice()),
        (0, 40, all.as_slice()),
        (2, 0, two.as_slice()),
        (0, 120, late.as_slice()),
    ] {
        let options = FifoOptions {
            max_attempts,
            wait_ms,
            ..RESTARTS
        };
        assert!(rt;
            leaves(rt.alloc(), Kind::Video, options, fates)?,
            "{max_attempts} {wait_ms}"
        );
    }
    Ok(())
}

// The first cell of the second packet, which is no key packet, fails behind a create, two tables and a cell. That packet
// then waits for a key packet, and the third one begins the second file.
#[test]
fn a_key_packet_begins_the_next_file(rt: HostRuntime) -> Result<(), Fail> {
    let shelf = failing(rt.alloc(), &[4], 0)?;
    let end = written(rt.alloc(), RESTARTS, Kind::Video, &[0, 40, 80], shelf)?;
    assert_eq!(rt; end.state, EndState::Closed);
    let fates = [
        run(Fate::Written(0), 0, 1),
        run(Fate::KeyWait, 1, 1),
        run(Fate::Written(1), 2, 1),
    ];
    assert_eq!(rt; end.fates.as_slice(), fates.as_slice());
    let sessions = [session(0, true, false), session(1, true, true)];
    assert_eq!(rt; end.sessions.as_slice(), sessions.as_slice());
    let fault = FaultNote {
        session: 0,
        at: FaultAt::Put(1),
        before: 0,
        after: 1,
    };
    assert_eq!(rt; end.faults.as_slice(), [fault].as_slice());
    assert_eq!(rt; end.bytes, 6 * 188);
    assert_eq!(rt; end.shelf.take_count(), 2);
    assert_eq!(rt; end.shelf.take_bytes(0).len(), 3 * 188);
    assert_eq!(rt; end.shelf.take_bytes(1).len(), 3 * 188);
    Ok(())
}

// A shelf that tells nothing of its files, and refuses the flush of this number, from 0, with this fault.
#[derive(Drop)]
struct Refusing {
    refused: u64,
    fault: ShelfFault,
    flushes: u64,
    writing: bool,
    faults: u64,
    wants: u64,
    ghost few_faults: { faults < 2 ^ 64 },
    ghost few_wants: { wants < 2 ^ 64 },
}

impl Refusing {
    fn new(refused: u64, fault: ShelfFault) -> Refusing
        ensures { result.writing ≡ false }
    {
        Refusing {
            refused,
            fault,
            flushes: 0,
            writing: false,
            faults: 0,
            wants: 0,
        }
    }
}

impl Shelf for Refusing {
    ghost state = { λ s. record { takes = None; calls = None; accepted = None; writing = s.writing; faults = s.faults; wants = s.wants; sound = false } };

    fn create(&mut self, _: &str) -> Result<(), ShelfFault> {
        self.writing = true;
        Ok(())
    }

    fn write(&mut self, _: &[u8]) -> Result<(), ShelfFault> {
        Ok(())
    }

    fn close(&mut self) -> Result<(), ShelfFault> {
        self.writing = false;
        Ok(())
    }

    fn flush(&mut self) -> Result<(), ShelfFault> {
        let refused = self.flushes == self.refused;
        self.flushes = self.flushes.saturating_add(1);
        if !refused {
            return Ok(());
        }
        self.writing = false;
        match self.fault {
            ShelfFault::Failed => {
                self.faults = self.faults.saturating_add(1);
                Err(ShelfFault::Failed)
            }
            ShelfFault::NoMemory => {
                self.wants = self.wants.saturating_add(1);
                Err(ShelfFault::NoMemory)
            }
        }
    }

    fn fault_count(&self) -> u64 {
        self.faults
    }

    fn want_count(&self) -> u64 {
        self.wants
    }
}

// The flush behind the second packet is refused: the packet counts as failed, and is written again in a second file. The byte
// that its last write had accepted doesn't count.
#[test]
fn a_flush_is_refused(rt: HostRuntime) -> Result<(), Fail> {
    let shelf = Refusing::new(1, ShelfFault::Failed);
    let end = written(rt.alloc(), RECOVERS, Kind::Audio, &[0, 23, 46], shelf)?;
    assert_eq!(rt; end.state, EndState::Closed);
    let fates = [run(Fate::Written(0), 0, 1), run(Fate::Written(1), 1, 2)];
    assert_eq!(rt; end.fates.as_slice(), fates.as_slice());
    let sessions = [session(0, true, false), session(1, true, true)];
    assert_eq!(rt; end.sessions.as_slice(), sessions.as_slice());
    let fault = FaultNote {
        session: 0,
        at: FaultAt::Put(1),
        before: 0,
        after: 1,
    };
    assert_eq!(rt; end.faults.as_slice(), [fault].as_slice());
    assert_eq!(rt; end.shelf.flushes, 4);
    assert_eq!(rt; end.bytes, 8 + 7 + 8 + 8);
    Ok(())
}

// The fate of a packet.
fn fate_in(runs: &[Run], index: u64) -> Option<Fate> {
    for run in runs {
        if run.first <= index && index - run.first < run.count {
            return Some(run.fate);
        }
    }
    None
}

// Where memory is made to be wanted in this test, all packets from one on have that fate, or there is no end at all.
#[test]
fn memory_may_be_wanted(rt: HostRuntime) -> Result<(), Fail> {
    let shelf = failing(rt.alloc(), &[3, 4], 0)?;
    let end = written(rt.alloc(), RECOVERS, Kind::Audio, &[0, 23, 46], shelf)?;
    let mut wanted = false;
    for (index, fate) in [
        (0, Fate::Written(0)),
        (1, Fate::Lost(1)),
        (2, Fate::Written(2)),
    ] {
        let found = fate_in(end.fates.as_slice(), index);
        wanted = wanted || found == Some(Fate::NoMemory);
        let right = if wanted { Fate::NoMemory } else { fate };
        assert_eq!(rt; found, Some(right));
    }
    let right = if wanted {
        EndState::NoMemory
    } else {
        EndState::Closed
    };
    assert_eq!(rt; end.state, right);
    Ok(())
}

// A packet of this index is given, or flushed by the overflow of this number.
#[derive(Clone, Copy)]
enum Turn {
    Packet(u64),
    Flush(u64, u64),
}

fn index_of(turn: Turn) -> u64 {
    match turn {
        Turn::Packet(index) => index,
        Turn::Flush(index, _) => index,
    }
}

// An output of these turns.
fn given<S: Shelf + Drop>(
    alloc: Global,
    kind: Kind,
    turns: &[Turn],
    shelf: S,
) -> Result<SlaveEnd<S>, Fail>
    requires idle { (S.state shelf).writing ≡ false }
{
    let name = String::from_str(alloc, "a")?;
    let streams = streams(alloc, kind)?;
    let mut job = match SlaveJob::new(alloc, name, format(kind), None, RESTARTS, streams, shelf) {
        Ok(job) => job,
        Err((_, refused)) => return Err(Fail::from(refused)),
    };
    job.start();
    let mut next = 0;
    for turn in turns {
        let index = index_of(*turn);
        if index < next || index > 100 {
            return Err(Fail::new("an index"));
        }
        let p = packet(alloc, kind, 0, index)?;
        next = index + 1;
        match *turn {
            Turn::Packet(_) => job.write_at(index, &p),
            Turn::Flush(_, number) => job.flush_at(index, number),
        }
    }
    Ok(job.finish_all())
}

// The packets 1 and 2 were refused, and 5 is flushed. Behind each gap a packet waits for a key packet.
#[test]
fn packets_with_gaps(rt: HostRuntime) -> Result<(), Fail> {
    let turns = [
        Turn::Packet(0),
        Turn::Packet(3),
        Turn::Packet(4),
        Turn::Flush(5, 1),
        Turn::Packet(7),
        Turn::Packet(8),
    ];
    let end = given(rt.alloc(), Kind::Video, &turns, MemShelf::new(rt.alloc()))?;
    assert_eq!(rt; end.state, EndState::Closed);
    let fates = [
        run(Fate::Written(0), 0, 1),
        run(Fate::KeyWait, 3, 1),
        run(Fate::Written(0), 4, 1),
        run(Fate::Flushed(1), 5, 1),
        run(Fate::KeyWait, 7, 1),
        run(Fate::Written(0), 8, 1),
    ];
    assert_eq!(rt; end.fates.as_slice(), fates.as_slice());
    Ok(())
}

// Once memory was wanted there is one run for all that comes, and for what was refused between.
#[test]
fn memory_is_wanted_for_good(rt: HostRuntime) -> Result<(), Fail> {
    let turns = [
        Turn::Packet(0),
        Turn::Packet(2),
        Turn::Packet(5),
        Turn::Flush(9, 3),
    ];
    let shelf = Refusing::new(1, ShelfFault::NoMemory);
    let end = given(rt.alloc(), Kind::Audio, &turns, shelf)?;
    assert_eq!(rt; end.state, EndState::NoMemory);
    let fates = [run(Fate::Written(0), 0, 1), run(Fate::NoMemory, 2, 8)];
    assert_eq!(rt; end.fates.as_slice(), fates.as_slice());
    assert!(rt; end.faults.as_slice().is_empty());
    Ok(())
}

// Segments of audio of two seconds, from that number on, and their list.
fn two_seconds(alloc: Global, start: u64) -> Result<SegOptions, Fail>
    ensures { IfOk result (λ seg. seg.inner ≡ format.Adts) }
{
    Ok(SegOptions {
        inner: Format::Adts,
        time_us: 2_000_000,
        list: Some(Text::of(alloc, "l")?),
        list_kind: ListKind::Flat,
        start,
        reset: false,
        any_packet: false,
    })
}

// An output of them: a packet at each of these times.
fn segmented(
    alloc: Global,
    start: u64,
    times: &[u16],
    shelf: MemShelf,
) -> Result<SlaveEnd<MemShelf>, Fail>
    requires idle { (state_of shelf).writing ≡ false }
    requires few { length times.now < 2 ^ 61 }
{
    let seg = two_seconds(alloc, start)?;
    let name = String::from_str(alloc, "s%d.aac")?;
    let Some(_) = Template::parse(name.as_str()) else {
        return Err(Fail::new("no template"));
    };
    let streams = streams(alloc, Kind::Audio)?;
    let format = Format::Segment;
    let mut job = match SlaveJob::new(alloc, name, format, Some(seg), RECOVERS, streams, shelf) {
        Ok(job) => job,
        Err((_, refused)) => return Err(Fail::from(refused)),
    };
    job.start();
    let mut index = 0;
    for time in times {
        let p = packet(alloc, Kind::Audio, *time, index)?;
        job.write_direct(index, &p);
        index += 1;
    }
    Ok(job.finish_direct())
}

// Calls 0 to 3 write the first segment, and 4 to 7 the second one. Where one of them fails, the packet is written again in a
// session of its own, whose segments are numbered on, also where the refused call was a create; its list names them alone.
#[test]
fn segments_are_numbered_on(rt: HostRuntime) -> Result<(), Fail> {
    for (call, names, list) in [
        (3, ["s7.aac", "s8.aac", "l"].as_slice(), "s8.aac\n"),
        (4, ["s7.aac", "s9.aac", "l"].as_slice(), "s9.aac\n"),
        (
            5,
            ["s7.aac", "s8.aac", "s9.aac", "l"].as_slice(),
            "s9.aac\n",
        ),
        (9, ["s7.aac", "s8.aac", "l"].as_slice(), "s7.aac\n"),
        (99, ["s7.aac", "s8.aac", "l"].as_slice(), "s7.aac\ns8.aac\n"),
    ] {
        let shelf = failing(rt.alloc(), &[call], 7)?;
        let end = segmented(rt.alloc(), 7, &[0, 2000], shelf)?;
        assert_eq!(rt; end.shelf.take_count(), names.len());
        for (at, name) in names.iter().enumerate() {
            assert_eq!(rt; end.shelf.take_name(at), *name);
            if at + 1 == names.len() {
                assert_eq!(rt; end.shelf.take_bytes(at), list.as_bytes());
            }
        }
    }
    Ok(())
}
