// Files by worked examples.
ghost use Rattle.std.specs.Prelude.{◌≡◌, ◌==◌, true, Some, IfOk};
ghost use Rattle.rmx_media.specs.declared.streams.Kind.TheVariants.{Video, Audio};
ghost use Rattle.rmx_media.specs.declared.packet.Format.TheVariants.{Mpegts};
ghost use Rattle.rmx_media.specs.Config.{IsReadAac, IsReadAvc, IsAsRead, kind_of};
ghost use Rattle.rmx_media.specs.Fits.{FitsLowered, IsPayload};
ghost use Rattle.rmx_media.specs.Streams.{CanMux, IsSound, kind_in};
ghost use Rattle.ts_mux.specs.Sample.{AreTimes};

use crate::TsMux;
use avc_units::valid_units;
use bytes::Bytes;
use rmx_edge::{MemShelf, Shelf};
use rmx_media::{
    AacConfig, AvcConfig, Config, Form, Items, Kind, MuxStream, MuxStreams, Packet, StreamInfo,
    read_aac_config, read_avc_config,
};
use std::alloc::Global;
use std::test::Fail;

const AVC: [u8; 17] = [
    0x01, 0x42, 0x00, 0x1E, 0xFF, 0xE1, 0x00, 0x04, 0x67, 0x42, 0x00, 0x1E, 0x01, 0x00, 0x02, 0x68,
    0xCE,
];

const AAC: [u8; 2] = [0x12, 0x10];

// The configuration of that version; its last byte is another from version 1 on.
fn avc(alloc: Global, version: u64) -> Result<AvcConfig, Fail>
    ensures { IfOk result (λ c. IsReadAvc c) }
{
    let mut raw = AVC;
    if version > 0 {
        raw[16] = 0xCF;
    }
    match read_avc_config(Bytes::copy_from_slice(alloc, &raw)?) {
        Ok(config) => Ok(config),
        Err(fault) => Err(Fail::from(fault)),
    }
}

fn aac(alloc: Global) -> Result<AacConfig, Fail>
    ensures { IfOk result (λ c. IsReadAac c) }
{
    match read_aac_config(Bytes::copy_from_slice(alloc, &AAC)?) {
        Ok(config) => Ok(config),
        Err(fault) => Err(Fail::from(fault)),
    }
}

fn video_stream(alloc: Global) -> Result<MuxStream, Fail>
    ensures { IfOk result (λ s. (s.stream ≡ 0) × (s.info.kind ≡ Video) × IsSound s.info) }
{
    let info = StreamInfo {
        kind: Kind::Video,
        config: Config::Avc(avc(alloc, 0)?),
    };
    Ok(MuxStream { stream: 0, info })
}

fn audio_stream(alloc: Global) -> Result<MuxStream, Fail>
    ensures { IfOk result (λ s. (s.stream ≡ 1) × (s.info.kind ≡ Audio) × IsSound s.info) }
{
    let info = StreamInfo {
        kind: Kind::Audio,
        config: Config::Aac(aac(alloc)?),
    };
    Ok(MuxStream { stream: 1, info })
}

// The streams 0, video, and 1, audio.
fn both(alloc: Global) -> Result<MuxStreams, Fail>
    ensures { IfOk result CanMux }
{
    let video = video_stream(alloc)?;
    let audio = audio_stream(alloc)?;
    Ok(MuxStreams {
        streams: Items::from_vec(vec![in alloc; video, audio]?),
        script: None,
    })
}

// The stream 1 alone, audio.
fn alone(alloc: Global) -> Result<MuxStreams, Fail>
    ensures { IfOk result CanMux }
{
    let audio = audio_stream(alloc)?;
    Ok(MuxStreams {
        streams: Items::from_vec(vec![in alloc; audio]?),
        script: None,
    })
}

// The stream 0 alone, video.
fn pictures(alloc: Global) -> Result<MuxStreams, Fail>
    ensures { IfOk result CanMux }
{
    let video = video_stream(alloc)?;
    Ok(MuxStreams {
        streams: Items::from_vec(vec![in alloc; video]?),
        script: None,
    })
}

// A packet of a test: video of stream 0, or audio of stream 1.
#[derive(Clone, Copy)]
struct Sample<'a> {
    kind: Kind,
    dts: i64,
    pts: i64,
    key: bool,
    version: u64,
    payload: &'a [u8],
}

// Whether there is a stream of that number and kind.
fn has_stream(streams: &[MuxStream], number: u32, kind: Kind) -> bool
    ensures { result ≡ true → kind_in streams.now number ≡ Some kind }
{
    match streams {
        [first, ..] if first.stream == number => first.info.kind == kind,
        [_, second, ..] => second.stream == number && second.info.kind == kind,
        _ => false,
    }
}

fn are_times(dts: i64, pts: i64) -> bool
    ensures { result ≡ true → AreTimes dts pts }
{
    if dts < -8_589_934_592 || dts > 8_589_934_592 {
        return false;
    }
    dts <= pts && pts <= dts + 8_388_607
}

// The configuration of a packet, where the payload is one of its kind.
fn config_of(alloc: Global, sample: &Sample) -> Result<Config, Fail>
    ensures { IfOk result (λ c. (kind_of c ≡ sample.now.kind) × IsAsRead c × IsPayload c Form.Native sample.now.payload.now) }
{
    match sample.kind {
        Kind::Video => {
            let config = avc(alloc, sample.version)?;
            if config.length_size != 4 || !valid_units(sample.payload, 4) {
                return Err(Fail::new("no units"));
            }
            Ok(Config::Avc(config))
        }
        Kind::Audio => {
            if sample.payload.len() > 8184 {
                return Err(Fail::new("too long"));
            }
            Ok(Config::Aac(aac(alloc)?))
        }
    }
}

fn packet(alloc: Global, streams: &MuxStreams, sample: &Sample) -> Result<Packet, Fail>
    ensures { IfOk result (FitsLowered Mpegts streams.now) }
{
    let stream = match sample.kind {
        Kind::Video => 0,
        Kind::Audio => 1,
    };
    let fits = has_stream(streams.streams.as_slice(), stream, sample.kind);
    if !fits || !are_times(sample.dts, sample.pts) || sample.payload.len() > 100_000 {
        return Err(Fail::new("no packet"));
    }
    Ok(Packet {
        stream,
        dts: sample.dts,
        pts: sample.pts,
        key: sample.key,
        form: Form::Native,
        payload: Bytes::copy_from_slice(alloc, sample.payload)?,
        config: config_of(alloc, sample)?,
        version: sample.version,
    })
}

// The bytes of a file of these packets.
fn file_of(alloc: Global, streams: MuxStreams, samples: &[Sample]) -> Result<Vec<u8>, Fail>
    requires { CanMux streams }
{
    let mut mux = TsMux::new(streams);
    let mut shelf = MemShelf::new(alloc);
    mux.begin("out.ts", &mut shelf)?;
    for sample in samples {
        let packet = packet(alloc, mux.streams(), sample)?;
        mux.put(&packet, &mut shelf)?;
    }
    mux.end(&mut shelf)?;
    if shelf.take_count() != 1 || !shelf.take_closed(0) {
        return Err(Fail::new("no file"));
    }
    Ok(Vec::from_slice(alloc, shelf.take_bytes(0))?)
}

// So many bytes of a unit of type 1.
fn alike(alloc: Global, size: usize) -> Result<Vec<u8>, Fail> {
    Ok(vec![in alloc; 0x41; size]?)
}

// A cell with stuffing between its front and its end comes last.
fn add_cell(cells: &mut Vec<u8>, front: &[u8], end: &[u8]) -> Result<(), Fail> {
    cells.extend_from_slice(front)?;
    for _stuffing in front.len() + end.len()..188 {
        cells.push(0xFF)?;
    }
    cells.extend_from_slice(end)?;
    Ok(())
}

fn video(time: i64, pts: i64, key: bool, payload: &[u8]) -> Sample<'_> {
    Sample {
        kind: Kind::Video,
        dts: time,
        pts,
        key,
        version: 0,
        payload,
    }
}

fn audio(time: i64, version: u64, payload: &[u8]) -> Sample<'_> {
    Sample {
        kind: Kind::Audio,
        dts: time,
        pts: time,
        key: true,
        version,
        payload,
    }
}

// What a cell carries behind its field.
fn payload_of(cell: &[u8]) -> Option<&[u8]> {
    match *cell.get(3)? & 0x30 {
        0x10 => cell.get(4..),
        0x30 => cell.get(5 + usize::from(*cell.get(4)?)..),
        _ => None,
    }
}

// The PID of a cell.
fn pid_of(cell: &[u8]) -> Option<u16> {
    match cell {
        [0x47, high, low, ..] => Some(u16::from(*high & 0x1F) * 256 + u16::from(*low)),
        _ => None,
    }
}

// The PIDs of the cells of a file.
fn pids(alloc: Global, file: &[u8]) -> Result<Vec<u16>, Fail> {
    let mut pids = Vec::new(alloc);
    for cell in file.chunks(188) {
        pids.push(pid_of(cell).ok_or("no cell")?)?;
    }
    Ok(pids)
}

// All that the cells of a PID carry; their counters run on from 0.
fn carried(alloc: Global, file: &[u8], pid: u16) -> Result<Vec<u8>, Fail> {
    let mut bytes = Vec::new(alloc);
    let mut counter = 0;
    for cell in file.chunks(188) {
        if pid_of(cell) == Some(pid) {
            if *cell.get(3).ok_or("no cell")? & 0x0F != counter {
                return Err(Fail::new("a counter"));
            }
            counter = (counter + 1) & 0x0F;
            bytes.extend_from_slice(payload_of(cell).ok_or("no payload")?)?;
        }
    }
    Ok(bytes)
}

const V0_FRONT: [u8; 12] = [
    0x47, 0x41, 0x00, 0x30, 0x8F, 0x50, 0x00, 0x00, 0x7B, 0x0C, 0x7E, 0x00,
];

const V0_END: [u8; 40] = [
    0x00, 0x00, 0x01, 0xE0, 0x00, 0x00, 0x80, 0x80, 0x05, 0x21, 0x00, 0x07, 0xD8, 0x61, 0x00, 0x00,
    0x00, 0x01, 0x09, 0xF0, 0x00, 0x00, 0x00, 0x01, 0x67, 0x42, 0x00, 0x1E, 0x00, 0x00, 0x00, 0x01,
    0x68, 0xCE, 0x00, 0x00, 0x00, 0x01, 0x65, 0x88,
];

const A0_END: [u8; 22] = [
    0x00, 0x00, 0x01, 0xC0, 0x00, 0x10, 0x80, 0x80, 0x05, 0x21, 0x00, 0x07, 0xD8, 0x61, 0xFF, 0xF1,
    0x50, 0x80, 0x01, 0x1F, 0xFC, 0x21,
];

const A23_END: [u8; 22] = [
    0x00, 0x00, 0x01, 0xC0, 0x00, 0x10, 0x80, 0x80, 0x05, 0x21, 0x00, 0x07, 0xE8, 0x8D, 0xFF, 0xF1,
    0x50, 0x80, 0x01, 0x1F, 0xFC, 0x21,
];

const V40_FRONT: [u8; 12] = [
    0x47, 0x41, 0x00, 0x31, 0x98, 0x10, 0x00, 0x00, 0x82, 0x14, 0x7E, 0x00,
];

const V40_END: [u8; 31] = [
    0x00, 0x00, 0x01, 0xE0, 0x00, 0x00, 0x80, 0xC0, 0x0A, 0x31, 0x00, 0x09, 0x10, 0xA1, 0x11, 0x00,
    0x07, 0xF4, 0x81, 0x00, 0x00, 0x00, 0x01, 0x09, 0xF0, 0x00, 0x00, 0x00, 0x01, 0x41, 0x9A,
];

const PROGRAMS: [u8; 21] = [
    0x47, 0x40, 0x00, 0x10, 0x00, 0x00, 0xB0, 0x0D, 0x00, 0x01, 0xC1, 0x00, 0x00, 0x00, 0x01, 0xF0,
    0x00, 0x2A, 0xB1, 0x04, 0xB2,
];

const PROGRAM_MAP: [u8; 31] = [
    0x47, 0x50, 0x00, 0x10, 0x00, 0x02, 0xB0, 0x17, 0x00, 0x01, 0xC1, 0x00, 0x00, 0xE1, 0x00, 0xF0,
    0x00, 0x1B, 0xE1, 0x00, 0xF0, 0x00, 0x0F, 0xE1, 0x01, 0xF0, 0x00, 0x2F, 0x44, 0xB9, 0x9B,
];

const PICTURE_MAP: [u8; 26] = [
    0x47, 0x50, 0x00, 0x10, 0x00, 0x02, 0xB0, 0x12, 0x00, 0x01, 0xC1, 0x00, 0x00, 0xE1, 0x00, 0xF0,
    0x00, 0x1B, 0xE1, 0x00, 0xF0, 0x00, 0x15, 0xBD, 0x4D, 0x56,
];

const PROGRAMS_AGAIN: [u8; 21] = [
    0x47, 0x40, 0x00, 0x11, 0x00, 0x00, 0xB0, 0x0D, 0x00, 0x01, 0xC1, 0x00, 0x00, 0x00, 0x01, 0xF0,
    0x00, 0x2A, 0xB1, 0x04, 0xB2,
];

const PICTURE_MAP_AGAIN: [u8; 26] = [
    0x47, 0x50, 0x00, 0x11, 0x00, 0x02, 0xB0, 0x12, 0x00, 0x01, 0xC1, 0x00, 0x00, 0xE1, 0x00, 0xF0,
    0x00, 0x1B, 0xE1, 0x00, 0xF0, 0x00, 0x15, 0xBD, 0x4D, 0x56,
];

const CHANGED_FRONT: [u8; 12] = [
    0x47, 0x41, 0x00, 0x31, 0x9D, 0x10, 0x00, 0x00, 0x82, 0x14, 0x7E, 0x00,
];

const CHANGED_END: [u8; 26] = [
    0x00, 0x00, 0x01, 0xE0, 0x00, 0x00, 0x80, 0x80, 0x05, 0x21, 0x00, 0x07, 0xF4, 0x81, 0x00, 0x00,
    0x00, 0x01, 0x09, 0xF0, 0x00, 0x00, 0x00, 0x01, 0x41, 0x9A,
];

const CHANGED_SETS: [u8; 26] = [
    0x00, 0x00, 0x00, 0x01, 0x09, 0xF0, 0x00, 0x00, 0x00, 0x01, 0x67, 0x42, 0x00, 0x1E, 0x00, 0x00,
    0x00, 0x01, 0x68, 0xCF, 0x00, 0x00, 0x00, 0x01, 0x65, 0x88,
];

const ALONE_FRONT: [u8; 12] = [
    0x47, 0x41, 0x00, 0x30, 0xA1, 0x50, 0xFF, 0xFF, 0x84, 0xF4, 0x7E, 0x00,
];

const ALONE_END: [u8; 22] = [
    0x00, 0x00, 0x01, 0xC0, 0x00, 0x10, 0x80, 0x80, 0x05, 0x21, 0x00, 0x01, 0x00, 0x01, 0xFF, 0xF1,
    0x50, 0x80, 0x01, 0x1F, 0xFC, 0x21,
];

const DELIMITED: [u8; 26] = [
    0x00, 0x00, 0x00, 0x01, 0x09, 0xF0, 0x00, 0x00, 0x00, 0x01, 0x67, 0x42, 0x00, 0x1E, 0x00, 0x00,
    0x00, 0x01, 0x68, 0xCE, 0x00, 0x00, 0x00, 0x01, 0x65, 0x88,
];

const OWN_SETS: [u8; 19] = [
    0x00, 0x00, 0x00, 0x01, 0x09, 0xF0, 0x00, 0x00, 0x00, 0x01, 0x67, 0x42, 0x00, 0x00, 0x00, 0x00,
    0x01, 0x65, 0x88,
];

const LARGE_FRONT: [u8; 12] = [
    0x47, 0x41, 0x00, 0x30, 0x07, 0x10, 0xFF, 0xFF, 0x85, 0x02, 0x7E, 0x00,
];

const LARGE_HEAD: [u8; 24] = [
    0x00, 0x00, 0x01, 0xE0, 0x00, 0x00, 0x80, 0x80, 0x05, 0x21, 0x00, 0x01, 0x00, 0x39, 0x00, 0x00,
    0x00, 0x01, 0x09, 0xF0, 0x00, 0x00, 0x00, 0x01,
];

#[test]
fn six_cells(rt: HostRuntime) -> Result<(), Fail> {
    let alloc = rt.alloc();
    let samples = [
        video(0, 0, true, &[0, 0, 0, 2, 0x65, 0x88]),
        audio(0, 0, &[0x21]),
        audio(23, 0, &[0x21]),
        video(40, 80, false, &[0, 0, 0, 2, 0x41, 0x9A]),
    ];
    let mut cells = Vec::new(alloc);
    add_cell(&mut cells, &PROGRAMS, &[])?;
    add_cell(&mut cells, &PROGRAM_MAP, &[])?;
    add_cell(&mut cells, &V0_FRONT, &V0_END)?;
    add_cell(&mut cells, &[0x47, 0x41, 0x01, 0x30, 0xA1, 0x00], &A0_END)?;
    add_cell(&mut cells, &[0x47, 0x41, 0x01, 0x31, 0xA1, 0x00], &A23_END)?;
    add_cell(&mut cells, &V40_FRONT, &V40_END)?;
    assert_eq!(rt; file_of(alloc, both(alloc)?, &samples)?, cells);
    Ok(())
}

// The cells of the first packet of a stream. The first cell may have a field with the clock, and carries 176 bytes then;
// every other carries 184. Where fewer are left than that, m of them, the field there is longer by m bytes, or has m.
fn cells_of(alloc: Global, pid: u8, clock: &[u8], pes: &[u8]) -> Result<Vec<u8>, Fail> {
    let mut cells = Vec::new(alloc);
    let mut rest = pes;
    let mut start = 0x41;
    let mut counter = 0u8;
    if !clock.is_empty() {
        let size = pes.len().min(176);
        let first = &pes[..size];
        let field = u8::try_from(183usize.saturating_sub(size))?;
        let mut front = Vec::from_slice(alloc, &[0x47, start, pid, 0x30, field])?;
        front.extend_from_slice(clock)?;
        add_cell(&mut cells, &front, first)?;
        rest = &pes[size..];
        start = 1;
        counter = 1;
    }
    for bytes in rest.chunks(184) {
        match 184usize.saturating_sub(bytes.len()) {
            0 => add_cell(&mut cells, &[0x47, start, pid, 0x10 | counter], bytes)?,
            1 => add_cell(&mut cells, &[0x47, start, pid, 0x30 | counter, 0], bytes)?,
            missing => {
                let field = u8::try_from(missing.saturating_sub(1))?;
                let front = [0x47, start, pid, 0x30 | counter, field, 0];
                add_cell(&mut cells, &front, bytes)?;
            }
        }
        start = 1;
        counter = counter.wrapping_add(1) & 0x0F;
    }
    Ok(cells)
}

// The cells of a packet of audio beside video at 0 ms, the first of its stream.
fn audio_cells(alloc: Global, payload: &[u8]) -> Result<Vec<u8>, Fail> {
    let frame = u16::try_from(payload.len().min(400))? + 7;
    let [high, low] = (frame + 8).to_be_bytes();
    let [eighths, rest] = (frame * 32).to_be_bytes();
    let head = [
        0, 0, 1, 0xC0, high, low, 0x80, 0x80, 5, 0x21, 0, 7, 0xD8, 0x61,
    ];
    let adts = [0xFF, 0xF1, 0x50, 0x80, eighths, rest | 0x1F, 0xFC];
    let mut pes = Vec::from_slice(alloc, &head)?;
    pes.extend_from_slice(&adts)?;
    pes.extend_from_slice(payload)?;
    cells_of(alloc, 1, &[], &pes)
}

// The cells of a video packet of one unit at 0 ms, the first of its stream, which carries the clock.
fn video_cells(alloc: Global, unit: &[u8]) -> Result<Vec<u8>, Fail> {
    let mut pes = Vec::from_slice(alloc, &V0_END[..20])?;
    pes.extend_from_slice(&[0, 0, 0, 1])?;
    pes.extend_from_slice(unit)?;
    cells_of(alloc, 0, &[0x10, 0, 0, 0x7B, 0x0C, 0x7E, 0], &pes)
}

// Payloads of every length: the whole file, whatever is missing in its last cell.
#[test]
fn every_length(rt: HostRuntime) -> Result<(), Fail> {
    let alloc = rt.alloc();
    let bytes = alike(alloc, 400)?;
    for size in 1..401usize {
        let payload = bytes.get(..size).ok_or("too short")?;
        let mut cells = Vec::new(alloc);
        add_cell(&mut cells, &PROGRAMS, &[])?;
        add_cell(&mut cells, &PROGRAM_MAP, &[])?;
        cells.extend_from_slice(&audio_cells(alloc, payload)?)?;
        let file = file_of(alloc, both(alloc)?, &[audio(0, 0, payload)])?;
        assert_eq!(rt; file, cells, "{size}");
        let mut cells = Vec::new(alloc);
        add_cell(&mut cells, &PROGRAMS, &[])?;
        add_cell(&mut cells, &PICTURE_MAP, &[])?;
        cells.extend_from_slice(&video_cells(alloc, payload)?)?;
        let [high, low] = u16::try_from(size)?.to_be_bytes();
        let mut native = Vec::from_slice(alloc, &[0, 0, high, low])?;
        native.extend_from_slice(payload)?;
        let file = file_of(alloc, pictures(alloc)?, &[video(0, 0, false, &native)])?;
        assert_eq!(rt; file, cells, "{size}");
    }
    let fronts: [(usize, usize, &[u8]); 7] = [
        (160, 376, &[0x47, 0x41, 1, 0x30, 2, 0, 0xFF, 0, 0, 1, 0xC0]),
        (161, 376, &[0x47, 0x41, 1, 0x30, 1, 0, 0, 0, 1, 0xC0]),
        (162, 376, &[0x47, 0x41, 1, 0x30, 0, 0, 0, 1, 0xC0]),
        (163, 376, &[0x47, 0x41, 1, 0x10, 0, 0, 1, 0xC0]),
        (164, 376, &[0x47, 0x41, 1, 0x10, 0, 0, 1, 0xC0]),
        (164, 564, &[0x47, 1, 1, 0x31, 0xB6, 0, 0xFF, 0xFF]),
        (164, 749, &[0xFF, 0xFF, 0x41]),
    ];
    for (size, at, front) in fronts {
        let payload = bytes.get(..size).ok_or("too short")?;
        let file = file_of(alloc, both(alloc)?, &[audio(0, 0, payload)])?;
        let there = file.get(at..).ok_or("too short")?;
        assert!(rt; there.starts_with(front), "{size}");
    }
    Ok(())
}

// Tables come before a changed configuration and after 100 ms, but never before a file's first packet. Each packet of
// audio alone carries the clock and may be begun at. Times may be negative.
#[test]
fn audio_alone(rt: HostRuntime) -> Result<(), Fail> {
    let alloc = rt.alloc();
    let samples = [
        audio(-1400, 3, &[0x21]),
        audio(-1390, 3, &[0x21]),
        audio(-1380, 4, &[0x21]),
        audio(-1281, 4, &[0x21]),
        audio(-1280, 4, &[0x21]),
    ];
    let file = file_of(alloc, alone(alloc)?, &samples)?;
    let order = [
        0, 0x1000, 0x100, 0x100, 0, 0x1000, 0x100, 0x100, 0, 0x1000, 0x100,
    ];
    assert_eq!(rt; pids(alloc, &file)?.as_slice(), order.as_slice());
    let mut first = Vec::new(alloc);
    add_cell(&mut first, &ALONE_FRONT, &ALONE_END)?;
    assert_eq!(rt; file.get(376..564).ok_or("too short")?, first.as_slice());
    assert_eq!(rt; carried(alloc, &file, 0)?.len(), 3 * 184);
    assert_eq!(rt; carried(alloc, &file, 0x100)?.len(), 5 * 22);
    Ok(())
}

// Video alone, whose configuration changes: the tables come again before the first packet of the new one, whose sets
// are the new ones.
#[test]
fn video_alone(rt: HostRuntime) -> Result<(), Fail> {
    let alloc = rt.alloc();
    let first = video(0, 0, true, &[0, 0, 0, 2, 0x65, 0x88]);
    let changed = Sample {
        version: 1,
        ..video(40, 40, false, &[0, 0, 0, 2, 0x41, 0x9A])
    };
    let mut cells = Vec::new(alloc);
    add_cell(&mut cells, &PROGRAMS, &[])?;
    add_cell(&mut cells, &PICTURE_MAP, &[])?;
    add_cell(&mut cells, &V0_FRONT, &V0_END)?;
    add_cell(&mut cells, &PROGRAMS_AGAIN, &[])?;
    add_cell(&mut cells, &PICTURE_MAP_AGAIN, &[])?;
    add_cell(&mut cells, &CHANGED_FRONT, &CHANGED_END)?;
    assert_eq!(rt; file_of(alloc, pictures(alloc)?, &[first, changed])?, cells);
    let key = Sample {
        version: 1,
        ..video(40, 40, true, &[0, 0, 0, 2, 0x65, 0x88])
    };
    let file = file_of(alloc, pictures(alloc)?, &[first, key])?;
    let units = carried(alloc, &file, 0x100)?;
    assert_eq!(rt;
        units.get(54..).ok_or("too short")?,
        CHANGED_SETS.as_slice()
    );
    Ok(())
}

// A delimiter that is there is not put in again; the sets come before the unit of type 5; the tables come before a key
// packet.
#[test]
fn a_delimiter(rt: HostRuntime) -> Result<(), Fail> {
    let alloc = rt.alloc();
    let samples = [
        video(0, 0, true, &[0, 0, 0, 2, 9, 0xF0, 0, 0, 0, 2, 0x65, 0x88]),
        video(
            40,
            40,
            true,
            &[0, 0, 0, 3, 0x67, 0x42, 0, 0, 0, 0, 2, 0x65, 0x88],
        ),
    ];
    let file = file_of(alloc, both(alloc)?, &samples)?;
    let order = [0, 0x1000, 0x100, 0, 0x1000, 0x100];
    assert_eq!(rt; pids(alloc, &file)?.as_slice(), order.as_slice());
    let units = carried(alloc, &file, 0x100)?;
    assert_eq!(rt; units.get(14..40).ok_or("too short")?, DELIMITED.as_slice());
    assert_eq!(rt; units.get(54..).ok_or("too short")?, OWN_SETS.as_slice());
    Ok(())
}

// A video packet of more than 65535 bytes doesn't tell its size, and times wrap at 2^33.
#[test]
fn a_large_packet(rt: HostRuntime) -> Result<(), Fail> {
    let alloc = rt.alloc();
    let mut payload = Vec::from_slice(alloc, &[0x00, 0x01, 0x11, 0x70])?;
    payload.extend_from_slice(&alike(alloc, 70_000)?)?;
    let time = 95_442_318;
    let file = file_of(alloc, both(alloc)?, &[video(time, time, false, &payload)])?;
    assert_eq!(rt;
        file.get(376..388).ok_or("too short")?,
        LARGE_FRONT.as_slice()
    );
    let pes = carried(alloc, &file, 0x100)?;
    assert_eq!(rt; pes.get(..24).ok_or("too short")?, LARGE_HEAD.as_slice());
    assert_eq!(rt; pes.len(), 70_024);
    Ok(())
}
