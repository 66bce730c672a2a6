// Files of FLV by worked examples.
ghost use Rattle.std.specs.Prelude.{◌≡◌, Some, true, IfOk};
ghost use Rattle.rmx_media.specs.Config.{IsReadAac, IsReadAvc};
ghost use Rattle.rmx_media.specs.Streams.{CanMux, IsSound, kind_in};
ghost use Rattle.rmx_media.specs.declared.streams.Kind.TheVariants.{Audio, Video};
ghost use Rattle.rmx_media.specs.Units.{is_valid};
ghost use Rattle.flv_mux.specs.Packets.{IsTimed};
ghost use Rattle.flv_mux.specs.Sample.{IsSample};

use crate::FlvMux;
use bytes::Bytes;
use rmx_edge::{MemShelf, Shelf};
use rmx_media::{
    AacConfig, AvcConfig, Config, Form, Items, Kind, MuxStream, MuxStreams, Packet, StreamInfo,
    read_aac_config, read_avc_config,
};
use std::alloc::Global;
use std::test::Fail;

const LOW: [u8; 2] = [0x12, 0x10];

const HIGH: [u8; 2] = [0x11, 0x90];

const SETS: [u8; 17] = [
    0x01, 0x42, 0x00, 0x1E, 0xFF, 0xE1, 0x00, 0x04, 0x67, 0x42, 0x00, 0x1E, 0x01, 0x00, 0x02, 0x68,
    0xCE,
];

const SCRIPT: [u8; 21] = [
    0x02, 0x00, 0x0A, 0x6F, 0x6E, 0x4D, 0x65, 0x74, 0x61, 0x44, 0x61, 0x74, 0x61, 0x08, 0x00, 0x00,
    0x00, 0x00, 0x00, 0x00, 0x09,
];

// Script, two configurations, a key packet, two of audio, a packet shown 40 ms late, the end of the sequence.
const BOTH: [u8; 213] = [
    0x46, 0x4C, 0x56, 0x01, 0x05, 0x00, 0x00, 0x00, 0x09, 0x00, 0x00, 0x00, 0x00, 0x12, 0x00, 0x00,
    0x15, 0x00, 0x00, 0x00, 0x00, 0x00, 0x00, 0x00, 0x02, 0x00, 0x0A, 0x6F, 0x6E, 0x4D, 0x65, 0x74,
    0x61, 0x44, 0x61, 0x74, 0x61, 0x08, 0x00, 0x00, 0x00, 0x00, 0x00, 0x00, 0x09, 0x00, 0x00, 0x00,
    0x20, 0x09, 0x00, 0x00, 0x16, 0x00, 0x00, 0x00, 0x00, 0x00, 0x00, 0x00, 0x17, 0x00, 0x00, 0x00,
    0x00, 0x01, 0x42, 0x00, 0x1E, 0xFF, 0xE1, 0x00, 0x04, 0x67, 0x42, 0x00, 0x1E, 0x01, 0x00, 0x02,
    0x68, 0xCE, 0x00, 0x00, 0x00, 0x21, 0x08, 0x00, 0x00, 0x04, 0x00, 0x00, 0x00, 0x00, 0x00, 0x00,
    0x00, 0xAF, 0x00, 0x12, 0x10, 0x00, 0x00, 0x00, 0x0F, 0x09, 0x00, 0x00, 0x0B, 0x00, 0x00, 0x00,
    0x00, 0x00, 0x00, 0x00, 0x17, 0x01, 0x00, 0x00, 0x00, 0x00, 0x00, 0x00, 0x02, 0x65, 0x88, 0x00,
    0x00, 0x00, 0x16, 0x08, 0x00, 0x00, 0x03, 0x00, 0x00, 0x00, 0x00, 0x00, 0x00, 0x00, 0xAF, 0x01,
    0x21, 0x00, 0x00, 0x00, 0x0E, 0x08, 0x00, 0x00, 0x03, 0x00, 0x00, 0x17, 0x00, 0x00, 0x00, 0x00,
    0xAF, 0x01, 0x21, 0x00, 0x00, 0x00, 0x0E, 0x09, 0x00, 0x00, 0x0B, 0x00, 0x00, 0x28, 0x00, 0x00,
    0x00, 0x00, 0x27, 0x01, 0x00, 0x00, 0x28, 0x00, 0x00, 0x00, 0x02, 0x41, 0x9A, 0x00, 0x00, 0x00,
    0x16, 0x09, 0x00, 0x00, 0x05, 0x00, 0x00, 0x28, 0x00, 0x00, 0x00, 0x00, 0x17, 0x02, 0x00, 0x00,
    0x00, 0x00, 0x00, 0x00, 0x10,
];

// Video alone: packets at -40, -1 and 305419896 ms, and another configuration before the second.
const PICTURES: [u8; 185] = [
    0x46, 0x4C, 0x56, 0x01, 0x01, 0x00, 0x00, 0x00, 0x09, 0x00, 0x00, 0x00, 0x00, 0x09, 0x00, 0x00,
    0x16, 0x00, 0x00, 0x00, 0x00, 0x00, 0x00, 0x00, 0x17, 0x00, 0x00, 0x00, 0x00, 0x01, 0x42, 0x00,
    0x1E, 0xFF, 0xE1, 0x00, 0x04, 0x67, 0x42, 0x00, 0x1E, 0x01, 0x00, 0x02, 0x68, 0xCE, 0x00, 0x00,
    0x00, 0x21, 0x09, 0x00, 0x00, 0x0B, 0xFF, 0xFF, 0xD8, 0xFF, 0x00, 0x00, 0x00, 0x17, 0x01, 0x00,
    0x00, 0x28, 0x00, 0x00, 0x00, 0x02, 0x65, 0x88, 0x00, 0x00, 0x00, 0x16, 0x09, 0x00, 0x00, 0x16,
    0xFF, 0xFF, 0xFF, 0xFF, 0x00, 0x00, 0x00, 0x17, 0x00, 0x00, 0x00, 0x00, 0x01, 0x42, 0x00, 0x1E,
    0xFF, 0xE1, 0x00, 0x04, 0x67, 0x42, 0x00, 0x1E, 0x01, 0x00, 0x02, 0x68, 0xCF, 0x00, 0x00, 0x00,
    0x21, 0x09, 0x00, 0x00, 0x0B, 0xFF, 0xFF, 0xFF, 0xFF, 0x00, 0x00, 0x00, 0x27, 0x01, 0x00, 0x00,
    0x00, 0x00, 0x00, 0x00, 0x02, 0x41, 0x9A, 0x00, 0x00, 0x00, 0x16, 0x09, 0x00, 0x00, 0x0B, 0x34,
    0x56, 0x78, 0x12, 0x00, 0x00, 0x00, 0x27, 0x01, 0x7F, 0xFF, 0xFF, 0x00, 0x00, 0x00, 0x02, 0x41,
    0x9B, 0x00, 0x00, 0x00, 0x16, 0x09, 0x00, 0x00, 0x05, 0x34, 0x56, 0x78, 0x12, 0x00, 0x00, 0x00,
    0x17, 0x02, 0x00, 0x00, 0x00, 0x00, 0x00, 0x00, 0x10,
];

// Audio whose configuration changes.
const CHANGED: [u8; 87] = [
    0x46, 0x4C, 0x56, 0x01, 0x04, 0x00, 0x00, 0x00, 0x09, 0x00, 0x00, 0x00, 0x00, 0x08, 0x00, 0x00,
    0x04, 0x00, 0x00, 0x00, 0x00, 0x00, 0x00, 0x00, 0xAF, 0x00, 0x12, 0x10, 0x00, 0x00, 0x00, 0x0F,
    0x08, 0x00, 0x00, 0x03, 0x00, 0x00, 0x00, 0x00, 0x00, 0x00, 0x00, 0xAF, 0x01, 0x21, 0x00, 0x00,
    0x00, 0x0E, 0x08, 0x00, 0x00, 0x04, 0x00, 0x00, 0x00, 0x00, 0x00, 0x00, 0x00, 0xAF, 0x00, 0x11,
    0x90, 0x00, 0x00, 0x00, 0x0F, 0x08, 0x00, 0x00, 0x03, 0x00, 0x00, 0x00, 0x00, 0x00, 0x00, 0x00,
    0xAF, 0x01, 0x22, 0x00, 0x00, 0x00, 0x0E,
];

fn aac(alloc: Global, raw: [u8; 2]) -> Result<AacConfig, Fail>
    ensures { IfOk result (λ c. IsReadAac c) }
{
    let raw = Bytes::copy_from_slice(alloc, &raw)?;
    match read_aac_config(raw) {
        Ok(config) => Ok(config),
        Err(fault) => Err(Fail::from(fault)),
    }
}

// The configuration of that version; its last byte is another from version 1 on.
fn avc(alloc: Global, version: u64) -> Result<AvcConfig, Fail>
    ensures { IfOk result (λ c. IsReadAvc c × (c.length_size ≡ 4)) }
{
    let mut sets = SETS;
    if version > 0 {
        sets[16] = 0xCF;
    }
    let raw = Bytes::copy_from_slice(alloc, &sets)?;
    match read_avc_config(raw) {
        Ok(config) if config.length_size == 4 => Ok(config),
        Ok(_) => Err(Fail::from("a length size of 4")),
        Err(fault) => Err(Fail::from(fault)),
    }
}

fn audio_stream(alloc: Global) -> Result<MuxStream, Fail>
    ensures { IfOk result (λ s. IsSound s.info × (s.stream ≡ 1) × (s.info.kind ≡ Audio)) }
{
    let config = aac(alloc, LOW)?;
    Ok(MuxStream {
        stream: 1,
        info: StreamInfo {
            kind: Kind::Audio,
            config: Config::Aac(config),
        },
    })
}

fn video_stream(alloc: Global) -> Result<MuxStream, Fail>
    ensures { IfOk result (λ s. IsSound s.info × (s.stream ≡ 0) × (s.info.kind ≡ Video)) }
{
    let config = avc(alloc, 0)?;
    Ok(MuxStream {
        stream: 0,
        info: StreamInfo {
            kind: Kind::Video,
            config: Config::Avc(config),
        },
    })
}

// The audio stream 1 alone.
fn alone(alloc: Global) -> Result<MuxStreams, Fail>
    ensures { IfOk result (λ m. CanMux m × (kind_in m.streams.items 1 ≡ Some Audio)) }
{
    let audio = audio_stream(alloc)?;
    Ok(MuxStreams {
        streams: Items::from_vec(vec![in alloc; audio]?),
        script: None,
    })
}

// The video stream 0 alone.
fn pictures(alloc: Global) -> Result<MuxStreams, Fail>
    ensures { IfOk result (λ m. CanMux m × (kind_in m.streams.items 0 ≡ Some Video)) }
{
    let video = video_stream(alloc)?;
    Ok(MuxStreams {
        streams: Items::from_vec(vec![in alloc; video]?),
        script: None,
    })
}

// The video stream 0 and the audio stream 1, with a script.
fn both(alloc: Global) -> Result<MuxStreams, Fail>
    ensures { IfOk result (λ m. CanMux m × (kind_in m.streams.items 0 ≡ Some Video) × (kind_in m.streams.items 1 ≡ Some Audio)) }
{
    let video = video_stream(alloc)?;
    let audio = audio_stream(alloc)?;
    let script = Bytes::copy_from_slice(alloc, &SCRIPT)?;
    Ok(MuxStreams {
        streams: Items::from_vec(vec![in alloc; video, audio]?),
        script: Some(script),
    })
}

fn audio(alloc: Global, time: i64, raw: [u8; 2], version: u64, byte: u8) -> Result<Packet, Fail>
    requires { IsTimed time time }
    ensures { IfOk result (λ p. IsSample 1 Audio p) }
{
    let config = aac(alloc, raw)?;
    let payload = Bytes::copy_from_slice(alloc, &[byte])?;
    Ok(Packet {
        stream: 1,
        dts: time,
        pts: time,
        key: true,
        form: Form::Native,
        payload,
        config: Config::Aac(config),
        version,
    })
}

fn video(
    alloc: Global,
    dts: i64,
    pts: i64,
    key: bool,
    version: u64,
    unit: [u8; 6],
) -> Result<Packet, Fail>
    requires timed { IsTimed dts pts }
    requires valid { is_valid 4 unit ≡ true }
    ensures { IfOk result (λ p. IsSample 0 Video p) }
{
    let config = avc(alloc, version)?;
    let payload = Bytes::copy_from_slice(alloc, &unit)?;
    Ok(Packet {
        stream: 0,
        dts,
        pts,
        key,
        form: Form::Native,
        payload,
        config: Config::Avc(config),
        version,
    })
}

#[test]
#[tactic(auto, using(crate::proofs::Samples::sample_fits), unfolding(rmx_media::specs::Units::units_of, rmx_media::specs::Units::parts_of))]
fn a_file_of_both(rt: HostRuntime) -> Result<(), Fail> {
    let first = video(rt.alloc(), 0, 0, true, 0, [0, 0, 0, 2, 0x65, 0x88])?;
    let sound = audio(rt.alloc(), 0, LOW, 0, 0x21)?;
    let later = audio(rt.alloc(), 23, LOW, 0, 0x21)?;
    let second = video(rt.alloc(), 40, 80, false, 0, [0, 0, 0, 2, 0x41, 0x9A])?;
    let mut mux = FlvMux::new(both(rt.alloc())?);
    let mut shelf = MemShelf::new(rt.alloc());
    let begun = mux.begin("o.flv", &mut shelf);
    assert_eq!(rt; begun, Ok(()));
    let put = mux.put(&first, &mut shelf);
    assert_eq!(rt; put, Ok(()));
    let put = mux.put(&sound, &mut shelf);
    assert_eq!(rt; put, Ok(()));
    let put = mux.put(&later, &mut shelf);
    assert_eq!(rt; put, Ok(()));
    let put = mux.put(&second, &mut shelf);
    assert_eq!(rt; put, Ok(()));
    let ended = mux.end(&mut shelf);
    assert_eq!(rt; ended, Ok(()));
    assert_eq!(rt; shelf.take_count(), 1);
    assert_eq!(rt; shelf.take_bytes(0), BOTH.as_slice());
    assert!(rt; shelf.take_closed(0));
    Ok(())
}

#[test]
#[tactic(auto, using(crate::proofs::Samples::sample_fits))]
fn a_configuration_that_changes(rt: HostRuntime) -> Result<(), Fail> {
    let first = audio(rt.alloc(), 0, LOW, 0, 0x21)?;
    let second = audio(rt.alloc(), 0, HIGH, 1, 0x22)?;
    let mut mux = FlvMux::new(alone(rt.alloc())?);
    let mut shelf = MemShelf::new(rt.alloc());
    let begun = mux.begin("o.flv", &mut shelf);
    assert_eq!(rt; begun, Ok(()));
    let put = mux.put(&first, &mut shelf);
    assert_eq!(rt; put, Ok(()));
    let put = mux.put(&second, &mut shelf);
    assert_eq!(rt; put, Ok(()));
    let ended = mux.end(&mut shelf);
    assert_eq!(rt; ended, Ok(()));
    assert_eq!(rt; shelf.take_count(), 1);
    assert_eq!(rt; shelf.take_bytes(0), CHANGED.as_slice());
    Ok(())
}

#[test]
#[tactic(auto, using(crate::proofs::Samples::sample_fits), unfolding(rmx_media::specs::Units::units_of, rmx_media::specs::Units::parts_of))]
fn pictures_before_zero(rt: HostRuntime) -> Result<(), Fail> {
    let alloc = rt.alloc();
    let late = 305_419_896;
    let first = video(alloc, -40, 0, true, 0, [0, 0, 0, 2, 0x65, 0x88])?;
    let second = video(alloc, -1, -1, false, 1, [0, 0, 0, 2, 0x41, 0x9A])?;
    let third = video(
        alloc,
        late,
        late + 8_388_607,
        false,
        1,
        [0, 0, 0, 2, 0x41, 0x9B],
    )?;
    let mut mux = FlvMux::new(pictures(alloc)?);
    let mut shelf = MemShelf::new(alloc);
    let begun = mux.begin("o.flv", &mut shelf);
    assert_eq!(rt; begun, Ok(()));
    let put = mux.put(&first, &mut shelf);
    assert_eq!(rt; put, Ok(()));
    let put = mux.put(&second, &mut shelf);
    assert_eq!(rt; put, Ok(()));
    let put = mux.put(&third, &mut shelf);
    assert_eq!(rt; put, Ok(()));
    let ended = mux.end(&mut shelf);
    assert_eq!(rt; ended, Ok(()));
    assert_eq!(rt; shelf.take_count(), 1);
    assert_eq!(rt; shelf.take_bytes(0), PICTURES.as_slice());
    Ok(())
}
