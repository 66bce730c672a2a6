// Worked cases.
ghost use Rattle.std.specs.Prelude.{◌≡◌, IfOk};
ghost use Rattle.rmx_media.specs.Config.{IsReadAvc};

use crate::*;
use avc_units::valid_units;
use bytes::Bytes;
use rmx_media::{
    AvcConfig, Config, Form, Kind, NoMemory, Packet, StreamInfo, read_aac_config, read_avc_config,
};
use std::alloc::Global;
use std::test::Fail;

fn bytes(alloc: Global, list: &[u8]) -> Result<Bytes, NoMemory>
    ensures { IfOk result (λ b. b ≡ list.now) }
{
    match Bytes::copy_from_slice(alloc, list) {
        Ok(bytes) => Ok(bytes),
        Err(_) => Err(NoMemory),
    }
}

#[test]
fn faults_are_named(rt: HostRuntime) -> Result<(), Fail> {
    let text = format!(in rt.alloc(); "{} {}", BsfFault::UnknownFilter, BsfFault::BadArgument)?;
    assert_eq!(rt; text.as_str(), "UnknownFilter BadArgument");
    Ok(())
}

#[test]
fn texts(rt: HostRuntime) -> Result<(), Fail> {
    for (text, expected) in [
        (b"null".as_slice(), None),
        (b"null,h264_mp4toannexb,aac_adts".as_slice(), None),
        (b"filter_units=remove_types=6|8-9".as_slice(), None),
        (b"filter_units=pass_types=007".as_slice(), None),
        (b"dump_extra=freq=e".as_slice(), None),
        (b"".as_slice(), Some(BsfFault::UnknownFilter)),
        (b"foo".as_slice(), Some(BsfFault::UnknownFilter)),
        (b"null,".as_slice(), Some(BsfFault::UnknownFilter)),
        (b"filter_units".as_slice(), Some(BsfFault::BadArgument)),
        (
            b"filter_units=pass_types=32".as_slice(),
            Some(BsfFault::BadArgument),
        ),
        (
            b"filter_units=pass_types=9-8".as_slice(),
            Some(BsfFault::BadArgument),
        ),
        (b"null=".as_slice(), Some(BsfFault::BadArgument)),
        // Sixteen filters, and a seventeenth, whatever it is called.
        (
            b"null,null,null,null,null,null,null,null,null,null,null,null,null,null,null,null".as_slice(),
            None,
        ),
        (
            b"null,null,null,null,null,null,null,null,null,null,null,null,null,null,null,null,null".as_slice(),
            Some(BsfFault::BadArgument),
        ),
        (
            b"null,null,null,null,null,null,null,null,null,null,null,null,null,null,null,null,foo".as_slice(),
            Some(BsfFault::BadArgument),
        ),
        (b"dump_extra=freq=x".as_slice(), Some(BsfFault::BadArgument)),
    ] {
        assert_eq!(rt; Chain::parse(text).err(), expected);
    }
    Ok(())
}

fn avc_config(alloc: Global, raw: &[u8]) -> Result<AvcConfig, Fail>
    ensures { IfOk result IsReadAvc }
{
    if raw.len() > 100 {
        return Err(Fail::from("a long configuration"));
    }
    let raw = bytes(alloc, raw)?;
    Ok(read_avc_config(raw)?)
}

// What a chain leaves of a video packet under this configuration.
fn left(
    alloc: Global,
    raw: &[u8],
    chain: &Chain,
    payload: &[u8],
    key: bool,
) -> Result<Option<Packet>, Fail> {
    let config = avc_config(alloc, raw)?;
    if !valid_units(payload, config.length_size) {
        return Err(Fail::from("no payload"));
    }
    let info = StreamInfo {
        kind: Kind::Video,
        config: Config::Avc(config.copy()?),
    };
    let packet = Packet {
        stream: 0,
        dts: 40,
        pts: 80,
        key,
        form: Form::Native,
        payload: bytes(alloc, payload)?,
        config: Config::Avc(config),
        version: 1,
    };
    Ok(chain.apply(alloc, &info, &packet)?)
}

// Sets `67 01` and `68 02`, behind length fields of one to four bytes.
const ONE: &[u8] = b"\x01\x42\x00\x1E\xFC\xE1\x00\x02\x67\x01\x01\x00\x02\x68\x02";

const TWO: &[u8] = b"\x01\x42\x00\x1E\xFD\xE1\x00\x02\x67\x01\x01\x00\x02\x68\x02";

const THREE: &[u8] = b"\x01\x42\x00\x1E\xFE\xE1\x00\x02\x67\x01\x01\x00\x02\x68\x02";

const FOUR: &[u8] = b"\x01\x42\x00\x1E\xFF\xE1\x00\x02\x67\x01\x01\x00\x02\x68\x02";
// The first set is empty, and no set at all; behind length fields of one byte.
const HALF: &[u8] = b"\x01\x42\x00\x1E\xFC\xE1\x00\x00\x01\x00\x02\x68\x02";

const BARE: &[u8] = b"\x01\x42\x00\x1E\xFC\xE0\x00";

#[test]
fn native_video(rt: HostRuntime) -> Result<(), Fail> {
    let drop_six = b"filter_units=remove_types=6".as_slice();
    let keep_all = b"filter_units=pass_types=0-31".as_slice();
    for (raw, text, payload, expected) in [
        (
            ONE,
            drop_six,
            b"\x02\x06\x05\x02\x65\x88".as_slice(),
            b"\x02\x65\x88".as_slice(),
        ),
        (
            TWO,
            drop_six,
            b"\x00\x02\x06\x05\x00\x02\x65\x88".as_slice(),
            b"\x00\x02\x65\x88".as_slice(),
        ),
        (
            THREE,
            drop_six,
            b"\x00\x00\x02\x06\x05\x00\x00\x02\x65\x88".as_slice(),
            b"\x00\x00\x02\x65\x88".as_slice(),
        ),
        (
            FOUR,
            drop_six,
            b"\x00\x00\x00\x02\x06\x05\x00\x00\x00\x02\x65\x88".as_slice(),
            b"\x00\x00\x00\x02\x65\x88".as_slice(),
        ),
        // An empty unit stays where no filter acts, and goes with the first that does.
        (
            ONE,
            b"null,aac_adts".as_slice(),
            b"\x00\x01\x65\x00".as_slice(),
            b"\x00\x01\x65\x00".as_slice(),
        ),
        (
            ONE,
            keep_all,
            b"\x00\x01\x65\x00".as_slice(),
            b"\x01\x65".as_slice(),
        ),
    ] {
        let chain = Chain::parse(text)?;
        let Some(packet) = left(rt.alloc(), raw, &chain, payload, true)? else {
            return Err(Fail::from("dropped"));
        };
        assert_eq!(rt; packet.payload.as_slice(), expected);
        assert_eq!(rt; packet.form, Form::Native);
        assert_eq!(rt; (packet.dts, packet.pts, packet.version), (40, 80, 1));
    }
    let chain = Chain::parse(drop_six)?;
    assert!(rt; left(rt.alloc(), ONE, &chain, b"\x02\x06\x05", true)?.is_none());
    Ok(())
}

#[test]
fn video_behind_start_codes(rt: HostRuntime) -> Result<(), Fail> {
    let start = b"h264_mp4toannexb".as_slice();
    let dump = b"dump_extra".as_slice();
    for (raw, text, key, payload, expected) in [
        // The sets go before the first unit of type 5, unless a unit has type 7.
        (
            ONE,
            start,
            true,
            b"\x02\x09\xF0\x00\x01\x65\x01\x65".as_slice(),
            b"\0\0\0\x01\x09\xF0\0\0\0\x01\x67\x01\0\0\0\x01\x68\x02\0\0\0\x01\x65\0\0\0\x01\x65".as_slice(),
        ),
        (
            ONE,
            start,
            true,
            b"\x01\x67\x01\x65".as_slice(),
            b"\0\0\0\x01\x67\0\0\0\x01\x65".as_slice(),
        ),
        (
            ONE,
            start,
            true,
            b"\x01\x41".as_slice(),
            b"\0\0\0\x01\x41".as_slice(),
        ),
        (
            ONE,
            start,
            true,
            b"\x01\x67".as_slice(),
            b"\0\0\0\x01\x67".as_slice(),
        ),
        // The sets stand in front of a key packet once.
        (
            ONE,
            dump,
            true,
            b"\x01\x41".as_slice(),
            b"\0\0\0\x01\x67\x01\0\0\0\x01\x68\x02\0\0\0\x01\x41".as_slice(),
        ),
        (
            ONE,
            dump,
            true,
            b"\x02\x67\x01\x02\x68\x02".as_slice(),
            b"\0\0\0\x01\x67\x01\0\0\0\x01\x68\x02".as_slice(),
        ),
        (
            ONE,
            dump,
            true,
            b"\x02\x67\x01".as_slice(),
            b"\0\0\0\x01\x67\x01\0\0\0\x01\x68\x02\0\0\0\x01\x67\x01".as_slice(),
        ),
        (
            ONE,
            dump,
            false,
            b"\x01\x65".as_slice(),
            b"\0\0\0\x01\x65".as_slice(),
        ),
        // What stands behind start codes already gets no sets.
        (
            ONE,
            b"dump_extra,h264_mp4toannexb".as_slice(),
            false,
            b"\x01\x65".as_slice(),
            b"\0\0\0\x01\x65".as_slice(),
        ),
        // Empty sets are left out, and no sets are in front of everything.
        (
            HALF,
            start,
            false,
            b"\x01\x65".as_slice(),
            b"\0\0\0\x01\x68\x02\0\0\0\x01\x65".as_slice(),
        ),
        (
            BARE,
            dump,
            true,
            b"\x01\x65".as_slice(),
            b"\0\0\0\x01\x65".as_slice(),
        ),
    ] {
        let chain = Chain::parse(text)?;
        let Some(packet) = left(rt.alloc(), raw, &chain, payload, key)? else {
            return Err(Fail::from("dropped"));
        };
        assert_eq!(rt; packet.payload.as_slice(), expected);
        assert_eq!(rt; packet.form, Form::AnnexB);
    }
    Ok(())
}

#[test]
fn joined_chains(rt: HostRuntime) -> Result<(), Fail> {
    let dump = Chain::parse(b"dump_extra")?;
    let drop_sets = Chain::parse(b"filter_units=remove_types=7-8")?;
    let bare = b"\0\0\0\x01\x65".as_slice();
    let whole = b"\0\0\0\x01\x67\x01\0\0\0\x01\x68\x02\0\0\0\x01\x65".as_slice();
    for (first, second, expected) in [(&dump, &drop_sets, bare), (&drop_sets, &dump, whole)] {
        let chain = first.join(second).ok_or("too many")?;
        let Some(packet) = left(rt.alloc(), ONE, &chain, b"\x01\x65", true)? else {
            return Err(Fail::from("dropped"));
        };
        assert_eq!(rt; packet.payload.as_slice(), expected);
    }
    let eight = Chain::parse(b"null,null,null,null,null,null,null,null")?;
    let sixteen = eight.join(&eight).ok_or("too many")?;
    assert!(rt; sixteen.join(&Chain::empty()).is_some());
    assert!(rt; sixteen.join(&dump).is_none());
    assert!(rt; dump.join(&sixteen).is_none());
    Ok(())
}

#[test]
fn audio(rt: HostRuntime) -> Result<(), Fail> {
    let alloc = rt.alloc();
    let config = read_aac_config(bytes(alloc, &[0x12, 0x10])?)?;
    let info = StreamInfo {
        kind: Kind::Audio,
        config: Config::Aac(config.copy()?),
    };
    let packet = Packet {
        stream: 1,
        dts: 0,
        pts: 0,
        key: true,
        form: Form::Native,
        payload: bytes(alloc, &[0x21])?,
        config: Config::Aac(config),
        version: 0,
    };
    let Some(chain) = Chain::parse(b"dump_extra")?.join(&Chain::parse(b"aac_adts")?) else {
        return Err(Fail::from("too many"));
    };
    match chain.apply(alloc, &info, &packet)? {
        Some(frame) => {
            assert_eq!(rt;
                frame.payload.as_slice(),
                [0xFF, 0xF1, 0x50, 0x80, 0x01, 0x1F, 0xFC, 0x21].as_slice()
            );
        }
        None => return Err(Fail::from("dropped")),
    }
    assert!(rt; !chain.keeps_native());
    assert!(rt; Chain::empty().keeps_native());
    Ok(())
}
