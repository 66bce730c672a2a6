// Worked cases.
ghost use Rattle.std.specs.Prelude.{◌≡◌, IfOk};

use crate::*;
use arrayvec::ArrayString;
use bytes::Bytes;
use std::alloc::Global;
use std::cmp::Ordering;
use std::test::Fail;

// An AVC configuration with one set of each kind.
const AVC: [u8; 17] = [
    0x01, 0x42, 0x00, 0x1E, 0xFF, 0xE1, 0x00, 0x04, 0x67, 0x42, 0x00, 0x1E, 0x01, 0x00, 0x02, 0x68,
    0xCE,
];

fn bytes(alloc: Global, list: &[u8]) -> Result<Bytes, NoMemory>
    ensures { IfOk result (λ b. b ≡ list.now) }
{
    match Bytes::copy_from_slice(alloc, list) {
        Ok(bytes) => Ok(bytes),
        Err(_) => Err(NoMemory),
    }
}

fn aac(alloc: Global) -> Result<AacConfig, Fail> {
    Ok(read_aac_config(bytes(alloc, &[0x2B, 0x92, 0x08])?)?)
}

#[test]
fn times(rt: HostRuntime) -> Result<(), Fail> {
    assert_eq!(rt; rescale(5, 1, 2), Some(3));
    assert_eq!(rt; rescale(-5, 1, 2), Some(-3));
    assert_eq!(rt; rescale(7, 1, 3), Some(2));
    assert_eq!(rt; rescale(i64::MAX, 2, 1), None);
    assert_eq!(rt; rescale(i64::MIN, 1, 1), Some(i64::MIN));
    let ms = Base { num: 1, den: 1000 };
    let ticks = Base { num: 1, den: 90000 };
    assert_eq!(rt; compare(1, ms, 90, ticks), Ordering::Equal);
    assert_eq!(rt; compare(-1, ms, -89, ticks), Ordering::Less);
    let mut text = ArrayString::<32>::new();
    for (us, expected) in [
        (-1500000, "-1.500000"),
        (0, "0.000000"),
        (41, "0.000041"),
        (i64::MAX, "9223372036854.775807"),
        (i64::MIN, "-9223372036854.775808"),
    ] {
        seconds_text(us, &mut text);
        assert_eq!(rt; text.as_str(), expected);
    }
    Ok(())
}

#[test]
fn configurations(rt: HostRuntime) -> Result<(), Fail> {
    let alloc = rt.alloc();
    for (list, expected) in [
        ([].as_slice(), ConfigFault::Short),
        ([0x01, 0x42, 0x00].as_slice(), ConfigFault::Short),
        (
            [0x02, 0x42, 0x00, 0x1E, 0xFF, 0xE0, 0x00].as_slice(),
            ConfigFault::Version,
        ),
    ] {
        assert_eq!(rt; read_avc_config(bytes(alloc, list)?).err(), Some(expected));
    }
    for (list, expected) in [
        ([0x12].as_slice(), ConfigFault::Short),
        ([0xF8, 0x00].as_slice(), ConfigFault::ObjectType),
        ([0x17, 0x80].as_slice(), ConfigFault::Frequency),
        ([0x12, 0x00].as_slice(), ConfigFault::Channels),
        ([0x2B, 0x92].as_slice(), ConfigFault::Short),
    ] {
        assert_eq!(rt; read_aac_config(bytes(alloc, list)?).err(), Some(expected));
    }
    for (fault, text) in [
        (ConfigFault::Short, "Short"),
        (ConfigFault::Version, "Version"),
        (ConfigFault::ObjectType, "ObjectType"),
        (ConfigFault::Frequency, "Frequency"),
        (ConfigFault::Channels, "Channels"),
    ] {
        assert_eq!(rt; format!(in alloc; "{fault}")?.as_str(), text);
    }
    Ok(())
}

#[test]
fn read_configurations(rt: HostRuntime) -> Result<(), Fail> {
    let alloc = rt.alloc();
    let inner = aac(alloc)?;
    assert_eq!(rt; inner.object_type, 2);
    assert_eq!(rt; inner.index, 7);
    assert_eq!(rt; inner.channels, 2);
    let config = read_avc_config(bytes(alloc, &AVC)?)?;
    assert_eq!(rt; config.raw.as_slice(), AVC.as_slice());
    assert_eq!(rt; config.length_size, 4);
    let mut sets = config.sets();
    assert_eq!(rt; sets.next(), Some([0x67, 0x42, 0x00, 0x1E].as_slice()));
    assert_eq!(rt; sets.next(), Some([0x68, 0xCE].as_slice()));
    assert_eq!(rt; sets.next(), None);
    let avc = Config::Avc(config.copy()?);
    assert!(rt; same_config(&avc, &Config::Avc(config)));
    assert!(rt; !same_config(&avc, &Config::Aac(inner)));
    Ok(())
}

#[test]
fn copies(rt: HostRuntime) -> Result<(), Fail> {
    let alloc = rt.alloc();
    let packet = Packet {
        stream: 1,
        key: true,
        form: Form::Native,
        dts: -40,
        pts: 0,
        payload: bytes(alloc, &[0x21])?,
        config: Config::Aac(aac(alloc)?),
        version: 2,
    };
    let copy = packet.copy()?;
    assert_eq!(rt; copy.payload.as_slice(), [0x21].as_slice());
    assert_eq!(rt; copy.version, 2);
    assert!(rt; same_config(&copy.config, &packet.config));
    for (video, expected) in [(None, true), (Some(1), true), (Some(0), false)] {
        assert_eq!(rt; is_restart(&packet, video), expected);
    }
    let mut items = Items::new(alloc);
    items.reserve(1)?;
    items.push(MuxStream {
        stream: 1,
        info: StreamInfo {
            kind: Kind::Audio,
            config: Config::Aac(aac(alloc)?),
        },
    });
    let streams = MuxStreams {
        streams: items,
        script: Some(bytes(alloc, &[0x02])?),
    };
    let mut copied = streams.copy(alloc)?.streams;
    assert_eq!(rt; copied.as_slice().len(), 1);
    let first = copied.take_first();
    assert_eq!(rt; first.stream, 1);
    assert_eq!(rt; first.info.copy()?.kind, Kind::Audio);
    assert_eq!(rt; copied.into_vec().len(), 0);
    assert_eq!(rt; Text::of(alloc, "name")?.as_str(), "name");
    Ok(())
}
