// Sessions by worked examples.
ghost use Rattle.std.specs.Prelude.{◌≡◌, ◌≤◌, ◌⊎◌, length, Some, IfOk};
ghost use Rattle.rmx_media.specs.declared.packet.Format.TheVariants.{Flv, Mpegts};
ghost use Rattle.rmx_media.specs.Config.{IsAsRead, IsReadAac, IsReadAvc, kind_of};
ghost use Rattle.rmx_media.specs.Fits.{IsPayload};
ghost use Rattle.rmx_media.specs.Streams.{CanMux, kind_in};
ghost use Rattle.segmenter.specs.Sample.{IsSample};

use crate::SegMux;
use avc_units::valid_units;
use bytes::Bytes;
use playlist::{ListKind, SegOptions, Template};
use rmx_edge::{MemShelf, Shelf};
use rmx_media::{
    AacConfig, AvcConfig, Config, Form, Format, Items, Kind, MuxStream, MuxStreams, Packet,
    StreamInfo, Text, read_aac_config, read_avc_config,
};
use std::alloc::Global;
use std::test::Fail;

const AVC: [u8; 17] = [
    0x01, 0x42, 0x00, 0x1E, 0xFF, 0xE1, 0x00, 0x04, 0x67, 0x42, 0x00, 0x1E, 0x01, 0x00, 0x02, 0x68,
    0xCE,
];

const AAC: [u8; 2] = [0x12, 0x10];

const UNIT: [u8; 6] = [0x00, 0x00, 0x00, 0x02, 0x65, 0x88];

fn avc(alloc: Global) -> Result<AvcConfig, Fail>
    ensures { IfOk result IsReadAvc }
{
    match read_avc_config(Bytes::copy_from_slice(alloc, &AVC)?) {
        Ok(config) => Ok(config),
        Err(fault) => Err(Fail::from(fault)),
    }
}

fn aac(alloc: Global) -> Result<AacConfig, Fail>
    ensures { IfOk result IsReadAac }
{
    match read_aac_config(Bytes::copy_from_slice(alloc, &AAC)?) {
        Ok(config) => Ok(config),
        Err(fault) => Err(Fail::from(fault)),
    }
}

fn config(alloc: Global, kind: Kind) -> Result<Config, Fail>
    ensures { IfOk result (λ c. IsAsRead c × (kind_of c ≡ kind)) }
{
    match kind {
        Kind::Video => {
            let config = avc(alloc)?;
            Ok(Config::Avc(config))
        }
        Kind::Audio => {
            let config = aac(alloc)?;
            Ok(Config::Aac(config))
        }
    }
}

// The stream 0 alone, of this kind.
fn alone(alloc: Global, kind: Kind) -> Result<MuxStreams, Fail>
    ensures { IfOk result (λ m. CanMux m × (kind_in m.streams.items 0 ≡ Some kind)) }
{
    let config = config(alloc, kind)?;
    let stream = MuxStream {
        stream: 0,
        info: StreamInfo { kind, config },
    };
    Ok(MuxStreams {
        streams: Items::from_vec(vec![in alloc; stream]?),
        script: None,
    })
}

// One unit, which is a payload of either kind.
fn payload(alloc: Global, config: &Config) -> Result<Bytes, Fail>
    ensures { IfOk result (λ bytes. IsPayload config.now Form.Native bytes × (length bytes ≤ 8184)) }
{
    if let Config::Avc(config) = config {
        if config.length_size != 4 || !valid_units(&UNIT, 4) {
            return Err(Fail::new("no units"));
        }
    }
    Ok(Bytes::copy_from_slice(alloc, &UNIT)?)
}

fn packet(alloc: Global, kind: Kind, second: u8, key: bool) -> Result<Packet, Fail>
    ensures { IfOk result (IsSample kind) }
{
    let config = config(alloc, kind)?;
    let payload = payload(alloc, &config)?;
    let time = i64::from(second) * 1000;
    Ok(Packet {
        stream: 0,
        dts: time,
        pts: time,
        key,
        form: Form::Native,
        payload,
        config,
        version: 0,
    })
}

fn options(
    alloc: Global,
    inner: Format,
    list: &str,
    list_kind: ListKind,
    any_packet: bool,
) -> Result<SegOptions, Fail>
    ensures { IfOk result (λ o. o.inner ≡ inner) }
{
    let list = Text::of(alloc, list).ok().ok_or("no memory")?;
    Ok(SegOptions {
        inner,
        time_us: 2_000_000,
        list: Some(list),
        list_kind,
        start: 0,
        reset: true,
        any_packet,
    })
}

// A session of packets of this kind, at these seconds.
fn written(
    alloc: Global,
    options: SegOptions,
    streams: MuxStreams,
    kind: Kind,
    template: &Template,
    seconds: &[(u8, bool)],
) -> Result<MemShelf, Fail>
    requires inner { (options.inner ≡ Mpegts) ⊎ (options.inner ≡ Flv) }
    requires streams { CanMux streams }
    requires kind { kind_in streams.streams.items 0 ≡ Some kind }
{
    let mut mux = SegMux::new(alloc, options, streams);
    let mut shelf = MemShelf::new(alloc);
    mux.begin(template, &mut shelf)?;
    for (second, key) in seconds {
        let p = packet(alloc, kind, *second, *key)?;
        mux.put(&p, &mut shelf)?;
    }
    mux.end(&mut shelf)?;
    Ok(shelf)
}

// Whether the takes have these names, and are closed.
fn has_takes(shelf: &MemShelf, names: &[&str]) -> bool {
    let mut at = 0;
    for name in names {
        if at >= shelf.take_count() || shelf.take_name(at) != *name || !shelf.take_closed(at) {
            return false;
        }
        at += 1;
    }
    at == shelf.take_count()
}

// The bytes of the last take.
fn last_bytes(shelf: &MemShelf) -> &[u8] {
    match shelf.take_count().checked_sub(1) {
        Some(at) => shelf.take_bytes(at),
        None => &[],
    }
}

const SECONDS: [(u8, bool); 9] = [
    (0, true),
    (1, false),
    (2, false),
    (3, false),
    (4, false),
    (5, true),
    (6, true),
    (7, true),
    (8, false),
];

#[test]
fn segments_and_their_lists(rt: HostRuntime) -> Result<(), Fail> {
    let four = ["s000.ts", "s001.ts", "s002.ts", "s003.ts", "l"];
    let five = ["s000.ts", "s001.ts", "s002.ts", "s003.ts", "s004.ts", "l"];
    let rows = [
        (
            ListKind::Flat,
            false,
            "s000.ts\ns001.ts\ns002.ts\ns003.ts\n",
        ),
        (
            ListKind::Csv,
            false,
            "s000.ts,0.000000,5.000000\ns001.ts,5.000000,6.000000\ns002.ts,6.000000,7.000000\ns003.ts,7.000000,8.000000\n",
        ),
        (
            ListKind::M3u8,
            false,
            "#EXTM3U\n#EXT-X-VERSION:3\n#EXT-X-MEDIA-SEQUENCE:0\n#EXT-X-TARGETDURATION:5\n#EXTINF:5.000000,\ns000.ts\n#EXTINF:1.000000,\ns001.ts\n#EXTINF:1.000000,\ns002.ts\n#EXTINF:1.000000,\ns003.ts\n#EXT-X-ENDLIST\n",
        ),
        (
            ListKind::Csv,
            true,
            "s000.ts,0.000000,2.000000\ns001.ts,2.000000,4.000000\ns002.ts,4.000000,6.000000\ns003.ts,6.000000,8.000000\ns004.ts,8.000000,8.000000\n",
        ),
    ];
    let template = Template::parse("s%03d.ts").ok_or("it is a template")?;
    for (kind, any_packet, list) in rows {
        let options = options(rt.alloc(), Format::Mpegts, "l", kind, any_packet)?;
        let streams = alone(rt.alloc(), Kind::Video)?;
        let shelf = written(
            rt.alloc(),
            options,
            streams,
            Kind::Video,
            &template,
            &SECONDS,
        )?;
        let names = if any_packet {
            five.as_slice()
        } else {
            four.as_slice()
        };
        assert!(rt; has_takes(&shelf, names));
        assert!(rt; last_bytes(&shelf) == list.as_bytes());
    }
    Ok(())
}

#[test]
fn times_begin_at_0(rt: HostRuntime) -> Result<(), Fail> {
    let template = Template::parse("%d").ok_or("it is a template")?;
    let options = options(rt.alloc(), Format::Flv, "l", ListKind::Flat, false)?;
    let streams = alone(rt.alloc(), Kind::Audio)?;
    let seconds = [(3, true), (5, true)];
    let shelf = written(
        rt.alloc(),
        options,
        streams,
        Kind::Audio,
        &template,
        &seconds,
    )?;
    assert!(rt; has_takes(&shelf, &["0", "1", "l"]));
    assert_eq!(rt; shelf.take_count(), 3);
    // Both files have one packet, at 0.
    assert!(rt; shelf.take_bytes(0) == shelf.take_bytes(1));
    Ok(())
}

// Times that go back, also behind that of the first packet. The last file ends at the greatest time of all, which a packet of
// the file before it has here.
#[test]
fn times_that_go_back(rt: HostRuntime) -> Result<(), Fail> {
    let template = Template::parse("%d").ok_or("it is a template")?;
    let options = options(rt.alloc(), Format::Mpegts, "l", ListKind::Csv, false)?;
    let streams = alone(rt.alloc(), Kind::Video)?;
    let seconds = [
        (3, true),
        (2, true),
        (6, false),
        (4, true),
        (5, true),
        (4, false),
    ];
    let shelf = written(
        rt.alloc(),
        options,
        streams,
        Kind::Video,
        &template,
        &seconds,
    )?;
    assert!(rt; has_takes(&shelf, &["0", "1", "l"]));
    let list = "0,0.000000,2.000000\n1,2.000000,3.000000\n";
    assert!(rt; last_bytes(&shelf) == list.as_bytes());
    Ok(())
}

#[test]
fn numbers_go_on(rt: HostRuntime) -> Result<(), Fail> {
    let template = Template::parse("%d").ok_or("it is a template")?;
    let mut options = options(rt.alloc(), Format::Adts, "l", ListKind::Csv, false)?;
    options.start = 4_294_967_295;
    let streams = alone(rt.alloc(), Kind::Audio)?;
    let mut mux = SegMux::new(rt.alloc(), options, streams);
    let mut shelf = MemShelf::new(rt.alloc());
    mux.begin(&template, &mut shelf)?;
    mux.end(&mut shelf)?;
    mux.begin(&template, &mut shelf)?;
    mux.end(&mut shelf)?;
    assert!(rt; has_takes(&shelf, &["4294967295", "l", "4294967296", "l"]));
    assert!(rt; last_bytes(&shelf) == b"4294967296,0.000000,0.000000\n".as_slice());
    Ok(())
}
