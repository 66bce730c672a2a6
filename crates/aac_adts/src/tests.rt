// Files of frames by worked examples.
ghost use Rattle.std.specs.Prelude.{◌≡◌, Some, IfOk};
ghost use Rattle.rmx_media.specs.declared.streams.Kind.TheVariants.{Audio};
ghost use Rattle.rmx_media.specs.Config.{IsReadAac};
ghost use Rattle.rmx_media.specs.Streams.{CanMux, kind_in};
ghost use Rattle.aac_adts.specs.Sample.{IsSample};

use crate::{AdtsMux, adts_head};
use bytes::Bytes;
use rmx_edge::{MemShelf, Shelf};
use rmx_media::{
    AacConfig, Config, Form, Items, Kind, MuxStream, MuxStreams, Packet, StreamInfo,
    read_aac_config,
};
use std::alloc::Global;
use std::test::Fail;

const FIRST: [u8; 2] = [0x12, 0x10];

const SECOND: [u8; 2] = [0x11, 0x90];

fn config(alloc: Global, raw: [u8; 2]) -> Result<AacConfig, Fail>
    ensures { IfOk result (λ c. IsReadAac c) }
{
    let raw = Bytes::copy_from_slice(alloc, &raw)?;
    match read_aac_config(raw) {
        Ok(config) => Ok(config),
        Err(fault) => Err(Fail::from(fault)),
    }
}

// The stream 1, audio.
fn streams(alloc: Global) -> Result<MuxStreams, Fail>
    ensures { IfOk result (λ m. CanMux m × (kind_in m.streams.items 1 ≡ Some Audio)) }
{
    let info = StreamInfo {
        kind: Kind::Audio,
        config: Config::Aac(config(alloc, FIRST)?),
    };
    let stream = MuxStream { stream: 1, info };
    Ok(MuxStreams {
        streams: Items::from_vec(vec![in alloc; stream]?),
        script: None,
    })
}

fn packet(alloc: Global, raw: [u8; 2], version: u64, byte: u8) -> Result<Packet, Fail>
    ensures { IfOk result (λ p. IsSample p) }
{
    Ok(Packet {
        stream: 1,
        dts: 0,
        pts: 0,
        key: true,
        form: Form::Native,
        payload: Bytes::copy_from_slice(alloc, &[byte])?,
        config: Config::Aac(config(alloc, raw)?),
        version,
    })
}

#[test]
fn heads(rt: HostRuntime) -> Result<(), Fail> {
    let low = config(rt.alloc(), FIRST)?;
    assert_eq!(rt;
        adts_head(&low, 1),
        [0xFF, 0xF1, 0x50, 0x80, 0x01, 0x1F, 0xFC]
    );
    let high = config(rt.alloc(), SECOND)?;
    assert_eq!(rt;
        adts_head(&high, 1),
        [0xFF, 0xF1, 0x4C, 0x80, 0x01, 0x1F, 0xFC]
    );
    Ok(())
}

#[test]
#[tactic(auto, using(crate::proofs::Samples::sample_fits))]
fn a_configuration_changes(rt: HostRuntime) -> Result<(), Fail> {
    let first = packet(rt.alloc(), FIRST, 0, 0x21)?;
    let second = packet(rt.alloc(), SECOND, 1, 0x22)?;
    let mut mux = AdtsMux::new(streams(rt.alloc())?);
    let mut shelf = MemShelf::new(rt.alloc());
    let begun = mux.begin("out.aac", &mut shelf);
    assert_eq!(rt; begun, Ok(()));
    let put = mux.put(&first, &mut shelf);
    assert_eq!(rt; put, Ok(()));
    let put = mux.put(&second, &mut shelf);
    assert_eq!(rt; put, Ok(()));
    let ended = mux.end(&mut shelf);
    assert_eq!(rt; ended, Ok(()));
    assert_eq!(rt; shelf.take_count(), 1);
    let frames = [
        0xFF, 0xF1, 0x50, 0x80, 0x01, 0x1F, 0xFC, 0x21, 0xFF, 0xF1, 0x4C, 0x80, 0x01, 0x1F, 0xFC,
        0x22,
    ];
    assert_eq!(rt; shelf.take_bytes(0), frames.as_slice());
    assert!(rt; shelf.take_closed(0));
    Ok(())
}
