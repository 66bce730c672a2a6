// The packets that are passed about. Making one takes no memory.
ghost use Rattle.std.specs.Prelude.{◌≡◌, Some, IfOk};
ghost use Rattle.rmx_media.specs.Config.{IsReadAac};
ghost use Rattle.rmx_media.specs.Fits.{Fits};
ghost use Rattle.rmx_media.specs.Streams.{kind_in};
ghost use Rattle.rmx_media.specs.declared.packet.Format.TheVariants.{Adts};
ghost use Rattle.rmx_media.specs.declared.streams.Kind.TheVariants.{Audio};
ghost use Rattle.rmx_media.specs.declared.streams.MuxStreams.{MuxStreams as Streams};

use bytes::Bytes;
use lane::Msg;
use rmx_media::{
    AacConfig, Config, Form, Items, Kind, MuxStream, MuxStreams, NoMemory, Packet, StreamInfo,
};
use std::alloc::Global;

// AAC of type 2 (LC), 44100 Hz, two channels.
fn config() -> AacConfig
    ensures { IsReadAac result }
{
    AacConfig {
        raw: Bytes::from_static(b"\x12\x10"),
        object_type: 2,
        index: 4,
        channels: 2,
    }
}

/// An AAC packet of one byte.
pub fn packet(stream: u32, dts: i64) -> Packet
    ensures { (result.stream ≡ stream) × (result.dts ≡ dts) }
{
    Packet {
        stream,
        dts,
        pts: dts,
        key: true,
        form: Form::Native,
        payload: Bytes::from_static(b"x"),
        config: Config::Aac(config()),
        version: 0,
    }
}

/// A message with such a packet.
pub fn msg(index: u64) -> Msg
    ensures index { result.index ≡ index }
    ensures fits { (s : Streams) → kind_in s.streams.items 0 ≡ Some Audio → Fits Adts s result.packet }
{
    Msg {
        index,
        packet: Packet {
            stream: 0,
            dts: 0,
            pts: 0,
            key: true,
            form: Form::Native,
            payload: Bytes::from_static(b"x"),
            config: Config::Aac(config()),
            version: 0,
        },
    }
}

/// The streams that such packets fit.
pub fn streams(alloc: Global) -> Result<MuxStreams, NoMemory>
    ensures { IfOk result (λ s. kind_in s.streams.items 0 ≡ Some Audio) }
{
    let stream = MuxStream {
        stream: 0,
        info: StreamInfo {
            kind: Kind::Audio,
            config: Config::Aac(config()),
        },
    };
    match vec![in alloc; stream] {
        Ok(streams) => Ok(MuxStreams {
            streams: Items::from_vec(streams),
            script: None,
        }),
        Err(_) => Err(NoMemory),
    }
}
