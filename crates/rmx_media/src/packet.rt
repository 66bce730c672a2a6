// Coded packets.
ghost use Rattle.std.specs.Prelude.{◌≡◌, IfOk};
ghost use Rattle.rmx_media.specs.Packet.{is_restart as restarts};

use crate::{Config, NoMemory};
use bytes::Bytes;

/// How a payload is laid out.
#[derive(Clone, Copy, Debug, PartialEq, Eq)]
pub enum Form {
    /// AVC units behind length fields, or bare AAC.
    Native,
    /// AVC units behind start codes (ISO/IEC 14496-10, Annex B).
    AnnexB,
    /// An AAC frame behind its ADTS head.
    Adts,
}

/// The formats of outputs.
#[derive(Clone, Copy, Debug, PartialEq, Eq)]
pub enum Format {
    Flv,
    Adts,
    Mpegts,
    Segment,
}

/// One coded frame. Times are milliseconds. The short fields stand together, so that it has 128 bytes: moves of more are calls.
#[derive(Drop)]
pub struct Packet {
    /// The number of its stream.
    pub stream: u32,
    /// Whether decoding can begin here.
    pub key: bool,
    pub form: Form,
    /// When it is decoded.
    pub dts: i64,
    /// When it is shown.
    pub pts: i64,
    pub payload: Bytes,
    /// The configuration that is in force for it.
    pub config: Config,
    /// How many configurations of its stream came into force before that one.
    pub version: u64,
}

impl Packet {
    /// An equal packet, which shares payload and configuration.
    pub fn copy(&self) -> Result<Packet, NoMemory>
        ensures { IfOk result (λ p. p ≡ self.now) }
    {
        let config = match self.config.copy() {
            Ok(config) => config,
            Err(_) => return Err(NoMemory),
        };
        match self.payload.clone() {
            Ok(payload) => Ok(Packet {
                stream: self.stream,
                key: self.key,
                form: self.form,
                dts: self.dts,
                pts: self.pts,
                payload,
                config,
                version: self.version,
            }),
            Err(_) => Err(NoMemory),
        }
    }
}

/// Whether an output may begin at this packet: a key packet of its video stream, or any packet where it has no video.
pub fn is_restart(p: &Packet, video: Option<u32>) -> bool
    ensures { result ≡ restarts p.now video }
{
    match video {
        None => true,
        Some(video) => p.stream == video && p.key,
    }
}
