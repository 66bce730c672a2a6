// Streams and their configurations.
ghost use Rattle.std.specs.Prelude.{◌≡◌, IfOk};
ghost use Rattle.rmx_media.specs.Streams.{IsEqual};

use crate::{Config, Items, NoMemory};
use bytes::Bytes;
use std::alloc::Global;

/// What a stream carries.
#[derive(Clone, Copy, Debug, PartialEq, Eq)]
pub enum Kind {
    Video,
    Audio,
}

/// A stream's kind and configuration.
#[derive(Drop)]
pub struct StreamInfo {
    pub kind: Kind,
    pub config: Config,
}

impl StreamInfo {
    /// An equal value, which shares the bytes.
    pub fn copy(&self) -> Result<StreamInfo, NoMemory>
        ensures { IfOk result (λ s. s ≡ self.now) }
    {
        match self.config.copy() {
            Ok(config) => Ok(StreamInfo {
                kind: self.kind,
                config,
            }),
            Err(_) => Err(NoMemory),
        }
    }
}

/// A stream of an output, with the number that its packets carry.
#[derive(Drop)]
pub struct MuxStream {
    pub stream: u32,
    pub info: StreamInfo,
}

impl MuxStream {
    /// An equal value, which shares the bytes.
    pub fn copy(&self) -> Result<MuxStream, NoMemory>
        ensures { IfOk result (λ s. s ≡ self.now) }
    {
        match self.info.copy() {
            Ok(info) => Ok(MuxStream {
                stream: self.stream,
                info,
            }),
            Err(_) => Err(NoMemory),
        }
    }
}

/// The streams of an output, and the script that an FLV file begins with, if there is one.
#[derive(Drop)]
pub struct MuxStreams {
    pub streams: Items<MuxStream>,
    pub script: Option<Bytes>,
}

impl MuxStreams {
    /// The same streams and script, which share the bytes.
    pub fn copy(&self, alloc: Global) -> Result<MuxStreams, NoMemory>
        ensures { IfOk result (IsEqual self.now) }
    {
        let mut streams = Vec::new(alloc);
        for stream in self.streams.as_slice() {
            let copy = stream.copy()?;
            match streams.push(copy) {
                Ok(()) => {}
                Err(_) => return Err(NoMemory),
            }
        }
        let script = match &self.script {
            Some(script) => match script.clone() {
                Ok(script) => Some(script),
                Err(_) => return Err(NoMemory),
            },
            None => None,
        };
        Ok(MuxStreams {
            streams: Items::from_vec(streams),
            script,
        })
    }
}
