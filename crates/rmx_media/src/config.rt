// The configuration of a stream, of either kind.
ghost use Rattle.std.specs.Prelude.{◌≡◌, ◌↔◌, IsTrue, IfOk};
ghost use Rattle.rmx_media.specs.Config.{IsSame};

use crate::{AacConfig, AvcConfig, NoMemory};
use thiserror::Error;

/// Why bytes are no configuration that can be used. The text of each is its name.
#[derive(Clone, Copy, Debug, PartialEq, Eq, Error)]
pub enum ConfigFault {
    #[error("Short")]
    Short,
    #[error("Version")]
    Version,
    #[error("ObjectType")]
    ObjectType,
    #[error("Frequency")]
    Frequency,
    #[error("Channels")]
    Channels,
}

/// What a decoder has to know before the first packet.
#[derive(Drop)]
pub enum Config {
    Avc(AvcConfig),
    Aac(AacConfig),
}

impl Config {
    /// An equal configuration, which shares the bytes.
    pub fn copy(&self) -> Result<Config, NoMemory>
        ensures { IfOk result (λ c. c ≡ self.now) }
    {
        match self {
            Config::Aac(config) => match config.copy() {
                Ok(config) => Ok(Config::Aac(config)),
                Err(_) => Err(NoMemory),
            },
            Config::Avc(config) => match config.copy() {
                Ok(config) => Ok(Config::Avc(config)),
                Err(_) => Err(NoMemory),
            },
        }
    }
}

/// Whether both are of one kind and read from the same bytes.
pub fn same_config(a: &Config, b: &Config) -> bool
    ensures { IsTrue result ↔ IsSame a.now b.now }
{
    match (a, b) {
        (Config::Avc(a), Config::Avc(b)) => a.raw.as_slice() == b.raw.as_slice(),
        (Config::Aac(a), Config::Aac(b)) => a.raw.as_slice() == b.raw.as_slice(),
        _ => false,
    }
}
