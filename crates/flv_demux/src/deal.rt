// What tags mean, and what comes of them.
use bytes::Bytes;
use rmx_media::{Config, Kind, Packet, StreamInfo};

/// Why a tag is passed over.
#[derive(Clone, Copy, Debug, PartialEq, Eq)]
pub enum Reason {
    Script,
    Unsupported,
    NoStream,
    Corrupt,
    Command,
    SequenceEnd,
    ConfigRepeat,
}

/// What a tag means by itself.
#[derive(Drop)]
pub enum Meaning {
    Counted(Reason),
    Configures(Config),
    Media {
        kind: Kind,
        key: bool,
        composition: i32,
        payload: Bytes,
    },
}

/// How many tags were passed over, by the reason. A count stands still at the end of its type.
#[derive(Clone, Copy, Debug, PartialEq, Eq)]
pub struct Discards {
    /// Script data.
    pub script: u64,
    /// Another codec, another kind of tag, or a filtered one.
    pub unsupported: u64,
    /// Of a kind that has no stream, or before its stream's first configuration.
    pub no_stream: u64,
    /// Too short for what it says to be, or a payload of no whole units.
    pub corrupt: u64,
    /// A command to the player.
    pub command: u64,
    /// The end of a sequence of pictures.
    pub sequence_end: u64,
    /// The configuration that is in force, once more.
    pub config_repeat: u64,
}

/// What was found in the tags that tell which streams there are.
#[derive(Drop)]
pub struct Probe {
    pub video: Option<Config>,
    pub audio: Option<Config>,
    pub script: Option<Bytes>,
    pub tags: u64,
    pub bytes: u64,
}

/// Which kinds have a stream.
#[derive(Clone, Copy, Debug, PartialEq, Eq)]
pub struct Kinds {
    pub video: bool,
    pub audio: bool,
}

/// What was seen of one stream: the configuration in force, its version, and the greatest time stamp of a packet in ms.
#[derive(Drop)]
pub struct Seen {
    pub force: Option<Config>,
    pub version: u64,
    pub top: i64,
}

/// What was seen of both streams, and of how many tags what came.
#[derive(Drop)]
pub struct Desk {
    pub video: Seen,
    pub audio: Seen,
    pub discards: Discards,
    pub tags: u64,
}

/// What comes of a tag.
#[derive(Drop)]
pub enum Outcome {
    Counted(Reason),
    Forces(Config),
    Gives(Kind, Packet),
}

/// What is told of the tags dealt with: whether the streams are known, and the counts.
#[derive(Clone, Copy, Debug, PartialEq, Eq)]
pub struct Shown {
    pub known: bool,
    pub tags: u64,
    pub discards: Discards,
}

/// What is known of the streams, and of how many of the waiting tags it was found.
#[derive(Drop)]
pub struct Streams {
    pub looked: usize,
    pub probe: Probe,
    pub known: Option<Kinds>,
    pub infos: Vec<StreamInfo>,
}
