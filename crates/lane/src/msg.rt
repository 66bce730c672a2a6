//! What a lane carries, and what it is for.
use rmx_media::{Format, MuxStreams, Packet};
use std::snapshot::Snapshot;

/// A packet with its place in the list of all packets.
#[derive(Drop)]
pub struct Msg {
    pub index: u64,
    pub packet: Packet,
}

/// What a lane is for: packets that fit this format and these streams. Nothing of the streams is kept at run time.
#[derive(Drop)]
pub struct Purpose {
    pub format: Format,
    pub streams: Snapshot<MuxStreams>,
    /// How many bytes may wait, 0 for any number. One message may pass it.
    pub limit: u64,
    /// Whether offers may be refused.
    pub drops: bool,
}
