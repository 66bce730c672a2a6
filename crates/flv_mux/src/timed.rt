// A packet at the times that it is written with.
use rmx_media::Packet;

/// A packet, and the times at which it is written in place of its own.
#[derive(Clone, Copy)]
pub(crate) struct Timed<'a> {
    pub(crate) packet: &'a Packet,
    pub(crate) dts: i64,
    pub(crate) pts: i64,
}
