// What outputs answer to a packet.

/// Whether more packets are wanted.
#[derive(Clone, Copy, Debug, PartialEq, Eq)]
pub enum Fed {
    More,
    /// An output that aborts, or every one, is known to be dead.
    Stop,
}
