//! Events, and the replies to them.

/// What happens at a lane.
#[derive(Clone, Copy, Debug, PartialEq, Eq)]
pub enum LaneEvent {
    /// The giver offers a message: its index, and its size in bytes.
    Offer(u64, u32),
    /// The taker asks for the next message.
    Take,
    /// The taker looks how many offers were refused.
    See,
    /// The giver says that it offers nothing more.
    Close,
    /// The taker says that what it takes is of no use.
    Fail,
}

/// What a lane replies.
#[derive(Clone, Copy, Debug, PartialEq, Eq)]
pub enum LaneReply {
    /// The offered message waits in the lane.
    Accepted,
    /// The lane was full, and this is the number of offers refused so far.
    Refused(u64),
    /// The index of the message that is taken.
    Got(u64),
    /// No message waits, and one may still come.
    Empty,
    /// No message waits, and none will come.
    Ended,
    /// The number of offers refused so far.
    Overs(u64),
    Done,
    /// The lane was closed before, and nothing changes.
    Shut,
}

/// A message that waits in a lane.
#[derive(Clone, Copy, Debug, PartialEq, Eq)]
pub struct Held {
    pub index: u64,
    /// In bytes.
    pub size: u32,
}
