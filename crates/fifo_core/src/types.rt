// What the machine is told, and what it answers.

/// How an output deals with a full queue and with faults of its shelf.
#[derive(Clone, Copy, Debug, PartialEq, Eq)]
pub struct FifoOptions {
    /// Whether the output is written by a thread of its own, behind a queue.
    pub use_fifo: bool,
    /// How many packets the queue holds, 1 to 256.
    pub queue_size: u32,
    /// How many payload bytes the queue holds; 0 is no bound.
    pub queue_bytes: u64,
    /// Whether packets are dropped at a full queue, in place of waiting for room.
    pub dropping: bool,
    /// Whether a new session is begun after a fault.
    pub attempt_recovery: bool,
    /// How many attempts to recover may fail one after another; 0 is no limit.
    pub max_attempts: u32,
    /// How long in stream time, in ms, a fault keeps the next attempt off.
    pub wait_ms: u64,
    /// Whether a restart packet is waited for behind every gap.
    pub restart: bool,
}

/// What the machine needs to know of a packet.
#[derive(Clone, Copy, Debug, PartialEq, Eq)]
pub struct PacketFacts {
    /// When it is decoded, in ms.
    pub dts: i64,
    /// Whether decoding can begin with it.
    pub restart: bool,
}

/// What became of a packet. Each packet has exactly one fate.
#[derive(Clone, Copy, Debug, PartialEq, Eq)]
pub enum Fate {
    /// Written in the session of that number.
    Written(u64),
    /// Refused at a full queue, by the receipt of that number.
    Refused(u64),
    /// Given up by the flush after the overflow of that number.
    Flushed(u64),
    /// Left out, since a restart packet is waited for.
    KeyWait,
    /// Lost at the fault of that number, or in the wait after it.
    Lost(u64),
    /// Left out, since the output was given up at the fault of that number.
    AfterFailure(u64),
    /// Memory was wanted.
    NoMemory,
}

/// What the outside answered to a muxer's call.
#[derive(Clone, Copy, Debug, PartialEq, Eq)]
pub enum Answer {
    Done,
    Fault,
    NoMemory,
}

/// What is to be done with a packet that came.
#[derive(Clone, Copy, Debug, PartialEq, Eq)]
pub enum Action {
    /// Write it in the session that is open.
    Write,
    /// Open the next session and write it there.
    OpenAndWrite,
    /// Nothing is written: this is its fate.
    Settle(Fate),
}

/// What is to be done after an answer for the packet in hand.
#[derive(Clone, Copy, Debug, PartialEq, Eq)]
pub enum After {
    /// Its turn is over: this is its fate.
    Settle(Fate),
    /// Open the next session and write the same packet there.
    Again,
}

/// How an output ended.
#[derive(Clone, Copy, Debug, PartialEq, Eq)]
pub enum EndState {
    Closed,
    Failed,
    NoMemory,
}

/// Whether the output is open, waits for its next session, or is given up; the number is that of the last fault.
#[derive(Clone, Copy, Debug, PartialEq, Eq)]
pub enum Mode {
    Live,
    Broken(u64),
    Dead(u64),
}
