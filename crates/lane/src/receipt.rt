//! What the calls of a lane answer.
ghost use Rattle.std.specs.Prelude.{◌≡◌};

use crate::msg::Msg;
use std::marker::Model;

/// A refused offer. Only an offer makes one, and it cannot be copied.
#[derive(Drop)]
pub struct Receipt {
    pub(crate) number: u64,
    pub(crate) index: u64,
    pub(crate) accepted: u64,
    pub(crate) head: u64,
    pub(crate) bytes: u64,
}

impl Model for Receipt {
    ghost use Rattle.lane.specs.Sides.{ReceiptSide};

    ghost Value = { ReceiptSide };

    ghost view = { λ r. record { number = r.number; index = r.index; accepted = r.accepted; head = r.head; bytes = r.bytes } };
}

impl Receipt {
    /// Which refusal of its lane it is, counted from 1.
    pub fn number(&self) -> u64
        ensures { result ≡ self.now.number }
    {
        self.number
    }

    /// The index of the refused message.
    pub fn index(&self) -> u64
        ensures { result ≡ self.now.index }
    {
        self.index
    }

    /// How many messages were accepted before.
    pub fn accepted(&self) -> u64
        ensures { result ≡ self.now.accepted }
    {
        self.accepted
    }

    /// How many of these were taken.
    pub fn head(&self) -> u64
        ensures { result ≡ self.now.head }
    {
        self.head
    }

    /// The bytes of those that waited.
    pub fn bytes(&self) -> u64
        ensures { result ≡ self.now.bytes }
    {
        self.bytes
    }
}

/// The answer to an offer. A refused message comes back.
#[derive(Drop)]
pub enum Offer {
    Accepted,
    Refused(Msg, Receipt),
}

/// The answer to a take.
#[derive(Drop)]
pub enum Taken {
    Got(Msg),
    /// No message waits, and one may still come.
    Empty,
    /// No message waits, and none will come.
    Ended,
}
