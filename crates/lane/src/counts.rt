//! What both ends of a lane did.
ghost use Rattle.std.specs.Prelude.{◌≡◌};

use std::marker::Model;

/// What is left of a lane whose ends are settled. Only `settle` makes one, and it cannot be copied.
#[derive(Drop)]
pub struct LaneCounts {
    pub(crate) given: u64,
    pub(crate) got: u64,
    pub(crate) overs: u64,
    pub(crate) closed: bool,
    pub(crate) failed: bool,
    pub(crate) drops: bool,
    pub(crate) limit: u64,
    pub(crate) asked: u64,
    pub(crate) told: Option<u64>,
}

impl Model for LaneCounts {
    ghost use Rattle.lane.specs.Sides.{CountsSide};

    ghost Value = { CountsSide };

    ghost view = { λ c. record { given = c.given; got = c.got; overs = c.overs; closed = c.closed; failed = c.failed; drops = c.drops; limit = c.limit; asked = c.asked; told = c.told } };
}

impl LaneCounts {
    /// How many messages were given.
    pub fn given(&self) -> u64
        ensures { result ≡ self.now.given }
    {
        self.given
    }

    /// How many messages were got.
    pub fn got(&self) -> u64
        ensures { result ≡ self.now.got }
    {
        self.got
    }

    /// How many offers were refused.
    pub fn overs(&self) -> u64
        ensures { result ≡ self.now.overs }
    {
        self.overs
    }

    /// Whether the giver closed.
    pub fn closed(&self) -> bool
        ensures { result ≡ self.now.closed }
    {
        self.closed
    }

    /// Whether the taker failed.
    pub fn failed(&self) -> bool
        ensures { result ≡ self.now.failed }
    {
        self.failed
    }

    /// Whether the lane was made to drop.
    pub fn drops(&self) -> bool
        ensures { result ≡ self.now.drops }
    {
        self.drops
    }

    /// How many bytes might wait, as the lane was made; 0 for any number.
    pub fn limit(&self) -> u64
        ensures { result ≡ self.now.limit }
    {
        self.limit
    }

    /// How often the giver asked whether the taker failed.
    pub fn asked(&self) -> u64
        ensures { result ≡ self.now.asked }
    {
        self.asked
    }

    /// The first of these questions that was answered by yes, counted from 1.
    pub fn told(&self) -> Option<u64>
        ensures { result ≡ self.now.told }
    {
        self.told
    }
}
