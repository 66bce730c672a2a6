// The reader's end of the lane to an output with a thread of its own.
ghost use Rattle.std.specs.Prelude.{◌≡◌};
ghost use Rattle.std.specs.Arc.{arc_value};

use crate::choice::Choice;
use lane::{Giver, Lane, Receipt};
use rmx_media::{Items, Packet};
use std::sync::Arc;

/// A lane to the thread of an output, what the output takes, and what the reader knows of it.
#[derive(Drop)]
pub struct Sender {
    pub lane: Arc<Lane>,
    pub giver: Giver,
    /// The refused packets, in order.
    pub receipts: Items<Receipt>,
    pub choice: Choice,
    /// What is left for it of the packet that is given next.
    pub left: Option<Packet>,
    /// How many packets were offered.
    pub count: u64,
    /// How many packets may wait.
    pub cap: u32,
    /// Whether offers may be refused.
    pub drops: bool,
    /// Whether the thread said that its output was given up.
    pub failed: bool,
    pub ghost ours: { giver.ring ≡ (arc_value lane).ring },
}
