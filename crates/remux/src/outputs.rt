// Several outputs, seen as one that is fed.
ghost use Rattle.std.specs.Prelude.{◌≡◌, ℕ, ◌<◌, ◌^◌, List, Bool, OnErr, length};
ghost use Rattle.rmx_media.specs.declared.packet.Packet.{Packet};
ghost use Rattle.tee.specs.Keeps.{dead_in, infos_of, Keeps};
ghost use Rattle.tee.specs.Seat.{IsInput};
ghost use Rattle.remux.specs.Fed.{Answers};
ghost use Rattle.remux.specs.Lineup.{Lineup};

use rmx_edge::Shelf;
use rmx_media::{NoMemory, Packet as Piece};
use tee::{Fed, Tee};

/// Outputs that are fed packet by packet.
pub trait Outputs {
    /// They were made of these, and were given these packets.
    ghost keeps: { Self → Lineup → List Packet → Type 0 };

    /// After so many packets an output that aborts, or every one, is known to be dead.
    ghost dead_at: { Self → ℕ → Bool };

    /// They take this packet.
    ghost takes: { Self → Packet → Type 0 };

    /// Gives them a packet. Stop says that an output that aborts, or every one, is known to be dead.
    fn feed(&mut self, p: &Piece) -> Result<Fed, NoMemory>
        requires ready { (start : Lineup) × (given : List Packet) × keeps self.old start given × (length given < 2 ^ 61) }
        requires taken { takes self.old p.now }
        ensures fed { (start : Lineup) → Answers result p.now (keeps self.old start) (keeps self.new start) (dead_at self.old) (dead_at self.new) }
        ensures takes { (q : Packet) → takes self.old q → takes self.new q }
        // where memory is refused, they keep what they kept, and no more is known of them
        ensures kept { OnErr result ((start : Lineup) (given : List Packet) → keeps self.old start given → keeps self.new start given) }
        ensures dead { OnErr result ((u : ℕ) → dead_at self.new u ≡ dead_at self.old u) };
}

/// All outputs of a run, and how many packets they were given.
#[derive(Drop)]
pub struct Handover<S: Shelf> {
    pub tee: Tee<S>,
    pub given: u64,
}

impl<S: Shelf> Outputs for Handover<S> {
    ghost keeps = { λ h start given. Keeps S.state h.tee start.seats given × (h.given ≡ length given) };

    ghost dead_at = { λ h u. dead_in h.tee u };

    ghost takes = { λ h p. IsInput (infos_of h.tee) p };

    fn feed(&mut self, p: &Piece) -> Result<Fed, NoMemory> {
        match self.tee.feed(p) {
            Ok(fed) => {
                self.given += 1;
                Ok(fed)
            }
            Err(refused) => Err(refused),
        }
    }
}
