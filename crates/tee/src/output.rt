// One output of a tee.
ghost use Rattle.std.specs.Prelude.{◌≡◌, ◌<◌, ◌++◌, ◌∷◌, [], ◌^◌, List, ℕ, Option, length, Some, false};
ghost use Rattle.fifo_core.specs.History.{History};
ghost use Rattle.options.specs.Slave.{Slave};
ghost use Rattle.rmx_media.specs.declared.packet.Packet.{Packet};
ghost use Rattle.rmx_media.specs.declared.streams.StreamInfo.{StreamInfo as Info};
ghost use Rattle.slave.specs.Table.{Takes};
ghost use Rattle.tee.specs.Choice.{choice as choice_by};
ghost use Rattle.tee.specs.Route.{IsFiltered, written};
ghost use Rattle.tee.specs.Seat.{Seat};

use crate::choice::Choice;
use crate::draft::Draft;
use crate::filter::Filtered;
use rmx_edge::Shelf;
use rmx_media::Packet;
use slave::{SlaveEnd, SlaveJob};

/// An output, and what it takes.
#[derive(Drop)]
pub struct TeeSlave<S: Shelf> {
    pub job: SlaveJob<S>,
    /// How many packets it was given to write.
    pub count: u64,
    pub choice: Choice,
}

impl<S: Shelf> TeeSlave<S> {
    ghost use Rattle.tee.specs.Draft.{IsDraft, IsOpen};
    ghost use Rattle.tee.specs.Sits.{EndsAt, Passes, Sits, SitsOn};

    /// Opens an output on a shelf.
    pub fn open(draft: Draft, shelf: S) -> TeeSlave<S>
        requires idle { (S.state shelf).writing ≡ false }
        requires ready { (infos : List Info) × (script : Option (List ℕ)) × (s : Slave) × IsDraft infos script s draft }
        ensures { (infos : List Info) (script : Option (List ℕ)) (s : Slave) → IsDraft infos script s draft → IsOpen S.state infos script s shelf result }
    {
        let Draft { kit, choice } = draft;
        let mut job = SlaveJob::with_kit(kit, shelf);
        job.start();
        TeeSlave {
            job,
            count: 0,
            choice,
        }
    }

    /// Ends it.
    pub fn finish(self) -> SlaveEnd<S>
        requires ready { (infos : List Info) × (given : List Packet) × (seat : Seat) × (history : History) × Sits S.state infos given seat history self }
        ensures { (infos : List Info) (given : List Packet) (seat : Seat) (history : History) → Sits S.state infos given seat history self → EndsAt S.state given seat history result }
    {
        let TeeSlave {
            job,
            count: _,
            choice: _,
        } = self;
        job.finish_direct()
    }

    /// Writes a packet that it takes.
    pub fn write(&mut self, p: &Packet)
        requires ready { (infos : List Info) × (given : List Packet) × (seat : Seat) × (history : History) × Sits S.state infos given seat history self.old
            × Takes seat.origin p.now × (length given < 2 ^ 61) }
        ensures { (infos : List Info) (given : List Packet) (seat : Seat) (history : History) (q : Packet) → Sits S.state infos given seat history self.old
            → Some p.now ≡ choice_by seat.origin.streams.streams.items seat.slave.chains q → Takes seat.origin p.now
            → SitsOn S.state infos (given ++ q ∷ []) seat history self.new }
    {
        self.job.write_direct(self.count, p);
        self.count += 1;
    }

    /// Writes a packet of a stream for which no filters stand, where it takes it.
    pub fn pass(&mut self, p: &Packet)
        requires number { p.now.stream < 2 }
        requires ready { (infos : List Info) × (given : List Packet) × (seat : Seat) × (history : History) × Passes S.state infos given p.now seat history self.old
            × (length given < 2 ^ 61) }
        ensures { (infos : List Info) (given : List Packet) (seat : Seat) (history : History) → Passes S.state infos given p.now seat history self.old
            → SitsOn S.state infos (given ++ p.now ∷ []) seat history self.new }
    {
        if self.choice.passes(p.stream) {
            self.write(p);
        }
    }

    /// Writes what was left of a packet.
    pub fn give(&mut self, p: &Packet, filtered: &Filtered)
        requires ready { (infos : List Info) × (given : List Packet) × (seat : Seat) × (history : History) × Sits S.state infos given seat history self.old
            × IsFiltered seat p.now (written p.now filtered.now) × (length given < 2 ^ 61) }
        ensures { (infos : List Info) (given : List Packet) (seat : Seat) (history : History) → Sits S.state infos given seat history self.old
            → IsFiltered seat p.now (written p.now filtered.now) → SitsOn S.state infos (given ++ p.now ∷ []) seat history self.new }
    {
        match filtered {
            Filtered::Same => self.write(p),
            Filtered::Other(packet) => self.write(packet),
            Filtered::Dropped => {}
        }
    }
}
