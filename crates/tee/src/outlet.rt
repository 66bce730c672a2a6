// One output of a run.
ghost use Rattle.std.specs.Prelude.{◌≡◌, ◌<◌, ◌+◌, ◌++◌, ◌∷◌, [], ◌^◌, ℕ, List, false, length, OnOk};
ghost use Rattle.fifo_core.specs.History.{History};
ghost use Rattle.rmx_media.specs.Config.{kind_of};
ghost use Rattle.rmx_media.specs.Fits.{Fits};
ghost use Rattle.rmx_media.specs.Streams.{AreInfos, IsSound};
ghost use Rattle.rmx_media.specs.declared.packet.Format.TheVariants.{Flv};
ghost use Rattle.rmx_media.specs.declared.packet.Packet.{Packet as Piece};
ghost use Rattle.rmx_media.specs.declared.streams.MuxStreams.{MuxStreams};
ghost use Rattle.rmx_media.specs.declared.streams.StreamInfo.{StreamInfo as Info};
ghost use Rattle.tee.specs.Route.{IsFiltered, IsPlaced, written};
ghost use Rattle.tee.specs.Seat.{Seat, IsInput};
ghost use Rattle.tee.specs.Sits.{Sits, SitsOn};
ghost use Rattle.tee.specs.Tracks.{Track, known_dead};

use crate::choice::Choice;
use crate::filter::Filtered;
use crate::output::TeeSlave;
use crate::sender::Sender;
use rmx_edge::{Gate, Shelf};
use rmx_media::{NoMemory, Packet, StreamInfo};
use slave::Running;
use std::alloc::Global;
use std::sync::Wait;

/// An output that the reader writes, or one with a thread of its own.
#[derive(Drop)]
pub enum Outlet<S: Shelf, G> {
    /// The reader writes it. It may have been meant to have a thread. The last is what is left for it of the packet that is given next.
    Here(TeeSlave<S>, bool, Filtered),
    /// A thread writes it, at the other end of a lane.
    There(Sender, Running<S, G>),
}

// Writes what is left of a packet, of which nothing is left then.
fn write_left<S: Shelf>(slave: &mut TeeSlave<S>, p: &Packet, left: &mut Filtered)
    requires ready { (infos : List Info) × (given : List Piece) × (seat : Seat) × (history : History) × Sits S.state infos given seat history slave.old
        × IsFiltered seat p.now (written p.now left.old) × (length given < 2 ^ 61) }
    ensures { (infos : List Info) (given : List Piece) (seat : Seat) (history : History) → Sits S.state infos given seat history slave.old
        → IsFiltered seat p.now (written p.now left.old) → SitsOn S.state infos (given ++ p.now ∷ []) seat history slave.new }
{
    slave.give(p, &*left);
    *left = Filtered::Dropped;
}

impl<S: Shelf, G> Outlet<S, G> {
    ghost use Rattle.tee.specs.Attends.{Attends, AttendsOn, IsReady, choice_of};

    // What it takes.
    fn choice(&self) -> &Choice
        ensures { result.now ≡ choice_of self.now }
    {
        match self {
            Outlet::Here(slave, _, _) => &slave.choice,
            Outlet::There(sender, _) => &sender.choice,
        }
    }

    /// Keeps what it gets of a packet, and takes the memory that it may need then.
    pub fn prepare(&mut self, alloc: Global, info: &StreamInfo, p: &Packet) -> Result<(), NoMemory>
        requires info { IsSound info.now }
        requires kind { kind_of p.now.config ≡ info.now.kind }
        requires fits { (all : MuxStreams) × Fits Flv all p.now }
        requires number { p.now.stream < 2 }
        ensures same { (infos : List Info) (given : List Piece) (asked : ℕ) (seat : Seat) (track : Track) → Attends S.state infos given asked false seat track self.old
            → Attends S.state infos given asked false seat track self.new }
        ensures ready { OnOk result ((infos : List Info) (given : List Piece) (asked : ℕ) (seat : Seat) (track : Track) → AreInfos infos → IsInput infos p.now
            → Attends S.state infos given asked false seat track self.old → IsReady S.state infos given asked p.now seat track self.new) }
    {
        match self {
            Outlet::Here(slave, _, left) => match slave.choice.filter(alloc, info, p) {
                Ok(filtered) => {
                    *left = filtered;
                    Ok(())
                }
                Err(refused) => Err(refused),
            },
            Outlet::There(sender, _) => match sender.prepare(alloc, info, p) {
                Ok(()) => Ok(()),
                Err(refused) => Err(refused),
            },
        }
    }

    /// Asks whether it was given up, where it has a thread.
    pub fn ask(&mut self)
        requires ready { (infos : List Info) × (given : List Piece) × (asked : ℕ) × (seat : Seat) × (track : Track) × Attends S.state infos given asked false seat track self.old × (asked < 2 ^ 63) }
        ensures { (infos : List Info) (given : List Piece) (asked : ℕ) (seat : Seat) (track : Track) → Attends S.state infos given asked false seat track self.old
            → AttendsOn S.state infos given (asked + 1) (asked + 1) seat track self.new }
    {
        match self {
            Outlet::Here(_, _, _) => {}
            Outlet::There(sender, _) => sender.ask(),
        }
    }

    /// Whether it is known to be given up.
    pub fn is_dead(&self) -> bool
        ensures { (infos : List Info) (given : List Piece) (asked : ℕ) (seat : Seat) (track : Track) → Attends S.state infos given asked false seat track self.now
            → result ≡ known_dead seat track }
    {
        match self {
            Outlet::Here(slave, _, _) => slave.job.is_dead(),
            Outlet::There(sender, _) => sender.failed,
        }
    }

    /// Whether the run ends where it is given up.
    pub fn aborts(&self) -> bool
        ensures { (infos : List Info) (seat : Seat) → IsPlaced infos seat (choice_of self.now) → result ≡ seat.slave.abort }
    {
        self.choice().abort
    }
}

impl<S: Shelf, G: Gate> Outlet<S, G> {
    ghost use Rattle.tee.specs.Attends.{AttendsOn, IsReady};

    /// It gets what is left of a packet.
    pub fn give<R: Wait>(&mut self, rt: &R, gate: &G, number: u32, p: &Packet)
        requires ready { (infos : List Info) × (given : List Piece) × (asked : ℕ) × (seat : Seat) × (track : Track)
            × IsReady S.state infos given asked p.now seat track self.old × (length given < 2 ^ 61) }
        ensures { (infos : List Info) (given : List Piece) (asked : ℕ) (seat : Seat) (track : Track) → IsReady S.state infos given asked p.now seat track self.old
            → AttendsOn S.state infos (given ++ p.now ∷ []) asked (asked + 1) seat track self.new }
    {
        match self {
            Outlet::Here(slave, _, left) => write_left(slave, p, left),
            Outlet::There(sender, _) => sender.give(rt, gate, number),
        }
    }
}
