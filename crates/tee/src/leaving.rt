// The end of an output of a run.
ghost use Rattle.std.specs.Prelude.{◌≡◌, ℕ, List, Option, false, true, length};
ghost use Rattle.fifo_core.specs.declared.types.EndState.TheVariants.{NoMemory};
ghost use Rattle.rmx_media.specs.declared.packet.Packet.{Packet as Piece};
ghost use Rattle.rmx_media.specs.declared.streams.StreamInfo.{StreamInfo as Info};
ghost use Rattle.slave.specs.End.{end_view};
ghost use Rattle.tee.specs.Attends.{Attends, IsStarted};
ghost use Rattle.tee.specs.Rides.{Rides};
ghost use Rattle.tee.specs.RunEnds.{EndsThere, EndsWith};
ghost use Rattle.tee.specs.Seat.{Seat};
ghost use Rattle.tee.specs.Tracks.{Track};

use crate::outlet::Outlet;
use crate::sender::Sender;
use rmx_edge::{Gate, Shelf};
use slave::{Running, SlaveEnd, WorkEnd};
use std::alloc::Global;
use std::sync::Wait;
use std::thread::Threads;

impl Sender {
    ghost use Rattle.tee.specs.Rides.{Shuts};

    // Says that nothing more comes.
    fn close(&mut self)
        requires unclosed { self.old.giver.closed ≡ false }
        ensures { Shuts self.old self.new }
    {
        self.lane.close(&mut self.giver);
    }
}

// Waits for the thread of an output, and enters the refusals of its lane among its fates.
fn join<S: Shelf + Drop, G: Gate + Drop, R: Threads + Wait>(
    rt: &R,
    alloc: Global,
    sender: Sender,
    running: Running<S, G>,
) -> (SlaveEnd<S>, bool)
    requires ready { (infos : List Info) × (given : List Piece) × (seat : Seat) × (told : Option ℕ) × Rides infos given (length given) seat told sender × IsStarted seat sender running }
    ensures ends { (infos : List Info) (given : List Piece) (seat : Seat) (told : Option ℕ) → Rides infos given (length given) seat told sender → IsStarted seat sender running
        → (k : EndsThere seat given told (end_view S.state result.0)) × (result.1 ≡ k.short) }
    ensures short { result.1 ≡ true → result.0.state ≡ NoMemory }
{
    let Sender {
        lane,
        giver,
        receipts,
        choice: _,
        left: _,
        count: _,
        cap,
        drops: _,
        failed: _,
    } = sender;
    let WorkEnd { end, taker } = running.join(rt);
    let counts = lane.settle(giver, taker);
    end.with_refusals(alloc, cap, counts, receipts)
}

impl<S: Shelf, G> Outlet<S, G> {
    ghost use Rattle.tee.specs.RunKeeps.{is_threaded};

    /// Whether a thread writes it.
    pub fn has_thread(&self) -> bool
        ensures { result ≡ is_threaded self.now }
    {
        match self {
            Outlet::Here(_, _, _) => false,
            Outlet::There(_, _) => true,
        }
    }

    /// Says that nothing more comes, where it has a lane.
    pub fn close(&mut self)
        requires ready { (infos : List Info) × (given : List Piece) × (asked : ℕ) × (seat : Seat) × (track : Track) × Attends S.state infos given asked false seat track self.old }
        ensures { (infos : List Info) (given : List Piece) (asked : ℕ) (seat : Seat) (track : Track) → Attends S.state infos given asked false seat track self.old
            → Attends S.state infos given asked true seat track self.new }
    {
        match self {
            Outlet::Here(_, _, _) => {}
            Outlet::There(sender, _) => sender.close(),
        }
    }
}

impl<S: Shelf + Drop, G: Gate + Drop> Outlet<S, G> {
    /// Ends it; its thread is waited for. The answer true says that memory was wanted for the refusals of its lane.
    pub fn finish<R: Threads + Wait>(self, rt: &R, alloc: Global) -> (SlaveEnd<S>, bool)
        requires ready { (infos : List Info) × (given : List Piece) × (seat : Seat) × (track : Track) × Attends S.state infos given (length given) true seat track self }
        ensures ends { (infos : List Info) (given : List Piece) (seat : Seat) (track : Track) → Attends S.state infos given (length given) true seat track self
            → EndsWith S.state given seat track result.0 result.1 }
        ensures short { result.1 ≡ true → result.0.state ≡ NoMemory }
    {
        match self {
            Outlet::Here(slave, inline, _) => {
                let mut end = slave.finish();
                end.inline = inline;
                (end, false)
            }
            Outlet::There(sender, running) => join(rt, alloc, sender, running),
        }
    }
}
