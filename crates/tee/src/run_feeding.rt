// One packet for all outputs of a run.
ghost use Rattle.std.specs.Prelude.{◌≡◌, ◌≤◌, ◌<◌, ◌+◌, ◌++◌, ◌∷◌, [], ◌^◌, ℕ, List, false, length, OnOk};
ghost use Rattle.rmx_media.specs.Config.{kind_of};
ghost use Rattle.rmx_media.specs.Fits.{Fits};
ghost use Rattle.rmx_media.specs.Streams.{AreInfos, IsSound};
ghost use Rattle.rmx_media.specs.declared.packet.Format.TheVariants.{Flv};
ghost use Rattle.rmx_media.specs.declared.packet.Packet.{Packet as Piece};
ghost use Rattle.rmx_media.specs.declared.streams.MuxStreams.{MuxStreams};
ghost use Rattle.rmx_media.specs.declared.streams.StreamInfo.{StreamInfo as Info};
ghost use Rattle.tee.specs.Attends.{Attends, AttendsOn, IsReady};
ghost use Rattle.tee.specs.Each.{Each3};
ghost use Rattle.tee.specs.Fails.{stops};
ghost use Rattle.tee.specs.Seat.{Seat, IsInput, aborts};
ghost use Rattle.tee.specs.Tracks.{Track, known_deads};

use crate::outlet::Outlet;
use rmx_edge::{Gate, Shelf};
use rmx_media::{NoMemory, Packet, StreamInfo};
use std::alloc::Global;
use std::sync::Wait;

/// Each output keeps what it gets of a packet, and takes the memory that it may need then.
fn prepare_each<S: Shelf, G>(
    alloc: Global,
    outlets: &mut [Outlet<S, G>],
    info: &StreamInfo,
    p: &Packet,
) -> Result<(), NoMemory>
    requires info { IsSound info.now }
    requires kind { kind_of p.now.config ≡ info.now.kind }
    requires fits { (all : MuxStreams) × Fits Flv all p.now }
    requires number { p.now.stream < 2 }
    ensures same { (infos : List Info) (given : List Piece) (asked : ℕ) (seats : List Seat) (tracks : List Track) → Each3 (Attends S.state infos given asked false) seats tracks outlets.old
        → Each3 (Attends S.state infos given asked false) seats tracks outlets.new }
    ensures ready { OnOk result ((infos : List Info) (given : List Piece) (asked : ℕ) (seats : List Seat) (tracks : List Track) → AreInfos infos → IsInput infos p.now
        → Each3 (Attends S.state infos given asked false) seats tracks outlets.old → Each3 (IsReady S.state infos given asked p.now) seats tracks outlets.new) }
{
    for outlet in outlets.iter_mut() {
        match outlet.prepare(alloc, info, p) {
            Ok(()) => {}
            Err(refused) => return Err(refused),
        }
    }
    Ok(())
}

/// Each output gets what is left of a packet for it, in order.
fn give_each<S: Shelf, G: Gate, R: Wait>(rt: &R, gate: &G, outlets: &mut [Outlet<S, G>], p: &Packet)
    requires few { length outlets.old ≤ 16 }
    requires ready { (infos : List Info) × (given : List Piece) × (asked : ℕ) × (seats : List Seat) × (tracks : List Track)
        × Each3 (IsReady S.state infos given asked p.now) seats tracks outlets.old × (length given < 2 ^ 61) }
    ensures { (infos : List Info) (given : List Piece) (asked : ℕ) (seats : List Seat) (tracks : List Track)
        → Each3 (IsReady S.state infos given asked p.now) seats tracks outlets.old → Each3 (AttendsOn S.state infos (given ++ p.now ∷ []) asked (asked + 1)) seats tracks outlets.new }
{
    for (number, outlet) in outlets.iter_mut().enumerate() {
        outlet.give(rt, gate, number as u32, p);
    }
}

/// Asks each lane once.
fn ask_each<S: Shelf, G>(outlets: &mut [Outlet<S, G>])
    requires ready { (infos : List Info) × (given : List Piece) × (asked : ℕ) × (seats : List Seat) × (tracks : List Track)
        × Each3 (Attends S.state infos given asked false) seats tracks outlets.old × (asked < 2 ^ 63) }
    ensures { (infos : List Info) (given : List Piece) (asked : ℕ) (seats : List Seat) (tracks : List Track)
        → Each3 (Attends S.state infos given asked false) seats tracks outlets.old → Each3 (AttendsOn S.state infos given (asked + 1) (asked + 1)) seats tracks outlets.new }
{
    for outlet in outlets.iter_mut() {
        outlet.ask();
    }
}

/// Each output keeps what it gets of a packet, and takes the memory that it may need then.
pub fn prepare_all<S: Shelf, G>(
    alloc: Global,
    outlets: &mut Vec<Outlet<S, G>>,
    info: &StreamInfo,
    p: &Packet,
) -> Result<(), NoMemory>
    requires info { IsSound info.now }
    requires kind { kind_of p.now.config ≡ info.now.kind }
    requires fits { (all : MuxStreams) × Fits Flv all p.now }
    requires number { p.now.stream < 2 }
    ensures same { (infos : List Info) (given : List Piece) (asked : ℕ) (seats : List Seat) (tracks : List Track) → Each3 (Attends S.state infos given asked false) seats tracks outlets.old.items
        → Each3 (Attends S.state infos given asked false) seats tracks outlets.new.items }
    ensures ready { OnOk result ((infos : List Info) (given : List Piece) (asked : ℕ) (seats : List Seat) (tracks : List Track) → AreInfos infos → IsInput infos p.now
        → Each3 (Attends S.state infos given asked false) seats tracks outlets.old.items → Each3 (IsReady S.state infos given asked p.now) seats tracks outlets.new.items) }
    ensures len { length outlets.new.items ≡ length outlets.old.items }
{
    match prepare_each(alloc, outlets.as_mut_slice(), info, p) {
        Ok(()) => Ok(()),
        Err(refused) => Err(refused),
    }
}

/// Each output gets what is left of a packet for it, in order.
pub fn give_all_out<S: Shelf, G: Gate, R: Wait>(
    rt: &R,
    gate: &G,
    outlets: &mut Vec<Outlet<S, G>>,
    p: &Packet,
)
    requires few { length outlets.old.items ≤ 16 }
    requires ready { (infos : List Info) × (given : List Piece) × (asked : ℕ) × (seats : List Seat) × (tracks : List Track)
        × Each3 (IsReady S.state infos given asked p.now) seats tracks outlets.old.items × (length given < 2 ^ 61) }
    ensures attend { (infos : List Info) (given : List Piece) (asked : ℕ) (seats : List Seat) (tracks : List Track)
        → Each3 (IsReady S.state infos given asked p.now) seats tracks outlets.old.items
        → Each3 (AttendsOn S.state infos (given ++ p.now ∷ []) asked (asked + 1)) seats tracks outlets.new.items }
    ensures len { length outlets.new.items ≡ length outlets.old.items }
{
    give_each(rt, gate, outlets.as_mut_slice(), p);
}

/// Asks each lane once.
pub fn ask_all<S: Shelf, G>(outlets: &mut Vec<Outlet<S, G>>)
    requires ready { (infos : List Info) × (given : List Piece) × (asked : ℕ) × (seats : List Seat) × (tracks : List Track)
        × Each3 (Attends S.state infos given asked false) seats tracks outlets.old.items × (asked < 2 ^ 63) }
    ensures attend { (infos : List Info) (given : List Piece) (asked : ℕ) (seats : List Seat) (tracks : List Track)
        → Each3 (Attends S.state infos given asked false) seats tracks outlets.old.items → Each3 (AttendsOn S.state infos given (asked + 1) (asked + 1)) seats tracks outlets.new.items }
    ensures len { length outlets.new.items ≡ length outlets.old.items }
{
    ask_each(outlets.as_mut_slice());
}

/// Whether an output that aborts, or every one, is known to be given up.
pub fn is_any_over<S: Shelf, G>(outlets: &[Outlet<S, G>]) -> bool
    ensures { (infos : List Info) (given : List Piece) (asked : ℕ) (seats : List Seat) (tracks : List Track) → Each3 (Attends S.state infos given asked false) seats tracks outlets.now
        → result ≡ stops (aborts seats) (known_deads seats tracks) }
{
    let mut all = true;
    for outlet in outlets {
        if !outlet.is_dead() {
            all = false;
        } else if outlet.aborts() {
            return true;
        }
    }
    all
}
