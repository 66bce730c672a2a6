// One packet for all outputs.
ghost use Rattle.std.specs.Prelude.{◌≡◌, ◌≤◌, ◌<◌, ◌++◌, ◌∷◌, [], ◌^◌, List, length, OnOk};
ghost use Rattle.std.specs.List.{list_any};
ghost use Rattle.fifo_core.specs.History.{History};
ghost use Rattle.rmx_media.specs.Config.{kind_of};
ghost use Rattle.rmx_media.specs.Fits.{Fits};
ghost use Rattle.rmx_media.specs.Streams.{AreInfos, IsSound};
ghost use Rattle.rmx_media.specs.declared.packet.Format.TheVariants.{Flv};
ghost use Rattle.rmx_media.specs.declared.packet.Packet.{Packet};
ghost use Rattle.rmx_media.specs.declared.streams.MuxStreams.{MuxStreams};
ghost use Rattle.rmx_media.specs.declared.streams.StreamInfo.{StreamInfo as Info};
ghost use Rattle.tee.specs.Each.{Each3};
ghost use Rattle.tee.specs.Fails.{stops};
ghost use Rattle.tee.specs.Route.{AllFiltered, filters_in};
ghost use Rattle.tee.specs.Seat.{Seat, IsInput, aborts};
ghost use Rattle.tee.specs.Sits.{AllSit, AllSitOn, Passes, SitsOn, deads};

use crate::filter::Filtered;
use crate::output::TeeSlave;
use arrayvec::ArrayVec;
use rmx_edge::Shelf;
use rmx_media::{NoMemory, Packet, StreamInfo};
use std::alloc::Global;

/// Whether filters stand for the stream of that number at one of the outputs.
pub fn filters_any<S: Shelf>(slaves: &[TeeSlave<S>], stream: u32) -> bool
    ensures { result ≡ list_any (λ slave. filters_in slave.choice stream) slaves.now }
{
    slaves.iter().any(|slave| slave.choice.filters(stream))
}

/// Each output that takes a packet writes it. No filters stand for its stream.
pub fn pass_all<S: Shelf>(slaves: &mut [TeeSlave<S>], p: &Packet)
    requires number { p.now.stream < 2 }
    requires ready { (infos : List Info) × (given : List Packet) × (seats : List Seat) × (histories : List History)
        × Each3 (Passes S.state infos given p.now) seats histories slaves.old × (length given < 2 ^ 61) }
    ensures { (infos : List Info) (given : List Packet) (seats : List Seat) (histories : List History)
        → Each3 (Passes S.state infos given p.now) seats histories slaves.old → Each3 (SitsOn S.state infos (given ++ p.now ∷ [])) seats histories slaves.new }
{
    for slave in slaves.iter_mut() {
        slave.pass(p);
    }
}

/// What each output writes of a packet.
pub fn filter_all<S: Shelf>(
    alloc: Global,
    slaves: &[TeeSlave<S>],
    info: &StreamInfo,
    p: &Packet,
    filtered: &mut ArrayVec<Filtered, 16>,
) -> Result<(), NoMemory>
    requires few { length slaves.now ≤ 16 }
    requires none { filtered.old.items ≡ [] }
    requires info { IsSound info.now }
    requires kind { kind_of p.now.config ≡ info.now.kind }
    requires fits { (all : MuxStreams) × Fits Flv all p.now }
    requires number { p.now.stream < 2 }
    ensures { (infos : List Info) (given : List Packet) (seats : List Seat) (histories : List History) → AreInfos infos
        → AllSit S.state infos given seats histories slaves.now → IsInput infos p.now → OnOk result (AllFiltered seats p.now filtered.new.items) }
{
    for slave in slaves {
        filtered.push(slave.choice.filter(alloc, info, p)?);
    }
    Ok(())
}

/// Each output writes what was left of a packet for it.
pub fn give_all<S: Shelf>(slaves: &mut [TeeSlave<S>], p: &Packet, filtered: &[Filtered])
    requires few { length slaves.old ≤ 16 }
    requires ready { (infos : List Info) × (given : List Packet) × (seats : List Seat) × (histories : List History)
        × AllSit S.state infos given seats histories slaves.old × AllFiltered seats p.now filtered.now × (length given < 2 ^ 61) }
    ensures { (infos : List Info) (given : List Packet) (seats : List Seat) (histories : List History)
        → AllSit S.state infos given seats histories slaves.old → AllFiltered seats p.now filtered.now
        → AllSitOn S.state infos (given ++ p.now ∷ []) seats histories slaves.new }
{
    for (place, slave) in slaves.iter_mut().enumerate() {
        slave.give(p, &filtered[place]);
    }
}

/// Whether an output that aborts, or every one, was given up.
pub fn is_over<S: Shelf>(slaves: &[TeeSlave<S>]) -> bool
    requires { (infos : List Info) × (given : List Packet) × (seats : List Seat) × (histories : List History) × AllSit S.state infos given seats histories slaves.now }
    ensures { (infos : List Info) (given : List Packet) (seats : List Seat) (histories : List History)
        → AllSit S.state infos given seats histories slaves.now → result ≡ stops (aborts seats) (deads seats histories) }
{
    let mut all = true;
    for slave in slaves {
        if !slave.job.is_dead() {
            all = false;
        } else if slave.choice.abort {
            return true;
        }
    }
    all
}
