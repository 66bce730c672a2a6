// All memory of a tee, and its outputs' opening.
ghost use Rattle.std.specs.Prelude.{◌≡◌, ◌≤◌, [], ℕ, List, Option, All, false, length, map, option_map, IfErr, IfOk, IfSome, None, Some};
ghost use Rattle.std.specs.List.{AllZip};
ghost use Rattle.options.specs.Slave.{Slave, view};
ghost use Rattle.options.specs.Valid.{IsValid};
ghost use Rattle.rmx_media.specs.Streams.{AreInfos, IsScript};
ghost use Rattle.rmx_media.specs.declared.streams.StreamInfo.{StreamInfo as Info};
ghost use Rattle.tee.specs.Draft.{AreOpen, IsDraft};
ghost use Rattle.tee.specs.None.{none_in};
ghost use Rattle.tee.specs.Seat.{first_without};

use crate::draft::Draft;
use crate::fault::TeeFault;
use crate::output::TeeSlave;
use bytes::Bytes;
use options::SlavePlan;
use rmx_edge::Shelf;
use rmx_media::{Items, NoMemory, StreamInfo};
use slave::SlaveEnd;
use std::alloc::Global;

/// The outputs of these plans before they have their shelves, or the first fault.
pub fn drafts_of(
    alloc: Global,
    slaves: &[SlavePlan],
    infos: &[StreamInfo],
    script: Option<&Bytes>,
) -> Result<Vec<Draft>, TeeFault>
    requires few { length slaves.now ≤ 16 }
    requires valid { All IsValid (map view slaves.now) }
    requires infos { AreInfos infos.now }
    requires script { IsScript (option_map (λ body. body.now) script) }
    ensures made { IfOk result (λ drafts. AllZip (IsDraft infos.now (option_map (λ body. body.now) script.entry)) (map view slaves.now) drafts.items) }
    ensures taken { IfOk result (λ drafts. first_without infos.now (map view slaves.now) ≡ None) }
    ensures none { IfErr result (λ fault. IfSome (none_in fault) (λ slave. first_without infos.now (map view slaves.now) ≡ Some slave)) }
{
    let mut drafts = Vec::new(alloc);
    for (number, plan) in slaves.iter().enumerate() {
        let draft = Draft::new(alloc, number as u32, plan, infos, script)?;
        match drafts.push(draft) {
            Ok(()) => {}
            Err(_) => return Err(TeeFault::NoMemory),
        }
    }
    Ok(drafts)
}

/// The lists that a tee keeps, with places for all outputs and their ends.
#[derive(Drop)]
pub struct Room<S: Shelf> {
    pub slaves: Items<TeeSlave<S>>,
    pub ends: Items<SlaveEnd<S>>,
    pub infos: Items<StreamInfo>,
}

/// The same streams.
pub fn copies(alloc: Global, infos: &[StreamInfo]) -> Result<Items<StreamInfo>, NoMemory>
    ensures { IfOk result (λ copies. copies.items ≡ infos.now) }
{
    let mut copies = Vec::new(alloc);
    for info in infos {
        match copies.push(info.copy()?) {
            Ok(()) => {}
            Err(_) => return Err(NoMemory),
        }
    }
    Ok(Items::from_vec(copies))
}

impl<S: Shelf + Drop> Room<S> {
    /// Takes the memory.
    pub fn new(alloc: Global, infos: &[StreamInfo], count: usize) -> Result<Room<S>, NoMemory>
        ensures slaves { IfOk result (λ room. room.slaves.items ≡ []) }
        ensures places { IfOk result (λ room. count ≤ room.slaves.spare) }
        ensures ends { IfOk result (λ room. room.ends.items ≡ []) }
        ensures end_places { IfOk result (λ room. count ≤ room.ends.spare) }
        ensures infos { IfOk result (λ room. room.infos.items ≡ infos.now) }
    {
        let mut slaves = Items::new(alloc);
        slaves.reserve(count)?;
        let mut ends = Items::new(alloc);
        ends.reserve(count)?;
        let infos = copies(alloc, infos)?;
        Ok(Room {
            slaves,
            ends,
            infos,
        })
    }
}

/// Opens each output on the shelf at its place. The others are left.
pub fn open_all<S: Shelf>(
    drafts: Vec<Draft>,
    mut shelves: Items<S>,
    mut slaves: Items<TeeSlave<S>>,
) -> (Items<TeeSlave<S>>, Items<S>)
    requires drafts { (infos : List Info) × (script : Option (List ℕ)) × (plans : List Slave) × AllZip (IsDraft infos script) plans drafts.items }
    requires idle { All (λ s. (S.state s).writing ≡ false) shelves.items }
    requires enough { length drafts.items ≤ length shelves.items }
    requires none { slaves.items ≡ [] }
    requires room { length drafts.items ≤ slaves.spare }
    ensures open { (infos : List Info) (script : Option (List ℕ)) (plans : List Slave) → AllZip (IsDraft infos script) plans drafts.items
        → AreOpen S.state infos script plans shelves.items result.0.items result.1.items }
    ensures len { length result.0.items ≡ length drafts.items }
{
    for draft in drafts {
        slaves.push(TeeSlave::open(draft, shelves.take_first()));
    }
    (slaves, shelves)
}
