// All outputs of a run.
ghost use Rattle.std.specs.Prelude.{◌≡◌, ◌≤◌, ◌<◌, ◌+◌, ◌++◌, ◌∷◌, [], ◌^◌, ℕ, true, false, length, map, option_map, All, List, Option, None, Some, IfErr, IfOk, OnErr, OnOk, is_some};
ghost use Rattle.std.specs.List.{AllZip, list_any};
ghost use Rattle.fifo_core.specs.History.{History};
ghost use Rattle.rmx_media.specs.declared.packet.Packet.{Packet};
ghost use Rattle.rmx_media.specs.declared.streams.StreamInfo.{StreamInfo as Info};
ghost use Rattle.options.specs.Slave.{Slave};
ghost use Rattle.options.specs.Valid.{IsValidPlan};
ghost use Rattle.options.specs.Words.{plan_view};
ghost use Rattle.rmx_media.specs.Streams.{AreInfos, IsScript};
ghost use Rattle.slave.specs.End.{end_view};
ghost use Rattle.tee.specs.Ends.{EndsAll};
ghost use Rattle.tee.specs.Fails.{any_want, failed_slave, stops};
ghost use Rattle.tee.specs.Fed.{is_stop};
ghost use Rattle.tee.specs.None.{IsNoneFault};
ghost use Rattle.tee.specs.Seat.{AreSeats, Seat, IsInput, aborts, first_without};
ghost use Rattle.tee.specs.Route.{AllFiltered, filters_in};
ghost use Rattle.tee.specs.Sits.{AllSit, AllSitOn, deads};

use crate::draft::Draft;
use crate::ending::end_all;
use crate::fault::{TeeFault, TeeRefused};
use crate::fed::Fed;
use crate::feeding::{filter_all, filters_any, give_all, is_over, pass_all};
use crate::filter::Filtered;
use crate::making::{Room, drafts_of, open_all};
use crate::output::TeeSlave;
use arrayvec::ArrayVec;
use bytes::Bytes;
use options::Plan;
use rmx_edge::Shelf;
use rmx_media::{Items, NoMemory, Packet, StreamInfo};
use slave::SlaveEnd;
use std::alloc::Global;
use std::mem;

/// Outputs that are fed one packet after another.
#[derive(Drop)]
pub struct Tee<S: Shelf> {
    pub(crate) alloc: Global,
    pub(crate) slaves: Vec<TeeSlave<S>>,
    pub(crate) infos: Items<StreamInfo>,
    pub(crate) given: u64,
    /// How many packets were given when an output that aborts, or every one, was first known to be dead.
    pub(crate) stopped: Option<u64>,
    pub(crate) spare: Items<S>,
    /// Places for the outputs' ends.
    pub(crate) ends: Items<SlaveEnd<S>>,
}

/// What a tee leaves.
#[derive(Drop)]
pub struct TeeEnd<S> {
    pub ends: Items<SlaveEnd<S>>,
    pub spare: Items<S>,
    /// A refusal at a full lane could not be recorded for want of memory.
    pub short: bool,
}

impl<S: Shelf> Tee<S> {
    ghost use Rattle.tee.specs.Keeps.{Keeps, SameBut, dead_in, infos_of, spare_of, stopped_with};

    // Each output writes what was left of a packet for it.
    fn give(&mut self, p: &Packet, filtered: &[Filtered])
        requires few { length self.old.slaves.items ≤ 16 }
        requires ready { (infos : List Info) × (given : List Packet) × (seats : List Seat) × (histories : List History)
            × AllSit S.state infos given seats histories self.old.slaves.items × AllFiltered seats p.now filtered.now × (length given < 2 ^ 61) }
        ensures sit { (infos : List Info) (given : List Packet) (seats : List Seat) (histories : List History)
            → AllSit S.state infos given seats histories self.old.slaves.items → AllFiltered seats p.now filtered.now
            → AllSitOn S.state infos (given ++ p.now ∷ []) seats histories self.new.slaves.items }
        ensures same { SameBut self.old self.new }
    {
        give_all(self.slaves.as_mut_slice(), p, filtered);
    }

    // Each output that takes a packet writes it. No filters stand for its stream.
    fn pass(&mut self, p: &Packet)
        requires number { p.now.stream < 2 }
        requires plain { list_any (λ slave. filters_in slave.choice p.now.stream) self.old.slaves.items ≡ false }
        requires ready { (infos : List Info) × (given : List Packet) × (seats : List Seat) × (histories : List History)
            × AllSit S.state infos given seats histories self.old.slaves.items × IsInput infos p.now × (length given < 2 ^ 61) }
        ensures sit { (infos : List Info) (given : List Packet) (seats : List Seat) (histories : List History)
            → AllSit S.state infos given seats histories self.old.slaves.items → IsInput infos p.now
            → AllSitOn S.state infos (given ++ p.now ∷ []) seats histories self.new.slaves.items }
        ensures same { SameBut self.old self.new }
    {
        pass_all(self.slaves.as_mut_slice(), p);
    }

    // Gives a packet to all outputs. Where filters stand for its stream it is filtered for each output first, so a refusal of
    // memory changes nothing.
    fn hand(&mut self, p: &Packet) -> Result<(), NoMemory>
        requires few { length self.old.slaves.items ≤ 16 }
        requires infos { AreInfos (infos_of self.old) }
        requires taken { IsInput (infos_of self.old) p.now }
        requires ready { (given : List Packet) × (seats : List Seat) × (histories : List History)
            × AllSit S.state (infos_of self.old) given seats histories self.old.slaves.items × (length given < 2 ^ 61) }
        ensures sit { OnOk result ((given : List Packet) (seats : List Seat) (histories : List History)
            → AllSit S.state (infos_of self.old) given seats histories self.old.slaves.items
            → AllSitOn S.state (infos_of self.old) (given ++ p.now ∷ []) seats histories self.new.slaves.items) }
        ensures same { SameBut self.old self.new }
        ensures err { OnErr result (self.new ≡ self.old) }
    {
        if !filters_any(self.slaves.as_slice(), p.stream) {
            self.pass(p);
            return Ok(());
        }
        let mut filtered = ArrayVec::new();
        filter_all(
            self.alloc,
            self.slaves.as_slice(),
            &self.infos.as_slice()[p.stream as usize],
            p,
            &mut filtered,
        )?;
        self.give(p, filtered.as_slice());
        Ok(())
    }

    // Counts a packet that all outputs were given.
    fn count(&mut self) -> Fed
        requires few { self.old.given < 2 ^ 61 }
        requires sit { (infos : List Info) × (given : List Packet) × (seats : List Seat) × (histories : List History) × AllSit S.state infos given seats histories self.old.slaves.items }
        ensures given { self.new.given ≡ self.old.given + 1 }
        ensures stopped { (infos : List Info) (given : List Packet) (seats : List Seat) (histories : List History)
            → AllSit S.state infos given seats histories self.old.slaves.items
            → self.new.stopped ≡ stopped_with self.old.stopped (stops (aborts seats) (deads seats histories)) (self.old.given + 1) }
        ensures fed { is_stop result ≡ is_some self.new.stopped }
        ensures slaves { self.new.slaves ≡ self.old.slaves }
        ensures infos { self.new.infos ≡ self.old.infos }
        ensures spare { self.new.spare ≡ self.old.spare }
        ensures ends { self.new.ends ≡ self.old.ends }
    {
        self.given += 1;
        if self.stopped.is_none() && is_over(self.slaves.as_slice()) {
            self.stopped = Some(self.given);
        }
        if self.stopped.is_some() {
            Fed::Stop
        } else {
            Fed::More
        }
    }

    /// Gives a packet to all outputs. It filters for each of them first, so a refusal of memory changes nothing. Stop says
    /// that an output that aborts, or every one, is dead.
    pub fn feed(&mut self, p: &Packet) -> Result<Fed, NoMemory>
        requires ready { (seats : List Seat) × (given : List Packet) × Keeps S.state self.old seats given × (length given < 2 ^ 61) }
        requires taken { IsInput (infos_of self.old) p.now }
        ensures fed { IfOk result (λ fed. (seats : List Seat) (given : List Packet) → Keeps S.state self.old seats given →
            Keeps S.state self.new seats (given ++ p.now ∷ [])
            × ((u : ℕ) → u ≤ length given → dead_in self.new u ≡ dead_in self.old u)
            × (dead_in self.new (length given + 1) ≡ is_stop fed)) }
        ensures infos { infos_of self.new ≡ infos_of self.old }
        ensures spare { spare_of self.new ≡ spare_of self.old }
        ensures err { OnErr result (self.new ≡ self.old) }
    {
        self.hand(p)?;
        Ok(self.count())
    }

    /// Takes the shelves that no output has; `finish` has none of them then.
    pub fn take_spare(&mut self) -> Items<S>
        ensures spare { result.items ≡ spare_of self.old }
        ensures left { spare_of self.new ≡ [] }
        ensures keeps { (seats : List Seat) (given : List Packet) → Keeps S.state self.old seats given → Keeps S.state self.new seats given }
        ensures infos { infos_of self.new ≡ infos_of self.old }
        ensures dead { (u : ℕ) → dead_in self.new u ≡ dead_in self.old u }
    {
        mem::replace(&mut self.spare, Items::new(self.alloc))
    }
}

impl<S: Shelf + Drop> Tee<S> {
    ghost use Rattle.tee.specs.Draft.{IsDraft};
    ghost use Rattle.tee.specs.Keeps.{Keeps, dead_in, infos_of, spare_of};

    /// A tee of the outputs of a plan. Output k gets shelf k, and all memory is taken before the first call of a shelf.
    pub fn new(
        alloc: Global,
        plan: &Plan,
        infos: &[StreamInfo],
        script: Option<&Bytes>,
        shelves: Vec<S>,
    ) -> Result<Tee<S>, TeeRefused<S>>
        requires sixteen { length shelves.items ≡ 16 }
        requires idle { All (λ s. (S.state s).writing ≡ false) shelves.items }
        requires valid { IsValidPlan (plan_view plan.now) }
        requires infos { AreInfos infos.now }
        requires script { IsScript (option_map (λ body. body.now) script) }
        ensures made { IfOk result (λ t. (seats : List Seat)
            × AreSeats S.state infos.now (option_map (λ body. body.now) script.entry) (plan_view plan.now).slaves shelves.items seats (spare_of t) × Keeps S.state t seats []) }
        ensures infos { IfOk result (λ t. infos_of t ≡ infos.now) }
        ensures taken { IfOk result (λ t. first_without infos.now (plan_view plan.now).slaves ≡ None) }
        ensures back { IfErr result (λ r. r.shelves.items ≡ shelves.items) }
        ensures none { IfErr result (λ r. IsNoneFault r.fault (first_without infos.now (plan_view plan.now).slaves)) }
    {
        let drafts = match drafts_of(alloc, plan.slaves.as_slice(), infos, script) {
            Ok(drafts) => drafts,
            Err(fault) => return Err(TeeRefused { fault, shelves }),
        };
        match Room::new(alloc, infos, drafts.len()) {
            Ok(room) => Ok(Tee::open(alloc, drafts, room, shelves)),
            Err(_) => Err(TeeRefused {
                fault: TeeFault::NoMemory,
                shelves,
            }),
        }
    }

    // Opens the outputs.
    fn open(alloc: Global, drafts: Vec<Draft>, room: Room<S>, shelves: Vec<S>) -> Tee<S>
        requires drafts { (script : Option (List ℕ)) × (plans : List Slave) × AllZip (IsDraft room.infos.items script) plans drafts.items }
        requires infos { AreInfos room.infos.items }
        requires few { length drafts.items ≤ 16 }
        requires enough { length drafts.items ≤ length shelves.items }
        requires idle { All (λ s. (S.state s).writing ≡ false) shelves.items }
        requires none { room.slaves.items ≡ [] }
        requires places { length drafts.items ≤ room.slaves.spare }
        requires none_ended { room.ends.items ≡ [] }
        requires end_places { length drafts.items ≤ room.ends.spare }
        ensures made { (script : Option (List ℕ)) (plans : List Slave) → AllZip (IsDraft room.infos.items script) plans drafts.items
            → (seats : List Seat) × AreSeats S.state room.infos.items script plans shelves.items seats (spare_of result) × Keeps S.state result seats [] }
        ensures infos { infos_of result ≡ room.infos.items }
    {
        let Room {
            slaves,
            ends,
            infos,
        } = room;
        let (slaves, spare) = open_all(drafts, Items::from_vec(shelves), slaves);
        let slaves = slaves.into_vec();
        let stopped = if is_over(slaves.as_slice()) {
            Some(0)
        } else {
            None
        };
        Tee {
            alloc,
            slaves,
            infos,
            given: 0,
            stopped,
            spare,
            ends,
        }
    }

    /// Ends all outputs.
    pub fn finish(self) -> TeeEnd<S>
        requires kept { (seats : List Seat) × (given : List Packet) × Keeps S.state self seats given }
        ensures ends { (seats : List Seat) (given : List Packet) → Keeps S.state self seats given → EndsAll seats given (dead_in self) (map (end_view S.state) result.ends.items) }
        // Where an output that aborts, or every one, was dead and no output wanted memory, one failed that ends the run.
        ensures failed { (u : ℕ) → dead_in self u ≡ true → (seats : List Seat) (given : List Packet) → Keeps S.state self seats given
            → any_want (map (λ e. e.state) result.ends.items) ≡ false → is_some (failed_slave (aborts seats) (map (λ e. e.state) result.ends.items)) ≡ true }
        ensures spare { result.spare.items ≡ spare_of self }
        ensures short { result.short ≡ false }
    {
        let Tee {
            alloc: _,
            slaves,
            infos: _,
            given: _,
            stopped: _,
            spare,
            ends,
        } = self;
        TeeEnd {
            ends: end_all(slaves, ends),
            spare,
            short: false,
        }
    }
}
