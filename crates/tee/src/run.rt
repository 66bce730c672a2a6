// All outputs of a run, some of which have threads of their own.
ghost use Rattle.std.specs.Prelude.{◌≡◌, ◌≤◌, ◌<◌, ◌+◌, ◌++◌, ◌∷◌, [], ◌^◌, ℕ, false, true, length, map, List, IfOk, OnErr, is_some};
ghost use Rattle.rmx_media.specs.declared.packet.Packet.{Packet as Piece};
ghost use Rattle.rmx_media.specs.declared.streams.StreamInfo.{StreamInfo as Info};
ghost use Rattle.tee.specs.Attends.{Attends};
ghost use Rattle.tee.specs.Each.{Each3};
ghost use Rattle.slave.specs.End.{end_view};
ghost use Rattle.tee.specs.Fails.{any_want, failed_slave, stops};
ghost use Rattle.tee.specs.Fed.{is_stop};
ghost use Rattle.tee.specs.Keeps.{stopped_with};
ghost use Rattle.tee.specs.Seat.{Seat, IsInput, aborts};
ghost use Rattle.tee.specs.Tracks.{Track, known_deads};

use crate::fed::Fed;
use crate::outlet::Outlet;
use crate::run_ending::{close_all, finish_each};
use crate::run_feeding::{ask_all, give_all_out, is_any_over, prepare_all};
use crate::tee::TeeEnd;
use rmx_edge::{Gate, Shelf};
use rmx_media::{Items, NoMemory, Packet, StreamInfo};
use slave::SlaveEnd;
use std::alloc::Global;
use std::mem;
use std::sync::{Arc, Wait};
use std::thread::Threads;

/// Outputs that are fed one packet after another. Those that ask for it have a lane and a thread of their own.
#[derive(Drop)]
pub struct TeeRun<S: Shelf, G> {
    pub(crate) alloc: Global,
    pub(crate) gate: Arc<G>,
    pub(crate) outlets: Vec<Outlet<S, G>>,
    pub(crate) infos: Items<StreamInfo>,
    pub(crate) given: u64,
    /// How many packets were given when an output that aborts, or every one, was first known to be dead.
    pub(crate) stopped: Option<u64>,
    pub(crate) spare: Items<S>,
    /// Places for the outputs' ends.
    pub(crate) ends: Items<SlaveEnd<S>>,
}

// What is known after so many packets, where the run is over or not.
fn stopped_at(stopped: Option<u64>, over: bool, given: u64) -> Option<u64>
    ensures { result ≡ stopped_with stopped over given }
{
    match stopped {
        Some(count) => Some(count),
        None => { if over { Some(given) } else { None } }
    }
}

fn fed_where(is_stopped: bool) -> Fed
    ensures { is_stop result ≡ is_stopped }
{
    if is_stopped { Fed::Stop } else { Fed::More }
}

impl<S: Shelf, G> TeeRun<S, G> {
    ghost use Rattle.tee.specs.RunKeeps.{KeepsRun, dead_in, infos_of, spare_of, theres_of};

    // Counts a packet that all outputs were given.
    fn count(&mut self) -> Fed
        requires few { self.old.given < 2 ^ 61 }
        ensures given { self.new.given ≡ self.old.given + 1 }
        ensures stopped { (infos : List Info) (given : List Piece) (asked : ℕ) (seats : List Seat) (tracks : List Track)
            → Each3 (Attends S.state infos given asked false) seats tracks self.old.outlets.items
            → self.new.stopped ≡ stopped_with self.old.stopped (stops (aborts seats) (known_deads seats tracks)) (self.old.given + 1) }
        ensures fed { is_stop result ≡ is_some self.new.stopped }
        ensures outlets { self.new.outlets ≡ self.old.outlets }
        ensures infos { self.new.infos ≡ self.old.infos }
        ensures spare { self.new.spare ≡ self.old.spare }
        ensures ends { self.new.ends ≡ self.old.ends }
    {
        self.given += 1;
        let over = is_any_over(self.outlets.as_slice());
        self.stopped = stopped_at(self.stopped, over, self.given);
        fed_where(self.stopped.is_some())
    }

    /// Takes the shelves that no output has; `finish` has none of them then.
    pub fn take_spare(&mut self) -> Items<S>
        ensures spare { result.items ≡ spare_of self.old }
        ensures left { spare_of self.new ≡ [] }
        ensures keeps { (seats : List Seat) (given : List Piece) → KeepsRun S.state self.old seats given → KeepsRun S.state self.new seats given }
        ensures infos { infos_of self.new ≡ infos_of self.old }
        ensures threads { theres_of self.new ≡ theres_of self.old }
        ensures dead { (u : ℕ) → dead_in self.new u ≡ dead_in self.old u }
    {
        mem::replace(&mut self.spare, Items::new(self.alloc))
    }
}

impl<S: Shelf, G: Gate> TeeRun<S, G> {
    ghost use Rattle.tee.specs.RunKeeps.{KeepsRun, dead_in, infos_of, spare_of, theres_of};

    /// Gives a packet to all outputs, and then asks each lane once. It filters for each of them first and makes room for what
    /// may be refused, so that where memory is refused no output was given anything. Stop says that an output that aborts, or
    /// every one, is known to be dead.
    pub fn feed<R: Wait>(&mut self, rt: &R, p: &Packet) -> Result<Fed, NoMemory>
        requires ready { (seats : List Seat) × (given : List Piece) × KeepsRun S.state self.old seats given × (length given < 2 ^ 61) }
        requires taken { IsInput (infos_of self.old) p.now }
        ensures fed { IfOk result (λ fed. (seats : List Seat) (given : List Piece) → KeepsRun S.state self.old seats given →
            KeepsRun S.state self.new seats (given ++ p.now ∷ [])
            × ((u : ℕ) → u ≤ length given → dead_in self.new u ≡ dead_in self.old u)
            × (dead_in self.new (length given + 1) ≡ is_stop fed)) }
        ensures infos { infos_of self.new ≡ infos_of self.old }
        ensures spare { spare_of self.new ≡ spare_of self.old }
        ensures threads { theres_of self.new ≡ theres_of self.old }
        ensures kept { OnErr result ((seats : List Seat) (given : List Piece) → KeepsRun S.state self.old seats given → KeepsRun S.state self.new seats given) }
        ensures dead { OnErr result ((u : ℕ) → dead_in self.new u ≡ dead_in self.old u) }
    {
        let info = &self.infos.as_slice()[p.stream as usize];
        match prepare_all(self.alloc, &mut self.outlets, info, p) {
            Ok(()) => {}
            Err(refused) => return Err(refused),
        }
        give_all_out(rt, &*self.gate, &mut self.outlets, p);
        ask_all(&mut self.outlets);
        Ok(self.count())
    }
}

impl<S: Shelf + Drop, G: Gate + Drop> TeeRun<S, G> {
    ghost use Rattle.tee.specs.RunEnds.{EndsAllRun, EndsShort, inline_ends};
    ghost use Rattle.tee.specs.RunKeeps.{KeepsRun, dead_in, inlined, spare_of, theres_of};

    /// Closes every lane, and ends all outputs; their threads are waited for.
    pub fn finish<R: Threads + Wait>(self, rt: &R) -> TeeEnd<S>
        requires kept { (seats : List Seat) × (given : List Piece) × KeepsRun S.state self seats given }
        ensures ends { (seats : List Seat) (given : List Piece) → KeepsRun S.state self seats given → EndsAllRun seats given (dead_in self) (map (end_view S.state) result.ends.items) }
        // Where an output that aborts, or every one, was known to be dead and no output wanted memory, one failed that ends the run.
        ensures failed { (u : ℕ) → dead_in self u ≡ true → (seats : List Seat) (given : List Piece) → KeepsRun S.state self seats given
            → any_want (map (λ e. e.state) result.ends.items) ≡ false → is_some (failed_slave (aborts seats) (map (λ e. e.state) result.ends.items)) ≡ true }
        ensures inline { (seats : List Seat) (given : List Piece) → KeepsRun S.state self seats given → inline_ends (map (end_view S.state) result.ends.items) ≡ inlined seats (theres_of self) }
        ensures spare { result.spare.items ≡ spare_of self }
        // The end is short exactly where memory was wanted for the refusals of a lane, so that none of them was entered.
        ensures unentered { (seats : List Seat) (given : List Piece) → KeepsRun S.state self seats given
            → EndsShort seats given (dead_in self) (map (end_view S.state) result.ends.items) result.short }
        ensures short { result.short ≡ true → any_want (map (λ e. e.state) result.ends.items) ≡ true }
    {
        let TeeRun {
            alloc,
            gate: _,
            outlets,
            infos: _,
            given: _,
            stopped: _,
            spare,
            ends,
        } = self;
        let mut outlets = outlets;
        close_all(&mut outlets);
        let (ends, short) = finish_each(rt, alloc, outlets, ends);
        TeeEnd { ends, spare, short }
    }
}
