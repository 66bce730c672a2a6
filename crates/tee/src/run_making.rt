// The making of a run's outputs.
ghost use Rattle.std.specs.Prelude.{◌≡◌, ◌≤◌, [], ℕ, List, Option, All, None, Some, false, length, option_map, IfErr, IfOk};
ghost use Rattle.std.specs.List.{AllZip};
ghost use Rattle.options.specs.Slave.{Slave};
ghost use Rattle.options.specs.Valid.{IsValidPlan};
ghost use Rattle.options.specs.Words.{plan_view};
ghost use Rattle.rmx_media.specs.Streams.{AreInfos, IsScript};
ghost use Rattle.tee.specs.Berths.{IsBerth};
ghost use Rattle.tee.specs.None.{IsNoneFault};
ghost use Rattle.tee.specs.Seat.{AreSeats, Seat, first_without};

use crate::berth::{Berth, berths_of};
use crate::fault::{TeeFault, TeeRefused};
use crate::making::copies;
use crate::outlet::Outlet;
use crate::run::TeeRun;
use crate::run_feeding::is_any_over;
use crate::starting::open_each;
use bytes::Bytes;
use options::Plan;
use rmx_edge::{Gate, Shelf};
use rmx_media::{Items, NoMemory, StreamInfo};
use slave::{SlaveEnd, Spawner};
use std::alloc::Global;
use std::sync::{Arc, Wait};
use std::thread::Threads;

// The lists of a run, with places for all outputs and their ends.
#[derive(Drop)]
struct Lists<S: Shelf, G> {
    outlets: Items<Outlet<S, G>>,
    ends: Items<SlaveEnd<S>>,
    infos: Items<StreamInfo>,
}

impl<S: Shelf + Drop, G: Drop> Lists<S, G> {
    // Takes the memory.
    fn new(alloc: Global, infos: &[StreamInfo], count: usize) -> Result<Lists<S, G>, NoMemory>
        ensures outlets { IfOk result (λ lists. lists.outlets.items ≡ []) }
        ensures places { IfOk result (λ lists. count ≤ lists.outlets.spare) }
        ensures ends { IfOk result (λ lists. lists.ends.items ≡ []) }
        ensures end_places { IfOk result (λ lists. count ≤ lists.ends.spare) }
        ensures infos { IfOk result (λ lists. lists.infos.items ≡ infos.now) }
    {
        let mut outlets = Items::new(alloc);
        outlets.reserve(count)?;
        let mut ends = Items::new(alloc);
        ends.reserve(count)?;
        let infos = copies(alloc, infos)?;
        Ok(Lists {
            outlets,
            ends,
            infos,
        })
    }
}

impl<S: Shelf + Drop + Send + 'static, G: Gate + Drop + Send + Sync + 'static> TeeRun<S, G> {
    ghost use Rattle.tee.specs.RunKeeps.{IsCounted, KeepsRun, inlined, infos_of, spare_of, theres_of};

    /// The outputs of a plan, with a lane and a thread each where the plan says so. Output k gets shelf k. All memory is taken
    /// before the first call of a shelf and the first start. The reader writes an output whose start is refused.
    pub fn new<P: Spawner, R: Threads + Wait + AllocGlobal + Clone + Drop + Send + 'static>(
        rt: &R,
        alloc: Global,
        plan: &Plan,
        infos: &[StreamInfo],
        script: Option<&Bytes>,
        shelves: Vec<S>,
        gate: Arc<G>,
        spawner: &mut P,
    ) -> Result<TeeRun<S, G>, TeeRefused<S>>
        requires sixteen { length shelves.items ≡ 16 }
        requires idle { All (λ s. (S.state s).writing ≡ false) shelves.items }
        requires valid { IsValidPlan (plan_view plan.now) }
        requires infos { AreInfos infos.now }
        requires script { IsScript (option_map (λ body. body.now) script) }
        ensures made { IfOk result (λ t. (seats : List Seat)
            × AreSeats S.state infos.now (option_map (λ body. body.now) script.entry) (plan_view plan.now).slaves shelves.items seats (spare_of t) × KeepsRun S.state t seats []
            × IsCounted (inlined seats (theres_of t)) (P.refused spawner.old) (P.refused spawner.new)) }
        ensures infos { IfOk result (λ t. infos_of t ≡ infos.now) }
        ensures taken { IfOk result (λ t. first_without infos.now (plan_view plan.now).slaves ≡ None) }
        ensures back { IfErr result (λ r. r.shelves.items ≡ shelves.items) }
        ensures unasked { IfErr result (λ r. spawner.new ≡ spawner.old) }
        ensures none { IfErr result (λ r. IsNoneFault r.fault (first_without infos.now (plan_view plan.now).slaves)) }
    {
        let berths = match berths_of(alloc, plan.slaves.as_slice(), infos, script, &gate) {
            Ok(berths) => berths,
            Err(fault) => return Err(TeeRefused { fault, shelves }),
        };
        match Lists::new(alloc, infos, berths.len()) {
            Ok(lists) => Ok(TeeRun::open(rt, alloc, gate, spawner, berths, lists, shelves)),
            Err(_) => Err(TeeRefused {
                fault: TeeFault::NoMemory,
                shelves,
            }),
        }
    }

    // Opens the outputs.
    fn open<P: Spawner, R: Threads + Wait + AllocGlobal + Clone + Drop + Send + 'static>(
        rt: &R,
        alloc: Global,
        gate: Arc<G>,
        spawner: &mut P,
        berths: Vec<Berth<G>>,
        lists: Lists<S, G>,
        shelves: Vec<S>,
    ) -> TeeRun<S, G>
        requires berths { (script : Option (List ℕ)) × (plans : List Slave) × AllZip (IsBerth lists.infos.items script) plans berths.items }
        requires infos { AreInfos lists.infos.items }
        requires few { length berths.items ≤ 16 }
        requires enough { length berths.items ≤ length shelves.items }
        requires idle { All (λ s. (S.state s).writing ≡ false) shelves.items }
        requires none { lists.outlets.items ≡ [] }
        requires places { length berths.items ≤ lists.outlets.spare }
        requires none_ended { lists.ends.items ≡ [] }
        requires end_places { length berths.items ≤ lists.ends.spare }
        ensures made { (script : Option (List ℕ)) (plans : List Slave) → AllZip (IsBerth lists.infos.items script) plans berths.items
            → (seats : List Seat) × AreSeats S.state lists.infos.items script plans shelves.items seats (spare_of result) × KeepsRun S.state result seats []
            × IsCounted (inlined seats (theres_of result)) (P.refused spawner.old) (P.refused spawner.new) }
        ensures infos { infos_of result ≡ lists.infos.items }
    {
        let Lists {
            outlets,
            ends,
            infos,
        } = lists;
        let (outlets, spare) = open_each(rt, spawner, berths, Items::from_vec(shelves), outlets);
        let outlets = outlets.into_vec();
        let stopped = if is_any_over(outlets.as_slice()) {
            Some(0)
        } else {
            None
        };
        TeeRun {
            alloc,
            gate,
            outlets,
            infos,
            given: 0,
            stopped,
            spare,
            ends,
        }
    }
}
