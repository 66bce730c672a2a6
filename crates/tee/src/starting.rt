// The opening of a run's outputs.
ghost use Rattle.std.specs.Prelude.{◌≡◌, ◌≤◌, ◌<◌, [], ℕ, List, Option, All, false, true, length};
ghost use Rattle.std.specs.List.{AllZip};
ghost use Rattle.fifo_core.specs.declared.types.FifoOptions.{FifoOptions};
ghost use Rattle.options.specs.Slave.{Slave};
ghost use Rattle.rmx_edge.specs.Count.{Rose};
ghost use Rattle.rmx_media.specs.declared.streams.StreamInfo.{StreamInfo as Info};
ghost use Rattle.slave.specs.Fresh.{IsFresh};
ghost use Rattle.slave.specs.Job.{view_of};
ghost use Rattle.slave.specs.Origin.{Origin};
ghost use Rattle.slave.specs.Table.{Keeps};
ghost use Rattle.tee.specs.Berths.{AreOpenOn, IsBerth, IsOpenOn, inlines, is_inline};
ghost use Rattle.tee.specs.Draft.{IsDraft};
ghost use Rattle.tee.specs.LaneKits.{IsLaneKit};
ghost use Rattle.tee.specs.RunKeeps.{IsCounted};

use crate::berth::Berth;
use crate::choice::Choice;
use crate::draft::Draft;
use crate::filter::Filtered;
use crate::lanes::LaneKit;
use crate::outlet::Outlet;
use crate::output::TeeSlave;
use crate::sender::Sender;
use rmx_edge::{Gate, Shelf};
use rmx_media::Items;
use slave::{SlaveJob, Spawner, start};
use std::sync::Wait;
use std::thread::Threads;

// Opens an output whose thread was refused.
fn open_here<S: Shelf>(job: SlaveJob<S>, choice: Choice) -> TeeSlave<S>
    requires fresh { (g : Origin) × (o : FifoOptions) × IsFresh g o (view_of S.state job) }
    ensures keeps { (g : Origin) (o : FifoOptions) → IsFresh g o (view_of S.state job) → Keeps g o [] (view_of S.state result.job) }
    ensures same { (result.choice ≡ choice) × (result.count ≡ 0) }
{
    let mut job = job;
    job.start();
    TeeSlave {
        job,
        count: 0,
        choice,
    }
}

// Opens an output on a shelf, in a thread of its own. Where no thread can be started, the reader writes it.
fn open_there<
    S: Shelf + Drop + Send + 'static,
    G: Gate + Drop + Send + Sync + 'static,
    P: Spawner,
    R: Threads + Wait + AllocGlobal + Clone + Drop + Send + 'static,
>(rt: &R, spawner: &mut P, draft: Draft, kit: LaneKit<G>, shelf: S, number: u32) -> Outlet<S, G>
    requires idle { (S.state shelf).writing ≡ false }
    requires ready { (infos : List Info) × (script : Option (List ℕ)) × (s : Slave) × IsDraft infos script s draft × IsLaneKit infos s kit × (s.fifo.use_fifo ≡ true) }
    ensures open { (infos : List Info) (script : Option (List ℕ)) (s : Slave) → IsDraft infos script s draft → IsLaneKit infos s kit → s.fifo.use_fifo ≡ true
        → IsOpenOn S.state infos script s shelf result }
    ensures never_falls { P.refused spawner.old ≤ P.refused spawner.new }
    ensures counted { is_inline result ≡ true → Rose (P.refused spawner.old) (P.refused spawner.new) }
{
    let Draft { kit: slave, choice } = draft;
    let LaneKit {
        lane,
        theirs,
        giver,
        taker,
        gate,
        receipts,
        cap,
        drops,
    } = kit;
    let job = SlaveJob::with_kit(slave, shelf);
    match start(rt, spawner, job, theirs, taker, gate, number) {
        Ok(running) => {
            let sender = Sender {
                lane,
                giver,
                receipts,
                choice,
                left: None,
                count: 0,
                cap,
                drops,
                failed: false,
            };
            Outlet::There(sender, running)
        }
        Err((job, _taker)) => Outlet::Here(open_here(job, choice), true, Filtered::Dropped),
    }
}

// Opens an output on a shelf.
fn open<
    S: Shelf + Drop + Send + 'static,
    G: Gate + Drop + Send + Sync + 'static,
    P: Spawner,
    R: Threads + Wait + AllocGlobal + Clone + Drop + Send + 'static,
>(rt: &R, spawner: &mut P, berth: Berth<G>, shelf: S, number: u32) -> Outlet<S, G>
    requires idle { (S.state shelf).writing ≡ false }
    requires ready { (infos : List Info) × (script : Option (List ℕ)) × (s : Slave) × IsBerth infos script s berth }
    ensures open { (infos : List Info) (script : Option (List ℕ)) (s : Slave) → IsBerth infos script s berth → IsOpenOn S.state infos script s shelf result }
    ensures never_falls { P.refused spawner.old ≤ P.refused spawner.new }
    ensures counted { is_inline result ≡ true → Rose (P.refused spawner.old) (P.refused spawner.new) }
{
    let Berth { draft, lane } = berth;
    match lane {
        None => Outlet::Here(TeeSlave::open(draft, shelf), false, Filtered::Dropped),
        Some(kit) => open_there(rt, spawner, draft, kit, shelf, number),
    }
}

/// Opens each output on the shelf at its place. The others are left.
pub fn open_each<
    S: Shelf + Drop + Send + 'static,
    G: Gate + Drop + Send + Sync + 'static,
    P: Spawner,
    R: Threads + Wait + AllocGlobal + Clone + Drop + Send + 'static,
>(
    rt: &R,
    spawner: &mut P,
    berths: Vec<Berth<G>>,
    shelves: Items<S>,
    outlets: Items<Outlet<S, G>>,
) -> (Items<Outlet<S, G>>, Items<S>)
    requires berths { (infos : List Info) × (script : Option (List ℕ)) × (plans : List Slave) × AllZip (IsBerth infos script) plans berths.items }
    requires few { length berths.items ≤ 16 }
    requires idle { All (λ s. (S.state s).writing ≡ false) shelves.items }
    requires enough { length berths.items ≤ length shelves.items }
    requires none { outlets.items ≡ [] }
    requires room { length berths.items ≤ outlets.spare }
    ensures open { (infos : List Info) (script : Option (List ℕ)) (plans : List Slave) → AllZip (IsBerth infos script) plans berths.items
        → AreOpenOn S.state infos script plans shelves.items result.0.items result.1.items }
    ensures len { length result.0.items ≡ length berths.items }
    ensures counted { IsCounted (inlines result.0.items) (P.refused spawner.old) (P.refused spawner.new) }
{
    let mut shelves = shelves;
    let mut outlets = outlets;
    let mut number = 0;
    for berth in berths {
        let outlet = open(rt, spawner, berth, shelves.take_first(), number);
        outlets.push(outlet);
        number += 1;
    }
    (outlets, shelves)
}
