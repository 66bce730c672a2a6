// What starts workers.
ghost use Rattle.std.specs.Prelude.{◌≡◌, ◌≤◌, ◌+◌, ℕ, Bool, [], true, false, IfOk, IfErr, not};
ghost use Rattle.std.specs.Bool.{OnFalse};
ghost use Rattle.std.specs.Arc.{arc_value};
ghost use Rattle.fifo_core.specs.declared.types.FifoOptions.{FifoOptions};
ghost use Rattle.rmx_edge.specs.Count.{Rose, raised};
ghost use Rattle.slave.specs.Origin.{Origin};
ghost use Rattle.slave.specs.Fresh.{IsFresh};
ghost use Rattle.slave.specs.Job.{view_of};
ghost use Rattle.slave.specs.Begun.{IsBegun};
ghost use Rattle.slave.specs.Purpose.{IsFor};
ghost use Rattle.slave.specs.Task.{IsReady, task_of};

use crate::errand::{Errand, Start};
use crate::job::SlaveJob;
use crate::task::{Begun, Pledge, Running};
use lane::{Lane, Taker};
use rmx_edge::{Gate, Shelf};
use std::snapshot::Snapshot;
use std::sync::atomic::{AtomicU64, Ordering};
use std::sync::{Arc, Wait};
use std::thread;
use std::thread::Threads;

/// Says which starts of workers go on, and counts those that don't. The count never falls, and stands still at its end.
pub trait Spawner {
    ghost refused: { Self → ℕ };
    // whether the start goes on before which so many others come
    ghost goes: { Self → ℕ → Bool };

    /// Whether the next start goes on. Where it doesn't, it is counted.
    fn admits(&mut self) -> bool
        ensures never_falls { refused self.old ≤ refused self.new }
        ensures counted { OnFalse result (Rose (refused self.old) (refused self.new)) }
        ensures kept { result ≡ true → refused self.new ≡ refused self.old }
        ensures asked { result ≡ goes self.old 0 }
        ensures one_less { (n : ℕ) → goes self.new n ≡ goes self.old (n + 1) };

    /// Counts a start that failed.
    fn count_refused(&mut self)
        ensures never_falls { refused self.old ≤ refused self.new }
        ensures counted { Rose (refused self.old) (refused self.new) }
        ensures same { (n : ℕ) → goes self.new n ≡ goes self.old n };
}

/// Every start goes on.
#[derive(Drop)]
pub struct ThreadSpawner {
    refused: u64,
}

impl ThreadSpawner {
    /// A spawner that refused no start yet.
    pub fn new() -> ThreadSpawner
        ensures { result.refused ≡ 0 }
    {
        ThreadSpawner { refused: 0 }
    }

    /// How many starts were refused.
    pub fn refused_count(&self) -> u64
        ensures { result ≡ self.now.refused }
    {
        self.refused
    }
}

impl Spawner for ThreadSpawner {
    ghost refused = { λ s. s.refused };

    ghost goes = { λ s n. true };

    fn admits(&mut self) -> bool {
        true
    }

    fn count_refused(&mut self) {
        self.refused = self.refused.saturating_add(1);
    }
}

/// The listed starts, numbered from 0, don't go on.
#[derive(Drop)]
pub struct RefusingSpawner {
    starts: Vec<u64>,
    next: u64,
    refused: u64,
}

impl RefusingSpawner {
    /// A spawner that refuses these starts.
    pub fn new(starts: Vec<u64>) -> RefusingSpawner
        ensures { (result.refused ≡ 0) × (result.next ≡ 0) × (result.starts ≡ starts) }
    {
        RefusingSpawner {
            starts,
            next: 0,
            refused: 0,
        }
    }

    /// How many starts were refused.
    pub fn refused_count(&self) -> u64
        ensures { result ≡ self.now.refused }
    {
        self.refused
    }
}

impl Spawner for RefusingSpawner {
    ghost use Rattle.std.specs.Prelude.{◌==◌};
    ghost use Rattle.std.specs.List.{list_any};
    ghost use Rattle.slave.specs.Starts.{is_unlisted};

    ghost refused = { λ s. s.refused };

    ghost goes = { λ s n. is_unlisted s.starts.items s.next n };

    fn admits(&mut self) -> bool
        ensures never_falls { self.old.refused ≤ self.new.refused }
        ensures counted { OnFalse result (Rose self.old.refused self.new.refused) }
        ensures kept { result ≡ true → self.new.refused ≡ self.old.refused }
        ensures asked { result ≡ is_unlisted self.old.starts.items self.old.next 0 }
        ensures one_less { (n : ℕ) → is_unlisted self.new.starts.items self.new.next n ≡ is_unlisted self.old.starts.items self.old.next (n + 1) }
        ensures exact { result ≡ not (list_any (λ n. n == self.old.next) self.old.starts.items) }
        ensures numbered { (self.new.next ≡ raised self.old.next 1) × (self.new.starts ≡ self.old.starts) }
    {
        let goes = !self.starts.contains(&self.next);
        self.next = self.next.saturating_add(1);
        if !goes {
            self.count_refused();
        }
        goes
    }

    fn count_refused(&mut self)
        ensures never_falls { self.old.refused ≤ self.new.refused }
        ensures counted { Rose self.old.refused self.new.refused }
        ensures same { (n : ℕ) → is_unlisted self.new.starts.items self.new.next n ≡ is_unlisted self.old.starts.items self.old.next n }
        ensures numbered { (self.new.next ≡ self.old.next) × (self.new.starts ≡ self.old.starts) }
    {
        self.refused = self.refused.saturating_add(1);
    }
}

/// Starts a worker for an output, in a thread of its own. Where the start is refused, the job and the taker come back.
pub fn start<
    S: Shelf + Drop + Send + 'static,
    G: Gate + Drop + Send + Sync + 'static,
    P: Spawner,
    R: Threads + Wait + AllocGlobal + Clone + Drop + Send + 'static,
>(
    rt: &R,
    spawner: &mut P,
    job: SlaveJob<S>,
    lane: Arc<Lane>,
    taker: Taker,
    gate: Arc<G>,
    slave: u32,
) -> Result<Running<S, G>, (SlaveJob<S>, Taker)>
    requires ring { taker.ring ≡ (arc_value lane).ring }
    requires unused { (taker.got ≡ []) × (taker.numbers ≡ []) × (taker.failed ≡ false) × (taker.past ≡ []) }
    requires fresh { (g : Origin) × (o : FifoOptions) × IsFresh g o (view_of S.state job) × IsFor g taker.about }
    ensures ok { IfOk result (λ r. (r.job ≡ view_of S.state job) × (r.taker ≡ taker)) }
    ensures err { IfErr result (λ e. (e.0 ≡ job) × (e.1 ≡ taker) × Rose (P.refused spawner.old) (P.refused spawner.new)) }
    ensures never_falls { P.refused spawner.old ≤ P.refused spawner.new }
    ensures kept { IfOk result (λ r. P.refused spawner.new ≡ P.refused spawner.old) }
    ensures asked { IfOk result (λ r. P.goes spawner.old 0 ≡ true) }
    ensures one_less { (n : ℕ) → P.goes spawner.new n ≡ P.goes spawner.old (n + 1) }
{
    if !spawner.admits() {
        return Err((job, taker));
    }
    let errand = Errand {
        job,
        lane,
        taker,
        gate,
        slave,
    };
    match spawn(rt, errand) {
        Ok(running) => Ok(running),
        Err(errand) => {
            let Errand {
                job,
                lane: _,
                taker,
                gate: _,
                slave: _,
            } = errand;
            spawner.count_refused();
            Err((job, taker))
        }
    }
}

// Starts the thread. A refused start of the system hands back the closure, which then is called here: the word says to it that
// it is to give back what it holds.
fn spawn<
    S: Shelf + Drop + Send + 'static,
    G: Gate + Drop + Send + Sync + 'static,
    R: Threads + Wait + AllocGlobal + Clone + Drop + Send + 'static,
>(rt: &R, errand: Errand<S, G>) -> Result<Running<S, G>, Errand<S, G>>
    requires { IsReady S.state errand }
    ensures ok { IfOk result (λ r. r ≡ task_of S.state errand) }
    ensures err { IfErr result (λ e. e ≡ errand) }
{
    let Ok(word) = Arc::new(rt.alloc(), AtomicU64::new(1)) else {
        return Err(errand);
    };
    let Ok(theirs) = Arc::try_clone(&word) else {
        return Err(errand);
    };
    let Ok(there) = rt.clone() else {
        return Err(errand);
    };
    let pledge = Pledge(Snapshot::of(&errand));
    let ours = Pledge(Snapshot::of(&errand));
    let start = Start {
        errand,
        rt: there,
        word: theirs,
    };
    match thread::spawn_with(
        rt,
        pledge,
        move || -> Begun<S, G>
            requires { IsReady S.state start.errand }
            ensures { IsBegun S.state start.errand result }
        { start.begin() },
    ) {
        Ok(handle) => Ok(Running::thread(handle, ours)),
        Err(refused) => {
            word.store(0, Ordering::SeqCst);
            match (refused.value)() {
                Begun::Worked(end) => Ok(Running::ended(end, ours)),
                Begun::Back(errand) => Err(errand),
            }
        }
    }
}
