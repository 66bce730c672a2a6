// What a worker is given.
use crate::job::SlaveJob;
use crate::run::{WorkEnd, work};
use crate::task::Begun;
use lane::{Lane, Taker};
use rmx_edge::{Gate, Shelf};
use std::sync::atomic::{AtomicU64, Ordering};
use std::sync::{Arc, Wait};

/// What a worker is given.
#[derive(Drop)]
pub(crate) struct Errand<S: Shelf, G> {
    pub(crate) job: SlaveJob<S>,
    pub(crate) lane: Arc<Lane>,
    pub(crate) taker: Taker,
    pub(crate) gate: Arc<G>,
    pub(crate) slave: u32,
}

impl<S: Shelf + Drop, G: Gate + Drop> Errand<S, G> {
    ghost use Rattle.slave.specs.Job.{view_of};
    ghost use Rattle.slave.specs.Task.{IsReady};
    ghost use Rattle.slave.specs.Worked.{Worked};

    pub(crate) fn work<R: Wait>(self, rt: &R) -> WorkEnd<S>
        requires { IsReady S.state self }
        ensures { Worked S.state (view_of S.state self.job) self.taker result }
    {
        let Errand {
            job,
            lane,
            taker,
            gate,
            slave,
        } = self;
        work(rt, job, lane, taker, gate, slave)
    }
}

/// What a worker's thread takes with it.
#[derive(Drop)]
pub(crate) struct Start<S: Shelf, G, R> {
    pub(crate) errand: Errand<S, G>,
    pub(crate) rt: R,
    pub(crate) word: Arc<AtomicU64>,
}

impl<S: Shelf + Drop, G: Gate + Drop, R: Wait + Drop> Start<S, G, R> {
    ghost use Rattle.slave.specs.Begun.{IsBegun};
    ghost use Rattle.slave.specs.Task.{IsReady};

    /// Works where the word is 1.
    pub(crate) fn begin(self) -> Begun<S, G>
        requires { IsReady S.state self.errand }
        ensures { IsBegun S.state self.errand result }
    {
        let Start { errand, rt, word } = self;
        if word.load(Ordering::SeqCst) == 1 {
            Begun::Worked(errand.work(&rt))
        } else {
            Begun::Back(errand)
        }
    }
}
