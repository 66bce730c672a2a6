// A worker that was started.
ghost use Rattle.std.specs.Prelude.{◌≡◌};
ghost use Rattle.slave.specs.Begun.{IsBegun};
ghost use Rattle.slave.specs.Job.{view_of};
ghost use Rattle.slave.specs.Task.{IsReady, task_of};
ghost use Rattle.slave.specs.Worked.{Worked};

use crate::errand::Errand;
use crate::run::WorkEnd;
use rmx_edge::{Gate, Shelf};
use std::marker::Model;
use std::snapshot::Snapshot;
use std::sync::Wait;
use std::thread::{Promise, PromisedHandle, Threads};

/// What a worker's thread answers: that it worked, or what it was given.
#[derive(Drop)]
pub(crate) enum Begun<S: Shelf, G> {
    Worked(WorkEnd<S>),
    Back(Errand<S, G>),
}

/// What it was given, for the promise of its answer.
#[derive(Drop)]
pub(crate) struct Pledge<S: Shelf, G>(pub(crate) Snapshot<Errand<S, G>>);

impl<S: Shelf, G> Promise<Begun<S, G>> for Pledge<S, G> {
    ghost kept_by = { λ p r. IsBegun S.state p.0.value r };
}

#[derive(Drop)]
pub(crate) enum Body<S: Shelf, G> {
    Thread(PromisedHandle<Begun<S, G>, Pledge<S, G>>),
    Ended(WorkEnd<S>),
}

/// A worker that was started. Contracts see its job and its taker as they were.
#[derive(Drop)]
pub struct Running<S: Shelf, G> {
    body: Body<S, G>,
    pledge: Pledge<S, G>,
}

impl<S: Shelf, G> Model for Running<S, G> {
    ghost use Rattle.slave.specs.Task.{Task, task_of};

    ghost Value = { Task };

    ghost use Rattle.slave.specs.Begun.{Stands};

    ghost view = { λ r. task_of S.state r.pledge.0.value };

    ghost invariant = { λ r. Stands S.state r.pledge r.body };
}

impl<S: Shelf + Drop, G: Gate + Drop> Running<S, G> {
    pub(crate) fn thread(
        handle: PromisedHandle<Begun<S, G>, Pledge<S, G>>,
        pledge: Pledge<S, G>,
    ) -> Running<S, G>
        requires same { handle.promise.0.value ≡ pledge.0.value }
        requires ready { IsReady S.state pledge.0.value }
        ensures { result ≡ task_of S.state pledge.0.value }
    {
        Running {
            body: Body::Thread(handle),
            pledge,
        }
    }

    pub(crate) fn ended(end: WorkEnd<S>, pledge: Pledge<S, G>) -> Running<S, G>
        requires { Worked S.state (view_of S.state pledge.0.value.job) pledge.0.value.taker end }
        ensures { result ≡ task_of S.state pledge.0.value }
    {
        Running {
            body: Body::Ended(end),
            pledge,
        }
    }

    /// Waits for the worker's end.
    pub fn join<R: Threads + Wait>(self, rt: &R) -> WorkEnd<S>
        ensures { Worked S.state self.job self.taker result }
    {
        let Running { body, pledge: _ } = self;
        match body {
            Body::Ended(end) => end,
            Body::Thread(handle) => match handle.join(rt) {
                Begun::Worked(end) => end,
                Begun::Back(errand) => errand.work(rt),
            },
        }
    }
}
