// What a worker's thread does.
ghost use Rattle.std.specs.Prelude.{◌≡◌, ◌≤◌, ◌<◌, ◌^◌, ◌∷◌, ◌++◌, [], List, false, true};
ghost use Rattle.std.specs.Arc.{arc_value};
ghost use Rattle.fifo_core.specs.declared.types.FifoOptions.{FifoOptions};
ghost use Rattle.lane.specs.Ring.{one_if};
ghost use Rattle.slave.specs.Origin.{Origin};
ghost use Rattle.slave.specs.Fresh.{IsFresh};
ghost use Rattle.slave.specs.Job.{view_of};
ghost use Rattle.slave.specs.Given.{Given, end_from};
ghost use Rattle.slave.specs.Table.{KeepsAll, GrowsAll, Takes};
ghost use Rattle.slave.specs.End.{EndedAllBy, end_view};
ghost use Rattle.slave.specs.Stretches.{sent, swept, AreOf, Flushed};
ghost use Rattle.slave.specs.Purpose.{IsFor};
ghost use Rattle.slave.specs.Worked.{Worked, fails, got_late};

use crate::job::{SlaveEnd, SlaveJob};
use lane::{Lane, Msg, Taken, Taker};
use rmx_edge::{Gate, Point, Shelf};
use std::sync::{Arc, Wait};

/// What a worker gives back.
#[derive(Drop)]
pub struct WorkEnd<S> {
    pub end: SlaveEnd<S>,
    pub taker: Taker,
}

/// Starts the output, and takes messages for it until no more come, whatever happened to it. Where offers were refused since
/// it last looked, it flushes what waits.
pub fn work<S: Shelf + Drop, G: Gate + Drop, R: Wait>(
    rt: &R,
    job: SlaveJob<S>,
    lane: Arc<Lane>,
    taker: Taker,
    gate: Arc<G>,
    slave: u32,
) -> WorkEnd<S>
    requires ring { taker.ring ≡ (arc_value lane).ring }
    requires unused { (taker.got ≡ []) × (taker.numbers ≡ []) × (taker.failed ≡ false) × (taker.past ≡ []) }
    requires fresh { (g : Origin) × (o : FifoOptions) × IsFresh g o (view_of S.state job) × IsFor g taker.about }
    ensures { Worked S.state (view_of S.state job) taker result }
{
    let mut job = job;
    let mut taker = taker;
    job.start();
    let queue_size = job.queue_size();
    let mut failed = false;
    let mut last = 0u64;
    for _ in rt.forever() {
        failed = report(&lane, &mut taker, job.is_given_up(), failed);
        gate.pass(rt, slave, Point::BeforeTake);
        if failed {
            match lane.take_wait(rt, &mut taker) {
                Taken::Got(msg) => write(&mut job, msg),
                Taken::Empty => unreachable!(),
                Taken::Ended => return ended(rt, &*gate, slave, job, taker),
            }
        } else {
            let number = lane.overflows(&mut taker);
            if number > last {
                flush(&lane, &mut taker, &mut job, number, queue_size);
                last = number;
            } else {
                match lane.take_wait(rt, &mut taker) {
                    Taken::Got(msg) => {
                        gate.pass(rt, slave, Point::BeforeWrite);
                        write(&mut job, msg);
                    }
                    Taken::Empty => unreachable!(),
                    Taken::Ended => return ended(rt, &*gate, slave, job, taker),
                }
            }
        }
    }
    unreachable!()
}

// Ends the output.
fn ended<S: Shelf + Drop, G: Gate, R: Wait>(
    rt: &R,
    gate: &G,
    slave: u32,
    job: SlaveJob<S>,
    taker: Taker,
) -> WorkEnd<S>
    requires { (g : Origin) × (o : FifoOptions) × (T : List Given) × KeepsAll g o T (view_of S.state job) }
    ensures job { (g : Origin) (o : FifoOptions) (T : List Given) (k : KeepsAll g o T (view_of S.state job))
        → EndedAllBy g o T k.history (end_view S.state result.end) }
    ensures taker { result.taker ≡ taker }
{
    let end = job.finish_all();
    gate.pass(rt, slave, Point::AfterEnd);
    WorkEnd { end, taker }
}

// Tells the giver once that the output was given up.
fn report(lane: &Lane, taker: &mut Taker, given_up: bool, failed: bool) -> bool
    requires ring { taker.old.ring ≡ lane.now.ring }
    requires known { (taker.old.failed ≡ failed) × (fails taker.old.past ≡ one_if failed) }
    requires only_dead { failed ≡ true → given_up ≡ true }
    ensures told { (result ≡ given_up) × (taker.new.failed ≡ given_up) × (fails taker.new.past ≡ one_if given_up) }
    ensures same { (taker.new.ring ≡ taker.old.ring) × (taker.new.about ≡ taker.old.about) × (taker.new.got ≡ taker.old.got) × (taker.new.numbers ≡ taker.old.numbers) }
    ensures late { got_late taker.new.past ≡ got_late taker.old.past }
{
    if given_up && !failed {
        lane.fail(taker);
    }
    given_up
}

// Writes a message's packet.
fn write<S: Shelf>(job: &mut SlaveJob<S>, msg: Msg)
    requires ready { (g : Origin) × (o : FifoOptions) × (T : List Given) × KeepsAll g o T (view_of S.state job.old) × (end_from 0 T ≤ msg.index) × Takes g msg.packet }
    requires few { msg.index < 2 ^ 61 }
    ensures { (g : Origin) (o : FifoOptions) (T : List Given) (k : KeepsAll g o T (view_of S.state job.old))
        → end_from 0 T ≤ msg.index → Takes g msg.packet → GrowsAll g o (T ++ sent msg ∷ []) k.history (view_of S.state job.new) }
{
    job.write_at(msg.index, &msg.packet);
}

// Flushes a message.
fn sweep<S: Shelf>(job: &mut SlaveJob<S>, msg: Msg, number: u64)
    requires ready { (g : Origin) × (o : FifoOptions) × (T : List Given) × KeepsAll g o T (view_of S.state job.old) × (end_from 0 T ≤ msg.index) }
    requires few { msg.index < 2 ^ 61 }
    ensures { (g : Origin) (o : FifoOptions) (T : List Given) (k : KeepsAll g o T (view_of S.state job.old))
        → end_from 0 T ≤ msg.index → GrowsAll g o (T ++ swept number msg ∷ []) k.history (view_of S.state job.new) }
{
    job.flush_at(msg.index, number);
}

// Flushes what waits, but at most so many messages.
fn flush<S: Shelf>(
    lane: &Lane,
    taker: &mut Taker,
    job: &mut SlaveJob<S>,
    number: u64,
    queue_size: u32,
)
    requires ring { taker.old.ring ≡ lane.now.ring }
    requires ready { (g : Origin) × (o : FifoOptions) × (T : List Given) × KeepsAll g o T (view_of S.state job.old) × AreOf T taker.old.got }
    ensures flushed { (g : Origin) (o : FifoOptions) (T : List Given) (k : KeepsAll g o T (view_of S.state job.old)) → AreOf T taker.old.got
        → Flushed g o T k.history number queue_size taker.old.got taker.new.got (view_of S.state job.new) }
    ensures same { (taker.new.ring ≡ taker.old.ring) × (taker.new.about ≡ taker.old.about) × (taker.new.numbers ≡ taker.old.numbers) × (taker.new.failed ≡ taker.old.failed) × (fails taker.new.past ≡ fails taker.old.past) }
{
    for _ in 0..queue_size {
        match lane.take(taker) {
            Taken::Got(msg) => sweep(job, msg, number),
            Taken::Empty => return,
            Taken::Ended => return,
        }
    }
}
