// The top call where outputs may have threads of their own.
ghost use Rattle.std.specs.Prelude.{◌≡◌, ◌<◌, ◌≤◌, ℕ, List, false, true, length, map, string_bytes, All, None};
ghost use Rattle.rmx_edge.specs.Inputs.{InputState};
ghost use Rattle.flv_tags.specs.Tags.{reading_of};
ghost use Rattle.flv_demux.specs.Probe.{script, streams};
ghost use Rattle.flv_demux.specs.State.{HasDealt};
ghost use Rattle.options.specs.Valid.{IsValidPlan};
ghost use Rattle.options.specs.Words.{plan, plan_view};
ghost use Rattle.tee.specs.RunEnds.{EndsAllRun};
ghost use Rattle.tee.specs.RunKeeps.{KeepsRun, dead_in, inlined, infos_of, spare_of, theres_of};
ghost use Rattle.tee.specs.Seat.{AreSeats, first_without, IsInput, Seat};
ghost use Rattle.remux.specs.Complete.{Completes};
ghost use Rattle.remux.specs.Asked.{asked_of, asked_with, clamped};
ghost use Rattle.remux.specs.Finding.{FoundIn};
ghost use Rattle.remux.specs.KeptRun.{AreKeptRun};
ghost use Rattle.remux.specs.MadeRun.{IsMadeRun};
ghost use Rattle.remux.specs.Outcome.{ComesFromBy, ComesToBy, IsWrittenBy, Opened, ReadsAsked, ReadsSound, RunsAsBy};
ghost use Rattle.remux.specs.Report.{Reports};
ghost use Rattle.remux.specs.Threads.{any_threads, inlines, InlinesWithin};
ghost use Rattle.remux.specs.Told.{told};
ghost use Rattle.remux.specs.Took.{StaysSound};

use crate::carry::carry;
use crate::generate::{Generated, MOST_FRAMES};
use crate::outputs::Outputs;
use crate::probe::Found;
use crate::run::{
    Outcome, Start, nothing, outcome_of, reported, run_plan, start_input, unmade, word_status,
};
use crate::status::Status;
use flv_demux::Demuxer;
use interleaver::Interleaver;
use options::{Plan, SlavePlan, Source, read_words};
use rmx_edge::{Gate, Inputs, Shelf, Sink};
use rmx_media::{NoMemory, Packet};
use slave::{Spawner, ends_meet_accounts, no_fault_no_loss};
use std::alloc::Global;
use std::sync::{Arc, Wait};
use std::thread::Threads;
use tee::{Fed, TeeEnd, TeeRun};

/// All outputs of a run, some of which may have threads of their own, and how many packets they were given.
#[derive(Drop)]
pub struct HandoverRun<'a, S: Shelf, G, R> {
    pub rt: &'a R,
    pub run: TeeRun<S, G>,
    pub given: u64,
}

impl<'a, S: Shelf, G: Gate, R: Wait> Outputs for HandoverRun<'a, S, G, R> {
    ghost keeps = { λ h start given. KeepsRun S.state h.run start.seats given × (theres_of h.run ≡ start.threads) × (h.given ≡ length given) };

    ghost dead_at = { λ h u. dead_in h.run u };

    ghost takes = { λ h p. IsInput (infos_of h.run) p };

    fn feed(&mut self, p: &Packet) -> Result<Fed, NoMemory> {
        match self.run.feed(self.rt, p) {
            Ok(fed) => {
                self.given += 1;
                Ok(fed)
            }
            Err(refused) => Err(refused),
        }
    }
}

/// Runs the words on these inputs and shelves, and writes the report. Outputs that ask for it have threads of their own, which
/// `spawner` starts and which have ended when this returns; one whose start is refused is written by the reader. The reader and
/// the threads pass `gate`.
pub fn run<
    I: Inputs,
    S: Shelf + Drop + Send + 'static,
    O: Sink,
    G: Gate + Drop + Send + Sync + 'static,
    P: Spawner,
    R: Threads + Wait + AllocGlobal + Clone + Drop + Send + 'static,
>(
    rt: &R,
    words: &[String],
    inputs: &mut I,
    shelves: Vec<S>,
    out: &mut O,
    gate: Arc<G>,
    spawner: &mut P,
) -> Outcome<S>
    requires sixteen { length shelves.items ≡ 16 }
    requires idle { All (λ s. (S.state s).writing ≡ false) shelves.items }
    ensures outcome { RunsAsBy EndsAllRun AreKeptRun S.state (plan (map string_bytes words.now)) (I.state inputs.old) (I.state inputs.new) shelves.items result }
    ensures inline { InlinesWithin (P.refused spawner.old) (P.refused spawner.new) result.ends.items }
    ensures report { Reports result (O.state out.old) (O.state out.new) }
    ensures complete { Completes S.state (plan (map string_bytes words.now)) (I.state inputs.old) (I.state inputs.new) shelves.items (O.state out.old) (O.state out.new) result }
    ensures sound { ReadsSound (plan (map string_bytes words.now)) (I.state inputs.old) (I.state inputs.new) }
{
    let alloc = rt.alloc();
    match read_words(alloc, words) {
        Ok(plan) => reported(
            run_planned(rt, alloc, &plan, inputs, shelves, gate, spawner),
            out,
        ),
        Err(fault) => reported(nothing(alloc, word_status(fault), shelves), out),
    }
}

// Whether an output of the plan asks for a thread.
fn has_threads(slaves: &[SlavePlan]) -> bool
    ensures { result ≡ any_threads slaves.now }
{
    slaves.iter().any(|slave| slave.fifo.use_fifo)
}

// Runs a plan, up to the report. One without threads is run directly.
fn run_planned<
    I: Inputs,
    S: Shelf + Drop + Send + 'static,
    G: Gate + Drop + Send + Sync + 'static,
    P: Spawner,
    R: Threads + Wait + AllocGlobal + Clone + Drop + Send + 'static,
>(
    rt: &R,
    alloc: Global,
    plan: &Plan,
    inputs: &mut I,
    shelves: Vec<S>,
    gate: Arc<G>,
    spawner: &mut P,
) -> Outcome<S>
    requires sixteen { length shelves.items ≡ 16 }
    requires idle { All (λ s. (S.state s).writing ≡ false) shelves.items }
    requires valid { IsValidPlan (plan_view plan.now) }
    ensures comes { ComesFromBy EndsAllRun AreKeptRun S.state (plan_view plan.now).source (asked_of (plan_view plan.now)) (I.state inputs.old) (I.state inputs.new) shelves.items result }
    ensures inline { InlinesWithin (P.refused spawner.old) (P.refused spawner.new) result.ends.items }
    ensures sound { ReadsAsked (asked_of (plan_view plan.now)) (I.state inputs.old) (I.state inputs.new) }
{
    no_fault_no_loss();
    ends_meet_accounts();
    if !has_threads(plan.slaves.as_slice()) {
        return run_plan(alloc, plan, inputs, shelves);
    }
    match &plan.source {
        Source::Named(name) => {
            run_input(
                rt,
                alloc,
                plan,
                name.as_str(),
                inputs,
                shelves,
                gate,
                spawner,
            )
        }
        Source::Generated(count) => {
            let mut made = Generated::new((*count).min(MOST_FRAMES));
            run_input(rt, alloc, plan, "", &mut made, shelves, gate, spawner)
        }
    }
}

// Runs a plan over the input of that name.
fn run_input<
    I: Inputs,
    S: Shelf + Drop + Send + 'static,
    G: Gate + Drop + Send + Sync + 'static,
    P: Spawner,
    R: Threads + Wait + AllocGlobal + Clone + Drop + Send + 'static,
>(
    rt: &R,
    alloc: Global,
    plan: &Plan,
    name: &str,
    inputs: &mut I,
    shelves: Vec<S>,
    gate: Arc<G>,
    spawner: &mut P,
) -> Outcome<S>
    requires sixteen { length shelves.items ≡ 16 }
    requires idle { All (λ s. (S.state s).writing ≡ false) shelves.items }
    requires valid { IsValidPlan (plan_view plan.now) }
    ensures comes { ComesToBy EndsAllRun AreKeptRun S.state (asked_with name.now (plan_view plan.now)) (I.state inputs.old) (I.state inputs.new) shelves.items result }
    ensures inline { InlinesWithin (P.refused spawner.old) (P.refused spawner.new) result.ends.items }
    ensures sound { (I.state inputs.old).sound_at name.now ≡ true → (I.state inputs.new).faults ≡ (I.state inputs.old).faults }
{
    match start_input(alloc, plan, name, inputs) {
        Ok(start) => {
            let Start {
                mut buf,
                mut demux,
                found,
            } = start;
            write_started(
                rt, alloc, plan, inputs, &mut demux, &mut buf, found, shelves, gate, spawner,
            )
        }
        Err(status) => nothing(alloc, status, shelves),
    }
}

// Makes the outputs of an input whose streams were found, and hands over its packets.
fn write_started<
    I: Inputs,
    S: Shelf + Drop + Send + 'static,
    G: Gate + Drop + Send + Sync + 'static,
    P: Spawner,
    R: Threads + Wait + AllocGlobal + Clone + Drop + Send + 'static,
>(
    rt: &R,
    alloc: Global,
    plan: &Plan,
    inputs: &mut I,
    demux: &mut Demuxer,
    buf: &mut [u8],
    found: Found,
    shelves: Vec<S>,
    gate: Arc<G>,
    spawner: &mut P,
) -> Outcome<S>
    requires room { 0 < length buf.old }
    requires small { length buf.old ≤ 65536 }
    requires sixteen { length shelves.items ≡ 16 }
    requires idle { All (λ s. (S.state s).writing ≡ false) shelves.items }
    requires valid { IsValidPlan (plan_view plan.now) }
    requires found { (start : InputState) × FoundIn found (clamped plan.now.max_bytes) start (I.state inputs.old) demux.old.core.reader.ended (told demux.old) (λ b done. HasDealt b done demux.old) }
    ensures sound { StaysSound (I.state inputs.old) (I.state inputs.new) }
    ensures inline { InlinesWithin (P.refused spawner.old) (P.refused spawner.new) result.ends.items }
    ensures comes { (name : List ℕ) (old start : InputState) → Opened name old start → start.faults ≤ (I.state inputs.old).faults
        → FoundIn found (clamped plan.now.max_bytes) start (I.state inputs.old) demux.old.core.reader.ended (told demux.old) (λ b done. HasDealt b done demux.old)
        → ComesToBy EndsAllRun AreKeptRun S.state (asked_with name (plan_view plan.now)) old (I.state inputs.new) shelves.items result }
{
    let infos = match demux.streams() {
        Some(infos) => infos,
        None => unreachable!(),
    };
    let line = match Interleaver::new(alloc, infos.len() as u32, plan.delta_us) {
        Ok(line) => line,
        Err(_) => return nothing(alloc, Status::NoMemory, shelves),
    };
    match TeeRun::new(
        rt,
        alloc,
        plan,
        infos,
        demux.script(),
        shelves,
        gate,
        spawner,
    ) {
        Ok(outputs) => write_run(rt, plan, inputs, demux, line, outputs, buf, found),
        Err(refused) => nothing(alloc, unmade(refused.fault), refused.shelves),
    }
}

// Hands over the packets of an input to outputs that were made, and ends them.
fn write_run<I: Inputs, S: Shelf + Drop, G: Gate + Drop, R: Threads + Wait>(
    rt: &R,
    plan: &Plan,
    inputs: &mut I,
    demux: &mut Demuxer,
    line: Interleaver,
    outputs: TeeRun<S, G>,
    buf: &mut [u8],
    found: Found,
) -> Outcome<S>
    requires room { 0 < length buf.old }
    requires small { length buf.old ≤ 65536 }
    requires valid { IsValidPlan (plan_view plan.now) }
    requires made { (start : InputState) × (seats : List Seat) × (w : FoundIn found (clamped plan.now.max_bytes) start (I.state inputs.old) demux.old.core.reader.ended (told demux.old) (λ b done. HasDealt b done demux.old))
        × IsMadeRun S.state (plan_view plan.now) w.bytes line outputs seats }
    ensures sound { StaysSound (I.state inputs.old) (I.state inputs.new) }
    ensures inline { (start : InputState) (seats : List Seat) (w : FoundIn found (clamped plan.now.max_bytes) start (I.state inputs.old) demux.old.core.reader.ended (told demux.old) (λ b done. HasDealt b done demux.old))
        → IsMadeRun S.state (plan_view plan.now) w.bytes line outputs seats → inlines result.ends.items ≡ inlined seats (theres_of outputs) }
    ensures written { (name : List ℕ) (old start : InputState) (shelves : List S) (seats : List Seat) → Opened name old start → start.faults ≤ (I.state inputs.old).faults
        → (w : FoundIn found (clamped plan.now.max_bytes) start (I.state inputs.old) demux.old.core.reader.ended (told demux.old) (λ b done. HasDealt b done demux.old))
        → IsMadeRun S.state (plan_view plan.now) w.bytes line outputs seats
        → AreSeats S.state (streams (reading_of w.bytes).tags) (script (reading_of w.bytes).tags) (plan_view plan.now).slaves shelves seats (spare_of outputs)
        → first_without (streams (reading_of w.bytes).tags) (plan_view plan.now).slaves ≡ None
        → IsWrittenBy EndsAllRun AreKeptRun S.state (asked_with name (plan_view plan.now)) old (I.state inputs.new) shelves result }
{
    let mut line = line;
    let mut outputs = outputs;
    let spare = outputs.take_spare();
    let mut handover = HandoverRun {
        rt,
        run: outputs,
        given: 0,
    };
    let end = carry(inputs, demux, &mut line, &mut handover, buf, found);
    let HandoverRun { rt: _, run, given } = handover;
    let TeeEnd {
        ends,
        spare: _,
        short: _,
    } = run.finish(rt);
    no_fault_no_loss();
    ends_meet_accounts();
    outcome_of(plan, demux, end, given, ends, spare)
}
