// The top call.
ghost use Rattle.std.specs.Prelude.{◌≡◌, ◌<◌, ◌≤◌, ℕ, List, [], false, true, length, map, string_bytes, All, IfErr, IfOk, None};
ghost use Rattle.rmx_edge.specs.Inputs.{InputState};
ghost use Rattle.flv_tags.specs.Tags.{reading_of};
ghost use Rattle.flv_demux.specs.Deal.{no_discards};
ghost use Rattle.flv_demux.specs.Probe.{script, streams};
ghost use Rattle.flv_demux.specs.State.{HasDealt};
ghost use Rattle.options.specs.Valid.{IsValidPlan};
ghost use Rattle.options.specs.Words.{plan, plan_view};
ghost use Rattle.tee.specs.Keeps.{spare_of};
ghost use Rattle.tee.specs.Seat.{AreSeats, first_without, Seat};
ghost use Rattle.remux.specs.Complete.{Completes};
ghost use Rattle.remux.specs.Asked.{asked_of, asked_with, clamped, pictures_of};
ghost use Rattle.remux.specs.Generated.{generated};
ghost use Rattle.remux.specs.Finding.{FoundIn};
ghost use Rattle.remux.specs.Told.{told};
ghost use Rattle.remux.specs.Took.{StaysSound};
ghost use Rattle.remux.specs.Outcome.{ComesTo, Concludes, EndsEarly, IsMade, IsNothing, IsReported, IsWritten, ComesFrom, MakesAndComesTo, Opened, ReadsAsked, ReadsSound, refused_by, RunsAs, unmade_by, with_status, word_status};
ghost use Rattle.remux.specs.Report.{Reports};

use crate::carry::carry;
use crate::ending::{any_want, failed_slave, status_of};
use crate::generate::{Generated, MOST_FRAMES};
use crate::outputs::Handover;
use crate::probe::{Found, Unfound, find_streams};
use crate::read::ReadEnd;
use crate::report::report;
use crate::status::{Refusal, Status};
use flv_demux::{Demuxer, Discards};
use interleaver::Interleaver;
use options::{Plan, Source, WordFault, WordKind, read_words};
use rmx_edge::{Inputs, Shelf, Sink};
use rmx_media::{Items, NoMemory};
use slave::{SlaveEnd, ends_meet_accounts, no_fault_no_loss};
use std::alloc::Global;
use tee::{Tee, TeeEnd, TeeFault};

/// How much is read at a time, in bytes.
const PIECE: usize = 65536;

/// How many bytes are taken of an input at least, before it may be refused, and at most.
const FEWEST_BYTES: u64 = 9;

const MOST_BYTES: u64 = 1 << 40;

/// What a run comes to.
#[derive(Drop)]
pub struct Outcome<S> {
    pub status: Status,
    /// How many tags were dealt with.
    pub tags: u64,
    /// How many packets were handed over.
    pub upto: u64,
    /// How each output ended.
    pub ends: Items<SlaveEnd<S>>,
    /// The shelves that no output had.
    pub spare: Items<S>,
    /// How many of the tags were passed over, by the reason.
    pub discards: Discards,
}

/// Runs the words on these inputs and shelves, on one thread, and writes the report.
///
/// The input is read in pieces of at most `PIECE` bytes.
pub fn run_direct<I: Inputs, S: Shelf + Drop, O: Sink>(
    alloc: Global,
    words: &[String],
    inputs: &mut I,
    shelves: Vec<S>,
    out: &mut O,
) -> Outcome<S>
    requires sixteen { length shelves.items ≡ 16 }
    requires idle { All (λ s. (S.state s).writing ≡ false) shelves.items }
    ensures outcome { RunsAs S.state (plan (map string_bytes words.now)) (I.state inputs.old) (I.state inputs.new) shelves.items result }
    ensures report { Reports result (O.state out.old) (O.state out.new) }
    ensures complete { Completes S.state (plan (map string_bytes words.now)) (I.state inputs.old) (I.state inputs.new) shelves.items (O.state out.old) (O.state out.new) result }
    ensures sound { ReadsSound (plan (map string_bytes words.now)) (I.state inputs.old) (I.state inputs.new) }
{
    match read_words(alloc, words) {
        Ok(plan) => reported(run_plan(alloc, &plan, inputs, shelves), out),
        Err(fault) => reported(nothing(alloc, word_status(fault), shelves), out),
    }
}

/// How a run ends whose words have a fault.
pub fn word_status(fault: WordFault) -> Status
    ensures { result ≡ word_status fault }
{
    match fault.kind {
        WordKind::NoMemory => Status::NoMemory,
        _ => Status::Words(fault),
    }
}

/// Writes the report of an outcome.
pub fn reported<S: Drop, O: Sink>(mut outcome: Outcome<S>, out: &mut O) -> Outcome<S>
    requires { (outcome.status ≡ Status.ReportFault → ⊥) }
    ensures same { with_status outcome.status result ≡ outcome }
    ensures status { IsReported outcome.status result.status }
    ensures report { Reports result (O.state out.old) (O.state out.new) }
{
    outcome.status = report(&outcome, out);
    outcome
}

/// Ends a run before an output was made.
pub fn nothing<S>(alloc: Global, status: Status, shelves: Vec<S>) -> Outcome<S>
    ensures { IsNothing status shelves.items result }
{
    Outcome {
        status,
        tags: 0,
        upto: 0,
        ends: Items::new(alloc),
        spare: Items::from_vec(shelves),
        discards: none_passed(),
    }
}

// No tag was passed over.
fn none_passed() -> Discards
    ensures { result ≡ no_discards }
{
    Discards {
        script: 0,
        unsupported: 0,
        no_stream: 0,
        corrupt: 0,
        command: 0,
        sequence_end: 0,
        config_repeat: 0,
    }
}

// So many bytes.
fn buffer(alloc: Global, size: usize) -> Result<Vec<u8>, NoMemory>
    ensures { IfOk result (λ v. length v.items ≡ size) }
{
    match vec![in alloc; 0u8; size] {
        Ok(bytes) => Ok(bytes),
        Err(_) => Err(NoMemory),
    }
}

/// Runs a plan, up to the report.
pub fn run_plan<I: Inputs, S: Shelf + Drop>(
    alloc: Global,
    plan: &Plan,
    inputs: &mut I,
    shelves: Vec<S>,
) -> Outcome<S>
    requires sixteen { length shelves.items ≡ 16 }
    requires idle { All (λ s. (S.state s).writing ≡ false) shelves.items }
    requires valid { IsValidPlan (plan_view plan.now) }
    ensures comes { ComesFrom S.state (plan_view plan.now).source (asked_of (plan_view plan.now)) (I.state inputs.old) (I.state inputs.new) shelves.items result }
    ensures sound { ReadsAsked (asked_of (plan_view plan.now)) (I.state inputs.old) (I.state inputs.new) }
{
    match &plan.source {
        Source::Named(name) => run_named(alloc, plan, name.as_str(), inputs, shelves),
        Source::Generated(count) => run_generated(alloc, plan, *count, shelves),
    }
}

// Runs a plan over the text of so many pictures, which is made while it is read.
fn run_generated<S: Shelf + Drop>(
    alloc: Global,
    plan: &Plan,
    count: u32,
    shelves: Vec<S>,
) -> Outcome<S>
    requires sixteen { length shelves.items ≡ 16 }
    requires idle { All (λ s. (S.state s).writing ≡ false) shelves.items }
    requires valid { IsValidPlan (plan_view plan.now) }
    ensures comes { (now : InputState) → MakesAndComesTo S.state (generated (pictures_of count)) (asked_with [] (plan_view plan.now)) now now shelves.items result }
{
    let mut made = Generated::new(count.min(MOST_FRAMES));
    run_named(alloc, plan, "", &mut made, shelves)
}

// How many bytes are taken at most.
fn most_bytes(plan: &Plan) -> u64
    ensures { result ≡ clamped plan.now.max_bytes }
{
    plan.max_bytes.min(MOST_BYTES).max(FEWEST_BYTES)
}

/// An input that was opened, and whose streams were found.
#[derive(Drop)]
pub struct Start {
    pub buf: Vec<u8>,
    pub demux: Demuxer,
    pub found: Found,
}

/// Opens the input of that name and finds its streams, or tells how the run ends.
pub fn start_input<I: Inputs>(
    alloc: Global,
    plan: &Plan,
    name: &str,
    inputs: &mut I,
) -> Result<Start, Status>
    ensures room { IfOk result (λ s. length s.buf.items ≡ 65536) }
    ensures found { IfOk result (λ s. (start : InputState) × Opened name.now (I.state inputs.old) start × (start.faults ≤ (I.state inputs.new).faults)
        × FoundIn s.found (clamped plan.now.max_bytes) start (I.state inputs.new) s.demux.core.reader.ended (told s.demux) (λ b done. HasDealt b done s.demux)) }
    ensures early { IfErr result (λ s. EndsEarly s (asked_with name.now (plan_view plan.now)) (I.state inputs.old) (I.state inputs.new)) }
    ensures sound { (I.state inputs.old).sound_at name.now ≡ true → ((I.state inputs.new).faults ≡ (I.state inputs.old).faults) × IfOk result (λ s. (I.state inputs.new).sound_now ≡ true) }
{
    let mut buf = match buffer(alloc, PIECE) {
        Ok(buf) => buf,
        Err(_) => return Err(Status::NoMemory),
    };
    let mut demux = match Demuxer::new(alloc) {
        Ok(demux) => demux,
        Err(_) => return Err(Status::NoMemory),
    };
    match inputs.open_input(name) {
        Ok(()) => {}
        Err(_) => return Err(Status::InputFault),
    }
    match find_streams(inputs, &mut demux, &mut buf, most_bytes(plan)) {
        Ok(found) => Ok(Start { buf, demux, found }),
        Err(unfound) => Err(refused(unfound)),
    }
}

// Runs a plan over the input of that name.
fn run_named<I: Inputs, S: Shelf + Drop>(
    alloc: Global,
    plan: &Plan,
    name: &str,
    inputs: &mut I,
    shelves: Vec<S>,
) -> Outcome<S>
    requires sixteen { length shelves.items ≡ 16 }
    requires idle { All (λ s. (S.state s).writing ≡ false) shelves.items }
    requires valid { IsValidPlan (plan_view plan.now) }
    ensures comes { ComesTo S.state (asked_with name.now (plan_view plan.now)) (I.state inputs.old) (I.state inputs.new) shelves.items result }
    ensures sound { (I.state inputs.old).sound_at name.now ≡ true → (I.state inputs.new).faults ≡ (I.state inputs.old).faults }
{
    match start_input(alloc, plan, name, inputs) {
        Ok(start) => {
            let Start {
                mut buf,
                mut demux,
                found,
            } = start;
            write_found(alloc, plan, inputs, &mut demux, &mut buf, found, shelves)
        }
        Err(status) => nothing(alloc, status, shelves),
    }
}

// How a run ends whose input has no streams.
fn refused(unfound: Unfound) -> Status
    ensures { result ≡ refused_by unfound }
{
    match unfound {
        Unfound::NotFlv => Status::InputRefused(Refusal::NotFlv),
        Unfound::BadOffset => Status::InputRefused(Refusal::BadOffset),
        Unfound::NoStreams => Status::InputRefused(Refusal::NoStreams),
        Unfound::InputFault => Status::InputFault,
        Unfound::NoMemory => Status::NoMemory,
    }
}

/// How a run ends whose outputs could not be made.
pub fn unmade(fault: TeeFault) -> Status
    ensures { result ≡ unmade_by fault }
{
    match fault {
        TeeFault::NoneSelected { slave } => Status::InputRefused(Refusal::NoneSelected(slave)),
        TeeFault::NoMemory => Status::NoMemory,
    }
}

// Makes the outputs of an input whose streams were found, and hands over its packets.
fn write_found<I: Inputs, S: Shelf + Drop>(
    alloc: Global,
    plan: &Plan,
    inputs: &mut I,
    demux: &mut Demuxer,
    buf: &mut [u8],
    found: Found,
    shelves: Vec<S>,
) -> Outcome<S>
    requires room { 0 < length buf.old }
    requires small { length buf.old ≤ 65536 }
    requires sixteen { length shelves.items ≡ 16 }
    requires idle { All (λ s. (S.state s).writing ≡ false) shelves.items }
    requires valid { IsValidPlan (plan_view plan.now) }
    requires found { (start : InputState) × FoundIn found (clamped plan.now.max_bytes) start (I.state inputs.old) demux.old.core.reader.ended (told demux.old) (λ b done. HasDealt b done demux.old) }
    ensures sound { StaysSound (I.state inputs.old) (I.state inputs.new) }
    ensures comes { (name : List ℕ) (old start : InputState) → Opened name old start → start.faults ≤ (I.state inputs.old).faults
        → FoundIn found (clamped plan.now.max_bytes) start (I.state inputs.old) demux.old.core.reader.ended (told demux.old) (λ b done. HasDealt b done demux.old)
        → ComesTo S.state (asked_with name (plan_view plan.now)) old (I.state inputs.new) shelves.items result }
{
    let infos = match demux.streams() {
        Some(infos) => infos,
        None => unreachable!(),
    };
    let line = match Interleaver::new(alloc, infos.len() as u32, plan.delta_us) {
        Ok(line) => line,
        Err(_) => return nothing(alloc, Status::NoMemory, shelves),
    };
    match Tee::new(alloc, plan, infos, demux.script(), shelves) {
        Ok(tee) => write_made(plan, inputs, demux, line, tee, buf, found),
        Err(refused) => nothing(alloc, unmade(refused.fault), refused.shelves),
    }
}

// Hands over the packets of an input to outputs that were made, and ends them.
fn write_made<I: Inputs, S: Shelf + Drop>(
    plan: &Plan,
    inputs: &mut I,
    demux: &mut Demuxer,
    line: Interleaver,
    tee: Tee<S>,
    buf: &mut [u8],
    found: Found,
) -> Outcome<S>
    requires room { 0 < length buf.old }
    requires small { length buf.old ≤ 65536 }
    requires valid { IsValidPlan (plan_view plan.now) }
    requires made { (start : InputState) × (seats : List Seat) × (w : FoundIn found (clamped plan.now.max_bytes) start (I.state inputs.old) demux.old.core.reader.ended (told demux.old) (λ b done. HasDealt b done demux.old))
        × IsMade S.state (plan_view plan.now) w.bytes line tee seats }
    ensures sound { StaysSound (I.state inputs.old) (I.state inputs.new) }
    ensures written { (name : List ℕ) (old start : InputState) (shelves : List S) (seats : List Seat) → Opened name old start → start.faults ≤ (I.state inputs.old).faults
        → (w : FoundIn found (clamped plan.now.max_bytes) start (I.state inputs.old) demux.old.core.reader.ended (told demux.old) (λ b done. HasDealt b done demux.old))
        → IsMade S.state (plan_view plan.now) w.bytes line tee seats
        → AreSeats S.state (streams (reading_of w.bytes).tags) (script (reading_of w.bytes).tags) (plan_view plan.now).slaves shelves seats (spare_of tee)
        → first_without (streams (reading_of w.bytes).tags) (plan_view plan.now).slaves ≡ None
        → IsWritten S.state (asked_with name (plan_view plan.now)) old (I.state inputs.new) shelves result }
{
    let mut line = line;
    let mut tee = tee;
    let spare = tee.take_spare();
    let mut handover = Handover { tee, given: 0 };
    let end = carry(inputs, demux, &mut line, &mut handover, buf, found);
    let Handover { tee, given } = handover;
    let TeeEnd {
        ends,
        spare: _,
        short: _,
    } = tee.finish();
    no_fault_no_loss();
    ends_meet_accounts();
    outcome_of(plan, demux, end, given, ends, spare)
}

/// What a run comes to whose reading and whose outputs ended so, and which handed over so many packets.
pub fn outcome_of<S>(
    plan: &Plan,
    demux: &Demuxer,
    end: ReadEnd,
    given: u64,
    ends: Items<SlaveEnd<S>>,
    spare: Items<S>,
) -> Outcome<S>
    requires same { length plan.now.slaves.items ≡ length ends.items }
    requires few { length ends.items ≤ 16 }
    ensures { Concludes plan.now.slaves.items demux.now.shown end given ends.items spare.items result }
{
    let failed = failed_slave(plan.slaves.as_slice(), ends.as_slice());
    let wanted = any_want(ends.as_slice());
    Outcome {
        status: status_of(end, failed, wanted),
        tags: demux.tags(),
        upto: given,
        ends,
        spare,
        discards: demux.discards(),
    }
}
