// The report of a run.
ghost use Rattle.std.specs.Prelude.{◌≡◌, ◌⊎◌, ◌++◌, ◌+◌, ◌≤◌, length};
ghost use Rattle.rmx_edge.specs.Sink.{Puts};
ghost use Rattle.remux.specs.Report.{account, discards_line as discards_of, discards_text, field, heads, number_of_kind, report as report_text, ReportsBy, slave_line as slave_text, slave_lines, state_text, status_line as status_text, tags_line as tags_text, totals_of, totals_text, unreported, with_fate};

use crate::run::Outcome;
use crate::status::{Ending, Refusal, Status};
use arrayvec::ArrayString;
use fifo_core::{EndState, Fate};
use flv_demux::Discards;
use itoa::Buffer;
use options::WordKind;
use rmx_edge::{Failed, Sink};
use slave::{Run, SlaveEnd};

/// A line of the report. The longest, that of an output, has ten numbers of at most twenty digits.
type Line = ArrayString<400>;

/// How many packets have each fate. Sums stand still at 2^64 - 1.
#[derive(Clone, Copy, Debug, PartialEq, Eq)]
pub struct Totals {
    pub written: u64,
    pub refused: u64,
    pub flushed: u64,
    pub key_wait: u64,
    pub lost: u64,
    pub after: u64,
    pub no_memory: u64,
}

// So many packets more with that fate.
fn with_fate(fate: Fate, count: u64, totals: Totals) -> Totals
    ensures { result ≡ with_fate fate count totals }
{
    let mut totals = totals;
    match fate {
        Fate::Written(_) => totals.written = totals.written.saturating_add(count),
        Fate::Refused(_) => totals.refused = totals.refused.saturating_add(count),
        Fate::Flushed(_) => totals.flushed = totals.flushed.saturating_add(count),
        Fate::KeyWait => totals.key_wait = totals.key_wait.saturating_add(count),
        Fate::Lost(_) => totals.lost = totals.lost.saturating_add(count),
        Fate::AfterFailure(_) => totals.after = totals.after.saturating_add(count),
        Fate::NoMemory => totals.no_memory = totals.no_memory.saturating_add(count),
    }
    totals
}

/// How many packets have each fate.
#[tactic(auto, unfolding(crate::specs::Report::totals_of))]
pub fn totals_of(runs: &[Run]) -> Totals
    ensures { result ≡ totals_of runs.now }
{
    let mut totals = Totals {
        written: 0,
        refused: 0,
        flushed: 0,
        key_wait: 0,
        lost: 0,
        after: 0,
        no_memory: 0,
    };
    for run in runs {
        totals = with_fate(run.fate, run.count, totals);
    }
    totals
}

// The number of a word's fault.
fn number_of_kind(kind: WordKind) -> u64
    ensures { result ≡ number_of_kind kind }
{
    match kind {
        WordKind::UnknownWord => 1,
        WordKind::MissingValue => 2,
        WordKind::NoInput => 3,
        WordKind::NoOutput => 4,
        WordKind::UnknownFormat => 5,
        WordKind::UnknownOption => 6,
        WordKind::BadValue => 7,
        WordKind::DanglingEscape => 8,
        WordKind::UnclosedBlock => 9,
        WordKind::TooManySlaves => 10,
        WordKind::SameTarget => 11,
        WordKind::BadTemplate => 12,
        WordKind::BadFilter => 13,
        WordKind::NameTooLong => 14,
        WordKind::NoMemory => 15,
    }
}

// Appends a number behind its name.
fn push_field(line: &mut Line, name: &str, number: u64)
    requires { length line.old.bytes + length name.now + 20 ≤ 400 }
    ensures bytes { line.new.bytes ≡ line.old.bytes ++ field name.now number }
    ensures len { length line.new.bytes ≤ length line.old.bytes + length name.now + 20 }
{
    line.push_str(name);
    let mut buffer = Buffer::new();
    line.push_str(buffer.format(number));
}

// The line of a status.
fn status_line(status: Status) -> Line
    ensures { result.bytes ≡ status_text status }
{
    let mut line = Line::new();
    match status {
        Status::Done | Status::ReportFault => line.push_str("status 0 done"),
        Status::Words(fault) => {
            push_field(
                &mut line,
                "status 1 words fault=",
                number_of_kind(fault.kind),
            );
            push_field(&mut line, " word=", u64::from(fault.word));
        }
        Status::InputFault => line.push_str("status 2 input fault"),
        Status::InputRefused(Refusal::NotFlv) => line.push_str("status 3 refused not-flv"),
        Status::InputRefused(Refusal::BadOffset) => line.push_str("status 3 refused bad-offset"),
        Status::InputRefused(Refusal::NoStreams) => line.push_str("status 3 refused no-streams"),
        Status::InputRefused(Refusal::NoneSelected(slave)) => {
            push_field(
                &mut line,
                "status 3 refused none-selected slave=",
                u64::from(slave),
            );
        }
        Status::InputEnded(Ending::Cut) => line.push_str("status 4 ended cut"),
        Status::InputEnded(Ending::Limit) => line.push_str("status 4 ended limit"),
        Status::SlaveFailed(slave) => {
            push_field(&mut line, "status 5 slave ", u64::from(slave));
            line.push_str(" failed");
        }
        Status::NoMemory => line.push_str("status 6 no memory"),
    }
    line.push('\n');
    line
}

// The line of what was read and handed over.
fn tags_line(tags: u64, upto: u64) -> Line
    ensures { result.bytes ≡ tags_text tags upto }
{
    let mut line = Line::new();
    push_field(&mut line, "tags ", tags);
    push_field(&mut line, " packets ", upto);
    line.push('\n');
    line
}

// Appends what was passed over.
fn push_discards(line: &mut Line, discards: &Discards)
    requires { length line.old.bytes ≤ 60 }
    ensures bytes { line.new.bytes ≡ line.old.bytes ++ discards_text discards.now }
    ensures len { length line.new.bytes ≤ length line.old.bytes + 260 }
{
    push_field(line, "discards script=", discards.script);
    push_field(line, " unsupported=", discards.unsupported);
    push_field(line, " nostream=", discards.no_stream);
    push_field(line, " corrupt=", discards.corrupt);
    push_field(line, " command=", discards.command);
    push_field(line, " seqend=", discards.sequence_end);
    push_field(line, " repeat=", discards.config_repeat);
}

// The line of what was passed over.
fn discards_line(discards: &Discards) -> Line
    ensures { result.bytes ≡ discards_of discards.now }
{
    let mut line = Line::new();
    push_discards(&mut line, discards);
    line.push('\n');
    line
}

fn state_text(state: EndState) -> &'static str
    ensures { result.now ≡ state_text state }
{
    match state {
        EndState::Closed => " closed",
        EndState::Failed => " failed",
        EndState::NoMemory => " nomemory",
    }
}

// Appends how many packets have each fate.
fn push_totals(line: &mut Line, totals: &Totals)
    requires { length line.old.bytes ≤ 60 }
    ensures bytes { line.new.bytes ≡ line.old.bytes ++ totals_text totals.now }
    ensures len { length line.new.bytes ≤ length line.old.bytes + 260 }
{
    push_field(line, " written=", totals.written);
    push_field(line, " refused=", totals.refused);
    push_field(line, " flushed=", totals.flushed);
    push_field(line, " keywait=", totals.key_wait);
    push_field(line, " lost=", totals.lost);
    push_field(line, " after=", totals.after);
    push_field(line, " nomem=", totals.no_memory);
}

// The line of an output.
fn slave_line<S>(slave: u64, end: &SlaveEnd<S>) -> Line
    ensures { result.bytes ≡ slave_text slave end.now }
{
    let mut line = Line::new();
    push_field(&mut line, "slave ", slave);
    line.push_str(state_text(end.state));
    push_totals(&mut line, &totals_of(end.fates.as_slice()));
    push_field(
        &mut line,
        " sessions=",
        end.sessions.as_slice().len() as u64,
    );
    push_field(&mut line, " bytes=", end.bytes);
    line.push('\n');
    line
}

// Writes a line.
fn write_line<O: Sink>(out: &mut O, line: &Line) -> Result<(), Failed>
    ensures { Puts line.now.bytes result (O.state out.old) (O.state out.new) }
{
    out.write(line.as_bytes())
}

// Writes the lines of the outputs.
fn write_slaves<S, O: Sink>(ends: &[SlaveEnd<S>], out: &mut O) -> Result<(), Failed>
    requires some { 1 ≤ length ends.now }
    ensures { Puts (slave_lines 0 ends.now) result (O.state out.old) (O.state out.new) }
{
    for k in 0..ends.len() {
        match write_line(out, &slave_line(k as u64, &ends[k])) {
            Ok(()) => {}
            Err(failed) => return Err(failed),
        }
    }
    Ok(())
}

// Writes what was read, and what was passed over.
fn write_heads<S, O: Sink>(outcome: &Outcome<S>, out: &mut O) -> Result<(), Failed>
    ensures { Puts (heads outcome.now) result (O.state out.old) (O.state out.new) }
{
    match write_line(out, &tags_line(outcome.tags, outcome.upto)) {
        Ok(()) => write_line(out, &discards_line(&outcome.discards)),
        Err(failed) => Err(failed),
    }
}

// Writes what is said before the status.
fn write_account<S, O: Sink>(outcome: &Outcome<S>, out: &mut O) -> Result<(), Failed>
    requires some { 1 ≤ length outcome.now.ends.items }
    ensures { Puts (account outcome.now outcome.now.ends.items) result (O.state out.old) (O.state out.new) }
{
    match write_heads(outcome, out) {
        Ok(()) => write_slaves(outcome.ends.as_slice(), out),
        Err(failed) => Err(failed),
    }
}

// Writes the report of a run, one line after another.
fn write_report<S, O: Sink>(outcome: &Outcome<S>, out: &mut O) -> Result<(), Failed>
    ensures { Puts (report_text outcome.now) result (O.state out.old) (O.state out.new) }
{
    if outcome.ends.as_slice().is_empty() {
        return write_line(out, &status_line(outcome.status));
    }
    match write_account(outcome, out) {
        Ok(()) => write_line(out, &status_line(outcome.status)),
        Err(failed) => Err(failed),
    }
}

/// Writes the report of a run that ended so, and answers how it ended with it.
pub fn report<S, O: Sink>(outcome: &Outcome<S>, out: &mut O) -> Status
    requires { (outcome.now.status ≡ Status.ReportFault → ⊥) }
    ensures reports { ReportsBy result (report_text outcome.now) (O.state out.old) (O.state out.new) }
    ensures same { (result ≡ outcome.now.status) ⊎ ((outcome.now.status ≡ Status.Done) × (result ≡ Status.ReportFault)) }
{
    match write_report(outcome, out) {
        Ok(()) => outcome.status,
        Err(_) => without_report(outcome.status),
    }
}

// How a run ends that ended so, and whose report could not be written.
fn without_report(status: Status) -> Status
    ensures { result ≡ unreported status }
{
    match status {
        Status::Done => Status::ReportFault,
        other => other,
    }
}
