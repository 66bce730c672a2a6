// What is said to people, on standard error. No promise speaks of it; docs/FORMATS.md has the form of its lines.
use crate::help::wrong_word;
use crate::run::Outcome;
use crate::status::{Ending, Refusal, Status};
use fifo_core::{EndState, Fate};
use options::read_words;
use rmx_edge::DirShelf;
use slave::{Run, SlaveEnd};
use std::alloc::Global;
use std::io;
use std::rt::Files;

/// Says how a run ended that has no good end, with the system's own words where it has some, and, where an output isn't whole,
/// which packets each has and lacks, and why. Nothing is said where all is well.
pub fn explain<R: Files + Eprint + Drop>(
    alloc: Global,
    rt: &R,
    words: &[String],
    outcome: &Outcome<DirShelf<R>>,
    input_error: Option<&io::Error>,
) -> io::Result<()>
where
    R::File: Drop,
{
    explain_status(rt, words, outcome.status, input_error)?;
    let ends = outcome.ends.as_slice();
    if ends
        .iter()
        .all(|end| is_whole(end.state, end.fates.as_slice()))
    {
        return Ok(());
    }
    let plan = read_words(alloc, words);
    for (slave, end) in ends.iter().enumerate() {
        if let Ok(plan) = &plan
            && let Some(said) = plan.slaves.as_slice().get(slave)
        {
            eprintln!(rt; "remux: output {slave} is {}", said.name.as_str())?;
        }
        explain_state(rt, slave, end)?;
        explain_fates(rt, slave, end.fates.as_slice())?;
    }
    Ok(())
}

// Says how a run ended, but for its outputs.
fn explain_status<R: Eprint>(
    rt: &R,
    words: &[String],
    status: Status,
    input_error: Option<&io::Error>,
) -> io::Result<()> {
    match (status, input_error) {
        (Status::Done, _) => Ok(()),
        (Status::Words(fault), _) => {
            let word = match usize::try_from(fault.word) {
                Ok(at) if at < words.len() => words[at].as_str(),
                _ => "",
            };
            eprintln!(rt;
                "remux: word {} ({word}): {}",
                fault.word,
                wrong_word(fault.kind)
            )?;
            eprintln!(rt; "remux: try 'remux --help'")
        }
        (Status::SlaveFailed(slave), _) => {
            eprintln!(rt; "remux: output {slave} could not be written whole")
        }
        (Status::InputRefused(Refusal::NoneSelected(slave)), _) => {
            eprintln!(rt; "remux: output {slave} takes none of the input's streams")
        }
        (Status::InputFault, Some(error)) => {
            eprintln!(rt; "remux: {}: {error}", sentence(status))
        }
        _ => eprintln!(rt; "remux: {}", sentence(status)),
    }
}

// Whether an output ended well and lacks nothing.
fn is_whole(state: EndState, fates: &[Run]) -> bool {
    let written = fates.iter().all(|run| matches!(run.fate, Fate::Written(_)));
    written && state == EndState::Closed
}

// Says how an output ended, with the system's own words for its last fault.
fn explain_state<R: Files + Eprint + Drop>(
    rt: &R,
    slave: usize,
    end: &SlaveEnd<DirShelf<R>>,
) -> io::Result<()>
where
    R::File: Drop,
{
    match (end.state, end.shelf.last_error()) {
        (EndState::Closed, None) => Ok(()),
        (EndState::Closed, Some(error)) => {
            eprintln!(rt; "remux: output {slave} went on after a failure: {error}")
        }
        (EndState::Failed, None) => eprintln!(rt; "remux: output {slave} failed"),
        (EndState::Failed, Some(error)) => eprintln!(rt; "remux: output {slave} failed: {error}"),
        (EndState::NoMemory, _) => eprintln!(rt; "remux: output {slave} wanted memory"),
    }
}

// What became of packets that follow one another.
#[derive(Clone, Copy, PartialEq, Eq)]
enum Kind {
    // They are written, in the session of that number.
    Written(u64),
    // They are missing, for this cause.
    Missing(&'static str),
}

// Packets that follow one another and have one kind.
#[derive(Clone, Copy)]
struct Stretch {
    kind: Kind,
    first: u64,
    last: u64,
}

// Says which packets an output has and lacks, and why.
fn explain_fates<R: Eprint>(rt: &R, slave: usize, fates: &[Run]) -> io::Result<()> {
    let mut told = None;
    for run in fates {
        told = Some(join_run(rt, slave, told, stretch_of(run))?);
    }
    match told {
        Some(last) => tell_stretch(rt, slave, last),
        None => Ok(()),
    }
}

// A stretch with one more behind it. Where that doesn't go on with it, the one before is told.
fn join_run<R: Eprint>(
    rt: &R,
    slave: usize,
    before: Option<Stretch>,
    next: Stretch,
) -> io::Result<Stretch> {
    let Some(before) = before else {
        return Ok(next);
    };
    if before.kind == next.kind && before.last.saturating_add(1) == next.first {
        return Ok(Stretch {
            kind: before.kind,
            first: before.first,
            last: next.last,
        });
    }
    tell_stretch(rt, slave, before)?;
    Ok(next)
}

fn stretch_of(run: &Run) -> Stretch {
    let kind = match run.fate {
        Fate::Written(session) => Kind::Written(session),
        Fate::Refused(_) => Kind::Missing("its queue was full"),
        Fate::Flushed(_) => Kind::Missing("dropped after its queue was full"),
        Fate::KeyWait => Kind::Missing("it waits for a key packet"),
        Fate::Lost(_) => Kind::Missing("it failed, or waits before it tries again"),
        Fate::AfterFailure(_) => Kind::Missing("it was given up after a failure"),
        Fate::NoMemory => Kind::Missing("there wasn't enough memory"),
    };
    Stretch {
        kind,
        first: run.first,
        last: run.first.saturating_add(run.count).saturating_sub(1),
    }
}

// Says that an output has these packets, and in which session, or lacks them, and why.
fn tell_stretch<R: Eprint>(rt: &R, slave: usize, stretch: Stretch) -> io::Result<()> {
    let Stretch { kind, first, last } = stretch;
    let count = last.saturating_sub(first).saturating_add(1);
    match kind {
        Kind::Written(session) => {
            eprintln!(rt;
                "remux: output {slave} has packets {first} to {last} ({count} packets): session {session}"
            )
        }
        Kind::Missing(cause) => {
            eprintln!(rt;
                "remux: output {slave} lacks packets {first} to {last} ({count} packets): {cause}"
            )
        }
    }
}

fn sentence(status: Status) -> &'static str {
    match status {
        Status::Done => "all packets are written",
        Status::Words(_) => "the words ask for nothing",
        Status::InputFault => "the input could not be read",
        Status::InputRefused(Refusal::NotFlv) => "the input is no FLV file of version 1",
        Status::InputRefused(Refusal::BadOffset) =>
            "the input's header says that its tags begin inside the header",
        Status::InputRefused(Refusal::NoStreams) =>
            "the input has no stream of AVC video or AAC audio",
        Status::InputRefused(Refusal::NoneSelected(_)) => "an output takes none of the streams",
        Status::InputEnded(Ending::Cut) =>
            "the input ends inside a tag; what came before is written",
        Status::InputEnded(Ending::Limit) =>
            "as many bytes were read as may be; what came first is written",
        Status::SlaveFailed(_) => "an output could not be written whole",
        Status::NoMemory => "there wasn't enough memory",
        Status::ReportFault => "all packets are written, but the report could not be",
    }
}
