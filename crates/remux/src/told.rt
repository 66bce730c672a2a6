// What is told of an output, in lines, for the tests that compare all of it.
use super::worked::{Ran, file, shelf_of};
use rmx_edge::MemShelf;
use slave::SlaveEnd;
use std::alloc::Global;
use std::test::Fail;

fn end_of(ran: &Ran, output: usize) -> Result<&SlaveEnd<MemShelf>, Fail> {
    let end = ran.outcome.ends.as_slice().get(output);
    Ok(end.ok_or("no such output")?)
}

// What is told of an output but for its lane: how it ended, its files, sessions and faults, and the fates of its packets.
pub(super) fn told(alloc: Global, ran: &Ran, output: usize) -> Result<String, Fail> {
    let end = end_of(ran, output)?;
    let mut lines = format!(in alloc; "{:?} bytes={}\n", end.state, end.bytes)?;
    add_files(alloc, &mut lines, &end.shelf)?;
    add_sessions(alloc, &mut lines, end)?;
    add_faults(alloc, &mut lines, end)?;
    add_fates(alloc, &mut lines, end)?;
    Ok(lines)
}

fn add_files(alloc: Global, lines: &mut String, shelf: &MemShelf) -> Result<(), Fail> {
    for at in 0..shelf.take_count() {
        if let Some((name, bytes, closed)) = file(shelf, at) {
            let line = format!(in alloc; "file {name} closed={closed} bytes={}\n", bytes.len())?;
            lines.push_str(&line)?;
        }
    }
    Ok(())
}

fn add_sessions(alloc: Global, lines: &mut String, end: &SlaveEnd<MemShelf>) -> Result<(), Fail> {
    for note in end.sessions.as_slice() {
        let line = format!(in alloc;
            "session {} begun={} closed={}\n",
            note.number, note.begun, note.closed
        )?;
        lines.push_str(&line)?;
    }
    Ok(())
}

fn add_faults(alloc: Global, lines: &mut String, end: &SlaveEnd<MemShelf>) -> Result<(), Fail> {
    for note in end.faults.as_slice() {
        let line = format!(in alloc;
            "fault session={} {:?} {}..{}\n",
            note.session, note.at, note.before, note.after
        )?;
        lines.push_str(&line)?;
    }
    Ok(())
}

fn add_fates(alloc: Global, lines: &mut String, end: &SlaveEnd<MemShelf>) -> Result<(), Fail> {
    for run in end.fates.as_slice() {
        let line = format!(in alloc; "{:?} first={} count={}\n", run.fate, run.first, run.count)?;
        lines.push_str(&line)?;
    }
    Ok(())
}

// What is told of an output's lane.
pub(super) fn lane_of(alloc: Global, ran: &Ran, output: usize) -> Result<String, Fail> {
    let end = end_of(ran, output)?;
    let Some(note) = &end.lane else {
        return Ok(format!(in alloc; "inline={}\n", end.inline)?);
    };
    let c = &note.counts;
    let mut lines = format!(in alloc;
        "inline={}\ncap={} limit={} drops={}\ngiven={} got={} overs={}\nclosed={} failed={}\nasked={} told={:?}\n",
        end.inline,
        note.cap,
        c.limit(),
        c.drops(),
        c.given(),
        c.got(),
        c.overs(),
        c.closed(),
        c.failed(),
        c.asked(),
        c.told()
    )?;
    for r in note.receipts.as_slice() {
        let line = format!(in alloc;
            "receipt {} {} {} {} {}\n",
            r.number(),
            r.index(),
            r.accepted(),
            r.head(),
            r.bytes()
        )?;
        lines.push_str(&line)?;
    }
    Ok(lines)
}

// The bytes of all files of an output, one behind another.
pub(super) fn bytes_of(alloc: Global, ran: &Ran, output: usize) -> Result<Vec<u8>, Fail> {
    let shelf = shelf_of(ran, output)?;
    let mut all = Vec::new(alloc);
    for at in 0..shelf.take_count() {
        if let Some((_, bytes, _)) = file(shelf, at) {
            all.extend_from_slice(bytes)?;
        }
    }
    Ok(all)
}

// Whether this is told of an output.
pub(super) fn tells(alloc: Global, ran: &Ran, output: usize, wanted: &str) -> Result<bool, Fail> {
    Ok(told(alloc, ran, output)?.as_str() == wanted)
}

// Whether this is told of an output, and this of its lane.
pub(super) fn is_told(
    alloc: Global,
    ran: &Ran,
    output: usize,
    wanted: &str,
    lane: &str,
) -> Result<bool, Fail> {
    Ok(tells(alloc, ran, output, wanted)? && lane_of(alloc, ran, output)?.as_str() == lane)
}

// Whether an output's file holds these bytes.
pub(super) fn has_bytes(
    alloc: Global,
    ran: &Ran,
    output: usize,
    wanted: &[u8],
) -> Result<bool, Fail> {
    Ok(bytes_of(alloc, ran, output)?.as_slice() == wanted)
}
