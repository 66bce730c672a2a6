//! Copies the streams of an FLV file into other files, decodes nothing, and reports how that ended.
#![tactic(auto)]

ghost use Rattle.std.specs.Prelude.{◌≡◌, false, length, All, IfOk};

mod carry;
#[cfg(test)]
mod cut_reads;
mod demux;
mod ending;
mod explain;
#[cfg(test)]
mod gates;
mod generate;
mod give;
mod help;
#[cfg(test)]
mod made;
#[cfg(test)]
mod mishaps;
mod outputs;
mod probe;
mod progress;
mod pump;
mod read;
#[cfg(test)]
mod recovered;
mod report;
mod run;
#[cfg(test)]
mod schedules;
mod status;
mod take;
#[cfg(test)]
mod tests;
mod threaded;
#[cfg(test)]
mod told;
#[cfg(test)]
mod worked;

use explain::explain;
use help::{HELP, VERSION};
use progress::{Watched, Wiping};
use rmx_edge::{Claim, DirShelf, FileInputs, OpenGate, Shelf, StdSink, claims};
use slave::ThreadSpawner;
use status::Status;
use std::alloc::{AllocError, Global};
use std::io::IsTerminal;
use std::process::ExitCode;
use std::rt::Files;
use std::sync::Arc;
use std::{env, io};
use threaded::run;

/// The shelves of a run.
const SHELVES: usize = 16;

/// A block that the C library takes from the system and not from its heap.
const LARGE_BLOCK: usize = 1024 * 1024;

/// What is reported where a word isn't UTF-8 text.
const NOT_UTF8: &str = "status 1 words fault=1 word=0\n";

/// What is reported where memory is wanted before the run begins.
const NO_MEMORY: &str = "status 6 no memory\n";

// Has the C library keep freed memory for the next piece of the input. It hands a free end of the heap of more than 128 KiB back to
// the system, and would so take and return the same pages all the time; once a large block was freed it keeps up to twice as
// much (mallopt(3), M_MMAP_THRESHOLD). No page of this block is touched.
fn keep_freed_memory(alloc: Global) {
    drop(Vec::<u8>::with_capacity(alloc, LARGE_BLOCK));
}

// The shelves of a run, which write real files. Each has a claim of its own.
fn shelves<R: Files + Clone + Drop>(
    alloc: Global,
    rt: &R,
    claims: &mut Vec<Claim>,
) -> io::Result<Vec<DirShelf<R>>>
where
    R::File: Drop,
    ensures count { IfOk result (λ v. length v.items ≡ 16) }
    ensures idle { IfOk result (λ v. All (λ s. (⟦<DirShelf<R> as Shelf>⟧.state s).writing ≡ false) v.items) }
{
    let mut shelves = Vec::new(alloc);
    for _ in 0..SHELVES {
        match claims.pop() {
            Some(claim) => shelves.push(DirShelf::new(alloc, rt.clone()?, claim))?,
            None => return Err(io::Error::from(AllocError)),
        }
    }
    Ok(shelves)
}

// Prints a text, as alone `--help` and `--version` do. One that can't be written ends as a report does that can't.
fn print_text<R: Print>(rt: &R, text: &str) -> ExitCode {
    match rt.print(text) {
        Ok(()) => ExitCode::SUCCESS,
        Err(_) => ExitCode::from(Status::ReportFault.number()),
    }
}

// What is told where memory is wanted before the run begins. The status stays, also where neither text is taken.
fn want_memory<R: Print + Eprint>(rt: &R) -> ExitCode {
    let _ = rt.print(NO_MEMORY);
    let _ = rt.eprintln("remux: there wasn't enough memory");
    ExitCode::from(Status::NoMemory.number())
}

type Host = HostRuntime;

type RealShelves = Vec<DirShelf<Host>>;

type RealInputs = Watched<FileInputs<Host>, Host>;

type RealSink = Wiping<StdSink<Host>, Host>;

// The real outside of a run. It fails for want of memory alone.
fn outside(rt: &Host) -> io::Result<(RealShelves, RealInputs, RealSink, Arc<OpenGate>)>
    ensures count { IfOk result (λ o. length o.0.items ≡ 16) }
    ensures idle { IfOk result (λ o. All (λ s. (⟦<DirShelf<Host> as Shelf>⟧.state s).writing ≡ false) o.0.items) }
{
    let alloc = rt.alloc();
    let mut claims = claims(alloc, SHELVES + 1)?;
    let shelves = shelves(alloc, rt, &mut claims)?;
    let Some(claim) = claims.pop() else {
        return Err(io::Error::from(AllocError));
    };
    let waits = rt.stderr().is_terminal();
    let files = FileInputs::new(rt.clone()?, claim);
    let inputs = Watched::new(files, rt.clone()?, waits);
    let out = Wiping::new(StdSink::new(rt.clone()?), rt.clone()?, waits);
    Ok((shelves, inputs, out, Arc::new(alloc, OpenGate)?))
}

// The words of the command line, or how the program ends where they can't be had.
fn words_of(rt: &Host) -> io::Result<Result<Vec<String>, ExitCode>> {
    match env::args(rt) {
        Ok(args) => match args.skip(1).collect(rt.alloc()) {
            Ok(words) => Ok(Ok(words)),
            Err(_) => Ok(Err(want_memory(rt))),
        },
        Err(error) if error.kind() == io::ErrorKind::InvalidData => {
            // The status stays, also where neither text is taken.
            let _ = rt.print(NOT_UTF8);
            let _ = rt.eprintln("remux: the words must be UTF-8 text");
            Ok(Err(ExitCode::from(1)))
        }
        Err(error) if error.kind() == io::ErrorKind::OutOfMemory => Ok(Err(want_memory(rt))),
        Err(error) => Err(error),
    }
}

fn main(rt: HostRuntime) -> io::Result<ExitCode> {
    let alloc = rt.alloc();
    let words = match words_of(&rt)? {
        Ok(words) => words,
        Err(status) => return Ok(status),
    };
    match words.as_slice() {
        [word] if word.as_str() == "--help" || word.as_str() == "-h" => {
            return Ok(print_text(&rt, HELP));
        }
        [word] if word.as_str() == "--version" => return Ok(print_text(&rt, VERSION)),
        _ => {}
    }
    keep_freed_memory(alloc);
    let Ok((shelves, mut inputs, mut out, gate)) = outside(&rt) else {
        return Ok(want_memory(&rt));
    };
    let outcome = run(
        &rt,
        &words,
        &mut inputs,
        shelves,
        &mut out,
        gate,
        &mut ThreadSpawner::new(),
    );
    // The status is the run's, also where standard error takes nothing.
    let _ = explain(
        alloc,
        &rt,
        words.as_slice(),
        &outcome,
        inputs.inner().last_error(),
    );
    Ok(ExitCode::from(outcome.status.number()))
}
