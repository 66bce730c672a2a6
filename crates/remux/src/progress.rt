// How far the reading came, for a person who waits at a terminal. No promise speaks of it: what is wrapped does what it does.
ghost use Rattle.std.specs.Prelude.{◌≡◌};

use rmx_edge::{Failed, Inputs, Sink};
use std::fs;
use std::rt::{Clock, Files};
use std::time::{Duration, Instant};

/// After how many ms a person is told for the first time, and how many until the next.
const FIRST_MS: u64 = 1000;

const EVERY_MS: u64 = 500;

// As many blanks as the longest line has characters.
const WIPED: &str =
    "\r                                                                                \r";

/// Inputs round others. Where a person waits for longer than a second, one line on standard error tells how much was read.
#[derive(Drop)]
pub struct Watched<I: Inputs, R: Files + Clock + Eprint + Drop> {
    inputs: I,
    progress: Progress<R>,
}

impl<I: Inputs, R: Files + Clock + Eprint + Drop> Watched<I, R> {
    /// Nothing is open yet. `waits` says whether a person waits.
    pub fn new(inputs: I, rt: R, waits: bool) -> Watched<I, R> {
        Watched {
            inputs,
            progress: Progress {
                rt,
                waits,
                size: None,
                read: 0,
                start: None,
                due: Duration::from_millis(FIRST_MS),
            },
        }
    }

    /// The inputs themselves.
    pub fn inner(&self) -> &I {
        &self.inputs
    }
}

impl<I: Inputs, R: Files + Clock + Eprint + Drop> Inputs for Watched<I, R> {
    ghost state = { λ w. I.state w.inputs };

    fn open_input(&mut self, name: &str) -> Result<(), Failed> {
        self.progress.begin(name);
        self.inputs.open_input(name)
    }

    fn read(&mut self, buf: &mut [u8]) -> Result<usize, Failed> {
        let answer = self.inputs.read(buf);
        if let Ok(count) = answer {
            self.progress.add(count);
        }
        answer
    }
}

/// A sink round another one. Before its first line the line of the progress is wiped.
#[derive(Drop)]
pub struct Wiping<O: Sink, R: Clock + Eprint + Drop> {
    sink: O,
    rt: R,
    // Since when a person waits, where one does and nothing is wiped yet.
    since: Option<Instant>,
}

impl<O: Sink, R: Clock + Eprint + Drop> Wiping<O, R> {
    /// Nothing is written yet. `waits` says whether a person waits.
    pub fn new(sink: O, rt: R, waits: bool) -> Wiping<O, R> {
        let since = if waits { Instant::now(&rt).ok() } else { None };
        Wiping { sink, rt, since }
    }

    // Wipes the line that there may be since the first second. That a terminal takes nothing matters to nobody here.
    fn wipe(&mut self)
        ensures { self.new.sink ≡ self.old.sink }
    {
        if let Some(since) = self.since {
            self.since = None;
            if let Ok(passed) = since.elapsed(&self.rt)
                && passed >= Duration::from_millis(FIRST_MS)
            {
                let _ = self.rt.eprint(WIPED);
            }
        }
    }
}

impl<O: Sink, R: Clock + Eprint + Drop> Sink for Wiping<O, R> {
    ghost state = { λ w. O.state w.sink };

    fn write(&mut self, bytes: &[u8]) -> Result<(), Failed> {
        self.wipe();
        self.sink.write(bytes)
    }
}

// What is told of the reading.
#[derive(Drop)]
struct Progress<R: Files + Clock + Eprint + Drop> {
    rt: R,
    waits: bool,
    // The size of the input, where that is known.
    size: Option<u64>,
    read: u64,
    start: Option<Instant>,
    due: Duration,
}

impl<R: Files + Clock + Eprint + Drop> Progress<R> {
    // The input of this name is to be opened.
    fn begin(&mut self, name: &str) {
        if !self.waits {
            return;
        }
        self.size = match fs::metadata(&self.rt, name) {
            Ok(facts) if facts.is_file() => Some(facts.len()),
            _ => None,
        };
        self.read = 0;
        self.start = Instant::now(&self.rt).ok();
        self.due = Duration::from_millis(FIRST_MS);
    }

    // So many more bytes were read.
    fn add(&mut self, count: usize) {
        self.read = self.read.saturating_add(count as u64);
        if !self.waits {
            return;
        }
        let Some(start) = self.start else {
            return;
        };
        let Ok(passed) = start.elapsed(&self.rt) else {
            return;
        };
        if passed >= self.due {
            self.due = passed.saturating_add(Duration::from_millis(EVERY_MS));
            self.tell(passed);
        }
    }

    // Tells how much was read in this time. Where that can't be written, no more is told.
    fn tell(&mut self, passed: Duration) {
        let read = tenths(self.read);
        let rate = tenths(rate(self.read, passed));
        let told = match self.size {
            Some(size) => {
                let all = tenths(size);
                let part = percent(self.read, size);
                eprint!(&self.rt;
                    "\rremux: read {}.{} of {}.{} MB ({part} %), {}.{} MB/s    ",
                    read.0, read.1, all.0, all.1, rate.0, rate.1
                )
            }
            None => {
                eprint!(&self.rt;
                    "\rremux: read {}.{} MB, {}.{} MB/s    ",
                    read.0, read.1, rate.0, rate.1
                )
            }
        };
        self.waits = told.is_ok();
    }
}

// So many bytes as megabytes and tenths of one.
fn tenths(bytes: u64) -> (u64, u64) {
    let tenths = bytes / 100_000;
    (tenths / 10, tenths % 10)
}

// How many bytes a second these are.
fn rate(bytes: u64, passed: Duration) -> u64 {
    let ms = passed.as_millis().max(1);
    u64::try_from(u128::from(bytes) * 1000 / ms).unwrap_or(u64::MAX)
}

// How many percent of the whole these are.
fn percent(bytes: u64, size: u64) -> u64 {
    u64::try_from(u128::from(bytes) * 100 / u128::from(size.max(1))).unwrap_or(u64::MAX)
}
