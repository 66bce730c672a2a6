// Standard output.
ghost use Rattle.std.specs.Prelude.{◌≡◌, None};
ghost use Rattle.rmx_edge.specs.Faults.{count_of};

use crate::faults::Faults;
use crate::{Failed, Sink};
use std::io;
use std::io::Write;

/// A sink over standard output. It tells no content.
#[derive(Drop)]
pub struct StdSink<R: Print + Drop> {
    rt: R,
    faults: Faults,
}

impl<R: Print + Drop> StdSink<R> {
    /// Nothing is written yet.
    pub fn new(rt: R) -> StdSink<R>
        ensures { (⟦<StdSink<R> as Sink>⟧.state result).faults ≡ 0 }
    {
        StdSink {
            rt,
            faults: Faults::new(),
        }
    }

    /// The last error of the system.
    pub fn last_error(&self) -> Option<&io::Error> {
        self.faults.last()
    }
}

impl<R: Print + Drop> Sink for StdSink<R> {
    ghost state = { λ s. record { bytes = None; faults = count_of s.faults; sound_for = None } };

    fn write(&mut self, bytes: &[u8]) -> Result<(), Failed> {
        let mut out = io::writer(&self.rt);
        match out.write_all(bytes) {
            Ok(()) => Ok(()),
            Err(error) => {
                self.faults.note(error);
                Err(Failed)
            }
        }
    }
}
