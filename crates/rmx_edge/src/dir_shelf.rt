// Files of the file system as a shelf.
ghost use Rattle.std.specs.Prelude.{◌≡◌, ◌<◌, [], None, is_some, true, false, length, OnOk};
ghost use Rattle.std.specs.Io.KnownBytes.{Appends};
ghost use Rattle.rmx_edge.specs.Faults.{count_of};
ghost use Rattle.rmx_edge.specs.Gathered.{Gathers, OnOpen};

use crate::claim::Claim;
use crate::faults::Faults;
use crate::gathered::{write_later, write_pending};
use crate::{Shelf, ShelfFault};
use std::alloc::Global;
use std::fs::{OpenFile, OpenOptions};
use std::io;
use std::rt::Files;

/// A shelf over files. It tells no content, and gathers small pieces until `flush`, `close` or 64 KiB of them.
///
/// A name that is the input of the run, or a file that another output of the run has open, is refused before
/// anything of that file is lost. Any other file is overwritten.
#[derive(Drop)]
pub struct DirShelf<R: Files + Drop>
where
    R::File: Drop,
{
    rt: R,
    claim: Claim,
    file: Option<R::File>,
    pending: Vec<u8>,
    faults: Faults,
    // So no byte of a file that was given up gets into the next one.
    ghost clean: { is_some file ≡ false → pending.items ≡ [] },
    // However small the pieces and however late the flush, less than 64 KiB wait.
    ghost bounded: { length pending.items < 65536 },
}

impl<R: Files + Drop> DirShelf<R>
where
    R::File: Drop,
{
    ghost use Rattle.rmx_edge.specs.Count.{raised};

    /// No file is open. The claim is one of those of the run.
    pub fn new(alloc: Global, rt: R, claim: Claim) -> DirShelf<R>
        ensures idle { (⟦<DirShelf<R> as Shelf>⟧.state result).writing ≡ false }
        ensures count { (⟦<DirShelf<R> as Shelf>⟧.state result).faults ≡ 0 }
    {
        DirShelf {
            rt,
            claim,
            file: None,
            pending: Vec::new(alloc),
            faults: Faults::new(),
        }
    }

    /// The last error of the system.
    pub fn last_error(&self) -> Option<&io::Error> {
        self.faults.last()
    }

    // Opens the file, and empties it once it is claimed.
    fn open(&self, name: &str) -> io::Result<R::File> {
        let file = OpenOptions::new()
            .write(true)
            .create(true)
            .open(&self.rt, name)?;
        let facts = file.metadata()?;
        if !self.claim.take(&facts) {
            let message = "the input of this run, or a file that another output has open";
            return Err(io::Error::new(io::ErrorKind::AlreadyExists, message));
        }
        if facts.is_file() {
            file.set_len(0)?;
        }
        Ok(file)
    }

    // Nothing is written any more.
    fn give_up(&mut self, error: io::Error) -> ShelfFault
        ensures fault { result ≡ ShelfFault.Failed }
        ensures file { self.new.file ≡ None }
        ensures faults { count_of self.new.faults ≡ raised (count_of self.old.faults) 1 }
    {
        self.claim.release();
        self.file = None;
        self.pending.clear();
        self.faults.note(error);
        ShelfFault::Failed
    }
}

impl<R: Files + Drop> Shelf for DirShelf<R>
where
    R::File: Drop,
{
    ghost use Rattle.rmx_edge.specs.Shelf.{Create, Write, Makes, Flushes};

    ghost state = { λ s. record { takes = None; calls = None; accepted = None; writing = is_some s.file; faults = count_of s.faults; wants = 0; sound = false } };

    fn create(&mut self, name: &str) -> Result<(), ShelfFault>
        requires { is_some self.old.file ≡ false }
        ensures made { Makes (Create name.now) result (⟦<DirShelf<R> as Shelf>⟧.state self.old) (⟦<DirShelf<R> as Shelf>⟧.state self.new) }
        // Nothing of a file before gets into this one.
        ensures clean { self.new.pending.items ≡ [] }
    {
        match self.open(name) {
            Ok(file) => {
                self.file = Some(file);
                Ok(())
            }
            Err(error) => Err(self.give_up(error)),
        }
    }

    fn write(&mut self, bytes: &[u8]) -> Result<(), ShelfFault>
        requires { is_some self.old.file ≡ true }
        ensures made { Makes (Write bytes.now) result (⟦<DirShelf<R> as Shelf>⟧.state self.old) (⟦<DirShelf<R> as Shelf>⟧.state self.new) }
        // The bytes come behind all before them, in the file or among what is pending.
        ensures told { OnOk result (OnOpen R.File.contents self.old.file self.new.file (λ old new. Gathers old self.old.pending.items new self.new.pending.items bytes.now)) }
    {
        if let Some(file) = &mut self.file {
            return match write_later(file, &mut self.pending, bytes) {
                Ok(()) => Ok(()),
                Err(error) => Err(self.give_up(error)),
            };
        }
        unreachable!()
    }

    fn close(&mut self) -> Result<(), ShelfFault> {
        if let Some(file) = &mut self.file {
            return match write_pending(file, &mut self.pending) {
                Ok(()) => {
                    self.claim.release();
                    self.file = None;
                    Ok(())
                }
                Err(error) => Err(self.give_up(error)),
            };
        }
        unreachable!()
    }

    fn flush(&mut self) -> Result<(), ShelfFault>
        requires { is_some self.old.file ≡ true }
        ensures flushed { Flushes result (⟦<DirShelf<R> as Shelf>⟧.state self.old) (⟦<DirShelf<R> as Shelf>⟧.state self.new) }
        // All that was pending is in the file, and nothing is pending.
        ensures told { OnOk result (OnOpen R.File.contents self.old.file self.new.file (λ old new. Appends old new self.old.pending.items)) }
        ensures none { OnOk result (self.new.pending.items ≡ []) }
    {
        if let Some(file) = &mut self.file {
            return match write_pending(file, &mut self.pending) {
                Ok(()) => Ok(()),
                Err(error) => Err(self.give_up(error)),
            };
        }
        unreachable!()
    }

    fn fault_count(&self) -> u64 {
        self.faults.count()
    }

    fn want_count(&self) -> u64 {
        0
    }
}
