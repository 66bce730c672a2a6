// Files as inputs.
ghost use Rattle.std.specs.Prelude.{◌≡◌, ◌<◌, None, is_some, true, false, length};
ghost use Rattle.std.specs.Io.KnownBytes.{ReadConsumes};
ghost use Rattle.rmx_edge.specs.Faults.{count_of};
ghost use Rattle.rmx_edge.specs.Gathered.{WhileOpen};

use crate::claim::Claim;
use crate::faults::Faults;
use crate::gathered::read_some;
use crate::{Failed, Inputs};
use std::fs::OpenFile;
use std::rt::Files;
use std::{fs, io};

/// Inputs over files. They tell no content. What is opened is claimed until the next one is, so that no output of
/// the run overwrites it.
#[derive(Drop)]
pub struct FileInputs<R: Files + Drop>
where
    R::File: Drop,
{
    rt: R,
    claim: Claim,
    file: Option<R::File>,
    faults: Faults,
}

impl<R: Files + Drop> FileInputs<R>
where
    R::File: Drop,
{
    ghost use Rattle.rmx_edge.specs.Count.{raised};

    /// Nothing is open. The claim is one of those of the run.
    pub fn new(rt: R, claim: Claim) -> FileInputs<R>
        ensures idle { (⟦<FileInputs<R> as Inputs>⟧.state result).readable ≡ false }
        ensures count { (⟦<FileInputs<R> as Inputs>⟧.state result).faults ≡ 0 }
    {
        FileInputs {
            rt,
            claim,
            file: None,
            faults: Faults::new(),
        }
    }

    /// The last error of the system.
    pub fn last_error(&self) -> Option<&io::Error> {
        self.faults.last()
    }

    fn open(&self, name: &str) -> io::Result<R::File> {
        let file = fs::open(&self.rt, name)?;
        let facts = file.metadata()?;
        self.claim.take(&facts);
        Ok(file)
    }

    // Nothing is read any more.
    fn give_up(&mut self, error: io::Error) -> Failed
        ensures file { self.new.file ≡ None }
        ensures faults { count_of self.new.faults ≡ raised (count_of self.old.faults) 1 }
    {
        self.file = None;
        self.faults.note(error);
        Failed
    }
}

impl<R: Files + Drop> Inputs for FileInputs<R>
where
    R::File: Drop,
{
    ghost use Rattle.rmx_edge.specs.Inputs.{Reads};

    ghost state = { λ s. record { view = None; readable = is_some s.file; faults = count_of s.faults; sound_at = λ _. false; sound_now = false } };

    fn open_input(&mut self, name: &str) -> Result<(), Failed> {
        match self.open(name) {
            Ok(file) => {
                self.file = Some(file);
                Ok(())
            }
            Err(error) => Err(self.give_up(error)),
        }
    }

    fn read(&mut self, buf: &mut [u8]) -> Result<usize, Failed>
        requires readable { is_some self.old.file ≡ true }
        requires room { 0 < length buf.old }
        ensures taken { Reads result buf.new (⟦<FileInputs<R> as Inputs>⟧.state self.old) (⟦<FileInputs<R> as Inputs>⟧.state self.new) }
        // The bytes are the file's next ones, all that were read.
        ensures told { WhileOpen R.File.remaining self.old.file self.new.file (λ old new. ReadConsumes old new result buf.new) }
    {
        if let Some(file) = &mut self.file {
            return match read_some(file, buf) {
                Ok(0) => {
                    self.file = None;
                    Ok(0)
                }
                Ok(count) => Ok(count),
                Err(error) => Err(self.give_up(error)),
            };
        }
        unreachable!()
    }
}
