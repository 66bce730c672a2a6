//! Why words were refused.

ghost use Rattle.std.specs.Prelude.{◌≡◌};
ghost use Rattle.options.specs.declared.fault.ReadError.TheVariants.{Memory};

use rmx_media::NoMemory as MemoryRefused;
use std::alloc::{AllocError, AllocFailed};

/// What is wrong with words. The numbers are those of the report.
#[derive(Clone, Copy, Debug, PartialEq, Eq)]
pub enum WordKind {
    UnknownWord = 1,
    MissingValue = 2,
    NoInput = 3,
    NoOutput = 4,
    UnknownFormat = 5,
    UnknownOption = 6,
    BadValue = 7,
    DanglingEscape = 8,
    UnclosedBlock = 9,
    TooManySlaves = 10,
    SameTarget = 11,
    BadTemplate = 12,
    BadFilter = 13,
    NameTooLong = 14,
    NoMemory = 15,
}

/// The first fault of the words from the left.
#[derive(Clone, Copy, Debug, PartialEq, Eq)]
pub struct WordFault {
    pub kind: WordKind,
    /// The number of the word at fault, from 0; 2^32 − 1 for every later one.
    pub word: u32,
}

/// Why a reader of texts stopped.
#[derive(Clone, Copy, Debug, PartialEq, Eq)]
pub enum ReadError {
    /// Memory was refused.
    Memory,
    /// The text is at fault.
    Fault(WordKind),
}

impl From<AllocError> for ReadError {
    ghost from_gives = { λ _ e. e ≡ Memory };

    fn from(_e: AllocError) -> ReadError {
        ReadError::Memory
    }
}

impl<T: Drop> From<AllocFailed<T>> for ReadError {
    ghost from_gives = { λ _ e. e ≡ Memory };

    fn from(_e: AllocFailed<T>) -> ReadError {
        ReadError::Memory
    }
}

impl From<MemoryRefused> for ReadError {
    ghost from_gives = { λ _ e. e ≡ Memory };

    fn from(_e: MemoryRefused) -> ReadError {
        ReadError::Memory
    }
}
