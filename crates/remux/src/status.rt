// How a run ends.
ghost use Rattle.std.specs.Prelude.{◌≡◌};
ghost use Rattle.remux.specs.Report.{number_of};

use options::WordFault;

/// How a run ends. The number of each is the status that the process ends with.
#[derive(Clone, Copy, Debug, PartialEq, Eq)]
pub enum Status {
    Done,
    /// The words have no plan.
    Words(WordFault),
    /// The input failed.
    InputFault,
    /// The input can't be written by this plan.
    InputRefused(Refusal),
    /// The input ended where it should not.
    InputEnded(Ending),
    /// An output failed: the first that aborts the run, or the first of all.
    SlaveFailed(u32),
    NoMemory,
    /// The report could not be written.
    ReportFault,
}

/// Why an input is refused.
#[derive(Clone, Copy, Debug, PartialEq, Eq)]
pub enum Refusal {
    NotFlv,
    BadOffset,
    NoStreams,
    /// The output of this number takes none of the streams.
    NoneSelected(u32),
}

/// How an input ended early.
#[derive(Clone, Copy, Debug, PartialEq, Eq)]
pub enum Ending {
    /// Inside a tag.
    Cut,
    /// As many bytes were taken as may be.
    Limit,
}

impl Status {
    /// The status that the process ends with.
    pub fn number(self) -> u8
        ensures { result ≡ number_of self }
    {
        match self {
            Status::Done => 0,
            Status::Words(_) => 1,
            Status::InputFault => 2,
            Status::InputRefused(_) => 3,
            Status::InputEnded(_) => 4,
            Status::SlaveFailed(_) => 5,
            Status::NoMemory => 6,
            Status::ReportFault => 7,
        }
    }
}
