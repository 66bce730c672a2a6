// Faults of the system.
ghost use Rattle.std.specs.Prelude.{◌≡◌, ◌<◌, ◌^◌};

use std::io;

/// How often the system failed, and its last error.
#[derive(Drop)]
pub struct Faults {
    count: u64,
    last: Option<io::Error>,
    ghost small: { count < 2 ^ 64 },
}

impl Faults {
    ghost use Rattle.std.specs.Prelude.{Some, None, MatchOption};
    ghost use Rattle.rmx_edge.specs.Count.{raised};
    ghost use Rattle.rmx_edge.specs.Faults.{count_of, last_of};

    /// No fault yet.
    pub fn new() -> Faults
        ensures count { count_of result ≡ 0 }
        ensures last { last_of result ≡ None }
    {
        Faults {
            count: 0,
            last: None,
        }
    }

    /// One more fault. The count stands still at 2^64 - 1.
    pub fn note(&mut self, error: io::Error)
        ensures count { count_of self.new ≡ raised (count_of self.old) 1 }
        ensures last { last_of self.new ≡ Some error }
    {
        self.count = self.count.saturating_add(1);
        self.last = Some(error);
    }

    /// How many faults there were.
    pub fn count(&self) -> u64
        ensures { result ≡ count_of self.now }
    {
        self.count
    }

    /// The error of the last fault.
    pub fn last(&self) -> Option<&io::Error>
        ensures { MatchOption result (last_of self.now ≡ None) (λ e. last_of self.now ≡ Some e.now) }
    {
        self.last.as_ref()
    }
}
