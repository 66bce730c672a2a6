// What a file has of one PID.
ghost use Rattle.std.specs.Prelude.{◌≡◌};

/// How many cells there were, mod 16, and the version of the last packet, 0 if there is none.
#[derive(Clone, Copy, Debug, PartialEq, Eq)]
pub(crate) struct Track {
    pub(crate) cells: u8,
    pub(crate) version: u64,
}

impl Track {
    /// Nothing yet.
    pub(crate) fn new() -> Track
        ensures { result ≡ record { cells = 0; version = 0 } }
    {
        Track {
            cells: 0,
            version: 0,
        }
    }
}
