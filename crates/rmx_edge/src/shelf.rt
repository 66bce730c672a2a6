// Where files are written.
ghost use Rattle.std.specs.Prelude.{◌≡◌, true, false};
ghost use Rattle.rmx_edge.specs.Shelf.{ShelfState, Create, Write, Close, Makes, Flushes};

/// Why a call of a shelf was refused.
#[derive(Clone, Copy, Debug, PartialEq, Eq)]
pub enum ShelfFault {
    /// The outside failed.
    Failed,
    /// The shelf wanted memory.
    NoMemory,
}

/// A place where files are written one after another, each by its name: a take.
///
/// After a refused `write`, `close` or `flush` the take is no longer being written and isn't closed.
pub trait Shelf {
    /// What clauses see of it.
    ghost state: { Self → ShelfState };

    /// Begins an empty take of this name. No take may be being written. A refusal adds none.
    fn create(&mut self, name: &str) -> Result<(), ShelfFault>
        requires { (state self.old).writing ≡ false }
        ensures made { Makes (Create name.now) result (state self.old) (state self.new) };

    /// Adds the bytes to the take that is being written. A refusal adds a prefix of them.
    fn write(&mut self, bytes: &[u8]) -> Result<(), ShelfFault>
        requires { (state self.old).writing ≡ true }
        ensures made { Makes (Write bytes.now) result (state self.old) (state self.new) };

    /// Closes the take that is being written. A refusal keeps its bytes.
    fn close(&mut self) -> Result<(), ShelfFault>
        requires { (state self.old).writing ≡ true }
        ensures made { Makes Close result (state self.old) (state self.new) };

    /// Hands what was written so far to the system. It is no call of the count, and changes nothing that is told
    /// unless it is refused: then the last write counts as refused after it kept its whole piece.
    fn flush(&mut self) -> Result<(), ShelfFault>
        requires { (state self.old).writing ≡ true }
        ensures flushed { Flushes result (state self.old) (state self.new) }
    {
        Ok(())
    }

    /// How often the outside failed. It never falls.
    fn fault_count(&self) -> u64
        ensures { result ≡ (state self.now).faults };

    /// How often memory was wanted. It never falls.
    fn want_count(&self) -> u64
        ensures { result ≡ (state self.now).wants };
}
