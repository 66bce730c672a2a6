// Where a report goes.
ghost use Rattle.rmx_edge.specs.Sink.{SinkState, Puts};

use crate::Failed;

/// A place for text that is written once. It counts its faults; the count never falls.
pub trait Sink {
    /// What clauses see of it.
    ghost state: { Self → SinkState };

    /// Adds the bytes. A failure adds a prefix of them, and comes only where the count of faults rose.
    fn write(&mut self, bytes: &[u8]) -> Result<(), Failed>
        ensures put { Puts bytes.now result (state self.old) (state self.new) };
}
