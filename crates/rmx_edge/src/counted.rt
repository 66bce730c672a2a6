// A shelf that counts the bytes that it accepts.
ghost use Rattle.std.specs.Prelude.{◌≡◌, ◌<◌, ◌^◌};

use crate::{Shelf, ShelfFault};

/// A shelf round another one, which tells how many bytes that one accepted.
#[derive(Drop)]
pub struct Counted<S: Shelf> {
    shelf: S,
    // The bytes of all calls before the last one, and of that one, which a refused flush takes back.
    before: u64,
    last: u64,
    ghost before_small: { before < 2 ^ 64 },
    ghost last_small: { last < 2 ^ 64 },
}

impl<S: Shelf> Counted<S> {
    ghost use Rattle.rmx_edge.specs.Count.{raised};
    ghost use Rattle.rmx_edge.specs.Counted.{with_count, inner, bytes_of};

    /// Counts from 0.
    pub fn new(shelf: S) -> Counted<S>
        ensures state { (⟦<Counted<S> as Shelf>⟧.state result) ≡ with_count (S.state shelf) 0 0 }
        ensures inner { inner result ≡ shelf }
    {
        Counted {
            shelf,
            before: 0,
            last: 0,
        }
    }

    /// The bytes of all accepted writes, at most 2^64 - 1. Those of a write whose flush was refused are left out.
    pub fn bytes(&self) -> u64
        ensures { result ≡ bytes_of self.now }
    {
        self.before.saturating_add(self.last)
    }

    /// The shelf itself.
    pub fn into_inner(self) -> S
        ensures { result ≡ inner self }
    {
        self.shelf
    }

    // One more call, which accepted so many bytes.
    fn count(&mut self, size: u64)
        ensures shelf { self.new.shelf ≡ self.old.shelf }
        ensures before { self.new.before ≡ raised self.old.before self.old.last }
        ensures last { self.new.last ≡ size }
    {
        self.before = self.before.saturating_add(self.last);
        self.last = size;
    }
}

impl<S: Shelf> Shelf for Counted<S> {
    ghost use Rattle.rmx_edge.specs.Counted.{with_count};

    ghost state = { λ c. with_count (S.state c.shelf) c.before c.last };

    fn create(&mut self, name: &str) -> Result<(), ShelfFault> {
        let answer = self.shelf.create(name);
        self.count(0);
        answer
    }

    fn write(&mut self, bytes: &[u8]) -> Result<(), ShelfFault> {
        match self.shelf.write(bytes) {
            Ok(()) => {
                self.count(bytes.len() as u64);
                Ok(())
            }
            Err(fault) => {
                self.count(0);
                Err(fault)
            }
        }
    }

    fn close(&mut self) -> Result<(), ShelfFault> {
        let answer = self.shelf.close();
        self.count(0);
        answer
    }

    fn flush(&mut self) -> Result<(), ShelfFault> {
        match self.shelf.flush() {
            Ok(()) => Ok(()),
            Err(fault) => {
                self.last = 0;
                Err(fault)
            }
        }
    }

    fn fault_count(&self) -> u64 {
        self.shelf.fault_count()
    }

    fn want_count(&self) -> u64 {
        self.shelf.want_count()
    }
}
