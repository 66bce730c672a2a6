// A shelf whose flushes are watched.
ghost use Rattle.std.specs.Prelude.{◌≡◌, false};

use rmx_edge::{Shelf, ShelfFault};

/// A shelf round another one, which tells whether its last call was a flush that was done.
#[derive(Drop)]
pub struct Watched<S: Shelf> {
    shelf: S,
    // Read by contracts alone.
    flushed: bool,
}

impl<S: Shelf> Watched<S> {
    ghost use Rattle.slave.specs.Watched.{inner, is_flushed};

    /// Watches this shelf, which wasn't flushed yet.
    pub fn new(shelf: S) -> Watched<S>
        ensures inner { inner result ≡ shelf }
        ensures fresh { is_flushed result ≡ false }
    {
        Watched {
            shelf,
            flushed: false,
        }
    }

    /// The shelf that is watched.
    pub fn shelf(&self) -> &S
        ensures { result.now ≡ inner self.now }
    {
        &self.shelf
    }

    /// Hands the shelf back.
    pub fn into_inner(self) -> S
        ensures { result ≡ inner self }
    {
        self.shelf
    }
}

impl<S: Shelf> Shelf for Watched<S> {
    ghost use Rattle.std.specs.Prelude.{true, IsOk};
    ghost use Rattle.rmx_edge.specs.Shelf.{Flushes};
    ghost use Rattle.slave.specs.Watched.{inner, is_flushed};

    ghost state = { λ w. S.state w.shelf };

    fn create(&mut self, name: &str) -> Result<(), ShelfFault> {
        self.flushed = false;
        self.shelf.create(name)
    }

    fn write(&mut self, bytes: &[u8]) -> Result<(), ShelfFault> {
        self.flushed = false;
        self.shelf.write(bytes)
    }

    fn close(&mut self) -> Result<(), ShelfFault> {
        self.flushed = false;
        self.shelf.close()
    }

    fn flush(&mut self) -> Result<(), ShelfFault>
        requires { (S.state (inner self.old)).writing ≡ true }
        ensures flushed { Flushes result (S.state (inner self.old)) (S.state (inner self.new)) }
        ensures done { IsOk result → is_flushed self.new ≡ true }
    {
        match self.shelf.flush() {
            Ok(()) => {
                self.flushed = true;
                Ok(())
            }
            Err(fault) => {
                self.flushed = false;
                Err(fault)
            }
        }
    }

    fn fault_count(&self) -> u64 {
        self.shelf.fault_count()
    }

    fn want_count(&self) -> u64 {
        self.shelf.want_count()
    }
}
