// Where input comes from.
ghost use Rattle.std.specs.Prelude.{◌≡◌, ◌<◌, true, length};
ghost use Rattle.rmx_edge.specs.Inputs.{InputState, Opens, Reads};

/// A call of the outside failed.
#[derive(Clone, Copy, Debug, PartialEq, Eq)]
pub struct Failed;

/// Texts by their names, of which one at a time is read.
///
/// They count their faults; the count never falls, and a call fails only where it rose.
pub trait Inputs {
    /// What clauses see of them.
    ghost state: { Self → InputState };

    /// Opens the input of this name at its beginning, in place of the one before.
    fn open_input(&mut self, name: &str) -> Result<(), Failed>
        ensures opened { Opens name.now result (state self.old) (state self.new) };

    /// Reads the next bytes into the front of the buffer, and answers how many: 0 where none are left. After 0, or
    /// a failure, nothing more is read from this input.
    fn read(&mut self, buf: &mut [u8]) -> Result<usize, Failed>
        requires readable { (state self.old).readable ≡ true }
        requires room { 0 < length buf.old }
        ensures taken { Reads result buf.new (state self.old) (state self.new) };
}
