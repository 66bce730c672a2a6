// Which calls of a shelf in memory are to fail.
ghost use Rattle.std.specs.Prelude.{◌≡◌};
ghost use Rattle.rmx_edge.specs.FailAt.{keep_of};

/// The call of this number, from 0 over `create`, `write` and `close`, fails. A write then keeps the first `keep`
/// bytes of its piece, or all where it has fewer, or none where memory for them is refused.
#[derive(Clone, Copy, Debug, PartialEq, Eq)]
pub struct FailAt {
    /// The number of the call.
    pub call: u64,
    /// How many bytes a write keeps.
    pub keep: u32,
}

/// How much the first entry of this number keeps.
pub fn keep_at(fails: &[FailAt], call: u64) -> u32
    ensures { result ≡ keep_of fails.now call }
{
    for fail in fails {
        if fail.call == call {
            return fail.keep;
        }
    }
    0
}
