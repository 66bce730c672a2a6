// Bytes that lie in pieces.
ghost use Rattle.std.specs.Prelude.{◌≡◌, ℕ, ◌<◌, List, [], length, ◌++◌, MatchOption};
ghost use Rattle.avc_units.specs.Pieces.{left_of};
ghost use Rattle.std.specs.List.{concat};

use avc_units::Pieces;

/// Pieces that follow one another. None of them is empty.
pub(crate) trait Source<'a> {
    // The bytes that are left.
    ghost left: { Self → List ℕ };

    /// The next piece.
    fn next_piece(&mut self) -> Option<&'a [u8]>
        ensures next { MatchOption result (left self.old ≡ []) (λ piece. (0 < length piece.now) × (left self.old ≡ piece.now ++ left self.new)) };
}

/// No piece.
#[derive(Drop)]
pub(crate) struct Nothing;

impl<'a> Source<'a> for Nothing {
    ghost left = { λ n. [] };

    fn next_piece(&mut self) -> Option<&'a [u8]> {
        None
    }
}

#[tactic(auto, using(crate::proofs::PieceLemmas::concat_more))]
impl<'a> Source<'a> for Pieces<'a> {
    ghost left = { λ p. concat (left_of p) };

    fn next_piece(&mut self) -> Option<&'a [u8]> {
        self.next()
    }
}
