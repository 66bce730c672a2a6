// Pieces of a file.
ghost use Rattle.std.specs.Prelude.{◌≡◌, true, [], ◌∷◌, OnOk};
ghost use Rattle.rmx_edge.specs.Pieces.{writes};
ghost use Rattle.rmx_edge.specs.Run.{Runs};

use crate::{Shelf, ShelfFault};

/// Writes a piece, unless it is empty.
pub fn write_piece<S: Shelf>(shelf: &mut S, piece: &[u8]) -> Result<(), ShelfFault>
    requires { (S.state shelf.old).writing ≡ true }
    ensures run { Runs (writes (piece.now ∷ [])) result (S.state shelf.old) (S.state shelf.new) }
    ensures open { OnOk result ((S.state shelf.new).writing ≡ true) }
{
    if piece.is_empty() {
        return Ok(());
    }
    shelf.write(piece)
}

/// Writes two pieces, each unless it is empty.
pub fn write_two<S: Shelf>(shelf: &mut S, first: &[u8], second: &[u8]) -> Result<(), ShelfFault>
    requires { (S.state shelf.old).writing ≡ true }
    ensures run { Runs (writes (first.now ∷ second.now ∷ [])) result (S.state shelf.old) (S.state shelf.new) }
    ensures open { OnOk result ((S.state shelf.new).writing ≡ true) }
{
    match write_piece(shelf, first) {
        Ok(()) => write_piece(shelf, second),
        Err(fault) => Err(fault),
    }
}

/// Writes three pieces, each unless it is empty.
pub fn write_three<S: Shelf>(
    shelf: &mut S,
    first: &[u8],
    second: &[u8],
    third: &[u8],
) -> Result<(), ShelfFault>
    requires { (S.state shelf.old).writing ≡ true }
    ensures run { Runs (writes (first.now ∷ second.now ∷ third.now ∷ [])) result (S.state shelf.old) (S.state shelf.new) }
    ensures open { OnOk result ((S.state shelf.new).writing ≡ true) }
{
    match write_piece(shelf, first) {
        Ok(()) => write_two(shelf, second, third),
        Err(fault) => Err(fault),
    }
}
