// The cells of a PES packet, one write each.
ghost use Rattle.std.specs.Prelude.{◌≡◌, ◌+◌, ◌<◌, ◌≤◌, ◌/◌, ◌%◌, true, length, ◌++◌, map, OnOk};
ghost use Rattle.rmx_edge.specs.Shelf.{Write};
ghost use Rattle.rmx_edge.specs.Run.{Runs};
ghost use Rattle.ts_mux.specs.Cells.{cells_of, more_cells, cell_count};

use crate::joined::Joined;
use crate::pieces::Source;
use rmx_edge::{Shelf, ShelfFault};
use ts_psi::cell::blank;

/// How the cells of a PES packet begin.
#[derive(Clone, Copy)]
pub(crate) struct Opening<'a> {
    pub(crate) pid: u16,
    /// The flags of the first cell, with what they announce.
    pub(crate) flags: &'a [u8],
    /// The bytes that the first cell carries at most.
    pub(crate) room: usize,
    /// What stands before the data.
    pub(crate) head: &'a [u8],
}

// Writes the cells after the first.
fn write_more<'a, P: Source<'a>, S: Shelf>(
    shelf: &mut S,
    pid: u16,
    counter: &mut u8,
    size: usize,
    bytes: &mut Joined<'a, P>,
) -> Result<(), ShelfFault>
    requires begun { (S.state shelf.old).writing ≡ true }
    requires pid { pid < 8192 }
    requires counter { counter.old < 16 }
    requires size { length (bytes.old.current.now ++ P.left bytes.old.pieces) ≡ size }
    ensures run { Runs (map Write (more_cells pid counter.old (bytes.old.current.now ++ P.left bytes.old.pieces))) result (S.state shelf.old) (S.state shelf.new) }
    ensures open { OnOk result ((S.state shelf.new).writing ≡ true) }
    ensures counter { counter.new < 16 }
    ensures counted { OnOk result (counter.new ≡ (counter.old + (size + 183) / 184) % 16) }
{
    let mut left = size;
    let mut cell = blank();
    while left > 0 {
        let count = left.min(184);
        bytes.next_cell(&mut cell, pid, *counter, count);
        match shelf.write(&cell) {
            Ok(()) => {}
            Err(fault) => return Err(fault),
        }
        *counter = (*counter + 1) % 16;
        left -= count;
    }
    Ok(())
}

/// Writes the cells of a PES packet with so many bytes of data. The counter passes them.
pub(crate) fn write_cells<'a, P: Source<'a>, S: Shelf>(
    shelf: &mut S,
    opening: &Opening,
    counter: &mut u8,
    size: usize,
    bytes: &mut Joined<'a, P>,
) -> Result<(), ShelfFault>
    requires begun { (S.state shelf.old).writing ≡ true }
    requires pid { opening.now.pid < 8192 }
    requires counter { counter.old < 16 }
    requires flags { length opening.now.flags.now ≤ 183 }
    requires room { opening.now.room ≤ 184 }
    requires head { length opening.now.head.now ≤ opening.now.room }
    requires size { length (bytes.old.current.now ++ P.left bytes.old.pieces) ≡ size }
    ensures run { Runs (map Write (cells_of opening.now.pid counter.old opening.now.flags.now opening.now.room (opening.now.head.now ++ (bytes.old.current.now ++ P.left bytes.old.pieces)))) result (S.state shelf.old) (S.state shelf.new) }
    ensures open { OnOk result ((S.state shelf.new).writing ≡ true) }
    ensures counter { counter.new < 16 }
    ensures counted { OnOk result (counter.new ≡ (counter.old + cell_count opening.now.room (length opening.now.head.now + size)) % 16) }
{
    let part = size.min(opening.room - opening.head.len());
    let count = opening.head.len() + part;
    let cell = bytes.cell(
        opening.pid,
        true,
        *counter,
        opening.flags,
        opening.head,
        count,
    );
    match shelf.write(&cell) {
        Ok(()) => {}
        Err(fault) => return Err(fault),
    }
    *counter = (*counter + 1) % 16;
    write_more(shelf, opening.pid, counter, size - part, bytes)
}
