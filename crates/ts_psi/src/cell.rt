//! Cells, the 188 bytes that ISO/IEC 13818-1 calls a transport packet (2.4.3.2), and what is put into them.
ghost use Rattle.std.specs.Prelude.{◌≡◌, ◌+◌, ◌<◌, ◌≤◌, length, take, drop, ◌++◌};
ghost use Rattle.ts_psi.specs.Cell.{stuffing, table_cell as table_cell_of};
ghost use Rattle.rmx_media.specs.Bits.{bytes_of};
ghost use Rattle.ts_psi.specs.Crc.{crc as crc_of};

use crate::crc;

/// 188 bytes FF, to put the parts of a cell into.
#[tactic(auto, unfolding(crate::specs::Cell::stuffing))]
pub fn blank() -> [u8; 188]
    ensures { result ≡ stuffing 188 }
{
    [0xFF; 188]
}

/// Puts a piece into a cell, in the place of the bytes from `at` on.
pub fn put(cell: &mut [u8], at: usize, piece: &[u8])
    requires { at + length piece.now ≤ length cell.old }
    ensures { cell.new ≡ take at cell.old ++ (piece.now ++ drop (at + length piece.now) cell.old) }
{
    cell[at..at + piece.len()].copy_from_slice(piece);
}

// The checksum of a section as it stands behind it.
fn checksum(section: &[u8]) -> [u8; 4]
    ensures { result ≡ bytes_of 4 (crc_of section.now) }
{
    crc(section).to_be_bytes()
}

// The cell of a section: head, pointer byte, section, checksum, stuffing (2.4.4.1).
#[tactic(auto, unfolding(crate::specs::Cell::table_cell))]
pub(crate) fn table_cell(pid: u16, counter: u8, section: &[u8]) -> [u8; 188]
    requires pid { pid < 8192 }
    requires counter { counter < 16 }
    requires size { length section.now ≤ 179 }
    ensures { result ≡ table_cell_of pid counter section.now }
{
    let mut cell = blank();
    let head = [
        0x47,
        0x40 + (pid / 256) as u8,
        (pid % 256) as u8,
        0x10 + counter,
        0,
    ];
    put(&mut cell, 0, &head);
    put(&mut cell, 5, section);
    put(&mut cell, 5 + section.len(), &checksum(section));
    cell
}
