// What stands before a cell's payload.
ghost use Rattle.std.specs.Prelude.{◌≡◌, ◌+◌, ◌-◌, ◌<◌, ◌≤◌, false, length, ◌++◌};
ghost use Rattle.ts_psi.specs.Cell.{stuffing, cell_head};
ghost use Rattle.ts_mux.specs.Cells.{front_of, start_bit, cell as cell_of, no_flags};

use ts_psi::cell::{blank, put};

// The head of a cell with these bits of control.
fn head(pid: u16, start: bool, control: u8, counter: u8) -> [u8; 4]
    requires pid { pid < 8192 }
    requires control { control < 4 }
    requires counter { counter < 16 }
    ensures { result ≡ cell_head pid (start_bit start) control counter }
{
    let unit = if start { 64 } else { 0 };
    [
        0x47,
        unit + (pid / 256) as u8,
        (pid % 256) as u8,
        16 * control + counter,
    ]
}

/// A cell whose payload of so many bytes is still stuffing.
pub(crate) fn front(pid: u16, start: bool, counter: u8, flags: &[u8], count: usize) -> [u8; 188]
    requires pid { pid < 8192 }
    requires counter { counter < 16 }
    requires count { count ≤ 184 }
    requires flags { length flags.now ≤ 183 }
    ensures size { length result ≡ 188 }
    ensures cell { result ≡ front_of pid start counter flags.now (184 - count) ++ stuffing count }
{
    let mut cell = blank();
    if count == 184 {
        put(&mut cell, 0, &head(pid, start, 1, counter));
        return cell;
    }
    let field = 183 - count;
    put(&mut cell, 0, &head(pid, start, 3, counter));
    put(&mut cell, 4, &[field as u8]);
    put(&mut cell, 5, &flags[..field.min(flags.len())]);
    cell
}

/// Makes it a cell of these 184 bytes, which need no field before them.
pub(crate) fn make_whole(cell: &mut [u8; 188], pid: u16, counter: u8, body: &[u8])
    requires pid { pid < 8192 }
    requires counter { counter < 16 }
    requires body { length body.now ≡ 184 }
    ensures { cell.new ≡ cell_of pid false counter no_flags body.now }
{
    put(cell, 0, &head(pid, false, 1, counter));
    put(cell, 4, body);
}

#[cfg(test)]
mod tests {
    use super::*;
    use std::test::Fail;

    #[test]
    fn few_missing(rt: HostRuntime) -> Result<(), Fail> {
        assert_eq!(rt;
            &front(0x101, true, 0, &[0], 184)[..4],
            [0x47, 0x41, 0x01, 0x10].as_slice()
        );
        assert_eq!(rt;
            &front(0x101, true, 0, &[0], 183)[..5],
            [0x47, 0x41, 0x01, 0x30, 0x00].as_slice()
        );
        assert_eq!(rt;
            &front(0x101, true, 0, &[0], 182)[..6],
            [0x47, 0x41, 0x01, 0x30, 0x01, 0x00].as_slice()
        );
        assert_eq!(rt;
            &front(0x101, false, 1, &[0], 1)[..7],
            [0x47, 0x01, 0x01, 0x31, 0xB6, 0x00, 0xFF].as_slice()
        );
        Ok(())
    }
}
