// The two tables of a program.
ghost use Rattle.std.specs.Prelude.{◌≡◌, ◌<◌, ◌≤◌, length, All, [], ◌∷◌};
ghost use Rattle.ts_psi.specs.Tables.{pat_cell as pat_of, pmt_cell as pmt_of, pmt_section, HasPid};

use crate::cell::table_cell;

/// A stream as the table of its program tells it.
#[derive(Clone, Copy, Debug, PartialEq, Eq)]
pub struct TableStream {
    /// What it carries: 1B hex is AVC, 0F hex is AAC with ADTS heads (ISO/IEC 13818-1, table 2-34).
    pub stream_type: u8,
    /// The PID of its cells, of 13 bits.
    pub pid: u16,
}

/// The cell of the program association table (ISO/IEC 13818-1, 2.4.4.3): one program, 1, whose table has the PID 1000
/// hex. `counter` is its continuity counter.
pub fn pat_cell(counter: u8) -> [u8; 188]
    requires { counter < 16 }
    ensures { result ≡ pat_of counter }
{
    table_cell(
        0,
        counter,
        &[
            0x00, 0xB0, 0x0D, 0x00, 0x01, 0xC1, 0x00, 0x00, 0x00, 0x01, 0xF0, 0x00,
        ],
    )
}

// The section of one stream.
fn one_stream(s: TableStream) -> [u8; 17]
    requires { HasPid s }
    ensures { result ≡ pmt_section (s ∷ []) }
{
    let (high, low) = (0xE0 + (s.pid / 256) as u8, (s.pid % 256) as u8);
    [
        0x02,
        0xB0,
        18,
        0x00,
        0x01,
        0xC1,
        0x00,
        0x00,
        high,
        low,
        0xF0,
        0x00,
        s.stream_type,
        high,
        low,
        0xF0,
        0x00,
    ]
}

// The section of two streams.
fn two_streams(s: TableStream, t: TableStream) -> [u8; 22]
    requires first { HasPid s }
    requires second { HasPid t }
    ensures { result ≡ pmt_section (s ∷ t ∷ []) }
{
    let (high, low) = (0xE0 + (s.pid / 256) as u8, (s.pid % 256) as u8);
    let (high_two, low_two) = (0xE0 + (t.pid / 256) as u8, (t.pid % 256) as u8);
    [
        0x02,
        0xB0,
        23,
        0x00,
        0x01,
        0xC1,
        0x00,
        0x00,
        high,
        low,
        0xF0,
        0x00,
        s.stream_type,
        high,
        low,
        0xF0,
        0x00,
        t.stream_type,
        high_two,
        low_two,
        0xF0,
        0x00,
    ]
}

/// The cell of the program map table (ISO/IEC 13818-1, 2.4.4.8) of one or two streams. The first one's cells carry the
/// program's clock. `counter` is its continuity counter.
pub fn pmt_cell(streams: &[TableStream], counter: u8) -> [u8; 188]
    requires counter { counter < 16 }
    requires some { 0 < length streams.now }
    requires few { length streams.now ≤ 2 }
    requires pids { All HasPid streams.now }
    ensures { result ≡ pmt_of streams.now counter }
{
    match streams {
        [s] => table_cell(0x1000, counter, &one_stream(*s)),
        [s, t] => table_cell(0x1000, counter, &two_streams(*s, *t)),
        _ => unreachable!(),
    }
}

#[cfg(test)]
mod tests {
    use super::*;
    use crate::crc;
    use std::test::Fail;

    #[test]
    fn programs(rt: HostRuntime) -> Result<(), Fail> {
        let cell = pat_cell(0);
        let front = [
            0x47, 0x40, 0x00, 0x10, 0x00, 0x00, 0xB0, 0x0D, 0x00, 0x01, 0xC1, 0x00, 0x00, 0x00,
            0x01, 0xF0, 0x00, 0x2A, 0xB1, 0x04, 0xB2, 0xFF,
        ];
        assert_eq!(rt; &cell[..22], front.as_slice());
        assert_eq!(rt; cell[187], 0xFF);
        Ok(())
    }

    // The fields of a table of two streams; the checksum over the section with its checksum is 0.
    #[test]
    fn streams(rt: HostRuntime) -> Result<(), Fail> {
        let video = TableStream {
            stream_type: 0x1B,
            pid: 0x100,
        };
        let audio = TableStream {
            stream_type: 0x0F,
            pid: 0x101,
        };
        let cell = pmt_cell(&[video, audio], 5);
        let front = [
            0x47, 0x50, 0x00, 0x15, 0x00, 0x02, 0xB0, 0x17, 0x00, 0x01, 0xC1, 0x00, 0x00, 0xE1,
            0x00, 0xF0, 0x00, 0x1B, 0xE1, 0x00, 0xF0, 0x00, 0x0F, 0xE1, 0x01, 0xF0, 0x00,
        ];
        assert!(rt; cell.starts_with(&front));
        assert_eq!(rt; crc(cell.get(5..31).ok_or("short")?), 0);
        assert_eq!(rt; cell.get(31).ok_or("short")?, &0xFF);
        Ok(())
    }
}
