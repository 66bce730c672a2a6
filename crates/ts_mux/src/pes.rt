// What stands before the data of a PES packet, and the clock of a cell.
ghost use Rattle.std.specs.Prelude.{◌≡◌, ◌<◌, ◌≤◌, ◌^◌, ◌+◌, length, ◌++◌};
ghost use Rattle.arrayvec.specs.ArrayVec.{array_vec_len};
ghost use Rattle.ts_mux.specs.Pes.{head_of, time_field as time_field_of, clock_flags as clock_flags_of};
ghost use Rattle.ts_mux.specs.Times.{IsTime};

use crate::times::ticks;
use arrayvec::ArrayVec;

/// Room for a head of 19 bytes, and a start code, a delimiter and the first byte of a unit, or an ADTS head.
pub(crate) type Front = ArrayVec<u8, 32>;

// Five bytes of a time.
#[tactic(auto, unfolding(crate::specs::Pes::time_field))]
fn time_field(prefix: u8, value: u64) -> [u8; 5]
    requires prefix { prefix < 16 }
    requires value { value < 2 ^ 33 }
    ensures { result ≡ time_field_of prefix value }
{
    let high = prefix as u64 * 8 + value / 0x4000_0000;
    let middle = (high * 2 + 1) * 0x8000 + value / 0x8000 % 0x8000;
    let n = ((middle * 2 + 1) * 0x8000 + value % 0x8000) * 2 + 1;
    [
        (n / 0x1_0000_0000 % 256) as u8,
        (n / 0x100_0000 % 256) as u8,
        (n / 0x1_0000 % 256) as u8,
        (n / 0x100 % 256) as u8,
        (n % 256) as u8,
    ]
}

/// The flags and the clock of a packet's first cell.
#[tactic(auto, unfolding(crate::specs::Pes::clock_flags))]
pub(crate) fn clock_flags(restart: bool, dts: i64) -> [u8; 7]
    requires { IsTime dts }
    ensures { result ≡ clock_flags_of restart dts }
{
    let base = ticks(dts, 63_000);
    let n = (base * 64 + 63) * 512;
    let flags = if restart { 0x50 } else { 0x10 };
    [
        flags,
        (n / 0x100_0000_0000 % 256) as u8,
        (n / 0x1_0000_0000 % 256) as u8,
        (n / 0x100_0000 % 256) as u8,
        (n / 0x1_0000 % 256) as u8,
        (n / 0x100 % 256) as u8,
        (n % 256) as u8,
    ]
}

/// Puts a piece behind what is there.
pub(crate) fn append(front: &mut Front, piece: &[u8])
    requires { array_vec_len front.old + length piece.now ≤ 32 }
    ensures items { front.new.items ≡ front.old.items ++ piece.now }
    ensures len { array_vec_len front.new ≡ array_vec_len front.old + length piece.now }
{
    match front.try_extend_from_slice(piece) {
        Ok(()) => {}
        Err(_) => unreachable!(),
    }
}

/// A head: its stream, the bytes that follow the size, the times.
pub(crate) fn head(id: u8, size: u16, pts: i64, dts: i64) -> Front
    requires pts { IsTime pts }
    requires dts { IsTime dts }
    ensures items { result.items ≡ head_of id size pts dts }
    ensures len { array_vec_len result ≤ 19 }
{
    let mut head = ArrayVec::new();
    append(
        &mut head,
        &[0, 0, 1, id, (size / 256) as u8, (size % 256) as u8, 0x80],
    );
    if pts == dts {
        append(&mut head, &[0x80, 5]);
        append(&mut head, &time_field(2, ticks(pts, 126_000)));
        return head;
    }
    append(&mut head, &[0xC0, 10]);
    append(&mut head, &time_field(3, ticks(pts, 126_000)));
    append(&mut head, &time_field(1, ticks(dts, 126_000)));
    head
}
