// What stands before the payload in a packet's first cell.
ghost use Rattle.std.specs.Prelude.{◌≡◌, ◌≤◌, ◌+◌, ◌%◌, ◌==◌, ℕ, List, [], length, ◌++◌, if◌then◌else◌};
ghost use Rattle.std.specs.Ordering.{int_eq};
ghost use Rattle.arrayvec.specs.ArrayVec.{array_vec_len};
ghost use Rattle.rmx_media.specs.Config.{IsReadAac};
ghost use Rattle.ts_mux.specs.Pes.{video_head, delimiter, delimited, audio_pes};
ghost use Rattle.ts_mux.specs.Timed.{packet_of};
ghost use Rattle.ts_mux.specs.Times.{IsTime};

use crate::pes::{Front, append, head};
use crate::timed::Timed;
use aac_adts::adts_head;
use rmx_media::{AacConfig, Form};

// Puts an access unit delimiter in front of a unit with this first byte, unless it is one.
fn add_delimiter(front: &mut Front, first: u8)
    requires { array_vec_len front.old ≤ 26 }
    ensures items { front.new.items ≡ front.old.items ++ (if first % 32 == 9 then [] else delimiter) }
    ensures len { array_vec_len front.new ≤ array_vec_len front.old + 6 }
{
    if first % 32 != 9 {
        append(front, &[0, 0, 0, 1, 0x09, 0xF0]);
    }
}

/// What stands before all but the first five bytes of a video packet's units, which begin with a start code.
pub(crate) fn video_front(pts: i64, dts: i64, start: &[u8]) -> Front
    requires pts { IsTime pts }
    requires dts { IsTime dts }
    requires start { length start.now ≡ 5 }
    ensures items { (rest : List ℕ) → result.items ++ rest ≡ video_head pts dts ++ delimited (start.now ++ rest) }
    ensures len { array_vec_len result ≤ 30 }
{
    let mut front = head(0xE0, 0, pts, dts);
    add_delimiter(&mut front, start[4]);
    append(&mut front, start);
    front
}

// What follows the size in an audio packet's head: the flags and the times.
fn size_of_times(pts: i64, dts: i64) -> u16
    ensures { result ≡ (if int_eq pts dts then 8 else 13) }
{
    if pts == dts { 8 } else { 13 }
}

/// What stands before the payload of an audio packet.
pub(crate) fn audio_front(timed: &Timed, config: &AacConfig) -> Front
    requires pts { IsTime timed.now.pts }
    requires dts { IsTime timed.now.dts }
    requires size { length timed.now.packet.now.payload ≤ 8191 }
    requires native { timed.now.packet.now.form ≡ Form.Native → length timed.now.packet.now.payload ≤ 8184 }
    requires config { IsReadAac config.now }
    ensures items { result.items ++ timed.now.packet.now.payload ≡ audio_pes config.now (packet_of timed.now) }
    ensures len { array_vec_len result ≤ 26 }
{
    let after = size_of_times(timed.pts, timed.dts);
    let size = timed.packet.payload.len() as u16;
    match timed.packet.form {
        Form::Native => {
            let mut front = head(0xC0, after + 7 + size, timed.pts, timed.dts);
            append(&mut front, &adts_head(config, u32::from(size)));
            front
        }
        _ => head(0xC0, after + size, timed.pts, timed.dts),
    }
}
