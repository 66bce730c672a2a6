// The tags of packets, and the tail of a file.
ghost use Rattle.std.specs.Prelude.{◌≡◌, ◌++◌, ◌∷◌, true, OnOk, unsigned_abs, ◌-ℤ◌, if◌then◌else◌};
ghost use Rattle.rmx_edge.specs.Pieces.{writes};
ghost use Rattle.rmx_edge.specs.Run.{Runs};
ghost use Rattle.rmx_media.specs.Bits.{bytes_of};
ghost use Rattle.flv_mux.specs.Flv.{config_pieces, media_pieces, tail_pieces_at};
ghost use Rattle.flv_mux.specs.Packets.{CanWrite, IsTimed};
ghost use Rattle.flv_mux.specs.Timed.{packet_of};

use crate::head::write_config;
use crate::kinds::has_video;
use crate::tags::{AUDIO_TAG, VIDEO_TAG, sequence_end_bytes, write_tag};
use crate::timed::Timed;
use rmx_edge::{Shelf, ShelfFault, write_piece};
use rmx_media::{Config, MuxStreams};

/// Writes a packet, behind its configuration where that changed.
pub(crate) fn write_packet<S: Shelf>(
    shelf: &mut S,
    p: &Timed,
    changed: bool,
) -> Result<(), ShelfFault>
    requires begun { (S.state shelf.old).writing ≡ true }
    requires fits { CanWrite (packet_of p.now) }
    ensures run { Runs (writes (if changed then config_pieces p.now.dts p.now.packet.now.config ++ media_pieces (packet_of p.now) else media_pieces (packet_of p.now))) result (S.state shelf.old) (S.state shelf.new) }
    ensures open { OnOk result ((S.state shelf.new).writing ≡ true) }
{
    if changed {
        match write_config(shelf, p.dts, &p.packet.config) {
            Ok(()) => return write_media(shelf, p),
            Err(fault) => return Err(fault),
        }
    }
    write_media(shelf, p)
}

// Writes the tag that holds the payload.
fn write_media<S: Shelf>(shelf: &mut S, p: &Timed) -> Result<(), ShelfFault>
    requires begun { (S.state shelf.old).writing ≡ true }
    requires fits { CanWrite (packet_of p.now) }
    ensures run { Runs (writes (media_pieces (packet_of p.now))) result (S.state shelf.old) (S.state shelf.new) }
    ensures open { OnOk result ((S.state shelf.new).writing ≡ true) }
{
    let payload = p.packet.payload.as_slice();
    match &p.packet.config {
        Config::Avc(_) => {
            let lead = video_lead(p.packet.key, p.dts, p.pts);
            write_tag(shelf, VIDEO_TAG, p.dts, &lead, payload)
        }
        Config::Aac(_) => write_tag(shelf, AUDIO_TAG, p.dts, &[175, 1], payload),
    }
}

// What stands in a video tag in front of the payload: whether it is key, and the time from dts to pts in ms.
fn video_lead(key: bool, dts: i64, pts: i64) -> [u8; 5]
    requires { IsTimed dts pts }
    ensures { result ≡ (if key then 23 else 39) ∷ 1 ∷ bytes_of 3 (unsigned_abs (pts -ℤ dts)) }
{
    let [_, high, middle, low] = ((pts - dts) as u32).to_be_bytes();
    let first = if key { 23 } else { 39 };
    [first, 1, high, middle, low]
}

/// Writes the end of the sequence, where there is video.
pub fn write_tail<S: Shelf>(shelf: &mut S, m: &MuxStreams, time: i64) -> Result<(), ShelfFault>
    requires { (S.state shelf.old).writing ≡ true }
    ensures run { Runs (writes (tail_pieces_at m.now time)) result (S.state shelf.old) (S.state shelf.new) }
    ensures open { OnOk result ((S.state shelf.new).writing ≡ true) }
{
    if has_video(m.streams.as_slice()) {
        return write_piece(shelf, &sequence_end_bytes(time));
    }
    Ok(())
}
