// Tags of a file, each in three pieces.
ghost use Rattle.std.specs.Prelude.{◌≡◌, ◌≤◌, ◌<◌, ◌+◌, ◌^◌, true, length, OnOk};
ghost use Rattle.std.specs.Int.{w32, int_wrap};
ghost use Rattle.rmx_media.specs.Bits.{bytes_of};
ghost use Rattle.rmx_edge.specs.Pieces.{writes};
ghost use Rattle.rmx_edge.specs.Run.{Runs};
ghost use Rattle.flv_mux.specs.Flv.{tag_pieces, sequence_end};

use flv_tags::tag_head;
use rmx_edge::{Shelf, ShelfFault, write_three};

/// The kind of a tag of audio (annex E.4.1).
pub const AUDIO_TAG: u8 = 8;

/// The kind of a tag of video.
pub const VIDEO_TAG: u8 = 9;

/// The kind of a tag of script data.
pub const SCRIPT_TAG: u8 = 18;

// The time modulo 2^32, as a stamp holds it.
fn stamp_of(time: i64) -> i32
    ensures { result ≡ int_wrap w32 time }
{
    let low = time.rem_euclid(0x1_0000_0000).unsigned_abs();
    (low as u32).cast_signed()
}

// The size field behind a tag of this size.
fn size_field(size: u32) -> [u8; 4]
    ensures { result ≡ bytes_of 4 size }
{
    size.to_be_bytes()
}

/// Writes a tag whose body is `lead` and then `content`: the head with the lead, the content, the size field.
pub fn write_tag<S: Shelf>(
    shelf: &mut S,
    kind: u8,
    time: i64,
    lead: &[u8],
    content: &[u8],
) -> Result<(), ShelfFault>
    requires begun { (S.state shelf.old).writing ≡ true }
    requires kind { kind < 32 }
    requires lead { length lead.now ≤ 5 }
    requires size { length lead.now + length content.now < 2 ^ 24 }
    ensures run { Runs (writes (tag_pieces kind time lead.now content.now)) result (S.state shelf.old) (S.state shelf.new) }
    ensures open { OnOk result ((S.state shelf.new).writing ≡ true) }
{
    let size = (lead.len() + content.len()) as u32;
    let head = tag_head(kind, size, stamp_of(time));
    let mut front = [0; 16];
    let end = head.len() + lead.len();
    front[..11].copy_from_slice(&head);
    front[11..end].copy_from_slice(lead);
    let back = size_field(11 + size);
    write_three(shelf, &front[..end], content, &back)
}

/// The end of a sequence with its size field, as one piece.
pub fn sequence_end_bytes(time: i64) -> [u8; 20]
    ensures { result ≡ sequence_end time }
{
    let head = tag_head(VIDEO_TAG, 5, stamp_of(time));
    let mut bytes = [0; 20];
    bytes[..11].copy_from_slice(&head);
    bytes[11..].copy_from_slice(&[23, 2, 0, 0, 0, 0, 0, 0, 16]);
    bytes
}
