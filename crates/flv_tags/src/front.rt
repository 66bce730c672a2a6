// What stands at the front of a text where a size field is next.
ghost use Rattle.std.specs.Prelude.{◌≡◌, ◌≤◌, ◌<◌, ◌+◌, length, take, drop, IfOk, OnErr};
ghost use Rattle.rmx_media.specs.Bits.{number_of};
ghost use Rattle.flv_tags.specs.Ahead.{IsAhead, IsTagAhead, with_body};

use crate::Tag;
use bytes::BytesMut;
use std::alloc::AllocError;

// A size field has four bytes, and a tag's head eleven.
const HEADS: usize = 15;

/// A tag whose body isn't taken yet.
#[derive(Clone, Copy)]
pub struct TagHead {
    pub kind: u8,
    pub filter: bool,
    pub stamp: i32,
    pub size: u32,
}

/// What a text begins with.
#[derive(Clone, Copy)]
pub enum Ahead {
    Nothing,
    Part,
    Whole(TagHead),
}

/// Three bytes as a number, the highest first.
pub fn number3(bytes: &[u8]) -> u32
    requires { 3 ≤ length bytes.now }
    ensures number { result ≡ number_of (take 3 bytes.now) }
    ensures bound { result < 16777216 }
{
    65536 * u32::from(bytes[0]) + 256 * u32::from(bytes[1]) + u32::from(bytes[2])
}

fn look_at_tag(text: &[u8]) -> Ahead
    ensures { IsTagAhead result text.now }
{
    if text.is_empty() {
        return Ahead::Nothing;
    }
    if text.len() < 11 {
        return Ahead::Part;
    }
    let size = number3(&text[1..]);
    if text.len() < 11 + size as usize {
        return Ahead::Part;
    }
    let stamp = u32::from(text[7]) * 16777216 + number3(&text[4..]);
    Ahead::Whole(TagHead {
        kind: text[0] % 32,
        filter: text[0] / 32 % 2 == 1,
        stamp: stamp.cast_signed(),
        size,
    })
}

/// Looks for a size field and a tag.
pub fn look(text: &[u8]) -> Ahead
    ensures { IsAhead result text.now }
{
    if text.is_empty() {
        return Ahead::Nothing;
    }
    if text.len() < 4 {
        return Ahead::Part;
    }
    look_at_tag(&text[4..])
}

/// How many bytes the first tag lacks, where its size is there.
pub fn missing(text: &[u8]) -> usize {
    if text.len() < 8 {
        return 0;
    }
    (HEADS + number3(&text[5..]) as usize).saturating_sub(text.len())
}

/// Takes the size field and the tag that were seen off the text.
pub fn take_tag(text: &mut BytesMut, head: TagHead) -> Result<Tag, AllocError>
    requires { 15 + head.size ≤ length text.old.items }
    ensures ok { IfOk result (λ tag. (tag ≡ with_body head (take head.size (drop 15 text.old.items))) × (text.new.items ≡ drop (15 + head.size) text.old.items)) }
    ensures err { OnErr result (text.new ≡ text.old) }
{
    let mut body = text.freeze_to(HEADS + head.size as usize)?;
    body.advance(HEADS);
    Ok(Tag {
        kind: head.kind,
        filter: head.filter,
        stamp: head.stamp,
        body,
    })
}
