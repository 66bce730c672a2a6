// The input that a run makes for itself, tag by tag while it is read.
ghost use Rattle.std.specs.Prelude.{◌≡◌, ◌<◌, ◌≤◌, ◌+◌, ◌*◌, ◌^◌, ◌↔◌, ◌++◌, [], take, drop, length, replicate, pos, if◌then◌else◌};
ghost use Rattle.arrayvec.specs.ArrayVec.{array_vec_len};
ghost use Rattle.rmx_media.specs.Bits.{bytes_of};
ghost use Rattle.flv_tags.specs.Written.{tag_head_bytes};
ghost use Rattle.remux.specs.Generated.{is_key, head_text, picture_text, sound_text, tag_text};

use arrayvec::ArrayVec;
use flv_tags::{file_head, tag_head};
use rmx_edge::{Failed, Inputs};

/// Room for the head of the text, or for the longest tag.
type Piece = ArrayVec<u8, 1024>;

/// The most pictures of a text.
pub const MOST_FRAMES: u32 = 20_000;

/// The most bytes that are alike in a tag.
const MOST_ALIKE: usize = 900;

/// The body of the tag with the configuration of the pictures: AVC, Baseline at level 3.
const SETS: [u8; 22] = [
    0x17, 0, 0, 0, 0, 0x01, 0x42, 0x00, 0x1E, 0xFF, 0xE1, 0x00, 0x04, 0x67, 0x42, 0x00, 0x1E, 0x01,
    0x00, 0x02, 0x68, 0xCE,
];

/// The body of the tag with the configuration of the sound: AAC LC, 44100 Hz, two channels.
const SOUND: [u8; 4] = [0xAF, 0, 0x12, 0x10];

// Puts bytes behind what is there.
fn append(piece: &mut Piece, bytes: &[u8])
    requires { array_vec_len piece.old + length bytes.now ≤ 1024 }
    ensures items { piece.new.items ≡ piece.old.items ++ bytes.now }
    ensures len { array_vec_len piece.new ≡ array_vec_len piece.old + length bytes.now }
{
    match piece.try_extend_from_slice(bytes) {
        Ok(()) => {}
        Err(_) => unreachable!(),
    }
}

// Puts so many bytes that are alike behind what is there.
fn append_alike(piece: &mut Piece, byte: u8, count: usize)
    requires count { count ≤ 900 }
    requires room { array_vec_len piece.old + count ≤ 1024 }
    ensures items { piece.new.items ≡ piece.old.items ++ replicate count byte }
    ensures len { array_vec_len piece.new ≡ array_vec_len piece.old + count }
{
    let alike = [byte; MOST_ALIKE];
    append(piece, &alike[..count]);
}

// The head of a tag.
fn head_of(kind: u8, size: u32, stamp: u32) -> [u8; 11]
    requires kind { kind < 32 }
    requires size { size < 2 ^ 24 }
    requires stamp { stamp < 2 ^ 31 }
    ensures { result ≡ tag_head_bytes kind size (pos stamp) }
{
    tag_head(kind, size, stamp as i32)
}

// The size field behind a tag of this size.
fn size_field(size: u32) -> [u8; 4]
    ensures { result ≡ bytes_of 4 size }
{
    size.to_be_bytes()
}

// A tag and its size field. Its body is `lead`, and then so many bytes that are alike.
fn tag(kind: u8, stamp: u32, lead: &[u8], byte: u8, count: usize) -> Piece
    requires kind { kind < 32 }
    requires stamp { stamp < 2 ^ 31 }
    requires lead { length lead.now ≤ 22 }
    requires count { count ≤ 900 }
    ensures items { result.items ≡ tag_text kind stamp (lead.now ++ replicate count byte) }
    ensures len { array_vec_len result ≡ 15 + length lead.now + count }
{
    let size = (lead.len() + count) as u32;
    let mut piece = ArrayVec::new();
    append(&mut piece, &head_of(kind, size, stamp));
    append(&mut piece, lead);
    append_alike(&mut piece, byte, count);
    append(&mut piece, &size_field(11 + size));
    piece
}

// The head of the text.
fn head() -> Piece
    ensures items { result.items ≡ head_text }
    ensures len { array_vec_len result ≤ 1024 }
{
    let mut piece = ArrayVec::new();
    append(&mut piece, &file_head(5));
    append(&mut piece, &tag(9, 0, &SETS, 0, 0));
    append(&mut piece, &tag(8, 0, &SOUND, 0, 0));
    piece
}

// Whether a picture is a key one.
fn is_key(number: u32) -> bool
    ensures { result ≡ is_key number }
{
    number % 25 == 0
}

// The first byte of a picture's tag.
fn tag_byte(key: bool) -> u8
    ensures { result ≡ (if key then 23 else 39) }
{
    if key { 0x17 } else { 0x27 }
}

// The first byte of a picture's unit.
fn unit_byte(key: bool) -> u8
    ensures { result ≡ (if key then 101 else 65) }
{
    if key { 0x65 } else { 0x41 }
}

// The tag of a picture.
fn picture(number: u32) -> Piece
    requires { number ≤ 20000 }
    ensures items { result.items ≡ picture_text number }
    ensures some { 0 < array_vec_len result }
{
    let key = is_key(number);
    let count = 1 + 37 * number % 900;
    let size = 1 + count;
    let lead = [
        tag_byte(key),
        1,
        0,
        0,
        0,
        0,
        0,
        (size / 256) as u8,
        (size % 256) as u8,
        unit_byte(key),
    ];
    let byte = (128 + number % 100) as u8;
    tag(9, 40 * number, &lead, byte, count as usize)
}

// The tag of a packet of sound.
#[tactic(auto, unfolding(crate::specs::Generated::sound_text))]
fn sound(number: u32) -> Piece
    requires { number ≤ 40000 }
    ensures items { result.items ≡ sound_text number }
    ensures some { 0 < array_vec_len result }
{
    tag(
        8,
        23 * number,
        &[0xAF, 1],
        0x21,
        1 + (number % 300) as usize,
    )
}

// Copies as many of the first bytes as fit the buffer, and says how many.
fn copy_front(bytes: &[u8], buf: &mut [u8]) -> usize
    requires room { 0 < length buf.old }
    ensures within { result ≤ length bytes.now }
    ensures bound { result ≤ length buf.new }
    ensures copied { bytes.now ≡ take result buf.new ++ drop result bytes.now }
    ensures none { (result ≡ 0) ↔ (bytes.now ≡ []) }
{
    let count = bytes.len().min(buf.len());
    buf[..count].copy_from_slice(&bytes[..count]);
    count
}

/// An FLV text of pictures 40 ms apart with sound beside them, which is the input under every name.
#[derive(Drop)]
pub struct Generated {
    frames: u32,
    /// The next picture and the next packet of sound.
    frame: u32,
    sound: u32,
    /// The tag that is read, and how much of it was.
    piece: Piece,
    at: usize,
    ended: bool,
    readable: bool,
    ghost few: { frames ≤ 20000 },
    ghost frame_within: { frame ≤ frames },
    ghost at_within: { at ≤ array_vec_len piece },
    ghost sound_not_early: { 40 * frame ≤ 23 * sound + 40 },
    ghost sound_not_late: { 23 * sound < 40 * frame + 23 },
}

impl Generated {
    ghost use Rattle.remux.specs.Making.{left_of, state_of};
    ghost use Rattle.remux.specs.Generated.{generated, telling};
    ghost use Rattle.std.specs.Prelude.{false};

    /// The text of so many pictures, at most `MOST_FRAMES`. It isn't opened.
    #[tactic(auto, using(crate::proofs::Generating::whole_text))]
    pub fn new(frames: u32) -> Generated
        requires { frames ≤ 20000 }
        ensures { state_of result ≡ telling (generated frames) (generated frames) false false }
    {
        Generated {
            frames,
            frame: 0,
            sound: 0,
            piece: head(),
            at: 0,
            ended: false,
            readable: false,
        }
    }

    // Goes on to the next tag, where the one before was read.
    #[tactic(auto, using(crate::proofs::Generating::sound_next, crate::proofs::Generating::picture_next, crate::proofs::Generating::nothing_left))]
    fn go_on(&mut self)
        requires { self.old.at ≡ array_vec_len self.old.piece }
        ensures left { left_of self.new ≡ left_of self.old }
        ensures none { self.new.at ≡ array_vec_len self.new.piece → left_of self.new ≡ [] }
        ensures same { (self.new.frames ≡ self.old.frames) × (self.new.ended ≡ self.old.ended) × (self.new.readable ≡ self.old.readable) }
    {
        if 23 * self.sound < 40 * self.frame {
            self.at = 0;
            self.piece = sound(self.sound);
            self.sound += 1;
        } else if self.frame < self.frames {
            self.at = 0;
            self.piece = picture(self.frame);
            self.frame += 1;
        }
    }
}

impl Inputs for Generated {
    ghost use Rattle.std.specs.Prelude.{true, false};
    ghost use Rattle.rmx_edge.specs.Inputs.{Opens, Reads};
    ghost use Rattle.remux.specs.Making.{left_of, state_of};

    ghost state = { state_of };

    #[tactic(auto, using(crate::proofs::Generating::whole_text))]
    fn open_input(&mut self, name: &str) -> Result<(), Failed>
        ensures opened { Opens name.now result (state_of self.old) (state_of self.new) }
    {
        *self = Generated {
            frames: self.frames,
            frame: 0,
            sound: 0,
            piece: head(),
            at: 0,
            ended: false,
            readable: true,
        };
        Ok(())
    }

    fn read(&mut self, buf: &mut [u8]) -> Result<usize, Failed>
        requires readable { (state_of self.old).readable ≡ true }
        requires room { 0 < length buf.old }
        ensures taken { Reads result buf.new (state_of self.old) (state_of self.new) }
    {
        if self.at == self.piece.len() {
            self.go_on();
        }
        let count = copy_front(&self.piece[self.at..], buf);
        self.at += count;
        if count == 0 {
            self.ended = true;
            self.readable = false;
        }
        Ok(count)
    }
}
