// Worked examples over memory: outputs that go on after a fault, in a further file.
ghost use Rattle.std.specs.Prelude.{◌≡◌, false, IfOk};

use super::told::{bytes_of, told};
use super::worked::{
    A21, A22, A23, AUDIO, KEY, PICTURE, SETS, SOUND, Tag, VIDEO, run_on, run_tee, text_of,
};
use crate::status::Status;
use rmx_edge::{FailAt, MemShelf, Shelf};
use std::alloc::Global;
use std::test::Fail;

// A shelf that fails at these calls, at which it keeps so many bytes.
pub(super) fn failing(alloc: Global, calls: &[u64], keep: u32) -> Result<MemShelf, Fail>
    ensures { IfOk result (λ shelf. (⟦<MemShelf as Shelf>⟧.state shelf).writing ≡ false) }
{
    let mut fails = Vec::new(alloc);
    for call in calls {
        fails.push(FailAt { call: *call, keep })?;
    }
    Ok(MemShelf::failing(alloc, fails))
}

// The status of a run of these words on this text, where these calls of its only output's shelf fail, what is told of that
// output, and the bytes of its files.
fn went_on(
    alloc: Global,
    output: &str,
    text: &[u8],
    calls: &[u64],
    keep: u32,
) -> Result<(Status, String, Vec<u8>), Fail> {
    let ran = run_tee(alloc, output, text, failing(alloc, calls, keep)?)?;
    let lines = told(alloc, &ran, 0)?;
    let bytes = bytes_of(alloc, &ran, 0)?;
    Ok((ran.outcome.status, lines, bytes))
}

// Three packets of sound.
pub(super) fn three_frames(alloc: Global) -> Result<Vec<u8>, Fail> {
    let tags: [Tag; 4] = [
        (AUDIO, 0, &SOUND),
        (AUDIO, 0, &A21),
        (AUDIO, 0, &A22),
        (AUDIO, 0, &A23),
    ];
    text_of(alloc, 4, &tags)
}

pub(super) const ONE_FAULT: &str = "\
Closed bytes=24
file a.aac closed=false bytes=10
file a.aac~1 closed=true bytes=16
session 0 begun=true closed=false
session 1 begun=true closed=true
fault session=0 Put(1) 0..1
Written(0) first=0 count=1
Written(1) first=1 count=2
";

pub(super) const ONE_FAULT_BYTES: [u8; 26] = [
    0xFF, 0xF1, 0x50, 0x80, 0x01, 0x1F, 0xFC, 0x21, 0xFF, 0xF1, // and what was kept of the second
    0xFF, 0xF1, 0x50, 0x80, 0x01, 0x1F, 0xFC, 0x22, 0xFF, 0xF1, 0x50, 0x80, 0x01, 0x1F, 0xFC, 0x23,
];

const RECOVERING: &str = "[f=adts:fifo_options=attempt_recovery=1]a.aac";

// A packet whose write failed is written into the next file.
#[test]
fn sound_goes_on(rt: HostRuntime) -> Result<(), Fail> {
    let alloc = rt.alloc();
    let text = three_frames(alloc)?;
    let (status, lines, bytes) = went_on(alloc, RECOVERING, &text, &[3], 2)?;
    assert_eq!(rt; status, Status::Done);
    assert_eq!(rt; lines.as_str(), ONE_FAULT);
    assert_eq!(rt; bytes.as_slice(), ONE_FAULT_BYTES.as_slice());
    Ok(())
}

const TWO_FAULTS: &str = "\
Closed bytes=16
file a.aac closed=false bytes=8
file a.aac~2 closed=true bytes=8
session 0 begun=true closed=false
session 1 begun=false closed=false
session 2 begun=true closed=true
fault session=0 Put(1) 0..1
fault session=1 Begin 1..2
Written(0) first=0 count=1
Lost(1) first=1 count=1
Written(2) first=2 count=1
";

const FIRST_AND_LAST: [u8; 16] = [
    0xFF, 0xF1, 0x50, 0x80, 0x01, 0x1F, 0xFC, 0x21, 0xFF, 0xF1, 0x50, 0x80, 0x01, 0x1F, 0xFC, 0x23,
];

// Where the next file can't be made either, the packet is lost, and the one behind it begins the file after that.
#[test]
fn sound_goes_on_later(rt: HostRuntime) -> Result<(), Fail> {
    let alloc = rt.alloc();
    let text = three_frames(alloc)?;
    let (status, lines, bytes) = went_on(alloc, RECOVERING, &text, &[3, 4], 0)?;
    assert_eq!(rt; status, Status::Done);
    assert_eq!(rt; lines.as_str(), TWO_FAULTS);
    assert_eq!(rt; bytes.as_slice(), FIRST_AND_LAST.as_slice());
    Ok(())
}

// Three pictures, of which the second is no key one.
pub(super) fn three_pictures(alloc: Global) -> Result<Vec<u8>, Fail> {
    let tags: [Tag; 4] = [
        (VIDEO, 0, &SETS),
        (VIDEO, 0, &KEY),
        (VIDEO, 40, &PICTURE),
        (VIDEO, 80, &KEY),
    ];
    text_of(alloc, 1, &tags)
}

// A file of MPEG-TS with one key picture at this time.
pub(super) fn one_picture(alloc: Global, stamp: u32) -> Result<Vec<u8>, Fail> {
    let text = text_of(alloc, 1, &[(VIDEO, 0, &SETS), (VIDEO, stamp, &KEY)])?;
    let ran = run_on(alloc, &["-i", "in.flv", "-f", "mpegts", "o.ts"], &text)?;
    bytes_of(alloc, &ran, 0)
}

// The files of the first and of the third picture.
pub(super) fn key_pictures(alloc: Global) -> Result<Vec<u8>, Fail> {
    let mut both = one_picture(alloc, 0)?;
    both.extend_from_slice(&one_picture(alloc, 80)?)?;
    Ok(both)
}

pub(super) const BY_KEY: &str = "\
Closed bytes=1128
file a.ts closed=false bytes=564
file a.ts~1 closed=true bytes=564
session 0 begun=true closed=false
session 1 begun=true closed=true
fault session=0 Put(1) 0..1
Written(0) first=0 count=1
KeyWait first=1 count=1
Written(1) first=2 count=1
";

// Where decoding is to begin anew, a picture that is no key one is passed over, and the next key one begins the next file.
#[test]
fn pictures_go_on(rt: HostRuntime) -> Result<(), Fail> {
    let alloc = rt.alloc();
    let text = three_pictures(alloc)?;
    let output = "[f=mpegts:fifo_options=attempt_recovery=1\\\\:restart_with_keyframe=1]a.ts";
    let (status, lines, bytes) = went_on(alloc, output, &text, &[4], 0)?;
    assert_eq!(rt; status, Status::Done);
    assert_eq!(rt; lines.as_str(), BY_KEY);
    assert_eq!(rt; bytes, key_pictures(alloc)?);
    Ok(())
}

const BY_SEGMENT: &str = "\
Closed bytes=16
file s0.aac closed=true bytes=8
file s1.aac closed=false bytes=0
file s2.aac closed=true bytes=8
session 0 begun=true closed=false
session 1 begun=true closed=true
fault session=0 Put(1) 0..1
Written(0) first=0 count=1
Written(1) first=1 count=1
";

const FIRST_AND_SECOND: [u8; 16] = [
    0xFF, 0xF1, 0x50, 0x80, 0x01, 0x1F, 0xFC, 0x21, 0xFF, 0xF1, 0x50, 0x80, 0x01, 0x1F, 0xFC, 0x22,
];

// Segments of sound: the number of the one whose writing failed is not given again.
#[test]
fn segments_go_on(rt: HostRuntime) -> Result<(), Fail> {
    let alloc = rt.alloc();
    let tags: [Tag; 3] = [(AUDIO, 0, &SOUND), (AUDIO, 0, &A21), (AUDIO, 2000, &A22)];
    let text = text_of(alloc, 4, &tags)?;
    let output = "[f=segment:segment_format=adts:fifo_options=attempt_recovery=1]s%d.aac";
    let (status, lines, bytes) = went_on(alloc, output, &text, &[5], 0)?;
    assert_eq!(rt; status, Status::Done);
    assert_eq!(rt; lines.as_str(), BY_SEGMENT);
    assert_eq!(rt; bytes.as_slice(), FIRST_AND_SECOND.as_slice());
    Ok(())
}
