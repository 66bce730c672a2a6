// Worked examples over memory: what the words come to on a text.
ghost use Rattle.std.specs.Prelude.{◌≡◌, ◌<◌, false, length, All, IfOk};

use crate::SHELVES;
use crate::run::{Outcome, run_direct};
use crate::status::{Ending, Refusal, Status};
use rmx_edge::{MemInputs, MemShelf, MemSink, Shelf};
use std::alloc::Global;
use std::test::Fail;

// The configuration of the pictures, another one, that of the sound, and another one.
pub(super) const SETS: [u8; 22] = [
    0x17, 0, 0, 0, 0, 0x01, 0x42, 0x00, 0x1E, 0xFF, 0xE1, 0x00, 0x04, 0x67, 0x42, 0x00, 0x1E, 0x01,
    0x00, 0x02, 0x68, 0xCE,
];

const OTHER_SETS: [u8; 22] = [
    0x17, 0, 0, 0, 0, 0x01, 0x42, 0x00, 0x1E, 0xFF, 0xE1, 0x00, 0x04, 0x67, 0x42, 0x00, 0x1E, 0x01,
    0x00, 0x02, 0x68, 0xCF,
];

pub(super) const SOUND: [u8; 4] = [0xAF, 0, 0x12, 0x10];

const OTHER_SOUND: [u8; 4] = [0xAF, 0, 0x11, 0x90];

// Pictures, of which the first is a key one, the end of their sequence, and packets of sound.
pub(super) const KEY: [u8; 11] = [0x17, 1, 0, 0, 0, 0, 0, 0, 2, 0x65, 0x88];

pub(super) const PICTURE: [u8; 11] = [0x27, 1, 0, 0, 0, 0, 0, 0, 2, 0x41, 0x9A];

pub(super) const SEQUENCE_END: [u8; 5] = [0x17, 2, 0, 0, 0];

pub(super) const A21: [u8; 3] = [0xAF, 1, 0x21];

pub(super) const A22: [u8; 3] = [0xAF, 1, 0x22];

pub(super) const A23: [u8; 3] = [0xAF, 1, 0x23];

const MP3: [u8; 2] = [0x2F, 0];

// The words that ask for one file of ADTS.
pub(super) const ADTS: [&str; 5] = ["-i", "in.flv", "-f", "adts", "out.aac"];

// A tag: its kind, its stamp and its body.
pub(super) type Tag<'a> = (u8, u32, &'a [u8]);

pub(super) const VIDEO: u8 = 9;

pub(super) const AUDIO: u8 = 8;

const SCRIPT: u8 = 18;

pub(super) fn add_tag(text: &mut Vec<u8>, tag: Tag<'_>) -> Result<(), Fail> {
    let (kind, stamp, body) = tag;
    let size = u32::try_from(body.len().min(9000))?;
    let [_, a, b, c] = size.to_be_bytes();
    let [top, d, e, f] = stamp.to_be_bytes();
    text.extend_from_slice(&[kind, a, b, c, d, e, f, top, 0, 0, 0])?;
    text.extend_from_slice(body)?;
    text.extend_from_slice(&(size + 11).to_be_bytes())?;
    Ok(())
}

// An FLV text with these flags and tags.
pub(super) fn text_of(alloc: Global, flags: u8, tags: &[Tag<'_>]) -> Result<Vec<u8>, Fail> {
    let head = [0x46, 0x4C, 0x56, 1, flags, 0, 0, 0, 9, 0, 0, 0, 0];
    let mut text = Vec::from_slice(alloc, &head)?;
    for tag in tags {
        add_tag(&mut text, *tag)?;
    }
    Ok(text)
}

// One packet of sound.
pub(super) fn short_text(alloc: Global) -> Result<Vec<u8>, Fail> {
    text_of(alloc, 4, &[(AUDIO, 0, &SOUND), (AUDIO, 0, &A21)])
}

// A script, a configuration of each kind, two packets of each kind, and the end of a sequence.
pub(super) fn sample_text(alloc: Global) -> Result<Vec<u8>, Fail> {
    let script = [
        2, 0, 0x0A, 0x6F, 0x6E, 0x4D, 0x65, 0x74, 0x61, 0x44, 0x61, 0x74, 0x61, 8, 0, 0, 0, 0, 0,
        0, 9,
    ];
    let late = [0x27, 1, 0, 0, 0x28, 0, 0, 0, 2, 0x41, 0x9A];
    text_of(
        alloc,
        5,
        &[
            (SCRIPT, 0, &script),
            (VIDEO, 0, &SETS),
            (AUDIO, 0, &SOUND),
            (VIDEO, 0, &KEY),
            (AUDIO, 0, &A21),
            (AUDIO, 23, &A21),
            (VIDEO, 40, &late),
            (VIDEO, 40, &SEQUENCE_END),
        ],
    )
}

// The shelves of a run, of which this is the first; the others don't fail.
pub(super) fn shelves(alloc: Global, first: MemShelf) -> Result<Vec<MemShelf>, Fail>
    requires idle { (⟦<MemShelf as Shelf>⟧.state first).writing ≡ false }
    ensures count { IfOk result (λ v. length v.items ≡ 16) }
    ensures idle { IfOk result (λ v. All (λ s. (⟦<MemShelf as Shelf>⟧.state s).writing ≡ false) v.items) }
{
    let mut shelves = vec![in alloc; first]?;
    for _ in 1..SHELVES {
        shelves.push(MemShelf::new(alloc))?;
    }
    Ok(shelves)
}

// An input of this text, whose calls of these numbers fail, and which gives at most so many bytes at a time.
pub(super) fn input(
    alloc: Global,
    text: &[u8],
    fails: Vec<u64>,
    most: u32,
) -> Result<MemInputs, Fail>
    requires { 0 < most }
{
    let name = String::from_str(alloc, "in.flv")?;
    let files = vec![in alloc; (name, Vec::from_slice(alloc, text)?)]?;
    Ok(MemInputs::new(files, fails, most))
}

// What a run came to, its report, and how many bytes of the input it left.
#[derive(Drop)]
pub(super) struct Ran {
    pub outcome: Outcome<MemShelf>,
    pub report: Vec<u8>,
    pub left: usize,
}

pub(super) fn strings(alloc: Global, words: &[&str]) -> Result<Vec<String>, Fail> {
    let mut strings = Vec::new(alloc);
    for word in words {
        strings.push(String::from_str(alloc, word)?)?;
    }
    Ok(strings)
}

pub(super) fn run_with(
    alloc: Global,
    words: &[&str],
    inputs: MemInputs,
    first: MemShelf,
    out: MemSink,
) -> Result<Ran, Fail>
    requires idle { (⟦<MemShelf as Shelf>⟧.state first).writing ≡ false }
{
    let mut inputs = inputs;
    let mut out = out;
    let words = strings(alloc, words)?;
    let shelves = shelves(alloc, first)?;
    let outcome = run_direct(alloc, &words, &mut inputs, shelves, &mut out);
    Ok(Ran {
        outcome,
        report: Vec::from_slice(alloc, out.bytes())?,
        left: inputs.left(),
    })
}

// Runs the words on this text, with this shelf for the first output.
pub(super) fn run_first(
    alloc: Global,
    words: &[&str],
    text: &[u8],
    first: MemShelf,
) -> Result<Ran, Fail>
    requires idle { (⟦<MemShelf as Shelf>⟧.state first).writing ≡ false }
{
    let inputs = input(alloc, text, Vec::new(alloc), 65536)?;
    run_with(alloc, words, inputs, first, MemSink::new(Vec::new(alloc)))
}

// Runs the words on this text where nothing fails.
pub(super) fn run_on(alloc: Global, words: &[&str], text: &[u8]) -> Result<Ran, Fail> {
    run_first(alloc, words, text, MemShelf::new(alloc))
}

// The outputs of a tee on this text, with this shelf for the first one.
pub(super) fn run_tee(
    alloc: Global,
    outputs: &str,
    text: &[u8],
    first: MemShelf,
) -> Result<Ran, Fail>
    requires idle { (⟦<MemShelf as Shelf>⟧.state first).writing ≡ false }
{
    run_first(alloc, &["-i", "in.flv", "-f", "tee", outputs], text, first)
}

// Whether a run made no output and left all shelves as they were.
pub(super) fn is_nothing(ran: &Ran) -> bool {
    let untouched = ran
        .outcome
        .spare
        .as_slice()
        .iter()
        .all(|shelf| shelf.take_count() == 0);
    ran.outcome.ends.as_slice().is_empty()
        && ran.outcome.spare.as_slice().len() == SHELVES
        && untouched
        && ran.outcome.tags == 0
        && ran.outcome.upto == 0
}

// The shelf of an output.
pub(super) fn shelf_of(ran: &Ran, output: usize) -> Result<&MemShelf, Fail> {
    let end = ran.outcome.ends.as_slice().get(output);
    Ok(&end.ok_or("no such output")?.shelf)
}

// A file: its name, its bytes, and whether it was closed.
pub(super) fn file(shelf: &MemShelf, at: usize) -> Option<(&str, &[u8], bool)> {
    if at >= shelf.take_count() {
        return None;
    }
    Some((
        shelf.take_name(at),
        shelf.take_bytes(at),
        shelf.take_closed(at),
    ))
}

// The bytes of the first file of an output.
fn bytes_of(ran: &Ran, output: usize) -> Option<&[u8]> {
    let shelf = &ran.outcome.ends.as_slice().get(output)?.shelf;
    Some(file(shelf, 0)?.1)
}

// Adds a picture or a frame of sound at each of these times.
fn add_each(text: &mut Vec<u8>, stamps: &[(u8, u32)]) -> Result<(), Fail> {
    for (kind, stamp) in stamps {
        let body: &[u8] = if *kind == VIDEO { &PICTURE } else { &A21 };
        add_tag(text, (*kind, *stamp, body))?;
    }
    Ok(())
}

fn last_picture(stamps: &[(u8, u32)]) -> u32 {
    let mut last = 0;
    for (kind, stamp) in stamps {
        if *kind == VIDEO {
            last = *stamp;
        }
    }
    last
}

// The order of packets of sound and pictures in an FLV output, by their kinds and stamps. A stream with a configuration
// holds the others up, but not for longer than the words allow.
#[test]
fn orders(rt: HostRuntime) -> Result<(), Fail> {
    let alloc = rt.alloc();
    type Stamps<'a> = &'a [(u8, u32)];
    let cases: [(&str, Stamps, Stamps); 9] = [
        (
            "0",
            &[(9, 0), (9, 40), (9, 80), (8, 0), (8, 23), (8, 46)],
            &[(9, 0), (8, 0), (8, 23), (9, 40), (8, 46), (9, 80)],
        ),
        (
            "50000",
            &[(9, 0), (9, 40), (9, 100), (8, 0), (8, 120)],
            &[(9, 0), (9, 40), (8, 0), (9, 100), (8, 120)],
        ),
        (
            "50000",
            &[(9, 0), (9, 50), (8, 0)],
            &[(9, 0), (8, 0), (9, 50)],
        ),
        (
            "50000",
            &[(9, 0), (9, 40), (9, 90), (8, 0)],
            &[(9, 0), (8, 0), (9, 40), (9, 90)],
        ),
        (
            "50000",
            &[(9, 0), (9, 40), (9, 91), (8, 0)],
            &[(9, 0), (9, 40), (8, 0), (9, 91)],
        ),
        (
            "0",
            &[(9, 0), (9, 40), (9, 100), (8, 0), (8, 120)],
            &[(9, 0), (8, 0), (9, 40), (9, 100), (8, 120)],
        ),
        (
            "10000000",
            &[(9, 0), (9, 40), (9, 10040), (8, 0)],
            &[(9, 0), (8, 0), (9, 40), (9, 10040)],
        ),
        (
            "10000000",
            &[(9, 0), (9, 40), (9, 10041), (8, 0)],
            &[(9, 0), (9, 40), (8, 0), (9, 10041)],
        ),
        (
            "1000000000000000",
            &[(8, 0), (8, 7), (8, 9), (9, 0), (9, 7)],
            &[(9, 0), (8, 0), (9, 7), (8, 7), (8, 9)],
        ),
    ];
    for (delta, arrivals, order) in cases {
        let heads: [Tag; 2] = [(VIDEO, 0, &SETS), (AUDIO, 0, &SOUND)];
        let mut text = text_of(alloc, 5, &heads)?;
        add_each(&mut text, arrivals)?;
        let mut wanted = text_of(alloc, 5, &heads)?;
        add_each(&mut wanted, order)?;
        let last = last_picture(order);
        add_tag(&mut wanted, (VIDEO, last, &SEQUENCE_END))?;
        let words = [
            "-i",
            "in.flv",
            "-max_interleave_delta",
            delta,
            "-f",
            "flv",
            "o.flv",
        ];
        let ran = run_on(alloc, &words, &text)?;
        assert_eq!(rt; ran.outcome.status, Status::Done);
        assert_eq!(rt;
            bytes_of(&ran, 0),
            Some(wanted.as_slice()),
            "{delta} {arrivals:?}"
        );
    }
    Ok(())
}

pub(super) const FRAME21: [u8; 8] = [0xFF, 0xF1, 0x50, 0x80, 0x01, 0x1F, 0xFC, 0x21];

pub(super) const TWO_FRAMES: [u8; 16] = [
    0xFF, 0xF1, 0x50, 0x80, 0x01, 0x1F, 0xFC, 0x21, 0xFF, 0xF1, 0x50, 0x80, 0x01, 0x1F, 0xFC, 0x21,
];

// The second frame by another configuration.
const OTHER_FRAMES: [u8; 16] = [
    0xFF, 0xF1, 0x50, 0x80, 0x01, 0x1F, 0xFC, 0x21, 0xFF, 0xF1, 0x4C, 0x80, 0x01, 0x1F, 0xFC, 0x22,
];

// Whether the words that ask for a file of ADTS come to this status, to so many tags and packets, to this file, and to a
// report with these counts of what was passed over.
fn is_sound(
    alloc: Global,
    text: &[u8],
    came_to: (Status, u64, u64),
    bytes: &[u8],
    discards: &str,
) -> Result<bool, Fail> {
    let ran = run_on(alloc, &ADTS, text)?;
    let report = str::from_utf8(&ran.report).unwrap_or("");
    let outcome = &ran.outcome;
    Ok(
        (outcome.status, outcome.tags, outcome.upto) == came_to
            && file(shelf_of(&ran, 0)?, 0) == Some(("out.aac", bytes, true))
            && report.contains(discards),
    )
}

// Sound alone, cut, or beside pictures.
#[test]
fn sound(rt: HostRuntime) -> Result<(), Fail> {
    let alloc = rt.alloc();
    let whole = short_text(alloc)?;
    let head = whole.get(..32).ok_or("too short")?;
    let cut = whole.get(..44).ok_or("too short")?;
    let sample = sample_text(alloc)?;
    let at_end = Status::InputEnded(Ending::Cut);
    let cases: [(&[u8], (Status, u64, u64), &[u8], &str); 4] = [
        (
            &whole,
            (Status::Done, 2, 1),
            &FRAME21,
            "script=0 unsupported=0 nostream=0 corrupt=0 command=0 seqend=0 repeat=0\n",
        ),
        (head, (Status::Done, 1, 0), &[], "repeat=0\n"),
        (cut, (at_end, 1, 0), &[], "repeat=0\n"),
        (
            &sample,
            (Status::Done, 8, 4),
            &TWO_FRAMES,
            "script=1 unsupported=0 nostream=0 corrupt=0 command=0 seqend=1 repeat=0\n",
        ),
    ];
    for (text, came_to, bytes, discards) in cases {
        assert!(rt;
            is_sound(alloc, text, came_to, bytes, discards)?,
            "{came_to:?}"
        );
    }
    Ok(())
}

// A configuration that comes again, and one that changes, which an FLV file has too.
#[test]
fn changed_sound(rt: HostRuntime) -> Result<(), Fail> {
    let alloc = rt.alloc();
    let tags: [Tag; 4] = [
        (AUDIO, 0, &SOUND),
        (AUDIO, 0, &A21),
        (AUDIO, 0, &OTHER_SOUND),
        (AUDIO, 0, &A22),
    ];
    let changed = text_of(alloc, 4, &tags)?;
    let before = changed.get(..69).ok_or("too short")?;
    let repeated = text_of(alloc, 4, &[tags[0], tags[1], tags[0]])?;
    let cases: [(&[u8], (Status, u64, u64), &[u8], &str); 3] = [
        (&repeated, (Status::Done, 3, 1), &FRAME21, "repeat=1\n"),
        (before, (Status::Done, 3, 1), &FRAME21, "repeat=0\n"),
        (&changed, (Status::Done, 4, 2), &OTHER_FRAMES, "repeat=0\n"),
    ];
    for (text, came_to, bytes, discards) in cases {
        assert!(rt;
            is_sound(alloc, text, came_to, bytes, discards)?,
            "{came_to:?}"
        );
    }
    let ran = run_on(alloc, &["-i", "in.flv", "-f", "flv", "o.flv"], &changed)?;
    assert_eq!(rt; bytes_of(&ran, 0), Some(changed.as_slice()));
    Ok(())
}

// Texts that are refused: no shelf is touched.
#[test]
fn refused(rt: HostRuntime) -> Result<(), Fail> {
    let alloc = rt.alloc();
    let tags: [Tag; 4] = [
        (VIDEO, 0, &SETS),
        (VIDEO, 0, &KEY),
        (VIDEO, 40, &PICTURE),
        (VIDEO, 80, &PICTURE),
    ];
    let pictures = text_of(alloc, 5, &tags)?;
    let no_flv = [0x47, 0x40, 0x00];
    let bad = [0x46, 0x4C, 0x56, 1, 4, 0, 0, 0, 8];
    let head = text_of(alloc, 5, &[])?;
    let cases: [(&[u8], Refusal, &str); 5] = [
        (&no_flv, Refusal::NotFlv, "status 3 refused not-flv\n"),
        (&bad, Refusal::BadOffset, "status 3 refused bad-offset\n"),
        (&head, Refusal::NoStreams, "status 3 refused no-streams\n"),
        (
            &pictures,
            Refusal::NoneSelected(0),
            "status 3 refused none-selected slave=0\n",
        ),
        (&[], Refusal::NotFlv, "status 3 refused not-flv\n"),
    ];
    for (text, refusal, report) in cases {
        let ran = run_on(alloc, &ADTS, text)?;
        assert_eq!(rt; ran.outcome.status, Status::InputRefused(refusal));
        assert_eq!(rt; ran.report.as_slice(), report.as_bytes());
        assert!(rt; is_nothing(&ran), "{report}");
    }
    let outputs = "[f=flv]o.flv|[f=mpegts:select=a]o.ts|[f=adts]o.aac";
    let ran = run_tee(alloc, outputs, &pictures, MemShelf::new(alloc))?;
    let refused = Status::InputRefused(Refusal::NoneSelected(1));
    assert_eq!(rt; ran.outcome.status, refused);
    assert!(rt; is_nothing(&ran));
    Ok(())
}

// Three pictures beside sound that isn't AAC.
fn beside_other_sound(alloc: Global) -> Result<Vec<u8>, Fail> {
    let tags: [Tag; 6] = [
        (VIDEO, 0, &SETS),
        (AUDIO, 0, &MP3),
        (VIDEO, 0, &KEY),
        (VIDEO, 40, &PICTURE),
        (AUDIO, 46, &MP3),
        (VIDEO, 80, &PICTURE),
    ];
    text_of(alloc, 5, &tags)
}

// Pictures beside sound that isn't AAC.
#[test]
fn pictures(rt: HostRuntime) -> Result<(), Fail> {
    let alloc = rt.alloc();
    let text = beside_other_sound(alloc)?;
    let tags: [Tag; 5] = [
        (VIDEO, 0, &SETS),
        (VIDEO, 0, &KEY),
        (VIDEO, 40, &PICTURE),
        (VIDEO, 80, &PICTURE),
        (VIDEO, 80, &SEQUENCE_END),
    ];
    let wanted = text_of(alloc, 1, &tags)?;
    let ran = run_tee(
        alloc,
        "[f=flv]o.flv|[f=mpegts]o.ts",
        &text,
        MemShelf::new(alloc),
    )?;
    assert_eq!(rt; ran.outcome.status, Status::Done);
    assert_eq!(rt; ran.outcome.tags, 6);
    assert_eq!(rt; ran.outcome.discards.unsupported, 2);
    assert_eq!(rt; bytes_of(&ran, 0), Some(wanted.as_slice()));
    assert_eq!(rt; bytes_of(&ran, 1).map(|bytes| bytes.len()), Some(5 * 188));
    Ok(())
}

// Each packet goes out at once, so that a dead output ends the run behind the first.
#[test]
fn a_dead_output_of_pictures(rt: HostRuntime) -> Result<(), Fail> {
    let alloc = rt.alloc();
    let text = beside_other_sound(alloc)?;
    let ran = run_tee(alloc, "[f=flv]o.flv", &text, MemShelf::dead(alloc))?;
    assert_eq!(rt; ran.outcome.status, Status::SlaveFailed(0));
    assert_eq!(rt; (ran.outcome.tags, ran.outcome.upto), (3, 1));
    Ok(())
}

// Parameter sets that change on the way: the tables come again, and the new sets stand in front of a key picture alone.
#[test]
fn changed_sets(rt: HostRuntime) -> Result<(), Fail> {
    let alloc = rt.alloc();
    let key: [(&[u8], &[u8]); 2] = [
        (&PICTURE, &[0, 0, 0, 1, 0x41, 0x9A]),
        (&KEY, &[0, 0, 0, 1, 0x68, 0xCF, 0, 0, 0, 1, 0x65, 0x88]),
    ];
    for (picture, back) in key {
        let tags: [Tag; 4] = [
            (VIDEO, 0, &SETS),
            (VIDEO, 0, &KEY),
            (VIDEO, 0, &OTHER_SETS),
            (VIDEO, 40, picture),
        ];
        let text = text_of(alloc, 1, &tags)?;
        let ran = run_on(alloc, &["-i", "in.flv", "-f", "mpegts", "o.ts"], &text)?;
        assert_eq!(rt; ran.outcome.status, Status::Done);
        let cells = bytes_of(&ran, 0).ok_or("no file")?;
        assert_eq!(rt; cells.len(), 6 * 188);
        assert_eq!(rt; cells.get(564..567), Some([0x47, 0x40, 0].as_slice()));
        assert_eq!(rt; cells.get(752..755), Some([0x47, 0x50, 0].as_slice()));
        assert!(rt; cells.ends_with(back));
    }
    Ok(())
}

// Pictures without any sound, though the header speaks of both: each packet goes out at once.
#[test]
fn pictures_alone(rt: HostRuntime) -> Result<(), Fail> {
    let alloc = rt.alloc();
    let tags: [Tag; 5] = [
        (VIDEO, 0, &SETS),
        (VIDEO, 0, &KEY),
        (VIDEO, 40, &PICTURE),
        (VIDEO, 80, &PICTURE),
        (VIDEO, 80, &SEQUENCE_END),
    ];
    let text = text_of(alloc, 5, &tags[..4])?;
    let wanted = text_of(alloc, 1, &tags)?;
    let ran = run_tee(alloc, "[f=flv]o.flv", &text, MemShelf::new(alloc))?;
    assert_eq!(rt; ran.outcome.status, Status::Done);
    assert_eq!(rt; (ran.outcome.tags, ran.outcome.upto), (4, 3));
    assert_eq!(rt; bytes_of(&ran, 0), Some(wanted.as_slice()));
    let ran = run_tee(alloc, "[f=flv]o.flv", &text, MemShelf::dead(alloc))?;
    assert_eq!(rt; ran.outcome.status, Status::SlaveFailed(0));
    assert_eq!(rt; (ran.outcome.tags, ran.outcome.upto), (2, 1));
    Ok(())
}

// Which streams an output takes.
#[test]
fn selected(rt: HostRuntime) -> Result<(), Fail> {
    let alloc = rt.alloc();
    let sample = sample_text(alloc)?;
    let outputs = "[f=flv:select=v:onfail=ignore]a\\|b.flv|[f=adts]c.aac";
    let ran = run_tee(alloc, outputs, &sample, MemShelf::new(alloc))?;
    assert_eq!(rt; ran.outcome.status, Status::Done);
    let script = sample.get(24..45).ok_or("too short")?;
    let late = [0x27, 1, 0, 0, 0x28, 0, 0, 0, 2, 0x41, 0x9A];
    let tags: [Tag; 5] = [
        (SCRIPT, 0, script),
        (VIDEO, 0, &SETS),
        (VIDEO, 0, &KEY),
        (VIDEO, 40, &late),
        (VIDEO, 40, &SEQUENCE_END),
    ];
    let wanted = text_of(alloc, 1, &tags)?;
    let flv = Some(("a|b.flv", wanted.as_slice(), true));
    assert_eq!(rt; file(shelf_of(&ran, 0)?, 0), flv);
    let aac = Some(("c.aac", TWO_FRAMES.as_slice(), true));
    assert_eq!(rt; file(shelf_of(&ran, 1)?, 0), aac);
    Ok(())
}

// What an output's filters leave of a packet, and that another output has it whole.
#[test]
fn filtered(rt: HostRuntime) -> Result<(), Fail> {
    let alloc = rt.alloc();
    let sei = [0x17, 1, 0, 0, 0, 0, 0, 0, 2, 6, 5, 0, 0, 0, 2, 0x65, 0x88];
    let only = [0x27, 1, 0, 0, 0, 0, 0, 0, 2, 6, 5];
    let tags: [Tag; 3] = [(VIDEO, 0, &SETS), (VIDEO, 0, &sei), (VIDEO, 40, &only)];
    let text = text_of(alloc, 1, &tags)?;
    let outputs = "[f=flv:bsfs=filter_units=remove_types=6]o.flv|[f=flv]p.flv";
    let ran = run_tee(alloc, outputs, &text, MemShelf::new(alloc))?;
    let tags: [Tag; 3] = [
        (VIDEO, 0, &SETS),
        (VIDEO, 0, &KEY),
        (VIDEO, 0, &SEQUENCE_END),
    ];
    let wanted = text_of(alloc, 1, &tags)?;
    assert_eq!(rt; bytes_of(&ran, 0), Some(wanted.as_slice()));
    let mut whole = Vec::from_slice(alloc, &text)?;
    add_tag(&mut whole, (VIDEO, 40, &SEQUENCE_END))?;
    assert_eq!(rt; bytes_of(&ran, 1), Some(whole.as_slice()));
    Ok(())
}

// Whether the words come to a fault of this kind and place, and to nothing else.
fn is_fault(
    alloc: Global,
    words: &[&str],
    text: &[u8],
    kind: u32,
    word: u32,
) -> Result<bool, Fail> {
    let ran = run_on(alloc, words, text)?;
    let report = format!(in alloc; "status 1 words fault={kind} word={word}\n")?;
    Ok(
        ran.report.as_slice() == report.as_bytes()
            && ran.outcome.status.number() == 1
            && is_nothing(&ran),
    )
}

// A fault of each kind in the words: the report, and that nothing was opened.
#[test]
fn word_faults(rt: HostRuntime) -> Result<(), Fail> {
    let alloc = rt.alloc();
    let text = short_text(alloc)?;
    let cases: [(&[&str], u32, u32); 6] = [
        (&[], 3, 0),
        (&["-x"], 1, 0),
        (&["-i"], 2, 0),
        (&["-f", "adts", "o.aac"], 3, 3),
        (&["-i", "in.flv", "-f", "adts"], 4, 4),
        (&["-i", "in.flv", "-f", "ogg", "o"], 5, 3),
    ];
    for (words, kind, word) in cases {
        assert!(rt; is_fault(alloc, words, &text, kind, word)?, "{kind}");
    }
    Ok(())
}

// The faults of a tee's outputs.
#[test]
fn tee_faults(rt: HostRuntime) -> Result<(), Fail> {
    let alloc = rt.alloc();
    let text = short_text(alloc)?;
    let long = vec![in alloc; b'n'; 201]?;
    let long = format!(in alloc; "[f=flv]{}", str::from_utf8(&long).unwrap_or(""))?;
    let seventeen =
        "[f=flv]a|[f=flv]b|[f=flv]c|[f=flv]d|[f=flv]e|[f=flv]f|[f=flv]g|[f=flv]h|[f=flv]i|[f=flv]j|[f=flv]k|[f=flv]l|[f=flv]m|[f=flv]n|[f=flv]o|[f=flv]p|[f=flv]q";
    for (outputs, kind) in [
        ("[f=flv:zz=1]o", 6),
        ("[f=flv:use_fifo=2]o", 7),
        ("[f=flv]o\\", 8),
        ("[f=flv", 9),
        (seventeen, 10),
        ("[f=flv]o|[f=adts]o", 11),
        ("[f=segment]o.ts", 12),
        ("[f=flv:bsfs=h264_mp4toannexb]o", 13),
        (long.as_str(), 14),
    ] {
        let words = ["-i", "in.flv", "-f", "tee", outputs];
        assert!(rt; is_fault(alloc, &words, &text, kind, 4)?, "{kind}");
    }
    Ok(())
}
