// Runs over memory.
ghost use Rattle.std.specs.Prelude.{◌≡◌, ◌<◌, false, length, All, IfOk};

use super::worked::strings;
use crate::SHELVES;
use crate::run::run_direct;
use crate::status::{Ending, Refusal, Status};
use flv_tags::tag_head;
use rmx_edge::{MemInputs, MemShelf, MemSink, Shelf};
use std::alloc::Global;
use std::test::Fail;

// An FLV text with one packet of audio.
const TEXT: [u8; 50] = [
    0x46, 0x4C, 0x56, 0x01, 0x04, 0, 0, 0, 9, 0, 0, 0, 0, // its head and the first size
    8, 0, 0, 4, 0, 0, 0, 0, 0, 0, 0, 0xAF, 0x00, 0x12, 0x10, 0, 0, 0, 15, // the configuration
    8, 0, 0, 3, 0, 0, 0, 0, 0, 0, 0, 0xAF, 0x01, 0x21, 0, 0, 0, 14, // the packet
];

const FRAME: [u8; 8] = [0xFF, 0xF1, 0x50, 0x80, 0x01, 0x1F, 0xFC, 0x21];

// A text with a script, a configuration of each kind, two packets of audio, two of video, and the end of a sequence.
const SAMPLE: [u8; 213] = [
    0x46, 0x4C, 0x56, 0x01, 0x05, 0x00, 0x00, 0x00, 0x09, 0x00, 0x00, 0x00, 0x00, 0x12, 0x00, 0x00,
    0x15, 0x00, 0x00, 0x00, 0x00, 0x00, 0x00, 0x00, 0x02, 0x00, 0x0A, 0x6F, 0x6E, 0x4D, 0x65, 0x74,
    0x61, 0x44, 0x61, 0x74, 0x61, 0x08, 0x00, 0x00, 0x00, 0x00, 0x00, 0x00, 0x09, 0x00, 0x00, 0x00,
    0x20, 0x09, 0x00, 0x00, 0x16, 0x00, 0x00, 0x00, 0x00, 0x00, 0x00, 0x00, 0x17, 0x00, 0x00, 0x00,
    0x00, 0x01, 0x42, 0x00, 0x1E, 0xFF, 0xE1, 0x00, 0x04, 0x67, 0x42, 0x00, 0x1E, 0x01, 0x00, 0x02,
    0x68, 0xCE, 0x00, 0x00, 0x00, 0x21, 0x08, 0x00, 0x00, 0x04, 0x00, 0x00, 0x00, 0x00, 0x00, 0x00,
    0x00, 0xAF, 0x00, 0x12, 0x10, 0x00, 0x00, 0x00, 0x0F, 0x09, 0x00, 0x00, 0x0B, 0x00, 0x00, 0x00,
    0x00, 0x00, 0x00, 0x00, 0x17, 0x01, 0x00, 0x00, 0x00, 0x00, 0x00, 0x00, 0x02, 0x65, 0x88, 0x00,
    0x00, 0x00, 0x16, 0x08, 0x00, 0x00, 0x03, 0x00, 0x00, 0x00, 0x00, 0x00, 0x00, 0x00, 0xAF, 0x01,
    0x21, 0x00, 0x00, 0x00, 0x0E, 0x08, 0x00, 0x00, 0x03, 0x00, 0x00, 0x17, 0x00, 0x00, 0x00, 0x00,
    0xAF, 0x01, 0x21, 0x00, 0x00, 0x00, 0x0E, 0x09, 0x00, 0x00, 0x0B, 0x00, 0x00, 0x28, 0x00, 0x00,
    0x00, 0x00, 0x27, 0x01, 0x00, 0x00, 0x28, 0x00, 0x00, 0x00, 0x02, 0x41, 0x9A, 0x00, 0x00, 0x00,
    0x16, 0x09, 0x00, 0x00, 0x05, 0x00, 0x00, 0x28, 0x00, 0x00, 0x00, 0x00, 0x17, 0x02, 0x00, 0x00,
    0x00, 0x00, 0x00, 0x00, 0x10,
];

// The first text, and then a packet of another configuration.
const CHANGED: [u8; 87] = [
    0x46, 0x4C, 0x56, 0x01, 0x04, 0x00, 0x00, 0x00, 0x09, 0x00, 0x00, 0x00, 0x00, 0x08, 0x00, 0x00,
    0x04, 0x00, 0x00, 0x00, 0x00, 0x00, 0x00, 0x00, 0xAF, 0x00, 0x12, 0x10, 0x00, 0x00, 0x00, 0x0F,
    0x08, 0x00, 0x00, 0x03, 0x00, 0x00, 0x00, 0x00, 0x00, 0x00, 0x00, 0xAF, 0x01, 0x21, 0x00, 0x00,
    0x00, 0x0E, 0x08, 0x00, 0x00, 0x04, 0x00, 0x00, 0x00, 0x00, 0x00, 0x00, 0x00, 0xAF, 0x00, 0x11,
    0x90, 0x00, 0x00, 0x00, 0x0F, 0x08, 0x00, 0x00, 0x03, 0x00, 0x00, 0x00, 0x00, 0x00, 0x00, 0x00,
    0xAF, 0x01, 0x22, 0x00, 0x00, 0x00, 0x0E,
];

// A picture, and audio that isn't AAC.
const NO_AUDIO: [u8; 93] = [
    0x46, 0x4C, 0x56, 0x01, 0x05, 0x00, 0x00, 0x00, 0x09, 0x00, 0x00, 0x00, 0x00, 0x09, 0x00, 0x00,
    0x16, 0x00, 0x00, 0x00, 0x00, 0x00, 0x00, 0x00, 0x17, 0x00, 0x00, 0x00, 0x00, 0x01, 0x42, 0x00,
    0x1E, 0xFF, 0xE1, 0x00, 0x04, 0x67, 0x42, 0x00, 0x1E, 0x01, 0x00, 0x02, 0x68, 0xCE, 0x00, 0x00,
    0x00, 0x21, 0x09, 0x00, 0x00, 0x0B, 0x00, 0x00, 0x00, 0x00, 0x00, 0x00, 0x00, 0x17, 0x01, 0x00,
    0x00, 0x00, 0x00, 0x00, 0x00, 0x02, 0x65, 0x88, 0x00, 0x00, 0x00, 0x16, 0x08, 0x00, 0x00, 0x02,
    0x00, 0x00, 0x00, 0x00, 0x00, 0x00, 0x00, 0x2F, 0x00, 0x00, 0x00, 0x00, 0x0D,
];

const TWICE: [u8; 16] = [
    0xFF, 0xF1, 0x50, 0x80, 0x01, 0x1F, 0xFC, 0x21, 0xFF, 0xF1, 0x50, 0x80, 0x01, 0x1F, 0xFC, 0x21,
];

const OTHER: [u8; 16] = [
    0xFF, 0xF1, 0x50, 0x80, 0x01, 0x1F, 0xFC, 0x21, 0xFF, 0xF1, 0x4C, 0x80, 0x01, 0x1F, 0xFC, 0x22,
];

// A shelf that never fails, or one that fails at every call.
fn shelf(alloc: Global, dead: bool) -> MemShelf
    ensures { (⟦<MemShelf as Shelf>⟧.state result).writing ≡ false }
{
    if dead {
        MemShelf::dead(alloc)
    } else {
        MemShelf::new(alloc)
    }
}

// Shelves of which the first may be dead.
fn shelves(alloc: Global, first_dead: bool) -> Result<Vec<MemShelf>, Fail>
    ensures count { IfOk result (λ v. length v.items ≡ 16) }
    ensures idle { IfOk result (λ v. All (λ s. (⟦<MemShelf as Shelf>⟧.state s).writing ≡ false) v.items) }
{
    let mut shelves = Vec::new(alloc);
    let mut dead = first_dead;
    for _ in 0..SHELVES {
        shelves.push(shelf(alloc, dead))?;
        dead = false;
    }
    Ok(shelves)
}

const ADTS: [&str; 5] = ["-i", "in.flv", "-f", "adts", "out.aac"];

// What a run came to.
#[derive(Drop)]
struct Ran {
    status: Status,
    tags: u64,
    upto: u64,
    report: Vec<u8>,
    /// The first file of each output, where it made one.
    files: Vec<Vec<u8>>,
}

fn copied(alloc: Global, bytes: &[u8]) -> Result<Vec<u8>, Fail> {
    let mut copy = Vec::new(alloc);
    copy.extend_from_slice(bytes)?;
    Ok(copy)
}

// Runs the words on this text, which is read in pieces of at most so many bytes, and on these shelves.
fn run_over(
    alloc: Global,
    words: &[&str],
    text: &[u8],
    most: u32,
    shelves: Vec<MemShelf>,
) -> Result<Ran, Fail>
    requires some { 0 < most }
    requires sixteen { length shelves.items ≡ 16 }
    requires idle { All (λ s. (⟦<MemShelf as Shelf>⟧.state s).writing ≡ false) shelves.items }
{
    let files = vec![in alloc; (String::from_str(alloc, "in.flv")?, copied(alloc, text)?)]?;
    let mut inputs = MemInputs::new(files, Vec::new(alloc), most);
    let mut out = MemSink::new(Vec::new(alloc));
    let words = strings(alloc, words)?;
    let outcome = run_direct(alloc, &words, &mut inputs, shelves, &mut out);
    let mut files = Vec::new(alloc);
    for end in outcome.ends.as_slice() {
        if end.shelf.take_count() > 0 {
            files.push(copied(alloc, end.shelf.take_bytes(0))?)?;
        }
    }
    Ok(Ran {
        status: outcome.status,
        tags: outcome.tags,
        upto: outcome.upto,
        report: copied(alloc, out.bytes())?,
        files,
    })
}

// The same on shelves that don't fail.
fn run_on(alloc: Global, words: &[&str], text: &[u8], most: u32) -> Result<Ran, Fail>
    requires { 0 < most }
{
    run_over(alloc, words, text, most, shelves(alloc, false)?)
}

const REPORT: &str = "\
tags 2 packets 1
discards script=0 unsupported=0 nostream=0 corrupt=0 command=0 seqend=0 repeat=0
slave 0 closed written=1 refused=0 flushed=0 keywait=0 lost=0 after=0 nomem=0 sessions=1 bytes=8
status 0 done
";

#[test]
fn one_packet(rt: HostRuntime) -> Result<(), Fail> {
    for most in [1, 2, 13, 65536] {
        let ran = run_on(rt.alloc(), &ADTS, &TEXT, most)?;
        assert_eq!(&rt; ran.status, Status::Done);
        assert_eq!(&rt; ran.report.as_slice(), REPORT.as_bytes());
        assert_eq!(&rt;
            ran.files.first().map(|file| file.as_slice()),
            Some(FRAME.as_slice())
        );
    }
    Ok(())
}

// The first bytes of the text, as many as there are to each.
#[test]
fn prefixes(rt: HostRuntime) -> Result<(), Fail> {
    for count in 0..=TEXT.len() {
        let ran = run_on(rt.alloc(), &ADTS, &TEXT[..count], 65536)?;
        let wanted = match count {
            0..=8 => Status::InputRefused(Refusal::NotFlv),
            9..=27 => Status::InputRefused(Refusal::NoStreams),
            28 | 32 | 46 | 50 => Status::Done,
            _ => Status::InputEnded(Ending::Cut),
        };
        assert_eq!(&rt; ran.status, wanted);
        let size = match count {
            0..=27 => None,
            28..=45 => Some(0),
            _ => Some(8),
        };
        assert_eq!(&rt; ran.files.first().map(|file| file.len()), size);
    }
    Ok(())
}

// Three outputs of one text: the FLV file is the text itself.
#[test]
fn three_outputs(rt: HostRuntime) -> Result<(), Fail> {
    let words = [
        "-i",
        "in.flv",
        "-f",
        "tee",
        "[f=flv]o.flv|[f=mpegts]o.ts|[f=adts]o.aac",
    ];
    for most in [1, 65536] {
        let ran = run_on(rt.alloc(), &words, &SAMPLE, most)?;
        assert_eq!(&rt; ran.status, Status::Done);
        assert_eq!(&rt; ran.tags, 8);
        assert_eq!(&rt; ran.upto, 4);
        match ran.files.as_slice() {
            [flv, ts, aac] => {
                assert_eq!(&rt; flv.as_slice(), SAMPLE.as_slice());
                assert_eq!(&rt; ts.len(), 1128);
                assert_eq!(&rt; aac.as_slice(), TWICE.as_slice());
            }
            _ => assert!(&rt; false),
        }
    }
    let ran = run_on(rt.alloc(), &ADTS, &CHANGED, 65536)?;
    assert_eq!(&rt; ran.status, Status::Done);
    assert_eq!(&rt;
        ran.files.first().map(|file| file.as_slice()),
        Some(OTHER.as_slice())
    );
    Ok(())
}

#[test]
fn refusals(rt: HostRuntime) -> Result<(), Fail> {
    let alloc = rt.alloc();
    let ran = run_on(alloc, &ADTS, &NO_AUDIO, 65536)?;
    assert_eq!(&rt; ran.status, Status::InputRefused(Refusal::NoneSelected(0)));
    assert_eq!(&rt; ran.files.len(), 0);
    let ran = run_on(alloc, &ADTS, &[0x47, 0x40, 0x00], 65536)?;
    assert_eq!(&rt; ran.status, Status::InputRefused(Refusal::NotFlv));
    assert_eq!(&rt; ran.files.len(), 0);
    let ran = run_on(alloc, &ADTS, &[0x46, 0x4C, 0x56, 1, 4, 0, 0, 0, 8], 65536)?;
    assert_eq!(&rt; ran.status, Status::InputRefused(Refusal::BadOffset));
    let ran = run_on(alloc, &[], &TEXT, 65536)?;
    assert_eq!(&rt;
        ran.report.as_slice(),
        b"status 1 words fault=3 word=0\n".as_slice()
    );
    Ok(())
}

// As many bytes are taken as may be.
#[test]
fn limits(rt: HostRuntime) -> Result<(), Fail> {
    let cases = [
        ("40", Status::InputEnded(Ending::Limit), 1, Some(0)),
        ("20", Status::InputRefused(Refusal::NoStreams), 0, None),
        ("50", Status::InputEnded(Ending::Limit), 2, Some(8)),
        ("51", Status::Done, 2, Some(8)),
    ];
    for (most, status, tags, size) in cases {
        let words = [
            "-i",
            "in.flv",
            "-max_input_bytes",
            most,
            "-f",
            "adts",
            "out.aac",
        ];
        let ran = run_on(rt.alloc(), &words, &TEXT, 65536)?;
        assert_eq!(&rt; ran.status, status);
        assert_eq!(&rt; ran.tags, tags);
        assert_eq!(&rt; ran.files.first().map(|file| file.len()), size);
    }
    Ok(())
}

// An output that fails ends the run, or only itself.
#[test]
fn a_dead_output(rt: HostRuntime) -> Result<(), Fail> {
    let alloc = rt.alloc();
    let words = ["-i", "in.flv", "-f", "tee", "[f=flv]x.flv|[f=adts]y.aac"];
    let ran = run_over(alloc, &words, &SAMPLE, 65536, shelves(alloc, true)?)?;
    assert_eq!(&rt; ran.status, Status::SlaveFailed(0));
    assert_eq!(&rt; ran.upto, 1);
    let words = [
        "-i",
        "in.flv",
        "-f",
        "tee",
        "[f=flv:onfail=ignore]x.flv|[f=adts]y.aac",
    ];
    let ran = run_over(alloc, &words, &SAMPLE, 65536, shelves(alloc, true)?)?;
    assert_eq!(&rt; ran.status, Status::Done);
    assert_eq!(&rt; ran.upto, 4);
    assert_eq!(&rt;
        ran.files.first().map(|file| file.as_slice()),
        Some(TWICE.as_slice())
    );
    Ok(())
}

// One tag more.
fn push_tag(text: &mut Vec<u8>, kind: u8, stamp: i32, body: &[u8]) -> Result<(), Fail>
    requires kind { kind < 32 }
    requires size { length body.now < 100 }
{
    text.extend_from_slice(&tag_head(kind, body.len() as u32, stamp))?;
    text.extend_from_slice(body)?;
    text.extend_from_slice(&(body.len() as u32 + 11).to_be_bytes())?;
    Ok(())
}

// A text of video alone: of each picture how much later than the one of 0 it is decoded, how much later it is shown, in ms, and
// whether decoding can begin there.
fn video_text(alloc: Global, pictures: &[(i32, u8, bool)]) -> Result<Vec<u8>, Fail> {
    let mut text = copied(alloc, &SAMPLE[..13])?;
    push_tag(&mut text, 9, 0, &SAMPLE[60..82])?;
    for (stamp, later, key) in pictures {
        let (first, unit) = if *key { (0x17, 0x65) } else { (0x27, 0x41) };
        let body = [first, 1, 0, 0, *later, 0, 0, 0, 2, unit, 0x88];
        push_tag(&mut text, 9, *stamp, &body)?;
    }
    Ok(text)
}

// A text of audio alone with a packet at each of these times.
fn audio_text(alloc: Global, stamps: &[i32]) -> Result<Vec<u8>, Fail> {
    let mut text = copied(alloc, &TEXT[..32])?;
    for stamp in stamps {
        push_tag(&mut text, 8, *stamp, &[0xAF, 1, 0x21])?;
    }
    Ok(text)
}

// The files of the only output of this text: their names, each behind a space, and the bytes of the last one.
fn files_of(alloc: Global, slave: &str, text: &[u8]) -> Result<(Vec<u8>, Vec<u8>), Fail> {
    let files = vec![in alloc; (String::from_str(alloc, "in.flv")?, copied(alloc, text)?)]?;
    let mut inputs = MemInputs::new(files, Vec::new(alloc), 65536);
    let mut out = MemSink::new(Vec::new(alloc));
    let words = strings(alloc, &["-i", "in.flv", "-f", "tee", slave])?;
    let shelves = shelves(alloc, false)?;
    let outcome = run_direct(alloc, &words, &mut inputs, shelves, &mut out);
    let mut names = Vec::new(alloc);
    let mut last = Vec::new(alloc);
    if let Some(end) = outcome.ends.as_slice().first() {
        for at in 0..end.shelf.take_count() {
            names.push(b' ')?;
            names.extend_from_slice(end.shelf.take_name(at).as_bytes())?;
            last = copied(alloc, end.shelf.take_bytes(at))?;
        }
    }
    Ok((names, last))
}

// A picture a second from 0 to 8 s, with key pictures at 0, 5, 6 and 7 s.
const SECONDS: [(i32, u8, bool); 9] = [
    (0, 0, true),
    (1000, 0, false),
    (2000, 0, false),
    (3000, 0, false),
    (4000, 0, false),
    (5000, 0, true),
    (6000, 0, true),
    (7000, 0, true),
    (8000, 0, false),
];

const PLAYLIST: &str = "\
#EXTM3U
#EXT-X-VERSION:3
#EXT-X-MEDIA-SEQUENCE:0
#EXT-X-TARGETDURATION:5
#EXTINF:5.000000,
s000.ts
#EXTINF:1.000000,
s001.ts
#EXTINF:1.000000,
s002.ts
#EXTINF:1.000000,
s003.ts
#EXT-X-ENDLIST
";

const TIMES: &str = "\
s000.ts,0.000000,5.000000
s001.ts,5.000000,6.000000
s002.ts,6.000000,7.000000
s003.ts,7.000000,8.000000
";

// Lists of segments of two seconds.
#[test]
fn lists_of_segments(rt: HostRuntime) -> Result<(), Fail> {
    let cases = [
        (
            "[f=segment:segment_time=2:segment_list=l.csv]s%03d.ts",
            " s000.ts s001.ts s002.ts s003.ts l.csv",
            TIMES,
        ),
        (
            "[f=segment:segment_time=2:segment_list=l.m3u8]s%03d.ts",
            " s000.ts s001.ts s002.ts s003.ts l.m3u8",
            PLAYLIST,
        ),
        (
            "[f=segment:segment_time=2:segment_list=l.csv:segment_list_type=flat]s%03d.ts",
            " s000.ts s001.ts s002.ts s003.ts l.csv",
            "s000.ts\ns001.ts\ns002.ts\ns003.ts\n",
        ),
        (
            "[f=segment:segment_time=2:break_non_keyframes=1:segment_list=l]%d",
            " 0 1 2 3 4 l",
            "0\n1\n2\n3\n4\n",
        ),
        (
            "[f=segment:segment_time=6:segment_list=l.csv]a,%d\"",
            " a,0\" a,1\" l.csv",
            "\"a,0\"\"\",0.000000,6.000000\n\"a,1\"\"\",6.000000,8.000000\n",
        ),
        (
            "[f=segment:segment_time=6:segment_start_number=4294967295:segment_list=l]%d",
            " 4294967295 4294967296 l",
            "4294967295\n4294967296\n",
        ),
    ];
    let text = video_text(rt.alloc(), &SECONDS)?;
    for (slave, names, list) in cases {
        let (made, last) = files_of(rt.alloc(), slave, &text)?;
        assert_eq!(&rt; made.as_slice(), names.as_bytes());
        assert_eq!(&rt; last.as_slice(), list.as_bytes());
    }
    Ok(())
}

// No packets at all; pictures that are shown in another order than that of decoding; audio alone.
#[test]
fn segments_of_other_inputs(rt: HostRuntime) -> Result<(), Fail> {
    let alloc = rt.alloc();
    let slave = "[f=segment:segment_list=l.csv]%d";
    let (names, list) = files_of(alloc, slave, &video_text(alloc, &[])?)?;
    assert_eq!(&rt; names.as_slice(), b" 0 l.csv".as_slice());
    assert_eq!(&rt; list.as_slice(), b"0,0.000000,0.000000\n".as_slice());
    let shown = [
        (0, 80, true),
        (40, 0, false),
        (2000, 0, true),
        (2080, 0, true),
    ];
    let (names, list) = files_of(alloc, slave, &video_text(alloc, &shown)?)?;
    assert_eq!(&rt; names.as_slice(), b" 0 1 l.csv".as_slice());
    assert_eq!(&rt;
        list.as_slice(),
        b"0,0.000000,2.000000\n1,2.000000,2.000000\n".as_slice()
    );
    let audio = audio_text(alloc, &[0, 1999, 2000, 5000])?;
    let slave = "[f=segment:segment_format=adts:segment_list=l.csv]%d";
    let (names, list) = files_of(alloc, slave, &audio)?;
    assert_eq!(&rt; names.as_slice(), b" 0 1 2 l.csv".as_slice());
    assert_eq!(&rt;
        list.as_slice(),
        b"0,0.000000,2.000000\n1,2.000000,5.000000\n2,5.000000,5.000000\n".as_slice()
    );
    Ok(())
}

// Segments whose times begin at 0 are alike where their packets are.
#[test]
fn times_that_begin_again(rt: HostRuntime) -> Result<(), Fail> {
    let alloc = rt.alloc();
    let text = video_text(alloc, &[(0, 0, true), (2000, 0, true)])?;
    let first = video_text(alloc, &[(0, 0, true)])?;
    let slave = "[f=segment:segment_format=flv:reset_timestamps=1]%d";
    let (names, again) = files_of(alloc, slave, &text)?;
    assert_eq!(&rt; names.as_slice(), b" 0 1".as_slice());
    let (_, alone) = files_of(alloc, slave, &first)?;
    assert_eq!(&rt; again.as_slice(), alone.as_slice());
    let (_, late) = files_of(alloc, "[f=segment:segment_format=flv]%d", &text)?;
    assert!(&rt; late.as_slice() != alone.as_slice());
    Ok(())
}

// Segments are an output by themselves too, and a list may not have the name of another output.
#[test]
fn words_of_segments(rt: HostRuntime) -> Result<(), Fail> {
    let words = ["-i", "in.flv", "-f", "segment", "s%d.ts"];
    let ran = run_on(rt.alloc(), &words, &SAMPLE, 65536)?;
    assert_eq!(&rt; ran.status, Status::Done);
    assert_eq!(&rt; ran.files.first().map(|file| file.len()), Some(1128));
    let same = "[f=segment:segment_list=a]s%d.ts|[f=flv]a";
    let words = ["-i", "in.flv", "-f", "tee", same];
    let ran = run_on(rt.alloc(), &words, &SAMPLE, 65536)?;
    assert_eq!(&rt;
        ran.report.as_slice(),
        b"status 1 words fault=11 word=4\n".as_slice()
    );
    Ok(())
}
