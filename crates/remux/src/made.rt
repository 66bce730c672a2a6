// The text that a run makes for itself.
ghost use Rattle.std.specs.Prelude.{◌<◌};

use super::worked::{
    AUDIO, Ran, SEQUENCE_END, SETS, SOUND, Tag, VIDEO, add_tag, file, input, run_with, shelf_of,
    text_of,
};
use crate::status::Status;
use rmx_edge::{MemShelf, MemSink};
use std::alloc::Global;
use std::test::Fail;

// The text of so many pictures, by their times: behind each picture stands the sound that begins while it is shown.
fn wanted(alloc: Global, count: u32) -> Result<Vec<u8>, Fail> {
    let heads: [Tag; 2] = [(VIDEO, 0, &SETS), (AUDIO, 0, &SOUND)];
    let mut text = text_of(alloc, 5, &heads)?;
    for number in 0..count.min(3000) {
        let time = 40 * number;
        let key = number % 25 == 0;
        let size = 2 + 37 * number % 900;
        let [a, b, c, d] = size.to_be_bytes();
        let (front, first) = if key { (0x17, 0x65) } else { (0x27, 0x41) };
        let byte = u8::try_from(128 + number % 100)?;
        let mut body = Vec::from_slice(alloc, &[front, 1, 0, 0, 0, a, b, c, d, first])?;
        for _ in 1..size {
            body.push(byte)?;
        }
        add_tag(&mut text, (VIDEO, time, &body))?;
        for packet in 0..2 * number + 2 {
            let at = 23 * packet;
            if time <= at && at < time + 40 {
                let mut body = Vec::from_slice(alloc, &[0xAF, 1])?;
                for _ in 0..1 + packet % 300 {
                    body.push(0x21)?;
                }
                add_tag(&mut text, (AUDIO, at, &body))?;
            }
        }
    }
    Ok(text)
}

// What the words of so many pictures come to. Whoever opened an input would be refused.
fn run_made(alloc: Global, count: u32) -> Result<Ran, Fail> {
    let count = format!(in alloc; "{count}")?;
    let inputs = input(alloc, &[], vec![in alloc; 0]?, 1)?;
    let out = MemSink::new(Vec::new(alloc));
    run_with(
        alloc,
        &["generate", count.as_str()],
        inputs,
        MemShelf::new(alloc),
        out,
    )
}

// Whether a shelf has just so many segments, each under its name and closed.
fn has_segments(alloc: Global, shelf: &MemShelf, count: usize) -> Result<bool, Fail> {
    for at in 0..count {
        let name = format!(in alloc; "g{at}.ts")?;
        let made = file(shelf, at).map(|made| (made.0, made.2));
        if made != Some((name.as_str(), true)) {
            return Ok(false);
        }
    }
    Ok(shelf.take_count() == count)
}

// The tags, the packets, and the segments. A file of FLV is the text and the end of its sequence.
#[test]
fn runs(rt: HostRuntime) -> Result<(), Fail> {
    let alloc = rt.alloc();
    for (count, tags, upto, segments) in [(1, 5, 3, 1), (26, 74, 72, 1), (2000, 5481, 5479, 40)] {
        let ran = run_made(alloc, count)?;
        assert_eq!(rt; ran.outcome.status, Status::Done);
        assert_eq!(rt; (ran.outcome.tags, ran.outcome.upto), (tags, upto));
        let mut text = wanted(alloc, count)?;
        add_tag(&mut text, (VIDEO, 40 * (count - 1), &SEQUENCE_END))?;
        let whole = Some(("g.flv", text.as_slice(), true));
        assert_eq!(rt; file(shelf_of(&ran, 0)?, 0), whole, "{count}");
        assert!(rt;
            has_segments(alloc, shelf_of(&ran, 2)?, segments)?,
            "{count}"
        );
    }
    Ok(())
}

const REPORT_OF_ONE: &str = "\
tags 5 packets 3
discards script=0 unsupported=0 nostream=0 corrupt=0 command=0 seqend=0 repeat=0
slave 0 closed written=3 refused=0 flushed=0 keywait=0 lost=0 after=0 nomem=0 sessions=1 bytes=152
slave 1 closed written=3 refused=0 flushed=0 keywait=0 lost=0 after=0 nomem=0 sessions=1 bytes=940
slave 2 closed written=3 refused=0 flushed=0 keywait=0 lost=0 after=0 nomem=0 sessions=1 bytes=940
status 0 done
";

// The report of one picture, a line of that of 26, and that 2000 have the same report each time.
#[test]
fn reports(rt: HostRuntime) -> Result<(), Fail> {
    let alloc = rt.alloc();
    let ran = run_made(alloc, 1)?;
    assert_eq!(rt; ran.report.as_slice(), REPORT_OF_ONE.as_bytes());
    let ran = run_made(alloc, 26)?;
    let report = str::from_utf8(&ran.report).unwrap_or("");
    assert!(rt; report.contains("slave 0 closed written=72 "), "{report}");
    assert!(rt; report.contains(" sessions=1 bytes=13753\n"), "{report}");
    let ran = run_made(alloc, 2000)?;
    let again = run_made(alloc, 2000)?;
    assert!(rt; ran.report.ends_with(b"\nstatus 0 done\n"));
    assert_eq!(rt; ran.report, again.report);
    Ok(())
}
