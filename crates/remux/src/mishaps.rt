// Worked examples over memory: what the words come to where calls fail.
use super::told::tells;
use super::worked::{
    ADTS, FRAME21, Ran, SEQUENCE_END, TWO_FRAMES, VIDEO, add_tag, file, input, is_nothing, run_on,
    run_tee, run_with, sample_text, shelf_of, short_text,
};
use crate::SHELVES;
use crate::status::{Ending, Refusal, Status};
use fifo_core::EndState;
use rmx_edge::{FailAt, MemShelf, MemSink};
use slave::{FaultAt, FaultNote};
use std::alloc::Global;
use std::test::Fail;

// A hundred thousand packets of sound.
fn long_text(alloc: Global) -> Result<Vec<u8>, Fail> {
    let whole = short_text(alloc)?;
    let packet = whole.get(32..).ok_or("too short")?;
    let mut packets = Vec::new(alloc);
    for _ in 0..1000 {
        packets.extend_from_slice(packet)?;
    }
    let mut text = Vec::from_slice(alloc, whole.get(..32).ok_or("too short")?)?;
    for _ in 0..100 {
        text.extend_from_slice(&packets)?;
    }
    Ok(text)
}

// An output that is dead from the beginning stops the reading of a long text in its first pieces.
#[test]
fn a_stop_in_a_long_text(rt: HostRuntime) -> Result<(), Fail> {
    let alloc = rt.alloc();
    let text = long_text(alloc)?;
    let ran = run_tee(alloc, "[f=adts]o.aac", &text, MemShelf::dead(alloc))?;
    assert_eq!(rt; ran.outcome.status, Status::SlaveFailed(0));
    assert_eq!(rt; (ran.outcome.tags, ran.outcome.upto), (2, 1));
    assert!(rt; text.len() == 1_800_032 && ran.left > 1_730_032);
    Ok(())
}

// Two outputs of a text that comes by single bytes, where this call of the input fails: 0 is its opening.
fn failing_at(alloc: Global, text: &[u8], call: u64) -> Result<Ran, Fail> {
    let words = ["-i", "in.flv", "-f", "tee", "[f=flv]o.flv|[f=adts]o.aac"];
    let inputs = input(alloc, text, vec![in alloc; call]?, 1)?;
    let out = MemSink::new(Vec::new(alloc));
    run_with(alloc, &words, inputs, MemShelf::new(alloc), out)
}

// The FLV file of what stands before `end` in a text.
fn file_up_to(alloc: Global, text: &[u8], end: usize, stamp: u32) -> Result<Vec<u8>, Fail> {
    let mut bytes = Vec::from_slice(alloc, text.get(..end).ok_or("too short")?)?;
    add_tag(&mut bytes, (VIDEO, stamp, &SEQUENCE_END))?;
    Ok(bytes)
}

// A text of which `count` bytes came when a read failed: no shelf was touched before both configurations were there.
#[test]
fn failing_reads_before_outputs(rt: HostRuntime) -> Result<(), Fail> {
    let alloc = rt.alloc();
    let text = sample_text(alloc)?;
    for call in 0..102u64 {
        let ran = failing_at(alloc, &text, call)?;
        assert_eq!(rt; ran.outcome.status, Status::InputFault, "{call}");
        assert!(rt; ran.report.ends_with(b"status 2 input fault\n"), "{call}");
        assert!(rt; is_nothing(&ran), "{call}");
    }
    Ok(())
}

// Behind that the files hold the packets of the bytes that came.
#[test]
fn failing_reads(rt: HostRuntime) -> Result<(), Fail> {
    let alloc = rt.alloc();
    let text = sample_text(alloc)?;
    for count in 101..214u64 {
        let (end, stamp, frames): (usize, u32, usize) = match count {
            101..=126 => (105, 0, 0),
            127..=144 => (131, 0, 0),
            145..=162 => (149, 0, 8),
            163..=188 => (167, 0, 16),
            _ => (193, 40, 16),
        };
        let ran = failing_at(alloc, &text, 1 + count)?;
        assert_eq!(rt; ran.outcome.status, Status::InputFault, "{count}");
        let wanted = file_up_to(alloc, &text, end, stamp)?;
        let flv = Some(("o.flv", wanted.as_slice(), true));
        let is_flv = file(shelf_of(&ran, 0)?, 0) == flv;
        assert!(rt; is_flv && has_frames(&ran, frames)?, "{count}");
    }
    Ok(())
}

// Whether the second output is closed and holds so many bytes of the sample's sound.
fn has_frames(ran: &Ran, bytes: usize) -> Result<bool, Fail> {
    let frames = TWO_FRAMES.get(..bytes).ok_or("too long")?;
    Ok(file(shelf_of(ran, 1)?, 0) == Some(("o.aac", frames, true)))
}

#[test]
fn an_input_that_is_not_there(rt: HostRuntime) -> Result<(), Fail> {
    let alloc = rt.alloc();
    let text = sample_text(alloc)?;
    let ran = run_on(alloc, &["-i", "other.flv", "-f", "adts", "o.aac"], &text)?;
    assert_eq!(rt; ran.outcome.status, Status::InputFault);
    assert!(rt; is_nothing(&ran));
    Ok(())
}

// What the words come to on this text where this write of the report fails: the status, how many lines were written, and
// whether the output is whole.
fn failing_report(
    alloc: Global,
    words: &[&str],
    text: &[u8],
    call: u64,
) -> Result<(Status, usize, bool), Fail> {
    let inputs = input(alloc, text, Vec::new(alloc), 65536)?;
    let out = MemSink::new(vec![in alloc; call]?);
    let ran = run_with(alloc, words, inputs, MemShelf::new(alloc), out)?;
    let lines = ran.report.iter().filter(|byte| **byte == b'\n').count();
    let is_whole = match ran.outcome.ends.as_slice().first() {
        Some(end) => file(&end.shelf, 0) == Some(("out.aac", FRAME21.as_slice(), true)),
        None => false,
    };
    Ok((ran.outcome.status, lines, is_whole))
}

// A report that can't be written changes the status of a run that was done, and no other. The lines before were written.
#[test]
fn failing_reports(rt: HostRuntime) -> Result<(), Fail> {
    let alloc = rt.alloc();
    let text = short_text(alloc)?;
    let cut = text.get(..44).ok_or("too short")?;
    let words: [&[&str]; 2] = [&ADTS, &[]];
    let cut_off = Status::InputEnded(Ending::Cut);
    let not_flv = Status::InputRefused(Refusal::NotFlv);
    let fault = Status::Words(options::WordFault {
        kind: options::WordKind::NoInput,
        word: 0,
    });
    let cases: [(&[&str], &[u8], u64, (Status, usize, bool)); 8] = [
        (words[0], &text, 0, (Status::ReportFault, 0, true)),
        (words[0], &text, 1, (Status::ReportFault, 1, true)),
        (words[0], &text, 3, (Status::ReportFault, 3, true)),
        (words[0], &text, 4, (Status::Done, 4, true)),
        (words[0], cut, 0, (cut_off, 0, false)),
        (words[0], cut, 3, (cut_off, 3, false)),
        (words[0], &[], 0, (not_flv, 0, false)),
        (words[1], &text, 0, (fault, 0, false)),
    ];
    for (words, text, call, wanted) in cases {
        let came_to = failing_report(alloc, words, text, call)?;
        assert_eq!(rt; came_to, wanted, "{call}");
    }
    Ok(())
}

// The pieces of the FLV file of the sample, each of which is one write, behind the call that makes the file.
const PIECES: [usize; 23] = [
    13, 11, 21, 4, 16, 17, 4, 13, 2, 4, 16, 6, 4, 13, 1, 4, 13, 1, 4, 16, 6, 4, 20,
];

// Where a fault of this call lies, and how far a run comes that it ends.
fn place_of(call: u64) -> (FaultAt, u64) {
    match call {
        0..=10 => (FaultAt::Begin, 1),
        11..=22 => (FaultAt::Put((call - 11) / 3), (call - 11) / 3 + 1),
        _ => (FaultAt::End, 4),
    }
}

// How many bytes a file holds whose shelf fails at this call, which keeps one byte of its piece. The last call has no piece.
fn kept_at(call: u64) -> usize {
    let before = (call as usize).saturating_sub(1);
    let mut kept = usize::from(before < PIECES.len());
    for piece in PIECES.iter().take(before) {
        kept = kept.saturating_add(*piece);
    }
    kept
}

// These outputs of the sample, the first of whose shelves fails at this call.
fn failing_call(alloc: Global, outputs: &str, text: &[u8], call: u64) -> Result<Ran, Fail> {
    let fails = vec![in alloc; FailAt { call, keep: 1 }]?;
    run_tee(alloc, outputs, text, MemShelf::failing(alloc, fails))
}

fn came_to(ran: &Ran) -> (Status, u64) {
    (ran.outcome.status, ran.outcome.upto)
}

// Whether the first output failed at this call, and what its file holds.
fn is_failed(ran: &Ran, text: &[u8], call: u64) -> Result<bool, Fail> {
    let end = ran.outcome.ends.as_slice().first().ok_or("no output")?;
    let note = FaultNote {
        session: 0,
        at: place_of(call).0,
        before: 0,
        after: 1,
    };
    let bytes = text.get(..kept_at(call)).ok_or("too short")?;
    let wanted = if call == 0 {
        None
    } else {
        Some(("o.flv", bytes, false))
    };
    Ok(
        end.state == EndState::Failed
            && end.faults.as_slice() == [note].as_slice()
            && file(&end.shelf, 0) == wanted
            && end.shelf.take_count() == usize::from(call > 0),
    )
}

// A shelf that fails at one call: where the fault lies, how far the run came, and what the file holds.
#[test]
fn failing_calls(rt: HostRuntime) -> Result<(), Fail> {
    let alloc = rt.alloc();
    let text = sample_text(alloc)?;
    for call in 0..25u64 {
        let ran = failing_call(alloc, "[f=flv]o.flv", &text, call)?;
        let upto = place_of(call).1;
        assert_eq!(rt; came_to(&ran), (Status::SlaveFailed(0), upto), "{call}");
        assert!(rt; is_failed(&ran, &text, call)?, "{call}");
    }
    Ok(())
}

// Beside an output that doesn't abort, the others are whole.
#[test]
fn failing_calls_beside_another(rt: HostRuntime) -> Result<(), Fail> {
    let alloc = rt.alloc();
    let text = sample_text(alloc)?;
    let outputs = "[f=flv:onfail=ignore]o.flv|[f=adts]o.aac";
    for call in 0..25u64 {
        let ran = failing_call(alloc, outputs, &text, call)?;
        assert_eq!(rt; came_to(&ran), (Status::Done, 4), "{call}");
        assert!(rt;
            is_failed(&ran, &text, call)? && has_frames(&ran, 16)?,
            "{call}"
        );
    }
    Ok(())
}

const DEAD: &str = "\
Failed bytes=0
session 0 begun=false closed=false
fault session=0 Begin 0..1
AfterFailure(0) first=0 count=1
";

const EMPTY: &str = "\
Closed bytes=0
file y.aac closed=true bytes=0
session 0 begun=true closed=true
";

// An output that is dead from the beginning, beside one that isn't: what is told of both.
#[test]
fn a_dead_one(rt: HostRuntime) -> Result<(), Fail> {
    let alloc = rt.alloc();
    let text = sample_text(alloc)?;
    let ran = run_tee(
        alloc,
        "[f=flv]x.flv|[f=adts]y.aac",
        &text,
        MemShelf::dead(alloc),
    )?;
    let spare = ran.outcome.spare.as_slice().len();
    assert_eq!(rt; came_to(&ran), (Status::SlaveFailed(0), 1));
    assert_eq!(rt; (ran.outcome.tags, spare), (5, SHELVES - 2));
    assert!(rt; tells(alloc, &ran, 0, DEAD)? && tells(alloc, &ran, 1, EMPTY)?);
    Ok(())
}
