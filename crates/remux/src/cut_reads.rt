// Worked examples over memory: the cells of an MPEG-TS file, whole and where a read fails.
use super::worked::{
    Ran, file, input, is_nothing, run_on, run_with, sample_text, shelf_of, short_text,
};
use crate::status::{Ending, Refusal, Status};
use rmx_edge::{MemShelf, MemSink};
use std::alloc::Global;
use std::test::Fail;

// The table of programs, and the map of the program, which has a video and an audio stream.
const PROGRAMS: [u8; 21] = [
    0x47, 0x40, 0x00, 0x10, 0x00, 0x00, 0xB0, 0x0D, 0x00, 0x01, 0xC1, 0x00, 0x00, 0x00, 0x01, 0xF0,
    0x00, 0x2A, 0xB1, 0x04, 0xB2,
];

const PROGRAM_MAP: [u8; 31] = [
    0x47, 0x50, 0x00, 0x10, 0x00, 0x02, 0xB0, 0x17, 0x00, 0x01, 0xC1, 0x00, 0x00, 0xE1, 0x00, 0xF0,
    0x00, 0x1B, 0xE1, 0x00, 0xF0, 0x00, 0x0F, 0xE1, 0x01, 0xF0, 0x00, 0x2F, 0x44, 0xB9, 0x9B,
];

// The key picture at 0 ms: what its cell begins with, and its packet.
const KEY_FRONT: [u8; 12] = [
    0x47, 0x41, 0x00, 0x30, 0x8F, 0x50, 0x00, 0x00, 0x7B, 0x0C, 0x7E, 0x00,
];

const KEY_END: [u8; 40] = [
    0x00, 0x00, 0x01, 0xE0, 0x00, 0x00, 0x80, 0x80, 0x05, 0x21, 0x00, 0x07, 0xD8, 0x61, 0x00, 0x00,
    0x00, 0x01, 0x09, 0xF0, 0x00, 0x00, 0x00, 0x01, 0x67, 0x42, 0x00, 0x1E, 0x00, 0x00, 0x00, 0x01,
    0x68, 0xCE, 0x00, 0x00, 0x00, 0x01, 0x65, 0x88,
];

// The frames of sound at 0 ms and 23 ms.
const SOUND_END: [u8; 22] = [
    0x00, 0x00, 0x01, 0xC0, 0x00, 0x10, 0x80, 0x80, 0x05, 0x21, 0x00, 0x07, 0xD8, 0x61, 0xFF, 0xF1,
    0x50, 0x80, 0x01, 0x1F, 0xFC, 0x21,
];

const NEXT_SOUND_END: [u8; 22] = [
    0x00, 0x00, 0x01, 0xC0, 0x00, 0x10, 0x80, 0x80, 0x05, 0x21, 0x00, 0x07, 0xE8, 0x8D, 0xFF, 0xF1,
    0x50, 0x80, 0x01, 0x1F, 0xFC, 0x21,
];

// The picture at 40 ms, which is shown at 80 ms.
const LATE_FRONT: [u8; 12] = [
    0x47, 0x41, 0x00, 0x31, 0x98, 0x10, 0x00, 0x00, 0x82, 0x14, 0x7E, 0x00,
];

const LATE_END: [u8; 31] = [
    0x00, 0x00, 0x01, 0xE0, 0x00, 0x00, 0x80, 0xC0, 0x0A, 0x31, 0x00, 0x09, 0x10, 0xA1, 0x11, 0x00,
    0x07, 0xF4, 0x81, 0x00, 0x00, 0x00, 0x01, 0x09, 0xF0, 0x00, 0x00, 0x00, 0x01, 0x41, 0x9A,
];

// A cell that begins and ends so, filled up between.
fn add_cell(cells: &mut Vec<u8>, front: &[u8], end: &[u8]) -> Result<(), Fail> {
    cells.extend_from_slice(front)?;
    for _stuffing in front.len().saturating_add(end.len())..188 {
        cells.push(0xFF)?;
    }
    cells.extend_from_slice(end)?;
    Ok(())
}

// The first so many of the six cells of the sample.
fn sample_cells(alloc: Global, count: usize) -> Result<Vec<u8>, Fail> {
    let all: [(&[u8], &[u8]); 6] = [
        (&PROGRAMS, &[]),
        (&PROGRAM_MAP, &[]),
        (&KEY_FRONT, &KEY_END),
        (&[0x47, 0x41, 0x01, 0x30, 0xA1, 0x00], &SOUND_END),
        (&[0x47, 0x41, 0x01, 0x31, 0xA1, 0x00], &NEXT_SOUND_END),
        (&LATE_FRONT, &LATE_END),
    ];
    let mut cells = Vec::new(alloc);
    for (front, end) in all.get(..count).ok_or("too many")? {
        add_cell(&mut cells, front, end)?;
    }
    Ok(cells)
}

const MPEGTS: [&str; 5] = ["-i", "in.flv", "-f", "mpegts", "o.ts"];

// How many cells are written of the sample where a read failed when so many bytes had come, if a file is made.
fn cells_after(count: u64) -> Option<usize> {
    match count {
        0..=100 => None,
        101..=126 => Some(2),
        127..=144 => Some(3),
        145..=162 => Some(4),
        163..=188 => Some(5),
        _ => Some(6),
    }
}

// Whether the file of a run has so many of the sample's cells, or the run made none.
fn has_cells(alloc: Global, ran: &Ran, count: Option<usize>) -> Result<bool, Fail> {
    let Some(count) = count else {
        return Ok(is_nothing(ran));
    };
    let cells = sample_cells(alloc, count)?;
    Ok(file(shelf_of(ran, 0)?, 0) == Some(("o.ts", cells.as_slice(), true)))
}

#[test]
fn all_cells(rt: HostRuntime) -> Result<(), Fail> {
    let alloc = rt.alloc();
    let ran = run_on(alloc, &MPEGTS, &sample_text(alloc)?)?;
    assert_eq!(rt; ran.outcome.status, Status::Done);
    assert!(rt; has_cells(alloc, &ran, Some(6))?);
    Ok(())
}

// The run of a text that comes by single bytes, where this call of the input fails: 0 is its opening.
fn failing_at(alloc: Global, text: &[u8], call: u64) -> Result<Ran, Fail> {
    let inputs = input(alloc, text, vec![in alloc; call]?, 1)?;
    let out = MemSink::new(Vec::new(alloc));
    run_with(alloc, &MPEGTS, inputs, MemShelf::new(alloc), out)
}

// The sample by single bytes, with each read failing in turn.
#[test]
fn failing_reads(rt: HostRuntime) -> Result<(), Fail> {
    let alloc = rt.alloc();
    let text = sample_text(alloc)?;
    for count in 0..214u64 {
        let ran = failing_at(alloc, &text, 1 + count)?;
        assert_eq!(rt; ran.outcome.status, Status::InputFault, "{count}");
        assert!(rt; ran.report.ends_with(b"status 2 input fault\n"), "{count}");
        assert!(rt; has_cells(alloc, &ran, cells_after(count))?, "{count}");
    }
    Ok(())
}

// As many bytes are taken as may be, and no more.
#[test]
fn no_more_is_taken(rt: HostRuntime) -> Result<(), Fail> {
    let alloc = rt.alloc();
    let text = short_text(alloc)?;
    let limit = Status::InputEnded(Ending::Limit);
    let cases = [
        ("9", Status::InputRefused(Refusal::NoStreams), 41),
        ("20", Status::InputRefused(Refusal::NoStreams), 30),
        ("40", limit, 10),
        ("49", limit, 1),
        ("50", limit, 0),
        ("51", Status::Done, 0),
    ];
    for (most, status, left) in cases {
        let words = [
            "-i",
            "in.flv",
            "-max_input_bytes",
            most,
            "-f",
            "adts",
            "out.aac",
        ];
        let ran = run_on(alloc, &words, &text)?;
        assert_eq!(rt; ran.outcome.status, status, "{most}");
        assert_eq!(rt; ran.left, left, "{most}");
    }
    Ok(())
}
