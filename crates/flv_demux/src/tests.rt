// One text, and the texts of the faults.
use crate::{DemuxFault, DemuxStep, Demuxer};
use flv_tags::TagFault;
use std::test::Fail;

// An audio configuration and a frame.
const AUDIO: [u8; 50] = [
    0x46, 0x4c, 0x56, 1, 4, 0, 0, 0, 9, 0, 0, 0, 0, 8, 0, 0, 4, 0, 0, 0, 0, 0, 0, 0, 0xaf, 0, 0x12,
    0x10, 0, 0, 0, 0x0f, 8, 0, 0, 3, 0, 0, 0, 0, 0, 0, 0, 0xaf, 1, 0x21, 0, 0, 0, 0x0e,
];

#[test]
fn a_text_gives_its_packet(rt: HostRuntime) -> Result<(), Fail> {
    let mut demuxer = Demuxer::new(rt.alloc())?;
    demuxer.feed(&AUDIO)?;
    assert!(rt; matches!(&demuxer.next_packet()?, DemuxStep::NeedMore));
    assert!(rt; demuxer.streams().is_none());
    demuxer.finish();
    assert!(rt; matches!(&demuxer.next_packet()?, DemuxStep::Packet(p) if p.payload.len() == 1));
    assert!(rt; matches!(demuxer.streams(), Some([_])));
    assert!(rt; demuxer.script().is_none());
    assert_eq!(rt; demuxer.tags(), 2);
    assert_eq!(rt; demuxer.discards().config_repeat, 0);
    assert!(rt; matches!(&demuxer.next_packet()?, DemuxStep::End));
    Ok(())
}

#[test]
fn faults_are_named(rt: HostRuntime) -> Result<(), Fail> {
    let text = format!(in rt.alloc();
        "{} {} {}",
        DemuxFault::Tag(TagFault::CutTag),
        DemuxFault::NoStreams,
        DemuxFault::NoMemory
    )?;
    assert_eq!(rt; text.as_str(), "CutTag NoStreams NoMemory");
    Ok(())
}
