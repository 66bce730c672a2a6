// Texts of the FLV rules, cut into pieces in several ways.
ghost use Rattle.std.specs.Prelude.{◌<◌};

use crate::{TagFault, TagReader, TagStep, file_head, tag_head};
use rmx_media::NoMemory;
use std::alloc::Global;
use std::test::Fail;

// Two audio tags: a configuration, and a frame.
const TWO: [u8; 50] = [
    0x46, 0x4c, 0x56, 1, 4, 0, 0, 0, 9, 0, 0, 0, 0, 8, 0, 0, 4, 0, 0, 0, 0, 0, 0, 0, 0xaf, 0, 0x12,
    0x10, 0, 0, 0, 0x0f, 8, 0, 0, 3, 0, 0, 0, 0, 0, 0, 0, 0xaf, 1, 0x21, 0, 0, 0, 0x0e,
];

// How many tags a text has, and the fault that ends them.
fn ends(alloc: Global, text: &[u8], size: usize) -> Result<(u64, Option<TagFault>), NoMemory>
    requires { 0 < size }
{
    let mut reader = TagReader::new(alloc);
    for piece in text.chunks(size) {
        reader.feed(piece)?;
    }
    reader.finish();
    for count in 0..100u64 {
        match reader.next() {
            Ok(TagStep::Tag(_)) => {}
            Ok(_) => return Ok((count, None)),
            Err(fault) => return Ok((count, Some(fault))),
        }
    }
    Ok((100, None))
}

#[test]
fn texts_end(rt: HostRuntime) -> Result<(), Fail> {
    let alloc = rt.alloc();
    for size in [1usize, 7, 64] {
        assert_eq!(rt; ends(alloc, &TWO, size)?, (2, None));
        assert_eq!(rt; ends(alloc, &TWO[..32], size)?, (1, None));
        assert_eq!(rt; ends(alloc, &TWO[..46], size)?, (2, None));
        assert_eq!(rt; ends(alloc, &TWO[..44], size)?, (1, Some(TagFault::CutTag)));
        assert_eq!(rt; ends(alloc, &TWO[..9], size)?, (0, None));
        assert_eq!(rt; ends(alloc, &TWO[..8], size)?, (0, Some(TagFault::NotFlv)));
        assert_eq!(rt;
            ends(alloc, &[0x47, 0x40, 0], size)?,
            (0, Some(TagFault::NotFlv))
        );
        assert_eq!(rt;
            ends(alloc, &[0x46, 0x4c, 0x56, 1, 4, 0, 0, 0, 8], size)?,
            (0, Some(TagFault::BadOffset))
        );
        assert_eq!(rt;
            ends(alloc, &[0x46, 0x4c, 0x56, 1, 4, 0, 0, 0, 11, 0], size)?,
            (0, Some(TagFault::CutTag))
        );
    }
    Ok(())
}

#[test]
fn tags_have_their_parts(rt: HostRuntime) -> Result<(), Fail> {
    let mut reader = TagReader::new(rt.alloc());
    reader.feed(&file_head(4))?;
    reader.feed(&tag_head(8, 2, -2))?;
    assert!(rt; matches!(&reader.next()?, TagStep::NeedMore));
    reader.feed(&[0xaf, 1, 0])?;
    match reader.next()? {
        TagStep::Tag(tag) => {
            assert_eq!(rt; tag.kind, 8);
            assert_eq!(rt; tag.stamp, -2);
            assert_eq!(rt; tag.body.as_slice(), [0xaf, 1].as_slice());
        }
        _ => assert!(rt; false),
    }
    Ok(())
}

#[test]
fn faults_are_named(rt: HostRuntime) -> Result<(), Fail> {
    let text = format!(in rt.alloc();
        "{} {} {} {}",
        TagFault::NotFlv,
        TagFault::BadOffset,
        TagFault::CutTag,
        TagFault::NoMemory
    )?;
    assert_eq!(rt; text.as_str(), "NotFlv BadOffset CutTag NoMemory");
    Ok(())
}
