// The head of a file.
ghost use Rattle.flv_tags.specs.Head.{IsHeadStep};

use crate::front::number3;

/// What the head of a file says.
#[derive(Clone, Copy)]
pub enum HeadStep {
    NeedMore,
    NotFlv,
    BadOffset,
    /// The first size field is so many bytes from the beginning.
    Past(usize),
}

/// Reads the head of a file.
pub fn read_head(text: &[u8], ended: bool) -> HeadStep
    ensures { IsHeadStep result text.now ended }
{
    if text.len() < 9 {
        return if ended {
            HeadStep::NotFlv
        } else {
            HeadStep::NeedMore
        };
    }
    if text[..4] != [70, 76, 86, 1] {
        return HeadStep::NotFlv;
    }
    let offset = u32::from(text[5]) * 16777216 + number3(&text[6..]);
    if offset < 9 {
        return HeadStep::BadOffset;
    }
    HeadStep::Past(offset as usize)
}
