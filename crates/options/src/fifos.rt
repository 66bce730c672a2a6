//! The text of `fifo_options`.

ghost use Rattle.std.specs.Str.{chars};
ghost use Rattle.options.specs.Read.{Gives};
ghost use Rattle.options.specs.Repeat.{turn};
ghost use Rattle.options.specs.Fifos.{fifo_part, fifo_all, fifo_options};

use crate::block::{bare_value_at, key_at};
use crate::fault::{ReadError, WordKind};
use crate::fifo::FifoDraft;
use crate::text::split_first;
use std::alloc::Global;

// One option of fifo_options: whether it is the last one, and what stands behind it.
#[tactic(auto, unfolding(crate::specs::Fifos::fifo_part))]
fn fifo_part(
    alloc: Global,
    draft: FifoDraft,
    text: &str,
) -> Result<(FifoDraft, bool, &str), ReadError>
    ensures { Gives (λ x. turn x.1 x.0 (chars x.2.now)) result (fifo_part draft (chars text.now)) }
{
    let (key, behind) = key_at(alloc, text, WordKind::UnknownOption)?;
    let (value, last, behind) = bare_value_at(alloc, behind)?;
    Ok((draft.set_named(&key, &value)?, last, behind))
}

/// The options of a queue and of recovery that a text says, with colons between them.
#[tactic(auto, unfolding(crate::specs::Fifos::fifo_options))]
pub fn fifo_options_of(alloc: Global, text: &str) -> Result<FifoDraft, ReadError>
    ensures { Gives (λ d. d) result (fifo_options text.now) }
{
    if split_first(text).is_none() {
        return Ok(FifoDraft::new());
    }
    all_fifo_options(alloc, text)
}

fn all_fifo_options(alloc: Global, text: &str) -> Result<FifoDraft, ReadError>
    ensures { Gives (λ d. d) result (fifo_all (chars text.now)) }
{
    let mut draft = FifoDraft::new();
    let mut rest = text;
    'parts: loop {
        let (next, last, behind) = match fifo_part(alloc, draft, rest) {
            Ok(part) => part,
            Err(error) => return Err(error),
        };
        draft = next;
        if last {
            return Ok(draft);
        }
        rest = behind;
    }
}
