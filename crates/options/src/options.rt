//! The block of options in front of an output's name.

ghost use Rattle.std.specs.Prelude.{◌<◌};
ghost use Rattle.std.specs.Str.{chars};
ghost use Rattle.options.specs.Read.{Gives};
ghost use Rattle.options.specs.Repeat.{turn, all_parts};
ghost use Rattle.options.specs.Draft.{view, no_options};
ghost use Rattle.options.specs.Options.{option_part, behind_bracket, block};

use crate::block::{key_at, value_at};
use crate::draft::Draft;
use crate::fault::{ReadError, WordKind};
use crate::text::split_first;
use std::alloc::Global;

// One option of a block: whether it is the last one, and what stands behind it.
#[tactic(auto, unfolding(crate::specs::Options::option_part))]
fn option_part(alloc: Global, draft: Draft, text: &str) -> Result<(Draft, bool, &str), ReadError>
    ensures { Gives (λ x. turn x.1 (view x.0) (chars x.2.now)) result (option_part (view draft) (chars text.now)) }
{
    let (key, behind) = key_at(alloc, text, WordKind::UnclosedBlock)?;
    let (value, last, behind) = value_at(alloc, behind)?;
    Ok((draft.with_named(alloc, &key, &value)?, last, behind))
}

// The options up to `]`, and what stands behind it.
fn all_options(alloc: Global, text: &str) -> Result<(Draft, &str), ReadError>
    ensures { Gives (λ x. (view x.0, chars x.1.now)) result (all_parts option_part WordKind.UnclosedBlock no_options (chars text.now)) }
{
    let mut draft = Draft::new(alloc);
    let mut rest = text;
    'parts: loop {
        let (next, last, behind) = match option_part(alloc, draft, rest) {
            Ok(part) => part,
            Err(error) => return Err(error),
        };
        draft = next;
        rest = behind;
        if last {
            return Ok((draft, rest));
        }
    }
}

fn behind_bracket(alloc: Global, text: &str) -> Result<(Draft, &str), ReadError>
    ensures { Gives (λ x. (view x.0, chars x.1.now)) result (behind_bracket (chars text.now)) }
{
    let Some((c, name)) = split_first(text) else {
        return Err(ReadError::Fault(WordKind::UnclosedBlock));
    };
    if c == ']' {
        return Ok((Draft::new(alloc), name));
    }
    all_options(alloc, text)
}

/// The options, and the rest, which is the name.
#[tactic(auto, unfolding(crate::specs::Options::block))]
pub fn block_at(alloc: Global, text: &str) -> Result<(Draft, &str), ReadError>
    ensures { Gives (λ x. (view x.0, chars x.1.now)) result (block (chars text.now)) }
{
    let Some((c, behind)) = split_first(text) else {
        return Ok((Draft::new(alloc), text));
    };
    if c == '[' {
        return behind_bracket(alloc, behind);
    }
    Ok((Draft::new(alloc), text))
}
