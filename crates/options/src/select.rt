//! Which streams an output takes.

ghost use Rattle.std.specs.Prelude.{◌≡◌, ◌<◌, ◌∷◌, [], length, MatchOption, IfSome};
ghost use Rattle.std.specs.List.{slice_split};
ghost use Rattle.options.specs.Read.{Gives};
ghost use Rattle.options.specs.Select.{spec_named, is_comma, specs};

use crate::fault::{ReadError, WordKind};
use std::alloc::Global;

/// Streams of an input.
#[derive(Clone, Copy, Debug, PartialEq, Eq)]
pub enum Spec {
    All,
    Video,
    Audio,
    /// The stream of that number.
    Index(u32),
}

fn spec_of(text: &str) -> Option<Spec>
    ensures { result ≡ spec_named text.now }
{
    if text == "v" || text == "v:0" {
        Some(Spec::Video)
    } else if text == "a" || text == "a:0" {
        Some(Spec::Audio)
    } else if text == "0" {
        Some(Spec::Index(0))
    } else if text == "1" {
        Some(Spec::Index(1))
    } else {
        None
    }
}

// What stands before the first comma, and what stands behind it.
fn split_at_comma(text: &str) -> (&str, Option<&str>)
    ensures parts { MatchOption result.1 (slice_split is_comma text.now ≡ result.0.now ∷ []) (λ behind. slice_split is_comma text.now ≡ result.0.now ∷ slice_split is_comma behind.now) }
    ensures shorter { IfSome result.1 (λ behind. length behind.now < length text.now) }
{
    match text.split_once(',') {
        Some((front, behind)) => (front, Some(behind)),
        None => (text, None),
    }
}

/// The streams that a text names, with commas between them.
pub fn specs_of(alloc: Global, text: &str) -> Result<Vec<Spec>, ReadError>
    ensures { Gives (λ found. found.items) result (specs text.now) }
{
    let mut found = Vec::new(alloc);
    let mut rest = text;
    loop {
        let (front, behind) = split_at_comma(rest);
        let Some(spec) = spec_of(front) else {
            return Err(ReadError::Fault(WordKind::BadValue));
        };
        found.push(spec)?;
        let Some(behind) = behind else {
            return Ok(found);
        };
        rest = behind;
    }
}
