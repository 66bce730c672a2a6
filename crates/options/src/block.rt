//! Options and their values.

ghost use Rattle.std.specs.Prelude.{◌≡◌, [], string_bytes};
ghost use Rattle.std.specs.Str.{chars};
ghost use Rattle.options.specs.Read.{Gives};
ghost use Rattle.options.specs.Block.{is_key_char, key_at, value_until, value_at, bare_value_at};

use crate::escape::piece_at;
use crate::fault::{ReadError, WordKind};
use crate::text::{push_ascii, split_first};
use std::alloc::Global;

fn is_key_char(c: char) -> bool
    ensures { result ≡ is_key_char c }
{
    c.is_ascii_alphanumeric() || c == '_' || c == '/'
}

/// The longest run of key characters, and what stands behind its `=`. `short` is the fault of a text that ends in front
/// of it.
#[tactic(auto, unfolding(crate::specs::Block::key_at))]
pub fn key_at(alloc: Global, text: &str, short: WordKind) -> Result<(String, &str), ReadError>
    ensures { Gives (λ x. (string_bytes x.0, chars x.1.now)) result (key_at short [] (chars text.now)) }
{
    let mut key = String::new(alloc);
    let mut rest = text;
    while let Some((c, after)) = split_first(rest) {
        if c == '=' {
            return Ok((key, after));
        }
        if !is_key_char(c) {
            return Err(ReadError::Fault(WordKind::UnknownOption));
        }
        push_ascii(&mut key, c)?;
        rest = after;
    }
    Err(ReadError::Fault(short))
}

// The text up to the first bare stop, its marks removed, and what is left from there on.
fn value_until<'a>(
    alloc: Global,
    text: &'a str,
    stops: &[char],
) -> Result<(String, &'a str), ReadError>
    ensures { Gives (λ x. (string_bytes x.0, chars x.1.now)) result (value_until stops.now (chars text.now)) }
{
    piece_at(alloc, text, stops)
}

/// A value of a block: whether `]` ends it, and what stands behind its end.
#[tactic(auto, unfolding(crate::specs::Block::value_at))]
pub fn value_at(alloc: Global, text: &str) -> Result<(String, bool, &str), ReadError>
    ensures { Gives (λ x. (string_bytes x.0, x.1, chars x.2.now)) result (value_at (chars text.now)) }
{
    let (value, rest) = value_until(alloc, text, &[':', ']'])?;
    let Some((end, rest)) = split_first(rest) else {
        return Err(ReadError::Fault(WordKind::UnclosedBlock));
    };
    Ok((value, end == ']', rest))
}

/// A value that no block holds: whether the text ends it, and what stands behind its end.
#[tactic(auto, unfolding(crate::specs::Block::bare_value_at))]
pub fn bare_value_at(alloc: Global, text: &str) -> Result<(String, bool, &str), ReadError>
    ensures { Gives (λ x. (string_bytes x.0, x.1, chars x.2.now)) result (bare_value_at (chars text.now)) }
{
    let (value, rest) = value_until(alloc, text, &[':'])?;
    let Some((_, behind)) = split_first(rest) else {
        return Ok((value, true, rest));
    };
    Ok((value, false, behind))
}
