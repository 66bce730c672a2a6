//! One parse of a text with escapes.

ghost use Rattle.std.specs.Prelude.{◌≡◌};
ghost use Rattle.std.specs.Str.{chars};
ghost use Rattle.options.specs.Text.{characters};
ghost use Rattle.options.specs.Read.{Gives};
ghost use Rattle.options.specs.Escape.{piece, is_among};
ghost use Rattle.options.specs.declared.escape.Place.TheVariants.{Bare};

use crate::fault::{ReadError, WordKind};
use crate::text::{push_char, split_first};
use std::alloc::Global;

/// Where a character stands: bare, behind a backslash, or between quotes.
#[derive(Clone, Copy)]
enum Place {
    Bare,
    Escaped,
    Quoted,
}

fn is_stop(stops: &[char], c: char) -> bool
    ensures { result ≡ is_among stops.now c }
{
    stops.iter().any(|s| *s == c)
}

/// The text up to the first bare stop, its marks removed, and what is left from there on.
#[tactic(auto, using(crate::proofs::Pieces::nothing_before, crate::proofs::Pieces::regroup), unfolding(crate::specs::Escape::piece))]
pub fn piece_at<'a>(
    alloc: Global,
    text: &'a str,
    stops: &[char],
) -> Result<(String, &'a str), ReadError>
    ensures { Gives (λ x. (characters x.0, chars x.1.now)) result (piece stops.now Bare (chars text.now)) }
{
    let mut out = String::new(alloc);
    let mut rest = text;
    let mut place = Place::Bare;
    while let Some((c, after)) = split_first(rest) {
        match place {
            Place::Bare => {
                if is_stop(stops, c) {
                    return Ok((out, rest));
                }
                if c == '\\' {
                    place = Place::Escaped;
                } else if c == '\'' {
                    place = Place::Quoted;
                } else {
                    push_char(&mut out, c)?;
                }
            }
            Place::Escaped => {
                push_char(&mut out, c)?;
                place = Place::Bare;
            }
            Place::Quoted => {
                if c == '\'' {
                    place = Place::Bare;
                } else {
                    push_char(&mut out, c)?;
                }
            }
        }
        rest = after;
    }
    match place {
        Place::Bare => Ok((out, rest)),
        Place::Escaped | Place::Quoted => Err(ReadError::Fault(WordKind::DanglingEscape)),
    }
}
