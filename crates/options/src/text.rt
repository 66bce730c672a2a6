//! A text as its characters.

ghost use Rattle.std.specs.Prelude.{◌≡◌, ◌<◌, ◌∷◌, ◌++◌, [], MatchOption, OnOk, string_bytes};
ghost use Rattle.std.specs.Str.{chars};
ghost use Rattle.options.specs.Text.{characters};

use std::alloc::AllocError;

/// The first character, and the text behind it.
pub fn split_first(text: &str) -> Option<(char, &str)>
    ensures { MatchOption result (chars text.now ≡ []) (λ x. chars text.now ≡ x.0 ∷ chars x.1.now) }
{
    let mut rest = text.chars();
    let first = rest.next()?;
    Some((first, rest.as_str()))
}

/// Adds a character at the end.
pub fn push_char(text: &mut String, c: char) -> Result<(), AllocError>
    ensures { OnOk result (characters text.new ≡ characters text.old ++ c ∷ []) }
{
    text.push(c)
}

/// Adds a character of ASCII at the end.
pub fn push_ascii(text: &mut String, c: char) -> Result<(), AllocError>
    requires { c < 128 }
    ensures { OnOk result (string_bytes text.new ≡ string_bytes text.old ++ c ∷ []) }
{
    text.push(c)
}
