//! File names with a number in them.

ghost use Rattle.std.specs.Prelude.{◌≡◌, ◌≤◌, ◌+◌, ◌++◌, length, option_map, MatchOption, IfSome};
ghost use Rattle.playlist.specs.Template.{plain, mark, filled_mark, width_of, template, filled, name_of};

use arrayvec::ArrayString;
use itoa::Buffer;
use std::marker::Model;

/// The most bytes of a template's text.
const MOST_BYTES: usize = 200;

/// A file name with a number in it: `%d`, or `%0Nd` with N from 1 to 20 for a number that is filled up with zeros to N
/// digits. `%%` stands for one percent sign.
#[derive(Drop)]
pub struct Template {
    before: ArrayString<200>,
    width: u8,
    after: ArrayString<200>,
}

impl Model for Template {
    ghost use Rattle.std.specs.Prelude.{◌+◌, ◌≤◌, length};
    ghost use Rattle.playlist.specs.Template.{TemplateParts};

    ghost Value = { TemplateParts };

    ghost view = { λ t. record { before = t.before.bytes; width = t.width; after = t.after.bytes } };

    ghost invariant = { λ t. (length t.before.bytes + length t.after.bytes ≤ 200) × (t.width ≤ 20) };
}

// The text up to a percent sign that stands alone, and what stands behind that sign.
fn plain_text(text: &str) -> (ArrayString<200>, Option<&str>)
    requires { length text.now ≤ 200 }
    ensures plain { result.0.bytes ≡ (plain text.now).0 }
    ensures rest { option_map (λ rest. rest.now) result.1 ≡ (plain text.now).1 }
    ensures bound { MatchOption result.1 (length result.0.bytes ≤ length text.now) (λ rest. length result.0.bytes + length rest.now ≤ length text.now) }
{
    let mut out = ArrayString::new();
    let mut rest = text;
    while let Some((front, behind)) = rest.split_once('%') {
        out.push_str(front);
        let Some(more) = behind.strip_prefix('%') else {
            return (out, Some(behind));
        };
        out.push('%');
        rest = more;
    }
    out.push_str(rest);
    (out, None)
}

// The number from 1 to 20 that these digits spell, with no zero in front.
fn width_of(digits: &str) -> Option<u8>
    ensures read { result ≡ width_of digits.now }
    ensures bound { IfSome result (λ width. width ≤ 20) }
{
    match digits.as_bytes() {
        [n @ b'1'..=b'9'] => Some(n - b'0'),
        [b'1', n @ b'0'..=b'9'] => Some(10 + (n - b'0')),
        [b'2', b'0'] => Some(20),
        _ => None,
    }
}

// The width of `Nd`, and what stands behind it.
fn filled_mark(text: &str) -> Option<(u8, &str)>
    ensures read { option_map (λ m. (m.0, m.1.now)) result ≡ filled_mark text.now }
    ensures bound { IfSome result (λ m. (m.0 ≤ 20) × (length m.1.now ≤ length text.now)) }
{
    let (digits, rest) = text.split_once('d')?;
    Some((width_of(digits)?, rest))
}

// The width of `d` or `0Nd`, and what stands behind it.
fn mark(text: &str) -> Option<(u8, &str)>
    ensures read { option_map (λ m. (m.0, m.1.now)) result ≡ mark text.now }
    ensures bound { IfSome result (λ m. (m.0 ≤ 20) × (length m.1.now ≤ length text.now)) }
{
    if let Some(rest) = text.strip_prefix('d') {
        return Some((0, rest));
    }
    let Some(rest) = text.strip_prefix('0') else {
        return None;
    };
    filled_mark(rest)
}

// Appends the digits, filled up with zeros to the width.
fn push_filled(out: &mut ArrayString<256>, width: u8, digits: &str)
    requires { length out.old.bytes + width + length digits.now ≤ 256 }
    ensures { out.new.bytes ≡ out.old.bytes ++ filled width digits.now }
{
    for _ in 0..usize::from(width).saturating_sub(digits.len()) {
        out.push('0');
    }
    out.push_str(digits);
}

impl Template {
    /// The template that a text spells. None where it spells none: it has no mark or several, a percent sign that
    /// belongs to neither a mark nor a pair, or more than 200 bytes.
    pub fn parse(text: &str) -> Option<Template>
        ensures { result ≡ template text.now }
    {
        if text.len() > MOST_BYTES {
            return None;
        }
        let (before, rest) = plain_text(text);
        let (width, rest) = mark(rest?)?;
        let (after, None) = plain_text(rest) else {
            return None;
        };
        Some(Template {
            before,
            width,
            after,
        })
    }

    /// Writes the name with that number into `out`, in place of what was there. A number of more digits than the width
    /// is written whole.
    pub fn name(&self, number: u64, out: &mut ArrayString<256>)
        ensures { out.new.bytes ≡ name_of self.now number }
    {
        let mut buffer = Buffer::new();
        out.clear();
        out.push_str(self.before.as_str());
        push_filled(out, self.width, buffer.format(number));
        out.push_str(self.after.as_str());
    }

    /// An equal template.
    pub fn copy(&self) -> Template
        ensures { result ≡ self.now }
    {
        Template {
            before: self.before,
            width: self.width,
            after: self.after,
        }
    }
}
