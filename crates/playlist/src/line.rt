//! One line of a list.

ghost use Rattle.std.specs.Prelude.{◌≡◌, ◌≤◌, ◌+◌, ◌*◌, ◌++◌, ◌∷◌, ◌^◌, [], pos, neg_ℤ, ◌≤ℤ◌, length, decimal, flat_map, codes};
ghost use Rattle.std.specs.List.{list_any};
ghost use Rattle.playlist.specs.Template.{name_of};
ghost use Rattle.playlist.specs.List.{IsInRange, duration, time_text, asks_quotes, doubled, csv_field, name_in, csv_line, line};

use crate::{ListEntry, Template};
use arrayvec::ArrayString;
use itoa::Buffer;
use rmx_media::seconds_text;

/// A line: the longest has a name of at most 256 bytes, each of them doubled, in quotes, and two times.
pub type Line = ArrayString<640>;

fn push_time(out: &mut Line, ms: i64)
    requires room { length out.old.bytes + 32 ≤ 640 }
    requires above { neg_ℤ (pos (2 ^ 41)) ≤ℤ ms }
    requires below { ms ≤ℤ pos (2 ^ 41) }
    ensures bytes { out.new.bytes ≡ out.old.bytes ++ time_text ms }
    ensures len { length out.new.bytes ≤ length out.old.bytes + 32 }
{
    let mut text = ArrayString::new();
    seconds_text(ms * 1000, &mut text);
    out.push_str(text.as_str());
}

fn asks_quotes(text: &str) -> bool
    ensures { result ≡ list_any asks_quotes text.now }
{
    text.as_bytes()
        .iter()
        .any(|b| matches!(*b, b',' | b'"' | b'\r' | b'\n'))
}

// Appends the text with its quotes doubled.
fn push_doubled(out: &mut Line, text: &str)
    requires { length out.old.bytes + 2 * length text.now ≤ 640 }
    ensures bytes { out.new.bytes ≡ out.old.bytes ++ flat_map doubled text.now }
    ensures len { length out.new.bytes ≤ length out.old.bytes + 2 * length text.now }
{
    let mut rest = text;
    while let Some((front, behind)) = rest.split_once('"') {
        out.push_str(front);
        out.push_str("\"\"");
        rest = behind;
    }
    out.push_str(rest);
}

fn push_field(out: &mut Line, text: &str)
    requires { length out.old.bytes + 2 * length text.now + 2 ≤ 640 }
    ensures bytes { out.new.bytes ≡ out.old.bytes ++ csv_field text.now }
    ensures len { length out.new.bytes ≤ length out.old.bytes + 2 * length text.now + 2 }
{
    if !asks_quotes(text) {
        out.push_str(text);
        return;
    }
    out.push('"');
    push_doubled(out, text);
    out.push('"');
}

// Appends the name with that number.
fn push_name(out: &mut Line, template: &Template, number: u64)
    requires { length out.old.bytes + 256 ≤ 640 }
    ensures bytes { out.new.bytes ≡ out.old.bytes ++ name_of template.now number }
    ensures len { length out.new.bytes ≤ length out.old.bytes + 256 }
{
    let mut name = ArrayString::new();
    template.name(number, &mut name);
    out.push_str(name.as_str());
}

/// The segment's name.
pub fn name_line(template: &Template, entry: &ListEntry) -> Line
    ensures { result.bytes ≡ line (name_in template.now entry.now) }
{
    let mut out = Line::new();
    push_name(&mut out, template, entry.number);
    out.push('\n');
    out
}

// Appends the segment's name as a field.
fn push_name_field(out: &mut Line, template: &Template, number: u64)
    requires { length out.old.bytes ≡ 0 }
    ensures bytes { out.new.bytes ≡ csv_field (name_of template.now number) }
    ensures len { length out.new.bytes ≤ 514 }
{
    let mut name = ArrayString::<256>::new();
    template.name(number, &mut name);
    push_field(out, name.as_str());
}

/// The segment's name, start and end.
pub fn csv_line(template: &Template, entry: &ListEntry) -> Line
    requires { IsInRange entry.now }
    ensures { result.bytes ≡ csv_line template.now entry.now }
{
    let mut out = Line::new();
    push_name_field(&mut out, template, entry.number);
    out.push(',');
    push_time(&mut out, entry.start_ms);
    out.push(',');
    push_time(&mut out, entry.end_ms);
    out.push('\n');
    out
}

/// How many ms a segment lasts: at least 0.
pub fn duration(entry: &ListEntry) -> u64
    requires { IsInRange entry.now }
    ensures value { result ≡ duration entry.now }
    ensures bound { result ≤ 2 ^ 41 }
{
    let ms = entry.end_ms - entry.start_ms;
    if ms < 0 { 0 } else { ms as u64 }
}

/// The line in front of a segment's name in a media playlist.
pub fn duration_line(entry: &ListEntry) -> Line
    requires { IsInRange entry.now }
    ensures { result.bytes ≡ line (codes "#EXTINF:" ++ (time_text (pos (duration entry.now)) ++ 44 ∷ [])) }
{
    let mut out = Line::new();
    out.push_str("#EXTINF:");
    push_time(&mut out, duration(entry) as i64);
    out.push_str(",\n");
    out
}

/// A tag of a media playlist, and its number.
pub fn number_line(tag: &str, number: u64) -> Line
    requires { length tag.now ≤ 100 }
    ensures { result.bytes ≡ line (tag.now ++ decimal number) }
{
    let mut buffer = Buffer::new();
    let mut out = Line::new();
    out.push_str(tag);
    out.push_str(buffer.format(number));
    out.push('\n');
    out
}
