//! Values out of a list of words.

ghost use Rattle.std.specs.Prelude.{◌≡◌};
ghost use Rattle.options.specs.Keyword.{flag, format_named, inner_named, on_fail_named, list_kind_named};

use playlist::ListKind;
use rmx_media::Format;

/// What a flag's text means.
pub fn flag_of(text: &str) -> Option<bool>
    ensures { result ≡ flag text.now }
{
    if text == "1" || text == "true" {
        return Some(true);
    }
    if text == "0" || text == "false" {
        return Some(false);
    }
    None
}

/// The format of that name.
pub fn format_of(text: &str) -> Option<Format>
    ensures { result ≡ format_named text.now }
{
    if text == "segment" {
        return Some(Format::Segment);
    }
    inner_of(text)
}

/// The format of that name, of those that segments may have.
pub fn inner_of(text: &str) -> Option<Format>
    ensures { result ≡ inner_named text.now }
{
    if text == "flv" {
        Some(Format::Flv)
    } else if text == "adts" {
        Some(Format::Adts)
    } else if text == "mpegts" {
        Some(Format::Mpegts)
    } else {
        None
    }
}

/// Whether the run ends where the output fails.
pub fn on_fail_of(text: &str) -> Option<bool>
    ensures { result ≡ on_fail_named text.now }
{
    if text == "abort" {
        Some(true)
    } else if text == "ignore" {
        Some(false)
    } else {
        None
    }
}

/// The kind of list of that name.
pub fn list_kind_of(text: &str) -> Option<ListKind>
    ensures { result ≡ list_kind_named text.now }
{
    if text == "flat" {
        Some(ListKind::Flat)
    } else if text == "csv" {
        Some(ListKind::Csv)
    } else if text == "m3u8" {
        Some(ListKind::M3u8)
    } else {
        None
    }
}
