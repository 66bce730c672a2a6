//! Lists of segments.

ghost use Rattle.std.specs.Prelude.{◌≡◌, ◌<◌, ◌+◌, ◌∷◌, [], map, length, true, false, All, OnOk};
ghost use Rattle.rmx_edge.specs.Run.{Runs};
ghost use Rattle.rmx_edge.specs.Shelf.{Write};
ghost use Rattle.playlist.specs.declared.list.ListKind.TheVariants.{M3u8};
ghost use Rattle.playlist.specs.List.{IsInRange, seconds_up, target_duration, head_lines, playlist_heads, head_calls, entry_calls, tail_calls, list_calls};

use crate::Template;
use crate::line::{csv_line, duration, duration_line, name_line, number_line};
use rmx_edge::{Shelf, ShelfFault};

/// How a list names segments.
#[derive(Clone, Copy, Debug, PartialEq, Eq)]
pub enum ListKind {
    /// A name on each line.
    Flat,
    /// Name, start and end on each line, with commas between them (RFC 4180).
    Csv,
    /// A media playlist (RFC 8216).
    M3u8,
}

/// A segment in a list: its number, and its start and end in ms.
#[derive(Clone, Copy, Debug, PartialEq, Eq)]
pub struct ListEntry {
    pub number: u64,
    pub start_ms: i64,
    pub end_ms: i64,
}

// A segment's seconds, rounded up.
fn seconds_up(entry: &ListEntry) -> u64
    requires { IsInRange entry.now }
    ensures { result ≡ seconds_up entry.now }
{
    (duration(entry) + 999) / 1000
}

// The greatest duration in seconds, rounded up, and at least 1.
fn target_duration(entries: &[ListEntry]) -> u64
    requires { All IsInRange entries.now }
    ensures { result ≡ target_duration entries.now }
{
    let mut target = 1;
    for entry in entries {
        target = target.max(seconds_up(entry));
    }
    target
}

// Writes a line.
#[tactic(auto, using(rmx_edge::proofs::Run::runs_one))]
fn write_one<S: Shelf>(line: &str, shelf: &mut S) -> Result<(), ShelfFault>
    requires { (S.state shelf.old).writing ≡ true }
    ensures run { Runs (Write line.now ∷ []) result (S.state shelf.old) (S.state shelf.new) }
    ensures open { OnOk result ((S.state shelf.new).writing ≡ true) }
{
    shelf.write(line.as_bytes())
}

// Writes two lines.
fn write_two<S: Shelf>(first: &str, second: &str, shelf: &mut S) -> Result<(), ShelfFault>
    requires { (S.state shelf.old).writing ≡ true }
    ensures run { Runs (Write first.now ∷ Write second.now ∷ []) result (S.state shelf.old) (S.state shelf.new) }
    ensures open { OnOk result ((S.state shelf.new).writing ≡ true) }
{
    match write_one(first, shelf) {
        Ok(()) => write_one(second, shelf),
        Err(fault) => Err(fault),
    }
}

// Writes the lines at the head of a media playlist.
fn write_heads<S: Shelf>(first: u64, target: u64, shelf: &mut S) -> Result<(), ShelfFault>
    requires { (S.state shelf.old).writing ≡ true }
    ensures run { Runs (map Write (playlist_heads first target)) result (S.state shelf.old) (S.state shelf.new) }
    ensures open { OnOk result ((S.state shelf.new).writing ≡ true) }
{
    let first = number_line("#EXT-X-MEDIA-SEQUENCE:", first);
    let target = number_line("#EXT-X-TARGETDURATION:", target);
    match write_two("#EXTM3U\n", "#EXT-X-VERSION:3\n", shelf) {
        Ok(()) => write_two(first.as_str(), target.as_str(), shelf),
        Err(fault) => Err(fault),
    }
}

#[tactic(auto, using(rmx_edge::proofs::Run::runs_none))]
fn write_head<S: Shelf>(
    kind: ListKind,
    entries: &[ListEntry],
    shelf: &mut S,
) -> Result<(), ShelfFault>
    requires open { (S.state shelf.old).writing ≡ true }
    requires some { 0 < length entries.now }
    requires times { All IsInRange entries.now }
    ensures run { Runs (map Write (head_lines kind entries.now)) result (S.state shelf.old) (S.state shelf.new) }
    ensures open { OnOk result ((S.state shelf.new).writing ≡ true) }
{
    match kind {
        ListKind::Flat | ListKind::Csv => Ok(()),
        ListKind::M3u8 => write_heads(entries[0].number, target_duration(entries), shelf),
    }
}

fn begin<S: Shelf>(
    kind: ListKind,
    name: &str,
    entries: &[ListEntry],
    shelf: &mut S,
) -> Result<(), ShelfFault>
    requires idle { (S.state shelf.old).writing ≡ false }
    requires some { 0 < length entries.now }
    requires times { All IsInRange entries.now }
    ensures run { Runs (head_calls kind name.now entries.now) result (S.state shelf.old) (S.state shelf.new) }
    ensures open { OnOk result ((S.state shelf.new).writing ≡ true) }
{
    match shelf.create(name) {
        Ok(()) => write_head(kind, entries, shelf),
        Err(fault) => Err(fault),
    }
}

fn write_entry<S: Shelf>(
    kind: ListKind,
    template: &Template,
    entry: &ListEntry,
    shelf: &mut S,
) -> Result<(), ShelfFault>
    requires open { (S.state shelf.old).writing ≡ true }
    requires times { IsInRange entry.now }
    ensures run { Runs (entry_calls kind template.now entry.now) result (S.state shelf.old) (S.state shelf.new) }
    ensures open { OnOk result ((S.state shelf.new).writing ≡ true) }
{
    let name = name_line(template, entry);
    match kind {
        ListKind::Flat => write_one(name.as_str(), shelf),
        ListKind::Csv => write_one(csv_line(template, entry).as_str(), shelf),
        ListKind::M3u8 => write_two(duration_line(entry).as_str(), name.as_str(), shelf),
    }
}

#[tactic(auto, using(rmx_edge::proofs::Run::runs_one, rmx_edge::proofs::Run::runs_then))]
fn end<S: Shelf>(kind: ListKind, shelf: &mut S) -> Result<(), ShelfFault>
    requires { (S.state shelf.old).writing ≡ true }
    ensures { Runs (tail_calls kind) result (S.state shelf.old) (S.state shelf.new) }
{
    match kind {
        ListKind::Flat | ListKind::Csv => shelf.close(),
        ListKind::M3u8 => match write_one("#EXT-X-ENDLIST\n", shelf) {
            Ok(()) => shelf.close(),
            Err(fault) => Err(fault),
        },
    }
}

/// Writes a list of segments: one create, one write for each line, and one close. The entries' times lie from −2^40 to
/// 2^40 ms. Each refusal is the shelf's own, and is answered at once.
pub fn write_list<S: Shelf>(
    kind: ListKind,
    name: &str,
    template: &Template,
    entries: &[ListEntry],
    shelf: &mut S,
) -> Result<(), ShelfFault>
    requires idle { (S.state shelf.old).writing ≡ false }
    requires some { 0 < length entries.now }
    requires times { All IsInRange entries.now }
    ensures { Runs (list_calls kind name.now template.now entries.now) result (S.state shelf.old) (S.state shelf.new) }
{
    match begin(kind, name, entries, shelf) {
        Ok(()) => {}
        Err(fault) => return Err(fault),
    }
    for entry in entries {
        match write_entry(kind, template, entry, shelf) {
            Ok(()) => {}
            Err(fault) => return Err(fault),
        }
    }
    end(kind, shelf)
}
