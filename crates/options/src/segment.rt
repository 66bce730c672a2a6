//! The options of segments.

ghost use Rattle.std.specs.Prelude.{◌≡◌, nat_eq};
ghost use Rattle.std.specs.List.{ends_with};
ghost use Rattle.std.specs.Option.{option_map_or};
ghost use Rattle.options.specs.Read.{Gives};
ghost use Rattle.options.specs.Segment.{no_segments, has_any, list_kind_for, seg_options, with_inner, with_time, with_list, with_list_kind, with_start, with_reset, with_any_packet};

use crate::fault::{ReadError, WordKind};
use crate::keyword::{flag_of, inner_of, list_kind_of};
use crate::name::name_fault;
use crate::number::number_in;
use crate::time::time_of;
use playlist::{ListKind, SegOptions};
use rmx_media::{Format, Text};
use std::alloc::Global;

/// What the options of segments have set so far: one place for each option.
#[derive(Drop)]
pub struct SegDraft {
    pub inner: Option<Format>,
    pub time_us: Option<u64>,
    pub list: Option<Text>,
    pub list_kind: Option<ListKind>,
    pub start: Option<u64>,
    pub reset: Option<bool>,
    pub any_packet: Option<bool>,
}

fn ends_with(name: &str, end: &str) -> bool
    ensures { result ≡ ends_with nat_eq name.now end.now }
{
    name.ends_with(end)
}

// The kind of list that its name asks for.
#[tactic(auto, unfolding(crate::specs::Segment::list_kind_for))]
fn list_kind_for(name: &str) -> ListKind
    ensures { result ≡ list_kind_for name.now }
{
    if ends_with(name, ".m3u8") {
        ListKind::M3u8
    } else if ends_with(name, ".csv") {
        ListKind::Csv
    } else {
        ListKind::Flat
    }
}

// The kind of list where none is said.
fn default_list_kind(name: &Option<Text>) -> ListKind
    ensures { result ≡ option_map_or list_kind_for name.now ListKind.Flat }
{
    match name {
        Some(name) => list_kind_for(name.as_str()),
        None => ListKind::Flat,
    }
}

impl SegDraft {
    /// Nothing is set.
    pub fn new() -> SegDraft
        ensures { result ≡ no_segments }
    {
        SegDraft {
            inner: None,
            time_us: None,
            list: None,
            list_kind: None,
            start: None,
            reset: None,
            any_packet: None,
        }
    }

    /// Whether an option of segments is set.
    pub fn has_any(&self) -> bool
        ensures { result ≡ has_any self.now }
    {
        self.inner.is_some()
            || self.time_us.is_some()
            || self.list.is_some()
            || self.list_kind.is_some()
            || self.start.is_some()
            || self.reset.is_some()
            || self.any_packet.is_some()
    }

    /// With the format of each segment.
    pub fn with_inner(self, value: &str) -> Result<SegDraft, ReadError>
        ensures { Gives (λ d. d) result (with_inner value.now self) }
    {
        let Some(inner) = inner_of(value) else {
            return Err(ReadError::Fault(WordKind::UnknownFormat));
        };
        let mut draft = self;
        draft.inner = Some(inner);
        Ok(draft)
    }

    /// With the time of a segment.
    pub fn with_time(self, value: &str) -> Result<SegDraft, ReadError>
        ensures { Gives (λ d. d) result (with_time value.now self) }
    {
        let Some(time) = time_of(value) else {
            return Err(ReadError::Fault(WordKind::BadValue));
        };
        let mut draft = self;
        draft.time_us = Some(time);
        Ok(draft)
    }

    /// With the list's name.
    pub fn with_list(self, alloc: Global, value: &str) -> Result<SegDraft, ReadError>
        ensures { Gives (λ d. d) result (with_list value.now self) }
    {
        if let Some(fault) = name_fault(value) {
            return Err(ReadError::Fault(fault));
        }
        let list = Text::of(alloc, value)?;
        let mut draft = self;
        draft.list = Some(list);
        Ok(draft)
    }

    /// With the kind of the list.
    pub fn with_list_kind(self, value: &str) -> Result<SegDraft, ReadError>
        ensures { Gives (λ d. d) result (with_list_kind value.now self) }
    {
        let Some(kind) = list_kind_of(value) else {
            return Err(ReadError::Fault(WordKind::BadValue));
        };
        let mut draft = self;
        draft.list_kind = Some(kind);
        Ok(draft)
    }

    /// With the first segment's number.
    pub fn with_start(self, value: &str) -> Result<SegDraft, ReadError>
        ensures { Gives (λ d. d) result (with_start value.now self) }
    {
        let Some(start) = number_in(value, 0, 0xFFFF_FFFF) else {
            return Err(ReadError::Fault(WordKind::BadValue));
        };
        let mut draft = self;
        draft.start = Some(start);
        Ok(draft)
    }

    /// With whether each segment's times begin at 0.
    pub fn with_reset(self, value: &str) -> Result<SegDraft, ReadError>
        ensures { Gives (λ d. d) result (with_reset value.now self) }
    {
        let Some(reset) = flag_of(value) else {
            return Err(ReadError::Fault(WordKind::BadValue));
        };
        let mut draft = self;
        draft.reset = Some(reset);
        Ok(draft)
    }

    /// With whether a segment may begin with any packet.
    pub fn with_any_packet(self, value: &str) -> Result<SegDraft, ReadError>
        ensures { Gives (λ d. d) result (with_any_packet value.now self) }
    {
        let Some(any_packet) = flag_of(value) else {
            return Err(ReadError::Fault(WordKind::BadValue));
        };
        let mut draft = self;
        draft.any_packet = Some(any_packet);
        Ok(draft)
    }

    /// The options, with their defaults where they aren't set.
    pub fn finish(self) -> SegOptions
        ensures { result ≡ seg_options self }
    {
        let named = default_list_kind(&self.list);
        SegOptions {
            inner: self.inner.unwrap_or(Format::Mpegts),
            time_us: self.time_us.unwrap_or(2_000_000),
            list: self.list,
            list_kind: self.list_kind.unwrap_or(named),
            start: self.start.unwrap_or(0),
            reset: self.reset.unwrap_or(false),
            any_packet: self.any_packet.unwrap_or(false),
        }
    }
}
