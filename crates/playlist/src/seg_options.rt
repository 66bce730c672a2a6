//! How an output is cut into segments.

ghost use Rattle.std.specs.Prelude.{◌≡◌, IfOk};

use crate::ListKind;
use rmx_media::{Format, NoMemory, Text};
use std::alloc::Global;

/// How an output is cut into numbered segment files, and whether a list names them in the end.
#[derive(Drop)]
pub struct SegOptions {
    /// The format of each segment: one that is no segments itself.
    pub inner: Format,
    /// How long a segment lasts at least, in µs.
    pub time_us: u64,
    /// The name of the list, where one is asked for.
    pub list: Option<Text>,
    pub list_kind: ListKind,
    /// The number of the first segment.
    pub start: u64,
    /// Whether the times of each segment begin at 0.
    pub reset: bool,
    /// Whether a segment may begin with any packet, in place of one at which decoding can begin.
    pub any_packet: bool,
}

fn copy_name(alloc: Global, name: &Option<Text>) -> Result<Option<Text>, NoMemory>
    ensures { IfOk result (λ copy. copy ≡ name.now) }
{
    match name {
        Some(name) => Ok(Some(Text::of(alloc, name.as_str())?)),
        None => Ok(None),
    }
}

impl SegOptions {
    /// Equal options.
    pub fn copy(&self, alloc: Global) -> Result<SegOptions, NoMemory>
        ensures { IfOk result (λ copy. copy ≡ self.now) }
    {
        Ok(SegOptions {
            inner: self.inner,
            time_us: self.time_us,
            list: copy_name(alloc, &self.list)?,
            list_kind: self.list_kind,
            start: self.start,
            reset: self.reset,
            any_packet: self.any_packet,
        })
    }
}
