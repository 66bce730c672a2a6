// The times of a session's files, for its list.
ghost use Rattle.std.specs.Prelude.{◌≡◌, ◌≤◌, ◌+◌, ◌∷◌, ◌++◌, [], true, Some, OnOk, OnErr, IfOk, IsErr};
ghost use Rattle.std.specs.List.{All};
ghost use Rattle.std.specs.Option.{ForSome};
ghost use Rattle.playlist.specs.List.{IsInRange};
ghost use Rattle.segmenter.specs.Near.{IsNear, IsSpan, since, zero_with, top_with};

use playlist::ListEntry;
use rmx_media::{Items, NoMemory, Packet};
use std::alloc::Global;

/// The files of a session on their way into its list: when each started and ended, in ms after the first packet's pts.
#[derive(Drop)]
pub(crate) struct Timeline {
    // The files that ended.
    entries: Items<ListEntry>,
    // The pts of the first packet, and the greatest pts.
    zero: Option<i64>,
    top: i64,
    // When the file that is being written started.
    start: i64,
    ghost all_in: { All IsInRange entries.items },
    ghost zero_near: { ForSome zero IsNear },
    ghost top_near: { IsNear top },
    ghost start_span: { IsSpan start },
}

impl Timeline {
    ghost use Rattle.segmenter.specs.Entries.{entry};
    ghost use Rattle.segmenter.specs.Session.{Session};
    ghost use Rattle.segmenter.specs.Timeline.{Shows, KeepsTimes};

    /// The timeline of a session without packets. It takes no memory yet.
    pub(crate) fn new(alloc: Global) -> Timeline
        ensures { (s : Session) → Shows result s [] [] }
    {
        Timeline {
            entries: Items::new(alloc),
            zero: None,
            top: 0,
            start: 0,
        }
    }

    /// The same, with room for an entry where it is listed.
    pub(crate) fn open(alloc: Global, listed: bool) -> Result<Timeline, NoMemory>
        ensures shows { IfOk result (λ t. (s : Session) → Shows t s [] []) }
        ensures room { IfOk result (λ t. listed ≡ true → 1 ≤ t.entries.spare) }
        ensures asked { IsErr result → listed ≡ true }
    {
        let mut timeline = Timeline::new(alloc);
        if !listed {
            return Ok(timeline);
        }
        match timeline.reserve(1) {
            Ok(()) => Ok(timeline),
            Err(refused) => Err(refused),
        }
    }

    /// Makes room for so many more entries.
    pub(crate) fn reserve(&mut self, places: usize) -> Result<(), NoMemory>
        ensures kept { KeepsTimes self.old self.new }
        ensures entries { self.new.entries.items ≡ self.old.entries.items }
        ensures room { OnOk result (places ≤ self.new.entries.spare) }
        ensures err { OnErr result (self.new.entries ≡ self.old.entries) }
    {
        self.entries.reserve(places)
    }

    /// The entries of the files that ended.
    pub(crate) fn entries(&self) -> &[ListEntry]
        ensures entries { result.now ≡ self.now.entries.items }
        ensures range { All IsInRange result.now }
    {
        self.entries.as_slice()
    }

    /// Passes a packet of the file that is being written.
    pub(crate) fn pass(&mut self, p: &Packet)
        requires { IsNear p.now.pts }
        ensures entries { self.new.entries ≡ self.old.entries }
        ensures start { self.new.start ≡ self.old.start }
        ensures zero { self.new.zero ≡ Some (zero_with self.old.zero p.now.pts) }
        ensures top { self.new.top ≡ top_with self.old.zero self.old.top p.now.pts }
    {
        match self.zero {
            Some(_) => self.top = self.top.max(p.pts),
            None => {
                self.zero = Some(p.pts);
                self.top = p.pts;
            }
        }
    }

    /// The file of this number ends where a packet begins the next one.
    pub(crate) fn split(&mut self, number: u64, p: &Packet)
        requires room { 1 ≤ self.old.entries.spare }
        requires near { IsNear p.now.pts }
        ensures entries { self.new.entries.items ≡ self.old.entries.items ++ entry number self.old.start (since self.old.zero p.now.pts) ∷ [] }
        ensures spare { self.new.entries.spare + 1 ≡ self.old.entries.spare }
        ensures start { self.new.start ≡ since self.old.zero p.now.pts }
        ensures zero { self.new.zero ≡ self.old.zero }
        ensures top { self.new.top ≡ self.old.top }
    {
        let end = self.since_first(p);
        self.entries.push(ListEntry {
            number,
            start_ms: self.start,
            end_ms: end,
        });
        self.start = end;
    }

    /// The last file, of this number, ends at the greatest pts.
    pub(crate) fn finish(&mut self, number: u64)
        requires room { 1 ≤ self.old.entries.spare }
        ensures entries { self.new.entries.items ≡ self.old.entries.items ++ entry number self.old.start (since self.old.zero self.old.top) ∷ [] }
    {
        let end = self.last_end();
        self.entries.push(ListEntry {
            number,
            start_ms: self.start,
            end_ms: end,
        });
    }

    // How long after the first packet a packet is shown.
    fn since_first(&self, p: &Packet) -> i64
        requires { IsNear p.now.pts }
        ensures value { result ≡ since self.now.zero p.now.pts }
        ensures span { IsSpan result }
    {
        match self.zero {
            Some(zero) => p.pts - zero,
            None => p.pts,
        }
    }

    // How long after the first packet the last one is shown.
    fn last_end(&self) -> i64
        ensures value { result ≡ since self.now.zero self.now.top }
        ensures span { IsSpan result }
    {
        match self.zero {
            Some(zero) => self.top - zero,
            None => self.top,
        }
    }
}
