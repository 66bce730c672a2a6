// The muxer of an output, by its format. A further format is one more variant here and one more line in each definition
// of specs/Calls.antt.
ghost use Rattle.std.specs.Prelude.{◌≡◌, ◌∷◌, ◌++◌, [], true, false, ℕ, List, IsOk};
ghost use Rattle.rmx_edge.specs.Run.{Runs};
ghost use Rattle.rmx_edge.specs.Pieces.{EndsInWrite};
ghost use Rattle.rmx_media.specs.Fits.{Fits};
ghost use Rattle.rmx_media.specs.Streams.{CanMux};
ghost use Rattle.rmx_media.specs.declared.packet.Format.TheVariants as format;
ghost use Rattle.rmx_media.specs.declared.packet.Packet.{Packet};
ghost use Rattle.slave.specs.Origin.{Origin};
ghost use Rattle.slave.specs.Calls.{IsBuilt, begin_of, put_calls, end_calls, session_of};
ghost use Rattle.slave.specs.Segments.{file_format, start_of};
ghost use Rattle.slave.specs.Watched.{inner, is_flushed};

use crate::watched::Watched;
use aac_adts::AdtsMux;
use flv_mux::FlvMux;
use playlist::{SegOptions, Template};
use rmx_edge::{Shelf, ShelfFault};
use rmx_media::{Format, MuxStreams, Packet};
use segmenter::SegMux;
use std::alloc::Global;
use ts_mux::TsMux;

/// A muxer of one of the formats. One of segments has the template of their names beside it.
#[derive(Drop)]
pub enum Mux {
    Adts(AdtsMux),
    Flv(FlvMux),
    Mpegts(TsMux),
    Segment(Template, SegMux),
}

impl Mux {
    ghost use Rattle.slave.specs.Calls.{IsMuxOf, MuxAfter, number_in, RunsOrWants};

    /// A muxer of that format. Segments are made as `seg` says, and their names by the template that `name` is.
    pub fn new(
        alloc: Global,
        name: &str,
        format: Format,
        seg: Option<SegOptions>,
        streams: MuxStreams,
    ) -> Mux
        requires built { IsBuilt format seg name.now }
        requires streams { CanMux streams }
        ensures of { (g : Origin) → g.name ≡ name.now → g.format ≡ format → g.seg ≡ seg → g.streams ≡ streams → IsMuxOf g result }
        ensures number { number_in result ≡ start_of seg }
    {
        match format {
            Format::Adts => Mux::Adts(AdtsMux::new(streams)),
            Format::Flv => Mux::Flv(FlvMux::new(streams)),
            Format::Mpegts => Mux::Mpegts(TsMux::new(streams)),
            Format::Segment => Mux::segments(alloc, name, seg, streams),
        }
    }

    // A muxer of segments.
    fn segments(alloc: Global, name: &str, seg: Option<SegOptions>, streams: MuxStreams) -> Mux
        requires built { IsBuilt format.Segment seg name.now }
        requires streams { CanMux streams }
        ensures of { (g : Origin) → g.name ≡ name.now → g.format ≡ format.Segment → g.seg ≡ seg → g.streams ≡ streams → IsMuxOf g result }
        ensures number { number_in result ≡ start_of seg }
    {
        match (seg, Template::parse(name)) {
            (Some(options), Some(template)) => {
                Mux::Segment(template, SegMux::new(alloc, options, streams))
            }
            _ => unreachable!(),
        }
    }

    /// Begins a file of this name, or the first segment of a session. Where a list of segments is asked for, memory for an entry
    /// of it may be wanted before any call of the shelf.
    pub fn begin<S: Shelf>(&mut self, name: &str, shelf: &mut S) -> Result<(), ShelfFault>
        requires idle { (S.state shelf.old).writing ≡ false }
        ensures of { (g : Origin) → IsMuxOf g self.old → IsMuxOf g self.new }
        ensures after { (g : Origin) → IsMuxOf g self.old → IsOk result → MuxAfter g (number_in self.old) [] self.new }
        ensures open { IsOk result → (S.state shelf.new).writing ≡ true }
        ensures run { (g : Origin) → IsMuxOf g self.old → RunsOrWants g.seg (begin_of g.format g.streams (session_of g (number_in self.old)) name.now)
            result (number_in self.old) (number_in self.new) (S.state shelf.old) (S.state shelf.new) }
    {
        match self {
            Mux::Adts(mux) => mux.begin(name, shelf),
            Mux::Flv(mux) => mux.begin(name, shelf),
            Mux::Mpegts(mux) => mux.begin(name, shelf),
            Mux::Segment(template, mux) => mux.begin(template, shelf),
        }
    }

    /// Writes a packet and flushes the shelf. A refused flush is a refusal of the packet's last write. Memory for an entry of a
    /// list may be wanted as in `begin`.
    pub fn put<S: Shelf>(&mut self, p: &Packet, shelf: &mut Watched<S>) -> Result<(), ShelfFault>
        requires begun { (S.state (inner shelf.old)).writing ≡ true }
        requires fits { (g : Origin) × IsMuxOf g self.old × Fits (file_format g.format g.seg) g.streams p.now }
        ensures of { (g : Origin) → IsMuxOf g self.old → IsMuxOf g self.new }
        ensures after { (g : Origin) (first : ℕ) (before : List Packet) → IsMuxOf g self.old → MuxAfter g first before self.old → IsOk result
            → MuxAfter g first (before ++ p.now ∷ []) self.new }
        ensures open { IsOk result → (S.state (inner shelf.new)).writing ≡ true }
        ensures flushed { IsOk result → is_flushed shelf.new ≡ true }
        ensures run { (g : Origin) (first : ℕ) (before : List Packet) → IsMuxOf g self.old → MuxAfter g first before self.old
            → RunsOrWants g.seg (put_calls g first before p.now) result (number_in self.old) (number_in self.new) (S.state (inner shelf.old)) (S.state (inner shelf.new)) }
    {
        match self.write(p, shelf) {
            Ok(()) => shelf.flush(),
            Err(fault) => Err(fault),
        }
    }

    // Writes a packet.
    fn write<S: Shelf>(&mut self, p: &Packet, shelf: &mut S) -> Result<(), ShelfFault>
        requires begun { (S.state shelf.old).writing ≡ true }
        requires fits { (g : Origin) × IsMuxOf g self.old × Fits (file_format g.format g.seg) g.streams p.now }
        ensures of { (g : Origin) → IsMuxOf g self.old → IsMuxOf g self.new }
        ensures after { (g : Origin) (first : ℕ) (before : List Packet) → IsMuxOf g self.old → MuxAfter g first before self.old → IsOk result
            → MuxAfter g first (before ++ p.now ∷ []) self.new }
        ensures open { IsOk result → (S.state shelf.new).writing ≡ true }
        ensures run { (g : Origin) (first : ℕ) (before : List Packet) → IsMuxOf g self.old → MuxAfter g first before self.old
            → RunsOrWants g.seg (put_calls g first before p.now) result (number_in self.old) (number_in self.new) (S.state shelf.old) (S.state shelf.new) }
        ensures ends { (g : Origin) (first : ℕ) (before : List Packet) → IsMuxOf g self.old → EndsInWrite (put_calls g first before p.now) }
    {
        match self {
            Mux::Adts(mux) => mux.put(p, shelf),
            Mux::Flv(mux) => mux.put(p, shelf),
            Mux::Mpegts(mux) => mux.put(p, shelf),
            Mux::Segment(_, mux) => mux.put(p, shelf),
        }
    }

    /// Ends the file, or the last segment, behind which the list comes where one is asked for.
    pub fn end<S: Shelf>(&mut self, shelf: &mut S) -> Result<(), ShelfFault>
        requires begun { (S.state shelf.old).writing ≡ true }
        ensures number { number_in self.new ≡ number_in self.old }
        ensures idle { (g : Origin) (first : ℕ) (before : List Packet) → IsMuxOf g self.old → MuxAfter g first before self.old → (S.state shelf.new).writing ≡ false }
        ensures run { (g : Origin) (first : ℕ) (before : List Packet) → IsMuxOf g self.old → MuxAfter g first before self.old
            → Runs (end_calls g first before) result (S.state shelf.old) (S.state shelf.new) }
    {
        match self {
            Mux::Adts(mux) => mux.end(shelf),
            Mux::Flv(mux) => mux.end(shelf),
            Mux::Mpegts(mux) => mux.end(shelf),
            Mux::Segment(_, mux) => mux.end(shelf),
        }
    }
}
