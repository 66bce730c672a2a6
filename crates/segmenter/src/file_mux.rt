// The muxer of one file, by its format. A further format is one more variant here and one more line in each definition of
// specs/FileMux.antt.
ghost use Rattle.std.specs.Prelude.{◌≡◌, ◌∷◌, ◌++◌, [], true, false, List, Some, IsOk};
ghost use Rattle.rmx_edge.specs.Run.{Runs};
ghost use Rattle.rmx_edge.specs.Pieces.{EndsInWrite};
ghost use Rattle.rmx_media.specs.Fits.{FitsLowered};
ghost use Rattle.rmx_media.specs.Streams.{CanMux};
ghost use Rattle.rmx_media.specs.declared.packet.Format.{Format as FormatOf};
ghost use Rattle.rmx_media.specs.declared.packet.Packet.{Packet as PacketOf};
ghost use Rattle.rmx_media.specs.declared.streams.MuxStreams.{MuxStreams as MuxStreamsOf};

use aac_adts::AdtsMux;
use flv_mux::FlvMux;
use rmx_edge::{Shelf, ShelfFault};
use rmx_media::{Format, MuxStreams, Packet};
use ts_mux::TsMux;

/// A muxer of one file at a time. It takes no memory.
#[derive(Drop)]
pub enum FileMux {
    Adts(AdtsMux),
    Flv(FlvMux),
    Mpegts(TsMux),
}

impl FileMux {
    ghost use Rattle.segmenter.specs.FileMux.{IsFile, begin_of, put_of, end_of, IsFileMuxOf, FileAfter};
    ghost use Rattle.segmenter.specs.Times.{lowered_by};

    /// A muxer for files of this format. Files of segments are none.
    pub fn new(format: Format, streams: MuxStreams) -> FileMux
        requires file { IsFile format }
        requires streams { CanMux streams }
        ensures { IsFileMuxOf format streams result }
    {
        match format {
            Format::Adts => FileMux::Adts(AdtsMux::new(streams)),
            Format::Flv => FileMux::Flv(FlvMux::new(streams)),
            Format::Mpegts => FileMux::Mpegts(TsMux::new(streams)),
            Format::Segment => unreachable!(),
        }
    }

    /// Begins a file of this name. The shelf may not be writing.
    pub fn begin<S: Shelf>(&mut self, name: &str, shelf: &mut S) -> Result<(), ShelfFault>
        requires idle { (S.state shelf.old).writing ≡ false }
        ensures of { (f : FormatOf) (streams : MuxStreamsOf) → IsFileMuxOf f streams self.old → IsFileMuxOf f streams self.new }
        ensures after { IsOk result → FileAfter [] self.new }
        ensures open { IsOk result → (S.state shelf.new).writing ≡ true }
        ensures run { (f : FormatOf) (streams : MuxStreamsOf) → IsFileMuxOf f streams self.old
            → Runs (begin_of f streams name.now) result (S.state shelf.old) (S.state shelf.new) }
    {
        match self {
            FileMux::Adts(mux) => mux.begin(name, shelf),
            FileMux::Flv(mux) => mux.begin(name, shelf),
            FileMux::Mpegts(mux) => mux.begin(name, shelf),
        }
    }

    /// Writes a packet into the file that was begun.
    pub fn put<S: Shelf>(&mut self, p: &Packet, shelf: &mut S) -> Result<(), ShelfFault>
        requires begun { (S.state shelf.old).writing ≡ true }
        requires fits { (f : FormatOf) × (streams : MuxStreamsOf) × IsFileMuxOf f streams self.old × FitsLowered f streams p.now }
        ensures of { (f : FormatOf) (streams : MuxStreamsOf) → IsFileMuxOf f streams self.old → IsFileMuxOf f streams self.new }
        ensures after { (before : List PacketOf) → FileAfter before self.old → IsOk result → FileAfter (before ++ p.now ∷ []) self.new }
        ensures open { IsOk result → (S.state shelf.new).writing ≡ true }
        ensures run { (f : FormatOf) (streams : MuxStreamsOf) (before : List PacketOf) → IsFileMuxOf f streams self.old → FileAfter before self.old
            → Runs (put_of f streams before p.now) result (S.state shelf.old) (S.state shelf.new) }
        ensures ends { (f : FormatOf) (streams : MuxStreamsOf) (before : List PacketOf) → IsFileMuxOf f streams self.old → EndsInWrite (put_of f streams before p.now) }
    {
        match self {
            FileMux::Adts(mux) => mux.put(p, shelf),
            FileMux::Flv(mux) => mux.put(p, shelf),
            FileMux::Mpegts(mux) => mux.put(p, shelf),
        }
    }

    /// Writes a packet as `put` does, with its times lowered by so much.
    pub fn put_lowered<S: Shelf>(
        &mut self,
        p: &Packet,
        by: i64,
        shelf: &mut S,
    ) -> Result<(), ShelfFault>
        requires begun { (S.state shelf.old).writing ≡ true }
        requires fits { (f : FormatOf) × (streams : MuxStreamsOf) × IsFileMuxOf f streams self.old
            × FitsLowered f streams p.now × FitsLowered f streams (lowered_by (Some by) p.now) }
        ensures of { (f : FormatOf) (streams : MuxStreamsOf) → IsFileMuxOf f streams self.old → IsFileMuxOf f streams self.new }
        ensures after { (before : List PacketOf) → FileAfter before self.old → IsOk result → FileAfter (before ++ lowered_by (Some by) p.now ∷ []) self.new }
        ensures open { IsOk result → (S.state shelf.new).writing ≡ true }
        ensures run { (f : FormatOf) (streams : MuxStreamsOf) (before : List PacketOf) → IsFileMuxOf f streams self.old → FileAfter before self.old
            → Runs (put_of f streams before (lowered_by (Some by) p.now)) result (S.state shelf.old) (S.state shelf.new) }
        ensures ends { (f : FormatOf) (streams : MuxStreamsOf) (before : List PacketOf) → IsFileMuxOf f streams self.old
            → EndsInWrite (put_of f streams before (lowered_by (Some by) p.now)) }
    {
        match self {
            // Frames have no times.
            FileMux::Adts(mux) => mux.put(p, shelf),
            FileMux::Flv(mux) => mux.put_at(p, p.dts - by, p.pts - by, shelf),
            FileMux::Mpegts(mux) => mux.put_at(p, p.dts - by, p.pts - by, shelf),
        }
    }

    /// Ends the file that was begun.
    pub fn end<S: Shelf>(&mut self, shelf: &mut S) -> Result<(), ShelfFault>
        requires begun { (S.state shelf.old).writing ≡ true }
        ensures of { (f : FormatOf) (streams : MuxStreamsOf) → IsFileMuxOf f streams self.old → IsFileMuxOf f streams self.new }
        ensures idle { (S.state shelf.new).writing ≡ false }
        ensures run { (f : FormatOf) (streams : MuxStreamsOf) (before : List PacketOf) → IsFileMuxOf f streams self.old → FileAfter before self.old
            → Runs (end_of f streams before) result (S.state shelf.old) (S.state shelf.new) }
    {
        match self {
            FileMux::Adts(mux) => mux.end(shelf),
            FileMux::Flv(mux) => mux.end(shelf),
            FileMux::Mpegts(mux) => mux.end(shelf),
        }
    }
}
