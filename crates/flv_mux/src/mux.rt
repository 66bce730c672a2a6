// Files of FLV.
ghost use Rattle.std.specs.Prelude.{◌≡◌, ◌≢◌, ◌<◌, ◌^◌, ℕ, length, IsSome, if◌then◌else◌};
ghost use Rattle.std.specs.List.{All};
ghost use Rattle.std.specs.Option.{ForSome};
ghost use Rattle.rmx_media.specs.Config.{kind_of};
ghost use Rattle.flv_mux.specs.Flv.{is_video, config_size};
ghost use Rattle.rmx_media.specs.Streams.{kind_in};

use crate::head::write_head;
use crate::kinds::is_avc;
use crate::packet::{write_packet, write_tail};
use crate::timed::Timed;
use crate::track::{Track, tracks};
use rmx_edge::{Shelf, ShelfFault};
use rmx_media::{MuxStreams, Packet};

/// A muxer for FLV: the script, the configurations and the packets of a file as tags. A configuration that changes
/// in mid-stream goes in front of the first packet that it is in force for. It takes no memory.
#[derive(Drop)]
pub struct FlvMux {
    streams: MuxStreams,
    first: Track,
    second: Track,
    video_time: i64,
    ghost some: { 0 < length streams.streams.items },
    ghost few: { length streams.streams.items < 3 },
    ghost small: { All (λ s. config_size s.info.config < 2 ^ 24) streams.streams.items },
    ghost script: { ForSome streams.script (λ body. length body < 2 ^ 24) },
    ghost tracked: { (n : ℕ) → IsSome (kind_in streams.streams.items n) → n ≢ first.stream → n ≡ second.stream },
}

impl FlvMux {
    ghost use Rattle.std.specs.Prelude.{List, [], ◌∷◌, ◌++◌, ◌==◌, not, true, false, OnOk};
    ghost use Rattle.rmx_edge.specs.Pieces.{EndsInWrite};
    ghost use Rattle.rmx_edge.specs.Run.{Runs};
    ghost use Rattle.rmx_media.specs.declared.packet.Packet.{Packet};
    ghost use Rattle.rmx_media.specs.declared.packet.Format.TheVariants.{Flv};
    ghost use Rattle.rmx_media.specs.Fits.{FitsLowered};
    ghost use Rattle.rmx_media.specs.Streams.{CanMux};
    ghost use Rattle.flv_mux.specs.Flv.{begin_calls, put_calls, end_calls, version_in};
    ghost use Rattle.flv_mux.specs.FlvMux.{streams_of, Shows};
    ghost use Rattle.flv_mux.specs.Timed.{at_times, packet_of};

    /// A muxer for these streams.
    pub fn new(streams: MuxStreams) -> FlvMux
        requires { CanMux streams }
        ensures { streams_of result ≡ streams }
    {
        let (first, second) = tracks(streams.streams.as_slice());
        FlvMux {
            streams,
            first,
            second,
            video_time: 0,
        }
    }

    /// Begins a file of this name with its head. The shelf may not be writing.
    pub fn begin<S: Shelf>(&mut self, name: &str, shelf: &mut S) -> Result<(), ShelfFault>
        requires { (S.state shelf.old).writing ≡ false }
        ensures streams { streams_of self.new ≡ streams_of self.old }
        ensures run { Runs (begin_calls (streams_of self.old) name.now) result (S.state shelf.old) (S.state shelf.new) }
        ensures open { OnOk result ((S.state shelf.new).writing ≡ true) }
        ensures shows { Shows self.new [] }
    {
        self.first.version = 0;
        self.second.version = 0;
        self.video_time = 0;
        match shelf.create(name) {
            Ok(()) => write_head(shelf, &self.streams),
            Err(fault) => Err(fault),
        }
    }

    /// Writes a packet into the file that was begun, behind its configuration where that changed.
    pub fn put<S: Shelf>(&mut self, p: &Packet, shelf: &mut S) -> Result<(), ShelfFault>
        requires begun { (S.state shelf.old).writing ≡ true }
        requires fits { FitsLowered Flv (streams_of self.old) p.now }
        ensures streams { streams_of self.new ≡ streams_of self.old }
        ensures run { (before : List Packet) → Shows self.old before → Runs (put_calls before p.now) result (S.state shelf.old) (S.state shelf.new) }
        ensures open { OnOk result ((S.state shelf.new).writing ≡ true) }
        ensures shows { (before : List Packet) → Shows self.old before → Shows self.new (before ++ p.now ∷ []) }
        ensures ends { (before : List Packet) → EndsInWrite (put_calls before p.now) }
    {
        self.put_at(p, p.dts, p.pts, shelf)
    }

    /// Writes a packet as `put` does, at these times in place of its own.
    pub fn put_at<S: Shelf>(
        &mut self,
        p: &Packet,
        dts: i64,
        pts: i64,
        shelf: &mut S,
    ) -> Result<(), ShelfFault>
        requires begun { (S.state shelf.old).writing ≡ true }
        requires fits { FitsLowered Flv (streams_of self.old) (at_times dts pts p.now) }
        ensures streams { streams_of self.new ≡ streams_of self.old }
        ensures run { (before : List Packet) → Shows self.old before → Runs (put_calls before (at_times dts pts p.now)) result (S.state shelf.old) (S.state shelf.new) }
        ensures open { OnOk result ((S.state shelf.new).writing ≡ true) }
        ensures shows { (before : List Packet) → Shows self.old before → Shows self.new (before ++ at_times dts pts p.now ∷ []) }
        ensures ends { (before : List Packet) → EndsInWrite (put_calls before (at_times dts pts p.now)) }
    {
        let timed = Timed {
            packet: p,
            dts,
            pts,
        };
        let changed = self.is_changed(p);
        self.pass(&timed);
        write_packet(shelf, &timed, changed)
    }

    /// Ends the file that was begun, with the end of the sequence where it has video.
    pub fn end<S: Shelf>(&mut self, shelf: &mut S) -> Result<(), ShelfFault>
        requires { (S.state shelf.old).writing ≡ true }
        ensures streams { streams_of self.new ≡ streams_of self.old }
        ensures run { (all : List Packet) → Shows self.old all → Runs (end_calls (streams_of self.old) all) result (S.state shelf.old) (S.state shelf.new) }
        ensures idle { (S.state shelf.new).writing ≡ false }
    {
        match write_tail(shelf, &self.streams, self.video_time) {
            Ok(()) => shelf.close(),
            Err(fault) => Err(fault),
        }
    }

    // Whether another configuration than the last one of its stream is in force for a packet.
    fn is_changed(&self, p: &Packet) -> bool
        requires { IsSome (kind_in self.now.streams.streams.items p.now.stream) }
        ensures { (before : List Packet) → Shows self.now before → result ≡ not (p.now.version == version_in p.now.stream before) }
    {
        if p.stream == self.first.stream {
            return p.version != self.first.version;
        }
        p.version != self.second.version
    }

    // The muxer behind one more packet.
    fn pass(&mut self, p: &Timed)
        ensures streams { self.new.streams ≡ self.old.streams }
        ensures shows { (before : List Packet) → Shows self.old before → Shows self.new (before ++ packet_of p.now ∷ []) }
    {
        self.first = self.first.past(p.packet);
        self.second = self.second.past(p.packet);
        self.video_time = time_past(self.video_time, p);
    }
}

// The time of the last video packet, behind one more packet.
fn time_past(time: i64, p: &Timed) -> i64
    ensures { result ≡ (if is_video (kind_of p.now.packet.now.config) then p.now.dts else time) }
{
    let video = is_avc(&p.packet.config);
    if video { p.dts } else { time }
}
