// Files of packets.
ghost use Rattle.std.specs.Prelude.{◌≡◌, ◌<◌, ◌≤◌, true, false, List, [], ◌∷◌, ◌++◌, length, OnOk};
ghost use Rattle.std.specs.Option.{ForSome};
ghost use Rattle.rmx_edge.specs.Pieces.{EndsInWrite};
ghost use Rattle.rmx_edge.specs.Run.{Runs};
ghost use Rattle.rmx_media.specs.declared.packet.Packet.{Packet as PacketOf};
ghost use Rattle.rmx_media.specs.Config.{IsReadAvc, IsReadAac};
ghost use Rattle.rmx_media.specs.Fits.{FitsLowered, IsPayload};
ghost use Rattle.rmx_media.specs.Streams.{CanMux};
ghost use Rattle.ts_mux.specs.File.{begin_calls, put_calls, end_calls};
ghost use Rattle.ts_mux.specs.Past.{track_of, with_tables, with_cells, step, tables_calls, cells_calls, calls_at};
ghost use Rattle.ts_mux.specs.Pes.{pes_of, video_head, delimited};
ghost use Rattle.ts_mux.specs.Timed.{at_times, packet_of};
ghost use Rattle.ts_mux.specs.Times.{IsTime};
ghost use Rattle.ts_mux.specs.Tables.{AreTables};

use crate::cadence::{last_after, tables_due};
use crate::cells::{Opening, write_cells};
use crate::fronts::{audio_front, video_front};
use crate::joined::Joined;
use crate::pes::clock_flags;
use crate::pieces::{Nothing, Source};
use crate::program::{is_first, video_of};
use crate::tables::Tables;
use crate::timed::Timed;
use crate::track::Track;
use avc_units::{annexb_len, annexb_pieces};
use rmx_edge::{Shelf, ShelfFault};
use rmx_media::{AacConfig, AvcConfig, Config, Form, Format, MuxStreams, Packet, is_restart};

/// A muxer for MPEG transport streams (ISO/IEC 13818-1): one program of the streams, its tables at the file's beginning,
/// before video key packets, where a configuration changes and every 100 ms, and each packet as a PES packet in cells of
/// 188 bytes. It takes no memory. After a refusal only `begin` may be called.
#[derive(Drop)]
pub struct TsMux {
    streams: MuxStreams,
    tables: Tables,
    // The dts of the packet at which tables were last written.
    last: Option<i64>,
    first: Track,
    second: Track,
    ghost ready: { AreTables streams.streams.items tables },
    ghost counter: { tables.counter < 16 },
    ghost last_near: { ForSome last IsTime },
    ghost first_below: { first.cells < 16 },
    ghost second_below: { second.cells < 16 },
}

impl TsMux {
    ghost use Rattle.ts_mux.specs.TsMux.{streams_of, list_of, past_of, Shows};

    /// A muxer for these streams.
    pub fn new(streams: MuxStreams) -> TsMux
        requires { CanMux streams }
        ensures { streams_of result ≡ streams }
    {
        TsMux {
            tables: Tables::new(streams.streams.as_slice()),
            streams,
            last: None,
            first: Track::new(),
            second: Track::new(),
        }
    }

    /// Begins a file of this name with its tables. The shelf may not be writing.
    pub fn begin<S: Shelf>(&mut self, name: &str, shelf: &mut S) -> Result<(), ShelfFault>
        requires { (S.state shelf.old).writing ≡ false }
        ensures streams { streams_of self.new ≡ streams_of self.old }
        ensures run { Runs (begin_calls (streams_of self.old) name.now) result (S.state shelf.old) (S.state shelf.new) }
        ensures open { OnOk result ((S.state shelf.new).writing ≡ true) }
        ensures shows { OnOk result (Shows self.new []) }
    {
        self.last = None;
        self.first = Track::new();
        self.second = Track::new();
        self.tables.counter = 0;
        match shelf.create(name) {
            Ok(()) => self.tables.write(shelf),
            Err(fault) => Err(fault),
        }
    }

    /// Writes a packet into the file that was begun: both tables, where they come before it, and its cells, each by one
    /// write. Its parameter sets or ADTS head are those of its own configuration.
    pub fn put<S: Shelf>(&mut self, p: &Packet, shelf: &mut S) -> Result<(), ShelfFault>
        requires begun { (S.state shelf.old).writing ≡ true }
        requires fits { FitsLowered Format.Mpegts (streams_of self.old) p.now }
        ensures streams { streams_of self.new ≡ streams_of self.old }
        ensures run { (before : List PacketOf) → Shows self.old before → Runs (put_calls (streams_of self.old) before p.now) result (S.state shelf.old) (S.state shelf.new) }
        ensures open { OnOk result ((S.state shelf.new).writing ≡ true) }
        ensures shows { OnOk result ((before : List PacketOf) → Shows self.old before → Shows self.new (before ++ p.now ∷ [])) }
        ensures ends { (before : List PacketOf) → EndsInWrite (put_calls (streams_of self.old) before p.now) }
    {
        self.put_at(p, p.dts, p.pts, shelf)
    }

    /// Writes a packet as `put` does, at these times in place of its own.
    pub fn put_at<S: Shelf>(
        &mut self,
        p: &Packet,
        dts: i64,
        pts: i64,
        shelf: &mut S,
    ) -> Result<(), ShelfFault>
        requires begun { (S.state shelf.old).writing ≡ true }
        requires fits { FitsLowered Format.Mpegts (streams_of self.old) (at_times dts pts p.now) }
        ensures streams { streams_of self.new ≡ streams_of self.old }
        ensures run { (before : List PacketOf) → Shows self.old before → Runs (put_calls (streams_of self.old) before (at_times dts pts p.now)) result (S.state shelf.old) (S.state shelf.new) }
        ensures open { OnOk result ((S.state shelf.new).writing ≡ true) }
        ensures shows { OnOk result ((before : List PacketOf) → Shows self.old before → Shows self.new (before ++ at_times dts pts p.now ∷ [])) }
        ensures ends { (before : List PacketOf) → EndsInWrite (put_calls (streams_of self.old) before (at_times dts pts p.now)) }
    {
        let timed = Timed {
            packet: p,
            dts,
            pts,
        };
        self.put_packet(&timed, shelf)
    }

    /// Ends the file that was begun.
    #[tactic(auto, using(rmx_edge::proofs::Run::runs_one))]
    pub fn end<S: Shelf>(&mut self, shelf: &mut S) -> Result<(), ShelfFault>
        requires { (S.state shelf.old).writing ≡ true }
        ensures streams { streams_of self.new ≡ streams_of self.old }
        ensures run { Runs end_calls result (S.state shelf.old) (S.state shelf.new) }
    {
        shelf.close()
    }

    /// The streams that it was made for.
    #[cfg(test)]
    pub(crate) fn streams(&self) -> &MuxStreams
        ensures { result.now ≡ streams_of self.now }
    {
        &self.streams
    }

    // What there is of the PID of that stream.
    fn track(&self, number: u32) -> Track
        ensures { result ≡ track_of (list_of self.now) number (past_of self.now) }
    {
        if is_first(self.streams.streams.as_slice(), number) {
            self.first
        } else {
            self.second
        }
    }

    // Writes a packet, and passes it.
    fn put_packet<S: Shelf>(&mut self, timed: &Timed, shelf: &mut S) -> Result<(), ShelfFault>
        requires begun { (S.state shelf.old).writing ≡ true }
        requires fits { FitsLowered Format.Mpegts (streams_of self.old) (packet_of timed.now) }
        ensures streams { streams_of self.new ≡ streams_of self.old }
        ensures run { Runs (calls_at (list_of self.old) (past_of self.old) (packet_of timed.now)) result (S.state shelf.old) (S.state shelf.new) }
        ensures open { OnOk result ((S.state shelf.new).writing ≡ true) }
        ensures past { OnOk result (past_of self.new ≡ step (list_of self.old) (past_of self.old) (packet_of timed.now)) }
    {
        match self.put_tables(timed, shelf) {
            Ok(()) => {}
            Err(fault) => return Err(fault),
        }
        match &timed.packet.config {
            Config::Avc(config) => self.put_video(timed, config, shelf),
            Config::Aac(config) => self.put_audio(timed, config, shelf),
        }
    }

    // Writes the tables, where they come before a packet.
    fn put_tables<S: Shelf>(&mut self, timed: &Timed, shelf: &mut S) -> Result<(), ShelfFault>
        requires begun { (S.state shelf.old).writing ≡ true }
        requires dts { IsTime timed.now.dts }
        ensures streams { streams_of self.new ≡ streams_of self.old }
        ensures run { Runs (tables_calls (list_of self.old) (past_of self.old) (packet_of timed.now)) result (S.state shelf.old) (S.state shelf.new) }
        ensures open { OnOk result ((S.state shelf.new).writing ≡ true) }
        ensures past { OnOk result (past_of self.new ≡ with_tables (list_of self.old) (packet_of timed.now) (past_of self.old)) }
    {
        let changed = timed.packet.version != self.track(timed.packet.stream).version;
        let due = tables_due(self.last, changed, timed);
        self.last = last_after(self.last, changed, timed);
        if due {
            return self.tables.write(shelf);
        }
        Ok(())
    }

    // Writes the cells of a video packet.
    fn put_video<S: Shelf>(
        &mut self,
        timed: &Timed,
        config: &AvcConfig,
        shelf: &mut S,
    ) -> Result<(), ShelfFault>
        requires begun { (S.state shelf.old).writing ≡ true }
        requires pts { IsTime timed.now.pts }
        requires dts { IsTime timed.now.dts }
        requires config { timed.now.packet.now.config ≡ Config.Avc config.now }
        requires read { IsReadAvc config.now }
        requires payload { IsPayload (Config.Avc config.now) timed.now.packet.now.form timed.now.packet.now.payload }
        requires size { length timed.now.packet.now.payload ≤ 4294967295 }
        ensures streams { streams_of self.new ≡ streams_of self.old }
        ensures run { Runs (cells_calls (list_of self.old) (past_of self.old) (packet_of timed.now)) result (S.state shelf.old) (S.state shelf.new) }
        ensures open { OnOk result ((S.state shelf.new).writing ≡ true) }
        ensures past { OnOk result (past_of self.new ≡ with_cells (list_of self.old) (packet_of timed.now) (past_of self.old)) }
    {
        let payload = timed.packet.payload.as_slice();
        match timed.packet.form {
            Form::Native => {
                let size = annexb_len(payload, config) as usize;
                let mut units = Joined {
                    current: &[],
                    pieces: annexb_pieces(payload, config),
                };
                self.put_units(timed, size, &mut units, shelf)
            }
            _ => {
                let mut units = Joined {
                    current: payload,
                    pieces: Nothing,
                };
                self.put_units(timed, payload.len(), &mut units, shelf)
            }
        }
    }

    // Writes the cells of a video packet with these units, which begin with a start code.
    fn put_units<'a, P: Source<'a>, S: Shelf>(
        &mut self,
        timed: &Timed,
        size: usize,
        units: &mut Joined<'a, P>,
        shelf: &mut S,
    ) -> Result<(), ShelfFault>
        requires begun { (S.state shelf.old).writing ≡ true }
        requires pts { IsTime timed.now.pts }
        requires dts { IsTime timed.now.dts }
        requires size { length (units.old.current.now ++ P.left units.old.pieces) ≡ size }
        requires some { 5 ≤ size }
        requires pes { pes_of (packet_of timed.now) ≡ video_head timed.now.pts timed.now.dts ++ delimited (units.old.current.now ++ P.left units.old.pieces) }
        ensures streams { streams_of self.new ≡ streams_of self.old }
        ensures run { Runs (cells_calls (list_of self.old) (past_of self.old) (packet_of timed.now)) result (S.state shelf.old) (S.state shelf.new) }
        ensures open { OnOk result ((S.state shelf.new).writing ≡ true) }
        ensures past { OnOk result (past_of self.new ≡ with_cells (list_of self.old) (packet_of timed.now) (past_of self.old)) }
    {
        let mut start = [0; 5];
        units.fill(&mut start);
        let front = video_front(timed.pts, timed.dts, &start);
        self.put_cells(timed, front.as_slice(), size - 5, units, shelf)
    }

    // Writes the cells of an audio packet.
    fn put_audio<S: Shelf>(
        &mut self,
        timed: &Timed,
        config: &AacConfig,
        shelf: &mut S,
    ) -> Result<(), ShelfFault>
        requires begun { (S.state shelf.old).writing ≡ true }
        requires pts { IsTime timed.now.pts }
        requires dts { IsTime timed.now.dts }
        requires config { timed.now.packet.now.config ≡ Config.Aac config.now }
        requires read { IsReadAac config.now }
        requires payload { IsPayload (Config.Aac config.now) timed.now.packet.now.form timed.now.packet.now.payload }
        ensures streams { streams_of self.new ≡ streams_of self.old }
        ensures run { Runs (cells_calls (list_of self.old) (past_of self.old) (packet_of timed.now)) result (S.state shelf.old) (S.state shelf.new) }
        ensures open { OnOk result ((S.state shelf.new).writing ≡ true) }
        ensures past { OnOk result (past_of self.new ≡ with_cells (list_of self.old) (packet_of timed.now) (past_of self.old)) }
    {
        let front = audio_front(timed, config);
        let payload = timed.packet.payload.as_slice();
        let mut rest = Joined {
            current: payload,
            pieces: Nothing,
        };
        self.put_cells(timed, front.as_slice(), payload.len(), &mut rest, shelf)
    }

    // Writes the cells of a packet, and counts them.
    fn put_cells<'a, P: Source<'a>, S: Shelf>(
        &mut self,
        timed: &Timed,
        head: &[u8],
        size: usize,
        bytes: &mut Joined<'a, P>,
        shelf: &mut S,
    ) -> Result<(), ShelfFault>
        requires begun { (S.state shelf.old).writing ≡ true }
        requires dts { IsTime timed.now.dts }
        requires head { length head.now ≤ 32 }
        requires size { length (bytes.old.current.now ++ P.left bytes.old.pieces) ≡ size }
        requires pes { pes_of (packet_of timed.now) ≡ head.now ++ (bytes.old.current.now ++ P.left bytes.old.pieces) }
        ensures streams { streams_of self.new ≡ streams_of self.old }
        ensures run { Runs (cells_calls (list_of self.old) (past_of self.old) (packet_of timed.now)) result (S.state shelf.old) (S.state shelf.new) }
        ensures open { OnOk result ((S.state shelf.new).writing ≡ true) }
        ensures past { OnOk result (past_of self.new ≡ with_cells (list_of self.old) (packet_of timed.now) (past_of self.old)) }
    {
        let streams = self.streams.streams.as_slice();
        if is_first(streams, timed.packet.stream) {
            let flags = clock_flags(is_restart(timed.packet, video_of(streams)), timed.dts);
            let opening = Opening {
                pid: 0x100,
                flags: &flags,
                room: 176,
                head,
            };
            self.first.version = timed.packet.version;
            return write_cells(shelf, &opening, &mut self.first.cells, size, bytes);
        }
        let opening = Opening {
            pid: 0x101,
            flags: &[0],
            room: 184,
            head,
        };
        self.second.version = timed.packet.version;
        write_cells(shelf, &opening, &mut self.second.cells, size, bytes)
    }
}
