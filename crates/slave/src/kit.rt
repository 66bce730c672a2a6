// What an output takes before it has its shelf: all the memory that its start may need.
ghost use Rattle.std.specs.Prelude.{◌≡◌, ◌≤◌, length, IfOk, string_bytes};
ghost use Rattle.rmx_media.specs.Streams.{CanMux};
ghost use Rattle.slave.specs.Calls.{IsBuilt};
ghost use Rattle.slave.specs.Origin.{video_of as video_in};

use crate::mux::Mux;
use crate::places::Places;
use crate::records::{FaultNote, Run, SessionNote};
use fifo_core::{FifoOptions, FifoState};
use playlist::SegOptions;
use rmx_media::{Format, Kind, MuxStreams, NoMemory};
use std::alloc::Global;

/// An output without its shelf. It has places for two runs, of which one is for want of memory alone, a session and a
/// fault.
#[derive(Drop)]
pub struct SlaveKit {
    pub(crate) name: String,
    pub(crate) video: Option<u32>,
    pub(crate) mux: Mux,
    pub(crate) fifo: FifoState,
    pub(crate) runs: Places<Run>,
    pub(crate) sessions: Places<SessionNote>,
    pub(crate) faults: Places<FaultNote>,
}

impl SlaveKit {
    ghost use Rattle.slave.specs.Prepared.{IsPrepared};

    /// Takes the memory. `seg` is there exactly where the format is Segment, and the name is a template then.
    pub fn new(
        alloc: Global,
        name: String,
        format: Format,
        seg: Option<SegOptions>,
        options: FifoOptions,
        streams: MuxStreams,
    ) -> Result<SlaveKit, NoMemory>
        requires short { length (string_bytes name) ≤ 200 }
        requires built { IsBuilt format seg (string_bytes name) }
        requires streams { CanMux streams }
        ensures prepared { IfOk result (λ kit. IsPrepared (string_bytes name) format seg options streams kit) }
    {
        let mut runs = Places::new(alloc);
        let mut sessions = Places::new(alloc);
        let mut faults = Places::new(alloc);
        runs.reserve(2)?;
        sessions.reserve(1)?;
        faults.reserve(1)?;
        let video = video_of(&streams);
        let mux = Mux::new(alloc, name.as_str(), format, seg, streams);
        Ok(SlaveKit {
            name,
            video,
            mux,
            fifo: FifoState::new(options),
            runs,
            sessions,
            faults,
        })
    }
}

// The number of the video stream, if there is one.
fn video_of(streams: &MuxStreams) -> Option<u32>
    ensures { result ≡ video_in streams.now.streams.items }
{
    match streams.streams.as_slice().first() {
        Some(stream) => match stream.info.kind {
            Kind::Video => Some(stream.stream),
            Kind::Audio => None,
        },
        None => None,
    }
}
