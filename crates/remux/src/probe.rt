// Looking for the streams of an input.
ghost use Rattle.std.specs.Prelude.{◌≡◌, ◌+◌, ◌<◌, ◌≤◌, [], None, true, false, length, List, ℕ};
ghost use Rattle.remux.specs.Finding.{Finding, LateProbe, Looks, SeeksOn};
ghost use Rattle.rmx_edge.specs.Inputs.{InputState};
ghost use Rattle.remux.specs.Demuxed.{Waits};
ghost use Rattle.remux.specs.Took.{StaysSound, Took};

use crate::demux::Demux;
use crate::take::{TakeFault, Taken, take_piece};
use flv_demux::{DemuxFault, DemuxStep};
use flv_tags::TagFault;
use rmx_edge::Inputs;
use rmx_media::Packet;

/// How far an input was read.
#[derive(Clone, Copy, Debug, PartialEq, Eq)]
pub enum Reached {
    More,
    End,
    Limit,
}

/// What one look at the tags at hand gives.
#[derive(Drop)]
pub enum Looked {
    /// The streams are known; a packet may have come with them.
    Found(Option<Packet>),
    Wait,
}

/// The streams are known.
#[derive(Drop)]
pub struct Found {
    /// The packet that came with them.
    pub first: Option<Packet>,
    pub reached: Reached,
    /// How many more bytes may be taken.
    pub left: u64,
}

/// Why no streams were found.
#[derive(Clone, Copy, Debug, PartialEq, Eq)]
pub enum Unfound {
    NotFlv,
    BadOffset,
    NoStreams,
    InputFault,
    NoMemory,
}

// Looks at the tags at hand.
fn look<D: Demux>(demux: &mut D) -> Result<Looked, Unfound>
    requires unknown { D.known demux.old ≡ None }
    requires some { (b : List ℕ) × D.has demux.old b [] }
    ensures looks { (b : List ℕ) → D.has demux.old b [] → Looks result b (D.ended demux.old) (D.known demux.new) (D.has demux.new b) }
    ensures ended { D.ended demux.new ≡ D.ended demux.old }
{
    match demux.next_packet() {
        Ok(DemuxStep::Packet(p)) => Ok(Looked::Found(Some(p))),
        Ok(DemuxStep::NeedMore) => {
            if demux.knows() {
                Ok(Looked::Found(None))
            } else {
                Ok(Looked::Wait)
            }
        }
        Ok(DemuxStep::End) => Ok(Looked::Found(None)),
        Err(DemuxFault::Tag(TagFault::NotFlv)) => Err(Unfound::NotFlv),
        Err(DemuxFault::Tag(TagFault::BadOffset)) => Err(Unfound::BadOffset),
        Err(DemuxFault::Tag(TagFault::CutTag)) => Ok(Looked::Found(None)),
        Err(DemuxFault::Tag(TagFault::NoMemory)) => unreachable!(),
        Err(DemuxFault::NoStreams) => Err(Unfound::NoStreams),
        Err(DemuxFault::NoMemory) => Err(Unfound::NoMemory),
    }
}

/// How far a search came.
#[derive(Clone, Copy)]
pub struct Progress {
    pub reached: Reached,
    pub left: u64,
}

// Takes the next piece where the streams aren't known yet.
fn seek_on<I: Inputs, D: Demux>(
    inputs: &mut I,
    demux: &mut D,
    buf: &mut [u8],
    left: u64,
) -> Result<Progress, Unfound>
    requires readable { (I.state inputs.old).readable ≡ true }
    requires room { 0 < length buf.old }
    requires small { length buf.old ≤ 65536 }
    requires unended { D.ended demux.old ≡ false }
    ensures seeks { (limit : ℕ) (start : InputState) (b : List ℕ) → length b + left ≡ limit → Took b start (I.state inputs.old) → LateProbe b
        → Waits b (D.ended demux.old) (D.known demux.old) (D.has demux.old b) → start.faults ≤ (I.state inputs.old).faults
        → SeeksOn result limit start (I.state inputs.new) (D.ended demux.new) (D.known demux.new) (D.has demux.new) }
    ensures sound { StaysSound (I.state inputs.old) (I.state inputs.new) }
    ensures count { (I.state inputs.old).faults ≤ (I.state inputs.new).faults }
{
    match take_piece(inputs, demux, buf, left) {
        Ok(Taken::Bytes(count)) => Ok(Progress {
            reached: Reached::More,
            left: left - count as u64,
        }),
        Ok(Taken::End) => Ok(Progress {
            reached: Reached::End,
            left,
        }),
        Ok(Taken::Limit) => {
            demux.finish();
            Ok(Progress {
                reached: Reached::Limit,
                left,
            })
        }
        Err(TakeFault::Failed) => Err(Unfound::InputFault),
        Err(TakeFault::NoMemory) => Err(Unfound::NoMemory),
    }
}

/// Reads, at most `limit` bytes, until it is known which streams an input has.
pub fn find_streams<I: Inputs, D: Demux>(
    inputs: &mut I,
    demux: &mut D,
    buf: &mut [u8],
    limit: u64,
) -> Result<Found, Unfound>
    requires readable { (I.state inputs.old).readable ≡ true }
    requires room { 0 < length buf.old }
    requires small { length buf.old ≤ 65536 }
    requires nine { 9 ≤ limit }
    requires unended { D.ended demux.old ≡ false }
    requires unknown { D.known demux.old ≡ None }
    requires fresh { D.has demux.old [] [] }
    ensures finding { Finding result limit (I.state inputs.old) (I.state inputs.new) (D.ended demux.new) (D.known demux.new) (D.has demux.new) }
    ensures sound { StaysSound (I.state inputs.old) (I.state inputs.new) }
    ensures count { (I.state inputs.old).faults ≤ (I.state inputs.new).faults }
{
    let mut progress = Progress {
        reached: Reached::More,
        left: limit,
    };
    for _ in 0..u64::MAX {
        match look(demux) {
            Ok(Looked::Found(first)) => {
                return Ok(Found {
                    first,
                    reached: progress.reached,
                    left: progress.left,
                });
            }
            Ok(Looked::Wait) => {}
            Err(fault) => return Err(fault),
        }
        match seek_on(inputs, demux, buf, progress.left) {
            Ok(further) => progress = further,
            Err(fault) => return Err(fault),
        }
    }
    Err(Unfound::NoMemory)
}
