// All packets of the bytes at hand.
ghost use Rattle.std.specs.Prelude.{◌≡◌, ◌<◌, ◌^◌, List, ℕ, length};
ghost use Rattle.remux.specs.Lineup.{Lineup};
ghost use Rattle.flv_demux.specs.declared.deal.Kinds.{Kinds};
ghost use Rattle.remux.specs.Flow.{Flowing};
ghost use Rattle.remux.specs.Pumped.{Pumps};

use crate::demux::Demux;
use crate::give::hand_over;
use crate::outputs::Outputs;
use flv_demux::{DemuxFault, DemuxStep};
use flv_tags::TagFault;
use interleaver::Interleaver;
use tee::Fed;

/// Why no further packet is at hand.
#[derive(Clone, Copy, Debug, PartialEq, Eq)]
pub enum Pumped {
    More,
    End,
    Stop,
}

/// Why dealing with packets ended.
#[derive(Clone, Copy, Debug, PartialEq, Eq)]
pub enum PumpFault {
    Tag(TagFault),
    NoMemory,
}

/// Deals with all tags at hand, and gives the outputs all that may go of their packets.
pub fn pump<D: Demux, T: Outputs>(
    demux: &mut D,
    line: &mut Interleaver,
    outputs: &mut T,
) -> Result<Pumped, PumpFault>
    requires flows { (s : Kinds) × (b : List ℕ) × (start : Lineup) × Flowing s b (D.known demux.old) (D.has demux.old) line.old (T.keeps outputs.old start) (T.dead_at outputs.old) (T.takes outputs.old) × (length b < 2 ^ 61) }
    ensures pumps { (s : Kinds) (b : List ℕ) (start : Lineup) → (f : Flowing s b (D.known demux.old) (D.has demux.old) line.old (T.keeps outputs.old start) (T.dead_at outputs.old) (T.takes outputs.old))
        → Pumps result s b (length f.tags) (D.ended demux.old) (D.known demux.new) (D.has demux.new) line.new (T.keeps outputs.new start) (T.dead_at outputs.new) (T.takes outputs.new) }
    ensures ended { D.ended demux.new ≡ D.ended demux.old }
    ensures same { (line.new.streams ≡ line.old.streams) × (line.new.delta ≡ line.old.delta) }
{
    'packets: loop {
        match demux.next_packet() {
            Ok(DemuxStep::Packet(p)) => match hand_over(line, outputs, p) {
                Ok(Fed::More) => {}
                Ok(Fed::Stop) => return Ok(Pumped::Stop),
                Err(_) => return Err(PumpFault::NoMemory),
            },
            Ok(DemuxStep::NeedMore) => return Ok(Pumped::More),
            Ok(DemuxStep::End) => return Ok(Pumped::End),
            Err(DemuxFault::Tag(fault)) => return Err(PumpFault::Tag(fault)),
            Err(DemuxFault::NoStreams) => unreachable!(),
            Err(DemuxFault::NoMemory) => return Err(PumpFault::NoMemory),
        }
    }
}
