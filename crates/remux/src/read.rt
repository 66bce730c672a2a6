// Reading an input on.
ghost use Rattle.std.specs.Prelude.{◌≡◌, ◌+◌, ◌<◌, ◌≤◌, ◌^◌, true, false, length, List, ℕ};
ghost use Rattle.remux.specs.Lineup.{Lineup};
ghost use Rattle.flv_demux.specs.declared.deal.Kinds.{Kinds};
ghost use Rattle.remux.specs.Flow.{Flowing};
ghost use Rattle.remux.specs.Reading.{Drains, Late, Ends};
ghost use Rattle.remux.specs.Took.{StaysSound};

use crate::demux::Demux;
use crate::outputs::Outputs;
use crate::pump::{PumpFault, Pumped, pump};
use crate::take::{TakeFault, Taken, take_piece};
use interleaver::Interleaver;
use rmx_edge::Inputs;

/// How a reading ended.
#[derive(Clone, Copy, Debug, PartialEq, Eq)]
pub enum ReadEnd {
    /// At the end of a whole text.
    Whole,
    /// At the end of a text that is cut inside a tag.
    Cut,
    /// As many bytes were taken as may be.
    Limit,
    InputFault,
    /// The outputs want no more.
    Stop,
    NoMemory,
}

/// Reads on, at most `limit` bytes, and hands over all packets, until the outputs want no more.
pub fn read_on<I: Inputs, D: Demux, T: Outputs>(
    inputs: &mut I,
    demux: &mut D,
    line: &mut Interleaver,
    outputs: &mut T,
    buf: &mut [u8],
    limit: u64,
) -> ReadEnd
    requires readable { (I.state inputs.old).readable ≡ true }
    requires room { 0 < length buf.old }
    requires small { length buf.old ≤ 65536 }
    requires unended { D.ended demux.old ≡ false }
    requires flows { (s : Kinds) × (b : List ℕ) × (start : Lineup) × Flowing s b (D.known demux.old) (D.has demux.old) line.old (T.keeps outputs.old start) (T.dead_at outputs.old) (T.takes outputs.old) × (length b + limit < 2 ^ 61) }
    ensures ends { (s : Kinds) (b : List ℕ) (start : Lineup) → (f : Flowing s b (D.known demux.old) (D.has demux.old) line.old (T.keeps outputs.old start) (T.dead_at outputs.old) (T.takes outputs.old)) → Late b (length f.tags)
        → Ends result s b limit (I.state inputs.old) (I.state inputs.new) (D.known demux.new) (D.has demux.new) line.new (T.keeps outputs.new start) (T.dead_at outputs.new) (T.takes outputs.new) }
    ensures sound { StaysSound (I.state inputs.old) (I.state inputs.new) }
    ensures count { (I.state inputs.old).faults ≤ (I.state inputs.new).faults }
    ensures same { (line.new.streams ≡ line.old.streams) × (line.new.delta ≡ line.old.delta) }
{
    let mut left = limit;
    for _ in 0..u64::MAX {
        match pump(demux, line, outputs) {
            Ok(Pumped::More) => {}
            Ok(Pumped::Stop) => return ReadEnd::Stop,
            Ok(Pumped::End) => unreachable!(),
            Err(PumpFault::Tag(_)) => unreachable!(),
            Err(PumpFault::NoMemory) => return ReadEnd::NoMemory,
        }
        match take_piece(inputs, demux, buf, left) {
            Ok(Taken::Bytes(count)) => left -= count as u64,
            Ok(Taken::End) => return drain(demux, line, outputs),
            Ok(Taken::Limit) => return ReadEnd::Limit,
            Err(TakeFault::Failed) => return ReadEnd::InputFault,
            Err(TakeFault::NoMemory) => return ReadEnd::NoMemory,
        }
    }
    ReadEnd::NoMemory
}

/// Hands over what is left where the end was told.
pub fn drain<D: Demux, T: Outputs>(
    demux: &mut D,
    line: &mut Interleaver,
    outputs: &mut T,
) -> ReadEnd
    requires ended { D.ended demux.old ≡ true }
    requires flows { (s : Kinds) × (b : List ℕ) × (start : Lineup) × Flowing s b (D.known demux.old) (D.has demux.old) line.old (T.keeps outputs.old start) (T.dead_at outputs.old) (T.takes outputs.old) × (length b < 2 ^ 61) }
    ensures drains { (s : Kinds) (b : List ℕ) (start : Lineup) → (f : Flowing s b (D.known demux.old) (D.has demux.old) line.old (T.keeps outputs.old start) (T.dead_at outputs.old) (T.takes outputs.old))
        → Drains result s b (length f.tags) (D.known demux.new) (D.has demux.new) line.new (T.keeps outputs.new start) (T.dead_at outputs.new) (T.takes outputs.new) }
    ensures same { (line.new.streams ≡ line.old.streams) × (line.new.delta ≡ line.old.delta) }
{
    match pump(demux, line, outputs) {
        Ok(Pumped::End) => ReadEnd::Whole,
        Ok(Pumped::More) => unreachable!(),
        Ok(Pumped::Stop) => ReadEnd::Stop,
        Err(PumpFault::Tag(_)) => ReadEnd::Cut,
        Err(PumpFault::NoMemory) => ReadEnd::NoMemory,
    }
}
