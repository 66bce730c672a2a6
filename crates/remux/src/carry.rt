// From the first packet of an input to its last.
ghost use Rattle.std.specs.Prelude.{◌≡◌, ◌+◌, ◌<◌, ◌≤◌, ◌^◌, length, List, ℕ, false};
ghost use Rattle.remux.specs.Lineup.{Lineup};
ghost use Rattle.flv_demux.specs.declared.deal.Kinds.{Kinds};
ghost use Rattle.remux.specs.Carried.{Carries, Ready, last_of_all, limited};
ghost use Rattle.remux.specs.Finding.{ByReached, LateProbe};
ghost use Rattle.remux.specs.Flow.{Flowing};
ghost use Rattle.remux.specs.Reading.{Ends};
ghost use Rattle.remux.specs.Took.{StaysSound};

use crate::demux::Demux;
use crate::give::{flush, hand_over};
use crate::outputs::Outputs;
use crate::probe::{Found, Reached};
use crate::read::{ReadEnd, drain, read_on};
use interleaver::Interleaver;
use rmx_edge::Inputs;
use tee::Fed;

/// Hands over all packets of an input whose streams were found, until the outputs want no more.
pub fn carry<I: Inputs, D: Demux, T: Outputs>(
    inputs: &mut I,
    demux: &mut D,
    line: &mut Interleaver,
    outputs: &mut T,
    buf: &mut [u8],
    found: Found,
) -> ReadEnd
    requires room { 0 < length buf.old }
    requires small { length buf.old ≤ 65536 }
    requires ready { (s : Kinds) × (b : List ℕ) × (start : Lineup) × Ready s b found.first found.reached found.left (I.state inputs.old) (D.ended demux.old) (D.known demux.old) (D.has demux.old) line.old (T.keeps outputs.old start) (T.takes outputs.old) × (length b + found.left < 2 ^ 61) }
    ensures carries { (s : Kinds) (b : List ℕ) (start : Lineup) → Ready s b found.first found.reached found.left (I.state inputs.old) (D.ended demux.old) (D.known demux.old) (D.has demux.old) line.old (T.keeps outputs.old start) (T.takes outputs.old)
        → Carries result s b found.left (I.state inputs.old) (I.state inputs.new) line.new (D.has demux.new) (T.keeps outputs.new start) (T.dead_at outputs.new) }
    ensures sound { StaysSound (I.state inputs.old) (I.state inputs.new) }
    ensures still { (I.state inputs.old).readable ≡ false → I.state inputs.new ≡ I.state inputs.old }
    ensures count { (I.state inputs.old).faults ≤ (I.state inputs.new).faults }
    ensures same { (line.new.streams ≡ line.old.streams) × (line.new.delta ≡ line.old.delta) }
{
    let Found {
        first,
        reached,
        left,
    } = found;
    match first {
        Some(p) => match hand_over(line, outputs, p) {
            Ok(Fed::More) => carry_on(inputs, demux, line, outputs, buf, left, reached),
            Ok(Fed::Stop) => ReadEnd::Stop,
            Err(_) => ReadEnd::NoMemory,
        },
        None => carry_on(inputs, demux, line, outputs, buf, left, reached),
    }
}

// Reads on and hands over, and all that is pending at the end.
fn carry_on<I: Inputs, D: Demux, T: Outputs>(
    inputs: &mut I,
    demux: &mut D,
    line: &mut Interleaver,
    outputs: &mut T,
    buf: &mut [u8],
    left: u64,
    reached: Reached,
) -> ReadEnd
    requires room { 0 < length buf.old }
    requires small { length buf.old ≤ 65536 }
    requires flows { (s : Kinds) × (b : List ℕ) × (start : Lineup) × Flowing s b (D.known demux.old) (D.has demux.old) line.old (T.keeps outputs.old start) (T.dead_at outputs.old) (T.takes outputs.old) × ByReached reached b (D.ended demux.old) left (I.state inputs.old) × LateProbe b × (length b + left < 2 ^ 61) }
    ensures carries { (s : Kinds) (b : List ℕ) (start : Lineup) → Flowing s b (D.known demux.old) (D.has demux.old) line.old (T.keeps outputs.old start) (T.dead_at outputs.old) (T.takes outputs.old)
        → LateProbe b → ByReached reached b (D.ended demux.old) left (I.state inputs.old)
        → Carries result s b left (I.state inputs.old) (I.state inputs.new) line.new (D.has demux.new) (T.keeps outputs.new start) (T.dead_at outputs.new) }
    ensures sound { StaysSound (I.state inputs.old) (I.state inputs.new) }
    ensures still { (I.state inputs.old).readable ≡ false → I.state inputs.new ≡ I.state inputs.old }
    ensures count { (I.state inputs.old).faults ≤ (I.state inputs.new).faults }
    ensures same { (line.new.streams ≡ line.old.streams) × (line.new.delta ≡ line.old.delta) }
{
    let ending = read_rest(inputs, demux, line, outputs, buf, left, reached);
    if is_last(ending) {
        return ending;
    }
    line.finish();
    match flush(line, outputs) {
        Ok(_) => ending,
        Err(_) => ReadEnd::NoMemory,
    }
}

// Whether nothing further is handed over.
fn is_last(ending: ReadEnd) -> bool
    ensures { result ≡ last_of_all ending }
{
    match ending {
        ReadEnd::Stop | ReadEnd::NoMemory => true,
        ReadEnd::Whole | ReadEnd::Cut | ReadEnd::Limit | ReadEnd::InputFault => false,
    }
}

// Reads on, or deals with the rest where the end was told.
fn read_rest<I: Inputs, D: Demux, T: Outputs>(
    inputs: &mut I,
    demux: &mut D,
    line: &mut Interleaver,
    outputs: &mut T,
    buf: &mut [u8],
    left: u64,
    reached: Reached,
) -> ReadEnd
    requires room { 0 < length buf.old }
    requires small { length buf.old ≤ 65536 }
    requires flows { (s : Kinds) × (b : List ℕ) × (start : Lineup) × Flowing s b (D.known demux.old) (D.has demux.old) line.old (T.keeps outputs.old start) (T.dead_at outputs.old) (T.takes outputs.old) × ByReached reached b (D.ended demux.old) left (I.state inputs.old) × (length b + left < 2 ^ 61) }
    ensures ends { (s : Kinds) (b : List ℕ) (start : Lineup) → Flowing s b (D.known demux.old) (D.has demux.old) line.old (T.keeps outputs.old start) (T.dead_at outputs.old) (T.takes outputs.old)
        → LateProbe b → ByReached reached b (D.ended demux.old) left (I.state inputs.old)
        → Ends result s b left (I.state inputs.old) (I.state inputs.new) (D.known demux.new) (D.has demux.new) line.new (T.keeps outputs.new start) (T.dead_at outputs.new) (T.takes outputs.new) }
    ensures sound { StaysSound (I.state inputs.old) (I.state inputs.new) }
    ensures still { (I.state inputs.old).readable ≡ false → I.state inputs.new ≡ I.state inputs.old }
    ensures count { (I.state inputs.old).faults ≤ (I.state inputs.new).faults }
    ensures same { (line.new.streams ≡ line.old.streams) × (line.new.delta ≡ line.old.delta) }
{
    match reached {
        Reached::More => read_on(inputs, demux, line, outputs, buf, left),
        Reached::End => drain(demux, line, outputs),
        Reached::Limit => at_limit(drain(demux, line, outputs)),
    }
}

// How a reading ended whose text goes on behind the last byte that may be taken.
fn at_limit(ending: ReadEnd) -> ReadEnd
    ensures { result ≡ limited ending }
{
    match ending {
        ReadEnd::Whole | ReadEnd::Cut => ReadEnd::Limit,
        other => other,
    }
}
