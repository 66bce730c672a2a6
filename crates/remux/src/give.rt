// Giving the outputs what may go.
ghost use Rattle.std.specs.Prelude.{◌≡◌, ℕ, ◌<◌, ◌≤ℤ◌, ◌+◌, ◌^◌, length, ◌++◌, ◌∷◌, [], List, true, false, IfOk, OnErr};
ghost use Rattle.remux.specs.Lineup.{Lineup};
ghost use Rattle.interleaver.specs.Queues.{goes, last_of};
ghost use Rattle.remux.specs.Gave.{Flushed, FlushedSome, GaveSome};
ghost use Rattle.remux.specs.Fit.{Each};
ghost use Rattle.remux.specs.Fed.{Answers};
ghost use Rattle.tee.specs.Fed.{is_stop};
ghost use Rattle.remux.specs.Handed.{GaveAll, Handed, HandedSome};
ghost use Rattle.remux.specs.Flow.{Flow};
ghost use Rattle.rmx_media.specs.declared.packet.Packet.{Packet};

use crate::outputs::Outputs;
use interleaver::Interleaver;
use rmx_media::{NoMemory, Packet};
use tee::Fed;

// Feeds a packet and lets it go.
fn feed_one<T: Outputs>(outputs: &mut T, p: Packet) -> Result<Fed, NoMemory>
    requires ready { (start : Lineup) × (given : List Packet) × T.keeps outputs.old start given × (length given < 2 ^ 61) }
    requires taken { T.takes outputs.old p }
    ensures fed { (start : Lineup) → Answers result p (T.keeps outputs.old start) (T.keeps outputs.new start) (T.dead_at outputs.old) (T.dead_at outputs.new) }
    ensures takes { (q : Packet) → T.takes outputs.old q → T.takes outputs.new q }
    ensures kept { OnErr result ((start : Lineup) (given : List Packet) → T.keeps outputs.old start given → T.keeps outputs.new start given) }
    ensures dead { OnErr result ((u : ℕ) → T.dead_at outputs.new u ≡ T.dead_at outputs.old u) }
{
    outputs.feed(&p)
}

/// Gives the outputs all that may go, until they want no more.
pub fn give_all<T: Outputs>(line: &mut Interleaver, outputs: &mut T) -> Result<Fed, NoMemory>
    requires unfinished { line.old.finished ≡ false }
    requires ready { (start : Lineup) × (given : List Packet) × T.keeps outputs.old start given × (length given + length line.old.pending < 2 ^ 61) }
    requires taken { Each (T.takes outputs.old) line.old.pending }
    ensures same { (line.new.streams ≡ line.old.streams) × (line.new.delta ≡ line.old.delta) }
    ensures gave { IfOk result (λ fed. (start : Lineup) → GaveAll fed line.old line.new (T.keeps outputs.old start) (T.keeps outputs.new start) (T.dead_at outputs.old) (T.dead_at outputs.new)) }
    ensures some { OnErr result ((start : Lineup) → GaveSome line.old.streams line.old.delta line.old.pending (T.keeps outputs.old start) (T.keeps outputs.new start) (T.dead_at outputs.old) (T.dead_at outputs.new)) }
    ensures takes { (q : Packet) → T.takes outputs.old q → T.takes outputs.new q }
    ensures taken { Each (T.takes outputs.new) line.new.pending }
{
    while let Some(p) = line.pop() {
        match feed_one(outputs, p) {
            Ok(Fed::More) => {}
            Ok(Fed::Stop) => return Ok(Fed::Stop),
            Err(_) => return Err(NoMemory),
        }
    }
    Ok(Fed::More)
}

/// Pushes a packet, and gives the outputs all that may go then.
pub fn hand_over<T: Outputs>(
    line: &mut Interleaver,
    outputs: &mut T,
    p: Packet,
) -> Result<Fed, NoMemory>
    requires stream { p.stream < line.old.streams }
    requires two { line.old.streams < 3 }
    requires order { last_of line.old p.stream ≤ℤ p.dts }
    requires stuck { goes line.old ≡ false }
    requires unfinished { line.old.finished ≡ false }
    requires ready { (start : Lineup) × (given : List Packet) × T.keeps outputs.old start given × (length given + length line.old.pending + 1 < 2 ^ 61) }
    requires taken { T.takes outputs.old p }
    requires pending { Each (T.takes outputs.old) line.old.pending }
    ensures handed { IfOk result (λ fed. (packets given : List Packet) (start : Lineup) → Flow packets given line.old → T.keeps outputs.old start given →
        Handed fed (packets ++ p ∷ []) given line.new (T.keeps outputs.new start) (T.dead_at outputs.old) (T.dead_at outputs.new)) }
    ensures some { OnErr result ((packets given : List Packet) (start : Lineup) → Flow packets given line.old → T.keeps outputs.old start given →
        HandedSome line.old.streams line.old.delta (packets ++ p ∷ []) given (T.keeps outputs.new start) (T.dead_at outputs.old) (T.dead_at outputs.new)) }
    ensures same { (line.new.streams ≡ line.old.streams) × (line.new.delta ≡ line.old.delta) }
    ensures takes { (q : Packet) → T.takes outputs.old q → T.takes outputs.new q }
    ensures pending { Each (T.takes outputs.new) line.new.pending }
{
    match line.push(p) {
        Ok(()) => {}
        Err(_) => return Err(NoMemory),
    }
    give_all(line, outputs)
}

/// Gives the outputs all that is pending at the end, until they want no more.
pub fn flush<T: Outputs>(line: &mut Interleaver, outputs: &mut T) -> Result<Fed, NoMemory>
    requires finished { line.old.finished ≡ true }
    requires ready { (start : Lineup) × (given : List Packet) × T.keeps outputs.old start given × (length given + length line.old.pending < 2 ^ 61) }
    requires taken { Each (T.takes outputs.old) line.old.pending }
    ensures flushed { IfOk result (λ fed. (start : Lineup) → Flushed (is_stop fed) line.old.pending line.new.pending (T.keeps outputs.old start) (T.keeps outputs.new start) (T.dead_at outputs.old) (T.dead_at outputs.new)) }
    ensures same { (line.new.streams ≡ line.old.streams) × (line.new.delta ≡ line.old.delta) }
    ensures some { OnErr result ((start : Lineup) → FlushedSome line.old.pending (T.keeps outputs.old start) (T.keeps outputs.new start) (T.dead_at outputs.old) (T.dead_at outputs.new)) }
{
    while let Some(p) = line.pop() {
        match feed_one(outputs, p) {
            Ok(Fed::More) => {}
            Ok(Fed::Stop) => return Ok(Fed::Stop),
            Err(_) => return Err(NoMemory),
        }
    }
    Ok(Fed::More)
}
