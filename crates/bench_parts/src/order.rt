// Packets of two streams through an interleaver.
ghost use Rattle.std.specs.Prelude.{◌≡◌, ◌<◌, ◌≤ℤ◌, ◌==◌, false, if◌then◌else◌, IfOk};
ghost use Rattle.interleaver.specs.Queues.{goes};

use crate::packets::packet;
use interleaver::Interleaver;
use rmx_media::{NoMemory, Packet};
use std::alloc::Global;

// Takes all that may go, and counts it.
fn take_all(line: &mut Interleaver) -> u32
    ensures stuck { goes line.new ≡ false }
    ensures rest { line.new ≡ record line.old { pending = line.new.pending } }
{
    let mut taken = 0u32;
    while let Some(_) = line.pop() {
        taken = taken.wrapping_add(1);
    }
    taken
}

// A packet comes, and all goes that may.
fn arrive(line: &mut Interleaver, p: Packet) -> Result<u32, NoMemory>
    requires stream { (p.stream < line.old.streams) × (p.stream < 2) }
    requires order { (if p.stream == 0 then line.old.first_last else line.old.second_last) ≤ℤ p.dts }
    requires unfinished { line.old.finished ≡ false }
    requires stuck { goes line.old ≡ false }
    ensures stuck { IfOk result (λ _. goes line.new ≡ false) }
    ensures same { IfOk result (λ _. (line.new.streams ≡ line.old.streams) × (line.new.finished ≡ false)) }
    ensures first { IfOk result (λ _. line.new.first_last ≡ (if p.stream == 0 then p.dts else line.old.first_last)) }
    ensures second { IfOk result (λ _. line.new.second_last ≡ (if p.stream == 0 then line.old.second_last else p.dts)) }
{
    if line.push(p).is_err() {
        return Err(NoMemory);
    }
    Ok(take_all(line))
}

// A packet of each stream comes, and all goes that may.
fn arrive_both(line: &mut Interleaver, first: i64, second: i64) -> Result<u32, NoMemory>
    requires streams { line.old.streams ≡ 2 }
    requires first { line.old.first_last ≤ℤ first }
    requires second { line.old.second_last ≤ℤ second }
    requires unfinished { line.old.finished ≡ false }
    requires stuck { goes line.old ≡ false }
    ensures stuck { IfOk result (λ _. goes line.new ≡ false) }
    ensures same { IfOk result (λ _. (line.new.streams ≡ 2) × (line.new.finished ≡ false)) }
    ensures last { IfOk result (λ _. (line.new.first_last ≡ first) × (line.new.second_last ≡ second)) }
{
    let before = arrive(line, packet(0, first))?;
    let after = arrive(line, packet(1, second))?;
    Ok(before.wrapping_add(after))
}

/// Pushes a packet of each of two streams so many times, where the second is `lag` milliseconds behind, so that as many
/// packets of the first are pending. Takes what may go after each, and answers how many came out.
pub fn pass(alloc: Global, lag: u32, times: u32) -> Result<u32, NoMemory> {
    let mut line = Interleaver::new(alloc, 2, 0)?;
    let mut taken = 0u32;
    for time in 0..times {
        let dts = i64::from(time);
        let went = arrive_both(&mut line, dts, dts - i64::from(lag))?;
        taken = taken.wrapping_add(went);
    }
    line.finish();
    Ok(taken.wrapping_add(take_all(&mut line)))
}
