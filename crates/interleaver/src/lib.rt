//! Packets of several streams in one order.
#![tactic(auto)]

ghost use Rattle.std.specs.Prelude.{◌≡◌, ◌<◌, ◌≤ℤ◌, [], false, true, OnOk, OnErr, IfErr, IfOk, negsuc, List, ◌∷◌, ◌++◌};
ghost use Rattle.interleaver.specs.Queues.{Pending, goes, last_of, Pushed, Pops, Carries, Gives};
ghost use Rattle.rmx_media.specs.declared.packet.Packet.{Packet};

pub mod laws;
mod queues;
#[cfg(test)]
mod tests;

use queues::{has_room, may_leave, take_head};
use rmx_media::{NoMemory, Packet};
use std::alloc::Global;
use std::collections::VecDeque;
use std::marker::Model;

/// Holds the packets of one or two streams until their turn by decoding time comes.
#[derive(Drop)]
pub struct Interleaver {
    streams: u32,
    delta_us: u64,
    first: VecDeque<Packet>,
    second: VecDeque<Packet>,
    first_last: i64,
    second_last: i64,
    finished: bool,
}

impl Model for Interleaver {
    ghost use Rattle.interleaver.specs.Queues.{Pending};

    ghost Value = { Pending };

    ghost use Rattle.interleaver.specs.View.{view_of, IsWhole};

    ghost view = { view_of };

    ghost invariant = { IsWhole };
}

impl Interleaver {
    /// For 1 or 2 streams. A packet waits for one of each other stream, but not where another is more than `delta_us`
    /// microseconds behind it; with 0 it waits however far the others are.
    pub fn new(alloc: Global, streams: u32, delta_us: u64) -> Result<Interleaver, NoMemory>
        requires some { 0 < streams }
        requires most { streams < 3 }
        ensures empty { IfOk result (λ i. i ≡ record {
          streams = streams;
          delta = delta_us;
          pending = [];
          first_last = negsuc 9223372036854775807;
          second_last = negsuc 9223372036854775807;
          finished = false;
        }) }
        ensures carries { IfOk result (λ i. Carries [] [] i) }
    {
        Ok(Interleaver {
            streams,
            delta_us,
            first: VecDeque::new(alloc),
            second: VecDeque::new(alloc),
            first_last: i64::MIN,
            second_last: i64::MIN,
            finished: false,
        })
    }

    /// Takes the next packet, once all that may go has gone. It comes back for want of memory alone, and then nothing
    /// has changed.
    pub fn push(&mut self, p: Packet) -> Result<(), Packet>
        requires stream { p.stream < self.old.streams }
        requires order { last_of self.old p.stream ≤ℤ p.dts }
        requires unfinished { self.old.finished ≡ false }
        requires stuck { goes self.old ≡ false }
        ensures ok { OnOk result (Pushed p self.old self.new) }
        ensures carries { OnOk result ((pushed out : List Packet) → Carries pushed out self.old → Carries (pushed ++ p ∷ []) out self.new) }
        ensures err { OnErr result (self.new ≡ self.old) }
        ensures back { IfErr result (λ q. q ≡ p) }
    {
        let dts = p.dts;
        if p.stream == 0 {
            if !has_room(&mut self.first) {
                return Err(p);
            }
            self.first.push_back_reserved(p);
            self.first_last = dts;
            return Ok(());
        }
        if !has_room(&mut self.second) {
            return Err(p);
        }
        self.second.push_back_reserved(p);
        self.second_last = dts;
        Ok(())
    }

    /// The next packet that may go.
    pub fn pop(&mut self) -> Option<Packet>
        ensures pops { Pops result self.old self.new }
        ensures gives { (pushed out : List Packet) → Carries pushed out self.old → Gives result pushed out self.old self.new }
    {
        let leaves = may_leave(
            self.finished,
            self.streams,
            self.delta_us,
            &self.first,
            &self.second,
            self.first_last,
            self.second_last,
        );
        if !leaves {
            return None;
        }
        take_head(&mut self.first, &mut self.second)
    }

    /// From now on every pending packet may go.
    pub fn finish(&mut self)
        ensures finished { self.new ≡ record self.old { finished = true } }
        ensures carries { (pushed out : List Packet) → Carries pushed out self.old → Carries pushed out self.new }
    {
        self.finished = true;
    }
}
