//! The machine at work: it keeps the messages that wait, and counts the others.
ghost use Rattle.std.specs.Prelude.{◌≡◌, ◌+◌, ◌<◌, ◌≤◌, length, sum_by};
ghost use Rattle.lane_core.specs.Size.{size_of, AreSmall};

use crate::event::{Held, LaneEvent, LaneReply};
use rmx_media::{Items, NoMemory};
use std::alloc::Global;

/// A lane of at most `cap` messages, which is also full where some wait and their bytes and the new ones pass `limit`
/// (0: no bound).
#[derive(Drop)]
pub struct LaneState {
    pub cap: u32,
    /// In bytes.
    pub limit: u64,
    /// The messages that wait, oldest first.
    pub queue: Items<Held>,
    /// The bytes of the messages that wait.
    pub bytes: u64,
    /// How many offers were accepted.
    pub given: u64,
    /// How many messages were taken.
    pub got: u64,
    /// How many offers were refused.
    pub over: u64,
    pub closed: bool,
    pub failed: bool,
    pub ghost some_place: { 0 < cap },
    pub ghost few_places: { cap ≤ 256 },
    pub ghost within: { length queue.items ≤ cap },
    pub ghost room: { cap ≤ length queue.items + queue.spare },
    pub ghost small: { AreSmall queue.items },
    pub ghost summed: { bytes ≡ sum_by size_of queue.items },
    pub ghost counted: { given ≡ got + length queue.items },
}

impl LaneState {
    ghost use Rattle.std.specs.Prelude.{◌^◌, IfOk, false};
    ghost use Rattle.lane_core.specs.declared.event.Held.{Held as Waits};
    ghost use Rattle.lane_core.specs.Machine.{Machine, start, is_full, offer, take, close};
    ghost use Rattle.lane_core.specs.Shown.{Shows, DoesAs, bounds_of, event_of};

    /// A lane in which nothing happened yet. Its places are reserved here, so that no event takes memory.
    pub fn new(alloc: Global, cap: u32, limit: u64) -> Result<LaneState, NoMemory>
        requires { (0 < cap) × (cap ≤ 256) }
        ensures { IfOk result (λ s. Shows s start × (bounds_of s ≡ record { cap = cap; limit = limit })) }
    {
        let mut queue = Items::new(alloc);
        queue.reserve(cap as usize)?;
        Ok(LaneState {
            cap,
            limit,
            queue,
            bytes: 0,
            given: 0,
            got: 0,
            over: 0,
            closed: false,
            failed: false,
        })
    }

    /// Replies to an event. `Shut` is the reply to an offer or a close after a close, and changes nothing.
    pub fn step(&mut self, event: LaneEvent) -> LaneReply
        requires few { (self.old.given < 2 ^ 63) × (self.old.over < 2 ^ 63) }
        ensures reply { (m : Machine Waits) → Shows self.old m → DoesAs (bounds_of self.old) m (event_of event) result self.new }
        ensures same { bounds_of self.new ≡ bounds_of self.old }
    {
        match event {
            LaneEvent::Offer(index, size) => self.offer(index, size),
            LaneEvent::Take => self.take(),
            LaneEvent::See => LaneReply::Overs(self.over),
            LaneEvent::Close => self.close(),
            LaneEvent::Fail => {
                self.failed = true;
                LaneReply::Done
            }
        }
    }

    fn offer(&mut self, index: u64, size: u32) -> LaneReply
        requires few { (self.old.given < 2 ^ 63) × (self.old.over < 2 ^ 63) }
        ensures reply { (m : Machine Waits) → Shows self.old m → DoesAs (bounds_of self.old) m (offer record { index = index; size = size }) result self.new }
        ensures same { bounds_of self.new ≡ bounds_of self.old }
    {
        if self.closed {
            return LaneReply::Shut;
        }
        if self.is_full(size) {
            self.over += 1;
            return LaneReply::Refused(self.over);
        }
        self.bytes += u64::from(size);
        self.queue.push(Held { index, size });
        self.given += 1;
        LaneReply::Accepted
    }

    // Whether there is no room for a message of this size.
    fn is_full(&self, size: u32) -> bool
        ensures room { result ≡ false → length self.now.queue.items < self.now.cap }
        ensures full { (m : Machine Waits) → Shows self.now m → result ≡ is_full size_of (bounds_of self.now) m.given m.taken size }
    {
        let waiting = self.given - self.got;
        waiting == u64::from(self.cap)
            || (self.limit > 0 && waiting > 0 && self.bytes + u64::from(size) > self.limit)
    }

    fn take(&mut self) -> LaneReply
        ensures reply { (m : Machine Waits) → Shows self.old m → DoesAs (bounds_of self.old) m take result self.new }
        ensures same { bounds_of self.new ≡ bounds_of self.old }
    {
        if self.got == self.given {
            return if self.closed {
                LaneReply::Ended
            } else {
                LaneReply::Empty
            };
        }
        let held = self.queue.take_first();
        self.bytes -= u64::from(held.size);
        self.got += 1;
        LaneReply::Got(held.index)
    }

    fn close(&mut self) -> LaneReply
        ensures reply { (m : Machine Waits) → Shows self.old m → DoesAs (bounds_of self.old) m close result self.new }
        ensures same { bounds_of self.new ≡ bounds_of self.old }
    {
        if self.closed {
            return LaneReply::Shut;
        }
        self.closed = true;
        LaneReply::Done
    }
}
