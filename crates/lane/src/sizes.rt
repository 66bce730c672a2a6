//! The sizes of messages.
ghost use Rattle.std.specs.Prelude.{◌≡◌, ◌<◌, ◌≤◌, length};
ghost use Rattle.lane.specs.Total.{total, AreSmall};

use rmx_media::NoMemory;
use std::alloc::Global;
use std::collections::VecDeque;

/// The sizes of the messages that wait in a lane, in bytes, oldest first, and their sum.
#[derive(Drop)]
pub(crate) struct Sizes {
    pub(crate) held: VecDeque<u32>,
    pub(crate) bytes: u64,
    ghost summed: { bytes ≡ total held.items },
    ghost few: { length held.items ≤ 256 },
    ghost small: { AreSmall held.items },
}

impl Sizes {
    ghost use Rattle.std.specs.Prelude.{◌^◌, ◌++◌, ◌∷◌, [], drop, IfOk};
    ghost use Rattle.std.specs.VecDeque.{deque_capacity};

    /// No sizes, with places for `cap`, so that no push takes memory.
    pub(crate) fn new(alloc: Global, cap: u32) -> Result<Sizes, NoMemory>
        ensures { IfOk result (λ s. (s.held.items ≡ []) × (cap ≤ deque_capacity s.held)) }
    {
        match VecDeque::with_capacity(alloc, cap as usize) {
            Ok(held) => Ok(Sizes { held, bytes: 0 }),
            Err(_) => Err(NoMemory),
        }
    }

    /// Leaves out the oldest sizes. The sum of the others fits well.
    pub(crate) fn forget(&mut self, count: u64)
        requires { count ≤ length self.old.held.items }
        ensures light { self.new.bytes ≤ 2 ^ 40 }
        ensures items { self.new.held.items ≡ drop count self.old.held.items }
        ensures capacity { deque_capacity self.new.held ≡ deque_capacity self.old.held }
    {
        for _ in 0..count {
            match self.held.pop_front() {
                Some(size) => self.bytes -= u64::from(size),
                None => unreachable!(),
            }
        }
    }

    /// Adds the size of a new message.
    pub(crate) fn push(&mut self, size: u32)
        requires few { length self.old.held.items < 256 }
        requires room { length self.old.held.items < deque_capacity self.old.held }
        ensures items { self.new.held.items ≡ self.old.held.items ++ size ∷ [] }
        ensures capacity { deque_capacity self.new.held ≡ deque_capacity self.old.held }
    {
        self.bytes += u64::from(size);
        self.held.push_back_reserved(size);
    }
}
