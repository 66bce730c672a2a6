//! Waiting for another thread.
use std::hint::spin_loop;
use std::sync::Wait;
use std::sync::atomic::AtomicU64;
use std::thread::yield_now;
use std::time::Duration;

/// Waits longer each time, up to a millisecond: some turns only spin, then some yield the processor, and later ones sleep.
#[derive(Drop)]
pub(crate) struct Backoff {
    turns: u32,
    // The first turn that yields, and the first that sleeps.
    yields: u32,
    sleeps: u32,
    // Of this waiter alone. It stays 0, so that each sleep ends by its time.
    word: AtomicU64,
}

impl Backoff {
    /// For a wait that should end as soon as it can: the other thread is mostly about to end it.
    pub(crate) fn eager() -> Backoff {
        Backoff::new(64, 128)
    }

    /// For a wait that may last until much has gathered, and shouldn't take a processor meanwhile.
    pub(crate) fn patient() -> Backoff {
        Backoff::new(4, 6)
    }

    fn new(yields: u32, sleeps: u32) -> Backoff {
        Backoff {
            turns: 0,
            yields,
            sleeps,
            word: AtomicU64::new(0),
        }
    }

    pub(crate) fn wait<R: Wait>(&mut self, rt: &R) {
        let turns = self.turns;
        if turns < self.yields {
            spin_loop();
        } else if turns < self.sleeps {
            yield_now();
        } else {
            let micros = 1u64 << (turns - self.sleeps).min(10);
            self.word.park_timeout(rt, 0, Duration::from_micros(micros));
        }
        self.turns = turns.saturating_add(1);
    }
}
