// A sink in memory.
ghost use Rattle.std.specs.Prelude.{◌≡◌, ◌≤◌, ◌<◌, ◌^◌};

use crate::{Failed, Sink};

const ROOM: usize = 8192;

/// A sink over a fixed buffer of 8192 bytes. It takes no memory.
#[derive(Drop)]
pub struct MemSink {
    buf: [u8; 8192],
    len: usize,
    fails: Vec<u64>,
    calls: u64,
    faults: u64,
    ghost len_within: { len ≤ 8192 },
    ghost faults_small: { faults < 2 ^ 64 },
}

impl MemSink {
    ghost use Rattle.std.specs.Prelude.{Some, None, [], length, ◌==◌, if◌then◌else◌};
    ghost use Rattle.rmx_edge.specs.MemSink.{state_of, listed, calls_of, len_of, fails_next};

    /// An empty sink. The writes of the numbers in `fails`, from 0, fail, and so does one that doesn't fit.
    pub fn new(fails: Vec<u64>) -> MemSink
        ensures bytes { (state_of result).bytes ≡ Some [] }
        ensures count { (state_of result).faults ≡ 0 }
        ensures sound { (state_of result).sound_for ≡ (if length fails.items == 0 then Some 8192 else None) }
        ensures listed { (listed result ≡ fails.items) × (calls_of result ≡ 0) × (len_of result ≡ 0) }
    {
        MemSink {
            buf: [0; 8192],
            len: 0,
            fails,
            calls: 0,
            faults: 0,
        }
    }

    /// The bytes written.
    pub fn bytes(&self) -> &[u8]
        ensures { (state_of self.now).bytes ≡ Some result.now }
    {
        &self.buf[..self.len]
    }

    // Whether the next write is to fail.
    fn fails_now(&self) -> bool
        ensures { result ≡ fails_next self.now }
    {
        self.fails.iter().any(|n| *n == self.calls)
    }
}

impl Sink for MemSink {
    ghost use Rattle.std.specs.Prelude.{true, length, IsErr, ◌+◌, ◌⊎◌, ◌↔◌};
    ghost use Rattle.rmx_edge.specs.Count.{faults_after};
    ghost use Rattle.rmx_edge.specs.Sink.{Puts};
    ghost use Rattle.rmx_edge.specs.MemSink.{state_of, fails_next, len_of, GoesOn};

    ghost state = { state_of };

    fn write(&mut self, bytes: &[u8]) -> Result<(), Failed>
        ensures put { Puts bytes.now result (state_of self.old) (state_of self.new) }
        ensures exact { IsErr result ↔ ((fails_next self.old ≡ true) ⊎ (8192 < len_of self.old + length bytes.now)) }
        ensures faults { (state_of self.new).faults ≡ faults_after result (state_of self.old).faults }
        ensures kept { IsErr result → (state_of self.new).bytes ≡ (state_of self.old).bytes }
        ensures goes_on { GoesOn self.old self.new }
    {
        let failing = self.fails_now();
        self.calls = self.calls.saturating_add(1);
        if failing || bytes.len() > ROOM - self.len {
            self.faults = self.faults.saturating_add(1);
            return Err(Failed);
        }
        let end = self.len + bytes.len();
        self.buf[self.len..end].copy_from_slice(bytes);
        self.len = end;
        Ok(())
    }
}
