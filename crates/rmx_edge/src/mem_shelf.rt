// A shelf in memory.
ghost use Rattle.std.specs.Prelude.{◌≡◌, ◌<◌, ◌^◌, true, vec_len};

use crate::fail_at::keep_at;
use crate::mem_take::{MemTake, add_take, append_last, bytes_of, close_last, is_closed, name_of};
use crate::{FailAt, Shelf, ShelfFault};
use std::alloc::Global;

/// A shelf in memory, which tells all that it holds.
#[derive(Drop)]
pub struct MemShelf {
    alloc: Global,
    takes: Vec<MemTake>,
    writing: bool,
    calls: u64,
    faults: u64,
    wants: u64,
    fails: Vec<FailAt>,
    dead: bool,
    ghost has_last: { writing ≡ true → 0 < vec_len takes },
    ghost faults_small: { faults < 2 ^ 64 },
    ghost wants_small: { wants < 2 ^ 64 },
}

impl MemShelf {
    ghost use Rattle.std.specs.Prelude.{[], Some, None, false, length, ◌==◌};
    ghost use Rattle.std.specs.List.{list_any};
    ghost use Rattle.rmx_edge.specs.Shelf.{take_at};
    ghost use Rattle.rmx_edge.specs.MemShelf.{state_of, shown, fails_next, keep_next, listed, is_dead};

    /// An empty shelf that never fails.
    pub fn new(alloc: Global) -> MemShelf
        ensures state { state_of result ≡ record { takes = Some []; calls = Some 0; accepted = None; writing = false; faults = 0; wants = 0; sound = true } }
        ensures listed { listed result ≡ [] }
        ensures alive { is_dead result ≡ false }
    {
        MemShelf {
            alloc,
            takes: Vec::new(alloc),
            writing: false,
            calls: 0,
            faults: 0,
            wants: 0,
            fails: Vec::new(alloc),
            dead: false,
        }
    }

    /// An empty shelf that fails at the listed calls. Of several entries with one number the first counts.
    pub fn failing(alloc: Global, calls: Vec<FailAt>) -> MemShelf
        ensures state { state_of result ≡ record { takes = Some []; calls = Some 0; accepted = None; writing = false; faults = 0; wants = 0; sound = length calls.items == 0 } }
        ensures listed { listed result ≡ calls.items }
        ensures alive { is_dead result ≡ false }
    {
        MemShelf {
            alloc,
            takes: Vec::new(alloc),
            writing: false,
            calls: 0,
            faults: 0,
            wants: 0,
            fails: calls,
            dead: false,
        }
    }

    /// An empty shelf that fails at every call.
    pub fn dead(alloc: Global) -> MemShelf
        ensures state { state_of result ≡ record { takes = Some []; calls = Some 0; accepted = None; writing = false; faults = 0; wants = 0; sound = false } }
        ensures listed { listed result ≡ [] }
        ensures dead { is_dead result ≡ true }
    {
        MemShelf {
            alloc,
            takes: Vec::new(alloc),
            writing: false,
            calls: 0,
            faults: 0,
            wants: 0,
            fails: Vec::new(alloc),
            dead: true,
        }
    }

    /// How many takes there are.
    pub fn take_count(&self) -> usize
        ensures { result ≡ length (shown self.now) }
    {
        self.takes.len()
    }

    /// The name of the take at this place, from 0.
    pub fn take_name(&self, at: usize) -> &str
        requires { at < length (shown self.now) }
        ensures { result.now ≡ (take_at (shown self.now) at).name }
    {
        name_of(&self.takes, at)
    }

    /// The bytes of the take at this place, from 0.
    pub fn take_bytes(&self, at: usize) -> &[u8]
        requires { at < length (shown self.now) }
        ensures { result.now ≡ (take_at (shown self.now) at).bytes }
    {
        bytes_of(&self.takes, at)
    }

    /// Whether the take at this place, from 0, is closed.
    pub fn take_closed(&self, at: usize) -> bool
        requires { at < length (shown self.now) }
        ensures { result ≡ (take_at (shown self.now) at).closed }
    {
        is_closed(&self.takes, at)
    }

    // Whether the next call is to fail.
    fn fails_now(&self) -> bool
        ensures exact { result ≡ fails_next self.now }
        ensures sound { (state_of self.now).sound ≡ true → result ≡ false }
    {
        self.dead || self.is_listed()
    }

    fn is_listed(&self) -> bool
        ensures exact { result ≡ list_any (λ f. f.call == self.now.calls) self.now.fails.items }
        ensures none { length self.now.fails.items ≡ 0 → result ≡ false }
    {
        self.fails.iter().any(|f| f.call == self.calls)
    }

    // How much the next write keeps, if it is to fail.
    fn keep(&self) -> u32
        ensures { result ≡ keep_next self.now }
    {
        keep_at(&self.fails, self.calls)
    }
}

impl Shelf for MemShelf {
    ghost use Rattle.std.specs.Prelude.{false, IsOk, IsErrOf, ◌↔◌};
    ghost use Rattle.rmx_edge.specs.Shelf.{Create, Write, Close, Makes, Flushes};
    ghost use Rattle.rmx_edge.specs.MemShelf.{state_of, shown, fails_next, faults_next, wants_after, keep_next, KeepsFirst, FailsAsBefore};

    ghost state = { state_of };

    fn create(&mut self, name: &str) -> Result<(), ShelfFault>
        requires { (state_of self.old).writing ≡ false }
        ensures made { Makes (Create name.now) result (state_of self.old) (state_of self.new) }
        ensures exact { IsErrOf result ShelfFault.Failed ↔ (fails_next self.old ≡ true) }
        ensures faults { (state_of self.new).faults ≡ faults_next self.old }
        ensures wants { (state_of self.new).wants ≡ wants_after result (state_of self.old).wants }
        ensures fails { FailsAsBefore self.old self.new }
    {
        let failing = self.fails_now();
        self.calls = self.calls.saturating_add(1);
        if failing {
            self.faults = self.faults.saturating_add(1);
            return Err(ShelfFault::Failed);
        }
        match add_take(self.alloc, &mut self.takes, name) {
            Ok(()) => {
                self.writing = true;
                Ok(())
            }
            Err(_) => {
                self.wants = self.wants.saturating_add(1);
                Err(ShelfFault::NoMemory)
            }
        }
    }

    fn write(&mut self, bytes: &[u8]) -> Result<(), ShelfFault>
        requires { (state_of self.old).writing ≡ true }
        ensures made { Makes (Write bytes.now) result (state_of self.old) (state_of self.new) }
        ensures exact { IsErrOf result ShelfFault.Failed ↔ (fails_next self.old ≡ true) }
        ensures faults { (state_of self.new).faults ≡ faults_next self.old }
        ensures wants { (state_of self.new).wants ≡ wants_after result (state_of self.old).wants }
        ensures fails { FailsAsBefore self.old self.new }
        ensures kept { fails_next self.old ≡ true → KeepsFirst (keep_next self.old) bytes.now (shown self.old) (shown self.new) }
    {
        let failing = self.fails_now();
        let keep = self.keep();
        self.calls = self.calls.saturating_add(1);
        if failing {
            let kept = bytes.len().min(keep as usize);
            let _ = append_last(&mut self.takes, &bytes[..kept]);
            self.writing = false;
            self.faults = self.faults.saturating_add(1);
            return Err(ShelfFault::Failed);
        }
        match append_last(&mut self.takes, bytes) {
            Ok(()) => Ok(()),
            Err(_) => {
                self.writing = false;
                self.wants = self.wants.saturating_add(1);
                Err(ShelfFault::NoMemory)
            }
        }
    }

    fn close(&mut self) -> Result<(), ShelfFault>
        requires { (state_of self.old).writing ≡ true }
        ensures made { Makes Close result (state_of self.old) (state_of self.new) }
        ensures exact { IsErrOf result ShelfFault.Failed ↔ (fails_next self.old ≡ true) }
        ensures faults { (state_of self.new).faults ≡ faults_next self.old }
        ensures wants { (state_of self.new).wants ≡ (state_of self.old).wants }
        ensures needs_none { IsErrOf result ShelfFault.NoMemory → ⊥ }
        ensures fails { FailsAsBefore self.old self.new }
    {
        let failing = self.fails_now();
        self.calls = self.calls.saturating_add(1);
        self.writing = false;
        if failing {
            self.faults = self.faults.saturating_add(1);
            return Err(ShelfFault::Failed);
        }
        close_last(&mut self.takes);
        Ok(())
    }

    fn flush(&mut self) -> Result<(), ShelfFault>
        requires { (state_of self.old).writing ≡ true }
        ensures flushed { Flushes result (state_of self.old) (state_of self.new) }
        ensures never { IsOk result }
        ensures fails { FailsAsBefore self.old self.new }
    {
        Ok(())
    }

    fn fault_count(&self) -> u64 {
        self.faults
    }

    fn want_count(&self) -> u64 {
        self.wants
    }
}
