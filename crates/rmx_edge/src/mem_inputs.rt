// Inputs in memory.
ghost use Rattle.std.specs.Prelude.{◌≡◌, ◌<◌, ◌≤◌, ◌+◌, ◌^◌, length};
ghost use Rattle.rmx_edge.specs.Files.{bytes_at};

use crate::files::{bytes_of, copy_front, place_of};
use crate::{Failed, Inputs};

/// Inputs in memory, which tell all that they hold.
#[derive(Drop)]
pub struct MemInputs {
    files: Vec<(String, Vec<u8>)>,
    fails: Vec<u64>,
    most: u32,
    calls: u64,
    faults: u64,
    opened: usize,
    at: usize,
    ended: bool,
    readable: bool,
    ghost most_is_positive: { 0 < most },
    ghost at_within: { at ≤ length (bytes_at files.items opened) },
    ghost faults_small: { faults < 2 ^ 64 },
}

impl MemInputs {
    ghost use Rattle.std.specs.Prelude.{true, false, Some, [], ◌==◌, ◌&&◌, is_some};
    ghost use Rattle.rmx_edge.specs.Files.{file_of};
    ghost use Rattle.rmx_edge.specs.MemInputs.{state_of, left_of, listed, calls_of, most_of, fails_next};

    /// Files by their names; of several of one name the first counts. A read gives at most `most` bytes. The calls
    /// of the numbers in `fails`, from 0 over both methods, fail, and so does an unknown name.
    pub fn new(files: Vec<(String, Vec<u8>)>, fails: Vec<u64>, most: u32) -> MemInputs
        requires { 0 < most }
        ensures view { (state_of result).view ≡ Some record { bytes_of = file_of files.items; left = []; ended = false } }
        ensures closed { (state_of result).readable ≡ false }
        ensures count { (state_of result).faults ≡ 0 }
        ensures sound { (state_of result).sound_now ≡ (length fails.items == 0) }
        ensures sound_at { (state_of result).sound_at ≡ (λ name. (length fails.items == 0) && is_some (file_of files.items name)) }
        ensures listed { (listed result ≡ fails.items) × (calls_of result ≡ 0) }
        ensures most { most_of result ≡ most }
    {
        let none = files.len();
        MemInputs {
            files,
            fails,
            most,
            calls: 0,
            faults: 0,
            opened: none,
            at: 0,
            ended: false,
            readable: false,
        }
    }

    fn rest(&self) -> &[u8]
        ensures bytes { result.now ≡ left_of self.now }
        ensures len { self.now.at + length result.now ≡ length (bytes_at self.now.files.items self.now.opened) }
        ensures fits { self.now.at + length result.now < 2 ^ 64 }
    {
        let bytes = bytes_of(&self.files, self.opened);
        let _len = bytes.len();
        &bytes[self.at..]
    }

    /// How many bytes are left of the input that is open; 0 where none was opened yet.
    pub fn left(&self) -> usize
        ensures { result ≡ length (left_of self.now) }
    {
        self.rest().len()
    }

    // Whether the next call is to fail.
    fn fails_now(&self) -> bool
        ensures exact { result ≡ fails_next self.now }
        ensures sound { (state_of self.now).sound_now ≡ true → result ≡ false }
    {
        self.fails.iter().any(|n| *n == self.calls)
    }
}

impl Inputs for MemInputs {
    ghost use Rattle.std.specs.Prelude.{true, false, min, IsErr, IfOk, ◌⊎◌, ◌↔◌};
    ghost use Rattle.rmx_edge.specs.Count.{faults_after};
    ghost use Rattle.rmx_edge.specs.Inputs.{Opens, Reads};
    ghost use Rattle.rmx_edge.specs.MemInputs.{state_of, left_of, most_of, fails_next, has_file, GoesOn};

    ghost state = { state_of };

    fn open_input(&mut self, name: &str) -> Result<(), Failed>
        ensures opened { Opens name.now result (state_of self.old) (state_of self.new) }
        ensures exact { IsErr result ↔ ((fails_next self.old ≡ true) ⊎ (has_file self.old name.now ≡ false)) }
        ensures faults { (state_of self.new).faults ≡ faults_after result (state_of self.old).faults }
        ensures goes_on { GoesOn self.old self.new }
    {
        let failing = self.fails_now();
        self.calls = self.calls.saturating_add(1);
        self.readable = false;
        if !failing {
            if let Some(place) = place_of(&self.files, name) {
                self.at = 0;
                self.opened = place;
                self.ended = false;
                self.readable = true;
                return Ok(());
            }
        }
        self.faults = self.faults.saturating_add(1);
        Err(Failed)
    }

    fn read(&mut self, buf: &mut [u8]) -> Result<usize, Failed>
        requires readable { (state_of self.old).readable ≡ true }
        requires room { 0 < length buf.old }
        ensures taken { Reads result buf.new (state_of self.old) (state_of self.new) }
        ensures exact { IsErr result ↔ (fails_next self.old ≡ true) }
        ensures faults { (state_of self.new).faults ≡ faults_after result (state_of self.old).faults }
        ensures amount { IfOk result (λ n. n ≡ min (min (length (left_of self.old)) (length buf.old)) (most_of self.old)) }
        ensures goes_on { GoesOn self.old self.new }
    {
        let failing = self.fails_now();
        self.calls = self.calls.saturating_add(1);
        if failing {
            self.readable = false;
            self.faults = self.faults.saturating_add(1);
            return Err(Failed);
        }
        let rest = self.rest();
        let count = copy_front(rest, buf, self.most);
        self.at += count;
        if count == 0 {
            self.ended = true;
            self.readable = false;
        }
        Ok(count)
    }
}
