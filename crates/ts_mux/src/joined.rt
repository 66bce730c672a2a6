// Pieces read as one run of bytes.
ghost use Rattle.std.specs.Prelude.{◌≡◌, ◌+◌, ◌-◌, ◌<◌, ◌≤◌, false, length, take, drop, ◌++◌, min};
ghost use Rattle.ts_mux.specs.Cells.{cell as cell_of, no_flags};

use crate::cell_front::{front, make_whole};
use crate::pieces::Source;
use ts_psi::cell::put;

/// A cursor over pieces.
#[derive(Drop)]
pub(crate) struct Joined<'a, P> {
    pub(crate) current: &'a [u8],
    pub(crate) pieces: P,
}

// Copies as much of a piece as there is room for from this place on.
fn copy_some(out: &mut [u8], at: usize, piece: &[u8]) -> usize
    requires { at ≤ length out.old }
    ensures count { result ≡ min (length piece.now) (length out.old - at) }
    ensures copied { out.new ≡ take at out.old ++ (take result piece.now ++ drop (at + result) out.old) }
{
    let count = piece.len().min(out.len() - at);
    out[at..at + count].copy_from_slice(&piece[..count]);
    count
}

impl<'a, P: Source<'a>> Joined<'a, P> {
    // Takes the next piece where the current one is used up.
    fn refill(&mut self)
        requires { 0 < length (self.old.current.now ++ P.left self.old.pieces) }
        ensures same { self.new.current.now ++ P.left self.new.pieces ≡ self.old.current.now ++ P.left self.old.pieces }
        ensures some { 0 < length self.new.current.now }
    {
        if self.current.is_empty() {
            match self.pieces.next_piece() {
                Some(piece) => self.current = piece,
                None => unreachable!(),
            }
        }
    }

    // Copies from the current piece, and passes what was copied.
    fn copy_next(&mut self, out: &mut [u8], at: usize) -> usize
        requires at { at < length out.old }
        requires more { 0 < length (self.old.current.now ++ P.left self.old.pieces) }
        ensures some { 0 < result }
        ensures within { at + result ≤ length out.old }
        ensures copied { out.new ≡ take at out.old ++ (take result (self.old.current.now ++ P.left self.old.pieces) ++ drop (at + result) out.old) }
        ensures rest { self.new.current.now ++ P.left self.new.pieces ≡ drop result (self.old.current.now ++ P.left self.old.pieces) }
    {
        self.refill();
        let piece = self.current;
        let count = copy_some(out, at, piece);
        self.current = &piece[count..];
        count
    }

    /// Fills a part of a cell with the next bytes.
    pub(crate) fn fill(&mut self, out: &mut [u8])
        requires { length out.old ≤ length (self.old.current.now ++ P.left self.old.pieces) }
        ensures filled { out.new ≡ take (length out.old) (self.old.current.now ++ P.left self.old.pieces) }
        ensures rest { self.new.current.now ++ P.left self.new.pieces ≡ drop (length out.old) (self.old.current.now ++ P.left self.old.pieces) }
    {
        let mut at = 0;
        while at < out.len() {
            at += self.copy_next(out, at);
        }
    }

    /// Makes it a cell behind a PES packet's first one, which carries the next bytes, so many.
    pub(crate) fn next_cell(&mut self, cell: &mut [u8; 188], pid: u16, counter: u8, count: usize)
        requires pid { pid < 8192 }
        requires counter { counter < 16 }
        requires count { count ≤ 184 }
        requires left { count ≤ length (self.old.current.now ++ P.left self.old.pieces) }
        ensures cell { cell.new ≡ cell_of pid false counter no_flags (take count (self.old.current.now ++ P.left self.old.pieces)) }
        ensures rest { self.new.current.now ++ P.left self.new.pieces ≡ drop count (self.old.current.now ++ P.left self.old.pieces) }
    {
        // Most cells are filled from one piece: those take one copy of a fixed size.
        if count == 184 && self.current.len() >= 184 {
            let (body, rest) = self.current.split_at(184);
            self.current = rest;
            make_whole(cell, pid, counter, body);
            return;
        }
        *cell = self.cell(pid, false, counter, &[0], &[], count);
    }

    /// A cell that carries so many bytes, first those of `head` and then the next ones.
    pub(crate) fn cell(
        &mut self,
        pid: u16,
        start: bool,
        counter: u8,
        flags: &[u8],
        head: &[u8],
        count: usize,
    ) -> [u8; 188]
        requires pid { pid < 8192 }
        requires counter { counter < 16 }
        requires count { count ≤ 184 }
        requires flags { length flags.now ≤ 183 }
        requires head { length head.now ≤ count }
        requires left { count ≤ length (head.now ++ (self.old.current.now ++ P.left self.old.pieces)) }
        ensures cell { result ≡ cell_of pid start counter flags.now (take count (head.now ++ (self.old.current.now ++ P.left self.old.pieces))) }
        ensures rest { self.new.current.now ++ P.left self.new.pieces ≡ drop count (head.now ++ (self.old.current.now ++ P.left self.old.pieces)) }
    {
        let mut cell = front(pid, start, counter, flags, count);
        let at = 188 - count;
        put(&mut cell, at, head);
        self.fill(&mut cell[at + head.len()..]);
        cell
    }
}
