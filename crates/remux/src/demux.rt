// Packets of bytes that come in pieces.
ghost use Rattle.std.specs.Prelude.{◌≡◌, ℕ, ◌<◌, [], ◌++◌, List, Bool, true, false, OnErr, IfOk, OnOk, Option, Some, None, is_some};
ghost use Rattle.flv_tags.specs.declared.tag.Tag.{Tag};
ghost use Rattle.flv_demux.specs.declared.deal.Kinds.{Kinds};
ghost use Rattle.flv_demux.specs.Probe.{stream_count};
ghost use Rattle.flv_demux.specs.State.{HasDealt, left_in, is_packet};
ghost use Rattle.remux.specs.Demuxed.{Nexts, Firsts};
ghost use Rattle.remux.specs.Told.{told};

use flv_demux::{DemuxFault, DemuxStep, Demuxer};
use rmx_media::NoMemory;

/// A reader of packets that is fed the bytes of an input.
pub trait Demux {
    /// It was fed these bytes, and dealt with these tags.
    ghost has: { Self → List ℕ → List Tag → Type 0 };

    /// The end was told.
    ghost ended: { Self → Bool };

    /// The kinds that have a stream, once that is decided.
    ghost known: { Self → Option Kinds };

    /// How many packets the bytes fed still give, at most.
    ghost left: { Self → ℕ };

    /// Takes the next piece.
    fn feed(&mut self, piece: &[u8]) -> Result<(), NoMemory>
        requires { ended self.old ≡ false }
        ensures fed { OnOk result ((b : List ℕ) (done : List Tag) → has self.old b done → has self.new (b ++ piece.now) done) }
        ensures known { (b : List ℕ) (done : List Tag) → has self.old b done → known self.new ≡ known self.old }
        ensures unended { ended self.new ≡ false }
        ensures err { OnErr result ((b : List ℕ) (done : List Tag) → has self.old b done → has self.new b done) };

    /// Tells the end.
    fn finish(&mut self)
        ensures same { (b : List ℕ) (done : List Tag) → has self.old b done → has self.new b done }
        ensures known { (b : List ℕ) (done : List Tag) → has self.old b done → known self.new ≡ known self.old }
        ensures ended { ended self.new ≡ true };

    /// The next packet.
    fn next_packet(&mut self) -> Result<DemuxStep, DemuxFault>
        ensures first { (b : List ℕ) → known self.old ≡ None → has self.old b [] → Firsts result b (ended self.old) (known self.new) (has self.new b) }
        ensures step { (s : Kinds) (b : List ℕ) (done : List Tag) → known self.old ≡ Some s → 0 < stream_count s → has self.old b done → Nexts result s b done (ended self.old) (known self.new) (has self.new b) }
        ensures ended { ended self.new ≡ ended self.old }
        ensures fewer { IfOk result (λ step. is_packet step ≡ true → left self.new < left self.old) };

    /// Whether it is decided which streams there are.
    fn knows(&self) -> bool
        ensures { (b : List ℕ) (done : List Tag) → has self.now b done → result ≡ is_some (known self.now) };
}

impl Demux for Demuxer {
    ghost has = { λ d b done. HasDealt b done d };

    ghost ended = { λ d. d.core.reader.ended };

    ghost known = { told };

    ghost left = { λ d. left_in d.core };

    fn feed(&mut self, piece: &[u8]) -> Result<(), NoMemory> {
        Demuxer::feed(self, piece)
    }

    fn finish(&mut self) {
        Demuxer::finish(self)
    }

    fn next_packet(&mut self) -> Result<DemuxStep, DemuxFault> {
        Demuxer::next_packet(self)
    }

    fn knows(&self) -> bool {
        self.streams().is_some()
    }
}
