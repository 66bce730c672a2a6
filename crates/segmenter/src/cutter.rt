// Where the packets of a session are cut.
ghost use Rattle.std.specs.Prelude.{◌≡◌, [], ◌∷◌, List};
ghost use Rattle.segmenter.specs.Cuts.{CutRule, Mark};

use rmx_media::Packet;

/// Decides packet by packet whether the files of a session are cut before it: at a packet of the stream that is cut at, and at
/// which decoding can begin unless any packet will do, once the time of a file has passed since the session's first packet as
/// often as there were cuts, and once more.
#[derive(Clone, Copy, Debug, PartialEq, Eq)]
pub struct Cutter {
    time_us: u64,
    any_packet: bool,
    // The pts of the first packet.
    first: Option<i64>,
    // How long after the first packet a cut is due, in µs.
    due_us: u128,
}

impl Cutter {
    ghost use Rattle.std.specs.Prelude.{ℕ, min, ◌-◌, ◌^◌};
    ghost use Rattle.segmenter.specs.Cuts.{cuts};
    ghost use Rattle.segmenter.specs.Cutter.{Shows, due_by};

    /// Cuts files that last so long, in µs, at packets at which decoding can begin, or at any.
    pub fn new(time_us: u64, any_packet: bool) -> Cutter
        ensures { Shows result (record { time_us = time_us; any_packet = any_packet }) [] }
    {
        Cutter {
            time_us,
            any_packet,
            first: None,
            due_us: u128::from(time_us),
        }
    }

    /// Whether a packet cuts, behind those that were asked about before. `reference` tells whether its stream is the one that is
    /// cut at, and `restart` whether decoding can begin there.
    pub fn cuts(&mut self, p: &Packet, reference: bool, restart: bool) -> bool
        ensures cuts { (rule : CutRule) (earlier : List Mark) → Shows self.old rule earlier
            → result ≡ cuts rule earlier (record { pts = p.now.pts; reference = reference; restart = restart }) }
        ensures shows { (rule : CutRule) (earlier : List Mark) → Shows self.old rule earlier
            → Shows self.new rule (record { pts = p.now.pts; reference = reference; restart = restart } ∷ earlier) }
    {
        if self.first.is_none() {
            self.first = Some(p.pts);
            return false;
        }
        if !reference || !(restart || self.any_packet) || !self.is_due(p) {
            return false;
        }
        self.due_us = self.due_us.saturating_add(u128::from(self.time_us));
        true
    }

    // Whether a cut is due at a packet. None is before the first one.
    fn is_due(&self, p: &Packet) -> bool
        ensures { (due_us : ℕ) → self.now.due_us ≡ min due_us (2 ^ 128 - 1) → result ≡ due_by self.now.first due_us p.now.pts }
    {
        match self.first {
            Some(first) if first <= p.pts => {
                u128::from(p.pts.abs_diff(first)) * 1000 >= self.due_us
            }
            _ => false,
        }
    }
}
