// The machine keeps what the next decision needs, in place of the history.
ghost use Rattle.std.specs.Prelude.{◌≡◌, ℕ, ◌+◌, ◌*◌, ◌^◌, ◌<◌, ◌≤◌, ◌&&◌, ◌==◌, [], ◌∷◌, Some, None, Option, IsSome, true, false, ◌||◌};
ghost use Rattle.fifo_core.specs.History.{mode_is_live, mode_is_dead, is_below};
ghost use Rattle.fifo_core.specs.Kept.{faults_ahead, sessions_ahead, needs_by, mode_by, tries_by};

use crate::types::{Action, After, Answer, EndState, Fate, FifoOptions, Mode, PacketFacts};

/// The fate machine of one output. It takes no memory. Each call is said for every history that the machine shows.
#[derive(Clone, Copy, Debug)]
pub struct FifoState {
    options: FifoOptions,
    mode: Mode,
    attempts: u64,
    since: Option<i64>,
    session: u64,
    notes: u64,
    wanted: bool,
    written: Option<(u64, u64)>,
    next: u64,
    hand: Option<(u64, PacketFacts)>,
    ghost few_packets: { next ≤ 2 ^ 61 },
    ghost few_notes: { notes + faults_ahead mode hand ≤ 2 * next + 1 },
    ghost few_sessions: { session + sessions_ahead mode hand ≤ next },
    ghost few_attempts: { attempts ≤ notes },
}

impl FifoState {
    ghost use Rattle.fifo_core.specs.History.{History, Begun, Fated, Want, action_of, after_of, flush_of, is_live, end_of, mode_of, answered_want};
    ghost use Rattle.fifo_core.specs.State.{Shows, hand_of, next_of, session_in, wanted_in, session_shown, after_action, hand_after_action, after_answer, hand_after_answer, hand_left};
    ghost use Rattle.fifo_core.specs.declared.types.FifoOptions.{FifoOptions};
    ghost use Rattle.fifo_core.specs.declared.types.PacketFacts.{PacketFacts};

    /// The machine before session 0 is begun.
    pub fn new(options: FifoOptions) -> FifoState
        ensures shows { Shows options [] None result }
        ensures next { next_of result ≡ 0 }
        ensures held { hand_of result ≡ None }
        ensures unwanted { wanted_in result ≡ false }
    {
        FifoState {
            options,
            mode: Mode::Live,
            attempts: 0,
            since: None,
            session: 0,
            notes: 0,
            wanted: false,
            written: None,
            next: 0,
            hand: None,
        }
    }

    /// The first call: the answer of session 0's `begin`.
    pub fn on_begin(&mut self, a: Answer)
        requires { hand_of self.old ≡ None }
        ensures begun { (o : FifoOptions) → Shows o [] None self.old → Shows o (Begun a ∷ []) None self.new }
        ensures next { next_of self.new ≡ next_of self.old }
        ensures held { hand_of self.new ≡ None }
        ensures wants { wanted_in self.new ≡ (answered_want a || wanted_in self.old) }
    {
        match a {
            Answer::Done => {}
            Answer::Fault => {
                self.mode = mode_after(&self.options, 0, 0);
                self.attempts = 0;
                self.notes = 1;
            }
            Answer::NoMemory => self.wanted = true,
        }
    }

    /// A packet comes. After `Write` and `OpenAndWrite` it is in hand.
    #[tactic(auto, using(crate::proofs::Readings::action_kept))]
    pub fn on_packet(&mut self, index: u64, facts: PacketFacts) -> Action
        requires free { hand_of self.old ≡ None }
        requires later { next_of self.old ≤ index }
        requires few { index < 2 ^ 61 }

        ensures action { (o : FifoOptions) (h : History) → Shows o h None self.old → result ≡ action_of o h index facts }
        ensures turn { (o : FifoOptions) (h : History) → Shows o h None self.old
            → Shows o (after_action h index result) (hand_after_action index facts result) self.new }
        ensures next { next_of self.new ≡ index + 1 }
        ensures held { hand_of self.new ≡ hand_after_action index facts result }
        ensures wants { wanted_in self.new ≡ wanted_in self.old }
    {
        self.next = index + 1;
        if self.wanted {
            return Action::Settle(Fate::NoMemory);
        }
        match self.mode {
            Mode::Dead(note) => Action::Settle(Fate::AfterFailure(note)),
            Mode::Live => {
                if needs_restart(
                    &self.options,
                    self.mode,
                    self.written,
                    self.session,
                    index,
                    facts,
                ) {
                    Action::Settle(Fate::KeyWait)
                } else {
                    self.hand = Some((index, facts));
                    Action::Write
                }
            }
            Mode::Broken(note) => {
                if self.options.wait_ms != 0
                    && is_early(facts.dts, self.since, self.options.wait_ms)
                {
                    Action::Settle(Fate::Lost(note))
                } else if needs_restart(
                    &self.options,
                    self.mode,
                    self.written,
                    self.session,
                    index,
                    facts,
                ) {
                    Action::Settle(Fate::KeyWait)
                } else {
                    self.session += 1;
                    self.hand = Some((index, facts));
                    Action::OpenAndWrite
                }
            }
        }
    }

    /// The answer for the packet in hand. After `Again` it stays in hand, to be written in the next session.
    pub fn on_answer(&mut self, a: Answer) -> After
        requires { IsSome (hand_of self.old) }

        ensures after { (o : FifoOptions) (h : History) (i : ℕ) (facts : PacketFacts) → Shows o h (Some (i, facts)) self.old
            → result ≡ after_of o h i facts a }
        ensures turn { (o : FifoOptions) (h : History) (i : ℕ) (facts : PacketFacts) → Shows o h (Some (i, facts)) self.old
            → Shows o (after_answer o h i facts a result) (hand_after_answer i facts result) self.new }
        ensures next { next_of self.new ≡ next_of self.old }
        ensures held { hand_of self.new ≡ hand_left result (hand_of self.old) }
        ensures wants { wanted_in self.new ≡ (answered_want a || wanted_in self.old) }
    {
        let Some((index, facts)) = self.hand else {
            unreachable!()
        };
        match a {
            Answer::Done => {
                self.mode = Mode::Live;
                self.attempts = 0;
                self.hand = None;
                if self.wanted {
                    return After::Settle(Fate::NoMemory);
                }
                self.written = Some((index, self.session));
                After::Settle(Fate::Written(self.session))
            }
            Answer::NoMemory => {
                self.wanted = true;
                self.hand = None;
                After::Settle(Fate::NoMemory)
            }
            Answer::Fault => self.on_fault(index, facts),
        }
    }

    fn on_fault(&mut self, index: u64, facts: PacketFacts) -> After
        requires { hand_of self.old ≡ Some (index, facts) }
        ensures after { (o : FifoOptions) (h : History) → Shows o h (Some (index, facts)) self.old
            → result ≡ after_of o h index facts Answer.Fault }
        ensures turn { (o : FifoOptions) (h : History) → Shows o h (Some (index, facts)) self.old
            → Shows o (after_answer o h index facts Answer.Fault result) (hand_after_answer index facts result) self.new }
        ensures next { next_of self.new ≡ next_of self.old }
        ensures held { hand_of self.new ≡ hand_left result (hand_of self.old) }
        ensures wants { wanted_in self.new ≡ wanted_in self.old }
    {
        let note = self.notes;
        let was_live = is_open(self.mode);
        self.attempts = tries_after(self.mode, self.attempts);
        self.mode = mode_after(&self.options, self.attempts, note);
        self.since = Some(facts.dts);
        self.notes = note + 1;
        if self.wanted {
            self.hand = None;
            return After::Settle(Fate::NoMemory);
        }
        if !(was_live && self.options.attempt_recovery && self.options.wait_ms == 0) {
            self.hand = None;
            return After::Settle(Fate::Lost(note));
        }
        if needs_restart(
            &self.options,
            self.mode,
            self.written,
            self.session,
            index,
            facts,
        ) {
            self.hand = None;
            return After::Settle(Fate::KeyWait);
        }
        self.session += 1;
        After::Again
    }

    /// Memory was wanted for a run or a note. Every fate from now on is `NoMemory`.
    pub fn on_want(&mut self)
        ensures turn { (o : FifoOptions) (h : History) (hand : Option (ℕ × PacketFacts)) → Shows o h hand self.old → Shows o (Want ∷ h) hand self.new }
        ensures next { next_of self.new ≡ next_of self.old }
        ensures in_hand { hand_of self.new ≡ hand_of self.old }
        ensures wants { wanted_in self.new ≡ true }
    {
        self.wanted = true;
    }

    /// A packet that the lane gave up: its fate, by the number of the overflow.
    pub fn on_flush(&mut self, number: u64, index: u64) -> Fate
        requires free { hand_of self.old ≡ None }
        requires later { next_of self.old ≤ index }
        requires few { index < 2 ^ 61 }
        ensures fate { (o : FifoOptions) (h : History) → Shows o h None self.old → result ≡ flush_of o h number }
        ensures turn { (o : FifoOptions) (h : History) → Shows o h None self.old → Shows o (Fated index result ∷ h) None self.new }
        ensures next { next_of self.new ≡ index + 1 }
        ensures held { hand_of self.new ≡ None }
        ensures wants { wanted_in self.new ≡ wanted_in self.old }
    {
        self.next = index + 1;
        if self.wanted {
            return Fate::NoMemory;
        }
        match self.mode {
            Mode::Live => Fate::Flushed(number),
            Mode::Broken(_) => Fate::Flushed(number),
            Mode::Dead(note) => Fate::AfterFailure(note),
        }
    }

    /// The end, by what the muxer's `end` answered where it was called.
    pub fn on_end(&mut self, a: Option<Answer>) -> EndState
        requires free { hand_of self.old ≡ None }
        ensures state { (o : FifoOptions) (h : History) → Shows o h None self.old → result ≡ end_of h a }
        ensures same { self.new ≡ self.old }
    {
        match a {
            None => {
                if self.wanted {
                    EndState::NoMemory
                } else {
                    EndState::Failed
                }
            }
            Some(Answer::Done) => EndState::Closed,
            Some(Answer::Fault) => EndState::Failed,
            Some(Answer::NoMemory) => EndState::NoMemory,
        }
    }

    /// Whether a session is open and no memory was wanted: then the muxer's `end` is to be called at the end.
    pub fn is_live(&self) -> bool
        ensures { (o : FifoOptions) (h : History) (hand : Option (ℕ × PacketFacts)) → Shows o h hand self.now → result ≡ is_live o h }
    {
        !self.wanted && matches!(self.mode, Mode::Live)
    }

    /// Whether the output was given up.
    pub fn is_dead(&self) -> bool
        ensures { (o : FifoOptions) (h : History) (hand : Option (ℕ × PacketFacts)) → Shows o h hand self.now → result ≡ mode_is_dead (mode_of o h) }
    {
        matches!(self.mode, Mode::Dead(_))
    }

    /// How many packets may wait for the output.
    pub fn queue_size(&self) -> u32
        ensures { (o : FifoOptions) (h : History) (hand : Option (ℕ × PacketFacts)) → Shows o h hand self.now → result ≡ o.queue_size }
    {
        self.options.queue_size
    }

    /// The session that is open, or is to be opened for the packet in hand.
    pub fn session(&self) -> u64
        ensures number { result ≡ session_in self.now }
        ensures shown { (o : FifoOptions) (h : History) (hand : Option (ℕ × PacketFacts)) → Shows o h hand self.now → result ≡ session_shown o h hand }
    {
        self.session
    }
}

fn is_open(mode: Mode) -> bool
    ensures { result ≡ mode_is_live mode }
{
    matches!(mode, Mode::Live)
}

fn tries_after(mode: Mode, tries: u64) -> u64
    requires { tries < 2 ^ 63 }
    ensures { result ≡ tries_by mode tries }
{
    match mode {
        Mode::Live => 0,
        _ => tries + 1,
    }
}

/// The mode after a fault, with so many tries to recover before it.
fn mode_after(options: &FifoOptions, tries: u64, note: u64) -> Mode
    ensures { result ≡ mode_by options.now tries note }
{
    if !options.attempt_recovery
        || options.max_attempts != 0 && options.max_attempts as u64 <= tries
    {
        Mode::Dead(note)
    } else {
        Mode::Broken(note)
    }
}

/// Whether the packet would stand behind a gap and is none to restart with.
fn needs_restart(
    options: &FifoOptions,
    mode: Mode,
    written: Option<(u64, u64)>,
    session: u64,
    index: u64,
    facts: PacketFacts,
) -> bool
    ensures { result ≡ needs_by options.now mode written session index facts }
{
    if !options.restart || facts.restart || index == 0 {
        return false;
    }
    match (mode, written) {
        (Mode::Live, Some((last, within))) => last != index - 1 || within != session,
        _ => true,
    }
}

fn is_early(dts: i64, since: Option<i64>, wait: u64) -> bool
    ensures { result ≡ is_below dts since wait }
{
    match since {
        None => false,
        Some(since) => ((dts as i128) - (since as i128)) < (wait as i128),
    }
}
