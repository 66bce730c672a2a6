// One output. Every place for a record is reserved before the calls of the turn that may need it.
ghost use Rattle.std.specs.Prelude.{◌≡◌, ◌+◌, ◌-◌, ◌≤◌, ◌<◌, ◌∷◌, ◌++◌, ◌⊎◌, [], true, false, ◌^◌, ℕ, Some, None, IsSome, List, Option, length, IfOk, IfErr, string_bytes};
ghost use Rattle.fifo_core.specs.State.{Shows, hand_of, next_of};
ghost use Rattle.fifo_core.specs.History.{History, answered_done, action_of, flush_of, mode_of, mode_is_live, mode_is_dead};
ghost use Rattle.fifo_core.specs.declared.types.FifoOptions.{FifoOptions};
ghost use Rattle.fifo_core.specs.declared.types.PacketFacts.{PacketFacts};
ghost use Rattle.rmx_edge.specs.Counted.{with_count, inner, bytes_of};
ghost use Rattle.rmx_media.specs.Streams.{CanMux};
ghost use Rattle.rmx_media.specs.declared.packet.Format.{Format};
ghost use Rattle.rmx_media.specs.declared.packet.Packet.{Packet};
ghost use Rattle.rmx_media.specs.declared.streams.MuxStreams.{MuxStreams};
ghost use Rattle.playlist.specs.declared.seg_options.SegOptions.{SegOptions};
ghost use Rattle.slave.specs.Calls.{IsBuilt};
ghost use Rattle.slave.specs.Origin.{Origin, facts_of, session_name as session_in_name};
ghost use Rattle.slave.specs.Given.{Given, Sent, Swept, end_from};
ghost use Rattle.slave.specs.Runs.{Joins};
ghost use Rattle.slave.specs.Job.{ClosesLast, WriterAfter};
ghost use Rattle.slave.specs.Watched.{inner as watched};
ghost use Rattle.fifo_core.specs.declared.types.Answer.TheVariants as answer;

use crate::kit::SlaveKit;
use crate::mux::Mux;
use crate::name::session_name;
use crate::places::Places;
use crate::records::{FaultAt, FaultNote, LaneNote, Run, SessionNote};
use crate::runs::{add_fate, joins};
use crate::watched::Watched;
use arrayvec::ArrayString;
use fifo_core::{Action, After, Answer, EndState, Fate, FifoOptions, FifoState, PacketFacts};
use playlist::SegOptions;
use rmx_edge::{Counted, Shelf, ShelfFault};
use rmx_media::{Format, Items, MuxStreams, NoMemory, Packet, is_restart};
use std::alloc::Global;

/// An output: its muxer and its shelf, the fate machine, and what is recorded of both.
#[derive(Drop)]
pub struct SlaveJob<S: Shelf> {
    shelf: Watched<Counted<S>>,
    name: String,
    video: Option<u32>,
    mux: Mux,
    fifo: FifoState,
    runs: Places<Run>,
    sessions: Places<SessionNote>,
    faults: Places<FaultNote>,
}

/// What an output tells of its run.
#[derive(Drop)]
pub struct SlaveEnd<S> {
    pub shelf: S,
    /// The fates of its packets, in order.
    pub fates: Items<Run>,
    /// Its sessions, numbered from 0.
    pub sessions: Items<SessionNote>,
    /// The faults of its shelf, in order.
    pub faults: Items<FaultNote>,
    pub state: EndState,
    /// Whether it was to have a thread and had none.
    pub inline: bool,
    /// Its queue, if it had one.
    pub lane: Option<LaneNote>,
    /// The bytes of all accepted writes, at most 2^64 - 1.
    pub bytes: u64,
}

impl<S: Shelf> SlaveJob<S> {
    ghost use Rattle.slave.specs.Job.{view_of, KitOf, Puts, Begins, Opens, Asks, Settles, OpensAndPuts, MakesRoom, Closes};
    ghost use Rattle.slave.specs.Table.{Tells, expected_in, Keeps, Grows, KeepsAll, GrowsAll, Holds, Ends, Concludes, Primed, PrimedFor, Acts, Sweeps, Takes};
    ghost use Rattle.slave.specs.Fresh.{IsFresh};
    ghost use Rattle.slave.specs.Prepared.{IsPrepared};
    ghost use Rattle.slave.specs.End.{EndedBy, EndedAllBy, IsUnclosed, end_view};

    /// It reserves places for two runs, of which one is for want of memory alone, a session and a fault. `seg` is there exactly
    /// where the format is Segment, and the name is a template then. A refusal hands the shelf back.
    pub fn new(
        alloc: Global,
        name: String,
        format: Format,
        seg: Option<SegOptions>,
        options: FifoOptions,
        streams: MuxStreams,
        shelf: S,
    ) -> Result<SlaveJob<S>, (S, NoMemory)>
        requires idle { (S.state shelf).writing ≡ false }
        requires short { length (string_bytes name) ≤ 200 }
        requires built { IsBuilt format seg (string_bytes name) }
        requires streams { CanMux streams }
        ensures fresh { IfOk result (λ job.
            IsFresh (record { shelf = with_count (S.state shelf) 0 0; name = string_bytes name; format = format; seg = seg; streams = streams }) options (view_of S.state job)) }
        ensures back { IfErr result (λ e. e.0 ≡ shelf) }
    {
        match SlaveKit::new(alloc, name, format, seg, options, streams) {
            Ok(kit) => Ok(SlaveJob::with_kit(kit, shelf)),
            Err(refused) => Err((shelf, refused)),
        }
    }

    /// The output on its shelf. It takes no memory.
    pub fn with_kit(kit: SlaveKit, shelf: S) -> SlaveJob<S>
        requires idle { (S.state shelf).writing ≡ false }
        ensures fresh { (name : List ℕ) (format : Format) (seg : Option SegOptions) (o : FifoOptions) (streams : MuxStreams) → IsPrepared name format seg o streams kit
            → IsFresh (record { shelf = with_count (S.state shelf) 0 0; name = name; format = format; seg = seg; streams = streams }) o (view_of S.state result) }
    {
        let SlaveKit {
            name,
            video,
            mux,
            fifo,
            runs,
            sessions,
            faults,
        } = kit;
        SlaveJob {
            shelf: Watched::new(Counted::new(shelf)),
            name,
            video,
            mux,
            fifo,
            runs,
            sessions,
            faults,
        }
    }

    /// Opens session 0.
    pub fn start(&mut self)
        requires { (g : Origin) × (o : FifoOptions) × IsFresh g o (view_of S.state self.old) }
        ensures { (g : Origin) (o : FifoOptions) → IsFresh g o (view_of S.state self.old) → Keeps g o [] (view_of S.state self.new) }
    {
        match self.open() {
            Answer::Done => self.fifo.on_begin(Answer::Done),
            Answer::NoMemory => self.fifo.on_begin(Answer::NoMemory),
            Answer::Fault => {
                self.fifo.on_begin(Answer::Fault);
                if !self.ask() {
                    self.fifo.on_want();
                }
            }
        }
    }

    /// Whether the output was given up.
    pub fn is_dead(&self) -> bool
        ensures { (g : Origin) (o : FifoOptions) (L : List Packet) (k : Keeps g o L (view_of S.state self.now))
            → result ≡ mode_is_dead (mode_of o k.history) }
    {
        self.is_given_up()
    }

    /// The same for packets with gaps.
    pub fn is_given_up(&self) -> bool
        ensures { (g : Origin) (o : FifoOptions) (T : List Given) (k : KeepsAll g o T (view_of S.state self.now))
            → result ≡ mode_is_dead (mode_of o k.history) }
    {
        self.fifo.is_dead()
    }

    /// How many packets may wait for the output.
    pub fn queue_size(&self) -> u32
        ensures { (g : Origin) (o : FifoOptions) (T : List Given) → KeepsAll g o T (view_of S.state self.now) → result ≡ o.queue_size }
    {
        self.fifo.queue_size()
    }

    // What the machine is told of a packet.
    fn facts(&self, p: &Packet) -> PacketFacts
        ensures { (g : Origin) → KitOf g (view_of S.state self.now).kit → result ≡ facts_of g p.now }
    {
        PacketFacts {
            dts: p.dts,
            restart: is_restart(p, self.video),
        }
    }

    // Writes the packet in hand. A fault is noted.
    fn put(&mut self, index: u64, p: &Packet) -> Answer
        requires writing { (view_of S.state self.old).shelf.writing ≡ true }
        requires place { 1 ≤ (view_of S.state self.old).fault_places }
        requires fits { (g : Origin) × KitOf g (view_of S.state self.old).kit × Takes g p.now }
        ensures { (g : Origin) (first : ℕ) (before : List Packet) → KitOf g (view_of S.state self.old).kit → WriterAfter g first before (view_of S.state self.old).kit.writer → Takes g p.now
            → Puts g first before p.now (FaultAt.Put index) (view_of S.state self.old) result (view_of S.state self.new) }
    {
        let before = self.shelf.fault_count();
        let session = self.fifo.session();
        match self.mux.put(p, &mut self.shelf) {
            Ok(()) => Answer::Done,
            Err(ShelfFault::NoMemory) => Answer::NoMemory,
            Err(ShelfFault::Failed) => {
                self.faults.push(FaultNote {
                    session,
                    at: FaultAt::Put(index),
                    before,
                    after: self.shelf.fault_count(),
                });
                Answer::Fault
            }
        }
    }

    // The name of a session's file.
    fn file_name(&self, session: u64) -> ArrayString<256>
        requires { (g : Origin) × KitOf g (view_of S.state self.now).kit }
        ensures { (g : Origin) → KitOf g (view_of S.state self.now).kit → result.bytes ≡ session_in_name g.name session }
    {
        session_name(self.name.as_str(), session)
    }

    // Begins the file of the session that is to be opened. A fault is noted.
    fn begin(&mut self) -> Answer
        requires idle { (view_of S.state self.old).shelf.writing ≡ false }
        requires place { 1 ≤ (view_of S.state self.old).fault_places }
        requires kit { (g : Origin) × KitOf g (view_of S.state self.old).kit }
        ensures { (g : Origin) → KitOf g (view_of S.state self.old).kit → Begins g (view_of S.state self.old) result (view_of S.state self.new) }
    {
        let before = self.shelf.fault_count();
        let session = self.fifo.session();
        let name = self.file_name(session);
        match self.mux.begin(name.as_str(), &mut self.shelf) {
            Ok(()) => Answer::Done,
            Err(ShelfFault::NoMemory) => Answer::NoMemory,
            Err(ShelfFault::Failed) => {
                self.faults.push(FaultNote {
                    session,
                    at: FaultAt::Begin,
                    before,
                    after: self.shelf.fault_count(),
                });
                Answer::Fault
            }
        }
    }

    // Opens the session that is to be opened, and notes it.
    fn open(&mut self) -> Answer
        requires idle { (view_of S.state self.old).shelf.writing ≡ false }
        requires note_place { 1 ≤ (view_of S.state self.old).session_places }
        requires place { 1 ≤ (view_of S.state self.old).fault_places }
        requires kit { (g : Origin) × KitOf g (view_of S.state self.old).kit }
        ensures { (g : Origin) → KitOf g (view_of S.state self.old).kit → Opens g (view_of S.state self.old) result (view_of S.state self.new) }
    {
        let number = self.fifo.session();
        let answer = self.begin();
        self.sessions.push(SessionNote {
            number,
            begun: is_done(answer),
            closed: false,
        });
        answer
    }

    // Asks for the places of a run, a note and a session.
    fn ask(&mut self) -> bool
        ensures { Asks (view_of S.state self.old) result (view_of S.state self.new) }
    {
        if self.runs.reserve(2).is_err() {
            return false;
        }
        if self.faults.reserve(1).is_err() {
            return false;
        }
        self.sessions.reserve(1).is_ok()
    }

    // Adds a packet's fate.
    fn settle(&mut self, index: u64, fate: Fate)
        requires place { (1 ≤ (view_of S.state self.old).run_places) ⊎ Joins (view_of S.state self.old).runs index fate }
        requires few { index < 2 ^ 61 }
        ensures { Settles index fate (view_of S.state self.old) (view_of S.state self.new) }
    {
        add_fate(&mut self.runs, index, fate);
    }

    // Opens the next session and writes the packet in hand there.
    fn open_and_put(&mut self, index: u64, p: &Packet) -> Answer
        requires idle { (view_of S.state self.old).shelf.writing ≡ false }
        requires note_place { 1 ≤ (view_of S.state self.old).session_places }
        requires place { 1 ≤ (view_of S.state self.old).fault_places }
        requires fits { (g : Origin) × KitOf g (view_of S.state self.old).kit × Takes g p.now }
        ensures { (g : Origin) → KitOf g (view_of S.state self.old).kit → Takes g p.now
            → OpensAndPuts g p.now (FaultAt.Put index) (view_of S.state self.old) result (view_of S.state self.new) }
    {
        match self.open() {
            Answer::Done => self.put(index, p),
            Answer::Fault => Answer::Fault,
            Answer::NoMemory => Answer::NoMemory,
        }
    }

    // Makes room for the run of this fate.
    fn make_room(&mut self, index: u64, fate: Fate) -> bool
        ensures { MakesRoom index fate (view_of S.state self.old) result (view_of S.state self.new) }
    {
        if joins(&self.runs, index, fate) {
            return true;
        }
        self.runs.reserve(2).is_ok()
    }

    // What becomes of the packet if its calls are all done.
    fn expected(&self, index: u64, facts: PacketFacts) -> Fate
        requires free { hand_of self.now.fifo ≡ None }
        requires later { next_of self.now.fifo ≤ index }
        requires few { index < 2 ^ 61 }
        ensures { (o : FifoOptions) (h : History) → Shows o h None self.now.fifo → result ≡ expected_in o h (action_of o h index facts) }
    {
        let mut next = self.fifo;
        match next.on_packet(index, facts) {
            Action::Settle(fate) => fate,
            Action::Write => Fate::Written(next.session()),
            Action::OpenAndWrite => Fate::Written(next.session()),
        }
    }

    // Tells the machine the answer. After a fault it asks for places first.
    fn tell(&mut self, a: Answer) -> After
        requires { IsSome (hand_of self.old.fifo) }
        ensures { (o : FifoOptions) (h : History) (i : ℕ) (facts : PacketFacts) → Shows o h (Some (i, facts)) self.old.fifo
            → Tells o h i facts a (view_of S.state self.old) result (view_of S.state self.new) }
    {
        match a {
            Answer::Done => self.fifo.on_answer(Answer::Done),
            Answer::NoMemory => self.fifo.on_answer(Answer::NoMemory),
            Answer::Fault => {
                if self.ask() {
                    self.fifo.on_answer(Answer::Fault)
                } else {
                    self.fifo.on_want();
                    self.fifo.on_answer(Answer::Fault)
                }
            }
        }
    }

    // Ends the turn of the packet in hand, where it isn't tried again.
    fn finish(&mut self, index: u64, p: &Packet, answer: Answer)
        requires ready { (g : Origin) × (o : FifoOptions) × (T : List Given) × (h : History)
            × Holds g o T index p.now h answer (view_of S.state self.old) × (mode_is_live (mode_of o h) ≡ false) }
        requires few { index < 2 ^ 61 }
        ensures { (g : Origin) (o : FifoOptions) (T : List Given) (h : History)
            → Holds g o T index p.now h answer (view_of S.state self.old) → Ends g o T index p.now h answer (view_of S.state self.new) }
    {
        match self.tell(answer) {
            After::Settle(fate) => self.settle(index, fate),
            After::Again => unreachable!(),
        }
    }

    // Ends the turn of the packet in hand, after one more try where that may be.
    fn conclude(&mut self, index: u64, p: &Packet, answer: Answer)
        requires ready { (g : Origin) × (o : FifoOptions) × (T : List Given) × (h : History)
            × Holds g o T index p.now h answer (view_of S.state self.old) × Takes g p.now }
        requires few { index < 2 ^ 61 }
        ensures { (g : Origin) (o : FifoOptions) (T : List Given) (h : History)
            → Holds g o T index p.now h answer (view_of S.state self.old) → Takes g p.now → Concludes g o T index p.now h answer (view_of S.state self.new) }
    {
        match self.tell(answer) {
            After::Settle(fate) => self.settle(index, fate),
            After::Again => {
                let second = self.open_and_put(index, p);
                self.finish(index, p, second);
            }
        }
    }

    // Does what the machine says of the packet.
    fn act(&mut self, index: u64, p: &Packet)
        requires ready { (g : Origin) × (o : FifoOptions) × (T : List Given) × (h : History)
            × PrimedFor g o T index p.now h (view_of S.state self.old) × Takes g p.now }
        requires few { index < 2 ^ 61 }
        ensures { (g : Origin) (o : FifoOptions) (T : List Given) (h : History)
            → PrimedFor g o T index p.now h (view_of S.state self.old) → Takes g p.now → Acts g o T index p.now h (view_of S.state self.new) }
    {
        let facts = self.facts(p);
        match self.fifo.on_packet(index, facts) {
            Action::Settle(fate) => self.settle(index, fate),
            Action::Write => {
                let answer = self.put(index, p);
                self.conclude(index, p, answer);
            }
            Action::OpenAndWrite => {
                let answer = self.open_and_put(index, p);
                self.conclude(index, p, answer);
            }
        }
    }

    /// Makes the machine's steps for one packet: it is written, waited for, or lost, and its fate is recorded.
    pub fn write_direct(&mut self, index: u64, p: &Packet)
        requires ready { (g : Origin) × (o : FifoOptions) × (L : List Packet)
            × Keeps g o L (view_of S.state self.old) × (length L ≡ index) × Takes g p.now }
        requires few { index < 2 ^ 61 }
        ensures { (g : Origin) (o : FifoOptions) (L : List Packet) (k : Keeps g o L (view_of S.state self.old))
            → length L ≡ index → Takes g p.now → Grows g o (L ++ p.now ∷ []) k.history (view_of S.state self.new) }
    {
        self.write_at(index, p);
    }

    /// Does the same for a packet whose index may lie behind a gap.
    pub fn write_at(&mut self, index: u64, p: &Packet)
        requires ready { (g : Origin) × (o : FifoOptions) × (T : List Given)
            × KeepsAll g o T (view_of S.state self.old) × (end_from 0 T ≤ index) × Takes g p.now }
        requires few { index < 2 ^ 61 }
        ensures { (g : Origin) (o : FifoOptions) (T : List Given) (k : KeepsAll g o T (view_of S.state self.old))
            → end_from 0 T ≤ index → Takes g p.now → GrowsAll g o (T ++ Sent index p.now ∷ []) k.history (view_of S.state self.new) }
    {
        let facts = self.facts(p);
        let expected = self.expected(index, facts);
        if self.make_room(index, expected) {
            self.act(index, p);
        } else {
            self.fifo.on_want();
            self.act(index, p);
        }
    }

    // What becomes of a packet that is flushed.
    fn flushed(&self, index: u64, number: u64) -> Fate
        requires free { hand_of self.now.fifo ≡ None }
        requires later { next_of self.now.fifo ≤ index }
        requires few { index < 2 ^ 61 }
        ensures { (o : FifoOptions) (h : History) → Shows o h None self.now.fifo → result ≡ flush_of o h number }
    {
        let mut next = self.fifo;
        next.on_flush(number, index)
    }

    // Settles the fate of a packet that is flushed.
    fn sweep(&mut self, index: u64, number: u64)
        requires ready { (g : Origin) × (o : FifoOptions) × (T : List Given) × (h : History)
            × Primed g o T (Swept index number) (flush_of o h number) h (view_of S.state self.old) }
        requires few { index < 2 ^ 61 }
        ensures { (g : Origin) (o : FifoOptions) (T : List Given) (h : History)
            → Primed g o T (Swept index number) (flush_of o h number) h (view_of S.state self.old) → Sweeps g o T index number h (view_of S.state self.new) }
    {
        let fate = self.fifo.on_flush(number, index);
        self.settle(index, fate);
    }

    /// Makes the machine's step for a packet that is flushed, by the overflow of that number. Its index may lie behind a gap.
    pub fn flush_at(&mut self, index: u64, number: u64)
        requires ready { (g : Origin) × (o : FifoOptions) × (T : List Given)
            × KeepsAll g o T (view_of S.state self.old) × (end_from 0 T ≤ index) }
        requires few { index < 2 ^ 61 }
        ensures { (g : Origin) (o : FifoOptions) (T : List Given) (k : KeepsAll g o T (view_of S.state self.old))
            → end_from 0 T ≤ index → GrowsAll g o (T ++ Swept index number ∷ []) k.history (view_of S.state self.new) }
    {
        let expected = self.flushed(index, number);
        if self.make_room(index, expected) {
            self.sweep(index, number);
        } else {
            self.fifo.on_want();
            self.sweep(index, number);
        }
    }

    // Calls the muxer's end, and notes a fault of it.
    fn end(&mut self) -> Answer
        requires writing { (view_of S.state self.old).shelf.writing ≡ true }
        requires place { 1 ≤ (view_of S.state self.old).fault_places }
        requires begun { 0 < length (view_of S.state self.old).sessions }
        requires kit { (g : Origin) × KitOf g (view_of S.state self.old).kit }
        ensures { (g : Origin) (first : ℕ) (before : List Packet) → KitOf g (view_of S.state self.old).kit → WriterAfter g first before (view_of S.state self.old).kit.writer
            → Closes g first before (view_of S.state self.old) result (view_of S.state self.new) }
    {
        let before = self.shelf.fault_count();
        let session = self.fifo.session();
        match self.mux.end(&mut self.shelf) {
            Ok(()) => {
                close_last(&mut self.sessions);
                Answer::Done
            }
            Err(ShelfFault::NoMemory) => Answer::NoMemory,
            Err(ShelfFault::Failed) => {
                self.faults.push(FaultNote {
                    session,
                    at: FaultAt::End,
                    before,
                    after: self.shelf.fault_count(),
                });
                Answer::Fault
            }
        }
    }

    /// Ends the output, and tells what became of its packets.
    pub fn finish_direct(mut self) -> SlaveEnd<S>
        requires { (g : Origin) × (o : FifoOptions) × (L : List Packet) × Keeps g o L (view_of S.state self) }
        ensures ended { (g : Origin) (o : FifoOptions) (L : List Packet) (k : Keeps g o L (view_of S.state self))
            → EndedBy g o L k.history (end_view S.state result) }
        ensures given_up { (g : Origin) (o : FifoOptions) (L : List Packet) (k : Keeps g o L (view_of S.state self))
            → mode_is_dead (mode_of o k.history) ≡ true → IsUnclosed result.state }
    {
        self.finish_all()
    }

    /// Does the same for packets with gaps.
    pub fn finish_all(mut self) -> SlaveEnd<S>
        requires { (g : Origin) × (o : FifoOptions) × (T : List Given) × KeepsAll g o T (view_of S.state self) }
        ensures ended { (g : Origin) (o : FifoOptions) (T : List Given) (k : KeepsAll g o T (view_of S.state self))
            → EndedAllBy g o T k.history (end_view S.state result) }
        ensures given_up { (g : Origin) (o : FifoOptions) (T : List Given) (k : KeepsAll g o T (view_of S.state self))
            → mode_is_dead (mode_of o k.history) ≡ true → IsUnclosed result.state }
    {
        if self.fifo.is_live() {
            let answer = self.end();
            let state = self.fifo.on_end(Some(answer));
            self.into_end(state)
        } else {
            let state = self.fifo.on_end(None);
            self.into_end(state)
        }
    }

    fn into_end(self, state: EndState) -> SlaveEnd<S>
        ensures shelf { result.shelf ≡ inner (watched self.shelf) }
        ensures fates { result.fates.items ≡ self.runs.items }
        ensures sessions { result.sessions.items ≡ self.sessions.items }
        ensures faults { result.faults.items ≡ self.faults.items }
        ensures state { result.state ≡ state }
        ensures inline { result.inline ≡ false }
        ensures lane { result.lane ≡ None }
        ensures bytes { result.bytes ≡ bytes_of (watched self.shelf) }
    {
        let bytes = self.shelf.shelf().bytes();
        let SlaveJob {
            shelf,
            name: _,
            video: _,
            mux: _,
            fifo: _,
            runs,
            sessions,
            faults,
        } = self;
        SlaveEnd {
            shelf: shelf.into_inner().into_inner(),
            fates: runs.into_items(),
            sessions: sessions.into_items(),
            faults: faults.into_items(),
            state,
            inline: false,
            lane: None,
            bytes,
        }
    }
}

fn is_done(answer: Answer) -> bool
    ensures { result ≡ answered_done answer }
{
    matches!(answer, Answer::Done)
}

// Notes that the last session was closed.
fn close_last(sessions: &mut Places<SessionNote>)
    requires { 0 < length sessions.old.items }
    ensures { ClosesLast answer.Done sessions.old.items sessions.new.items }
{
    match sessions.last() {
        Some(last) => sessions.replace_last(SessionNote {
            number: last.number,
            begun: last.begun,
            closed: true,
        }),
        None => unreachable!(),
    }
}
