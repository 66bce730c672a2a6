//! A lane.
ghost use Rattle.std.specs.Prelude.{◌≡◌, ◌≢◌, ◌+◌, ◌^◌, ◌<◌, ◌≤◌, [], ◌∷◌, ◌++◌, length, false, true, IfOk, MatchOption, Some, None, ℕ, nat_lt, ◌==◌, ◌&&◌, ◌||◌};
ghost use mathlib.Core.List.{IsPrefix};
ghost use mathlib.Core.Option.{none};
ghost use Rattle.atomic_table.specs.Table.{step, Allows};
ghost use Rattle.rmx_media.specs.Fits.{Fits};
ghost use Rattle.rmx_media.specs.declared.packet.Format.TheVariants.{Segment};
ghost use Rattle.lane_core.specs.Machine as machine;
ghost use Rattle.lane.specs.Follows.{MayFollow, measure, size_of, next_index};
ghost use Rattle.lane.specs.Ring.{Stands, head_loaded, refusing, waiting};
ghost use Rattle.lane.specs.Told.{InOneOrder, AreOffers, IsGiven, Sees, IsOffered, IsTaken, IsTakenAtLast, first_told, SawInTime};

use crate::backoff::Backoff;
use crate::counts::LaneCounts;
use crate::ends::{Giver, Taker};
use crate::msg::{Msg, Purpose};
use crate::plays::{
    AddHead, AddOver, AddTail, Ask, Close, Compare, Fail, LoadClosed, LoadOver, LoadTail,
    OfferHead, Offering, PutHead, Seats, Turns,
};
use crate::receipt::{Offer, Receipt, Taken};
use crate::sizes::Sizes;
use crate::view::View;
use atomic_table::{Seat, Shared, Table};
use rmx_media::{Format, MuxStreams, NoMemory};
use std::alloc::Global;
use std::marker::{Brand, Model};
use std::snapshot::Snapshot;
use std::sync::Wait;

// The words of the table.
const HEAD: usize = 0;

const TAIL: usize = 1;

const OVER: usize = 2;

const CLOSED: usize = 3;

const FAILED: usize = 4;

// So many messages last the giver longer than the shortest sleep of the taker.
const PLENTY: u32 = 48;

/// A bounded queue of packets between two threads. Each has one end.
#[derive(Drop)]
pub struct Lane {
    pub(crate) table: Table<Option<Msg>, View<Msg, Purpose>, Purpose, Turns, Global>,
    cap: u64,
    // Whether the taker lets messages gather while it waits. Where the giver drops what finds no room, it doesn't.
    gathers: bool,
}

impl Model for Lane {
    ghost use Rattle.std.specs.Prelude.{◌≡◌, ◌<◌, ◌≤◌};
    ghost use Rattle.lane.specs.Ends.{LaneSide};

    ghost Value = { LaneSide };

    ghost view = { λ l. record { ring = l.table.shared.table_id; cap = l.cap } };

    ghost invariant = { λ l. (l.table.shared.table_id.words ≡ 5) × (l.table.shared.table_id.slots ≡ l.cap) × (0 < l.cap) × (l.cap ≤ 256) };
}

impl Lane {
    /// A lane of at most `cap` messages for packets that fit this format and these streams. It is also full where some
    /// messages wait and their bytes and the new ones pass `limit` (0: no bound). Its offers may be refused where `drops`.
    pub fn new(
        alloc: Global,
        cap: u32,
        limit: u64,
        drops: bool,
        format: Format,
        streams: &MuxStreams,
    ) -> Result<(Lane, Giver, Taker), NoMemory>
        requires cap { (0 < cap) × (cap ≤ 256) }
        requires format { format ≢ Segment }
        ensures lane { IfOk result (λ r. (r.0.cap ≡ cap) × (r.1.ring ≡ r.0.ring) × (r.2.ring ≡ r.0.ring)) }
        ensures about { IfOk result (λ r. (r.1.about.format ≡ format) × (r.1.about.streams.value ≡ streams.now) × (r.1.about.limit ≡ limit) × (r.1.about.drops ≡ drops) × (r.2.about ≡ r.1.about)) }
        ensures giver { IfOk result (λ r. (r.1.given ≡ []) × (r.1.seen ≡ 0) × (r.1.refusals ≡ []) × (r.1.closed ≡ false) × (r.1.asked ≡ 0) × (r.1.told ≡ None) × (r.1.past ≡ [])) }
        ensures taker { IfOk result (λ r. (r.2.got ≡ []) × (r.2.seen ≡ 0) × (r.2.numbers ≡ []) × (r.2.saw_closed ≡ false) × (r.2.ended ≡ false) × (r.2.failed ≡ false) × (r.2.past ≡ [])) }
    {
        let about = Purpose {
            format,
            streams: Snapshot::of(streams),
            limit,
            drops,
        };
        let sizes = Sizes::new(alloc, cap)?;
        let Ok((table, mut seat)) = Table::vacant(alloc, &[0, 0, 0, 0, 0], cap as usize, &about)
        else {
            return Err(NoMemory);
        };
        let other = table.shared.split_seat::<Seats>(&mut seat);
        let giver = Giver {
            seat,
            count: 0,
            head: 0,
            sizes,
            refused: 0,
            closed: false,
            asked: 0,
            told: None,
            limit,
            drops,
            about: Snapshot::of(&about),
        };
        let taker = Taker {
            seat: other,
            count: 0,
            failed: false,
            about: Snapshot::of(&about),
        };
        let lane = Lane {
            table,
            cap: cap as u64,
            gathers: cap >= PLENTY && !drops,
        };
        Ok((lane, giver, taker))
    }

    /// Offers a message to a lane that drops, and waits for nobody. It comes back with a receipt where the load of the
    /// head shows the lane full for it.
    pub fn offer(&self, giver: &mut Giver, msg: Msg) -> Offer
        requires ring { giver.old.ring ≡ self.now.ring }
        requires drops { giver.old.about.drops ≡ true }
        requires open { giver.old.closed ≡ false }
        requires few { (length giver.old.given < 2 ^ 61) × (length giver.old.refusals < 2 ^ 61) }
        requires above { next_index giver.old.past ≤ msg.index }
        requires low { msg.index < 2 ^ 61 }
        requires fits { Fits giver.old.about.format giver.old.about.streams.value msg.packet }
        ensures { IsOffered self.now.cap giver.old giver.new msg result }
    {
        let words = &self.table.shared;
        let size = msg.packet.payload.len() as u32;
        let head = offer_head::<Brand>(words, &mut giver.seat, &msg);
        giver.sizes.forget(head - giver.head);
        giver.head = head;
        let bytes = giver.sizes.bytes;
        if is_full(
            self.cap,
            giver.limit,
            giver.count,
            head,
            bytes + u64::from(size),
        ) {
            words.fetch_add::<AddOver>(&mut giver.seat, OVER, 1);
            giver.refused += 1;
            let receipt = Receipt {
                number: giver.refused,
                index: msg.index,
                accepted: giver.count,
                head,
                bytes,
            };
            return Offer::Refused(msg, receipt);
        }
        let slot = (giver.count % self.cap) as usize;
        match words.exchange(&mut giver.seat, slot, Some(msg)) {
            None => {}
            Some(_) => unreachable!(),
        }
        words.fetch_add::<AddTail>(&mut giver.seat, TAIL, 1);
        giver.count += 1;
        giver.sizes.push(size);
        Offer::Accepted
    }

    // Gives a message, or hands it back where the load of the head shows the lane full for it.
    fn give(&self, giver: &mut Giver, msg: Msg) -> Option<Msg>
        requires ring { giver.old.ring ≡ self.now.ring }
        requires open { giver.old.closed ≡ false }
        requires few { length giver.old.given < 2 ^ 61 }
        requires above { next_index giver.old.past ≤ msg.index }
        requires low { msg.index < 2 ^ 61 }
        requires fits { Fits giver.old.about.format giver.old.about.streams.value msg.packet }
        ensures { MatchOption result (IsGiven self.now.cap giver.old giver.new msg) (λ back. (back ≡ msg) × Sees giver.old giver.new × (giver.new ≡ record giver.old { seen = giver.new.seen })) }
    {
        let words = &self.table.shared;
        let size = msg.packet.payload.len() as u32;
        let head = put_head::<Brand>(words, &mut giver.seat, &msg);
        giver.sizes.forget(head - giver.head);
        giver.head = head;
        let bytes = giver.sizes.bytes + u64::from(size);
        if is_full(self.cap, giver.limit, giver.count, head, bytes) {
            return Some(msg);
        }
        let place = (giver.count % self.cap) as usize;
        match words.exchange(&mut giver.seat, place, Some(msg)) {
            None => {}
            Some(_) => unreachable!(),
        }
        words.fetch_add::<AddTail>(&mut giver.seat, TAIL, 1);
        giver.count += 1;
        giver.sizes.push(size);
        None
    }

    /// Gives a message to a lane that does not drop, once there is room.
    pub fn put<R: Wait>(&self, rt: &R, giver: &mut Giver, msg: Msg)
        requires ring { giver.old.ring ≡ self.now.ring }
        requires blocks { giver.old.about.drops ≡ false }
        requires open { giver.old.closed ≡ false }
        requires few { length giver.old.given < 2 ^ 61 }
        requires above { next_index giver.old.past ≤ msg.index }
        requires low { msg.index < 2 ^ 61 }
        requires fits { Fits giver.old.about.format giver.old.about.streams.value msg.packet }
        ensures { IsGiven self.now.cap giver.old giver.new msg }
    {
        let mut msg = msg;
        let mut backoff = Backoff::eager();
        for _ in rt.forever() {
            match self.give(giver, msg) {
                None => return,
                Some(back) => msg = back,
            }
            backoff.wait(rt);
        }
        unreachable!()
    }

    /// Says that nothing more will be given.
    pub fn close(&self, giver: &mut Giver)
        requires ring { giver.old.ring ≡ self.now.ring }
        requires open { giver.old.closed ≡ false }
        ensures { giver.new ≡ record giver.old { closed = true; past = (machine.close, machine.done) ∷ giver.old.past } }
    {
        self.table.shared.store::<Close>(&mut giver.seat, CLOSED, 1);
        giver.closed = true;
    }

    /// Whether the taker failed. Once the answer was yes it always is.
    pub fn failed(&self, giver: &mut Giver) -> bool
        requires ring { giver.old.ring ≡ self.now.ring }
        requires few { giver.old.asked < 2 ^ 63 }
        ensures told { giver.new ≡ record giver.old { asked = giver.old.asked + 1; told = first_told giver.old.told (giver.old.asked + 1) result } }
        ensures again { (v : ℕ) → giver.old.told ≡ Some v → result ≡ true }
    {
        let found = self.table.shared.load::<Ask>(&mut giver.seat, FAILED);
        giver.asked += 1;
        giver.told = first(giver.told, giver.asked, found == 1);
        found == 1
    }

    /// Takes the next message, and waits for nobody.
    pub fn take(&self, taker: &mut Taker) -> Taken
        requires { taker.old.ring ≡ self.now.ring }
        ensures { IsTaken taker.old taker.new result }
    {
        let words = &self.table.shared;
        let closed = words.load::<LoadClosed>(&mut taker.seat, CLOSED);
        let tail = words.load::<LoadTail>(&mut taker.seat, TAIL);
        if tail == taker.count {
            return if closed == 0 {
                Taken::Empty
            } else {
                Taken::Ended
            };
        }
        let slot = (taker.count % self.cap) as usize;
        let msg = words.exchange(&mut taker.seat, slot, None).unwrap();
        words.fetch_add::<AddHead>(&mut taker.seat, HEAD, 1);
        taker.count += 1;
        Taken::Got(msg)
    }

    /// Takes the next message once there is one, or says that none will come. It never answers `Empty`.
    pub fn take_wait<R: Wait>(&self, rt: &R, taker: &mut Taker) -> Taken
        requires { taker.old.ring ≡ self.now.ring }
        ensures { IsTakenAtLast taker.old taker.new result }
    {
        let mut backoff = if self.gathers {
            Backoff::patient()
        } else {
            Backoff::eager()
        };
        for _ in rt.forever() {
            match self.take(taker) {
                Taken::Got(msg) => return Taken::Got(msg),
                Taken::Ended => return Taken::Ended,
                Taken::Empty => backoff.wait(rt),
            }
        }
        unreachable!()
    }

    /// The number of refused offers.
    pub fn overflows(&self, taker: &mut Taker) -> u64
        requires { taker.old.ring ≡ self.now.ring }
        ensures { taker.new ≡ record taker.old { numbers = taker.old.numbers ++ (result, length taker.old.got) ∷ []; past = (machine.see, machine.overs result) ∷ taker.old.past } }
    {
        self.table.shared.load::<LoadOver>(&mut taker.seat, OVER)
    }

    /// Tells the giver that what it gives is of no use.
    pub fn fail(&self, taker: &mut Taker)
        requires { taker.old.ring ≡ self.now.ring }
        ensures { taker.new ≡ record taker.old { failed = true; past = (machine.fail, machine.done) ∷ taker.old.past } }
    {
        self.table.shared.store::<Fail>(&mut taker.seat, FAILED, 1);
        taker.failed = true;
    }

    /// Ends both, and counts what they did.
    pub fn settle(&self, giver: Giver, taker: Taker) -> LaneCounts
        requires giver { giver.ring ≡ self.now.ring }
        requires taker { taker.ring ≡ self.now.ring }
        ensures prefix { IsPrefix taker.got giver.given }
        ensures whole { taker.ended ≡ true → (giver.closed ≡ true) × (taker.got ≡ giver.given) }
        ensures offers { AreOffers giver }
        ensures blocks { giver.about.drops ≡ false → giver.refusals ≡ [] }
        ensures numbers { SawInTime giver.refusals taker.numbers }
        ensures told { (v : ℕ) → giver.told ≡ Some v → (taker.failed ≡ true) × (0 < v) × (v ≤ giver.asked) }
        ensures order { InOneOrder measure self.now.cap giver taker }
        ensures counts { result ≡ record { given = length giver.given; got = length taker.got; overs = length giver.refusals; closed = giver.closed; failed = taker.failed; drops = giver.about.drops; limit = giver.about.limit; asked = giver.asked; told = giver.told } }
    {
        let Giver {
            mut seat,
            count: given,
            head: _,
            sizes: _,
            refused: overs,
            closed,
            asked,
            told,
            limit,
            drops,
            about: _,
        } = giver;
        let Taker {
            seat: other,
            count: got,
            failed,
            about: _,
        } = taker;
        let words = &self.table.shared;
        words.join_seat::<Seats>(&mut seat, other);
        words.load::<Compare>(&mut seat, HEAD);
        LaneCounts {
            given,
            got,
            overs,
            closed,
            failed,
            drops,
            limit,
            asked,
            told,
        }
    }
}

// Whether a lane is full where `given` were given and `head` of them taken, for a message with which `bytes` would wait.
fn is_full(cap: u64, limit: u64, given: u64, head: u64, bytes: u64) -> bool
    requires { (head < 2 ^ 62) × (cap ≤ 256) }
    ensures { result ≡ ((given == head + cap) || ((nat_lt 0 limit && nat_lt head given) && nat_lt limit bytes)) }
{
    given == head + cap || (limit > 0 && head < given && bytes > limit)
}

// The load of the head for an offer of `msg`, which only the proof reads.
fn offer_head<M: Offering<Msg>>(
    words: &Shared<Option<Msg>, View<Msg, Purpose>, Purpose, Turns>,
    seat: &mut Seat<Option<Msg>, View<Msg, Purpose>>,
    msg: &Msg,
) -> u64
    requires offered { M.item ≡ Some msg.now }
    requires seat { (seat.old.table_id ≡ words.now.table_id) × (0 < words.now.table_id.words) × Allows (Stands MayFollow measure words.now.key) words.now.table_id.slots seat.old.id seat.old.me 0 (λ n. n) (head_loaded measure (refusing size_of (Some msg.now)) (size_of msg.now) (step words.now.table_id.slots 0 0 0 none) seat.old.me) }
    ensures { (seat.new.table_id ≡ seat.old.table_id) × (seat.new.id ≡ seat.old.id) × head_loaded measure (refusing size_of (Some msg.now)) (size_of msg.now) (step words.now.table_id.slots 0 0 0 none) seat.old.me result seat.new.me }
{
    let _ = msg;
    words.load::<OfferHead<M>>(seat, HEAD)
}

// The load of the head to give `msg` once there is room.
fn put_head<M: Offering<Msg>>(
    words: &Shared<Option<Msg>, View<Msg, Purpose>, Purpose, Turns>,
    seat: &mut Seat<Option<Msg>, View<Msg, Purpose>>,
    msg: &Msg,
) -> u64
    requires offered { M.item ≡ Some msg.now }
    requires seat { (seat.old.table_id ≡ words.now.table_id) × (0 < words.now.table_id.words) × Allows (Stands MayFollow measure words.now.key) words.now.table_id.slots seat.old.id seat.old.me 0 (λ n. n) (head_loaded measure waiting (size_of msg.now) (step words.now.table_id.slots 0 0 0 none) seat.old.me) }
    ensures { (seat.new.table_id ≡ seat.old.table_id) × (seat.new.id ≡ seat.old.id) × head_loaded measure waiting (size_of msg.now) (step words.now.table_id.slots 0 0 0 none) seat.old.me result seat.new.me }
{
    let _ = msg;
    words.load::<PutHead<M>>(seat, HEAD)
}

// The first question that was answered by yes.
fn first(told: Option<u64>, asked: u64, yes: bool) -> Option<u64>
    ensures { result ≡ first_told told asked yes }
{
    match told {
        Some(v) => Some(v),
        None => { if yes { Some(asked) } else { None } }
    }
}
