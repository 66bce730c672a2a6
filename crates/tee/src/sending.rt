// What the reader does with a lane.
ghost use Rattle.std.specs.Prelude.{◌≡◌, ◌≤◌, ◌<◌, ◌+◌, ◌++◌, ◌∷◌, [], ◌^◌, ℕ, List, Option, Some, false, length, IfOk, OnOk};
ghost use Rattle.lane.specs.Follows.{next_index};
ghost use Rattle.rmx_media.specs.Config.{kind_of};
ghost use Rattle.rmx_media.specs.Fits.{Fits};
ghost use Rattle.rmx_media.specs.Streams.{AreInfos, IsSound};
ghost use Rattle.rmx_media.specs.declared.packet.Format.TheVariants.{Flv};
ghost use Rattle.rmx_media.specs.declared.streams.MuxStreams.{MuxStreams};
ghost use Rattle.slave.specs.Table.{Takes};
ghost use Rattle.rmx_media.specs.declared.packet.Packet.{Packet as Piece};
ghost use Rattle.rmx_media.specs.declared.streams.StreamInfo.{StreamInfo as Info};
ghost use Rattle.tee.specs.Choice.{choice as choice_by};
ghost use Rattle.tee.specs.Route.{IsFiltered, IsPlaced};
ghost use Rattle.tee.specs.Seat.{Seat, IsInput};
ghost use Rattle.tee.specs.Tracks.{ToldBy};

use crate::choice::Choice;
use crate::filter::Filtered;
use crate::sender::Sender;
use lane::{Msg, Offer};
use rmx_edge::{Gate, Point};
use rmx_media::{NoMemory, Packet, StreamInfo};
use std::alloc::Global;
use std::sync::Wait;

// What an output with this choice gets of a packet.
fn left_of(
    choice: &Choice,
    alloc: Global,
    info: &StreamInfo,
    p: &Packet,
) -> Result<Option<Packet>, NoMemory>
    requires info { IsSound info.now }
    requires kind { kind_of p.now.config ≡ info.now.kind }
    requires fits { (all : MuxStreams) × Fits Flv all p.now }
    requires number { p.now.stream < 2 }
    ensures { (infos : List Info) (seat : Seat) → AreInfos infos → IsPlaced infos seat choice.now → IsInput infos p.now
        → IfOk result (λ left. IsFiltered seat p.now left) }
{
    match choice.filter(alloc, info, p) {
        Ok(Filtered::Same) => match p.copy() {
            Ok(packet) => Ok(Some(packet)),
            Err(refused) => Err(refused),
        },
        Ok(Filtered::Other(packet)) => Ok(Some(packet)),
        Ok(Filtered::Dropped) => Ok(None),
        Err(refused) => Err(refused),
    }
}

impl Sender {
    ghost use Rattle.tee.specs.Rides.{HasPlace, Hands, Rides, SameEnd};

    // Gives a message to the lane, or keeps the receipt of its refusal.
    fn hand<R: Wait>(&mut self, rt: &R, msg: Msg)
        requires open { self.old.giver.closed ≡ false }
        requires drops { self.old.giver.about.drops ≡ self.old.drops }
        requires place { HasPlace self.old }
        requires few { (length self.old.giver.given < 2 ^ 61) × (length self.old.giver.refusals < 2 ^ 61) }
        requires above { next_index self.old.giver.past ≤ msg.index }
        requires low { msg.index < 2 ^ 61 }
        requires fits { Fits self.old.giver.about.format self.old.giver.about.streams.value msg.packet }
        ensures { Hands msg self.old self.new }
    {
        if self.drops {
            match self.lane.offer(&mut self.giver, msg) {
                Offer::Accepted => {}
                Offer::Refused(_back, receipt) => self.receipts.push(receipt),
            }
        } else {
            self.lane.put(rt, &mut self.giver, msg);
        }
    }

    // Offers a packet that the output takes.
    fn send<R: Wait>(&mut self, rt: &R, packet: Packet)
        requires open { self.old.giver.closed ≡ false }
        requires place { HasPlace self.old }
        requires ready { (infos : List Info) × (given : List Piece) × (asked : ℕ) × (seat : Seat) × (told : Option ℕ) × Rides infos given asked seat told self.old
            × Takes seat.origin packet × (length given < 2 ^ 61) }
        ensures same { SameEnd self.old self.new }
        ensures rides { (infos : List Info) (given : List Piece) (asked : ℕ) (seat : Seat) (told : Option ℕ) (q : Piece) → Rides infos given asked seat told self.old
            → Some packet ≡ choice_by seat.origin.streams.streams.items seat.slave.chains q → Rides infos (given ++ q ∷ []) asked seat told self.new }
    {
        let index = self.count;
        self.hand(rt, Msg { index, packet });
        self.count += 1;
    }

    /// Offers what is left of a packet.
    pub fn give<G: Gate, R: Wait>(&mut self, rt: &R, gate: &G, number: u32)
        requires open { self.old.giver.closed ≡ false }
        requires place { HasPlace self.old }
        requires ready { (infos : List Info) × (given : List Piece) × (asked : ℕ) × (seat : Seat) × (told : Option ℕ) × (p : Piece) × Rides infos given asked seat told self.old
            × IsFiltered seat p self.old.left × (length given < 2 ^ 61) }
        ensures same { SameEnd self.old self.new }
        ensures rides { (infos : List Info) (given : List Piece) (asked : ℕ) (seat : Seat) (told : Option ℕ) (p : Piece) → Rides infos given asked seat told self.old
            → IsFiltered seat p self.old.left → Rides infos (given ++ p ∷ []) asked seat told self.new }
    {
        match self.left.take() {
            Some(packet) => {
                gate.pass(rt, number, Point::BeforeOffer);
                self.send(rt, packet);
            }
            None => {}
        }
    }

    /// Asks whether the output was given up.
    pub fn ask(&mut self)
        requires few { self.old.giver.asked < 2 ^ 63 }
        ensures same { SameEnd self.old self.new }
        ensures rides { (infos : List Info) (given : List Piece) (asked : ℕ) (seat : Seat) (told : Option ℕ) → Rides infos given asked seat told self.old
            → (after : Option ℕ) × Rides infos given (asked + 1) seat after self.new × ToldBy (asked + 1) told after }
    {
        self.failed = self.lane.failed(&mut self.giver);
    }

    // Takes the memory of one more receipt, where offers may be refused.
    fn reserve(&mut self) -> Result<(), NoMemory>
        ensures same { SameEnd self.old self.new }
        ensures left { self.new.left ≡ self.old.left }
        ensures rides { (infos : List Info) (given : List Piece) (asked : ℕ) (seat : Seat) (told : Option ℕ) → Rides infos given asked seat told self.old
            → Rides infos given asked seat told self.new }
        ensures place { OnOk result (HasPlace self.new) }
    {
        if self.drops {
            self.receipts.reserve(1)
        } else {
            Ok(())
        }
    }

    // Keeps what is left of a packet.
    fn keep(&mut self, alloc: Global, info: &StreamInfo, p: &Packet) -> Result<(), NoMemory>
        requires info { IsSound info.now }
        requires kind { kind_of p.now.config ≡ info.now.kind }
        requires fits { (all : MuxStreams) × Fits Flv all p.now }
        requires number { p.now.stream < 2 }
        ensures same { SameEnd self.old self.new }
        ensures rides { (infos : List Info) (given : List Piece) (asked : ℕ) (seat : Seat) (told : Option ℕ) → Rides infos given asked seat told self.old
            → Rides infos given asked seat told self.new }
        ensures left { OnOk result ((infos : List Info) (seat : Seat) → AreInfos infos → IsPlaced infos seat self.old.choice → IsInput infos p.now → IsFiltered seat p.now self.new.left) }
    {
        match left_of(&self.choice, alloc, info, p) {
            Ok(left) => {
                self.left = left;
                Ok(())
            }
            Err(refused) => Err(refused),
        }
    }

    /// Keeps what is left of a packet, and takes the memory that may be needed when it is offered.
    pub fn prepare(&mut self, alloc: Global, info: &StreamInfo, p: &Packet) -> Result<(), NoMemory>
        requires info { IsSound info.now }
        requires kind { kind_of p.now.config ≡ info.now.kind }
        requires fits { (all : MuxStreams) × Fits Flv all p.now }
        requires number { p.now.stream < 2 }
        ensures same { SameEnd self.old self.new }
        ensures rides { (infos : List Info) (given : List Piece) (asked : ℕ) (seat : Seat) (told : Option ℕ) → Rides infos given asked seat told self.old
            → Rides infos given asked seat told self.new }
        ensures left { OnOk result ((infos : List Info) (seat : Seat) → AreInfos infos → IsPlaced infos seat self.old.choice → IsInput infos p.now → IsFiltered seat p.now self.new.left) }
        ensures place { OnOk result (HasPlace self.new) }
    {
        match self.keep(alloc, info, p) {
            Ok(()) => self.reserve(),
            Err(refused) => Err(refused),
        }
    }
}
