//! The two ends of a lane. Only one thread at a time has each.
use crate::msg::{Msg, Purpose};
use crate::sizes::Sizes;
use crate::view::View;
use atomic_table::Seat;
use std::marker::Model;
use std::snapshot::Snapshot;

/// The end that gives. Contracts see its lane, and what it gave and was told.
#[derive(Drop)]
pub struct Giver {
    pub(crate) seat: Seat<Option<Msg>, View<Msg, Purpose>>,
    pub(crate) count: u64,
    pub(crate) head: u64,
    pub(crate) sizes: Sizes,
    pub(crate) refused: u64,
    pub(crate) closed: bool,
    pub(crate) asked: u64,
    pub(crate) told: Option<u64>,
    pub(crate) limit: u64,
    pub(crate) drops: bool,
    pub(crate) about: Snapshot<Purpose>,
}

impl Model for Giver {
    ghost use Rattle.lane.specs.declared.msg.Msg.{Msg as Letter};
    ghost use Rattle.lane.specs.declared.msg.Purpose.{Purpose as Aim};
    ghost use Rattle.lane.specs.Ends.{GiverEnd, giver_end, giver_in};

    ghost Value = { GiverEnd Letter Aim };

    ghost use Rattle.lane.specs.Tied.{GiverTied};

    ghost view = { λ s. giver_end s.seat.table_id s.about.value (giver_in s.about.value s.seat.me.0.sight) };

    ghost invariant = { GiverTied };
}

/// The end that takes. Contracts see its lane, and what it got and saw.
#[derive(Drop)]
pub struct Taker {
    pub(crate) seat: Seat<Option<Msg>, View<Msg, Purpose>>,
    pub(crate) count: u64,
    pub(crate) failed: bool,
    pub(crate) about: Snapshot<Purpose>,
}

impl Model for Taker {
    ghost use Rattle.lane.specs.declared.msg.Msg.{Msg as Letter};
    ghost use Rattle.lane.specs.declared.msg.Purpose.{Purpose as Aim};
    ghost use Rattle.lane.specs.Ends.{TakerEnd, taker_end, taker_in};

    ghost Value = { TakerEnd Letter Aim };

    ghost use Rattle.lane.specs.Tied.{TakerTied};

    ghost view = { λ s. taker_end s.seat.table_id s.about.value (taker_in s.about.value s.seat.me.0.sight) };

    ghost invariant = { TakerTied };
}
