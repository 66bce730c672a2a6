//! The rule of a lane, and what each step tells. These types are for the proofs alone.
ghost use Rattle.lane.specs.Sight.{spent};
ghost use Rattle.lane.specs.Follows.{MayFollow, measure, size_of};
ghost use Rattle.lane.specs.Ring.{view_of, size_for, waiting, refusing, owing_none, shut, numbering, closing, failing, head_loaded, tail_added, giver_went, asked_after, tail_loaded, head_added, taker_went, compared, giver_part, taker_part, joined};

use crate::msg::{Msg, Purpose};
use crate::view::View;
use atomic_table::{Join, Play, Split, TableRule};
use std::marker::{Brand, PhantomData};

/// Names the message of an offer. Each call picks it.
pub(crate) trait Offering<T> {
    ghost use Rattle.std.specs.Prelude.{Option};

    ghost item: { Option T };
}

impl<T> Offering<T> for Brand {
    ghost use Rattle.std.specs.Prelude.{None};

    ghost item = { None };
}

pub(crate) struct Turns;

impl TableRule<Option<Msg>, View<Msg, Purpose>, Purpose> for Turns {
    ghost use Rattle.lane.specs.Follows.{MayFollow, measure};
    ghost use Rattle.lane.specs.Ring.{Stands, opened};

    ghost holds = { Stands MayFollow measure };

    ghost first = { opened };
}

/// A load of the head for an offer that may be refused.
pub(crate) struct OfferHead<M> {
    offered: PhantomData<M>,
}

impl<M: Offering<Msg>> Play<Option<Msg>, View<Msg, Purpose>> for OfferHead<M> {
    ghost then = { head_loaded measure (refusing size_of M.item) (size_for size_of M.item) };
}

/// A load of the head by a giver that tries again.
pub(crate) struct PutHead<M> {
    offered: PhantomData<M>,
}

impl<M: Offering<Msg>> Play<Option<Msg>, View<Msg, Purpose>> for PutHead<M> {
    ghost then = { head_loaded measure waiting (size_for size_of M.item) };
}

pub(crate) struct AddTail;

impl<T, K> Play<Option<T>, View<T, K>> for AddTail {
    ghost then = { tail_added };
}

pub(crate) struct AddOver;

impl<T, K> Play<Option<T>, View<T, K>> for AddOver {
    ghost then = { giver_went (λ _. owing_none) };
}

pub(crate) struct Close;

impl<T, K> Play<Option<T>, View<T, K>> for Close {
    ghost then = { giver_went (λ _. shut) };
}

pub(crate) struct Ask;

impl<T, K> Play<Option<T>, View<T, K>> for Ask {
    ghost then = { asked_after };
}

pub(crate) struct LoadTail;

impl Play<Option<Msg>, View<Msg, Purpose>> for LoadTail {
    ghost then = { tail_loaded MayFollow };
}

pub(crate) struct AddHead;

impl<T, K> Play<Option<T>, View<T, K>> for AddHead {
    ghost then = { head_added };
}

pub(crate) struct LoadOver;

impl<T, K> Play<Option<T>, View<T, K>> for LoadOver {
    ghost then = { taker_went numbering };
}

pub(crate) struct LoadClosed;

impl<T, K> Play<Option<T>, View<T, K>> for LoadClosed {
    ghost then = { taker_went closing };
}

pub(crate) struct Fail;

impl<T, K> Play<Option<T>, View<T, K>> for Fail {
    ghost then = { taker_went (λ _. failing) };
}

pub(crate) struct Compare;

impl Play<Option<Msg>, View<Msg, Purpose>> for Compare {
    ghost then = { compared measure };
}

pub(crate) struct Seats;

impl<T, K> Split<View<T, K>> for Seats {
    ghost left = { λ v. view_of (giver_part v.sight) };

    ghost right = { λ v. view_of (taker_part v.sight) };
}

impl<T, K> Join<View<T, K>> for Seats {
    ghost both = { λ v w. view_of (joined v.sight w.sight) };

    ghost spent = { view_of spent };
}
