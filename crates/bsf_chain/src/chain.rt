// Chains.
ghost use Rattle.std.specs.Prelude.{◌≡◌, List, ◌+◌, ◌≤◌, ◌++◌, [], true, length, IfOk, IfSome, IfNone, ◌<◌};
ghost use Rattle.std.specs.Option.{SomeIff};
ghost use Rattle.bsf_chain.specs.Apply.{result_of, IsKept};
ghost use Rattle.bsf_chain.specs.Chain.{are_keepers};
ghost use Rattle.bsf_chain.specs.Parse.{chain_of};
ghost use Rattle.rmx_media.specs.Config.{kind_of, IsAsRead};
ghost use Rattle.rmx_media.specs.Fits.{IsPayload, Fits};
ghost use Rattle.rmx_media.specs.declared.streams.MuxStreams.{MuxStreams};

use crate::apply::applied;
use crate::filter::is_keeper;
use crate::parse::parse_filters;
use crate::{BsfFault, Filter};
use arrayvec::ArrayVec;
use rmx_media::{Form, Format, NoMemory, Packet, StreamInfo};
use std::alloc::Global;
use std::marker::Model;

/// At most sixteen filters, one after another. Contracts see the list of them.
#[derive(Drop)]
pub struct Chain {
    filters: ArrayVec<Filter, 16>,
}

impl Model for Chain {
    ghost use Rattle.std.specs.Prelude.{List};
    ghost use Rattle.bsf_chain.specs.declared.filter.Filter.{Filter};

    ghost Value = { List Filter };

    ghost view = { λ c. c.filters.items };
}

impl Chain {
    /// No filter.
    pub fn empty() -> Chain
        ensures { result ≡ [] }
    {
        Chain {
            filters: ArrayVec::new(),
        }
    }

    /// Reads filters that are separated by `,`. The first fault from the left is answered: UnknownFilter for a name that
    /// is none, BadArgument for an argument that its filter doesn't take, and for a seventeenth filter.
    pub fn parse(text: &[u8]) -> Result<Chain, BsfFault>
        ensures { result ≡ chain_of text.now }
    {
        match parse_filters(text) {
            Ok(filters) => Ok(Chain { filters }),
            Err(fault) => Err(fault),
        }
    }

    /// Whether what it leaves of a native packet is native, and no longer.
    pub fn keeps_native(&self) -> bool
        ensures { result ≡ are_keepers self.now }
    {
        all_keep(self.filters.as_slice())
    }

    /// What the filters leave of a native packet of a stream: the packet itself where none of them does anything, None
    /// where no unit is left. Times, key, configuration and version stay. Of the stream only its kind is asked.
    pub fn apply(
        &self,
        alloc: Global,
        info: &StreamInfo,
        p: &Packet,
    ) -> Result<Option<Packet>, NoMemory>
        requires kind { kind_of p.now.config ≡ info.now.kind }
        requires form { p.now.form ≡ Form.Native }
        requires config { IsAsRead p.now.config }
        requires payload { IsPayload p.now.config Form.Native p.now.payload }
        ensures value { IfOk result (λ packet. packet ≡ result_of self.now p.now) }
        // Such filters leave a native packet that is no longer.
        ensures native { are_keepers self.now ≡ true → IfOk result (λ packet. IsKept p.now packet) }
        // What fits FLV fits MPEG-TS after that.
        ensures fits { (s : MuxStreams) → Fits Format.Flv s p.now → IfOk result (λ packet. IfSome packet (Fits Format.Mpegts s)) }
    {
        let _kind = info.kind;
        applied(alloc, self.filters.as_slice(), p, p.payload.as_slice())
    }

    /// This chain and then the other, or None where there are more than sixteen filters.
    pub fn join(&self, other: &Chain) -> Option<Chain>
        ensures { SomeIff result (length self.now + length other.now ≤ 16) (self.now ++ other.now) }
    {
        match joined(self.filters.as_slice(), other.filters.as_slice()) {
            Some(filters) => Some(Chain { filters }),
            None => None,
        }
    }
}

fn all_keep(filters: &[Filter]) -> bool
    ensures { result ≡ are_keepers filters.now }
{
    filters.iter().all(|filter| is_keeper(*filter))
}

fn joined(first: &[Filter], second: &[Filter]) -> Option<ArrayVec<Filter, 16>>
    ensures some { IfSome result (λ filters. filters.items ≡ first.now ++ second.now) }
    ensures fits { IfSome result (λ filters. length first.now + length second.now ≤ 16) }
    ensures none { IfNone result (16 < length first.now + length second.now) }
{
    let mut filters = ArrayVec::new();
    if first.len() > 16 || second.len() > 16 - first.len() {
        return None;
    }
    for filter in first {
        filters.push(*filter);
    }
    for filter in second {
        filters.push(*filter);
    }
    Some(filters)
}
