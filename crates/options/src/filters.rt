//! The filter chains of an output, each with the streams that it is for.

ghost use Rattle.std.specs.Prelude.{◌≡◌, ◌+◌, ◌≤◌, ◌==◌, length};
ghost use Rattle.std.specs.Option.{SomeIff};
ghost use Rattle.options.specs.Read.{Gives};
ghost use Rattle.options.specs.Filters.{spec_number, is_same, chain, has_chain, are_native, selects, filters_for, fit_together, are_short};

use crate::fault::{ReadError, WordKind};
use crate::select::Spec;
use bsf_chain::Chain;
use rmx_media::Kind;

fn spec_number(spec: Spec) -> u64
    ensures { result ≡ spec_number spec }
{
    match spec {
        Spec::All => 0,
        Spec::Video => 1,
        Spec::Audio => 2,
        Spec::Index(number) => 3 + u64::from(number),
    }
}

fn is_same(a: Spec, b: Spec) -> bool
    ensures { result ≡ is_same a b }
{
    spec_number(a) == spec_number(b)
}

/// The chain that a text says.
#[tactic(auto, unfolding(crate::specs::Filters::chain))]
pub fn chain_of(text: &str) -> Result<Chain, ReadError>
    ensures { Gives (λ filters. filters) result (chain text.now) }
{
    match Chain::parse(text.as_bytes()) {
        Ok(chain) => Ok(chain),
        Err(_) => Err(ReadError::Fault(WordKind::BadFilter)),
    }
}

/// Whether there is a chain for exactly these streams.
pub fn has_chain(chains: &[(Spec, Chain)], spec: Spec) -> bool
    ensures { result ≡ has_chain chains.now spec }
{
    chains.iter().any(|chain| is_same(chain.0, spec))
}

/// Whether each of the chains keeps native packets native.
#[tactic(auto, unfolding(crate::specs::Filters::are_native))]
pub fn are_native(chains: &[(Spec, Chain)]) -> bool
    ensures { result ≡ are_native chains.now }
{
    chains.iter().all(|chain| chain.1.keeps_native())
}

/// Whether a specifier selects the stream of that number and kind.
pub fn selects(spec: Spec, number: u32, kind: Kind) -> bool
    ensures { result ≡ selects spec number kind }
{
    match spec {
        Spec::All => true,
        Spec::Video => kind == Kind::Video,
        Spec::Audio => kind == Kind::Audio,
        Spec::Index(index) => index == number,
    }
}

/// The chains that select that stream as one, in their order, or None where they have more than sixteen filters together.
pub fn joined_chain(chains: &[(Spec, Chain)], number: u32, kind: Kind) -> Option<Chain>
    ensures { SomeIff result (length (filters_for chains.now number kind) ≤ 16) (filters_for chains.now number kind) }
{
    let mut joined = Chain::empty();
    for chain in chains {
        if selects(chain.0, number, kind) {
            match joined.join(&chain.1) {
                Some(longer) => joined = longer,
                None => return None,
            }
        }
    }
    Some(joined)
}

fn fit_together(chains: &[(Spec, Chain)], number: u32, kind: Kind) -> bool
    ensures { result ≡ fit_together chains.now number kind }
{
    joined_chain(chains, number, kind).is_some()
}

/// Whether the chains that act on one stream never have more than sixteen filters together.
#[tactic(auto, unfolding(crate::specs::Filters::are_short))]
pub fn are_short(chains: &[(Spec, Chain)]) -> bool
    ensures { result ≡ are_short chains.now }
{
    fit_together(chains, 0, Kind::Video)
        && fit_together(chains, 1, Kind::Video)
        && fit_together(chains, 0, Kind::Audio)
        && fit_together(chains, 1, Kind::Audio)
}
