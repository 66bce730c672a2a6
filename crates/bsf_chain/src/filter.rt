// Filters.
ghost use Rattle.std.specs.Prelude.{◌≡◌};
ghost use Rattle.bsf_chain.specs.Apply.{acts_on_video as on_video, acts_on_audio as on_audio};
ghost use Rattle.bsf_chain.specs.Chain.{is_keeper as keeper};

use thiserror::Error;

/// A bitstream filter.
#[derive(Clone, Copy, Debug, PartialEq, Eq)]
pub enum Filter {
    /// AVC behind start codes, with the parameter sets before the first IDR unit.
    ToAnnexB,
    /// The units whose type's bit is set, where bit 0 is the lowest.
    FilterUnits { keep: u32 },
    /// The parameter sets in front of each key packet, or of every packet.
    DumpExtra { all: bool },
    /// Nothing.
    Null,
    /// AAC in ADTS frames.
    AacAdts,
}

/// Why a text is no chain. The text of each is its name.
#[derive(Clone, Copy, Debug, PartialEq, Eq, Error)]
pub enum BsfFault {
    #[error("UnknownFilter")]
    UnknownFilter,
    #[error("BadArgument")]
    BadArgument,
}

impl Default for Filter {
    ghost use Rattle.bsf_chain.specs.declared.filter.Filter.TheVariants.{Null};

    ghost is_default = { λ filter. filter ≡ Null };

    fn default() -> Filter {
        Filter::Null
    }
}

pub(crate) fn acts_on_video(filter: Filter) -> bool
    ensures { result ≡ on_video filter }
{
    match filter {
        Filter::ToAnnexB | Filter::FilterUnits { .. } | Filter::DumpExtra { .. } => true,
        Filter::Null | Filter::AacAdts => false,
    }
}

pub(crate) fn acts_on_audio(filter: Filter) -> bool
    ensures { result ≡ on_audio filter }
{
    match filter {
        Filter::AacAdts => true,
        _ => false,
    }
}

pub(crate) fn is_keeper(filter: Filter) -> bool
    ensures { result ≡ keeper filter }
{
    match filter {
        Filter::FilterUnits { .. } | Filter::Null => true,
        Filter::ToAnnexB | Filter::DumpExtra { .. } | Filter::AacAdts => false,
    }
}
