//! One output's text.

ghost use Rattle.std.specs.Prelude.{◌≡◌, ◌∷◌, [], IfOk, unwrap_or, option_map, not, ◌&&◌, ◌||◌};
ghost use Rattle.std.specs.Str.{chars};
ghost use Rattle.options.specs.Read.{Gives};
ghost use Rattle.options.specs.Draft.{view as draft_view, no_options};
ghost use Rattle.options.specs.Filters.{are_native, are_short};
ghost use Rattle.options.specs.Slave.{view, is_segment, is_flv, writes_flv, segments_of, fifo_of, slave_of, checked, finished, plan_slave};

use crate::draft::Draft;
use crate::fault::{ReadError, WordKind};
use crate::fifo::FifoDraft;
use crate::filters::{are_native, are_short};
use crate::name::name_fault;
use crate::options::block_at;
use crate::segment::SegDraft;
use crate::select::Spec;
use bsf_chain::Chain;
use fifo_core::FifoOptions;
use playlist::{SegOptions, Template};
use rmx_media::{Format, Items, Text};
use std::alloc::{AllocError, Global};

/// What one output is to do.
#[derive(Drop)]
pub struct SlavePlan {
    /// Its file's name, or the template of its segments' names.
    pub name: Text,
    pub format: Format,
    /// How it is cut into segments, where it is.
    pub seg: Option<SegOptions>,
    /// The streams that it takes, where its format takes them.
    pub select: Items<Spec>,
    /// Whether the run ends where it fails.
    pub abort: bool,
    pub fifo: FifoOptions,
    /// The filter chains and the streams that each is for, in the order in which they act.
    pub chains: Items<(Spec, Chain)>,
}

fn is_segment(format: Format) -> bool
    ensures { result ≡ is_segment format }
{
    match format {
        Format::Segment => true,
        Format::Flv | Format::Adts | Format::Mpegts => false,
    }
}

fn segments_of(format: Format, draft: SegDraft) -> Option<SegOptions>
    ensures { result ≡ segments_of format draft }
{
    match format {
        Format::Segment => Some(draft.finish()),
        Format::Flv | Format::Adts | Format::Mpegts => None,
    }
}

// The chosen streams: all, where no choice is said.
fn chosen(alloc: Global, select: Option<Vec<Spec>>) -> Result<Items<Spec>, AllocError>
    ensures { IfOk result (λ chosen. chosen.items ≡ unwrap_or (option_map (λ specs. specs.items) select) (Spec.All ∷ [])) }
{
    match select {
        Some(specs) => Ok(Items::from_vec(specs)),
        None => Ok(Items::from_vec(vec![in alloc; Spec::All]?)),
    }
}

// What the options say of an output of that format and name, with their defaults where they aren't set.
fn slave_of(alloc: Global, format: Format, draft: Draft, name: &str) -> Result<SlavePlan, ReadError>
    ensures { Gives view result (Ok (slave_of format (draft_view draft) name.now)) }
{
    Ok(SlavePlan {
        name: Text::of(alloc, name)?,
        format,
        seg: segments_of(format, draft.segment),
        select: chosen(alloc, draft.select)?,
        abort: draft.abort.unwrap_or(true),
        fifo: fifo_of(draft.fifo, draft.use_fifo),
        chains: Items::from_vec(draft.chains),
    })
}

fn fifo_of(draft: Option<FifoDraft>, use_fifo: Option<bool>) -> FifoOptions
    ensures { result ≡ fifo_of draft use_fifo }
{
    draft
        .unwrap_or(FifoDraft::new())
        .finish(use_fifo.unwrap_or(false))
}

fn is_flv(format: Format) -> bool
    ensures { result ≡ is_flv format }
{
    match format {
        Format::Flv => true,
        Format::Adts | Format::Mpegts | Format::Segment => false,
    }
}

// Whether FLV is written, which takes native packets alone.
fn writes_flv(format: Format, segment: &SegDraft) -> bool
    ensures { result ≡ writes_flv format segment.now }
{
    match format {
        Format::Segment => is_flv(segment.inner.unwrap_or(Format::Mpegts)),
        Format::Flv => true,
        Format::Adts | Format::Mpegts => false,
    }
}

// Whether the chains don't fit the output.
fn has_bad_chains(format: Format, draft: &Draft) -> bool
    ensures { result ≡ ((writes_flv format (draft_view draft.now).segment && not (are_native (draft_view draft.now).chains)) || not (are_short (draft_view draft.now).chains)) }
{
    (writes_flv(format, &draft.segment) && !are_native(&draft.chains)) || !are_short(&draft.chains)
}

// What is checked behind the block, of an output of that format.
fn checked(alloc: Global, format: Format, draft: Draft, name: &str) -> Result<SlavePlan, ReadError>
    ensures { Gives view result (checked format (draft_view draft) name.now) }
{
    if !is_segment(format) && draft.segment.has_any() {
        return Err(ReadError::Fault(WordKind::UnknownOption));
    }
    if let Some(fault) = name_fault(name) {
        return Err(ReadError::Fault(fault));
    }
    if is_segment(format) && Template::parse(name).is_none() {
        return Err(ReadError::Fault(WordKind::BadTemplate));
    }
    if has_bad_chains(format, &draft) {
        return Err(ReadError::Fault(WordKind::BadFilter));
    }
    slave_of(alloc, format, draft, name)
}

// What is checked behind the block.
#[tactic(auto, unfolding(crate::specs::Slave::finished))]
fn finish(alloc: Global, draft: Draft, name: &str) -> Result<SlavePlan, ReadError>
    ensures { Gives view result (finished (draft_view draft) name.now) }
{
    let Some(format) = draft.format else {
        return Err(ReadError::Fault(WordKind::UnknownFormat));
    };
    checked(alloc, format, draft, name)
}

/// The plan of an output of that format and name, with every option's default.
pub fn default_slave(alloc: Global, format: Format, name: &str) -> Result<SlavePlan, ReadError>
    ensures { Gives view result (checked format no_options name.now) }
{
    checked(alloc, format, Draft::new(alloc), name)
}

/// The plan that an output's text says.
#[tactic(auto, unfolding(crate::specs::Slave::plan_slave))]
pub fn slave_plan(alloc: Global, text: &str) -> Result<SlavePlan, ReadError>
    ensures { Gives view result (plan_slave (chars text.now)) }
{
    let (draft, name) = block_at(alloc, text)?;
    finish(alloc, draft, name)
}
