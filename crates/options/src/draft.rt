//! What the options of an output have set so far.

ghost use Rattle.std.specs.Prelude.{◌≡◌};
ghost use Rattle.options.specs.Read.{Gives};
ghost use Rattle.options.specs.Draft.{view, no_options, is_set, with_format, with_select, with_on_fail, with_use_fifo, with_fifo_options, with_chain, segment_with, with_segment, with_value, with_named};

use crate::fault::{ReadError, WordKind};
use crate::fifo::FifoDraft;
use crate::fifos::fifo_options_of;
use crate::filters::{chain_of, has_chain};
use crate::key::{Key, key_of};
use crate::keyword::{flag_of, format_of, on_fail_of};
use crate::segment::SegDraft;
use crate::select::{Spec, specs_of};
use bsf_chain::Chain;
use rmx_media::Format;
use std::alloc::Global;

/// What the options of an output have set so far: one place for each option.
#[derive(Drop)]
pub struct Draft {
    pub format: Option<Format>,
    pub select: Option<Vec<Spec>>,
    pub abort: Option<bool>,
    pub use_fifo: Option<bool>,
    pub fifo: Option<FifoDraft>,
    pub segment: SegDraft,
    /// The filter chains, in the order in which they were said.
    pub chains: Vec<(Spec, Chain)>,
}

impl Draft {
    /// Nothing is set.
    pub fn new(alloc: Global) -> Draft
        ensures { view result ≡ no_options }
    {
        Draft {
            format: None,
            select: None,
            abort: None,
            use_fifo: None,
            fifo: None,
            segment: SegDraft::new(),
            chains: Vec::new(alloc),
        }
    }

    /// Whether the option came before.
    fn has(&self, key: Key) -> bool
        ensures { result ≡ is_set key (view self.now) }
    {
        match key {
            Key::Format => self.format.is_some(),
            Key::Select => self.select.is_some(),
            Key::OnFail => self.abort.is_some(),
            Key::UseFifo => self.use_fifo.is_some(),
            Key::FifoOptions => self.fifo.is_some(),
            Key::Filters => has_chain(&self.chains, Spec::All),
            Key::VideoFilters => has_chain(&self.chains, Spec::Video),
            Key::AudioFilters => has_chain(&self.chains, Spec::Audio),
            Key::FirstFilters => has_chain(&self.chains, Spec::Index(0)),
            Key::SecondFilters => has_chain(&self.chains, Spec::Index(1)),
            Key::SegmentFormat => self.segment.inner.is_some(),
            Key::SegmentTime => self.segment.time_us.is_some(),
            Key::SegmentList => self.segment.list.is_some(),
            Key::SegmentListType => self.segment.list_kind.is_some(),
            Key::SegmentStart => self.segment.start.is_some(),
            Key::ResetTimestamps => self.segment.reset.is_some(),
            Key::BreakNonKeyframes => self.segment.any_packet.is_some(),
        }
    }

    fn with_format(self, value: &str) -> Result<Draft, ReadError>
        ensures { Gives view result (with_format value.now (view self)) }
    {
        let Some(format) = format_of(value) else {
            return Err(ReadError::Fault(WordKind::UnknownFormat));
        };
        let mut draft = self;
        draft.format = Some(format);
        Ok(draft)
    }

    fn with_select(self, alloc: Global, value: &str) -> Result<Draft, ReadError>
        ensures { Gives view result (with_select value.now (view self)) }
    {
        let specs = specs_of(alloc, value)?;
        let mut draft = self;
        draft.select = Some(specs);
        Ok(draft)
    }

    fn with_on_fail(self, value: &str) -> Result<Draft, ReadError>
        ensures { Gives view result (with_on_fail value.now (view self)) }
    {
        let Some(abort) = on_fail_of(value) else {
            return Err(ReadError::Fault(WordKind::BadValue));
        };
        let mut draft = self;
        draft.abort = Some(abort);
        Ok(draft)
    }

    fn with_use_fifo(self, value: &str) -> Result<Draft, ReadError>
        ensures { Gives view result (with_use_fifo value.now (view self)) }
    {
        let Some(use_fifo) = flag_of(value) else {
            return Err(ReadError::Fault(WordKind::BadValue));
        };
        let mut draft = self;
        draft.use_fifo = Some(use_fifo);
        Ok(draft)
    }

    fn with_fifo_options(self, alloc: Global, value: &str) -> Result<Draft, ReadError>
        ensures { Gives view result (with_fifo_options value.now (view self)) }
    {
        let fifo = fifo_options_of(alloc, value)?;
        let mut draft = self;
        draft.fifo = Some(fifo);
        Ok(draft)
    }

    // The draft with one chain more, for these streams.
    fn with_chain(self, spec: Spec, value: &str) -> Result<Draft, ReadError>
        ensures { Gives view result (with_chain spec value.now (view self)) }
    {
        let chain = chain_of(value)?;
        let mut draft = self;
        draft.chains.push((spec, chain))?;
        Ok(draft)
    }

    // The draft with one option of segments more.
    fn with_segment(self, alloc: Global, key: Key, value: &str) -> Result<Draft, ReadError>
        ensures { Gives view result (with_segment key value.now (view self)) }
    {
        let Draft {
            format,
            select,
            abort,
            use_fifo,
            fifo,
            segment,
            chains,
        } = self;
        let segment = segment_with(alloc, segment, key, value)?;
        Ok(Draft {
            format,
            select,
            abort,
            use_fifo,
            fifo,
            segment,
            chains,
        })
    }

    // The draft with one option more.
    #[tactic(auto, unfolding(crate::specs::Draft::with_value))]
    fn with(self, alloc: Global, key: Key, value: &str) -> Result<Draft, ReadError>
        ensures { Gives view result (with_value key value.now (view self)) }
    {
        match key {
            Key::Format => self.with_format(value),
            Key::Select => self.with_select(alloc, value),
            Key::OnFail => self.with_on_fail(value),
            Key::UseFifo => self.with_use_fifo(value),
            Key::FifoOptions => self.with_fifo_options(alloc, value),
            Key::Filters => self.with_chain(Spec::All, value),
            Key::VideoFilters => self.with_chain(Spec::Video, value),
            Key::AudioFilters => self.with_chain(Spec::Audio, value),
            Key::FirstFilters => self.with_chain(Spec::Index(0), value),
            Key::SecondFilters => self.with_chain(Spec::Index(1), value),
            Key::SegmentFormat => self.with_segment(alloc, Key::SegmentFormat, value),
            Key::SegmentTime => self.with_segment(alloc, Key::SegmentTime, value),
            Key::SegmentList => self.with_segment(alloc, Key::SegmentList, value),
            Key::SegmentListType => self.with_segment(alloc, Key::SegmentListType, value),
            Key::SegmentStart => self.with_segment(alloc, Key::SegmentStart, value),
            Key::ResetTimestamps => self.with_segment(alloc, Key::ResetTimestamps, value),
            Key::BreakNonKeyframes => self.with_segment(alloc, Key::BreakNonKeyframes, value),
        }
    }

    /// Judges the key, then whether it came before, and then the value.
    #[tactic(auto, unfolding(crate::specs::Draft::with_named))]
    pub fn with_named(self, alloc: Global, key: &str, value: &str) -> Result<Draft, ReadError>
        ensures { Gives view result (with_named key.now value.now (view self)) }
    {
        let Some(key) = key_of(key) else {
            return Err(ReadError::Fault(WordKind::UnknownOption));
        };
        if self.has(key) {
            return Err(ReadError::Fault(WordKind::BadValue));
        }
        self.with(alloc, key, value)
    }
}

fn segment_with(
    alloc: Global,
    draft: SegDraft,
    key: Key,
    value: &str,
) -> Result<SegDraft, ReadError>
    ensures { Gives (λ d. d) result (segment_with key value.now draft) }
{
    match key {
        Key::SegmentFormat => draft.with_inner(value),
        Key::SegmentTime => draft.with_time(value),
        Key::SegmentList => draft.with_list(alloc, value),
        Key::SegmentListType => draft.with_list_kind(value),
        Key::SegmentStart => draft.with_start(value),
        Key::ResetTimestamps => draft.with_reset(value),
        Key::BreakNonKeyframes => draft.with_any_packet(value),
        Key::Format
        | Key::Select
        | Key::OnFail
        | Key::UseFifo
        | Key::FifoOptions
        | Key::Filters
        | Key::VideoFilters
        | Key::AudioFilters
        | Key::FirstFilters
        | Key::SecondFilters => Ok(draft),
    }
}
