// Packets of an FLV text that comes in any pieces.
ghost use Rattle.std.specs.Prelude.{◌≡◌, ◌<◌, ◌≤◌, ℕ, List, [], length, IfOk, IfSome, OnErr, OnOk, MatchOption, ◌++◌, true, false, Some, None};
ghost use Rattle.flv_tags.specs.declared.tag.Tag.{Tag};
ghost use Rattle.flv_demux.specs.State.{HasDealt, Nexts, AreSoundInfos, left_in, is_packet};
ghost use Rattle.flv_demux.specs.Steps.{Steps, Advances, is_on, is_refusal as refuses};
ghost use Rattle.flv_demux.specs.State.{Demuxed};
ghost use Rattle.flv_demux.specs.declared.deal.Kinds.{Kinds};
ghost use Rattle.std.specs.Prelude.{is_some};

use crate::deal::{Desk, Discards, Shown, Streams};
use crate::desk::{NO_DISCARDS, new_desk};
use crate::probe::no_probe;
use crate::steps::{Stepped, step_known, step_unknown};
use bytes::Bytes;
use flv_tags::{Tag, TagFault, TagReader};
use rmx_media::{Items, NoMemory, Packet, StreamInfo};
use std::alloc::Global;
use std::marker::Model;
use thiserror::Error;

/// What is answered where nothing is wrong.
#[derive(Drop)]
pub enum DemuxStep {
    /// The next packet.
    Packet(Packet),
    /// The bytes fed hold no further packet.
    NeedMore,
    /// The text is whole and all its packets were answered.
    End,
}

/// What is wrong with an input. The text of each is its name, or that of the fault inside.
#[derive(Clone, Copy, Debug, PartialEq, Eq, Error)]
pub enum DemuxFault {
    /// The text is no FLV text, or ends too early. It isn't the fault NoMemory.
    #[error("{0}")]
    Tag(TagFault),
    /// It is decided that there is no stream.
    #[error("NoStreams")]
    NoStreams,
    /// Memory was refused.
    #[error("NoMemory")]
    NoMemory,
}

/// Makes packets of the tags of an FLV text. A payload shares the memory of the text.
#[derive(Drop)]
pub struct Demuxer {
    alloc: Global,
    reader: TagReader,
    waiting: Items<Tag>,
    streams: Streams,
    desk: Desk,
    shown: Shown,
}

// Whether memory was refused.
fn is_refusal(answer: &Result<DemuxStep, DemuxFault>) -> bool
    ensures { result ≡ refuses answer.now }
{
    matches!(answer, Err(DemuxFault::NoMemory))
}

impl Model for Demuxer {
    ghost use Rattle.flv_demux.specs.State.{DemuxState};

    ghost Value = { DemuxState };

    ghost use Rattle.flv_demux.specs.View.{view_of, IsWhole};

    ghost view = { view_of };

    ghost invariant = { IsWhole };
}

impl Demuxer {
    /// A demuxer that was fed nothing yet.
    pub fn new(alloc: Global) -> Result<Demuxer, NoMemory>
        ensures open { IfOk result (λ d. d.core.reader.ended ≡ false) }
        ensures dealt { IfOk result (λ d. HasDealt [] [] d) }
    {
        Ok(Demuxer {
            alloc,
            reader: TagReader::new(alloc),
            waiting: Items::new(alloc),
            streams: Streams {
                looked: 0,
                probe: no_probe(),
                known: None,
                infos: Vec::new(alloc),
            },
            desk: new_desk(),
            shown: Shown {
                known: false,
                tags: 0,
                discards: NO_DISCARDS,
            },
        })
    }

    /// Takes the next piece of the text. A refusal changes nothing.
    pub fn feed(&mut self, piece: &[u8]) -> Result<(), NoMemory>
        requires { self.old.core.reader.ended ≡ false }
        ensures fed { OnOk result ((fed : List ℕ) (done : List Tag) → HasDealt fed done self.old → HasDealt (fed ++ piece.now) done self.new) }
        ensures open { self.new.core.reader.ended ≡ false }
        ensures shown { self.new.shown ≡ self.old.shown }
        ensures err { OnErr result (self.new ≡ self.old) }
    {
        self.reader.feed(piece)
    }

    /// Tells the end of the text.
    pub fn finish(&mut self)
        ensures dealt { (fed : List ℕ) (done : List Tag) → HasDealt fed done self.old → HasDealt fed done self.new }
        ensures ended { self.new.core.reader.ended ≡ true }
        ensures shown { self.new.shown ≡ self.old.shown }
    {
        self.reader.finish();
    }

    /// The streams: video, then audio. None while it isn't decided which there are, and an empty list where there are none.
    pub fn streams(&self) -> Option<&[StreamInfo]>
        ensures known { MatchOption result (self.now.shown.known ≡ false) (λ infos. (self.now.shown.known ≡ true) × (infos.now ≡ self.now.core.infos)) }
        ensures sound { IfSome result (λ infos. AreSoundInfos infos.now) }
    {
        if self.shown.known {
            Some(self.streams.infos.as_slice())
        } else {
            None
        }
    }

    /// The body of the first script tag among those that tell which streams there are, once that is decided.
    pub fn script(&self) -> Option<&Bytes>
        ensures script { MatchOption result (self.now.shown.known ≡ true → self.now.core.probe.script ≡ None) (λ body. (self.now.shown.known ≡ true) × (self.now.core.probe.script ≡ Some body.now)) }
        ensures small { IfSome result (λ body. length body.now ≤ 16777215) }
    {
        if self.shown.known {
            self.streams.probe.script.as_ref()
        } else {
            None
        }
    }

    /// How many of the tags dealt with were passed over, by the reason.
    pub fn discards(&self) -> Discards
        ensures { result ≡ self.now.shown.discards }
    {
        self.shown.discards
    }

    /// How many tags are dealt with.
    pub fn tags(&self) -> u64
        ensures { result ≡ self.now.shown.tags }
    {
        self.shown.tags
    }

    /// The next packet. After a fault every call answers it; a refusal of memory changes nothing.
    pub fn next_packet(&mut self) -> Result<DemuxStep, DemuxFault>
        ensures next { (fed : List ℕ) (done : List Tag) → HasDealt fed done self.old → Nexts result fed done self.old.core.reader.ended self.old self.new }
        ensures ended { self.new.core.reader.ended ≡ self.old.core.reader.ended }
        ensures fewer { IfOk result (λ step. is_packet step ≡ true → left_in self.new.core < left_in self.old.core) }
    {
        let answer = self.advance();
        if is_refusal(&answer) {
            return answer;
        }
        self.tell();
        answer
    }

    // What was dealt with is told.
    fn tell(&mut self)
        ensures core { self.new.core ≡ self.old.core }
        ensures shown { self.new.shown ≡ record {
          known = is_some self.old.core.known;
          tags = self.old.core.desk.tags;
          discards = self.old.core.desk.discards;
        } }
    {
        self.shown = Shown {
            known: self.streams.known.is_some(),
            tags: self.desk.tags,
            discards: self.desk.discards,
        };
    }

    // The same, where nothing is told of the tags dealt with.
    fn advance(&mut self) -> Result<DemuxStep, DemuxFault>
        ensures shown { self.new.shown ≡ self.old.shown }
        ensures ended { self.new.core.reader.ended ≡ self.old.core.reader.ended }
        ensures keeps { (k : Kinds) → self.old.core.known ≡ Some k → self.new.core.known ≡ Some k }
        ensures next { (fed : List ℕ) (done : List Tag) → Demuxed fed done self.old.core → Advances result fed done self.old.core.reader.ended self.new.core }
        ensures fewer { IfOk result (λ step. is_packet step ≡ true → left_in self.new.core < left_in self.old.core) }
    {
        'steps: loop {
            match self.step() {
                Ok(Stepped::Packet(packet)) => return Ok(DemuxStep::Packet(packet)),
                Ok(Stepped::Again) => {}
                Ok(Stepped::NeedMore) => return Ok(DemuxStep::NeedMore),
                Ok(Stepped::End) => return Ok(DemuxStep::End),
                Err(fault) => return Err(fault),
            }
        }
    }

    fn step(&mut self) -> Result<Stepped, DemuxFault>
        ensures shown { self.new.shown ≡ self.old.shown }
        ensures ended { self.new.core.reader.ended ≡ self.old.core.reader.ended }
        ensures keeps { (k : Kinds) → self.old.core.known ≡ Some k → self.new.core.known ≡ Some k }
        ensures steps { (fed : List ℕ) (done : List Tag) → Demuxed fed done self.old.core → Steps result fed done self.old.core.reader.ended self.new.core }
        ensures fewer { IfOk result (λ x. is_on x ≡ true → left_in self.new.core < left_in self.old.core) }
    {
        match self.streams.known {
            Some(kinds) => step_known(&mut self.reader, &mut self.waiting, kinds, &mut self.desk),
            None => step_unknown(
                self.alloc,
                &mut self.reader,
                &mut self.waiting,
                &mut self.streams,
            ),
        }
    }
}
