// One step of a demuxer, over its parts.
ghost use Rattle.std.specs.Prelude.{◌≡◌, ◌<◌, ◌≤◌, ◌+◌, ◌*◌, ◌++◌, ℕ, List, IfOk, OnOk, OnErr, length, Some, None, Err, Ok, true, false};
ghost use Rattle.flv_tags.specs.declared.tag.Tag.{Tag};
ghost use Rattle.flv_tags.specs.Reader.{HasRead, left_of};
ghost use Rattle.flv_tags.specs.TagReader.{state_of};
ghost use Rattle.flv_demux.specs.declared.deal.Streams.{Streams};
ghost use Rattle.flv_demux.specs.declared.deal.Desk.{Desk};
ghost use Rattle.flv_demux.specs.Probe.{IsSoundProbe};
ghost use Rattle.flv_demux.specs.Deal.{IsSoundDesk};
ghost use Rattle.flv_demux.specs.State.{Demuxed, HaveSmallBodies, AreSoundInfos, left_in};
ghost use Rattle.flv_demux.specs.Steps.{ReadsOne, DealsFirst, Steps, is_read, is_on, fault_in, is_cut as cuts, core_at, LooksAtNext, Decides};

use crate::deal::{Desk, Kinds, Streams};
use crate::demuxer::DemuxFault;
use crate::desk::{enter, outcome_of};
use crate::probe::{has_stream, infos_of, is_decided, kinds_of, look};
use flv_tags::{Tag, TagFault, TagReader, TagStep};
use rmx_media::{Items, NoMemory, Packet};
use std::alloc::Global;

/// What a step says where nothing is wrong.
#[derive(Drop)]
pub enum Stepped {
    Packet(Packet),
    Again,
    NeedMore,
    End,
}

/// Whether a tag was read.
#[derive(Clone, Copy)]
pub enum Read {
    Tag,
    NeedMore,
    End,
}

fn fault_of(fault: TagFault) -> DemuxFault
    ensures { result ≡ fault_in fault }
{
    match fault {
        TagFault::NoMemory => DemuxFault::NoMemory,
        fault => DemuxFault::Tag(fault),
    }
}

// Whether the text ends too early.
fn is_cut(fault: DemuxFault) -> bool
    ensures { result ≡ cuts fault }
{
    match fault {
        DemuxFault::Tag(TagFault::CutTag) => true,
        DemuxFault::Tag(_) | DemuxFault::NoStreams | DemuxFault::NoMemory => false,
    }
}

// Reads one tag behind those that wait.
fn read_tag(reader: &mut TagReader, waiting: &mut Items<Tag>) -> Result<Read, DemuxFault>
    requires bodies { HaveSmallBodies waiting.old.items }
    ensures read { (fed : List ℕ) (done : List Tag) → HasRead fed (done ++ waiting.old.items) (state_of reader.old)
        → ReadsOne result fed done (state_of reader.old).ended (state_of reader.new) waiting.old.items waiting.new.items }
    ensures ended { (state_of reader.new).ended ≡ (state_of reader.old).ended }
    ensures bodies { HaveSmallBodies waiting.new.items }
    ensures never_more { left_of (state_of reader.new) ≤ left_of (state_of reader.old) }
    ensures none { IfOk result (λ r. is_read r ≡ false → waiting.new.items ≡ waiting.old.items) }
    ensures err { OnErr result (waiting.new.items ≡ waiting.old.items) }
    ensures fewer { IfOk result (λ r. is_read r ≡ true → (left_of (state_of reader.new) < left_of (state_of reader.old)) × (length waiting.new.items ≡ length waiting.old.items + 1)) }
{
    match waiting.reserve(1) {
        Ok(()) => {}
        Err(_) => return Err(DemuxFault::NoMemory),
    }
    match reader.next() {
        Ok(TagStep::Tag(tag)) => {
            waiting.push(tag);
            Ok(Read::Tag)
        }
        Ok(TagStep::NeedMore) => Ok(Read::NeedMore),
        Ok(TagStep::End) => Ok(Read::End),
        Err(fault) => Err(fault_of(fault)),
    }
}

// Deals with the first waiting tag. It leaves the list only once nothing can be refused any more.
fn deal_first(
    waiting: &mut Items<Tag>,
    kinds: Kinds,
    desk: &mut Desk,
) -> Result<Option<Packet>, NoMemory>
    requires some { 0 < length waiting.old.items }
    requires bodies { HaveSmallBodies waiting.old.items }
    requires desk { IsSoundDesk desk.old }
    ensures ok { IfOk result (λ packet. DealsFirst kinds packet waiting.old.items waiting.new.items desk.old desk.new) }
    ensures err { OnErr result ((waiting.new.items ≡ waiting.old.items) × (desk.new ≡ desk.old)) }
    ensures bodies { HaveSmallBodies waiting.new.items }
    ensures desk { IsSoundDesk desk.new }
{
    let outcome = outcome_of(kinds, desk, &waiting.as_slice()[0])?;
    let _tag = waiting.take_first();
    Ok(enter(desk, outcome))
}

/// A step where the kinds of streams are known.
pub fn step_known(
    reader: &mut TagReader,
    waiting: &mut Items<Tag>,
    kinds: Kinds,
    desk: &mut Desk,
) -> Result<Stepped, DemuxFault>
    requires bodies { HaveSmallBodies waiting.old.items }
    requires desk { IsSoundDesk desk.old }
    ensures bodies { HaveSmallBodies waiting.new.items }
    ensures desk { IsSoundDesk desk.new }
    ensures ended { (state_of reader.new).ended ≡ (state_of reader.old).ended }
    ensures steps { (fed : List ℕ) (done : List Tag) (s : Streams) → s.known ≡ Some kinds → Demuxed fed done (core_at (state_of reader.old) waiting.old.items s desk.old)
        → Steps result fed done (state_of reader.old).ended (core_at (state_of reader.new) waiting.new.items s desk.new) }
    ensures fewer { IfOk result (λ x. is_on x ≡ true → 4 * left_of (state_of reader.new) + 2 * length waiting.new.items < 4 * left_of (state_of reader.old) + 2 * length waiting.old.items) }
{
    if !has_stream(kinds) {
        return Err(DemuxFault::NoStreams);
    }
    if waiting.as_slice().is_empty() {
        return match read_tag(reader, waiting) {
            Ok(Read::Tag) => Ok(Stepped::Again),
            Ok(Read::NeedMore) => Ok(Stepped::NeedMore),
            Ok(Read::End) => Ok(Stepped::End),
            Err(fault) => Err(fault),
        };
    }
    match deal_first(waiting, kinds, desk) {
        Ok(Some(packet)) => Ok(Stepped::Packet(packet)),
        Ok(None) => Ok(Stepped::Again),
        Err(_) => Err(DemuxFault::NoMemory),
    }
}

// Looks at the next of the waiting tags.
fn look_next(waiting: &[Tag], streams: &mut Streams) -> Result<(), NoMemory>
    requires some { streams.old.looked < length waiting.now }
    requires bodies { HaveSmallBodies waiting.now }
    requires probe { IsSoundProbe streams.old.probe }
    ensures ok { OnOk result (LooksAtNext waiting.now streams.old streams.new) }
    ensures err { OnErr result (streams.new ≡ streams.old) }
    ensures infos { streams.new.infos ≡ streams.old.infos }
    ensures probe { IsSoundProbe streams.new.probe }
{
    look(&mut streams.probe, &waiting[streams.looked])?;
    streams.looked += 1;
    Ok(())
}

// From now on the streams are known.
fn decide(alloc: Global, streams: &mut Streams) -> Result<Stepped, DemuxFault>
    requires probe { IsSoundProbe streams.old.probe }
    requires infos { AreSoundInfos streams.old.infos.items }
    ensures ok { IfOk result (λ x. (x ≡ Stepped.Again) × Decides streams.old streams.new) }
    ensures err { OnErr result ((result ≡ Err DemuxFault.NoMemory) × (streams.new ≡ streams.old)) }
    ensures probe { IsSoundProbe streams.new.probe }
    ensures infos { AreSoundInfos streams.new.infos.items }
{
    match infos_of(alloc, &streams.probe) {
        Ok(infos) => {
            streams.infos = infos;
            streams.known = Some(kinds_of(&streams.probe));
            Ok(Stepped::Again)
        }
        Err(_) => Err(DemuxFault::NoMemory),
    }
}

/// A step where they aren't known yet: the tags wait.
pub fn step_unknown(
    alloc: Global,
    reader: &mut TagReader,
    waiting: &mut Items<Tag>,
    streams: &mut Streams,
) -> Result<Stepped, DemuxFault>
    requires unknown { streams.old.known ≡ None }
    requires bodies { HaveSmallBodies waiting.old.items }
    requires probe { IsSoundProbe streams.old.probe }
    requires infos { AreSoundInfos streams.old.infos.items }
    ensures bodies { HaveSmallBodies waiting.new.items }
    ensures probe { IsSoundProbe streams.new.probe }
    ensures infos { AreSoundInfos streams.new.infos.items }
    ensures ended { (state_of reader.new).ended ≡ (state_of reader.old).ended }
    ensures steps { (fed : List ℕ) (done : List Tag) (d : Desk) → Demuxed fed done (core_at (state_of reader.old) waiting.old.items streams.old d)
        → Steps result fed done (state_of reader.old).ended (core_at (state_of reader.new) waiting.new.items streams.new d) }
    ensures fewer { (d : Desk) → IfOk result (λ x. is_on x ≡ true → left_in (core_at (state_of reader.new) waiting.new.items streams.new d) < left_in (core_at (state_of reader.old) waiting.old.items streams.old d)) }
{
    if streams.looked < waiting.as_slice().len() {
        return match look_next(waiting.as_slice(), streams) {
            Ok(()) => Ok(Stepped::Again),
            Err(_) => Err(DemuxFault::NoMemory),
        };
    }
    if is_decided(&streams.probe) {
        return decide(alloc, streams);
    }
    match read_tag(reader, waiting) {
        Ok(Read::Tag) => Ok(Stepped::Again),
        Ok(Read::NeedMore) => Ok(Stepped::NeedMore),
        Ok(Read::End) => decide(alloc, streams),
        Err(fault) => {
            if is_cut(fault) {
                return decide(alloc, streams);
            }
            Err(fault)
        }
    }
}
