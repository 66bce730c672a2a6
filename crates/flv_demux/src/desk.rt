// What comes of a tag.
ghost use Rattle.std.specs.Prelude.{◌≡◌, ◌<◌, IfOk, ◌+◌, negsuc, pos, ◌≤ℤ◌, ◌+ℤ◌, length};
ghost use Rattle.std.specs.Int.{int_max};
ghost use Rattle.rmx_media.specs.Config.{kind_of as kind_in, raw_of as raw_in, IsAsRead};
ghost use Rattle.flv_demux.specs.Meaning.{IsSound};
ghost use Rattle.std.specs.Prelude.{ℤ};
ghost use Rattle.flv_demux.specs.Probe.{has as has_kind, number_of_stream};
ghost use Rattle.flv_demux.specs.Deal.{outcome_of as outcome_in, outcome_by, entered, one_tag, packet_in, counted as counted_in, is_valid as valid, repeats as repeats_raw, forced, next_version as version_after, media_outcome, seen as seen_in, new_desk as nothing_dealt, nothing_seen as none_seen, IsSmallTop, IsSoundSeen, IsSoundOutcome, IsSoundDesk, IsSoundGift};

use crate::deal::{Desk, Discards, Kinds, Meaning, Outcome, Reason, Seen};
use crate::meaning::meaning_of;
use avc_units::valid_units;
use bytes::Bytes;
use flv_tags::Tag;
use rmx_media::{Config, Form, Kind, NoMemory, Packet};

/// The counts where no tag was discarded.
pub const NO_DISCARDS: Discards = Discards {
    script: 0,
    unsupported: 0,
    no_stream: 0,
    corrupt: 0,
    command: 0,
    sequence_end: 0,
    config_repeat: 0,
};

fn nothing_seen() -> Seen
    ensures { result ≡ none_seen }
{
    Seen {
        force: None,
        version: 0,
        top: i64::MIN,
    }
}

/// A desk at which no tag was dealt with yet.
pub fn new_desk() -> Desk
    ensures value { result ≡ nothing_dealt }
    ensures sound { IsSoundDesk result }
{
    Desk {
        video: nothing_seen(),
        audio: nothing_seen(),
        discards: NO_DISCARDS,
        tags: 0,
    }
}

fn count(discards: &mut Discards, reason: Reason)
    ensures { discards.new ≡ counted_in reason discards.old }
{
    match reason {
        Reason::Script => discards.script = discards.script.saturating_add(1),
        Reason::Unsupported => discards.unsupported = discards.unsupported.saturating_add(1),
        Reason::NoStream => discards.no_stream = discards.no_stream.saturating_add(1),
        Reason::Corrupt => discards.corrupt = discards.corrupt.saturating_add(1),
        Reason::Command => discards.command = discards.command.saturating_add(1),
        Reason::SequenceEnd => discards.sequence_end = discards.sequence_end.saturating_add(1),
        Reason::ConfigRepeat => discards.config_repeat = discards.config_repeat.saturating_add(1),
    }
}

fn next_version(force: &Option<Config>, version: u64) -> u64
    ensures { result ≡ version_after force.now version }
{
    match force {
        None => 0,
        Some(_) => version.saturating_add(1),
    }
}

fn force(seen: &mut Seen, config: Config)
    ensures { seen.new ≡ forced config seen.old }
{
    seen.version = next_version(&seen.force, seen.version);
    seen.force = Some(config);
}

// Whether a payload is of whole units.
fn is_valid(config: &Config, payload: &[u8]) -> bool
    requires { IsAsRead config.now }
    ensures { result ≡ valid config.now payload.now }
{
    match config {
        Config::Avc(config) => valid_units(payload, config.length_size),
        Config::Aac(_) => true,
    }
}

fn raw_of(config: &Config) -> &[u8]
    ensures { result.now ≡ raw_in config.now }
{
    match config {
        Config::Avc(config) => config.raw.as_slice(),
        Config::Aac(config) => config.raw.as_slice(),
    }
}

fn kind_of(config: &Config) -> Kind
    ensures { result ≡ kind_in config.now }
{
    match config {
        Config::Avc(_) => Kind::Video,
        Config::Aac(_) => Kind::Audio,
    }
}

fn repeats(force: &Option<Config>, config: &Config) -> bool
    ensures { result ≡ repeats_raw force.now config.now }
{
    match force {
        None => false,
        Some(old) => raw_of(old) == raw_of(config),
    }
}

fn dts_of(top: i64, stamp: i32) -> i64
    requires { IsSmallTop top }
    ensures value { result ≡ int_max top stamp }
    ensures high { IsSmallTop result }
    ensures low { negsuc 2147483647 ≤ℤ result }
{
    top.max(i64::from(stamp))
}

fn pts_of(dts: i64, composition: i32) -> i64
    requires high { IsSmallTop dts }
    requires low { negsuc 2147483647 ≤ℤ dts }
    requires bound { composition ≤ℤ pos 8388607 }
    ensures value { result ≡ int_max (dts +ℤ composition) dts }
    ensures early { dts ≤ℤ result }
    ensures late { result ≤ℤ (dts +ℤ pos 8388607) }
{
    (dts + i64::from(composition)).max(dts)
}

/// What a media tag says.
#[derive(Drop)]
struct Media {
    kind: Kind,
    key: bool,
    stamp: i32,
    composition: i32,
    payload: Bytes,
}

fn media_outcome_of(stream: u32, seen: &Seen, media: Media) -> Result<Outcome, NoMemory>
    requires seen { IsSoundSeen media.kind seen.now }
    requires media { IsSound (Meaning.Media media.kind media.key media.composition media.payload) }
    ensures value { IfOk result (λ o. o ≡ media_outcome stream media.kind seen.now.force seen.now.version (int_max seen.now.top media.stamp) media.key media.composition media.payload) }
    ensures sound { IfOk result IsSoundOutcome }
{
    match &seen.force {
        None => Ok(Outcome::Counted(Reason::NoStream)),
        Some(config) => {
            if !is_valid(config, media.payload.as_slice()) {
                return Ok(Outcome::Counted(Reason::Corrupt));
            }
            let dts = dts_of(seen.top, media.stamp);
            let pts = pts_of(dts, media.composition);
            Ok(Outcome::Gives(
                media.kind,
                Packet {
                    stream,
                    dts,
                    pts,
                    key: media.key,
                    form: Form::Native,
                    payload: media.payload,
                    config: config.copy()?,
                    version: seen.version,
                },
            ))
        }
    }
}

fn has(kinds: Kinds, kind: Kind) -> bool
    ensures { result ≡ has_kind kinds kind }
{
    match kind {
        Kind::Video => kinds.video,
        Kind::Audio => kinds.audio,
    }
}

fn number(kinds: Kinds, kind: Kind) -> u32
    ensures { result ≡ number_of_stream kinds kind }
{
    match kind {
        Kind::Video => 0,
        Kind::Audio => u32::from(kinds.video),
    }
}

fn seen_of(desk: &Desk, kind: Kind) -> &Seen
    requires { IsSoundDesk desk.now }
    ensures value { result.now ≡ seen_in desk.now kind }
    ensures sound { IsSoundSeen kind result.now }
{
    match kind {
        Kind::Video => &desk.video,
        Kind::Audio => &desk.audio,
    }
}

fn config_outcome_of(kinds: Kinds, desk: &Desk, config: Config) -> Outcome
    requires desk { IsSoundDesk desk.now }
    requires config { IsAsRead config }
    ensures value { (stamp : ℤ) → result ≡ outcome_by kinds desk.now stamp (Meaning.Configures config) }
    ensures sound { IsSoundOutcome result }
{
    let kind = kind_of(&config);
    if !has(kinds, kind) {
        return Outcome::Counted(Reason::NoStream);
    }
    if repeats(&seen_of(desk, kind).force, &config) {
        return Outcome::Counted(Reason::ConfigRepeat);
    }
    Outcome::Forces(config)
}

/// The outcome of a tag.
pub fn outcome_of(kinds: Kinds, desk: &Desk, tag: &Tag) -> Result<Outcome, NoMemory>
    requires desk { IsSoundDesk desk.now }
    requires small { length tag.now.body < 16777216 }
    ensures value { IfOk result (λ o. o ≡ outcome_in kinds desk.now tag.now) }
    ensures sound { IfOk result IsSoundOutcome }
{
    match meaning_of(tag)? {
        Meaning::Counted(reason) => Ok(Outcome::Counted(reason)),
        Meaning::Configures(config) => Ok(config_outcome_of(kinds, desk, config)),
        Meaning::Media {
            kind,
            key,
            composition,
            payload,
        } => {
            if !has(kinds, kind) {
                return Ok(Outcome::Counted(Reason::NoStream));
            }
            let media = Media {
                kind,
                key,
                stamp: tag.stamp,
                composition,
                payload,
            };
            media_outcome_of(number(kinds, kind), seen_of(desk, kind), media)
        }
    }
}

/// Enters an outcome, and gives the packet that it has.
pub fn enter(desk: &mut Desk, outcome: Outcome) -> Option<Packet>
    requires desk { IsSoundDesk desk.old }
    requires outcome { IsSoundOutcome outcome }
    ensures desk { desk.new ≡ one_tag (entered outcome desk.old) }
    ensures packet { result ≡ packet_in outcome }
    ensures sound { IsSoundDesk desk.new }
    ensures gift { IsSoundGift result outcome }
{
    desk.tags = desk.tags.saturating_add(1);
    match outcome {
        Outcome::Counted(reason) => {
            count(&mut desk.discards, reason);
            None
        }
        Outcome::Forces(Config::Avc(config)) => {
            force(&mut desk.video, Config::Avc(config));
            None
        }
        Outcome::Forces(Config::Aac(config)) => {
            force(&mut desk.audio, Config::Aac(config));
            None
        }
        Outcome::Gives(Kind::Video, packet) => {
            desk.video.top = packet.dts;
            Some(packet)
        }
        Outcome::Gives(Kind::Audio, packet) => {
            desk.audio.top = packet.dts;
            Some(packet)
        }
    }
}
