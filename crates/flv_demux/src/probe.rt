// Which streams there are.
ghost use Rattle.std.specs.Prelude.{◌≡◌, ◌<◌, ◌++◌, IfOk, OnOk, OnErr, length};
ghost use Rattle.flv_demux.specs.Probe.{no_probe as nothing, probed, noted, is_decided as decided, kinds_of as kinds_in, infos_of as infos_in, info_list, first_of, has_stream as has_any, IsSoundProbe};

use crate::deal::{Kinds, Meaning, Probe, Reason};
use crate::meaning::meaning_of;
use bytes::Bytes;
use flv_tags::Tag;
use rmx_media::{Config, Kind, NoMemory, StreamInfo};
use std::alloc::Global;

// With so many tags, or so many bytes in their bodies, it is decided which streams there are.
const MOST_TAGS: u64 = 64;

const MOST_BYTES: u64 = 8388608;

/// What is known before the first tag.
pub fn no_probe() -> Probe
    ensures value { result ≡ nothing }
    ensures sound { IsSoundProbe result }
{
    Probe {
        video: None,
        audio: None,
        script: None,
        tags: 0,
        bytes: 0,
    }
}

/// Whether it is decided which streams there are: both were seen, or enough tags or bytes were read.
pub fn is_decided(probe: &Probe) -> bool
    ensures { result ≡ decided probe.now }
{
    (probe.video.is_some() && probe.audio.is_some())
        || probe.tags >= MOST_TAGS
        || probe.bytes >= MOST_BYTES
}

// Keeps the first configuration.
fn note_config(place: &mut Option<Config>, config: Config)
    ensures { place.new ≡ first_of place.old config }
{
    if place.is_none() {
        *place = Some(config);
    }
}

// Keeps the first script.
fn note_script(place: &mut Option<Bytes>, body: &Bytes) -> Result<(), NoMemory>
    ensures ok { OnOk result (place.new ≡ first_of place.old body.now) }
    ensures err { OnErr result (place.new ≡ place.old) }
{
    if place.is_some() {
        return Ok(());
    }
    match body.clone() {
        Ok(body) => {
            *place = Some(body);
            Ok(())
        }
        Err(_) => Err(NoMemory),
    }
}

fn note(probe: &mut Probe, meaning: Meaning, body: &Bytes) -> Result<(), NoMemory>
    ensures ok { OnOk result (probe.new ≡ noted probe.old meaning body.now) }
    ensures err { OnErr result (probe.new ≡ probe.old) }
{
    match meaning {
        Meaning::Configures(Config::Avc(config)) => {
            note_config(&mut probe.video, Config::Avc(config));
            Ok(())
        }
        Meaning::Configures(Config::Aac(config)) => {
            note_config(&mut probe.audio, Config::Aac(config));
            Ok(())
        }
        Meaning::Counted(Reason::Script) => note_script(&mut probe.script, body),
        Meaning::Counted(_) => Ok(()),
        Meaning::Media { .. } => Ok(()),
    }
}

/// Looks at a tag, where it isn't decided yet which streams there are.
pub fn look(probe: &mut Probe, tag: &Tag) -> Result<(), NoMemory>
    requires small { length tag.now.body < 16777216 }
    requires sound { IsSoundProbe probe.old }
    ensures ok { OnOk result (probe.new ≡ probed probe.old tag.now) }
    ensures err { OnErr result (probe.new ≡ probe.old) }
    ensures sound { IsSoundProbe probe.new }
{
    if is_decided(probe) {
        return Ok(());
    }
    let meaning = meaning_of(tag)?;
    note(probe, meaning, &tag.body)?;
    probe.tags += 1;
    probe.bytes += tag.body.len() as u64;
    Ok(())
}

/// Which kinds of streams were seen.
pub fn kinds_of(probe: &Probe) -> Kinds
    ensures { result ≡ kinds_in probe.now }
{
    Kinds {
        video: probe.video.is_some(),
        audio: probe.audio.is_some(),
    }
}

/// Whether there is a stream of any kind.
pub fn has_stream(kinds: Kinds) -> bool
    ensures { result ≡ has_any kinds }
{
    kinds.video || kinds.audio
}

fn add_info(
    infos: &mut Vec<StreamInfo>,
    kind: Kind,
    config: &Option<Config>,
) -> Result<(), NoMemory>
    ensures { OnOk result (infos.new.items ≡ infos.old.items ++ info_list kind config.now) }
{
    match config {
        None => Ok(()),
        Some(config) => {
            let config = config.copy()?;
            match infos.push(StreamInfo { kind, config }) {
                Ok(()) => Ok(()),
                Err(_) => Err(NoMemory),
            }
        }
    }
}

/// The streams: video, then audio.
pub fn infos_of(alloc: Global, probe: &Probe) -> Result<Vec<StreamInfo>, NoMemory>
    ensures { IfOk result (λ infos. infos.items ≡ infos_in probe.now) }
{
    let mut infos = Vec::new(alloc);
    add_info(&mut infos, Kind::Video, &probe.video)?;
    add_info(&mut infos, Kind::Audio, &probe.audio)?;
    Ok(infos)
}
