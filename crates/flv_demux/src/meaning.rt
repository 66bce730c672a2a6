// What a tag means by itself.
ghost use Rattle.std.specs.Prelude.{◌≡◌, ◌≤◌, ◌<◌, IfOk, length, drop, pos, ◌≤ℤ◌};
ghost use Rattle.rmx_media.specs.Config.{IsReadAvc, IsReadAac};
ghost use Rattle.flv_demux.specs.Meaning.{meaning, audio_meaning, video_meaning, composition_of, by_avc, by_aac, unread as spec_unread, IsSound};

use crate::deal::{Meaning, Reason};
use bytes::Bytes;
use flv_tags::Tag;
use rmx_media::{
    AacConfig, AvcConfig, Config, ConfigFault, Kind, NoMemory, read_aac_config, read_avc_config,
};

// What a tag's kind says that it carries.
const AUDIO: u8 = 8;

const VIDEO: u8 = 9;

const SCRIPT: u8 = 18;

// The bytes from a place on.
fn rest_of(body: &Bytes, at: usize) -> Result<Bytes, NoMemory>
    requires { at ≤ length body.now }
    ensures { IfOk result (λ b. b ≡ drop at body.now) }
{
    match body.slice(at..) {
        Ok(rest) => Ok(rest),
        Err(_) => Err(NoMemory),
    }
}

fn unread(fault: ConfigFault) -> Meaning
    ensures { result ≡ spec_unread fault }
{
    match fault {
        ConfigFault::Short | ConfigFault::Version => Meaning::Counted(Reason::Corrupt),
        ConfigFault::ObjectType | ConfigFault::Frequency | ConfigFault::Channels => {
            Meaning::Counted(Reason::Unsupported)
        }
    }
}

fn by_avc_config(read: Result<AvcConfig, ConfigFault>) -> Meaning
    requires { IfOk read IsReadAvc }
    ensures value { result ≡ by_avc read }
    ensures sound { IsSound result }
{
    match read {
        Ok(config) => Meaning::Configures(Config::Avc(config)),
        Err(fault) => unread(fault),
    }
}

fn by_aac_config(read: Result<AacConfig, ConfigFault>) -> Meaning
    requires { IfOk read IsReadAac }
    ensures value { result ≡ by_aac read }
    ensures sound { IsSound result }
{
    match read {
        Ok(config) => Meaning::Configures(Config::Aac(config)),
        Err(fault) => unread(fault),
    }
}

fn composition(body: &[u8]) -> i32
    requires { 5 ≤ length body.now }
    ensures value { result ≡ composition_of body.now }
    ensures bound { result ≤ℤ pos 8388607 }
{
    let n = 65536 * i32::from(body[2]) + 256 * i32::from(body[3]) + i32::from(body[4]);
    if n < 8388608 { n } else { n - 16777216 }
}

fn video(body: &Bytes) -> Result<Meaning, NoMemory>
    requires some { 0 < length body.now }
    requires small { length body.now < 16777216 }
    ensures value { IfOk result (λ m. m ≡ video_meaning body.now) }
    ensures sound { IfOk result IsSound }
{
    let bytes = body.as_slice();
    let frame = bytes[0] / 16;
    if frame == 5 {
        return Ok(Meaning::Counted(Reason::Command));
    }
    if !(frame == 1 || frame == 2) || bytes[0] % 16 != 7 {
        return Ok(Meaning::Counted(Reason::Unsupported));
    }
    if bytes.len() < 5 {
        return Ok(Meaning::Counted(Reason::Corrupt));
    }
    match bytes[1] {
        0 => {
            let raw = rest_of(body, 5)?;
            Ok(by_avc_config(read_avc_config(raw)))
        }
        2 => Ok(Meaning::Counted(Reason::SequenceEnd)),
        1 => Ok(Meaning::Media {
            kind: Kind::Video,
            key: frame == 1,
            composition: composition(bytes),
            payload: rest_of(body, 5)?,
        }),
        _ => Ok(Meaning::Counted(Reason::Unsupported)),
    }
}

fn audio(body: &Bytes) -> Result<Meaning, NoMemory>
    requires some { 0 < length body.now }
    requires small { length body.now < 16777216 }
    ensures value { IfOk result (λ m. m ≡ audio_meaning body.now) }
    ensures sound { IfOk result IsSound }
{
    let bytes = body.as_slice();
    if bytes[0] / 16 != 10 {
        return Ok(Meaning::Counted(Reason::Unsupported));
    }
    if bytes.len() == 1 {
        return Ok(Meaning::Counted(Reason::Corrupt));
    }
    match bytes[1] {
        0 => {
            let raw = rest_of(body, 2)?;
            Ok(by_aac_config(read_aac_config(raw)))
        }
        1 => {
            if bytes.len() == 2 || bytes.len() > 8186 {
                return Ok(Meaning::Counted(Reason::Corrupt));
            }
            Ok(Meaning::Media {
                kind: Kind::Audio,
                key: true,
                composition: 0,
                payload: rest_of(body, 2)?,
            })
        }
        _ => Ok(Meaning::Counted(Reason::Unsupported)),
    }
}

/// What a tag means. A payload or a configuration is a part of its body.
pub fn meaning_of(tag: &Tag) -> Result<Meaning, NoMemory>
    requires { length tag.now.body < 16777216 }
    ensures value { IfOk result (λ m. m ≡ meaning tag.now) }
    ensures sound { IfOk result IsSound }
{
    if tag.filter || !(tag.kind == AUDIO || tag.kind == VIDEO || tag.kind == SCRIPT) {
        return Ok(Meaning::Counted(Reason::Unsupported));
    }
    if tag.kind == SCRIPT {
        return Ok(Meaning::Counted(Reason::Script));
    }
    if tag.body.is_empty() {
        return Ok(Meaning::Counted(Reason::Corrupt));
    }
    if tag.kind == AUDIO {
        audio(&tag.body)
    } else {
        video(&tag.body)
    }
}
