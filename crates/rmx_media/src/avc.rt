// The configuration of an AVC stream.
ghost use Rattle.std.specs.Prelude.{◌≡◌, ◌≤◌, length, IfOk, is_some, true};
ghost use Rattle.rmx_media.specs.Avc.{avc_config, all_sets, sets_in, run_of, rest_alone};
ghost use Rattle.rmx_media.specs.Config.{IsReadAvc};
ghost use Rattle.rmx_media.specs.Sets.{left_of};
ghost use Rattle.std.specs.Option.{option_map};

use crate::sets::{Sets, size_of_front};
use crate::{ConfigFault, NoMemory};
use bytes::Bytes;

/// An AVCDecoderConfigurationRecord (ISO/IEC 14496-15, 5.2.4.1): its bytes, and the size in bytes of the length field
/// in front of each NAL unit.
#[derive(Drop)]
pub struct AvcConfig {
    pub raw: Bytes,
    pub length_size: u8,
}

impl AvcConfig {
    /// An equal configuration, which shares the bytes.
    pub fn copy(&self) -> Result<AvcConfig, NoMemory>
        ensures { IfOk result (λ c. c ≡ self.now) }
    {
        match self.raw.clone() {
            Ok(raw) => Ok(AvcConfig {
                raw,
                length_size: self.length_size,
            }),
            Err(_) => Err(NoMemory),
        }
    }

    /// The sequence parameter sets and then the picture parameter sets, empty ones among them.
    pub fn sets(&self) -> Sets<'_>
        requires { IsReadAvc self.now }
        ensures { left_of result ≡ all_sets self.now }
    {
        let (head, rest) = self.raw.as_slice().split_at(6);
        Sets::of(head[5] % 32, rest)
    }
}

/// Reads a configuration. The first fault is answered: Short for no bytes, Version, or Short where the bytes end
/// before the parameter sets do.
#[tactic(auto, unfolding(crate::specs::Avc::avc_config))]
pub fn read_avc_config(raw: Bytes) -> Result<AvcConfig, ConfigFault>
    ensures value { result ≡ avc_config raw }
    // So it is a configuration as the other calls want one, where it came out of a tag.
    ensures as_read { length raw ≤ 16777210 → IfOk result IsReadAvc }
{
    let bytes = raw.as_slice();
    if bytes.is_empty() {
        return Err(ConfigFault::Short);
    }
    if bytes[0] != 1 {
        return Err(ConfigFault::Version);
    }
    if !has_sets(bytes) {
        return Err(ConfigFault::Short);
    }
    let length_size = bytes[4] % 4 + 1;
    Ok(AvcConfig { raw, length_size })
}

// Whether all parameter sets are there.
#[tactic(auto, unfolding(crate::specs::Avc::sets_in))]
fn has_sets(bytes: &[u8]) -> bool
    ensures sets { result ≡ is_some (sets_in bytes.now) }
    ensures long { result ≡ true → 6 ≤ length bytes.now }
{
    if bytes.len() < 6 {
        return false;
    }
    let (head, rest) = bytes.split_at(6);
    let Some(rest) = after_sets(head[5] % 32, rest) else {
        return false;
    };
    if rest.is_empty() {
        return false;
    }
    let (count, rest) = rest.split_at(1);
    after_sets(count[0], rest).is_some()
}

// What follows so many sets.
fn after_sets(count: u8, bytes: &[u8]) -> Option<&[u8]>
    ensures { option_map (λ rest. rest.now) result ≡ rest_alone (run_of count bytes.now) }
{
    let mut rest = bytes;
    for _ in 0..count {
        if rest.len() < 2 {
            return None;
        }
        let size = size_of_front(rest);
        let (_, body) = rest.split_at(2);
        if body.len() < size {
            return None;
        }
        (_, rest) = body.split_at(size);
    }
    Some(rest)
}
