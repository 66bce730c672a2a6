// A packet through a chain with no filter.
ghost use Rattle.std.specs.Prelude.{IfOk};
ghost use Rattle.rmx_media.specs.Config.{IsReadAvc};

use avc_units::valid_units;
use bsf_chain::Chain;
use bytes::Bytes;
use rmx_media::{AvcConfig, Config, Form, Kind, NoMemory, Packet, StreamInfo, read_avc_config};
use std::alloc::{AllocError, Global};

// A configuration with no sets, for length fields of four bytes.
fn config() -> Result<AvcConfig, NoMemory>
    ensures { IfOk result IsReadAvc }
{
    let raw = Bytes::from_static(b"\x01\x42\x00\x1E\xFF\xE0\x00");
    match read_avc_config(raw) {
        Ok(config) => Ok(config),
        Err(_) => Err(NoMemory),
    }
}

// One unit of so many bytes behind its length.
fn unit(alloc: Global, size: u32) -> Result<Vec<u8>, AllocError> {
    let mut bytes = Vec::new(alloc);
    bytes.extend_from_slice(&size.to_be_bytes())?;
    for _ in 0..size {
        bytes.push(0x65)?;
    }
    Ok(bytes)
}

// Passes a packet through a chain so many times, and counts what it leaves.
fn pass_on(alloc: Global, chain: &Chain, payload: Bytes, times: u32) -> Result<u32, NoMemory> {
    let config = config()?;
    if !valid_units(payload.as_slice(), config.length_size) {
        return Ok(0);
    }
    let info = StreamInfo {
        kind: Kind::Video,
        config: Config::Avc(config.copy()?),
    };
    let packet = Packet {
        stream: 0,
        dts: 0,
        pts: 0,
        key: true,
        form: Form::Native,
        payload,
        config: Config::Avc(config),
        version: 0,
    };
    let mut left = 0u32;
    for _ in 0..times {
        if chain.apply(alloc, &info, &packet)?.is_some() {
            left = left.wrapping_add(1);
        }
    }
    Ok(left)
}

/// Passes a packet with a unit of so many bytes through an empty chain, and answers how often something was left.
pub fn pass(alloc: Global, size: u32, times: u32) -> Result<u32, NoMemory> {
    let Ok(bytes) = unit(alloc, size) else {
        return Err(NoMemory);
    };
    let Ok(payload) = Bytes::from_vec(bytes) else {
        return Err(NoMemory);
    };
    pass_on(alloc, &Chain::empty(), payload, times)
}
