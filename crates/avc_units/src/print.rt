// Units in their two spellings.
ghost use Rattle.std.specs.Prelude.{◌≡◌, ◌≤◌, ◌<◌, ◌^◌, ◌++◌, length, [], IfOk, OnOk};
ghost use Rattle.rmx_media.specs.Bits.{bytes_of};
ghost use Rattle.rmx_media.specs.Units.{annexb, native, sized};
ghost use Rattle.avc_units.specs.UnitList.{shown, AreShort};

use bytes::Bytes;
use rmx_media::NoMemory;
use std::alloc::Global;

/// A start code.
pub static START: [u8; 4] = [0, 0, 0, 1];

// A number in four bytes, the highest first.
fn field(size: usize) -> [u8; 4]
    requires { size < 2 ^ 32 }
    ensures { result ≡ bytes_of 4 size }
{
    [
        (size / 0x1000000) as u8,
        (size / 0x10000 % 0x100) as u8,
        (size / 0x100 % 0x100) as u8,
        (size % 0x100) as u8,
    ]
}

// How many bytes the units take, with so many bytes in front of each.
fn printed_len(units: &[&[u8]], front: usize) -> usize {
    let mut len = 0usize;
    for unit in units {
        len = len.saturating_add(unit.len()).saturating_add(front);
    }
    len
}

fn empty(alloc: Global, capacity: usize) -> Result<Vec<u8>, NoMemory>
    ensures { IfOk result (λ bytes. bytes.items ≡ []) }
{
    match Vec::with_capacity(alloc, capacity) {
        Ok(bytes) => Ok(bytes),
        Err(_) => Err(NoMemory),
    }
}

fn append(out: &mut Vec<u8>, bytes: &[u8]) -> Result<(), NoMemory>
    ensures { OnOk result (out.new.items ≡ out.old.items ++ bytes.now) }
{
    match out.extend_from_slice(bytes) {
        Ok(()) => Ok(()),
        Err(_) => Err(NoMemory),
    }
}

fn shared(bytes: Vec<u8>) -> Result<Bytes, NoMemory>
    ensures { IfOk result (λ shared. shared ≡ bytes.items) }
{
    match Bytes::from_vec(bytes) {
        Ok(shared) => Ok(shared),
        Err(_) => Err(NoMemory),
    }
}

fn append_sized(out: &mut Vec<u8>, unit: &[u8], length_size: u8) -> Result<(), NoMemory>
    requires low { 1 ≤ length_size }
    requires high { length_size ≤ 4 }
    requires short { length unit.now < 256 ^ length_size }
    ensures { OnOk result (out.new.items ≡ out.old.items ++ sized length_size unit.now) }
{
    let field = field(unit.len());
    let (_, tail) = field.as_slice().split_at(4 - usize::from(length_size));
    append(out, tail)?;
    append(out, unit)
}

pub(crate) fn native_bytes(
    alloc: Global,
    units: &[&[u8]],
    length_size: u8,
) -> Result<Bytes, NoMemory>
    requires low { 1 ≤ length_size }
    requires high { length_size ≤ 4 }
    requires short { AreShort length_size (shown units.now) }
    ensures { IfOk result (λ bytes. bytes ≡ native length_size (shown units.now)) }
{
    let mut out = empty(alloc, printed_len(units, usize::from(length_size)))?;
    for unit in units {
        append_sized(&mut out, unit, length_size)?;
    }
    shared(out)
}

pub(crate) fn annexb_bytes(alloc: Global, units: &[&[u8]]) -> Result<Bytes, NoMemory>
    ensures { IfOk result (λ bytes. bytes ≡ annexb (shown units.now)) }
{
    let mut out = empty(alloc, printed_len(units, START.len()))?;
    for unit in units {
        append(&mut out, &START)?;
        append(&mut out, unit)?;
    }
    shared(out)
}
