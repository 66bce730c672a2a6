// Worked cases.
ghost use Rattle.std.specs.Prelude.{◌≡◌, IfOk};

use crate::*;
use bytes::Bytes;
use rmx_media::{AvcConfig, NoMemory, read_avc_config};
use std::alloc::Global;
use std::test::Fail;

// An AVC configuration with one set of each kind.
const AVC: [u8; 17] = [
    0x01, 0x42, 0x00, 0x1E, 0xFF, 0xE1, 0x00, 0x04, 0x67, 0x42, 0x00, 0x1E, 0x01, 0x00, 0x02, 0x68,
    0xCE,
];

// An access unit delimiter, an empty unit and an IDR slice.
const IDR: [u8; 16] = [0, 0, 0, 2, 0x09, 0xF0, 0, 0, 0, 0, 0, 0, 0, 2, 0x65, 0x88];

fn bytes(alloc: Global, list: &[u8]) -> Result<Bytes, NoMemory>
    ensures { IfOk result (λ b. b ≡ list.now) }
{
    match Bytes::copy_from_slice(alloc, list) {
        Ok(bytes) => Ok(bytes),
        Err(_) => Err(NoMemory),
    }
}

#[test]
fn payloads(rt: HostRuntime) -> Result<(), Fail> {
    for (payload, size, expected) in [
        ([].as_slice(), 4, false),
        ([0, 0, 0, 0].as_slice(), 4, false),
        ([0, 0, 0, 1].as_slice(), 4, false),
        ([0, 0, 0, 1, 0x65].as_slice(), 4, true),
        ([0, 0, 1, 0x65, 0].as_slice(), 3, false),
        ([0, 0, 1, 0x65].as_slice(), 3, true),
        ([0, 0, 0, 1, 0x65].as_slice(), 2, true),
        ([1, 0x65, 0, 2, 0x41, 0x9A].as_slice(), 1, true),
        ([1, 0x65, 3, 0x41, 0x9A].as_slice(), 1, false),
    ] {
        assert_eq!(rt; valid_units(payload, size), expected);
    }
    assert_eq!(rt; unit_type(&[0x65, 0x88]), 5);
    Ok(())
}

#[test]
fn lists(rt: HostRuntime) -> Result<(), Fail> {
    let alloc = rt.alloc();
    let config = read_avc_config(bytes(alloc, &AVC)?)?;
    assert_eq!(rt; config.length_size, 4);
    assert!(rt; valid_units(&IDR, config.length_size));
    let mut list = UnitList::read(alloc, &IDR, &config)?;
    assert_eq!(rt;
        list.native(4)?.as_slice(),
        [0, 0, 0, 2, 0x09, 0xF0, 0, 0, 0, 2, 0x65, 0x88].as_slice()
    );
    list.sets_before_idr(&config)?;
    list.keep(!(1 << 9));
    assert_eq!(rt;
        list.annexb()?.as_slice(),
        [
            0, 0, 0, 1, 0x67, 0x42, 0, 0x1E, 0, 0, 0, 1, 0x68, 0xCE, 0, 0, 0, 1, 0x65, 0x88
        ]
        .as_slice()
    );
    list.sets_in_front(&config)?;
    list.keep(1 << 8);
    assert_eq!(rt;
        list.annexb()?.as_slice(),
        [0, 0, 0, 1, 0x68, 0xCE].as_slice()
    );
    list.keep(0);
    assert!(rt; list.is_empty());
    Ok(())
}

#[test]
fn pieces(rt: HostRuntime) -> Result<(), Fail> {
    let alloc = rt.alloc();
    let config = read_avc_config(bytes(alloc, &AVC)?)?;
    assert_eq!(rt; config.length_size, 4);
    assert!(rt; valid_units(&IDR, config.length_size));
    assert_eq!(rt; annexb_len(&IDR, &config), 26);
    let mut pieces = annexb_pieces(&IDR, &config);
    for expected in [
        [0, 0, 0, 1].as_slice(),
        [0x09, 0xF0].as_slice(),
        [0, 0, 0, 1].as_slice(),
        [0x67, 0x42, 0, 0x1E].as_slice(),
        [0, 0, 0, 1].as_slice(),
        [0x68, 0xCE].as_slice(),
        [0, 0, 0, 1].as_slice(),
        [0x65, 0x88].as_slice(),
    ] {
        assert_eq!(rt; pieces.next(), Some(expected));
    }
    assert_eq!(rt; pieces.next(), None);
    assert_eq!(rt; units(&IDR, 4).next(), Some([0x09, 0xF0].as_slice()));
    Ok(())
}
