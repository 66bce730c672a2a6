// Units behind length fields.
ghost use Rattle.std.specs.Prelude.{ℕ, List, ◌≡◌, ◌≤◌, ◌<◌, true, length};
ghost use Rattle.avc_units.specs.Units.{left_of};
ghost use Rattle.avc_units.specs.UnitList.{AreShort};
ghost use Rattle.rmx_media.specs.Units.{is_valid, type_of, units_of, native, AreFilled};

use crate::Units;
use crate::front::front_unit;

/// The type of a unit (ISO/IEC 14496-10, table 7-1): 5 is an IDR slice, 7 and 8 are parameter sets, 9 is an access unit
/// delimiter.
pub fn unit_type(unit: &[u8]) -> u8
    requires { 0 < length unit.now }
    ensures value { result ≡ type_of unit.now }
    ensures small { result < 32 }
{
    unit[0] % 32
}

// The type of a unit, 0 for one without a byte.
pub(crate) fn type_or_zero(unit: &[u8]) -> u8
    ensures { result ≡ type_of unit.now }
{
    if unit.len() == 0 { 0 } else { unit[0] % 32 }
}

/// Whether a payload is nothing but units behind length fields of so many bytes, with at least one that is not empty.
pub fn valid_units(payload: &[u8], length_size: u8) -> bool
    requires low { 1 ≤ length_size }
    requires high { length_size ≤ 4 }
    ensures { result ≡ is_valid length_size payload.now }
{
    let mut rest = payload;
    let mut found = false;
    while rest.len() > 0 {
        let Some((unit, after)) = front_unit(rest, length_size) else {
            return false;
        };
        if unit.len() > 0 {
            found = true;
        }
        rest = after;
    }
    found
}

/// The units of a valid payload that are not empty, in order.
pub fn units(payload: &[u8], length_size: u8) -> Units<'_>
    requires low { 1 ≤ length_size }
    requires high { length_size ≤ 4 }
    requires valid { is_valid length_size payload.now ≡ true }
    ensures units { left_of result ≡ units_of length_size payload.now }
    ensures filled { AreFilled (left_of result) }
{
    Units::of(payload, length_size)
}

/// Units that were printed behind length fields are read again, and what was printed is valid.
pub fn read_again()
    ensures { (width : ℕ) (units : List (List ℕ)) → 1 ≤ width → width ≤ 4 → AreShort width units → AreFilled units →
        (units_of width (native width units) ≡ units) × (0 < length units → is_valid width (native width units) ≡ true) }
{}
