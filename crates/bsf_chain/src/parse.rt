// Reading a chain's text.
ghost use Rattle.std.specs.Prelude.{◌≡◌, ◌≤◌, ◌<◌, not, is_some, Ok, Err, IfOk, IfErr, if◌then◌else◌};
ghost use Rattle.std.specs.Option.{option_map};
ghost use Rattle.bsf_chain.specs.Parse.{chain_of, filter_of, filter_named, alone as alone_of, units_filter as units_filter_of, units_argument as units_argument_of, dump_filter as dump_filter_of, dump_argument as dump_argument_of, dump_by, types_by, are_types as types_are, has_type as type_is_there, range_of, range_from, range_to as range_to_of, in_range, type_in, mask_of};

use crate::text::cut;
use crate::{BsfFault, Filter};
use arrayvec::ArrayVec;

// The filters of a chain's text.
pub(crate) fn parse_filters(text: &[u8]) -> Result<ArrayVec<Filter, 16>, BsfFault>
    ensures ok { IfOk result (λ filters. chain_of text.now ≡ Ok filters.items) }
    ensures err { IfErr result (λ fault. chain_of text.now ≡ Err fault) }
{
    let mut filters = ArrayVec::new();
    let mut rest = text;
    loop {
        let (part, more) = cut(rest, b',');
        if filters.len() >= 16 {
            return Err(BsfFault::BadArgument);
        }
        let filter = match parse_filter(part) {
            Ok(filter) => filter,
            Err(fault) => return Err(fault),
        };
        filters.push(filter);
        match more {
            Some(after) => rest = after,
            None => return Ok(filters),
        }
    }
}

// A filter's name and its arguments.
#[tactic(auto, unfolding(crate::specs::Parse::filter_of))]
fn parse_filter(text: &[u8]) -> Result<Filter, BsfFault>
    ensures { result ≡ filter_of text.now }
{
    let (name, arguments) = cut(text, b'=');
    named(name, arguments)
}

fn named(name: &[u8], arguments: Option<&[u8]>) -> Result<Filter, BsfFault>
    ensures { result ≡ filter_named name.now (option_map (λ a. a.now) arguments.entry) }
{
    if name == b"null".as_slice() {
        return alone(Filter::Null, arguments);
    }
    if name == b"h264_mp4toannexb".as_slice() {
        return alone(Filter::ToAnnexB, arguments);
    }
    if name == b"aac_adts".as_slice() {
        return alone(Filter::AacAdts, arguments);
    }
    if name == b"filter_units".as_slice() {
        return units_filter(arguments);
    }
    if name == b"dump_extra".as_slice() {
        return dump_filter(arguments);
    }
    Err(BsfFault::UnknownFilter)
}

// A filter that takes no argument.
fn alone(filter: Filter, arguments: Option<&[u8]>) -> Result<Filter, BsfFault>
    ensures { result ≡ alone_of filter (option_map (λ a. a.now) arguments.entry) }
{
    match arguments {
        None => Ok(filter),
        Some(_) => Err(BsfFault::BadArgument),
    }
}

fn units_filter(arguments: Option<&[u8]>) -> Result<Filter, BsfFault>
    ensures { result ≡ units_filter_of (option_map (λ a. a.now) arguments.entry) }
{
    match arguments {
        None => Err(BsfFault::BadArgument),
        Some(text) => {
            let (key, value) = cut(text, b'=');
            units_argument(key, value)
        }
    }
}

fn units_argument(key: &[u8], value: Option<&[u8]>) -> Result<Filter, BsfFault>
    ensures { result ≡ units_argument_of key.now (option_map (λ a. a.now) value.entry) }
{
    match value {
        None => Err(BsfFault::BadArgument),
        Some(value) => {
            if key == b"pass_types".as_slice() {
                return types_filter(value, true);
            }
            if key == b"remove_types".as_slice() {
                return types_filter(value, false);
            }
            Err(BsfFault::BadArgument)
        }
    }
}

fn dump_filter(arguments: Option<&[u8]>) -> Result<Filter, BsfFault>
    ensures { result ≡ dump_filter_of (option_map (λ a. a.now) arguments.entry) }
{
    match arguments {
        None => Ok(Filter::DumpExtra { all: false }),
        Some(text) => {
            let (key, value) = cut(text, b'=');
            dump_argument(key, value)
        }
    }
}

fn dump_argument(key: &[u8], value: Option<&[u8]>) -> Result<Filter, BsfFault>
    ensures { result ≡ dump_argument_of key.now (option_map (λ a. a.now) value.entry) }
{
    match value {
        None => Err(BsfFault::BadArgument),
        Some(value) => {
            if key == b"freq".as_slice() {
                return dump_value(value);
            }
            Err(BsfFault::BadArgument)
        }
    }
}

fn dump_value(value: &[u8]) -> Result<Filter, BsfFault>
    ensures { result ≡ dump_by value.now }
{
    if value == b"keyframe".as_slice() || value == b"k".as_slice() {
        return Ok(Filter::DumpExtra { all: false });
    }
    if value == b"all".as_slice() || value == b"e".as_slice() {
        return Ok(Filter::DumpExtra { all: true });
    }
    Err(BsfFault::BadArgument)
}

// The filter that keeps these types, or the others.
fn types_filter(value: &[u8], pass: bool) -> Result<Filter, BsfFault>
    ensures { result ≡ types_by (λ type. if pass then type_is_there type value.now else not (type_is_there type value.now)) value.now }
{
    if are_types(value) {
        Ok(Filter::FilterUnits {
            keep: mask(value, pass),
        })
    } else {
        Err(BsfFault::BadArgument)
    }
}

fn are_types(value: &[u8]) -> bool
    ensures { result ≡ types_are value.now }
{
    let mut rest = value;
    loop {
        let (part, more) = cut(rest, b'|');
        if !is_range(part) {
            return false;
        }
        match more {
            Some(after) => rest = after,
            None => return true,
        }
    }
}

fn has_type(value: &[u8], unit_type: u8) -> bool
    ensures { result ≡ type_is_there unit_type value.now }
{
    let mut rest = value;
    loop {
        let (part, more) = cut(rest, b'|');
        if is_in(part, unit_type) {
            return true;
        }
        match more {
            Some(after) => rest = after,
            None => return false,
        }
    }
}

fn is_in(part: &[u8], unit_type: u8) -> bool
    ensures { result ≡ in_range unit_type (range_of part.now) }
{
    match range(part) {
        Some((low, high)) => low <= unit_type && unit_type <= high,
        None => false,
    }
}

fn is_range(part: &[u8]) -> bool
    ensures { result ≡ is_some (range_of part.now) }
{
    match range(part) {
        Some(_) => true,
        None => false,
    }
}

// The least and the greatest type of a number or a range.
#[tactic(auto, unfolding(crate::specs::Parse::range_of))]
fn range(part: &[u8]) -> Option<(u8, u8)>
    ensures { option_map range_from result ≡ range_of part.now }
{
    let (low, high) = cut(part, b'-');
    range_to(low, high)
}

fn range_to(low: &[u8], high: Option<&[u8]>) -> Option<(u8, u8)>
    ensures { option_map range_from result ≡ range_to_of low.now (option_map (λ a. a.now) high.entry) }
{
    let Some(least) = type_number(low) else {
        return None;
    };
    match high {
        None => Some((least, least)),
        Some(text) => {
            let Some(greatest) = type_number(text) else {
                return None;
            };
            if least <= greatest {
                Some((least, greatest))
            } else {
                None
            }
        }
    }
}

// A number from 0 to 31.
#[tactic(auto, unfolding(crate::specs::Parse::type_in, crate::specs::Parse::number_of))]
fn type_number(text: &[u8]) -> Option<u8>
    ensures { result ≡ type_in text.now }
{
    if text.len() == 0 {
        return None;
    }
    if text.len() > 19 {
        return None;
    }
    let mut value = 0u32;
    for digit in text {
        if *digit < b'0' {
            return None;
        }
        if *digit > b'9' {
            return None;
        }
        value = (10 * value + u32::from(*digit - b'0')).min(32);
    }
    if value < 32 { Some(value as u8) } else { None }
}

fn is_kept(value: &[u8], pass: bool, unit_type: u8) -> bool
    ensures { result ≡ (if pass then type_is_there unit_type value.now else not (type_is_there unit_type value.now)) }
{
    if pass {
        has_type(value, unit_type)
    } else {
        !has_type(value, unit_type)
    }
}

fn bit(value: &[u8], pass: bool, unit_type: u8) -> u32
    ensures bit { result ≡ (if (if pass then type_is_there unit_type value.now else not (type_is_there unit_type value.now)) then 1 else 0) }
    ensures small { result ≤ 1 }
{
    if is_kept(value, pass, unit_type) {
        1
    } else {
        0
    }
}

// The bits of the types that stay.
#[tactic(auto, unfolding(crate::specs::Parse::mask_of))]
fn mask(value: &[u8], pass: bool) -> u32
    ensures { result ≡ mask_of (λ type. if pass then type_is_there type value.now else not (type_is_there type value.now)) }
{
    let mut mask = 0u32;
    let mut unit_type = 32u8;
    while unit_type > 0 {
        unit_type -= 1;
        mask = 2 * mask + bit(value, pass, unit_type);
    }
    mask
}
