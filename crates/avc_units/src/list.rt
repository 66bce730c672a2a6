// Lists of units.
ghost use Rattle.std.specs.Prelude.{◌≡◌, ℕ, List, ◌≤◌, ◌==◌, ◌++◌, ◌∷◌, [], true, length, IfOk, OnOk, OnErr};
ghost use Rattle.rmx_media.specs.Avc.{sets_of};
ghost use Rattle.rmx_media.specs.Config.{IsReadAvc};
ghost use Rattle.rmx_media.specs.Units.{is_valid, units_of, annexb, native, AreFilled};
ghost use Rattle.avc_units.specs.UnitList.{shown, is_kept, kept, has_type, where_due, with_sets, begins, in_front, AreShort};

use crate::filled::Filled;
use crate::native::{type_or_zero, units};
use crate::print::{annexb_bytes, native_bytes};
use bytes::Bytes;
use rmx_media::{AvcConfig, NoMemory};
use std::alloc::Global;
use std::marker::Model;

/// Units, as slices of a payload and of a configuration. Contracts see the list of units.
#[derive(Drop)]
pub struct UnitList<'a> {
    alloc: Global,
    units: Vec<&'a [u8]>,
}

impl<'a> Model for UnitList<'a> {
    ghost use Rattle.std.specs.Prelude.{List, ℕ};
    ghost use Rattle.avc_units.specs.UnitList.{shown};

    ghost Value = { List (List ℕ) };

    ghost view = { λ u. shown u.units.items };
}

impl<'a> UnitList<'a> {
    /// The units of a valid payload that are not empty.
    pub fn read(
        alloc: Global,
        payload: &'a [u8],
        config: &AvcConfig,
    ) -> Result<UnitList<'a>, NoMemory>
        requires config { IsReadAvc config.now }
        requires valid { is_valid config.now.length_size payload.now ≡ true }
        ensures units { IfOk result (λ list. list ≡ units_of config.now.length_size payload.now) }
        // So the list can be printed again as it is.
        ensures short { IfOk result (AreShort config.now.length_size) }
        ensures filled { IfOk result AreFilled }
    {
        match read_units(alloc, payload, config) {
            Ok(units) => Ok(UnitList { alloc, units }),
            Err(_) => Err(NoMemory),
        }
    }

    /// Whether there is no unit.
    pub fn is_empty(&self) -> bool
        ensures { result ≡ (length self.now == 0) }
    {
        self.units.is_empty()
    }

    /// Keeps the units whose type's bit is set, where bit 0 is the lowest.
    pub fn keep(&mut self, types: u32)
        ensures { self.new ≡ kept types self.old }
    {
        keep_units(&mut self.units, types);
    }

    /// Puts the configuration's sets before the first IDR unit, unless there is none or there is a sequence parameter set.
    pub fn sets_before_idr(&mut self, config: &'a AvcConfig) -> Result<(), NoMemory>
        requires { IsReadAvc config.now }
        ensures ok { OnOk result (self.new ≡ with_sets (sets_of config.now) self.old) }
        ensures err { OnErr result (self.new ≡ self.old) }
    {
        match units_with_sets(self.alloc, self.units.as_slice(), config) {
            Ok(units) => {
                self.units = units;
                Ok(())
            }
            Err(_) => Err(NoMemory),
        }
    }

    /// Puts the configuration's sets in front, unless the list begins with them.
    pub fn sets_in_front(&mut self, config: &'a AvcConfig) -> Result<(), NoMemory>
        requires { IsReadAvc config.now }
        ensures ok { OnOk result (self.new ≡ in_front (sets_of config.now) self.old) }
        ensures err { OnErr result (self.new ≡ self.old) }
    {
        match units_behind_sets(self.alloc, self.units.as_slice(), config) {
            Ok(units) => {
                self.units = units;
                Ok(())
            }
            Err(_) => Err(NoMemory),
        }
    }

    /// The units behind length fields of so many bytes.
    pub fn native(&self, length_size: u8) -> Result<Bytes, NoMemory>
        requires low { 1 ≤ length_size }
        requires high { length_size ≤ 4 }
        requires short { AreShort length_size self.now }
        ensures { IfOk result (λ bytes. bytes ≡ native length_size self.now) }
    {
        native_bytes(self.alloc, self.units.as_slice(), length_size)
    }

    /// The units behind start codes of four bytes (ISO/IEC 14496-10, Annex B).
    pub fn annexb(&self) -> Result<Bytes, NoMemory>
        ensures { IfOk result (λ bytes. bytes ≡ annexb self.now) }
    {
        annexb_bytes(self.alloc, self.units.as_slice())
    }
}

fn push_slice<'a>(list: &mut Vec<&'a [u8]>, slice: &'a [u8]) -> Result<(), NoMemory>
    ensures { OnOk result (shown list.new.items ≡ shown list.old.items ++ slice.now ∷ []) }
{
    match list.push(slice) {
        Ok(()) => Ok(()),
        Err(_) => Err(NoMemory),
    }
}

fn read_units<'a>(
    alloc: Global,
    payload: &'a [u8],
    config: &AvcConfig,
) -> Result<Vec<&'a [u8]>, NoMemory>
    requires config { IsReadAvc config.now }
    requires valid { is_valid config.now.length_size payload.now ≡ true }
    ensures { IfOk result (λ list. shown list.items ≡ units_of config.now.length_size payload.now) }
{
    let mut list = Vec::new(alloc);
    let mut left = units(payload, config.length_size);
    while let Some(unit) = left.next() {
        push_slice(&mut list, unit)?;
    }
    Ok(list)
}

fn is_of_kept_type(unit: &[u8], types: u32) -> bool
    ensures { result ≡ is_kept types unit.now }
{
    (types >> type_or_zero(unit)) % 2 == 1
}

fn keep_units(units: &mut Vec<&[u8]>, types: u32)
    ensures { shown units.new.items ≡ kept types (shown units.old.items) }
{
    units.retain(|unit| is_of_kept_type(unit, types));
}

fn has_unit_of(units: &[&[u8]], unit_type: u8) -> bool
    ensures { result ≡ has_type unit_type (shown units.now) }
{
    for unit in units {
        if type_or_zero(unit) == unit_type {
            return true;
        }
    }
    false
}

// Adds the configuration's sets.
fn push_sets<'a>(list: &mut Vec<&'a [u8]>, config: &'a AvcConfig) -> Result<(), NoMemory>
    requires { IsReadAvc config.now }
    ensures { OnOk result (shown list.new.items ≡ shown list.old.items ++ sets_of config.now) }
{
    let mut sets = Filled::of(config);
    while let Some(set) = sets.take_set() {
        push_slice(list, set)?;
    }
    Ok(())
}

// Adds a unit, and the sets before it where they are due and it is an IDR unit. Answers whether they are still due.
fn push_unit<'a>(
    list: &mut Vec<&'a [u8]>,
    unit: &'a [u8],
    config: &'a AvcConfig,
    due: bool,
) -> Result<bool, NoMemory>
    requires { IsReadAvc config.now }
    ensures { IfOk result (λ still. (more : List (List ℕ)) →
        shown list.new.items ++ where_due still (sets_of config.now) more
        ≡ shown list.old.items ++ where_due due (sets_of config.now) (unit.now ∷ more)) }
{
    if !due || type_or_zero(unit) != 5 {
        push_slice(list, unit)?;
        return Ok(due);
    }
    push_sets(list, config)?;
    push_slice(list, unit)?;
    Ok(false)
}

fn units_with_sets<'a>(
    alloc: Global,
    units: &[&'a [u8]],
    config: &'a AvcConfig,
) -> Result<Vec<&'a [u8]>, NoMemory>
    requires { IsReadAvc config.now }
    ensures { IfOk result (λ list. shown list.items ≡ with_sets (sets_of config.now) (shown units.now)) }
{
    let mut list = Vec::new(alloc);
    let mut due = !has_unit_of(units, 7);
    for unit in units {
        due = push_unit(&mut list, unit, config, due)?;
    }
    Ok(list)
}

// Whether the units begin with the configuration's sets.
fn begins_with(units: &[&[u8]], config: &AvcConfig) -> bool
    requires { IsReadAvc config.now }
    ensures { result ≡ begins (sets_of config.now) (shown units.now) }
{
    let mut sets = Filled::of(config);
    let mut place = 0;
    while let Some(set) = sets.take_set() {
        if place >= units.len() {
            return false;
        }
        if units[place] != set {
            return false;
        }
        place += 1;
    }
    true
}

fn units_behind_sets<'a>(
    alloc: Global,
    units: &[&'a [u8]],
    config: &'a AvcConfig,
) -> Result<Vec<&'a [u8]>, NoMemory>
    requires { IsReadAvc config.now }
    ensures { IfOk result (λ list. shown list.items ≡ in_front (sets_of config.now) (shown units.now)) }
{
    let mut list = Vec::new(alloc);
    if begins_with(units, config) {
        push_units(&mut list, units)?;
        return Ok(list);
    }
    push_sets(&mut list, config)?;
    push_units(&mut list, units)?;
    Ok(list)
}

// Adds units.
fn push_units<'a>(list: &mut Vec<&'a [u8]>, units: &[&'a [u8]]) -> Result<(), NoMemory>
    ensures { OnOk result (shown list.new.items ≡ shown list.old.items ++ shown units.now) }
{
    for unit in units {
        push_slice(list, unit)?;
    }
    Ok(())
}
