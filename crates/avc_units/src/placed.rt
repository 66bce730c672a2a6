// Units with the parameter sets at their place.
ghost use Rattle.std.specs.Prelude.{◌≡◌, ◌<◌, true, false, [], ◌∷◌, length, MatchOption};
ghost use Rattle.rmx_media.specs.Avc.{sets_of};
ghost use Rattle.rmx_media.specs.Config.{IsReadAvc};
ghost use Rattle.rmx_media.specs.Units.{is_valid, units_of};
ghost use Rattle.avc_units.specs.UnitList.{with_sets, has_type};
ghost use Rattle.avc_units.specs.Units.{left_of as units_left};

use crate::Units;
use crate::filled::Filled;
use crate::native::{type_or_zero, units};
use rmx_media::AvcConfig;

/// A cursor over the units of a payload, with the sets of the configuration before the first IDR unit.
#[derive(Drop)]
pub struct Placed<'a> {
    units: Units<'a>,
    sets: Filled<'a>,
    // Whether the first IDR unit is to come, and the sets go before it.
    due: bool,
    // That unit, while the sets before it are given. Else it is empty.
    held: &'a [u8],
    ghost apart: { 0 < length held.now → due ≡ false },
}

impl<'a> Placed<'a> {
    ghost use Rattle.avc_units.specs.Placed.{left_of};

    pub(crate) fn of(payload: &'a [u8], config: &'a AvcConfig) -> Placed<'a>
        requires config { IsReadAvc config.now }
        requires valid { is_valid config.now.length_size payload.now ≡ true }
        ensures { left_of result ≡ with_sets (sets_of config.now) (units_of config.now.length_size payload.now) }
    {
        Placed {
            units: units(payload, config.length_size),
            sets: Filled::of(config),
            due: !has_parameters(units(payload, config.length_size)),
            held: &[],
        }
    }

    // The next unit or set, and none where nothing is left.
    pub(crate) fn take_unit(&mut self) -> Option<&'a [u8]>
        ensures { MatchOption result ((left_of self.old ≡ []) × (left_of self.new ≡ [])) (λ unit. (0 < length unit.now) × (left_of self.old ≡ unit.now ∷ left_of self.new)) }
    {
        if self.held.len() > 0 {
            return Some(self.take_held());
        }
        let Some(unit) = self.units.next() else {
            return None;
        };
        if !self.due {
            return Some(unit);
        }
        if type_or_zero(unit) != 5 {
            return Some(unit);
        }
        self.due = false;
        self.held = unit;
        Some(self.take_held())
    }

    // The next set, or the unit behind them.
    fn take_held(&mut self) -> &'a [u8]
        requires held { 0 < length self.old.held.now }
        requires due { self.old.due ≡ false }
        ensures filled { 0 < length result.now }
        ensures taken { left_of self.old ≡ result.now ∷ left_of self.new }
    {
        if let Some(set) = self.sets.take_set() {
            return set;
        }
        let unit = self.held;
        self.held = &[];
        unit
    }
}

// Whether one of the units is a sequence parameter set.
fn has_parameters(mut left: Units<'_>) -> bool
    ensures { result ≡ has_type 7 (units_left left.entry) }
{
    while let Some(unit) = left.next() {
        if type_or_zero(unit) == 7 {
            return true;
        }
    }
    false
}
