// An iterator over the units of a payload.
ghost use Rattle.std.specs.Prelude.{◌≡◌, ◌≤◌, ◌<◌, ◌∷◌, true, length, is_some};
ghost use Rattle.std.specs.Option.{option_map};
ghost use Rattle.rmx_media.specs.Units.{parts_of};

use crate::front::front_unit;

/// An iterator over units that are not empty.
#[derive(Drop)]
pub struct Units<'a> {
    // What follows the units that were given.
    rest: &'a [u8],
    // How many bytes a length field has.
    length_size: u8,
    ghost low: { 1 ≤ length_size },
    ghost high: { length_size ≤ 4 },
    ghost whole: { is_some (parts_of length_size rest.now) ≡ true },
}

impl<'a> Units<'a> {
    ghost use Rattle.rmx_media.specs.Units.{is_valid, units_of};
    ghost use Rattle.avc_units.specs.Units.{left_of};

    pub(crate) fn of(payload: &'a [u8], length_size: u8) -> Units<'a>
        requires low { 1 ≤ length_size }
        requires high { length_size ≤ 4 }
        requires valid { is_valid length_size payload.now ≡ true }
        ensures { left_of result ≡ units_of length_size payload.now }
    {
        Units {
            rest: payload,
            length_size,
        }
    }

    // Takes the part in front, which may be empty.
    fn part(&mut self) -> &'a [u8]
        requires { 0 < length self.old.rest.now }
        ensures same { self.new.length_size ≡ self.old.length_size }
        ensures part { parts_of self.old.length_size self.old.rest.now ≡ option_map (λ ps. result.now ∷ ps) (parts_of self.new.length_size self.new.rest.now) }
        ensures fewer { length self.new.rest.now < length self.old.rest.now }
    {
        let Some((unit, rest)) = front_unit(self.rest, self.length_size) else {
            unreachable!();
        };
        self.rest = rest;
        unit
    }
}

impl<'a> Iterator for Units<'a> {
    ghost use Rattle.std.specs.Iterator.{YieldsFirstRef, item_count};
    ghost use Rattle.avc_units.specs.Units.{left_of};

    type Item = &'a [u8];

    ghost next_gives = { YieldsFirstRef left_of };

    ghost remaining = { item_count left_of };

    fn next(&mut self) -> Option<&'a [u8]> {
        while self.rest.len() > 0 {
            let unit = self.part();
            if unit.len() > 0 {
                return Some(unit);
            }
        }
        None
    }
}
