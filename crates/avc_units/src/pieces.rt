// The Annex B form of a payload, in pieces.
ghost use Rattle.std.specs.Prelude.{◌≡◌, ◌≤◌, true, length};
ghost use Rattle.std.specs.List.{concat};
ghost use Rattle.rmx_media.specs.Avc.{sets_of};
ghost use Rattle.rmx_media.specs.Config.{IsReadAvc};
ghost use Rattle.rmx_media.specs.Units.{is_valid, units_of, annexb};
ghost use Rattle.avc_units.specs.UnitList.{with_sets};
ghost use Rattle.avc_units.specs.Pieces.{left_of, pieces_of};

use crate::placed::Placed;
use crate::print::START;
use rmx_media::AvcConfig;

/// An iterator over the pieces of an Annex B form: for each unit a start code, and then the unit. No piece is empty, and
/// none is a copy.
#[derive(Drop)]
pub struct Pieces<'a> {
    // A unit whose start code was given. Else it is empty.
    unit: &'a [u8],
    placed: Placed<'a>,
}

/// The Annex B form of a valid payload, with the configuration's sets before the first IDR unit, unless there is none
/// or there is a sequence parameter set.
pub fn annexb_pieces<'a>(payload: &'a [u8], config: &'a AvcConfig) -> Pieces<'a>
    requires config { IsReadAvc config.now }
    requires valid { is_valid config.now.length_size payload.now ≡ true }
    ensures pieces { left_of result ≡ pieces_of (with_sets (sets_of config.now) (units_of config.now.length_size payload.now)) }
    ensures whole { concat (left_of result) ≡ annexb (with_sets (sets_of config.now) (units_of config.now.length_size payload.now)) }
{
    Pieces {
        unit: &[],
        placed: Placed::of(payload, config),
    }
}

/// How many bytes the Annex B form of a payload has, with the sets in it.
pub fn annexb_len(payload: &[u8], config: &AvcConfig) -> u64
    requires config { IsReadAvc config.now }
    requires valid { is_valid config.now.length_size payload.now ≡ true }
    requires small { length payload.now ≤ 4294967295 }
    ensures { result ≡ length (annexb (with_sets (sets_of config.now) (units_of config.now.length_size payload.now))) }
{
    let mut left = Placed::of(payload, config);
    let mut len = 0u64;
    while let Some(unit) = left.take_unit() {
        len += 4 + unit.len() as u64;
    }
    len
}

impl<'a> Iterator for Pieces<'a> {
    ghost use Rattle.std.specs.Iterator.{item_count};
    ghost use Rattle.avc_units.specs.Pieces.{GivesPiece, left_of};

    type Item = &'a [u8];

    ghost next_gives = { GivesPiece };

    ghost remaining = { item_count left_of };

    fn next(&mut self) -> Option<&'a [u8]> {
        if self.unit.len() > 0 {
            let unit = self.unit;
            self.unit = &[];
            return Some(unit);
        }
        match self.placed.take_unit() {
            Some(unit) => {
                self.unit = unit;
                Some(&START)
            }
            None => None,
        }
    }
}
