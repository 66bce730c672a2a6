// Parameter sets that are not empty.
ghost use Rattle.std.specs.Prelude.{◌≡◌, ◌<◌, ◌∷◌, [], length, MatchOption};
ghost use Rattle.rmx_media.specs.Avc.{sets_of};
ghost use Rattle.rmx_media.specs.Config.{IsReadAvc};
ghost use Rattle.avc_units.specs.Filled.{left_of};

use rmx_media::{AvcConfig, Sets};

/// An iterator over the parameter sets of a configuration that are not empty.
#[derive(Drop)]
pub struct Filled<'a> {
    sets: Sets<'a>,
}

impl<'a> Filled<'a> {
    pub(crate) fn of(config: &'a AvcConfig) -> Filled<'a>
        requires { IsReadAvc config.now }
        ensures { left_of result ≡ sets_of config.now }
    {
        Filled {
            sets: config.sets(),
        }
    }

    // The next set, and none where nothing is left.
    pub(crate) fn take_set(&mut self) -> Option<&'a [u8]>
        ensures { MatchOption result ((left_of self.old ≡ []) × (left_of self.new ≡ [])) (λ set. (0 < length set.now) × (left_of self.old ≡ set.now ∷ left_of self.new)) }
    {
        while let Some(set) = self.sets.next() {
            if set.len() > 0 {
                return Some(set);
            }
        }
        None
    }
}
