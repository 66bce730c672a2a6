// The parameter sets of an AVC configuration, one after another.
ghost use Rattle.std.specs.Prelude.{◌≡◌, ◌+◌, ◌≤◌, true, take, drop, length, is_some};
ghost use Rattle.rmx_media.specs.Bits.{number_of};
ghost use Rattle.rmx_media.specs.Avc.{sets_left};

/// An iterator over parameter sets, as slices of the configuration's bytes.
#[derive(Drop)]
pub struct Sets<'a> {
    // What follows the sets that were given.
    rest: &'a [u8],
    // How many sets of this kind are left.
    count: u8,
    // Whether these are the picture parameter sets.
    last: bool,
    ghost whole: { is_some (sets_left last count rest.now) ≡ true },
}

impl<'a> Sets<'a> {
    ghost use Rattle.rmx_media.specs.Sets.{left_of};
    ghost use Rattle.rmx_media.specs.Avc.{some_sets, sets_left};
    ghost use Rattle.std.specs.Prelude.{false};

    // The sets of which so many sequence parameter sets stand in front, with all that follows them.
    pub(crate) fn of(count: u8, rest: &'a [u8]) -> Sets<'a>
        requires { is_some (sets_left false count rest.now) ≡ true }
        ensures { left_of result ≡ some_sets (sets_left false count rest.now) }
    {
        Sets {
            rest,
            count,
            last: false,
        }
    }

    // Goes on to the picture parameter sets, where no sequence parameter set is left.
    fn turn(&mut self)
        ensures left { left_of self.new ≡ left_of self.old }
        ensures turned { self.new.count ≡ 0 → self.new.last ≡ true }
    {
        if self.count > 0 || self.last {
            return;
        }
        let (count, rest) = self.rest.split_at(1);
        self.count = count[0];
        self.rest = rest;
        self.last = true;
    }
}

impl<'a> Iterator for Sets<'a> {
    ghost use Rattle.std.specs.Iterator.{YieldsFirstRef, item_count};
    ghost use Rattle.rmx_media.specs.Sets.{left_of};

    type Item = &'a [u8];

    ghost next_gives = { YieldsFirstRef left_of };

    ghost remaining = { item_count left_of };

    fn next(&mut self) -> Option<&'a [u8]> {
        self.turn();
        if self.count == 0 {
            return None;
        }
        let (set, rest) = front_set(self.rest);
        self.rest = rest;
        self.count -= 1;
        Some(set)
    }
}

/// The number in two bytes.
pub(crate) fn size_of_front(bytes: &[u8]) -> usize
    requires { 2 ≤ length bytes.now }
    ensures { result ≡ number_of (take 2 bytes.now) }
{
    256 * usize::from(bytes[0]) + usize::from(bytes[1])
}

// The set in front, and what follows it.
fn front_set(bytes: &[u8]) -> (&[u8], &[u8])
    requires long { 2 ≤ length bytes.now }
    requires whole { 2 + number_of (take 2 bytes.now) ≤ length bytes.now }
    ensures set { result.0.now ≡ take (number_of (take 2 bytes.now)) (drop 2 bytes.now) }
    ensures rest { result.1.now ≡ drop (2 + number_of (take 2 bytes.now)) bytes.now }
{
    let size = size_of_front(bytes);
    let (_, body) = bytes.split_at(2);
    body.split_at(size)
}
