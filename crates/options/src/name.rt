//! Names of inputs, outputs and lists.

ghost use Rattle.std.specs.Prelude.{◌≡◌};
ghost use Rattle.options.specs.Name.{has_control, name_fault};

use crate::fault::WordKind;

/// The most bytes of a name.
pub const MOST_NAME_BYTES: usize = 200;

fn has_control(name: &str) -> bool
    ensures { result ≡ has_control name.now }
{
    name.as_bytes().iter().any(|b| *b < 0x20)
}

/// What is wrong with a name: it is empty or has a control character, or it is too long.
pub fn name_fault(name: &str) -> Option<WordKind>
    ensures { result ≡ name_fault name.now }
{
    if name.is_empty() || has_control(name) {
        return Some(WordKind::BadValue);
    }
    if name.len() > MOST_NAME_BYTES {
        return Some(WordKind::NameTooLong);
    }
    None
}
