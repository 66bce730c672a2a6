//! Numbers.

ghost use Rattle.std.specs.Prelude.{◌≡◌, ◌<◌, ◌≤◌, length, true, IfSome};
ghost use Rattle.options.specs.Number.{is_digits, is_number, number, value_on};

fn has_only_digits(text: &str) -> bool
    ensures { result ≡ is_digits text.now }
{
    text.as_bytes().iter().all(|b| b.is_ascii_digit())
}

/// Whether a text is digits, at least one.
pub fn is_number(text: &str) -> bool
    ensures { result ≡ is_number text.now }
{
    !text.is_empty() && has_only_digits(text)
}

fn value(text: &str) -> u64
    requires number { is_number text.now ≡ true }
    requires fits { length text.now ≤ 19 }
    ensures { result ≡ value_on 0 text.now }
{
    text.parse().unwrap()
}

/// The number that 1 to 19 digits spell, where it lies within the limits.
pub fn number_in(text: &str, least: u64, most: u64) -> Option<u64>
    ensures value { result ≡ number least most text.now }
    ensures bound { IfSome result (λ value. value ≤ most) }
{
    if !is_number(text) || text.len() > 19 {
        return None;
    }
    let value = value(text);
    if value < least || most < value {
        return None;
    }
    Some(value)
}
