//! Times in seconds.

ghost use Rattle.std.specs.Prelude.{◌≡◌, ◌≤◌, ◌+◌, ◌*◌, ◌-◌, min, replicate, length};
ghost use Rattle.options.specs.Number.{value_on};
ghost use Rattle.options.specs.Time.{within_limits, micros_of, time_of_parts, time};

use crate::number::is_number;

/// The least time of a segment, in µs.
const LEAST_MICROS: u64 = 1;
/// The greatest time of a segment, in µs.
const MOST_MICROS: u64 = 1_000_000_000_000;
/// Stands for every time that is too much.
const TOO_MUCH: u64 = 1_000_000_000_001;

fn with_digit(micros: u64, digit: u8) -> u64
    requires { micros ≤ TOO_MUCH }
    ensures value { result ≡ min (micros * 10 + (digit - 48)) TOO_MUCH }
    ensures bound { result ≤ TOO_MUCH }
{
    (micros * 10 + u64::from(digit.saturating_sub(b'0'))).min(TOO_MUCH)
}

fn with_digits(micros: u64, digits: &str) -> u64
    requires { micros ≤ TOO_MUCH }
    ensures value { result ≡ min (value_on micros digits.now) TOO_MUCH }
    ensures bound { result ≤ TOO_MUCH }
{
    let mut value = micros;
    for digit in digits.as_bytes() {
        value = with_digit(value, *digit);
    }
    value
}

fn with_zeros(micros: u64, count: usize) -> u64
    requires { micros ≤ TOO_MUCH }
    ensures value { result ≡ min (value_on micros (replicate count 48)) TOO_MUCH }
    ensures bound { result ≤ TOO_MUCH }
{
    let mut value = micros;
    for _ in 0..count {
        value = with_digit(value, b'0');
    }
    value
}

fn within_limits(micros: u64) -> Option<u64>
    ensures { result ≡ within_limits micros }
{
    if micros < LEAST_MICROS || MOST_MICROS < micros {
        return None;
    }
    Some(micros)
}

// The time that whole seconds and at most six decimals say.
#[tactic(auto, unfolding(crate::specs::Time::micros_of))]
fn micros_within(whole: &str, decimals: &str) -> Option<u64>
    requires { length decimals.now ≤ 6 }
    ensures { result ≡ within_limits (micros_of whole.now decimals.now) }
{
    let micros = with_digits(with_digits(0, whole), decimals);
    within_limits(with_zeros(micros, 6 - decimals.len()))
}

#[tactic(auto, unfolding(crate::specs::Time::time_of_parts))]
fn time_of_parts(whole: &str, decimals: &str) -> Option<u64>
    ensures { result ≡ time_of_parts whole.now decimals.now }
{
    if !is_number(whole) || !is_number(decimals) || decimals.len() > 6 {
        return None;
    }
    micros_within(whole, decimals)
}

/// The time of a segment, in µs: seconds, with 1 to 6 decimals or none, from 0.000001 to 1000000.
pub fn time_of(text: &str) -> Option<u64>
    ensures { result ≡ time text.now }
{
    match text.split_once('.') {
        Some((whole, decimals)) => time_of_parts(whole, decimals),
        None => time_of_parts(text, "0"),
    }
}
