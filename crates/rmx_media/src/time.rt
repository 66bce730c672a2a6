// Times.
ghost use Rattle.std.specs.Prelude.{◌≡◌, ℤ, ◌+◌, ◌*◌, ◌/◌, ◌%◌, ◌^◌, decimal, ◌<◌, ◌≤◌, ◌∷◌, ◌++◌, [], pos, ◌*ℤ◌, IfSome, IfNone, FitsSigned, unsigned_abs, if◌then◌else◌};
ghost use Rattle.std.specs.Option.{SomeIff};
ghost use Rattle.std.specs.Int.{w64};
ghost use Rattle.arrayvec.specs.ArrayString.{array_string_len};
ghost use Rattle.rmx_media.specs.Time.{order_of, IsNearest, with_sign, six_digits, seconds_text as text_of};

use arrayvec::ArrayString;
use itoa::Buffer;
use std::cmp::Ordering;

/// The length of a tick: num / den seconds.
#[derive(Clone, Copy, Debug, PartialEq, Eq)]
pub struct Base {
    pub num: u32,
    pub den: u32,
}

/// The order of a ticks of one base and b ticks of another.
pub fn compare(a: i64, ba: Base, b: i64, bb: Base) -> Ordering
    requires left { (0 < ba.num) × (0 < ba.den) }
    requires right { (0 < bb.num) × (0 < bb.den) }
    ensures { result ≡ order_of a ba b bb }
{
    let left = scaled(a, factor(ba.num, bb.den));
    let right = scaled(b, factor(bb.num, ba.den));
    left.cmp(&right)
}

fn factor(num: u32, den: u32) -> u64
    ensures { result ≡ num * den }
{
    u64::from(num) * u64::from(den)
}

fn scaled(a: i64, factor: u64) -> i128
    ensures { result ≡ a *ℤ pos factor }
{
    i128::from(a) * i128::from(factor)
}

/// a · b / c, rounded to the nearest whole number, halves away from zero. None exactly where that is no i64.
pub fn rescale(a: i64, b: u32, c: u32) -> Option<i64>
    requires { 0 < c }
    ensures nearest { IfSome result (IsNearest (a *ℤ pos b) c) }
    ensures none { IfNone result ((q : ℤ) → IsNearest (a *ℤ pos b) c q → FitsSigned w64 q → ⊥) }
{
    let product = u128::from(a.unsigned_abs()) * u128::from(b);
    signed(a < 0, divided(product, c))
}

// The size of a quotient, rounded to the nearest whole number, halves up.
fn divided(product: u128, c: u32) -> u128
    requires divisor { 0 < c }
    requires small { product < 2 ^ 96 }
    ensures value { result ≡ (2 * product + c) / (2 * c) }
{
    (2 * product + u128::from(c)) / (2 * u128::from(c))
}

// A number of that size and sign, if it is an i64.
fn signed(negative: bool, size: u128) -> Option<i64>
    ensures { SomeIff result (FitsSigned w64 (with_sign negative size)) (with_sign negative size) }
{
    if negative {
        if size > 0x8000_0000_0000_0000 {
            return None;
        }
        return Some((-(size as i128)) as i64);
    }
    if size > 0x7FFF_FFFF_FFFF_FFFF {
        return None;
    }
    Some(size as i64)
}

/// Writes microseconds as seconds with six decimals, behind a `-` where they are negative, in place of what was there.
pub fn seconds_text(us: i64, out: &mut ArrayString<32>)
    ensures { out.new.bytes ≡ text_of us }
{
    let size = us.unsigned_abs();
    begin(out, us < 0);
    push_number(out, size / 1_000_000);
    out.push('.');
    push_six(out, (size % 1_000_000) as u32);
}

// Leaves the sign alone.
fn begin(out: &mut ArrayString<32>, negative: bool)
    ensures bytes { out.new.bytes ≡ (if negative then 45 ∷ [] else []) }
    ensures len { array_string_len out.new ≤ 1 }
{
    out.clear();
    if negative {
        out.push('-');
    }
}

fn push_number(out: &mut ArrayString<32>, n: u64)
    requires room { array_string_len out.old ≤ 1 }
    requires small { n < 10 ^ 13 }
    ensures bytes { out.new.bytes ≡ out.old.bytes ++ decimal n }
    ensures len { array_string_len out.new ≤ 14 }
{
    let mut buffer = Buffer::new();
    out.push_str(buffer.format(n));
}

fn push_digit(out: &mut ArrayString<32>, n: u32)
    requires { array_string_len out.old < 32 }
    ensures bytes { out.new.bytes ≡ out.old.bytes ++ (48 + n % 10) ∷ [] }
    ensures len { array_string_len out.new ≡ array_string_len out.old + 1 }
{
    out.push(char::from(b'0' + (n % 10) as u8));
}

fn push_six(out: &mut ArrayString<32>, n: u32)
    requires { array_string_len out.old ≤ 26 }
    ensures { out.new.bytes ≡ out.old.bytes ++ six_digits n }
{
    push_digit(out, n / 100_000);
    push_digit(out, n / 10_000);
    push_digit(out, n / 1_000);
    push_digit(out, n / 100);
    push_digit(out, n / 10);
    push_digit(out, n);
}
