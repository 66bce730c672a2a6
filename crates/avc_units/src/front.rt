// The unit in front.
ghost use Rattle.std.specs.Prelude.{◌≡◌, ◌+◌, ◌≤◌, ◌<◌, take, drop, length, ◌^◌, IfSome, IfNone};
ghost use Rattle.rmx_media.specs.Units.{size_in};

// The number in the length field in front.
pub(crate) fn front_size(bytes: &[u8], length_size: u8) -> usize
    requires low { 1 ≤ length_size }
    requires high { length_size ≤ 4 }
    requires long { length_size ≤ length bytes.now }
    ensures size { result ≡ size_in length_size bytes.now }
    ensures small { result < 2 ^ 32 }
{
    let first = usize::from(bytes[0]);
    if length_size == 1 {
        return first;
    }
    let two = 256 * first + usize::from(bytes[1]);
    if length_size == 2 {
        return two;
    }
    let three = 256 * two + usize::from(bytes[2]);
    if length_size == 3 {
        return three;
    }
    256 * three + usize::from(bytes[3])
}

// The unit in front, which may be empty, and what follows it. None where it is cut off.
pub(crate) fn front_unit(bytes: &[u8], length_size: u8) -> Option<(&[u8], &[u8])>
    requires low { 1 ≤ length_size }
    requires high { length_size ≤ 4 }
    ensures cut { IfNone result (length bytes.now < length_size + size_in length_size bytes.now) }
    ensures whole { IfSome result (λ found. length_size + size_in length_size bytes.now ≤ length bytes.now) }
    ensures unit { IfSome result (λ found. found.0.now ≡ take (size_in length_size bytes.now) (drop length_size bytes.now)) }
    ensures rest { IfSome result (λ found. found.1.now ≡ drop (length_size + size_in length_size bytes.now) bytes.now) }
{
    let width = usize::from(length_size);
    if bytes.len() < width {
        return None;
    }
    let size = front_size(bytes, length_size);
    let (_, body) = bytes.split_at(width);
    if body.len() < size {
        return None;
    }
    Some(body.split_at(size))
}
