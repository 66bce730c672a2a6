// Texts, cut at a separator.
ghost use Rattle.std.specs.Prelude.{◌≡◌, ◌+◌, ◌<◌, ◌≤◌, length, take, drop, nat_lt, if◌then◌else◌, Some, None, IfSome};
ghost use Rattle.std.specs.Option.{option_map};
ghost use Rattle.bsf_chain.specs.Parse.{before, behind};

// What stands in front of the first separator, and what stands behind it, if there is one.
pub(crate) fn cut(text: &[u8], separator: u8) -> (&[u8], Option<&[u8]>)
    ensures before { result.0.now ≡ before separator text.now }
    ensures behind { option_map (λ rest. rest.now) result.1 ≡ behind separator text.now }
    ensures fewer { IfSome result.1 (λ rest. length rest.now < length text.now) }
{
    let place = place_of(text, separator);
    if place >= text.len() {
        return (text, None);
    }
    let (front, back) = text.split_at(place);
    let (_, rest) = back.split_at(1);
    (front, Some(rest))
}

// The place of the first separator, or the length.
fn place_of(text: &[u8], separator: u8) -> usize
    ensures within { result ≤ length text.now }
    ensures before { take result text.now ≡ before separator text.now }
    ensures behind { behind separator text.now ≡ (if nat_lt result (length text.now) then Some (drop (result + 1) text.now) else None) }
{
    for (place, byte) in text.iter().enumerate() {
        if *byte == separator {
            return place;
        }
    }
    text.len()
}
