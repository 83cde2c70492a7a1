// A number in a line: hex digits of either case.
ghost use Rattle.std.specs.Prelude.{◌≡◌};
ghost use Rattle.rules.specs.Text.{digit_of, field};

// The value of a digit. Three tests one under another: of one match over the ranges the compiler makes six comparisons.
#[tactic(auto, unfolding(rules::specs::Text::digit_of))]
pub fn digit_of(b: u8) -> Option<u8>
    ensures { result ≡ digit_of b }
{
    if matches!(b, b'0'..=b'9') {
        return Some(b - b'0');
    }
    if matches!(b, b'a'..=b'f') {
        return Some(b - b'a' + 10);
    }
    if matches!(b, b'A'..=b'F') {
        return Some(b - b'A' + 10);
    }
    None
}

// A field's number; None where the field is no number of 1 to 16 digits.
pub fn read_number(text: &[u8]) -> Option<u64>
    ensures { result ≡ field text.now }
{
    if text.is_empty() || 16 < text.len() {
        return None;
    }
    let mut v = 0;
    for b in text {
        let d = digit_of(*b)?;
        v = v * 16 + u64::from(d);
    }
    Some(v)
}
