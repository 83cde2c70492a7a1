// What follows the last field.
ghost use Rattle.std.specs.Prelude.{◌≡◌};
ghost use Rattle.rules.specs.Image.{filled_out};

// Zero bits fill the last byte, and nothing is behind it.
pub(crate) fn filled_out(s: &[u8], end: u64) -> bool
    ensures { result ≡ filled_out s.now end }
{
    s.len() as u64 == end.div_ceil(8) && bits::number_at(s, end, ((8 - end % 8) % 8) as u32) == 0
}
