// The pieces of a line, parted by spaces.
ghost use Rattle.std.specs.Prelude.{◌≡◌, ◌+◌, ◌≤◌, length, drop};
ghost use Rattle.rules.specs.Text.{same};
ghost use Rattle.text.specs.Pieces.{first_length};

// The end of the piece that starts at the place at: the next space, or the line's end.
pub fn piece_end(s: &[u8], at: usize) -> usize
    requires { at ≤ length s.now }
    ensures { result ≡ at + first_length (drop at s.now) }
{
    for i in at..s.len() {
        if s[i] == b' ' {
            return i;
        }
    }
    s.len()
}

// (A function of its own, since it takes a literal of any length, which `==` on a slice does not.)
pub fn same_text(a: &[u8], b: &[u8]) -> bool
    ensures { result ≡ same a.now b.now }
{
    a == b
}
