// The fields behind a line's first word.
ghost use Rattle.std.specs.Prelude.{◌≡◌, ◌≤◌, length, drop};
ghost use Rattle.rules.specs.Text.{fields};
ghost use Rattle.text.specs.Pieces.{behind};
ghost use Rattle.text.specs.Gathered.{fields_or};

use crate::number::read_number;
use crate::piece::piece_end;

// As many numbers as the longest event has.
pub const FIELDS: usize = 9;

// So many numbers, with zeros behind them.
#[derive(Clone, Copy, PartialEq, Eq)]
pub struct Fields {
    pub numbers: usize,
    pub number: [u64; FIELDS],
}

// The fields behind the first word, which ends at `end`; None where one is no number, or there are more than FIELDS. `at` is always
// the place of the space before a field, or the line's end.
pub fn read_fields(s: &[u8], end: usize) -> Option<Fields>
    requires { end ≤ length s.now }
    ensures { result ≡ fields_or (fields (behind (drop end s.now))) }
{
    let mut list = [0; FIELDS];
    let mut count = 0;
    let mut at = end;
    // (A while: it goes from piece to piece. `split` gives a piece of no bytes at the line's end too, where there is no field.)
    while at < s.len() {
        if count == FIELDS {
            return None;
        }
        let next = piece_end(s, at + 1);
        list[count] = read_number(&s[at + 1..next])?;
        count += 1;
        at = next;
    }
    Some(Fields {
        numbers: count,
        number: list,
    })
}
