// A line of a word and numbers, written at a place.
ghost use Rattle.std.specs.Prelude.{[], ◌∷◌, ◌++◌, ◌+◌, ◌≤◌, length, take};
ghost use Rattle.rules.specs.Text.{space};
ghost use Rattle.rules.specs.Plan.{word_line};
ghost use Rattle.text.specs.Put.{Put};

// As many bytes as the longest output takes, and more: 4 guests of 7 extents and 16 sources each take at most 5,428.
pub const ROOM: usize = 8192;

// A word and a space.
pub(crate) fn put_first(word: &[u8], at: usize, out: &mut [u8; ROOM]) -> usize
    requires { at + length word.now + 1 ≤ 8192 }
    ensures { Put out.old out.new at result (word.now ++ (space ∷ [])) }
{
    let end = text::put_text(word, at, out);
    out[end] = b' ';
    end + 1
}

// A word, the first count numbers, and the line's end.
pub(crate) fn put_word_line(
    word: &[u8],
    ns: [u64; 5],
    count: usize,
    at: usize,
    out: &mut [u8; ROOM],
) -> usize
    requires { (1 ≤ count) × (count ≤ 5) × (at + length word.now + 97 ≤ 8192) }
    ensures { Put out.old out.new at result (word_line word.now (take count ns)) }
{
    let from = put_first(word, at, out);
    text::put_numbers(ns, count, from, out)
}
