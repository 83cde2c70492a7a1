// The fields of an event: each a number, and as many as its word takes.
ghost use Rattle.std.specs.Prelude.{◌≡◌, ◌≤◌, length, drop};
ghost use Rattle.text.specs.Pieces.{behind};
ghost use Rattle.reasons.specs.Faults.{least, most, why_field, why_count, why_fields};

use crate::fault::{Fault, Word};
use text::{piece_end, read_number};

fn least_of(word: Word) -> usize
    ensures { result ≡ least word }
{
    match word {
        Word::Call => 4,
        Word::Head => 4,
        Word::Raise => 2,
        Word::Load => 2,
        Word::Store => 3,
        Word::Hit => 6,
    }
}

fn most_of(word: Word) -> usize
    ensures { result ≡ most word }
{
    match word {
        Word::Call => 9,
        _ => least_of(word),
    }
}

// n fields that are all numbers.
#[tactic(auto, unfolding(crate::specs::Faults::why_count))]
fn why_count(word: Word, n: usize) -> Option<Fault>
    ensures { result ≡ why_count word n }
{
    if n < least_of(word) {
        return Some(Fault::TooFew(word));
    }
    if most_of(word) < n {
        return Some(Fault::TooMany(word));
    }
    None
}

// The field at the place k.
#[tactic(auto, unfolding(crate::specs::Faults::why_field))]
fn why_field(text: &[u8], k: usize) -> Option<Fault>
    ensures { result ≡ why_field k text.now }
{
    if text.is_empty() {
        return Some(Fault::EmptyField(k));
    }
    match read_number(text) {
        None => Some(Fault::NoNumber(k)),
        Some(_) => None,
    }
}

// The fields behind the first word, which ends at `end`. `at` is always the place of the space before a field, or the line's end.
pub(crate) fn why_fields(s: &[u8], end: usize, word: Word) -> Option<Fault>
    requires { end ≤ length s.now }
    ensures { result ≡ why_fields word 0 (behind (drop end s.now)) }
{
    let mut count = 0;
    let mut at = end;
    // (A while, as in text's read_fields: it goes from piece to piece.)
    while at < s.len() {
        let next = piece_end(s, at + 1);
        count += 1;
        if let Some(fault) = why_field(&s[at + 1..next], count) {
            return Some(fault);
        }
        at = next;
    }
    why_count(word, count)
}
