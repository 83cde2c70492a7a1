// The partition image: from bytes to tables.
#![tactic(auto)]

mod fill;
mod guest;

ghost use Rattle.std.specs.Prelude.{◌≡◌, ℕ, ◌/◌, ◌%◌, ◌<◌, MatchOption, ⊤};
ghost use Rattle.rules.specs.declared.ImageRefusal.{ImageRefusal};
ghost use Rattle.rules.specs.Rulings.{granted, ◌refuses◌then◌, ◌grants◌};
ghost use Rattle.rules.specs.Image.{read_header, read_fields, judged, read_image, load};
ghost use Rattle.image.specs.Answers.{Gives, result_of, read_of};

use partition::{named_before, out_of_order, shares_before, wrong_numbers};
use records::blank;
use rules::widths::{EDITION_WIDTH, GUESTS_AT, GUESTS_WIDTH, HEADER_BITS};
use rules::{EXTENTS, GUESTS, ImageRefusal, Loaded, SOURCES, Tables};

// What the fields of an image say: the tables, and the bit behind the last field.
#[derive(Clone, Copy)]
struct Read {
    pub end: u64,
    pub tables: Tables,
}

// Edition 1, and the number of guests. Of the header guest 0 is told.
fn read_header(s: &[u8]) -> Result<u8, ImageRefusal>
    ensures { result ≡ result_of (read_header s.now) }
{
    guest::read_count(s, 0, EDITION_WIDTH, 1, 1, 0)?;
    guest::read_count(s, GUESTS_AT, GUESTS_WIDTH, 1, GUESTS as u8, 0)
}

// Every field, in order, up to the first that is missing or outside its limits.
fn read_fields(s: &[u8]) -> Result<Read, ImageRefusal>
    ensures { result ≡ result_of (read_fields s.now grants read_of) }
{
    let guests = read_header(s)?;
    let mut guest = blank::guests();
    let mut at = HEADER_BITS;
    for i in 0..guests {
        let next = guest::read_guest(s, i, at)?;
        at = guest::behind(at, &next);
        guest[usize::from(i)] = next;
    }
    Ok(Read {
        end: at,
        tables: Tables { guests, guest },
    })
}

// What is found at place k on the host, where each guest has n places, refuses the image: the guest and the position there are told.
fn refuse<F: Fn(u8, u8) -> ImageRefusal>(
    found: Option<usize>,
    n: usize,
    why: F,
) -> Result<(), ImageRefusal>
    requires small { MatchOption found ⊤ (λ k. k < 256) }
    requires some { 0 < n }
    requires callable { F.IsAlwaysCallable why }
    ensures { (status : ℕ → ℕ → ImageRefusal) → Gives (F.post why) status → result ≡ result_of (found refuses (λ k. status (k / n) (k % n)) then granted tt) }
{
    match found {
        Some(k) => Err(why((k / n) as u8, (k % n) as u8)),
        None => Ok(()),
    }
}

// The rules that are tried after the last field, one after another, each over all guests.
fn judge(s: &[u8], end: u64, tables: Tables) -> Result<Tables, ImageRefusal>
    ensures { result ≡ result_of (judged s.now end tables) }
{
    refuse(wrong_numbers(tables), EXTENTS, ImageRefusal::ExtentNumbers)?;
    refuse(out_of_order(tables), EXTENTS, ImageRefusal::ExtentOrder)?;
    refuse(shares_before(tables), EXTENTS, ImageRefusal::PagesShared)?;
    refuse(named_before(tables), SOURCES, ImageRefusal::SourceTwice)?;
    if !fill::filled_out(s, end) {
        return Err(ImageRefusal::FillOrBehind(tables.guests));
    }
    Ok(tables)
}

fn read_image(s: &[u8]) -> Result<Tables, ImageRefusal>
    ensures { result ≡ result_of (read_image s.now) }
{
    let read = read_fields(s)?;
    judge(s, read.end, read.tables)
}

// The tables of an image, or the refusal and tables with no guest.
pub fn load(s: &[u8]) -> Loaded
    ensures { result ≡ load s.now }
{
    match read_image(s) {
        Ok(tables) => Loaded {
            answer: Ok(()),
            tables,
        },
        Err(why) => Loaded {
            answer: Err(why),
            tables: blank::no_guests(),
        },
    }
}
