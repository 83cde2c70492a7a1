// Writing partition images: from tables to bytes. The order and the widths are the reader's (crate image).
#![tactic(auto)]

mod guest;

ghost use Rattle.std.specs.Prelude.{◌≡◌, true, ◌*◌, ◌^◌, ◌<◌, ◌≤◌, length};
ghost use Rattle.rules.specs.Kept.{guest_at};
ghost use Rattle.rules.specs.Limits.{guest_limit};
ghost use Rattle.rules.specs.Scan.{each_below};
ghost use Rattle.rules.specs.Tables.{keep_rules};
ghost use Rattle.rules.specs.Widths.{header_bits};
ghost use Rattle.rules.specs.Writing.{guest_row, header_row, image_row, write_image};
ghost use Rattle.bits.specs.Put.{put_bits};

use rules::widths::{EDITION_WIDTH, GUESTS_AT, GUESTS_WIDTH, HEADER_BITS};
use rules::{Tables, WriteRefusal};

// How many bits the image of the tables has.
fn image_bits(tables: Tables) -> u64
    requires { tables.guests ≤ guest_limit }
    ensures { (result ≡ length (image_row tables)) × (header_bits ≤ result) × (result < 2 ^ 32) }
{
    let mut at: u64 = HEADER_BITS;
    for guest in &tables.guest[..tables.guests as usize] {
        at += guest::guest_bits(*guest);
    }
    at
}

// Edition 1, and the number of guests.
fn put_header(out: &mut [u8], tables: Tables)
    requires { header_bits ≤ 8 * length out.old }
    ensures { out.new ≡ put_bits out.old 0 (header_row tables) }
{
    bits::put_field(out, 0, EDITION_WIDTH, 1);
    bits::put_field(out, GUESTS_AT, GUESTS_WIDTH, tables.guests as u64);
}

// The guests, behind the header.
fn put_guests(out: &mut [u8], tables: Tables)
    requires tables_value { keep_rules tables ≡ true }
    requires tables_len_bound { length (image_row tables) ≤ 8 * length out.old }
    ensures { out.new ≡ put_bits out.old header_bits (each_below tables.guests (λ g. guest_row (guest_at tables g))) }
{
    let mut at: u64 = HEADER_BITS;
    for guest in &tables.guest[..tables.guests as usize] {
        guest::put_guest(out, at, *guest);
        at += guest::guest_bits(*guest);
    }
}

// Writes the image of the tables to the front of out. Each refusal answers before a byte is written.
pub fn write_image(tables: Tables, out: &mut [u8]) -> Result<usize, WriteRefusal>
    ensures { (result ≡ (write_image tables out.old).answer) × (out.new ≡ (write_image tables out.old).buffer) }
{
    if !tables::keep_rules(tables) {
        return Err(WriteRefusal::BadTables);
    }
    if tables.guests < 1 {
        return Err(WriteRefusal::NoGuest);
    }
    let n = image_bits(tables).div_ceil(8) as usize;
    if out.len() < n {
        return Err(WriteRefusal::ShortBuffer);
    }
    put_header(out, tables);
    put_guests(out, tables);
    Ok(n)
}
