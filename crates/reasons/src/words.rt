// The words of a status and of a fault, each with a line feed. Each put gives the number of bytes it wrote.
ghost use Rattle.std.specs.Prelude.{◌++◌, ◌≤◌, length, drop};
ghost use Rattle.rules.specs.Text.{bytes_of};
ghost use Rattle.reasons.specs.Words.{meanings, meaning_in, meaning, decimal, form, fault_text, why_text, fed};
ghost use Rattle.reasons.specs.Put.{Put};

use crate::fault::{Fault, Word};
use crate::put::{ROOM, put_decimal};
use text::put_text;

// What a status means: those of loading, behind the fourteenth of the table.
fn put_image_meaning(status: u64, out: &mut [u8; ROOM]) -> usize
    ensures { Put out.old out.new 0 result (fed (bytes_of (meaning_in (drop 14 meanings) status))) }
{
    match status {
        110 => put_text(
            b"6e (110): the image ends before its last field; no guest is left\n",
            0,
            out,
        ),
        111 => put_text(
            b"6f (111): the header or a count is outside its limits; value 1 is its guest (0: or the header); no guest is left\n",
            0,
            out,
        ),
        112 => put_text(
            b"70 (112): an extent's numbers are outside their limits; values 1, 2: its guest, its position; no guest is left\n",
            0,
            out,
        ),
        113 => put_text(
            b"71 (113): an extent starts before the one before it ends; values 1, 2: its guest, its position; no guest is left\n",
            0,
            out,
        ),
        114 => put_text(
            b"72 (114): an extent shares a host page with an earlier one; values 1, 2: its guest, its position; no guest is left\n",
            0,
            out,
        ),
        115 => put_text(
            b"73 (115): a source has the name of an earlier one; values 1, 2: its guest, its position; no guest is left\n",
            0,
            out,
        ),
        116 => put_text(
            b"74 (116): fill bits are not 0, or bytes stand behind; value 1 is the number of guests; no guest is left\n",
            0,
            out,
        ),
        _ => put_text(b"no status of the rules\n", 0, out),
    }
}

// The same: those behind the eighth.
fn put_later_meaning(status: u64, out: &mut [u8; ROOM]) -> usize
    ensures { Put out.old out.new 0 result (fed (bytes_of (meaning_in (drop 8 meanings) status))) }
{
    match status {
        9 => put_text(
            b"9 EWOULDBLOCK: not every cpu of the list had room; the entries of those served read ffff\n",
            0,
            out,
        ),
        13 => put_text(
            b"d (13) ENOTSUPPORTED: a version that is not offered, a call that is not in 2.0, or a source without cookies\n",
            0,
            out,
        ),
        101 => put_text(b"65 (101): tables that break a rule\n", 0, out),
        102 => put_text(
            b"66 (102): memory too short for the guests' pages\n",
            0,
            out,
        ),
        103 => put_text(b"67 (103): no such guest or cpu\n", 0, out),
        104 => put_text(b"68 (104): no such source\n", 0, out),
        _ => put_image_meaning(status, out),
    }
}

// What a status means.
pub fn put_meaning(status: u64, out: &mut [u8; ROOM]) -> usize
    ensures { Put out.old out.new 0 result (fed (meaning status)) }
{
    match status {
        0 => put_text(b"0 EOK: done\n", 0, out),
        1 => put_text(b"1 ENOCPU: no such cpu in this guest\n", 0, out),
        2 => put_text(
            b"2 ENORADDR: an address, or a byte of a range, that is not in the guest's own memory\n",
            0,
            out,
        ),
        4 => put_text(
            b"4 EBADPGSZ: a page index or page mask that no descriptor may have\n",
            0,
            out,
        ),
        5 => put_text(
            b"5 EBADTSB: an associativity or number of entries that no descriptor may have\n",
            0,
            out,
        ),
        6 => put_text(
            b"6 EINVAL: a bad number, or a source that is not the caller's\n",
            0,
            out,
        ),
        7 => put_text(
            b"7 EBADTRAP: no such call, or its group is not negotiated (a7 to ae: not at 2.0)\n",
            0,
            out,
        ),
        8 => put_text(
            b"8 EBADALIGN: an address or number that is not aligned\n",
            0,
            out,
        ),
        _ => put_later_meaning(status, out),
    }
}

// The fields that an event takes.
fn put_form(word: Word, at: usize, out: &mut [u8; ROOM]) -> usize
    requires { at ≤ 64 }
    ensures { Put out.old out.new at result (fed (form word)) }
{
    match word {
        Word::Call => put_text(
            b"call GUEST CPU TRAP FUNCTION and up to 5 arguments\n",
            at,
            out,
        ),
        Word::Head => put_text(b"head GUEST CPU QUEUE VALUE\n", at, out),
        Word::Raise => put_text(b"raise DEVHANDLE DEVINO\n", at, out),
        Word::Load => put_text(b"load GUEST ADDRESS\n", at, out),
        Word::Store => put_text(b"store GUEST ADDRESS VALUE\n", at, out),
        Word::Hit => put_text(b"hit GUEST CPU SIDE CONTEXT INDEX TICKS\n", at, out),
    }
}

// What is wrong with the number of fields, and then those that the event takes.
fn put_count(what: &[u8], word: Word, out: &mut [u8; ROOM]) -> usize
    requires { length what.now ≤ 64 }
    ensures { Put out.old out.new 0 result (what.now ++ fed (form word)) }
{
    let at = put_text(what, 0, out);
    put_form(word, at, out)
}

// The number of a field, and then what is wrong with it.
fn put_field(k: usize, what: &[u8], out: &mut [u8; ROOM]) -> usize
    requires { length what.now ≤ 64 }
    ensures { Put out.old out.new 0 result (bytes_of "field " ++ (decimal k ++ what.now)) }
{
    let at = put_text(b"field ", 0, out);
    let next = put_decimal(k, at, out);
    put_text(what, next, out)
}

fn put_fault(fault: Fault, out: &mut [u8; ROOM]) -> usize
    ensures { Put out.old out.new 0 result (fed (fault_text fault)) }
{
    match fault {
        Fault::TooLong => put_text(b"the line has more than 2,048 bytes\n", 0, out),
        Fault::CarriageReturn => put_text(
            b"the line ends in a carriage return (0d): end lines with a line feed alone\n",
            0,
            out,
        ),
        Fault::OtherWord => put_text(
            b"the first word is none of image, call, head, raise, load, store, hit (lower case, no space before it)\n",
            0,
            out,
        ),
        Fault::EmptyField(k) => put_field(k, b" is empty: a space too many\n", out),
        Fault::NoNumber(k) => put_field(k, b" is not 1 to 16 hex digits\n", out),
        Fault::TooFew(word) => put_count(b"too few fields: ", word, out),
        Fault::TooMany(word) => put_count(b"too many fields: ", word, out),
        Fault::NoDigit => put_text(b"the image has a byte that is no hex digit\n", 0, out),
        Fault::OddDigits => put_text(b"the image has an odd number of hex digits\n", 0, out),
    }
}

// Why a line is bad, or that it is not.
#[tactic(auto, unfolding(crate::specs::Words::why_text))]
pub fn put_why(why: Option<Fault>, out: &mut [u8; ROOM]) -> usize
    ensures { Put out.old out.new 0 result (fed (why_text why)) }
{
    match why {
        None => put_text(b"nothing is wrong with the line\n", 0, out),
        Some(fault) => put_fault(fault, out),
    }
}
