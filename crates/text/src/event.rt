// An event, from its word and its numbers "in the order given under the events".
ghost use Rattle.std.specs.Prelude.{◌≡◌, ◌≤◌, length, take, drop};
ghost use Rattle.rules.specs.Text.{fields, call_of, head_of, device_of, load_of, store_of, hit_of, event_line, event_or};
ghost use Rattle.text.specs.Pieces.{behind};
ghost use Rattle.text.specs.Gathered.{ZeroFrom};
ghost use Rattle.text.specs.Lines.{told};

use crate::fields::{FIELDS, Fields, read_fields};
use crate::line::Line;
use rules::{Call, Device, Event, HeadWrite, LoadAt, StoreAt, TsbHit};

fn call_of(ns: [u64; FIELDS]) -> Call
    ensures { result ≡ call_of ns }
{
    let [guest, cpu, trap, function, arg0, arg1, arg2, arg3, arg4] = ns;
    Call {
        guest,
        cpu,
        trap,
        function,
        arg0,
        arg1,
        arg2,
        arg3,
        arg4,
    }
}

fn head_of(ns: [u64; FIELDS]) -> HeadWrite
    ensures { result ≡ head_of ns }
{
    let [guest, cpu, queue, value, ..] = ns;
    HeadWrite {
        guest,
        cpu,
        queue,
        value,
    }
}

fn device_of(ns: [u64; FIELDS]) -> Device
    ensures { result ≡ device_of ns }
{
    let [devhandle, devino, ..] = ns;
    Device { devhandle, devino }
}

fn load_of(ns: [u64; FIELDS]) -> LoadAt
    ensures { result ≡ load_of ns }
{
    let [guest, address, ..] = ns;
    LoadAt { guest, address }
}

fn store_of(ns: [u64; FIELDS]) -> StoreAt
    ensures { result ≡ store_of ns }
{
    let [guest, address, value, ..] = ns;
    StoreAt {
        guest,
        address,
        value,
    }
}

fn hit_of(ns: [u64; FIELDS]) -> TsbHit
    ensures { result ≡ hit_of ns }
{
    let [guest, cpu, side, context, index, ticks, ..] = ns;
    TsbHit {
        guest,
        cpu,
        side,
        context,
        index,
        ticks,
    }
}

// The event of a word and its fields. Only a call may have fewer than its type has: those that are missing are 0.
#[tactic(auto, using(crate::proofs::EventLaws::named))]
fn event_of(word: &[u8], fields: Fields) -> Line
    requires { (fields.numbers ≤ length fields.number) × ZeroFrom fields.numbers fields.number }
    ensures { result ≡ told (event_line word.now (take fields.numbers fields.number)) }
{
    let ns = fields.number;
    match (word, fields.numbers) {
        (b"call", 4..=9) => Line::Event(Event::Call(call_of(ns))),
        (b"head", 4) => Line::Event(Event::Head(head_of(ns))),
        (b"raise", 2) => Line::Event(Event::Raise(device_of(ns))),
        (b"load", 2) => Line::Event(Event::Load(load_of(ns))),
        (b"store", 3) => Line::Event(Event::Store(store_of(ns))),
        (b"hit", 6) => Line::Event(Event::Hit(hit_of(ns))),
        _ => Line::Bad,
    }
}

// A line whose first word ends at `end` and is not that of an image.
pub(crate) fn event_line(s: &[u8], end: usize) -> Line
    requires { end ≤ length s.now }
    ensures { result ≡ told (event_or (take end s.now) (fields (behind (drop end s.now)))) }
{
    match read_fields(s, end) {
        None => Line::Bad,
        Some(fields) => event_of(&s[..end], fields),
    }
}
