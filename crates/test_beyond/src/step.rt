// A line, and what it prints.
use crate::draft::draft;
use crate::lent::{FILL, MEMORY, copy, same_bytes, zeros_of};
use crate::lists::show_list_of;
use crate::say::{say, say_changed, say_number, say_numbers};
use rules::{Device, Event, StoreAt, Tables};
use std::io;
use text::Line;

// The tables, a draft of them that was changed by hand, and how many bytes of memory are lent.
#[derive(Clone, Copy)]
pub struct Bench {
    pub tables: Tables,
    pub draft: Tables,
    pub lent: usize,
}

// No guest, and all of memory.
pub(crate) fn begin() -> Bench {
    let tables = image::load(b"").tables;
    Bench {
        tables,
        draft: tables,
        lent: MEMORY,
    }
}

// The tables as they are from now on. Of a draft nothing is left.
fn keep(bench: &mut Bench, tables: Tables) {
    bench.tables = tables;
    bench.draft = tables;
}

fn lend<P: Print>(rt: &P, bench: &mut Bench, lent: usize) -> io::Result<()> {
    bench.lent = lent;
    say_number(rt, lent as u64, "\n")
}

// Prints the answer, and whether tables or memory are other than before. A trial puts memory back.
fn answer<P: Print>(
    rt: &P,
    tables: Tables,
    mem: &mut [u8],
    event: Event,
    trial: bool,
) -> io::Result<Tables> {
    let mut before = [FILL; MEMORY];
    copy(mem, &mut before);
    let settled = host::event(tables, mem, event);
    say_numbers(rt, text::numbers_of(settled.answer))?;
    say_changed(rt, tables != settled.tables, !same_bytes(mem, &before))?;
    if trial {
        copy(&before, mem);
    }
    Ok(settled.tables)
}

// The same of the memory that is lent.
fn answer_lent<P: Print>(
    rt: &P,
    tables: Tables,
    mem: &mut [u8],
    lent: usize,
    event: Event,
    trial: bool,
) -> io::Result<Tables> {
    match mem.get_mut(..lent) {
        Some(part) => answer(rt, tables, part, event, trial),
        None => Ok(tables),
    }
}

// An event on the draft, which is then dropped for the tables as they are.
fn run_trial<P: Print>(rt: &P, bench: &mut Bench, mem: &mut [u8], event: Event) -> io::Result<()> {
    answer_lent(rt, bench.draft, mem, bench.lent, event, true)?;
    bench.draft = bench.tables;
    Ok(())
}

fn run_event<P: Print>(rt: &P, bench: &mut Bench, mem: &mut [u8], event: Event) -> io::Result<()> {
    let after = answer_lent(rt, bench.tables, mem, bench.lent, event, false)?;
    keep(bench, after);
    Ok(())
}

fn run_image<P: Print>(rt: &P, bench: &mut Bench, line: &[u8]) -> io::Result<()> {
    let mut bytes = [0u8; 1024];
    let n = text::image_bytes(line, &mut bytes);
    // There are never more than 1024: the test is for the slice's sake.
    let loaded = image::load(bytes.get(..n).unwrap_or(&bytes));
    let numbers = text::loading_numbers(loaded.answer);
    println!(rt; "{:x} {:x} {:x}", numbers[0], numbers[1], numbers[2])?;
    keep(bench, loaded.tables);
    Ok(())
}

fn show_zeros<P: Print>(rt: &P, mem: &[u8]) -> io::Result<()> {
    let z = zeros_of(mem);
    println!(rt; "{:x} {:x} {:x} {:x}", z.first, z.end, z.count, z.others)
}

fn bad<P: Print>(rt: &P) -> io::Result<()> {
    say(rt, "bad\n")
}

// A word that stands alone.
fn run_word<P: Print>(rt: &P, bench: &mut Bench, mem: &[u8], line: &[u8]) -> io::Result<()> {
    match line {
        b"zeros" => show_zeros(rt, mem),
        b"ctx0" => show_list_of(rt, bench.tables, 0, 0, false),
        b"ctxnon0" => show_list_of(rt, bench.tables, 0, 0, true),
        b"other" => show_list_of(rt, bench.tables, 0, 1, false),
        b"short" => lend(rt, bench, MEMORY - 1),
        b"exact" => lend(rt, bench, MEMORY),
        b"none" => lend(rt, bench, 0),
        _ => bad(rt),
    }
}

// A session's line.
fn run_plain<P: Print>(rt: &P, bench: &mut Bench, mem: &mut [u8], line: &[u8]) -> io::Result<()> {
    match text::parse_line(line) {
        Line::Event(event) => run_event(rt, bench, mem, event),
        Line::Image => run_image(rt, bench, line),
        Line::Bad => run_word(rt, bench, mem, line),
    }
}

// The store that a line is, if it is one.
fn store_of(line: &[u8]) -> Option<StoreAt> {
    match text::parse_line(line) {
        Line::Event(Event::Store(to)) => Some(to),
        _ => None,
    }
}

// Behind `also `: a field of the draft is set.
fn run_also<P: Print>(rt: &P, bench: &mut Bench, line: &[u8]) -> io::Result<()> {
    let Some(to) = store_of(line) else {
        return bad(rt);
    };
    draft(&mut bench.draft, to);
    say(rt, "set\n")
}

// Behind `hand `: a field of the draft is set, and device 100 raises its interrupt on it.
fn run_hand<P: Print>(rt: &P, bench: &mut Bench, mem: &mut [u8], line: &[u8]) -> io::Result<()> {
    let Some(to) = store_of(line) else {
        return bad(rt);
    };
    draft(&mut bench.draft, to);
    let device = Device {
        devhandle: 0x100,
        devino: 5,
    };
    run_trial(rt, bench, mem, Event::Raise(device))
}

// Behind `try `: an event on the draft.
fn run_try<P: Print>(rt: &P, bench: &mut Bench, mem: &mut [u8], line: &[u8]) -> io::Result<()> {
    match text::parse_line(line) {
        Line::Event(event) => run_trial(rt, bench, mem, event),
        Line::Image | Line::Bad => bad(rt),
    }
}

// Behind `ctx0 ` and `ctxnon0 `: whose list is shown. `load G C` names guest and cpu.
fn run_list<P: Print>(rt: &P, bench: &Bench, line: &[u8], nonzero: bool) -> io::Result<()> {
    let Line::Event(Event::Load(of)) = text::parse_line(line) else {
        return bad(rt);
    };
    show_list_of(
        rt,
        bench.tables,
        of.guest as usize,
        of.address as usize,
        nonzero,
    )
}

pub(crate) fn run_line<P: Print>(
    rt: &P,
    bench: &mut Bench,
    mem: &mut [u8],
    line: &[u8],
) -> io::Result<()> {
    if let Some(rest) = line.strip_prefix(b"also ") {
        return run_also(rt, bench, rest);
    }
    if let Some(rest) = line.strip_prefix(b"hand ") {
        return run_hand(rt, bench, mem, rest);
    }
    if let Some(rest) = line.strip_prefix(b"try ") {
        return run_try(rt, bench, mem, rest);
    }
    if let Some(rest) = line.strip_prefix(b"ctx0 ") {
        return run_list(rt, bench, rest, false);
    }
    if let Some(rest) = line.strip_prefix(b"ctxnon0 ") {
        return run_list(rt, bench, rest, true);
    }
    run_plain(rt, bench, mem, line)
}
