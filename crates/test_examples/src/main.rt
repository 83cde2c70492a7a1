// Runs the examples of the paper that are not proved about the rules: mondo sends to lists that name a cpu twice, the caller,
// and a cpu that is not there. Prints the five numbers of every answer; the expected ones are in stdout.
#![tactic(auto)]

use rules::{Call, Event, LoadAt, StoreAt, Tables};
use std::io;

// Prints the answer, and keeps the tables.
fn step<P: Print>(rt: &P, tables: &mut Tables, mem: &mut [u8], event: Event) -> io::Result<()> {
    let settled = host::event(*tables, mem, event);
    *tables = settled.tables;
    let [status, a, b, c, d] = text::numbers_of(settled.answer);
    println!(rt; "{status} {a} {b} {c} {d}")
}

// A call of guest 0.
fn call(cpu: u64, trap: u64, function: u64, arg0: u64, arg1: u64, arg2: u64) -> Event {
    Event::Call(Call {
        guest: 0,
        cpu,
        trap,
        function,
        arg0,
        arg1,
        arg2,
        arg3: 0,
        arg4: 0,
    })
}

fn store(address: u64, value: u64) -> Event {
    Event::Store(StoreAt {
        guest: 0,
        address,
        value,
    })
}

fn load(address: u64) -> Event {
    Event::Load(LoadAt { guest: 0, address })
}

fn main(rt: HostRuntime) -> io::Result<()> {
    let mut mem = [0u8; 32768];
    let worked = image::load(
        b"\x12\x22\x10\x00\x00\x00\x00\x01\x00\x00\x00\x00\x10\x00\xb1\x21\x00\x00\x00\x00\x00\x10\x00\x10\x00\x02\x00\x0b",
    );
    let mut tables = worked.tables;
    let events = [
        // Group 1, and a ring of two entries for the mondos of cpu 1.
        call(0, 0xff, 0, 1, 1, 0),
        call(1, 0x80, 0x14, 0x3c, 0x80, 2),
        // The data, and the list 1, 1: the ring takes one of the two.
        store(0x140, 0x1122334455667788),
        store(0x100, 0x0001000100000000),
        call(0, 0x80, 0x42, 2, 0x100, 0x140),
        load(0x100),
        load(0x80),
        // The list 2, 0 names the caller, and the list 2 a cpu that is not there.
        store(0x100, 0x0002000000000000),
        call(0, 0x80, 0x42, 2, 0x100, 0x140),
        call(0, 0x80, 0x42, 1, 0x100, 0x140),
    ];
    for event in events {
        step(&rt, &mut tables, &mut mem, event)?;
    }
    Ok(())
}
