// The TSB lists as they are kept.
use crate::say::{say, say_number};
use rules::{Tables, Tsb, Tsbs};
use std::io;

fn say_tsb<P: Print>(rt: &P, t: Tsb) -> io::Result<()> {
    print!(rt;
        ", {:x} {:x} {:x} {:x} {:x} {:x}",
        t.index, t.associativity, t.entries, t.context, t.mask, t.base
    )
}

// The count and all four places, each with its fields in the order of the descriptor.
fn show_list<P: Print>(rt: &P, list: Tsbs) -> io::Result<()> {
    say_number(rt, u64::from(list.tsbs), "")?;
    for tsb in list.tsb {
        say_tsb(rt, tsb)?;
    }
    say(rt, "\n")
}

// Of guest g's cpu c the list of 0x20, or that of 0x21.
pub(crate) fn show_list_of<P: Print>(
    rt: &P,
    tables: Tables,
    g: usize,
    c: usize,
    nonzero: bool,
) -> io::Result<()> {
    let Some(guest) = tables.guest.get(g) else {
        return say(rt, "bad\n");
    };
    let Some(cpu) = guest.plant.cpu.get(c) else {
        return say(rt, "bad\n");
    };
    show_list(rt, if nonzero { cpu.ctxnon0 } else { cpu.ctx0 })
}
