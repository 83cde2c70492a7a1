// What is printed.
use std::io;

pub(crate) fn say<P: Print>(rt: &P, text: &str) -> io::Result<()> {
    print!(rt; "{text}")
}

// In hex, with what stands behind it.
pub(crate) fn say_number<P: Print>(rt: &P, n: u64, end: &str) -> io::Result<()> {
    print!(rt; "{n:x}{end}")
}

pub(crate) fn say_numbers<P: Print>(rt: &P, ns: [u64; 5]) -> io::Result<()> {
    print!(rt;
        "{:x} {:x} {:x} {:x} {:x} ",
        ns[0], ns[1], ns[2], ns[3], ns[4]
    )
}

// What is other than before.
pub(crate) fn say_changed<P: Print>(rt: &P, tables: bool, memory: bool) -> io::Result<()> {
    let what = match (tables, memory) {
        (true, true) => "both\n",
        (true, false) => "tables\n",
        (false, true) => "memory\n",
        (false, false) => "nothing\n",
    };
    say(rt, what)
}
