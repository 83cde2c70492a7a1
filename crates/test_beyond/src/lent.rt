// The lent memory: longer than a session's, and looked at byte by byte.

// 32 pages. The image of every section has the last of them.
pub const MEMORY: usize = 262144;

// What stands in every byte before anything is written.
pub const FILL: u8 = 0xa5;

// Copies as much as there is in both.
pub(crate) fn copy(from: &[u8], to: &mut [u8]) {
    let n = from.len().min(to.len());
    to[..n].copy_from_slice(&from[..n]);
}

// Compares as much as there is in both.
pub(crate) fn same_bytes(a: &[u8], b: &[u8]) -> bool {
    let n = a.len().min(b.len());
    a[..n] == b[..n]
}

// Where the zeros begin and end, how many there are, and how many bytes are neither zero nor as they were filled.
#[derive(Clone, Copy, Default)]
pub struct Zeros {
    pub first: usize,
    pub end: usize,
    pub count: usize,
    pub others: usize,
}

pub(crate) fn zeros_of(mem: &[u8]) -> Zeros {
    let mut z = Zeros::default();
    for (at, b) in mem.iter().enumerate() {
        match *b {
            0 => {
                if z.count == 0 {
                    z.first = at;
                }
                z.end = at + 1;
                z.count += 1;
            }
            FILL => {}
            _ => z.others += 1,
        }
    }
    z
}
