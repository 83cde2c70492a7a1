// A field of the tables, set by hand. `store RECORD FIELD VALUE` names it: the records are those of guest 0 and some that are
// absent, the fields are numbered in the order of their type. A value is cut to its field's width.
use rules::{
    Extent, Guest, Queue, QueueRecord, Ring, Source, StoreAt, Tables, Tsb, Tsbs, Versions,
};

fn byte(v: u64) -> u8 {
    (v % 0x100) as u8
}

fn half(v: u64) -> u16 {
    (v % 0x1_0000) as u16
}

fn word(v: u64) -> u32 {
    (v % 0x1_0000_0000) as u32
}

fn set_count(t: &mut Tables, field: u64, v: u64) {
    match field {
        0 => t.guests = byte(v),
        1 => t.guest[0].plant.cpus = byte(v),
        2 => t.guest[0].extents.extents = byte(v),
        _ => t.guest[0].plant.sources = byte(v),
    }
}

fn set_version(versions: &mut Versions, field: u64, v: u64) {
    match field {
        0 => versions.sun4v = byte(v),
        1 => versions.core = byte(v),
        2 => versions.interrupt = byte(v),
        _ => versions.statistics = byte(v),
    }
}

fn set_extent(extent: &mut Extent, field: u64, v: u64) {
    match field {
        0 => extent.real = word(v),
        1 => extent.count = half(v),
        _ => extent.host = half(v),
    }
}

fn set_source(source: &mut Source, field: u64, v: u64) {
    match field {
        0 => source.devhandle = word(v),
        1 => source.devino = byte(v),
        2 => source.cookies = v != 0,
        3 => source.enabled = byte(v),
        4 => source.state = byte(v),
        5 => source.target = byte(v),
        _ => source.cookie = v,
    }
}

// Of a queue that has no ring, the ring with every other field 0.
fn set_ring(queue: &mut Queue, field: u64, v: u64) {
    let mut ring = match queue.held {
        QueueRecord::Set(ring) => ring,
        QueueRecord::Unset => Ring {
            base: 0,
            size: 0,
            head: 0,
            tail: 0,
        },
    };
    match field {
        0 => ring.base = v,
        1 => ring.size = half(v),
        2 => ring.head = half(v),
        _ => ring.tail = half(v),
    }
    queue.held = QueueRecord::Set(ring);
}

fn set_tsb(tsb: &mut Tsb, field: u64, v: u64) {
    match field {
        0 => tsb.index = half(v),
        1 => tsb.associativity = half(v),
        2 => tsb.entries = word(v),
        3 => tsb.context = word(v),
        4 => tsb.mask = word(v),
        _ => tsb.base = v,
    }
}

// Field 6 is the list's count, whichever of its TSBs is named.
fn set_list(list: &mut Tsbs, i: usize, field: u64, v: u64) {
    if field == 6 {
        list.tsbs = byte(v);
    } else if let Some(tsb) = list.tsb.get_mut(i) {
        set_tsb(tsb, field, v);
    }
}

// Guest 2, which is absent: its version of group 1, its count of cpus, or its first extent's host page.
fn set_absent(guest: &mut Guest, field: u64, v: u64) {
    match field {
        0 => guest.plant.versions.core = byte(v),
        1 => guest.plant.cpus = byte(v),
        _ => guest.extents.extent[0].host = half(v),
    }
}

// Records 8 and 9 are the rings of queue 0x3c, and 13 and 14 the statistics, of cpu 0, which is there, and of cpu 2, which is absent.
// Records 16 and up are the extents behind the first three.
pub(crate) fn draft(t: &mut Tables, to: StoreAt) {
    let field = to.address;
    let v = to.value;
    match to.guest {
        0 => set_count(t, field, v),
        1 => set_version(&mut t.guest[0].plant.versions, field, v),
        2 => set_extent(&mut t.guest[0].extents.extent[0], field, v),
        3 => set_extent(&mut t.guest[0].extents.extent[1], field, v),
        4 => set_extent(&mut t.guest[0].extents.extent[2], field, v),
        5 => set_source(&mut t.guest[0].plant.source[0], field, v),
        6 => set_source(&mut t.guest[0].plant.source[1], field, v),
        7 => set_source(&mut t.guest[0].plant.source[2], field, v),
        8 => set_ring(&mut t.guest[0].plant.cpu[0].queue[0], field, v),
        9 => set_ring(&mut t.guest[0].plant.cpu[2].queue[0], field, v),
        10 => set_list(&mut t.guest[0].plant.cpu[0].ctx0, 0, field, v),
        11 => set_list(&mut t.guest[0].plant.cpu[0].ctx0, 1, field, v),
        12 => set_list(&mut t.guest[0].plant.cpu[0].ctxnon0, 0, field, v),
        13 => t.guest[0].plant.cpu[0].statistics = v,
        14 => t.guest[0].plant.cpu[2].statistics = v,
        15 => set_absent(&mut t.guest[2], field, v),
        record @ 16.. => {
            let i = 3 + (record - 16) as usize;
            if let Some(extent) = t.guest[0].extents.extent.get_mut(i) {
                set_extent(extent, field, v);
            }
        }
    }
}
