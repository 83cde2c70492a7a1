// An entry put into a ring.
ghost use Rattle.std.specs.Prelude.{◌≡◌, ◌<◌, ◌≤◌, length};
ghost use Rattle.rules.specs.Limits.{extent_limit};
ghost use Rattle.rules.specs.Queues.{next_tail, put_in};
ghost use Rattle.memory.specs.Ready.{Ready, present};
ghost use Rattle.plants.specs.Put.{PutsIn, HeldSound};

use crate::parts::ring_at_tail;
use rules::{Extents, QueueRecord, Real, Ring};

// The place after the tail.
fn next_tail(ring: Ring) -> u16
    requires { (ring.tail < ring.size) × (ring.size ≤ 16384) }
    ensures { result ≡ next_tail ring }
{
    (ring.tail + 64) % ring.size
}

// An entry at the tail of a queue's ring, which moves on: the queue's record after, if there is a ring with room. It takes the one
// record, not the plant's.
#[tactic(auto, unfolding(rules::specs::Queues::put_in, rules::specs::Queues::has_room, rules::specs::Real::apply))]
pub fn put_entry(
    extents: Extents,
    held: QueueRecord,
    mem: &mut [u8],
    entry: &[u8; 64],
) -> Option<QueueRecord>
    requires extents_le_extent_limit { extents.extents ≤ extent_limit }
    requires ready { Ready (present extents) (length mem.old) }
    requires held_sound { HeldSound extents held }
    ensures { PutsIn extents (put_in held entry.now) mem.old result mem.new }
{
    let QueueRecord::Set(ring) = held else {
        return None;
    };
    let tail = next_tail(ring);
    if tail == ring.head {
        return None;
    }
    let at = ring.base + u64::from(ring.tail);
    memory::write_at(extents, mem, Real(at), entry);
    Some(QueueRecord::Set(ring_at_tail(ring, tail)))
}
