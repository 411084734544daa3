// A frame in a lane's ring: where the ring's end cut it, it lies in the last bytes and then in the first.
ghost use Rattle.std.specs.Prelude.{◌≡◌, take, drop};
ghost use Rattle.store.specs.Ends.{cut, join_bytes, ring_bytes};

use crate::held::Held;
use crate::join::Join;
use crate::memory::Memory;

// The buffer from `start` on, and then what lies before. A start past the end is taken as the end.
pub fn ring<'a>(buffer: &'a mut [u8], start: usize) -> Join<Memory<'a>, Memory<'a>>
    ensures first { result.first.buffer.now ≡ drop start buffer.old }
    ensures second { result.second.buffer.now ≡ take start buffer.old }
    ensures bytes { join_bytes (cut result.first.buffer.now) (cut result.second.buffer.now) ≡ ring_bytes start buffer.old }
{
    let end = buffer.len();
    let (before, after) = buffer.split_at_mut(start.min(end));
    Join::new(Memory::new(after), Memory::new(before))
}

// The same over bytes that are only read: two functions, as split_at_mut and split_at are.
pub fn held_ring<'a>(bytes: &'a [u8], start: usize) -> Join<Held<'a>, Held<'a>>
    ensures first { result.first.bytes.now ≡ drop start bytes.now }
    ensures second { result.second.bytes.now ≡ take start bytes.now }
    ensures bytes { join_bytes (cut result.first.bytes.now) (cut result.second.bytes.now) ≡ ring_bytes start bytes.now }
{
    let end = bytes.len();
    let (before, after) = bytes.split_at(start.min(end));
    Join::new(Held::new(after), Held::new(before))
}
