// A frame read straight, and through a ring whose end cuts it.
ghost use Rattle.std.specs.Prelude.{◌≡◌, ◌++◌, take, drop, IfOk};

use std::alloc::{AllocError, Global};
use store::{Held, Join, Memory, Source, ring, same_bytes};

// The ring that holds the frame: its first `cut` bytes lie at the end, and the rest before them.
fn ring_of(heap: Global, frame: &[u8], cut: usize) -> Result<Vec<u8>, AllocError>
    ensures { IfOk result (λ v. v.items ≡ drop cut frame.now ++ take cut frame.now) }
{
    let len = frame.len();
    let (first, rest) = frame.split_at(cut.min(len));
    let mut buffer = Vec::new(heap);
    buffer.extend_from_slice(rest)?;
    buffer.extend_from_slice(first)?;
    Ok(buffer)
}

pub(crate) fn same_through_ring(
    heap: Global,
    frame: &[u8],
    cut: usize,
) -> Result<bool, AllocError> {
    let mut buffer = ring_of(heap, frame, cut)?;
    let start = buffer.len().saturating_sub(cut);
    let through = ring(buffer.as_mut_slice(), start);
    Ok(same_bytes(&Held::new(frame), &through))
}
