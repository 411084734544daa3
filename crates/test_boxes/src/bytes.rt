// The bytes of a box.
ghost use Rattle.std.specs.Prelude.{◌≡◌, ◌+◌, ◌*◌, IfOk, OnOk, length};

use crate::draft::{Draft, Entry};
use std::alloc::{AllocError, Global};

// How many entries or components there are. The boxes of tests have fewer than 256.
fn count(len: usize) -> [u8; 4] {
    [0, 0, 0, (len % 256) as u8]
}

// Has the size, which is the first field, say how long the box is.
fn sealed(mut bytes: Vec<u8>) -> Vec<u8>
    ensures { length result.items ≡ length bytes.items }
{
    let size = count(bytes.len());
    for (old, new) in bytes.iter_mut().zip(size) {
        *old = new;
    }
    bytes
}

pub(crate) fn definition(heap: Global, types: &[u8]) -> Result<Vec<u8>, AllocError>
    ensures { IfOk result (λ v. length v.items ≡ 12 + 2 * length types.now) }
{
    let mut bytes = Vec::new(heap);
    bytes.extend_from_slice(b"\0\0\0\0cmpd")?;
    bytes.extend_from_slice(&count(types.len()))?;
    for &number in types {
        bytes.extend_from_slice(&[0, number])?;
    }
    Ok(sealed(bytes))
}

fn push_entry(bytes: &mut Vec<u8>, entry: Entry) -> Result<(), AllocError>
    ensures { OnOk result (length bytes.new.items ≡ length bytes.old.items + 5) }
{
    let Entry(index, depth, format, align) = entry;
    let [high, low] = index.to_be_bytes();
    let [_, depth_less_one] = depth.saturating_sub(1).to_be_bytes();
    bytes.extend_from_slice(&[high, low, depth_less_one, u8::from(format), align])
}

fn push_sizes(bytes: &mut Vec<u8>, sizes: &[u32]) -> Result<(), AllocError>
    ensures { OnOk result (length bytes.new.items ≡ length bytes.old.items + 4 * length sizes.now) }
{
    for size in sizes {
        bytes.extend_from_slice(&size.to_be_bytes())?;
    }
    Ok(())
}

pub(crate) fn configuration(heap: Global, draft: &Draft) -> Result<Vec<u8>, AllocError>
    ensures { IfOk result (λ v. length v.items ≡ 44 + 5 * length draft.now.entries.now) }
{
    let mut bytes = Vec::new(heap);
    bytes.extend_from_slice(b"\0\0\0\0uncC\0\0\0\0\0\0\0\0")?;
    bytes.extend_from_slice(&count(draft.entries.len()))?;
    for &entry in draft.entries {
        push_entry(&mut bytes, entry)?;
    }
    bytes.extend_from_slice(&[
        u8::from(draft.sampling),
        u8::from(draft.interleave),
        draft.block,
        draft.flags,
    ])?;
    push_sizes(
        &mut bytes,
        &[
            draft.pixel_size,
            draft.row_align,
            draft.tile_align,
            draft.tile_columns_less_one,
            draft.tile_rows_less_one,
        ],
    )?;
    Ok(sealed(bytes))
}
