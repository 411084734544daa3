// Rule 11: block sizes, and the flags of byte order.
use crate::answer::{refusal_of_all, refused};
use boxes::Format::Integer;
use fault::Reason::{self, Blocks};
use std::process::Abort;
use std::test::*;
use test_boxes::{Draft, Entry, Flag, PLAIN, RGB};

// The depth and the align of the second of two entries, the block size, the flags, and the rule where it is broken.
struct Case(u16, u8, u8, u8, Option<Reason>);

// The first entry is packed: one bit without a word of its own.
const PACKED: [Case; 31] = [
    Case(8, 0, 0, 0, None),
    // block sizes
    Case(8, 0, 1, 0, None),
    Case(9, 0, 1, 0, Some(Blocks)),
    Case(16, 0, 2, 0, None),
    Case(17, 0, 2, 0, Some(Blocks)),
    Case(56, 0, 7, 0, None),
    Case(57, 0, 7, 0, Some(Blocks)),
    Case(64, 0, 8, 0, None),
    Case(1, 0, 8, 0, None),
    Case(1, 0, 9, 0, Some(Blocks)),
    Case(64, 0, 9, 0, Some(Blocks)),
    Case(8, 0, 32, 0, Some(Blocks)),
    Case(8, 0, 255, 0, Some(Blocks)),
    // align
    Case(8, 2, 0, 0, None),
    Case(8, 2, 2, 0, Some(Blocks)),
    Case(8, 2, 8, 0, Some(Blocks)),
    // the flags of blocks
    Case(8, 0, 0, Flag::PAD_LOW, Some(Blocks)),
    Case(8, 0, 0, Flag::BLOCK_LITTLE_ENDIAN, Some(Blocks)),
    Case(8, 0, 0, Flag::BLOCK_REVERSED, Some(Blocks)),
    Case(
        8,
        0,
        0,
        Flag::PAD_LOW | Flag::BLOCK_LITTLE_ENDIAN | Flag::BLOCK_REVERSED,
        Some(Blocks),
    ),
    Case(8, 0, 1, Flag::PAD_LOW, None),
    Case(8, 0, 1, Flag::BLOCK_LITTLE_ENDIAN, None),
    Case(8, 0, 1, Flag::BLOCK_REVERSED, None),
    Case(
        8,
        0,
        1,
        Flag::PAD_LOW | Flag::BLOCK_LITTLE_ENDIAN | Flag::BLOCK_REVERSED,
        None,
    ),
    // what unused bits hold changes no rule
    Case(8, 0, 0, Flag::PAD_UNKNOWN, None),
    Case(
        8,
        0,
        1,
        Flag::PAD_LOW | Flag::BLOCK_LITTLE_ENDIAN | Flag::BLOCK_REVERSED | Flag::PAD_UNKNOWN,
        None,
    ),
    Case(
        8,
        0,
        0,
        Flag::BLOCK_REVERSED | Flag::PAD_UNKNOWN,
        Some(Blocks),
    ),
    // components little-endian
    Case(8, 0, 0, Flag::COMPONENTS_LITTLE_ENDIAN, Some(Blocks)),
    Case(8, 2, 0, Flag::COMPONENTS_LITTLE_ENDIAN, Some(Blocks)),
    Case(8, 0, 1, Flag::COMPONENTS_LITTLE_ENDIAN, Some(Blocks)),
    Case(
        8,
        0,
        1,
        Flag::COMPONENTS_LITTLE_ENDIAN
            | Flag::PAD_LOW
            | Flag::BLOCK_LITTLE_ENDIAN
            | Flag::BLOCK_REVERSED
            | Flag::PAD_UNKNOWN,
        Some(Blocks),
    ),
];

// The first entry is one bit in a word of one byte.
const ALIGNED: [Case; 12] = [
    Case(8, 2, 0, 0, None),
    Case(8, 2, 0, Flag::COMPONENTS_LITTLE_ENDIAN, None),
    Case(
        8,
        2,
        0,
        Flag::COMPONENTS_LITTLE_ENDIAN | Flag::PAD_UNKNOWN,
        None,
    ),
    Case(8, 0, 0, Flag::COMPONENTS_LITTLE_ENDIAN, Some(Blocks)),
    Case(8, 0, 0, 0, None),
    Case(
        8,
        2,
        0,
        Flag::COMPONENTS_LITTLE_ENDIAN | Flag::PAD_LOW,
        Some(Blocks),
    ),
    Case(
        8,
        2,
        0,
        Flag::COMPONENTS_LITTLE_ENDIAN | Flag::BLOCK_LITTLE_ENDIAN,
        Some(Blocks),
    ),
    Case(
        8,
        2,
        0,
        Flag::COMPONENTS_LITTLE_ENDIAN | Flag::BLOCK_REVERSED,
        Some(Blocks),
    ),
    Case(8, 0, 1, 0, Some(Blocks)),
    Case(8, 2, 1, Flag::COMPONENTS_LITTLE_ENDIAN, Some(Blocks)),
    Case(8, 2, 8, Flag::COMPONENTS_LITTLE_ENDIAN, Some(Blocks)),
    Case(8, 2, 9, Flag::COMPONENTS_LITTLE_ENDIAN, Some(Blocks)),
];

fn all(rt: &(impl Abort + AllocGlobal), first: Entry, cases: &[Case]) -> Result<(), Fail> {
    for (i, &Case(depth, align, block, flags, broken)) in cases.iter().enumerate() {
        let draft = Draft {
            types: RGB,
            entries: &[first, Entry(1, depth, Integer, align)],
            block,
            flags,
            ..PLAIN
        };
        let expected = broken.map(refusal_of_all);
        assert_eq!(rt; refused(rt.alloc(), &draft)?, expected, "case {i}");
    }
    Ok(())
}

#[test]
fn blocks_and_byte_orders(rt: HostRuntime) -> Result<(), Fail> {
    all(&rt, Entry(0, 1, Integer, 0), &PACKED)?;
    all(&rt, Entry(0, 1, Integer, 1), &ALIGNED)
}
