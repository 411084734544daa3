// Pixels of a size of their own, with and without blocks.
use crate::laid::{Bit, Laid, all};
use boxes::Format::Integer;
use boxes::Interleave::Pixel;
use std::test::*;
use test_boxes::{Draft, Entry, Flag, OCTETS, PLAIN, RGB};

const CASES: [Laid; 10] = [
    // the bytes of the values
    Laid {
        draft: Draft {
            types: RGB,
            entries: &[
                Entry(0, 5, Integer, 0),
                Entry(1, 6, Integer, 0),
                Entry(2, 5, Integer, 0),
            ],
            interleave: Pixel,
            pixel_size: 2,
            width: 3,
            height: 1,
            ..PLAIN
        },
        size: 6,
        bits: &[
            Bit(0, 1, 0, 2, 2, 5),
            Bit(1, 2, 0, 3, 5, 7),
            Bit(2, 2, 0, 4, 5, 0),
        ],
    },
    // one byte more
    Laid {
        draft: Draft {
            types: RGB,
            entries: &[
                Entry(0, 5, Integer, 0),
                Entry(1, 6, Integer, 0),
                Entry(2, 5, Integer, 0),
            ],
            interleave: Pixel,
            pixel_size: 3,
            width: 3,
            height: 2,
            ..PLAIN
        },
        size: 18,
        bits: &[
            Bit(0, 1, 0, 1, 3, 6),
            Bit(1, 1, 0, 2, 3, 0),
            Bit(2, 2, 1, 4, 16, 0),
        ],
    },
    // a byte that is begun
    Laid {
        draft: Draft {
            types: RGB,
            entries: &[
                Entry(0, 3, Integer, 0),
                Entry(1, 3, Integer, 0),
                Entry(2, 3, Integer, 0),
            ],
            interleave: Pixel,
            pixel_size: 2,
            width: 3,
            height: 1,
            ..PLAIN
        },
        size: 6,
        bits: &[
            Bit(0, 1, 0, 1, 2, 6),
            Bit(1, 2, 0, 1, 4, 3),
            Bit(2, 2, 0, 2, 5, 7),
        ],
    },
    // without a pixel size pixels share bytes
    Laid {
        draft: Draft {
            types: RGB,
            entries: &[
                Entry(0, 3, Integer, 0),
                Entry(1, 3, Integer, 0),
                Entry(2, 3, Integer, 0),
            ],
            interleave: Pixel,
            width: 3,
            height: 1,
            ..PLAIN
        },
        size: 4,
        bits: &[
            Bit(0, 1, 0, 1, 1, 5),
            Bit(1, 2, 0, 1, 2, 1),
            Bit(2, 2, 0, 2, 3, 5),
        ],
    },
    // words
    Laid {
        draft: Draft {
            types: RGB,
            entries: &[
                Entry(0, 3, Integer, 0),
                Entry(1, 7, Integer, 1),
                Entry(2, 12, Integer, 2),
            ],
            interleave: Pixel,
            pixel_size: 5,
            row_align: 4,
            width: 3,
            height: 1,
            ..PLAIN
        },
        size: 16,
        bits: &[
            Bit(0, 1, 0, 1, 5, 6),
            Bit(1, 1, 0, 4, 6, 2),
            Bit(2, 2, 0, 11, 13, 0),
        ],
    },
    // blocks, all full
    Laid {
        draft: Draft {
            types: RGB,
            entries: &[
                Entry(0, 5, Integer, 0),
                Entry(1, 7, Integer, 0),
                Entry(2, 6, Integer, 0),
            ],
            interleave: Pixel,
            block: 2,
            pixel_size: 4,
            width: 3,
            height: 1,
            ..PLAIN
        },
        size: 12,
        bits: &[
            Bit(1, 0, 0, 6, 1, 0),
            Bit(0, 1, 0, 0, 4, 3),
            Bit(2, 2, 0, 5, 11, 0),
        ],
    },
    // blocks, and one to spare
    Laid {
        draft: Draft {
            types: RGB,
            entries: &[
                Entry(0, 5, Integer, 0),
                Entry(1, 7, Integer, 0),
                Entry(2, 6, Integer, 0),
            ],
            interleave: Pixel,
            block: 2,
            flags: Flag::PAD_LOW,
            pixel_size: 6,
            width: 3,
            height: 1,
            ..PLAIN
        },
        size: 18,
        bits: &[
            Bit(1, 0, 0, 6, 1, 4),
            Bit(0, 1, 0, 0, 6, 7),
            Bit(2, 2, 0, 5, 14, 2),
        ],
    },
    // blocks, all full
    Laid {
        draft: Draft {
            types: RGB,
            entries: &[
                Entry(0, 5, Integer, 0),
                Entry(1, 7, Integer, 0),
                Entry(2, 6, Integer, 0),
            ],
            interleave: Pixel,
            block: 2,
            flags: Flag::BLOCK_LITTLE_ENDIAN | Flag::BLOCK_REVERSED,
            pixel_size: 4,
            width: 3,
            height: 1,
            ..PLAIN
        },
        size: 12,
        bits: &[
            Bit(1, 0, 0, 6, 0, 5),
            Bit(0, 1, 0, 0, 4, 4),
            Bit(2, 2, 0, 5, 10, 0),
        ],
    },
    // blocks, and one to spare
    Laid {
        draft: Draft {
            types: RGB,
            entries: &[
                Entry(0, 5, Integer, 0),
                Entry(1, 7, Integer, 0),
                Entry(2, 6, Integer, 0),
            ],
            interleave: Pixel,
            block: 2,
            flags: Flag::PAD_LOW | Flag::BLOCK_REVERSED,
            pixel_size: 6,
            width: 3,
            height: 1,
            ..PLAIN
        },
        size: 18,
        bits: &[
            Bit(1, 0, 0, 6, 0, 1),
            Bit(0, 1, 0, 0, 6, 0),
            Bit(2, 2, 0, 5, 14, 2),
        ],
    },
    // the largest pixel size
    Laid {
        draft: Draft {
            types: RGB,
            entries: OCTETS,
            interleave: Pixel,
            pixel_size: 65_535,
            width: 2,
            height: 2,
            ..PLAIN
        },
        size: 262_140,
        bits: &[Bit(0, 1, 0, 0, 65_535, 7), Bit(2, 1, 1, 7, 196_607, 0)],
    },
];

#[test]
fn pixel_sizes(rt: HostRuntime) -> Result<(), Fail> {
    all(&rt, rt.alloc(), &CASES)
}
