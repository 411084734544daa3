// Blocks: every combination of pad low, little-endian and reversed, and every size of a kind.
use crate::laid::{Bit, Laid, all};
use boxes::Format::Integer;
use boxes::Interleave::{Mixed, Pixel, TileComponent};
use boxes::Sampling::{Yuv420, Yuv422};
use std::test::*;
use test_boxes::{Draft, Entry, Flag, MONO, PLAIN, RGB, YUV};

const CASES: [Laid; 16] = [
    // no flag
    Laid {
        draft: Draft {
            types: RGB,
            entries: &[
                Entry(0, 5, Integer, 0),
                Entry(1, 4, Integer, 0),
                Entry(2, 3, Integer, 0),
            ],
            interleave: Pixel,
            block: 2,
            width: 2,
            height: 1,
            ..PLAIN
        },
        size: 4,
        bits: &[
            Bit(0, 0, 0, 0, 0, 3),
            Bit(1, 0, 0, 3, 1, 3),
            Bit(2, 0, 0, 0, 1, 2),
            Bit(0, 1, 0, 4, 3, 7),
        ],
    },
    // reversed
    Laid {
        draft: Draft {
            types: RGB,
            entries: &[
                Entry(0, 5, Integer, 0),
                Entry(1, 4, Integer, 0),
                Entry(2, 3, Integer, 0),
            ],
            interleave: Pixel,
            block: 2,
            flags: Flag::BLOCK_REVERSED,
            width: 2,
            height: 1,
            ..PLAIN
        },
        size: 4,
        bits: &[
            Bit(0, 0, 0, 0, 1, 4),
            Bit(1, 0, 0, 3, 1, 5),
            Bit(2, 0, 0, 0, 0, 3),
            Bit(0, 1, 0, 4, 3, 0),
        ],
    },
    // little-endian
    Laid {
        draft: Draft {
            types: RGB,
            entries: &[
                Entry(0, 5, Integer, 0),
                Entry(1, 4, Integer, 0),
                Entry(2, 3, Integer, 0),
            ],
            interleave: Pixel,
            block: 2,
            flags: Flag::BLOCK_LITTLE_ENDIAN,
            width: 2,
            height: 1,
            ..PLAIN
        },
        size: 4,
        bits: &[
            Bit(0, 0, 0, 0, 1, 3),
            Bit(1, 0, 0, 3, 0, 3),
            Bit(2, 0, 0, 0, 0, 2),
            Bit(0, 1, 0, 4, 2, 7),
        ],
    },
    // little-endian, reversed
    Laid {
        draft: Draft {
            types: RGB,
            entries: &[
                Entry(0, 5, Integer, 0),
                Entry(1, 4, Integer, 0),
                Entry(2, 3, Integer, 0),
            ],
            interleave: Pixel,
            block: 2,
            flags: Flag::BLOCK_LITTLE_ENDIAN | Flag::BLOCK_REVERSED,
            width: 2,
            height: 1,
            ..PLAIN
        },
        size: 4,
        bits: &[
            Bit(0, 0, 0, 0, 0, 4),
            Bit(1, 0, 0, 3, 0, 5),
            Bit(2, 0, 0, 0, 1, 3),
            Bit(0, 1, 0, 4, 2, 0),
        ],
    },
    // pad low
    Laid {
        draft: Draft {
            types: RGB,
            entries: &[
                Entry(0, 5, Integer, 0),
                Entry(1, 4, Integer, 0),
                Entry(2, 3, Integer, 0),
            ],
            interleave: Pixel,
            block: 2,
            flags: Flag::PAD_LOW,
            width: 2,
            height: 1,
            ..PLAIN
        },
        size: 4,
        bits: &[
            Bit(0, 0, 0, 0, 0, 7),
            Bit(1, 0, 0, 3, 1, 7),
            Bit(2, 0, 0, 0, 1, 6),
            Bit(0, 1, 0, 4, 2, 3),
        ],
    },
    // pad low, reversed
    Laid {
        draft: Draft {
            types: RGB,
            entries: &[
                Entry(0, 5, Integer, 0),
                Entry(1, 4, Integer, 0),
                Entry(2, 3, Integer, 0),
            ],
            interleave: Pixel,
            block: 2,
            flags: Flag::PAD_LOW | Flag::BLOCK_REVERSED,
            width: 2,
            height: 1,
            ..PLAIN
        },
        size: 4,
        bits: &[
            Bit(0, 0, 0, 0, 0, 0),
            Bit(1, 0, 0, 3, 0, 1),
            Bit(2, 0, 0, 0, 0, 7),
            Bit(0, 1, 0, 4, 3, 4),
        ],
    },
    // pad low, little-endian
    Laid {
        draft: Draft {
            types: RGB,
            entries: &[
                Entry(0, 5, Integer, 0),
                Entry(1, 4, Integer, 0),
                Entry(2, 3, Integer, 0),
            ],
            interleave: Pixel,
            block: 2,
            flags: Flag::PAD_LOW | Flag::BLOCK_LITTLE_ENDIAN,
            width: 2,
            height: 1,
            ..PLAIN
        },
        size: 4,
        bits: &[
            Bit(0, 0, 0, 0, 1, 7),
            Bit(1, 0, 0, 3, 0, 7),
            Bit(2, 0, 0, 0, 0, 6),
            Bit(0, 1, 0, 4, 3, 3),
        ],
    },
    // pad low, little-endian, reversed
    Laid {
        draft: Draft {
            types: RGB,
            entries: &[
                Entry(0, 5, Integer, 0),
                Entry(1, 4, Integer, 0),
                Entry(2, 3, Integer, 0),
            ],
            interleave: Pixel,
            block: 2,
            flags: Flag::PAD_LOW | Flag::BLOCK_LITTLE_ENDIAN | Flag::BLOCK_REVERSED,
            width: 2,
            height: 1,
            ..PLAIN
        },
        size: 4,
        bits: &[
            Bit(0, 0, 0, 0, 1, 0),
            Bit(1, 0, 0, 3, 1, 1),
            Bit(2, 0, 0, 0, 1, 7),
            Bit(0, 1, 0, 4, 2, 4),
        ],
    },
    // blocks of 1
    Laid {
        draft: Draft {
            types: RGB,
            entries: &[
                Entry(0, 3, Integer, 0),
                Entry(1, 2, Integer, 0),
                Entry(2, 1, Integer, 0),
            ],
            interleave: Pixel,
            block: 1,
            width: 5,
            height: 2,
            ..PLAIN
        },
        size: 10,
        bits: &[
            Bit(0, 1, 0, 1, 1, 4),
            Bit(1, 2, 1, 0, 7, 2),
            Bit(2, 4, 1, 0, 9, 0),
        ],
    },
    // blocks of 3
    Laid {
        draft: Draft {
            types: RGB,
            entries: &[
                Entry(0, 10, Integer, 0),
                Entry(1, 9, Integer, 0),
                Entry(2, 1, Integer, 0),
            ],
            interleave: Pixel,
            block: 3,
            flags: Flag::PAD_LOW | Flag::BLOCK_REVERSED,
            width: 4,
            height: 2,
            ..PLAIN
        },
        size: 24,
        bits: &[
            Bit(0, 1, 0, 4, 4, 1),
            Bit(1, 3, 1, 0, 21, 6),
            Bit(2, 3, 1, 0, 21, 7),
        ],
    },
    // blocks of 5
    Laid {
        draft: Draft {
            types: RGB,
            entries: &[
                Entry(0, 17, Integer, 0),
                Entry(1, 3, Integer, 0),
                Entry(2, 20, Integer, 0),
            ],
            interleave: Pixel,
            block: 5,
            flags: Flag::BLOCK_LITTLE_ENDIAN | Flag::BLOCK_REVERSED,
            width: 4,
            height: 2,
            ..PLAIN
        },
        size: 40,
        bits: &[
            Bit(0, 3, 1, 12, 35, 4),
            Bit(1, 3, 0, 0, 17, 3),
            Bit(2, 3, 1, 19, 37, 4),
        ],
    },
    // blocks of 7
    Laid {
        draft: Draft {
            types: RGB,
            entries: &[
                Entry(0, 31, Integer, 0),
                Entry(1, 11, Integer, 0),
                Entry(2, 23, Integer, 0),
            ],
            interleave: Pixel,
            block: 7,
            flags: Flag::PAD_LOW | Flag::BLOCK_LITTLE_ENDIAN,
            width: 3,
            height: 2,
            ..PLAIN
        },
        size: 70,
        bits: &[
            Bit(0, 1, 0, 11, 9, 5),
            Bit(1, 1, 0, 2, 20, 5),
            Bit(2, 2, 1, 22, 67, 1),
        ],
    },
    // blocks of 8
    Laid {
        draft: Draft {
            types: RGB,
            entries: &[
                Entry(0, 64, Integer, 0),
                Entry(1, 1, Integer, 0),
                Entry(2, 63, Integer, 0),
            ],
            interleave: Pixel,
            block: 8,
            flags: Flag::BLOCK_REVERSED,
            width: 3,
            height: 2,
            ..PLAIN
        },
        size: 96,
        bits: &[
            Bit(0, 2, 1, 11, 81, 4),
            Bit(1, 1, 0, 0, 31, 0),
            Bit(2, 2, 1, 62, 95, 1),
        ],
    },
    // a line ends on a whole block
    Laid {
        draft: Draft {
            types: MONO,
            entries: &[Entry(0, 5, Integer, 0)],
            block: 4,
            flags: Flag::BLOCK_REVERSED,
            width: 4,
            height: 2,
            ..PLAIN
        },
        size: 8,
        bits: &[Bit(0, 0, 0, 0, 3, 4), Bit(0, 3, 1, 4, 6, 7)],
    },
    // blocks of one component, in tiles
    Laid {
        draft: Draft {
            types: YUV,
            entries: &[
                Entry(0, 10, Integer, 0),
                Entry(1, 10, Integer, 0),
                Entry(2, 10, Integer, 0),
            ],
            sampling: Yuv422,
            interleave: TileComponent,
            block: 4,
            flags: Flag::PAD_LOW | Flag::BLOCK_REVERSED,
            tile_columns_less_one: 1,
            width: 8,
            height: 2,
            ..PLAIN
        },
        size: 64,
        bits: &[
            Bit(0, 5, 1, 1, 25, 4),
            Bit(1, 2, 0, 2, 41, 3),
            Bit(2, 3, 1, 9, 61, 6),
        ],
    },
    // chroma in blocks
    Laid {
        draft: Draft {
            types: YUV,
            entries: &[
                Entry(0, 10, Integer, 0),
                Entry(1, 12, Integer, 0),
                Entry(2, 12, Integer, 0),
            ],
            sampling: Yuv420,
            interleave: Mixed,
            block: 4,
            flags: Flag::BLOCK_LITTLE_ENDIAN,
            width: 8,
            height: 2,
            ..PLAIN
        },
        size: 40,
        bits: &[
            Bit(0, 6, 0, 2, 10, 1),
            Bit(1, 3, 0, 7, 38, 0),
            Bit(2, 3, 0, 11, 36, 0),
        ],
    },
];

#[test]
fn blocks_in_every_order(rt: HostRuntime) -> Result<(), Fail> {
    all(&rt, rt.alloc(), &CASES)
}
