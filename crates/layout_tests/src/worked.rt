// The worked cases of docs/FORMAT.md.
use crate::laid::{Bit, Laid, all};
use boxes::Format::Integer;
use boxes::Interleave::{MultiY, Pixel, TileComponent};
use boxes::Sampling::{Yuv420, Yuv422};
use std::test::*;
use test_boxes::{Draft, Entry, Flag, MONO, OCTETS, PLAIN, RGB, YUV};

const CASES: [Laid; 9] = [
    // packed values and a word in one pixel
    Laid {
        draft: Draft {
            types: &[4, 5, 6, 7],
            entries: &[
                Entry(0, 10, Integer, 0),
                Entry(1, 10, Integer, 0),
                Entry(2, 10, Integer, 0),
                Entry(3, 7, Integer, 1),
            ],
            interleave: Pixel,
            width: 1,
            height: 1,
            ..PLAIN
        },
        size: 5,
        bits: &[
            Bit(0, 0, 0, 0, 0, 7),
            Bit(0, 0, 0, 9, 1, 6),
            Bit(1, 0, 0, 0, 1, 5),
            Bit(2, 0, 0, 9, 3, 2),
            Bit(3, 0, 0, 0, 4, 6),
            Bit(3, 0, 0, 6, 4, 0),
        ],
    },
    // pixels in blocks go on in the open block
    Laid {
        draft: Draft {
            types: RGB,
            entries: OCTETS,
            interleave: Pixel,
            block: 4,
            flags: Flag::PAD_LOW,
            width: 2,
            height: 1,
            ..PLAIN
        },
        size: 8,
        bits: &[
            Bit(2, 0, 0, 7, 2, 0),
            Bit(0, 1, 0, 0, 3, 7),
            Bit(2, 1, 0, 0, 5, 7),
        ],
    },
    // with a pixel size each opens its own
    Laid {
        draft: Draft {
            types: RGB,
            entries: OCTETS,
            interleave: Pixel,
            block: 4,
            flags: Flag::PAD_LOW,
            pixel_size: 4,
            width: 2,
            height: 1,
            ..PLAIN
        },
        size: 8,
        bits: &[
            Bit(2, 0, 0, 7, 2, 0),
            Bit(0, 1, 0, 0, 4, 7),
            Bit(2, 1, 0, 0, 6, 7),
        ],
    },
    // groups in blocks
    Laid {
        draft: Draft {
            types: YUV,
            entries: &[
                Entry(1, 10, Integer, 0),
                Entry(0, 10, Integer, 0),
                Entry(2, 10, Integer, 0),
                Entry(0, 10, Integer, 0),
            ],
            sampling: Yuv422,
            interleave: MultiY,
            block: 4,
            flags: Flag::BLOCK_LITTLE_ENDIAN | Flag::BLOCK_REVERSED,
            width: 6,
            height: 1,
            ..PLAIN
        },
        size: 16,
        bits: &[
            Bit(1, 0, 0, 9, 0, 0),
            Bit(0, 0, 0, 0, 2, 3),
            Bit(0, 1, 0, 9, 4, 0),
            Bit(0, 1, 0, 0, 5, 1),
            Bit(0, 5, 0, 0, 15, 5),
            Bit(2, 2, 0, 4, 13, 7),
        ],
    },
    // chroma of half the size
    Laid {
        draft: Draft {
            types: YUV,
            entries: OCTETS,
            sampling: Yuv420,
            width: 4,
            height: 2,
            ..PLAIN
        },
        size: 12,
        bits: &[
            Bit(0, 3, 1, 0, 7, 7),
            Bit(1, 1, 0, 7, 9, 0),
            Bit(2, 1, 0, 0, 11, 7),
        ],
    },
    // the same in rows of a multiple of 4
    Laid {
        draft: Draft {
            types: YUV,
            entries: OCTETS,
            sampling: Yuv420,
            row_align: 4,
            width: 4,
            height: 2,
            ..PLAIN
        },
        size: 16,
        bits: &[
            Bit(0, 3, 1, 0, 7, 7),
            Bit(1, 1, 0, 7, 9, 0),
            Bit(2, 1, 0, 0, 13, 7),
        ],
    },
    // tiles of one component
    Laid {
        draft: Draft {
            types: MONO,
            entries: &[Entry(0, 8, Integer, 0)],
            tile_columns_less_one: 1,
            width: 4,
            height: 2,
            ..PLAIN
        },
        size: 8,
        bits: &[
            Bit(0, 1, 0, 0, 1, 7),
            Bit(0, 0, 1, 0, 2, 7),
            Bit(0, 2, 0, 0, 4, 7),
            Bit(0, 3, 1, 7, 7, 0),
        ],
    },
    // tiles of two components
    Laid {
        draft: Draft {
            types: &[0, 0],
            entries: &[Entry(0, 8, Integer, 0), Entry(1, 8, Integer, 0)],
            tile_columns_less_one: 1,
            width: 4,
            height: 1,
            ..PLAIN
        },
        size: 8,
        bits: &[
            Bit(0, 1, 0, 0, 1, 7),
            Bit(1, 0, 0, 0, 2, 7),
            Bit(0, 2, 0, 0, 4, 7),
            Bit(1, 3, 0, 7, 7, 0),
        ],
    },
    // tiles of one component, and then of the next
    Laid {
        draft: Draft {
            types: &[0, 0],
            entries: &[Entry(0, 8, Integer, 0), Entry(1, 8, Integer, 0)],
            interleave: TileComponent,
            tile_columns_less_one: 1,
            width: 4,
            height: 1,
            ..PLAIN
        },
        size: 8,
        bits: &[
            Bit(0, 1, 0, 0, 1, 7),
            Bit(1, 0, 0, 0, 4, 7),
            Bit(0, 2, 0, 0, 2, 7),
            Bit(1, 3, 0, 7, 7, 0),
        ],
    },
];

#[test]
fn worked_cases(rt: HostRuntime) -> Result<(), Fail> {
    all(&rt, rt.alloc(), &CASES)
}
