// Lines and tiles, rounded up.
use crate::laid::{Bit, Laid, all};
use boxes::Format::Integer;
use boxes::Interleave::{Mixed, Pixel, Row, TileComponent};
use boxes::Sampling::Yuv420;
use std::test::*;
use test_boxes::{Draft, Entry, MONO, OCTETS, PLAIN, RGB, YUV};

const CASES: [Laid; 12] = [
    // a line ends on a byte
    Laid {
        draft: Draft {
            types: MONO,
            entries: &[Entry(0, 3, Integer, 0)],
            width: 3,
            height: 2,
            ..PLAIN
        },
        size: 4,
        bits: &[
            Bit(0, 0, 0, 2, 0, 5),
            Bit(0, 0, 1, 1, 2, 6),
            Bit(0, 2, 1, 2, 3, 7),
        ],
    },
    // row align 1 changes nothing
    Laid {
        draft: Draft {
            types: MONO,
            entries: &[Entry(0, 3, Integer, 0)],
            row_align: 1,
            width: 3,
            height: 2,
            ..PLAIN
        },
        size: 4,
        bits: &[
            Bit(0, 0, 0, 2, 0, 5),
            Bit(0, 0, 1, 1, 2, 6),
            Bit(0, 2, 1, 2, 3, 7),
        ],
    },
    // row align
    Laid {
        draft: Draft {
            types: &[0, 0],
            entries: &[Entry(0, 3, Integer, 0), Entry(1, 12, Integer, 0)],
            row_align: 4,
            width: 3,
            height: 2,
            ..PLAIN
        },
        size: 24,
        bits: &[
            Bit(0, 1, 0, 0, 0, 4),
            Bit(0, 1, 1, 2, 4, 2),
            Bit(1, 2, 1, 11, 20, 4),
        ],
    },
    // row align that is met already
    Laid {
        draft: Draft {
            types: MONO,
            entries: &[Entry(0, 8, Integer, 0)],
            row_align: 4,
            width: 4,
            height: 2,
            ..PLAIN
        },
        size: 8,
        bits: &[Bit(0, 1, 1, 6, 5, 1), Bit(0, 3, 1, 7, 7, 0)],
    },
    // tile align
    Laid {
        draft: Draft {
            types: &[0, 0],
            entries: &[Entry(0, 8, Integer, 0), Entry(1, 8, Integer, 0)],
            tile_align: 16,
            tile_columns_less_one: 1,
            width: 4,
            height: 2,
            ..PLAIN
        },
        size: 32,
        bits: &[
            Bit(0, 1, 1, 7, 3, 0),
            Bit(1, 0, 1, 5, 6, 2),
            Bit(1, 3, 1, 7, 23, 0),
        ],
    },
    // tile align that is met already
    Laid {
        draft: Draft {
            types: MONO,
            entries: &[Entry(0, 8, Integer, 0)],
            tile_align: 4,
            tile_columns_less_one: 1,
            width: 4,
            height: 2,
            ..PLAIN
        },
        size: 8,
        bits: &[Bit(0, 2, 0, 0, 4, 7), Bit(0, 3, 1, 7, 7, 0)],
    },
    // both, the tile no multiple of the line
    Laid {
        draft: Draft {
            types: &[0, 0],
            entries: &[Entry(0, 8, Integer, 0), Entry(1, 5, Integer, 0)],
            row_align: 3,
            tile_align: 7,
            tile_columns_less_one: 1,
            tile_rows_less_one: 1,
            width: 4,
            height: 4,
            ..PLAIN
        },
        size: 56,
        bits: &[
            Bit(0, 0, 2, 4, 28, 3),
            Bit(0, 3, 1, 1, 18, 6),
            Bit(1, 3, 3, 4, 52, 6),
        ],
    },
    // both, row by row
    Laid {
        draft: Draft {
            types: &[0, 0],
            entries: &[Entry(0, 8, Integer, 0), Entry(1, 5, Integer, 0)],
            interleave: Row,
            row_align: 3,
            tile_align: 7,
            tile_columns_less_one: 1,
            tile_rows_less_one: 1,
            width: 4,
            height: 4,
            ..PLAIN
        },
        size: 56,
        bits: &[
            Bit(0, 1, 0, 6, 1, 1),
            Bit(0, 2, 1, 1, 20, 6),
            Bit(1, 3, 3, 4, 52, 6),
        ],
    },
    // both, tiles of one component each
    Laid {
        draft: Draft {
            types: &[0, 0],
            entries: &[Entry(0, 8, Integer, 0), Entry(1, 5, Integer, 0)],
            interleave: TileComponent,
            row_align: 3,
            tile_align: 7,
            tile_columns_less_one: 1,
            tile_rows_less_one: 1,
            width: 4,
            height: 4,
            ..PLAIN
        },
        size: 56,
        bits: &[
            Bit(0, 1, 3, 5, 18, 2),
            Bit(0, 2, 3, 6, 24, 1),
            Bit(1, 3, 3, 4, 53, 6),
        ],
    },
    // both, pixels
    Laid {
        draft: Draft {
            types: RGB,
            entries: OCTETS,
            interleave: Pixel,
            row_align: 4,
            tile_align: 10,
            tile_columns_less_one: 2,
            tile_rows_less_one: 1,
            width: 6,
            height: 2,
            ..PLAIN
        },
        size: 60,
        bits: &[
            Bit(0, 4, 1, 3, 50, 4),
            Bit(1, 5, 1, 6, 54, 1),
            Bit(2, 5, 1, 7, 55, 0),
        ],
    },
    // both, Y rows before chroma rows
    Laid {
        draft: Draft {
            types: YUV,
            entries: OCTETS,
            sampling: Yuv420,
            interleave: Mixed,
            row_align: 3,
            tile_align: 11,
            tile_columns_less_one: 1,
            width: 4,
            height: 4,
            ..PLAIN
        },
        size: 44,
        bits: &[
            Bit(0, 3, 1, 1, 26, 6),
            Bit(1, 1, 0, 1, 34, 6),
            Bit(2, 1, 1, 7, 38, 0),
        ],
    },
    // the largest row align and tile align
    Laid {
        draft: Draft {
            types: MONO,
            entries: &[Entry(0, 8, Integer, 0)],
            row_align: 65_536,
            tile_align: 1_048_576,
            tile_columns_less_one: 1,
            width: 2,
            height: 2,
            ..PLAIN
        },
        size: 2_097_152,
        bits: &[
            Bit(0, 0, 1, 0, 65_536, 7),
            Bit(0, 1, 0, 0, 1_048_576, 7),
            Bit(0, 1, 1, 7, 1_114_112, 0),
        ],
    },
];

#[test]
fn row_align_and_tile_align(rt: HostRuntime) -> Result<(), Fail> {
    all(&rt, rt.alloc(), &CASES)
}
