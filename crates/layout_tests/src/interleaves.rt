// Every interleave with every sampling that it goes with, in four tiles.
use crate::laid::{Bit, Laid, all};
use boxes::Format::Integer;
use boxes::Interleave::{Mixed, MultiY, Pixel, Row, TileComponent};
use boxes::Sampling::{Yuv411, Yuv420, Yuv422};
use std::test::*;
use test_boxes::{Draft, Entry, PLAIN, YUV};

const CASES: [Laid; 17] = [
    // no sampling, component
    Laid {
        draft: Draft {
            types: YUV,
            entries: &[
                Entry(0, 10, Integer, 0),
                Entry(1, 7, Integer, 0),
                Entry(2, 5, Integer, 0),
            ],
            tile_columns_less_one: 1,
            tile_rows_less_one: 1,
            width: 8,
            height: 4,
            ..PLAIN
        },
        size: 96,
        bits: &[
            Bit(0, 5, 3, 7, 79, 6),
            Bit(1, 7, 3, 5, 89, 5),
            Bit(2, 7, 3, 4, 95, 4),
        ],
    },
    // no sampling, pixel
    Laid {
        draft: Draft {
            types: YUV,
            entries: &[
                Entry(0, 10, Integer, 0),
                Entry(1, 7, Integer, 0),
                Entry(2, 5, Integer, 0),
            ],
            interleave: Pixel,
            tile_columns_less_one: 1,
            tile_rows_less_one: 1,
            width: 8,
            height: 4,
            ..PLAIN
        },
        size: 88,
        bits: &[
            Bit(0, 2, 2, 8, 50, 3),
            Bit(1, 6, 0, 5, 29, 4),
            Bit(2, 7, 3, 4, 87, 0),
        ],
    },
    // no sampling, row
    Laid {
        draft: Draft {
            types: YUV,
            entries: &[
                Entry(0, 10, Integer, 0),
                Entry(1, 7, Integer, 0),
                Entry(2, 5, Integer, 0),
            ],
            interleave: Row,
            tile_columns_less_one: 1,
            tile_rows_less_one: 1,
            width: 8,
            height: 4,
            ..PLAIN
        },
        size: 96,
        bits: &[
            Bit(0, 4, 0, 1, 24, 6),
            Bit(1, 6, 1, 4, 43, 5),
            Bit(2, 7, 3, 4, 95, 4),
        ],
    },
    // no sampling, tile-component
    Laid {
        draft: Draft {
            types: YUV,
            entries: &[
                Entry(0, 10, Integer, 0),
                Entry(1, 7, Integer, 0),
                Entry(2, 5, Integer, 0),
            ],
            interleave: TileComponent,
            tile_columns_less_one: 1,
            tile_rows_less_one: 1,
            width: 8,
            height: 4,
            ..PLAIN
        },
        size: 96,
        bits: &[
            Bit(0, 4, 0, 0, 10, 7),
            Bit(1, 3, 3, 0, 62, 2),
            Bit(2, 7, 3, 4, 95, 4),
        ],
    },
    // 4:2:2, component
    Laid {
        draft: Draft {
            types: YUV,
            entries: &[
                Entry(0, 10, Integer, 0),
                Entry(1, 7, Integer, 0),
                Entry(2, 5, Integer, 0),
            ],
            sampling: Yuv422,
            tile_columns_less_one: 1,
            tile_rows_less_one: 1,
            width: 8,
            height: 4,
            ..PLAIN
        },
        size: 72,
        bits: &[
            Bit(0, 1, 1, 6, 7, 7),
            Bit(1, 2, 3, 5, 66, 2),
            Bit(2, 3, 3, 4, 71, 6),
        ],
    },
    // 4:2:2, mixed
    Laid {
        draft: Draft {
            types: YUV,
            entries: &[
                Entry(0, 10, Integer, 0),
                Entry(2, 5, Integer, 0),
                Entry(1, 7, Integer, 0),
            ],
            sampling: Yuv422,
            interleave: Mixed,
            tile_columns_less_one: 1,
            tile_rows_less_one: 1,
            width: 8,
            height: 4,
            ..PLAIN
        },
        size: 64,
        bits: &[
            Bit(0, 7, 0, 2, 20, 7),
            Bit(1, 3, 3, 6, 63, 0),
            Bit(2, 1, 3, 2, 46, 1),
        ],
    },
    // 4:2:2, tile-component
    Laid {
        draft: Draft {
            types: YUV,
            entries: &[
                Entry(0, 10, Integer, 0),
                Entry(1, 7, Integer, 0),
                Entry(2, 5, Integer, 0),
            ],
            sampling: Yuv422,
            interleave: TileComponent,
            tile_columns_less_one: 1,
            tile_rows_less_one: 1,
            width: 8,
            height: 4,
            ..PLAIN
        },
        size: 72,
        bits: &[
            Bit(0, 2, 1, 4, 8, 7),
            Bit(1, 3, 3, 1, 55, 7),
            Bit(2, 3, 3, 4, 71, 6),
        ],
    },
    // 4:2:2, multi-Y
    Laid {
        draft: Draft {
            types: YUV,
            entries: &[
                Entry(1, 7, Integer, 0),
                Entry(0, 10, Integer, 0),
                Entry(2, 5, Integer, 0),
                Entry(0, 10, Integer, 0),
            ],
            sampling: Yuv422,
            interleave: MultiY,
            tile_columns_less_one: 1,
            tile_rows_less_one: 1,
            width: 8,
            height: 4,
            ..PLAIN
        },
        size: 64,
        bits: &[
            Bit(0, 7, 3, 9, 63, 0),
            Bit(1, 1, 3, 5, 44, 2),
            Bit(2, 1, 0, 0, 6, 6),
        ],
    },
    // 4:2:0, component
    Laid {
        draft: Draft {
            types: YUV,
            entries: &[
                Entry(0, 10, Integer, 0),
                Entry(1, 7, Integer, 0),
                Entry(2, 5, Integer, 0),
            ],
            sampling: Yuv420,
            tile_columns_less_one: 1,
            tile_rows_less_one: 1,
            width: 8,
            height: 4,
            ..PLAIN
        },
        size: 56,
        bits: &[
            Bit(0, 2, 3, 7, 36, 4),
            Bit(1, 2, 0, 2, 24, 5),
            Bit(2, 3, 1, 4, 55, 6),
        ],
    },
    // 4:2:0, mixed
    Laid {
        draft: Draft {
            types: YUV,
            entries: &[
                Entry(0, 10, Integer, 0),
                Entry(1, 7, Integer, 0),
                Entry(2, 5, Integer, 0),
            ],
            sampling: Yuv420,
            interleave: Mixed,
            tile_columns_less_one: 1,
            tile_rows_less_one: 1,
            width: 8,
            height: 4,
            ..PLAIN
        },
        size: 52,
        bits: &[
            Bit(0, 2, 3, 1, 33, 2),
            Bit(1, 2, 0, 1, 23, 6),
            Bit(2, 3, 1, 4, 51, 0),
        ],
    },
    // 4:2:0, tile-component
    Laid {
        draft: Draft {
            types: YUV,
            entries: &[
                Entry(0, 10, Integer, 0),
                Entry(1, 7, Integer, 0),
                Entry(2, 5, Integer, 0),
            ],
            sampling: Yuv420,
            interleave: TileComponent,
            tile_columns_less_one: 1,
            tile_rows_less_one: 1,
            width: 8,
            height: 4,
            ..PLAIN
        },
        size: 56,
        bits: &[
            Bit(0, 5, 3, 6, 37, 7),
            Bit(1, 3, 1, 2, 47, 6),
            Bit(2, 3, 1, 4, 55, 6),
        ],
    },
    // 4:1:1, component
    Laid {
        draft: Draft {
            types: YUV,
            entries: &[
                Entry(0, 10, Integer, 0),
                Entry(1, 7, Integer, 0),
                Entry(2, 5, Integer, 0),
            ],
            sampling: Yuv411,
            tile_columns_less_one: 1,
            tile_rows_less_one: 1,
            width: 8,
            height: 4,
            ..PLAIN
        },
        size: 56,
        bits: &[
            Bit(0, 7, 3, 6, 51, 3),
            Bit(1, 1, 3, 4, 53, 3),
            Bit(2, 1, 3, 4, 55, 3),
        ],
    },
    // 4:1:1, tile-component
    Laid {
        draft: Draft {
            types: YUV,
            entries: &[
                Entry(0, 10, Integer, 0),
                Entry(1, 7, Integer, 0),
                Entry(2, 5, Integer, 0),
            ],
            sampling: Yuv411,
            interleave: TileComponent,
            tile_columns_less_one: 1,
            tile_rows_less_one: 1,
            width: 8,
            height: 4,
            ..PLAIN
        },
        size: 56,
        bits: &[
            Bit(0, 7, 3, 0, 38, 1),
            Bit(1, 1, 1, 4, 43, 3),
            Bit(2, 1, 3, 4, 55, 3),
        ],
    },
    // 4:1:1, multi-Y
    Laid {
        draft: Draft {
            types: YUV,
            entries: &[
                Entry(0, 10, Integer, 0),
                Entry(0, 10, Integer, 0),
                Entry(1, 7, Integer, 0),
                Entry(0, 10, Integer, 0),
                Entry(2, 5, Integer, 0),
                Entry(0, 10, Integer, 0),
            ],
            sampling: Yuv411,
            interleave: MultiY,
            tile_columns_less_one: 1,
            tile_rows_less_one: 1,
            width: 8,
            height: 4,
            ..PLAIN
        },
        size: 56,
        bits: &[
            Bit(0, 7, 3, 9, 55, 4),
            Bit(1, 1, 2, 3, 44, 0),
            Bit(2, 1, 2, 0, 46, 2),
        ],
    },
    // chroma before Y, and alpha of full size
    Laid {
        draft: Draft {
            types: &[1, 2, 3, 7],
            entries: &[
                Entry(2, 5, Integer, 0),
                Entry(3, 3, Integer, 0),
                Entry(1, 7, Integer, 0),
                Entry(0, 10, Integer, 0),
            ],
            sampling: Yuv420,
            tile_columns_less_one: 1,
            tile_rows_less_one: 1,
            width: 8,
            height: 4,
            ..PLAIN
        },
        size: 72,
        bits: &[
            Bit(0, 7, 3, 9, 71, 0),
            Bit(1, 1, 0, 5, 7, 3),
            Bit(2, 2, 1, 3, 54, 4),
            Bit(3, 2, 3, 1, 40, 0),
        ],
    },
    // indexes in the order of the list, not of the definition
    Laid {
        draft: Draft {
            types: &[4, 5, 6, 7],
            entries: &[
                Entry(3, 8, Integer, 0),
                Entry(2, 8, Integer, 0),
                Entry(1, 8, Integer, 0),
                Entry(0, 8, Integer, 0),
            ],
            interleave: Pixel,
            width: 2,
            height: 1,
            ..PLAIN
        },
        size: 8,
        bits: &[Bit(0, 0, 0, 0, 3, 7), Bit(3, 1, 0, 0, 4, 7)],
    },
    // U and V without sampling have the size of the frame
    Laid {
        draft: Draft {
            types: &[2, 3],
            entries: &[Entry(0, 8, Integer, 0), Entry(1, 8, Integer, 0)],
            width: 3,
            height: 2,
            ..PLAIN
        },
        size: 12,
        bits: &[Bit(0, 2, 1, 7, 5, 0), Bit(1, 2, 1, 7, 11, 0)],
    },
];

#[test]
fn interleaves_and_samplings(rt: HostRuntime) -> Result<(), Fail> {
    all(&rt, rt.alloc(), &CASES)
}
