// Lines of many values, in which the pattern of blocks or bytes comes round again and again.
use crate::laid::{Bit, Laid, all};
use boxes::Format::Integer;
use boxes::Interleave::{MultiY, Pixel};
use boxes::Sampling::Yuv411;
use std::test::*;
use test_boxes::{Draft, Entry, Flag, MONO, PLAIN, RGB, YUV};

const CASES: [Laid; 13] = [
    // one bit to a value
    Laid {
        draft: Draft {
            types: MONO,
            entries: &[Entry(0, 1, Integer, 0)],
            width: 32_768,
            height: 1,
            ..PLAIN
        },
        size: 4096,
        bits: &[Bit(0, 32_767, 0, 0, 4095, 0), Bit(0, 16_384, 0, 0, 2048, 7)],
    },
    // packed
    Laid {
        draft: Draft {
            types: MONO,
            entries: &[Entry(0, 13, Integer, 0)],
            width: 32_768,
            height: 1,
            ..PLAIN
        },
        size: 53_248,
        bits: &[
            Bit(0, 32_767, 0, 0, 53_246, 4),
            Bit(0, 32_767, 0, 12, 53_247, 0),
            Bit(0, 12_345, 0, 6, 20_061, 4),
        ],
    },
    // packed values and a word, of which the first pixel begins otherwise than the others
    Laid {
        draft: Draft {
            types: RGB,
            entries: &[
                Entry(0, 3, Integer, 0),
                Entry(1, 15, Integer, 2),
                Entry(2, 7, Integer, 0),
            ],
            interleave: Pixel,
            width: 32_768,
            height: 1,
            ..PLAIN
        },
        size: 131_072,
        bits: &[
            Bit(0, 1, 0, 0, 3, 0),
            Bit(0, 2, 0, 0, 7, 0),
            Bit(2, 1, 0, 0, 7, 7),
            Bit(1, 32_767, 0, 0, 131_069, 6),
            Bit(2, 32_767, 0, 6, 131_071, 1),
        ],
    },
    // blocks of 4
    Laid {
        draft: Draft {
            types: RGB,
            entries: &[Entry(0, 10, Integer, 0)],
            interleave: Pixel,
            block: 4,
            width: 32_768,
            height: 1,
            ..PLAIN
        },
        size: 43_692,
        bits: &[
            Bit(0, 1, 0, 0, 1, 3),
            Bit(0, 130, 0, 0, 173, 3),
            Bit(0, 20_000, 0, 0, 26_666, 1),
            Bit(0, 32_767, 0, 9, 43_691, 0),
        ],
    },
    // blocks of 4
    Laid {
        draft: Draft {
            types: RGB,
            entries: &[
                Entry(0, 7, Integer, 0),
                Entry(1, 11, Integer, 0),
                Entry(2, 13, Integer, 0),
            ],
            interleave: Pixel,
            block: 4,
            flags: Flag::PAD_LOW,
            width: 32_768,
            height: 1,
            ..PLAIN
        },
        size: 131_072,
        bits: &[
            Bit(0, 1, 0, 0, 4, 7),
            Bit(0, 130, 0, 0, 520, 7),
            Bit(1, 20_000, 0, 0, 80_000, 0),
            Bit(2, 32_767, 0, 12, 131_071, 1),
        ],
    },
    // blocks of 8
    Laid {
        draft: Draft {
            types: RGB,
            entries: &[
                Entry(0, 7, Integer, 0),
                Entry(1, 11, Integer, 0),
                Entry(2, 13, Integer, 0),
            ],
            interleave: Pixel,
            block: 8,
            flags: Flag::PAD_LOW | Flag::BLOCK_REVERSED,
            width: 32_768,
            height: 1,
            ..PLAIN
        },
        size: 131_072,
        bits: &[
            Bit(0, 1, 0, 0, 3, 7),
            Bit(0, 130, 0, 0, 526, 0),
            Bit(1, 20_000, 0, 0, 80_005, 3),
            Bit(2, 32_767, 0, 12, 131_065, 3),
        ],
    },
    // blocks of 8
    Laid {
        draft: Draft {
            types: RGB,
            entries: &[
                Entry(0, 1, Integer, 0),
                Entry(1, 62, Integer, 0),
                Entry(2, 3, Integer, 0),
            ],
            interleave: Pixel,
            block: 8,
            flags: Flag::BLOCK_REVERSED,
            width: 32_768,
            height: 1,
            ..PLAIN
        },
        size: 524_288,
        bits: &[
            Bit(0, 1, 0, 0, 15, 3),
            Bit(0, 130, 0, 0, 2079, 3),
            Bit(1, 20_000, 0, 0, 320_000, 5),
            Bit(2, 32_767, 0, 2, 524_287, 0),
        ],
    },
    // blocks of 8
    Laid {
        draft: Draft {
            types: RGB,
            entries: &[Entry(0, 33, Integer, 0)],
            interleave: Pixel,
            block: 8,
            flags: Flag::BLOCK_LITTLE_ENDIAN,
            width: 32_768,
            height: 1,
            ..PLAIN
        },
        size: 262_144,
        bits: &[
            Bit(0, 1, 0, 0, 12, 0),
            Bit(0, 130, 0, 0, 1044, 0),
            Bit(0, 20_000, 0, 0, 160_004, 0),
            Bit(0, 32_767, 0, 32, 262_136, 0),
        ],
    },
    // blocks of 3
    Laid {
        draft: Draft {
            types: RGB,
            entries: &[Entry(0, 5, Integer, 0), Entry(1, 7, Integer, 0)],
            interleave: Pixel,
            block: 3,
            flags: Flag::BLOCK_REVERSED,
            width: 32_768,
            height: 1,
            ..PLAIN
        },
        size: 49_152,
        bits: &[
            Bit(0, 1, 0, 0, 0, 0),
            Bit(0, 130, 0, 0, 197, 4),
            Bit(1, 20_000, 0, 0, 30_001, 3),
            Bit(1, 32_767, 0, 6, 49_149, 1),
        ],
    },
    // sixteen entries in blocks
    Laid {
        draft: Draft {
            types: &[0, 0, 0, 0, 0, 0, 0, 0, 0, 0, 0, 0, 0, 0, 0, 0],
            entries: &[
                Entry(0, 1, Integer, 0),
                Entry(1, 2, Integer, 0),
                Entry(2, 3, Integer, 0),
                Entry(3, 4, Integer, 0),
                Entry(4, 5, Integer, 0),
                Entry(5, 6, Integer, 0),
                Entry(6, 7, Integer, 0),
                Entry(7, 8, Integer, 0),
                Entry(8, 9, Integer, 0),
                Entry(9, 10, Integer, 0),
                Entry(10, 11, Integer, 0),
                Entry(11, 12, Integer, 0),
                Entry(12, 13, Integer, 0),
                Entry(13, 14, Integer, 0),
                Entry(14, 15, Integer, 0),
                Entry(15, 16, Integer, 0),
            ],
            interleave: Pixel,
            block: 3,
            flags: Flag::BLOCK_REVERSED,
            width: 1000,
            height: 1,
            ..PLAIN
        },
        size: 24_000,
        bits: &[
            Bit(6, 1, 0, 0, 24, 5),
            Bit(3, 500, 0, 3, 12_002, 0),
            Bit(15, 999, 0, 15, 23_999, 0),
        ],
    },
    // sixteen entries, packed
    Laid {
        draft: Draft {
            types: &[0, 0, 0, 0, 0, 0, 0, 0, 0, 0, 0, 0, 0, 0, 0, 0],
            entries: &[
                Entry(0, 1, Integer, 0),
                Entry(1, 2, Integer, 0),
                Entry(2, 3, Integer, 0),
                Entry(3, 4, Integer, 0),
                Entry(4, 5, Integer, 0),
                Entry(5, 6, Integer, 0),
                Entry(6, 7, Integer, 0),
                Entry(7, 8, Integer, 0),
                Entry(8, 9, Integer, 0),
                Entry(9, 10, Integer, 0),
                Entry(10, 11, Integer, 0),
                Entry(11, 12, Integer, 0),
                Entry(12, 13, Integer, 0),
                Entry(13, 14, Integer, 0),
                Entry(14, 15, Integer, 0),
                Entry(15, 16, Integer, 0),
            ],
            interleave: Pixel,
            width: 1000,
            height: 1,
            ..PLAIN
        },
        size: 17_000,
        bits: &[Bit(6, 1, 0, 0, 19, 2), Bit(15, 999, 0, 15, 16_999, 0)],
    },
    // groups in blocks
    Laid {
        draft: Draft {
            types: YUV,
            entries: &[
                Entry(0, 9, Integer, 0),
                Entry(0, 9, Integer, 0),
                Entry(1, 7, Integer, 0),
                Entry(0, 9, Integer, 0),
                Entry(2, 5, Integer, 0),
                Entry(0, 9, Integer, 0),
            ],
            sampling: Yuv411,
            interleave: MultiY,
            block: 4,
            flags: Flag::PAD_LOW | Flag::BLOCK_REVERSED,
            width: 32_768,
            height: 1,
            ..PLAIN
        },
        size: 54_616,
        bits: &[
            Bit(0, 5, 0, 8, 11, 2),
            Bit(1, 100, 0, 0, 669, 1),
            Bit(2, 8191, 0, 4, 54_608, 3),
            Bit(0, 32_767, 0, 8, 54_613, 7),
        ],
    },
    // the same without a flag
    Laid {
        draft: Draft {
            types: YUV,
            entries: &[
                Entry(0, 9, Integer, 0),
                Entry(0, 9, Integer, 0),
                Entry(1, 7, Integer, 0),
                Entry(0, 9, Integer, 0),
                Entry(2, 5, Integer, 0),
                Entry(0, 9, Integer, 0),
            ],
            sampling: Yuv411,
            interleave: MultiY,
            block: 4,
            width: 32_768,
            height: 1,
            ..PLAIN
        },
        size: 54_616,
        bits: &[Bit(0, 5, 0, 8, 9, 5), Bit(2, 8191, 0, 4, 54_611, 0)],
    },
];

#[test]
fn wide_lines(rt: HostRuntime) -> Result<(), Fail> {
    all(&rt, rt.alloc(), &CASES)
}
