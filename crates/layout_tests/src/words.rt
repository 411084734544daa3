// Values without blocks: packed, and in words of their own in both byte orders.
use crate::laid::{Bit, Laid, all};
use boxes::Format::{Complex, Float, Integer};
use boxes::Interleave::{Pixel, Row};
use std::test::*;
use test_boxes::{Draft, Entry, Flag, MONO, PLAIN, RGB};

const CASES: [Laid; 10] = [
    // words of 1, 2 and 3 bytes, high byte first
    Laid {
        draft: Draft {
            types: RGB,
            entries: &[
                Entry(0, 7, Integer, 1),
                Entry(1, 12, Integer, 2),
                Entry(2, 17, Integer, 3),
            ],
            interleave: Pixel,
            width: 2,
            height: 1,
            ..PLAIN
        },
        size: 12,
        bits: &[
            Bit(0, 0, 0, 0, 0, 6),
            Bit(1, 0, 0, 0, 1, 3),
            Bit(1, 0, 0, 4, 2, 7),
            Bit(2, 0, 0, 1, 4, 7),
            Bit(2, 1, 0, 16, 11, 0),
        ],
    },
    // words of 8 bytes, high byte first
    Laid {
        draft: Draft {
            types: MONO,
            entries: &[Entry(0, 63, Integer, 8)],
            width: 2,
            height: 2,
            ..PLAIN
        },
        size: 32,
        bits: &[Bit(0, 0, 0, 62, 7, 0), Bit(0, 1, 1, 7, 25, 7)],
    },
    // floats and complex numbers, high byte first
    Laid {
        draft: Draft {
            types: &[0, 0],
            entries: &[Entry(0, 32, Float, 5), Entry(1, 32, Complex, 7)],
            interleave: Row,
            width: 2,
            height: 1,
            ..PLAIN
        },
        size: 24,
        bits: &[Bit(0, 1, 0, 0, 6, 7), Bit(1, 1, 0, 31, 23, 0)],
    },
    // words of 1, 2 and 3 bytes, low byte first
    Laid {
        draft: Draft {
            types: RGB,
            entries: &[
                Entry(0, 7, Integer, 1),
                Entry(1, 12, Integer, 2),
                Entry(2, 17, Integer, 3),
            ],
            interleave: Pixel,
            flags: Flag::COMPONENTS_LITTLE_ENDIAN,
            width: 2,
            height: 1,
            ..PLAIN
        },
        size: 12,
        bits: &[
            Bit(0, 0, 0, 0, 0, 6),
            Bit(1, 0, 0, 0, 2, 3),
            Bit(1, 0, 0, 4, 1, 7),
            Bit(2, 0, 0, 1, 4, 7),
            Bit(2, 1, 0, 16, 9, 0),
        ],
    },
    // words of 8 bytes, low byte first
    Laid {
        draft: Draft {
            types: MONO,
            entries: &[Entry(0, 63, Integer, 8)],
            flags: Flag::COMPONENTS_LITTLE_ENDIAN,
            width: 2,
            height: 2,
            ..PLAIN
        },
        size: 32,
        bits: &[Bit(0, 0, 0, 62, 0, 0), Bit(0, 1, 1, 7, 30, 7)],
    },
    // floats and complex numbers, low byte first
    Laid {
        draft: Draft {
            types: &[0, 0],
            entries: &[Entry(0, 32, Float, 5), Entry(1, 32, Complex, 7)],
            interleave: Row,
            flags: Flag::COMPONENTS_LITTLE_ENDIAN,
            width: 2,
            height: 1,
            ..PLAIN
        },
        size: 24,
        bits: &[Bit(0, 1, 0, 0, 8, 7), Bit(1, 1, 0, 31, 17, 0)],
    },
    // a word begins on a byte, and a packed value where it ends
    Laid {
        draft: Draft {
            types: RGB,
            entries: &[
                Entry(0, 3, Integer, 0),
                Entry(1, 7, Integer, 1),
                Entry(2, 2, Integer, 0),
            ],
            interleave: Pixel,
            width: 3,
            height: 1,
            ..PLAIN
        },
        size: 7,
        bits: &[
            Bit(1, 0, 0, 0, 1, 6),
            Bit(2, 0, 0, 0, 2, 7),
            Bit(0, 1, 0, 0, 2, 5),
            Bit(1, 1, 0, 0, 3, 6),
            Bit(2, 2, 0, 1, 6, 6),
        ],
    },
    // packed values across bytes
    Laid {
        draft: Draft {
            types: MONO,
            entries: &[Entry(0, 64, Integer, 0)],
            width: 2,
            height: 1,
            ..PLAIN
        },
        size: 16,
        bits: &[Bit(0, 0, 0, 63, 7, 0), Bit(0, 1, 0, 9, 9, 6)],
    },
    // one bit to a value
    Laid {
        draft: Draft {
            types: MONO,
            entries: &[Entry(0, 1, Integer, 0)],
            width: 17,
            height: 2,
            ..PLAIN
        },
        size: 6,
        bits: &[
            Bit(0, 7, 0, 0, 0, 0),
            Bit(0, 16, 0, 0, 2, 7),
            Bit(0, 0, 1, 0, 3, 7),
        ],
    },
    // floats and complex numbers, packed
    Laid {
        draft: Draft {
            types: &[0, 0, 0],
            entries: &[
                Entry(0, 16, Float, 0),
                Entry(1, 64, Float, 0),
                Entry(2, 64, Complex, 0),
            ],
            interleave: Pixel,
            width: 2,
            height: 1,
            ..PLAIN
        },
        size: 36,
        bits: &[
            Bit(1, 0, 0, 0, 2, 7),
            Bit(2, 0, 0, 63, 17, 0),
            Bit(0, 1, 0, 0, 18, 7),
        ],
    },
];

#[test]
fn packed_values_and_words(rt: HostRuntime) -> Result<(), Fail> {
    all(&rt, rt.alloc(), &CASES)
}
