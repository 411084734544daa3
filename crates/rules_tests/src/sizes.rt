// Rule 12: the pixel size, the row align and the tile align.
use crate::answer::{refusal_of_all, refused};
use boxes::Format::Integer;
use boxes::Interleave::{self, Component, Pixel, Row, TileComponent};
use fault::Reason::{self, Alignment};
use std::process::Abort;
use std::test::*;
use test_boxes::{Draft, Entry, OCTETS, PLAIN, RGB};

// The interleave, the block size, the pixel size, the row align, the tile align, and the rule where it is broken.
struct Case(Interleave, u8, u32, u32, u32, Option<Reason>);

// Eight bits each of R, G and B.
const OCTET_CASES: [Case; 37] = [
    // without blocks a pixel has three bytes
    Case(Pixel, 0, 0, 0, 0, None),
    Case(Pixel, 0, 1, 0, 0, Some(Alignment)),
    Case(Pixel, 0, 2, 0, 0, Some(Alignment)),
    Case(Pixel, 0, 3, 0, 0, None),
    Case(Pixel, 0, 4, 0, 0, None),
    Case(Pixel, 0, 65_535, 0, 0, None),
    Case(Pixel, 0, 65_536, 0, 0, Some(Alignment)),
    Case(Pixel, 0, 65_539, 0, 0, Some(Alignment)),
    Case(Pixel, 0, u32::MAX, 0, 0, Some(Alignment)),
    // other interleaves
    Case(Component, 0, 3, 0, 0, Some(Alignment)),
    Case(Row, 0, 3, 0, 0, Some(Alignment)),
    Case(TileComponent, 0, 3, 0, 0, Some(Alignment)),
    Case(Component, 0, 0, 0, 0, None),
    Case(Row, 0, 0, 0, 0, None),
    Case(TileComponent, 0, 0, 0, 0, None),
    // two blocks of two bytes
    Case(Pixel, 2, 0, 0, 0, None),
    Case(Pixel, 2, 2, 0, 0, Some(Alignment)),
    Case(Pixel, 2, 3, 0, 0, Some(Alignment)),
    Case(Pixel, 2, 4, 0, 0, None),
    Case(Pixel, 2, 5, 0, 0, Some(Alignment)),
    Case(Pixel, 2, 6, 0, 0, None),
    Case(Pixel, 2, 65_534, 0, 0, None),
    Case(Pixel, 2, 65_535, 0, 0, Some(Alignment)),
    Case(Pixel, 2, 65_536, 0, 0, Some(Alignment)),
    Case(Pixel, 5, 65_535, 0, 0, None),
    // row align
    Case(Pixel, 0, 0, 1, 0, None),
    Case(Pixel, 0, 0, 3, 0, None),
    Case(Component, 0, 0, 65_536, 0, None),
    Case(Component, 0, 0, 65_537, 0, Some(Alignment)),
    Case(Pixel, 0, 3, 65_537, 0, Some(Alignment)),
    Case(Pixel, 0, 0, u32::MAX, 0, Some(Alignment)),
    // tile align
    Case(Pixel, 0, 0, 0, 1, None),
    Case(Component, 0, 0, 0, 1_048_576, None),
    Case(Component, 0, 0, 0, 1_048_577, Some(Alignment)),
    Case(Pixel, 0, 3, 0, 1_048_577, Some(Alignment)),
    Case(Pixel, 0, 0, 0, u32::MAX, Some(Alignment)),
    Case(Pixel, 0, 3, 65_536, 1_048_576, None),
];

// The depths and aligns of three entries, the block size, and the least pixel size: more than one block or byte.
struct Least([u16; 3], [u8; 3], u8, u32);

const LEAST: [Least; 16] = [
    // bits side by side
    Least([5, 6, 5], [0; 3], 0, 2),
    Least([3, 3, 3], [0; 3], 0, 2),
    Least([10, 10, 10], [0; 3], 0, 4),
    Least([11, 11, 10], [0; 3], 0, 4),
    Least([11, 11, 11], [0; 3], 0, 5),
    Least([64, 64, 64], [0; 3], 0, 24),
    // words begin at whole bytes
    Least([4, 7, 4], [0, 1, 0], 0, 3),
    Least([4, 4, 7], [0, 0, 1], 0, 2),
    Least([1, 1, 1], [8, 8, 8], 0, 24),
    // blocks
    Least([16, 16, 32], [0; 3], 4, 8),
    Least([10, 11, 12], [0; 3], 4, 8),
    Least([10, 10, 10], [0; 3], 2, 6),
    Least([12, 12, 12], [0; 3], 3, 6),
    Least([16, 20, 12], [0; 3], 4, 8),
    // no value goes back to an earlier block
    Least([20, 32, 12], [0; 3], 4, 12),
    Least([64, 1, 63], [0; 3], 8, 16),
];

// The least pixel size is kept, and one block less, or one byte, is not.
fn keeps_least(rt: &(impl Abort + AllocGlobal), i: usize, least: &Least) -> Result<(), Fail> {
    let &Least([d0, d1, d2], [a0, a1, a2], block, pixel_size) = least;
    let kept = Draft {
        types: RGB,
        entries: &[
            Entry(0, d0, Integer, a0),
            Entry(1, d1, Integer, a1),
            Entry(2, d2, Integer, a2),
        ],
        interleave: Pixel,
        block,
        pixel_size,
        ..PLAIN
    };
    let fewer = Draft {
        pixel_size: pixel_size.saturating_sub(u32::from(block).max(1)),
        ..kept
    };
    assert_eq!(rt; refused(rt.alloc(), &kept)?, None, "least {i}");
    assert_eq!(rt;
        refused(rt.alloc(), &fewer)?,
        Some(refusal_of_all(Alignment)),
        "least {i}"
    );
    Ok(())
}

#[test]
fn pixel_sizes_and_aligns(rt: HostRuntime) -> Result<(), Fail> {
    for (i, &Case(interleave, block, pixel_size, row_align, tile_align, broken)) in OCTET_CASES
        .iter()
        .enumerate()
    {
        let draft = Draft {
            types: RGB,
            entries: OCTETS,
            interleave,
            block,
            pixel_size,
            row_align,
            tile_align,
            ..PLAIN
        };
        let expected = broken.map(refusal_of_all);
        assert_eq!(rt; refused(rt.alloc(), &draft)?, expected, "case {i}");
    }
    for (i, least) in LEAST.iter().enumerate() {
        keeps_least(&rt, i, least)?;
    }
    Ok(())
}
