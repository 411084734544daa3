// Rule 8: each index is defined, and listed once but for Y in interleave 5.
use crate::answer::{Broken, NO_ENTRY, refusal, refused};
use boxes::Format;
use boxes::Interleave::{self, Component, Mixed, MultiY, Pixel, Row, TileComponent};
use boxes::Sampling::{self, Full, Yuv411, Yuv422};
use fault::Reason::{Index, Interleaving};
use std::test::*;
use test_boxes::{Draft, Entry, PLAIN, RGB, YUV};

// The types, the sampling, the interleave, the listed indexes, and the rule where it is broken.
struct Case(
    &'static [u8],
    Sampling,
    Interleave,
    &'static [u16],
    Option<Broken>,
);

const CASES: [Case; 31] = [
    Case(RGB, Full, Pixel, &[0, 1, 2], None),
    Case(RGB, Full, Pixel, &[2, 0, 1], None),
    Case(RGB, Full, Pixel, &[2], None),
    // not defined
    Case(RGB, Full, Pixel, &[3], Some((Index, 0))),
    Case(RGB, Full, Pixel, &[3, 1, 2], Some((Index, 0))),
    Case(RGB, Full, Pixel, &[0, 3, 2], Some((Index, 1))),
    Case(RGB, Full, Pixel, &[0, 1, 3], Some((Index, 2))),
    Case(RGB, Full, Pixel, &[0, 1, 256], Some((Index, 2))),
    Case(RGB, Full, Pixel, &[65_535, 1, 2], Some((Index, 0))),
    Case(&[0], Full, Component, &[0], None),
    Case(&[0], Full, Component, &[1], Some((Index, 0))),
    // listed before
    Case(RGB, Full, Pixel, &[0, 0], Some((Index, 1))),
    Case(RGB, Full, Pixel, &[0, 1, 0], Some((Index, 2))),
    Case(RGB, Full, Pixel, &[0, 1, 1], Some((Index, 2))),
    Case(RGB, Full, Pixel, &[0, 1, 2, 0], Some((Index, 3))),
    // one type at two indexes
    Case(&[4, 4], Full, Pixel, &[0, 1], None),
    // the first of two
    Case(RGB, Full, Pixel, &[3, 4], Some((Index, 0))),
    Case(RGB, Full, Pixel, &[0, 3, 0], Some((Index, 1))),
    Case(RGB, Full, Pixel, &[0, 0, 3], Some((Index, 1))),
    Case(RGB, Full, Pixel, &[1, 1, 1], Some((Index, 1))),
    // Y once more
    Case(YUV, Yuv422, MultiY, &[0, 1, 0, 2], None),
    Case(YUV, Yuv411, MultiY, &[0, 0, 1, 0, 0, 2], None),
    Case(
        YUV,
        Full,
        MultiY,
        &[0, 1, 0, 2],
        Some((Interleaving, NO_ENTRY)),
    ),
    Case(YUV, Full, Component, &[0, 1, 0, 2], Some((Index, 2))),
    Case(YUV, Full, Pixel, &[0, 1, 0, 2], Some((Index, 2))),
    Case(YUV, Yuv422, Mixed, &[0, 1, 0, 2], Some((Index, 2))),
    Case(YUV, Full, Row, &[0, 1, 0, 2], Some((Index, 2))),
    Case(YUV, Yuv422, TileComponent, &[0, 1, 0, 2], Some((Index, 2))),
    // another once more in interleave 5
    Case(YUV, Yuv422, MultiY, &[0, 1, 0, 1], Some((Index, 3))),
    Case(YUV, Yuv422, MultiY, &[2, 0, 2, 1], Some((Index, 2))),
    Case(RGB, Yuv422, MultiY, &[0, 1, 0, 2], Some((Index, 2))),
];

#[test]
fn defined_and_listed_once(rt: HostRuntime) -> Result<(), Fail> {
    let heap = rt.alloc();
    for (i, &Case(types, sampling, interleave, indexes, broken)) in CASES.iter().enumerate() {
        // Eight bits of each listed index.
        let entries: Vec<Entry> = indexes
            .iter()
            .map(|&index| Entry(index, 8, Format::Integer, 0))
            .collect(heap)?;
        let draft = Draft {
            types,
            entries: &entries,
            sampling,
            interleave,
            width: 4,
            ..PLAIN
        };
        assert_eq!(rt; refused(heap, &draft)?, broken.map(refusal), "case {i}");
    }
    Ok(())
}
