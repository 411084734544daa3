// Rule 13: tiles divide the frame, and chroma divides a tile.
use crate::answer::{refusal_of_all, refused};
use boxes::Sampling::{self, Full, Yuv411, Yuv420, Yuv422};
use fault::Reason::{self, Tiles};
use std::test::*;
use test_boxes::{Draft, OCTETS, PLAIN, YUV};

// The sampling, the tile columns and rows, each less one, the width, the height, and the rule where it is broken.
struct Case(Sampling, u32, u32, u32, u32, Option<Reason>);

const CASES: [Case; 55] = [
    // without sampling
    Case(Full, 0, 0, 1, 1, None),
    Case(Full, 0, 0, 7, 5, None),
    Case(Full, 2, 0, 9, 1, None),
    Case(Full, 2, 0, 8, 1, Some(Tiles)),
    Case(Full, 2, 0, 10, 1, Some(Tiles)),
    Case(Full, 0, 2, 1, 9, None),
    Case(Full, 0, 2, 1, 8, Some(Tiles)),
    Case(Full, 0, 2, 1, 10, Some(Tiles)),
    Case(Full, 7, 0, 8, 1, None),
    Case(Full, 8, 0, 8, 1, Some(Tiles)),
    Case(Full, 0, 7, 1, 8, None),
    Case(Full, 0, 8, 1, 8, Some(Tiles)),
    Case(Full, 2, 1, 9, 4, None),
    Case(Full, 1, 2, 9, 4, Some(Tiles)),
    Case(Full, 32_767, 32_767, 32_768, 32_768, None),
    Case(Full, 65_535, 0, 32_768, 1, Some(Tiles)),
    Case(Full, 0, 65_535, 1, 32_768, Some(Tiles)),
    Case(Full, u32::MAX, 0, 1, 1, Some(Tiles)),
    Case(Full, 0, u32::MAX, 1, 1, Some(Tiles)),
    // 4:2:2
    Case(Yuv422, 0, 0, 1, 1, Some(Tiles)),
    Case(Yuv422, 0, 0, 2, 1, None),
    Case(Yuv422, 0, 0, 3, 1, Some(Tiles)),
    Case(Yuv422, 0, 0, 2, 3, None),
    Case(Yuv422, 1, 0, 2, 1, Some(Tiles)),
    Case(Yuv422, 1, 0, 4, 1, None),
    Case(Yuv422, 1, 0, 6, 1, Some(Tiles)),
    Case(Yuv422, 0, 2, 2, 3, None),
    Case(Yuv422, 0, 1, 2, 3, Some(Tiles)),
    Case(Yuv422, 2, 0, 4, 1, Some(Tiles)),
    // 4:2:0
    Case(Yuv420, 0, 0, 2, 2, None),
    Case(Yuv420, 0, 0, 1, 2, Some(Tiles)),
    Case(Yuv420, 0, 0, 3, 2, Some(Tiles)),
    Case(Yuv420, 0, 0, 2, 1, Some(Tiles)),
    Case(Yuv420, 0, 0, 2, 3, Some(Tiles)),
    Case(Yuv420, 1, 0, 4, 2, None),
    Case(Yuv420, 1, 0, 2, 2, Some(Tiles)),
    Case(Yuv420, 1, 0, 6, 2, Some(Tiles)),
    Case(Yuv420, 0, 1, 2, 4, None),
    Case(Yuv420, 0, 1, 2, 2, Some(Tiles)),
    Case(Yuv420, 0, 1, 2, 6, Some(Tiles)),
    Case(Yuv420, 2, 2, 6, 6, None),
    // 4:1:1
    Case(Yuv411, 0, 0, 4, 1, None),
    Case(Yuv411, 0, 0, 1, 1, Some(Tiles)),
    Case(Yuv411, 0, 0, 2, 1, Some(Tiles)),
    Case(Yuv411, 0, 0, 3, 1, Some(Tiles)),
    Case(Yuv411, 0, 0, 5, 1, Some(Tiles)),
    Case(Yuv411, 0, 0, 6, 1, Some(Tiles)),
    Case(Yuv411, 0, 0, 4, 3, None),
    Case(Yuv411, 1, 0, 4, 1, Some(Tiles)),
    Case(Yuv411, 1, 0, 8, 1, None),
    Case(Yuv411, 1, 0, 12, 1, Some(Tiles)),
    Case(Yuv411, 2, 0, 12, 1, None),
    Case(Yuv411, 0, 2, 4, 3, None),
    Case(Yuv411, 0, 1, 4, 3, Some(Tiles)),
    Case(Yuv411, 0, 0, 32_768, 32_768, None),
];

#[test]
fn tiles_divide_the_frame(rt: HostRuntime) -> Result<(), Fail> {
    for (i, &Case(sampling, columns, rows, width, height, broken)) in CASES.iter().enumerate() {
        let draft = Draft {
            types: YUV,
            entries: OCTETS,
            sampling,
            tile_columns_less_one: columns,
            tile_rows_less_one: rows,
            width,
            height,
            ..PLAIN
        };
        let expected = broken.map(refusal_of_all);
        assert_eq!(rt; refused(rt.alloc(), &draft)?, expected, "case {i}");
    }
    Ok(())
}
