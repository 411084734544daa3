// Rule 14: a frame of at most 4,294,967,295 bytes, however its bytes come about.
use crate::laid::layout_of;
use boxes::Format::Integer;
use boxes::Interleave::{Mixed, Pixel, Row, TileComponent};
use boxes::Sampling::{Yuv411, Yuv420, Yuv422};
use fault::{Layer, Reason};
use std::test::*;
use test_boxes::{Draft, Entry, MONO, OCTETS, PLAIN, RGB, YUV};

// The boxes, and the bytes of the frame.
struct Case(Draft<'static>, u64);

const LARGEST: u64 = 4_294_967_295;

const CASES: [Case; 32] = [
    // the depth of a frame of the largest sides
    Case(
        Draft {
            types: MONO,
            entries: &[Entry(0, 24, Integer, 0)],
            width: 32_768,
            height: 32_768,
            ..PLAIN
        },
        3_221_225_472,
    ),
    Case(
        Draft {
            types: MONO,
            entries: &[Entry(0, 31, Integer, 0)],
            width: 32_768,
            height: 32_768,
            ..PLAIN
        },
        4_160_749_568,
    ),
    Case(
        Draft {
            types: MONO,
            entries: &[Entry(0, 32, Integer, 0)],
            width: 32_768,
            height: 32_767,
            ..PLAIN
        },
        4_294_836_224,
    ),
    Case(
        Draft {
            types: MONO,
            entries: &[Entry(0, 32, Integer, 0)],
            width: 32_767,
            height: 32_768,
            ..PLAIN
        },
        4_294_836_224,
    ),
    Case(
        Draft {
            types: MONO,
            entries: &[Entry(0, 32, Integer, 0)],
            width: 32_768,
            height: 32_768,
            ..PLAIN
        },
        4_294_967_296,
    ),
    Case(
        Draft {
            types: MONO,
            entries: &[Entry(0, 33, Integer, 0)],
            width: 32_768,
            height: 32_768,
            ..PLAIN
        },
        4_429_185_024,
    ),
    Case(
        Draft {
            types: MONO,
            entries: &[Entry(0, 64, Integer, 0)],
            width: 32_768,
            height: 32_768,
            ..PLAIN
        },
        8_589_934_592,
    ),
    // the last size that is accepted, and the first that is not
    Case(
        Draft {
            types: MONO,
            entries: &[Entry(0, 8, Integer, 0)],
            tile_align: 65_537,
            tile_columns_less_one: 254,
            tile_rows_less_one: 256,
            width: 255,
            height: 257,
            ..PLAIN
        },
        4_294_967_295,
    ),
    Case(
        Draft {
            types: MONO,
            entries: &[Entry(0, 8, Integer, 0)],
            tile_align: 65_536,
            tile_columns_less_one: 255,
            tile_rows_less_one: 255,
            width: 256,
            height: 256,
            ..PLAIN
        },
        4_294_967_296,
    ),
    // words and blocks
    Case(
        Draft {
            types: MONO,
            entries: &[Entry(0, 23, Integer, 3)],
            width: 32_768,
            height: 32_768,
            ..PLAIN
        },
        3_221_225_472,
    ),
    Case(
        Draft {
            types: MONO,
            entries: &[Entry(0, 24, Integer, 4)],
            width: 32_768,
            height: 32_768,
            ..PLAIN
        },
        4_294_967_296,
    ),
    Case(
        Draft {
            types: MONO,
            entries: &[Entry(0, 1, Integer, 0)],
            block: 8,
            width: 32_768,
            height: 32_768,
            ..PLAIN
        },
        134_217_728,
    ),
    Case(
        Draft {
            types: MONO,
            entries: &[Entry(0, 33, Integer, 0)],
            block: 8,
            width: 32_768,
            height: 16_383,
            ..PLAIN
        },
        4_294_705_152,
    ),
    Case(
        Draft {
            types: MONO,
            entries: &[Entry(0, 33, Integer, 0)],
            block: 8,
            width: 32_768,
            height: 16_384,
            ..PLAIN
        },
        4_294_967_296,
    ),
    // lines that are rounded up
    Case(
        Draft {
            types: MONO,
            entries: &[Entry(0, 1, Integer, 0)],
            row_align: 65_536,
            width: 1,
            height: 32_768,
            ..PLAIN
        },
        2_147_483_648,
    ),
    Case(
        Draft {
            types: &[0, 0],
            entries: &[Entry(0, 1, Integer, 0), Entry(1, 1, Integer, 0)],
            row_align: 65_536,
            width: 1,
            height: 32_767,
            ..PLAIN
        },
        4_294_836_224,
    ),
    Case(
        Draft {
            types: &[0, 0],
            entries: &[Entry(0, 1, Integer, 0), Entry(1, 1, Integer, 0)],
            row_align: 65_536,
            width: 1,
            height: 32_768,
            ..PLAIN
        },
        4_294_967_296,
    ),
    Case(
        Draft {
            types: &[0, 0],
            entries: &[Entry(0, 1, Integer, 0), Entry(1, 1, Integer, 0)],
            interleave: Row,
            row_align: 65_536,
            width: 1,
            height: 32_768,
            ..PLAIN
        },
        4_294_967_296,
    ),
    Case(
        Draft {
            types: &[0, 0],
            entries: &[Entry(0, 1, Integer, 0), Entry(1, 1, Integer, 0)],
            interleave: TileComponent,
            row_align: 65_536,
            width: 1,
            height: 32_768,
            ..PLAIN
        },
        4_294_967_296,
    ),
    Case(
        Draft {
            types: &[0, 0],
            entries: &[Entry(0, 1, Integer, 0), Entry(1, 1, Integer, 0)],
            interleave: Pixel,
            row_align: 65_536,
            width: 1,
            height: 32_768,
            ..PLAIN
        },
        2_147_483_648,
    ),
    // chroma
    Case(
        Draft {
            types: YUV,
            entries: OCTETS,
            sampling: Yuv420,
            row_align: 65_536,
            width: 2,
            height: 32_768,
            ..PLAIN
        },
        4_294_967_296,
    ),
    Case(
        Draft {
            types: YUV,
            entries: OCTETS,
            sampling: Yuv420,
            interleave: Mixed,
            row_align: 65_536,
            width: 2,
            height: 32_768,
            ..PLAIN
        },
        3_221_225_472,
    ),
    Case(
        Draft {
            types: YUV,
            entries: &[
                Entry(0, 16, Integer, 0),
                Entry(1, 16, Integer, 0),
                Entry(2, 16, Integer, 0),
            ],
            sampling: Yuv422,
            width: 32_768,
            height: 32_768,
            ..PLAIN
        },
        4_294_967_296,
    ),
    Case(
        Draft {
            types: YUV,
            entries: &[
                Entry(0, 16, Integer, 0),
                Entry(1, 16, Integer, 0),
                Entry(2, 16, Integer, 0),
            ],
            sampling: Yuv420,
            width: 32_768,
            height: 32_768,
            ..PLAIN
        },
        3_221_225_472,
    ),
    Case(
        Draft {
            types: YUV,
            entries: &[
                Entry(0, 16, Integer, 0),
                Entry(1, 16, Integer, 0),
                Entry(2, 16, Integer, 0),
            ],
            sampling: Yuv411,
            width: 32_768,
            height: 32_768,
            ..PLAIN
        },
        3_221_225_472,
    ),
    // pixels of the largest size
    Case(
        Draft {
            types: RGB,
            entries: OCTETS,
            interleave: Pixel,
            pixel_size: 65_535,
            width: 256,
            height: 256,
            ..PLAIN
        },
        4_294_901_760,
    ),
    Case(
        Draft {
            types: RGB,
            entries: OCTETS,
            interleave: Pixel,
            pixel_size: 65_535,
            width: 6,
            height: 10_923,
            ..PLAIN
        },
        4_295_032_830,
    ),
    Case(
        Draft {
            types: RGB,
            entries: OCTETS,
            interleave: Pixel,
            pixel_size: 65_535,
            width: 32_768,
            height: 32_768,
            ..PLAIN
        },
        70_367_670_435_840,
    ),
    // tiles that are rounded up, up to sums far past 32 bits
    Case(
        Draft {
            types: MONO,
            entries: &[Entry(0, 8, Integer, 0)],
            tile_align: 3,
            tile_columns_less_one: 32_767,
            tile_rows_less_one: 32_767,
            width: 32_768,
            height: 32_768,
            ..PLAIN
        },
        3_221_225_472,
    ),
    Case(
        Draft {
            types: MONO,
            entries: &[Entry(0, 8, Integer, 0)],
            tile_align: 4,
            tile_columns_less_one: 32_767,
            tile_rows_less_one: 32_767,
            width: 32_768,
            height: 32_768,
            ..PLAIN
        },
        4_294_967_296,
    ),
    Case(
        Draft {
            types: MONO,
            entries: &[Entry(0, 8, Integer, 0)],
            tile_align: 1_048_576,
            tile_columns_less_one: 32_767,
            tile_rows_less_one: 32_767,
            width: 32_768,
            height: 32_768,
            ..PLAIN
        },
        1_125_899_906_842_624,
    ),
    Case(
        Draft {
            types: &[0, 0],
            entries: &[Entry(0, 8, Integer, 0), Entry(1, 8, Integer, 0)],
            interleave: TileComponent,
            tile_align: 2,
            tile_columns_less_one: 32_767,
            tile_rows_less_one: 32_767,
            width: 32_768,
            height: 32_768,
            ..PLAIN
        },
        4_294_967_296,
    ),
];

#[test]
fn largest_frame(rt: HostRuntime) -> Result<(), Fail> {
    let heap = rt.alloc();
    let refused = Layer::Configuration.refuses(Reason::FrameSize, 255);
    for (i, Case(draft, size)) in CASES.iter().enumerate() {
        let expected = if *size > LARGEST {
            Err(refused)
        } else {
            Ok(*size)
        };
        let answer = layout_of(heap, draft)?.map(|layout| layout.size());
        assert_eq!(rt; answer, expected, "case {i}");
    }
    // Of sixteen components, each of the largest values, lines and tiles.
    let entries: Vec<Entry> = (0..16)
        .map(|index| Entry(index, 64, Integer, 0))
        .collect(heap)?;
    let draft = Draft {
        types: &[0; 16],
        entries: &entries,
        interleave: TileComponent,
        row_align: 65_536,
        tile_align: 1_048_576,
        tile_columns_less_one: 32_767,
        tile_rows_less_one: 32_767,
        width: 32_768,
        height: 32_768,
        ..PLAIN
    };
    let answer = layout_of(heap, &draft)?.err();
    assert_eq!(rt; answer, Some(refused), "sixteen components");
    Ok(())
}
