// What a layout says of its entries and of the sizes of their lines and tiles.
use crate::laid::layout_of;
use boxes::Format::{Complex, Float, Integer};
use boxes::Interleave::{Mixed, MultiY, Pixel, Row, TileComponent};
use boxes::Sampling::{Yuv411, Yuv420, Yuv422};
use layout::Layout;
use std::fmt::Display;
use std::process::Abort;
use std::test::*;
use test_boxes::{Draft, Entry, OCTETS, PLAIN, YUV};

// An entry as it stands in the list, and its type; the columns and rows of its grid; the bytes of its line and of its tile.
struct Listed(Entry, u16, u64, u64, u64, u64);

struct Table {
    draft: Draft<'static>,
    listed: &'static [Listed],
}

const TABLES: [Table; 8] = [
    // without sampling
    Table {
        draft: Draft {
            types: &[4, 5, 6, 7],
            entries: &[
                Entry(0, 10, Integer, 0),
                Entry(1, 10, Integer, 0),
                Entry(2, 10, Integer, 0),
                Entry(3, 7, Integer, 1),
            ],
            interleave: Pixel,
            width: 3,
            height: 2,
            ..PLAIN
        },
        listed: &[
            Listed(Entry(0, 10, Integer, 0), 4, 3, 2, 15, 30),
            Listed(Entry(1, 10, Integer, 0), 5, 3, 2, 15, 30),
            Listed(Entry(2, 10, Integer, 0), 6, 3, 2, 15, 30),
            Listed(Entry(3, 7, Integer, 1), 7, 3, 2, 15, 30),
        ],
    },
    // 4:2:2
    Table {
        draft: Draft {
            types: YUV,
            entries: OCTETS,
            sampling: Yuv422,
            row_align: 3,
            tile_columns_less_one: 1,
            tile_rows_less_one: 1,
            width: 8,
            height: 4,
            ..PLAIN
        },
        listed: &[
            Listed(Entry(0, 8, Integer, 0), 1, 8, 4, 6, 24),
            Listed(Entry(1, 8, Integer, 0), 2, 4, 4, 3, 24),
            Listed(Entry(2, 8, Integer, 0), 3, 4, 4, 3, 24),
        ],
    },
    // 4:2:2, mixed
    Table {
        draft: Draft {
            types: YUV,
            entries: OCTETS,
            sampling: Yuv422,
            interleave: Mixed,
            tile_columns_less_one: 1,
            tile_rows_less_one: 1,
            width: 8,
            height: 4,
            ..PLAIN
        },
        listed: &[
            Listed(Entry(0, 8, Integer, 0), 1, 8, 4, 4, 16),
            Listed(Entry(1, 8, Integer, 0), 2, 4, 4, 4, 16),
            Listed(Entry(2, 8, Integer, 0), 3, 4, 4, 4, 16),
        ],
    },
    // 4:2:2, multi-Y: the Y entries are one component
    Table {
        draft: Draft {
            types: YUV,
            entries: &[
                Entry(1, 10, Integer, 0),
                Entry(0, 10, Integer, 0),
                Entry(2, 10, Integer, 0),
                Entry(0, 10, Integer, 0),
            ],
            sampling: Yuv422,
            interleave: MultiY,
            block: 4,
            width: 6,
            height: 1,
            ..PLAIN
        },
        listed: &[
            Listed(Entry(1, 10, Integer, 0), 2, 3, 1, 16, 16),
            Listed(Entry(0, 10, Integer, 0), 1, 6, 1, 16, 16),
            Listed(Entry(2, 10, Integer, 0), 3, 3, 1, 16, 16),
            Listed(Entry(0, 10, Integer, 0), 1, 6, 1, 16, 16),
        ],
    },
    // 4:2:0 with alpha, the list in another order than the definition
    Table {
        draft: Draft {
            types: &[1, 2, 3, 7],
            entries: &[
                Entry(3, 8, Integer, 0),
                Entry(2, 8, Integer, 0),
                Entry(0, 8, Integer, 0),
                Entry(1, 8, Integer, 0),
            ],
            sampling: Yuv420,
            tile_align: 5,
            tile_columns_less_one: 1,
            width: 8,
            height: 4,
            ..PLAIN
        },
        listed: &[
            Listed(Entry(3, 8, Integer, 0), 7, 8, 4, 4, 40),
            Listed(Entry(2, 8, Integer, 0), 3, 4, 2, 2, 40),
            Listed(Entry(0, 8, Integer, 0), 1, 8, 4, 4, 40),
            Listed(Entry(1, 8, Integer, 0), 2, 4, 2, 2, 40),
        ],
    },
    // 4:2:0, a tile for each component
    Table {
        draft: Draft {
            types: YUV,
            entries: &[
                Entry(0, 12, Integer, 2),
                Entry(1, 7, Integer, 1),
                Entry(2, 32, Float, 5),
            ],
            sampling: Yuv420,
            interleave: TileComponent,
            tile_align: 4,
            tile_columns_less_one: 1,
            tile_rows_less_one: 1,
            width: 8,
            height: 4,
            ..PLAIN
        },
        listed: &[
            Listed(Entry(0, 12, Integer, 2), 1, 8, 4, 8, 16),
            Listed(Entry(1, 7, Integer, 1), 2, 4, 2, 2, 4),
            Listed(Entry(2, 32, Float, 5), 3, 4, 2, 10, 12),
        ],
    },
    // 4:1:1
    Table {
        draft: Draft {
            types: YUV,
            entries: OCTETS,
            sampling: Yuv411,
            width: 8,
            height: 4,
            ..PLAIN
        },
        listed: &[
            Listed(Entry(0, 8, Integer, 0), 1, 8, 4, 8, 48),
            Listed(Entry(1, 8, Integer, 0), 2, 2, 4, 2, 48),
            Listed(Entry(2, 8, Integer, 0), 3, 2, 4, 2, 48),
        ],
    },
    // rows
    Table {
        draft: Draft {
            types: &[0, 8],
            entries: &[Entry(0, 16, Float, 0), Entry(1, 32, Complex, 0)],
            interleave: Row,
            row_align: 5,
            width: 4,
            height: 3,
            ..PLAIN
        },
        listed: &[
            Listed(Entry(0, 16, Float, 0), 0, 4, 3, 10, 90),
            Listed(Entry(1, 32, Complex, 0), 8, 4, 3, 20, 90),
        ],
    },
];

fn are_listed(rt: &impl Abort, layout: &Layout, listed: &[Listed], note: &impl Display) {
    assert_eq!(rt; layout.entries().len(), listed.len(), "{note}");
    for (i, (entry, expected)) in layout.entries().iter().zip(listed).enumerate() {
        let &Listed(Entry(index, depth, format, align), number, columns, rows, line, tile) =
            expected;
        let note = format_args!("{note}: entry {i}");
        assert_eq!(rt; entry.index, index, "{note}");
        assert_eq!(rt; u16::from(entry.component_type), number, "{note}");
        assert_eq!(rt; entry.format, format, "{note}");
        assert_eq!(rt; entry.depth.0, u64::from(depth), "{note}");
        assert_eq!(rt; entry.align.0, u64::from(align), "{note}");
        assert_eq!(rt; entry.columns, columns, "{note}");
        assert_eq!(rt; entry.rows, rows, "{note}");
        assert_eq!(rt; layout.line_size(i), Some(line), "{note}");
        assert_eq!(rt; layout.tile_size(i), Some(tile), "{note}");
    }
    for position in [listed.len(), usize::MAX] {
        assert_eq!(rt; layout.line_size(position), None, "{note}");
        assert_eq!(rt; layout.tile_size(position), None, "{note}");
    }
}

#[test]
fn grids_lines_and_tiles(rt: HostRuntime) -> Result<(), Fail> {
    for (i, Table { draft, listed }) in TABLES.iter().enumerate() {
        let layout = layout_of(rt.alloc(), draft)?;
        let frame = layout.map(|layout| (layout.width(), layout.height()));
        assert_eq!(rt; frame, Ok((draft.width, draft.height)), "table {i}");
        are_listed(&rt, &layout?, listed, &format_args!("table {i}"));
    }
    Ok(())
}
