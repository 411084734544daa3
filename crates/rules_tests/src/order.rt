// Of two broken rules the lower number is answered, and of two wrong entries the first.
use crate::answer::{Broken, NO_ENTRY, refusal, refused};
use boxes::Format::{Float, Integer};
use boxes::Interleave::{Mixed, Pixel};
use boxes::Sampling;
use fault::Reason::{Alignment, Blocks, Depth, Dimensions, Index, Interleaving, Presence, Tiles};
use std::test::*;
use test_boxes::{Draft, Entry, OCTETS, PLAIN, YUV};

// The boxes, and the rule where one is broken.
struct Case(Draft<'static>, Option<Broken>);

// Every draft here has chroma of half the size.
const SAMPLED: Draft<'static> = Draft {
    sampling: Sampling::Yuv420,
    width: 4,
    height: 4,
    ..PLAIN
};

// The second entry has an index that is not defined, the third a depth that no integer has.
const WRONG: &[Entry] = &[
    Entry(0, 8, Integer, 0),
    Entry(3, 8, Integer, 0),
    Entry(2, 65, Integer, 0),
];

const DEEP: &[Entry] = &[
    Entry(0, 8, Integer, 0),
    Entry(1, 8, Integer, 0),
    Entry(2, 65, Integer, 0),
];

const CASES: [Case; 14] = [
    // every rule is broken, and from case to case one less
    Case(
        Draft {
            types: &[],
            entries: WRONG,
            interleave: Pixel,
            block: 9,
            row_align: 65_537,
            width: 0,
            height: 3,
            ..SAMPLED
        },
        Some((Presence, NO_ENTRY)),
    ),
    Case(
        Draft {
            types: YUV,
            entries: WRONG,
            interleave: Pixel,
            block: 9,
            row_align: 65_537,
            width: 0,
            height: 3,
            ..SAMPLED
        },
        Some((Dimensions, NO_ENTRY)),
    ),
    Case(
        Draft {
            types: YUV,
            entries: WRONG,
            interleave: Pixel,
            block: 9,
            row_align: 65_537,
            width: 3,
            height: 3,
            ..SAMPLED
        },
        Some((Index, 1)),
    ),
    Case(
        Draft {
            types: YUV,
            entries: DEEP,
            interleave: Pixel,
            block: 9,
            row_align: 65_537,
            width: 3,
            height: 3,
            ..SAMPLED
        },
        Some((Depth, 2)),
    ),
    Case(
        Draft {
            types: YUV,
            entries: OCTETS,
            interleave: Pixel,
            block: 9,
            row_align: 65_537,
            width: 3,
            height: 3,
            ..SAMPLED
        },
        Some((Interleaving, NO_ENTRY)),
    ),
    Case(
        Draft {
            types: YUV,
            entries: OCTETS,
            interleave: Mixed,
            block: 9,
            row_align: 65_537,
            width: 3,
            height: 3,
            ..SAMPLED
        },
        Some((Blocks, NO_ENTRY)),
    ),
    Case(
        Draft {
            types: YUV,
            entries: OCTETS,
            interleave: Mixed,
            block: 1,
            row_align: 65_537,
            width: 3,
            height: 3,
            ..SAMPLED
        },
        Some((Alignment, NO_ENTRY)),
    ),
    Case(
        Draft {
            types: YUV,
            entries: OCTETS,
            interleave: Mixed,
            block: 1,
            row_align: 65_536,
            width: 3,
            height: 3,
            ..SAMPLED
        },
        Some((Tiles, NO_ENTRY)),
    ),
    Case(
        Draft {
            types: YUV,
            entries: OCTETS,
            interleave: Mixed,
            block: 1,
            row_align: 65_536,
            ..SAMPLED
        },
        None,
    ),
    // an index in the last entry comes before a depth in the first
    Case(
        Draft {
            types: YUV,
            entries: &[
                Entry(0, 65, Integer, 0),
                Entry(1, 8, Integer, 0),
                Entry(0, 8, Integer, 0),
            ],
            interleave: Mixed,
            ..SAMPLED
        },
        Some((Index, 2)),
    ),
    // the first of two wrong indexes
    Case(
        Draft {
            types: YUV,
            entries: &[
                Entry(0, 8, Integer, 0),
                Entry(4, 8, Integer, 0),
                Entry(3, 8, Integer, 0),
            ],
            interleave: Mixed,
            ..SAMPLED
        },
        Some((Index, 1)),
    ),
    // the first of two wrong depths
    Case(
        Draft {
            types: YUV,
            entries: &[
                Entry(0, 65, Integer, 0),
                Entry(1, 8, Integer, 0),
                Entry(2, 65, Integer, 0),
            ],
            interleave: Mixed,
            ..SAMPLED
        },
        Some((Depth, 0)),
    ),
    Case(
        Draft {
            types: YUV,
            entries: &[
                Entry(0, 8, Integer, 0),
                Entry(1, 8, Integer, 9),
                Entry(2, 8, Float, 0),
            ],
            interleave: Mixed,
            ..SAMPLED
        },
        Some((Depth, 1)),
    ),
    Case(
        Draft {
            types: YUV,
            entries: &[
                Entry(0, 8, Integer, 0),
                Entry(1, 8, Integer, 0),
                Entry(2, 8, Integer, 1),
            ],
            interleave: Mixed,
            ..SAMPLED
        },
        Some((Depth, 2)),
    ),
];

#[test]
fn lower_number_and_first_entry(rt: HostRuntime) -> Result<(), Fail> {
    for (i, Case(draft, broken)) in CASES.iter().enumerate() {
        assert_eq!(rt;
            refused(rt.alloc(), draft)?,
            broken.map(refusal),
            "case {i}"
        );
    }
    Ok(())
}
