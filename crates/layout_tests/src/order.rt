// Every rule of the configuration is asked of a layout, in the order of the numbers: the lowest that is broken is answered.
use crate::laid::layout_of;
use boxes::Format::Integer;
use boxes::Interleave::Pixel;
use boxes::Sampling::Yuv420;
use fault::Reason::{
    self, Alignment, Blocks, Depth, Dimensions, FrameSize, Index, Interleaving, Presence, Tiles,
};
use fault::{Fault, Layer};
use std::test::*;
use test_boxes::{Draft, Entry, OCTETS, PLAIN, YUV};

// A rule that is broken, and the position of the entry that breaks it.
type Broken = (Reason, u64);

// Stands for the position where no one entry breaks the rule.
const NO_ENTRY: u64 = 255;

// The boxes, and the rule where one is broken.
struct Case(Draft<'static>, Option<Broken>);

fn refusal((reason, entry): Broken) -> Fault {
    Layer::Configuration.refuses(reason, entry)
}

// The second entry has an index that is not defined, the third a depth that no integer has.
const WRONG: &[Entry] = &[
    Entry(0, 8, Integer, 0),
    Entry(3, 8, Integer, 0),
    Entry(2, 65, Integer, 0),
];

const DEEP: &[Entry] = &[
    Entry(0, 8, Integer, 0),
    Entry(1, 8, Integer, 0),
    Entry(2, 65, Integer, 0),
];

// From case to case one broken rule less, in sampling 2.
const CASES: [Case; 10] = [
    Case(
        Draft {
            types: &[],
            entries: WRONG,
            sampling: Yuv420,
            interleave: Pixel,
            block: 9,
            row_align: 65_537,
            width: 0,
            height: 32_767,
            ..PLAIN
        },
        Some((Presence, NO_ENTRY)),
    ),
    Case(
        Draft {
            types: YUV,
            entries: WRONG,
            sampling: Yuv420,
            interleave: Pixel,
            block: 9,
            row_align: 65_537,
            width: 0,
            height: 32_767,
            ..PLAIN
        },
        Some((Dimensions, NO_ENTRY)),
    ),
    Case(
        Draft {
            types: YUV,
            entries: WRONG,
            sampling: Yuv420,
            interleave: Pixel,
            block: 9,
            row_align: 65_537,
            width: 2,
            height: 32_767,
            ..PLAIN
        },
        Some((Index, 1)),
    ),
    Case(
        Draft {
            types: YUV,
            entries: DEEP,
            sampling: Yuv420,
            interleave: Pixel,
            block: 9,
            row_align: 65_537,
            width: 2,
            height: 32_767,
            ..PLAIN
        },
        Some((Depth, 2)),
    ),
    Case(
        Draft {
            types: YUV,
            entries: OCTETS,
            sampling: Yuv420,
            interleave: Pixel,
            block: 9,
            row_align: 65_537,
            width: 2,
            height: 32_767,
            ..PLAIN
        },
        Some((Interleaving, NO_ENTRY)),
    ),
    Case(
        Draft {
            types: YUV,
            entries: OCTETS,
            sampling: Yuv420,
            block: 9,
            row_align: 65_537,
            width: 2,
            height: 32_767,
            ..PLAIN
        },
        Some((Blocks, NO_ENTRY)),
    ),
    Case(
        Draft {
            types: YUV,
            entries: OCTETS,
            sampling: Yuv420,
            block: 1,
            row_align: 65_537,
            width: 2,
            height: 32_767,
            ..PLAIN
        },
        Some((Alignment, NO_ENTRY)),
    ),
    Case(
        Draft {
            types: YUV,
            entries: OCTETS,
            sampling: Yuv420,
            block: 1,
            row_align: 65_536,
            width: 2,
            height: 32_767,
            ..PLAIN
        },
        Some((Tiles, NO_ENTRY)),
    ),
    Case(
        Draft {
            types: YUV,
            entries: OCTETS,
            sampling: Yuv420,
            block: 1,
            row_align: 65_536,
            width: 2,
            height: 32_768,
            ..PLAIN
        },
        Some((FrameSize, NO_ENTRY)),
    ),
    Case(
        Draft {
            types: YUV,
            entries: OCTETS,
            sampling: Yuv420,
            block: 1,
            row_align: 65_536,
            width: 2,
            height: 32_766,
            ..PLAIN
        },
        None,
    ),
];

#[test]
fn lower_number_first(rt: HostRuntime) -> Result<(), Fail> {
    for (i, Case(draft, broken)) in CASES.iter().enumerate() {
        let answer = layout_of(rt.alloc(), draft)?.err();
        assert_eq!(rt; answer, broken.map(refusal), "case {i}");
    }
    Ok(())
}

// The depth, the align, and the rule where it is broken.
struct Word(u16, u8, Option<Reason>);

const WORDS: [Word; 6] = [
    Word(7, 1, None),
    Word(8, 1, Some(Depth)),
    Word(15, 2, None),
    Word(16, 2, Some(Depth)),
    Word(63, 8, None),
    Word(64, 8, Some(Depth)),
];

#[test]
fn word_has_more_bits_than_its_value(rt: HostRuntime) -> Result<(), Fail> {
    for &Word(depth, align, broken) in &WORDS {
        let draft = Draft {
            entries: &[Entry(0, depth, Integer, align)],
            ..PLAIN
        };
        let answer = layout_of(rt.alloc(), &draft)?.err();
        let expected = broken.map(|reason| refusal((reason, 0)));
        assert_eq!(rt; answer, expected, "depth {depth}, align {align}");
    }
    Ok(())
}
