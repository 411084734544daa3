// Rule 9: a depth that its format has, an integer palette, and a word with more bits than the value.
use crate::answer::{refusal, refused};
use boxes::Format::{self, Complex, Float, Integer};
use fault::Reason::{self, Depth};
use std::test::*;
use test_boxes::{Draft, Entry, PLAIN};

// The type, the depth, the format, the align, and the rule where it is broken.
struct Case(u8, u16, Format, u8, Option<Reason>);

const CASES: [Case; 61] = [
    // integers
    Case(0, 1, Integer, 0, None),
    Case(0, 64, Integer, 0, None),
    Case(0, 65, Integer, 0, Some(Depth)),
    Case(0, 128, Integer, 0, Some(Depth)),
    Case(0, 256, Integer, 0, Some(Depth)),
    // floats
    Case(0, 1, Float, 0, Some(Depth)),
    Case(0, 8, Float, 0, Some(Depth)),
    Case(0, 15, Float, 0, Some(Depth)),
    Case(0, 16, Float, 0, None),
    Case(0, 17, Float, 0, Some(Depth)),
    Case(0, 24, Float, 0, Some(Depth)),
    Case(0, 31, Float, 0, Some(Depth)),
    Case(0, 32, Float, 0, None),
    Case(0, 33, Float, 0, Some(Depth)),
    Case(0, 48, Float, 0, Some(Depth)),
    Case(0, 63, Float, 0, Some(Depth)),
    Case(0, 64, Float, 0, None),
    Case(0, 65, Float, 0, Some(Depth)),
    Case(0, 128, Float, 0, Some(Depth)),
    Case(0, 256, Float, 0, Some(Depth)),
    // complex numbers
    Case(0, 8, Complex, 0, Some(Depth)),
    Case(0, 16, Complex, 0, Some(Depth)),
    Case(0, 31, Complex, 0, Some(Depth)),
    Case(0, 32, Complex, 0, None),
    Case(0, 33, Complex, 0, Some(Depth)),
    Case(0, 48, Complex, 0, Some(Depth)),
    Case(0, 63, Complex, 0, Some(Depth)),
    Case(0, 64, Complex, 0, None),
    Case(0, 65, Complex, 0, Some(Depth)),
    Case(0, 128, Complex, 0, Some(Depth)),
    Case(0, 256, Complex, 0, Some(Depth)),
    // a palette, and the types next to it
    Case(10, 8, Integer, 0, None),
    Case(10, 32, Integer, 0, None),
    Case(10, 32, Float, 0, Some(Depth)),
    Case(10, 32, Complex, 0, Some(Depth)),
    Case(9, 32, Float, 0, None),
    Case(11, 32, Float, 0, None),
    Case(9, 32, Complex, 0, None),
    Case(11, 32, Complex, 0, None),
    // align
    Case(0, 1, Integer, 1, None),
    Case(0, 7, Integer, 1, None),
    Case(0, 8, Integer, 1, Some(Depth)),
    Case(0, 9, Integer, 1, Some(Depth)),
    Case(0, 15, Integer, 2, None),
    Case(0, 16, Integer, 2, Some(Depth)),
    Case(0, 1, Integer, 8, None),
    Case(0, 63, Integer, 8, None),
    Case(0, 64, Integer, 8, Some(Depth)),
    Case(0, 1, Integer, 9, Some(Depth)),
    Case(0, 64, Integer, 9, Some(Depth)),
    Case(0, 8, Integer, 32, Some(Depth)),
    Case(0, 8, Integer, 33, Some(Depth)),
    Case(0, 8, Integer, 255, Some(Depth)),
    Case(0, 16, Float, 2, Some(Depth)),
    Case(0, 16, Float, 3, None),
    Case(0, 32, Float, 4, Some(Depth)),
    Case(0, 32, Float, 5, None),
    Case(0, 64, Float, 8, Some(Depth)),
    Case(0, 32, Complex, 4, Some(Depth)),
    Case(0, 32, Complex, 8, None),
    Case(10, 7, Integer, 1, None),
];

#[test]
fn depth_goes_with_format(rt: HostRuntime) -> Result<(), Fail> {
    for (i, &Case(number, depth, format, align, broken)) in CASES.iter().enumerate() {
        // The entry of the case stands second of three.
        let draft = Draft {
            types: &[number, 4, 5],
            entries: &[
                Entry(1, 8, Integer, 0),
                Entry(0, depth, format, align),
                Entry(2, 8, Integer, 0),
            ],
            ..PLAIN
        };
        let expected = broken.map(|reason| refusal((reason, 1)));
        assert_eq!(rt; refused(rt.alloc(), &draft)?, expected, "case {i}");
    }
    Ok(())
}
