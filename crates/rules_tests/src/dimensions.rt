// Rule 7: a width and a height of 1 to 32,768.
use crate::answer::{refusal_of_all, refused};
use boxes::Interleave;
use fault::Reason::{self, Dimensions};
use std::test::*;
use test_boxes::{Draft, OCTETS, PLAIN, RGB};

// The width, the height, and the rule where it is broken.
struct Case(u32, u32, Option<Reason>);

const CASES: [Case; 14] = [
    Case(1, 1, None),
    Case(0, 1, Some(Dimensions)),
    Case(1, 0, Some(Dimensions)),
    Case(0, 0, Some(Dimensions)),
    Case(32_768, 1, None),
    Case(1, 32_768, None),
    Case(32_768, 32_768, None),
    Case(32_769, 1, Some(Dimensions)),
    Case(1, 32_769, Some(Dimensions)),
    Case(32_769, 32_769, Some(Dimensions)),
    Case(65_537, 1, Some(Dimensions)),
    Case(1, 65_537, Some(Dimensions)),
    Case(u32::MAX, 1, Some(Dimensions)),
    Case(1, u32::MAX, Some(Dimensions)),
];

#[test]
fn sides(rt: HostRuntime) -> Result<(), Fail> {
    for &Case(width, height, broken) in &CASES {
        let draft = Draft {
            types: RGB,
            entries: OCTETS,
            interleave: Interleave::Pixel,
            width,
            height,
            ..PLAIN
        };
        let expected = broken.map(refusal_of_all);
        assert_eq!(rt;
            refused(rt.alloc(), &draft)?,
            expected,
            "{width} by {height}"
        );
    }
    Ok(())
}
