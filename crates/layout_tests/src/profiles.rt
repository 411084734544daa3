// The profiles of version 1: a component is found by its index, wherever it stands in the list.
use crate::laid::{Bit, lie};
use boxes::Boxes;
use layout::Layout;
use std::test::*;

// The box, the bytes of a frame of 2 x 2, and some of its bits.
struct Case {
    configuration: &'static [u8],
    size: u64,
    bits: &'static [Bit],
}

const CASES: [Case; 3] = [
    Case {
        configuration: b"\0\0\0\x10uncC\x01\0\0\0rgb3",
        size: 12,
        bits: &[
            Bit(0, 0, 0, 0, 0, 7),
            Bit(2, 0, 0, 7, 2, 0),
            Bit(0, 1, 0, 0, 3, 7),
            Bit(2, 1, 1, 7, 11, 0),
        ],
    },
    Case {
        configuration: b"\0\0\0\x10uncC\x01\0\0\0rgba",
        size: 16,
        bits: &[
            Bit(0, 0, 0, 0, 0, 7),
            Bit(3, 0, 0, 0, 3, 7),
            Bit(0, 1, 0, 0, 4, 7),
            Bit(3, 1, 1, 7, 15, 0),
        ],
    },
    Case {
        configuration: b"\0\0\0\x10uncC\x01\0\0\0abgr",
        size: 16,
        bits: &[
            Bit(0, 0, 0, 0, 3, 7),
            Bit(3, 0, 0, 0, 0, 7),
            Bit(0, 1, 0, 0, 7, 7),
            Bit(3, 1, 1, 7, 12, 0),
        ],
    },
];

#[test]
fn profiles_by_index(rt: HostRuntime) -> Result<(), Fail> {
    for (i, case) in CASES.iter().enumerate() {
        let boxes = Boxes::read(None, case.configuration)?;
        let layout = Layout::new(&boxes, 2, 2);
        let size = layout.map(|layout| layout.size());
        assert_eq!(rt; size, Ok(case.size), "case {i}");
        lie(&rt, &layout?, case.bits, &format_args!("case {i}"));
    }
    Ok(())
}
