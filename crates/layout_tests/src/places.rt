// What has no place: which part of the question is named, each from both sides of its edge.
use self::Part::{Bit, Column, Component, Row};
use crate::laid::layout_of;
use boxes::Format::Integer;
use boxes::Sampling::Yuv420;
use fault::{Fault, Layer, Reason};
use placement::Place;
use std::test::*;
use test_boxes::{Draft, Entry, PLAIN};

// Y, U and V of 8, 5 and 64 bits in 4:2:0, at the indexes 1, 0 and 3. The index 2 is defined and not listed.
const DRAFT: Draft<'static> = Draft {
    types: &[2, 1, 7, 3],
    entries: &[
        Entry(1, 8, Integer, 0),
        Entry(3, 64, Integer, 0),
        Entry(0, 5, Integer, 0),
    ],
    sampling: Yuv420,
    tile_columns_less_one: 1,
    tile_rows_less_one: 1,
    width: 8,
    height: 4,
    ..PLAIN
};

// A part of the question where a bit lies.
#[derive(Clone, Copy)]
enum Part {
    Component,
    Column,
    Row,
    Bit,
}

impl Part {
    // How a question is refused of which this part is the first that is wrong.
    fn refusal(self) -> Fault {
        let place = match self {
            Component => 0,
            Column => 1,
            Row => 2,
            Bit => 3,
        };
        Layer::Frame.refuses(Reason::NoSuchPlace, place)
    }
}

// The index, the column, the row and the bit, and the first part that is wrong.
struct Case(u16, u64, u64, u64, Option<Part>);

const CASES: [Case; 43] = [
    // the component
    Case(0, 0, 0, 0, None),
    Case(1, 0, 0, 0, None),
    Case(2, 0, 0, 0, Some(Component)),
    Case(3, 0, 0, 0, None),
    Case(4, 0, 0, 0, Some(Component)),
    Case(256, 0, 0, 0, Some(Component)),
    Case(257, 0, 0, 0, Some(Component)),
    Case(u16::MAX, 0, 0, 0, Some(Component)),
    // the column
    Case(1, 7, 0, 0, None),
    Case(1, 8, 0, 0, Some(Column)),
    Case(0, 3, 0, 0, None),
    Case(0, 4, 0, 0, Some(Column)),
    Case(3, 3, 0, 0, None),
    Case(3, 4, 0, 0, Some(Column)),
    Case(1, 4_294_967_296, 0, 0, Some(Column)),
    Case(1, 9_223_372_036_854_775_808, 0, 0, Some(Column)),
    Case(1, u64::MAX, 0, 0, Some(Column)),
    // the row
    Case(1, 0, 3, 0, None),
    Case(1, 0, 4, 0, Some(Row)),
    Case(0, 0, 1, 0, None),
    Case(0, 0, 2, 0, Some(Row)),
    Case(3, 0, 1, 0, None),
    Case(3, 0, 2, 0, Some(Row)),
    Case(1, 0, 4_294_967_296, 0, Some(Row)),
    Case(1, 0, u64::MAX, 0, Some(Row)),
    // the bit
    Case(1, 0, 0, 7, None),
    Case(1, 0, 0, 8, Some(Bit)),
    Case(0, 0, 0, 4, None),
    Case(0, 0, 0, 5, Some(Bit)),
    Case(3, 0, 0, 63, None),
    Case(3, 0, 0, 64, Some(Bit)),
    Case(1, 0, 0, 4_294_967_296, Some(Bit)),
    Case(1, 0, 0, u64::MAX, Some(Bit)),
    // the last of each component
    Case(0, 3, 1, 4, None),
    Case(1, 7, 3, 7, None),
    Case(3, 3, 1, 63, None),
    // the first part that is wrong
    Case(2, u64::MAX, u64::MAX, u64::MAX, Some(Component)),
    Case(u16::MAX, u64::MAX, u64::MAX, u64::MAX, Some(Component)),
    Case(1, u64::MAX, u64::MAX, u64::MAX, Some(Column)),
    Case(1, 7, u64::MAX, u64::MAX, Some(Row)),
    Case(1, 7, 3, u64::MAX, Some(Bit)),
    Case(1, 8, 0, 8, Some(Column)),
    Case(1, 0, 4, 8, Some(Row)),
];

#[test]
fn no_such_place(rt: HostRuntime) -> Result<(), Fail> {
    let layout = layout_of(rt.alloc(), &DRAFT)??;
    for (i, &Case(index, column, row, bit, wrong)) in CASES.iter().enumerate() {
        let answer = layout.locate(Place { index, column, row }, bit);
        assert_eq!(rt; answer.err(), wrong.map(Part::refusal), "case {i}");
    }
    Ok(())
}
