// Rule 10: the interleave goes with the sampling, and the list with both.
use crate::answer::{refusal_of_all, refused};
use boxes::Format::{Float, Integer};
use boxes::Interleave::{self, Component, Mixed, MultiY, Pixel, Row, TileComponent};
use boxes::Sampling::{self, Full, Yuv411, Yuv420, Yuv422};
use fault::Reason::{self, Interleaving};
use std::process::Abort;
use std::test::*;
use test_boxes::{Draft, Entry, OCTETS, PLAIN, RGB, YUV};

const Y: Entry = Entry(0, 8, Integer, 0);

const U: Entry = Entry(1, 8, Integer, 0);

const V: Entry = Entry(2, 8, Integer, 0);

// What stands at index 3.
const W: Entry = Entry(3, 8, Integer, 0);

const YUVA: &[u8] = &[1, 2, 3, 7];

// The types, the sampling, the interleave, the list, and the rule where it is broken.
struct Case(
    &'static [u8],
    Sampling,
    Interleave,
    &'static [Entry],
    Option<Reason>,
);

// Every sampling with every interleave.
const PAIRS: [Case; 24] = [
    Case(YUV, Full, Component, OCTETS, None),
    Case(YUV, Full, Pixel, OCTETS, None),
    Case(YUV, Full, Mixed, OCTETS, Some(Interleaving)),
    Case(YUV, Full, Row, OCTETS, None),
    Case(YUV, Full, TileComponent, OCTETS, None),
    Case(YUV, Full, MultiY, OCTETS, Some(Interleaving)),
    Case(YUV, Yuv422, Component, OCTETS, None),
    Case(YUV, Yuv422, Pixel, OCTETS, Some(Interleaving)),
    Case(YUV, Yuv422, Mixed, OCTETS, None),
    Case(YUV, Yuv422, Row, OCTETS, Some(Interleaving)),
    Case(YUV, Yuv422, TileComponent, OCTETS, None),
    Case(YUV, Yuv422, MultiY, &[Y, U, Y, V], None),
    Case(YUV, Yuv420, Component, OCTETS, None),
    Case(YUV, Yuv420, Pixel, OCTETS, Some(Interleaving)),
    Case(YUV, Yuv420, Mixed, OCTETS, None),
    Case(YUV, Yuv420, Row, OCTETS, Some(Interleaving)),
    Case(YUV, Yuv420, TileComponent, OCTETS, None),
    Case(YUV, Yuv420, MultiY, &[Y, U, Y, V], Some(Interleaving)),
    Case(YUV, Yuv411, Component, OCTETS, None),
    Case(YUV, Yuv411, Pixel, OCTETS, Some(Interleaving)),
    Case(YUV, Yuv411, Mixed, OCTETS, Some(Interleaving)),
    Case(YUV, Yuv411, Row, OCTETS, Some(Interleaving)),
    Case(YUV, Yuv411, TileComponent, OCTETS, None),
    Case(YUV, Yuv411, MultiY, &[U, Y, Y, V, Y, Y], None),
];

const LISTS: [Case; 46] = [
    // without sampling anything goes
    Case(RGB, Full, Pixel, OCTETS, None),
    Case(YUV, Full, Pixel, &[Y, U], None),
    // one each of Y, U and V, all listed
    Case(RGB, Yuv422, Component, OCTETS, Some(Interleaving)),
    Case(RGB, Yuv420, Component, OCTETS, Some(Interleaving)),
    Case(RGB, Yuv411, Component, OCTETS, Some(Interleaving)),
    Case(YUV, Yuv422, Component, &[U, V], Some(Interleaving)),
    Case(YUV, Yuv422, Component, &[Y, V], Some(Interleaving)),
    Case(YUV, Yuv422, Component, &[Y, U], Some(Interleaving)),
    Case(YUV, Yuv420, TileComponent, &[U, V], Some(Interleaving)),
    Case(YUV, Yuv420, TileComponent, &[Y, V], Some(Interleaving)),
    Case(YUV, Yuv420, TileComponent, &[Y, U], Some(Interleaving)),
    Case(YUV, Yuv411, Component, &[Y, U], Some(Interleaving)),
    Case(YUV, Yuv422, Component, &[V, U, Y], None),
    Case(YUV, Yuv420, TileComponent, &[V, Y, U], None),
    Case(YUVA, Yuv422, Component, &[Y, U, V, W], None),
    Case(YUVA, Yuv420, TileComponent, &[W, V, U, Y], None),
    Case(YUVA, Yuv411, Component, &[Y, W, U, V], None),
    Case(
        &[1, 2, 3, 1],
        Yuv422,
        Component,
        &[Y, U, V, W],
        Some(Interleaving),
    ),
    Case(
        &[1, 2, 3, 2],
        Yuv420,
        Component,
        &[Y, U, V, W],
        Some(Interleaving),
    ),
    Case(
        &[1, 2, 3, 3],
        Yuv411,
        TileComponent,
        &[Y, U, V, W],
        Some(Interleaving),
    ),
    Case(&[1, 2, 3, 2], Yuv420, Component, &[Y, W, V], None),
    Case(&[1, 2, 3, 1], Yuv422, Component, &[Y, U, V], None),
    // interleave 2
    Case(YUV, Yuv422, Mixed, &[Y, V, U], None),
    Case(YUV, Yuv420, Mixed, &[Y, V, U], None),
    Case(YUV, Yuv422, Mixed, &[U, Y, V], Some(Interleaving)),
    Case(YUV, Yuv420, Mixed, &[U, V, Y], Some(Interleaving)),
    Case(YUVA, Yuv422, Mixed, &[Y, U, V, W], Some(Interleaving)),
    Case(YUVA, Yuv420, Mixed, &[Y, U, V], None),
    Case(YUV, Yuv422, Mixed, &[Y, U], Some(Interleaving)),
    // interleave 5, how many Y
    Case(YUV, Yuv422, MultiY, &[U, Y, V, Y], None),
    Case(YUV, Yuv422, MultiY, &[Y, Y, V, U], None),
    Case(YUV, Yuv422, MultiY, &[Y, U, V], Some(Interleaving)),
    Case(YUV, Yuv422, MultiY, &[Y, U, Y, V, Y], Some(Interleaving)),
    Case(YUV, Yuv422, MultiY, &[Y, Y, U, Y, Y, V], Some(Interleaving)),
    Case(YUV, Yuv422, MultiY, &[Y, U, Y, Y], Some(Interleaving)),
    Case(YUV, Yuv411, MultiY, &[Y, U, Y, V], Some(Interleaving)),
    Case(YUV, Yuv411, MultiY, &[Y, U, Y, V, Y], Some(Interleaving)),
    Case(
        YUV,
        Yuv411,
        MultiY,
        &[Y, Y, U, Y, Y, V, Y],
        Some(Interleaving),
    ),
    // interleave 5, what else
    Case(YUVA, Yuv422, MultiY, &[Y, U, Y, V, W], Some(Interleaving)),
    Case(
        YUVA,
        Yuv411,
        MultiY,
        &[Y, U, Y, V, Y, W],
        Some(Interleaving),
    ),
    Case(
        &[1, 2, 3, 1],
        Yuv422,
        MultiY,
        &[Y, U, W, V],
        Some(Interleaving),
    ),
    Case(
        YUV,
        Yuv422,
        MultiY,
        &[Y, U, Entry(0, 9, Integer, 0), V],
        Some(Interleaving),
    ),
    Case(
        YUV,
        Yuv422,
        MultiY,
        &[Entry(0, 16, Integer, 0), U, Entry(0, 16, Float, 0), V],
        Some(Interleaving),
    ),
    Case(
        YUV,
        Yuv422,
        MultiY,
        &[Y, U, Entry(0, 8, Integer, 2), V],
        Some(Interleaving),
    ),
    Case(
        YUV,
        Yuv411,
        MultiY,
        &[Y, Y, U, Y, Entry(0, 7, Integer, 0), V],
        Some(Interleaving),
    ),
    // U and V need not equal Y
    Case(
        YUV,
        Yuv422,
        MultiY,
        &[Y, Entry(1, 16, Float, 0), Y, Entry(2, 7, Integer, 1)],
        None,
    ),
];

fn all(rt: &(impl Abort + AllocGlobal), cases: &[Case]) -> Result<(), Fail> {
    for (i, &Case(types, sampling, interleave, entries, broken)) in cases.iter().enumerate() {
        let draft = Draft {
            types,
            entries,
            sampling,
            interleave,
            width: 4,
            height: 2,
            ..PLAIN
        };
        let expected = broken.map(refusal_of_all);
        assert_eq!(rt; refused(rt.alloc(), &draft)?, expected, "case {i}");
    }
    Ok(())
}

#[test]
fn interleave_goes_with_sampling_and_list(rt: HostRuntime) -> Result<(), Fail> {
    all(&rt, &PAIRS)?;
    all(&rt, &LISTS)
}
