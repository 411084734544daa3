// Layouts with the size of their frames and some of their bits.
use boxes::Boxes;
use fault::Fault;
use layout::Layout;
use placement::Place;
use std::alloc::{AllocError, Global};
use std::fmt::Display;
use std::process::Abort;
use std::test::*;
use test_boxes::Draft;

// The index, the column, the row and the bit of the value; then the byte, and the number of the bit there.
#[derive(Clone, Copy)]
pub(crate) struct Bit(
    pub(crate) u16,
    pub(crate) u64,
    pub(crate) u64,
    pub(crate) u64,
    pub(crate) u64,
    pub(crate) u8,
);

pub(crate) struct Laid {
    pub(crate) draft: Draft<'static>,
    pub(crate) size: u64,
    pub(crate) bits: &'static [Bit],
}

fn layout_of_boxes(
    definition: Option<&[u8]>,
    configuration: &[u8],
    draft: &Draft,
) -> Result<Layout, Fault> {
    let boxes = Boxes::read(definition, configuration)?;
    Layout::new(&boxes, draft.width, draft.height)
}

// The layout of the draft's frame, or how it is refused.
pub(crate) fn layout_of(heap: Global, draft: &Draft) -> Result<Result<Layout, Fault>, AllocError> {
    let given = draft.given(heap)?;
    Ok(layout_of_boxes(given.definition.as_deref(), &given.configuration, draft))
}

// Each of these bits lies there.
pub(crate) fn lie(rt: &impl Abort, layout: &Layout, bits: &[Bit], note: &impl Display) {
    for (i, &Bit(index, column, row, bit, byte, number)) in bits.iter().enumerate() {
        let place = Place { index, column, row };
        assert_eq!(rt;
            layout.locate(place, bit),
            Ok((byte, number)),
            "{note}: bit {i}"
        );
    }
}

pub(crate) fn all(rt: &impl Abort, heap: Global, cases: &[Laid]) -> Result<(), Fail> {
    for (i, laid) in cases.iter().enumerate() {
        let layout = layout_of(heap, &laid.draft)?;
        let size = layout.map(|layout| layout.size());
        assert_eq!(rt; size, Ok(laid.size), "case {i}");
        lie(rt, &layout?, laid.bits, &format_args!("case {i}"));
    }
    Ok(())
}
