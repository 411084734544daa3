// What the rules answer.
use boxes::Boxes;
use fault::{Fault, Layer, Reason};
use rules::check;
use std::alloc::Global;
use std::test::*;
use test_boxes::Draft;

// A rule that is broken, and the position of the entry that breaks it.
pub(crate) type Broken = (Reason, u64);

// Stands for the position where no one entry breaks the rule.
pub(crate) const NO_ENTRY: u64 = 255;

// The refusal that answers a broken rule.
pub(crate) fn refusal((reason, entry): Broken) -> Fault {
    Layer::Configuration.refuses(reason, entry)
}

// The refusal that answers a rule which no one entry breaks.
pub(crate) fn refusal_of_all(reason: Reason) -> Fault {
    refusal((reason, NO_ENTRY))
}

// How the rules refuse the draft's frame, if they do. Both boxes of the draft can be read.
pub(crate) fn refused(heap: Global, draft: &Draft) -> Result<Option<Fault>, Fail> {
    let given = draft.given(heap)?;
    let boxes = Boxes::read(given.definition.as_deref(), &given.configuration)?;
    Ok(check(&boxes, draft.width, draft.height).err())
}
