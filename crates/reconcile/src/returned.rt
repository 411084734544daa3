// The boxes of a lane, written back and held against what was read.
ghost use Rattle.reconcile.specs.Outcomes.{Outcome};

use boxes::Boxes;
use fault::Fault;
use std::alloc::{AllocError, Global};

// A box that was written to a buffer of its size, with the number of bytes that the write answered.
#[derive(Clone, Copy)]
pub(crate) enum Written {
    Same(usize),
    Different(usize),
    // There was no box to read, and an empty buffer took what was written.
    Absent(usize),
}

fn compared(answer: Result<usize, Fault>, written: &[u8], read: &[u8]) -> Result<Written, Fault>
    ensures { Outcome answer written.now read.now result }
{
    let size = answer?;
    Ok(if written == read {
        Written::Same(size)
    } else {
        Written::Different(size)
    })
}

pub(crate) fn configuration_returned(
    heap: Global,
    boxes: &Boxes,
    read: &[u8],
) -> Result<Result<Written, Fault>, AllocError> {
    let mut out = vec![in heap; 0u8; boxes.configuration.size()]?;
    let answer = boxes.configuration.write(out.as_mut_slice());
    Ok(compared(answer, out.as_slice(), read))
}

fn absent_returned(boxes: &Boxes) -> Result<Written, Fault> {
    boxes.write_definition(&mut []).map(Written::Absent)
}

pub(crate) fn definition_returned(
    heap: Global,
    boxes: &Boxes,
    read: Option<&[u8]>,
) -> Result<Result<Written, Fault>, AllocError> {
    let (Some(definition), Some(read)) = (&boxes.definition, read) else {
        return Ok(absent_returned(boxes));
    };
    let mut out = vec![in heap; 0u8; definition.size()]?;
    let answer = boxes.write_definition(out.as_mut_slice());
    Ok(compared(answer, out.as_slice(), read))
}
