// How a box is spoilt, and the refusal that answers it.
use crate::draft::Draft;
use fault::Reason;
use std::alloc::{AllocError, Global};

// Bytes that stand in the box from an offset on, in place of its own.
#[derive(Clone, Copy)]
pub(crate) struct Edit(pub(crate) usize, pub(crate) &'static [u8]);

// The length that the box is cut to, or goes on to with zero bytes, its size saying so; then the edits; then the reason
// and the place.
#[derive(Clone, Copy)]
pub(crate) struct Case(
    pub(crate) usize,
    pub(crate) &'static [Edit],
    pub(crate) Reason,
    pub(crate) u64,
);

impl Case {
    pub(crate) fn spoil(&self, heap: Global, whole: &[u8]) -> Result<Draft, AllocError> {
        let Case(len, edits, _, _) = *self;
        let mut draft = Draft::of(heap, whole)?;
        draft.resize(len)?;
        for &Edit(at, bytes) in edits {
            draft.put(at, bytes);
        }
        Ok(draft)
    }
}

// A valid box, and the offsets of its fields, part by part.
pub(crate) struct Whole {
    pub(crate) bytes: &'static [u8],
    pub(crate) fields: &'static [&'static [usize]],
}

impl Whole {
    // The box cut to a length, which its size says.
    pub(crate) fn cut(&self, heap: Global, len: usize) -> Result<Draft, AllocError> {
        let mut draft = Draft::of(heap, self.bytes)?;
        draft.resize(len)?;
        Ok(draft)
    }

    // The field that does not fit into that many bytes: the last one that begins within them or right after them.
    pub(crate) fn field_cut(&self, len: usize) -> u64 {
        let fields = self.fields.iter().flat_map(|part| part.iter());
        let found = fields.filter(|field| **field <= len).last();
        found.copied().unwrap_or(0) as u64
    }
}
