// A box made by hand. Each is shorter than 256 bytes, so that the last byte of a size holds it.
use std::alloc::{AllocError, Global};

#[derive(Drop)]
pub(crate) struct Draft {
    bytes: Vec<u8>,
}

impl Draft {
    pub(crate) fn of(heap: Global, bytes: &[u8]) -> Result<Draft, AllocError> {
        let mut draft = Draft {
            bytes: Vec::new(heap),
        };
        draft.push(bytes)?;
        Ok(draft)
    }

    pub(crate) fn push(&mut self, bytes: &[u8]) -> Result<(), AllocError> {
        self.bytes.extend_from_slice(bytes)
    }

    // Writes over what stands from an offset on.
    pub(crate) fn put(&mut self, at: usize, bytes: &[u8]) {
        for (old, new) in self.bytes.iter_mut().skip(at).zip(bytes) {
            *old = *new;
        }
    }

    // Cuts the box, or lets it go on with zero bytes, and has its size say so.
    pub(crate) fn resize(&mut self, len: usize) -> Result<(), AllocError> {
        self.bytes.resize(len, 0)?;
        self.seal();
        Ok(())
    }

    // Has the size say how long the box is.
    pub(crate) fn seal(&mut self) {
        let size = (self.bytes.len() % 256) as u8;
        self.put(0, &[0, 0, 0, size]);
    }

    pub(crate) fn bytes(&self) -> &[u8] {
        &self.bytes
    }
}
