// What a layout is made of.
use boxes::{Interleave, Sampling};
use plans::{Entry, Packing};

#[derive(Clone, Copy)]
pub(crate) struct Parts {
    pub width: u32,
    pub height: u32,
    pub sampling: Sampling,
    pub interleave: Interleave,
    pub packing: Packing,
    pub tile_columns: u64,
    pub tile_rows: u64,
    // The table is an array with a count: the library takes no heap, and one entry is lent to the function that settles its grid.
    pub count: usize,
    pub table: [Entry; 16],
}
