// How the values of a line are packed.
use crate::units::Bytes;

// A block of 0 bytes says that there are none, as it does in the box and in the rules: an Option would say so twice, and
// have to rule out the block of 0 bytes.
#[derive(Clone, Copy, Debug, PartialEq, Eq)]
pub struct Blocks {
    pub bytes: Bytes,
    pub little: bool,
    pub pad_low: bool,
    pub reversed: bool,
}

#[derive(Clone, Copy, Debug, PartialEq, Eq)]
pub struct Packing {
    // Words of a component's own have their low byte first.
    pub little: bool,
    pub blocks: Blocks,
    // The bytes of a pixel, and what lines and tiles are rounded up to; 0 where there is no such size, as in the box:
    // a rounding by 0 is none, so that an Option would be taken apart to the same number.
    pub pixel: Bytes,
    pub row_align: Bytes,
    pub tile_align: Bytes,
}
