// What both boxes say, and the size of a frame.
use boxes::{Format, Interleave, Sampling};

// The index, the depth, the format and the align. An entry is a row of a table, and its fields go by their order there.
#[derive(Clone, Copy)]
pub struct Entry(pub u16, pub u16, pub Format, pub u8);

// Eight bits each of the first three components.
pub const OCTETS: &[Entry] = &[
    Entry(0, 8, Format::Integer, 0),
    Entry(1, 8, Format::Integer, 0),
    Entry(2, 8, Format::Integer, 0),
];

pub const MONO: &[u8] = &[0];

pub const RGB: &[u8] = &[4, 5, 6];

pub const YUV: &[u8] = &[1, 2, 3];

// The bits of the flags byte.
pub struct Flag;

impl Flag {
    pub const COMPONENTS_LITTLE_ENDIAN: u8 = 0x80;

    pub const PAD_LOW: u8 = 0x40;

    pub const BLOCK_LITTLE_ENDIAN: u8 = 0x20;

    pub const BLOCK_REVERSED: u8 = 0x10;

    pub const PAD_UNKNOWN: u8 = 0x08;
}

#[derive(Clone, Copy)]
pub struct Draft<'a> {
    // The types that the definition box defines; where there are none, it is absent.
    pub types: &'a [u8],
    pub entries: &'a [Entry],
    pub sampling: Sampling,
    pub interleave: Interleave,
    pub block: u8,
    pub flags: u8,
    pub pixel_size: u32,
    pub row_align: u32,
    pub tile_align: u32,
    pub tile_columns_less_one: u32,
    pub tile_rows_less_one: u32,
    pub width: u32,
    pub height: u32,
}

// Eight bits of one component in one pixel, and each other field 0.
pub const PLAIN: Draft<'static> = Draft {
    types: MONO,
    entries: &[Entry(0, 8, Format::Integer, 0)],
    sampling: Sampling::Full,
    interleave: Interleave::Component,
    block: 0,
    flags: 0,
    pixel_size: 0,
    row_align: 0,
    tile_align: 0,
    tile_columns_less_one: 0,
    tile_rows_less_one: 0,
    width: 1,
    height: 1,
};
