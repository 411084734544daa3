// What was wrong. Each reason has a number, by which people and programs name it.
ghost use Rattle.std.specs.Prelude.{◌≡◌};
ghost use Rattle.fault.specs.Faults.{number_of};

use std::fmt;

#[derive(Clone, Copy, Debug, PartialEq, Eq)]
pub enum Reason {
    // A box's size is not its length, a field runs past its end, or bytes are left over.
    Extent,
    // A box is not of the type that was asked for.
    BoxType,
    // A box has a version or flags that are not known.
    Version,
    // A list has no element, or more than sixteen.
    Count,
    // A field holds a value that is reserved.
    Reserved,
    // The definition box is absent in version 0, or present in version 1.
    Presence,
    // A width or a height that no frame has.
    Dimensions,
    // An entry lists an index that is not defined, or once more.
    Index,
    // An entry's depth, type or align does not go with its format.
    Depth,
    // The interleave, the sampling and the list do not go together.
    Interleaving,
    // The block size or a byte order does not go with the entries.
    Blocks,
    // A pixel size, row align or tile align that cannot be.
    Alignment,
    // The tiles do not divide the frame.
    Tiles,
    // A frame has more bytes than 32 bits count.
    FrameSize,
    // A component, column, row or bit that the frame does not have.
    NoSuchPlace,
    // A code has no room in the bits that are to hold it.
    Code,
    // A kind of value does not take a component's format and depth.
    Kind,
    // A byte number is at or past the length.
    Bounds,
    // An output buffer is too short.
    Room,
    // A float, or a part of a complex number, is not a number.
    NotANumber,
}

impl From<Reason> for u8 {
    ghost from_gives = { λ reason number. number ≡ number_of reason };

    fn from(reason: Reason) -> u8 {
        match reason {
            Reason::Extent => 1,
            Reason::BoxType => 2,
            Reason::Version => 3,
            Reason::Count => 4,
            Reason::Reserved => 5,
            Reason::Presence => 6,
            Reason::Dimensions => 7,
            Reason::Index => 8,
            Reason::Depth => 9,
            Reason::Interleaving => 10,
            Reason::Blocks => 11,
            Reason::Alignment => 12,
            Reason::Tiles => 13,
            Reason::FrameSize => 14,
            Reason::NoSuchPlace => 21,
            Reason::Code => 22,
            Reason::Kind => 23,
            Reason::Bounds => 26,
            Reason::Room => 27,
            Reason::NotANumber => 28,
        }
    }
}

// The reason in words, for a person.
impl fmt::Display for Reason {
    fn fmt<W: fmt::Write>(&self, f: &mut fmt::Formatter<W>) -> fmt::Result {
        f.write_str(match self {
            Reason::Extent =>
                "the size is not the length, a field runs past the end, or bytes are left over",
            Reason::BoxType => "not the type word of this box",
            Reason::Version => "a version above 1, or box flags that are not 0",
            Reason::Count => "a count of 0 or above 16",
            Reason::Reserved => "a reserved value",
            Reason::Presence =>
                "the definition box is absent in version 0, or present in version 1",
            Reason::Dimensions => "a width or height outside 1 to 32768",
            Reason::Index => "an index that is not defined, or that was listed before",
            Reason::Depth => "a depth, type or align that does not go with the format",
            Reason::Interleaving => "an interleave that does not go with the sampling and the list",
            Reason::Blocks => "a block size or byte order that does not go with the entries",
            Reason::Alignment => "a pixel size, row align or tile align that cannot be",
            Reason::Tiles => "tiles that do not divide the frame, or its chroma",
            Reason::FrameSize => "a frame of more than 4294967295 bytes",
            Reason::NoSuchPlace => "no such component, column, row or bit",
            Reason::Code => "the code is not below 2 to the depth",
            Reason::Kind => "the kind of value does not take this component",
            Reason::Bounds => "a byte number at or past the length",
            Reason::Room => "the output buffer is too short for this box",
            Reason::NotANumber => "not a number",
        })
    }
}
