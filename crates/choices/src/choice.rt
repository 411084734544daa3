// The closed choices of the configuration box, each a number in one byte.
ghost use Rattle.std.specs.Prelude.{◌≡◌, ◌<◌, ◌≤◌, ok_or};
ghost use Rattle.choices.specs.Choices.{format_of, format_number, sampling_of, sampling_number, interleave_of, interleave_number, across_of, down_of};

use crate::reserved::Reserved;
use std::fmt;

// What the bits of a value mean.
#[derive(Clone, Copy, Debug, PartialEq, Eq)]
pub enum Format {
    Integer,
    Float,
    Complex,
}

impl TryFrom<u8> for Format {
    type Error = Reserved;

    ghost try_from_gives = { λ number r. r ≡ ok_or (format_of number) (record { 0 = number }) };

    fn try_from(number: u8) -> Result<Format, Reserved> {
        match number {
            0 => Ok(Format::Integer),
            1 => Ok(Format::Float),
            2 => Ok(Format::Complex),
            _ => Err(Reserved(number)),
        }
    }
}

impl From<Format> for u8 {
    ghost from_gives = { λ format number. number ≡ format_number format };

    fn from(format: Format) -> u8 {
        match format {
            Format::Integer => 0,
            Format::Float => 1,
            Format::Complex => 2,
        }
    }
}

impl fmt::Display for Format {
    fn fmt<W: fmt::Write>(&self, f: &mut fmt::Formatter<W>) -> fmt::Result {
        f.pad(match self {
            Format::Integer => "unsigned integer",
            Format::Float => "float",
            Format::Complex => "complex",
        })
    }
}

// How many luma values share one chroma value: none, 4:2:2, 4:2:0 or 4:1:1.
#[derive(Clone, Copy, Debug, PartialEq, Eq)]
pub enum Sampling {
    Full,
    Yuv422,
    Yuv420,
    Yuv411,
}

impl TryFrom<u8> for Sampling {
    type Error = Reserved;

    ghost try_from_gives = { λ number r. r ≡ ok_or (sampling_of number) (record { 0 = number }) };

    fn try_from(number: u8) -> Result<Sampling, Reserved> {
        match number {
            0 => Ok(Sampling::Full),
            1 => Ok(Sampling::Yuv422),
            2 => Ok(Sampling::Yuv420),
            3 => Ok(Sampling::Yuv411),
            _ => Err(Reserved(number)),
        }
    }
}

impl From<Sampling> for u8 {
    ghost from_gives = { λ sampling number. number ≡ sampling_number sampling };

    fn from(sampling: Sampling) -> u8 {
        match sampling {
            Sampling::Full => 0,
            Sampling::Yuv422 => 1,
            Sampling::Yuv420 => 2,
            Sampling::Yuv411 => 3,
        }
    }
}

impl fmt::Display for Sampling {
    fn fmt<W: fmt::Write>(&self, f: &mut fmt::Formatter<W>) -> fmt::Result {
        f.pad(match self {
            Sampling::Full => "none",
            Sampling::Yuv422 => "4:2:2",
            Sampling::Yuv420 => "4:2:0",
            Sampling::Yuv411 => "4:1:1",
        })
    }
}

impl Sampling {
    // How many columns of luma share one value of chroma.
    pub fn across(self) -> u64
        ensures is { result ≡ across_of self }
        ensures some { (0 < result) × (result ≤ 4) }
    {
        match self {
            Sampling::Full => 1,
            Sampling::Yuv422 | Sampling::Yuv420 => 2,
            Sampling::Yuv411 => 4,
        }
    }

    // How many rows of luma share one value of chroma.
    pub fn down(self) -> u64
        ensures is { result ≡ down_of self }
        ensures some { (0 < result) × (result ≤ 2) }
    {
        match self {
            Sampling::Full | Sampling::Yuv422 | Sampling::Yuv411 => 1,
            Sampling::Yuv420 => 2,
        }
    }
}

// In which order the components' values follow one another.
#[derive(Clone, Copy, Debug, PartialEq, Eq)]
pub enum Interleave {
    Component,
    Pixel,
    Mixed,
    Row,
    TileComponent,
    MultiY,
}

impl TryFrom<u8> for Interleave {
    type Error = Reserved;

    ghost try_from_gives = { λ number r. r ≡ ok_or (interleave_of number) (record { 0 = number }) };

    fn try_from(number: u8) -> Result<Interleave, Reserved> {
        match number {
            0 => Ok(Interleave::Component),
            1 => Ok(Interleave::Pixel),
            2 => Ok(Interleave::Mixed),
            3 => Ok(Interleave::Row),
            4 => Ok(Interleave::TileComponent),
            5 => Ok(Interleave::MultiY),
            _ => Err(Reserved(number)),
        }
    }
}

impl From<Interleave> for u8 {
    ghost from_gives = { λ interleave number. number ≡ interleave_number interleave };

    fn from(interleave: Interleave) -> u8 {
        match interleave {
            Interleave::Component => 0,
            Interleave::Pixel => 1,
            Interleave::Mixed => 2,
            Interleave::Row => 3,
            Interleave::TileComponent => 4,
            Interleave::MultiY => 5,
        }
    }
}

impl fmt::Display for Interleave {
    fn fmt<W: fmt::Write>(&self, f: &mut fmt::Formatter<W>) -> fmt::Result {
        f.pad(match self {
            Interleave::Component => "component",
            Interleave::Pixel => "pixel",
            Interleave::Mixed => "mixed",
            Interleave::Row => "row",
            Interleave::TileComponent => "tile-component",
            Interleave::MultiY => "multi-Y",
        })
    }
}
