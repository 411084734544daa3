// The words that stand for a whole configuration, in a box of version 1.
ghost use Rattle.std.specs.Prelude.{◌≡◌, ◌≤◌, length, ok_or};
ghost use Rattle.std.specs.Option.{option_map};
ghost use Rattle.choices.specs.ComponentTypes.{type_numbered};
ghost use Rattle.configuration.specs.Profiles.{profile_of, profile_word, profile_listing, profile_type, octet_of, plain_listing};

use crate::entry::Entry;
use crate::listing::{Listing, Packing, Sizes};
use choices::{ComponentType, Flags, Format, Interleave, Sampling};
use fields::Table;
use std::error::Error;
use std::fmt;

#[derive(Clone, Copy, Debug, PartialEq, Eq)]
pub enum Profile {
    Rgb3,
    Rgba,
    Abgr,
}

// A word that stands for no profile.
#[derive(Clone, Copy, Debug, PartialEq, Eq)]
pub struct UnknownWord(pub u32);

impl fmt::Display for UnknownWord {
    fn fmt<W: fmt::Write>(&self, f: &mut fmt::Formatter<W>) -> fmt::Result {
        write!(f, "the word {} stands for no profile", self.0)
    }
}

impl Error for UnknownWord {}

impl TryFrom<u32> for Profile {
    type Error = UnknownWord;

    ghost try_from_gives = { λ word r. r ≡ ok_or (profile_of word) (record { 0 = word }) };

    fn try_from(word: u32) -> Result<Profile, UnknownWord> {
        match word {
            0x7267_6233 => Ok(Profile::Rgb3),
            0x7267_6261 => Ok(Profile::Rgba),
            0x6162_6772 => Ok(Profile::Abgr),
            _ => Err(UnknownWord(word)),
        }
    }
}

impl From<Profile> for u32 {
    ghost from_gives = { λ profile word. word ≡ profile_word profile };

    fn from(profile: Profile) -> u32 {
        match profile {
            Profile::Rgb3 => 0x7267_6233,
            Profile::Rgba => 0x7267_6261,
            Profile::Abgr => 0x6162_6772,
        }
    }
}

impl Profile {
    // The list that the word stands for.
    pub(crate) fn listing(self) -> Listing
        ensures { result ≡ profile_listing self }
    {
        let word = u32::from(self);
        match self {
            Profile::Rgb3 => plain(word, &[octet(0), octet(1), octet(2)]),
            Profile::Rgba => plain(word, &[octet(0), octet(1), octet(2), octet(3)]),
            Profile::Abgr => plain(word, &[octet(3), octet(2), octet(1), octet(0)]),
        }
    }

    // The type of a component that the word defines: R, G, B and, but for `rgb3`, alpha.
    pub fn component_type(self, index: u16) -> Option<ComponentType>
        ensures { result ≡ option_map type_numbered (profile_type self index) }
    {
        let count = match self {
            Profile::Rgb3 => 3,
            Profile::Rgba => 4,
            Profile::Abgr => 4,
        };
        if index < count {
            Some(ComponentType::from(4 + index))
        } else {
            None
        }
    }
}

// Eight bits of the component with this index.
fn octet(index: u16) -> Entry
    ensures { result ≡ octet_of index }
{
    Entry {
        index,
        depth_less_one: 7,
        format: Format::Integer,
        align: 0,
    }
}

// Interleaved by pixel, with nothing else said.
fn plain(profile: u32, entries: &[Entry]) -> Listing
    requires { length entries.now ≤ 16 }
    ensures { result ≡ plain_listing profile entries.now }
{
    Listing {
        profile,
        entries: Table::of(entries),
        packing: Packing {
            sampling: Sampling::Full,
            interleave: Interleave::Pixel,
            block: 0,
            flags: Flags::NONE,
        },
        sizes: Sizes {
            pixel_size: 0,
            row_align: 0,
            tile_align: 0,
            tile_columns_less_one: 0,
            tile_rows_less_one: 0,
        },
    }
}
