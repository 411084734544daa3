// The flags byte of the configuration box, its three lowest bits reserved.
ghost use Rattle.std.specs.Prelude.{◌≡◌, if◌then◌else◌, ok_or};
ghost use Rattle.choices.specs.Flags.{flags_of, flags_byte};

use crate::reserved::Reserved;

#[derive(Clone, Copy, Debug, PartialEq, Eq)]
pub struct Flags {
    pub components_little_endian: bool,
    pub pad_low: bool,
    pub block_little_endian: bool,
    pub block_reversed: bool,
    // What unused bits hold is not known. Kept, and changes no rule.
    pub pad_unknown: bool,
}

impl Flags {
    pub const NONE: Flags = Flags {
        components_little_endian: false,
        pad_low: false,
        block_little_endian: false,
        block_reversed: false,
        pad_unknown: false,
    };
}

impl TryFrom<u8> for Flags {
    type Error = Reserved;

    ghost try_from_gives = { λ byte r. r ≡ ok_or (flags_of byte) (record { 0 = byte }) };

    fn try_from(byte: u8) -> Result<Flags, Reserved> {
        if byte % 8 != 0 {
            return Err(Reserved(byte));
        }
        Ok(Flags {
            components_little_endian: byte / 128 % 2 == 1,
            pad_low: byte / 64 % 2 == 1,
            block_little_endian: byte / 32 % 2 == 1,
            block_reversed: byte / 16 % 2 == 1,
            pad_unknown: byte / 8 % 2 == 1,
        })
    }
}

impl From<Flags> for u8 {
    ghost from_gives = { λ flags byte. byte ≡ flags_byte flags };

    fn from(flags: Flags) -> u8 {
        weight(flags.components_little_endian, 128)
            + weight(flags.pad_low, 64)
            + weight(flags.block_little_endian, 32)
            + weight(flags.block_reversed, 16)
            + weight(flags.pad_unknown, 8)
    }
}

fn weight(flag: bool, of: u8) -> u8
    ensures { result ≡ (if flag then of else 0) }
{
    if flag { of } else { 0 }
}
