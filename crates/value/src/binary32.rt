// The floats of 32 bits.
ghost use Rattle.std.specs.Prelude.{◌^◌, nat_lt, refl};
ghost use Rattle.std.specs.Float.{binary32};
ghost use Rattle.value.specs.Patterns.{binary32_laws};

use crate::binary::Binary;
use crate::pattern::Pattern;

pub type Binary32 = Binary<f32>;

impl Pattern for f32 {
    const BITS: u16 = 32;

    const SIGN: u64 = 0x8000_0000;

    const INFINITY: u64 = 0x7f80_0000;

    ghost BITS = { 32 };

    ghost SIGN = { 0x8000_0000 };

    ghost INFINITY = { 0x7f80_0000 };

    ghost width = { binary32 };

    ghost float = { λ x. x };

    ghost of_float = { λ x. x };

    ghost room = { λ code. nat_lt code (2 ^ 32) };

    ghost sign_is = { refl };

    ghost infinity_is = { refl };

    ghost laws = { binary32_laws };

    fn has_room(code: u64) -> bool {
        code <= u64::from(u32::MAX)
    }

    fn is_number(self) -> bool {
        !self.is_nan()
    }

    fn to_code(self) -> u64 {
        u64::from(self.to_bits())
    }

    fn of_code(code: u64) -> f32 {
        f32::from_bits(code as u32)
    }
}
