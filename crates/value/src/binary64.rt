// The floats of 64 bits.
ghost use Rattle.std.specs.Prelude.{true, refl};
ghost use Rattle.std.specs.Float.{binary64};
ghost use Rattle.value.specs.Patterns.{binary64_laws};

use crate::binary::Binary;
use crate::pattern::Pattern;

pub type Binary64 = Binary<f64>;

impl Pattern for f64 {
    const BITS: u16 = 64;

    const SIGN: u64 = 0x8000_0000_0000_0000;

    const INFINITY: u64 = 0x7ff0_0000_0000_0000;

    ghost BITS = { 64 };

    ghost SIGN = { 0x8000_0000_0000_0000 };

    ghost INFINITY = { 0x7ff0_0000_0000_0000 };

    ghost width = { binary64 };

    ghost float = { λ x. x };

    ghost of_float = { λ x. x };

    ghost room = { λ _. true };

    ghost sign_is = { refl };

    ghost infinity_is = { refl };

    ghost laws = { binary64_laws };

    fn has_room(_code: u64) -> bool {
        true
    }

    fn is_number(self) -> bool {
        !self.is_nan()
    }

    fn to_code(self) -> u64 {
        self.to_bits()
    }

    fn of_code(code: u64) -> f64 {
        f64::from_bits(code)
    }
}
