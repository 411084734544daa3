// A float as the pattern of its bits, for either width.
ghost use Rattle.std.specs.Prelude.{◌≡◌, ℕ, ◌*◌, Bool, not, T, is_nan, from_bits, to_bits, Float};
ghost use Rattle.std.specs.Float.{Format as Width};
ghost use Rattle.std.specs.Float.Ieee.{fits, hid, nan_bits, ones, top};
ghost use Rattle.value.specs.Patterns.{PatternLaws};

pub(crate) trait Pattern: Copy {
    // How many bits a pattern has.
    const BITS: u16;

    // The weight of the sign's bit.
    const SIGN: u64;

    // The pattern of infinity. Above it, the sign left out, lies every pattern that is not a number.
    const INFINITY: u64;

    ghost BITS: { ℕ };

    ghost SIGN: { ℕ };

    ghost INFINITY: { ℕ };

    ghost width: { Width };

    // A value as a clause sees a float, and back.
    ghost float: { Self → Float };

    ghost of_float: { Float → Self };

    // Which codes have no more bits than a pattern.
    ghost room: { ℕ → Bool };

    fn has_room(code: u64) -> bool
        ensures { result ≡ room code };

    fn is_number(self) -> bool
        ensures number { result ≡ not (is_nan (float self)) }
        ensures held { T (fits width (float self)) };

    fn to_code(self) -> u64
        requires { T (not (is_nan (float self))) }
        ensures { result ≡ to_bits width (float self) };

    fn of_code(code: u64) -> Self
        requires room { T (room code) }
        requires number { T (not (nan_bits width code)) }
        ensures { result ≡ of_float (from_bits width code) };

    ghost sign_is: { SIGN ≡ top width };

    ghost infinity_is: { INFINITY ≡ ones width * hid width };

    ghost laws: { PatternLaws width float of_float room };
}
