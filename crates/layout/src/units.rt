// The only two functions that lead from a count of bytes to one of bits, and back.
ghost use Rattle.std.specs.Prelude.{◌≡◌, ◌*◌, ◌/◌, ◌^◌, ◌≤◌};

use plans::{Bits, Bytes};

pub(crate) fn bits_of(bytes: Bytes) -> Bits
    requires { bytes.0 ≤ 2 ^ 60 }
    ensures { result.0 ≡ 8 * bytes.0 }
{
    Bits(8 * bytes.0)
}

// Of a byte that is not full, nothing is counted.
pub(crate) fn whole_bytes(bits: Bits) -> Bytes
    ensures { result.0 ≡ bits.0 / 8 }
{
    Bytes(bits.0 / 8)
}
