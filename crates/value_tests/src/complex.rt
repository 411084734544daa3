// Complex numbers. The table is what tools/float-codes.c prints.
use crate::case::{no_code, no_value, stands};
use crate::single::NOT_NUMBERS;
use fault::Reason;
use value::{Complex, ComplexBinary32};

// The real part, the imaginary part, and the code.
const NUMBERS: [(f32, f32, u64); 7] = [
    (1.0, 0.1, 0x3f8000003dcccccd),
    (0.1, 1.0, 0x3dcccccd3f800000),
    (0.0, -0.0, 0x0000000080000000),
    (-0.0, 0.0, 0x8000000000000000),
    (f32::INFINITY, -3.40282347e+38, 0x7f800000ff7fffff),
    (f32::NEG_INFINITY, 1.40129846e-45, 0xff80000000000001),
    (-1.0, 1.17549421e-38, 0xbf800000007fffff),
];

#[test]
fn numbers(rt: HostRuntime) {
    for (re, im, code) in NUMBERS {
        stands::<ComplexBinary32>(&rt, Complex { re, im }, code);
    }
}

// The bits of the number 1.
const ONE: u64 = 0x3f80_0000;

// One part, or both, is not a number.
#[test]
fn not_numbers(rt: HostRuntime) {
    for bits in NOT_NUMBERS {
        for code in [bits << 32 | ONE, ONE << 32 | bits, bits << 32 | bits] {
            no_value::<ComplexBinary32>(&rt, code, Reason::NotANumber);
        }
    }
    for (re, im) in [(f32::NAN, 1.0), (1.0, f32::NAN), (f32::NAN, -f32::NAN)] {
        no_code::<ComplexBinary32>(&rt, Complex { re, im }, Reason::NotANumber);
    }
}
