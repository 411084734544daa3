// Floats of 32 bits. The tables are what tools/float-codes.c prints.
use crate::case::{no_numbers, no_value, stands};
use fault::Reason;
use value::Binary32;

// Zero, smallest and largest subnormal, smallest and largest normal, infinity; then some between.
const NUMBERS: [(f32, u64); 20] = [
    (0.0, 0x00000000),
    (-0.0, 0x80000000),
    (1.40129846e-45, 0x00000001),
    (-1.40129846e-45, 0x80000001),
    (1.17549421e-38, 0x007fffff),
    (-1.17549421e-38, 0x807fffff),
    (1.17549435e-38, 0x00800000),
    (-1.17549435e-38, 0x80800000),
    (3.40282347e+38, 0x7f7fffff),
    (-3.40282347e+38, 0xff7fffff),
    (f32::INFINITY, 0x7f800000),
    (f32::NEG_INFINITY, 0xff800000),
    (1.0, 0x3f800000),
    (-1.0, 0xbf800000),
    (0.1, 0x3dcccccd),
    (-0.1, 0xbdcccccd),
    (1.5, 0x3fc00000),
    (-1.5, 0xbfc00000),
    (16777216.0, 0x4b800000),
    (-16777216.0, 0xcb800000),
];

// Right above infinity, signalling, the highest signalling, the lowest quiet, quiet with a payload, the highest.
pub(crate) const NOT_NUMBERS: [u64; 12] = [
    0x7f800001, 0xff800001, 0x7fa00000, 0xffa00000, 0x7fbfffff, 0xffbfffff, 0x7fc00000, 0xffc00000,
    0x7fd1ce55, 0xffd1ce55, 0x7fffffff, 0xffffffff,
];

#[test]
fn numbers(rt: HostRuntime) {
    for (value, code) in NUMBERS {
        stands::<Binary32>(&rt, value, code);
    }
}

#[test]
fn not_numbers(rt: HostRuntime) {
    let zero: f32 = 0.0;
    let values = [
        f32::NAN,
        -f32::NAN,
        zero / zero,
        f32::INFINITY - f32::INFINITY,
    ];
    no_numbers::<Binary32>(&rt, &NOT_NUMBERS, &values);
}

// A code with more than 32 bits, whatever its lower ones spell.
#[test]
fn too_large(rt: HostRuntime) {
    for code in [0x1_0000_0000, 0x1_3f80_0000, 0x1_7fc0_0000, u64::MAX] {
        no_value::<Binary32>(&rt, code, Reason::Code);
    }
}
