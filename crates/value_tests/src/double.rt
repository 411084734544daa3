// Floats of 64 bits. The tables are what tools/float-codes.c prints.
use crate::case::{no_numbers, stands};
use value::Binary64;

// Zero, smallest and largest subnormal, smallest and largest normal, infinity; then some between.
const NUMBERS: [(f64, u64); 20] = [
    (0.0, 0x0000000000000000),
    (-0.0, 0x8000000000000000),
    (4.9406564584124654e-324, 0x0000000000000001),
    (-4.9406564584124654e-324, 0x8000000000000001),
    (2.2250738585072009e-308, 0x000fffffffffffff),
    (-2.2250738585072009e-308, 0x800fffffffffffff),
    (2.2250738585072014e-308, 0x0010000000000000),
    (-2.2250738585072014e-308, 0x8010000000000000),
    (1.7976931348623157e+308, 0x7fefffffffffffff),
    (-1.7976931348623157e+308, 0xffefffffffffffff),
    (f64::INFINITY, 0x7ff0000000000000),
    (f64::NEG_INFINITY, 0xfff0000000000000),
    (1.0, 0x3ff0000000000000),
    (-1.0, 0xbff0000000000000),
    (0.1, 0x3fb999999999999a),
    (-0.1, 0xbfb999999999999a),
    (1.5, 0x3ff8000000000000),
    (-1.5, 0xbff8000000000000),
    (9007199254740992.0, 0x4340000000000000),
    (-9007199254740992.0, 0xc340000000000000),
];

// Right above infinity, signalling, the highest signalling, the lowest quiet, quiet with a payload, the highest.
const NOT_NUMBERS: [u64; 12] = [
    0x7ff0000000000001,
    0xfff0000000000001,
    0x7ff4000000000000,
    0xfff4000000000000,
    0x7ff7ffffffffffff,
    0xfff7ffffffffffff,
    0x7ff8000000000000,
    0xfff8000000000000,
    0x7ff9dead00c0ffee,
    0xfff9dead00c0ffee,
    0x7fffffffffffffff,
    0xffffffffffffffff,
];

#[test]
fn numbers(rt: HostRuntime) {
    for (value, code) in NUMBERS {
        stands::<Binary64>(&rt, value, code);
    }
}

#[test]
fn not_numbers(rt: HostRuntime) {
    let zero: f64 = 0.0;
    let values = [
        f64::NAN,
        -f64::NAN,
        zero / zero,
        f64::INFINITY - f64::INFINITY,
    ];
    no_numbers::<Binary64>(&rt, &NOT_NUMBERS, &values);
}
