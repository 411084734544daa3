// Whole numbers.
use crate::case::stands;
use value::Whole;

#[test]
fn own_codes(rt: HostRuntime) {
    for n in [0, 1, 255, 256, 0x7fff_ffff_ffff_ffff, u64::MAX] {
        stands::<Whole>(&rt, n, n);
    }
}
