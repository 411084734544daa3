// Which components each kind takes.
use crate::case::takes_only;
use choices::Format;
use value::{Binary32, Binary64, ComplexBinary32, Whole};

#[test]
fn taken(rt: HostRuntime) {
    takes_only::<Whole>(&rt, Format::Integer, 1..=64);
    takes_only::<Binary32>(&rt, Format::Float, 32..=32);
    takes_only::<Binary64>(&rt, Format::Float, 64..=64);
    takes_only::<ComplexBinary32>(&rt, Format::Complex, 64..=64);
}
