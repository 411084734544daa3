// What a value, a code or a component is held to, whatever its kind.
use choices::Format;
use fault::{Layer, Reason};
use std::fmt::Debug;
use std::ops::RangeInclusive;
use std::process::Abort;
use value::{Kind, check_kind, through_code, through_value};

// The value has the code, and each comes back from the other.
pub(crate) fn stands<K: Kind>(rt: &impl Abort, value: K::Value, code: u64)
where
    K::Value: Copy + Debug + PartialEq,
{
    let back = through_code::<K>(value);
    assert_eq!(rt; back.and_then(|v| K::encode(v)), Ok(code), "code {code}");
    assert_eq!(rt; through_value::<K>(code), Ok(code), "code {code}");
    assert_eq!(rt; K::decode(code), Ok(value), "code {code}");
}

// The code has no value.
pub(crate) fn no_value<K: Kind>(rt: &impl Abort, code: u64, reason: Reason) {
    assert_eq!(rt;
        through_value::<K>(code),
        Err(Layer::Frame.refuses(reason, 0)),
        "code {code}"
    );
}

// The value has no code.
pub(crate) fn no_code<K: Kind>(rt: &impl Abort, value: K::Value, reason: Reason) {
    assert_eq!(rt; K::encode(value), Err(Layer::Frame.refuses(reason, 0)));
}

// Neither these codes nor these values are numbers.
pub(crate) fn no_numbers<K: Kind>(rt: &impl Abort, codes: &[u64], values: &[K::Value])
where
    K::Value: Copy,
{
    for &code in codes {
        no_value::<K>(rt, code, Reason::NotANumber);
    }
    for &value in values {
        no_code::<K>(rt, value, Reason::NotANumber);
    }
}

// Of the depths of one format the kind takes these, and it refuses every other component.
pub(crate) fn takes_only<K: Kind>(rt: &impl Abort, format: Format, depths: RangeInclusive<u16>) {
    for depth in 0..258 {
        for other in [Format::Integer, Format::Float, Format::Complex] {
            let taken = other == format && depths.contains(&depth);
            let expected = taken
                .then_some(())
                .ok_or(Layer::Frame.refuses(Reason::Kind, 0));
            assert_eq!(rt; K::takes(other, depth), taken, "depth {depth}");
            assert_eq!(rt; check_kind::<K>(other, depth), expected, "depth {depth}");
        }
    }
}
