// Sources, at their edges.
use crate::blank::Blank;
use crate::expected::{Noted, holds, refused_at};
use std::process::Abort;
use std::test::Fail;
use store::{Held, Join, LIMIT, Ramp, Source, Window, same_bytes};

const BYTES: [u8; 5] = [10, 11, 12, 13, 14];

#[test]
fn held(rt: HostRuntime) {
    holds(&rt, &Held::new(&[]), &[]);
    holds(&rt, &Held::new(&BYTES), &BYTES);
    holds(&rt, &Held::new(Held::new(&BYTES).release()), &BYTES);
}

#[test]
fn ramp(rt: HostRuntime) -> Result<(), Fail> {
    holds(&rt, &Ramp::new(0), &[]);
    holds(&rt, &Ramp::new(3), &[0, 1, 2]);
    let ramp = Ramp::new(1000);
    for (at, byte) in [(250, 250), (251, 0), (252, 1), (999, 246)] {
        assert_eq!(rt; ramp.read(at)?, byte);
    }
    assert_eq!(rt; Ramp::new(u64::MAX).release(), u64::MAX);
    Ok(())
}

// A source that is as long as a source can be.
fn is_longest<S: Source>(rt: &impl Abort, source: &S, last: u8) {
    assert_eq!(rt; source.len(), LIMIT);
    assert_eq!(rt; source.read(LIMIT - 1), Ok(last));
    refused_at(rt, source.read(LIMIT), LIMIT);
    refused_at(rt, source.read(u64::MAX), u64::MAX);
}

#[test]
fn cut_at_the_limit(rt: HostRuntime) {
    let longest = Ramp::new(u64::MAX);
    is_longest(&rt, &longest, ((LIMIT - 1) % 251) as u8);
    is_longest(&rt, &Join::new(longest, longest), ((LIMIT - 1) % 251) as u8);
    is_longest(
        &rt,
        &Join::new(Ramp::new(10), longest),
        ((LIMIT - 11) % 251) as u8,
    );
    is_longest(
        &rt,
        &Window::new(longest, 0, u64::MAX),
        ((LIMIT - 1) % 251) as u8,
    );
    holds(&rt, &Window::new(longest, LIMIT, u64::MAX), &[]);
    holds(&rt, &Window::new(longest, u64::MAX, u64::MAX), &[]);
}

// Where a window over the five bytes starts, how long it is to be, and what it has.
const WINDOWS: [(u64, u64, &[u8]); 8] = [
    (0, 0, &[]),
    (0, 5, &BYTES),
    (1, 3, &[11, 12, 13]),
    (4, 1, &[14]),
    (4, 2, &[14]),
    (3, u64::MAX, &[13, 14]),
    (5, 1, &[]),
    (u64::MAX, u64::MAX, &[]),
];

#[test]
fn window(rt: HostRuntime) {
    let below = Held::new(&BYTES);
    for (start, count, bytes) in WINDOWS {
        holds(
            &Noted::new(&rt, format_args!("{count} from {start}")),
            &Window::new(&below, start, count),
            bytes,
        );
    }
    holds(&rt, &Window::new(below, 1, 2).release(), &BYTES);
}

#[test]
fn join(rt: HostRuntime) {
    let none: &[u8] = &[];
    for seam in 0..6 {
        let (first, second) = BYTES.split_at(seam);
        holds(&rt, &Join::new(Held::new(first), Held::new(second)), &BYTES);
    }
    holds(&rt, &Join::new(Held::new(none), Held::new(none)), none);
    let (first, second) = Join::new(Held::new(&BYTES), Ramp::new(2)).release();
    holds(&rt, &first, &BYTES);
    holds(&rt, &second, &[0, 1]);
}

#[test]
fn of_ones_own(rt: HostRuntime) {
    holds(&rt, &Blank { count: 0 }, &[]);
    holds(&rt, &Blank { count: 2 }, &[0, 0]);
    is_longest(&rt, &Blank { count: u32::MAX }, 0);
}

#[test]
fn sameness(rt: HostRuntime) {
    let bytes = Held::new(&BYTES);
    assert!(rt; same_bytes(&bytes, &Window::new(&bytes, 0, 9)));
    assert!(rt; same_bytes(&Held::new(&[]), &Ramp::new(0)));
    assert!(rt; !same_bytes(&bytes, &Window::new(&bytes, 0, 4)));
    assert!(rt; !same_bytes(&bytes, &Ramp::new(5)));
    assert!(rt; !same_bytes(&bytes, &Held::new(&[9, 11, 12, 13, 14])));
    assert!(rt; !same_bytes(&bytes, &Held::new(&[10, 11, 12, 13, 15])));
}
