// Rings, cut at each place.
use crate::expected::{Noted, holds, overwritten};
use std::process::Abort;
use store::{Held, Join, Memory, held_ring, ring};

// Where the frame starts in the ring 1 2 3 4, the frame, and the ring once the frame is 5 6 7 8.
const RINGS: [(usize, &[u8], &[u8]); 6] = [
    (0, &[1, 2, 3, 4], &[5, 6, 7, 8]),
    (1, &[2, 3, 4, 1], &[8, 5, 6, 7]),
    (3, &[4, 1, 2, 3], &[6, 7, 8, 5]),
    (4, &[1, 2, 3, 4], &[5, 6, 7, 8]),
    (5, &[1, 2, 3, 4], &[5, 6, 7, 8]),
    (usize::MAX, &[1, 2, 3, 4], &[5, 6, 7, 8]),
];

fn through_memory(rt: &impl Abort, start: usize, frame: &[u8], after: &[u8]) {
    let mut buffer = [1, 2, 3, 4];
    overwritten(rt, &mut ring(&mut buffer, start), frame, &[5, 6, 7, 8]);
    holds(rt, &Held::new(&buffer), after);
}

#[test]
fn of_memory(rt: HostRuntime) {
    for (start, frame, after) in RINGS {
        through_memory(
            &Noted::new(&rt, format_args!("from {start}")),
            start,
            frame,
            after,
        );
    }
    holds(&rt, &ring(&mut [], 0), &[]);
}

#[test]
fn of_held_bytes(rt: HostRuntime) {
    for (start, frame, _) in RINGS {
        holds(
            &Noted::new(&rt, format_args!("from {start}")),
            &held_ring(&[1, 2, 3, 4], start),
            frame,
        );
    }
    holds(&rt, &held_ring(&[], 1), &[]);
}
