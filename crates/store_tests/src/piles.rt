// Piles of ends: code over any store works on each.
use crate::expected::{holds, overwritten};
use std::process::Abort;
use store::{Held, Join, Memory, Ramp, Window, copy};

#[test]
fn copies(rt: HostRuntime) {
    let mut buffer = [9; 4];
    let mut memory = Memory::new(&mut buffer);
    for (length, copied, after) in [
        (0, 0, [9, 9, 9, 9]),
        (2, 2, [0, 1, 9, 9]),
        (u64::MAX, 4, [0, 1, 2, 3]),
    ] {
        assert_eq!(rt; copy(&Ramp::new(length), &mut memory), copied);
        holds(&rt, &memory, &after);
    }
}

// A window over a join of windows of memory.
fn pile(rt: &impl Abort, front: &mut [u8], back: &mut [u8]) {
    let left = Window::new(Memory::new(front), 1, 3);
    let right = Window::new(Memory::new(back), 0, 2);
    let mut pile = Window::new(Join::new(left, right), 1, 3);
    overwritten(rt, &mut pile, &[3, 4, 6], &[20, 21, 22]);
}

#[test]
fn piled(rt: HostRuntime) {
    let mut front = [1, 2, 3, 4, 5];
    let mut back = [6, 7, 8];
    pile(&rt, &mut front, &mut back);
    holds(&rt, &Held::new(&front), &[1, 2, 20, 21, 5]);
    holds(&rt, &Held::new(&back), &[22, 7, 8]);
}
