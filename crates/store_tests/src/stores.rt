// Stores, at their edges.
use crate::expected::{holds, refused_at, takes};
use crate::lending::{put, taken_back};
use std::test::Fail;
use store::{Held, Join, Memory, Window};

#[test]
fn memory(rt: HostRuntime) {
    let mut buffer = [1, 2, 3];
    takes(&rt, &mut Memory::new(&mut buffer), &mut [1, 2, 3]);
    holds(&rt, &Held::new(&buffer), &[254, 253, 252]);
    takes(&rt, &mut Memory::new(&mut []), &mut []);
}

#[test]
fn window(rt: HostRuntime) {
    let mut buffer = [1, 2, 3, 4];
    let mut memory = Memory::new(&mut buffer);
    takes(&rt, &mut Window::new(&mut memory, 1, 2), &mut [2, 3]);
    holds(&rt, &memory, &[1, 253, 252, 4]);
    takes(&rt, &mut Window::new(&mut memory, 3, u64::MAX), &mut [4]);
    holds(&rt, &memory, &[1, 253, 252, 251]);
    takes(
        &rt,
        &mut Window::new(&mut memory, u64::MAX, u64::MAX),
        &mut [],
    );
    holds(&rt, &memory, &[1, 253, 252, 251]);
}

#[test]
fn join(rt: HostRuntime) {
    let mut front = [1, 2];
    let mut back = [3, 4, 5];
    let mut join = Join::new(Memory::new(&mut front), Memory::new(&mut back));
    takes(&rt, &mut join, &mut [1, 2, 3, 4, 5]);
    let (first, second) = join.release();
    holds(&rt, &first, &[254, 253]);
    holds(&rt, &Held::new(second.release()), &[252, 251, 250]);
}

#[test]
fn lent(rt: HostRuntime) -> Result<(), Fail> {
    let mut buffer = [1, 2, 3];
    put(&mut buffer, 2, 9)?;
    refused_at(&rt, put(&mut buffer, 3, 9), 3);
    holds(&rt, &Held::new(taken_back(&mut buffer, 0, 8)), &[8, 2, 9]);
    holds(&rt, &Held::new(&buffer), &[8, 2, 9]);
    Ok(())
}
