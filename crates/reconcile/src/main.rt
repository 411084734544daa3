//! Prints what the boxes of each lane say, and that they are the same bytes when they are written back; and of a lane's raw
//! frame, that it is the same bytes read straight and through the lane's ring.

#![tactic(auto)]

mod arguments;
mod failure;
mod layout;
mod names;
mod received;
mod returned;
mod ringed;
mod shown;
mod statement;

use arguments::lanes_of;
use failure::Failure;
use received::receive;
use statement::print_lane;
use std::env;

fn run(rt: &HostRuntime) -> Result<(), Failure> {
    let heap = rt.alloc();
    let words: Vec<String> = env::args(rt)?.skip(1).collect(heap)?;
    let lanes = lanes_of(heap, &words)?;
    // All files are read before a line is printed, so that there is a whole statement or none.
    let received = receive(rt, &lanes)?;
    for lane in &received {
        print_lane(rt, lane)?;
    }
    Ok(())
}

fn main(rt: HostRuntime) -> Result<(), Failure> {
    run(&rt)
}
