// Where a value stands in a line: in which repetition of the cycle, and in which slot of it.
#[derive(Clone, Copy)]
pub(crate) struct Seat {
    pub turn: u64,
    pub slot: usize,
}
