// One element of a list in a box, with the offset at which the next one begins.
#[derive(Clone, Copy, Debug, PartialEq, Eq)]
pub struct Item<T> {
    pub value: T,
    pub next: usize,
}
